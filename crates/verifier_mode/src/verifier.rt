// The verifier as a mode of the machine.
ghost use Rattle.std.specs.Prelude.{◌≡◌, None};
ghost use Rattle.core_terms.specs.Fronts.{AreFronts};
ghost use Rattle.core_terms.specs.ProgramTypes.{types_meaning};
ghost use Rattle.lam_outside.specs.Causes.{Rose};
ghost use Rattle.proof_stream.specs.Readers.{limit_of};
ghost use Rattle.value_store.specs.Markings.{VerifierMarking};
ghost use Rattle.verifier_mode.specs.Faults.{fault_cause};
ghost use Rattle.verifier_mode.specs.Takings.{FollowsFrames, MovesOn};

use crate::last_read::{LastRead, note_read};
use crate::opening::{Asked, held_digest, open_piece, stop_of};
use core_terms::{Cause, Fronts, Hash32, TyId, Types};
use lam_outside::Source;
use mode_vm::{Mode, Stop};
use proof_stream::{Frame, FrameReader};
use reuse_buffer::Ring;
use shallow_codec::{SpareBuffer, spell_into};
use std::alloc::Global;
use std::marker::PhantomData;
use value_store::{Held, Nodes, Ref};

/// Why the verifier stops a run.
#[derive(Clone, Copy)]
pub enum VerifierFault {
    /// The proof is rejected, for this cause.
    Rejected(Cause),
    /// The source failed, and its count of faults rose.
    ReadFault,
}

/// The verifier over a source of frames: `auth` digests the spelling of the value in hand, `unauth` takes the next piece.
///
/// Of the proof it holds the piece in hand, the last new piece and the ring. The last new piece, where it comes again at the same type, is
/// digested, but its value isn't made a second time. Any other kept piece is read again each time that it is named. The nodes of what is
/// read stay in the store.
#[derive(Drop)]
pub struct Verifier<H, S> {
    reader: FrameReader,
    ring: Ring,
    place: u64,
    last: Option<LastRead>,
    fronts: Fronts,
    spare: SpareBuffer,
    hash: PhantomData<H>,
    source: PhantomData<S>,
}

impl<H: Hash32, S: Source> Verifier<H, S> {
    /// A verifier before its first piece, which may have at most `limit` bytes, with the pieces that came before. It digests behind these
    /// fronts.
    pub fn new(alloc: Global, limit: usize, ring: Ring, fronts: Fronts) -> Self
        ensures limit { limit_of result.reader ≡ limit }
        ensures ring { result.ring ≡ ring }
        ensures place { result.place ≡ 0 }
        ensures last { result.last ≡ None }
        ensures fronts { result.fronts ≡ fronts }
    {
        Verifier {
            reader: FrameReader::new(alloc, limit),
            ring,
            place: 0,
            last: None,
            fronts,
            spare: SpareBuffer::new(alloc),
            hash: PhantomData,
            source: PhantomData,
        }
    }

    /// The ring, as the run left it.
    pub fn into_ring(self) -> Ring
        ensures { result ≡ self.ring }
    {
        let Verifier {
            reader,
            ring,
            place: _,
            last,
            fronts,
            spare,
            hash: _,
            source: _,
        } = self;
        drop(reader);
        drop(last);
        drop(fronts);
        drop(spare);
        ring
    }
}

impl<H: Hash32, S: Source> Mode for Verifier<H, S> {
    ghost use Rattle.verifier_mode.specs.LastReads.{KnowsLast, knows_last_on};
    ghost use Rattle.verifier_mode.specs.Moving.{moves_not, moves_on};

    type Fault = VerifierFault;

    type World = S;

    ghost marking = { VerifierMarking H.hash };

    ghost Follows = { λ t mode world nodes w. FollowsFrames (types_meaning t) (limit_of mode.reader) mode.ring mode.place (S.left world) w };

    ghost cause = { fault_cause };

    ghost faults = { λ world. S.faults world };

    ghost Rose = { Rose };

    ghost Rest = { S.Rest };

    ghost rest = { λ world. S.rest world };

    ghost Moves = { λ a v b w. MovesOn (limit_of a.reader) a.ring (S.left v) (limit_of b.reader) b.ring (S.left w) };

    ghost moves_not = { λ a v. moves_not (limit_of a.reader) a.ring (S.left v) };

    ghost moves_on = { λ a b c v w x h k.
        moves_on (limit_of a.reader) a.ring (S.left v) (limit_of b.reader) b.ring (S.left w) (limit_of c.reader) c.ring (S.left x) h k };

    ghost May = { λ v a w. ⊥ };

    ghost Last = { λ v a f w. ⊥ };

    ghost Expects = { λ mode w got. ⊥ };

    ghost opened = { λ mode. mode.place };

    ghost Knows = { λ t mode nodes. KnowsLast t nodes mode.last × AreFronts H.hash t mode.fronts };

    ghost follows_on = { λ t mode world old new w k h. h };

    ghost knows_on = { λ t mode old new k h. (knows_last_on t mode.last old new k h.0, h.1) };

    fn auth<N: Nodes>(
        &mut self,
        types: &Types,
        store: &mut N,
        ty: TyId,
        v: Ref,
    ) -> Result<Ref, Stop<VerifierFault>> {
        let mut spelling = self.spare.take();
        spell_into(types, store, v, ty, &mut spelling)?;
        let digest = H::of_pair(self.fronts.front(ty), &spelling);
        self.spare.keep(spelling);
        Ok(store.put_auth(Held::Only(digest))?)
    }

    fn unauth<N: Nodes>(
        &mut self,
        world: &mut S,
        types: &Types,
        store: &mut N,
        ty: TyId,
        v: Ref,
    ) -> Result<Ref, Stop<VerifierFault>> {
        let asked = Asked {
            place: self.place,
            want: held_digest(store, v),
        };
        match self.reader.next(world) {
            Ok(Frame::New) => {
                let piece = self.reader.take_piece();
                let found = H::of_pair(self.fronts.front(ty), &piece);
                let fresh = open_piece(types, store, ty, asked, &piece, found, &self.last)?;
                note_read(&mut self.last, store.alloc(), ty, &piece, fresh);
                let oldest = self.ring.push_unindexed(piece);
                self.reader.reuse(oldest);
                self.place += 1;
                Ok(fresh)
            }
            Ok(Frame::Back(k)) => {
                let held = self.ring.held() as u16;
                let Some(piece) = self.ring.get(k) else {
                    return Err(Stop::Mode(VerifierFault::Rejected(Cause::BadUse(
                        asked.place,
                        k,
                        held,
                    ))));
                };
                let kept = H::of_pair(self.fronts.front(ty), piece);
                let used = open_piece(types, store, ty, asked, piece, kept, &self.last)?;
                self.place += 1;
                Ok(used)
            }
            Err(end) => Err(stop_of(end, asked.place)),
        }
    }
}
