// The verifier over pieces that are fetched, as a mode of the machine.
ghost use Rattle.std.specs.Prelude.{◌≡◌};
ghost use Rattle.core_terms.specs.Fronts.{AreFronts};
ghost use Rattle.lam_outside.specs.Causes.{Rose};
ghost use Rattle.value_store.specs.Markings.{FetcherMarking};
ghost use Rattle.ideal_meaning.specs.Fetched.{Got as Meant};
ghost use Rattle.piece_fetch.specs.Faults.{fault_cause};
ghost use Rattle.piece_fetch.specs.Answerings.{IsTo, MayGive, MayStop};

use crate::opening::open_piece;
use core_terms::{Digest, Fronts, Hash32, TyId, Types};
use mode_vm::{Mode, Stop};
use shallow_codec::{SpareBuffer, spell_into};
use std::alloc::Global;
use std::marker::PhantomData;
use value_store::{Held, Nodes, Ref};
use verifier_mode::{Asked, held_digest};
use wire_form::{Fetch, FetchStop, Got, Wire};

/// Why the verifier stops a run. A piece goes by its place: pieces are numbered from 0, as they are asked for.
#[derive(Clone, Copy)]
pub enum FetcherFault {
    /// There is no piece with this digest, which is held.
    Missing(u64, Digest),
    /// No answer to this digest is read.
    Broken(u64, Digest, Wire),
    /// The digest held, and the piece's, which differs from it.
    WrongPiece(u64, Digest, Digest),
    /// The digests agree, and the piece is no spelling at the type behind its front: the offset of its first fault in the piece.
    BadPiece(u64, u32),
    /// The outside failed, and its count of faults rose.
    Failed,
}

/// The verifier over pieces that are fetched: `auth` digests the spelling of the value in hand, `unauth` asks for the piece with the
/// digest that is held.
///
/// It holds the piece in hand. The nodes of what is read stay in the store.
#[derive(Drop)]
pub struct Fetcher<H, F> {
    place: u64,
    fronts: Fronts,
    spare: SpareBuffer,
    hash: PhantomData<H>,
    fetch: PhantomData<F>,
}

impl<H: Hash32, F: Fetch> Fetcher<H, F> {
    /// A verifier before its first piece. It digests behind these fronts, and looks for them in front of what it reads.
    pub fn new(alloc: Global, fronts: Fronts) -> Self
        ensures place { result.place ≡ 0 }
        ensures fronts { result.fronts ≡ fronts }
    {
        Fetcher {
            place: 0,
            fronts,
            spare: SpareBuffer::new(alloc),
            hash: PhantomData,
            fetch: PhantomData,
        }
    }
}

impl<H: Hash32, F: Fetch> Mode for Fetcher<H, F> {
    type Fault = FetcherFault;

    type World = F;

    ghost marking = { FetcherMarking H.hash };

    ghost Follows = { λ t mode world nodes w. ⊥ };

    ghost cause = { fault_cause };

    ghost faults = { λ world. F.faults world };

    ghost Rose = { Rose };

    ghost Rest = { F.Rest };

    ghost rest = { λ world. F.rest world };

    ghost moves_not = { λ a v. tt };

    ghost moves_on = { λ a b c v w x h k. tt };

    ghost Asks = { Unit {0} };

    ghost Answer = { Meant };

    ghost May = { λ v a w. MayGive H.hash F.gives v a w };

    ghost Last = { λ v a f w. MayStop H.hash F.gives v a (fault_cause f) w };

    ghost Expects = { λ mode w got. IsTo mode.place got w };

    ghost opened = { λ mode. mode.place };

    ghost Knows = { λ t mode nodes. AreFronts H.hash t mode.fronts };

    ghost follows_on = { λ t mode world old new w k h. h };

    ghost knows_on = { λ t mode old new k h. h };

    fn auth<N: Nodes>(
        &mut self,
        types: &Types,
        store: &mut N,
        ty: TyId,
        v: Ref,
    ) -> Result<Ref, Stop<FetcherFault>> {
        let mut spelling = self.spare.take();
        spell_into(types, store, v, ty, &mut spelling)?;
        let digest = H::of_pair(self.fronts.front(ty), &spelling);
        self.spare.keep(spelling);
        Ok(store.put_auth(Held::Only(digest))?)
    }

    fn unauth<N: Nodes>(
        &mut self,
        world: &mut F,
        types: &Types,
        store: &mut N,
        ty: TyId,
        v: Ref,
    ) -> Result<Ref, Stop<FetcherFault>> {
        let asked = Asked {
            place: self.place,
            want: held_digest(store, v),
        };
        match world.fetch(store.alloc(), &asked.want) {
            Ok(Got::Piece(piece)) => {
                let found = H::of(piece.as_bytes());
                let front = self.fronts.front(ty);
                let opened = open_piece(types, store, ty, front, asked, piece.as_bytes(), found)?;
                self.place += 1;
                Ok(opened)
            }
            Ok(Got::Lack) => Err(Stop::Mode(FetcherFault::Missing(asked.place, asked.want))),
            Ok(Got::Broken(wire)) => {
                Err(Stop::Mode(FetcherFault::Broken(asked.place, asked.want, wire)))
            }
            Err(FetchStop::Failed) => Err(Stop::Mode(FetcherFault::Failed)),
            Err(FetchStop::NoMemory) => Err(Stop::NoMemory),
        }
    }
}
