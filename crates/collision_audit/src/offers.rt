// What a proof offers, compared with the honest pieces.
ghost use Rattle.std.specs.Prelude.{◌≡◌, ◌≤◌, ◌<◌, ◌^◌, ℕ, List, drop, length, Some, None, Err};
ghost use Rattle.std.specs.Option.{ForSome};
ghost use Rattle.core_terms.specs.ProgramTypes.{types_meaning};
ghost use Rattle.ideal_meaning.specs.Frames.{Offer, header};
ghost use Rattle.proof_stream.specs.Readers.{limit_of, piece_of};
ghost use Rattle.proof_stream.specs.Incoming.{FrameCause};
ghost use Rattle.proof_stream.specs.declared.frame.Frame.{Frame as FrameTold};
ghost use Rattle.collision_audit.specs.AuditsInCode.{AuditCause};
ghost use Rattle.collision_audit.specs.Comparing.{ComparesKept, ComparesNew, EndsAs, IsAhead, IsCounted, Opens, TakesPiece};

use crate::audited::{AuditFault, Audited};
use core_terms::{Cause, Types};
use lam_outside::Source;
use mode_vm::Stop;
use proof_stream::{Frame, FrameEnd, FrameReader, HeadEnd};
use reuse_buffer::Ring;
use std::alloc::{AllocError, Global};
use verifier_mode::{VerifierFault, stop_of};

/// What is offered in the place of an honest piece.
#[derive(Drop)]
pub(crate) enum Offered {
    /// The honest piece.
    Same,
    /// Another piece.
    Other(Vec<u8>),
    /// No piece, for this cause.
    Ended(Cause),
}

/// The pieces that a proof offers, one after another. Of the proof it holds a piece and the pieces kept.
#[derive(Drop)]
pub(crate) struct Offers {
    pub(crate) alloc: Global,
    pub(crate) reader: FrameReader,
    pub(crate) ring: Ring,
}

impl Offers {
    /// Takes the header of a proof file, as the format of a program with these types has it; none where there is no good one.
    pub(crate) fn open<S: Source>(
        alloc: Global,
        types: &Types,
        proof: &mut S,
    ) -> Result<Option<Self>, AuditFault>
        ensures opens { let format = (types_meaning types.now).format in ForSome (S.left proof.old)
            (λ bytes. Opens format.limit (header format bytes) bytes (S.left proof.new) result) }
        ensures faults { AuditCause (S.faults proof.old) (S.faults proof.new) result }
        ensures rest { S.rest proof.new ≡ S.rest proof.old }
    {
        let mut reader = FrameReader::new(alloc, types.spelling_limit());
        let size = match reader.header(proof, types.proof_magic(), types.most_kept()) {
            Ok(size) => size,
            Err(HeadEnd::Header) => return Ok(None),
            Err(HeadEnd::ReadFault) => return Err(AuditFault::ReadFault),
        };
        let ring = Ring::with_size(alloc, size)?;
        Ok(Some(Offers {
            alloc,
            reader,
            ring,
        }))
    }

    /// Takes the next piece, where `honest` is the honest one and `place` its number. After an answer other than `Same` it may only be
    /// dropped.
    pub(crate) fn take<S: Source>(
        &mut self,
        proof: &mut S,
        place: u64,
        honest: &[u8],
    ) -> Result<Offered, AuditFault>
        ensures takes { (count : ℕ) (o : Offer) → IsAhead (limit_of self.old.reader) self.old.ring (S.left proof.old) count o
            → TakesPiece place honest.now o (limit_of self.new.reader) self.new.ring (S.left proof.new) result }
        ensures limit { limit_of self.new.reader ≡ limit_of self.old.reader }
        ensures faults { AuditCause (S.faults proof.old) (S.faults proof.new) result }
        ensures rest { S.rest proof.new ≡ S.rest proof.old }
    {
        match self.reader.next(proof) {
            Ok(Frame::New) => Ok(self.compare_new(honest)),
            Ok(Frame::Back(k)) => self.compare_kept(place, k, honest),
            Err(end) => ended(end, place),
        }
    }

    /// Compares the new piece in hand; where it is the honest one, it is kept.
    fn compare_new(&mut self, honest: &[u8]) -> Offered
        ensures compares { ComparesNew (piece_of self.old.reader) honest.now self.old.ring self.new.ring result }
        ensures limit { limit_of self.new.reader ≡ limit_of self.old.reader }
    {
        let piece = self.reader.take_piece();
        if piece.as_slice() != honest {
            return Offered::Other(piece);
        }
        self.ring.push(piece);
        Offered::Same
    }

    /// Compares the k-th kept piece, 0 being the last.
    fn compare_kept(&self, place: u64, k: u16, honest: &[u8]) -> Result<Offered, AuditFault>
        ensures compares { ComparesKept place k honest.now self.now.ring result }
        ensures faults { (count : ℕ) → AuditCause count count result }
    {
        let held = self.ring.held() as u16;
        let Some(piece) = self.ring.get(k) else {
            return Ok(Offered::Ended(Cause::BadUse(place, k, held)));
        };
        if piece != honest {
            return Ok(Offered::Other(piece.to_vec(self.alloc)?));
        }
        Ok(Offered::Same)
    }

    /// Counts the bytes that are left behind the last piece.
    pub(crate) fn count_rest<S: Source>(
        &mut self,
        proof: &mut S,
    ) -> Result<Option<Audited>, AuditFault>
        ensures counts { ForSome (S.left proof.old) (λ bytes. IsCounted bytes (S.left proof.new) result) }
        ensures faults { AuditCause (S.faults proof.old) (S.faults proof.new) result }
        ensures rest { S.rest proof.new ≡ S.rest proof.old }
    {
        let left = self.reader.count_rest(proof)?;
        if left > 0 {
            return Ok(Some(Audited::Rejected(Cause::Leftover(left))));
        }
        Ok(None)
    }
}

/// Why there is no piece with this number.
fn ended(end: FrameEnd, place: u64) -> Result<Offered, AuditFault>
    ensures is { EndsAs end place result }
    ensures faults { (old new : ℕ) → FrameCause {T = FrameTold} old new (Err end) → AuditCause old new result }
{
    match stop_of(end, place) {
        Stop::Mode(VerifierFault::Rejected(cause)) => Ok(Offered::Ended(cause)),
        Stop::Mode(VerifierFault::ReadFault) => Err(AuditFault::ReadFault),
        Stop::NoMemory => Err(AuditFault::NoMemory),
    }
}
