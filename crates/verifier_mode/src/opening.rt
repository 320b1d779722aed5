// What the next piece of a proof opens.
ghost use Rattle.std.specs.Prelude.{◌≡◌, ℕ, List, bytes_eq, option_map, Err, IfOk};
ghost use Rattle.core_terms.specs.Formats.{Hash};
ghost use Rattle.core_terms.specs.ProgramTypes.{types_by_number, types_meaning};
ghost use Rattle.core_terms.specs.Projection.{digest_at};
ghost use Rattle.core_terms.specs.TypeTables.{type_at};
ghost use Rattle.core_terms.specs.Types.{AuthTy, Table, Ty};
ghost use Rattle.core_terms.specs.Values.{DigestV, Value};
ghost use Rattle.ideal_meaning.specs.Checked.{Taking, cause_of, take_piece};
ghost use Rattle.ideal_meaning.specs.Frames.{Offer, Offers};
ghost use Rattle.lam_outside.specs.Causes.{Rose};
ghost use Rattle.proof_stream.specs.Incoming.{FrameCause};
ghost use Rattle.proof_stream.specs.declared.frame.Frame.{Frame};
ghost use Rattle.value_store.specs.Markings.{HasLimit, VerifierMarking};
ghost use Rattle.value_store.specs.Standing.{Keeps, StandsFor, VerifierNodes};
ghost use Rattle.value_store.specs.declared.node.Ref.{Ref as Refers};
ghost use Rattle.mode_vm.specs.Openings.{Counts, OpensSome};
ghost use Rattle.verifier_mode.specs.LastReads.{IsRead, KnowsLast};
ghost use Rattle.verifier_mode.specs.Faults.{FaultTellsCause, end_told, fault_cause, stop_cause};
ghost use Rattle.verifier_mode.specs.Takings.{PieceOpens, behind_piece};

use crate::last_read::{LastRead, value_again};
use crate::verifier::VerifierFault;
use core_terms::{Cause, Digest, TyId, Types};
use mode_vm::Stop;
use proof_stream::FrameEnd;
use shallow_codec::{UnspellFault, unspell};
use value_store::{Held, Nodes, Ref, View};

/// The piece that is asked for: its number, and the digest that is held.
#[derive(Clone, Copy)]
pub struct Asked {
    pub place: u64,
    pub want: Digest,
}

/// Opens a piece, whose digest is `found`, as the one that is asked for at a type. Where it is the last new piece, at the same type,
/// it isn't read again.
// Inlined, as is all that is done once for each piece: results of many words are matched at once.
#[inline(always)]
pub(crate) fn open_piece<N: Nodes>(
    types: &Types,
    store: &mut N,
    ty: TyId,
    asked: Asked,
    piece: &[u8],
    found: Digest,
    last: &Option<LastRead>,
) -> Result<Ref, Stop<VerifierFault>>
    requires knows { KnowsLast types.now (N.nodes store.old) last.now }
    requires limit { HasLimit (types_meaning types.now) (N.lent store.old) }
    ensures some { (hash : Hash) → OpensSome (VerifierMarking hash) (types_meaning types.now) (N.nodes store.new) (type_at (types_by_number types.now) ty) result }
    ensures opens { (hash : Hash) (left : ℕ) (more : Offer) (w : Taking) → found.0 ≡ digest_at hash (types_meaning types.now) (type_at (types_by_number types.now) ty) piece.now
        → PieceOpens (types_meaning types.now) (N.nodes store.new) (type_at (types_by_number types.now) ty)
        (take_piece hash (types_meaning types.now) (type_at (types_by_number types.now) ty) asked.want.0 asked.place (Offers piece.now left more) w) (behind_piece asked.place left more) result }
    ensures read { IfOk result (IsRead types.now (N.nodes store.new) ty piece.now) }
    ensures told { FaultTellsCause result }
    ensures keeps { Keeps (N.nodes store.old) (N.nodes store.new) }
    ensures lent { N.lent store.new ≡ N.lent store.old }
{
    if !are_same(found, asked.want) {
        return Err(Stop::Mode(VerifierFault::Rejected(Cause::WrongPiece(
            asked.place,
            asked.want,
            found,
        ))));
    }
    if let Some(value) = value_again(last, ty, piece) {
        return Ok(value);
    }
    match unspell(store.alloc(), types, store, piece, ty) {
        Ok(r) => Ok(r),
        Err(UnspellFault::Bad(offset)) => Err(Stop::Mode(VerifierFault::Rejected(Cause::BadPiece(
            asked.place,
            offset,
        )))),
        Err(UnspellFault::NoMemory) => Err(Stop::NoMemory),
    }
}

/// What stops a run where the piece with this number is asked for, and there is no further frame.
pub fn stop_of(end: FrameEnd, place: u64) -> Stop<VerifierFault>
    ensures cause { (want : List ℕ) → stop_cause result ≡ option_map (λ e. cause_of e place want) (end_told end) }
    ensures faults { (old new : ℕ) → FrameCause {T = Frame} old new (Err end) → Counts {A = Refers} fault_cause Rose old new (Err result) }
{
    match end {
        FrameEnd::End => Stop::Mode(VerifierFault::Rejected(Cause::Short(place))),
        FrameEnd::BadKind(kind) => {
            Stop::Mode(VerifierFault::Rejected(Cause::BadKind(place, kind)))
        }
        FrameEnd::Cut => Stop::Mode(VerifierFault::Rejected(Cause::Cut(place))),
        FrameEnd::PieceLong(len) => {
            Stop::Mode(VerifierFault::Rejected(Cause::PieceLong(place, len)))
        }
        FrameEnd::ReadFault => Stop::Mode(VerifierFault::ReadFault),
        FrameEnd::NoMemory => Stop::NoMemory,
    }
}

/// Whether two digests are the same, in all of their bytes.
pub fn are_same(a: Digest, b: Digest) -> bool
    ensures { result ≡ bytes_eq a.0 b.0 }
{
    a.0.as_slice() == b.0.as_slice()
}

/// The digest that the node of an authenticated value holds.
pub fn held_digest<N: Nodes>(store: &N, r: Ref) -> Digest
    requires { (types : Table) × (t : Ty) × (x : Value) × StandsFor VerifierNodes types (N.nodes store.now) r.0 (AuthTy t) x }
    ensures { (types : Table) (t : Ty) (x : Value) → StandsFor VerifierNodes types (N.nodes store.now) r.0 (AuthTy t) x → x ≡ DigestV result.0 }
{
    match store.view(r) {
        View::Auth(Held::Both(digest, _)) => digest,
        View::Auth(Held::Only(digest)) => digest,
        _ => unreachable!(),
    }
}
