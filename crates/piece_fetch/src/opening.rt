// What a piece that was answered opens.
ghost use Rattle.std.specs.Prelude.{◌≡◌, ◌≤◌, ℕ, List, MatchResult, length};
ghost use Rattle.core_terms.specs.Formats.{Hash};
ghost use Rattle.core_terms.specs.ProgramTypes.{named_table, types_by_number, types_meaning};
ghost use Rattle.core_terms.specs.Projection.{read_at};
ghost use Rattle.core_terms.specs.Reading.{BadAt, Read};
ghost use Rattle.core_terms.specs.TypeTables.{type_at};
ghost use Rattle.core_terms.specs.Values.{Value};
ghost use Rattle.ideal_meaning.specs.Checked.{Taking, take_as};
ghost use Rattle.ideal_meaning.specs.Frames.{Offer, Offers};
ghost use Rattle.ideal_meaning.specs.PieceForms.{as_whole, front_at, further, read_behind};
ghost use Rattle.value_store.specs.Markings.{FetcherMarking, HasLimit};
ghost use Rattle.value_store.specs.Standing.{Keeps};
ghost use Rattle.shallow_codec.specs.Unspelled.{IsUnspelled};
ghost use Rattle.mode_vm.specs.Openings.{OpensSome};
ghost use Rattle.verifier_mode.specs.Takings.{behind_piece};
ghost use Rattle.piece_fetch.specs.Openings.{PieceOpens, RefusesPiece};

use crate::fetcher::FetcherFault;
use core_terms::{Digest, TyId, Types};
use mode_vm::Stop;
use shallow_codec::{UnspellFault, unspell};
use value_store::{Nodes, Ref};
use verifier_mode::{Asked, are_same};

/// Opens a piece, whose digest is `found`, as the one that is asked for at a type. The front of the type, of at most 32 bytes, stands
/// before the spelling.
///
/// # Errors
///
/// `WrongPiece` where the digest isn't the one held, and else `BadPiece` where the piece is no spelling behind the front. `NoMemory` where
/// there is no memory for the nodes.
pub(crate) fn open_piece<N: Nodes>(
    types: &Types,
    store: &mut N,
    ty: TyId,
    front: &[u8],
    asked: Asked,
    piece: &[u8],
    found: Digest,
) -> Result<Ref, Stop<FetcherFault>>
    requires limit { HasLimit (types_meaning types.now) (N.lent store.old) }
    requires short { length front.now ≤ 32 }
    ensures some { (hash : Hash) → OpensSome (FetcherMarking hash) (types_meaning types.now) (N.nodes store.new) (type_at (types_by_number types.now) ty) result }
    ensures opens { let P = types_meaning types.now in let t = type_at (types_by_number types.now) ty in
        (hash : Hash) (more : Offer) (w : Taking) → found.0 ≡ hash piece.now → front.now ≡ front_at hash P t
        → PieceOpens P (N.nodes store.new) t (take_as hash P (as_whole hash P) t asked.want.0 asked.place (Offers piece.now 0 more) w) (behind_piece asked.place 0 more) result }
    ensures refuses { RefusesPiece asked.want.0 found.0 result }
    ensures keeps { Keeps (N.nodes store.old) (N.nodes store.new) }
    ensures lent { N.lent store.new ≡ N.lent store.old }
{
    if !are_same(found, asked.want) {
        return Err(Stop::Mode(FetcherFault::WrongPiece(asked.place, asked.want, found)));
    }
    match unspell_behind(types, store, ty, front, piece) {
        Ok(value) => Ok(value),
        Err(UnspellFault::Bad(offset)) => {
            Err(Stop::Mode(FetcherFault::BadPiece(asked.place, offset)))
        }
        Err(UnspellFault::NoMemory) => Err(Stop::NoMemory),
    }
}

/// Puts the value that a piece spells at a type, behind this front of at most 32 bytes, into the store.
///
/// # Errors
///
/// `Bad` with the offset in the piece of the first byte that is missing or isn't the front's, or else of the spelling's first fault.
/// `NoMemory` where there is no memory for the nodes.
fn unspell_behind<N: Nodes>(
    types: &Types,
    store: &mut N,
    ty: TyId,
    front: &[u8],
    piece: &[u8],
) -> Result<Ref, UnspellFault>
    requires limit { HasLimit (types_meaning types.now) (N.lent store.old) }
    requires short { length front.now ≤ 32 }
    ensures value { let t = type_at (types_by_number types.now) ty in
        IsUnspelled (named_table types.now) (N.nodes store.new) t (read_behind front.now (read_at (types_meaning types.now) t) piece.now) result }
    ensures keeps { Keeps (N.nodes store.old) (N.nodes store.new) }
    ensures lent { N.lent store.new ≡ N.lent store.old }
{
    let spelling = match behind_front(front, piece) {
        Ok(spelling) => spelling,
        Err(offset) => return Err(UnspellFault::Bad(offset)),
    };
    match unspell(store.alloc(), types, store, spelling, ty) {
        Ok(value) => Ok(value),
        Err(UnspellFault::Bad(offset)) => Err(UnspellFault::Bad(front.len() as u32 + offset)),
        Err(UnspellFault::NoMemory) => Err(UnspellFault::NoMemory),
    }
}

/// The spelling behind the front of a piece; or the offset of the first byte that is missing or isn't the front's.
fn behind_front<'a>(front: &[u8], piece: &'a [u8]) -> Result<&'a [u8], u32>
    requires { length front.now ≤ 32 }
    ensures { (reading : List ℕ → Read Value) → MatchResult result
        (λ spelling. read_behind front.now reading piece.now ≡ further (length front.now) (reading spelling.now))
        (λ offset. read_behind front.now reading piece.now ≡ BadAt offset) }
{
    for (place, byte) in front.iter().enumerate() {
        if piece.get(place) != Some(byte) {
            return Err(place as u32);
        }
    }
    Ok(&piece[front.len()..])
}
