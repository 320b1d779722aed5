// Reading a spelling into a store.
ghost use Rattle.std.specs.Prelude.{◌≡◌, IfOk, OnErr};
ghost use Rattle.core_terms.specs.ProgramTypes.{types_meaning};
ghost use Rattle.core_terms.specs.Projection.{read_at};
ghost use Rattle.shallow_codec.specs.ProgramTypes.{table, ty_of};
ghost use Rattle.shallow_codec.specs.Unspelled.{IsUnspelled, StandsForSpelled};
ghost use Rattle.value_store.specs.Standing.{Grows, Keeps};

use crate::UnspellFault;
use crate::cursor::Cursor;
use crate::nothings::Nothings;
use crate::reader::Reader;
use core_terms::{TyId, Types};
use std::alloc::Global;
use value_store::{Nodes, Ref};

/// The greatest number of levels of a value: `depth_limit` of the formats.
const DEPTH_LIMIT: u32 = 512;

/// Puts the value that the bytes spell at a type into the store, whose limit is that of the types' format. Each digest becomes a verifier's
/// node. A pair that is spelled by nothing is put once for its type, however often it is a part; each unit that isn't in such a pair is a
/// node of its own. After an error the store is as it was.
///
/// # Errors
///
/// `Bad` where the bytes spell nothing at the type, with the offset of the first fault. `NoMemory` where there is no memory for the
/// nodes.
#[inline(always)]
pub fn unspell<N: Nodes>(
    alloc: Global,
    types: &Types,
    store: &mut N,
    bytes: &[u8],
    ty: TyId,
) -> Result<Ref, UnspellFault>
    requires limit { (N.lent store.old).limit ≡ (types_meaning types.now).format.limit }
    ensures value { IsUnspelled (table types.now) (N.nodes store.new) (ty_of types.now ty) (read_at (types_meaning types.now) (ty_of types.now ty) bytes.now) result }
    ensures spelled { IfOk result (StandsForSpelled (types_meaning types.now).format.limit (table types.now) (N.nodes store.new) (ty_of types.now ty) bytes.now) }
    ensures grows { Grows (N.nodes store.old) (N.nodes store.new) }
    ensures lent { N.lent store.new ≡ N.lent store.old }
    ensures keeps { Keeps (N.nodes store.old) (N.nodes store.new) }
    ensures refused { OnErr result (N.nodes store.new ≡ N.nodes store.old) }
{
    let mark = store.mark();
    let result = read_whole(alloc, types, store, bytes, ty);
    if result.is_err() {
        store.cut_to(mark);
    }
    result
}

/// Puts the value that the bytes spell as a whole. After an error nodes may stand behind the others.
fn read_whole<N: Nodes>(
    alloc: Global,
    types: &Types,
    store: &mut N,
    bytes: &[u8],
    ty: TyId,
) -> Result<Ref, UnspellFault>
    requires limit { (N.lent store.old).limit ≡ (types_meaning types.now).format.limit }
    ensures value { IsUnspelled (table types.now) (N.nodes store.new) (ty_of types.now ty) (read_at (types_meaning types.now) (ty_of types.now ty) bytes.now) result }
    ensures grows { Grows (N.nodes store.old) (N.nodes store.new) }
    ensures lent { N.lent store.new ≡ N.lent store.old }
{
    let limit = types.spelling_limit();
    if bytes.len() > limit {
        return Err(UnspellFault::Bad(limit as u32));
    }
    let reader = Reader { types, alloc };
    let start = Cursor {
        offset: 0,
        rest: bytes,
    };
    let mut nothings = Nothings::new(alloc);
    let front = reader.value(store, &mut nothings, ty, DEPTH_LIMIT, start)?;
    if !front.behind.rest.is_empty() {
        return Err(front.behind.bad());
    }
    Ok(front.value)
}
