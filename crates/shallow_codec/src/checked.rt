// Checking a spelling.
ghost use Rattle.core_terms.specs.ProgramTypes.{types_meaning};
ghost use Rattle.core_terms.specs.Projection.{read_at};
ghost use Rattle.shallow_codec.specs.ProgramTypes.{ty_of};
ghost use Rattle.shallow_codec.specs.Unspelled.{IsRead};

use crate::{UnspellFault, unspell};
use core_terms::{TyId, Types};
use std::alloc::Global;
use value_store::Store;

/// Checks that the bytes spell a value of a type.
///
/// # Errors
///
/// `Bad` where they spell none, with the offset of the first fault. `NoMemory` where there is no memory for reading the value.
pub fn check_spelled(
    alloc: Global,
    types: &Types,
    bytes: &[u8],
    ty: TyId,
) -> Result<(), UnspellFault>
    ensures { IsRead (read_at (types_meaning types.now) (ty_of types.now ty) bytes.now) result }
{
    let mut store = Store::new(alloc, types.spelling_limit() as u32);
    unspell(alloc, types, &mut store, bytes, ty)?;
    Ok(())
}
