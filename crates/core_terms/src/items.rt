// The types of the elements of an array.
ghost use Rattle.std.specs.Prelude.{◌≡◌, replicate, IfOk};

use crate::TyId;
use std::alloc::{AllocError, Global};

/// So many times the type of an element.
///
/// # Errors
///
/// `AllocError` where there is no memory for them.
pub fn item_types(item: TyId, count: u8, alloc: Global) -> Result<Vec<TyId>, AllocError>
    ensures { IfOk result (λ types. types.items ≡ replicate count item) }
{
    let types = vec![in alloc; item; usize::from(count)]?;
    Ok(types)
}
