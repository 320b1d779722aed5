// The fields of a constructor value, and the elements of an array, as nodes of the store.
ghost use Rattle.std.specs.Prelude.{◌≡◌, ◌*◌, length, option_map, IfOk, IfSome, ◌≤◌};
ghost use Rattle.images.specs.Records.{numbers_of};
ghost use Rattle.images.specs.StoredRecords.{first_from, refs_from};

use crate::stored::StoredRecord;
use crate::stored_records::StoredRecords;
use core_terms::TyId;
use std::alloc::{AllocError, Global};
use value_store::Ref;

/// The nodes of the records with these numbers, of 4 bytes each; none where one is no earlier record, or not of the type beside it.
// Of its two callers arrays are rare.
#[inline(always)]
pub(crate) fn field_refs(
    alloc: Global,
    loaded: &StoredRecords,
    types: &[TyId],
    numbers: &[u8],
) -> Result<Option<Vec<Ref>>, AllocError>
    requires { length numbers.now ≡ 4 * length types.now }
    ensures { IfOk result (λ found. option_map (λ refs. refs.items) found ≡ refs_from loaded.now (numbers_of (length types.now) numbers.now) types.now) }
{
    let mut refs = Vec::new(alloc);
    let mut rest = numbers;
    for ty in types {
        let Some((number, behind)) = rest.split_first_chunk::<4>() else {
            unreachable!();
        };
        let Some(found) = loaded.get(u32::from_be_bytes(*number) as usize) else {
            return Ok(None);
        };
        if !found.is_of(*ty) {
            return Ok(None);
        }
        refs.push(found.value)?;
        rest = behind;
    }
    Ok(Some(refs))
}

/// The first of so many records with these numbers, of 4 bytes each; none where there is no such, or it is no earlier record.
pub(crate) fn first_record(
    loaded: &StoredRecords,
    count: u8,
    numbers: &[u8],
) -> Option<StoredRecord>
    requires { length numbers.now ≡ 4 * count }
    ensures found { result ≡ first_from loaded.now (numbers_of count numbers.now) }
    ensures some { IfSome result (λ _. 1 ≤ count) }
{
    if count == 0 {
        return None;
    }
    let Some((number, _)) = numbers.split_first_chunk::<4>() else {
        unreachable!();
    };
    loaded.get(u32::from_be_bytes(*number) as usize)
}
