// What a record stands for, put into the store: its type is a part of the state's, and its value is within the limits.
ghost use Rattle.std.specs.Prelude.{◌≡◌, ◌*◌, List, Some, length};
ghost use Rattle.core_terms.specs.ProgramTypes.{types_meaning};
ghost use Rattle.core_terms.specs.Types.{UnitTy, BoolTy, IntTy, TextTy};
ghost use Rattle.core_terms.specs.Values.{UnitV, BoolV, IntV, TextV};
ghost use Rattle.images.specs.Images.{Entry, entry};
ghost use Rattle.images.specs.Images as meant;
ghost use Rattle.images.specs.Records as defined;
ghost use Rattle.value_store.specs.Markings.{Marking, HasLimit};
ghost use Rattle.value_store.specs.Standing.{Keeps};
ghost use Rattle.value_store.specs.Stores.{nodes_in, store_lent};
ghost use Rattle.images.specs.PartMarks.{IsMarksOf};
ghost use Rattle.images.specs.ReadRecords.{HasConstructor, record_told};
ghost use Rattle.images.specs.declared.record.Record.{Record};
ghost use Rattle.images.specs.StoredRecords.{AreKept, LoadsEntry};

use crate::ImageFault;
use crate::fields::{field_refs, first_record};
use crate::part_types::PartTypes;
use crate::record::ConstructorRecord;
use crate::stored::StoredRecord;
use crate::stored_records::StoredRecords;
use core_terms::{TyForm, item_types};
use std::alloc::Global;
use value_store::{Marker, Nodes, Store};

/// The number of bytes in which the spelling of a text has its length.
const LENGTH_BYTES: usize = 4;

/// The greatest number of elements of an array.
const MOST_ITEMS: u8 = 64;

/// The greatest depth of a value.
const MOST_DEPTH: u32 = 512;

/// The value of `unit`.
pub(crate) fn unit(
    parts: &PartTypes,
    store: &mut Store,
    number: u32,
) -> Result<StoredRecord, ImageFault>
    requires marked { IsMarksOf parts.now.types.now parts.now.marks.now }
    ensures loaded { (marking : Marking) → LoadsEntry marking parts.now.types.now (nodes_in store.new) number (Some (entry UnitTy UnitV)) result }
    ensures keeps { Keeps (nodes_in store.old) (nodes_in store.new) }
    ensures lent { store_lent store.new ≡ store_lent store.old }
{
    let Some(ty) = parts.part(TyForm::UnitForm) else {
        return Err(ImageFault::BadRecord(number));
    };
    let value = store.put_unit()?;
    Ok(StoredRecord { ty, value })
}

/// A bool.
pub(crate) fn bool(
    parts: &PartTypes,
    store: &mut Store,
    number: u32,
    value: bool,
) -> Result<StoredRecord, ImageFault>
    requires marked { IsMarksOf parts.now.types.now parts.now.marks.now }
    ensures loaded { (marking : Marking) → LoadsEntry marking parts.now.types.now (nodes_in store.new) number (Some (entry BoolTy (BoolV value))) result }
    ensures keeps { Keeps (nodes_in store.old) (nodes_in store.new) }
    ensures lent { store_lent store.new ≡ store_lent store.old }
{
    let Some(ty) = parts.part(TyForm::BoolForm) else {
        return Err(ImageFault::BadRecord(number));
    };
    let value = store.put_bool(value)?;
    Ok(StoredRecord { ty, value })
}

/// An int.
pub(crate) fn int(
    parts: &PartTypes,
    store: &mut Store,
    number: u32,
    value: i64,
) -> Result<StoredRecord, ImageFault>
    requires marked { IsMarksOf parts.now.types.now parts.now.marks.now }
    ensures loaded { (marking : Marking) → LoadsEntry marking parts.now.types.now (nodes_in store.new) number (Some (entry IntTy (IntV value))) result }
    ensures keeps { Keeps (nodes_in store.old) (nodes_in store.new) }
    ensures lent { store_lent store.new ≡ store_lent store.old }
{
    let Some(ty) = parts.part(TyForm::IntForm) else {
        return Err(ImageFault::BadRecord(number));
    };
    let value = store.put_int(value)?;
    Ok(StoredRecord { ty, value })
}

/// A text, which may have too many bytes.
pub(crate) fn text(
    parts: &PartTypes,
    store: &mut Store,
    number: u32,
    text: &str,
) -> Result<StoredRecord, ImageFault>
    requires marked { IsMarksOf parts.now.types.now parts.now.marks.now }
    requires limit { HasLimit (types_meaning parts.now.types.now) (store_lent store.old) }
    ensures loaded { (marking : Marking) → LoadsEntry marking parts.now.types.now (nodes_in store.new) number (Some (entry TextTy (TextV text.now))) result }
    ensures keeps { Keeps (nodes_in store.old) (nodes_in store.new) }
    ensures lent { store_lent store.new ≡ store_lent store.old }
{
    let Some(ty) = parts.part(TyForm::TextForm) else {
        return Err(ImageFault::BadRecord(number));
    };
    if text.len() > store.limit() as usize - LENGTH_BYTES {
        return Err(ImageFault::TooBig(number));
    }
    let value = store.put_text(text)?;
    Ok(StoredRecord { ty, value })
}

/// A pair, by the numbers of the records of its parts, which must be earlier ones.
pub(crate) fn pair(
    parts: &PartTypes,
    store: &mut Store,
    loaded: &StoredRecords,
    number: u32,
    first: u32,
    second: u32,
) -> Result<StoredRecord, ImageFault>
    requires marked { IsMarksOf parts.now.types.now parts.now.marks.now }
    requires limit { HasLimit (types_meaning parts.now.types.now) (store_lent store.old) }
    requires stored { (marking : Marking) × (entries : List Entry) × AreKept marking parts.now.types.now (nodes_in store.old) loaded.now entries }
    ensures loaded { (marking : Marking) (entries : List Entry) → AreKept marking parts.now.types.now (nodes_in store.old) loaded.now entries
        → LoadsEntry marking parts.now.types.now (nodes_in store.new) number (meant.stands_for (types_meaning parts.now.types.now).types entries (defined.PairRecord first second)) result }
    ensures keeps { Keeps (nodes_in store.old) (nodes_in store.new) }
    ensures lent { store_lent store.new ≡ store_lent store.old }
{
    let Some(first) = loaded.get(first as usize) else {
        return Err(ImageFault::BadRecord(number));
    };
    let Some(second) = loaded.get(second as usize) else {
        return Err(ImageFault::BadRecord(number));
    };
    let Some(ty) = parts.part(TyForm::PairForm(first.ty, second.ty)) else {
        return Err(ImageFault::BadRecord(number));
    };
    if store.shallow_size(first.value) + store.shallow_size(second.value) > store.limit() {
        return Err(ImageFault::TooBig(number));
    }
    if store
        .shallow_depth(first.value)
        .max(store.shallow_depth(second.value))
        >= MOST_DEPTH
    {
        return Err(ImageFault::TooDeep(number));
    }
    let value = store.put_pair(first.value, second.value)?;
    Ok(StoredRecord { ty, value })
}

/// An authenticated value, by the number of the record of what is authenticated, which must be an earlier one.
pub(crate) fn authenticated<M: Marker>(
    parts: &PartTypes,
    marker: &mut M,
    store: &mut Store,
    loaded: &StoredRecords,
    number: u32,
    inner: u32,
) -> Result<StoredRecord, ImageFault>
    requires marked { IsMarksOf parts.now.types.now parts.now.marks.now }
    requires knows { M.Knows parts.now.types.now marker.old }
    requires stored { (entries : List Entry) × AreKept M.marking parts.now.types.now (nodes_in store.old) loaded.now entries }
    ensures loaded { (entries : List Entry) → AreKept M.marking parts.now.types.now (nodes_in store.old) loaded.now entries
        → LoadsEntry M.marking parts.now.types.now (nodes_in store.new) number (meant.stands_for (types_meaning parts.now.types.now).types entries (defined.AuthRecord inner)) result }
    ensures keeps { Keeps (nodes_in store.old) (nodes_in store.new) }
    ensures lent { store_lent store.new ≡ store_lent store.old }
    ensures knows { M.Knows parts.now.types.now marker.new }
{
    let Some(inner) = loaded.get(inner as usize) else {
        return Err(ImageFault::BadRecord(number));
    };
    let Some(ty) = parts.part(TyForm::AuthForm(inner.ty)) else {
        return Err(ImageFault::BadRecord(number));
    };
    let value = marker.mark_auth(parts.types, store, inner.ty, inner.value)?;
    Ok(StoredRecord { ty, value })
}

/// A constructor value, by the numbers of the records of its fields, which must be earlier ones of the fields' types.
// Of the records of a state most are constructors, and two loaders put them.
#[inline(always)]
pub(crate) fn constructor(
    alloc: Global,
    parts: &PartTypes,
    store: &mut Store,
    loaded: &StoredRecords,
    number: u32,
    found: ConstructorRecord,
) -> Result<StoredRecord, ImageFault>
    requires marked { IsMarksOf parts.now.types.now parts.now.marks.now }
    requires limit { HasLimit (types_meaning parts.now.types.now) (store_lent store.old) }
    requires stored { (marking : Marking) × (entries : List Entry) × AreKept marking parts.now.types.now (nodes_in store.old) loaded.now entries }
    requires of_program { HasConstructor parts.now.types.now (Record.Constructor found) }
    ensures loaded { (marking : Marking) (entries : List Entry) → AreKept marking parts.now.types.now (nodes_in store.old) loaded.now entries
        → LoadsEntry marking parts.now.types.now (nodes_in store.new) number (meant.stands_for (types_meaning parts.now.types.now).types entries (record_told (Record.Constructor found.entry))) result }
    ensures keeps { Keeps (nodes_in store.old) (nodes_in store.new) }
    ensures lent { store_lent store.new ≡ store_lent store.old }
{
    let Some(ty) = parts.part(TyForm::NamedForm(found.named)) else {
        return Err(ImageFault::BadRecord(number));
    };
    let Some(refs) = field_refs(alloc, loaded, found.fields, found.numbers)? else {
        return Err(ImageFault::BadRecord(number));
    };
    let fields = refs.as_slice();
    if !store.sizes_fit(fields, store.limit() - 1) {
        return Err(ImageFault::TooBig(number));
    }
    if !store.depths_fit(fields, MOST_DEPTH - 1) {
        return Err(ImageFault::TooDeep(number));
    }
    let value = store.put_constructor(found.named, found.tag, fields)?;
    Ok(StoredRecord { ty, value })
}

/// An array of so many elements, by the numbers of their records, which must be earlier ones of one type.
// It answers through memory where it is called, and with it all other kinds of record.
#[inline(always)]
pub(crate) fn array(
    alloc: Global,
    parts: &PartTypes,
    store: &mut Store,
    loaded: &StoredRecords,
    number: u32,
    count: u8,
    numbers: &[u8],
) -> Result<StoredRecord, ImageFault>
    requires marked { IsMarksOf parts.now.types.now parts.now.marks.now }
    requires limit { HasLimit (types_meaning parts.now.types.now) (store_lent store.old) }
    requires stored { (marking : Marking) × (entries : List Entry) × AreKept marking parts.now.types.now (nodes_in store.old) loaded.now entries }
    requires numbers { length numbers.now ≡ 4 * count }
    ensures loaded { (marking : Marking) (entries : List Entry) → AreKept marking parts.now.types.now (nodes_in store.old) loaded.now entries
        → LoadsEntry marking parts.now.types.now (nodes_in store.new) number
        (meant.stands_for (types_meaning parts.now.types.now).types entries (defined.VecRecord (defined.numbers_of count numbers.now))) result }
    ensures keeps { Keeps (nodes_in store.old) (nodes_in store.new) }
    ensures lent { store_lent store.new ≡ store_lent store.old }
{
    let Some(first) = first_record(loaded, count, numbers) else {
        return Err(ImageFault::BadRecord(number));
    };
    if count > MOST_ITEMS {
        return Err(ImageFault::BadRecord(number));
    }
    let Some(ty) = parts.part(TyForm::VecForm(count, first.ty)) else {
        return Err(ImageFault::BadRecord(number));
    };
    let types = item_types(first.ty, count, alloc)?;
    let Some(refs) = field_refs(alloc, loaded, &types, numbers)? else {
        return Err(ImageFault::BadRecord(number));
    };
    let items = refs.as_slice();
    if !store.sizes_fit(items, store.limit()) {
        return Err(ImageFault::TooBig(number));
    }
    if !store.depths_fit(items, MOST_DEPTH - 1) {
        return Err(ImageFault::TooDeep(number));
    }
    let value = store.put_vec(items)?;
    Ok(StoredRecord { ty, value })
}
