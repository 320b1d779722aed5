// Loading the records of an image into a store.
ghost use Rattle.std.specs.Prelude.{List, [], IfOk, ◌≡◌};
ghost use Rattle.core_terms.specs.ProgramTypes.{types_by_number, types_meaning};
ghost use Rattle.images.specs.Images.{Entry, field_count, image_of, last, rooted};
ghost use Rattle.images.specs.Images as meant;
ghost use Rattle.images.specs.Records as defined;
ghost use Rattle.images.specs.LoadedRoots.{LoadsOver};
ghost use Rattle.images.specs.LoadedRecords.{AreLoaded, IsRecordFront, IsRoot};
ghost use Rattle.images.specs.PartMarks.{IsMarksOf};
ghost use Rattle.images.specs.ReadRecords.{HasConstructor, record_told};
ghost use Rattle.images.specs.StoredRecords.{AreKept, LoadsEntry};
ghost use Rattle.value_store.specs.Markings.{Marking, HasLimit};
ghost use Rattle.value_store.specs.Nodes.{Node};
ghost use Rattle.value_store.specs.Standing.{Keeps};
ghost use Rattle.value_store.specs.Stores.{nodes_in, store_lent};

use crate::ImageFault;
use crate::entries::{array, authenticated, bool, constructor, int, pair, text, unit};
use crate::header::{Header, read_header};
use crate::part_types::PartTypes;
use crate::parts::PartMarks;
use crate::record::{Front, Record, RecordFault, read_record};
use crate::stored::StoredRecord;
use crate::stored_records::StoredRecords;
use core_terms::{Digest, Types};
use std::alloc::Global;
use value_store::{Marker, Ref, Store};

/// The records of an image as nodes of a store, and the root: the last of them, which stands for a state of the program.
#[derive(Drop)]
pub struct Loaded {
    pub store: Store,
    pub root: Ref,
}

/// What all records stand for, and the bytes behind them.
#[derive(Drop)]
struct Records<'a> {
    store: Store,
    loaded: StoredRecords,
    rest: &'a [u8],
}

/// The state that an image keeps, of the program that has these types and whose text has this digest, over nodes of the marker's kind.
/// Each record is read once and put as one node.
///
/// # Errors
///
/// The first fault of the image: of its header, then record by record, then of its root and of what stands behind the records. And
/// `NoMemory` where there is no memory for the nodes.
pub fn load_image<M: Marker>(
    alloc: Global,
    types: &Types,
    text_digest: &Digest,
    marker: &mut M,
    bytes: &[u8],
) -> Result<Loaded, ImageFault>
    requires knows { M.Knows types.now marker.old }
    ensures loads { LoadsOver M.marking (types_meaning types.now) (image_of (types_meaning types.now) text_digest.now.0 bytes.now) result }
    ensures limit { IfOk result (λ loaded. HasLimit (types_meaning types.now) (store_lent loaded.store)) }
    ensures knows { M.Knows types.now marker.new }
{
    let header = read_header(types, text_digest, bytes)?;
    let marks = PartMarks::of(alloc, types)?;
    let parts = PartTypes {
        types,
        marks: &marks,
    };
    let records = load_records(alloc, &parts, marker, bytes.len(), header)?;
    let root = root(types, &records.loaded, records.rest)?;
    Ok(Loaded {
        store: records.store,
        root,
    })
}

/// The records behind the header, one after another, in an image of `size` bytes.
fn load_records<'a, M: Marker>(
    alloc: Global,
    parts: &PartTypes<'a>,
    marker: &mut M,
    size: usize,
    header: Header<'a>,
) -> Result<Records<'a>, ImageFault>
    requires marked { IsMarksOf parts.now.types.now parts.now.marks.now }
    requires knows { M.Knows parts.now.types.now marker.old }
    ensures loaded { AreLoaded M.marking (types_meaning parts.now.types.now) (types_by_number parts.now.types.now) (meant.load_records (types_meaning parts.now.types.now) size header.entry.count [] header.entry.records.now) result }
    ensures limit { IfOk result (λ records. HasLimit (types_meaning parts.now.types.now) (store_lent records.store)) }
    ensures knows { M.Knows parts.now.types.now marker.new }
{
    let mut store = Store::new(alloc, parts.size_limit());
    let mut loaded = StoredRecords::new(alloc, parts.types.type_count());
    let mut rest = header.records;
    for number in 0..header.count {
        let front = next_front(parts, number, size, rest)?;
        let stored = stored(
            alloc,
            parts,
            marker,
            &mut store,
            &loaded,
            number,
            front.record,
        )?;
        loaded.push(stored)?;
        rest = front.rest;
    }
    Ok(Records {
        store,
        loaded,
        rest,
    })
}

/// The record with this number, at the front of some bytes of an image of `size`.
// For each record of an image, in both loaders (a state's and a journal's), so LLVM would call it.
#[inline(always)]
fn next_front<'a>(
    parts: &PartTypes<'a>,
    number: u32,
    size: usize,
    bytes: &'a [u8],
) -> Result<Front<'a>, ImageFault>
    requires marked { IsMarksOf parts.now.types.now parts.now.marks.now }
    ensures front { IsRecordFront (types_meaning parts.now.types.now) size number (defined.read_record (types_meaning parts.now.types.now).format.arrays (field_count (types_meaning parts.now.types.now) size) bytes.now) result }
    ensures constructor { IfOk result (λ front. HasConstructor parts.now.types.now front.record) }
{
    match read_record(parts.types, parts.marks, parts.has_arrays(), bytes) {
        Ok(front) => Ok(front),
        Err(RecordFault::Cut) => Err(ImageFault::Cut(size)),
        Err(RecordFault::Bad) => Err(ImageFault::BadRecord(number)),
    }
}

/// What the record with this number stands for, behind those that are loaded, put into the store.
fn stored<M: Marker>(
    alloc: Global,
    parts: &PartTypes,
    marker: &mut M,
    store: &mut Store,
    loaded: &StoredRecords,
    number: u32,
    found: Record,
) -> Result<StoredRecord, ImageFault>
    requires marked { IsMarksOf parts.now.types.now parts.now.marks.now }
    requires stored { (entries : List Entry) × AreKept M.marking parts.now.types.now (nodes_in store.old) loaded.now entries }
    requires constructor { HasConstructor parts.now.types.now found }
    requires limit { HasLimit (types_meaning parts.now.types.now) (store_lent store.old) }
    requires knows { M.Knows parts.now.types.now marker.old }
    ensures loaded { (entries : List Entry) → AreKept M.marking parts.now.types.now (nodes_in store.old) loaded.now entries
        → LoadsEntry M.marking parts.now.types.now (nodes_in store.new) number (meant.stands_for (types_meaning parts.now.types.now).types entries (record_told found.entry)) result }
    ensures keeps { Keeps (nodes_in store.old) (nodes_in store.new) }
    ensures lent { store_lent store.new ≡ store_lent store.old }
    ensures knows { M.Knows parts.now.types.now marker.new }
{
    match found {
        Record::Unit => unit(parts, store, number),
        Record::Bool(value) => bool(parts, store, number, value),
        Record::Int(value) => int(parts, store, number, value),
        Record::Text(value) => text(parts, store, number, value),
        Record::Pair(first, second) => pair(parts, store, loaded, number, first, second),
        Record::Constructor(found) => constructor(alloc, parts, store, loaded, number, found),
        Record::Auth(inner) => authenticated(parts, marker, store, loaded, number, inner),
        Record::Items(count, numbers) => array(alloc, parts, store, loaded, number, count, numbers),
    }
}

/// The node of the last record, which must be of the state's type; nothing stands behind it.
fn root(types: &Types, loaded: &StoredRecords, rest: &[u8]) -> Result<Ref, ImageFault>
    ensures { (marking : Marking) (nodes : List Node) (entries : List Entry) → AreKept marking types.now nodes loaded.now entries
        → IsRoot marking (types_meaning types.now) nodes (rooted (types_meaning types.now).state (last entries) rest.now) result }
{
    let Some(root) = loaded.last() else {
        return Err(ImageFault::RootType);
    };
    if !root.is_of(types.state_type()) {
        return Err(ImageFault::RootType);
    }
    if !rest.is_empty() {
        return Err(ImageFault::Leftover(rest.len()));
    }
    Ok(root.value)
}
