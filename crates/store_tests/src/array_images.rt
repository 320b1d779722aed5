// Images of states with arrays: which bytes are one, and the first fault of the others.
use crate::spelled::of_forms;
use crate::stage::{DIGEST, add_record, fault_of, is_saved_as, nodes_of, saved_again};
use core_terms::{Format, Program, TyForm, TyId};
use images::ImageFault;
use std::alloc::{AllocError, Global};
use std::test::Fail;

/// An image of the second format of so many records, which stand in these bytes.
fn image(alloc: Global, count: u32, records: &[u8]) -> Result<Vec<u8>, AllocError> {
    let mut bytes = Vec::from_slice(alloc, b"LAI2")?;
    bytes.extend_from_slice(&DIGEST)?;
    bytes.extend_from_slice(&count.to_be_bytes())?;
    bytes.extend_from_slice(records)?;
    Ok(bytes)
}

/// Types of the second format. The last one is that of the state.
fn program(alloc: Global, forms: &[TyForm]) -> Result<Box<Program>, AllocError> {
    of_forms(alloc, Format::Second, forms)
}

/// The type `vec[2] int`.
const TWO_INTS: [TyForm; 2] = [TyForm::IntForm, TyForm::VecForm(2, TyId(0))];

/// The image of 7 and 9, whose program has the digest of 32 times 7.
const SEVEN_AND_NINE: [u8; 68] =
    *b"LAI2\x07\x07\x07\x07\x07\x07\x07\x07\x07\x07\x07\x07\x07\x07\x07\x07\x07\x07\x07\x07\x07\x07\x07\x07\x07\x07\x07\x07\x07\x07\x07\x07\0\0\0\x03\x02\0\0\0\0\0\0\0\x07\x02\0\0\0\0\0\0\0\x09\x07\x02\0\0\0\0\0\0\0\x01";

/// The fault of so many bytes of that image, behind which there are others; none where they are all of it.
fn fault_of_first(length: usize) -> Option<ImageFault> {
    match length {
        0..4 => Some(ImageFault::Magic),
        4..68 => Some(ImageFault::Cut(length)),
        68 => None,
        _ => Some(ImageFault::Leftover(length.saturating_sub(68))),
    }
}

/// The first length at which that image, with other bytes behind it, has another fault.
fn other_length(alloc: Global, program: &Program) -> Result<Option<usize>, AllocError> {
    let mut bytes = Vec::from_slice(alloc, &SEVEN_AND_NINE)?;
    bytes.extend_from_slice(&[9; 4])?;
    for length in 0..=bytes.len() {
        let first = bytes.get(..length).unwrap_or(&[]);
        if fault_of(alloc, program, first) != fault_of_first(length) {
            return Ok(Some(length));
        }
    }
    Ok(None)
}

/// The fault of that image with another byte at a place; none where it loads.
fn fault_with(place: usize, byte: u8) -> Option<ImageFault> {
    match (place, byte) {
        (0..4, _) => Some(ImageFault::Magic),
        (4..36, _) => Some(ImageFault::OtherProgram),
        // with fewer records the last one is an int, and with more the next one is missing
        (39, 0..3) => Some(ImageFault::RootType),
        (36..40, _) => Some(ImageFault::Cut(68)),
        (40, _) => Some(ImageFault::BadRecord(0)),
        (49, _) => Some(ImageFault::BadRecord(1)),
        // an int, and a text that is longer than what is left
        (58, 2) => Some(ImageFault::RootType),
        (58, 3) => Some(ImageFault::Cut(68)),
        (58, _) => Some(ImageFault::BadRecord(2)),
        // none or one element, and more than are left
        (59, 0 | 1) => Some(ImageFault::BadRecord(2)),
        (59, _) => Some(ImageFault::Cut(68)),
        // the other int
        (63, 1) | (67, 0) => None,
        (60..68, _) => Some(ImageFault::BadRecord(2)),
        _ => None,
    }
}

/// The image that is saved for what that image with another byte loads: the same bytes, but where its elements are equal, which are saved
/// once.
fn saved_with(alloc: Global, changed: &[u8]) -> Result<Vec<u8>, AllocError> {
    let parts = (
        changed.get(41..49),
        changed.get(50..58),
        changed.get(60..68),
    );
    let (Some(first), Some(second), Some(numbers)) = parts else {
        return Err(AllocError);
    };
    if numbers == b"\0\0\0\x01\0\0\0\x01".as_slice() {
        of_equal(alloc, second)
    } else if first == second || numbers == [0; 8].as_slice() {
        of_equal(alloc, first)
    } else {
        Vec::from_slice(alloc, changed)
    }
}

/// The image of an array of two equal ints, which are spelled so.
fn of_equal(alloc: Global, int: &[u8]) -> Result<Vec<u8>, AllocError> {
    let mut records = Vec::from_slice(alloc, &[2])?;
    records.extend_from_slice(int)?;
    add_record(&mut records, &[7, 2], &[0, 0])?;
    image(alloc, 2, &records)
}

/// These bytes with another one at a place.
fn with_byte(alloc: Global, bytes: &[u8], place: usize, byte: u8) -> Result<Vec<u8>, AllocError> {
    let mut changed = Vec::from_slice(alloc, bytes)?;
    if let Some(old) = changed.get_mut(place) {
        *old = byte;
    }
    Ok(changed)
}

/// Whether that image with this byte at a place has its fault, or is what is saved for the state that it loads.
fn is_told(alloc: Global, program: &Program, place: usize, byte: u8) -> Result<bool, AllocError> {
    let bytes = with_byte(alloc, &SEVEN_AND_NINE, place, byte)?;
    match fault_with(place, byte) {
        Some(fault) => Ok(fault_of(alloc, program, &bytes) == Some(fault)),
        None => {
            let saved = saved_with(alloc, &bytes)?;
            Ok(is_saved_as(alloc, program, &bytes, &saved))
        }
    }
}

/// The first place and byte where that image is told otherwise.
fn other_byte(alloc: Global, program: &Program) -> Result<Option<(usize, u8)>, AllocError> {
    for (place, old) in SEVEN_AND_NINE.iter().enumerate() {
        for change in 1..=u8::MAX {
            if !is_told(alloc, program, place, old ^ change)? {
                return Ok(Some((place, old ^ change)));
            }
        }
    }
    Ok(None)
}

#[test]
fn the_image_of_two_ints(rt: HostRuntime) -> Result<(), Fail> {
    let program = program(rt.alloc(), &TWO_INTS)?;
    assert!(rt; is_saved_as(rt.alloc(), &program, &SEVEN_AND_NINE, &SEVEN_AND_NINE));
    assert!(rt; other_length(rt.alloc(), &program)? == None);
    assert!(rt; other_byte(rt.alloc(), &program)? == None);
    Ok(())
}

/// Types, the number of records and their bytes, and the first fault.
type Row = (&'static [TyForm], u32, &'static [u8], Option<ImageFault>);

/// The type `vec[1] bool`.
const ONE_BOOL: [TyForm; 2] = [TyForm::BoolForm, TyForm::VecForm(1, TyId(0))];

/// The type `(vec[2] bool, int)`.
const BOOLS_AND_INT: [TyForm; 4] = [
    TyForm::BoolForm,
    TyForm::VecForm(2, TyId(0)),
    TyForm::IntForm,
    TyForm::PairForm(TyId(1), TyId(2)),
];

/// The type `vec[2] vec[3] unit`.
const UNITS: [TyForm; 3] = [
    TyForm::UnitForm,
    TyForm::VecForm(3, TyId(0)),
    TyForm::VecForm(2, TyId(1)),
];

static ROWS: [Row; 15] = [
    (&ONE_BOOL, 2, b"\x01\x01\x07\x01\0\0\0\0", None),
    // no element, one too many, and none that is there
    (
        &ONE_BOOL,
        2,
        b"\x01\x01\x07\0",
        Some(ImageFault::BadRecord(1)),
    ),
    (
        &ONE_BOOL,
        2,
        b"\x01\x01\x07\x02\0\0\0\0\0\0\0\0",
        Some(ImageFault::BadRecord(1)),
    ),
    (
        &ONE_BOOL,
        2,
        b"\x01\x01\x07\x01\0\0\0\x01",
        Some(ImageFault::BadRecord(1)),
    ),
    (
        &ONE_BOOL,
        1,
        b"\x07\x01\0\0\0\0",
        Some(ImageFault::BadRecord(0)),
    ),
    // the end comes before all that is said of the record
    (&ONE_BOOL, 1, b"\x07", Some(ImageFault::Cut(41))),
    (&ONE_BOOL, 1, b"\x07\x01\0\0\0", Some(ImageFault::Cut(45))),
    (&ONE_BOOL, 1, b"\x07\x41\0\0\0\0", Some(ImageFault::Cut(46))),
    (&ONE_BOOL, 1, b"\x07\xff", Some(ImageFault::Cut(42))),
    // the first and the second element are of another type
    (
        &BOOLS_AND_INT,
        3,
        b"\x01\x01\x02\0\0\0\0\0\0\0\x05\x07\x02\0\0\0\x01\0\0\0\0",
        Some(ImageFault::BadRecord(2)),
    ),
    (
        &BOOLS_AND_INT,
        3,
        b"\x01\x01\x02\0\0\0\0\0\0\0\x05\x07\x02\0\0\0\0\0\0\0\x01",
        Some(ImageFault::BadRecord(2)),
    ),
    // an array of a part that is in none
    (
        &BOOLS_AND_INT,
        2,
        b"\x02\0\0\0\0\0\0\0\x05\x07\x02\0\0\0\0\0\0\0\0",
        Some(ImageFault::BadRecord(1)),
    ),
    (
        &UNITS,
        3,
        b"\0\x07\x03\0\0\0\0\0\0\0\0\0\0\0\0\x07\x02\0\0\0\x01\0\0\0\x01",
        None,
    ),
    // the inner array is no state, and is no array of two
    (
        &UNITS,
        2,
        b"\0\x07\x03\0\0\0\0\0\0\0\0\0\0\0\0",
        Some(ImageFault::RootType),
    ),
    (
        &UNITS,
        2,
        b"\0\x07\x02\0\0\0\0\0\0\0\0",
        Some(ImageFault::BadRecord(1)),
    ),
];

/// Whether an image has the fault of its row.
fn is_row(alloc: Global, row: &Row) -> Result<bool, AllocError> {
    let (forms, count, records, fault) = row;
    let bytes = image(alloc, *count, records)?;
    let program = program(alloc, forms)?;
    Ok(fault_of(alloc, &program, &bytes) == *fault)
}

#[test]
fn records_of_arrays_have_their_first_fault(rt: HostRuntime) -> Result<(), Fail> {
    for (number, row) in ROWS.iter().enumerate() {
        if !is_row(rt.alloc(), row)? {
            return Err(Fail::new(format_args!("row {number}")));
        }
    }
    Ok(())
}

/// The image of 7 and 9 with the magic of the first format, cut to so many bytes.
fn in_the_first_format(alloc: Global, length: usize) -> Result<Vec<u8>, AllocError> {
    let mut bytes = Vec::from_slice(alloc, b"LAI1")?;
    bytes.extend_from_slice(SEVEN_AND_NINE.get(4..length).unwrap_or(&[]))?;
    Ok(bytes)
}

#[test]
fn the_first_format_has_no_arrays(rt: HostRuntime) -> Result<(), Fail> {
    // a record of no known kind is bad before its end is looked for
    let whole = in_the_first_format(rt.alloc(), 68)?;
    let cut = in_the_first_format(rt.alloc(), 59)?;
    let forms = [TyForm::IntForm, TyForm::PairForm(TyId(0), TyId(0))];
    let program = of_forms(rt.alloc(), Format::First, &forms)?;
    assert!(rt; fault_of(rt.alloc(), &program, &whole) == Some(ImageFault::BadRecord(2)));
    assert!(rt; fault_of(rt.alloc(), &program, &cut) == Some(ImageFault::BadRecord(2)));
    assert!(rt; fault_of(rt.alloc(), &program, &SEVEN_AND_NINE) == Some(ImageFault::Magic));
    Ok(())
}

/// Adds the record of an array of so many times one record.
fn add_filled(records: &mut Vec<u8>, count: u8, item: u32) -> Result<(), AllocError> {
    records.extend_from_slice(&[7, count])?;
    for _ in 0..count {
        records.extend_from_slice(&item.to_be_bytes())?;
    }
    Ok(())
}

/// The image of 64 times a text of so many letters.
fn texts(alloc: Global, letters: u32) -> Result<Vec<u8>, AllocError> {
    let mut records = Vec::new(alloc);
    add_record(&mut records, &[3], &[letters])?;
    for _ in 0..letters {
        records.push(b'a')?;
    }
    add_filled(&mut records, 64, 0)?;
    image(alloc, 2, &records)
}

/// The image of so many times an int.
fn ints(alloc: Global, count: u8) -> Result<Vec<u8>, AllocError> {
    let mut records = Vec::from_slice(alloc, b"\x02\0\0\0\0\0\0\0\x05")?;
    add_filled(&mut records, count, 0)?;
    image(alloc, 2, &records)
}

/// The image of 64 by 64 units.
fn units(alloc: Global) -> Result<Vec<u8>, AllocError> {
    let mut records = Vec::from_slice(alloc, &[0])?;
    add_filled(&mut records, 64, 0)?;
    add_filled(&mut records, 64, 1)?;
    image(alloc, 3, &records)
}

/// Types, an image of a state of the last one, and how many nodes it is; or its fault.
fn told(
    alloc: Global,
    forms: &[TyForm],
    bytes: &[u8],
) -> Result<Result<usize, ImageFault>, AllocError> {
    let program = program(alloc, forms)?;
    if let Some(fault) = fault_of(alloc, &program, bytes) {
        return Ok(Err(fault));
    }
    match nodes_of(alloc, &program, bytes) {
        Some(count) if is_saved_as(alloc, &program, bytes, bytes) => Ok(Ok(count)),
        _ => Err(AllocError),
    }
}

/// The type `vec[64] text`.
const TEXTS: [TyForm; 2] = [TyForm::TextForm, TyForm::VecForm(64, TyId(0))];

#[test]
fn texts_up_to_the_last_byte(rt: HostRuntime) -> Result<(), Fail> {
    let rows = [(16_380, Ok(2)), (16_381, Err(ImageFault::TooBig(1)))];
    for (letters, wanted) in rows {
        let bytes = texts(rt.alloc(), letters)?;
        assert!(rt; told(rt.alloc(), &TEXTS, &bytes)? == wanted);
    }
    Ok(())
}

/// The type `vec[64] int`.
const INTS: [TyForm; 2] = [TyForm::IntForm, TyForm::VecForm(64, TyId(0))];

#[test]
fn sixty_five_elements_are_no_record(rt: HostRuntime) -> Result<(), Fail> {
    let rows = [(64, Ok(2)), (65, Err(ImageFault::BadRecord(1)))];
    for (count, wanted) in rows {
        let bytes = ints(rt.alloc(), count)?;
        assert!(rt; told(rt.alloc(), &INTS, &bytes)? == wanted);
    }
    Ok(())
}

/// The type `vec[64] vec[64] unit`.
const MANY_UNITS: [TyForm; 3] = [
    TyForm::UnitForm,
    TyForm::VecForm(64, TyId(0)),
    TyForm::VecForm(64, TyId(1)),
];

#[test]
fn units_in_arrays_are_three_nodes(rt: HostRuntime) -> Result<(), Fail> {
    let bytes = units(rt.alloc())?;
    assert!(rt; told(rt.alloc(), &MANY_UNITS, &bytes)? == Ok(3));
    Ok(())
}

/// The type `(vec[3] (text, auth bool), vec[2] vec[2] unit)`.
const NESTED: [TyForm; 9] = [
    TyForm::TextForm,
    TyForm::BoolForm,
    TyForm::AuthForm(TyId(1)),
    TyForm::PairForm(TyId(0), TyId(2)),
    TyForm::VecForm(3, TyId(3)),
    TyForm::UnitForm,
    TyForm::VecForm(2, TyId(5)),
    TyForm::VecForm(2, TyId(6)),
    TyForm::PairForm(TyId(4), TyId(7)),
];

/// The image of `([("a", true), ("", false), ("a", true)], [[(), ()], [(), ()]])`.
fn nested(alloc: Global) -> Result<Vec<u8>, AllocError> {
    image(
        alloc,
        13,
        b"\x03\0\0\0\x01a\x01\x01\x06\0\0\0\x01\x04\0\0\0\0\0\0\0\x02\x03\0\0\0\0\x01\0\x06\0\0\0\x05\x04\0\0\0\x04\0\0\0\x06\x07\x03\0\0\0\x03\0\0\0\x07\0\0\0\x03\0\x07\x02\0\0\0\x09\0\0\0\x09\x07\x02\0\0\0\x0a\0\0\0\x0a\x04\0\0\0\x08\0\0\0\x0b",
    )
}

/// Whether an image is refused, or what is saved for its state is saved for that again.
fn is_of_one_state(alloc: Global, program: &Program, bytes: &[u8]) -> bool {
    match saved_again(alloc, program, bytes) {
        Some(saved) => saved.len() <= bytes.len() && is_saved_as(alloc, program, &saved, &saved),
        None => true,
    }
}

/// The first place where that image isn't cut, or where another byte makes it none of a state.
fn misfit(alloc: Global, program: &Program, bytes: &[u8]) -> Result<Option<usize>, AllocError> {
    for (place, old) in bytes.iter().enumerate() {
        let cut = bytes.get(..place).unwrap_or(&[]);
        if place >= 40 && fault_of(alloc, program, cut) != Some(ImageFault::Cut(place)) {
            return Ok(Some(place));
        }
        for change in 1..=u8::MAX {
            let changed = with_byte(alloc, bytes, place, old ^ change)?;
            if !is_of_one_state(alloc, program, &changed) {
                return Ok(Some(place));
            }
        }
    }
    Ok(None)
}

#[test]
fn the_image_of_nested_arrays(rt: HostRuntime) -> Result<(), Fail> {
    let bytes = nested(rt.alloc())?;
    let program = program(rt.alloc(), &NESTED)?;
    assert!(rt; is_saved_as(rt.alloc(), &program, &bytes, &bytes));
    assert!(rt; misfit(rt.alloc(), &program, &bytes)? == None);
    Ok(())
}
