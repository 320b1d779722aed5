// Which bytes are an image, and the first fault of the others.
use crate::stage::{add_record, fault_of, image, program_of};
use images::ImageFault;
use std::alloc::{AllocError, Global};
use std::test::Fail;

/// A program whose state has parts of every kind but `unit`. The state of the images below is `(Box(5, "ab"), true)`.
const SHAPES: &[u8] = b"type shape = Dot | Box(int, text); state (shape, auth bool);";

/// The records of that state.
const RECORDS: [u8; 44] = [
    2, 0, 0, 0, 0, 0, 0, 0, 5, 3, 0, 0, 0, 2, 0x61, 0x62, 5, 0, 0, 1, 0, 0, 0, 0, 0, 0, 0, 1, 1, 1,
    6, 0, 0, 0, 3, 4, 0, 0, 0, 2, 0, 0, 0, 4,
];

#[test]
fn an_image_that_is_cut_anywhere_or_too_long(rt: HostRuntime) -> Result<(), Fail> {
    let alloc = rt.alloc();
    let program = program_of(alloc, SHAPES)?;
    let mut bytes = image(alloc, 6, &RECORDS)?;
    bytes.extend_from_slice(&[9; 4])?;
    for length in 0..=bytes.len() {
        let expected = match length {
            0..4 => Some(ImageFault::Magic),
            4..84 => Some(ImageFault::Cut(length)),
            84 => None,
            _ => Some(ImageFault::Leftover(length.saturating_sub(84))),
        };
        if fault_of(alloc, &program, bytes.get(..length).unwrap_or(&[])) != expected {
            return Err(Fail::new(format_args!("the first {length} bytes")));
        }
    }
    Ok(())
}

/// A place and the byte that stands there, with the first fault of that image.
const BYTES: [(usize, u8, ImageFault); 6] = [
    (0, 0x6c, ImageFault::Magic),
    (3, 0x32, ImageFault::Magic),
    (4, 8, ImageFault::OtherProgram),
    (35, 8, ImageFault::OtherProgram),
    (39, 7, ImageFault::Cut(84)),
    (39, 5, ImageFault::RootType),
];

#[test]
fn headers_of_other_files(rt: HostRuntime) -> Result<(), Fail> {
    let alloc = rt.alloc();
    let program = program_of(alloc, SHAPES)?;
    for (place, byte, fault) in &BYTES {
        let mut bytes = image(alloc, 6, &RECORDS)?;
        if let Some(changed) = bytes.get_mut(*place) {
            *changed = *byte;
        }
        if fault_of(alloc, &program, &bytes) != Some(*fault) {
            return Err(Fail::new(format_args!("{byte} at {place}")));
        }
    }
    Ok(())
}

/// The number of records, their bytes, and their first fault.
type Row = (u32, &'static [u8], ImageFault);

/// A kind, a bool, a text and a constructor that aren't allowed, each before what is missing behind it.
const LEAVES: [Row; 8] = [
    (1, b"\x07", ImageFault::BadRecord(0)),
    (1, b"\x01\x02", ImageFault::BadRecord(0)),
    (1, b"\x03\x00\x00\x00\x01\xff", ImageFault::BadRecord(0)),
    (1, b"\x03\x00\x00\x00\x02\xff", ImageFault::Cut(46)),
    (1, b"\x05\x00\x01\x00", ImageFault::BadRecord(0)),
    (1, b"\x05\x00\x00\x02", ImageFault::BadRecord(0)),
    (1, b"\x05\x00\x00", ImageFault::Cut(43)),
    (1, b"\x05\x00\x00\x01\x00\x00\x00\x00", ImageFault::Cut(48)),
];

/// Numbers that are those of no earlier record, or of one with another type.
const REFERENCES: [Row; 6] = [
    (1, b"\x06\x00\x00\x00\x00", ImageFault::BadRecord(0)),
    (2, b"\x01\x01\x06\x00\x00\x00\x01", ImageFault::BadRecord(1)),
    (
        2,
        b"\x05\x00\x00\x00\x04\x00\x00\x00\x00\x00\x00\x00\x01",
        ImageFault::BadRecord(1),
    ),
    (
        3,
        b"\x01\x01\x03\x00\x00\x00\x00\x05\x00\x00\x01\x00\x00\x00\x00\x00\x00\x00\x01",
        ImageFault::BadRecord(2),
    ),
    (
        2,
        b"\x02\x00\x00\x00\x00\x00\x00\x00\x05\x05\x00\x00\x01\x00\x00\x00\x00\x00\x00\x00\x00",
        ImageFault::BadRecord(1),
    ),
    (
        2,
        b"\x02\x00\x00\x00\x00\x00\x00\x00\x05\x05\x00\x00\x01\x00\x00\x00\x00\x00\x00\x00\x02",
        ImageFault::BadRecord(1),
    ),
];

/// Types that are no part of the state's, and a last record that isn't of it.
const TYPES: [Row; 6] = [
    (1, b"\x00", ImageFault::BadRecord(0)),
    (
        2,
        b"\x01\x01\x04\x00\x00\x00\x00\x00\x00\x00\x00",
        ImageFault::BadRecord(1),
    ),
    (
        2,
        b"\x02\x00\x00\x00\x00\x00\x00\x00\x05\x06\x00\x00\x00\x00",
        ImageFault::BadRecord(1),
    ),
    (0, b"", ImageFault::RootType),
    (0, b"\x01", ImageFault::RootType),
    (1, b"\x01\x01\x07", ImageFault::RootType),
];

/// The number of the first row, from 0, with another fault.
fn wrong_row(alloc: Global, rows: &[Row]) -> Result<Option<usize>, AllocError> {
    let program = program_of(alloc, SHAPES)?;
    for (number, (count, records, fault)) in rows.iter().enumerate() {
        let bytes = image(alloc, *count, records)?;
        if fault_of(alloc, &program, &bytes) != Some(*fault) {
            return Ok(Some(number));
        }
    }
    Ok(None)
}

#[test]
fn records_have_their_first_fault(rt: HostRuntime) -> Result<(), Fail> {
    let tables: [(&str, &[Row]); 3] = [
        ("leaves", &LEAVES),
        ("references", &REFERENCES),
        ("types", &TYPES),
    ];
    for (table, rows) in tables {
        if let Some(number) = wrong_row(rt.alloc(), rows)? {
            return Err(Fail::new(format_args!("{table}: row {number}")));
        }
    }
    Ok(())
}

/// Adds the record of a text of so many bytes.
fn add_text(records: &mut Vec<u8>, len: u32) -> Result<(), AllocError> {
    add_record(records, &[3], &[len])?;
    for _ in 0..len {
        records.push(b'a')?;
    }
    Ok(())
}

/// An image of the pair of a text of so many bytes and an empty one.
fn pair_of_texts(alloc: Global, len: u32) -> Result<Vec<u8>, AllocError> {
    let mut records = Vec::new(alloc);
    add_text(&mut records, len)?;
    add_text(&mut records, 0)?;
    add_record(&mut records, &[4], &[0, 1])?;
    image(alloc, 3, &records)
}

/// How long the text is, and the fault.
const TEXTS: [(u32, Option<ImageFault>); 3] = [
    (65_528, None),
    (65_529, Some(ImageFault::TooBig(2))),
    (65_533, Some(ImageFault::TooBig(0))),
];

#[test]
fn texts_at_the_limit(rt: HostRuntime) -> Result<(), Fail> {
    let alloc = rt.alloc();
    let program = program_of(alloc, b"state (text, text);")?;
    for (length, fault) in TEXTS {
        if fault_of(alloc, &program, &pair_of_texts(alloc, length)?) != fault {
            return Err(Fail::new(format_args!("{length}")));
        }
    }
    Ok(())
}

/// An image of a chain of so many `More` around a `Stop` with a text of so many bytes.
fn chain(alloc: Global, length: u32, more: u32) -> Result<Vec<u8>, AllocError> {
    let mut records = Vec::new(alloc);
    add_text(&mut records, length)?;
    add_record(&mut records, &[5, 0, 0, 0], &[0])?;
    for place in 0..more {
        add_record(&mut records, &[5, 0, 0, 1], &[place.saturating_add(1)])?;
    }
    image(alloc, more.saturating_add(2), &records)
}

/// How long the text is, and how many `More` there are, with the fault: the size of a record is judged before its depth.
const CHAINS: [(u32, u32, Option<ImageFault>); 5] = [
    (0, 510, None),
    (0, 511, Some(ImageFault::TooDeep(512))),
    (65_020, 511, Some(ImageFault::TooDeep(512))),
    (65_021, 511, Some(ImageFault::TooBig(512))),
    (65_022, 511, Some(ImageFault::TooBig(511))),
];

#[test]
fn chains_at_the_limit(rt: HostRuntime) -> Result<(), Fail> {
    let alloc = rt.alloc();
    let text = b"type chain = Stop(text) | More(chain); state chain;";
    let program = program_of(alloc, text)?;
    for (length, more, fault) in CHAINS {
        if fault_of(alloc, &program, &chain(alloc, length, more)?) != fault {
            return Err(Fail::new(format_args!("{length} {more}")));
        }
    }
    Ok(())
}
