// Journals that are cut or changed, opened and read by the plain reader.

use crate::opening::found;
use crate::plain::{Reading, holding, read};
use crate::stage::{ADDED, code, head, journal_bytes, put_record};
use code_gen::Code;
use core_terms::Hash32;
use digest_layer::Sha;
use std::alloc::{AllocError, Global};
use std::test::Fail;

/// Whether `open` gives what the plain reader does.
fn agrees(alloc: Global, code: &Code, bytes: &[u8]) -> Result<bool, AllocError> {
    Ok(found(alloc, code, bytes)? == Some(read(bytes)))
}

#[test]
fn each_cut_is_read_as_plainly(rt: HostRuntime) -> Result<(), Fail> {
    let alloc = rt.alloc();
    let code = code(alloc)?;
    let bytes = journal_bytes(alloc, &ADDED)?;
    for size in 0..bytes.len() {
        assert!(rt; agrees(alloc, &code, &bytes[..size])?, "cut at {size}");
    }
    assert!(rt; agrees(alloc, &code, &bytes)?);
    Ok(())
}

#[test]
fn each_changed_byte_is_read_as_plainly(rt: HostRuntime) -> Result<(), Fail> {
    let alloc = rt.alloc();
    let code = code(alloc)?;
    let bytes = journal_bytes(alloc, &ADDED)?;
    for place in 0..bytes.len() {
        assert!(rt; agrees_changed(alloc, &code, &bytes, place)?, "at {place}");
    }
    Ok(())
}

/// Whether `open` gives what the plain reader does, whatever stands in this place.
fn agrees_changed(
    alloc: Global,
    code: &Code,
    bytes: &[u8],
    place: usize,
) -> Result<bool, AllocError> {
    let mut changed = Vec::from_slice(alloc, bytes)?;
    for value in 0..=255 {
        if let Some(byte) = changed.get_mut(place) {
            *byte = value;
        }
        if !agrees(alloc, code, &changed)? {
            return Ok(false);
        }
    }
    Ok(true)
}

/// A journal of one record without a gate behind it, where this byte of the record is another one.
fn one_record(alloc: Global, place: usize, byte: u8) -> Result<Vec<u8>, AllocError> {
    let mut bytes = head(alloc)?;
    put_record(&mut bytes, 1)?;
    if let Some(there) = bytes.get_mut(place.saturating_add(95)) {
        *there = byte;
    }
    Ok(bytes)
}

#[test]
fn records_are_judged_without_the_gate_behind_them(rt: HostRuntime) -> Result<(), Fail> {
    let alloc = rt.alloc();
    let code = code(alloc)?;
    for (place, byte, reading) in [
        (1, 3, Reading::BadRecord(0)),
        (1, 1, Reading::BadRecord(0)),
        (9, 0, Reading::BadRecord(0)),
        (9, 1, Reading::Cut(117)),
        (13, 7, Reading::BadRecord(0)),
        (1, 2, Reading::Cut(117)),
    ] {
        let found = found(alloc, &code, &one_record(alloc, place, byte)?)?;
        assert!(rt; found == Some(reading), "{byte} at {place}");
    }
    Ok(())
}

#[test]
fn the_digest_is_judged_before_the_length(rt: HostRuntime) -> Result<(), Fail> {
    let alloc = rt.alloc();
    let code = code(alloc)?;
    let mut bytes = Vec::from_slice(alloc, b"LAJ1")?;
    bytes.extend_from_slice(Sha::of(b"").as_bytes())?;
    assert!(rt; found(alloc, &code, &bytes)? == Some(Reading::OtherProgram));
    Ok(())
}

#[test]
fn a_journal_has_at_most_4_095_records(rt: HostRuntime) -> Result<(), Fail> {
    let alloc = rt.alloc();
    let code = code(alloc)?;
    let mut ones = Vec::new(alloc);
    ones.resize(4_095, 1)?;
    let full = journal_bytes(alloc, &ones)?;
    assert!(rt; found(alloc, &code, &full)? == Some(holding(&ones)));
    ones.push(1)?;
    let more = journal_bytes(alloc, &ones)?;
    assert!(rt; found(alloc, &code, &more)? == Some(Reading::BadRecord(4_095)));
    Ok(())
}
