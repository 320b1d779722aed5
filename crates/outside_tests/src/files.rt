// Calls with ample memory, and calls that fail in turn.
ghost use Rattle.std.specs.Prelude.{◌<◌};

use lam_outside::{Files, Load, MemFile, MemFiles, MemSink, Plan, Sink, Source, load_all};
use std::alloc::{AllocError, Global};
use std::test::Fail;

fn file(alloc: Global, name: &str, bytes: &[u8]) -> Result<MemFile, AllocError> {
    Ok(MemFile {
        name: String::from_str(alloc, name)?,
        bytes: Vec::from_slice(alloc, bytes)?,
    })
}

fn plan(alloc: Global, failing: &[u64]) -> Result<Plan, AllocError> {
    Ok(Plan::new(Vec::from_slice(alloc, failing)?))
}

/// An older and a newer file of one name, and another file.
fn files(alloc: Global, most_read: usize, failing: &[u64]) -> Result<MemFiles, AllocError>
    requires { 0 < most_read }
{
    let mut all = Vec::new(alloc);
    all.push(file(alloc, "state", b"older")?)?;
    all.push(file(alloc, "state", b"the newer")?)?;
    all.push(file(alloc, "proof", b"")?)?;
    Ok(MemFiles::new(alloc, all, most_read, plan(alloc, failing)?))
}

/// A name of a file, how many bytes it may have, and what is loaded.
static LOADS: [(&str, usize, Result<&[u8], Load>); 4] = [
    ("state", 9, Ok(b"the newer")),
    ("state", 8, Err(Load::TooLong)),
    ("proof", 0, Ok(b"")),
    ("none", 9, Err(Load::ReadFault)),
];

/// Whether a file is loaded so.
fn is_loaded(loaded: Result<Vec<u8>, Load>, wanted: Result<&[u8], Load>) -> bool {
    match (loaded, wanted) {
        (Ok(bytes), Ok(wanted)) => bytes.as_slice() == wanted,
        (Err(fault), Err(wanted)) => fault == wanted,
        _ => false,
    }
}

/// The number of the first row, from 0, that is loaded otherwise where one read gives so many bytes at most.
fn misloaded(alloc: Global, most_read: usize) -> Result<Option<usize>, AllocError>
    requires { 0 < most_read }
{
    let mut files = files(alloc, most_read, &[])?;
    for (number, (name, most, wanted)) in LOADS.iter().enumerate() {
        if !is_loaded(load_all(alloc, &mut files, name, *most), *wanted) {
            return Ok(Some(number));
        }
    }
    Ok(None)
}

#[test]
fn loads_in_pieces_of_any_size(rt: HostRuntime) -> Result<(), Fail> {
    for most_read in 1..8 {
        if let Some(number) = misloaded(rt.alloc(), most_read)? {
            return Err(Fail::new(format_args!("row {number}, by {most_read}")));
        }
    }
    Ok(())
}

// By 3 bytes a read, a load of 9 is a start, three reads and one read of the end.
#[test]
fn each_call_of_a_load_fails_in_turn(rt: HostRuntime) -> Result<(), Fail> {
    let alloc = rt.alloc();
    for call in 0..5 {
        let mut files = files(alloc, 3, &[call])?;
        let failed = load_all(alloc, &mut files, "state", 9);
        let loaded = load_all(alloc, &mut files, "state", 9);
        if !is_loaded(failed, Err(Load::ReadFault)) || !is_loaded(loaded, Ok(b"the newer")) {
            return Err(Fail::new(format_args!("at call {call}")));
        }
    }
    Ok(())
}

#[test]
fn stores_whatever_it_answers(rt: HostRuntime) -> Result<(), Fail> {
    let alloc = rt.alloc();
    let mut files = files(alloc, 100, &[1])?;
    assert!(rt; files.store("state", b"first").is_ok());
    assert!(rt; files.store("new", b"second").is_err());
    assert!(rt; !files.lacked_memory());
    let [first, second] = files.stored() else {
        panic!(rt; "not two files");
    };
    assert!(rt; first.name.as_str() == "state" && first.bytes.as_slice() == b"first".as_slice());
    assert!(rt; second.name.as_str() == "new" && second.bytes.as_slice() == b"second".as_slice());
    let loaded = load_all(alloc, &mut files, "state", 100);
    assert!(rt; is_loaded(loaded, Ok(b"first")));
    Ok(())
}

#[test]
fn reads_on_while_it_stores(rt: HostRuntime) -> Result<(), Fail> {
    let alloc = rt.alloc();
    let mut files = files(alloc, 4, &[])?;
    let mut into = [0; 4];
    assert!(rt; matches!(files.read(&mut into), Ok(0)));
    assert!(rt; files.start("state").is_ok());
    assert!(rt; matches!(files.read(&mut into), Ok(4)));
    assert!(rt; files.store("state", b"changed").is_ok());
    assert!(rt; files.start("none").is_err());
    assert!(rt; matches!(files.read(&mut into), Ok(4)));
    assert!(rt; into == *b"newe");
    Ok(())
}

#[test]
fn takes_some_and_fails_by_plan(rt: HostRuntime) -> Result<(), Fail> {
    let alloc = rt.alloc();
    let mut sink = MemSink::new(alloc, 3, plan(alloc, &[1])?);
    assert!(rt; matches!(sink.write(b"abcd"), Ok(3)));
    assert!(rt; sink.write(b"d").is_err());
    assert!(rt; matches!(sink.write(b"d"), Ok(1)));
    assert!(rt; matches!(sink.write(b""), Ok(0)));
    assert!(rt; sink.bytes() == b"abcd".as_slice());
    assert!(rt; !sink.lacked_memory());
    Ok(())
}
