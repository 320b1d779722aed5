// Which bytes are accepted: rows, and each object with each of its bytes changed.
use crate::objects::{BOOLS, NESTED, OPEN, SPIN, TREE, TWO_BOOLS};
use crate::reference::judged;
use code_check::{ObjectFault, accept};
use core_terms::{Digest, Program};
use std::alloc::{AllocError, Global};
use std::test::Fail;

const DIGEST: Digest = Digest([7; 32]);

/// How many bytes an object has at most.
const MOST_BYTES: usize = 4_194_304;

/// The program of the bytes; more than an object has are not asked about.
fn accepted(alloc: Global, bytes: &[u8]) -> Result<Program, ObjectFault> {
    if bytes.len() > MOST_BYTES {
        return Err(ObjectFault::NoMemory);
    }
    accept(alloc, bytes, DIGEST)
}

/// What the check says of bytes, without their program.
fn told(alloc: Global, bytes: &[u8]) -> Result<(), ObjectFault> {
    match accepted(alloc, bytes) {
        Ok(_) => Ok(()),
        Err(fault) => Err(fault),
    }
}

/// The object with one byte changed.
fn with_byte(bytes: &[u8], place: usize, byte: u8, alloc: Global) -> Result<Vec<u8>, AllocError> {
    let mut changed = Vec::from_slice(alloc, bytes)?;
    if let Some(there) = changed.get_mut(place) {
        *there = byte;
    }
    Ok(changed)
}

/// How many of the objects with one byte changed are accepted, and how many have a fault of each sort, by `sort_of`.
type Counts = [u32; 7];

fn sort_of(told: Result<(), ObjectFault>) -> usize {
    match told {
        Ok(()) => 0,
        Err(ObjectFault::Cut(_)) => 1,
        Err(ObjectFault::BadField(_)) => 2,
        Err(ObjectFault::Leftover(_)) => 3,
        Err(ObjectFault::Shape(_)) => 4,
        Err(ObjectFault::Kind(_, _)) => 5,
        Err(ObjectFault::NoMemory) => 6,
    }
}

/// The counts over all changes of one byte, where the check says of each what the plain checker says; none where it doesn't.
fn counted(alloc: Global, bytes: &[u8]) -> Result<Option<Counts>, AllocError> {
    let mut counts = [0; 7];
    for place in 0..bytes.len() {
        if !counted_at(alloc, bytes, place, &mut counts)? {
            return Ok(None);
        }
    }
    Ok(Some(counts))
}

fn counted_at(
    alloc: Global,
    bytes: &[u8],
    place: usize,
    counts: &mut Counts,
) -> Result<bool, AllocError> {
    for byte in 0..=255 {
        let changed = with_byte(bytes, place, byte, alloc)?;
        let answer = told(alloc, &changed);
        if answer != judged(alloc, &changed) {
            return Ok(false);
        }
        if changed.as_slice() != bytes {
            if let Some(count) = counts.get_mut(sort_of(answer)) {
                *count = count.saturating_add(1);
            }
        }
    }
    Ok(true)
}

/// Whether each front of the bytes is cut.
fn fronts_are_cut(alloc: Global, bytes: &[u8]) -> bool {
    (0..bytes.len()).all(|n| told(alloc, &bytes[..n]) == Err(ObjectFault::Cut(n)))
}

#[test]
fn an_object_is_accepted(rt: HostRuntime) -> Result<(), Fail> {
    let bytes = hex::decode(rt.alloc(), OPEN).ok().ok_or("hex")?;
    let program = accepted(rt.alloc(), &bytes)
        .ok()
        .ok_or("the object is accepted")?;
    assert!(rt; *program.text_digest() == DIGEST);
    assert!(rt; program.role("open").is_some());
    assert_eq!(rt; program.functions().len(), 1);
    Ok(())
}

/// A place of a byte of `open`, another byte for it, and the fault.
const FAULTS: [(usize, u8, ObjectFault); 6] = [
    // the local that is opened is the argument
    (44, 1, ObjectFault::Kind(0, 1)),
    // no local has this number
    (44, 2, ObjectFault::Kind(0, 0)),
    // the state is `unit`, and the query's first parameter isn't
    (17, 0, ObjectFault::Shape(0)),
    // what is authenticated is no earlier type
    (13, 2, ObjectFault::BadField(10)),
    // the last instruction has an operand, which isn't there
    (50, 16, ObjectFault::Cut(51)),
    // there is one instruction fewer, so the last byte is left
    (42, 2, ObjectFault::Leftover(1)),
];

#[test]
fn each_fault_is_told(rt: HostRuntime) -> Result<(), Fail> {
    let bytes = hex::decode(rt.alloc(), OPEN).ok().ok_or("hex")?;
    for (place, byte, fault) in &FAULTS {
        let changed = with_byte(&bytes, *place, *byte, rt.alloc())?;
        assert!(rt; told(rt.alloc(), &changed) == Err(*fault));
    }
    Ok(())
}

/// An object, and the counts of its changes. They were found by a checker in another language, which reads the bytes by itself.
const COUNTS: [(&str, Counts); 6] = [
    (OPEN, [214, 1517, 10966, 31, 5, 272, 0]),
    (BOOLS, [4946, 2861, 41883, 65, 47, 2473, 0]),
    (TWO_BOOLS, [496, 1933, 30699, 98, 27, 1427, 0]),
    (NESTED, [425, 2704, 19969, 50, 14, 553, 0]),
    (SPIN, [6495, 1717, 33900, 52, 28, 1923, 0]),
    (TREE, [1755, 1889, 109553, 35, 53, 10900, 0]),
];

#[test]
fn each_front_is_cut(rt: HostRuntime) -> Result<(), Fail> {
    for (object, _) in &COUNTS {
        let bytes = hex::decode(rt.alloc(), *object).ok().ok_or("hex")?;
        assert!(rt; told(rt.alloc(), &bytes) == Ok(()));
        assert!(rt; fronts_are_cut(rt.alloc(), &bytes));
    }
    Ok(())
}

#[test]
fn each_changed_byte_is_judged(rt: HostRuntime) -> Result<(), Fail> {
    for (object, expected) in &COUNTS {
        let bytes = hex::decode(rt.alloc(), *object).ok().ok_or("hex")?;
        let counts = counted(rt.alloc(), &bytes)?;
        assert!(rt; counts == Some(*expected));
    }
    Ok(())
}
