// What `verify` and `audit` say of proofs, whoever made them.

use crate::calls::{DEEP, DEEP_PROOF, TRAPS};
use crate::sides::{Sides, made_sides};
use cli_stage::runs::{Call, opening};
use cli_stage::stage::PROOF;
use program_texts::{FIRST, SWITCH, TWO};
use std::alloc::{AllocError, Global};
use std::test::Fail;
use std::thread::Threads;

/// A proof, and the status and the line.
type Row = (&'static [u8], u8, &'static str);

/// Proofs of `open`.
static PROOFS: [Row; 13] = [
    // a header that begins otherwise, or asks for a ring: of 1,024 pieces at most
    (b"LAP2\0\0\0\0\0\0\0", 5, "rejected header\n"),
    (b"LAP1\0\x01\0\0\0\0\0", 0, "done ()\n"),
    (b"LAP1\x04\0\0\0\0\0\0", 0, "done ()\n"),
    (b"LAP1\x04\x01\0\0\0\0\0", 5, "rejected header\n"),
    // a frame that is cut in its piece and in its number
    (b"LAP1\0\0\0\0\0\0\x01", 5, "rejected cut 0\n"),
    (b"LAP1\0\0\x01\0", 5, "rejected cut 0\n"),
    // another piece, and one longer than the limit, which is found as soon as its length is whole
    (
        b"LAP1\0\0\0\0\0\0\x01\0",
        5,
        "rejected wrong-piece 0 e3b0c44298fc1c149afbf4c8996fb92427ae41e4649b934ca495991b7852b855 6e340b9cffb37a989ca544e6bb780a2c78901d3fb33738768511a30617afa01d\n",
    ),
    (
        b"LAP1\0\0\0\0\x01\0\x01",
        5,
        "rejected piece-long 0 65537\n",
    ),
    (
        b"LAP1\0\0\0\xff\xff\xff\xff",
        5,
        "rejected piece-long 0 4294967295\n",
    ),
    // another kind of frame, and a piece that isn't kept
    (b"LAP1\0\0\x07", 5, "rejected bad-kind 0 7\n"),
    (b"LAP1\0\0\xff\0", 5, "rejected bad-kind 0 255\n"),
    (b"LAP1\0\0\x01\0\0", 5, "rejected bad-use 0 0 0\n"),
    (b"LAP1\0\0\x01\x01\x02", 5, "rejected bad-use 0 258 0\n"),
];

/// The same without fuel.
static UNFUELED: [Row; 3] = [
    (b"LAP1\0\0", 4, "out of fuel\n"),
    (b"LAP1\0\0\0\0\0\0\0", 5, "rejected leftover 5\n"),
    (b"LAP1\0", 5, "rejected header\n"),
];

/// The number of the first proof of a call, from 0, that is judged otherwise where one read gives so many bytes at most.
fn misjudged<R: Threads + Sync>(
    rt: &R,
    alloc: Global,
    made: &Sides,
    call: &Call,
    rows: &[Row],
    most_read: usize,
) -> Result<Option<usize>, AllocError> {
    for (number, (proof, status, line)) in rows.iter().enumerate() {
        if !made.are_told(rt, alloc, call, proof, most_read.max(1), (*status, line))? {
            return Ok(Some(number));
        }
    }
    Ok(None)
}

#[test]
fn proofs_are_judged_by_reads_of_any_size(rt: HostRuntime) -> Result<(), Fail> {
    let alloc = rt.alloc();
    let made = made_sides(&rt, alloc, FIRST, "make", "()")?;
    for most_read in [4096, 1, 2, 3, 7] {
        let fueled = misjudged(&rt, alloc, &made, &opening("1"), &PROOFS, most_read)?;
        let unfueled = misjudged(&rt, alloc, &made, &opening("0"), &UNFUELED, most_read)?;
        if (fueled, unfueled) != (None, None) {
            return Err(Fail::new(format_args!("{fueled:?} {unfueled:?} by {most_read}")));
        }
    }
    Ok(())
}

/// A program that opens a pair.
const SEE: &[u8] =
    b"state auth (bool, bool); init make(x: (bool, bool)): auth (bool, bool) = auth(x); query see(s: auth (bool, bool), x: unit): (bool, bool) = unauth(s);";

/// Pieces that differ from the honest one: the digest tells, whether they spell a pair or not.
const SEEN: [Row; 3] = [
    (b"LAP1\0\0\0\0\0\0\x02\x01\0", 0, "done (true, false)\n"),
    (
        b"LAP1\0\0\0\0\0\0\x02\0\x01",
        5,
        "rejected wrong-piece 0 47dc540c94ceb704a23875c11273e16bb0b8a87aed84de911f2133568115f254 b413f47d13ee2fe6c845b2ee141af81de858df4ec549a58b7970bb96645bc8d2\n",
    ),
    (
        b"LAP1\0\0\0\0\0\0\x02\x03\x02",
        5,
        "rejected wrong-piece 0 47dc540c94ceb704a23875c11273e16bb0b8a87aed84de911f2133568115f254 d4ea3fc5537ce615543ea44f074bff451fb6c9749e9e8692c111f7070b4780c7\n",
    ),
];

/// Pieces that are new where they might be named, that are named and aren't kept, and that differ, new or named, at each place.
const OPENED: [Row; 7] = [
    (
        b"LAP1\0\x02\0\0\0\0\x01\x01\0\0\0\0\x01\0\0\0\0\0\x01\x01",
        0,
        "done (true, (false, true))\n",
    ),
    (
        b"LAP1\0\x01\0\0\0\0\x01\x01\0\0\0\0\x01\0\x01\0\x01",
        5,
        "rejected bad-use 2 1 1\n",
    ),
    (
        b"LAP1\0\x02\0\0\0\0\x01\x01\0\0\0\0\x01\0\x01\0\x02",
        5,
        "rejected bad-use 2 2 2\n",
    ),
    (
        b"LAP1\0\x02\0\0\0\0\x01\0\0\0\0\0\x01\0\x01\0\x01",
        5,
        "rejected wrong-piece 0 4bf5122f344554c53bde2ebb8cd2b7e3d1600ad631c385a5d7cce23c7785459a 6e340b9cffb37a989ca544e6bb780a2c78901d3fb33738768511a30617afa01d\n",
    ),
    (
        b"LAP1\0\x02\0\0\0\0\x01\x01\x01\0\0\x01\0\x01",
        5,
        "rejected wrong-piece 1 6e340b9cffb37a989ca544e6bb780a2c78901d3fb33738768511a30617afa01d 4bf5122f344554c53bde2ebb8cd2b7e3d1600ad631c385a5d7cce23c7785459a\n",
    ),
    (
        b"LAP1\0\x02\0\0\0\0\x01\x01\0\0\0\0\x01\0\x01\0\0",
        5,
        "rejected wrong-piece 2 4bf5122f344554c53bde2ebb8cd2b7e3d1600ad631c385a5d7cce23c7785459a 6e340b9cffb37a989ca544e6bb780a2c78901d3fb33738768511a30617afa01d\n",
    ),
    (
        b"LAP1\0\0\0\0\0\0\x01\x01\0\0\0\0\x01\0\0\0\0\0\0",
        5,
        "rejected wrong-piece 2 4bf5122f344554c53bde2ebb8cd2b7e3d1600ad631c385a5d7cce23c7785459a e3b0c44298fc1c149afbf4c8996fb92427ae41e4649b934ca495991b7852b855\n",
    ),
];

/// Of an update.
const FLIPPED: [Row; 3] = [
    (
        b"LAP1\0\0\0\0\0\0\x01\x01",
        0,
        "done (#6e340b9cffb37a989ca544e6bb780a2c78901d3fb33738768511a30617afa01d, true)\n",
    ),
    (
        b"LAP1\0\0\0\0\0\0\x01\0",
        5,
        "rejected wrong-piece 0 4bf5122f344554c53bde2ebb8cd2b7e3d1600ad631c385a5d7cce23c7785459a 6e340b9cffb37a989ca544e6bb780a2c78901d3fb33738768511a30617afa01d\n",
    ),
    (
        b"LAP1\0\x01\0\0\0\0\x01\x01\x01\0\0",
        5,
        "rejected leftover 3\n",
    ),
];

/// A trap ends a run as a value does: the first trap or rejection from the left ends it, and bytes left behind it are refused.
const EARLY: [Row; 2] = [
    (b"LAP1\0\0", 3, "trap overflow\n"),
    (b"LAP1\0\0\0", 5, "rejected leftover 1\n"),
];

const LATE: [Row; 3] = [
    (b"LAP1\0\0", 5, "rejected short 0\n"),
    (b"LAP1\0\0\x02", 5, "rejected bad-kind 0 2\n"),
    (
        b"LAP1\0\0\0\0\0\0\x08\0\0\0\0\0\0\0\x10",
        3,
        "trap divzero\n",
    ),
];

/// A program and the literal of its state, the role and the argument of a call, and proofs of it.
type Table = (
    &'static [u8],
    &'static str,
    [&'static str; 2],
    &'static [Row],
);

static TABLES: [Table; 5] = [
    (SEE, "(true, false)", ["see", "()"], &SEEN),
    (TWO, "(true, false)", ["three", "()"], &OPENED),
    (SWITCH, "true", ["flip", "()"], &FLIPPED),
    (TRAPS, "16", ["early", "1"], &EARLY),
    (TRAPS, "16", ["ratio", "0"], &LATE),
];

/// The number of the first proof of a table, from 0, that is judged otherwise.
fn misjudged_of<R: Threads + Sync>(
    rt: &R,
    alloc: Global,
    table: &Table,
) -> Result<Option<usize>, AllocError> {
    let (program, literal, [role, argument], rows) = *table;
    let made = made_sides(rt, alloc, program, "make", literal)?;
    let call = Call {
        role,
        argument,
        fuel: "1",
    };
    misjudged(rt, alloc, &made, &call, rows, 4096)
}

#[test]
fn proofs_of_calls_are_judged(rt: HostRuntime) -> Result<(), Fail> {
    for table in &TABLES {
        if let Some(number) = misjudged_of(&rt, rt.alloc(), table)? {
            return Err(Fail::new(format_args!("{}: row {number}", table.2[0])));
        }
    }
    Ok(())
}

/// How much of the proof of a state of a state stands there, the role, and the status and the line: a piece of 32 bytes, then one of none.
static LAYERS: [(usize, &str, u8, &str); 2] = [
    (48, "deep", 0, "done ()\n"),
    (
        43,
        "half",
        0,
        "done #e3b0c44298fc1c149afbf4c8996fb92427ae41e4649b934ca495991b7852b855\n",
    ),
];

#[test]
fn nested_states_are_opened(rt: HostRuntime) -> Result<(), Fail> {
    let made = made_sides(&rt, rt.alloc(), DEEP, "make", "()")?;
    for (length, role, status, line) in &LAYERS {
        let front = DEEP_PROOF.get(..*length).unwrap_or_default();
        let call = Call {
            role,
            argument: " ( ) # the argument",
            fuel: "1",
        };
        if !made.are_told(&rt, rt.alloc(), &call, front, 4096, (*status, line))? {
            return Err(Fail::new(*line));
        }
    }
    Ok(())
}

/// How many bytes are left, and the line: more than 65,536 are told as 65,536.
static LEFT: [(usize, &str); 3] = [
    (65_535, "rejected leftover 65535\n"),
    (65_536, "rejected leftover 65536\n"),
    (100_000, "rejected leftover 65536\n"),
];

/// The proof, and so many bytes behind it.
fn with_bytes_left(alloc: Global, left: usize) -> Result<Vec<u8>, AllocError> {
    let mut proof = Vec::from_slice(alloc, PROOF)?;
    for _ in 0..left {
        proof.push(0)?;
    }
    Ok(proof)
}

#[test]
fn many_bytes_left_are_told_up_to_a_limit(rt: HostRuntime) -> Result<(), Fail> {
    let made = made_sides(&rt, rt.alloc(), FIRST, "make", "()")?;
    for (left, line) in &LEFT {
        let proof = with_bytes_left(rt.alloc(), *left)?;
        if !made.are_told(&rt, rt.alloc(), &opening("1"), &proof, 4096, (5, line))? {
            return Err(Fail::new(format_args!("{left}")));
        }
    }
    Ok(())
}
