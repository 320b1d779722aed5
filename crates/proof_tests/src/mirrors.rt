// The pieces of a state, filed by `pieces`, and calls over them, judged by `fetch`.
use crate::calls::DEEP;
use crate::sides::{Sides, made_sides};
use cli_stage::runs::run_words;
use cli_stage::stage::{STATE, staged};
use program_texts::{FIRST, SWITCH, TWO};
use std::alloc::{AllocError, Global};
use std::test::Fail;
use std::thread::Threads;

/// A program, and the literal of a state of it.
type Made = (&'static [u8], &'static str);

/// A state, the file of its pieces and the line that tells their number; a role, and the status and the line of its call on `()`.
type Row = (
    Made,
    &'static [u8],
    &'static str,
    &'static str,
    u8,
    &'static str,
);

static ROWS: [Row; 7] = [
    (
        (FIRST, "()"),
        b"LAM1\0\0\0\x01\0\0\0\0",
        "pieces 1\n",
        "open",
        0,
        "done ()\n",
    ),
    // the inner piece is the first one; the other one is its digest
    (
        (DEEP, "()"),
        b"LAM1\0\0\0\x02\0\0\0\0\0\0\0\x20\xe3\xb0\xc4\x42\x98\xfc\x1c\x14\x9a\xfb\xf4\xc8\x99\x6f\xb9\x24\x27\xae\x41\xe4\x64\x9b\x93\x4c\xa4\x95\x99\x1b\x78\x52\xb8\x55",
        "pieces 2\n",
        "deep",
        0,
        "done ()\n",
    ),
    (
        (SWITCH, "true"),
        b"LAM1\0\0\0\x01\0\0\0\x01\x01",
        "pieces 1\n",
        "both",
        0,
        "done (true, true)\n",
    ),
    (
        (SWITCH, "true"),
        b"LAM1\0\0\0\x01\0\0\0\x01\x01",
        "pieces 1\n",
        "flip",
        0,
        "done (#6e340b9cffb37a989ca544e6bb780a2c78901d3fb33738768511a30617afa01d, true)\n",
    ),
    (
        (SWITCH, "false"),
        b"LAM1\0\0\0\x01\0\0\0\x01\0",
        "pieces 1\n",
        "over",
        3,
        "trap overflow\n",
    ),
    (
        (TWO, "(true, false)"),
        b"LAM1\0\0\0\x02\0\0\0\x01\x01\0\0\0\x01\0",
        "pieces 2\n",
        "three",
        0,
        "done (true, (false, true))\n",
    ),
    // equal pieces are filed once
    (
        (TWO, "(false, false)"),
        b"LAM1\0\0\0\x01\0\0\0\x01\0",
        "pieces 1\n",
        "three",
        0,
        "done (false, (false, false))\n",
    ),
];

/// A state, a role, a mirror's file, and the status and the line of the call on `()`.
type Other = (Made, &'static str, &'static [u8], u8, &'static str);

static OTHERS: [Other; 12] = [
    // no piece, another one, and another one beside that which is asked for
    (
        (FIRST, "()"),
        "open",
        b"LAM1\0\0\0\0",
        5,
        "rejected missing 0 e3b0c44298fc1c149afbf4c8996fb92427ae41e4649b934ca495991b7852b855\n",
    ),
    (
        (FIRST, "()"),
        "open",
        b"LAM1\0\0\0\x01\0\0\0\x01\x07",
        5,
        "rejected missing 0 e3b0c44298fc1c149afbf4c8996fb92427ae41e4649b934ca495991b7852b855\n",
    ),
    (
        (FIRST, "()"),
        "open",
        b"LAM1\0\0\0\x02\0\0\0\x01\x07\0\0\0\0",
        0,
        "done ()\n",
    ),
    // the inner piece alone, and the other one alone
    (
        (DEEP, "()"),
        "deep",
        b"LAM1\0\0\0\x01\0\0\0\0",
        5,
        "rejected missing 0 5df6e0e2761359d30a8275058e299fcc0381534545f55cf43e41983f5d4c9456\n",
    ),
    (
        (DEEP, "()"),
        "deep",
        b"LAM1\0\0\0\x01\0\0\0\x20\xe3\xb0\xc4\x42\x98\xfc\x1c\x14\x9a\xfb\xf4\xc8\x99\x6f\xb9\x24\x27\xae\x41\xe4\x64\x9b\x93\x4c\xa4\x95\x99\x1b\x78\x52\xb8\x55",
        5,
        "rejected missing 1 e3b0c44298fc1c149afbf4c8996fb92427ae41e4649b934ca495991b7852b855\n",
    ),
    (
        (DEEP, "()"),
        "half",
        b"LAM1\0\0\0\x01\0\0\0\x20\xe3\xb0\xc4\x42\x98\xfc\x1c\x14\x9a\xfb\xf4\xc8\x99\x6f\xb9\x24\x27\xae\x41\xe4\x64\x9b\x93\x4c\xa4\x95\x99\x1b\x78\x52\xb8\x55",
        0,
        "done #e3b0c44298fc1c149afbf4c8996fb92427ae41e4649b934ca495991b7852b855\n",
    ),
    // files that are none of a mirror
    (
        (FIRST, "()"),
        "open",
        b"",
        7,
        "input refused: mirror cut 0\n",
    ),
    (
        (FIRST, "()"),
        "open",
        b"LAM1\0\0\0\x01",
        7,
        "input refused: mirror cut 8\n",
    ),
    (
        (FIRST, "()"),
        "open",
        b"LAM2\0\0\0\x01\0\0\0\0",
        7,
        "input refused: mirror field 0\n",
    ),
    (
        (FIRST, "()"),
        "open",
        b"LAM1\0\0\0\x01\0\x10\0\x21",
        7,
        "input refused: mirror field 8\n",
    ),
    (
        (FIRST, "()"),
        "open",
        b"LAM1\0\0\0\x02\0\0\0\0\0\0\0\0",
        7,
        "input refused: mirror field 12\n",
    ),
    (
        (FIRST, "()"),
        "open",
        b"LAM1\0\0\0\x01\0\0\0\0\x09\x09\x09",
        7,
        "input refused: mirror leftover 3\n",
    ),
];

/// What both sides have of a state.
fn sides_of<R: Threads + Sync>(
    rt: &R,
    alloc: Global,
    made: Made,
) -> Result<Sides<'static>, AllocError> {
    let (program, literal) = made;
    made_sides(rt, alloc, program, "make", literal)
}

/// Whether `pieces` stores this file of a state's pieces, and tells this line.
fn are_filed<R: Threads + Sync>(
    rt: &R,
    alloc: Global,
    sides: &Sides,
    file: &[u8],
    line: &str,
) -> Result<bool, AllocError> {
    let stage = staged(sides.program, b"", &sides.image);
    let run = run_words(rt, alloc, &stage, &["pieces", "p", "q", "o"])?;
    Ok(run.stores(0, line, file))
}

/// Whether `fetch` tells this of a call over a mirror's file.
fn is_told<R: Threads + Sync>(
    rt: &R,
    alloc: Global,
    sides: &Sides,
    role: &str,
    file: &[u8],
    told: (u8, &str),
) -> Result<bool, AllocError> {
    let (status, line) = told;
    let stage = staged(sides.program, &sides.state, file);
    let words = ["fetch", "p", role, "s", "()", "1", "q"];
    Ok(run_words(rt, alloc, &stage, &words)?.only_tells(status, line))
}

/// Whether a row is told.
fn is_row<R: Threads + Sync>(rt: &R, alloc: Global, row: &Row) -> Result<bool, AllocError> {
    let (made, file, filed, role, status, line) = *row;
    let sides = sides_of(rt, alloc, made)?;
    Ok(
        are_filed(rt, alloc, &sides, file, filed)?
            && is_told(rt, alloc, &sides, role, file, (status, line))?,
    )
}

#[test]
fn calls_over_the_pieces_of_a_state(rt: HostRuntime) -> Result<(), Fail> {
    for (number, row) in ROWS.iter().enumerate() {
        if !is_row(&rt, rt.alloc(), row)? {
            return Err(Fail::new(format_args!("row {number}")));
        }
    }
    Ok(())
}

#[test]
fn calls_over_other_mirrors(rt: HostRuntime) -> Result<(), Fail> {
    for (number, (made, role, file, status, line)) in OTHERS.iter().enumerate() {
        let sides = sides_of(&rt, rt.alloc(), *made)?;
        if !is_told(&rt, rt.alloc(), &sides, role, file, (*status, line))? {
            return Err(Fail::new(format_args!("row {number}")));
        }
    }
    Ok(())
}

/// A program, a state, and words of which two or more are refused: the first of these is told, of the program, the role, the fuel, the state,
/// the argument and the mirror, or of the program and the image.
static ORDER: [(&[u8], &[u8], &[&str], u8, &str); 13] = [
    (
        b"abc",
        &[],
        &["fetch", "p", "close", "s", "(", "x", "none"],
        6,
        "program refused: Expected 1 1\n",
    ),
    (
        FIRST,
        &[],
        &["fetch", "p", "close", "none", "(", "x", "none"],
        7,
        "input refused: role unknown\n",
    ),
    (
        FIRST,
        &[],
        &["fetch", "p", "make", "none", "(", "x", "none"],
        7,
        "input refused: role kind\n",
    ),
    (
        FIRST,
        &[],
        &["fetch", "p", "open", "none", "(", "x", "none"],
        7,
        "input refused: number FUEL\n",
    ),
    (
        FIRST,
        &[],
        &["fetch", "p", "open", "none", "(", "1", "none"],
        8,
        "read fault\n",
    ),
    (
        FIRST,
        &[],
        &["fetch", "p", "open", "s", "(", "1", "p"],
        7,
        "input refused: state 0\n",
    ),
    (
        FIRST,
        &STATE,
        &["fetch", "p", "open", "s", "(", "1", "p"],
        7,
        "input refused: argument Mismatch 1\n",
    ),
    (
        FIRST,
        &STATE,
        &["fetch", "p", "open", "s", "()", "1", "none"],
        8,
        "read fault\n",
    ),
    (
        FIRST,
        &STATE,
        &["fetch", "p", "open", "s", "()", "1", "p"],
        7,
        "input refused: mirror field 0\n",
    ),
    (
        b"abc",
        &[],
        &["pieces", "p", "none", "o"],
        6,
        "program refused: Expected 1 1\n",
    ),
    (FIRST, &[], &["pieces", "none", "p", "o"], 8, "read fault\n"),
    (FIRST, &[], &["pieces", "p", "none", "o"], 8, "read fault\n"),
    (
        FIRST,
        &[],
        &["pieces", "p", "p", "o"],
        7,
        "input refused: image magic\n",
    ),
];

#[test]
fn the_first_refusal_is_told(rt: HostRuntime) -> Result<(), Fail> {
    for (number, (program, state, words, status, line)) in ORDER.iter().enumerate() {
        let run = run_words(&rt, rt.alloc(), &staged(program, state, &[]), words)?;
        if !run.only_tells(*status, line) {
            return Err(Fail::new(format_args!("row {number}")));
        }
    }
    Ok(())
}
