// What `draw` tells and sends; and the words of `draw` and `mirror` that are refused.
ghost use Rattle.std.specs.Prelude.{◌<◌};

use crate::messages::fetches;
use crate::telling::{is_only, is_told_to, link};
use cli_stage::runs::{Peers, Run, run_on_net};
use cli_stage::stage::{STATE, staged};
use core_terms::Hash32;
use digest_layer::Sha;
use program_texts::{FIRST, SWITCH};
use std::alloc::{AllocError, Global};
use std::test::Fail;
use std::thread::Threads;

/// A call on `()`: the program, the piece whose digest is the state, the role and the fuel.
pub type Call<'a> = (&'a [u8], &'a [u8], &'a str, &'a str);

/// Draws a call from a mirror that answers so, where so many bytes move at once and these calls of the net fail; and what was sent.
pub fn draw<R: Threads + Sync>(
    rt: &R,
    alloc: Global,
    call: Call,
    answers: &[u8],
    most: usize,
    failing: &[u64],
) -> Result<(Run, Vec<u8>), AllocError>
    requires { 0 < most }
{
    let (program, piece, role, fuel) = call;
    let links = link(alloc, answers)?;
    let peers = Peers {
        bytes: &links,
        most,
        failing,
    };
    let state = Sha::of(piece).0;
    let stage = staged(program, &state, b"");
    let words = ["draw", "p", role, "s", "()", fuel, "4711"];
    run_on_net(rt, alloc, &stage, &words, &peers, &[], (100, &[]))
}

/// The call of the smallest program, and some that open a bool.
const OPEN: Call<'static> = (FIRST, b"", "open", "1");

const BOTH: Call<'static> = (SWITCH, b"\x01", "both", "1");

const OVER: Call<'static> = (SWITCH, b"\x01", "over", "1");

const FLIP: Call<'static> = (SWITCH, b"\x01", "flip", "0");

/// A call, what comes on the link, how often the piece is asked for, and what is told.
type Row = (Call<'static>, &'static [u8], usize, u8, &'static str);

static ROWS: [Row; 19] = [
    (OPEN, b"\0\0\0\x03\x86\0\0", 1, 0, "done ()\n"),
    (OPEN, b"\0\0\0\x03\x86\0\0\0\0\0", 1, 0, "done ()\n"),
    (
        OPEN,
        b"\0\0\0\x03\x87\0\0",
        1,
        5,
        "rejected missing 0 e3b0c44298fc1c149afbf4c8996fb92427ae41e4649b934ca495991b7852b855\n",
    ),
    (
        OPEN,
        b"\0\0\0\x04\x86\0\0\0",
        1,
        5,
        "rejected wrong-piece 0 e3b0c44298fc1c149afbf4c8996fb92427ae41e4649b934ca495991b7852b855 6e340b9cffb37a989ca544e6bb780a2c78901d3fb33738768511a30617afa01d\n",
    ),
    (OPEN, b"", 1, 5, "reply ended\n"),
    (OPEN, b"\0\0\0", 1, 5, "reply cut\n"),
    (OPEN, b"\0\0\0\x04\x86\0\0", 1, 5, "reply cut\n"),
    (OPEN, b"\x01\0\0\x01", 1, 5, "message too long 16777217\n"),
    (OPEN, b"\0\0\0\0", 1, 5, "bad message 0 0\n"),
    (OPEN, b"\0\0\0\x03\x05\0\0", 1, 5, "bad message 5 0\n"),
    (OPEN, b"\0\0\0\x03\x85\0\0", 1, 5, "bad message 133 0\n"),
    (OPEN, b"\0\0\0\x03\x86\0\x01", 1, 5, "bad message 134 1\n"),
    (OPEN, b"\0\0\0\x02\x86\0", 1, 5, "bad message 134 1\n"),
    (OPEN, b"\0\0\0\x03\x87\x01\0", 1, 5, "bad message 135 1\n"),
    (OPEN, b"\0\0\0\x04\x87\0\0\0", 1, 5, "bad message 135 3\n"),
    (OPEN, b"\0\0\0\x01\xff", 1, 5, "bad message 255 0\n"),
    (
        BOTH,
        b"\0\0\0\x04\x86\0\0\x01\0\0\0\x04\x86\0\0\x01",
        2,
        0,
        "done (true, true)\n",
    ),
    (OVER, b"\0\0\0\x04\x86\0\0\x01", 1, 3, "trap overflow\n"),
    (FLIP, b"", 0, 4, "out of fuel\n"),
];

/// How many bytes move at once.
pub static SIZES: [usize; 3] = [1, 3, 4096];

/// Whether the answers of a row are told so, and the piece is asked for so often, where so many bytes move at once.
fn is_told<R: Threads + Sync>(
    rt: &R,
    alloc: Global,
    row: &Row,
    most: usize,
) -> Result<bool, AllocError>
    requires { 0 < most }
{
    let (call, answers, count, status, line) = row;
    let asked = fetches(alloc, [call.1; 2].get(..*count).unwrap_or(&[]))?;
    let ran = draw(rt, alloc, *call, answers, most, &[])?;
    Ok(is_only(&ran, *status, line, &asked))
}

#[test]
fn each_answer_is_told(rt: HostRuntime) -> Result<(), Fail> {
    for (number, row) in ROWS.iter().enumerate() {
        for most in &SIZES {
            if !is_told(&rt, rt.alloc(), row, (*most).max(1))? {
                return Err(Fail::new(format_args!("row {number}, {most} at once")));
            }
        }
    }
    Ok(())
}

/// The number of calls of the net: of the first that may fail and nothing is told of it.
fn first_unfailing<R: Threads + Sync>(rt: &R, alloc: Global) -> Result<u64, AllocError> {
    for call in 0..100 {
        let ran = draw(rt, alloc, OPEN, b"\0\0\0\x03\x86\0\0", 4096, &[call])?;
        if ran.0.only_tells(0, "done ()\n") {
            return Ok(call);
        }
        if !ran.0.only_tells(8, "link fault\n") || (call == 0 && !ran.1.is_empty()) {
            return Ok(100);
        }
    }
    Ok(100)
}

#[test]
fn each_call_of_the_net_fails_once(rt: HostRuntime) -> Result<(), Fail> {
    let calls = first_unfailing(&rt, rt.alloc())?;
    if !(4..100).contains(&calls) {
        return Err(Fail::new(format_args!("call {calls}")));
    }
    Ok(())
}

/// Words of which some are refused, and what is told of the first of these. The file `q` is no program, state or mirror.
static REFUSED: [(&str, u8, &str); 16] = [
    (
        "draw q close none ( x 0",
        6,
        "program refused: Expected 1 1\n",
    ),
    (
        "draw p close none ( x 0",
        7,
        "input refused: role unknown\n",
    ),
    ("draw p make none ( x 0", 7, "input refused: role kind\n"),
    ("draw p open none ( x 0", 7, "input refused: number FUEL\n"),
    ("draw p open none ( 1 0", 7, "input refused: number PORT\n"),
    (
        "draw p open none ( 1 65536",
        7,
        "input refused: number PORT\n",
    ),
    ("draw p open none ( 1 1", 8, "read fault\n"),
    ("draw p open q ( 1 1", 7, "input refused: state 0\n"),
    (
        "draw p open s ( 1 1",
        7,
        "input refused: argument Mismatch 1\n",
    ),
    ("mirror none 0 0", 7, "input refused: number PORT\n"),
    ("mirror none 65536 0", 7, "input refused: number PORT\n"),
    ("mirror none 1 0", 7, "input refused: number CONNS\n"),
    ("mirror none 1 1001", 7, "input refused: number CONNS\n"),
    ("mirror none 1 1", 8, "read fault\n"),
    ("mirror q 1 1", 7, "input refused: mirror cut 3\n"),
    ("mirror s 1 1", 7, "input refused: mirror field 0\n"),
];

#[test]
fn the_first_refusal_is_told(rt: HostRuntime) -> Result<(), Fail> {
    let stage = staged(FIRST, &STATE, b"abc");
    for (words, status, text) in &REFUSED {
        if !is_told_to(&rt, rt.alloc(), &stage, words, &[0], *status, text)? {
            return Err(Fail::new(format_args!("{text}")));
        }
    }
    Ok(())
}
