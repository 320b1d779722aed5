// What `verify` stores of updates, and constructors that are told by their names.
use cli_stage::runs::{Call, run_words, verified};
use cli_stage::stage::{HEADER, staged};
use program_texts::{LOG, SWITCH};
use std::test::Fail;

/// The digests of the bytes 0 and 1, which spell false and true.
const NO: [u8; 32] = [
    0x6e, 0x34, 0x0b, 0x9c, 0xff, 0xb3, 0x7a, 0x98, 0x9c, 0xa5, 0x44, 0xe6, 0xbb, 0x78, 0x0a, 0x2c,
    0x78, 0x90, 0x1d, 0x3f, 0xb3, 0x37, 0x38, 0x76, 0x85, 0x11, 0xa3, 0x06, 0x17, 0xaf, 0xa0, 0x1d,
];

const YES: [u8; 32] = [
    0x4b, 0xf5, 0x12, 0x2f, 0x34, 0x45, 0x54, 0xc5, 0x3b, 0xde, 0x2e, 0xbb, 0x8c, 0xd2, 0xb7, 0xe3,
    0xd1, 0x60, 0x0a, 0xd6, 0x31, 0xc3, 0x85, 0xa5, 0xd7, 0xcc, 0xe2, 0x3c, 0x77, 0x85, 0x45, 0x9a,
];

/// The proof of one new piece, the byte 1.
const ONE: &[u8] = b"LAP1\0\0\0\0\0\0\x01\x01";

#[test]
fn the_new_state_is_stored_where_it_is_named(rt: HostRuntime) -> Result<(), Fail> {
    let stage = staged(SWITCH, &YES, ONE);
    let line = "done (#6e340b9cffb37a989ca544e6bb780a2c78901d3fb33738768511a30617afa01d, true)\n";
    let alone = ["verify", "p", "flip", "s", "()", "1", "q"];
    assert!(rt; run_words(&rt, rt.alloc(), &stage, &alone)?.only_tells(0, line));
    let named = ["verify", "p", "flip", "s", "()", "1", "q", "o"];
    assert!(rt; run_words(&rt, rt.alloc(), &stage, &named)?.stores(0, line, &NO));
    Ok(())
}

/// Roles that are called with a name for the new state, the fuel and the proof, where no state is stored: the status and the line.
static UNSTORED: [(&str, &str, &[u8], u8, &str); 5] = [
    ("both", "1", ONE, 7, "input refused: role kind\n"),
    ("make", "1", ONE, 7, "input refused: role kind\n"),
    ("flip", "0", HEADER, 4, "out of fuel\n"),
    ("flip", "1", HEADER, 5, "rejected short 0\n"),
    ("flip", "1", b"LAP1", 5, "rejected header\n"),
];

#[test]
fn no_state_is_stored_where_none_is_made(rt: HostRuntime) -> Result<(), Fail> {
    for (role, fuel, proof, status, line) in &UNSTORED {
        let words = ["verify", "p", role, "s", "()", fuel, "q", "o"];
        let run = run_words(&rt, rt.alloc(), &staged(SWITCH, &YES, proof), &words)?;
        if !run.only_tells(*status, line) {
            return Err(Fail::new(format_args!("{role} {line}")));
        }
    }
    Ok(())
}

/// A log of as many entries as there may be.
const FULL: &[u8] = b"\x7f\xff\xff\xff\xff\xff\xff\xff********************************";

#[test]
fn no_state_is_stored_of_a_full_log(rt: HostRuntime) -> Result<(), Fail> {
    let words = ["verify", "p", "append", "s", "\"\"", "1", "q", "o"];
    let run = run_words(&rt, rt.alloc(), &staged(LOG, FULL, HEADER), &words)?;
    assert!(rt; run.only_tells(3, "trap overflow\n"));
    Ok(())
}

/// A program with a named type: constructors are read and told by their names.
const COLORS: &[u8] =
    b"type color = Red | Green(int) | Mix(color, color); state color; query q(s: color, x: color): color = Mix(s, x);";

/// States, arguments, and the status and the line.
static NAMED: [(&[u8], &str, u8, &str); 4] = [
    (b"\0", "Green(7)", 0, "done Mix(Red, Green(7))\n"),
    (b"\x02\0\0", "Red", 0, "done Mix(Mix(Red, Red), Red)\n"),
    (b"\x02\0\x03", "Blue", 7, "input refused: state 2\n"),
    (b"\0", "Blue", 7, "input refused: argument Mismatch 0\n"),
];

#[test]
fn constructors_are_told_by_their_names(rt: HostRuntime) -> Result<(), Fail> {
    for (state, argument, status, line) in &NAMED {
        let call = Call {
            role: "q",
            argument,
            fuel: "1",
        };
        if !verified(&rt, rt.alloc(), COLORS, state, HEADER, &call)?.only_tells(*status, line) {
            return Err(Fail::new(*line));
        }
    }
    Ok(())
}
