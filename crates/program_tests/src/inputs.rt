// The inputs that `verify` refuses, and in which order.
use crate::values::is_given;
use cli_stage::runs::{Call, opening, run_words, verified};
use cli_stage::stage::{HEADER, PROOF, STATE, staged};
use program_texts::{FIRST, SUM};
use std::alloc::{AllocError, Global};
use std::test::Fail;
use std::thread::Threads;

/// The role and the fuel, and the line.
static ROLES: [[&str; 3]; 12] = [
    ["close", "1", "input refused: role unknown\n"],
    ["Open", "1", "input refused: role unknown\n"],
    ["open ", "1", "input refused: role unknown\n"],
    ["make", "1", "input refused: role kind\n"],
    ["open", "x", "input refused: number FUEL\n"],
    ["open", "1x", "input refused: number FUEL\n"],
    ["open", " 1", "input refused: number FUEL\n"],
    ["open", "+1", "input refused: number FUEL\n"],
    ["open", "0x1", "input refused: number FUEL\n"],
    ["open", "1000000000001", "input refused: number FUEL\n"],
    [
        "open",
        "18446744073709551616",
        "input refused: number FUEL\n",
    ],
    [
        "open",
        "000000000000000000001",
        "input refused: number FUEL\n",
    ],
];

#[test]
fn roles_and_numbers_are_refused(rt: HostRuntime) -> Result<(), Fail> {
    for [role, fuel, line] in &ROLES {
        let call = Call {
            role,
            argument: "()",
            fuel,
        };
        if !verified(&rt, rt.alloc(), FIRST, &STATE, PROOF, &call)?.only_tells(7, line) {
            return Err(Fail::new(format_args!("{role} {fuel}")));
        }
    }
    Ok(())
}

/// Types and bytes that are no spelling, with the place of their first fault.
static STATES: [(&str, &[u8], &str); 16] = [
    ("unit", b"\0", "input refused: state 0\n"),
    ("bool", b"", "input refused: state 0\n"),
    ("bool", b"\x02", "input refused: state 0\n"),
    ("bool", b"\x01\x01", "input refused: state 1\n"),
    ("int", b"", "input refused: state 0\n"),
    ("int", b"\0\0\0\0\0\0\0", "input refused: state 0\n"),
    ("int", b"\0\0\0\0\0\0\0\0\0", "input refused: state 8\n"),
    ("text", b"", "input refused: state 0\n"),
    ("text", b"\0\0\0", "input refused: state 0\n"),
    ("text", b"\0\0\0\x02a", "input refused: state 0\n"),
    ("text", b"\xff\xff\xff\xffa", "input refused: state 0\n"),
    ("text", b"\0\0\0\x01\xff", "input refused: state 0\n"),
    ("text", b"\0\0\0\x02\xc3\xa9a", "input refused: state 6\n"),
    ("text", b"\0\0\0\x01a\0\0", "input refused: state 5\n"),
    (
        "auth int",
        b"0123456789012345678901234567890123",
        "input refused: state 32\n",
    ),
    ("auth text", &[0; 40], "input refused: state 32\n"),
];

/// Whether a state of this type is refused with this line.
fn is_refused<R: Threads + Sync>(
    rt: &R,
    alloc: Global,
    ty: &str,
    state: &[u8],
    line: &str,
) -> Result<bool, AllocError> {
    let text = format!(in alloc; "state {ty}; query open(s: {ty}, x: unit): unit = x;")?;
    let run = verified(rt, alloc, text.as_bytes(), state, HEADER, &opening("1"))?;
    Ok(run.only_tells(7, line))
}

#[test]
fn states_are_refused(rt: HostRuntime) -> Result<(), Fail> {
    for (ty, state, line) in &STATES {
        if !is_refused(&rt, rt.alloc(), ty, state, line)? {
            return Err(Fail::new(format_args!("{ty} {line}")));
        }
    }
    Ok(())
}

/// A text of so many blanks behind a beginning.
fn blanks(alloc: Global, beginning: &[u8], length: usize) -> Result<Vec<u8>, AllocError> {
    let mut text = Vec::from_slice(alloc, beginning)?;
    text.resize(length, b' ')?;
    Ok(text)
}

/// How long the program and the state are, which query is called on them, and the status and the line. A program has at most 262,144
/// bytes. The state of an int has 8 bytes; more than 65,536 bytes are no spelling of anything.
static LONG: [(usize, usize, &str, u8, &str); 5] = [
    (262_144, 8, "more", 0, "done 2314885530818453537\n"),
    (262_145, 8, "more", 7, "input refused: too long P\n"),
    (200, 65_536, "open", 7, "input refused: role unknown\n"),
    (200, 65_536, "more", 7, "input refused: state 8\n"),
    (200, 65_537, "more", 7, "input refused: state 65536\n"),
];

#[test]
fn programs_and_states_have_a_greatest_length(rt: HostRuntime) -> Result<(), Fail> {
    for (program_length, state_length, role, status, line) in &LONG {
        let program = blanks(rt.alloc(), SUM, *program_length)?;
        let state = blanks(rt.alloc(), b"", *state_length)?;
        let call = Call {
            role,
            argument: "1",
            fuel: "1",
        };
        if !verified(&rt, rt.alloc(), &program, &state, HEADER, &call)?.only_tells(*status, line) {
            return Err(Fail::new(*line));
        }
    }
    Ok(())
}

/// Texts that are no literals of a type, each with the line of its first fault.
static LITERALS: [(&str, &str, &str); 44] = [
    ("unit", "(", "input refused: argument Mismatch 1\n"),
    ("unit", ")", "input refused: argument Mismatch 0\n"),
    ("unit", " ", "input refused: argument Mismatch 1\n"),
    ("unit", "()()", "input refused: argument Mismatch 2\n"),
    (
        "unit",
        "() # and\n ()",
        "input refused: argument Mismatch 10\n",
    ),
    ("unit", "unit", "input refused: argument Mismatch 0\n"),
    ("unit", "x", "input refused: argument Mismatch 0\n"),
    ("unit", "1", "input refused: argument Mismatch 0\n"),
    ("unit", "((),())", "input refused: argument Mismatch 1\n"),
    ("unit", "#", "input refused: argument Mismatch 1\n"),
    ("unit", "(#)", "input refused: argument Mismatch 3\n"),
    ("unit", "(@", "input refused: argument Char 1\n"),
    ("unit", "() @", "input refused: argument Char 3\n"),
    ("unit", ") @", "input refused: argument Mismatch 0\n"),
    ("bool", "1", "input refused: argument Mismatch 0\n"),
    ("bool", "True", "input refused: argument Mismatch 0\n"),
    ("bool", "truer", "input refused: argument Mismatch 0\n"),
    ("bool", "true false", "input refused: argument Mismatch 5\n"),
    ("bool", "(true)", "input refused: argument Mismatch 0\n"),
    ("bool", "\u{e9}", "input refused: argument Char 0\n"),
    ("int", "true", "input refused: argument Mismatch 0\n"),
    ("int", "1 2", "input refused: argument Mismatch 2\n"),
    ("int", "1x", "input refused: argument Mismatch 1\n"),
    ("int", " - 1", "input refused: argument Char 1\n"),
    ("int", " --1", "input refused: argument Char 1\n"),
    ("int", "+1", "input refused: argument Char 0\n"),
    ("int", "1_000", "input refused: argument Char 1\n"),
    (
        "int",
        "9223372036854775808",
        "input refused: argument NumberRange 0\n",
    ),
    (
        "int",
        "  -9223372036854775809",
        "input refused: argument NumberRange 2\n",
    ),
    (
        "int",
        "1 9223372036854775808",
        "input refused: argument NumberRange 2\n",
    ),
    ("int", "5 \"", "input refused: argument Unclosed 2\n"),
    ("text", "abc", "input refused: argument Mismatch 0\n"),
    ("text", "\"abc", "input refused: argument Unclosed 0\n"),
    ("text", "\"abc\" \"", "input refused: argument Unclosed 6\n"),
    ("text", "\"a\\\"", "input refused: argument Unclosed 0\n"),
    ("text", "\"a\\", "input refused: argument BadEscape 2\n"),
    (
        "text",
        "\"\u{e9}\\u\"",
        "input refused: argument BadEscape 3\n",
    ),
    ("text", "\"\\x80\"", "input refused: argument BadEscape 1\n"),
    ("text", "\"a\tb\"", "input refused: argument Char 2\n"),
    ("text", "\"a\u{7f}b\"", "input refused: argument Char 2\n"),
    ("text", "\"a\" b", "input refused: argument Mismatch 4\n"),
    (
        "text",
        "a2345678901234567890123456789012345678901234567890123456789012345",
        "input refused: argument NameLong 0\n",
    ),
    (
        "text",
        "\"a\" A2345678901234567890123456789012345678901234567890123456789012345",
        "input refused: argument NameLong 4\n",
    ),
    ("text", "\"a\\\\x80\"\\", "input refused: argument Char 8\n"),
];

#[test]
fn literals_are_refused_at_their_first_fault(rt: HostRuntime) -> Result<(), Fail> {
    for (ty, literal, line) in &LITERALS {
        if !is_given(&rt, rt.alloc(), ty, literal, (7, line))? {
            return Err(Fail::new(format_args!("{ty} {literal}")));
        }
    }
    Ok(())
}

/// A literal of a text of so many letters, behind a blank.
fn letters(alloc: Global, count: usize) -> Result<String, AllocError> {
    let mut literal = String::from_str(alloc, " \"")?;
    for _ in 0..count {
        literal.push('a')?;
    }
    literal.push('"')?;
    Ok(literal)
}

#[test]
fn a_literal_text_has_a_greatest_length(rt: HostRuntime) -> Result<(), Fail> {
    let text = b"state unit; query q(s: unit, x: text): unit = s;";
    for (count, status, line) in [
        (65_532, 0, "done ()\n"),
        (65_533, 7, "input refused: argument TextLong 1\n"),
    ] {
        let literal = letters(rt.alloc(), count)?;
        let call = Call {
            role: "q",
            argument: &literal,
            fuel: "1",
        };
        if !verified(&rt, rt.alloc(), text, b"", HEADER, &call)?.only_tells(status, line) {
            return Err(Fail::new(line));
        }
    }
    Ok(())
}

/// Programs, states and words of which two or more are refused: the earlier is told, of the program, the role, the fuel, the state and the
/// argument. The proof is opened last.
static ORDER: [(&[u8], &[u8], &[&str], u8, &str); 9] = [
    (
        b"abc",
        &[],
        &["verify", "p", "close", "s", "(", "x", "none"],
        6,
        "program refused: Expected 1 1\n",
    ),
    (
        b"abc",
        &[],
        &["verify", "none", "close", "s", "(", "x", "none"],
        8,
        "read fault\n",
    ),
    (
        FIRST,
        &[],
        &["verify", "p", "close", "none", "(", "x", "none"],
        7,
        "input refused: role unknown\n",
    ),
    (
        FIRST,
        &[],
        &["verify", "p", "make", "none", "(", "x", "none"],
        7,
        "input refused: role kind\n",
    ),
    (
        FIRST,
        &[],
        &["verify", "p", "open", "none", "(", "x", "none"],
        7,
        "input refused: number FUEL\n",
    ),
    (
        FIRST,
        &[],
        &["verify", "p", "open", "none", "(", "1", "none"],
        8,
        "read fault\n",
    ),
    (
        FIRST,
        &[],
        &["verify", "p", "open", "s", "(", "1", "none"],
        7,
        "input refused: state 0\n",
    ),
    (
        FIRST,
        &STATE,
        &["verify", "p", "open", "s", "(", "1", "none"],
        7,
        "input refused: argument Mismatch 1\n",
    ),
    (
        FIRST,
        &STATE,
        &["verify", "p", "open", "s", "()", "1", "none"],
        8,
        "read fault\n",
    ),
];

#[test]
fn the_first_refusal_is_told(rt: HostRuntime) -> Result<(), Fail> {
    for (program, state, words, status, line) in &ORDER {
        let run = run_words(&rt, rt.alloc(), &staged(program, state, PROOF), words)?;
        if !run.only_tells(*status, line) {
            return Err(Fail::new(*line));
        }
    }
    Ok(())
}
