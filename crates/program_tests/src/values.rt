// Values: read from a state, an argument or a piece, and printed.
use cli_stage::runs::{Call, opening, verified};
use cli_stage::stage::HEADER;
use std::alloc::{AllocError, Global};
use std::test::Fail;
use std::thread::Threads;

/// States at their types, and how they are printed.
static STATES: [(&str, &[u8], &str); 17] = [
    ("unit", b"", "done ()\n"),
    ("bool", b"\0", "done false\n"),
    ("bool", b"\x01", "done true\n"),
    ("int", b"\0\0\0\0\0\0\0\0", "done 0\n"),
    ("int", b"\0\0\0\0\0\0\0\x07", "done 7\n"),
    ("int", b"\xff\xff\xff\xff\xff\xff\xff\xff", "done -1\n"),
    (
        "int",
        b"\x7f\xff\xff\xff\xff\xff\xff\xff",
        "done 9223372036854775807\n",
    ),
    ("int", b"\x80\0\0\0\0\0\0\0", "done -9223372036854775808\n"),
    ("int", b"\xff\xff\xff\xff\xff\xff\xff\xf6", "done -10\n"),
    ("text", b"\0\0\0\0", "done \"\"\n"),
    ("text", b"\0\0\0\x03abc", "done \"abc\"\n"),
    (
        "text",
        b"\0\0\0\x04\"\\\x0a\x09",
        "done \"\\\"\\\\\\n\\t\"\n",
    ),
    (
        "text",
        b"\0\0\0\x06\0\x01\x0b\x0d\x1f\x7f",
        "done \"\\x00\\x01\\x0b\\x0d\\x1f\\x7f\"\n",
    ),
    (
        "text",
        b"\0\0\0\x0b\xc3\xa9 \xe2\x82\xac \xf0\x9d\x84\x9e",
        "done \"é € 𝄞\"\n",
    ),
    ("text", b"\0\0\0\x08# ' -> |", "done \"# ' -> |\"\n"),
    (
        "auth int",
        b"\xe3\xb0\xc4B\x98\xfc\x1c\x14\x9a\xfb\xf4\xc8\x99o\xb9$'\xaeA\xe4d\x9b\x93L\xa4\x95\x99\x1bxR\xb8U",
        "done #e3b0c44298fc1c149afbf4c8996fb92427ae41e4649b934ca495991b7852b855\n",
    ),
    (
        "auth text",
        b"\0\x01\x02\x03\x04\x05\x06\x07\x08\x09\x0a\x0b\x0c\x0d\x0e\x0f\x10\x11\x12\x13\x14\x15\x16\x17\x18\x19\x1a\x1b\x1c\x1d\x1e\x1f",
        "done #000102030405060708090a0b0c0d0e0f101112131415161718191a1b1c1d1e1f\n",
    ),
];

/// Whether a state of a type is printed so.
fn is_printed<R: Threads + Sync>(
    rt: &R,
    alloc: Global,
    ty: &str,
    state: &[u8],
    line: &str,
) -> Result<bool, AllocError> {
    let text = format!(in alloc; "state {ty}; query open(s: {ty}, x: unit): {ty} = s;")?;
    let run = verified(rt, alloc, text.as_bytes(), state, HEADER, &opening("1"))?;
    Ok(run.only_tells(0, line))
}

#[test]
fn states_are_printed(rt: HostRuntime) -> Result<(), Fail> {
    for (ty, state, line) in &STATES {
        if !is_printed(&rt, rt.alloc(), ty, state, line)? {
            return Err(Fail::new(format_args!("{ty} {line}")));
        }
    }
    Ok(())
}

/// Literals at their types, and how their values are printed.
static LITERALS: [(&str, &str, &str); 11] = [
    ("unit", " ( ) ", "done ()\n"),
    ("unit", " ( # a comment\n) ", "done ()\n"),
    ("bool", "true", "done true\n"),
    ("bool", " false # no", "done false\n"),
    ("int", " -0", "done 0\n"),
    ("int", "007", "done 7\n"),
    ("int", " -007", "done -7\n"),
    (
        "int",
        " -9223372036854775808",
        "done -9223372036854775808\n",
    ),
    (
        "int",
        "000009223372036854775807",
        "done 9223372036854775807\n",
    ),
    (
        "text",
        "\"\\x7f\\x41\\x0A\\n\\t\\\"\\\\ é\"",
        "done \"\\x7fA\\n\\n\\t\\\"\\\\ é\"\n",
    ),
    ("text", "\t\"# no comment\"\r\n", "done \"# no comment\"\n"),
];

/// Whether a query that gives its argument answers so at a literal of a type: the status, and the line.
pub fn is_given<R: Threads + Sync>(
    rt: &R,
    alloc: Global,
    ty: &str,
    literal: &str,
    (status, line): (u8, &str),
) -> Result<bool, AllocError> {
    let text = format!(in alloc; "state unit; query q(s: unit, x: {ty}): {ty} = x;")?;
    let call = Call {
        role: "q",
        argument: literal,
        fuel: "1",
    };
    Ok(verified(rt, alloc, text.as_bytes(), b"", HEADER, &call)?.only_tells(status, line))
}

#[test]
fn arguments_are_printed(rt: HostRuntime) -> Result<(), Fail> {
    for (ty, literal, line) in &LITERALS {
        if !is_given(&rt, rt.alloc(), ty, literal, (0, line))? {
            return Err(Fail::new(format_args!("{ty} {literal}")));
        }
    }
    Ok(())
}

/// The digest of the 8 bytes of 5.
const FIVE: [u8; 32] = [
    0x5d, 0xee, 0x4d, 0xd6, 0x0f, 0xf8, 0xd0, 0xba, 0x99, 0x00, 0xfe, 0x91, 0xe9, 0x0e, 0x0d, 0xcf,
    0x65, 0xf0, 0x57, 0x0d, 0x42, 0xc4, 0x31, 0xf7, 0x27, 0xd0, 0x30, 0x0d, 0xd7, 0x0d, 0xc4, 0x31,
];

/// A proof whose piece is the 8 bytes of 5.
const PIECE: &[u8] = b"LAP1\0\0\0\0\0\0\x08\0\0\0\0\0\0\0\x05";

/// Types at which this piece is read, with the status and the line.
static PIECES: [(&str, u8, &str); 4] = [
    ("int", 0, "done 5\n"),
    ("bool", 5, "rejected bad-piece 0 1\n"),
    ("text", 5, "rejected bad-piece 0 4\n"),
    ("unit", 5, "rejected bad-piece 0 0\n"),
];

/// Whether the piece is told so where it is opened at a type.
fn is_opened<R: Threads + Sync>(
    rt: &R,
    alloc: Global,
    ty: &str,
    status: u8,
    line: &str,
) -> Result<bool, AllocError> {
    let text = format!(in alloc;
        "state auth {ty}; query open(s: auth {ty}, x: unit): {ty} = unauth(s);"
    )?;
    let run = verified(rt, alloc, text.as_bytes(), &FIVE, PIECE, &opening("1"))?;
    Ok(run.only_tells(status, line))
}

#[test]
fn pieces_are_read_at_their_type(rt: HostRuntime) -> Result<(), Fail> {
    for (ty, status, line) in &PIECES {
        if !is_opened(&rt, rt.alloc(), ty, *status, line)? {
            return Err(Fail::new(format_args!("{ty} {line}")));
        }
    }
    Ok(())
}
