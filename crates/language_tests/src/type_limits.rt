// How many there may be of what only long texts reach, and types that are long when they are written.
use crate::answers::{Misfit, Repeated, failed_row, misfit_of};
use auth_types::fault::{Limited, TypeKind};
use std::alloc::{AllocError, Global};
use std::test::Fail;

/// Two of these make 1,024 names.
const LETTERS: &[u8; 32] = b"abcdefghijklmnopqrstuvwxyzABCDEF";

/// What stands before a name, between it and itself, and behind it.
type Part = [&'static [u8]; 3];

const TYPE: Part = [b"type t_", b" = C", b";\n"];

const CONSTRUCTOR: Part = [b"| C", b" # ", b"\n"];

const FUNCTION: Part = [b"fun f_", b"(x: int): int = f_", b"(x);\n"];

/// What a type of many constructors begins with, and what stands behind it.
const FIRST: &[u8] = b"state unit; type t = First\n";

const THIRD: &[u8] = b";\ntype u = Another | Third;";

/// A role behind many functions.
const ROLE: &[u8] = b"init g(x: int): int = x;";

/// A beginning, how many parts there are, each with a name of its own, and an end, with the first fault. A program has at most 256 types and 1,024 functions,
/// a type at most 255 constructors.
static NUMBERED: [(&[u8], usize, Part, &[u8], Option<Misfit>); 8] = [
    (b"state unit;\n", 256, TYPE, b"", None),
    (
        b"state unit;\n",
        256,
        TYPE,
        b"type u = A;",
        Some((TypeKind::Limit(Limited::Types), 258, 6)),
    ),
    (
        b"state unit;\n",
        256,
        TYPE,
        b"type t_aa = A;",
        Some((TypeKind::Twice, 258, 6)),
    ),
    (FIRST, 254, CONSTRUCTOR, THIRD, None),
    (
        FIRST,
        255,
        CONSTRUCTOR,
        THIRD,
        Some((TypeKind::Limit(Limited::Constructors), 256, 3)),
    ),
    (b"state int;\n", 1024, FUNCTION, b"", None),
    (b"state int;\n", 1023, FUNCTION, ROLE, None),
    (
        b"state int;\n",
        1024,
        FUNCTION,
        ROLE,
        Some((TypeKind::Limit(Limited::Functions), 1026, 6)),
    ),
];

/// So many parts behind a text, each with a name of two letters.
fn numbered(
    alloc: Global,
    beginning: &[u8],
    count: usize,
    [before, between, behind]: Part,
) -> Result<Vec<u8>, AllocError> {
    let mut text = Vec::from_slice(alloc, beginning)?;
    for number in 0..count {
        let name = [LETTERS[number / 32 % 32], LETTERS[number % 32]];
        text.extend_from_slice(before)?;
        text.extend_from_slice(&name)?;
        text.extend_from_slice(between)?;
        text.extend_from_slice(&name)?;
        text.extend_from_slice(behind)?;
    }
    Ok(text)
}

#[test]
fn there_are_so_many_at_most(rt: HostRuntime) -> Result<(), Fail> {
    for (number, (beginning, count, part, end, answer)) in NUMBERED.iter().enumerate() {
        let mut text = numbered(rt.alloc(), beginning, *count, *part)?;
        text.extend_from_slice(end)?;
        if misfit_of(rt.alloc(), &text)? != *answer {
            return Err(failed_row(number));
        }
    }
    Ok(())
}

/// A function of seven parameters.
const SEVEN: &[u8] =
    b"type t = A(t, t, t, t, t, t, t, t); state t; fun f(x: t, p: t, q: t, r: t, s: t, t: t, u: t): int =\n";

/// A pattern of eight names, on a line of its own.
const EIGHT: &[u8] = b"match x with | A(a, b, c, d, e, f, g, h) ->\n";

/// Patterns one in the other around an expression. There are at most 255 locals; the bound part comes before the name, and what one arm
/// binds is gone in the next part.
static LOCALS: [(usize, &[u8], Option<Misfit>); 5] = [
    (31, b"0", None),
    (
        31,
        b"let y = 1 in y",
        Some((TypeKind::Limit(Limited::Locals), 33, 5)),
    ),
    (32, b"0", Some((TypeKind::Limit(Limited::Locals), 33, 18))),
    (31, b"let y = z in y", Some((TypeKind::UnknownName, 33, 9))),
    (30, b"add(let y = 1 in y, let y = 2 in y)", None),
];

#[test]
fn there_are_255_locals_at_most(rt: HostRuntime) -> Result<(), Fail> {
    for (number, (patterns, body, answer)) in LOCALS.iter().enumerate() {
        let text = Repeated {
            beginning: SEVEN,
            part: EIGHT,
            count: *patterns,
            middle: body,
            closing: b" end",
            end: b";",
        };
        if text.misfit(rt.alloc())? != *answer {
            return Err(failed_row(number));
        }
    }
    Ok(())
}

/// What stands behind 90 lets, each of which binds a pair of the last one. Written out, the type of the last would have 2 to the power of
/// 90 parts.
static PAIRS: [(&[u8], Option<Misfit>); 3] = [
    (
        b"if true then 0 else let y = if true then x else x in 1;",
        None,
    ),
    (
        b"let y = if true then x else (x, x) in 1;",
        Some((TypeKind::WrongType, 92, 29)),
    ),
    (
        b"let y = if true then x else fst(x) in 1;",
        Some((TypeKind::WrongType, 92, 29)),
    ),
];

#[test]
fn a_type_is_one_number_however_long_it_is(rt: HostRuntime) -> Result<(), Fail> {
    for (number, (body, answer)) in PAIRS.iter().enumerate() {
        let text = Repeated {
            beginning: b"state unit; fun f(x: int): int =\n",
            part: b"let x = (x, x) in\n",
            count: 90,
            middle: body,
            closing: b"",
            end: b"",
        };
        if text.misfit(rt.alloc())? != *answer {
            return Err(failed_row(number));
        }
    }
    Ok(())
}
