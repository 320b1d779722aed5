// Arrays: the first fault of texts of the second format, and literals and printed values.
use crate::answers::{Fault, Misfit, failed_row, fault_of, misfit_of, program_of};
use crate::literals::{Answer, is_spelled, misread, read};
use crate::values::is_printed;
use auth_types::fault::TypeKind;
use core_terms::Program;
use lexemes::fault::{LexicalFault, SyntaxKind};
use printed_syntax::fault::LiteralKind;
use std::alloc::{AllocError, Global};
use std::test::Fail;

/// Texts, and the first fault of their syntax.
static SYNTAX: [(&[u8], Option<Fault>); 18] = [
    (b"format 2; state vec[1] int; state vec[64] int;", None),
    (
        b"format 2; state vec[65] int;",
        Some((SyntaxKind::Lexical(LexicalFault::NumberRange), 1, 21)),
    ),
    (
        b"format 2; state vec[0] int;",
        Some((SyntaxKind::Lexical(LexicalFault::NumberRange), 1, 21)),
    ),
    (
        b"format 2; state vec[-1] int;",
        Some((SyntaxKind::Lexical(LexicalFault::NumberRange), 1, 21)),
    ),
    (
        b"format 2; state vec[x] int;",
        Some((SyntaxKind::Expected, 1, 21)),
    ),
    (
        b"format 2; state vec int;",
        Some((SyntaxKind::Expected, 1, 21)),
    ),
    (
        b"format 2; state vec[2 int;",
        Some((SyntaxKind::Expected, 1, 23)),
    ),
    (
        b"format 2; state vec[2];",
        Some((SyntaxKind::Expected, 1, 23)),
    ),
    (
        b"format 2; state [2] int;",
        Some((SyntaxKind::Expected, 1, 17)),
    ),
    (
        b"format 2; fun f(x: int): int = vfill[65](x);",
        Some((SyntaxKind::Lexical(LexicalFault::NumberRange), 1, 38)),
    ),
    (
        b"format 2; fun f(x: int): int = vfill(x);",
        Some((SyntaxKind::Expected, 1, 37)),
    ),
    (
        b"format 2; fun f(x: int): int = vfill[2](x, x);",
        Some((SyntaxKind::Expected, 1, 42)),
    ),
    (
        b"format 2; fun f(x: int): int = vfill[2] x;",
        Some((SyntaxKind::Expected, 1, 41)),
    ),
    (
        b"format 2; fun f(x: int): int = vget(x);",
        Some((SyntaxKind::Expected, 1, 38)),
    ),
    (
        b"format 2; fun f(x: int): int = vget(x, x, x);",
        Some((SyntaxKind::Expected, 1, 41)),
    ),
    (
        b"format 2; fun f(x: int): int = vput(x, x);",
        Some((SyntaxKind::Expected, 1, 41)),
    ),
    (
        b"format 2; fun f(x: int): int = vput(x, x, x, x);",
        Some((SyntaxKind::Expected, 1, 44)),
    ),
    (
        b"format 2; fun f(x: int): int = [x, x];",
        Some((SyntaxKind::Expected, 1, 32)),
    ),
];

#[test]
fn arrays_have_their_first_fault(rt: HostRuntime) -> Result<(), Fail> {
    for (number, (text, fault)) in SYNTAX.iter().enumerate() {
        if fault_of(rt.alloc(), text)? != *fault {
            return Err(failed_row(number));
        }
    }
    Ok(())
}

/// Texts that the grammar takes, and the first fault of their types. An operand is judged before the next one is.
static TYPES: [(&[u8], Option<Misfit>); 20] = [
    (
        b"format 2; state vec[2] int; query q(s: vec[2] int, i: int): int = vget(5, i);",
        Some((TypeKind::NotVec, 1, 72)),
    ),
    (
        b"format 2; state vec[2] int; query q(s: vec[2] int, i: int): int = vget(i, true);",
        Some((TypeKind::NotVec, 1, 72)),
    ),
    (
        b"format 2; state vec[2] int; query q(s: vec[2] int, i: int): int = vget((s, s), i);",
        Some((TypeKind::NotVec, 1, 72)),
    ),
    (
        b"format 2; state vec[2] int; query q(s: vec[2] int, i: int): int = vget(s, true);",
        Some((TypeKind::WrongType, 1, 75)),
    ),
    (
        b"format 2; state vec[2] int; query q(s: vec[2] int, i: int): bool = vget(s, i);",
        Some((TypeKind::WrongType, 1, 68)),
    ),
    (
        b"format 2; state vec[2] int; fun f(s: vec[2] int, i: int): vec[2] int = vput(i, 0, i);",
        Some((TypeKind::NotVec, 1, 77)),
    ),
    (
        b"format 2; state vec[2] int; fun f(s: auth vec[2] int, i: int): vec[2] int = vput(s, 0, i);",
        Some((TypeKind::NotVec, 1, 82)),
    ),
    (
        b"format 2; state vec[2] int; fun f(s: vec[2] int, i: int): vec[2] int = vput(s, s, i);",
        Some((TypeKind::WrongType, 1, 80)),
    ),
    (
        b"format 2; state vec[2] int; fun f(s: vec[2] int, i: int): vec[2] int = vput(s, 0, true);",
        Some((TypeKind::WrongType, 1, 83)),
    ),
    (
        b"format 2; state vec[2] int; fun f(s: vec[2] int, i: int): vec[2] int = vput(s, true, true);",
        Some((TypeKind::WrongType, 1, 80)),
    ),
    (
        b"format 2; state vec[2] int; fun f(s: vec[2] int, i: int): vec[2] int = vfill[3](i);",
        Some((TypeKind::WrongType, 1, 72)),
    ),
    (
        b"format 2; state vec[2] int; fun f(s: vec[2] int, i: int): vec[2] int = vfill[2](true);",
        Some((TypeKind::WrongType, 1, 72)),
    ),
    (
        b"format 2; state vec[2] int; fun f(s: vec[2] int, i: int): vec[2] int = vfill[2](y);",
        Some((TypeKind::UnknownName, 1, 81)),
    ),
    (
        b"format 2; state vec[2] int; fun f(s: vec[2] int, i: int): vec[3] int = s;",
        Some((TypeKind::WrongType, 1, 72)),
    ),
    (
        b"format 2; state vec[2] int; fun f(s: vec[2] a, i: int): int = i;",
        Some((TypeKind::UnknownName, 1, 45)),
    ),
    (
        b"format 2; state vec[2] int; init f(x: vec[2] auth int): vec[2] int = vfill[2](1);",
        Some((TypeKind::AuthInArgument, 1, 39)),
    ),
    (
        b"format 2; state vec[2] int; init f(x: int): vec[3] int = vfill[3](x);",
        Some((TypeKind::RoleShape, 1, 34)),
    ),
    // each operation on operands of its types, and arrays of a named type and in one
    (
        b"format 2; state vec[2] int; fun f(s: vec[2] int, i: int): vec[2] int = vput(s, vget(s, i), i);",
        None,
    ),
    (
        b"format 2; type t = A | B(vec[2] t); state vec[1] vec[64] t; fun f(x: t): t = vget(vfill[3](B(vfill[2](x))), 0);",
        None,
    ),
    (
        b"format 2; state auth vec[2] auth int; fun f(s: auth vec[2] auth int): int = unauth(vget(unauth(s), 1));",
        None,
    ),
];

#[test]
fn arrays_have_their_types(rt: HostRuntime) -> Result<(), Fail> {
    for (number, (text, fault)) in TYPES.iter().enumerate() {
        if misfit_of(rt.alloc(), text)? != *fault {
            return Err(failed_row(number));
        }
    }
    Ok(())
}

/// A program of the second format whose state has this type.
fn of_array(alloc: Global, ty: &str) -> Result<Program, AllocError> {
    let text = format!(in alloc; "format 2; type chain = End | More(vec[1] chain); state {ty};")?;
    program_of(alloc, text.as_bytes())
}

/// Whether a text is a literal of this type, spelled so.
fn is_array_spelled(alloc: Global, ty: &str, text: &str, bytes: &[u8]) -> Result<bool, AllocError> {
    Ok(is_spelled(alloc, &of_array(alloc, ty)?, text, bytes))
}

/// Whether the value of this type that these bytes spell is printed so.
fn is_array_printed(alloc: Global, ty: &str, bytes: &[u8], text: &str) -> Result<bool, AllocError> {
    Ok(is_printed(alloc, &of_array(alloc, ty)?, bytes, text))
}

/// Reads a text as a literal of this type.
fn read_array(alloc: Global, ty: &str, text: &str) -> Result<Answer, AllocError> {
    Ok(read(alloc, &of_array(alloc, ty)?, text))
}

/// The spelling of 7 and of 9.
const BOTH: &[u8] = b"\0\0\0\0\0\0\0\x07\0\0\0\0\0\0\0\x09";

/// Types, the bytes that spell a value, a literal of it, and how it is printed.
const VALUES: [(&str, &[u8], &str, &str); 6] = [
    ("vec[2] int", BOTH, "[7, 9]", "[7, 9]"),
    ("vec[2] int", BOTH, " [ 7# seven\n,09 ] ", "[7, 9]"),
    ("vec[1] vec[2] int", BOTH, "[[7,9]]", "[[7, 9]]"),
    (
        "vec[2] vec[2] bool",
        b"\x01\0\0\x01",
        "[[true, false], [false, true]]",
        "[[true, false], [false, true]]",
    ),
    (
        "(vec[1] text, vec[3] unit)",
        b"\0\0\0\x01]",
        "([\"]\"], [(), (), ()])",
        "([\"]\"], [(), (), ()])",
    ),
    (
        "chain",
        b"\x01\x01\0",
        "More([More([End])])",
        "More([More([End])])",
    ),
];

#[test]
fn arrays_are_spelled_and_printed(rt: HostRuntime) -> Result<(), Fail> {
    for (ty, bytes, text, printed) in &VALUES {
        if !is_array_spelled(rt.alloc(), ty, text, bytes)? {
            return Err(Fail::new(*text));
        }
        if !is_array_printed(rt.alloc(), ty, bytes, printed)? {
            return Err(Fail::new(*printed));
        }
    }
    Ok(())
}

/// Types, texts with a token that no literal of the type has there, and how many bytes stand before it.
const MISMATCHES: [(&str, &str, usize); 13] = [
    ("vec[2] int", "[7]", 2),
    ("vec[2] int", "[7, 9, 1]", 5),
    ("vec[2] int", "[7, 9", 5),
    ("vec[2] int", "[7 9]", 3),
    ("vec[2] int", "[]", 1),
    ("vec[2] int", "[,", 1),
    ("vec[2] int", "(7, 9)", 0),
    ("vec[2] int", "7", 0),
    ("vec[2] int", "[7, true]", 4),
    ("vec[2] int", "[7, 9] 1", 7),
    ("vec[1] int", "[[7]]", 1),
    ("(int, int)", "[7, 9]", 0),
    ("vec[1] auth int", "[7]", 1),
];

#[test]
fn other_texts_are_no_arrays(rt: HostRuntime) -> Result<(), Fail> {
    for (ty, text, offset) in &MISMATCHES {
        let wanted = Answer::Refused(LiteralKind::Mismatch, *offset);
        if read_array(rt.alloc(), ty, text)? != wanted {
            return Err(misread(ty, text));
        }
    }
    Ok(())
}

/// Reads a text as a literal of a program of the first format.
fn read_int(alloc: Global, text: &str) -> Result<Answer, AllocError> {
    Ok(read(alloc, &program_of(alloc, b"state int;")?, text))
}

#[test]
fn brackets_are_no_marks_of_the_first_format(rt: HostRuntime) -> Result<(), Fail> {
    let wanted = Answer::Refused(LiteralKind::Lexical(LexicalFault::Char), 0);
    if read_int(rt.alloc(), "[7, 9]")? != wanted {
        return Err(misread("int", "[7, 9]"));
    }
    Ok(())
}
