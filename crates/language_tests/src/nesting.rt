// How deep types and expressions may be nested: 100 levels.
use crate::answers::{Fault, Repeated, failed_row};
use lexemes::fault::SyntaxKind;
use std::alloc::{AllocError, Global};
use std::test::Fail;

/// A form with a part: what stands before the part and behind it, and how many bytes stand before the first part of the form, which is
/// another one where this is less than all.
type Form = (&'static [u8], &'static [u8], u8);

/// Each place of an expression where another one stands.
static EXPRESSIONS: [Form; 17] = [
    (b"(", b", x)", 1),
    (b"(x, ", b")", 1),
    (b"not(", b")", 4),
    (b"add(", b", x)", 4),
    (b"add(x, ", b")", 4),
    (b"f(", b")", 2),
    (b"f(", b", x)", 2),
    (b"f(x, ", b")", 2),
    (b"A(", b")", 2),
    (b"A(x, ", b")", 2),
    (b"let y = ", b" in x", 8),
    (b"let y = x in ", b"", 8),
    (b"if ", b" then x else x", 3),
    (b"if x then ", b" else x", 3),
    (b"if x then x else ", b"", 3),
    (b"match ", b" with | A -> x end", 6),
    (b"match x with | A -> x | B(y) -> ", b" end", 6),
];

/// Each place of a type where another one stands.
const TYPES: [Form; 3] = [
    (b"auth ", b"", 5),
    (b"(", b", int)", 1),
    (b"(int, ", b")", 1),
];

/// What stands before a type, a type, and what stands behind it.
static WRITTEN_TYPES: [[&[u8]; 3]; 4] = [
    [b"state ", b"t", b";"],
    [b"type t = A(int, ", b"bool", b");"],
    [b"fun f(x: ", b"unit", b"): t = x;"],
    [b"fun f(x: t): ", b"text", b" = x;"],
];

/// The first fault of so many of a form around something, between a beginning and an end.
fn fault_around(
    alloc: Global,
    (part, closing, _): Form,
    count: usize,
    [beginning, middle, end]: [&'static [u8]; 3],
) -> Result<Option<Fault>, AllocError> {
    let nested = Repeated {
        beginning,
        part,
        count,
        middle,
        closing,
        end,
    };
    nested.fault(alloc)
}

/// Whether 99 of a form are taken around something, and of 100 the first token on level 101 is refused.
fn ends_at_level_100(
    alloc: Global,
    form: Form,
    written: [&'static [u8]; 3],
) -> Result<bool, AllocError> {
    let outer = Repeated {
        beginning: written[0],
        part: form.0,
        count: 99,
        middle: b"",
        closing: b"",
        end: b"",
    };
    let column = outer.text(alloc)?.len() + usize::from(form.2) + 1;
    let refused = Some((SyntaxKind::TooNested, 1, column));
    Ok(
        fault_around(alloc, form, 99, written)?.is_none()
            && fault_around(alloc, form, 100, written)? == refused,
    )
}

#[test]
fn expressions_are_nested_in_100_levels(rt: HostRuntime) -> Result<(), Fail> {
    for (number, form) in EXPRESSIONS.iter().enumerate() {
        if !ends_at_level_100(rt.alloc(), *form, [b"fun f(x: t): t = ", b"x", b";"])? {
            return Err(Fail::new(format_args!("form {number}")));
        }
    }
    Ok(())
}

/// Whether it is so of each form of types.
fn all_end_at_level_100(alloc: Global, written: [&'static [u8]; 3]) -> Result<bool, AllocError> {
    for form in TYPES {
        if !ends_at_level_100(alloc, form, written)? {
            return Ok(false);
        }
    }
    Ok(true)
}

#[test]
fn types_are_nested_in_100_levels(rt: HostRuntime) -> Result<(), Fail> {
    for (number, written) in WRITTEN_TYPES.iter().enumerate() {
        if !all_end_at_level_100(rt.alloc(), *written)? {
            return Err(failed_row(number));
        }
    }
    Ok(())
}

/// What stands on level 101, where no token that begins an expression is allowed. Another one is told apart from these.
static INNERMOST: [(&[u8], SyntaxKind); 12] = [
    (b"()", SyntaxKind::TooNested),
    (b"5", SyntaxKind::TooNested),
    (b"\"\"", SyntaxKind::TooNested),
    (b"A", SyntaxKind::TooNested),
    (b"true", SyntaxKind::TooNested),
    (b"let", SyntaxKind::TooNested),
    (b"match", SyntaxKind::TooNested),
    (b"cat", SyntaxKind::TooNested),
    (b")", SyntaxKind::Expected),
    (b"in", SyntaxKind::Expected),
    (b"type", SyntaxKind::Expected),
    (b"->", SyntaxKind::Expected),
];

#[test]
fn what_begins_nothing_is_not_too_nested(rt: HostRuntime) -> Result<(), Fail> {
    for (number, (middle, kind)) in INNERMOST.iter().enumerate() {
        let written: [&[u8]; 3] = [b"fun f(x: t): t = ", middle, b";"];
        let fault = fault_around(rt.alloc(), (b"not(", b")", 4), 100, written)?;
        if fault != Some((*kind, 1, 418)) {
            return Err(failed_row(number));
        }
    }
    Ok(())
}
