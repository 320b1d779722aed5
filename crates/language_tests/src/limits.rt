// How long names, texts and lists may be.
use crate::answers::{Fault, Repeated, failed_row};
use lexemes::fault::{LexicalFault, SyntaxKind};
use std::alloc::{AllocError, Global};
use std::test::Fail;

/// A beginning, a part, how often it stands, and an end, with the first fault of this text.
type Row = (
    &'static [u8],
    &'static [u8],
    usize,
    &'static [u8],
    Option<Fault>,
);

/// A name has at most 64 bytes. A text has at most 65,532, counted by what it stands for. A list is as long as the program's text allows.
static ROWS: [Row; 19] = [
    (b"type ", b"n", 64, b" = A;", None),
    (
        b"type ",
        b"n",
        65,
        b" = A;",
        Some((SyntaxKind::Lexical(LexicalFault::NameLong), 1, 6)),
    ),
    (b"type t = ", b"N", 64, b";", None),
    (
        b"type t = ",
        b"N",
        65,
        b";",
        Some((SyntaxKind::Lexical(LexicalFault::NameLong), 1, 10)),
    ),
    (b"fun f(x: t): t = ", b"x", 64, b"(x);", None),
    (
        b"fun f(x: t): t = ",
        b"x",
        65,
        b"(x);",
        Some((SyntaxKind::Lexical(LexicalFault::NameLong), 1, 18)),
    ),
    (b"fun f(x: t): t = \"", b"a", 65_532, b"\";", None),
    (
        b"fun f(x: t): t = \"",
        b"a",
        65_533,
        b"\";",
        Some((SyntaxKind::Lexical(LexicalFault::TextLong), 1, 18)),
    ),
    (b"fun f(x: t): t = \"", b"\\n", 65_532, b"\";", None),
    (
        b"fun f(x: t): t = \"",
        b"\\n",
        65_533,
        b"\";",
        Some((SyntaxKind::Lexical(LexicalFault::TextLong), 1, 18)),
    ),
    (b"fun f(x: t): t = \"", b"\xc3\xa9", 32_766, b"\";", None),
    (
        b"fun f(x: t): t = \"",
        b"\xc3\xa9",
        32_767,
        b"\";",
        Some((SyntaxKind::Lexical(LexicalFault::TextLong), 1, 18)),
    ),
    (
        b"fun f(x: t): t = match x with ",
        b"| A(y) -> x ",
        255,
        b"end;",
        None,
    ),
    (b"fun f(x: t): t = f(", b"x,", 60_000, b"x);", None),
    (b"fun f(x: t): t = A(", b"1,", 60_000, b"x);", None),
    (
        b"fun f(x: t): t = match x with | A(",
        b"x,",
        60_000,
        b"y) -> x end;",
        None,
    ),
    (b"fun f(", b"x:t,", 60_000, b"x:t): t = x;", None),
    (b"type t = A(", b"t,", 60_000, b"t);", None),
    (b"type t = ", b"A|", 60_000, b"A;", None),
];

/// Whether the text of a row has its first fault.
fn is_answered(
    alloc: Global,
    (beginning, part, count, end, fault): &Row,
) -> Result<bool, AllocError> {
    let text = Repeated {
        beginning,
        part,
        count: *count,
        middle: end,
        closing: b"",
        end: b"",
    };
    Ok(text.fault(alloc)? == *fault)
}

#[test]
fn names_texts_and_lists_have_their_limits(rt: HostRuntime) -> Result<(), Fail> {
    for (number, row) in ROWS.iter().enumerate() {
        if !is_answered(rt.alloc(), row)? {
            return Err(failed_row(number));
        }
    }
    Ok(())
}
