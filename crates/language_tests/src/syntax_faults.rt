// The first fault of texts that are no programs: its kind and its place. Lines and columns are counted by bytes, from 1.
use crate::answers::{failed_row_of, fault_of};
use lexemes::fault::{LexicalFault, SyntaxKind};
use std::alloc::{AllocError, Global};
use std::test::Fail;

/// A text, and the kind, the line and the column of its first fault.
type Row = (&'static [u8], SyntaxKind, usize, usize);

/// Faults of declarations.
const DECLARATIONS: [Row; 20] = [
    (b"let", SyntaxKind::Expected, 1, 1),
    (b"abc", SyntaxKind::Expected, 1, 1),
    (b"state unit;\nunit", SyntaxKind::Expected, 2, 1),
    (b"state ;", SyntaxKind::Expected, 1, 7),
    (b"state unit", SyntaxKind::Expected, 1, 11),
    (b"state unit ;;", SyntaxKind::Expected, 1, 13),
    (b"(", SyntaxKind::Expected, 1, 1),
    (b"f(x: unit): unit = ();", SyntaxKind::Expected, 1, 1),
    (b"type t = leaf;", SyntaxKind::Expected, 1, 10),
    (b"type Tree = A;", SyntaxKind::Expected, 1, 6),
    (b"type int = A;", SyntaxKind::Expected, 1, 6),
    (b"type t A;", SyntaxKind::Expected, 1, 8),
    (b"type t = A", SyntaxKind::Expected, 1, 11),
    (b"type t = A B;", SyntaxKind::Expected, 1, 12),
    (b"type t = A | ;", SyntaxKind::Expected, 1, 14),
    (b"type t = | A;", SyntaxKind::Expected, 1, 10),
    (b"type t = A();", SyntaxKind::Expected, 1, 12),
    (b"type t = A(int int);", SyntaxKind::Expected, 1, 16),
    (b"type t = A(int, );", SyntaxKind::Expected, 1, 17),
    (b"type t = A(int;", SyntaxKind::Expected, 1, 15),
];

/// Faults of functions, outside their bodies.
const FUNCTIONS: [Row; 16] = [
    (b"fun F(x: unit): unit = ();", SyntaxKind::Expected, 1, 5),
    (b"fun f: unit = ();", SyntaxKind::Expected, 1, 6),
    (b"fun f(): unit = ();", SyntaxKind::Expected, 1, 7),
    (b"init f(x unit): unit = ();", SyntaxKind::Expected, 1, 10),
    (
        b"fun f(x: unit y: unit): unit = ();",
        SyntaxKind::Expected,
        1,
        15,
    ),
    (
        b"query f(x: unit, ): unit = ();",
        SyntaxKind::Expected,
        1,
        18,
    ),
    (
        b"fun f(x: unit, Y: unit): unit = ();",
        SyntaxKind::Expected,
        1,
        16,
    ),
    (b"update f(x: unit) = ();", SyntaxKind::Expected, 1, 19),
    (b"fun f(x: unit): = ();", SyntaxKind::Expected, 1, 17),
    (b"fun f(x: unit): unit ();", SyntaxKind::Expected, 1, 22),
    (b"fun f(x: unit): unit = ;", SyntaxKind::Expected, 1, 24),
    (
        b"fun f(x: unit): unit = ()\nfun g(x: unit): unit = ();",
        SyntaxKind::Expected,
        2,
        1,
    ),
    (b"fun f(x: unit): unit = ()", SyntaxKind::Expected, 1, 26),
    (
        b"fun state(x: unit): unit = ();",
        SyntaxKind::Expected,
        1,
        5,
    ),
    (
        b"query f(let: unit): unit = ();",
        SyntaxKind::Expected,
        1,
        9,
    ),
    (
        b"state unit;\nquery f(let: unit): unit = ();",
        SyntaxKind::Expected,
        2,
        9,
    ),
];

/// Faults of types.
const TYPES: [Row; 9] = [
    (b"state auth ;", SyntaxKind::Expected, 1, 12),
    (b"state ();", SyntaxKind::Expected, 1, 8),
    (b"state (int);", SyntaxKind::Expected, 1, 11),
    (b"state (int, );", SyntaxKind::Expected, 1, 13),
    (b"state (int, int, int);", SyntaxKind::Expected, 1, 16),
    (b"state Tree;", SyntaxKind::Expected, 1, 7),
    (b"state true;", SyntaxKind::Expected, 1, 7),
    (b"state 5;", SyntaxKind::Expected, 1, 7),
    (b"state (int, int)", SyntaxKind::Expected, 1, 17),
];

/// Faults of literals, names, pairs, calls, constructors and operations.
const EXPRESSIONS: [Row; 22] = [
    (b"fun f(x: unit): unit = (x)", SyntaxKind::Expected, 1, 26),
    (
        b"fun f(x: unit): unit = (x, x, x)",
        SyntaxKind::Expected,
        1,
        29,
    ),
    (b"fun f(x: unit): unit = (;", SyntaxKind::Expected, 1, 25),
    (b"fun f(x: unit): unit = (x", SyntaxKind::Expected, 1, 26),
    (b"fun f(x: unit): unit = f()", SyntaxKind::Expected, 1, 26),
    (
        b"fun f(x: unit): unit = f(x x)",
        SyntaxKind::Expected,
        1,
        28,
    ),
    (
        b"fun f(x: unit): unit = f(x, )",
        SyntaxKind::Expected,
        1,
        29,
    ),
    (b"fun f(x: unit): unit = f(x", SyntaxKind::Expected, 1, 27),
    (b"fun f(x: unit): unit = A()", SyntaxKind::Expected, 1, 26),
    (
        b"fun f(x: unit): unit = A(x x)",
        SyntaxKind::Expected,
        1,
        28,
    ),
    (
        b"fun f(x: unit): unit = A(x, )",
        SyntaxKind::Expected,
        1,
        29,
    ),
    (b"fun f(x: unit): unit = x x;", SyntaxKind::Expected, 1, 26),
    (
        b"fun f(x: unit): unit = 1 (x);",
        SyntaxKind::Expected,
        1,
        26,
    ),
    (b"fun f(x: unit): unit = in", SyntaxKind::Expected, 1, 24),
    (b"fun f(x: unit): unit = type", SyntaxKind::Expected, 1, 24),
    (b"fun f(x: unit): unit = ->", SyntaxKind::Expected, 1, 24),
    (b"fun f(x: unit): unit = add x", SyntaxKind::Expected, 1, 28),
    (
        b"fun f(x: unit): unit = add(x)",
        SyntaxKind::Expected,
        1,
        29,
    ),
    (
        b"fun f(x: unit): unit = add(x, x, x)",
        SyntaxKind::Expected,
        1,
        32,
    ),
    (
        b"fun f(x: unit): unit = not(x, x)",
        SyntaxKind::Expected,
        1,
        29,
    ),
    (b"fun f(x: unit): unit = fst;", SyntaxKind::Expected, 1, 27),
    (
        b"fun f(x: unit): unit = unauth()",
        SyntaxKind::Expected,
        1,
        31,
    ),
];

/// Faults of `let`, `if` and `match`.
const BINDINGS: [Row; 25] = [
    (
        b"fun f(x: unit): unit = let X = x in x",
        SyntaxKind::Expected,
        1,
        28,
    ),
    (
        b"fun f(x: unit): unit = let if = x in x",
        SyntaxKind::Expected,
        1,
        28,
    ),
    (
        b"fun f(x: unit): unit = let x x in x",
        SyntaxKind::Expected,
        1,
        30,
    ),
    (
        b"fun f(x: unit): unit = let x = in x",
        SyntaxKind::Expected,
        1,
        32,
    ),
    (
        b"fun f(x: unit): unit = let x = x ;",
        SyntaxKind::Expected,
        1,
        34,
    ),
    (
        b"fun f(x: unit): unit = let x = x in ;",
        SyntaxKind::Expected,
        1,
        37,
    ),
    (
        b"fun f(x: unit): unit = if then",
        SyntaxKind::Expected,
        1,
        27,
    ),
    (
        b"fun f(x: unit): unit = if x x",
        SyntaxKind::Expected,
        1,
        29,
    ),
    (
        b"fun f(x: unit): unit = if x then else",
        SyntaxKind::Expected,
        1,
        34,
    ),
    (
        b"fun f(x: unit): unit = if x then x ;",
        SyntaxKind::Expected,
        1,
        36,
    ),
    (
        b"fun f(x: unit): unit = if x then x else ;",
        SyntaxKind::Expected,
        1,
        41,
    ),
    (
        b"fun f(x: unit): unit = match x | A -> x end",
        SyntaxKind::Expected,
        1,
        32,
    ),
    (
        b"fun f(x: unit): unit = match x with end",
        SyntaxKind::Expected,
        1,
        37,
    ),
    (
        b"fun f(x: unit): unit = match x with A -> x end",
        SyntaxKind::Expected,
        1,
        37,
    ),
    (
        b"fun f(x: unit): unit = match x with | a -> x end",
        SyntaxKind::Expected,
        1,
        39,
    ),
    (
        b"fun f(x: unit): unit = match x with | A x end",
        SyntaxKind::Expected,
        1,
        41,
    ),
    (
        b"fun f(x: unit): unit = match x with | A() -> x end",
        SyntaxKind::Expected,
        1,
        41,
    ),
    (
        b"fun f(x: unit): unit = match x with | A(B) -> x end",
        SyntaxKind::Expected,
        1,
        41,
    ),
    (
        b"fun f(x: unit): unit = match x with | A(x y) -> x end",
        SyntaxKind::Expected,
        1,
        43,
    ),
    (
        b"fun f(x: unit): unit = match x with | A(x, ) -> x end",
        SyntaxKind::Expected,
        1,
        44,
    ),
    (
        b"fun f(x: unit): unit = match x with | A -> end",
        SyntaxKind::Expected,
        1,
        44,
    ),
    (
        b"fun f(x: unit): unit = match x with | A -> x ;",
        SyntaxKind::Expected,
        1,
        46,
    ),
    (
        b"fun f(x: unit): unit = match x with | A -> x | end",
        SyntaxKind::Expected,
        1,
        48,
    ),
    (
        b"fun f(x: unit): unit = match x with | A -> x end end",
        SyntaxKind::Expected,
        1,
        50,
    ),
    (
        b"fun f(x: unit): unit = match x with | A -> x",
        SyntaxKind::Expected,
        1,
        45,
    ),
];

/// Faults where no token stands: each comes before what the grammar asks of the token.
const LEXICAL: [Row; 11] = [
    (
        b"fun f(x: unit): unit = let y = @ in y;",
        SyntaxKind::Lexical(LexicalFault::Char),
        1,
        32,
    ),
    (b"state - 1;", SyntaxKind::Lexical(LexicalFault::Char), 1, 7),
    (
        b"state unit;\nfun f(x: unit): text = \"a\x01\";",
        SyntaxKind::Lexical(LexicalFault::Char),
        2,
        26,
    ),
    (
        b"type t = A(9223372036854775808);",
        SyntaxKind::Lexical(LexicalFault::NumberRange),
        1,
        12,
    ),
    (
        b"state -9223372036854775809;",
        SyntaxKind::Lexical(LexicalFault::NumberRange),
        1,
        7,
    ),
    (
        b"state \"abc;",
        SyntaxKind::Lexical(LexicalFault::Unclosed),
        1,
        7,
    ),
    (
        b"state \"a\\q\";",
        SyntaxKind::Lexical(LexicalFault::BadEscape),
        1,
        9,
    ),
    (
        b"fun f(x: unit): text = if x then \"\\x80\" else x;",
        SyntaxKind::Lexical(LexicalFault::BadEscape),
        1,
        35,
    ),
    (
        b"state \"\xff\";",
        SyntaxKind::Lexical(LexicalFault::Utf8),
        1,
        7,
    ),
    (
        b"state unit;\n\n  fun nnnnnnnnnnnnnnnnnnnnnnnnnnnnnnnnnnnnnnnnnnnnnnnnnnnnnnnnnnnnnnnnn(x: unit): unit = ();",
        SyntaxKind::Lexical(LexicalFault::NameLong),
        3,
        7,
    ),
    (
        b"type t = NNNNNNNNNNNNNNNNNNNNNNNNNNNNNNNNNNNNNNNNNNNNNNNNNNNNNNNNNNNNNNNNN;",
        SyntaxKind::Lexical(LexicalFault::NameLong),
        1,
        10,
    ),
];

/// The number of the first row, from 0, whose text has another fault, or none.
fn wrong_row(alloc: Global, rows: &[Row]) -> Result<Option<usize>, AllocError> {
    for (number, (text, kind, line, column)) in rows.iter().enumerate() {
        if fault_of(alloc, text)? != Some((*kind, *line, *column)) {
            return Ok(Some(number));
        }
    }
    Ok(None)
}

const TABLES: [(&str, &[Row]); 6] = [
    ("declarations", &DECLARATIONS),
    ("functions", &FUNCTIONS),
    ("types", &TYPES),
    ("expressions", &EXPRESSIONS),
    ("bindings", &BINDINGS),
    ("lexical", &LEXICAL),
];

#[test]
fn texts_have_their_first_fault(rt: HostRuntime) -> Result<(), Fail> {
    for (table, rows) in &TABLES {
        if let Some(number) = wrong_row(rt.alloc(), rows)? {
            return Err(failed_row_of(table, number));
        }
    }
    Ok(())
}
