// Texts that are programs: each form of the grammar.
use crate::answers::{failed_row_of, fault_of};
use std::alloc::{AllocError, Global};
use std::test::Fail;

/// Programs, some of them without functions.
const DECLARATIONS: [&[u8]; 13] = [
    b"",
    b"# nothing but a comment",
    b"state unit; # x",
    b"state bool;state int;",
    b"type t = A;",
    b"type t = A | B(int) | C(t, auth u, (t, text), bool);",
    b"fun f(x: unit): unit = x;",
    b"init f(x: unit): unit = x;",
    b"query f(x: unit, y: t): unit = x;",
    b"update f(x: unit, y: int, z: bool): (unit, unit) = (x, x);",
    b"state unit; fun f(x: int): int = unauth(5);",
    b"state unit; query q(s: unit, x: auth int): int = 1;",
    b"state auth auth (auth int, ((int, bool), t));",
];

/// Literals, names, pairs, calls, constructors and operations.
const EXPRESSIONS: [&[u8]; 34] = [
    b"fun f(x: unit): unit = ();",
    b"fun f(x: unit): unit = ( );",
    b"fun f(x: unit): unit = (x, x);",
    b"fun f(x: unit): unit = ((), (x, (1, 2)));",
    b"fun f(x: unit): unit = true;",
    b"fun f(x: unit): unit = false;",
    b"fun f(x: unit): unit = -1;",
    b"fun f(x: unit): unit = 007;",
    b"fun f(x: unit): unit = \"a\\n\\x7f\";",
    b"fun f(x: unit): unit = x;",
    b"fun f(x: unit): unit = f(x);",
    b"fun f(x: unit): unit = f (x);",
    b"fun f(x: unit): unit = f(x, y, z);",
    b"fun f(x: unit): unit = f(g(x), h(x, x));",
    b"fun f(x: unit): unit = A;",
    b"fun f(x: unit): unit = A(x);",
    b"fun f(x: unit): unit = A(x, B, C(x));",
    b"fun f(x: unit): unit = fst(x);",
    b"fun f(x: unit): unit = snd(x);",
    b"fun f(x: unit): unit = auth(x);",
    b"fun f(x: unit): unit = unauth(x);",
    b"fun f(x: unit): unit = len(x);",
    b"fun f(x: unit): unit = not(x);",
    b"fun f(x: unit): unit = add(x, y);",
    b"fun f(x: unit): unit = sub(x, y);",
    b"fun f(x: unit): unit = mul(x, y);",
    b"fun f(x: unit): unit = div(x, y);",
    b"fun f(x: unit): unit = rem(x, y);",
    b"fun f(x: unit): unit = eq(x, y);",
    b"fun f(x: unit): unit = lt(x, y);",
    b"fun f(x: unit): unit = le(x, y);",
    b"fun f(x: unit): unit = teq(x, y);",
    b"fun f(x: unit): unit = tlt(x, y);",
    b"fun f(x: unit): unit = cat(x, y);",
];

/// `let`, `if` and `match`.
const BINDINGS: [&[u8]; 8] = [
    b"fun f(x: unit): unit = let y = x in y;",
    b"fun f(x: unit): unit = let y = let z = x in z in let z = y in z;",
    b"fun f(x: unit): unit = if x then y else z;",
    b"fun f(x: unit): unit = if if x then y else z then if x then y else z else if x then y else z;",
    b"fun f(x: unit): unit = match x with | A -> y end;",
    b"fun f(x: unit): unit = match x with | A -> y | B(z) -> z | C(u, v, w) -> add(u, v) end;",
    b"fun f(x: unit): unit = match match x with | A -> x end with | A -> match x with | A -> x end | B -> x end;",
    b"fun f(x: unit): unit = # a comment\n  let#\n  y\t=\x0d\nx in (y,\n y);",
];

/// The number of the first of these texts, from 0, that is no program.
fn no_program(alloc: Global, texts: &[&[u8]]) -> Result<Option<usize>, AllocError> {
    for (number, text) in texts.iter().enumerate() {
        if fault_of(alloc, text)?.is_some() {
            return Ok(Some(number));
        }
    }
    Ok(None)
}

const TABLES: [(&str, &[&[u8]]); 3] = [
    ("declarations", &DECLARATIONS),
    ("expressions", &EXPRESSIONS),
    ("bindings", &BINDINGS),
];

#[test]
fn each_form_is_parsed(rt: HostRuntime) -> Result<(), Fail> {
    for (table, texts) in &TABLES {
        if let Some(number) = no_program(rt.alloc(), texts)? {
            return Err(failed_row_of(table, number));
        }
    }
    Ok(())
}
