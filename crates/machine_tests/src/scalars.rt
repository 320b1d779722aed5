// Scalars in hand beside those that have a node: a part of a value, an argument, what is opened.
use crate::stage::{code_of, run, run_counted};
use std::alloc::{AllocError, Global};
use std::test::Fail;

/// What stands behind the function that is called.
const BEHIND: &str = "
    state unit;
    type either = Left(int, bool) | Right(unit, text);
    fun pair_of(n: int): (int, bool) = (add(n, 1), lt(n, 10));
    fun either_of(n: int): either = if lt(n, 0) then Right((), \"seven\") else Left(mul(n, 2), eq(n, 3));";

/// A type, an expression of it, an int as x, and what it comes to.
type Row = (&'static str, &'static str, i64, &'static str);

const ROWS: [Row; 22] = [
    // each scalar as an outcome: computed, as an argument, as a part
    ("unit", "()", 0, "()"),
    ("unit", "snd((x, ()))", 0, "()"),
    ("bool", "not(eq(x, 0))", 0, "false"),
    ("bool", "snd(pair_of(x))", 9, "true"),
    ("int", "mul(x, x)", -7, "49"),
    ("int", "x", 5, "5"),
    ("int", "fst(pair_of(x))", 5, "6"),
    ("text", "cat(\"a\", snd((x, \"b\")))", 0, "ab"),
    // one of a pair beside one that is computed, on both sides
    ("bool", "eq(fst(pair_of(x)), add(x, 1))", 8, "true"),
    ("bool", "eq(add(x, 2), fst(pair_of(x)))", 8, "false"),
    ("bool", "lt(x, fst(pair_of(x)))", 8, "true"),
    ("int", "sub(fst(pair_of(x)), x)", 100, "1"),
    ("int", "rem(x, fst(pair_of(-4)))", 8, "2"),
    ("int", "if snd(pair_of(x)) then 1 else 2", 9, "1"),
    ("int", "if snd(pair_of(x)) then 1 else 2", 10, "2"),
    // the fields that an arm binds, beside a local that is computed
    (
        "int",
        "let y = add(x, 1) in match either_of(x) with | Left(n, b) -> if b then sub(n, y) else add(n, y) | Right(u, t) -> len(t) end",
        3,
        "2",
    ),
    (
        "int",
        "let y = add(x, 1) in match either_of(x) with | Left(n, b) -> if b then sub(n, y) else add(n, y) | Right(u, t) -> len(t) end",
        4,
        "13",
    ),
    (
        "int",
        "match either_of(sub(0, x)) with | Left(n, b) -> n | Right(u, t) -> add(len(t), x) end",
        1,
        "6",
    ),
    // a computed scalar as a part, and taken out again
    ("int", "fst(fst(((mul(x, 3), le(x, 1)), ())))", 2, "6"),
    ("bool", "snd(fst(((mul(x, 3), le(x, 1)), ())))", 2, "false"),
    // authenticated and opened again
    ("int", "add(unauth(auth(add(x, 1))), x)", 20, "41"),
    ("bool", "not(unauth(auth(lt(x, 3))))", 3, "true"),
];

/// How an expression of this type ends at an int.
fn told_at(alloc: Global, ty: &str, expression: &str, at: i64) -> Result<String, AllocError> {
    let text = format!(in alloc; "fun f(x: int): {ty} = {expression};{BEHIND}")?;
    let code = code_of(alloc, text.as_bytes())?;
    run(alloc, &code, at, 10)
}

fn check_row(alloc: Global, (ty, expression, argument, expected): Row) -> Result<(), Fail> {
    let told = told_at(alloc, ty, expression, argument)?;
    if told.as_str() != expected {
        return Err(Fail::new(format_args!("{expression} at {argument}: {told}")));
    }
    Ok(())
}

#[test]
fn scalars_in_hand_are_what_those_with_a_node_are(rt: HostRuntime) -> Result<(), Fail> {
    for row in &ROWS {
        check_row(rt.alloc(), *row)?;
    }
    Ok(())
}

fn check_count(alloc: Global, expression: &str, expected: usize) -> Result<(), Fail> {
    let text = format!(in alloc; "state unit; fun f(x: int): int = {expression};")?;
    let code = code_of(alloc, text.as_bytes())?;
    let (told, nodes) = run_counted(alloc, &code, 6, 10)?;
    if nodes != expected {
        return Err(Fail::new(format_args!("{expression}: {told}, {nodes} nodes")));
    }
    Ok(())
}

/// Beside the argument a node stands for what is computed where it is a part of a value, is authenticated or is the outcome.
#[test]
fn a_node_is_put_where_it_is_needed(rt: HostRuntime) -> Result<(), Fail> {
    // the argument is the outcome
    check_count(
        rt.alloc(),
        "let y = mul(x, 2) in let b = eq(y, 12) in if b then x else y",
        1,
    )?;
    check_count(rt.alloc(), "div(mul(add(x, 3), sub(x, 4)), 2)", 2)?;
    // the parts, the pair; the outcome is a part
    check_count(rt.alloc(), "fst((add(x, 1), true))", 4)?;
    check_count(rt.alloc(), "fst((x, x))", 2)?;
    // what is authenticated, and the authenticated value
    check_count(rt.alloc(), "unauth(auth(add(x, 1)))", 3)?;
    check_count(rt.alloc(), "len(\"abc\")", 3)
}
