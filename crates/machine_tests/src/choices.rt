// Choices: each arm of an `if` and of a `match`, with the fields that it binds and the locals behind it.
use crate::stage::{code_of, run};
use std::alloc::Global;
use std::test::Fail;

/// What stands behind the function that is called.
const BEHIND: &str = "
    state unit;
    type shape = Dot | Box(int, text) | Line(int, int, int) | Last(bool);
    type eight = Eight(int, int, int, int, int, int, int, int);
    fun shape_of(n: int): shape = if eq(n, 0) then Dot else if eq(n, 1) then Box(7, \"eleven\") else
        if eq(n, 2) then Line(1, 2, 3) else Last(true);
    fun digit(a: int, b: int): int = add(mul(a, 10), b);";

/// An expression, and what it comes to at some ints as x.
type Choice = (&'static str, &'static [(i64, &'static str)]);

const CHOICES: [Choice; 14] = [
    ("if eq(x, 1) then 10 else 20", &[(1, "10"), (0, "20")]),
    (
        "if le(x, 0) then 1 else div(1, 0)",
        &[(0, "1"), (1, "divzero")],
    ),
    (
        "if lt(x, 0) then if lt(x, -5) then 1 else 2 else if lt(5, x) then 3 else 4",
        &[(-6, "1"), (-1, "2"), (9, "3"), (0, "4")],
    ),
    (
        "if not(if lt(x, 0) then true else lt(5, x)) then 1 else 2",
        &[(-1, "2"), (3, "1"), (6, "2")],
    ),
    (
        "add(if lt(x, 0) then let x = 1 in x else 2, x)",
        &[(-7, "-6"), (7, "9")],
    ),
    (
        "match shape_of(x) with | Dot -> 10 | Box(n, t) -> 11 | Line(a, b, c) -> 12 | Last(b) -> 13 end",
        &[(0, "10"), (1, "11"), (2, "12"), (3, "13")],
    ),
    (
        "match shape_of(x) with | Dot -> 100 | Box(n, t) -> add(mul(n, 10), len(t)) | Line(a, b, c) -> add(mul(100, a), add(mul(10, b), c)) | Last(b) -> if b then 1 else 0 end",
        &[(1, "76"), (2, "123"), (3, "1")],
    ),
    (
        "match shape_of(x) with | Dot -> div(1, 0) | Box(n, t) -> 1 | Line(a, b, c) -> add(9223372036854775807, a) | Last(b) -> 3 end",
        &[(0, "divzero"), (1, "1"), (2, "overflow"), (3, "3")],
    ),
    (
        "let y = 5 in let z = match shape_of(x) with | Dot -> y | Box(y, t) -> y | Line(y, z, x) -> sub(y, x) | Last(y) -> x end in add(mul(y, 100), z)",
        &[(0, "505"), (1, "507"), (2, "498"), (3, "503")],
    ),
    (
        "sub(match shape_of(x) with | Dot -> let a = 1 in let b = 2 in sub(b, a) | Box(x, t) -> x | Line(a, x, c) -> let c = x in c | Last(x) -> 0 end, x)",
        &[(0, "1"), (1, "6"), (2, "0"), (3, "-3")],
    ),
    (
        "let s = shape_of(x) in match s with | Dot -> 0 | Box(n, t) -> match shape_of(add(x, 1)) with | Dot -> n | Box(m, u) -> m | Line(n, m, t) -> sub(t, n) | Last(b) -> 9 end | Line(a, b, c) -> match s with | Dot -> a | Box(a, b) -> a | Line(d, e, f) -> sub(mul(c, f), a) | Last(a) -> b end | Last(b) -> 4 end",
        &[(0, "0"), (1, "2"), (2, "8"), (3, "4")],
    ),
    (
        "match Eight(1, 2, 3, 4, 5, 6, 7, x) with | Eight(a, b, c, d, e, f, g, h) -> digit(digit(digit(digit(digit(digit(digit(a, b), c), d), e), f), g), h) end",
        &[(8, "12345678")],
    ),
    ("sub(digit(x, 1), digit(digit(0, x), x))", &[(3, "-2")]),
    (
        "match shape_of(div(1, x)) with | Dot -> 1 | Box(n, t) -> 2 | Line(a, b, c) -> 3 | Last(b) -> 4 end",
        &[(0, "divzero"), (1, "2")],
    ),
];

/// Checks an expression at each int.
fn check_choice(alloc: Global, (expression, rows): Choice) -> Result<(), Fail> {
    let text = format!(in alloc; "fun f(x: int): int = {expression};{BEHIND}")?;
    let code = code_of(alloc, text.as_bytes())?;
    for (argument, expected) in rows {
        let told = run(alloc, &code, *argument, 100)?;
        if told.as_str() != *expected {
            return Err(Fail::new(format_args!("{expression} at {argument}: {told}")));
        }
    }
    Ok(())
}

#[test]
fn each_arm(rt: HostRuntime) -> Result<(), Fail> {
    for choice in &CHOICES {
        check_choice(rt.alloc(), *choice)?;
    }
    Ok(())
}
