// The limits of values: a spelling of at most 65,536 bytes, and a depth of at most 512.
use crate::stage::{code_of, run};
use std::alloc::{AllocError, Global};
use std::test::Fail;

/// What stands behind the function that is called: types, a text of so many bytes, and a chain of so many links, whose depth is one
/// more.
const BEHIND: &str = "
    state unit;
    type box = Box(text);
    type bag = Bag(int, text);
    type chain = End | More(chain);
    type link = Link(chain, int);
    type knot = Knot(int, chain);
    type rope = Rope(chain, text);
    fun long(n: int): text = if le(n, 0) then \"\" else let half = long(div(n, 2)) in let most = cat(half, half) in
        if eq(rem(n, 2), 0) then most else cat(most, \"a\");
    fun chain(n: int): chain = if le(n, 0) then End else More(chain(sub(n, 1)));
    fun length(c: chain): int = match c with | End -> 0 | More(d) -> add(1, length(d)) end;";

/// What an expression comes to, on an int as x.
fn result_of(
    alloc: Global,
    ty: &str,
    expression: &str,
    argument: i64,
) -> Result<String, AllocError> {
    let text = format!(in alloc; "fun f(x: int): {ty} = {expression};{BEHIND}")?;
    let code = code_of(alloc, text.as_bytes())?;
    run(alloc, &code, argument, 10_000)
}

/// Expressions, what x is, and what they come to: one step before the greatest size and behind it.
const SIZES: [(&str, i64, &str); 21] = [
    ("len(long(x))", 65532, "65532"),
    ("len(long(x))", 65533, "toobig"),
    ("len(cat(long(x), \"é\"))", 65530, "65532"),
    ("len(cat(long(x), \"é\"))", 65531, "toobig"),
    ("len(cat(\"\", long(x)))", 65532, "65532"),
    ("len(cat(\"a\", long(x)))", 65532, "toobig"),
    ("snd((long(x), 7))", 65524, "7"),
    ("snd((long(x), 7))", 65525, "toobig"),
    ("len(snd((true, long(x))))", 65531, "65531"),
    ("len(snd((true, long(x))))", 65532, "toobig"),
    ("len(snd(((), long(x))))", 65532, "65532"),
    ("snd(fst(((long(x), 1), 2)))", 65516, "1"),
    ("snd(fst(((long(x), 1), 2)))", 65517, "toobig"),
    (
        "match Box(long(x)) with | Box(t) -> len(t) end",
        65531,
        "65531",
    ),
    (
        "match Box(long(x)) with | Box(t) -> len(t) end",
        65532,
        "toobig",
    ),
    (
        "match Bag(1, long(x)) with | Bag(n, t) -> n end",
        65523,
        "1",
    ),
    (
        "match Bag(1, long(x)) with | Bag(n, t) -> n end",
        65524,
        "toobig",
    ),
    ("unauth(snd((long(x), auth(1))))", 65500, "1"),
    ("unauth(snd((long(x), auth(1))))", 65501, "toobig"),
    ("len(unauth(fst((auth(long(x)), 1))))", 65532, "65532"),
    ("fst((1, (long(x), div(1, 0))))", 65532, "divzero"),
];

/// The same for the greatest depth. Where both are passed, the size is told.
const DEPTHS: [(&str, i64, &str); 19] = [
    ("length(chain(x))", 511, "511"),
    ("length(chain(x))", 512, "toodeep"),
    ("fst((1, chain(x)))", 510, "1"),
    ("fst((1, chain(x)))", 511, "toodeep"),
    ("snd((chain(x), 1))", 510, "1"),
    ("snd((chain(x), 1))", 511, "toodeep"),
    ("snd(fst(((chain(x), 1), 2)))", 509, "1"),
    ("snd(fst(((chain(x), 1), 2)))", 510, "toodeep"),
    (
        "match Link(chain(x), 1) with | Link(c, n) -> n end",
        510,
        "1",
    ),
    (
        "match Link(chain(x), 1) with | Link(c, n) -> n end",
        511,
        "toodeep",
    ),
    (
        "match Knot(1, chain(x)) with | Knot(n, c) -> n end",
        510,
        "1",
    ),
    (
        "match Knot(1, chain(x)) with | Knot(n, c) -> n end",
        511,
        "toodeep",
    ),
    ("length(unauth(fst((auth(chain(x)), 1))))", 511, "511"),
    ("fst((1, unauth(auth(chain(x)))))", 511, "toodeep"),
    ("fst((1, (chain(511), div(1, 0))))", 0, "divzero"),
    ("fst((1, (chain(511), long(x))))", 65020, "toodeep"),
    ("fst((1, (chain(511), long(x))))", 65021, "toobig"),
    (
        "match Rope(chain(511), long(x)) with | Rope(c, t) -> len(t) end",
        65019,
        "toodeep",
    ),
    (
        "match Rope(chain(511), long(x)) with | Rope(c, t) -> len(t) end",
        65020,
        "toobig",
    ),
];

/// Checks each row.
fn check_rows(alloc: Global, rows: &[(&'static str, i64, &'static str)]) -> Result<(), Fail> {
    for (expression, argument, expected) in rows {
        let told = result_of(alloc, "int", expression, *argument)?;
        if told.as_str() != *expected {
            return Err(Fail::new(format_args!("{expression} at {argument}: {told}")));
        }
    }
    Ok(())
}

#[test]
fn sizes_at_the_limit(rt: HostRuntime) -> Result<(), Fail> {
    check_rows(rt.alloc(), &SIZES)
}

#[test]
fn depths_at_the_limit(rt: HostRuntime) -> Result<(), Fail> {
    check_rows(rt.alloc(), &DEPTHS)
}

/// Thirteen values, each a pair of the one before: the last one is spelled by 65,536 bytes. Then fourteen.
const DOUBLED: [(&str, &str); 2] = [
    (
        "let a = (x, x) in let b = (a, a) in let c = (b, b) in let d = (c, c) in let e = (d, d) in let f = (e, e) in let g = (f, f) in let h = (g, g) in let i = (h, h) in let j = (i, i) in let k = (j, j) in let l = (k, k) in let m = (l, l) in ()",
        "()",
    ),
    (
        "let a = (x, x) in let b = (a, a) in let c = (b, b) in let d = (c, c) in let e = (d, d) in let f = (e, e) in let g = (f, f) in let h = (g, g) in let i = (h, h) in let j = (i, i) in let k = (j, j) in let l = (k, k) in let m = (l, l) in let n = (m, m) in ()",
        "toobig",
    ),
];

#[test]
fn doubled_values(rt: HostRuntime) -> Result<(), Fail> {
    for (expression, expected) in &DOUBLED {
        let told = result_of(rt.alloc(), "unit", expression, 5)?;
        if told.as_str() != *expected {
            return Err(Fail::new(format_args!("{expression}: {told}")));
        }
    }
    Ok(())
}
