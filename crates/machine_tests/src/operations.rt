// What each operation gives at its borders.
use crate::stage::{code_of, run};
use std::alloc::{AllocError, Global};
use std::test::Fail;

/// What an expression of a type comes to, on the int 0 as x.
fn result_of(alloc: Global, ty: &str, expression: &str) -> Result<String, AllocError> {
    let text = format!(in alloc; "state unit; fun f(x: int): {ty} = {expression};")?;
    let code = code_of(alloc, text.as_bytes())?;
    run(alloc, &code, 0, 1)
}

/// Expressions of a type, and what they come to: a value, or a trap.
type Table = (&'static str, &'static [(&'static str, &'static str)]);

/// Ints.
const INTS: [(&str, &str); 67] = [
    ("add(2, 3)", "5"),
    ("add(-2, -3)", "-5"),
    ("add(9223372036854775806, 1)", "9223372036854775807"),
    ("add(9223372036854775807, 1)", "overflow"),
    ("add(9223372036854775807, 9223372036854775807)", "overflow"),
    ("add(-9223372036854775807, -1)", "-9223372036854775808"),
    ("add(-9223372036854775808, -1)", "overflow"),
    (
        "add(-9223372036854775808, -9223372036854775808)",
        "overflow",
    ),
    ("add(-9223372036854775808, 9223372036854775807)", "-1"),
    ("sub(3, 5)", "-2"),
    ("sub(-9223372036854775807, 1)", "-9223372036854775808"),
    ("sub(-9223372036854775808, 1)", "overflow"),
    ("sub(9223372036854775806, -1)", "9223372036854775807"),
    ("sub(9223372036854775807, -1)", "overflow"),
    ("sub(-1, -9223372036854775808)", "9223372036854775807"),
    ("sub(0, -9223372036854775808)", "overflow"),
    ("mul(-6, 7)", "-42"),
    ("mul(-6, -7)", "42"),
    ("mul(-9223372036854775808, 0)", "0"),
    ("mul(3037000499, 3037000499)", "9223372030926249001"),
    ("mul(3037000500, 3037000500)", "overflow"),
    ("mul(4611686018427387904, 2)", "overflow"),
    ("mul(-4611686018427387904, 2)", "-9223372036854775808"),
    ("mul(4294967296, 4294967296)", "overflow"),
    ("mul(-9223372036854775808, -1)", "overflow"),
    ("mul(-1, 9223372036854775807)", "-9223372036854775807"),
    ("div(7, 2)", "3"),
    ("div(-7, 2)", "-3"),
    ("div(7, -2)", "-3"),
    ("div(-7, -2)", "3"),
    ("rem(7, 2)", "1"),
    ("rem(-7, 2)", "-1"),
    ("rem(7, -2)", "1"),
    ("rem(-7, -2)", "-1"),
    ("div(1, 0)", "divzero"),
    ("div(0, 0)", "divzero"),
    ("rem(1, 0)", "divzero"),
    ("div(-9223372036854775808, 0)", "divzero"),
    ("rem(-9223372036854775808, 0)", "divzero"),
    ("div(0, -5)", "0"),
    ("rem(0, -5)", "0"),
    ("div(sub(-9223372036854775807, 1), -1)", "overflow"),
    ("rem(-9223372036854775808, -1)", "overflow"),
    ("div(-9223372036854775807, -1)", "9223372036854775807"),
    ("rem(-9223372036854775807, -1)", "0"),
    ("div(-9223372036854775808, 1)", "-9223372036854775808"),
    ("div(-9223372036854775808, 2)", "-4611686018427387904"),
    ("rem(-9223372036854775808, 9223372036854775807)", "-1"),
    ("div(9223372036854775807, -9223372036854775808)", "0"),
    (
        "rem(9223372036854775807, -9223372036854775808)",
        "9223372036854775807",
    ),
    ("add(div(1, 0), add(9223372036854775807, 1))", "divzero"),
    ("add(add(9223372036854775807, 1), div(1, 0))", "overflow"),
    ("len(\"\")", "0"),
    ("len(\"a\\x00b\")", "3"),
    ("len(\"é€\")", "5"),
    ("len(cat(\"é\", \"€\"))", "5"),
    ("fst((1, 2))", "1"),
    ("snd((1, 2))", "2"),
    ("fst(snd((1, (2, 3))))", "2"),
    ("fst((1, div(1, 0)))", "divzero"),
    ("let x = 1 in let x = add(x, 1) in mul(x, 5)", "10"),
    ("let y = let x = 7 in add(x, 1) in add(x, y)", "8"),
    ("let y = 5 in x", "0"),
    ("add(let x = 7 in x, x)", "7"),
    ("let y = div(1, 0) in 2", "divzero"),
    ("unauth(auth(5))", "5"),
    ("fst(unauth(auth((5, 6))))", "5"),
];

/// Bools.
const BOOLS: [(&str, &str); 37] = [
    ("eq(-9223372036854775808, -9223372036854775808)", "true"),
    ("eq(9223372036854775807, -9223372036854775808)", "false"),
    ("eq(0, -1)", "false"),
    ("lt(-9223372036854775808, 9223372036854775807)", "true"),
    ("lt(9223372036854775807, -9223372036854775808)", "false"),
    ("lt(-1, 0)", "true"),
    ("lt(0, 0)", "false"),
    ("lt(0, -1)", "false"),
    ("lt(9223372036854775806, 9223372036854775807)", "true"),
    ("le(-9223372036854775808, -9223372036854775808)", "true"),
    ("le(9223372036854775807, 9223372036854775806)", "false"),
    ("le(-1, 0)", "true"),
    ("le(0, -1)", "false"),
    ("teq(\"\", \"\")", "true"),
    ("teq(\"ab\", \"ab\")", "true"),
    ("teq(\"ab\", \"aB\")", "false"),
    ("teq(\"ab\", \"a\")", "false"),
    ("teq(\"\", \"a\")", "false"),
    ("teq(\"é\", \"é\")", "true"),
    ("teq(\"a\\x00\", \"a\")", "false"),
    ("tlt(\"\", \"\")", "false"),
    ("tlt(\"\", \"a\")", "true"),
    ("tlt(\"a\", \"\")", "false"),
    ("tlt(\"ab\", \"ab\")", "false"),
    ("tlt(\"a\", \"ab\")", "true"),
    ("tlt(\"ab\", \"a\")", "false"),
    ("tlt(\"aa\", \"ab\")", "true"),
    ("tlt(\"b\", \"ab\")", "false"),
    ("tlt(\"B\", \"a\")", "true"),
    ("tlt(\"z\", \"é\")", "true"),
    ("tlt(\"é\", \"z\")", "false"),
    ("tlt(\"é\", \"ê\")", "true"),
    ("tlt(\"\\x7f\", \"\\x00é\")", "false"),
    ("tlt(\"é\", \"€\")", "true"),
    ("not(true)", "false"),
    ("not(false)", "true"),
    ("not(lt(x, 0))", "true"),
];

/// Texts: by their bytes, which may be above 127.
const TEXTS: [(&str, &str); 9] = [
    ("\"é€\"", "é€"),
    ("cat(\"\", \"\")", ""),
    ("cat(\"a\", \"\")", "a"),
    ("cat(\"\", \"a\")", "a"),
    ("cat(\"ab\", \"c\")", "abc"),
    ("cat(cat(\"é\", \"a\"), \"€\")", "éa€"),
    ("cat(\"a\", snd((div(1, 0), \"b\")))", "divzero"),
    ("fst((\"a\", \"b\"))", "a"),
    ("snd((\"a\", \"b\"))", "b"),
];

/// Units.
const UNITS: [(&str, &str); 3] = [
    ("()", "()"),
    ("snd((1, ()))", "()"),
    ("let y = () in y", "()"),
];

const TABLES: [Table; 4] = [
    ("int", &INTS),
    ("bool", &BOOLS),
    ("text", &TEXTS),
    ("unit", &UNITS),
];

/// The first of these expressions that comes to something else, and what it comes to.
fn misfit(
    alloc: Global,
    ty: &str,
    rows: &[(&'static str, &'static str)],
) -> Result<Option<(&'static str, String)>, AllocError> {
    for (expression, expected) in rows {
        let told = result_of(alloc, ty, expression)?;
        if told.as_str() != *expected {
            return Ok(Some((*expression, told)));
        }
    }
    Ok(None)
}

#[test]
fn operations_at_their_borders(rt: HostRuntime) -> Result<(), Fail> {
    for (ty, rows) in &TABLES {
        if let Some((expression, told)) = misfit(rt.alloc(), ty, rows)? {
            return Err(Fail::new(format_args!("{expression}: {told}")));
        }
    }
    Ok(())
}
