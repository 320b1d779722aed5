// What `check` says of the texts of programs.
use cli_stage::runs::check;
use program_texts::{BST, FIRST, LOG, MERKLE, SUM};
use std::alloc::{AllocError, Global};
use std::test::Fail;
use std::thread::Threads;

/// A text and the line that `check` tells of it.
type Row = (&'static [u8], &'static str);

/// Texts that the grammar refuses, each with its line: places by bytes, from 1.
const FAULTY_TEXTS: [Row; 43] = [
    // bytes that begin no token
    (b"@", "program refused: Char 1 1\n"),
    (
        b"state unit;\n  _x\nquery z(s: unit, x: unit): unit = ();",
        "program refused: Char 2 3\n",
    ),
    (
        b"state unit;\nquery q(s: unit, x: unit): unit = () -;",
        "program refused: Char 2 38\n",
    ),
    (
        b"state unit;\nquery q(s: unit, x: unit): int = - 1;",
        "program refused: Char 2 34\n",
    ),
    (
        b"state unit;\nquery q(s: unit, x: unit): unit = () \xff;",
        "program refused: Char 2 38\n",
    ),
    (b"# \xff\n# \xc3\xa9 \n\x0b", "program refused: Char 3 1\n"),
    // raw bytes that no text may have, with columns by bytes behind letters of two bytes
    (
        b"query q(s: unit, x: unit): text = \"\xc3\xa9\xc3\xa9\t\";",
        "program refused: Char 1 40\n",
    ),
    (
        b"state unit;\nquery q(s: unit, x: unit): text = \"a\x7f\";\nquery z(s: unit, x: unit): unit = ();",
        "program refused: Char 2 37\n",
    ),
    (
        b"state unit;\nquery q(s: unit, x: unit): text = \"a\n\";",
        "program refused: Char 2 37\n",
    ),
    // escapes
    (
        b"query q(s: unit, x: unit): text = \"a\\q\";",
        "program refused: BadEscape 1 37\n",
    ),
    (
        b"state unit;\nquery q(s: unit, x: unit): text = \"\\\\\\n\\t\\\"\\x80\";\nquery z(s: unit, x: unit): unit = ();",
        "program refused: BadEscape 2 44\n",
    ),
    (
        b"state unit;\n\nquery z(s: unit, x: unit): unit = ();\nquery q(s: unit, x: unit): text = \"\\x7g\";",
        "program refused: BadEscape 4 36\n",
    ),
    (
        b"state unit;\nquery q(s: unit, x: unit): text = \"a\\",
        "program refused: BadEscape 2 37\n",
    ),
    (
        b"state unit;\nquery q(s: unit, x: unit): text = \"a\\x4",
        "program refused: BadEscape 2 37\n",
    ),
    // texts that the end cuts, and closed ones that aren't UTF-8
    (
        b"query q(s: unit, x: unit): text = \"abc",
        "program refused: Unclosed 1 35\n",
    ),
    (
        b"state unit;\n\nquery z(s: unit, x: unit): unit = ();\nquery q(s: unit, x: unit): text = \"abc # ();",
        "program refused: Unclosed 4 35\n",
    ),
    (
        b"query q(s: unit, x: unit): text = \"a\xff\";",
        "program refused: Utf8 1 35\n",
    ),
    (
        b"state unit;\nquery q(s: unit, x: unit): text = \"\xc3\";\nquery z(s: unit, x: unit): unit = ();",
        "program refused: Utf8 2 35\n",
    ),
    (
        b"state unit;\n\nquery z(s: unit, x: unit): unit = ();\nquery q(s: unit, x: unit): text = \"\xed\xa0\x80\";",
        "program refused: Utf8 4 35\n",
    ),
    // ints
    (
        b"query q(s: unit, x: unit): int = 9223372036854775808;",
        "program refused: NumberRange 1 34\n",
    ),
    (
        b"state unit;\nquery q(s: unit, x: unit): int = add(1, -9223372036854775809);\nquery z(s: unit, x: unit): unit = ();",
        "program refused: NumberRange 2 41\n",
    ),
    (
        b"state unit;\n\nquery z(s: unit, x: unit): unit = ();\nquery q(s: unit, x: unit): int = 000009223372036854775808;",
        "program refused: NumberRange 4 34\n",
    ),
    // names
    (
        b"query aaaaaaaaaaaaaaaaaaaaaaaaaaaaaaaaaaaaaaaaaaaaaaaaaaaaaaaaaaaaaaaaa(s: unit, x: unit): unit = ();",
        "program refused: NameLong 1 7\n",
    ),
    (
        b"state unit;\nquery q(s: unit, x: unit): unit = bbbbbbbbbbbbbbbbbbbbbbbbbbbbbbbbbbbbbbbbbbbbbbbbbbbbbbbbbbbbbbbbb;\nquery z(s: unit, x: unit): unit = ();",
        "program refused: NameLong 2 35\n",
    ),
    (
        b"state unit;\n\nquery z(s: unit, x: unit): unit = ();\nquery q(s: unit, x: unit): C________________________________________________________________ = x;",
        "program refused: NameLong 4 28\n",
    ),
    // tokens that are not allowed where they stand, and ends
    (b"abc", "program refused: Expected 1 1\n"),
    (b"let", "program refused: Expected 1 1\n"),
    (b"state unit", "program refused: Expected 1 11\n"),
    (
        b"state unit; # then nothing\nquery",
        "program refused: Expected 2 6\n",
    ),
    (b"state unit;;", "program refused: Expected 1 12\n"),
    (
        b"state unit;\nquery q(s: unit, x: unit): unit = auth x;",
        "program refused: Expected 2 40\n",
    ),
    (
        b"state unit;\nquery q(s: unit, x: unit): unit = auth();",
        "program refused: Expected 2 40\n",
    ),
    (
        b"state unit;\nquery q(s: unit, x: unit): unit = ->;",
        "program refused: Expected 2 35\n",
    ),
    (
        b"state unit;\nquery q(s: unit x: unit): unit = ();",
        "program refused: Expected 2 17\n",
    ),
    (
        b"state unit;\nquery q(s: unit, x: unit,): unit = ();",
        "program refused: Expected 2 26\n",
    ),
    (
        b"state unit;\nquery q(): unit = ();",
        "program refused: Expected 2 9\n",
    ),
    (
        b"state unit;\nquery q(s: unit, x: unit) unit = ();",
        "program refused: Expected 2 27\n",
    ),
    (
        b"state unit;\nquery q(s: unit, true: unit): unit = ();",
        "program refused: Expected 2 18\n",
    ),
    (
        b"state unit;\nquery len(s: unit, x: unit): unit = ();",
        "program refused: Expected 2 7\n",
    ),
    (
        b"state unit;\nquery Open(s: unit, x: unit): unit = ();",
        "program refused: Expected 2 7\n",
    ),
    // a carriage return ends no line
    (
        b"state unit;\r\n# \xc3\xa9\r\n\r\nquery q(s: unit, x: unit): unit = ()\r\n",
        "program refused: Expected 5 1\n",
    ),
    // of two faults the first
    (
        b"state unit;\nquery q(s: unit, x: unit): unit = then @;",
        "program refused: Expected 2 35\n",
    ),
    (
        b"state unit;\nquery q(s: unit, x: unit): unit = @ then;",
        "program refused: Char 2 35\n",
    ),
];

/// Trees that the rules refuse.
const FAULTY_TREES: [Row; 34] = [
    // names that stand twice
    (
        b"state unit;\nquery q(s: unit, x: unit): unit = ();\nquery q(s: unit, x: unit): unit = ();",
        "program refused: Twice 3 7\n",
    ),
    (
        b"state unit;\ninit q(x: unit): unit = ();\nquery q(s: unit, x: unit): unit = ();",
        "program refused: Twice 3 7\n",
    ),
    (
        b"state unit;\nquery q(s: unit, s: unit): unit = ();",
        "program refused: Twice 2 18\n",
    ),
    (
        b"state unit;\n\nquery z(s: unit, x: unit): unit = ();\nstate unit;",
        "program refused: Twice 4 1\n",
    ),
    // more than there may be
    (
        b"state unit;\nquery q(a: unit, b: unit, c: unit, d: unit, e: unit, f: unit, g: unit, h: unit, i: unit): unit = ();",
        "program refused: Limit-parameters 2 81\n",
    ),
    (
        b"state unit;\nquery q(a: unit, b: unit, c: unit, d: unit, e: unit, f: unit, g: unit, h: unit, a: unit): unit = ();",
        "program refused: Twice 2 81\n",
    ),
    // no state
    (b"", "program refused: NoState 1 1\n"),
    (b"# nothing\n", "program refused: NoState 2 1\n"),
    (
        b"query q(s: unit, x: unit): unit = ();",
        "program refused: NoState 1 38\n",
    ),
    // the shapes of roles
    (
        b"state unit;\ninit make(x: unit): bool = true;",
        "program refused: RoleShape 2 6\n",
    ),
    (
        b"state unit;\ninit make(s: unit, x: unit): unit = ();",
        "program refused: RoleShape 2 6\n",
    ),
    (
        b"state unit;\nquery q(s: unit): unit = ();",
        "program refused: RoleShape 2 7\n",
    ),
    (
        b"state unit;\nquery q(s: unit, x: unit, y: unit): unit = ();",
        "program refused: RoleShape 2 7\n",
    ),
    (
        b"state unit;\nquery q(s: auth unit, x: auth unit): unit = ();",
        "program refused: RoleShape 2 7\n",
    ),
    (
        b"state unit; query q(s: unit, x: auth int): int = 1;",
        "program refused: AuthInArgument 1 33\n",
    ),
    (
        b"state auth unit;\ninit make(x: auth unit): auth unit = x;",
        "program refused: AuthInArgument 2 14\n",
    ),
    // bodies
    (
        b"state unit;\nquery q(s: unit, x: unit): unit = y;",
        "program refused: UnknownName 2 35\n",
    ),
    (
        b"state unit;\nquery q(s: unit, x: unit): int = add(1, q);",
        "program refused: UnknownName 2 41\n",
    ),
    (
        b"state unit;\nquery q(s: unit, x: unit): int = x;",
        "program refused: WrongType 2 34\n",
    ),
    (
        b"state unit;\nquery q(s: unit, x: unit): int = add(x, true);",
        "program refused: WrongType 2 38\n",
    ),
    (
        b"state unit;\nquery q(s: unit, x: unit): int = add(1,\n    \"one\");",
        "program refused: WrongType 3 5\n",
    ),
    (
        b"state unit;\nquery q(s: unit, x: unit): bool = add(1, 2);",
        "program refused: WrongType 2 35\n",
    ),
    (
        b"state unit;\nquery q(s: unit, x: unit): auth int = auth(true);",
        "program refused: WrongType 2 39\n",
    ),
    (
        b"state unit;\nquery q(s: unit, x: unit): text = add((), \"\");",
        "program refused: WrongType 2 39\n",
    ),
    (
        b"state unit;\nquery q(s: unit, x: unit): int = unauth(5);",
        "program refused: NotAuth 2 41\n",
    ),
    (
        b"state unit;\nquery q(s: unit, x: unit): int = unauth(unauth(x));",
        "program refused: NotAuth 2 48\n",
    ),
    (
        b"state unit;\nquery q(s: unit, x: unit): unit = fst(x);",
        "program refused: NotPair 2 39\n",
    ),
    (
        b"type a = A; state unit; fun f(x: int): int = match x with | A -> 1 end;",
        "program refused: NotSum 1 52\n",
    ),
    (
        b"type a = A | B; state unit; fun f(x: a): int = match x with | B -> 1 | A -> 1 end;",
        "program refused: ArmsWrong 1 48\n",
    ),
    (
        b"state unit; fun f(x: int): int = f(x, y);",
        "program refused: WrongCount 1 34\n",
    ),
    // of faults of two passes that of the first, and of two of one pass the first
    (
        b"state unit;\nquery q(s: unit, x: auth unit): unit = y;\nquery q(s: unit, x: unit): unit = ();",
        "program refused: Twice 3 7\n",
    ),
    (
        b"state unit;\nquery q(s: unit, x: unit): unit = y;\nquery p(s: unit, x: auth unit): unit = ();",
        "program refused: AuthInArgument 3 21\n",
    ),
    (
        b"state unit;\nquery q(s: unit): unit = ();\nquery p(s: unit, x: auth unit): unit = ();",
        "program refused: RoleShape 2 7\n",
    ),
    (
        b"state unit;\nquery q(s: unit, x: unit): unit = y;\nquery p(s: unit, x: unit): unit = unauth(x);",
        "program refused: UnknownName 2 35\n",
    ),
];

/// Programs, told with the digests that `sha256sum` prints.
const PROGRAMS: [Row; 6] = [
    (
        b"state unit; query q(s: unit, x: unit): unit = ();",
        "ok c300da19f6eca2d18965d4993074c78146ae35588a704bd3f2a7fbcf39420bcc\n",
    ),
    (
        FIRST,
        "ok 32b0f8ad41d9993c579696d89030fe5e5c277936ddcdb813c532f1657967c4a3\n",
    ),
    (
        SUM,
        "ok 6b7d989d6739abb6b771ae853c26e21955d50fb72a2b442fbe52e3b73814604f\n",
    ),
    (
        BST,
        "ok e9767d8b3b52930f1ba4ec36bfdfcb922c8f60815223f512ad5b52ebe8bd6bf7\n",
    ),
    (
        MERKLE,
        "ok 32e8e54c0e029969240872419e95482fc86010da8e092ae8bc7a3bb0a4763b41\n",
    ),
    (
        LOG,
        "ok fdca26004f045645a344641333f1a92bca0ba044bdda30f5391abd2a523e6544\n",
    ),
];

/// The number of the first row, from 0, of which `check` tells another line, or another status.
fn wrong_row<R: Threads + Sync>(
    rt: &R,
    alloc: Global,
    status: u8,
    rows: &[Row],
) -> Result<Option<usize>, AllocError> {
    for (number, (text, line)) in rows.iter().enumerate() {
        if !check(rt, alloc, text)?.only_tells(status, line) {
            return Ok(Some(number));
        }
    }
    Ok(None)
}

/// Texts of which `check` tells this status, with a name.
static TABLES: [(&str, u8, &[Row]); 3] = [
    ("faulty texts", 6, &FAULTY_TEXTS),
    ("faulty trees", 6, &FAULTY_TREES),
    ("programs", 0, &PROGRAMS),
];

#[test]
fn texts_are_told(rt: HostRuntime) -> Result<(), Fail> {
    for (table, status, rows) in &TABLES {
        if let Some(number) = wrong_row(&rt, rt.alloc(), *status, rows)? {
            return Err(Fail::new(format_args!("{table}: row {number}")));
        }
    }
    Ok(())
}

/// A query, up to its body.
const QUERY: &[u8] = b"state unit;\nquery q(s: unit, x: unit): unit = ";

/// A query of a text, up to the first byte of a literal.
const LITERAL: &[u8] = b"state unit;\nquery q(s: unit, x: unit): text =\n  \"";

/// A beginning, a part, how often it stands, and an end, with the status and the line that `check` tells of this text. An expression or a
/// type on level 100 is taken, one on level 101 isn't: at its first token. A token there that begins neither is not expected. A literal has
/// at most 65,532 bytes, a text at most 262,144.
const LONG: [(&[u8], &[u8], usize, &[u8], u8, &str); 11] = [
    // on level 100 a parenthesis that isn't closed yet
    (
        QUERY,
        b"auth(",
        99,
        b"x",
        6,
        "program refused: Expected 2 531\n",
    ),
    (
        QUERY,
        b"auth(",
        100,
        b"x",
        6,
        "program refused: TooNested 2 535\n",
    ),
    (
        QUERY,
        b"auth(",
        100,
        b")",
        6,
        "program refused: Expected 2 535\n",
    ),
    (
        QUERY,
        b"add(1, ",
        100,
        b"2",
        6,
        "program refused: TooNested 2 732\n",
    ),
    (
        b"state ",
        b"auth ",
        99,
        b"unit",
        6,
        "program refused: Expected 1 506\n",
    ),
    (
        b"state ",
        b"auth ",
        100,
        b"unit;",
        6,
        "program refused: TooNested 1 507\n",
    ),
    (
        b"state ",
        b"auth ",
        100,
        b";",
        6,
        "program refused: Expected 1 507\n",
    ),
    (
        LITERAL,
        b"a",
        65_532,
        b"\";",
        0,
        "ok 3b80cedf63c1b97964812f7a861a537bd1700362140f7e4586f4e41855b4ce9a\n",
    ),
    (
        LITERAL,
        b"a",
        65_533,
        b"\";",
        6,
        "program refused: TextLong 3 3\n",
    ),
    (
        FIRST,
        b" ",
        262033,
        b"",
        0,
        "ok 989eab22a5a8929e8f5d60494b44cf3a2e4df847d3d10b48afc89c43b2695a7d\n",
    ),
    (FIRST, b" ", 262034, b"", 7, "input refused: too long P\n"),
];

/// A beginning, a part so many times, and an end.
pub fn repeated(
    alloc: Global,
    beginning: &[u8],
    part: &[u8],
    count: usize,
    end: &[u8],
) -> Result<Vec<u8>, AllocError> {
    let mut text = Vec::from_slice(alloc, beginning)?;
    for _ in 0..count {
        text.extend_from_slice(part)?;
    }
    text.extend_from_slice(end)?;
    Ok(text)
}

#[test]
fn long_texts_are_told(rt: HostRuntime) -> Result<(), Fail> {
    for (beginning, part, count, end, status, line) in &LONG {
        let text = repeated(rt.alloc(), beginning, part, *count, end)?;
        if !check(&rt, rt.alloc(), &text)?.only_tells(*status, line) {
            return Err(Fail::new(*line));
        }
    }
    Ok(())
}

/// A program with so many functions.
fn with_functions(alloc: Global, count: usize) -> Result<Vec<u8>, AllocError> {
    let mut text = Vec::from_slice(alloc, b"state unit;")?;
    for number in 0..count {
        let function = format!(in alloc; "\nquery q{number}(s: unit, x: unit): unit = ();")?;
        text.extend_from_slice(function.as_bytes())?;
    }
    Ok(text)
}

#[test]
fn functions_have_a_greatest_number(rt: HostRuntime) -> Result<(), Fail> {
    let alloc = rt.alloc();
    let most = check(&rt, alloc, &with_functions(alloc, 1024)?)?;
    assert!(rt; most.status == 0);
    let more = check(&rt, alloc, &with_functions(alloc, 1025)?)?;
    assert!(rt; more.only_tells(6, "program refused: Limit-functions 1026 7\n"));
    Ok(())
}
