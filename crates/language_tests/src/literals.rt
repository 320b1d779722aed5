// Literals: how they are spelled, the first fault of texts that are none of a type, and how deep and how long they may be.
use crate::answers::{failed_row, program_of};
use core_terms::Program;
use lexemes::fault::LexicalFault;
use printed_syntax::fault::{LiteralFault, LiteralKind};
use printed_syntax::literal::parse_literal;
use std::alloc::{AllocError, Global};
use std::test::Fail;

/// A program whose state has this type, beside those that `chain` and `box` are made of.
pub fn of_type(alloc: Global, ty: &str) -> Result<Program, AllocError> {
    let text = format!(in alloc;
        "type chain = End | More(chain); type box = Empty | Box((int, text), bool, chain) | Held(auth bool); state {ty};"
    )?;
    program_of(alloc, text.as_bytes())
}

/// Whether a text is a literal of the state's type, spelled so.
pub fn is_spelled(alloc: Global, program: &Program, text: &str, wanted: &[u8]) -> bool {
    match parse_literal(alloc, program, program.state_type(), text) {
        Ok(spelling) => spelling.as_bytes() == wanted,
        Err(_) => false,
    }
}

/// Whether a text is a literal of this type, spelled so.
fn has_spelling(alloc: Global, ty: &str, text: &str, wanted: &[u8]) -> Result<bool, AllocError> {
    Ok(is_spelled(alloc, &of_type(alloc, ty)?, text, wanted))
}

/// Types, literals and their spellings.
const SPELLINGS: [(&str, &str, &[u8]); 11] = [
    ("unit", " ( # nothing\n) ", b""),
    ("bool", "false", b"\0"),
    ("bool", "true # yes", b"\x01"),
    ("int", " -1", b"\xff\xff\xff\xff\xff\xff\xff\xff"),
    ("text", "\"\"", b"\0\0\0\0"),
    (
        "(int, text)",
        "(-1, \"é\")",
        b"\xff\xff\xff\xff\xff\xff\xff\xff\0\0\0\x02\xc3\xa9",
    ),
    (
        "((int, text), bool)",
        "((2,\"a\")# one\n,true)",
        b"\0\0\0\0\0\0\0\x02\0\0\0\x01a\x01",
    ),
    ("chain", "End", b"\0"),
    ("chain", "More(More(End))", b"\x01\x01\0"),
    ("box", "Empty", b"\0"),
    (
        "box",
        "Box ( (0, \"\") , true , More(End) )",
        b"\x01\0\0\0\0\0\0\0\0\0\0\0\0\x01\x01\0",
    ),
];

#[test]
fn literals_are_spelled(rt: HostRuntime) -> Result<(), Fail> {
    for (ty, text, spelling) in &SPELLINGS {
        if !has_spelling(rt.alloc(), ty, text, spelling)? {
            return Err(Fail::new(*text));
        }
    }
    Ok(())
}

/// What reading a text as a literal gives: the length of the spelling, or the first fault.
#[derive(Clone, Copy, PartialEq)]
pub enum Answer {
    Spelled(usize),
    Refused(LiteralKind, usize),
    NoMemory,
}

/// Reads a text as a literal of the state's type.
pub fn read(alloc: Global, program: &Program, text: &str) -> Answer {
    match parse_literal(alloc, program, program.state_type(), text) {
        Ok(spelling) => Answer::Spelled(spelling.as_bytes().len()),
        Err(LiteralFault::At(kind, offset)) => Answer::Refused(kind, offset),
        Err(LiteralFault::NoMemory) => Answer::NoMemory,
    }
}

/// Reads a text as a literal of this type.
fn answer_of(alloc: Global, ty: &str, text: &str) -> Result<Answer, AllocError> {
    Ok(read(alloc, &of_type(alloc, ty)?, text))
}

/// What a test says of a text that is not read as it should be: the type and the text.
pub fn misread(ty: &str, text: &str) -> Fail {
    Fail::new(format_args!("{ty} {text}"))
}

/// Types, texts with a token that no literal of the type has there, and how many bytes stand before it.
const MISMATCHES: [(&str, &str, usize); 52] = [
    // another form
    ("bool", "()", 0),
    ("bool", "1", 0),
    ("bool", "\"a\"", 0),
    ("bool", "(true, true)", 0),
    ("bool", "End", 0),
    ("bool", "name", 0),
    ("bool", "", 0),
    ("bool", ",", 0),
    ("unit", "true", 0),
    ("unit", "1", 0),
    ("unit", "\"a\"", 0),
    ("unit", "End", 0),
    ("unit", "name", 0),
    ("unit", "", 0),
    ("unit", "unit", 0),
    ("int", "()", 0),
    ("int", "true", 0),
    ("int", "\"a\"", 0),
    ("int", "(1, 1)", 0),
    ("int", "End", 0),
    ("int", "name", 0),
    ("int", "", 0),
    ("text", "()", 0),
    ("text", "true", 0),
    ("text", "1", 0),
    ("text", "End", 0),
    ("text", "name", 0),
    ("text", "", 0),
    ("unit", "(1, 2)", 1),
    // pairs
    ("(int, text)", "1", 0),
    ("(int, text)", "()", 1),
    ("(int, text)", "(1, 2)", 4),
    ("(int, text)", "(1; \"a\")", 2),
    ("(int, text)", "(1, \"a\", 1)", 7),
    ("(int, text)", "(1, \"a\"", 7),
    ("((int, text), bool)", "((1, \"a\"), 1)", 11),
    // constructors
    ("chain", "Empty", 0),
    ("chain", "Box((1, \"a\"), true, End)", 0),
    ("chain", "Other", 0),
    ("chain", "end", 0),
    ("chain", "()", 0),
    ("chain", "True", 0),
    ("chain", "End()", 3),
    ("chain", "More", 4),
    ("chain", "More()", 5),
    ("chain", "More(Empty)", 5),
    ("chain", "More(End, End)", 8),
    ("box", "Box((1, \"a\"), true)", 18),
    ("box", "Box((1, \"a\") true, End)", 13),
    // an authenticated value has no literal, alone or in a field
    ("auth bool", " true", 1),
    ("auth bool", "", 0),
    ("box", "Held(true)", 5),
];

#[test]
fn other_texts_are_no_literals(rt: HostRuntime) -> Result<(), Fail> {
    for (ty, text, offset) in &MISMATCHES {
        let wanted = Answer::Refused(LiteralKind::Mismatch, *offset);
        if answer_of(rt.alloc(), ty, text)? != wanted {
            return Err(misread(ty, text));
        }
    }
    Ok(())
}

/// What stands behind the whole is refused, and a lexical fault is told as such.
const BEHIND: [(&str, &str, Answer); 4] = [
    (
        "bool",
        "true false",
        Answer::Refused(LiteralKind::Mismatch, 5),
    ),
    (
        "bool",
        "true $",
        Answer::Refused(LiteralKind::Lexical(LexicalFault::Char), 5),
    ),
    (
        "auth bool",
        "$",
        Answer::Refused(LiteralKind::Lexical(LexicalFault::Char), 0),
    ),
    (
        "(int, text)",
        "(1, \"a",
        Answer::Refused(LiteralKind::Lexical(LexicalFault::Unclosed), 4),
    ),
];

#[test]
fn faults_behind_a_literal_are_told(rt: HostRuntime) -> Result<(), Fail> {
    for (ty, text, wanted) in &BEHIND {
        if answer_of(rt.alloc(), ty, text)? != *wanted {
            return Err(misread(ty, text));
        }
    }
    Ok(())
}

/// A beginning, a part, how often it stands, a middle, and what closes the part as often.
type Parts = (
    &'static str,
    &'static str,
    usize,
    &'static str,
    &'static str,
);

/// A value has at most 512 levels, a spelling at most 65,536 bytes. The level is told before the token is judged, a lexical fault and the
/// end of the text before the level, and a fault that stands in the text before its size.
static LONG: [(&str, Parts, Answer); 8] = [
    (
        "chain",
        ("", "More(", 511, "End", ")"),
        Answer::Spelled(512),
    ),
    (
        "chain",
        ("", "More(", 512, "End", ")"),
        Answer::Refused(LiteralKind::TooDeep, 2560),
    ),
    (
        "chain",
        ("", "More(", 512, "true", ")"),
        Answer::Refused(LiteralKind::TooDeep, 2560),
    ),
    (
        "chain",
        ("", "More(", 512, "$", ")"),
        Answer::Refused(LiteralKind::Lexical(LexicalFault::Char), 2560),
    ),
    (
        "chain",
        ("", "More(", 512, "", ""),
        Answer::Refused(LiteralKind::Mismatch, 2560),
    ),
    (
        "((int, text), bool)",
        ("((0, \"", "a", 65_523, "\"), true)", ""),
        Answer::Spelled(65_536),
    ),
    (
        "((int, text), bool)",
        ("((0, \"", "a", 65_524, "\"), true)", ""),
        Answer::Refused(LiteralKind::TooBig, 0),
    ),
    (
        "((int, text), bool)",
        ("((0, \"", "a", 65_524, "\"), true) 1", ""),
        Answer::Refused(LiteralKind::Mismatch, 65_540),
    ),
];

/// Adds a part so often.
fn add_often(text: &mut String, part: &str, count: usize) -> Result<(), AllocError> {
    for _ in 0..count {
        text.push_str(part)?;
    }
    Ok(())
}

/// The text of these parts.
fn repeated(alloc: Global, parts: Parts) -> Result<String, AllocError> {
    let (beginning, part, count, middle, closing) = parts;
    let mut text = String::from_str(alloc, beginning)?;
    add_often(&mut text, part, count)?;
    text.push_str(middle)?;
    add_often(&mut text, closing, count)?;
    Ok(text)
}

/// Reads the text of these parts as a literal of this type.
fn answer_of_parts(alloc: Global, ty: &str, parts: Parts) -> Result<Answer, AllocError> {
    answer_of(alloc, ty, &repeated(alloc, parts)?)
}

#[test]
fn literals_have_their_limits(rt: HostRuntime) -> Result<(), Fail> {
    for (number, (ty, parts, wanted)) in LONG.iter().enumerate() {
        if answer_of_parts(rt.alloc(), ty, *parts)? != *wanted {
            return Err(failed_row(number));
        }
    }
    Ok(())
}
