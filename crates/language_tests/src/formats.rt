// Texts with a format: those that are programs, the first fault of the others, and what is printed of them.
use crate::answers::{Fault, failed_row, fault_of, misfit_of, program_of};
use crate::printed::{Row, is_printed_so};
use ads_library::texts::{REDBLACK, SKIPLIST};
use core_terms::Format;
use lexemes::fault::{LexicalFault, SyntaxKind};
use program_texts::{BST, LOG, MERKLE};
use std::alloc::{AllocError, Global};
use std::test::Fail;

/// Texts, and their first fault. The words of arrays are names in the first format, and `format` is one behind the head in both.
static TEXTS: [(&[u8], Option<Fault>); 22] = [
    (b"format 1;", None),
    (b"format 2;", None),
    (b" # two\nformat # of two\n02 ;", None),
    (b"state unit; fun format(format: int): int = format;", None),
    (
        b"format 2; type format = A; state format; fun f(format: format): format = format;",
        None,
    ),
    (
        b"type vec = A; state vec; fun vfill(vget: vec, vput: vec): vec = vget;",
        None,
    ),
    (b"format 1; fun vput(vec: int): int = vput(vec);", None),
    (b"format 3;", Some((SyntaxKind::Expected, 1, 8))),
    (b"format 0;", Some((SyntaxKind::Expected, 1, 8))),
    (b"format two;", Some((SyntaxKind::Expected, 1, 8))),
    (b"format;", Some((SyntaxKind::Expected, 1, 7))),
    (b"format 2", Some((SyntaxKind::Expected, 1, 9))),
    (b"format 2 state unit;", Some((SyntaxKind::Expected, 1, 10))),
    (b"Format 2;", Some((SyntaxKind::Expected, 1, 1))),
    (b"format 2; format 2;", Some((SyntaxKind::Expected, 1, 11))),
    (
        b"state unit; format 2;",
        Some((SyntaxKind::Expected, 1, 13)),
    ),
    (
        b"state vec[2] int;",
        Some((SyntaxKind::Lexical(LexicalFault::Char), 1, 10)),
    ),
    (
        b"format 1; state vec[2] int;",
        Some((SyntaxKind::Lexical(LexicalFault::Char), 1, 20)),
    ),
    (
        b"format 1;\nfun f(x: int): int = vget(x, ]);",
        Some((SyntaxKind::Lexical(LexicalFault::Char), 2, 30)),
    ),
    (
        b"format 2; fun vec(x: int): int = x;",
        Some((SyntaxKind::Expected, 1, 15)),
    ),
    (
        b"format 2; fun f(vput: int): int = 1;",
        Some((SyntaxKind::Expected, 1, 17)),
    ),
    (
        b"format 2; fun f(x: int): int = vget;",
        Some((SyntaxKind::Expected, 1, 36)),
    ),
];

#[test]
fn formats_are_read(rt: HostRuntime) -> Result<(), Fail> {
    for (number, (text, fault)) in TEXTS.iter().enumerate() {
        if fault_of(rt.alloc(), text)? != *fault {
            return Err(failed_row(number));
        }
    }
    Ok(())
}

/// The beginning of a text, with the format and the greatest length of a spelling of its program.
const LIMITS: [(&[u8], Format, usize); 3] = [
    (b"state unit;", Format::First, 65_536),
    (b"format 1; state unit;", Format::First, 65_536),
    (b"format 2; state unit;", Format::Second, 1_048_576),
];

/// Whether the program of a text tells this format and this limit.
fn tells(alloc: Global, text: &[u8], format: Format, limit: usize) -> Result<bool, AllocError> {
    let program = program_of(alloc, text)?;
    Ok(program.format() == format && program.spelling_limit() == limit)
}

#[test]
fn a_program_tells_its_format(rt: HostRuntime) -> Result<(), Fail> {
    for (number, (text, format, limit)) in LIMITS.iter().enumerate() {
        if !tells(rt.alloc(), text, *format, *limit)? {
            return Err(failed_row(number));
        }
    }
    Ok(())
}

/// Whether a text with this head before it is a program.
fn is_program(alloc: Global, head: &[u8], text: &[u8]) -> Result<bool, AllocError> {
    let mut whole = Vec::from_slice(alloc, head)?;
    whole.extend_from_slice(text)?;
    Ok(misfit_of(alloc, &whole)?.is_none())
}

#[test]
fn programs_are_of_both_formats(rt: HostRuntime) -> Result<(), Fail> {
    for text in [BST, MERKLE, REDBLACK, SKIPLIST, LOG] {
        for head in [b"format 1;\n", b"format 2;\n"] {
            assert!(rt; is_program(rt.alloc(), head, text)?);
        }
    }
    Ok(())
}

/// A text's format is printed where the text tells it. No `(` stands at a `]`, at `vget` or at `vput`.
static PRINTED: [Row; 9] = [
    (b"format 1;", b"format 1;\n"),
    (b"format\n002;state unit;", b"format 2;\nstate unit;\n"),
    (
        b"format 1;fun vec(vget:int):int=vec (vget);",
        b"format 1;\nfun vec(vget: int): int = vec(vget);\n",
    ),
    (
        b"format 2;state vec [ 2 ](int,int);",
        b"format 2;\nstate vec[2] (int, int);\n",
    ),
    (
        b"format 2;state auth vec[02]int;",
        b"format 2;\nstate auth vec[2] int;\n",
    ),
    (
        b"format 2;type t=A(vec[1]t,vec[64]auth vec[3]text);",
        b"format 2;\ntype t = A(vec[1] t, vec[64] auth vec[3] text);\n",
    ),
    (
        b"format 2;fun f(x:int):vec[2]int=vfill[2](x);",
        b"format 2;\nfun f(x: int): vec[2] int = vfill[2] (x);\n",
    ),
    (
        b"format 2;fun f(s:vec[2]int,i:int):int=vget(s,i);",
        b"format 2;\nfun f(s: vec[2] int, i: int): int = vget (s, i);\n",
    ),
    (
        b"format 2;fun f(s:t,i:int):t=vput(vput(s,0,vfill[1](i)),add(i,1),(i,i));",
        b"format 2;\nfun f(s: t, i: int): t = vput (vput (s, 0, vfill[1] (i)), add(i, 1), (i, i));\n",
    ),
];

#[test]
fn formats_and_arrays_are_printed(rt: HostRuntime) -> Result<(), Fail> {
    for (number, (text, wanted)) in PRINTED.iter().enumerate() {
        if !is_printed_so(rt.alloc(), text, wanted)? {
            return Err(failed_row(number));
        }
    }
    Ok(())
}
