// Values as they are printed, from their spellings.
use crate::literals::of_type;
use core_terms::Program;
use printed_syntax::printing::print_value;
use std::alloc::{AllocError, Global};
use std::test::Fail;

/// Whether the value of the state's type that these bytes spell is printed so.
pub fn is_printed(alloc: Global, program: &Program, bytes: &[u8], text: &str) -> bool {
    match print_value(alloc, program, program.state_type(), bytes) {
        Ok(printed) => printed.as_slice() == text.as_bytes(),
        Err(_) => false,
    }
}

/// Whether the value of this type that these bytes spell is printed so.
fn has_text(alloc: Global, ty: &str, bytes: &[u8], text: &str) -> Result<bool, AllocError> {
    Ok(is_printed(alloc, &of_type(alloc, ty)?, bytes, text))
}

/// Types, spellings and what is printed of them.
const VALUES: [(&str, &[u8], &str); 7] = [
    ("unit", b"", "()"),
    ("bool", b"\x01", "true"),
    (
        "((int, text), bool)",
        b"\xff\xff\xff\xff\xff\xff\xff\xfe\0\0\0\x04a\"\n\x7f\0",
        "((-2, \"a\\\"\\n\\x7f\"), false)",
    ),
    ("chain", b"\0", "End"),
    ("chain", b"\x01\x01\0", "More(More(End))"),
    (
        "box",
        b"\x01\0\0\0\0\0\0\0\x07\0\0\0\0\x01\x01\0",
        "Box((7, \"\"), true, More(End))",
    ),
    (
        "box",
        b"\x02********************************",
        "Held(#2a2a2a2a2a2a2a2a2a2a2a2a2a2a2a2a2a2a2a2a2a2a2a2a2a2a2a2a2a2a2a2a)",
    ),
];

#[test]
fn values_are_printed(rt: HostRuntime) -> Result<(), Fail> {
    for (ty, bytes, text) in &VALUES {
        if !has_text(rt.alloc(), ty, bytes, text)? {
            return Err(Fail::new(*text));
        }
    }
    Ok(())
}
