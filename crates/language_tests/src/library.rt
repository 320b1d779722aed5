// The texts of the library: each is read to its program, with memory at hand.
use core_terms::Program;
use library_programs::{bst, merkle, redblack, skiplist};
use std::alloc::{AllocError, Global};
use std::test::Fail;

/// A text of the library.
#[derive(Clone, Copy)]
enum Text {
    Bst,
    Merkle,
    Redblack,
    Skiplist,
}

/// The texts, with their names.
const TEXTS: [(Text, &str); 4] = [
    (Text::Bst, "bst"),
    (Text::Merkle, "merkle"),
    (Text::Redblack, "redblack"),
    (Text::Skiplist, "skiplist"),
];

/// The program that a text is read to.
fn program_of(alloc: Global, text: Text) -> Result<Program, AllocError> {
    match text {
        Text::Bst => bst(alloc),
        Text::Merkle => merkle(alloc),
        Text::Redblack => redblack(alloc),
        Text::Skiplist => skiplist(alloc),
    }
}

/// Whether a text is read to a program of three roles.
fn has_three_roles(alloc: Global, text: Text) -> Result<bool, AllocError> {
    Ok(program_of(alloc, text)?.roles().len() == 3)
}

#[test]
fn each_text_of_the_library_is_read(rt: HostRuntime) -> Result<(), Fail> {
    for (text, name) in &TEXTS {
        if !has_three_roles(rt.alloc(), *text)? {
            return Err(Fail::new(*name));
        }
    }
    Ok(())
}
