// What the parser and the checker say of a text, and texts in which a part stands many times.
use auth_syntax::parser::parse;
use auth_syntax::tree::Ast;
use auth_types::check::check;
use auth_types::fault::{TypeFault, TypeKind};
use core_terms::{Digest, MOST_PROGRAM_BYTES, Program};
use lexemes::fault::{SyntaxFault, SyntaxKind};
use printed_syntax::print::print;
use std::alloc::{AllocError, Global};
use std::test::Fail;

/// What a test says of a row of its table that is not as it should be: the number of the row, from 0.
pub fn failed_row(number: usize) -> Fail {
    Fail::new(format_args!("row {number}"))
}

/// What it says of such a row where it has several tables: also the name of the row's table.
pub fn failed_row_of(table: &str, number: usize) -> Fail {
    Fail::new(format_args!("{table}: row {number}"))
}

/// A fault of a text's syntax: its kind, its line and its column.
pub type Fault = (SyntaxKind, usize, usize);

/// The first fault of a text's syntax; none where the grammar takes it.
///
/// # Errors
///
/// `AllocError` where memory runs out, or where the text is too long.
pub fn fault_of(alloc: Global, text: &[u8]) -> Result<Option<Fault>, AllocError> {
    if text.len() > MOST_PROGRAM_BYTES {
        return Err(AllocError);
    }
    match parse(alloc, text) {
        Ok(_) => Ok(None),
        Err(SyntaxFault::At(kind, at)) => Ok(Some((kind, at.line, at.column))),
        Err(SyntaxFault::NoMemory) => Err(AllocError),
    }
}

/// A text as it is printed once it is parsed; none where the grammar refuses it.
///
/// # Errors
///
/// As `fault_of`.
pub fn printed(alloc: Global, text: &[u8]) -> Result<Option<Vec<u8>>, AllocError> {
    if text.len() > MOST_PROGRAM_BYTES {
        return Err(AllocError);
    }
    match parse(alloc, text) {
        Ok(ast) => Ok(Some(print(alloc, &ast)?)),
        Err(SyntaxFault::At(_, _)) => Ok(None),
        Err(SyntaxFault::NoMemory) => Err(AllocError),
    }
}

/// The tree of a text.
///
/// # Errors
///
/// `AllocError` where memory runs out, or where the text is too long or the grammar refuses it.
pub fn tree_of(alloc: Global, text: &[u8]) -> Result<Ast, AllocError> {
    if text.len() > MOST_PROGRAM_BYTES {
        return Err(AllocError);
    }
    match parse(alloc, text) {
        Ok(ast) => Ok(ast),
        Err(_) => Err(AllocError),
    }
}

/// A fault of a text's types: its kind, its line and its column.
pub type Misfit = (TypeKind, usize, usize);

/// The first fault of a text's types; none where it is a program.
///
/// # Errors
///
/// As `tree_of`.
pub fn misfit_of(alloc: Global, text: &[u8]) -> Result<Option<Misfit>, AllocError> {
    misfit_in(alloc, &tree_of(alloc, text)?)
}

/// The first fault of a tree's types.
fn misfit_in(alloc: Global, ast: &Ast) -> Result<Option<Misfit>, AllocError> {
    match check(alloc, ast, Digest([7; 32])) {
        Ok(_) => Ok(None),
        Err(TypeFault::At(kind, at)) => Ok(Some((kind, at.line, at.column))),
        Err(TypeFault::NoMemory) => Err(AllocError),
    }
}

/// The program of a text, with a digest of bytes 7 in the place of the text's.
///
/// # Errors
///
/// `AllocError` where memory runs out, or where the text is no program.
pub fn program_of(alloc: Global, text: &[u8]) -> Result<Program, AllocError> {
    match check(alloc, &tree_of(alloc, text)?, Digest([7; 32])) {
        Ok(program) => Ok(program),
        Err(_) => Err(AllocError),
    }
}

/// A text in which a part stands many times, and what closes it as often.
#[derive(Clone, Copy)]
pub struct Repeated {
    pub beginning: &'static [u8],
    pub part: &'static [u8],
    pub count: usize,
    pub middle: &'static [u8],
    pub closing: &'static [u8],
    pub end: &'static [u8],
}

impl Repeated {
    /// The text.
    ///
    /// # Errors
    ///
    /// `AllocError` where memory runs out.
    pub fn text(&self, alloc: Global) -> Result<Vec<u8>, AllocError> {
        let mut text = Vec::from_slice(alloc, self.beginning)?;
        add_often(&mut text, self.part, self.count)?;
        text.extend_from_slice(self.middle)?;
        add_often(&mut text, self.closing, self.count)?;
        text.extend_from_slice(self.end)?;
        Ok(text)
    }

    /// The first fault of the text's syntax; none where the grammar takes it.
    ///
    /// # Errors
    ///
    /// As `fault_of`.
    pub fn fault(&self, alloc: Global) -> Result<Option<Fault>, AllocError> {
        fault_of(alloc, &self.text(alloc)?)
    }

    /// The first fault of the text's types; none where it is a program.
    ///
    /// # Errors
    ///
    /// As `misfit_of`.
    pub fn misfit(&self, alloc: Global) -> Result<Option<Misfit>, AllocError> {
        misfit_of(alloc, &self.text(alloc)?)
    }
}

fn add_often(text: &mut Vec<u8>, part: &[u8], count: usize) -> Result<(), AllocError> {
    for _ in 0..count {
        text.extend_from_slice(part)?;
    }
    Ok(())
}
