//! The programs that the library's texts are read to: those that the laws of `ads_library` speak of.
#![tactic(auto)]

ghost use Rattle.std.specs.Prelude.{◌≡◌, ◌≤◌, length, Some, IfOk};
ghost use Rattle.core_terms.specs.Limits.{most_program_bytes};
ghost use Rattle.core_terms.specs.Programs.{meaning};
ghost use Rattle.ideal_meaning.specs.Library as library;
ghost use Rattle.ads_library.specs.RedBlackProgram as red_black;
ghost use Rattle.ads_library.specs.SkipListProgram as skip_list;
ghost use Rattle.library_programs.specs.Readings.{program_read};

use ads_library::texts::{BST, MERKLE, REDBLACK, SKIPLIST};
use auth_syntax::parser::parse;
use auth_types::check::check;
use core_terms::{Digest, Program};
use std::alloc::{AllocError, Global};

pub mod laws;

/// The program of a text, with a digest of zero bytes in the place of the text's.
///
/// # Errors
///
/// `AllocError` where memory runs out, or where the text is no program.
fn read(alloc: Global, text: &[u8]) -> Result<Program, AllocError>
    requires { length text.now ≤ most_program_bytes }
    ensures { IfOk result (λ p. program_read text.now ≡ Some (meaning p)) }
{
    match parse(alloc, text) {
        Ok(ast) => match check(alloc, &ast, Digest([0; 32])) {
            Ok(program) => Ok(program),
            Err(_) => Err(AllocError),
        },
        Err(_) => Err(AllocError),
    }
}

/// The program that the text of `bst` is read to.
///
/// # Errors
///
/// `AllocError` where memory runs out.
pub fn bst(alloc: Global) -> Result<Program, AllocError>
    ensures { IfOk result (λ p. meaning p ≡ library.bst) }
{
    read(alloc, BST)
}

/// The program that the text of `merkle` is read to.
///
/// # Errors
///
/// `AllocError` where memory runs out.
pub fn merkle(alloc: Global) -> Result<Program, AllocError>
    ensures { IfOk result (λ p. meaning p ≡ library.merkle) }
{
    read(alloc, MERKLE)
}

/// The program that the text of `redblack` is read to.
///
/// # Errors
///
/// `AllocError` where memory runs out.
pub fn redblack(alloc: Global) -> Result<Program, AllocError>
    ensures { IfOk result (λ p. meaning p ≡ red_black.redblack) }
{
    read(alloc, REDBLACK)
}

/// The program that the text of `skiplist` is read to.
///
/// # Errors
///
/// `AllocError` where memory runs out.
pub fn skiplist(alloc: Global) -> Result<Program, AllocError>
    ensures { IfOk result (λ p. meaning p ≡ skip_list.skiplist) }
{
    read(alloc, SKIPLIST)
}
