// From tokens to the trees of a program.

mod declarations;
mod expressions;
mod types;

ghost use Rattle.std.specs.Prelude.{◌≡◌, ◌≤◌, length, IfOk};
ghost use Rattle.core_terms.specs.declared.format.Format.TheVariants.{First};
ghost use Rattle.lexemes.specs.Tokens.{tokens};
ghost use Rattle.auth_syntax.specs.ProgramTokens.{read_format, told_format};
ghost use Rattle.auth_syntax.specs.Grammar.{IsProgramText};
ghost use Rattle.auth_syntax.specs.Parsing.{read_lower, read_upper, parsed};
ghost use Rattle.auth_syntax.specs.Trees.{name_of, program_of};
ghost use Rattle.auth_syntax.specs.Outcomes.{Parses};
ghost use Rattle.lexemes.specs.Remaining.{Reads, remaining};

use crate::tree::{Ast, PlacedName};
use core_terms::Format;
use lexemes::fault::{SyntaxFault, SyntaxKind};
use lexemes::parser::{Parser, PlacedToken};
use lexemes::token::Token;
use std::alloc::{AllocError, Global};

/// How many types, or expressions, may stand inside one another. Reading a part calls itself once for each level, and lists are read by
/// loops, so this bounds the stack too.
const NESTING_LIMIT: usize = 100;

/// Parses the text of a program, of at most 262,144 bytes.
///
/// # Errors
///
/// `At` with the first token that is faulty or not allowed where it stands, and `NoMemory` where there is no memory for the
/// tokens or the tree.
pub fn parse(alloc: Global, text: &[u8]) -> Result<Ast, SyntaxFault>
    requires { length text.now ≤ 262144 }
    ensures answer { Parses (parsed text.now) result }

    // In the words of the grammar: the tree is that of the text.
    ensures written { IfOk result (λ ast. IsProgramText text.now (program_of ast)) }
{
    let format = told_format(alloc, text)?;
    let mut parser = Parser::new(alloc, format, text);
    let format = declarations::format(&mut parser)?;
    let (declarations, end) = declarations::program(&mut parser)?;
    Ok(Ast {
        format,
        declarations,
        end,
    })
}

/// The format of a program's text, as its head tells it by the tokens of the first format; the first where it tells none.
fn told_format(alloc: Global, text: &[u8]) -> Result<Format, AllocError>
    ensures { IfOk result (λ format. format ≡ told_format (read_format (tokens First text.now))) }
{
    let mut parser = Parser::new(alloc, Format::First, text);
    match declarations::format(&mut parser) {
        Ok(Some(format)) => Ok(format),
        Ok(None) | Err(SyntaxFault::At(..)) => Ok(Format::First),
        Err(SyntaxFault::NoMemory) => Err(AllocError),
    }
}

/// Takes a lower name.
fn lower(parser: &mut Parser<'_>) -> Result<PlacedName, SyntaxFault>
    ensures { Reads name_of (read_lower (remaining parser.old)) result (remaining parser.new) }
{
    let PlacedToken { at, token } = parser.token()?;
    match token {
        Token::Lower(name) => Ok(PlacedName {
            at,
            name: name.to_name(parser.alloc)?,
        }),
        _ => Err(SyntaxFault::At(SyntaxKind::Expected, at)),
    }
}

/// Takes an upper name.
fn upper(parser: &mut Parser<'_>) -> Result<PlacedName, SyntaxFault>
    ensures { Reads name_of (read_upper (remaining parser.old)) result (remaining parser.new) }
{
    let PlacedToken { at, token } = parser.token()?;
    match token {
        Token::Upper(name) => Ok(PlacedName {
            at,
            name: name.to_name(parser.alloc)?,
        }),
        _ => Err(SyntaxFault::At(SyntaxKind::Expected, at)),
    }
}
