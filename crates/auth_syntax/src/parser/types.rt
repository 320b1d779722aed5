// Types, as they are written.

ghost use Rattle.std.specs.Prelude.{◌≡◌, true, IsTrue};
ghost use Rattle.lexemes.specs.Tokens.{Tokens, count};
ghost use Rattle.lexemes.specs.declared.place.Place.{Place};
ghost use Rattle.auth_syntax.specs.Parts.{length_reading};
ghost use Rattle.auth_syntax.specs.Parsing.{as_length, begins_type, type_from, read_array_type, read_auth_type, read_int_length, read_length, read_list, read_optional_list, read_pair_type, read_type, read_whole_type};
ghost use Rattle.lexemes.specs.Remaining.{remaining};
ghost use Rattle.lexemes.specs.TokenViews.{token_view};
ghost use Rattle.auth_syntax.specs.Trees.{boxed_type_of, type_of, types_of};
ghost use Rattle.lexemes.specs.Remaining.{Reads};

use crate::parser::NESTING_LIMIT;
use crate::tree::TypeTree;
use lexemes::fault::{LexicalFault, SyntaxFault, SyntaxKind};
use lexemes::parser::{Parser, PlacedToken};
use lexemes::place::Place;
use lexemes::token::{Keyword, Mark, Token};

/// A type that stands in no other.
pub(crate) fn whole_type(parser: &mut Parser<'_>) -> Result<TypeTree, SyntaxFault>
    ensures { Reads type_of (read_whole_type (remaining parser.old)) result (remaining parser.new) }
{
    written_type(parser, NESTING_LIMIT)
}

/// A type, of at most so many levels.
#[cycle(types)]
fn written_type(parser: &mut Parser<'_>, levels: usize) -> Result<TypeTree, SyntaxFault>
    ensures { Reads type_of (read_type levels (remaining parser.old)) result (remaining parser.new) }
{
    let PlacedToken { at, token } = parser.token()?;
    if !begins_type(&token) {
        return Err(SyntaxFault::At(SyntaxKind::Expected, at));
    }
    if levels == 0 {
        return Err(SyntaxFault::At(SyntaxKind::TooNested, at));
    }
    type_from(parser, at, token, levels - 1)
}

/// The type that a token begins, whose parts have at most so many levels.
#[cycle(types)]
fn type_from(
    parser: &mut Parser<'_>,
    at: Place,
    token: Token<'_>,
    levels: usize,
) -> Result<TypeTree, SyntaxFault>
    ensures { Reads type_of (type_from (read_type levels) at (token_view token.entry) (remaining parser.old)) result (remaining parser.new) }
{
    match token {
        Token::Keyword(Keyword::Unit) => Ok(TypeTree::UnitType(at)),
        Token::Keyword(Keyword::Bool) => Ok(TypeTree::BoolType(at)),
        Token::Keyword(Keyword::Int) => Ok(TypeTree::IntType(at)),
        Token::Keyword(Keyword::Text) => Ok(TypeTree::TextType(at)),
        Token::Lower(name) => Ok(TypeTree::NamedType(at, name.to_name(parser.alloc)?)),
        Token::Keyword(Keyword::Auth) => auth_type(parser, at, levels),
        Token::Mark(Mark::LeftParenthesis) => pair_type(parser, at, levels),
        Token::Keyword(Keyword::Vec) => array_type(parser, at, levels),
        _ => Err(SyntaxFault::At(SyntaxKind::Expected, at)),
    }
}

/// A type on the heap, of at most so many levels.
#[cycle(types)]
fn boxed_type(parser: &mut Parser<'_>, levels: usize) -> Result<Box<TypeTree>, SyntaxFault>
    ensures { Reads boxed_type_of (read_type levels (remaining parser.old)) result (remaining parser.new) }
{
    let written = written_type(parser, levels)?;
    Ok(Box::new(parser.alloc, written)?)
}

/// Behind `auth`: the type of what is authenticated.
#[cycle(types)]
fn auth_type(parser: &mut Parser<'_>, at: Place, levels: usize) -> Result<TypeTree, SyntaxFault>
    ensures { Reads type_of (read_auth_type (read_type levels) at (remaining parser.old)) result (remaining parser.new) }
{
    let inner = boxed_type(parser, levels)?;
    Ok(TypeTree::AuthType(at, inner))
}

/// Behind a parenthesis: two types, and the parenthesis that ends them.
#[cycle(types)]
fn pair_type(parser: &mut Parser<'_>, at: Place, levels: usize) -> Result<TypeTree, SyntaxFault>
    ensures { Reads type_of (read_pair_type (read_type levels) at (remaining parser.old)) result (remaining parser.new) }
{
    let first = boxed_type(parser, levels)?;
    parser.mark(Mark::Comma)?;
    let second = boxed_type(parser, levels)?;
    parser.mark(Mark::RightParenthesis)?;
    Ok(TypeTree::PairType(at, first, second))
}

/// Behind `vec`: a length in brackets, and the type of the elements.
#[cycle(types)]
fn array_type(parser: &mut Parser<'_>, at: Place, levels: usize) -> Result<TypeTree, SyntaxFault>
    ensures { Reads type_of (read_array_type (read_type levels) at (remaining parser.old)) result (remaining parser.new) }
{
    let length = array_length(parser)?;
    let item = boxed_type(parser, levels)?;
    Ok(TypeTree::VecType(at, length, item))
}

/// The length of an array, an int from 1 to 64, in brackets.
pub(crate) fn array_length(parser: &mut Parser<'_>) -> Result<u8, SyntaxFault>
    ensures { Reads (λ length. length) (read_length (remaining parser.old)) result (remaining parser.new) }
{
    parser.mark(Mark::LeftBracket)?;
    let length = int_length(parser)?;
    parser.mark(Mark::RightBracket)?;
    Ok(length)
}

/// The same without the brackets. Another int is out of range.
fn int_length(parser: &mut Parser<'_>) -> Result<u8, SyntaxFault>
    ensures { Reads (λ length. length) (read_int_length (remaining parser.old)) result (remaining parser.new) }
{
    let PlacedToken { at, token } = parser.token()?;
    match token {
        Token::Int(value) => match length_of(value) {
            Some(length) => Ok(length),
            None => {
                let kind = SyntaxKind::Lexical(LexicalFault::NumberRange);
                Err(SyntaxFault::At(kind, at))
            }
        },
        _ => Err(SyntaxFault::At(SyntaxKind::Expected, at)),
    }
}

/// The length of an array that an int is.
fn length_of(value: i64) -> Option<u8>
    ensures { (at : Place) (rest : Tokens) → as_length value at rest ≡ length_reading result at rest }
{
    match value {
        1..=64 => Some(value as u8),
        _ => None,
    }
}

/// Whether a token begins a type.
fn begins_type(token: &Token<'_>) -> bool
    ensures { result ≡ begins_type (token_view token.now) }
{
    matches!(
        token,
        Token::Keyword(
            Keyword::Unit
                | Keyword::Bool
                | Keyword::Int
                | Keyword::Text
                | Keyword::Auth
                | Keyword::Vec
        ) | Token::Lower(_)
            | Token::Mark(Mark::LeftParenthesis)
    )
}

/// The types of a constructor's fields: none where no parenthesis stands.
pub(crate) fn field_types(parser: &mut Parser<'_>) -> Result<Vec<TypeTree>, SyntaxFault>
    ensures { Reads types_of (read_optional_list (read_whole_type) (remaining parser.old)) result (remaining parser.new) }
{
    if !parser.if_mark(Mark::LeftParenthesis)? {
        return Ok(Vec::new(parser.alloc));
    }
    type_list(parser)
}

/// At least one type, and the parenthesis that ends them.
fn type_list(parser: &mut Parser<'_>) -> Result<Vec<TypeTree>, SyntaxFault>
    ensures { Reads types_of (read_list (read_whole_type) (count (remaining parser.old)) (remaining parser.old)) result (remaining parser.new) }
{
    let mut types = Vec::new(parser.alloc);
    'each: loop {
        types.push(whole_type(parser)?)?;
        if !parser.separator()? {
            return Ok(types);
        }
    }
}
