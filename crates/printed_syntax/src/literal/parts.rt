// What literals of all types are read with: the spelling of what is read is added behind the bytes so far.
ghost use Rattle.std.specs.Prelude.{◌≡◌, ◌<◌, ◌^◌, ◌++◌, length, OnOk};
ghost use Rattle.std.specs.Int.{w32, to_be_bytes};
ghost use Rattle.core_terms.specs.Spelling.{spelling};
ghost use Rattle.core_terms.specs.Values.{UnitV};
ghost use Rattle.printed_syntax.specs.Literals.{behind_mark, bool_literal, int_literal, mismatch, text_literal, too_deep, unit_literal};
ghost use Rattle.printed_syntax.specs.LiteralSteps.{IsWithinLimit, ReadsPart, behind_comma, spelled, told_of_literal};
ghost use Rattle.lexemes.specs.Remaining.{remaining};

use crate::fault::{LiteralFault, LiteralKind};
use core_terms::Spelling;
use lexemes::fault::{SyntaxFault, SyntaxKind};
use lexemes::parser::{Parser, PlacedToken};
use lexemes::token::{Keyword, Mark, Token};
use std::alloc::AllocError;

/// A literal's fault is that of the parser, told by the offset alone.
pub(super) fn told(fault: SyntaxFault) -> LiteralFault
    ensures { result ≡ told_of_literal fault }
{
    match fault {
        SyntaxFault::At(SyntaxKind::Lexical(kind), at) => {
            LiteralFault::At(LiteralKind::Lexical(kind), at.offset)
        }
        SyntaxFault::At(SyntaxKind::Expected, at) => {
            LiteralFault::At(LiteralKind::Mismatch, at.offset)
        }
        SyntaxFault::At(SyntaxKind::TooNested, at) => {
            LiteralFault::At(LiteralKind::TooDeep, at.offset)
        }
        SyntaxFault::NoMemory => LiteralFault::NoMemory,
    }
}

/// Takes this mark.
pub(super) fn mark(parser: &mut Parser<'_>, wanted: Mark) -> Result<(), SyntaxFault>
    ensures { ReadsPart (λ _. tt) (behind_mark wanted (remaining parser.old)) result (remaining parser.new) }
{
    parser.mark(wanted)
}

/// Takes what stands before a value with a number in a row: a comma, where it isn't the first.
pub(super) fn comma(parser: &mut Parser<'_>, index: u8) -> Result<(), SyntaxFault>
    ensures { ReadsPart (λ _. tt) (behind_comma index (remaining parser.old)) result (remaining parser.new) }
{
    if index == 0 {
        return Ok(());
    }
    mark(parser, Mark::Comma)
}

/// A unit, which is spelled by nothing.
pub(super) fn unit(parser: &mut Parser<'_>) -> Result<(), SyntaxFault>
    ensures { ReadsPart (λ _. UnitV) (unit_literal (remaining parser.old)) result (remaining parser.new) }
{
    mark(parser, Mark::LeftParenthesis)?;
    mark(parser, Mark::RightParenthesis)
}

pub(super) fn bool(parser: &mut Parser<'_>, bytes: &mut Vec<u8>) -> Result<(), SyntaxFault>
    ensures { ReadsPart (λ _. bytes.new.items) (spelled spelling bytes.old.items (bool_literal (remaining parser.old))) result (remaining parser.new) }
{
    let PlacedToken { at, token } = parser.token()?;
    match token {
        Token::Keyword(Keyword::True) => Ok(bytes.push(1)?),
        Token::Keyword(Keyword::False) => Ok(bytes.push(0)?),
        _ => Err(SyntaxFault::At(SyntaxKind::Expected, at)),
    }
}

pub(super) fn int(parser: &mut Parser<'_>, bytes: &mut Vec<u8>) -> Result<(), SyntaxFault>
    ensures { ReadsPart (λ _. bytes.new.items) (spelled spelling bytes.old.items (int_literal (remaining parser.old))) result (remaining parser.new) }
{
    let PlacedToken { at, token } = parser.token()?;
    match token {
        Token::Int(value) => { Ok(bytes.extend_from_slice(&value.cast_unsigned().to_be_bytes())?) }
        _ => Err(SyntaxFault::At(SyntaxKind::Expected, at)),
    }
}

pub(super) fn text(parser: &mut Parser<'_>, bytes: &mut Vec<u8>) -> Result<(), SyntaxFault>
    ensures { ReadsPart (λ _. bytes.new.items) (spelled spelling bytes.old.items (text_literal (remaining parser.old))) result (remaining parser.new) }
{
    let PlacedToken { at, token } = parser.token()?;
    match token {
        Token::Text(text) => Ok(push_text(bytes, text.as_bytes())?),
        _ => Err(SyntaxFault::At(SyntaxKind::Expected, at)),
    }
}

/// Adds a text behind its length.
fn push_text(bytes: &mut Vec<u8>, text: &[u8]) -> Result<(), AllocError>
    requires { length text.now < 2 ^ 32 }
    ensures { OnOk result (bytes.new.items ≡ bytes.old.items ++ to_be_bytes w32 (length text.now) ++ text.now) }
{
    bytes.extend_from_slice(&(text.len() as u32).to_be_bytes())?;
    bytes.extend_from_slice(text)
}

/// Refuses what stands at the head: no literal begins there.
pub(super) fn no_value(parser: &mut Parser<'_>) -> Result<(), SyntaxFault>
    ensures { ReadsPart (λ _. UnitV) (mismatch (remaining parser.old)) result (remaining parser.new) }
{
    let PlacedToken { at, .. } = parser.token()?;
    Err(SyntaxFault::At(SyntaxKind::Expected, at))
}

/// Refuses what stands at the head: a value would begin there on a level too many.
pub(super) fn no_level(parser: &mut Parser<'_>) -> Result<(), SyntaxFault>
    ensures { ReadsPart (λ _. UnitV) (too_deep (remaining parser.old)) result (remaining parser.new) }
{
    let PlacedToken { at, .. } = parser.token()?;
    Err(SyntaxFault::At(SyntaxKind::TooNested, at))
}

/// The spelling of these bytes, where there are no more of them than the limit.
pub(super) fn within(bytes: Vec<u8>, limit: usize) -> Result<Spelling, LiteralFault>
    ensures { IsWithinLimit limit bytes.items result }
{
    if bytes.len() > limit {
        return Err(LiteralFault::At(LiteralKind::TooBig, 0));
    }
    Ok(Spelling::new(bytes))
}
