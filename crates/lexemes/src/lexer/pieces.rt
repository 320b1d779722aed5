// What stands at the head of a text.

ghost use Rattle.std.specs.Prelude.{◌≡◌, ◌∷◌, IfOk, option_map};
ghost use Rattle.std.specs.List.{prefix_len};
ghost use Rattle.lexemes.specs.Tokens.{is_in_line, mark_of, mark_piece, minus_piece, first_piece};
ghost use Rattle.lexemes.specs.PieceViews.{piece_view, head_piece};

use crate::fault::LexicalFault;
use crate::lexer::numbers::{digits_len, int_piece};
use crate::lexer::texts::text_piece;
use crate::lexer::words::{lower_piece, upper_piece, word_len};
use crate::token::{Mark, Token};
use core_terms::Format;
use std::alloc::{AllocError, Global};

/// What stands at the head of a text.
#[derive(Drop)]
pub(crate) enum Piece<'a> {
    /// So many bytes that belong to no token.
    PassedOver(usize),
    /// A token of so many bytes.
    Taken(Token<'a>, usize),
    /// No token: the fault stands so many bytes further on.
    Wrong(LexicalFault, usize),
}

// How many bytes stand before the end of the line.
fn line_len(text: &[u8]) -> usize
    ensures { result ≡ prefix_len is_in_line text.now }
{
    text.iter().take_while(|byte| **byte != b'\n').count()
}

fn mark_of(format: Format, byte: u8) -> Option<Mark>
    ensures { result ≡ mark_of format byte }
{
    match byte {
        b'(' => Some(Mark::LeftParenthesis),
        b')' => Some(Mark::RightParenthesis),
        b',' => Some(Mark::Comma),
        b';' => Some(Mark::Semicolon),
        b':' => Some(Mark::Colon),
        b'=' => Some(Mark::EqualsSign),
        b'|' => Some(Mark::Bar),
        b'[' if format == Format::Second => Some(Mark::LeftBracket),
        b']' if format == Format::Second => Some(Mark::RightBracket),
        _ => None,
    }
}

fn mark_piece<'a>(format: Format, byte: u8) -> Piece<'a>
    ensures { piece_view result ≡ mark_piece (mark_of format byte) }
{
    match mark_of(format, byte) {
        Some(mark) => Piece::Taken(Token::Mark(mark), 1),
        None => Piece::Wrong(LexicalFault::Char, 0),
    }
}

// The piece at the head of a text that begins with a `-`: the mark `->`, or an int.
fn minus_piece<'a>(text: &[u8], behind: &[u8]) -> Piece<'a>
    requires { text.now ≡ 45 ∷ behind.now }
    ensures { piece_view result ≡ minus_piece behind.now }
{
    match behind {
        [b'>', ..] => Piece::Taken(Token::Mark(Mark::Arrow), 2),
        [b'0'..=b'9', ..] => int_piece(&text[..digits_len(behind) + 1]),
        _ => Piece::Wrong(LexicalFault::Char, 0),
    }
}

// The piece at the head of a text that begins with this byte.
#[tactic(auto, using(crate::proofs::WordLemmas::small_word, crate::proofs::WordLemmas::capital_word))]
fn first_piece<'a>(
    alloc: Global,
    format: Format,
    text: &'a [u8],
    first: u8,
    behind: &[u8],
) -> Result<Piece<'a>, AllocError>
    requires { text.now ≡ first ∷ behind.now }
    ensures { IfOk result (λ piece. piece_view piece ≡ first_piece format first behind.now) }
{
    match first {
        b' ' | b'\t' | b'\n' | b'\r' => Ok(Piece::PassedOver(1)),
        b'#' => Ok(Piece::PassedOver(line_len(text))),
        b'a'..=b'z' => Ok(lower_piece(format, &text[..word_len(text)])),
        b'A'..=b'Z' => Ok(upper_piece(&text[..word_len(text)])),
        b'0'..=b'9' => Ok(int_piece(&text[..digits_len(text)])),
        b'-' => Ok(minus_piece(text, behind)),
        b'"' => text_piece(alloc, behind),
        _ => Ok(mark_piece(format, first)),
    }
}

/// The piece at the head of a text; none where the text is empty.
///
/// # Errors
///
/// `AllocError` where there is no memory for the bytes of a text between quotes.
pub(crate) fn head_piece<'a>(
    alloc: Global,
    format: Format,
    text: &'a [u8],
) -> Result<Option<Piece<'a>>, AllocError>
    ensures { IfOk result (λ piece. option_map piece_view piece ≡ head_piece format text.now) }
{
    let Some((first, behind)) = text.split_first() else {
        return Ok(None);
    };
    let piece = first_piece(alloc, format, text, *first, behind)?;
    Ok(Some(piece))
}
