// Texts between quotes.

ghost use Rattle.std.specs.Prelude.{◌≡◌, ◌<◌, zero, IfOk, IfSome};
ghost use Rattle.std.specs.Str.{is_utf8};
ghost use Rattle.lexemes.specs.Tokens.{Closed, escape_of, hex_digit, hex_escape, is_control, quoted_behind, text_piece};
ghost use Rattle.lexemes.specs.PieceViews.{piece_view, quoted_view, escaped, character_of};

use crate::fault::LexicalFault;
use crate::lexer::pieces::Piece;
use crate::token::Token;
use core_terms::Text;
use std::alloc::{AllocError, Global};
use std::str;

const TEXT_LIMIT: usize = 65_532;

/// What stands at the head of the bytes behind a text's opening quote.
#[derive(Clone, Copy)]
pub(crate) enum Character {
    /// The closing quote.
    Quote,
    /// A byte that the text stands for, as it is or by an escape of so many bytes.
    Byte(u8, usize),
    /// Neither.
    Fault(LexicalFault),
    /// The end, before the closing quote.
    End,
}

/// What stands behind the opening quote of a text, with places counted from that quote.
#[derive(Drop)]
pub(crate) enum Quoted {
    /// The bytes that the text stands for, and its size with both quotes.
    Closed(Vec<u8>, usize),
    /// The end comes before the closing quote.
    CutOff,
    /// The first fault before either.
    Wrong(LexicalFault, usize),
}

fn hex_digit(byte: u8) -> Option<u8>
    ensures value { result ≡ hex_digit byte }
    ensures small { IfSome result (λ digit. digit < 16) }
{
    match byte {
        b'0'..=b'9' => Some(byte - b'0'),
        b'a'..=b'f' => Some(byte - b'a' + 10),
        b'A'..=b'F' => Some(byte - b'A' + 10),
        _ => None,
    }
}

// The escape `\x` and two digits, of which the first is at most 7.
fn hex_escape(high: u8, low: u8) -> Character
    ensures { result ≡ escaped (hex_escape (hex_digit high) (hex_digit low)) }
{
    match (hex_digit(high), hex_digit(low)) {
        (Some(high), Some(low)) if high < 8 => Character::Byte(high * 16 + low, 4),
        _ => Character::Fault(LexicalFault::BadEscape),
    }
}

// The escape whose backslash stands before these bytes.
fn escape(behind: &[u8]) -> Character
    ensures { result ≡ escaped (escape_of behind.now) }
{
    match behind {
        [b'"', ..] => Character::Byte(b'"', 2),
        [b'\\', ..] => Character::Byte(b'\\', 2),
        [b'n', ..] => Character::Byte(b'\n', 2),
        [b't', ..] => Character::Byte(b'\t', 2),
        [b'x', high, low, ..] => hex_escape(*high, *low),
        _ => Character::Fault(LexicalFault::BadEscape),
    }
}

// A byte that may not stand in a text as it is.
fn is_control(byte: u8) -> bool
    ensures { result ≡ is_control byte }
{
    byte < 0x20 || byte == 0x7f
}

fn first_character(rest: &[u8]) -> Character
    ensures { result ≡ character_of rest.now }
{
    match rest {
        [] => Character::End,
        [b'"', ..] => Character::Quote,
        [b'\\', behind @ ..] => escape(behind),
        [byte, ..] if is_control(*byte) => Character::Fault(LexicalFault::Char),
        [byte, ..] => Character::Byte(*byte, 1),
    }
}

// What stands behind the opening quote of a text. Each byte is looked at once.
fn behind_quote(alloc: Global, text: &[u8]) -> Result<Quoted, AllocError>
    ensures { IfOk result (λ quoted. quoted_view quoted ≡ quoted_behind zero 1 text.now) }
{
    let mut bytes = Vec::new(alloc);
    let mut done = 0;
    loop {
        match first_character(&text[done..]) {
            Character::Quote => return Ok(Quoted::Closed(bytes, done + 2)),
            Character::Byte(byte, size) => {
                bytes.push(byte)?;
                done += size;
            }
            Character::Fault(kind) => return Ok(Quoted::Wrong(kind, done + 1)),
            Character::End => return Ok(Quoted::CutOff),
        }
    }
}

fn is_utf8(bytes: &[u8]) -> bool
    ensures { result ≡ is_utf8 bytes.now }
{
    str::from_utf8(bytes).is_ok()
}

// A closed text of these bytes, of a size.
fn closed_piece<'a>(bytes: Vec<u8>, size: usize) -> Piece<'a>
    ensures { piece_view result ≡ text_piece (Closed bytes.items size) }
{
    if !is_utf8(&bytes) {
        return Piece::Wrong(LexicalFault::Utf8, 0);
    }
    if bytes.len() > TEXT_LIMIT {
        return Piece::Wrong(LexicalFault::TextLong, 0);
    }
    Piece::Taken(Token::Text(Text::new(bytes)), size)
}

/// The text whose opening quote stands before these bytes.
///
/// # Errors
///
/// `AllocError` where there is no memory for the bytes that it stands for.
pub(crate) fn text_piece<'a>(alloc: Global, behind: &[u8]) -> Result<Piece<'a>, AllocError>
    ensures { IfOk result (λ piece. piece_view piece ≡ text_piece (quoted_behind zero 1 behind.now)) }
{
    match behind_quote(alloc, behind)? {
        Quoted::Closed(bytes, size) => Ok(closed_piece(bytes, size)),
        Quoted::CutOff => Ok(Piece::Wrong(LexicalFault::Unclosed, 0)),
        Quoted::Wrong(kind, offset) => Ok(Piece::Wrong(kind, offset)),
    }
}
