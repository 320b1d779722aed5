// From the bytes of a text to its tokens.

mod numbers;
mod pieces;
mod texts;
pub mod words;

ghost use Rattle.std.specs.Prelude.{◌≡◌, ◌≤◌, IfOk, length, take, drop};
ghost use Rattle.lexemes.specs.Places.{behind, HasRoom};
ghost use Rattle.lexemes.specs.Tokens.{tokens};

use crate::fault::LexicalFault;
use crate::lexer::pieces::{Piece, head_piece};
use crate::place::Place;
use crate::token::Token;
use core_terms::Format;
use std::alloc::{AllocError, Global};

/// What stands at the head of a text: a token, its end or its first lexical fault, with the place.
#[derive(Drop)]
pub enum Lexeme<'a> {
    Token(Place, Token<'a>),
    End(Place),
    Fault(Place, LexicalFault),
}

/// A text that is read token by token, as its format has them: what is left of it, and the place of that. A copy reads ahead.
#[derive(Clone, Copy)]
pub struct Lexer<'a> {
    format: Format,
    rest: &'a [u8],
    at: Place,
    ghost counted: { HasRoom at (length rest.now) },
}

impl<'a> Lexer<'a> {
    ghost use Rattle.lexemes.specs.TokenViews.{IsHead, tokens_left};

    /// The lexer before a text.
    pub fn new(format: Format, text: &'a [u8]) -> Self
        ensures { tokens_left result ≡ tokens format text.now }
    {
        Lexer {
            format,
            rest: text,
            at: Place::START,
        }
    }

    // Passes over so many bytes.
    fn pass(&mut self, size: usize)
        requires { size ≤ length self.old.rest.now }
        ensures format { self.new.format ≡ self.old.format }
        ensures rest { self.new.rest.now ≡ drop size self.old.rest.now }
        ensures at { self.new.at ≡ behind self.old.at (take size self.old.rest.now) }
    {
        self.at = self.at.behind(&self.rest[..size]);
        self.rest = &self.rest[size..];
    }

    /// Takes what stands at the head: a token is taken, the end and a fault stay. A text literal wants memory for its bytes.
    pub fn next(&mut self, alloc: Global) -> Result<Lexeme<'a>, AllocError>
        ensures { IfOk result (λ lexeme. IsHead (tokens_left self.old) lexeme (tokens_left self.new)) }
    {
        while let Some(piece) = head_piece(alloc, self.format, self.rest)? {
            match piece {
                Piece::PassedOver(size) => self.pass(size),
                Piece::Taken(token, size) => {
                    let at = self.at;
                    self.pass(size);
                    return Ok(Lexeme::Token(at, token));
                }
                Piece::Wrong(kind, offset) => {
                    let at = self.at.behind(&self.rest[..offset]);
                    return Ok(Lexeme::Fault(at, kind));
                }
            }
        }
        Ok(Lexeme::End(self.at))
    }
}
