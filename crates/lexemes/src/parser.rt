// What is read of a text, token by token, by those who parse programs and literals.

ghost use Rattle.std.specs.Prelude.{IfOk};
ghost use Rattle.lexemes.specs.Readings.{read_keyword, read_mark, read_separator};
ghost use Rattle.lexemes.specs.TokenViews.{IsHead};
ghost use Rattle.lexemes.specs.Tokens.{tokens};
ghost use Rattle.lexemes.specs.Remaining.{Reads};

use crate::fault::{SyntaxFault, SyntaxKind};
use crate::lexer::words::keyword_text;
use crate::lexer::{Lexeme, Lexer};
use crate::place::Place;
use crate::token::{Keyword, Mark, Token};
use core_terms::Format;
use std::alloc::{AllocError, Global};

/// A token where it stands.
#[derive(Drop)]
pub struct PlacedToken<'a> {
    pub at: Place,
    pub token: Token<'a>,
}

/// A text that is parsed: the lexer has what is left of it.
#[derive(Drop)]
pub struct Parser<'a> {
    pub alloc: Global,
    lexer: Lexer<'a>,
}

impl<'a> Parser<'a> {
    ghost use Rattle.std.specs.Prelude.{◌≡◌};
    ghost use Rattle.lexemes.specs.Remaining.{remaining, TakesToken};
    ghost use Rattle.lexemes.specs.Readings.{read_end, read_if_lower, read_if_mark};

    /// The parser before a text of a format.
    pub fn new(alloc: Global, format: Format, text: &'a [u8]) -> Self
        ensures { remaining result ≡ tokens format text.now }
    {
        Parser {
            alloc,
            lexer: Lexer::new(format, text),
        }
    }

    /// Takes what stands at the head: a token is taken, the end and a fault stay.
    ///
    /// # Errors
    ///
    /// `AllocError` where there is no memory for the bytes of a text between quotes.
    pub fn next(&mut self) -> Result<Lexeme<'a>, AllocError>
        ensures { IfOk result (λ lexeme. IsHead (remaining self.old) lexeme (remaining self.new)) }
    {
        self.lexer.next(self.alloc)
    }

    /// Takes the next token. Where none stands, the end or a lexical fault, that is the fault.
    pub fn token(&mut self) -> Result<PlacedToken<'a>, SyntaxFault>
        ensures { TakesToken (remaining self.old) result (remaining self.new) }
    {
        match self.next()? {
            Lexeme::Token(at, token) => Ok(PlacedToken { at, token }),
            Lexeme::End(at) => Err(SyntaxFault::At(SyntaxKind::Expected, at)),
            Lexeme::Fault(at, kind) => Err(SyntaxFault::At(SyntaxKind::Lexical(kind), at)),
        }
    }

    /// Takes this mark.
    pub fn mark(&mut self, wanted: Mark) -> Result<(), SyntaxFault>
        ensures { Reads (λ _. tt) (read_mark wanted (remaining self.old)) result (remaining self.new) }
    {
        let PlacedToken { at, token } = self.token()?;
        match token {
            Token::Mark(found) if found == wanted => Ok(()),
            _ => Err(SyntaxFault::At(SyntaxKind::Expected, at)),
        }
    }

    /// Takes this mark where it stands at the head, and tells whether it does.
    pub fn if_mark(&mut self, wanted: Mark) -> Result<bool, SyntaxFault>
        ensures { Reads (λ stands. stands) (read_if_mark wanted (remaining self.old)) result (remaining self.new) }
    {
        let mut ahead = self.lexer;
        match ahead.next(self.alloc)? {
            Lexeme::Token(_, Token::Mark(found)) if found == wanted => {
                self.lexer = ahead;
                Ok(true)
            }
            _ => Ok(false),
        }
    }

    /// Takes this lower name where it stands at the head, and tells whether it does.
    pub fn if_lower(&mut self, wanted: &[u8]) -> Result<bool, SyntaxFault>
        ensures { Reads (λ stands. stands) (read_if_lower wanted.now (remaining self.old)) result (remaining self.new) }
    {
        let mut ahead = self.lexer;
        match ahead.next(self.alloc)? {
            Lexeme::Token(_, Token::Lower(found)) if found.as_bytes() == wanted => {
                self.lexer = ahead;
                Ok(true)
            }
            _ => Ok(false),
        }
    }

    /// Takes this keyword.
    pub fn keyword(&mut self, wanted: Keyword) -> Result<(), SyntaxFault>
        ensures { Reads (λ _. tt) (read_keyword wanted (remaining self.old)) result (remaining self.new) }
    {
        let PlacedToken { at, token } = self.token()?;
        match token {
            Token::Keyword(found) if keyword_text(wanted) == keyword_text(found) => Ok(()),
            _ => Err(SyntaxFault::At(SyntaxKind::Expected, at)),
        }
    }

    /// Finds that nothing but the end of the text is left.
    pub fn end(&mut self) -> Result<(), SyntaxFault>
        ensures { Reads (λ _. tt) (read_end (remaining self.old)) result (remaining self.new) }
    {
        match self.next()? {
            Lexeme::Token(at, _) => Err(SyntaxFault::At(SyntaxKind::Expected, at)),
            Lexeme::End(_) => Ok(()),
            Lexeme::Fault(at, kind) => Err(SyntaxFault::At(SyntaxKind::Lexical(kind), at)),
        }
    }

    /// Whether another one follows in a list: behind a comma it does, behind the parenthesis that ends the list it does not.
    pub fn separator(&mut self) -> Result<bool, SyntaxFault>
        ensures { Reads (λ follows. follows) (read_separator (remaining self.old)) result (remaining self.new) }
    {
        let PlacedToken { at, token } = self.token()?;
        match token {
            Token::Mark(Mark::Comma) => Ok(true),
            Token::Mark(Mark::RightParenthesis) => Ok(false),
            _ => Err(SyntaxFault::At(SyntaxKind::Expected, at)),
        }
    }
}
