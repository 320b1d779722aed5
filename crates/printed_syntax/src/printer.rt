// Lines of tokens, as they are printed.

ghost use Rattle.std.specs.Prelude.{◌≡◌, [], OnOk};
ghost use Rattle.lexemes.specs.Tokens.{IntToken, KeywordToken, LowerToken, MarkToken, TextToken, UpperToken, keyword_text};
ghost use Rattle.printed_syntax.specs.PrintedPrograms.{mark_text};
ghost use Rattle.printed_syntax.specs.LineViews.{at_line, beside, kind_of_token, kinds_apart, line_of, with_bytes, with_end, with_token};

use crate::printing::leaves::{push_int, push_quoted};
use lexemes::lexer::words::keyword_text;
use lexemes::token::{Keyword, Mark};
use std::alloc::{AllocError, Global};

/// What a token is to those beside it.
#[derive(Clone, Copy)]
enum TokenKind {
    /// A `(`: behind it stands no blank.
    Opening,
    /// A `[`: neither before nor behind it stands a blank.
    Bracket,
    /// One of `)` `,` `;` `:` `]`: before it stands no blank.
    Closing,
    /// A name, or the word of an operation on one operand or two: between it and a `(` stands no blank.
    Applied,
    /// Any other token.
    Other,
}

/// Whether a blank stands between two tokens of a line.
fn are_apart(last: TokenKind, next: TokenKind) -> bool
    ensures { result ≡ kinds_apart last next }
{
    match (last, next) {
        (TokenKind::Opening | TokenKind::Bracket, _)
        | (_, TokenKind::Bracket | TokenKind::Closing)
        | (TokenKind::Applied, TokenKind::Opening) => false,
        _ => true,
    }
}

/// The lines that are printed so far. The last one goes on behind its last token, whose kind is kept; the beginning of a line is as
/// a `(`, since no blank stands behind it either.
#[derive(Drop)]
pub(crate) struct Printer {
    text: Vec<u8>,
    last: TokenKind,
}

impl Printer {
    /// The beginning of a text.
    pub(crate) fn new(alloc: Global) -> Self
        ensures { line_of result ≡ at_line [] }
    {
        Printer {
            text: Vec::new(alloc),
            last: TokenKind::Opening,
        }
    }

    /// The text so far.
    pub(crate) fn into_text(self) -> Vec<u8>
        ensures { result.items ≡ (line_of self).text }
    {
        self.text
    }

    /// Ends the line.
    pub(crate) fn end_line(&mut self) -> Result<(), AllocError>
        ensures { OnOk result (line_of self.new ≡ with_end (line_of self.old)) }
    {
        self.text.push(b'\n')?;
        self.last = TokenKind::Opening;
        Ok(())
    }

    /// Makes ready for a token: adds the blank before it, where one stands.
    fn go_beside(&mut self, next: TokenKind) -> Result<(), AllocError>
        ensures { OnOk result (line_of self.new ≡ beside (line_of self.old) next) }
    {
        let last = self.last;
        self.last = next;
        if are_apart(last, next) {
            self.text.push(b' ')?;
        }
        Ok(())
    }

    /// Adds a token with this text.
    fn token(&mut self, kind: TokenKind, text: &[u8]) -> Result<(), AllocError>
        ensures { OnOk result (line_of self.new ≡ with_bytes (beside (line_of self.old) kind) text.now) }
    {
        self.go_beside(kind)?;
        self.text.extend_from_slice(text)
    }

    /// Adds a mark.
    pub(crate) fn mark(&mut self, mark: Mark) -> Result<(), AllocError>
        ensures { OnOk result (line_of self.new ≡ with_token (line_of self.old) (MarkToken mark)) }
    {
        self.token(mark_kind(mark), mark_text(mark))
    }

    /// Adds a keyword.
    pub(crate) fn word(&mut self, keyword: Keyword) -> Result<(), AllocError>
        ensures { OnOk result (line_of self.new ≡ with_token (line_of self.old) (KeywordToken keyword)) }
    {
        self.token(word_kind(keyword), keyword_text(keyword))
    }

    /// Adds a name.
    pub(crate) fn name(&mut self, name: &[u8]) -> Result<(), AllocError>
        ensures lower { OnOk result (line_of self.new ≡ with_token (line_of self.old) (LowerToken name.now)) }
        ensures upper { OnOk result (line_of self.new ≡ with_token (line_of self.old) (UpperToken name.now)) }
    {
        self.token(TokenKind::Applied, name)
    }

    /// Adds an int.
    pub(crate) fn int(&mut self, number: i64) -> Result<(), AllocError>
        ensures { OnOk result (line_of self.new ≡ with_token (line_of self.old) (IntToken number)) }
    {
        self.go_beside(TokenKind::Other)?;
        push_int(&mut self.text, number)
    }

    /// Adds a text, in quotes.
    pub(crate) fn text(&mut self, content: &[u8]) -> Result<(), AllocError>
        ensures { OnOk result (line_of self.new ≡ with_token (line_of self.old) (TextToken content.now)) }
    {
        self.go_beside(TokenKind::Other)?;
        push_quoted(&mut self.text, content)
    }
}

fn mark_text(mark: Mark) -> &'static [u8]
    ensures { result.now ≡ mark_text mark }
{
    match mark {
        Mark::LeftParenthesis => b"(",
        Mark::RightParenthesis => b")",
        Mark::Comma => b",",
        Mark::Semicolon => b";",
        Mark::Colon => b":",
        Mark::EqualsSign => b"=",
        Mark::Bar => b"|",
        Mark::Arrow => b"->",
        Mark::LeftBracket => b"[",
        Mark::RightBracket => b"]",
    }
}

fn mark_kind(mark: Mark) -> TokenKind
    ensures { result ≡ kind_of_token (MarkToken mark) }
{
    match mark {
        Mark::LeftParenthesis => TokenKind::Opening,
        Mark::LeftBracket => TokenKind::Bracket,
        Mark::RightParenthesis | Mark::Comma | Mark::Semicolon | Mark::Colon | Mark::RightBracket =>
            TokenKind::Closing,
        Mark::EqualsSign | Mark::Bar | Mark::Arrow => TokenKind::Other,
    }
}

fn word_kind(keyword: Keyword) -> TokenKind
    ensures { result ≡ kind_of_token (KeywordToken keyword) }
{
    match keyword {
        Keyword::Auth
        | Keyword::Unauth
        | Keyword::Fst
        | Keyword::Snd
        | Keyword::Len
        | Keyword::Not
        | Keyword::Binary(_) => TokenKind::Applied,
        _ => TokenKind::Other,
    }
}
