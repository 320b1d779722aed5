// The tokens that a text consists of.

use core_terms::{BinaryOperator, NameRef, Text};

/// A word that the grammar gives a meaning.
#[derive(Clone, Copy)]
pub enum Keyword {
    Type,
    State,
    Fun,
    Init,
    Query,
    Update,
    Let,
    In,
    Match,
    With,
    End,
    If,
    Then,
    Else,
    Auth,
    Unauth,
    Fst,
    Snd,
    Unit,
    Bool,
    Int,
    Text,
    True,
    False,
    Len,
    Not,
    /// `vec`, `vfill`, `vget` and `vput` are words of the second format alone.
    Vec,
    VecFill,
    VecGet,
    VecPut,
    /// The word of an operator.
    Binary(BinaryOperator),
}

/// A mark: one of `( ) , ; : = | ->`, and in the second format `[ ]`.
#[derive(Clone, Copy, PartialEq, Eq)]
pub enum Mark {
    LeftParenthesis,
    RightParenthesis,
    Comma,
    Semicolon,
    Colon,
    EqualsSign,
    Bar,
    Arrow,
    LeftBracket,
    RightBracket,
}

/// A token; a name is lent from the text, a text literal has the bytes that it stands for.
#[derive(Drop)]
pub enum Token<'a> {
    Keyword(Keyword),
    Mark(Mark),
    /// A name that begins with a small letter and is no keyword.
    Lower(NameRef<'a>),
    /// A name that begins with a capital.
    Upper(NameRef<'a>),
    Int(i64),
    Text(Text),
}
