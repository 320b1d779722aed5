// How reading a text fails.

use crate::place::Place;
use core_terms::Fault;

/// Why no token stands where one begins.
#[derive(Clone, Copy, Debug, PartialEq, Eq)]
pub enum LexicalFault {
    /// A byte that begins no token, or a raw byte that is not allowed in a text: below 20, or 7f.
    Char,
    /// A backslash that begins no escape of a text.
    BadEscape,
    /// A text that the end of the whole cuts. It stands at its opening quote, as the next two do.
    Unclosed,
    /// A text whose bytes aren't UTF-8.
    Utf8,
    /// A text of more than 65,532 bytes.
    TextLong,
    /// An int that isn't from -2^63 to 2^63 - 1.
    NumberRange,
    /// A name of more than 64 bytes.
    NameLong,
}

/// Why a token of a program's text is refused.
#[derive(Clone, Copy, Debug, PartialEq, Eq)]
pub enum SyntaxKind {
    /// No token stands there.
    Lexical(LexicalFault),
    /// The token is not allowed where it stands, or the text may not end there.
    Expected,
    /// With the token a type or an expression would begin inside 100 others.
    TooNested,
}

/// Why a text gave no tree: the first token that is faulty or not allowed where it stands, or want of memory for the tokens or the tree.
pub type SyntaxFault = Fault<SyntaxKind, Place>;
