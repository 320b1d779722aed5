// How reading a literal fails.

use core_terms::Fault;
use lexemes::fault::LexicalFault;

/// Why a token of a literal is refused.
#[derive(Clone, Copy, Debug, PartialEq, Eq)]
pub enum LiteralKind {
    /// No token stands there.
    Lexical(LexicalFault),
    /// No literal of the type has this token there, or the text may not end there, or a token stands behind the whole.
    Mismatch,
    /// A value would begin on level 513.
    TooDeep,
    /// The spelling of the value has more bytes than a spelling may have. It stands at 0.
    TooBig,
}

/// Why a text gave no literal: the first fault, with how many bytes stand before it, or want of memory for a text or for the spelling.
pub type LiteralFault = Fault<LiteralKind, usize>;
