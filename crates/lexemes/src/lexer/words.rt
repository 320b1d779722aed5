// Words: keywords and names.

ghost use Rattle.std.specs.Prelude.{◌≡◌, ◌≤◌, length};
ghost use Rattle.std.specs.List.{prefix_len};
ghost use Rattle.lexemes.specs.Tokens.{is_name_byte, keyword_text, keyword_of, keyword_among, common_keywords, array_keywords, operator_text, name_piece, lower_piece, UpperToken};
ghost use Rattle.lexemes.specs.PieceViews.{piece_view};

use crate::fault::LexicalFault;
use crate::lexer::pieces::Piece;
use crate::token::{Keyword, Token};
use core_terms::{Arith, BinaryOperator, Compare, Format, NameRef, TextCompare};

/// How many bytes a text begins with that may stand in a name.
pub(crate) fn word_len(text: &[u8]) -> usize
    ensures { result ≡ prefix_len is_name_byte text.now }
{
    text.iter()
        .take_while(|byte| byte.is_ascii_alphanumeric() || **byte == b'_')
        .count()
}

/// The text of a keyword.
pub fn keyword_text(keyword: Keyword) -> &'static [u8]
    ensures { result.now ≡ keyword_text keyword }
{
    match keyword {
        Keyword::Type => b"type",
        Keyword::State => b"state",
        Keyword::Fun => b"fun",
        Keyword::Init => b"init",
        Keyword::Query => b"query",
        Keyword::Update => b"update",
        Keyword::Let => b"let",
        Keyword::In => b"in",
        Keyword::Match => b"match",
        Keyword::With => b"with",
        Keyword::End => b"end",
        Keyword::If => b"if",
        Keyword::Then => b"then",
        Keyword::Else => b"else",
        Keyword::Auth => b"auth",
        Keyword::Unauth => b"unauth",
        Keyword::Fst => b"fst",
        Keyword::Snd => b"snd",
        Keyword::Unit => b"unit",
        Keyword::Bool => b"bool",
        Keyword::Int => b"int",
        Keyword::Text => b"text",
        Keyword::True => b"true",
        Keyword::False => b"false",
        Keyword::Len => b"len",
        Keyword::Not => b"not",
        Keyword::Vec => b"vec",
        Keyword::VecFill => b"vfill",
        Keyword::VecGet => b"vget",
        Keyword::VecPut => b"vput",
        Keyword::Binary(operator) => operator_text(operator),
    }
}

/// The word of an operator.
fn operator_text(operator: BinaryOperator) -> &'static [u8]
    ensures { result.now ≡ operator_text operator }
{
    match operator {
        BinaryOperator::Arith(Arith::Add) => b"add",
        BinaryOperator::Arith(Arith::Sub) => b"sub",
        BinaryOperator::Arith(Arith::Mul) => b"mul",
        BinaryOperator::Arith(Arith::Div) => b"div",
        BinaryOperator::Arith(Arith::Rem) => b"rem",
        BinaryOperator::Compare(Compare::Eq) => b"eq",
        BinaryOperator::Compare(Compare::Lt) => b"lt",
        BinaryOperator::Compare(Compare::Le) => b"le",
        BinaryOperator::TextCompare(TextCompare::Eq) => b"teq",
        BinaryOperator::TextCompare(TextCompare::Lt) => b"tlt",
        BinaryOperator::Cat => b"cat",
    }
}

// The keyword of both formats that a word is.
fn common_keyword(word: &[u8]) -> Option<Keyword>
    ensures { result ≡ keyword_among common_keywords word.now }
{
    match word {
        b"type" => Some(Keyword::Type),
        b"state" => Some(Keyword::State),
        b"fun" => Some(Keyword::Fun),
        b"init" => Some(Keyword::Init),
        b"query" => Some(Keyword::Query),
        b"update" => Some(Keyword::Update),
        b"let" => Some(Keyword::Let),
        b"in" => Some(Keyword::In),
        b"match" => Some(Keyword::Match),
        b"with" => Some(Keyword::With),
        b"end" => Some(Keyword::End),
        b"if" => Some(Keyword::If),
        b"then" => Some(Keyword::Then),
        b"else" => Some(Keyword::Else),
        b"auth" => Some(Keyword::Auth),
        b"unauth" => Some(Keyword::Unauth),
        b"fst" => Some(Keyword::Fst),
        b"snd" => Some(Keyword::Snd),
        b"unit" => Some(Keyword::Unit),
        b"bool" => Some(Keyword::Bool),
        b"int" => Some(Keyword::Int),
        b"text" => Some(Keyword::Text),
        b"true" => Some(Keyword::True),
        b"false" => Some(Keyword::False),
        b"len" => Some(Keyword::Len),
        b"not" => Some(Keyword::Not),
        b"add" => Some(Keyword::Binary(BinaryOperator::Arith(Arith::Add))),
        b"sub" => Some(Keyword::Binary(BinaryOperator::Arith(Arith::Sub))),
        b"mul" => Some(Keyword::Binary(BinaryOperator::Arith(Arith::Mul))),
        b"div" => Some(Keyword::Binary(BinaryOperator::Arith(Arith::Div))),
        b"rem" => Some(Keyword::Binary(BinaryOperator::Arith(Arith::Rem))),
        b"eq" => Some(Keyword::Binary(BinaryOperator::Compare(Compare::Eq))),
        b"lt" => Some(Keyword::Binary(BinaryOperator::Compare(Compare::Lt))),
        b"le" => Some(Keyword::Binary(BinaryOperator::Compare(Compare::Le))),
        b"teq" => Some(Keyword::Binary(BinaryOperator::TextCompare(TextCompare::Eq))),
        b"tlt" => Some(Keyword::Binary(BinaryOperator::TextCompare(TextCompare::Lt))),
        b"cat" => Some(Keyword::Binary(BinaryOperator::Cat)),
        _ => None,
    }
}

// The keyword of arrays that a word is.
fn array_keyword(format: Format, word: &[u8]) -> Option<Keyword>
    ensures { result ≡ keyword_among (array_keywords format) word.now }
{
    if format == Format::First {
        return None;
    }
    match word {
        b"vec" => Some(Keyword::Vec),
        b"vfill" => Some(Keyword::VecFill),
        b"vget" => Some(Keyword::VecGet),
        b"vput" => Some(Keyword::VecPut),
        _ => None,
    }
}

/// The keyword of a format that a word is, where it is one.
#[tactic(auto, using(crate::proofs::WordLemmas::common_missed))]
pub fn keyword_of(format: Format, word: &[u8]) -> Option<Keyword>
    ensures { result ≡ keyword_of format word.now }
{
    match common_keyword(word) {
        Some(keyword) => Some(keyword),
        None => array_keyword(format, word),
    }
}

/// A word that begins with a small letter: a keyword, or else a lower name.
#[tactic(auto, using(crate::proofs::WordLemmas::name_taken, crate::proofs::WordLemmas::name_long))]
pub(crate) fn lower_piece<'a>(format: Format, word: &'a [u8]) -> Piece<'a>
    requires { 1 ≤ length word.now }
    ensures { piece_view result ≡ lower_piece (keyword_of format word.now) word.now }
{
    if let Some(keyword) = keyword_of(format, word) {
        return Piece::Taken(Token::Keyword(keyword), word.len());
    }
    match NameRef::new(word) {
        Some(name) => Piece::Taken(Token::Lower(name), word.len()),
        None => Piece::Wrong(LexicalFault::NameLong, 0),
    }
}

/// A word that begins with a capital: an upper name.
#[tactic(auto, using(crate::proofs::WordLemmas::name_taken, crate::proofs::WordLemmas::name_long))]
pub(crate) fn upper_piece<'a>(word: &'a [u8]) -> Piece<'a>
    requires { 1 ≤ length word.now }
    ensures { piece_view result ≡ name_piece (UpperToken word.now) word.now }
{
    match NameRef::new(word) {
        Some(name) => Piece::Taken(Token::Upper(name), word.len()),
        None => Piece::Wrong(LexicalFault::NameLong, 0),
    }
}
