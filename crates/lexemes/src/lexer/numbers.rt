// Ints, as they are written.

ghost use Rattle.std.specs.Prelude.{◌≡◌, ℕ, List, ◌∷◌, ◌+◌, true, false, length};
ghost use Rattle.std.specs.List.{prefix_len};
ghost use Rattle.std.specs.Char.{is_ascii_digit};
ghost use Rattle.lexemes.specs.Tokens.{int_piece};
ghost use Rattle.lexemes.specs.PieceViews.{piece_view, IsDigits, int_among};

use crate::fault::LexicalFault;
use crate::lexer::pieces::Piece;
use crate::token::Token;
use std::str;

/// How many decimal digits a text begins with.
pub(crate) fn digits_len(text: &[u8]) -> usize
    ensures { result ≡ prefix_len is_ascii_digit text.now }
{
    text.iter().take_while(|byte| byte.is_ascii_digit()).count()
}

// The number that decimal digits tell, or a `-` and decimal digits, where it is an int.
fn int_of(text: &[u8]) -> Option<i64>
    ensures plain { IsDigits text.now → result ≡ int_among false text.now }
    ensures minus { (digits : List ℕ) → IsDigits digits → text.now ≡ 45 ∷ digits → result ≡ int_among true digits }
{
    let Ok(text) = str::from_utf8(text) else {
        return None;
    };
    text.parse::<i64>().ok()
}

/// The int that decimal digits are, or a `-` and decimal digits.
pub(crate) fn int_piece<'a>(text: &[u8]) -> Piece<'a>
    ensures plain { IsDigits text.now → piece_view result ≡ int_piece false text.now (length text.now) }
    ensures minus { (digits : List ℕ) → IsDigits digits → text.now ≡ 45 ∷ digits → piece_view result ≡ int_piece true digits (length digits + 1) }
{
    match int_of(text) {
        Some(number) => Piece::Taken(Token::Int(number), text.len()),
        None => Piece::Wrong(LexicalFault::NumberRange, 0),
    }
}
