// The words of a line, and the numbers among them.
ghost use Rattle.std.specs.Prelude.{◌≡◌, [], ◌∷◌, IfSome, IsNone};
ghost use Rattle.ask_script.specs.Scripts.{session_in, words_of};

use number_words::read_number;

/// A text at its first blank: the word before it, and all that stands behind it; none where no blank stands in the text.
pub fn cut_word(text: &str) -> Option<(&str, &str)>
    ensures cut { IfSome result (λ parts. words_of text.now ≡ parts.0.now ∷ words_of parts.1.now) }
    ensures whole { IsNone result → words_of text.now ≡ text.now ∷ [] }
{
    text.split_once(' ')
}

/// The greatest number of a session.
const MOST_SESSION: u64 = 65_535;

/// The number of a session that a word tells.
pub fn read_session(word: &str) -> Option<u16>
    ensures { result ≡ session_in word.now }
{
    let number = read_number(word, MOST_SESSION)?;
    if number >= 1 {
        Some(number as u16)
    } else {
        None
    }
}
