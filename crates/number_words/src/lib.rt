//! Numbers as a command line and a script write them.
#![tactic(auto)]

ghost use Rattle.std.specs.Prelude.{◌≡◌};
ghost use Rattle.std.specs.Str.{all_ascii_digits};
ghost use Rattle.number_words.specs.Numbers.{is_number, number_within};

/// The number that a text of 1 to 20 decimal digits tells, where it is at most the greatest.
pub fn read_number(text: &str, most: u64) -> Option<u64>
    ensures { result ≡ number_within most text.now }
{
    if !is_number(text) {
        return None;
    }
    let Ok(number) = text.parse::<u64>() else {
        return None;
    };
    if number <= most { Some(number) } else { None }
}

/// Whether the text has 1 to 20 decimal digits, and nothing else.
fn is_number(text: &str) -> bool
    ensures { result ≡ is_number text.now }
{
    !text.is_empty() && text.len() <= 20 && has_digits_alone(text)
}

/// Whether each byte of the text is a decimal digit.
fn has_digits_alone(text: &str) -> bool
    ensures { result ≡ all_ascii_digits text.now }
{
    text.bytes().all(|byte| byte.is_ascii_digit())
}
