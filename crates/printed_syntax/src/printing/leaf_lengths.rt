// How long values without parts are as they are printed, where they stand spelled at the front of bytes.

ghost use Rattle.std.specs.Prelude.{ℤ, ℕ, Bool, List, true, ◌≡◌, ◌<◌, ◌≤◌, ◌^◌, ◌++◌, codes, length};
ghost use Rattle.std.specs.Fmt.{signed_decimal};
ghost use Rattle.hex.specs.Hex.{encode_lower};
ghost use Rattle.core_terms.specs.Spelling.{spelling};
ghost use Rattle.core_terms.specs.Values.{BoolV, DigestV, IntV, TextV, int_fits};
ghost use Rattle.printed_syntax.specs.PrintedLengths.{IsMeasured, counted};
ghost use Rattle.printed_syntax.specs.PrintedValues.{bool_text, escaped, quoted_text};

use crate::printing::counts::Counted;

/// Counts the bool that the first byte spells; nothing, where it spells none.
pub(crate) fn bool_length(bytes: &[u8]) -> Counted<'_>
    ensures counted { (b : Bool) → IsMeasured (spelling (BoolV b)) (bool_text b) bytes.now result.length result.left.now }
    ensures left { length result.left.now ≤ length bytes.now }
{
    match bytes {
        [0, left @ ..] => Counted { length: 5, left },
        [1, left @ ..] => Counted { length: 4, left },
        _ => Counted {
            length: 0,
            left: bytes,
        },
    }
}

/// Counts the int that the first 8 bytes spell; nothing, where there are fewer.
pub(crate) fn int_length(bytes: &[u8]) -> Counted<'_>
    ensures counted { (z : ℤ) → int_fits z ≡ true → IsMeasured (spelling (IntV z)) (signed_decimal z) bytes.now result.length result.left.now }
    ensures left { length result.left.now ≤ length bytes.now }
{
    let Some((number, left)) = bytes.split_first_chunk::<8>() else {
        return Counted {
            length: 0,
            left: bytes,
        };
    };
    Counted {
        length: decimal_length(i64::from_be_bytes(*number)),
        left,
    }
}

/// The number of bytes of an int in decimal.
fn decimal_length(number: i64) -> usize
    ensures { result ≡ counted (length (signed_decimal number)) }
{
    let mut buffer = itoa::Buffer::new();
    buffer.format(number).len()
}

/// Counts the text that stands behind the 4 bytes of its length, in quotes; nothing, where there are fewer bytes.
pub(crate) fn text_length(bytes: &[u8]) -> Counted<'_>
    ensures counted { (content : List ℕ) → length content < 2 ^ 32 → IsMeasured (spelling (TextV content)) (quoted_text content) bytes.now result.length result.left.now }
    ensures left { length result.left.now ≤ length bytes.now }
{
    let Some((length, behind)) = bytes.split_first_chunk::<4>() else {
        return Counted {
            length: 0,
            left: bytes,
        };
    };
    let Some((content, left)) = behind.split_at_checked(u32::from_be_bytes(*length) as usize) else {
        return Counted {
            length: 0,
            left: behind,
        };
    };
    Counted {
        length: quoted_length(content),
        left,
    }
}

/// The number of bytes of a text in quotes.
fn quoted_length(content: &[u8]) -> usize
    ensures { result ≡ counted (length (quoted_text content.now)) }
{
    let mut length: usize = 2;
    for byte in content {
        length = length.saturating_add(escaped_length(*byte));
    }
    length
}

/// The number of bytes of a byte of a text as it stands between quotes.
#[tactic(auto, using(crate::proofs::PrintedTexts::two_digits))]
fn escaped_length(byte: u8) -> usize
    ensures { result ≡ length (escaped byte) }
{
    match byte {
        b'"' | b'\\' | b'\n' | b'\t' => 2,
        0..=0x1f | 0x7f => 4,
        _ => 1,
    }
}

/// Counts the digest that the first 32 bytes are, as `#` and 64 hexadecimal digits; nothing, where there are fewer.
pub(crate) fn digest_length(bytes: &[u8]) -> Counted<'_>
    ensures counted { (digest : List ℕ) → length digest ≡ 32 → IsMeasured (spelling (DigestV digest)) (codes "#" ++ encode_lower digest) bytes.now result.length result.left.now }
    ensures left { length result.left.now ≤ length bytes.now }
{
    let Some((_digest, left)) = bytes.split_first_chunk::<32>() else {
        return Counted {
            length: 0,
            left: bytes,
        };
    };
    Counted { length: 65, left }
}
