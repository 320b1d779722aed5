// Values without parts, taken from the front of bytes as they are printed.

ghost use Rattle.std.specs.Prelude.{ℤ, ℕ, Bool, List, true, ◌≡◌, ◌<◌, ◌≤◌, ◌^◌, ◌++◌, ◌∷◌, [], codes, length, IfOk, OnOk};
ghost use Rattle.std.specs.Fmt.{signed_decimal};
ghost use Rattle.hex.specs.Hex.{encode_lower};
ghost use Rattle.core_terms.specs.Spelling.{spelling};
ghost use Rattle.core_terms.specs.Values.{BoolV, DigestV, IntV, TextV, int_fits};
ghost use Rattle.printed_syntax.specs.PrintedParts.{IsTaken};
ghost use Rattle.printed_syntax.specs.PrintedValues.{bool_text, escaped, quoted_text};

use std::alloc::AllocError;

/// Adds the text of the bool that the first byte spells, and gives the bytes behind it; all, where it spells none.
pub(crate) fn push_spelled_bool<'a>(
    text: &mut Vec<u8>,
    bytes: &'a [u8],
) -> Result<&'a [u8], AllocError>
    ensures printed { IfOk result (λ left. (b : Bool) → IsTaken (spelling (BoolV b)) (bool_text b) bytes.now text.old.items text.new.items left.now) }
    ensures left { IfOk result (λ left. length left.now ≤ length bytes.now) }
{
    match bytes {
        [0, left @ ..] => {
            text.extend_from_slice(b"false")?;
            Ok(left)
        }
        [1, left @ ..] => {
            text.extend_from_slice(b"true")?;
            Ok(left)
        }
        _ => Ok(bytes),
    }
}

/// Adds the text of the int that the first 8 bytes spell, and gives the bytes behind them; all, where there are fewer.
pub(crate) fn push_spelled_int<'a>(
    text: &mut Vec<u8>,
    bytes: &'a [u8],
) -> Result<&'a [u8], AllocError>
    ensures printed { IfOk result (λ left. (z : ℤ) → int_fits z ≡ true → IsTaken (spelling (IntV z)) (signed_decimal z) bytes.now text.old.items text.new.items left.now) }
    ensures left { IfOk result (λ left. length left.now ≤ length bytes.now) }
{
    let Some((number, left)) = bytes.split_first_chunk::<8>() else {
        return Ok(bytes);
    };
    push_int(text, i64::from_be_bytes(*number))?;
    Ok(left)
}

/// Adds in quotes the text that stands behind the 4 bytes of its length, and gives the bytes behind it; all, where there are fewer.
pub(crate) fn push_spelled_text<'a>(
    text: &mut Vec<u8>,
    bytes: &'a [u8],
) -> Result<&'a [u8], AllocError>
    ensures printed { IfOk result (λ left. (content : List ℕ) → length content < 2 ^ 32 → IsTaken (spelling (TextV content)) (quoted_text content) bytes.now text.old.items text.new.items left.now) }
    ensures left { IfOk result (λ left. length left.now ≤ length bytes.now) }
{
    let Some((length, behind)) = bytes.split_first_chunk::<4>() else {
        return Ok(bytes);
    };
    let Some((content, left)) = behind.split_at_checked(u32::from_be_bytes(*length) as usize) else {
        return Ok(behind);
    };
    push_quoted(text, content)?;
    Ok(left)
}

/// Adds `#` and the 64 hexadecimal digits of the digest that the first 32 bytes are, and gives the bytes behind them; all, where there
/// are fewer.
pub(crate) fn push_spelled_digest<'a>(
    text: &mut Vec<u8>,
    bytes: &'a [u8],
) -> Result<&'a [u8], AllocError>
    ensures printed { IfOk result (λ left. (digest : List ℕ) → length digest ≡ 32 → IsTaken (spelling (DigestV digest)) (codes "#" ++ encode_lower digest) bytes.now text.old.items text.new.items left.now) }
    ensures left { IfOk result (λ left. length left.now ≤ length bytes.now) }
{
    let Some((digest, left)) = bytes.split_first_chunk::<32>() else {
        return Ok(bytes);
    };
    push_digest(text, digest)?;
    Ok(left)
}

/// Adds `#` and the digits of a digest.
fn push_digest(text: &mut Vec<u8>, digest: &[u8; 32]) -> Result<(), AllocError>
    ensures { OnOk result (text.new.items ≡ text.old.items ++ codes "#" ++ encode_lower digest.now) }
{
    let mut digits = [0; 64];
    // There is room for two digits of each byte, so this can't fail.
    let _ = hex::encode_to_slice(digest, &mut digits);
    text.push(b'#')?;
    text.extend_from_slice(&digits)
}

/// Adds an int.
pub(crate) fn push_int(text: &mut Vec<u8>, number: i64) -> Result<(), AllocError>
    ensures { OnOk result (text.new.items ≡ text.old.items ++ signed_decimal number) }
{
    let mut buffer = itoa::Buffer::new();
    text.extend_from_slice(buffer.format(number).as_bytes())
}

/// Adds a text in quotes.
#[tactic(auto, using(crate::proofs::PrintedTexts::all_escaped_more))]
pub(crate) fn push_quoted(text: &mut Vec<u8>, content: &[u8]) -> Result<(), AllocError>
    ensures { OnOk result (text.new.items ≡ text.old.items ++ quoted_text content.now) }
{
    text.push(b'"')?;
    for byte in content {
        push_escaped(text, *byte)?;
    }
    text.push(b'"')?;
    Ok(())
}

/// Adds a byte of a text as it stands between quotes.
fn push_escaped(text: &mut Vec<u8>, byte: u8) -> Result<(), AllocError>
    ensures { OnOk result (text.new.items ≡ text.old.items ++ escaped byte) }
{
    match byte {
        b'"' => text.extend_from_slice(b"\\\""),
        b'\\' => text.extend_from_slice(b"\\\\"),
        b'\n' => text.extend_from_slice(b"\\n"),
        b'\t' => text.extend_from_slice(b"\\t"),
        0..=0x1f | 0x7f => push_hexadecimal(text, byte),
        _ => {
            text.push(byte)?;
            Ok(())
        }
    }
}

/// Adds a byte as an escape with its two hexadecimal digits.
fn push_hexadecimal(text: &mut Vec<u8>, byte: u8) -> Result<(), AllocError>
    ensures { OnOk result (text.new.items ≡ text.old.items ++ codes "\\x" ++ encode_lower (byte ∷ [])) }
{
    let mut escape = *b"\\x00";
    // Two digits have room behind the `x`, so this can't fail.
    let _ = hex::encode_to_slice(&[byte], &mut escape[2..]);
    text.extend_from_slice(&escape)
}
