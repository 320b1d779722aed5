// Operations on texts.
ghost use Rattle.std.specs.Prelude.{◌≡◌, ◌++◌, ℕ, List, pos, length};
ghost use Rattle.core_terms.specs.Programs.{meaning};
ghost use Rattle.core_terms.specs.Types.{TextTy};
ghost use Rattle.core_terms.specs.Values.{BoolV, IntV, TextV};
ghost use Rattle.ideal_meaning.specs.Ideal.{Opened};
ghost use Rattle.ideal_meaning.specs.Run as meant;
ghost use Rattle.reference_run.specs.PlainValues.{plain_of};
ghost use Rattle.reference_run.specs.Telling.{TellsBehind, Tells, pair_values};

use crate::stop::Stop;
use crate::values::{Plain, text_in};
use core_terms::{Program, TextCompare, Trap};
use std::alloc::Global;

/// The number of bytes of the length in the spelling of a text.
const TEXT_LENGTH_SIZE: usize = 4;

/// The number of bytes of a text.
pub(crate) fn len(operand: Result<Plain, Stop>) -> Result<Plain, Stop>
    ensures { TellsBehind plain_of (λ v k seen. meant.Gives (IntV (pos (length (meant.text_in v)))) k seen) operand result }
{
    let text = operand?;
    Ok(Plain::IntValue(text_in(&text).len() as i64))
}

/// Whether a comparison of two texts holds.
pub(crate) fn compare_texts(
    op: TextCompare,
    operands: Result<(Plain, Plain), Stop>,
) -> Result<Plain, Stop>
    ensures { TellsBehind pair_values (λ xy k seen. meant.Gives (BoolV (meant.text_compare_of op (meant.text_in xy.0) (meant.text_in xy.1))) k seen) operands result }
{
    let (x, y) = operands?;
    Ok(Plain::BoolValue(compared(op, text_in(&x), text_in(&y))))
}

/// Two texts, joined, where that is within the limits.
pub(crate) fn cat(
    program: &Program,
    operands: Result<(Plain, Plain), Stop>,
    alloc: Global,
) -> Result<Plain, Stop>
    ensures { TellsBehind pair_values (λ xy k seen. meant.limited (meaning program.now).format.limit (meaning program.now).types TextTy (TextV (meant.text_in xy.0 ++ meant.text_in xy.1)) k seen) operands result }
{
    let (x, y) = operands?;
    joined(program, text_in(&x), text_in(&y), alloc)
}

/// Two texts, joined, where that is within the limits.
fn joined(program: &Program, x: &str, y: &str, alloc: Global) -> Result<Plain, Stop>
    ensures { (k : ℕ) (seen : List Opened) → Tells plain_of k result (meant.limited (meaning program.now).format.limit (meaning program.now).types TextTy (TextV (x.now ++ y.now)) k seen) }
{
    if x.len() + y.len() > program.spelling_limit() - TEXT_LENGTH_SIZE {
        return Err(Stop::Trapped(Trap::TooBig));
    }
    let mut text = String::from_str(alloc, x)?;
    text.push_str(y)?;
    Ok(Plain::TextValue(text))
}

/// Whether a comparison of two texts holds, by their bytes.
fn compared(op: TextCompare, x: &str, y: &str) -> bool
    ensures { result ≡ meant.text_compare_of op x.now y.now }
{
    match op {
        TextCompare::Eq => x == y,
        TextCompare::Lt => x < y,
    }
}
