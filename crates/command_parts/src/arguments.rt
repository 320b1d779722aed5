// Arguments that are numbers.
ghost use Rattle.std.specs.Prelude.{◌≡◌, ◌≤◌, ◌^◌, IfOk};
ghost use Rattle.core_terms.specs.Programs.{meaning};
ghost use Rattle.command_parts.specs.Answer.{with_kept};
ghost use Rattle.command_parts.specs.FileInputs.{with_fuel, with_number};
ghost use Rattle.command_parts.specs.Arguments.{positive_within};
ghost use Rattle.command_parts.specs.Halting.{StepGives, InHand};
ghost use Rattle.number_words.specs.Numbers.{number_within};

use crate::Halt;
use core_terms::{MOST_FUEL, Program};
use number_words::read_number;
use printed_lines::refusal::{Argument, InputFault};

/// The amount of fuel that a text tells.
pub fn fuel_named(text: &str) -> Result<u64, Halt>
    ensures goes { InHand (StepGives (with_fuel text.now) (λ k. k)) result }
    ensures fits { IfOk result (λ k. k ≤ 10 ^ 12) }
{
    number_named(text, Argument::Fuel, MOST_FUEL)
}

/// The number of pieces to be kept that a text tells, in a proof of a call of the program.
pub fn kept_named(program: &Program, text: &str) -> Result<u16, Halt>
    ensures goes { InHand (StepGives (with_kept (meaning program.now) text.now) (λ n. n)) result }
    ensures fits { IfOk result (λ n. n ≤ 1024) }
{
    let most = program.types().most_kept();
    let kept = number_named(text, Argument::Number, u64::from(most))?;
    Ok(kept as u16)
}

/// The number that a text tells for an argument, where it is at most the greatest.
pub fn number_named(text: &str, argument: Argument, most: u64) -> Result<u64, Halt>
    ensures goes { InHand (StepGives (with_number argument (number_within most text.now)) (λ n. n)) result }
    ensures fits { IfOk result (λ n. n ≤ most) }
{
    Ok(read_number(text, most).ok_or(InputFault::Number(argument))?)
}

/// The number that a text tells for an argument, where it is 1 at least and at most the greatest.
pub fn positive_named(text: &str, argument: Argument, most: u64) -> Result<u64, Halt>
    ensures goes { InHand (StepGives (with_number argument (positive_within most text.now)) (λ n. n)) result }
    ensures positive { IfOk result (λ n. 1 ≤ n) }
    ensures fits { IfOk result (λ n. n ≤ most) }
{
    Ok(read_positive(text, most).ok_or(InputFault::Number(argument))?)
}

/// The number that a text of 1 to 20 decimal digits tells, where it is 1 at least and at most the greatest.
fn read_positive(text: &str, most: u64) -> Option<u64>
    ensures { result ≡ positive_within most text.now }
{
    let number = read_number(text, most)?;
    if number >= 1 { Some(number) } else { None }
}
