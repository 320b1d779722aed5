// Operations on ints.
ghost use Rattle.std.specs.Prelude.{◌≡◌, ℕ, List};
ghost use Rattle.core_terms.specs.Values.{BoolV};
ghost use Rattle.ideal_meaning.specs.Ideal.{Opened};
ghost use Rattle.ideal_meaning.specs.Run as meant;
ghost use Rattle.reference_run.specs.Telling.{TellsBehind, calculation_of, pair_values};

use crate::stop::Stop;
use crate::values::{Plain, int_in};
use core_terms::{Arith, Compare, Trap};

/// The result of an operation on two ints.
pub(crate) fn arith(op: Arith, operands: Result<(Plain, Plain), Stop>) -> Result<Plain, Stop>
    ensures { TellsBehind pair_values (λ xy k seen. meant.arith_of op (meant.int_in xy.0) (meant.int_in xy.1) k seen) operands result }
{
    let (x, y) = operands?;
    match calculated(op, int_in(&x), int_in(&y)) {
        Ok(z) => Ok(Plain::IntValue(z)),
        Err(trap) => Err(Stop::Trapped(trap)),
    }
}

/// Whether a comparison of two ints holds.
pub(crate) fn compare(op: Compare, operands: Result<(Plain, Plain), Stop>) -> Result<Plain, Stop>
    ensures { TellsBehind pair_values (λ xy k seen. meant.Gives (BoolV (meant.compare_of op (meant.int_in xy.0) (meant.int_in xy.1))) k seen) operands result }
{
    let (x, y) = operands?;
    Ok(Plain::BoolValue(compared(op, int_in(&x), int_in(&y))))
}

/// The result of an operation on two ints, or its trap.
fn calculated(op: Arith, x: i64, y: i64) -> Result<i64, Trap>
    ensures { (k : ℕ) (seen : List Opened) → meant.arith_of {C = ⊥} op x y k seen ≡ calculation_of result k seen }
{
    match op {
        Arith::Add => x.checked_add(y).ok_or(Trap::Overflow),
        Arith::Sub => x.checked_sub(y).ok_or(Trap::Overflow),
        Arith::Mul => x.checked_mul(y).ok_or(Trap::Overflow),
        Arith::Div => {
            if y == 0 {
                return Err(Trap::DivZero);
            }
            x.checked_div(y).ok_or(Trap::Overflow)
        }
        Arith::Rem => {
            if y == 0 {
                return Err(Trap::DivZero);
            }
            x.checked_rem(y).ok_or(Trap::Overflow)
        }
    }
}

/// Whether a comparison of two ints holds.
fn compared(op: Compare, x: i64, y: i64) -> bool
    ensures { result ≡ meant.compare_of op x y }
{
    match op {
        Compare::Eq => x == y,
        Compare::Lt => x < y,
        Compare::Le => x <= y,
    }
}
