// Operations on bools and pairs.
ghost use Rattle.std.specs.Prelude.{not};
ghost use Rattle.core_terms.specs.Values.{BoolV};
ghost use Rattle.ideal_meaning.specs.Run as meant;
ghost use Rattle.reference_run.specs.PlainValues.{plain_of};
ghost use Rattle.reference_run.specs.Telling.{TellsBehind};

use crate::stop::Stop;
use crate::values::{Plain, bool_in, first_in, second_in};

/// The negation of a bool.
pub(crate) fn negation(operand: Result<Plain, Stop>) -> Result<Plain, Stop>
    ensures { TellsBehind plain_of (λ v k seen. meant.Gives (BoolV (not (meant.bool_in v))) k seen) operand result }
{
    let test = operand?;
    Ok(Plain::BoolValue(!bool_in(&test)))
}

/// The first of a pair.
pub(crate) fn first(operand: Result<Plain, Stop>) -> Result<Plain, Stop>
    ensures { TellsBehind plain_of (λ v k seen. meant.Gives (meant.first_in v) k seen) operand result }
{
    let pair = operand?;
    Ok(first_in(pair))
}

/// The second of a pair.
pub(crate) fn second(operand: Result<Plain, Stop>) -> Result<Plain, Stop>
    ensures { TellsBehind plain_of (λ v k seen. meant.Gives (meant.second_in v) k seen) operand result }
{
    let pair = operand?;
    Ok(second_in(pair))
}
