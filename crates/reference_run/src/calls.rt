// Calls of a program's functions on ideal values.
ghost use Rattle.std.specs.Prelude.{◌≡◌, ◌≤◌, IfOk, None, OnOk};
ghost use Rattle.core_terms.specs.Programs.{meaning};
ghost use Rattle.core_terms.specs.Terms.{function_at};
ghost use Rattle.ideal_meaning.specs.Ideal.{ideal, outcome};
ghost use Rattle.ideal_meaning.specs.Run.{fuel_of};
ghost use Rattle.reference_run.specs.PlainValues.{plains_of};
ghost use Rattle.reference_run.specs.Telling.{AreArguments, IsPlainOf, plain_outcome_of};

use crate::evaluator::Evaluator;
use crate::stop::Stop;
use crate::values::Plain;
use core_terms::{FunctionId, Outcome, Program};
use std::alloc::{AllocError, Global};

/// Calls a function on these arguments with this much fuel: of a written program the outcome is that of the ideal run. A call takes one
/// unit of fuel, and is out where none is left. Of a compiled program nothing is said: it has no bodies to evaluate.
///
/// It calls itself as deep as the program's expressions, calls and values nest, so it is for small runs. An error says that
/// memory was wanting.
pub fn plain_run(
    alloc: Global,
    program: &Program,
    function: FunctionId,
    arguments: Vec<Plain>,
    fuel: u64,
) -> Result<Outcome<Plain>, AllocError>
    ensures outcome { (meaning program.now).code ≡ None → IfOk result (λ o. plain_outcome_of o ≡ outcome (ideal (meaning program.now) function.0 (plains_of arguments.items) fuel)) }
    ensures ideal { let P = meaning program.now in P.code ≡ None → AreArguments P function.0 (plains_of arguments.items) → IfOk result (IsPlainOf P (function_at P function.0).result) }
{
    let mut left = fuel;
    metered_run(alloc, program, function, arguments, &mut left)
}

/// Calls a function as [`plain_run`] does, and takes what the run spends from `fuel`, also where it traps or runs out. After an
/// error `fuel` is at most what it was.
pub fn metered_run(
    alloc: Global,
    program: &Program,
    function: FunctionId,
    arguments: Vec<Plain>,
    fuel: &mut u64,
) -> Result<Outcome<Plain>, AllocError>
    ensures outcome { (meaning program.now).code ≡ None → IfOk result (λ o. plain_outcome_of o ≡ outcome (ideal (meaning program.now) function.0 (plains_of arguments.items) fuel.old)) }
    ensures left { (meaning program.now).code ≡ None → OnOk result (fuel.new ≡ fuel_of (ideal (meaning program.now) function.0 (plains_of arguments.items) fuel.old)) }
    ensures less { fuel.new ≤ fuel.old }
    ensures ideal { let P = meaning program.now in P.code ≡ None → AreArguments P function.0 (plains_of arguments.items) → IfOk result (IsPlainOf P (function_at P function.0).result) }
{
    let evaluator = Evaluator::new(program, alloc);
    match evaluator.call(function, Ok(arguments), fuel) {
        Ok(value) => Ok(Outcome::Done(value)),
        Err(Stop::Trapped(trap)) => Ok(Outcome::Trapped(trap)),
        Err(Stop::Out) => Ok(Outcome::Out),
        Err(Stop::NoMemory) => Err(AllocError),
    }
}
