// Operations on arrays.
ghost use Rattle.std.specs.Prelude.{◌≡◌, ℕ, List};
ghost use Rattle.core_terms.specs.Programs.{meaning, types_of};
ghost use Rattle.core_terms.specs.ProgramTrees.{operation_of};
ghost use Rattle.core_terms.specs.TypeTables.{type_at};
ghost use Rattle.core_terms.specs.Values.{Value};
ghost use Rattle.ideal_meaning.specs.Ideal.{Opened};
ghost use Rattle.ideal_meaning.specs.Run as meant;
ghost use Rattle.reference_run.specs.PlainValues.{plain_of, plains_of};
ghost use Rattle.reference_run.specs.Telling.{Evaluation, TellsBehind, Tells, at_place, row_values};

use crate::copies::{repeated, value_at};
use crate::measures::new_array;
use crate::stop::Stop;
use crate::values::{Plain, int_in, items_in};
use core_terms::{Operation, Program, Trap, TyId};
use std::alloc::Global;

/// What an operation gives on its operands.
pub(crate) fn operate(
    program: &Program,
    operation: Operation,
    operands: Result<Vec<Plain>, Stop>,
    alloc: Global,
) -> Result<Plain, Stop>
    ensures { let P = meaning program.now in TellsBehind row_values (λ vs k seen. meant.operate P.format.limit P.types (operation_of (types_of program.now) operation) vs k seen) operands result }
{
    let operands = operands?;
    match operation {
        Operation::VecFill(count, item) => filled(program, count, item, &operands, alloc),
        Operation::VecGet(count, _) => element(count, &operands, alloc),
        Operation::VecPut(count, item) => changed(program, count, item, &operands, alloc),
    }
}

/// An array of so many times the operand, where it is within the limits.
fn filled(
    program: &Program,
    count: u8,
    item: TyId,
    operands: &[Plain],
    alloc: Global,
) -> Result<Plain, Stop>
    ensures { let P = meaning program.now in (k : ℕ) (seen : List Opened)
        → Tells plain_of k result (meant.fill_of P.format.limit P.types count (type_at (types_of program.now) item) (meant.local (plains_of operands.now) 0) k seen) }
{
    let value = value_at(operands, 0, alloc)?;
    let items = repeated(&value, count, alloc)?;
    new_array(program, count, item, items)
}

/// The element of an array at an int.
fn element(count: u8, operands: &[Plain], alloc: Global) -> Result<Plain, Stop>
    ensures { let vs = plains_of operands.now in (k : ℕ) (seen : List Opened)
        → Tells plain_of k result (meant.get_of count (meant.items_in (meant.local vs 0)) (meant.int_in (meant.local vs 1)) k seen) }
{
    let array = value_at(operands, 0, alloc)?;
    let index = value_at(operands, 1, alloc)?;
    match place_of(count, int_in(&index)) {
        Some(place) => Ok(value_at(&items_in(array, alloc), place, alloc)?),
        None => Err(Stop::Trapped(Trap::Index)),
    }
}

/// The array with its element at an int replaced, where it is within the limits.
fn changed(
    program: &Program,
    count: u8,
    item: TyId,
    operands: &[Plain],
    alloc: Global,
) -> Result<Plain, Stop>
    ensures { let P = meaning program.now in let vs = plains_of operands.now in (k : ℕ) (seen : List Opened)
        → Tells plain_of k result (meant.put_of P.format.limit P.types count (type_at (types_of program.now) item) (meant.items_in (meant.local vs 0)) (meant.int_in (meant.local vs 1)) (meant.local vs 2) k seen) }
{
    let array = value_at(operands, 0, alloc)?;
    let index = value_at(operands, 1, alloc)?;
    let value = value_at(operands, 2, alloc)?;
    match place_of(count, int_in(&index)) {
        Some(place) => {
            let items = replaced(items_in(array, alloc), place, value);
            new_array(program, count, item, items)
        }
        None => Err(Stop::Trapped(Trap::Index)),
    }
}

/// The values, with this one at a place; where none is there they stay as they are, as in the definitions.
fn replaced(values: Vec<Plain>, place: usize, value: Plain) -> Vec<Plain>
    ensures { plains_of result.items ≡ meant.replaced (plains_of values.items) place (plain_of value) }
{
    let mut values = values;
    if place < values.len() {
        values[place] = value;
    }
    values
}

/// The place of the element at an int, in an array of so many.
fn place_of(count: u8, index: i64) -> Option<usize>
    ensures { (go : ℕ → ℕ → List Opened → Evaluation Value) (k : ℕ) (seen : List Opened) → meant.at_index count index go k seen ≡ at_place result go k seen }
{
    if index < 0 {
        return None;
    }
    let place = index as usize;
    if place < usize::from(count) {
        Some(place)
    } else {
        None
    }
}
