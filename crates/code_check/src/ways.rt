// Where instructions lead, and what is then known of those behind them.
ghost use Rattle.std.specs.Prelude.{◌≡◌, ◌<◌, true, List, [], length, map, slice_get, unwrap_or, IfOk};
ghost use Rattle.std.specs.List.{list_all};
ghost use Rattle.core_terms.specs.Types.{Ty};
ghost use Rattle.core_terms.specs.Bodies.{Body};
ghost use Rattle.core_terms.specs.InstructionViews.{instruction_of};
ghost use Rattle.core_terms.specs.Instructions as meant;
ghost use Rattle.core_terms.specs.Kinds as kinds;
ghost use Rattle.core_terms.specs.ProgramTrees.{are_below, types_at};
ghost use Rattle.core_terms.specs.Programs.{types_in};
ghost use Rattle.core_terms.specs.TypeTables.{type_at};
ghost use Rattle.code_check.specs.CodeTypes.{is_listable};
ghost use Rattle.code_check.specs.KindSteps.{IsAt, IsGone, is_return};
ghost use Rattle.code_check.specs.ObjectParts.{body_of_parts};
ghost use Rattle.code_check.specs.TypeLists.{Grows, IsList};

use crate::known::{Frame, Known, reach};
use crate::lists::{Lists, stacked, top_of};
use crate::operations::without_plain;
use crate::parts::Parts;
use crate::steps::step;
use core_terms::{Constructor, Instruction, NamedId, TyForm, TyId};
use std::alloc::AllocError;

/// Goes each way on from an instruction of a function with this result. `false` where the instruction is at fault: an operand or a local isn't
/// there, or has another type, or a way leads past the last instruction or to more than 255 locals.
pub fn lead_on(
    lists: &mut Lists,
    parts: &Parts,
    result_type: TyId,
    instruction: &Instruction,
    at: Frame,
    behind: &mut [Known],
) -> Result<bool, AllocError>
    requires table { Grows (types_in parts.now.types) (types_in lists.old.types) }
    requires at { IsAt (types_in lists.old.types) at }
    requires result_type { result_type.0 < length (types_in parts.now.types) }
    requires instruction { is_listable (length (types_in parts.now.types)) instruction.now ≡ true }
    ensures behind { IfOk result (λ fine. IsGone (types_in lists.old.types) at behind.old
        (λ s. kinds.ways (body_of_parts parts.now) (type_at (types_in parts.now.types) result_type) (instruction_of (types_in parts.now.types) instruction.now) s.locals s.operands)
        (types_in lists.new.types) behind.new fine) }
    ensures grows { Grows (types_in lists.old.types) (types_in lists.new.types) }
{
    match instruction {
        Instruction::Switch(named, places) => switch(lists, parts, *named, places, at, behind),
        Instruction::Branch(passed) => fork(lists, *passed, at, behind),
        Instruction::Jump(passed) => Ok(reach(lists, behind, *passed, at)),
        Instruction::Return => Ok(is_returned(lists, result_type, at.operands)),
        _ => match step(lists, parts, instruction, at)? {
            Some(next) => Ok(reach(lists, behind, 0, next)),
            None => Ok(false),
        },
    }
}

/// Whether there is one operand alone, and it has the type of the result.
fn is_returned(lists: &Lists, result_type: TyId, operands: TyId) -> bool
    requires result_type { result_type.0 < length (types_in lists.now.types) }
    requires operands { operands.0 < length (types_in lists.now.types) }
    ensures { (os : List Ty) → IsList (types_in lists.now.types) operands os → result ≡ is_return (type_at (types_in lists.now.types) result_type) os }
{
    match top_of(lists, operands) {
        Some(top) => {
            top_of(lists, top.others).is_none() && lists.types.is_same(top.first, result_type)
        }
        None => false,
    }
}

/// Goes both ways on from a branch, on the bool that is the top operand.
fn fork(
    lists: &mut Lists,
    passed: usize,
    at: Frame,
    behind: &mut [Known],
) -> Result<bool, AllocError>
    requires at { IsAt (types_in lists.old.types) at }
    ensures behind { (B : Body) (z : Ty) → IfOk result (λ fine. IsGone (types_in lists.old.types) at behind.old (λ s. kinds.ways B z (meant.Branch passed) s.locals s.operands) (types_in lists.new.types) behind.new fine) }
    ensures grows { Grows (types_in lists.old.types) (types_in lists.new.types) }
{
    let Some(operands) = without_plain(lists, TyForm::BoolForm, at.operands)? else {
        return Ok(false);
    };
    let next = Frame { operands, ..at };
    Ok(reach(lists, behind, 0, next) && reach(lists, behind, passed, next))
}

/// Goes each way on from a switch, to the place of each constructor of the named type that the top operand has.
fn switch(
    lists: &mut Lists,
    parts: &Parts,
    named: NamedId,
    places: &[usize],
    at: Frame,
    behind: &mut [Known],
) -> Result<bool, AllocError>
    requires table { Grows (types_in parts.now.types) (types_in lists.old.types) }
    requires at { IsAt (types_in lists.old.types) at }
    ensures behind { (z : Ty) → IfOk result (λ fine. IsGone (types_in lists.old.types) at behind.old
        (λ s. kinds.ways (body_of_parts parts.now) z (meant.Switch named.0 places.now) s.locals s.operands) (types_in lists.new.types) behind.new fine) }
    ensures grows { Grows (types_in lists.old.types) (types_in lists.new.types) }
{
    let Some(operands) = without_plain(lists, TyForm::NamedForm(named), at.operands)? else {
        return Ok(false);
    };
    let next = Frame { operands, ..at };
    arms(lists, constructors_of(parts, named), places, next, behind)
}

/// The constructors of a named type; where there is no such type, none.
fn constructors_of(parts: &Parts, named: NamedId) -> &[Constructor]
    ensures fields { map (λ constructor. types_at (types_in parts.now.types) constructor.fields.items) result.now ≡ unwrap_or (slice_get (body_of_parts parts.now).types named.0) [] }
    ensures within { list_all (λ constructor. are_below (length (types_in parts.now.types)) constructor.fields.items) result.now ≡ true }
{
    match parts.named.get(named.0) {
        Some(declared) => &declared.constructors,
        None => &[],
    }
}

/// Goes to the place of each constructor, whose fields are the next locals. There is a place for each.
fn arms(
    lists: &mut Lists,
    constructors: &[Constructor],
    places: &[usize],
    at: Frame,
    behind: &mut [Known],
) -> Result<bool, AllocError>
    requires at { IsAt (types_in lists.old.types) at }
    requires fields { list_all (λ constructor. are_below (length (types_in lists.old.types)) constructor.fields.items) constructors.now ≡ true }
    ensures behind { IfOk result (λ fine. IsGone (types_in lists.old.types) at behind.old
        (λ s. kinds.ways_by_tag s.locals s.operands (map (λ constructor. types_at (types_in lists.old.types) constructor.fields.items) constructors.now) places.now) (types_in lists.new.types) behind.new fine) }
    ensures grows { Grows (types_in lists.old.types) (types_in lists.new.types) }
{
    if constructors.len() != places.len() {
        return Ok(false);
    }
    for (tag, constructor) in constructors.iter().enumerate() {
        let locals = stacked(lists, &constructor.fields, at.locals)?;
        if !reach(lists, behind, places[tag], Frame { locals, ..at }) {
            return Ok(false);
        }
    }
    Ok(true)
}
