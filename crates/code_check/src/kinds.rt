// The test of kinds: what is known of the locals and the operands at each instruction.
ghost use Rattle.std.specs.Prelude.{◌≡◌, ◌<◌, true, List, [], length, option_map, IfOk};
ghost use Rattle.std.specs.List.{list_all};
ghost use Rattle.core_terms.specs.Kinds as kinds;
ghost use Rattle.core_terms.specs.CodeShapes.{shape};
ghost use Rattle.core_terms.specs.InstructionViews.{instructions_of};
ghost use Rattle.core_terms.specs.ProgramTrees.{are_below, has_types_below, types_at};
ghost use Rattle.core_terms.specs.Programs.{types_in};
ghost use Rattle.core_terms.specs.TypeTables.{type_at};
ghost use Rattle.core_terms.specs.GeneratedCode.{generated};
ghost use Rattle.code_check.specs.CodeTypes.{is_listable};
ghost use Rattle.code_check.specs.KnownTypes.{AreKnown, IsFrame};
ghost use Rattle.code_check.specs.ObjectParts.{body_of_parts, function_with, parts_program, spot_of};
ghost use Rattle.code_check.specs.TypeLists.{Grows};

use crate::known::{Frame, Known};
use crate::lists::{Lists, copied, plain, stacked};
use crate::parts::Parts;
use crate::ways::lead_on;
use core_terms::{Function, Instruction, TyForm, TyId};
use std::alloc::{AllocError, Global};

/// An instruction of a function, by their numbers.
#[derive(Clone, Copy)]
pub struct Spot {
    pub function: usize,
    pub instruction: usize,
}

/// The first instruction at fault: one that nothing before it reaches, that is reached with two different pairs of lists, whose operands or
/// local aren't there or have another type, that leaves more than 255 locals, or that is last and leads on. None where there is none.
///
/// # Errors
///
/// `AllocError` where there is no memory for what is known of the instructions of a function.
pub fn kind_fault(alloc: Global, parts: &Parts) -> Result<Option<Spot>, AllocError>
    ensures { IfOk result (λ fault. option_map spot_of fault ≡ kinds.kind_fault (generated (parts_program parts.now))) }
{
    let mut lists = copied(&parts.types, alloc)?;
    for (number, function) in parts.functions.iter().enumerate() {
        let Some(code) = parts.code.get(number) else {
            return Ok(None);
        };
        if let Some(instruction) = function_fault(&mut lists, parts, function, code, alloc)? {
            return Ok(Some(Spot {
                function: number,
                instruction,
            }));
        }
    }
    Ok(None)
}

/// The first instruction at fault of a function; of one without instructions it is the first that would be there.
fn function_fault(
    lists: &mut Lists,
    parts: &Parts,
    function: &Function,
    code: &[Instruction],
    alloc: Global,
) -> Result<Option<usize>, AllocError>
    requires table { Grows (types_in parts.now.types) (types_in lists.old.types) }
    requires function { has_types_below (length (types_in parts.now.types)) function.now ≡ true }
    requires code { list_all (is_listable (length (types_in parts.now.types))) code.now ≡ true }
    ensures fault { IfOk result (λ fault. fault ≡ kinds.function_fault (body_of_parts parts.now) (function_with (types_in parts.now.types) function.now code.now)) }
    ensures grows { Grows (types_in lists.old.types) (types_in lists.new.types) }
{
    let mut known = vec![in alloc; Known::Unreached; code.len()]?;
    let start = start_of(lists, function)?;
    if known.is_empty() {
        return Ok(Some(0));
    }
    known[0] = Known::Reached(start);
    first_fault(lists, parts, function.result, code, &mut known)
}

/// The first instruction at fault of a function with this result, where this is known of each at first.
fn first_fault(
    lists: &mut Lists,
    parts: &Parts,
    result_type: TyId,
    code: &[Instruction],
    known: &mut [Known],
) -> Result<Option<usize>, AllocError>
    requires table { Grows (types_in parts.now.types) (types_in lists.old.types) }
    requires result_type { result_type.0 < length (types_in parts.now.types) }
    requires code { list_all (is_listable (length (types_in parts.now.types))) code.now ≡ true }
    requires length { length known.old ≡ length code.now }
    requires known { (ks : List kinds.Known) × AreKnown (types_in lists.old.types) known.old ks }
    ensures fault { IfOk result (λ fault. (ks : List kinds.Known) → AreKnown (types_in lists.old.types) known.old ks
        → fault ≡ kinds.first_fault (body_of_parts parts.now) (type_at (types_in parts.now.types) result_type) (instructions_of (types_in parts.now.types) code.now) 0 ks) }
    ensures grows { Grows (types_in lists.old.types) (types_in lists.new.types) }
{
    for (place, instruction) in code.iter().enumerate() {
        let Known::Reached(at) = known[place] else {
            return Ok(Some(place));
        };
        let behind = &mut known[place + 1..];
        if !lead_on(lists, parts, result_type, instruction, at, behind)? {
            return Ok(Some(place));
        }
    }
    Ok(None)
}

/// The frame at the first instruction of a function: its parameters are the locals, and there is no operand.
fn start_of(lists: &mut Lists, function: &Function) -> Result<Frame, AllocError>
    requires parameters { are_below (length (types_in lists.old.types)) function.now.parameters.items ≡ true }
    ensures frame { IfOk result (λ at. IsFrame (types_in lists.new.types) at (shape (types_at (types_in lists.old.types) function.now.parameters.items) [])) }
    ensures grows { Grows (types_in lists.old.types) (types_in lists.new.types) }
{
    let operands = plain(lists, TyForm::UnitForm)?;
    let locals = stacked(lists, &function.parameters, operands)?;
    Ok(Frame { locals, operands })
}
