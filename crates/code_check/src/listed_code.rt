// The code of the functions of an object.
ghost use Rattle.std.specs.Prelude.{◌≡◌, ◌<◌, ◌≤◌, true, length, map, All, IfOk};
ghost use Rattle.std.specs.List.{AllZip};
ghost use Rattle.core_terms.specs.ProgramTrees.{are_below};
ghost use Rattle.core_terms.specs.Programs.{types_in};
ghost use Rattle.core_terms.specs.Texts.{bytes_of};
ghost use Rattle.core_terms.specs.TypeTables.{type_at};
ghost use Rattle.object_meaning.specs.ObjectBodies.{number_of, passed as meant_passed};
ghost use Rattle.object_reader.specs.CodeReaders.{instructions_of};
ghost use Rattle.object_reader.specs.ObjectViews.{function_of, functions_of, instruction_of};
ghost use Rattle.object_reader.specs.declared.object.ListedFunction as declared;
ghost use Rattle.code_check.specs.ListedParts.{AllBehind, AreInstructionsAmong, IsCodeOf, IsFunctionAmong, IsFunctionCode, IsInstructionAmong, IsInstructionOf};

use crate::listed_types::type_id;
use core_terms::{FunctionId, Instruction, LocalId, NamedId, Tag, Text, TyForm, TyId, TyTable};
use object_reader::{ListedFunction, ListedInstruction};
use std::alloc::{AllocError, Global};

/// The code of functions, over a table that has the types with these numbers.
pub(crate) fn code_list(
    alloc: Global,
    types: &TyTable,
    numbers: &[TyId],
    listed: &[ListedFunction<'_>],
) -> Result<Vec<Vec<Instruction>>, AllocError>
    requires numbers { are_below (length (types_in types.now)) numbers.now ≡ true }
    requires listed { All (λ (f : declared.ListedFunction). IsFunctionAmong (length numbers.now) (function_of f)) listed.now }
    ensures { IfOk result (λ code. AllZip (IsFunctionCode (types_in types.now) numbers.now) (functions_of listed.now) code.items) }
{
    let mut code = Vec::new(alloc);
    for function in listed {
        code.push(instruction_list(alloc, types, numbers, &function.code)?)?;
    }
    Ok(code)
}

/// The instructions of a function.
fn instruction_list(
    alloc: Global,
    types: &TyTable,
    numbers: &[TyId],
    listed: &[ListedInstruction<'_>],
) -> Result<Vec<Instruction>, AllocError>
    requires numbers { are_below (length (types_in types.now)) numbers.now ≡ true }
    requires listed { AreInstructionsAmong (length numbers.now) 0 (instructions_of listed.now) }
    ensures { IfOk result (λ code. IsCodeOf (types_in types.now) numbers.now (instructions_of listed.now) code.items) }
{
    let mut code = Vec::new(alloc);
    for (index, one) in listed.iter().enumerate() {
        code.push(instruction(alloc, types, numbers, index, one)?)?;
    }
    Ok(code)
}

/// The instruction with this number in its function.
fn instruction(
    alloc: Global,
    types: &TyTable,
    numbers: &[TyId],
    index: usize,
    listed: &ListedInstruction<'_>,
) -> Result<Instruction, AllocError>
    requires numbers { are_below (length (types_in types.now)) numbers.now ≡ true }
    requires listed { IsInstructionAmong (length numbers.now) index (instruction_of listed.now) }
    ensures { IfOk result (λ instruction. IsInstructionOf (types_in types.now) numbers.now index (instruction_of listed.now) instruction) }
{
    match listed {
        ListedInstruction::PushUnit => Ok(Instruction::PushUnit),
        ListedInstruction::PushBool(value) => Ok(Instruction::PushBool(*value)),
        ListedInstruction::PushInt(value) => Ok(Instruction::PushInt(*value)),
        ListedInstruction::PushText(text) => Ok(Instruction::PushText(copied(alloc, text)?)),
        ListedInstruction::Load(local) => Ok(Instruction::Load(LocalId(usize::from(*local)))),
        ListedInstruction::Bind => Ok(Instruction::Bind),
        ListedInstruction::Unbind(count) => Ok(Instruction::Unbind(usize::from(*count))),
        ListedInstruction::Pair => Ok(Instruction::Pair),
        ListedInstruction::Fst => Ok(Instruction::Fst),
        ListedInstruction::Snd => Ok(Instruction::Snd),
        ListedInstruction::Make(ty, tag) => {
            let named = named_id(types, type_id(numbers, *ty));
            Ok(Instruction::Make(named, Tag(*tag)))
        }
        ListedInstruction::Switch(ty, targets) => {
            let named = named_id(types, type_id(numbers, *ty));
            Ok(Instruction::Switch(named, all_passed(alloc, index, targets)?))
        }
        ListedInstruction::Branch(target) => Ok(Instruction::Branch(passed(index, *target))),
        ListedInstruction::Jump(target) => Ok(Instruction::Jump(passed(index, *target))),
        ListedInstruction::Call(id) => Ok(Instruction::Call(FunctionId(usize::from(*id)))),
        ListedInstruction::Return => Ok(Instruction::Return),
        ListedInstruction::Auth(ty) => Ok(Instruction::Auth(type_id(numbers, *ty))),
        ListedInstruction::Unauth(ty) => Ok(Instruction::Unauth(type_id(numbers, *ty))),
        ListedInstruction::Arith(operation) => Ok(Instruction::Arith(*operation)),
        ListedInstruction::Compare(operation) => Ok(Instruction::Compare(*operation)),
        ListedInstruction::TextCompare(operation) => Ok(Instruction::TextCompare(*operation)),
        ListedInstruction::Cat => Ok(Instruction::Cat),
        ListedInstruction::Len => Ok(Instruction::Len),
        ListedInstruction::Not => Ok(Instruction::Not),
    }
}

/// A text of a program, of the same bytes.
fn copied(alloc: Global, text: &str) -> Result<Text, AllocError>
    requires { length text.now ≤ 65532 }
    ensures { IfOk result (λ copy. bytes_of copy ≡ text.now) }
{
    let bytes = Vec::from_slice(alloc, text.as_bytes())?;
    Ok(Text::new(bytes))
}

/// The named type with a number in the table; the first one where another type has the number.
fn named_id(types: &TyTable, ty: TyId) -> NamedId
    ensures { result.0 ≡ number_of (type_at (types_in types.now) ty) }
{
    match types.form(ty) {
        TyForm::NamedForm(named) => named,
        _ => NamedId(0),
    }
}

/// How many instructions a jump passes over, from an instruction to a later one.
fn passed(index: usize, target: u32) -> usize
    requires { index < target }
    ensures { result ≡ meant_passed index target }
{
    target as usize - index - 1
}

/// The same of each target.
fn all_passed(alloc: Global, index: usize, targets: &[u32]) -> Result<Vec<usize>, AllocError>
    requires { AllBehind index targets.now }
    ensures { IfOk result (λ places. places.items ≡ map (meant_passed index) targets.now) }
{
    let mut places = Vec::new(alloc);
    for target in targets {
        places.push(passed(index, *target))?;
    }
    Ok(places)
}
