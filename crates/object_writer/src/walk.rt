// The types of a program, listed by a walk over its fields, its state and its functions.
ghost use Rattle.std.specs.Prelude.{◌≡◌, map, None};
ghost use Rattle.core_terms.specs.InstructionViews.{instruction_of, instructions_of};
ghost use Rattle.core_terms.specs.Programs.{meaning};
ghost use Rattle.core_terms.specs.ProgramTrees.{table_of, types_at};
ghost use Rattle.core_terms.specs.ProgramTypes.{types_by_number};
ghost use Rattle.code_gen.specs.Programs.{program_in};
ghost use Rattle.object_meaning.specs.WrittenObjects.{codes_in, types_named, types_written, with_all_fields, with_fields, with_functions, with_instructions, with_types};
ghost use Rattle.object_writer.specs.Numberings.{IsNumbering, Lists, NumbersAll, listed};

use crate::WriteFault;
use crate::numbering::Numbering;
use code_gen::Code;
use core_terms::{Constructor, FunctionId, Instruction, NamedType, TyId, Types};
use std::alloc::Global;

/// The numbers of all types of a program's object.
pub(crate) fn number_types(alloc: Global, code: &Code) -> Result<Numbering, WriteFault>
    requires written { (meaning (program_in code.now)).code ≡ None }
    ensures { NumbersAll (program_in code.now).types (types_written (meaning (program_in code.now))) result }
{
    let types = code.types();
    let mut numbering = Numbering::new(alloc, types)?;
    list_named(&mut numbering, types, types.named_types())?;
    numbering.list(types, types.state_type())?;
    list_functions(&mut numbering, code)?;
    Ok(numbering)
}

/// Lists the types of the fields of named types.
fn list_named(
    numbering: &mut Numbering,
    types: &Types,
    named: &[NamedType],
) -> Result<(), WriteFault>
    requires { IsNumbering types.now numbering.old }
    ensures { Lists types.now (with_all_fields (listed types.now numbering.old) (table_of (types_by_number types.now) named.now)) numbering.new result }
{
    for declared in named {
        list_fields(numbering, types, &declared.constructors)?;
    }
    Ok(())
}

/// Lists the types of the fields of constructors.
fn list_fields(
    numbering: &mut Numbering,
    types: &Types,
    constructors: &[Constructor],
) -> Result<(), WriteFault>
    requires { IsNumbering types.now numbering.old }
    ensures { Lists types.now (with_fields (listed types.now numbering.old) (map (λ c. types_at (types_by_number types.now) c.fields.items) constructors.now)) numbering.new result }
{
    for constructor in constructors {
        list_all(numbering, types, &constructor.fields)?;
    }
    Ok(())
}

/// Lists types.
fn list_all(numbering: &mut Numbering, types: &Types, listing: &[TyId]) -> Result<(), WriteFault>
    requires { IsNumbering types.now numbering.old }
    ensures { Lists types.now (with_types (listed types.now numbering.old) (types_at (types_by_number types.now) listing.now)) numbering.new result }
{
    for ty in listing {
        numbering.list(types, *ty)?;
    }
    Ok(())
}

/// Lists the types of functions: of parameters, result and instructions.
fn list_functions(numbering: &mut Numbering, code: &Code) -> Result<(), WriteFault>
    requires written { (meaning (program_in code.now)).code ≡ None }
    requires numbering { IsNumbering (program_in code.now).types numbering.old }
    ensures { Lists (program_in code.now).types (with_functions (listed (program_in code.now).types numbering.old) (codes_in (meaning (program_in code.now)))) numbering.new result }
{
    let types = code.types();
    let functions = code.program().functions();
    for (place, function) in functions.iter().enumerate() {
        list_all(numbering, types, &function.parameters)?;
        numbering.list(types, function.result)?;
        list_code(numbering, types, code.instructions(FunctionId(place)))?;
    }
    Ok(())
}

/// Lists the types that code names.
fn list_code(
    numbering: &mut Numbering,
    types: &Types,
    code: &[Instruction],
) -> Result<(), WriteFault>
    requires { IsNumbering types.now numbering.old }
    ensures { Lists types.now (with_instructions (listed types.now numbering.old) (instructions_of (types_by_number types.now) code.now)) numbering.new result }
{
    for instruction in code {
        list_operand(numbering, types, instruction)?;
    }
    Ok(())
}

/// Lists the type that an instruction names, where it names one.
fn list_operand(
    numbering: &mut Numbering,
    types: &Types,
    instruction: &Instruction,
) -> Result<(), WriteFault>
    requires { IsNumbering types.now numbering.old }
    ensures { Lists types.now (with_types (listed types.now numbering.old) (types_named (instruction_of (types_by_number types.now) instruction.now))) numbering.new result }
{
    match instruction {
        Instruction::Auth(ty) => numbering.list(types, *ty),
        Instruction::Unauth(ty) => numbering.list(types, *ty),
        _ => Ok(()),
    }
}
