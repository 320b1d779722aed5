// The bytes of functions.
ghost use Rattle.std.specs.Prelude.{◌≡◌, ◌≤◌, ◌∷◌, length, map, All, None};
ghost use Rattle.core_terms.specs.InstructionViews.{instructions_of};
ghost use Rattle.core_terms.specs.ProgramLimits.{most_instructions, most_parameters};
ghost use Rattle.core_terms.specs.ProgramTrees.{kind_of, types_at};
ghost use Rattle.core_terms.specs.ProgramTypes.{named_table, types_by_number};
ghost use Rattle.core_terms.specs.Programs.{meaning};
ghost use Rattle.core_terms.specs.TypeTables.{type_at};
ghost use Rattle.code_gen.specs.Programs.{program_in};
ghost use Rattle.object_meaning.specs.ObjectBytes.{bytes_of_all, function_bytes, name_bytes};
ghost use Rattle.object_meaning.specs.WrittenObjects.{codes_in, function_written};
ghost use Rattle.object_writer.specs.Adding.{Adds, written_so_far};
ghost use Rattle.object_writer.specs.Numberings.{IsNumbering, listed};
ghost use Rattle.object_writer.specs.CodeNumbers.{HasSmallNumbers, IsSmall};
ghost use Rattle.object_writer.specs.WrittenFunctions.{body_bytes, head_bytes, signature_bytes};

use crate::WriteFault;
use crate::bytes::ObjectBytes;
use crate::code::put_code;
use crate::numbering::Numbering;
use crate::types::put_numbers;
use code_gen::Code;
use core_terms::{Function, FunctionId, Instruction, Kind, Name, Types};

/// Writes the functions.
pub(crate) fn put_functions(
    object: &mut ObjectBytes,
    numbering: &Numbering,
    code: &Code,
) -> Result<(), WriteFault>
    requires written { (meaning (program_in code.now)).code ≡ None }
    requires numbering { IsNumbering (program_in code.now).types numbering.now }
    requires small { All IsSmall (codes_in (meaning (program_in code.now))) }
    ensures { Adds (written_so_far object.old) (bytes_of_all function_bytes (map (function_written (listed (program_in code.now).types numbering.now) (named_table (program_in code.now).types)) (meaning (program_in code.now)).functions)) (written_so_far object.new) result }
{
    let types = code.types();
    let functions = code.program().functions();
    for (place, function) in functions.iter().enumerate() {
        put_head(object, function)?;
        put_signature(object, numbering, types, function)?;
        put_body(
            object,
            numbering,
            types,
            code.instructions(FunctionId(place)),
        )?;
    }
    Ok(())
}

/// Writes the kind of a function, and its name where it is a role.
fn put_head(object: &mut ObjectBytes, function: &Function) -> Result<(), WriteFault>
    ensures { Adds (written_so_far object.old) (head_bytes (kind_of function.now.kind) function.now.name) (written_so_far object.new) result }
{
    match function.kind {
        Kind::Inner => object.put(&[0, 0]),
        Kind::Init => put_role(object, 1, &function.name),
        Kind::Query => put_role(object, 2, &function.name),
        Kind::Update => put_role(object, 3, &function.name),
    }
}

/// Writes the number of a role's kind, and its name.
fn put_role(object: &mut ObjectBytes, kind: u8, name: &Name) -> Result<(), WriteFault>
    ensures { Adds (written_so_far object.old) (kind ∷ name_bytes name.now) (written_so_far object.new) result }
{
    object.put(&[kind])?;
    object.put_name(name)
}

/// Writes the types of a function's parameters, and that of its result.
fn put_signature(
    object: &mut ObjectBytes,
    numbering: &Numbering,
    types: &Types,
    function: &Function,
) -> Result<(), WriteFault>
    requires numbering { IsNumbering types.now numbering.now }
    requires few { length function.now.parameters.items ≤ most_parameters }
    ensures { Adds (written_so_far object.old) (signature_bytes (listed types.now numbering.now) (types_at (types_by_number types.now) function.now.parameters.items) (type_at (types_by_number types.now) function.now.result)) (written_so_far object.new) result }
{
    object.put(&[function.parameters.len() as u8])?;
    put_numbers(object, numbering, types, &function.parameters)?;
    object.put_word(numbering.number(types, function.result))
}

/// Writes the instructions of a function behind their number.
fn put_body(
    object: &mut ObjectBytes,
    numbering: &Numbering,
    types: &Types,
    code: &[Instruction],
) -> Result<(), WriteFault>
    requires numbering { IsNumbering types.now numbering.now }
    requires short { length (instructions_of (types_by_number types.now) code.now) ≤ most_instructions }
    requires small { All HasSmallNumbers (instructions_of (types_by_number types.now) code.now) }
    ensures { Adds (written_so_far object.old) (body_bytes (listed types.now numbering.now) (instructions_of (types_by_number types.now) code.now)) (written_so_far object.new) result }
{
    object.put_word(code.len() as u32)?;
    put_code(object, numbering, types, code)
}
