// Whole objects.
ghost use Rattle.std.specs.Prelude.{◌≡◌, None, All};
ghost use Rattle.core_terms.specs.Programs.{meaning};
ghost use Rattle.core_terms.specs.TypeNames.{all_constructor_names};
ghost use Rattle.core_terms.specs.declared.format.Format.TheVariants.{First};
ghost use Rattle.code_gen.specs.Programs.{program_in};
ghost use Rattle.object_meaning.specs.ObjectBytes.{object_bytes};
ghost use Rattle.object_meaning.specs.WrittenObjects.{object_of, types_written, written};
ghost use Rattle.object_writer.specs.Adding.{Adds, written_so_far};
ghost use Rattle.object_writer.specs.Numberings.{Numbers, IsNumbering, listed};
ghost use Rattle.object_writer.specs.WrittenAs.{WritesAs, types_part};
ghost use Rattle.core_terms.specs.ProgramTypes.{named_table};
ghost use Rattle.object_writer.specs.WrittenTypes.{HasFewParts};

use crate::WriteFault;
use crate::bytes::ObjectBytes;
use crate::functions::put_functions;
use crate::numbering::Numbering;
use crate::types::{put_named_types, put_other_types};
use crate::walk::number_types;
use code_gen::Code;
use core_terms::{OBJECT_MAGIC, Types};
use std::alloc::Global;

/// The object of a written program of the first format, by its code. It lists the named types in the order of declarations and then,
/// each once and behind its parts, the types of their fields, that of the state, and function by function those of the parameters, of the
/// result, and of the `auth`s and `unauth`s of its code. It has the code instruction by instruction, and the names of constructors and
/// roles alone.
///
/// # Errors
///
/// - `TooLong` exactly where the object has more than 4,194,304 bytes or lists more than 100,000 types. No more than these are
///   made in any case.
/// - `NoMemory` where there is none for the object, or for the numbers of its types. It says nothing of the program.
pub fn write_object(alloc: Global, code: &Code) -> Result<Vec<u8>, WriteFault>
    requires written { (meaning (program_in code.now)).code ≡ None }
    requires first { (program_in code.now).types.table.format ≡ First }
    ensures { WritesAs (written (meaning (program_in code.now)) (all_constructor_names (program_in code.now).types.named.items)) result }
{
    let numbering = number_types(alloc, code)?;
    let mut object = ObjectBytes::new(alloc);
    put_object(&mut object, &numbering, code)?;
    Ok(object.into_vec())
}

/// Writes the object, whose types have these numbers.
fn put_object(
    object: &mut ObjectBytes,
    numbering: &Numbering,
    code: &Code,
) -> Result<(), WriteFault>
    requires written { (meaning (program_in code.now)).code ≡ None }
    requires numbering { Numbers (program_in code.now).types (types_written (meaning (program_in code.now))) numbering.now }
    ensures { Adds (written_so_far object.old) (object_bytes (object_of (meaning (program_in code.now)) (all_constructor_names (program_in code.now).types.named.items))) (written_so_far object.new) result }
{
    let types = code.types();
    put_types(object, numbering, types)?;
    object.put_word(numbering.number(types, types.state_type()))?;
    object.put(&(code.program().functions().len() as u16).to_be_bytes())?;
    put_functions(object, numbering, code)
}

/// Writes how the object begins, and its types.
fn put_types(
    object: &mut ObjectBytes,
    numbering: &Numbering,
    types: &Types,
) -> Result<(), WriteFault>
    requires numbering { IsNumbering types.now numbering.now }
    requires few { All HasFewParts (named_table types.now) }
    ensures { Adds (written_so_far object.old) (types_part types.now (listed types.now numbering.now)) (written_so_far object.new) result }
{
    object.put(&OBJECT_MAGIC)?;
    object.put_word(numbering.len(types) as u32)?;
    put_named_types(object, numbering, types)?;
    put_other_types(object, numbering, types)
}
