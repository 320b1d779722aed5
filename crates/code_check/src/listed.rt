// What an object lists, as the parts of a compiled program.
ghost use Rattle.std.specs.Prelude.{◌≡◌, IfOk};
ghost use Rattle.core_terms.specs.Programs.{types_in};
ghost use Rattle.core_terms.specs.TypeNames.{all_constructor_names};
ghost use Rattle.object_meaning.specs.ObjectBodies.{constructor_names, program_in};
ghost use Rattle.object_meaning.specs.WellFormedObjects.{IsObject};
ghost use Rattle.object_reader.specs.ObjectViews.{object_of};
ghost use Rattle.code_check.specs.ListedParts.{AreListedParts};
ghost use Rattle.code_check.specs.ObjectParts.{parts_program};

use crate::listed_code::code_list;
use crate::listed_functions::function_list;
use crate::listed_types::{named_list, type_id, type_numbers};
use crate::parts::Parts;
use core_terms::{Format, Function, Instruction, NamedType, TyId, TyTable};
use object_reader::Object;
use std::alloc::{AllocError, Global};

/// The parts of the program that an object is. Names and texts are copied.
///
/// # Errors
///
/// `AllocError` where there is no memory for the parts.
pub fn parts_of(alloc: Global, object: &Object<'_>) -> Result<Parts, AllocError>
    requires object { IsObject (object_of object.now) }
    ensures program { IfOk result (λ parts. parts_program parts ≡ program_in (object_of object.now)) }
    ensures names { IfOk result (λ parts. all_constructor_names parts.named.items ≡ constructor_names (object_of object.now).types) }
{
    let mut types = TyTable::new(Format::First, alloc);
    let listed = listed_parts(alloc, object, &mut types)?;
    Ok(Parts {
        types,
        named: listed.named,
        state: listed.state,
        functions: listed.functions,
        code: listed.code,
    })
}

/// The parts of a program but for its table of types.
#[derive(Drop)]
pub(crate) struct ListedParts {
    pub(crate) named: Vec<NamedType>,
    pub(crate) state: TyId,
    pub(crate) functions: Vec<Function>,
    pub(crate) code: Vec<Vec<Instruction>>,
}

/// The parts of the program that an object is. Its types are added to the table.
fn listed_parts(
    alloc: Global,
    object: &Object<'_>,
    types: &mut TyTable,
) -> Result<ListedParts, AllocError>
    requires { IsObject (object_of object.now) }
    ensures format { types.new.format ≡ types.old.format }
    ensures parts { IfOk result (λ parts. AreListedParts (types_in types.new) (object_of object.now) parts) }
{
    let numbers = type_numbers(alloc, types, &object.types)?;
    let named = named_list(alloc, &numbers, &object.types)?;
    let functions = function_list(alloc, &numbers, &object.functions)?;
    let code = code_list(alloc, types, &numbers, &object.functions)?;
    Ok(ListedParts {
        named,
        state: type_id(&numbers, object.state),
        functions,
        code,
    })
}
