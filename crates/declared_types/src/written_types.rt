// The second pass: written types, whose names are all declared and whose arrays the program may have.
ghost use Rattle.std.specs.Prelude.{◌≡◌, map};
ghost use Rattle.auth_syntax.specs.Syntax as syntax;
ghost use Rattle.auth_syntax.specs.Trees as written;
ghost use Rattle.declared_types.specs.Findings.{Finds};
ghost use Rattle.declared_types.specs.ScopeNames.{names_in};
ghost use Rattle.declared_types.specs.WrittenTypes as spec;

use crate::fault::{TypeFault, TypeKind};
use auth_syntax::tree::{ConstructorDeclaration, Declaration, Function, Parameter, TypeTree};
use core_terms::{Format, Name};
use indexmap::IndexSet;
use lexemes::place::Place;

/// The place of a type.
pub fn first_token(tree: &TypeTree) -> Place
    ensures { result ≡ syntax.place_of_type (written.type_of tree.now) }
{
    match tree {
        TypeTree::UnitType(at)
        | TypeTree::BoolType(at)
        | TypeTree::IntType(at)
        | TypeTree::TextType(at)
        | TypeTree::NamedType(at, _)
        | TypeTree::AuthType(at, _)
        | TypeTree::PairType(at, _, _)
        | TypeTree::VecType(at, _, _) => *at,
    }
}

/// Whether programs of the format may have arrays of this length.
pub fn may_have(format: Format, length: u8) -> bool
    ensures { result ≡ spec.may_have format length }
{
    match format {
        Format::First => false,
        Format::Second => (1..=64).contains(&length),
    }
}

/// The second pass, over the declarations of a program of this format, whose types have these names.
///
/// # Errors
///
/// `At` with the first fault in a type, of a field, a parameter, a result or the state: `UnknownName` at a name that no type has, and
/// `NotVec` at an array that the program may not have. There is no other.
pub fn second_pass(
    format: Format,
    names: &IndexSet<&[u8]>,
    declarations: &[Declaration],
) -> Result<(), TypeFault>
    ensures { Finds (λ _. tt) (spec.known_declarations format (names_in names.now.keys) (map written.declaration_of declarations.now)) result }
{
    for declaration in declarations {
        known_declaration(format, names, declaration)?;
    }
    Ok(())
}

/// The same in one declaration.
fn known_declaration(
    format: Format,
    names: &IndexSet<&[u8]>,
    declaration: &Declaration,
) -> Result<(), TypeFault>
    ensures { Finds (λ _. tt) (spec.known_declaration format (names_in names.now.keys) (written.declaration_of declaration.now)) result }
{
    match declaration {
        Declaration::Type(_, named) => known_constructors(format, names, &named.constructors),
        Declaration::State(_, tree) => known_type(format, names, tree),
        Declaration::Function(_, function) => known_signature(format, names, function),
    }
}

/// The same in the types of a function's parameters, and then in that of its result.
fn known_signature(
    format: Format,
    names: &IndexSet<&[u8]>,
    function: &Function,
) -> Result<(), TypeFault>
    ensures { Finds (λ _. tt) (spec.known_signature format (names_in names.now.keys) (written.function_of function.now)) result }
{
    known_parameters(format, names, &function.parameters)?;
    known_type(format, names, &function.result_type)
}

/// The same in the fields of constructors.
fn known_constructors(
    format: Format,
    names: &IndexSet<&[u8]>,
    constructors: &[ConstructorDeclaration],
) -> Result<(), TypeFault>
    ensures { Finds (λ _. tt) (spec.known_constructors format (names_in names.now.keys) (map written.constructor_of constructors.now)) result }
{
    for constructor in constructors {
        known_types(format, names, &constructor.fields)?;
    }
    Ok(())
}

/// The same in the types of parameters.
fn known_parameters(
    format: Format,
    names: &IndexSet<&[u8]>,
    parameters: &[Parameter],
) -> Result<(), TypeFault>
    ensures { Finds (λ _. tt) (spec.known_types format (names_in names.now.keys) (map (λ p. p.of_type) (map written.parameter_of parameters.now))) result }
{
    for parameter in parameters {
        known_type(format, names, &parameter.of_type)?;
    }
    Ok(())
}

/// The same in types.
fn known_types(format: Format, names: &IndexSet<&[u8]>, types: &[TypeTree]) -> Result<(), TypeFault>
    ensures { Finds (λ _. tt) (spec.known_types format (names_in names.now.keys) (map written.type_of types.now)) result }
{
    for tree in types {
        known_type(format, names, tree)?;
    }
    Ok(())
}

/// The same in a type.
fn known_type(format: Format, names: &IndexSet<&[u8]>, tree: &TypeTree) -> Result<(), TypeFault>
    ensures { Finds (λ _. tt) (spec.known_type format (names_in names.now.keys) (written.type_of tree.now)) result }
{
    match tree {
        TypeTree::UnitType(_)
        | TypeTree::BoolType(_)
        | TypeTree::IntType(_)
        | TypeTree::TextType(_) => Ok(()),
        TypeTree::NamedType(at, name) => known_name(names, *at, name),
        TypeTree::AuthType(_, inner) => known_type(format, names, inner),
        TypeTree::PairType(_, first, second) => {
            known_type(format, names, first)?;
            known_type(format, names, second)
        }
        TypeTree::VecType(at, length, item) => {
            known_array(format, *at, *length)?;
            known_type(format, names, item)
        }
    }
}

/// Whether a program of the format may have the array of this length that is written at this place.
fn known_array(format: Format, at: Place, length: u8) -> Result<(), TypeFault>
    ensures { Finds (λ _. tt) (spec.known_array format at length) result }
{
    if may_have(format, length) {
        Ok(())
    } else {
        Err(TypeFault::At(TypeKind::NotVec, at))
    }
}

/// Whether a name at this place is one of these.
fn known_name(names: &IndexSet<&[u8]>, at: Place, name: &Name) -> Result<(), TypeFault>
    ensures { Finds (λ _. tt) (spec.known_name (names_in names.now.keys) at name.now) result }
{
    if names.contains(name.as_bytes()) {
        Ok(())
    } else {
        Err(TypeFault::At(TypeKind::UnknownName, at))
    }
}
