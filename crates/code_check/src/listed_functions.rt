// The functions of an object, without their code.
ghost use Rattle.std.specs.Prelude.{◌≡◌, length, All, IfOk};
ghost use Rattle.std.specs.List.{AllZip};
ghost use Rattle.core_terms.specs.ProgramTrees.{kind_of};
ghost use Rattle.object_meaning.specs.ObjectBodies.{name_declared};
ghost use Rattle.object_reader.specs.ObjectViews.{function_of, functions_of, kind_in, name_in};
ghost use Rattle.object_reader.specs.declared.object.ListedFunction as declared;
ghost use Rattle.code_check.specs.ListedParts.{HasRoleName, IsFunctionAmong, IsFunctionOf};

use crate::listed_types::{name_of, type_id, type_ids};
use core_terms::{Function, Kind, Name, RoleKind, Term, TyId};
use object_reader::{ListedFunction, ListedRole};
use std::alloc::{AllocError, Global};

/// Functions with the types of their parameters and results. They have no bodies.
pub(crate) fn function_list(
    alloc: Global,
    numbers: &[TyId],
    listed: &[ListedFunction<'_>],
) -> Result<Vec<Function>, AllocError>
    requires { All (λ (f : declared.ListedFunction). IsFunctionAmong (length numbers.now) (function_of f)) listed.now }
    ensures { IfOk result (λ functions. AllZip (IsFunctionOf numbers.now) (functions_of listed.now) functions.items) }
{
    let mut functions = Vec::new(alloc);
    for one in listed {
        functions.push(function(alloc, numbers, one)?)?;
    }
    Ok(functions)
}

/// A function with the types of its parameters and its result.
fn function(
    alloc: Global,
    numbers: &[TyId],
    listed: &ListedFunction<'_>,
) -> Result<Function, AllocError>
    requires { IsFunctionAmong (length numbers.now) (function_of listed.now) }
    ensures { IfOk result (λ function. IsFunctionOf numbers.now (function_of listed.now) function) }
{
    let name = declared_name(alloc, listed.role)?;
    let parameters = type_ids(alloc, numbers, &listed.parameters)?;
    Ok(Function {
        name,
        kind: kind(listed.role),
        parameters,
        result: type_id(numbers, listed.result),
        body: Term::UnitLiteral,
    })
}

/// How a function of this role may be entered.
fn kind(role: Option<ListedRole<'_>>) -> Kind
    ensures { kind_of result ≡ kind_in role.entry }
{
    match role {
        None => Kind::Inner,
        Some(role) => {
            match role.kind {
                RoleKind::Init => Kind::Init,
                RoleKind::Query => Kind::Query,
                RoleKind::Update => Kind::Update,
            }
        }
    }
}

/// The name of a function: that of its role. One that is no role has none in an object; its own is the keyword.
fn declared_name(alloc: Global, role: Option<ListedRole<'_>>) -> Result<Name, AllocError>
    requires { HasRoleName (kind_in role) (name_in role) }
    ensures { IfOk result (λ name. name ≡ name_declared (kind_in role.entry) (name_in role.entry)) }
{
    match role {
        Some(role) => name_of(alloc, role.name),
        None => name_of(alloc, b"fun"),
    }
}
