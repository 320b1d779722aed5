// The third pass: the shapes of roles, and their arguments.
ghost use Rattle.std.specs.Prelude.{◌≡◌, ◌<◌, ◌&&◌, ℕ, List, false, length, slice_index_or};
ghost use Rattle.core_terms.specs.AuthMarks.{AreAuthMarks};
ghost use Rattle.core_terms.specs.Programs.{types_in};
ghost use Rattle.core_terms.specs.ProgramTrees.{table_of};
ghost use Rattle.core_terms.specs.TypeTables.{type_at};
ghost use Rattle.core_terms.specs.Types.{same_type};
ghost use Rattle.core_terms.specs.declared.format.Format.{Format};
ghost use Rattle.auth_syntax.specs.Syntax.{InitSyntax, QuerySyntax, UpdateSyntax};
ghost use Rattle.auth_syntax.specs.Trees as written;
ghost use Rattle.declared_types.specs.Findings.{Finds};
ghost use Rattle.declared_types.specs.RoleHeads.{FindsRole, argument_place, judged_role};
ghost use Rattle.declared_types.specs.RoleRules.{checked_roles, is_new_state};
ghost use Rattle.declared_types.specs.Scopes.{AreHeadsOf, IsHeadWithin, IsWithin, functions_meant};

use crate::fault::{TypeFault, TypeKind};
use crate::scope::{Head, Scope};
use crate::written_types::first_token;
use auth_syntax::tree::{Function, FunctionKind};
use core_terms::{TyForm, TyId, TyTable, auth_marks, is_marked};
use lexemes::place::Place;
use std::alloc::Global;

/// The third pass over the functions of a scope, where the state has this type. Types are compared by number, and whether an `auth`
/// stands in a type is found once for all types.
///
/// # Errors
///
/// `At` with the fault of the first role that has one: `RoleShape` at its name, where it hasn't the shape of its kind, and else
/// `AuthInArgument` at the type of its argument, where an `auth` stands in it. `NoMemory` where there is no memory for the marks.
pub(crate) fn third_pass(
    alloc: Global,
    types: &TyTable,
    scope: &Scope<'_>,
    state: TyId,
) -> Result<(), TypeFault>
    requires within { IsWithin (length (types_in types.now)) scope.now }
    requires state { state.0 < length (types_in types.now) }
    ensures { (format : Format) (names : List (List ℕ)) → AreHeadsOf format names (types_in types.now) scope.now
        → Finds (λ _. tt) (checked_roles format names (table_of (types_in types.now) scope.now.named.items) (type_at (types_in types.now) state) (functions_meant scope.now)) result }
{
    let marks = auth_marks(types, &scope.named, alloc)?;
    for head in &scope.heads {
        check_role(types, scope, &marks, state, head)?;
    }
    Ok(())
}

/// The first fault of a function as a role: of its shape, and then of its argument.
fn check_role(
    types: &TyTable,
    scope: &Scope<'_>,
    marks: &[bool],
    state: TyId,
    head: &Head<'_>,
) -> Result<(), TypeFault>
    requires within { IsHeadWithin (length (types_in types.now)) head.now }
    requires state { state.0 < length (types_in types.now) }
    requires marks { AreAuthMarks (types_in types.now) scope.now.named.items marks.now }
    ensures { FindsRole (types_in types.now) (table_of (types_in types.now) scope.now.named.items) (type_at (types_in types.now) state) (written.kind_of head.now.function.now.kind) head.now result }
{
    match head.function.kind {
        FunctionKind::Inner => Ok(()),
        FunctionKind::Init => check_init(types, scope, marks, state, head),
        FunctionKind::Query => check_query(types, scope, marks, state, head),
        FunctionKind::Update => check_update(types, scope, marks, state, head),
    }
}

/// `init f(x: A): S`
fn check_init(
    types: &TyTable,
    scope: &Scope<'_>,
    marks: &[bool],
    state: TyId,
    head: &Head<'_>,
) -> Result<(), TypeFault>
    requires within { IsHeadWithin (length (types_in types.now)) head.now }
    requires state { state.0 < length (types_in types.now) }
    requires marks { AreAuthMarks (types_in types.now) scope.now.named.items marks.now }
    ensures { FindsRole (types_in types.now) (table_of (types_in types.now) scope.now.named.items) (type_at (types_in types.now) state) InitSyntax head.now result }
{
    match head.parameters.as_slice() {
        [argument] => {
            let fits = is_same(types, state, head.result);
            check_argument(marks, head.function, fits, *argument)
        }
        _ => Err(TypeFault::At(TypeKind::RoleShape, head.function.name.at)),
    }
}

/// `query f(s: S, x: A): R`
fn check_query(
    types: &TyTable,
    scope: &Scope<'_>,
    marks: &[bool],
    state: TyId,
    head: &Head<'_>,
) -> Result<(), TypeFault>
    requires within { IsHeadWithin (length (types_in types.now)) head.now }
    requires state { state.0 < length (types_in types.now) }
    requires marks { AreAuthMarks (types_in types.now) scope.now.named.items marks.now }
    ensures { FindsRole (types_in types.now) (table_of (types_in types.now) scope.now.named.items) (type_at (types_in types.now) state) QuerySyntax head.now result }
{
    match head.parameters.as_slice() {
        [first, argument] => {
            let fits = is_same(types, state, *first);
            check_argument(marks, head.function, fits, *argument)
        }
        _ => Err(TypeFault::At(TypeKind::RoleShape, head.function.name.at)),
    }
}

/// `update f(s: S, x: A): (S, R)`
fn check_update(
    types: &TyTable,
    scope: &Scope<'_>,
    marks: &[bool],
    state: TyId,
    head: &Head<'_>,
) -> Result<(), TypeFault>
    requires within { IsHeadWithin (length (types_in types.now)) head.now }
    requires state { state.0 < length (types_in types.now) }
    requires marks { AreAuthMarks (types_in types.now) scope.now.named.items marks.now }
    ensures { FindsRole (types_in types.now) (table_of (types_in types.now) scope.now.named.items) (type_at (types_in types.now) state) UpdateSyntax head.now result }
{
    match head.parameters.as_slice() {
        [first, argument] => {
            let fits = is_update(types, state, *first, head.result);
            check_argument(marks, head.function, fits, *argument)
        }
        _ => Err(TypeFault::At(TypeKind::RoleShape, head.function.name.at)),
    }
}

/// Whether a function of this first parameter and this result takes a state and gives a new one.
fn is_update(types: &TyTable, state: TyId, first: TyId, gives: TyId) -> bool
    requires state { state.0 < length (types_in types.now) }
    requires first { first.0 < length (types_in types.now) }
    requires gives { gives.0 < length (types_in types.now) }
    ensures { result ≡ same_type (type_at (types_in types.now) state) (type_at (types_in types.now) first) && is_new_state (type_at (types_in types.now) state) (type_at (types_in types.now) gives) }
{
    is_same(types, state, first) && is_new_state(types, state, gives)
}

/// Whether a type is a pair of which the first is the state.
fn is_new_state(types: &TyTable, state: TyId, gives: TyId) -> bool
    requires state { state.0 < length (types_in types.now) }
    requires gives { gives.0 < length (types_in types.now) }
    ensures { result ≡ is_new_state (type_at (types_in types.now) state) (type_at (types_in types.now) gives) }
{
    match types.form(gives) {
        TyForm::PairForm(new, _) => is_same(types, state, new),
        _ => false,
    }
}

/// Whether two types are the same.
fn is_same(types: &TyTable, a: TyId, b: TyId) -> bool
    requires first { a.0 < length (types_in types.now) }
    requires second { b.0 < length (types_in types.now) }
    ensures { result ≡ same_type (type_at (types_in types.now) a) (type_at (types_in types.now) b) }
{
    types.is_same(a, b)
}

/// The first fault of a role, where the rest of the role has its shape or not, and its argument is of this type.
fn check_argument(
    marks: &[bool],
    function: &Function,
    fits: bool,
    argument: TyId,
) -> Result<(), TypeFault>
    ensures { Finds (λ _. tt) (judged_role function.now.name.at fits (slice_index_or marks.now argument.0 false) (written.parameters_of function.now.parameters)) result }
{
    if !fits {
        Err(TypeFault::At(TypeKind::RoleShape, function.name.at))
    } else if is_marked(marks, argument) {
        Err(TypeFault::At(TypeKind::AuthInArgument, last_parameter(function)))
    } else {
        Ok(())
    }
}

/// The place of the last parameter's type, and of the function's name where there is none.
fn last_parameter(function: &Function) -> Place
    ensures { result ≡ argument_place (written.function_of function.now) }
{
    match function.parameters.last() {
        Some(parameter) => first_token(&parameter.of_type),
        None => function.name.at,
    }
}
