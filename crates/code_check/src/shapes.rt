// The test of shapes: that of each role, by its kind.
ghost use Rattle.std.specs.Prelude.{◌≡◌, ◌<◌, ◌&&◌, true, length, IfOk};
ghost use Rattle.core_terms.specs.AuthMarks.{AreAuthMarks};
ghost use Rattle.core_terms.specs.Programs.{types_in};
ghost use Rattle.core_terms.specs.ProgramTrees.{are_below, has_types_below, kind_of, types_at};
ghost use Rattle.core_terms.specs.Terms as terms;
ghost use Rattle.core_terms.specs.TypeTables.{type_at};
ghost use Rattle.core_terms.specs.Types.{Ty, same_type};
ghost use Rattle.core_terms.specs.RoleShapes.{shape_test};
ghost use Rattle.object_meaning.specs.Accepting as accepting;
ghost use Rattle.code_check.specs.ObjectParts.{parts_program};
ghost use Rattle.code_check.specs.RoleShapes.{gives_state};

use crate::parts::Parts;
use core_terms::{Function, Kind, TyForm, TyId, auth_marks, is_marked};
use std::alloc::{AllocError, Global};

/// The first function, by number, that has not the shape of its role, or has an `auth` in its argument; none where each role has its shape.
///
/// # Errors
///
/// `AllocError` where there is no memory for the marks of the types.
pub fn shape_fault(alloc: Global, parts: &Parts) -> Result<Option<usize>, AllocError>
    ensures { IfOk result (λ fault. fault ≡ accepting.shape_fault (parts_program parts.now)) }
{
    let marks = auth_marks(&parts.types, &parts.named, alloc)?;
    Ok(first_misshaped(parts, &marks))
}

/// The same, where these are the marks of the types.
fn first_misshaped(parts: &Parts, marks: &[bool]) -> Option<usize>
    requires marks { AreAuthMarks (types_in parts.now.types) parts.now.named.items marks.now }
    ensures { result ≡ accepting.shape_fault (parts_program parts.now) }
{
    for (number, function) in parts.functions.iter().enumerate() {
        if !has_shape(parts, marks, function) {
            return Some(number);
        }
    }
    None
}

/// Whether a function has the shape that its kind asks for, and no `auth` in its argument.
fn has_shape(parts: &Parts, marks: &[bool], function: &Function) -> bool
    requires marks { AreAuthMarks (types_in parts.now.types) parts.now.named.items marks.now }
    requires within { has_types_below (length (types_in parts.now.types)) function.now ≡ true }
    ensures { let T = types_in parts.now.types in result ≡ shape_test (parts_program parts.now) (kind_of function.now.kind) (types_at T function.now.parameters.items) (type_at T function.now.result) }
{
    match function.kind {
        Kind::Inner => true,
        Kind::Init => is_init(parts, marks, &function.parameters, function.result),
        Kind::Query => is_query(parts, marks, &function.parameters),
        Kind::Update => is_update(parts, marks, &function.parameters, function.result),
    }
}

/// `init f(x: A): S`
fn is_init(parts: &Parts, marks: &[bool], parameters: &[TyId], gives: TyId) -> bool
    requires marks { AreAuthMarks (types_in parts.now.types) parts.now.named.items marks.now }
    requires gives { gives.0 < length (types_in parts.now.types) }
    ensures { let T = types_in parts.now.types in result ≡ shape_test (parts_program parts.now) terms.Init (types_at T parameters.now) (type_at T gives) }
{
    match parameters {
        [argument] => is_state(parts, gives) && !is_marked(marks, *argument),
        _ => false,
    }
}

/// `query f(s: S, x: A): R`
fn is_query(parts: &Parts, marks: &[bool], parameters: &[TyId]) -> bool
    requires marks { AreAuthMarks (types_in parts.now.types) parts.now.named.items marks.now }
    requires parameters { are_below (length (types_in parts.now.types)) parameters.now ≡ true }
    ensures { let T = types_in parts.now.types in (gives : Ty) → result ≡ shape_test (parts_program parts.now) terms.Query (types_at T parameters.now) gives }
{
    match parameters {
        [state, argument] => is_state(parts, *state) && !is_marked(marks, *argument),
        _ => false,
    }
}

/// `update f(s: S, x: A): (S, R)`
fn is_update(parts: &Parts, marks: &[bool], parameters: &[TyId], gives: TyId) -> bool
    requires marks { AreAuthMarks (types_in parts.now.types) parts.now.named.items marks.now }
    requires parameters { are_below (length (types_in parts.now.types)) parameters.now ≡ true }
    requires gives { gives.0 < length (types_in parts.now.types) }
    ensures { let T = types_in parts.now.types in result ≡ shape_test (parts_program parts.now) terms.Update (types_at T parameters.now) (type_at T gives) }
{
    match parameters {
        [state, argument] => {
            is_state(parts, *state) && gives_state(parts, gives) && !is_marked(marks, *argument)
        }
        _ => false,
    }
}

/// Whether a type is a pair of which the first is the state.
fn gives_state(parts: &Parts, gives: TyId) -> bool
    requires gives { gives.0 < length (types_in parts.now.types) }
    ensures { result ≡ gives_state (type_at (types_in parts.now.types) parts.now.state) (type_at (types_in parts.now.types) gives) }
{
    match parts.types.form(gives) {
        TyForm::PairForm(new, _) => is_state(parts, new),
        _ => false,
    }
}

/// Whether a type is that of the state.
fn is_state(parts: &Parts, ty: TyId) -> bool
    requires { ty.0 < length (types_in parts.now.types) }
    ensures { result ≡ same_type (type_at (types_in parts.now.types) parts.now.state) (type_at (types_in parts.now.types) ty) }
{
    parts.types.is_same(parts.state, ty)
}
