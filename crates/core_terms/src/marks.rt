// Which types of a table an `auth` stands in, at any depth and through named types.
//
// It is found by levels. On level 0 no named type is opened; on the next one a named type has an `auth` where one of its fields
// has one on this level. A level that is like the one before it is like all that follow, and a path to an `auth` opens each
// named type once at most, so no more levels are needed than there are named types.
ghost use Rattle.std.specs.Prelude.{◌≡◌, length, map, IfOk};
ghost use Rattle.std.specs.List.{list_any};
ghost use Rattle.core_terms.specs.AuthMarks.{AreAuthMarks, AreLevelMarks, AreOpenedMarks, is_marked_field, is_marked_type, mark_of_form};
ghost use Rattle.core_terms.specs.Programs.{types_in};
ghost use Rattle.core_terms.specs.ProgramTrees.{table_of};

use crate::{Constructor, NamedType, TyForm, TyId, TyTable};
use std::alloc::{AllocError, Global};

/// For each type of the table whether an `auth` stands in it.
///
/// # Errors
///
/// `AllocError` where there is no memory for the marks.
pub fn auth_marks(
    types: &TyTable,
    named: &[NamedType],
    alloc: Global,
) -> Result<Vec<bool>, AllocError>
    ensures { IfOk result (λ marks. AreAuthMarks (types_in types.now) named.now marks.items) }
{
    let opened = opened_marks(types, named, alloc)?;
    let marks = level_marks(types, &opened, alloc)?;
    Ok(marks)
}

/// Whether the type is marked; one that isn't in the table is `unit`, and isn't.
pub fn is_marked(marks: &[bool], ty: TyId) -> bool
    ensures { result ≡ is_marked_field marks.now ty }
{
    match marks.get(ty.0) {
        Some(mark) => *mark,
        None => false,
    }
}

/// For each named type whether an `auth` stands in it, on the last level that is needed.
fn opened_marks(
    types: &TyTable,
    named: &[NamedType],
    alloc: Global,
) -> Result<Vec<bool>, AllocError>
    ensures { IfOk result (λ opened. AreOpenedMarks (table_of (types_in types.now) named.now) (length named.now) opened.items) }
{
    let mut opened = vec![in alloc; false; named.len()]?;
    for _level in 0..named.len() {
        let marks = level_marks(types, &opened, alloc)?;
        let next = next_level(named, &marks, alloc)?;
        if next.as_slice() == opened.as_slice() {
            return Ok(opened);
        }
        opened = next;
    }
    Ok(opened)
}

/// The marks of the types on the level on which the named types have these marks.
fn level_marks(types: &TyTable, opened: &[bool], alloc: Global) -> Result<Vec<bool>, AllocError>
    ensures marks { IfOk result (λ marks. AreLevelMarks (types_in types.now) opened.now (length (types_in types.now)) marks.items) }
    ensures length { IfOk result (λ marks. length marks.items ≡ length (types_in types.now)) }
{
    let mut marks = Vec::new(alloc);
    for number in 0..types.len() {
        let mark = form_mark(types.form(TyId(number)), &marks, opened);
        marks.push(mark)?;
    }
    Ok(marks)
}

/// The mark of a form, from those of its parts and those of the named types.
fn form_mark(form: TyForm, marks: &[bool], opened: &[bool]) -> bool
    ensures { result ≡ mark_of_form marks.now opened.now form }
{
    match form {
        TyForm::AuthForm(_) => true,
        TyForm::PairForm(first, second) => is_marked(marks, first) || is_marked(marks, second),
        TyForm::NamedForm(named) => is_marked(opened, TyId(named.0)),
        TyForm::VecForm(_, part) => is_marked(marks, part),
        _ => false,
    }
}

/// The marks of the named types on the next level.
fn next_level(named: &[NamedType], marks: &[bool], alloc: Global) -> Result<Vec<bool>, AllocError>
    ensures { IfOk result (λ next. next.items ≡ map (is_marked_type marks.now) named.now) }
{
    named
        .iter()
        .map(|declared| has_marked_field(&declared.constructors, marks))
        .collect(alloc)
}

/// Whether a field of one of the constructors is marked.
fn has_marked_field(constructors: &[Constructor], marks: &[bool]) -> bool
    ensures { result ≡ list_any (λ c. list_any (is_marked_field marks.now) c.fields.items) constructors.now }
{
    constructors
        .iter()
        .any(|constructor| is_some_marked(&constructor.fields, marks))
}

/// Whether one of the types is marked.
fn is_some_marked(types: &[TyId], marks: &[bool]) -> bool
    ensures { result ≡ list_any (is_marked_field marks.now) types.now }
{
    types.iter().any(|ty| is_marked(marks, *ty))
}
