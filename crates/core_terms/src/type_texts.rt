// How the type declarations of a program are printed.
ghost use Rattle.std.specs.Prelude.{◌≡◌, ◌++◌, [], IfOk, codes, if◌then◌else◌, map, slice_index_or};
ghost use Rattle.core_terms.specs.ProgramTrees.{declared_text, types_at};
ghost use Rattle.core_terms.specs.Programs.{types_in};
ghost use Rattle.core_terms.specs.TypeDeclarations.{fields_text, is_pair, length_text, row_text, type_text};
ghost use Rattle.core_terms.specs.TypeNames.{type_names};
ghost use Rattle.core_terms.specs.TypeTables.{type_at};
ghost use Rattle.core_terms.specs.TypeTexts.{named_text, of_constructors};

use crate::{Constructor, NamedId, NamedType, TyForm, TyId, TyTable};
use std::alloc::{AllocError, Global};

/// The declarations of the named types, printed, each on its line.
///
/// # Errors
///
/// `AllocError` where there is no memory for the text.
pub fn declared_text(
    types: &TyTable,
    named: &[NamedType],
    alloc: Global,
) -> Result<Vec<u8>, AllocError>
    ensures { IfOk result (λ text. text.items ≡ declared_text (types_in types.now) named.now) }
{
    let mut text = Vec::new(alloc);
    for declared in named {
        write_declaration(types, named, declared, &mut text)?;
    }
    Ok(text)
}

/// Writes the declaration of a named type, on its line.
fn write_declaration(
    types: &TyTable,
    named: &[NamedType],
    declared: &NamedType,
    text: &mut Vec<u8>,
) -> Result<(), AllocError>
    ensures { IfOk result (λ _. text.new.items ≡ text.old.items ++ named_text (type_names named.now) (types_in types.now) declared.now) }
{
    text.extend_from_slice(b"type ")?;
    text.extend_from_slice(declared.name.as_bytes())?;
    write_constructors(types, named, &declared.constructors, text)?;
    text.extend_from_slice(b";\n")
}

/// Writes constructors, with `=` before the first and a bar before each other one.
fn write_constructors(
    types: &TyTable,
    named: &[NamedType],
    constructors: &[Constructor],
    text: &mut Vec<u8>,
) -> Result<(), AllocError>
    ensures { IfOk result (λ _. text.new.items ≡ text.old.items ++ of_constructors (type_names named.now) (types_in types.now) (codes " = ") constructors.now) }
{
    let mut mark: &[u8] = b" = ";
    for constructor in constructors {
        text.extend_from_slice(mark)?;
        text.extend_from_slice(constructor.name.as_bytes())?;
        write_fields(types, named, &constructor.fields, text)?;
        mark = b" | ";
    }
    Ok(())
}

/// Writes the fields of a constructor, in parentheses where there is one.
fn write_fields(
    types: &TyTable,
    named: &[NamedType],
    fields: &[TyId],
    text: &mut Vec<u8>,
) -> Result<(), AllocError>
    ensures { IfOk result (λ _. text.new.items ≡ text.old.items ++ fields_text (type_names named.now) (types_at (types_in types.now) fields.now)) }
{
    if fields.is_empty() {
        return Ok(());
    }
    write_row(types, named, fields, text)?;
    text.extend_from_slice(b")")
}

/// Writes types in a row, with `(` before the first and a comma before each other one.
fn write_row(
    types: &TyTable,
    named: &[NamedType],
    row: &[TyId],
    text: &mut Vec<u8>,
) -> Result<(), AllocError>
    ensures { IfOk result (λ _. text.new.items ≡ text.old.items ++ row_text (type_names named.now) (codes "(") (types_at (types_in types.now) row.now)) }
{
    let mut mark: &[u8] = b"(";
    for ty in row {
        text.extend_from_slice(mark)?;
        write_type(types, named, *ty, text)?;
        mark = b", ";
    }
    Ok(())
}

/// Writes a type.
fn write_type(
    types: &TyTable,
    named: &[NamedType],
    ty: TyId,
    text: &mut Vec<u8>,
) -> Result<(), AllocError>
    ensures { IfOk result (λ _. text.new.items ≡ text.old.items ++ type_text (type_names named.now) (type_at (types_in types.now) ty)) }
{
    match types.form(ty) {
        TyForm::UnitForm => text.extend_from_slice(b"unit"),
        TyForm::BoolForm => text.extend_from_slice(b"bool"),
        TyForm::IntForm => text.extend_from_slice(b"int"),
        TyForm::TextForm => text.extend_from_slice(b"text"),
        TyForm::NamedForm(number) => text.extend_from_slice(name_at(named, number)),
        TyForm::AuthForm(part) => {
            text.extend_from_slice(auth_word(types, part))?;
            write_type(types, named, part, text)
        }
        TyForm::PairForm(first, second) => {
            text.extend_from_slice(b"(")?;
            write_type(types, named, first, text)?;
            text.extend_from_slice(b", ")?;
            write_type(types, named, second, text)?;
            text.extend_from_slice(b")")
        }
        TyForm::VecForm(n, part) => {
            text.extend_from_slice(b"vec[")?;
            write_length(n, text)?;
            text.extend_from_slice(b"] ")?;
            write_type(types, named, part, text)
        }
    }
}

/// Writes the number of an array's elements, which has two digits at most.
fn write_length(n: u8, text: &mut Vec<u8>) -> Result<(), AllocError>
    ensures { IfOk result (λ _. text.new.items ≡ text.old.items ++ length_text n) }
{
    if n < 10 {
        text.extend_from_slice(&[b'0' + n])
    } else {
        text.extend_from_slice(&[b'0' + n / 10, b'0' + n % 10])
    }
}

/// The word `auth` before a type, with the blank behind it, but before a parenthesis.
fn auth_word(types: &TyTable, part: TyId) -> &'static [u8]
    ensures { result.now ≡ codes "auth" ++ (if is_pair (type_at (types_in types.now) part) then [] else codes " ") }
{
    match types.form(part) {
        TyForm::PairForm(_, _) => b"auth",
        _ => b"auth ",
    }
}

/// The name of a named type; none, and so no byte, where there is no such type.
fn name_at(named: &[NamedType], number: NamedId) -> &[u8]
    ensures { result.now ≡ slice_index_or (type_names named.now) number.0 [] }
{
    match named.get(number.0) {
        Some(declared) => declared.name.as_bytes(),
        None => &[],
    }
}
