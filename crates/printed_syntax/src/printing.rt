// Values as they are printed.

pub(crate) mod counts;
pub(crate) mod leaf_lengths;
pub(crate) mod leaves;
pub(crate) mod lengths;

ghost use Rattle.std.specs.Prelude.{◌≡◌, ◌<◌, ◌≤◌, ◌^◌, length, ◌++◌, IfOk, OnOk};
ghost use Rattle.core_terms.specs.Programs.{meaning, types_of};
ghost use Rattle.core_terms.specs.ProgramTrees.{types_at};
ghost use Rattle.core_terms.specs.Spelling.{spelling};
ghost use Rattle.core_terms.specs.TypeTables.{type_at};
ghost use Rattle.core_terms.specs.Types.{NamedTy, PairTy, VecTy};
ghost use Rattle.core_terms.specs.Values.{IsShallow, Value};
ghost use Rattle.printed_syntax.specs.PrintedParts.{ArePrinted, IsPrinted, comma_before, text_in};
ghost use Rattle.printed_syntax.specs.PrintedValueLaws.{FittingTextsAreShort, PrintedValuesAreReadBack};

use crate::printing::counts::printed_length;
use crate::printing::leaves::{
    push_spelled_bool, push_spelled_digest, push_spelled_int, push_spelled_text,
};
use crate::printing::lengths::{MOST_BYTES, bare_lengths};
use core_terms::{NamedId, Program, Tag, TyForm, TyId};
use std::alloc::{AllocError, Global};

/// What stands between two values: a comma and a blank.
pub(crate) const BETWEEN: &[u8] = b", ";

/// The text of the value of a type of the program that these bytes, fewer than 2^32, spell: as a literal, an authenticated value as `#`
/// and 64 hexadecimal digits, an array in brackets. Of bytes that spell no value of the type nothing is said. The calls nest as deep as
/// the value.
///
/// A value that is spelled by few bytes may have a long text, since the types of a program may share their parts, and units are spelled by
/// nothing. So the text is counted before it is made, in time in proportion to the types of the program and to the parts of the value that
/// have a byte.
///
/// # Errors
///
/// `AllocError` where the text has more than 4,294,967,296 bytes, or there is no memory for it or for the count, which takes 16 bytes for
/// each type of the program.
pub fn print_value(
    alloc: Global,
    program: &Program,
    ty: TyId,
    bytes: &[u8],
) -> Result<Vec<u8>, AllocError>
    ensures { IfOk result (λ text. (v : Value) → IsShallow (meaning program.now).types (type_at (types_of program.now) ty) v → length bytes.now < 2 ^ 32 → bytes.now ≡ spelling v
        → text.items ≡ text_in program.now (type_at (types_of program.now) ty) v) }
{
    let bare = bare_lengths(alloc, program)?;
    let length = printed_length(program, &bare, ty, bytes);
    if length > MOST_BYTES {
        return Err(AllocError);
    }
    let mut text = Vec::with_capacity(alloc, length)?;
    push_value(&mut text, program, ty, bytes)?;
    Ok(text)
}

/// Adds the text of the value of a type that stands spelled at the front of bytes, and gives the bytes behind it.
#[cycle(values)]
fn push_value<'a>(
    text: &mut Vec<u8>,
    program: &Program,
    ty: TyId,
    bytes: &'a [u8],
) -> Result<&'a [u8], AllocError>
    ensures printed { IfOk result (λ left. IsPrinted program.now (type_at (types_of program.now) ty) bytes.now text.old.items text.new.items left.now) }
    ensures left { IfOk result (λ left. length left.now ≤ length bytes.now) }
{
    match program.form(ty) {
        TyForm::UnitForm => {
            text.extend_from_slice(b"()")?;
            Ok(bytes)
        }
        TyForm::BoolForm => push_spelled_bool(text, bytes),
        TyForm::IntForm => push_spelled_int(text, bytes),
        TyForm::TextForm => push_spelled_text(text, bytes),
        TyForm::AuthForm(_) => push_spelled_digest(text, bytes),
        TyForm::PairForm(first, second) => push_pair(text, program, first, second, bytes),
        TyForm::NamedForm(named) => push_named(text, program, named, bytes),
        TyForm::VecForm(count, item) => push_items(text, program, count, item, bytes),
    }
}

/// Adds the text of a pair of values of these types: in parentheses, with a comma between them.
#[cycle(values)]
fn push_pair<'a>(
    text: &mut Vec<u8>,
    program: &Program,
    first: TyId,
    second: TyId,
    bytes: &'a [u8],
) -> Result<&'a [u8], AllocError>
    ensures printed { IfOk result (λ left. IsPrinted program.now (PairTy (type_at (types_of program.now) first) (type_at (types_of program.now) second)) bytes.now text.old.items text.new.items left.now) }
    ensures left { IfOk result (λ left. length left.now ≤ length bytes.now) }
{
    text.push(b'(')?;
    let behind = push_value(text, program, first, bytes)?;
    text.extend_from_slice(BETWEEN)?;
    let left = push_value(text, program, second, behind)?;
    text.push(b')')?;
    Ok(left)
}

/// Adds the text of a value of a named type: its constructor, and the fields in parentheses, where it has any.
#[cycle(values)]
fn push_named<'a>(
    text: &mut Vec<u8>,
    program: &Program,
    named: NamedId,
    bytes: &'a [u8],
) -> Result<&'a [u8], AllocError>
    ensures printed { IfOk result (λ left. IsPrinted program.now (NamedTy named.0) bytes.now text.old.items text.new.items left.now) }
    ensures left { IfOk result (λ left. length left.now ≤ length bytes.now) }
{
    let Some((tag, behind)) = bytes.split_first() else {
        return Ok(bytes);
    };
    let Some(constructor) = program.types().constructor_at(named, Tag(*tag)) else {
        return Ok(behind);
    };
    text.extend_from_slice(constructor.name.as_bytes())?;
    if constructor.fields.is_empty() {
        return Ok(behind);
    }
    text.push(b'(')?;
    let left = push_fields(text, program, &constructor.fields, behind)?;
    text.push(b')')?;
    Ok(left)
}

/// Adds the texts of values of these types in a row, with commas between them.
#[cycle(values)]
fn push_fields<'a>(
    text: &mut Vec<u8>,
    program: &Program,
    fields: &[TyId],
    bytes: &'a [u8],
) -> Result<&'a [u8], AllocError>
    ensures printed { IfOk result (λ left. ArePrinted program.now (types_at (types_of program.now) fields.now) bytes.now text.old.items text.new.items left.now) }
    ensures left { IfOk result (λ left. length left.now ≤ length bytes.now) }
{
    let mut left = bytes;
    for (index, field) in fields.iter().enumerate() {
        push_comma(text, index)?;
        left = push_value(text, program, *field, left)?;
    }
    Ok(left)
}

/// Adds the text of an array of so many values of a type: in brackets, with commas between them.
#[cycle(values)]
fn push_items<'a>(
    text: &mut Vec<u8>,
    program: &Program,
    count: u8,
    item: TyId,
    bytes: &'a [u8],
) -> Result<&'a [u8], AllocError>
    ensures printed { IfOk result (λ left. IsPrinted program.now (VecTy count (type_at (types_of program.now) item)) bytes.now text.old.items text.new.items left.now) }
    ensures left { IfOk result (λ left. length left.now ≤ length bytes.now) }
{
    text.push(b'[')?;
    let mut left = bytes;
    for index in 0..count {
        push_comma(text, usize::from(index))?;
        left = push_value(text, program, item, left)?;
    }
    text.push(b']')?;
    Ok(left)
}

/// Adds what stands before a value with a number in a row: a comma and a blank, where it isn't the first.
fn push_comma(text: &mut Vec<u8>, index: usize) -> Result<(), AllocError>
    ensures { OnOk result (text.new.items ≡ text.old.items ++ comma_before index) }
{
    if index > 0 {
        text.extend_from_slice(BETWEEN)?;
    }
    Ok(())
}

/// The laws of printed values: one whose parts all have literals is read back from its text, where its texts are short enough to stand
/// between quotes, as they are within the limit of the first format.
pub fn reading_back()
    ensures read_back { PrintedValuesAreReadBack }
    ensures short { FittingTextsAreShort }
{}
