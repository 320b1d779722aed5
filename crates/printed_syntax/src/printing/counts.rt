// How long values are as they are printed, counted from their spellings.

ghost use Rattle.std.specs.Prelude.{◌≡◌, ◌+◌, ◌<◌, ◌≤◌, ◌^◌, min, length};
ghost use Rattle.core_terms.specs.Programs.{meaning, types_of};
ghost use Rattle.core_terms.specs.ProgramTrees.{types_at};
ghost use Rattle.core_terms.specs.Spelling.{spelling};
ghost use Rattle.core_terms.specs.TypeTables.{type_at};
ghost use Rattle.core_terms.specs.Types.{NamedTy, PairTy, VecTy};
ghost use Rattle.core_terms.specs.Values.{IsShallow, Value};
ghost use Rattle.printed_syntax.specs.PrintedLengths.{AreCounted, IsCounted, bare_sizes, next_size, printed_size, text_limit};

use crate::printing::BETWEEN;
use crate::printing::leaf_lengths::{bool_length, digest_length, int_length, text_length};
use crate::printing::lengths::{MOST_BYTES, known_length, pair_length};
use core_terms::{NamedId, Program, Tag, TyForm, TyId};

/// What was counted of spelled values: the length of their text, and the bytes behind them.
#[derive(Clone, Copy)]
pub(crate) struct Counted<'a> {
    pub length: usize,
    pub left: &'a [u8],
}

/// The length of the text of the value of a type that these bytes, fewer than 2^32, spell, where it is at most `MOST_BYTES`; one more than
/// that, where it is longer. `bare` are the program's `bare_lengths`. What is spelled by nothing is one step, so the time is in proportion to
/// the parts of the value that have a byte, and not to the text. The calls nest as deep as the value.
pub(crate) fn printed_length(
    program: &Program,
    bare: &[Option<usize>],
    ty: TyId,
    bytes: &[u8],
) -> usize
    requires bare { bare.now ≡ bare_sizes program.now }
    ensures { (v : Value) → IsShallow (meaning program.now).types (type_at (types_of program.now) ty) v → length bytes.now < 2 ^ 32 → bytes.now ≡ spelling v
        → result ≡ min (printed_size program.now (type_at (types_of program.now) ty) v) (text_limit + 1) }
{
    let counted = count_value(program, bare, ty, bytes);
    counted.length.min(MOST_BYTES + 1)
}

/// Counts the value of a type that stands spelled at the front of bytes.
#[cycle(counts)]
fn count_value<'a>(
    program: &Program,
    bare: &[Option<usize>],
    ty: TyId,
    bytes: &'a [u8],
) -> Counted<'a>
    requires bare { bare.now ≡ bare_sizes program.now }
    ensures counted { IsCounted program.now (type_at (types_of program.now) ty) bytes.now result.length result.left.now }
    ensures left { length result.left.now ≤ length bytes.now }
{
    if let Some(length) = known_length(bare, ty) {
        return Counted {
            length,
            left: bytes,
        };
    }
    match program.form(ty) {
        TyForm::UnitForm => Counted {
            length: 2,
            left: bytes,
        },
        TyForm::BoolForm => bool_length(bytes),
        TyForm::IntForm => int_length(bytes),
        TyForm::TextForm => text_length(bytes),
        TyForm::AuthForm(_) => digest_length(bytes),
        TyForm::PairForm(first, second) => count_pair(program, bare, first, second, bytes),
        TyForm::NamedForm(named) => count_named(program, bare, named, bytes),
        TyForm::VecForm(count, item) => count_items(program, bare, count, item, bytes),
    }
}

/// Counts a pair of values of these types.
#[cycle(counts)]
fn count_pair<'a>(
    program: &Program,
    bare: &[Option<usize>],
    first: TyId,
    second: TyId,
    bytes: &'a [u8],
) -> Counted<'a>
    requires bare { bare.now ≡ bare_sizes program.now }
    ensures counted { IsCounted program.now (PairTy (type_at (types_of program.now) first) (type_at (types_of program.now) second)) bytes.now result.length result.left.now }
    ensures left { length result.left.now ≤ length bytes.now }
{
    let first = count_value(program, bare, first, bytes);
    let second = count_value(program, bare, second, first.left);
    Counted {
        length: pair_length(first.length, second.length),
        left: second.left,
    }
}

/// Counts a value of a named type: its constructor, and the fields in parentheses, where it has any.
#[cycle(counts)]
fn count_named<'a>(
    program: &Program,
    bare: &[Option<usize>],
    named: NamedId,
    bytes: &'a [u8],
) -> Counted<'a>
    requires bare { bare.now ≡ bare_sizes program.now }
    ensures counted { IsCounted program.now (NamedTy named.0) bytes.now result.length result.left.now }
    ensures left { length result.left.now ≤ length bytes.now }
{
    let Some((tag, behind)) = bytes.split_first() else {
        return Counted {
            length: 0,
            left: bytes,
        };
    };
    let Some(constructor) = program.types().constructor_at(named, Tag(*tag)) else {
        return Counted {
            length: 0,
            left: behind,
        };
    };
    let name = constructor.name.as_bytes().len();
    if constructor.fields.is_empty() {
        return Counted {
            length: name,
            left: behind,
        };
    }
    let fields = count_fields(program, bare, &constructor.fields, behind);
    Counted {
        length: fields.length.saturating_add(name).saturating_add(2),
        left: fields.left,
    }
}

/// Counts values of these types in a row, with commas between them.
#[cycle(counts)]
fn count_fields<'a>(
    program: &Program,
    bare: &[Option<usize>],
    fields: &[TyId],
    bytes: &'a [u8],
) -> Counted<'a>
    requires bare { bare.now ≡ bare_sizes program.now }
    ensures counted { AreCounted program.now (types_at (types_of program.now) fields.now) bytes.now result.length result.left.now }
    ensures left { length result.left.now ≤ length bytes.now }
{
    let mut length = 0;
    let mut left = bytes;
    for (index, field) in fields.iter().enumerate() {
        let value = count_value(program, bare, *field, left);
        length = with_next(length, index, value.length);
        left = value.left;
    }
    Counted { length, left }
}

/// Counts an array of so many values of a type: in brackets, with commas between them.
#[cycle(counts)]
fn count_items<'a>(
    program: &Program,
    bare: &[Option<usize>],
    count: u8,
    item: TyId,
    bytes: &'a [u8],
) -> Counted<'a>
    requires bare { bare.now ≡ bare_sizes program.now }
    ensures counted { IsCounted program.now (VecTy count (type_at (types_of program.now) item)) bytes.now result.length result.left.now }
    ensures left { length result.left.now ≤ length bytes.now }
{
    let mut length: usize = 0;
    let mut left = bytes;
    for index in 0..count {
        let value = count_value(program, bare, item, left);
        length = with_next(length, usize::from(index), value.length);
        left = value.left;
    }
    Counted {
        length: length.saturating_add(2),
        left,
    }
}

/// The length of values in a row with one more behind them, which has this number: a comma and a blank stand before it, where it isn't the
/// first.
fn with_next(row: usize, index: usize, value: usize) -> usize
    ensures { result ≡ next_size row index value }
{
    let between = if index > 0 { BETWEEN.len() } else { 0 };
    row.saturating_add(between).saturating_add(value)
}
