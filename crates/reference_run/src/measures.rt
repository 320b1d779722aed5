// What the limits measure: how long a value's spelling is, and how deep the value is.
ghost use Rattle.std.specs.Prelude.{◌≡◌, ◌+◌, ℕ, List, [], max, unwrap_or};
ghost use Rattle.core_terms.specs.Programs.{meaning, types_of};
ghost use Rattle.core_terms.specs.ProgramTrees.{types_at};
ghost use Rattle.core_terms.specs.TypeTables.{type_at};
ghost use Rattle.core_terms.specs.Types.{NamedTy, PairTy, Table, TextTy, Ty, VecTy, fields_at, item_types};
ghost use Rattle.core_terms.specs.Values.{ConV, ItemsV, PairV, depth, depths, size, sizes};
ghost use Rattle.ideal_meaning.specs.Ideal.{Opened};
ghost use Rattle.ideal_meaning.specs.Run as meant;
ghost use Rattle.reference_run.specs.Measured.{IsMeasured};
ghost use Rattle.reference_run.specs.PlainValues.{plain_of, plains_of};
ghost use Rattle.reference_run.specs.Telling.{TellsBehind, Tells, pair_values, row_values};

use crate::stop::Stop;
use crate::values::{Plain, pair_of};
use core_terms::{NamedId, Program, Tag, Trap, TyForm, TyId};
use std::alloc::Global;

/// The greatest depth of a new value.
const DEPTH_LIMIT: u64 = 512;

/// The number of bytes of a value's spelling, and the value's depth; each is counted up to `u64::MAX`.
#[derive(Clone, Copy)]
pub(crate) struct Measures {
    pub size: u64,
    pub depth: u64,
}

impl Measures {
    /// Those of a value without parts.
    fn leaf(size: u64) -> Measures
        ensures { IsMeasured result size 1 }
    {
        Measures { size, depth: 1 }
    }

    /// Those of two values in a row.
    fn beside(self, other: Measures) -> Measures
        ensures { (s r d e : ℕ) → IsMeasured self s d → IsMeasured other r e → IsMeasured result (s + r) (max d e) }
    {
        Measures {
            size: self.size.saturating_add(other.size),
            depth: self.depth.max(other.depth),
        }
    }

    /// Those of a value that has a head of so many bytes and these parts.
    fn headed(self, head: u64) -> Measures
        ensures { (s d : ℕ) → IsMeasured self s d → IsMeasured result (head + s) (1 + d) }
    {
        Measures {
            size: self.size.saturating_add(head),
            depth: self.depth.saturating_add(1),
        }
    }
}

/// The measures of a value at a type.
#[cycle(measures)]
fn measured(program: &Program, ty: TyId, value: &Plain) -> Measures
    ensures { let types = (meaning program.now).types in let t = type_at (types_of program.now) ty in IsMeasured result (size types t (plain_of value.now)) (depth types t (plain_of value.now)) }
{
    match program.form(ty) {
        TyForm::UnitForm => Measures::leaf(0),
        TyForm::BoolForm => Measures::leaf(1),
        TyForm::IntForm => Measures::leaf(8),
        TyForm::TextForm => text_measures(value),
        TyForm::AuthForm(_) => Measures::leaf(32),
        TyForm::PairForm(first, second) => pair_measures(program, first, second, value),
        TyForm::NamedForm(named) => constructor_measures(program, named, value),
        TyForm::VecForm(count, item) => array_measures(program, count, item, value),
    }
}

/// Those of a value at the pairs of two types.
#[cycle(measures)]
fn pair_measures(program: &Program, first: TyId, second: TyId, value: &Plain) -> Measures
    ensures { let types = (meaning program.now).types in let t = PairTy (type_at (types_of program.now) first) (type_at (types_of program.now) second) in IsMeasured result (size types t (plain_of value.now)) (depth types t (plain_of value.now)) }
{
    match value {
        Plain::PairValue(x, y) => {
            let parts = measured(program, first, x).beside(measured(program, second, y));
            parts.headed(0)
        }
        _ => Measures::leaf(0),
    }
}

/// Those of a value at a named type.
#[cycle(measures)]
fn constructor_measures(program: &Program, named: NamedId, value: &Plain) -> Measures
    ensures { let types = (meaning program.now).types in IsMeasured result (size types (NamedTy named.0) (plain_of value.now)) (depth types (NamedTy named.0) (plain_of value.now)) }
{
    match value {
        Plain::ConstructorValue(tag, fields) => {
            let types = field_types(program, named, *tag);
            row_measures(program, types, fields).headed(1)
        }
        _ => Measures::leaf(0),
    }
}

/// Those of values in a row, at these types; without parts they are 0.
#[cycle(measures)]
fn row_measures(program: &Program, types: &[TyId], values: &[Plain]) -> Measures
    ensures { let table = (meaning program.now).types in let ts = types_at (types_of program.now) types.now in IsMeasured result (sizes table ts (plains_of values.now)) (depths table ts (plains_of values.now)) }
{
    let mut row = Measures { size: 0, depth: 0 };
    for (place, value) in values.iter().enumerate() {
        if let Some(ty) = types.get(place) {
            row = row.beside(measured(program, *ty, value));
        }
    }
    row
}

/// Those of a value at the arrays of so many elements of a type.
#[cycle(measures)]
fn array_measures(program: &Program, count: u8, item: TyId, value: &Plain) -> Measures
    ensures { let types = (meaning program.now).types in let t = VecTy count (type_at (types_of program.now) item) in IsMeasured result (size types t (plain_of value.now)) (depth types t (plain_of value.now)) }
{
    match value {
        Plain::ItemsValue(items) => item_measures(program, count, item, items).headed(0),
        _ => Measures::leaf(0),
    }
}

/// Those of the first so many of values in a row, at one type; without parts they are 0.
#[cycle(measures)]
fn item_measures(program: &Program, count: u8, item: TyId, items: &[Plain]) -> Measures
    ensures { let table = (meaning program.now).types in let ts = item_types count (type_at (types_of program.now) item) in IsMeasured result (sizes table ts (plains_of items.now)) (depths table ts (plains_of items.now)) }
{
    let mut row = Measures { size: 0, depth: 0 };
    for (place, value) in items.iter().enumerate() {
        if place < usize::from(count) {
            row = row.beside(measured(program, item, value));
        }
    }
    row
}

/// Those of a text; of another value they are those of no part.
fn text_measures(value: &Plain) -> Measures
    ensures { (types : Table) → IsMeasured result (size types TextTy (plain_of value.now)) 1 }
{
    match value {
        Plain::TextValue(text) => Measures::leaf(4 + text.len() as u64),
        _ => Measures::leaf(0),
    }
}

/// The types of the fields of a constructor; none where there is no such constructor.
fn field_types(program: &Program, named: NamedId, tag: Tag) -> &[TyId]
    ensures { types_at (types_of program.now) result.now ≡ unwrap_or (fields_at (meaning program.now).types named.0 tag.0) [] }
{
    match program.types().constructor_at(named, tag) {
        Some(constructor) => &constructor.fields,
        None => &[],
    }
}

/// The pair of two values of these types, where it is within the limits.
pub(crate) fn new_pair(
    program: &Program,
    types: (TyId, TyId),
    operands: Result<(Plain, Plain), Stop>,
    alloc: Global,
) -> Result<Plain, Stop>
    ensures { let P = meaning program.now in let t = PairTy (type_at (types_of program.now) types.0) (type_at (types_of program.now) types.1) in TellsBehind pair_values (λ xy k seen. meant.limited P.format.limit P.types t (PairV xy.0 xy.1) k seen) operands result }
{
    let (first, second) = operands?;
    let pair = pair_of(first, second, alloc)?;
    let measures = pair_measures(program, types.0, types.1, &pair);
    limited(program, pair, measures)
}

/// The value of a constructor with these fields, where it is within the limits.
pub(crate) fn new_constructor(
    program: &Program,
    named: NamedId,
    tag: Tag,
    fields: Result<Vec<Plain>, Stop>,
) -> Result<Plain, Stop>
    ensures { let P = meaning program.now in TellsBehind row_values (λ vs k seen. meant.limited P.format.limit P.types (NamedTy named.0) (ConV tag.0 vs) k seen) fields result }
{
    let value = Plain::ConstructorValue(tag, fields?);
    let measures = constructor_measures(program, named, &value);
    limited(program, value, measures)
}

/// The array of these elements, where it is within the limits. By its type it has so many.
pub(crate) fn new_array(
    program: &Program,
    count: u8,
    item: TyId,
    items: Vec<Plain>,
) -> Result<Plain, Stop>
    ensures { let P = meaning program.now in let t = VecTy count (type_at (types_of program.now) item) in (k : ℕ) (seen : List Opened)
        → Tells plain_of k result (meant.limited P.format.limit P.types t (ItemsV (plains_of items.items)) k seen) }
{
    let value = Plain::ItemsValue(items);
    let measures = array_measures(program, count, item, &value);
    limited(program, value, measures)
}

/// A new value with these measures, where it is within the limits: its size is tested first, then its depth.
fn limited(program: &Program, value: Plain, measures: Measures) -> Result<Plain, Stop>
    ensures { let P = meaning program.now in (t : Ty) → IsMeasured measures (size P.types t (plain_of value)) (depth P.types t (plain_of value))
        → (k : ℕ) (seen : List Opened) → Tells plain_of k result (meant.limited P.format.limit P.types t (plain_of value) k seen) }
{
    if measures.size > program.spelling_limit() as u64 {
        return Err(Stop::Trapped(Trap::TooBig));
    }
    if measures.depth > DEPTH_LIMIT {
        return Err(Stop::Trapped(Trap::TooDeep));
    }
    Ok(value)
}
