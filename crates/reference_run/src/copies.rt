// Copies of values.
ghost use Rattle.std.specs.Prelude.{◌≡◌, ℕ, List, IfOk};
ghost use Rattle.core_terms.specs.Texts.{bytes_of};
ghost use Rattle.core_terms.specs.Values.{AndV, NoV, PairV, TextV};
ghost use Rattle.ideal_meaning.specs.Ideal.{Opened};
ghost use Rattle.ideal_meaning.specs.Run as meant;
ghost use Rattle.reference_run.specs.PlainValues.{plain_of, plains_of};
ghost use Rattle.reference_run.specs.Telling.{Tells};

use crate::stop::Stop;
use crate::values::{Plain, pair_of};
use core_terms::{LocalId, Text};
use std::alloc::{AllocError, Global};
use std::str::from_utf8;

/// A copy of a value. An error says that memory was wanting.
#[cycle(copies)]
fn copied(value: &Plain, alloc: Global) -> Result<Plain, AllocError>
    ensures { IfOk result (λ copy. plain_of copy ≡ plain_of value.now) }
{
    match value {
        Plain::UnitValue => Ok(Plain::UnitValue),
        Plain::BoolValue(value) => Ok(Plain::BoolValue(*value)),
        Plain::IntValue(value) => Ok(Plain::IntValue(*value)),
        Plain::TextValue(text) => Ok(Plain::TextValue(String::from_str(alloc, text)?)),
        Plain::PairValue(first, second) => copied_pair(first, second, alloc),
        Plain::ConstructorValue(tag, fields) => {
            let fields = all_copied(fields, alloc)?;
            Ok(Plain::ConstructorValue(*tag, fields))
        }
        Plain::ItemsValue(items) => Ok(Plain::ItemsValue(all_copied(items, alloc)?)),
    }
}

/// The pair of the copies of two values.
#[cycle(copies)]
fn copied_pair(first: &Plain, second: &Plain, alloc: Global) -> Result<Plain, AllocError>
    ensures { IfOk result (λ copy. plain_of copy ≡ PairV (plain_of first.now) (plain_of second.now)) }
{
    let first = copied(first, alloc)?;
    let second = copied(second, alloc)?;
    pair_of(first, second, alloc)
}

/// The copies of values in a row.
#[cycle(copies)]
fn all_copied(values: &[Plain], alloc: Global) -> Result<Vec<Plain>, AllocError>
    ensures { IfOk result (λ copies. plains_of copies.items ≡ plains_of values.now) }
{
    let mut copies = Vec::new(alloc);
    for value in values {
        let copy = copied(value, alloc)?;
        copies.push(copy)?;
    }
    Ok(copies)
}

/// So many copies of a value.
pub(crate) fn repeated(value: &Plain, count: u8, alloc: Global) -> Result<Vec<Plain>, AllocError>
    ensures { IfOk result (λ copies. plains_of copies.items ≡ meant.repeated count (plain_of value.now)) }
{
    let mut copies = Vec::new(alloc);
    for _made in 0..count {
        let copy = copied(value, alloc)?;
        copies.push(copy)?;
    }
    Ok(copies)
}

/// A copy of the value at a place; where none is there it is `()`, as in the definitions.
pub(crate) fn value_at(values: &[Plain], place: usize, alloc: Global) -> Result<Plain, AllocError>
    ensures { IfOk result (λ copy. plain_of copy ≡ meant.local (plains_of values.now) place) }
{
    match values.get(place) {
        Some(value) => copied(value, alloc),
        None => Ok(Plain::UnitValue),
    }
}

/// The value of a text literal.
pub(crate) fn literal(text: &Text, alloc: Global) -> Result<Plain, Stop>
    ensures { (k : ℕ) (seen : List Opened) → Tells plain_of k result (meant.Gives (TextV (bytes_of text.now)) k seen) }
{
    let Ok(text) = from_utf8(text.as_bytes()) else {
        unreachable!();
    };
    Ok(Plain::TextValue(String::from_str(alloc, text)?))
}

/// A copy of the value of a local; of one that isn't there it is `()`, as in the definitions.
pub(crate) fn local(locals: &[Plain], id: LocalId, alloc: Global) -> Result<Plain, Stop>
    ensures { (k : ℕ) (seen : List Opened) → Tells plain_of k result (meant.Gives (meant.local (plains_of locals.now) id.0) k seen) }
{
    Ok(value_at(locals, id.0, alloc)?)
}

/// Copies of the locals, with these behind them.
pub(crate) fn with_locals(
    locals: &[Plain],
    more: Vec<Plain>,
    alloc: Global,
) -> Result<Vec<Plain>, AllocError>
    ensures { IfOk result (λ all. plains_of all.items ≡ meant.join (plains_of locals.now) (plains_of more.items)) }
{
    let mut all = all_copied(locals, alloc)?;
    let mut more = more;
    all.append(&mut more)?;
    Ok(all)
}

/// Copies of the locals, with this one behind them.
pub(crate) fn with_local(
    locals: &[Plain],
    value: Plain,
    alloc: Global,
) -> Result<Vec<Plain>, AllocError>
    ensures { IfOk result (λ all. plains_of all.items ≡ meant.join (plains_of locals.now) (AndV (plain_of value) NoV)) }
{
    let mut all = all_copied(locals, alloc)?;
    all.push(value)?;
    Ok(all)
}
