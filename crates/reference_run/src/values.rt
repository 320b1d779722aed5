// Ideal values as trees, and what is in them.
//
// The readers are total, as those of the definitions: of a value of another kind, which no typed program has there, they give
// what the definitions give.
ghost use Rattle.std.specs.Prelude.{◌≡◌, IfOk};
ghost use Rattle.core_terms.specs.Values.{PairV};
ghost use Rattle.ideal_meaning.specs.Run as meant;
ghost use Rattle.reference_run.specs.PlainValues.{plain_of, plains_of};

use core_terms::Tag;
use std::alloc::{AllocError, Global};

/// An ideal value. An ideal value of `auth t` is one of `t`.
#[derive(Drop)]
pub enum Plain {
    /// The value `()`.
    UnitValue,
    /// A bool.
    BoolValue(bool),
    /// An int.
    IntValue(i64),
    /// A text.
    TextValue(String),
    /// A pair.
    PairValue(Box<Plain>, Box<Plain>),
    /// A value of a named type: the number of its constructor, and its fields.
    ConstructorValue(Tag, Vec<Plain>),
    /// An array: its elements.
    ItemsValue(Vec<Plain>),
}

/// The pair of two values. An error says that memory was wanting.
pub(crate) fn pair_of(first: Plain, second: Plain, alloc: Global) -> Result<Plain, AllocError>
    ensures { IfOk result (λ pair. plain_of pair ≡ PairV (plain_of first) (plain_of second)) }
{
    let first = Box::new(alloc, first)?;
    let second = Box::new(alloc, second)?;
    Ok(Plain::PairValue(first, second))
}

/// The bool that a value is.
pub(crate) fn bool_in(value: &Plain) -> bool
    ensures { result ≡ meant.bool_in (plain_of value.now) }
{
    match value {
        Plain::BoolValue(value) => *value,
        _ => false,
    }
}

/// The int that a value is.
pub(crate) fn int_in(value: &Plain) -> i64
    ensures { result ≡ meant.int_in (plain_of value.now) }
{
    match value {
        Plain::IntValue(value) => *value,
        _ => 0,
    }
}

/// The text that a value is.
pub(crate) fn text_in(value: &Plain) -> &str
    ensures { result.now ≡ meant.text_in (plain_of value.now) }
{
    match value {
        Plain::TextValue(text) => text,
        _ => "",
    }
}

/// The first of the pair that a value is.
pub(crate) fn first_in(value: Plain) -> Plain
    ensures { plain_of result ≡ meant.first_in (plain_of value) }
{
    match value {
        Plain::PairValue(first, _) => Box::into_inner(first),
        _ => Plain::UnitValue,
    }
}

/// The second of the pair that a value is.
pub(crate) fn second_in(value: Plain) -> Plain
    ensures { plain_of result ≡ meant.second_in (plain_of value) }
{
    match value {
        Plain::PairValue(_, second) => Box::into_inner(second),
        _ => Plain::UnitValue,
    }
}

/// The number of the constructor that a value was made by.
pub(crate) fn tag_in(value: &Plain) -> usize
    ensures { result ≡ meant.tag_in (plain_of value.now) }
{
    match value {
        Plain::ConstructorValue(tag, _) => usize::from(tag.0),
        _ => 0,
    }
}

/// The fields that a constructor's value was made of.
pub(crate) fn fields_in(value: Plain, alloc: Global) -> Vec<Plain>
    ensures { plains_of result.items ≡ meant.fields_in (plain_of value) }
{
    match value {
        Plain::ConstructorValue(_, fields) => fields,
        _ => Vec::new(alloc),
    }
}

/// The elements of the array that a value is.
pub(crate) fn items_in(value: Plain, alloc: Global) -> Vec<Plain>
    ensures { plains_of result.items ≡ meant.items_in (plain_of value) }
{
    match value {
        Plain::ItemsValue(items) => items,
        _ => Vec::new(alloc),
    }
}
