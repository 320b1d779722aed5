//! Lists of types, each kept as one type: a list is the pair of its first type and the list of the others, and the empty list is `unit`.
//! So a list costs a number, and two of them are compared by number. How many types it has, and
//! which one stands at a place, is found by its span.

ghost use Rattle.std.specs.Prelude.{◌≡◌, ◌⊎◌, ◌<◌, ◌≤◌, true, List, [], ◌∷◌, ◌++◌, length, reverse, Some, slice_get, IfOk, IfSome};
ghost use Rattle.std.proofs.Props.{props};
ghost use Rattle.core_terms.specs.Types.{Ty, types_set};
ghost use Rattle.core_terms.specs.Programs.{types_in};
ghost use Rattle.core_terms.specs.ProgramTrees.{are_below, types_at};
ghost use Rattle.core_terms.specs.TypeTables.{is_form_in, stands_behind, type_at, type_of_form};
ghost use Rattle.code_check.specs.Spans.{AreSpans, IsSpan};
ghost use Rattle.code_check.specs.TypeLists.{IsList, IsTop, IsThere, IsLeft, Grows, first_off, taken_by};

use crate::spans::{Span, add, span_at};
use core_terms::{Format, TyForm, TyId, TyTable};
use std::alloc::{AllocError, Global};

/// The types of an object, and behind them those that lists are kept as. Each type has a span.
#[derive(Drop)]
pub struct Lists {
    pub types: TyTable,
    spans: Vec<Span>,
    ghost spanned: { AreSpans (types_in types) spans.items } by { Prim.hlevel (props, types_set) },
}

/// A list's first type, and the list of the others.
#[derive(Clone, Copy)]
pub struct Top {
    pub first: TyId,
    pub others: TyId,
}

/// The number of the type of a form whose parts are in the table.
pub fn interned(lists: &mut Lists, form: TyForm) -> Result<TyId, AllocError>
    requires parts { stands_behind (length (types_in lists.old.types)) form ≡ true }
    requires format { is_form_in lists.old.types.format form ≡ true }
    ensures ty { IfOk result (λ id. slice_get (types_in lists.new.types) id.0 ≡ Some (type_of_form (types_in lists.old.types) form)) }
    ensures within { IfOk result (λ id. id.0 < length (types_in lists.new.types)) }
    ensures grows { Grows (types_in lists.old.types) (types_in lists.new.types) }
    ensures longer { length (types_in lists.old.types) ≤ length (types_in lists.new.types) }
    ensures either { (types_in lists.new.types ≡ types_in lists.old.types) ⊎ (types_in lists.new.types ≡ types_in lists.old.types ++ type_of_form (types_in lists.old.types) form ∷ []) }
    ensures format { lists.new.types.format ≡ lists.old.types.format }
{
    add(&mut lists.types, &mut lists.spans, form)
}

/// The number of the type of a form that has no parts.
pub fn plain(lists: &mut Lists, form: TyForm) -> Result<TyId, AllocError>
    requires form { stands_behind 0 form ≡ true }
    ensures ty { IfOk result (λ id. slice_get (types_in lists.new.types) id.0 ≡ Some (type_of_form [] form)) }
    ensures within { IfOk result (λ id. id.0 < length (types_in lists.new.types)) }
    ensures grows { Grows (types_in lists.old.types) (types_in lists.new.types) }
    ensures longer { length (types_in lists.old.types) ≤ length (types_in lists.new.types) }
{
    interned(lists, form)
}

/// The list with a type in front.
pub fn with_top(lists: &mut Lists, first: TyId, others: TyId) -> Result<TyId, AllocError>
    requires first { first.0 < length (types_in lists.old.types) }
    requires others { others.0 < length (types_in lists.old.types) }
    ensures list { IfOk result (λ id. (ts : List Ty) → IsList (types_in lists.old.types) others ts → IsList (types_in lists.new.types) id (type_at (types_in lists.old.types) first ∷ ts)) }
    ensures within { IfOk result (λ id. id.0 < length (types_in lists.new.types)) }
    ensures grows { Grows (types_in lists.old.types) (types_in lists.new.types) }
    ensures longer { length (types_in lists.old.types) ≤ length (types_in lists.new.types) }
{
    interned(lists, TyForm::PairForm(first, others))
}

/// The list with these types in front, one after the other, so that the last of them is the first.
pub fn stacked(lists: &mut Lists, types: &[TyId], others: TyId) -> Result<TyId, AllocError>
    requires types { are_below (length (types_in lists.old.types)) types.now ≡ true }
    requires others { others.0 < length (types_in lists.old.types) }
    ensures list { IfOk result (λ id. (ts : List Ty) → IsList (types_in lists.old.types) others ts → IsList (types_in lists.new.types) id (reverse (types_at (types_in lists.old.types) types.now) ++ ts)) }
    ensures within { IfOk result (λ id. id.0 < length (types_in lists.new.types)) }
    ensures grows { Grows (types_in lists.old.types) (types_in lists.new.types) }
    ensures longer { length (types_in lists.old.types) ≤ length (types_in lists.new.types) }
{
    let mut list = others;
    for ty in types {
        list = with_top(lists, *ty, list)?;
    }
    Ok(list)
}

/// The first type of a list, and the others; none of the empty list.
pub fn top_of(lists: &Lists, list: TyId) -> Option<Top>
    ensures top { (ts : List Ty) → IsList (types_in lists.now.types) list ts → IsTop (types_in lists.now.types) ts result }
    ensures first { IfSome result (λ top. top.first.0 < list.0) }
    ensures others { IfSome result (λ top. top.others.0 < list.0) }
{
    match lists.types.form(list) {
        TyForm::PairForm(first, others) => Some(Top { first, others }),
        _ => None,
    }
}

/// The span of a list.
fn span_in(lists: &Lists, list: TyId) -> Span
    ensures { IsSpan (types_in lists.now.types) list.0 result }
{
    span_at(&lists.spans, list)
}

/// The type at a place of a list; none where the list has no such place.
pub fn at(lists: &Lists, list: TyId, place: usize) -> Option<TyId>
    ensures there { (ts : List Ty) → IsList (types_in lists.now.types) list ts → IsThere (types_in lists.now.types) (slice_get ts place) result }
    ensures within { IfSome result (λ id. id.0 < list.0) }
{
    let rest = without_first(lists, list, place)?;
    let top = top_of(lists, rest)?;
    Some(top.first)
}

/// How many types a list has.
pub fn count(lists: &Lists, list: TyId) -> usize
    ensures { (ts : List Ty) → IsList (types_in lists.now.types) list ts → result ≡ length ts }
{
    span_in(lists, list).count
}

/// The list without so many types at its front; none where it has fewer.
pub fn without_first(lists: &Lists, list: TyId, count: usize) -> Option<TyId>
    ensures left { (ts : List Ty) → IsList (types_in lists.now.types) list ts → IsLeft (types_in lists.now.types) (first_off count ts) result }
    ensures within { IfSome result (λ id. id.0 ≤ list.0) }
{
    if count == 0 {
        return Some(list);
    }
    let span = span_in(lists, list);
    if span.over > 0 && span.over <= count {
        return without_first(lists, span.behind, count - span.over);
    }
    let top = top_of(lists, list)?;
    without_first(lists, top.others, count - 1)
}

/// The operands without those that have the types of a list, which stand last first; none where one of them isn't there, or has another type.
pub fn taken_off(lists: &Lists, takes: TyId, operands: TyId) -> Option<TyId>
    requires takes { takes.0 < length (types_in lists.now.types) }
    requires operands { operands.0 < length (types_in lists.now.types) }
    ensures left { (ts os : List Ty) → IsList (types_in lists.now.types) takes ts → IsList (types_in lists.now.types) operands os → IsLeft (types_in lists.now.types) (taken_by ts os) result }
    ensures within { IfSome result (λ id. id.0 ≤ operands.0) }
{
    let Some(take) = top_of(lists, takes) else {
        return Some(operands);
    };
    let operand = top_of(lists, operands)?;
    if lists.types.is_same(take.first, operand.first) {
        taken_off(lists, take.others, operand.others)
    } else {
        None
    }
}

/// A table of the same types, to which lists can be added. It is of the second format, as only that has arrays.
///
/// # Errors
///
/// `AllocError` where there is no memory for the table.
pub fn copied(types: &TyTable, alloc: Global) -> Result<Lists, AllocError>
    ensures { IfOk result (λ lists. types_in lists.types ≡ types_in types.now) }
{
    let mut lists = Lists {
        types: TyTable::new(Format::Second, alloc),
        spans: Vec::new(alloc),
    };
    for number in 0..types.len() {
        interned(&mut lists, types.form(TyId(number)))?;
    }
    Ok(lists)
}
