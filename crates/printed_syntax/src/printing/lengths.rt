// How long the texts of values are that are spelled by nothing, so that their type alone tells it.

ghost use Rattle.std.specs.Prelude.{ℕ, List, Option, ◌≡◌, ◌<◌, ◌≤◌, ◌+◌, None, map, true, length, option_map, slice_get, take, unwrap_or, IfOk};
ghost use Rattle.core_terms.specs.Types.{Ty};
ghost use Rattle.core_terms.specs.TypeTables.{stands_behind, type_of_form};
ghost use Rattle.printed_syntax.specs.PrintedLengths.{array_size, bare_size, bare_sizes, both, pair_size};

use core_terms::{Program, TyForm, TyId};
use std::alloc::{AllocError, Global};

/// The greatest number of bytes of a printed value.
pub(crate) const MOST_BYTES: usize = 4_294_967_296;

/// By type the length of its values' texts, where they are spelled by nothing; `None` for other types. A length that is no `usize` is
/// given as `usize::MAX`, as is any that is counted. Parts stand before what they are parts of, so this is linear in the table of types,
/// however long a type is when it is written.
pub(crate) fn bare_lengths(
    alloc: Global,
    program: &Program,
) -> Result<Vec<Option<usize>>, AllocError>
    ensures { IfOk result (λ lengths. lengths.items ≡ bare_sizes program.now) }
{
    let count = program.type_count();
    let mut lengths = Vec::with_capacity(alloc, count)?;
    for number in 0..count {
        let length = form_length(&lengths, program.form(TyId(number)));
        lengths.push(length)?;
    }
    Ok(lengths)
}

/// The length for a type of this form, where those of the types before it are known.
fn form_length(lengths: &[Option<usize>], form: TyForm) -> Option<usize>
    ensures { (types : List Ty) (n : ℕ) → n ≤ length types → lengths.now ≡ map bare_size (take n types) → stands_behind n form ≡ true → result ≡ bare_size (type_of_form types form) }
{
    match form {
        TyForm::UnitForm => Some(2),
        TyForm::PairForm(first, second) => {
            bare_pair(known_length(lengths, first), known_length(lengths, second))
        }
        TyForm::VecForm(count, item) => bare_array(count, known_length(lengths, item)),
        _ => None,
    }
}

/// The length for pairs of two types with these lengths.
fn bare_pair(first: Option<usize>, second: Option<usize>) -> Option<usize>
    ensures { result ≡ both first second pair_size }
{
    Some(pair_length(first?, second?))
}

/// The length for arrays of so many elements of a type with this length.
fn bare_array(count: u8, item: Option<usize>) -> Option<usize>
    ensures { result ≡ option_map (array_size count) item }
{
    Some(array_length(count, item?))
}

/// The length for a type, where there is one.
pub(crate) fn known_length(lengths: &[Option<usize>], ty: TyId) -> Option<usize>
    ensures { result ≡ unwrap_or (slice_get lengths.now ty.0) None }
{
    *lengths.get(ty.0)?
}

/// The length of a pair's text: that of its parts, parentheses, and a comma and a blank.
#[tactic(auto, using(crate::proofs::CountedLengths::counted_steps))]
pub(crate) fn pair_length(first: usize, second: usize) -> usize
    ensures { result ≡ pair_size first second }
{
    first.saturating_add(second).saturating_add(4)
}

/// The length of the text of an array whose elements have one length: brackets, and commas and blanks between the elements.
fn array_length(count: u8, item: usize) -> usize
    ensures { result ≡ array_size count item }
{
    let count = usize::from(count);
    let between = 2 * count.saturating_sub(1);
    count.saturating_mul(item).saturating_add(between + 2)
}
