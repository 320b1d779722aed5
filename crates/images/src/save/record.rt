// The record of what a node stands for, by the numbers of the records of its parts.
ghost use Rattle.std.specs.Prelude.{◌≡◌, ◌<◌, ◌≤◌, ◌∷◌, ◌++◌, [], length, slice_get, option_map, IfOk, IfSome};
ghost use Rattle.std.specs.Int.{w16, w32, w64, cast_unsigned, to_be_bytes};
ghost use Rattle.value_store.specs.Nodes.{refs_in};
ghost use Rattle.value_store.specs.Views.{form_shown};
ghost use Rattle.images.specs.FormRecords.{HasShortText, head_of};

use core_terms::{NamedId, Tag};
use std::alloc::{AllocError, Global};
use value_store::{Held, Ref, View};

/// A record, as its bytes.
#[derive(PartialEq, Eq, Hash, Drop)]
pub(crate) struct Record(pub Vec<u8>);

/// A part of what is shown, by its number from 0, where there are so many.
pub(crate) fn part(view: View<'_>, index: usize) -> Option<Ref>
    ensures part { option_map (λ (r : Ref). r.0) result ≡ slice_get (refs_in (form_shown view.entry)) index }
    ensures next { IfSome result (λ _. index < 18446744073709551615) }
{
    match view {
        View::Pair(first, second) => [first, second].get(index).copied(),
        View::Constructor(_, _, fields) => fields.get(index).copied(),
        View::Items(items) => items.get(index).copied(),
        View::Auth(Held::Inner(inner) | Held::Both(_, inner)) if index == 0 => Some(inner),
        _ => None,
    }
}

/// What stands in the record before the numbers of the parts.
pub(crate) fn head(alloc: Global, view: View<'_>) -> Result<Vec<u8>, AllocError>
    requires { HasShortText (form_shown view) }
    ensures { IfOk result (λ bytes. bytes.items ≡ head_of (form_shown view.entry)) }
{
    match view {
        View::Unit => [0].to_vec(alloc),
        View::Bool(value) => [1, u8::from(value)].to_vec(alloc),
        View::Int(value) => int_head(alloc, value),
        View::Text(text) => text_head(alloc, text),
        View::Pair(_, _) => [4].to_vec(alloc),
        View::Constructor(named, tag, _) => constructor_head(alloc, named, tag),
        View::Auth(_) => [6].to_vec(alloc),
        View::Items(items) => [7, (items.len() % 256) as u8].to_vec(alloc),
    }
}

/// The record of an int.
fn int_head(alloc: Global, value: i64) -> Result<Vec<u8>, AllocError>
    ensures { IfOk result (λ bytes. bytes.items ≡ 2 ∷ to_be_bytes w64 (cast_unsigned w64 value)) }
{
    let mut bytes = [2].to_vec(alloc)?;
    bytes.extend_from_slice(&value.to_be_bytes())?;
    Ok(bytes)
}

/// The record of a text.
fn text_head(alloc: Global, text: &str) -> Result<Vec<u8>, AllocError>
    requires { length text.now < 4294967296 }
    ensures { IfOk result (λ bytes. bytes.items ≡ (3 ∷ to_be_bytes w32 (length text.now)) ++ text.now) }
{
    let mut bytes = [3].to_vec(alloc)?;
    bytes.extend_from_slice(&(text.len() as u32).to_be_bytes())?;
    bytes.extend_from_slice(text.as_bytes())?;
    Ok(bytes)
}

/// What stands in the record of a constructor before the numbers of its fields.
fn constructor_head(alloc: Global, named: NamedId, tag: Tag) -> Result<Vec<u8>, AllocError>
    ensures { IfOk result (λ bytes. bytes.items ≡ (5 ∷ to_be_bytes w16 named.0) ++ tag.0 ∷ []) }
{
    let mut bytes = [5].to_vec(alloc)?;
    bytes.extend_from_slice(&((named.0 % 65_536) as u16).to_be_bytes())?;
    bytes.push(tag.0)?;
    Ok(bytes)
}
