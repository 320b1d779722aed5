// Values with parts: what is read before these, and how they are put behind them.
ghost use Rattle.std.specs.Prelude.{◌≡◌, ◌+◌, ◌<◌, ◌≤◌, List, true, length, IfOk};
ghost use Rattle.core_terms.specs.ProgramTypes.{types_by_number};
ghost use Rattle.core_terms.specs.TypeTables.{type_at};
ghost use Rattle.core_terms.specs.Types.{Table, Ty, is_length};
ghost use Rattle.core_terms.specs.Values.{Value};
ghost use Rattle.shallow_codec.specs.KnownNothings.{AreKnown};
ghost use Rattle.shallow_codec.specs.ProgramTypes.{table};
ghost use Rattle.shallow_codec.specs.PutNodes.{IsThere};
ghost use Rattle.shallow_codec.specs.PutValues.{ConIsRead, IsHead, PairIsRead, VecIsRead};
ghost use Rattle.value_store.specs.CodeNodes.{numbers_of};
ghost use Rattle.value_store.specs.Nodes.{ConNode, FormFits, PairNode, greatest_limit, refers_below, VecNode};
ghost use Rattle.value_store.specs.Standing.{Grows};

use crate::UnspellFault;
use crate::cursor::Cursor;
use crate::fields::field_types;
use crate::nothings::Nothings;
use crate::reader::{Front, Fronts};
use core_terms::{NamedId, Tag, TyId, Types};
use value_store::Nodes;

/// The tag of a constructor that was read, the types of its fields, and the place behind the tag.
#[derive(Clone, Copy)]
pub(crate) struct Head<'p, 'a> {
    pub tag: Tag,
    pub types: &'p [TyId],
    pub behind: Cursor<'a>,
}

/// Reads the tag of a named type's constructor.
pub(crate) fn read_head<'p, 'a>(
    types: &'p Types,
    named: NamedId,
    at: Cursor<'a>,
) -> Result<Head<'p, 'a>, UnspellFault>
    requires { at.offset + length at.rest.now ≤ greatest_limit }
    ensures { IsHead (table types.now) (types_by_number types.now) named.0 at.entry result }
{
    let Some((tag, behind)) = at.read_tag() else {
        return Err(at.bad());
    };
    let Some(types) = field_types(types, named, tag) else {
        return Err(at.bad());
    };
    Ok(Head {
        tag: Tag(tag),
        types,
        behind,
    })
}

/// The pair of a type, of two values that were read one after the other. It is noted if it is spelled by nothing.
pub(crate) fn put_noted<'a, N: Nodes>(
    store: &mut N,
    nothings: &mut Nothings,
    ty: TyId,
    first: Front<'a>,
    second: Front<'a>,
) -> Result<Front<'a>, UnspellFault>
    requires first { first.value.0 < length (N.nodes store.old) }
    requires second { second.value.0 < length (N.nodes store.old) }
    requires fits { FormFits (N.lent store.old).limit (N.nodes store.old) (PairNode first.value.0 second.value.0) }
    ensures read { PairIsRead (N.nodes store.old) (N.nodes store.new) first.entry second.entry result }
    ensures known { IfOk result
        (λ front. (types : Table) (tys : List Ty) (v : Value) → AreKnown types tys (N.nodes store.old) nothings.old
        → IsThere types (N.nodes store.new) front.value.0 (type_at tys ty) v → AreKnown types tys (N.nodes store.new) nothings.new) }
    ensures grows { Grows (N.nodes store.old) (N.nodes store.new) }
    ensures lent { N.lent store.new ≡ N.lent store.old }
{
    let pair = put_parts(store, first, second)?;
    nothings.note(store, ty, pair.value)?;
    Ok(pair)
}

/// The pair of two values that were read one after the other.
fn put_parts<'a, N: Nodes>(
    store: &mut N,
    first: Front<'a>,
    second: Front<'a>,
) -> Result<Front<'a>, UnspellFault>
    requires first { first.value.0 < length (N.nodes store.old) }
    requires second { second.value.0 < length (N.nodes store.old) }
    requires fits { FormFits (N.lent store.old).limit (N.nodes store.old) (PairNode first.value.0 second.value.0) }
    ensures read { PairIsRead (N.nodes store.old) (N.nodes store.new) first.entry second.entry result }
    ensures inside { IfOk result (λ front. front.value.0 < length (N.nodes store.new)) }
    ensures grows { Grows (N.nodes store.old) (N.nodes store.new) }
    ensures lent { N.lent store.new ≡ N.lent store.old }
{
    let value = store.put_pair(first.value, second.value)?;
    Ok(Front {
        value,
        behind: second.behind,
    })
}

/// The constructor with this tag, of fields that were read one after another.
#[inline(always)]
pub(crate) fn put_fields<'a, N: Nodes>(
    store: &mut N,
    named: NamedId,
    tag: Tag,
    fields: Fronts<'a>,
) -> Result<Front<'a>, UnspellFault>
    requires fields { refers_below (length (N.nodes store.old)) (ConNode named.0 tag.0 (numbers_of fields.values.items)) ≡ true }
    requires fits { FormFits (N.lent store.old).limit (N.nodes store.old) (ConNode named.0 tag.0 (numbers_of fields.values.items)) }
    ensures read { ConIsRead (N.nodes store.old) (N.nodes store.new) named.0 tag.0 fields.entry result }
    ensures grows { Grows (N.nodes store.old) (N.nodes store.new) }
    ensures lent { N.lent store.new ≡ N.lent store.old }
{
    let value = store.put_constructor(named, tag, fields.values.as_slice())?;
    Ok(Front {
        value,
        behind: fields.behind,
    })
}

/// The array of a type, of elements that were read one after another. It is noted if it is spelled by nothing.
pub(crate) fn put_items_noted<'a, N: Nodes>(
    store: &mut N,
    nothings: &mut Nothings,
    ty: TyId,
    items: Fronts<'a>,
) -> Result<Front<'a>, UnspellFault>
    requires items { refers_below (length (N.nodes store.old)) (VecNode (numbers_of items.values.items)) ≡ true }
    requires count { is_length (length items.values.items) ≡ true }
    requires fits { FormFits (N.lent store.old).limit (N.nodes store.old) (VecNode (numbers_of items.values.items)) }
    ensures read { VecIsRead (N.nodes store.old) (N.nodes store.new) (length items.entry.values.items) items.entry result }
    ensures known { IfOk result
        (λ front. (types : Table) (tys : List Ty) (v : Value) → AreKnown types tys (N.nodes store.old) nothings.old
        → IsThere types (N.nodes store.new) front.value.0 (type_at tys ty) v → AreKnown types tys (N.nodes store.new) nothings.new) }
    ensures grows { Grows (N.nodes store.old) (N.nodes store.new) }
    ensures lent { N.lent store.new ≡ N.lent store.old }
{
    let array = put_items(store, items)?;
    nothings.note(store, ty, array.value)?;
    Ok(array)
}

/// The array of elements that were read one after another.
fn put_items<'a, N: Nodes>(store: &mut N, items: Fronts<'a>) -> Result<Front<'a>, UnspellFault>
    requires items { refers_below (length (N.nodes store.old)) (VecNode (numbers_of items.values.items)) ≡ true }
    requires count { is_length (length items.values.items) ≡ true }
    requires fits { FormFits (N.lent store.old).limit (N.nodes store.old) (VecNode (numbers_of items.values.items)) }
    ensures read { VecIsRead (N.nodes store.old) (N.nodes store.new) (length items.entry.values.items) items.entry result }
    ensures inside { IfOk result (λ front. front.value.0 < length (N.nodes store.new)) }
    ensures grows { Grows (N.nodes store.old) (N.nodes store.new) }
    ensures lent { N.lent store.new ≡ N.lent store.old }
{
    let value = store.put_vec(items.values.as_slice())?;
    Ok(Front {
        value,
        behind: items.behind,
    })
}
