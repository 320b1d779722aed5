// Reading the values that bytes spell into a store.
ghost use Rattle.std.specs.Prelude.{◌≡◌, ◌+◌, ◌≤◌, ◌<◌, suc, true, length, IfOk};
ghost use Rattle.core_terms.specs.Formats.{depth_limit};
ghost use Rattle.core_terms.specs.ProgramTypes.{types_by_number};
ghost use Rattle.core_terms.specs.Reading as meant;
ghost use Rattle.core_terms.specs.Types.{NamedTy, PairTy, VecTy, is_length};
ghost use Rattle.shallow_codec.specs.KnownNothings.{AreKnown};
ghost use Rattle.shallow_codec.specs.ProgramTypes.{table, ty_of, tys_of};
ghost use Rattle.shallow_codec.specs.PutValues.{AreRead, IsRead};
ghost use Rattle.value_store.specs.Standing.{Grows};

use crate::UnspellFault;
use crate::composites::{put_fields, put_items_noted, put_noted, read_head};
use crate::cursor::Cursor;
use crate::leaves::{known_nothing, put_leaf};
use crate::nothings::Nothings;
use core_terms::{NamedId, TyForm, TyId, Types, item_types};
use smallvec::SmallVec;
use std::alloc::Global;
use value_store::{Nodes, Ref};

/// A value that was read and put into a store, and the place behind it.
#[derive(Clone, Copy)]
pub(crate) struct Front<'a> {
    pub value: Ref,
    pub behind: Cursor<'a>,
}

/// Values that were read one after another and put into a store, and the place behind them.
#[derive(Drop)]
pub(crate) struct Fronts<'a> {
    pub values: SmallVec<Ref, 4>,
    pub behind: Cursor<'a>,
}

/// Reads values of a program's types. `levels` is the greatest number of levels that what is read may have; parts have one less. After
/// an error nodes may stand behind the others.
#[derive(Clone, Copy)]
pub(crate) struct Reader<'p> {
    pub types: &'p Types,
    pub alloc: Global,
}

impl Reader<'_> {
    /// The value of a type.
    #[cycle(values)]
    pub fn value<'a, N: Nodes>(
        &self,
        store: &mut N,
        nothings: &mut Nothings,
        ty: TyId,
        levels: u32,
        at: Cursor<'a>,
    ) -> Result<Front<'a>, UnspellFault>
        requires short { at.offset + length at.rest.now ≤ (N.lent store.old).limit }
        requires levels { levels ≤ depth_limit }
        requires known { AreKnown (table self.now.types.now) (types_by_number self.now.types.now) (N.nodes store.old) nothings.old }
        ensures read { IsRead (table self.now.types.now) (N.nodes store.new) levels (ty_of self.now.types.now ty) at.entry
            (meant.read_value (table self.now.types.now) levels (ty_of self.now.types.now ty) at.entry.rest.now at.entry.offset) result }
        ensures known { IfOk result (λ _. AreKnown (table self.now.types.now) (types_by_number self.now.types.now) (N.nodes store.new) nothings.new) }
        ensures grows { Grows (N.nodes store.old) (N.nodes store.new) }
        ensures lent { N.lent store.new ≡ N.lent store.old }
    {
        if levels == 0 {
            return Err(at.bad());
        }
        let form = self.types.form(ty);
        match form {
            TyForm::PairForm(first, second) => {
                self.pair(store, nothings, ty, (first, second), levels - 1, at)
            }
            TyForm::NamedForm(named) => self.constructor(store, nothings, named, levels - 1, at),
            TyForm::VecForm(len, item) => {
                self.array(store, nothings, ty, (len, item), levels - 1, at)
            }
            _ => put_leaf(store, form, at),
        }
    }

    /// The pair of a type, whose parts have these types and at most so many levels. One that is spelled by nothing is read once for its
    /// type.
    #[cycle(values)]
    fn pair<'a, N: Nodes>(
        &self,
        store: &mut N,
        nothings: &mut Nothings,
        ty: TyId,
        parts: (TyId, TyId),
        levels: u32,
        at: Cursor<'a>,
    ) -> Result<Front<'a>, UnspellFault>
        requires short { at.offset + length at.rest.now ≤ (N.lent store.old).limit }
        requires levels { levels < depth_limit }
        requires ty { ty_of self.now.types.now ty ≡ PairTy (ty_of self.now.types.now parts.0) (ty_of self.now.types.now parts.1) }
        requires known { AreKnown (table self.now.types.now) (types_by_number self.now.types.now) (N.nodes store.old) nothings.old }
        ensures read { IsRead (table self.now.types.now) (N.nodes store.new) (suc levels) (ty_of self.now.types.now ty) at.entry
            (meant.read_value (table self.now.types.now) (suc levels) (ty_of self.now.types.now ty) at.entry.rest.now at.entry.offset) result }
        ensures known { IfOk result (λ _. AreKnown (table self.now.types.now) (types_by_number self.now.types.now) (N.nodes store.new) nothings.new) }
        ensures grows { Grows (N.nodes store.old) (N.nodes store.new) }
        ensures lent { N.lent store.new ≡ N.lent store.old }
    {
        if let Some(value) = nothings.get(ty) {
            return known_nothing(store, value, levels + 1, at);
        }
        let first = self.value(store, nothings, parts.0, levels, at)?;
        let second = self.value(store, nothings, parts.1, levels, first.behind)?;
        put_noted(store, nothings, ty, first, second)
    }

    /// A value of a named type: its tag, and then the fields of its constructor, which have at most so many levels.
    #[cycle(values)]
    fn constructor<'a, N: Nodes>(
        &self,
        store: &mut N,
        nothings: &mut Nothings,
        named: NamedId,
        levels: u32,
        at: Cursor<'a>,
    ) -> Result<Front<'a>, UnspellFault>
        requires short { at.offset + length at.rest.now ≤ (N.lent store.old).limit }
        requires levels { levels < depth_limit }
        requires known { AreKnown (table self.now.types.now) (types_by_number self.now.types.now) (N.nodes store.old) nothings.old }
        ensures read { IsRead (table self.now.types.now) (N.nodes store.new) (suc levels) (NamedTy named.0) at.entry
            (meant.read_value (table self.now.types.now) (suc levels) (NamedTy named.0) at.entry.rest.now at.entry.offset) result }
        ensures known { IfOk result (λ _. AreKnown (table self.now.types.now) (types_by_number self.now.types.now) (N.nodes store.new) nothings.new) }
        ensures grows { Grows (N.nodes store.old) (N.nodes store.new) }
        ensures lent { N.lent store.new ≡ N.lent store.old }
    {
        let head = read_head(self.types, named, at)?;
        let fields = self.fields(store, nothings, head.types, levels, head.behind)?;
        put_fields(store, named, head.tag, fields)
    }

    /// The array of a type, of so many elements of another, which have at most so many levels. One that is spelled by nothing is read once
    /// for its type.
    #[cycle(values)]
    // Arrays are rare: inlined, this would slow each value.
    #[inline(never)]
    fn array<'a, N: Nodes>(
        &self,
        store: &mut N,
        nothings: &mut Nothings,
        ty: TyId,
        items: (u8, TyId),
        levels: u32,
        at: Cursor<'a>,
    ) -> Result<Front<'a>, UnspellFault>
        requires short { at.offset + length at.rest.now ≤ (N.lent store.old).limit }
        requires levels { levels < depth_limit }
        requires ty { ty_of self.now.types.now ty ≡ VecTy items.0 (ty_of self.now.types.now items.1) }
        requires count { is_length items.0 ≡ true }
        requires known { AreKnown (table self.now.types.now) (types_by_number self.now.types.now) (N.nodes store.old) nothings.old }
        ensures read { IsRead (table self.now.types.now) (N.nodes store.new) (suc levels) (ty_of self.now.types.now ty) at.entry
            (meant.read_value (table self.now.types.now) (suc levels) (ty_of self.now.types.now ty) at.entry.rest.now at.entry.offset) result }
        ensures known { IfOk result (λ _. AreKnown (table self.now.types.now) (types_by_number self.now.types.now) (N.nodes store.new) nothings.new) }
        ensures grows { Grows (N.nodes store.old) (N.nodes store.new) }
        ensures lent { N.lent store.new ≡ N.lent store.old }
    {
        if let Some(value) = nothings.get(ty) {
            return known_nothing(store, value, levels + 1, at);
        }
        let types = item_types(items.1, items.0, self.alloc)?;
        let fields = self.fields(store, nothings, &types, levels, at)?;
        put_items_noted(store, nothings, ty, fields)
    }

    /// Values of these types, one after another.
    #[cycle(values)]
    #[inline(always)]
    fn fields<'a, N: Nodes>(
        &self,
        store: &mut N,
        nothings: &mut Nothings,
        types: &[TyId],
        levels: u32,
        at: Cursor<'a>,
    ) -> Result<Fronts<'a>, UnspellFault>
        requires short { at.offset + length at.rest.now ≤ (N.lent store.old).limit }
        requires levels { levels < depth_limit }
        requires known { AreKnown (table self.now.types.now) (types_by_number self.now.types.now) (N.nodes store.old) nothings.old }
        ensures read { AreRead (table self.now.types.now) (N.nodes store.new) levels (tys_of self.now.types.now types.now) at.entry
            (meant.read_each (meant.read_value (table self.now.types.now) levels) (tys_of self.now.types.now types.now) at.entry.rest.now at.entry.offset) result }
        ensures known { IfOk result (λ _. AreKnown (table self.now.types.now) (types_by_number self.now.types.now) (N.nodes store.new) nothings.new) }
        ensures grows { Grows (N.nodes store.old) (N.nodes store.new) }
        ensures lent { N.lent store.new ≡ N.lent store.old }
    {
        let mut values = SmallVec::new(self.alloc);
        let mut behind = at;
        for ty in types {
            let front = self.value(store, nothings, *ty, levels, behind)?;
            values.push(front.value)?;
            behind = front.behind;
        }
        Ok(Fronts { values, behind })
    }
}
