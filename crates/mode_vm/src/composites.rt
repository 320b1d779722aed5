// The instructions on pairs and constructors.
ghost use Rattle.std.specs.Prelude.{◌≡◌, ◌+◌, ◌<◌, ◌^◌, ℕ, true, List, IfOk, Some, length, nat_lt};
ghost use Rattle.core_terms.specs.Instructions as instruction;
ghost use Rattle.std.specs.List.{list_all};
ghost use Rattle.core_terms.specs.ProgramTypes.{named_table};
ghost use Rattle.core_terms.specs.Types.{NamedTy, PairTy, Table, Ty, fields_at};
ghost use Rattle.core_terms.specs.Values.{ConV, PairV, Value, Values};
ghost use Rattle.ideal_meaning.specs.Run as meant;
ghost use Rattle.value_store.specs.CodeNodes.{numbers_of};
ghost use Rattle.value_store.specs.Markings.{HasLimit, Marking};
ghost use Rattle.value_store.specs.Standing.{AllStandFor, Keeps, Kind, StandsFor};
ghost use Rattle.core_terms.specs.GeneratedCode as code_meant;
ghost use Rattle.mode_vm.specs.Meanings.{program_of};
ghost use Rattle.mode_vm.specs.Calculations.{Makes};

use crate::frame::Frame;
use crate::limits::DEPTH_LIMIT;
use crate::operand::{Operand, place, place_all};
use crate::values::parts_in;
use code_gen::Code;
use core_terms::{NamedId, Tag, Trap, Types};
use shallow_codec::field_types;
use std::alloc::AllocError;
use value_store::{Nodes, Ref};

impl Frame {
    ghost use Rattle.mode_vm.specs.Outcomes.{Does, IsBefore};

    /// Pushes the pair of the two top operands, where it is within the limits.
    #[inline(always)]
    pub(crate) fn pair<N: Nodes>(
        &mut self,
        code: &Code,
        store: &mut N,
    ) -> Result<Option<Trap>, AllocError>
        requires before { IsBefore (program_of code.now) (N.nodes store.old) self.old instruction.Pair }
        requires limit { HasLimit (program_of code.now) (N.lent store.old) }
        requires room { self.old.place + 1 < 2 ^ 64 }
        ensures does { Does (program_of code.now) instruction.Pair (N.nodes store.old) (N.nodes store.new) self.old self.new result }
        ensures keeps { Keeps (N.nodes store.old) (N.nodes store.new) }
        ensures lent { N.lent store.new ≡ N.lent store.old }
    {
        let (first, second) = self.pop_two();
        let first = place(store, first)?;
        let second = place(store, second)?;
        let made = new_pair(store, first, second)?;
        self.finish(made)
    }

    /// Pushes the first of a pair.
    pub(crate) fn first<N: Nodes>(
        &mut self,
        code: &Code,
        store: &N,
    ) -> Result<Option<Trap>, AllocError>
        requires before { IsBefore (program_of code.now) (N.nodes store.now) self.old instruction.Fst }
        requires room { self.old.place + 1 < 2 ^ 64 }
        ensures does { Does (program_of code.now) instruction.Fst (N.nodes store.now) (N.nodes store.now) self.old self.new result }
    {
        let r = self.pop();
        let (first, _) = parts_in(store, r);
        self.finish(Ok(Operand::At(first)))
    }

    /// Pushes the second of a pair.
    pub(crate) fn second<N: Nodes>(
        &mut self,
        code: &Code,
        store: &N,
    ) -> Result<Option<Trap>, AllocError>
        requires before { IsBefore (program_of code.now) (N.nodes store.now) self.old instruction.Snd }
        requires room { self.old.place + 1 < 2 ^ 64 }
        ensures does { Does (program_of code.now) instruction.Snd (N.nodes store.now) (N.nodes store.now) self.old self.new result }
    {
        let r = self.pop();
        let (_, second) = parts_in(store, r);
        self.finish(Ok(Operand::At(second)))
    }

    /// Pushes a constructor value of as many operands as the constructor has fields, where it is within the limits. Their nodes are
    /// written into the room for them.
    #[inline(always)]
    pub(crate) fn make<N: Nodes>(
        &mut self,
        code: &Code,
        store: &mut N,
        named: NamedId,
        tag: Tag,
        fields: &mut Vec<Ref>,
    ) -> Result<Option<Trap>, AllocError>
        requires before { IsBefore (program_of code.now) (N.nodes store.old) self.old (instruction.Make named.0 tag.0) }
        requires limit { HasLimit (program_of code.now) (N.lent store.old) }
        requires room { self.old.place + 1 < 2 ^ 64 }
        ensures does { Does (program_of code.now) (instruction.Make named.0 tag.0) (N.nodes store.old) (N.nodes store.new) self.old self.new result }
        ensures keeps { Keeps (N.nodes store.old) (N.nodes store.new) }
        ensures lent { N.lent store.new ≡ N.lent store.old }
    {
        let count = field_count(code.types(), named, tag);
        place_all(store, self.operands.topmost(count), fields)?;
        self.operands.drop_last(count);
        let made = new_constructor(store, named, tag, &*fields)?;
        self.finish(made)
    }
}

/// Puts a pair, where it is within the limits.
#[inline(always)]
fn new_pair<N: Nodes>(
    store: &mut N,
    first: Ref,
    second: Ref,
) -> Result<Result<Operand, Trap>, AllocError>
    requires first { first.0 < length (N.nodes store.old) }
    requires second { second.0 < length (N.nodes store.old) }
    ensures makes { (limit : ℕ) → (N.lent store.old).limit ≡ limit → (m : Marking) (kind : Kind) (types : Table) (a b : Ty) (x y : Value) → StandsFor kind types (N.nodes store.old) first.0 a x → StandsFor kind types (N.nodes store.old) second.0 b y
        → IfOk result (Makes m kind types (N.nodes store.new) (PairTy a b) (meant.limited limit types (PairTy a b) (PairV x y))) }
    ensures keeps { Keeps (N.nodes store.old) (N.nodes store.new) }
    ensures lent { N.lent store.new ≡ N.lent store.old }
{
    if store.shallow_size(first) + store.shallow_size(second) > store.limit() {
        return Ok(Err(Trap::TooBig));
    }
    if store.shallow_depth(first).max(store.shallow_depth(second)) >= DEPTH_LIMIT {
        return Ok(Err(Trap::TooDeep));
    }
    let r = store.put_pair(first, second)?;
    Ok(Ok(Operand::At(r)))
}

/// The number of fields of a constructor; 0 where there is no such constructor.
#[inline(always)]
fn field_count(types: &Types, named: NamedId, tag: Tag) -> usize
    ensures { result ≡ code_meant.field_count (named_table types.now) named.0 tag.0 }
{
    match field_types(types, named, tag.0) {
        Some(fields) => fields.len(),
        None => 0,
    }
}

/// Puts a constructor value, where it is within the limits.
#[inline(always)]
fn new_constructor<N: Nodes>(
    store: &mut N,
    named: NamedId,
    tag: Tag,
    fields: &[Ref],
) -> Result<Result<Operand, Trap>, AllocError>
    requires fields { list_all (λ r. nat_lt r (length (N.nodes store.old))) (numbers_of fields.now) ≡ true }
    ensures makes { (limit : ℕ) → (N.lent store.old).limit ≡ limit → (m : Marking) (kind : Kind) (types : Table) (ts : List Ty) (vs : Values) → fields_at types named.0 tag.0 ≡ Some ts
        → AllStandFor kind types (N.nodes store.old) (numbers_of fields.now) ts vs
        → IfOk result (Makes m kind types (N.nodes store.new) (NamedTy named.0) (meant.limited limit types (NamedTy named.0) (ConV tag.0 vs))) }
    ensures keeps { Keeps (N.nodes store.old) (N.nodes store.new) }
    ensures lent { N.lent store.new ≡ N.lent store.old }
{
    if !store.sizes_fit(fields, store.limit() - 1) {
        return Ok(Err(Trap::TooBig));
    }
    if !store.depths_fit(fields, DEPTH_LIMIT - 1) {
        return Ok(Err(Trap::TooDeep));
    }
    let r = store.put_constructor(named, tag, fields)?;
    Ok(Ok(Operand::At(r)))
}
