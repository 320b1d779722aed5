// The instructions on arrays. They are rare, so they are not inlined into the loop that does every instruction.
ghost use Rattle.std.specs.Prelude.{◌≡◌, ◌+◌, ◌<◌, ◌^◌, ℕ, true, IfOk, length, nat_lt, replicate, slice_set};
ghost use Rattle.std.specs.List.{list_all};
ghost use Rattle.core_terms.specs.Instructions as instruction;
ghost use Rattle.core_terms.specs.Types.{IntTy, Table, Ty, VecTy, is_length, item_types};
ghost use Rattle.core_terms.specs.Values.{ItemsV, Value, Values};
ghost use Rattle.ideal_meaning.specs.Run as meant;
ghost use Rattle.value_store.specs.CodeNodes.{numbers_of};
ghost use Rattle.value_store.specs.Markings.{HasLimit, Marking};
ghost use Rattle.value_store.specs.Standing.{AllStandFor, Keeps, Kind, StandsFor};
ghost use Rattle.mode_vm.specs.Meanings.{program_of};
ghost use Rattle.mode_vm.specs.Calculations.{Makes};
ghost use Rattle.mode_vm.specs.Operands.{IsHeld};
ghost use Rattle.mode_vm.specs.Places.{IsPlace};

use crate::frame::Frame;
use crate::limits::DEPTH_LIMIT;
use crate::operand::{Operand, place};
use crate::values::{int_in, items_in};
use code_gen::Code;
use core_terms::Trap;
use std::alloc::{AllocError, Global};
use value_store::{Nodes, Ref};

impl Frame {
    ghost use Rattle.mode_vm.specs.Outcomes.{Does, IsBefore};

    /// Pushes an array of so many times the top operand, where it is within the limits.
    #[inline(never)]
    pub(crate) fn fill<N: Nodes>(
        &mut self,
        code: &Code,
        store: &mut N,
        count: u8,
    ) -> Result<Option<Trap>, AllocError>
        requires before { IsBefore (program_of code.now) (N.nodes store.old) self.old (instruction.VecFill count) }
        requires limit { HasLimit (program_of code.now) (N.lent store.old) }
        requires room { self.old.place + 1 < 2 ^ 64 }
        ensures does { Does (program_of code.now) (instruction.VecFill count) (N.nodes store.old) (N.nodes store.new) self.old self.new result }
        ensures keeps { Keeps (N.nodes store.old) (N.nodes store.new) }
        ensures lent { N.lent store.new ≡ N.lent store.old }
    {
        let top = self.pop();
        let item = place(store, top)?;
        let made = new_filled(store, item, count)?;
        self.finish(made)
    }

    /// Pushes the element of an array at an int, where it has one there.
    #[inline(never)]
    pub(crate) fn element<N: Nodes>(
        &mut self,
        code: &Code,
        store: &N,
    ) -> Result<Option<Trap>, AllocError>
        requires before { IsBefore (program_of code.now) (N.nodes store.now) self.old instruction.VecGet }
        requires room { self.old.place + 1 < 2 ^ 64 }
        ensures does { Does (program_of code.now) instruction.VecGet (N.nodes store.now) (N.nodes store.now) self.old self.new result }
    {
        let (array, index) = self.pop_two();
        let made = element_at(store, array, index);
        self.finish(made)
    }

    /// Pushes an array with its element at an int replaced, where it has one there and the array is within the limits.
    #[inline(never)]
    pub(crate) fn replace<N: Nodes>(
        &mut self,
        code: &Code,
        store: &mut N,
    ) -> Result<Option<Trap>, AllocError>
        requires before { IsBefore (program_of code.now) (N.nodes store.old) self.old instruction.VecPut }
        requires limit { HasLimit (program_of code.now) (N.lent store.old) }
        requires room { self.old.place + 1 < 2 ^ 64 }
        ensures does { Does (program_of code.now) instruction.VecPut (N.nodes store.old) (N.nodes store.new) self.old self.new result }
        ensures keeps { Keeps (N.nodes store.old) (N.nodes store.new) }
        ensures lent { N.lent store.new ≡ N.lent store.old }
    {
        let (array, index, item) = self.pop_three();
        let item = place(store, item)?;
        let made = new_replaced(store, array, index, item)?;
        self.finish(made)
    }
}

/// Puts an array of so many times a value, where it is within the limits.
fn new_filled<N: Nodes>(
    store: &mut N,
    item: Ref,
    count: u8,
) -> Result<Result<Operand, Trap>, AllocError>
    requires item { item.0 < length (N.nodes store.old) }
    requires count { is_length count ≡ true }
    ensures makes { (limit : ℕ) → (N.lent store.old).limit ≡ limit → (m : Marking) (kind : Kind) (types : Table) (t : Ty) (v : Value) → StandsFor kind types (N.nodes store.old) item.0 t v
        → IfOk result (Makes m kind types (N.nodes store.new) (VecTy count t) (meant.fill_of limit types count t v)) }
    ensures keeps { Keeps (N.nodes store.old) (N.nodes store.new) }
    ensures lent { N.lent store.new ≡ N.lent store.old }
{
    let items = filled(store.alloc(), item, count)?;
    new_array(store, &items)
}

/// So many times a node.
fn filled(alloc: Global, item: Ref, count: u8) -> Result<Vec<Ref>, AllocError>
    ensures { IfOk result (λ items. items.items ≡ replicate count item) }
{
    let items = vec![in alloc; item; usize::from(count)]?;
    Ok(items)
}

/// The element of an array at an int.
fn element_at<N: Nodes>(store: &N, array: Operand, index: Operand) -> Result<Operand, Trap>
    requires array { (kind : Kind) × (types : Table) × (n : ℕ) × (t : Ty) × (v : Value) × IsHeld kind types (N.nodes store.now) array (VecTy n t) v }
    requires index { (kind : Kind) × (types : Table) × (v : Value) × IsHeld kind types (N.nodes store.now) index IntTy v }
    ensures { (m : Marking) (kind : Kind) (types : Table) (n : ℕ) (t : Ty) (u v : Value) → IsHeld kind types (N.nodes store.now) array (VecTy n t) u
        → IsHeld kind types (N.nodes store.now) index IntTy v → Makes m kind types (N.nodes store.now) t (meant.get_of n (meant.items_in u) (meant.int_in v)) result }
{
    let items = items_in(store, array);
    match place_of(int_in(store, index), items.len()) {
        Some(place) => Ok(Operand::At(items[place])),
        None => Err(Trap::Index),
    }
}

/// Puts an array with its element at an int replaced, where it has one there and the array is within the limits.
fn new_replaced<N: Nodes>(
    store: &mut N,
    array: Operand,
    index: Operand,
    item: Ref,
) -> Result<Result<Operand, Trap>, AllocError>
    requires array { (kind : Kind) × (types : Table) × (n : ℕ) × (t : Ty) × (v : Value) × IsHeld kind types (N.nodes store.old) array (VecTy n t) v }
    requires index { (kind : Kind) × (types : Table) × (v : Value) × IsHeld kind types (N.nodes store.old) index IntTy v }
    requires item { item.0 < length (N.nodes store.old) }
    ensures makes { (limit : ℕ) → (N.lent store.old).limit ≡ limit → (m : Marking) (kind : Kind) (types : Table) (n : ℕ) (t : Ty) (u v w : Value) → IsHeld kind types (N.nodes store.old) array (VecTy n t) u
        → IsHeld kind types (N.nodes store.old) index IntTy v → StandsFor kind types (N.nodes store.old) item.0 t w
        → IfOk result (Makes m kind types (N.nodes store.new) (VecTy n t) (meant.put_of limit types n t (meant.items_in u) (meant.int_in v) w)) }
    ensures keeps { Keeps (N.nodes store.old) (N.nodes store.new) }
    ensures lent { N.lent store.new ≡ N.lent store.old }
{
    let items = items_in(store, array);
    let Some(place) = place_of(int_in(store, index), items.len()) else {
        return Ok(Err(Trap::Index));
    };
    let items = with_at(store.alloc(), items, place, item)?;
    new_array(store, &items)
}

/// The nodes, with another one at a place.
fn with_at(alloc: Global, items: &[Ref], place: usize, item: Ref) -> Result<Vec<Ref>, AllocError>
    requires { place < length items.now }
    ensures { IfOk result (λ new. new.items ≡ slice_set items.now place item) }
{
    let mut new = items.to_vec(alloc)?;
    new[place] = item;
    Ok(new)
}

/// Puts an array, where it is within the limits.
fn new_array<N: Nodes>(store: &mut N, items: &[Ref]) -> Result<Result<Operand, Trap>, AllocError>
    requires items { list_all (λ r. nat_lt r (length (N.nodes store.old))) (numbers_of items.now) ≡ true }
    requires count { is_length (length items.now) ≡ true }
    ensures makes { (limit : ℕ) → (N.lent store.old).limit ≡ limit → (m : Marking) (kind : Kind) (types : Table) (t : Ty) (vs : Values) → AllStandFor kind types (N.nodes store.old) (numbers_of items.now) (item_types (length items.now) t) vs
        → IfOk result (Makes m kind types (N.nodes store.new) (VecTy (length items.now) t) (meant.limited limit types (VecTy (length items.now) t) (ItemsV vs))) }
    ensures keeps { Keeps (N.nodes store.old) (N.nodes store.new) }
    ensures lent { N.lent store.new ≡ N.lent store.old }
{
    if !store.sizes_fit(items, store.limit()) {
        return Ok(Err(Trap::TooBig));
    }
    if !store.depths_fit(items, DEPTH_LIMIT - 1) {
        return Ok(Err(Trap::TooDeep));
    }
    let r = store.put_vec(items)?;
    Ok(Ok(Operand::At(r)))
}

/// The place of an element of an array of so many at an int.
fn place_of(index: i64, count: usize) -> Option<usize>
    ensures { IsPlace index count result }
{
    if index < 0 {
        return None;
    }
    let place = index as usize;
    if place < count { Some(place) } else { None }
}
