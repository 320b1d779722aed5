// Own nodes that a store takes over.
ghost use Rattle.std.specs.Prelude.{◌≡◌, ◌⊎◌, ◌<◌, ◌≤◌, ◌+◌, ◌-◌, ◌^◌, ◌++◌, ℕ, true, List, Some, length, map, take, slice_get, IfOk, OnErr};
ghost use Rattle.core_terms.specs.Types.{Ty, Table};
ghost use Rattle.core_terms.specs.Values.{Value};
ghost use Rattle.value_store.specs.CodeNodes.{numbers_of};
ghost use Rattle.value_store.specs.Nodes.{AreSound, Node as Meant, refers_below};
ghost use Rattle.value_store.specs.Moving.{absorbed, moved_ref};
ghost use Rattle.value_store.specs.Packing.{packed_nodes};
ghost use Rattle.value_store.specs.Placing.{ArePlaced, Rise};
ghost use Rattle.value_store.specs.declared.node.Node.{Node as Coded};
ghost use Rattle.value_store.specs.Shifting.{FormShifts, IsRoomFor, NodeShifts, joined_nodes, shifted_form, shifted_node, wrapped_ref};
ghost use Rattle.value_store.specs.Standing.{Grows, Keeps, Kind, StandsFor};

use crate::node::{Form, Node, Ref};
use crate::over::Own;
use crate::packed::{Packed, fitting};
use crate::store::Store;
use core_terms::Digest;
use std::alloc::AllocError;

/// How far nodes go: the numbers from `from` on go up, and what they have in the pools goes behind what stands there.
#[derive(Clone, Copy)]
pub struct Shift {
    pub from: usize,
    pub up: usize,
    pub parts: u32,
    pub digests: u32,
}

impl Store {
    ghost use Rattle.value_store.specs.Overs.{own_nodes};
    ghost use Rattle.value_store.specs.Stores.{nodes_in};

    /// Takes own nodes over, which were put over the first `from` nodes: puts them behind all nodes, with the numbers in them moved,
    /// and gives the node that stands for what r stood for. Where memory is wanting nothing is changed.
    pub fn absorb(&mut self, own: Own, from: usize, r: Ref) -> Result<Ref, AllocError>
        requires within { from ≤ length (nodes_in self.old) }
        requires sound { AreSound self.old.limit (take from (nodes_in self.old) ++ own_nodes own) }
        requires there { r.0 < from + length (own_nodes own) }
        ensures nodes { IfOk result (λ s. nodes_in self.new ≡ absorbed from (nodes_in self.old) (own_nodes own)) }
        ensures refused { OnErr result (nodes_in self.new ≡ nodes_in self.old) }
        ensures stands { IfOk result (λ s. (kind : Kind) (types : Table) (t : Ty) (v : Value)
            → StandsFor kind types (take from (nodes_in self.old) ++ own_nodes own) r.0 t v → StandsFor kind types (nodes_in self.new) s.0 t v) }
        ensures keeps { Keeps (nodes_in self.old) (nodes_in self.new) }
        ensures grows { Grows (nodes_in self.old) (nodes_in self.new) }
        ensures limit { self.new.limit ≡ self.old.limit }
    {
        let up = self.packed.len() - from;
        let Own { packed, alloc: _ } = own;
        self.packed.absorb(packed, from)?;
        Ok(moved(r, from, up))
    }
}

impl Packed {
    /// Takes nodes over that were put behind the first `from` nodes, with what they have in their pools. Where memory is wanting no
    /// node is changed.
    fn absorb(&mut self, own: Packed, from: usize) -> Result<(), AllocError>
        requires within { from ≤ length (packed_nodes self.old) }
        requires refers { (i : ℕ) (node : Meant) → slice_get (packed_nodes own) i ≡ Some node → refers_below (from + length (packed_nodes own)) node.form ≡ true }
        ensures nodes { IfOk result (λ _. packed_nodes self.new ≡ absorbed from (packed_nodes self.old) (packed_nodes own)) }
        ensures refused { OnErr result (packed_nodes self.new ≡ packed_nodes self.old) }
        ensures either { (packed_nodes self.new ≡ packed_nodes self.old) ⊎ (packed_nodes self.new ≡ absorbed from (packed_nodes self.old) (packed_nodes own)) }
    {
        let shift = self.shift_for(&own, from)?;
        let Packed {
            mut nodes,
            mut parts,
            digests,
        } = own;
        move_all(&mut parts, from, shift.up);
        move_nodes(&mut nodes, shift);
        self.join(nodes, parts, digests)
    }

    /// How far nodes go that are put behind the first `from` nodes. Where their numbers there don't fit 32 bits, they are refused as
    /// if memory were wanting.
    fn shift_for(&self, own: &Packed, from: usize) -> Result<Shift, AllocError>
        requires { from ≤ length (packed_nodes self.now) }
        ensures { IfOk result (λ shift. IsRoomFor self.now own.now from shift) }
    {
        fitting(self.nodes.len() + own.nodes.len())?;
        fitting(self.parts.len() + own.parts.len())?;
        fitting(self.digests.len() + own.digests.len())?;
        Ok(Shift {
            from,
            up: self.nodes.len() - from,
            parts: self.parts.len() as u32,
            digests: self.digests.len() as u32,
        })
    }

    /// Puts nodes behind all nodes, and what they have in pools behind the pools. Where memory is wanting no node is changed.
    fn join(
        &mut self,
        mut nodes: Vec<Node>,
        mut parts: Vec<Ref>,
        mut digests: Vec<Digest>,
    ) -> Result<(), AllocError>
        requires placed { ArePlaced (self.old.parts.items ++ parts.items) (self.old.digests.items ++ digests.items) (self.old.nodes.items ++ nodes.items) }
        requires rise { Rise (self.old.nodes.items ++ nodes.items) }
        ensures joined { IfOk result (λ _. packed_nodes self.new ≡ joined_nodes self.old nodes.items parts.items digests.items) }
        ensures refused { OnErr result (packed_nodes self.new ≡ packed_nodes self.old) }
    {
        self.parts.append(&mut parts)?;
        self.digests.append(&mut digests)?;
        self.nodes.append(&mut nodes)?;
        Ok(())
    }
}

/// Where a node goes.
fn moved(r: Ref, from: usize, up: usize) -> Ref
    requires { r.0 + up < 2 ^ 64 }
    ensures { result.0 ≡ moved_ref from up r.0 }
{
    if r.0 < from { r } else { Ref(r.0 + up) }
}

/// The same of a part in a pool. One that is no node's part, as is left where memory was wanting, may wrap.
fn moved_part(r: Ref, from: usize, up: usize) -> Ref
    ensures { result.0 ≡ wrapped_ref from up r.0 }
{
    if r.0 < from {
        r
    } else {
        Ref(r.0.wrapping_add(up))
    }
}

/// Moves parts in a pool.
fn move_all(refs: &mut [Ref], from: usize, up: usize)
    ensures { numbers_of refs.new ≡ map (wrapped_ref from up) (numbers_of refs.old) }
{
    for r in refs.iter_mut() {
        *r = moved_part(*r, from, up);
    }
}

/// Moves the numbers in a form.
fn move_form(form: &mut Form, shift: Shift)
    requires { FormShifts shift form.old }
    ensures { form.new ≡ shifted_form shift form.old }
{
    match form {
        Form::PairNode { first, second, .. } => {
            *first = moved(Ref(*first as usize), shift.from, shift.up).0 as u32;
            *second = moved(Ref(*second as usize), shift.from, shift.up).0 as u32;
        }
        Form::ConstructorNode { start, .. } => *start += shift.parts,
        Form::VecNode { start, .. } => *start += shift.parts,
        Form::InnerNode(inner) => *inner = moved(*inner, shift.from, shift.up),
        Form::BothNode(digest, inner) => {
            *digest += shift.digests;
            *inner = moved(*inner, shift.from, shift.up);
        }
        Form::OnlyNode(digest) => *digest += shift.digests,
        _ => {}
    }
}

/// Moves the numbers in nodes.
fn move_nodes(nodes: &mut [Node], shift: Shift)
    requires { (i : ℕ) (node : Coded) → slice_get nodes.old i ≡ Some node → NodeShifts shift node }
    ensures { nodes.new ≡ map (shifted_node shift) nodes.old }
{
    for node in nodes.iter_mut() {
        move_form(&mut node.form, shift);
        node.ends.parts += shift.parts;
        node.ends.digests += shift.digests;
    }
}
