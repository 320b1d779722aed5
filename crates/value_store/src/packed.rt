// A list of nodes, packed: the nodes take 24 bytes each, and pools hold their parts and digests.
ghost use Rattle.std.specs.Prelude.{◌≡◌, ◌<◌, ◌≤◌, ℕ, List, [], Some, length, take, slice_get, slice_range, IfOk};
ghost use Rattle.std.specs.String.{string_bytes};
ghost use Rattle.core_terms.specs.Formats.{depth_limit};
ghost use Rattle.value_store.specs.CodeNodes.{digest_in, form_of, held_of, node_with_end, numbers_of};
ghost use Rattle.value_store.specs.Nodes.{AuthNode, BothHeld, ConNode, Node as Meant, OnlyHeld, PairNode, TextNode, VecNode, depth_at, form_at, form_depth, form_size, size_at};
ghost use Rattle.value_store.specs.Placing.{Adds, ArePlaced, FirstEndBy, LiesBefore, Rise, digests_to, parts_from, with_parts};

use crate::node::{DIGEST_SIZE, Ends, Form, Held, INT_SIZE, Node, Ref};
use crate::view::View;
use core_terms::{Digest, NamedId, Tag};
use std::alloc::{AllocError, Global};

/// How many nodes there is room for at first.
const FIRST_NODES: usize = 128;

/// How many of their parts.
const FIRST_PARTS: usize = 128;

/// How many of their digests.
const FIRST_DIGESTS: usize = 32;

/// Nodes, with the pools that hold their parts and digests. Each node keeps where the pools end behind it.
#[derive(Drop)]
pub struct Packed {
    pub(crate) nodes: Vec<Node>,
    pub(crate) parts: Vec<Ref>,
    pub(crate) digests: Vec<Digest>,
    ghost placed: { ArePlaced parts.items digests.items nodes.items },
    ghost rise: { Rise nodes.items },
}

impl Packed {
    ghost use Rattle.value_store.specs.Packing.{packed_nodes};
    ghost use Rattle.value_store.specs.Views.{form_shown};

    /// No nodes, with room for some where there is memory: else it is asked for as they are put.
    pub(crate) fn new(alloc: Global) -> Packed
        ensures { packed_nodes result ≡ [] }
    {
        let mut nodes = Vec::new(alloc);
        let mut parts = Vec::new(alloc);
        let mut digests = Vec::new(alloc);
        let _ = nodes.reserve(FIRST_NODES);
        let _ = parts.reserve(FIRST_PARTS);
        let _ = digests.reserve(FIRST_DIGESTS);
        Packed {
            nodes,
            parts,
            digests,
        }
    }

    /// The number of nodes.
    pub(crate) fn len(&self) -> usize
        ensures { result ≡ length (packed_nodes self.now) }
    {
        self.nodes.len()
    }

    /// Adds a node of the form that is shown, which has this size and depth. Where memory is wanting, and where a number in it doesn't
    /// fit 32 bits, which is refused as if memory were wanting, no node is changed.
    // The form is known where a node is put: inlined, no other form is asked for.
    #[inline(always)]
    pub(crate) fn put(
        &mut self,
        alloc: Global,
        form: View<'_>,
        size: u32,
        depth: u32,
    ) -> Result<(), AllocError>
        requires told { (nodes : List Meant) × (size ≡ form_size nodes (form_shown form)) × (depth ≡ form_depth nodes (form_shown form)) }
        requires depth { depth ≤ depth_limit }
        ensures { Adds (packed_nodes self.old) (with_parts (form_shown form.entry) size depth) result (packed_nodes self.new) }
    {
        let depth = depth as u16;
        match form {
            View::Unit => self.add(Form::UnitNode),
            View::Bool(value) => self.add(Form::BoolNode(value)),
            View::Int(value) => self.add(Form::IntNode(value)),
            View::Text(text) => self.add_text(alloc, text, size),
            View::Pair(first, second) => self.add_pair(first, second, size, depth),
            View::Constructor(named, tag, fields) => {
                self.add_constructor(named, tag, fields, size, depth)
            }
            View::Items(items) => self.add_array(items, size, depth),
            View::Auth(held) => self.add_held(held),
        }
    }

    fn add_text(&mut self, alloc: Global, text: &str, size: u32) -> Result<(), AllocError>
        ensures { Adds (packed_nodes self.old) (with_parts (TextNode text.now) size 1) result (packed_nodes self.new) }
    {
        let text = boxed(alloc, text)?;
        self.add(Form::TextNode(size, text))
    }

    #[inline(always)]
    fn add_pair(&mut self, first: Ref, second: Ref, size: u32, depth: u16) -> Result<(), AllocError>
        ensures { Adds (packed_nodes self.old) (with_parts (PairNode first.0 second.0) size depth) result (packed_nodes self.new) }
    {
        let first = fitting(first.0)?;
        let second = fitting(second.0)?;
        self.add(Form::PairNode {
            depth,
            size,
            first,
            second,
        })
    }

    #[inline(always)]
    fn add_constructor(
        &mut self,
        named: NamedId,
        tag: Tag,
        fields: &[Ref],
        size: u32,
        depth: u16,
    ) -> Result<(), AllocError>
        ensures { Adds (packed_nodes self.old) (with_parts (ConNode named.0 tag.0 (numbers_of fields.now)) size depth) result (packed_nodes self.new) }
    {
        let named = fitting(named.0)?;
        let start = self.keep_parts(fields)?;
        self.add(Form::ConstructorNode {
            tag,
            depth,
            size,
            named,
            start,
        })
    }

    fn add_array(&mut self, items: &[Ref], size: u32, depth: u16) -> Result<(), AllocError>
        ensures { Adds (packed_nodes self.old) (with_parts (VecNode (numbers_of items.now)) size depth) result (packed_nodes self.new) }
    {
        let start = self.keep_parts(items)?;
        self.add(Form::VecNode { depth, size, start })
    }

    #[inline(always)]
    fn add_held(&mut self, held: Held) -> Result<(), AllocError>
        ensures { Adds (packed_nodes self.old) (with_parts (AuthNode (held_of held)) 32 1) result (packed_nodes self.new) }
    {
        match held {
            Held::Inner(inner) => self.add(Form::InnerNode(inner)),
            Held::Both(digest, inner) => self.add_both(digest, inner),
            Held::Only(digest) => self.add_only(digest),
        }
    }

    #[inline(always)]
    fn add_both(&mut self, digest: Digest, inner: Ref) -> Result<(), AllocError>
        ensures { Adds (packed_nodes self.old) (with_parts (AuthNode (BothHeld digest.0 inner.0)) 32 1) result (packed_nodes self.new) }
    {
        let number = self.keep_digest(digest)?;
        self.add(Form::BothNode(number, inner))
    }

    #[inline(always)]
    fn add_only(&mut self, digest: Digest) -> Result<(), AllocError>
        ensures { Adds (packed_nodes self.old) (with_parts (AuthNode (OnlyHeld digest.0)) 32 1) result (packed_nodes self.new) }
    {
        let number = self.keep_digest(digest)?;
        self.add(Form::OnlyNode(number))
    }

    /// Adds a node of this form, whose parts and digest end the pools.
    #[inline(always)]
    fn add(&mut self, form: Form) -> Result<(), AllocError>
        requires lies { LiesBefore (length self.old.parts.items) (length self.old.digests.items) form }
        ensures { Adds (packed_nodes self.old) (node_with_end self.old.parts.items self.old.digests.items (length self.old.parts.items) form) result (packed_nodes self.new) }
    {
        let ends = Ends {
            parts: fitting(self.parts.len())?,
            digests: fitting(self.digests.len())?,
        };
        self.nodes.push(Node { form, ends })?;
        Ok(())
    }

    /// Puts parts into the pool, and gives where they begin. No node is changed.
    #[inline(always)]
    fn keep_parts(&mut self, parts: &[Ref]) -> Result<u32, AllocError>
        ensures nodes { packed_nodes self.new ≡ packed_nodes self.old }
        ensures start { IfOk result (λ start. start ≤ length self.new.parts.items) }
        ensures kept { IfOk result (λ start. slice_range self.new.parts.items start (length self.new.parts.items) ≡ parts.now) }
    {
        let start = fitting(self.parts.len())?;
        self.parts.extend_from_slice(parts)?;
        Ok(start)
    }

    /// Puts a digest into the pool, and gives its number there. No node is changed.
    #[inline(always)]
    fn keep_digest(&mut self, digest: Digest) -> Result<u32, AllocError>
        ensures nodes { packed_nodes self.new ≡ packed_nodes self.old }
        ensures within { IfOk result (λ number. number < length self.new.digests.items) }
        ensures kept { IfOk result (λ number. slice_get self.new.digests.items number ≡ Some digest) }
    {
        let number = fitting(self.digests.len())?;
        self.digests.push(digest)?;
        Ok(number)
    }

    /// What the node with this number shows. Takes no memory.
    // Where a node is looked at, what is shown is matched at once: inlined, it isn't made first.
    #[inline(always)]
    pub(crate) fn view(&self, number: usize) -> View<'_>
        requires { number < length (packed_nodes self.now) }
        ensures { form_at (packed_nodes self.now) number ≡ Some (form_shown result) }
    {
        let node = &self.nodes[number];
        self.shown(&node.form, node.ends.parts)
    }

    /// What is shown of a node of this form, whose parts end there.
    #[inline(always)]
    fn shown<'a>(&'a self, form: &'a Form, end: u32) -> View<'a>
        requires parts { parts_from form.now ≤ end }
        requires end { end ≤ length self.now.parts.items }
        requires digests { digests_to form.now ≤ length self.now.digests.items }
        ensures { form_shown result ≡ form_of self.now.parts.items self.now.digests.items end form.now }
    {
        match form {
            Form::UnitNode => View::Unit,
            Form::BoolNode(value) => View::Bool(*value),
            Form::IntNode(value) => View::Int(*value),
            Form::TextNode(_, text) => View::Text(text),
            Form::PairNode { first, second, .. } => {
                View::Pair(Ref(*first as usize), Ref(*second as usize))
            }
            Form::ConstructorNode {
                tag,
                named,
                start,
                ..
            } => {
                let fields = self.between(*start, end);
                View::Constructor(NamedId(*named as usize), *tag, fields)
            }
            Form::VecNode { start, .. } => View::Items(self.between(*start, end)),
            Form::InnerNode(inner) => View::Auth(Held::Inner(*inner)),
            Form::BothNode(digest, inner) => {
                View::Auth(Held::Both(self.digest_with(*digest), *inner))
            }
            Form::OnlyNode(digest) => View::Auth(Held::Only(self.digest_with(*digest))),
        }
    }

    /// The parts from one place of the pool to another.
    #[inline(always)]
    fn between(&self, start: u32, end: u32) -> &[Ref]
        requires order { start ≤ end }
        requires end { end ≤ length self.now.parts.items }
        ensures { result.now ≡ slice_range self.now.parts.items start end }
    {
        &self.parts[start as usize..end as usize]
    }

    /// The digest with this number in the pool.
    #[inline(always)]
    fn digest_with(&self, number: u32) -> Digest
        requires { number < length self.now.digests.items }
        ensures { digest_in self.now.digests.items number ≡ result.0 }
    {
        self.digests[number as usize]
    }

    /// The size of the node with this number.
    pub(crate) fn size(&self, number: usize) -> u32
        requires { number < length (packed_nodes self.now) }
        ensures { result ≡ size_at (packed_nodes self.now) number }
    {
        self.nodes[number].form.size()
    }

    /// Its depth.
    pub(crate) fn depth(&self, number: usize) -> u32
        requires { number < length (packed_nodes self.now) }
        ensures { result ≡ depth_at (packed_nodes self.now) number }
    {
        self.nodes[number].form.depth()
    }

    /// Drops all but the first `count` nodes, with what they have in the pools. Takes no memory.
    pub(crate) fn cut_to(&mut self, count: usize)
        requires { count ≤ length (packed_nodes self.old) }
        ensures { packed_nodes self.new ≡ take count (packed_nodes self.old) }
    {
        let ends = self.ends_of(count);
        self.nodes.truncate(count);
        self.parts.truncate(ends.parts as usize);
        self.digests.truncate(ends.digests as usize);
    }

    /// Where the first `count` nodes end.
    fn ends_of(&self, count: usize) -> Ends
        requires { count ≤ length (packed_nodes self.now) }
        ensures { FirstEndBy count self.now.nodes.items result.parts result.digests }
    {
        if count == 0 {
            return Ends {
                parts: 0,
                digests: 0,
            };
        }
        self.nodes[count - 1].ends
    }
}

impl Form {
    ghost use Rattle.value_store.specs.CodeNodes.{kept_depth, kept_size};

    /// The size of a node of this form.
    pub(crate) fn size(&self) -> u32
        ensures { result ≡ kept_size self.now }
    {
        match self {
            Form::UnitNode => 0,
            Form::BoolNode(_) => 1,
            Form::IntNode(_) => INT_SIZE,
            Form::TextNode(size, _) => *size,
            Form::PairNode { size, .. } => *size,
            Form::ConstructorNode { size, .. } => *size,
            Form::VecNode { size, .. } => *size,
            _ => DIGEST_SIZE,
        }
    }

    /// Its depth.
    pub(crate) fn depth(&self) -> u32
        ensures { result ≡ kept_depth self.now }
    {
        match self {
            Form::PairNode { depth, .. } => *depth as u32,
            Form::ConstructorNode { depth, .. } => *depth as u32,
            Form::VecNode { depth, .. } => *depth as u32,
            _ => 1,
        }
    }
}

/// A number as one of 32 bits. One that doesn't fit is refused as if memory were wanting.
#[inline(always)]
pub(crate) fn fitting(number: usize) -> Result<u32, AllocError>
    ensures { IfOk result (λ small. small ≡ number) }
{
    match u32::try_from(number) {
        Ok(small) => Ok(small),
        Err(_) => Err(AllocError),
    }
}

/// A copy of a text, in one pointer.
fn boxed(alloc: Global, text: &str) -> Result<Box<String>, AllocError>
    ensures { IfOk result (λ kept. string_bytes kept.value ≡ text.now) }
{
    let kept = String::from_str(alloc, text)?;
    let kept = Box::new(alloc, kept)?;
    Ok(kept)
}
