// The store: nodes in the order in which they were put.
ghost use Rattle.std.specs.Prelude.{◌≡◌, ◌<◌, ◌≤◌, ℕ, true, [], length, take, refl, slice_get};
ghost use Rattle.core_terms.specs.Types.{Ty, Table};
ghost use Rattle.core_terms.specs.Values.{Value};
ghost use Rattle.value_store.specs.Packing.{packed_nodes};
ghost use Rattle.value_store.specs.Nodes.{AreSound, FormFits, form_depth, form_size, greatest_limit, least_limit, refers_below};
ghost use Rattle.value_store.specs.Standing.{Keeps, Kind, StandsFor};

use crate::node::Ref;
use crate::nodes::Nodes;
use crate::packed::Packed;
use crate::view::View;
use std::alloc::{AllocError, Global};

/// The nodes that were put so far. Each refers to earlier ones and is within the limits: a spelling of at most as many bytes as the store's
/// limit, which is that of a format, and a depth of at most 512.
#[derive(Drop)]
pub struct Store {
    pub(crate) packed: Packed,
    pub(crate) limit: u32,
    alloc: Global,
    ghost sound: { AreSound limit (packed_nodes packed) },
    ghost least: { least_limit ≤ limit },
    ghost greatest: { limit ≤ greatest_limit },
}

/// A place in a store: the number of nodes before it.
#[derive(Clone, Copy, PartialEq)]
pub struct Mark(pub(crate) usize);

impl Store {
    ghost use Rattle.value_store.specs.Stores.{nodes_in};

    /// A store without nodes, for values whose spellings have at most so many bytes, from 65,536 to 1,048,576. It has room for some where
    /// there is memory.
    pub fn new(alloc: Global, limit: u32) -> Self
        requires least { least_limit ≤ limit }
        requires greatest { limit ≤ greatest_limit }
        ensures nodes { nodes_in result ≡ [] }
        ensures limit { result.limit ≡ limit }
    {
        Store {
            packed: Packed::new(alloc),
            limit,
            alloc,
        }
    }

    /// The number of nodes.
    pub fn count(&self) -> usize
        ensures { result ≡ length (nodes_in self.now) }
    {
        self.packed.len()
    }
}

impl Nodes for Store {
    ghost use Rattle.value_store.specs.Stores.{nodes_in, store_lent};

    ghost nodes = { nodes_in };

    ghost lent = { store_lent };

    ghost sound = { λ s. s.sound };

    ghost least = { λ s. s.least };

    ghost greatest = { λ s. s.greatest };

    ghost first = { λ s. refl };

    #[inline(always)]
    fn put(&mut self, form: View<'_>, size: u32, depth: u32) -> Result<Ref, AllocError> {
        let r = Ref(self.packed.len());
        self.packed.put(self.alloc, form, size, depth)?;
        Ok(r)
    }

    #[inline(always)]
    fn place(&self, r: Ref) -> (&Packed, usize) {
        (&self.packed, r.0)
    }

    fn limit(&self) -> u32 {
        self.limit
    }

    fn alloc(&self) -> Global {
        self.alloc
    }

    fn mark(&self) -> Mark {
        Mark(self.packed.len())
    }

    fn cut_to(&mut self, mark: Mark) {
        self.packed.cut_to(mark.0);
    }
}
