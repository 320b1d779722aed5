// The first node of each record, for those that ask for it.
ghost use Rattle.std.specs.Prelude.{◌≡◌, OnOk};
ghost use Rattle.images.specs.FirstNodes.{IsKeptBehind};

use std::alloc::{AllocError, Global};
use value_store::Ref;

/// The nodes that first got each record, where they are kept.
#[derive(Drop)]
pub(crate) struct FirstNodes {
    are_kept: bool,
    nodes: Vec<Ref>,
}

impl FirstNodes {
    ghost use Rattle.std.specs.Prelude.{[]};

    /// No nodes.
    pub fn new(alloc: Global, are_kept: bool) -> Self
        ensures kept { result.are_kept ≡ are_kept }
        ensures none { result.nodes.items ≡ [] }
    {
        FirstNodes {
            are_kept,
            nodes: Vec::new(alloc),
        }
    }

    /// The nodes, in the order of their records.
    pub fn nodes(&self) -> &[Ref]
        ensures { result.now ≡ self.now.nodes.items }
    {
        &self.nodes
    }

    /// Takes the node of the record behind the others.
    pub fn push(&mut self, node: Ref) -> Result<(), AllocError>
        ensures pushed { OnOk result (IsKeptBehind node self.old self.new) }
        ensures same { self.new.are_kept ≡ self.old.are_kept }
    {
        if self.are_kept {
            self.nodes.push(node)?;
        }
        Ok(())
    }
}
