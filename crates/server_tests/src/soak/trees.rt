// Search trees, by their nodes: which pieces a call opens, and what they are.

use core_terms::{Digest, Hash32, Tag};
use digest_layer::Sha;
use reference_run::Plain;
use std::alloc::{AllocError, Global};

/// How deep a tree may be.
pub const DEPTH: u32 = 100;

/// The number of the leaf.
pub const LEAF: usize = 0;

/// A node, with the spelling of its projection, and its digest. What is left and right of it are numbers of nodes.
#[derive(Drop)]
struct TreeNode {
    key: i64,
    value: i64,
    left: usize,
    right: usize,
    piece: Vec<u8>,
    digest: Digest,
}

/// Nodes by number, the leaf first.
#[derive(Drop)]
pub struct Trees {
    alloc: Global,
    nodes: Vec<TreeNode>,
}

impl Trees {
    /// The leaf alone.
    pub fn new(alloc: Global) -> Result<Trees, AllocError> {
        let piece = Vec::from_slice(alloc, b"\0")?;
        let digest = Sha::of(&piece);
        let mut nodes = Vec::new(alloc);
        nodes.push(TreeNode {
            key: 0,
            value: 0,
            left: LEAF,
            right: LEAF,
            piece,
            digest,
        })?;
        Ok(Trees { alloc, nodes })
    }

    /// The digest of a node.
    pub fn digest(&self, number: usize) -> Digest {
        match self.nodes.get(number) {
            Some(node) => node.digest,
            None => Digest([0; 32]),
        }
    }

    /// The piece of a node.
    pub fn piece(&self, number: usize) -> &[u8] {
        match self.nodes.get(number) {
            Some(node) => &node.piece,
            None => &[],
        }
    }

    /// Puts a node.
    fn put(
        &mut self,
        key: i64,
        value: i64,
        left: usize,
        right: usize,
    ) -> Result<usize, AllocError> {
        let piece = node_piece(
            self.alloc,
            key,
            value,
            [self.digest(left), self.digest(right)],
        )?;
        let digest = Sha::of(&piece);
        self.nodes.push(TreeNode {
            key,
            value,
            left,
            right,
            piece,
            digest,
        })?;
        Ok(self.nodes.len().saturating_sub(1))
    }

    /// The tree of a node, as a value.
    pub fn plain(&self, number: usize, depth: u32) -> Result<Plain, AllocError> {
        let Some(node) = self.nodes.get(number) else {
            return Err(AllocError);
        };
        if depth == 0 {
            return Err(AllocError);
        }
        if number == LEAF {
            return Ok(Plain::ConstructorValue(Tag(0), Vec::new(self.alloc)));
        }
        let left = self.plain(node.left, depth - 1)?;
        let right = self.plain(node.right, depth - 1)?;
        node_value(self.alloc, node.key, node.value, left, right)
    }

    /// Puts the nodes of a value.
    pub fn keep(&mut self, tree: &Plain, depth: u32) -> Result<usize, AllocError> {
        if depth == 0 {
            return Err(AllocError);
        }
        let Plain::ConstructorValue(tag, fields) = tree else {
            return Err(AllocError);
        };
        match fields.as_slice() {
            [Plain::IntValue(key), Plain::IntValue(value), first, second] if tag.0 == 1 => {
                let left = self.keep(first, depth - 1)?;
                let right = self.keep(second, depth - 1)?;
                self.put(*key, *value, left, right)
            }
            [] if tag.0 == 0 => Ok(LEAF),
            _ => Err(AllocError),
        }
    }

    /// The nodes that a search for a key opens, the root first, where it opens so many at most.
    pub fn opened(&self, root: usize, key: i64, most: u64) -> Result<Vec<usize>, AllocError> {
        let mut opened = Vec::new(self.alloc);
        let mut number = root;
        for _ in 0..most.min(u64::from(DEPTH)) {
            opened.push(number)?;
            match self.nodes.get(number) {
                Some(node) if number != LEAF && key < node.key => number = node.left,
                Some(node) if number != LEAF && key > node.key => number = node.right,
                _ => break,
            }
        }
        Ok(opened)
    }
}

/// The spelling of the projection of a node.
fn node_piece(
    alloc: Global,
    key: i64,
    value: i64,
    parts: [Digest; 2],
) -> Result<Vec<u8>, AllocError> {
    let mut piece = Vec::from_slice(alloc, b"\x01")?;
    piece.extend_from_slice(&key.to_be_bytes())?;
    piece.extend_from_slice(&value.to_be_bytes())?;
    for part in parts {
        piece.extend_from_slice(&part.0)?;
    }
    Ok(piece)
}

/// The value of a node.
fn node_value(
    alloc: Global,
    key: i64,
    value: i64,
    left: Plain,
    right: Plain,
) -> Result<Plain, AllocError> {
    let mut fields = Vec::new(alloc);
    fields.reserve(4)?;
    fields.push(Plain::IntValue(key))?;
    fields.push(Plain::IntValue(value))?;
    put_parts(&mut fields, left, right)?;
    Ok(Plain::ConstructorValue(Tag(1), fields))
}

fn put_parts(fields: &mut Vec<Plain>, left: Plain, right: Plain) -> Result<(), AllocError> {
    fields.push(left)?;
    fields.push(right)?;
    Ok(())
}
