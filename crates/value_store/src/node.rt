// Nodes, and their numbers.

use core_terms::{Digest, Tag};

/// The number of bytes of the spelling of an int.
pub(crate) const INT_SIZE: u32 = 8;

/// The number of bytes of the spelling of a digest.
pub(crate) const DIGEST_SIZE: u32 = 32;

/// The number of a node in its store.
#[derive(Clone, Copy, Default, PartialEq)]
pub struct Ref(pub usize);

/// What the node of an authenticated value holds.
#[derive(Clone, Copy, PartialEq)]
pub enum Held {
    /// The value alone, in ideal mode.
    Inner(Ref),
    /// The digest of the value and the value, in the prover.
    Both(Digest, Ref),
    /// The digest of the value alone, in the verifier.
    Only(Digest),
}

/// The form of a node, with its size and depth where its form doesn't tell them. Parts and digests stand in pools. The fields are in
/// the order in which they fill 16 bytes.
#[derive(Drop)]
pub enum Form {
    UnitNode,
    BoolNode(bool),
    IntNode(i64),
    /// The size, and the text.
    TextNode(u32, Box<String>),
    PairNode {
        depth: u16,
        size: u32,
        first: u32,
        second: u32,
    },
    /// The fields are the parts from `start` to the node's end.
    ConstructorNode {
        tag: Tag,
        depth: u16,
        size: u32,
        named: u32,
        start: u32,
    },
    /// An array. The elements are the parts from `start` to the node's end.
    VecNode {
        depth: u16,
        size: u32,
        start: u32,
    },
    InnerNode(Ref),
    /// The number of the digest, and the value.
    BothNode(u32, Ref),
    /// The number of the digest.
    OnlyNode(u32),
}

/// How many parts and digests the nodes up to one have in the pools, with what was left there where memory was wanting.
#[derive(Clone, Copy)]
pub struct Ends {
    pub parts: u32,
    pub digests: u32,
}

/// A node. What stands behind its ends in the pools is of the nodes behind it.
#[derive(Drop)]
pub struct Node {
    pub form: Form,
    pub ends: Ends,
}

const _: () = prove!(size_of::<Node>() == 24);
