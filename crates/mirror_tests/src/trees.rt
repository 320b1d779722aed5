// The pieces of a tree and of what an update makes of it, by the words of the formats alone.
use core_terms::{Digest, Format, Hash32};
use std::alloc::{AllocError, Global};

/// The places of the pieces. The tree is `Node(Node(Leaf(5), Leaf(7)), Leaf(9))`; 1 is added to its first leaf.
pub const FIVE: usize = 0;

pub const SEVEN: usize = 1;

pub const NINE: usize = 2;

pub const SIX: usize = 3;

pub const INNER: usize = 4;

pub const ROOT: usize = 5;

pub const NEW_INNER: usize = 6;

pub const NEW_ROOT: usize = 7;

/// The ints of the leaves, and the parts of the nodes, in this order.
const LEAVES: [i64; 4] = [5, 7, 9, 6];

const NODES: [(usize, usize); 4] = [
    (FIVE, SEVEN),
    (INNER, NINE),
    (SIX, SEVEN),
    (NEW_INNER, NINE),
];

/// The declarations of the program's types, as they are printed.
const DECLARED: &[u8] = b"type tree = Leaf(int) | Node(auth tree, auth tree);\n";

/// What stands before the spelling of a tree where it is digested: in the second format the fingerprint of the first named type.
fn front<H: Hash32>(alloc: Global, format: Format) -> Result<Vec<u8>, AllocError> {
    match format {
        Format::First => Ok(Vec::new(alloc)),
        Format::Second => {
            let mut bytes = Vec::from_slice(alloc, &[5])?;
            bytes.extend_from_slice(H::of(DECLARED).as_bytes())?;
            bytes.extend_from_slice(&[0, 0])?;
            Vec::from_slice(alloc, H::of(&bytes).as_bytes())
        }
    }
}

/// The piece of a leaf.
fn leaf(alloc: Global, front: &[u8], int: i64) -> Result<Vec<u8>, AllocError> {
    let mut piece = Vec::from_slice(alloc, front)?;
    piece.push(0)?;
    piece.extend_from_slice(&int.to_be_bytes())?;
    Ok(piece)
}

/// The piece of a node of two trees.
fn node(alloc: Global, front: &[u8], first: Digest, second: Digest) -> Result<Vec<u8>, AllocError> {
    let mut piece = Vec::from_slice(alloc, front)?;
    piece.push(1)?;
    piece.extend_from_slice(first.as_bytes())?;
    piece.extend_from_slice(second.as_bytes())?;
    Ok(piece)
}

/// The piece at a place; no bytes where there is none.
pub fn at(pieces: &[Vec<u8>], place: usize) -> &[u8] {
    match pieces.get(place) {
        Some(piece) => piece.as_slice(),
        None => &[],
    }
}

/// The pieces, by their places.
///
/// # Errors
///
/// `AllocError` where memory runs out.
pub fn pieces<H: Hash32>(alloc: Global, format: Format) -> Result<Vec<Vec<u8>>, AllocError> {
    let front = front::<H>(alloc, format)?;
    let mut pieces = Vec::new(alloc);
    for int in LEAVES {
        let piece = leaf(alloc, &front, int)?;
        pieces.push(piece)?;
    }
    for (first, second) in NODES {
        let parts = (H::of(at(&pieces, first)), H::of(at(&pieces, second)));
        let piece = node(alloc, &front, parts.0, parts.1)?;
        pieces.push(piece)?;
    }
    Ok(pieces)
}
