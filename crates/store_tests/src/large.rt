// Images of large values: a tree whose branches are shared, and a list.
use crate::stage::{add_record, image};
use std::alloc::{AllocError, Global};

/// A program whose state is a tree.
pub const TREES: &[u8] = b"type tree = Leaf | Fork(auth tree, auth tree); state auth tree;";

/// The image of a tree that shares both branches at each of so many levels, so that its leaves are doubled at each.
///
/// # Errors
///
/// `AllocError` where memory runs out.
pub fn tree_image(alloc: Global, levels: u32) -> Result<Vec<u8>, AllocError> {
    let mut records = Vec::new(alloc);
    add_record(&mut records, &[5, 0, 0, 0], &[])?;
    add_record(&mut records, &[6], &[0])?;
    for level in 0..levels {
        let branch = level.saturating_mul(2).saturating_add(1);
        add_record(&mut records, &[5, 0, 0, 1], &[branch, branch])?;
        add_record(&mut records, &[6], &[branch.saturating_add(1)])?;
    }
    image(alloc, levels.saturating_mul(2).saturating_add(2), &records)
}

/// A program whose state is a list.
pub const LISTS: &[u8] = b"type list = Empty | Item(int, auth list); state auth list;";

/// The image of the list of the numbers from 0 below `count`: 26 bytes for each, and 49 more.
///
/// # Errors
///
/// `AllocError` where memory runs out.
pub fn list_image(alloc: Global, count: u32) -> Result<Vec<u8>, AllocError> {
    let mut records = Vec::new(alloc);
    for number in 0..count {
        add_record(&mut records, &[2], &[0, number])?;
    }
    add_record(&mut records, &[5, 0, 0, 0], &[])?;
    add_record(&mut records, &[6], &[count])?;
    for place in 0..count {
        let number = count.saturating_sub(place).saturating_sub(1);
        let rest = count
            .saturating_add(place.saturating_mul(2))
            .saturating_add(1);
        add_record(&mut records, &[5, 0, 0, 1], &[number, rest])?;
        add_record(&mut records, &[6], &[rest.saturating_add(1)])?;
    }
    image(alloc, count.saturating_mul(3).saturating_add(2), &records)
}
