// The programs of the library, and the images of their first versions.

use ads_library::texts::{BST, MERKLE, REDBLACK, SKIPLIST};
use std::alloc::{AllocError, Global};

/// A program of the library.
#[derive(Clone, Copy)]
pub enum Library {
    SearchTree,
    List,
    RedBlackTree,
    SkipList,
}

/// The records of an image, and how many they are.
#[derive(Drop)]
pub struct Records {
    pub count: u32,
    pub bytes: Vec<u8>,
}

/// The records of a value of the first constructor of the first type, which has no fields, and of it authenticated.
const BOTTOM: &[u8] = b"\x05\0\0\0\x06\0\0\0\0";

/// The same of a constructor with one field, the int 0.
const TIP: &[u8] = b"\x02\0\0\0\0\0\0\0\0\x05\0\0\0\0\0\0\0\x06\0\0\0\x01";

/// How many levels there are in a skip list above its floor.
const LEVELS: u32 = 17;

/// How many levels there are in a list above its elements: it has 1,024 of them.
const FORKS: u32 = 10;

impl Library {
    /// Its text.
    pub fn text(self) -> &'static [u8] {
        match self {
            Library::SearchTree => BST,
            Library::List => MERKLE,
            Library::RedBlackTree => REDBLACK,
            Library::SkipList => SKIPLIST,
        }
    }

    /// What its init makes: without keys, or a list of zeros.
    pub fn first_version(self, alloc: Global) -> Result<Records, AllocError> {
        match self {
            Library::SearchTree | Library::RedBlackTree => Ok(Records {
                count: 2,
                bytes: Vec::from_slice(alloc, BOTTOM)?,
            }),
            Library::List => zeros(alloc),
            Library::SkipList => {
                let mut bytes = Vec::from_slice(alloc, BOTTOM)?;
                let top = put_levels(&mut bytes, 1, LEVELS, false)?;
                let count = top.wrapping_add(1);
                Ok(Records { count, bytes })
            }
        }
    }
}

/// A list of zeros: how many, and their tree.
fn zeros(alloc: Global) -> Result<Records, AllocError> {
    let mut bytes = Vec::from_slice(alloc, TIP)?;
    let top = put_levels(&mut bytes, 2, FORKS, true)?;
    let len = top.wrapping_add(1);
    bytes.extend_from_slice(b"\x02\0\0\0\0\0\0\x04\0\x04")?;
    put_number(&mut bytes, len)?;
    put_number(&mut bytes, top)?;
    let count = top.wrapping_add(3);
    Ok(Records { count, bytes })
}

fn put_number(bytes: &mut Vec<u8>, number: u32) -> Result<(), AllocError> {
    bytes.extend_from_slice(&number.to_be_bytes())
}

/// Puts the records of so many levels above the one with this number: each has the one below as its field, or twice.
fn put_levels(
    bytes: &mut Vec<u8>,
    bottom: u32,
    levels: u32,
    twice: bool,
) -> Result<u32, AllocError> {
    let mut below = bottom;
    for _ in 0..levels {
        put_level(bytes, below, twice)?;
        below = below.wrapping_add(2);
    }
    Ok(below)
}

fn put_level(bytes: &mut Vec<u8>, below: u32, twice: bool) -> Result<(), AllocError> {
    bytes.extend_from_slice(b"\x05\0\0\x01")?;
    put_number(bytes, below)?;
    if twice {
        put_number(bytes, below)?;
    }
    bytes.push(6)?;
    put_number(bytes, below.wrapping_add(1))
}
