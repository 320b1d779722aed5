// The spellings of versions, which are an authenticated value, or an int and one.

use std::alloc::{AllocError, Global};
use value_store::{Held, Nodes, Ref, Store, View};

/// The spelling of a version.
pub fn spelling_of(alloc: Global, store: &Store, version: Ref) -> Result<Vec<u8>, AllocError> {
    let mut bytes = Vec::new(alloc);
    put_version(&mut bytes, store, version)?;
    Ok(bytes)
}

fn put_version(bytes: &mut Vec<u8>, store: &Store, version: Ref) -> Result<(), AllocError> {
    match view(store, version)? {
        View::Pair(first, second) => {
            put_node(bytes, store, first)?;
            put_node(bytes, store, second)
        }
        part => put_part(bytes, part),
    }
}

fn put_node(bytes: &mut Vec<u8>, store: &Store, node: Ref) -> Result<(), AllocError> {
    put_part(bytes, view(store, node)?)
}

/// What a node shows that is in the store.
fn view(store: &Store, node: Ref) -> Result<View<'_>, AllocError> {
    if node.0 < store.count() {
        Ok(store.view(node))
    } else {
        Err(AllocError)
    }
}

fn put_part(bytes: &mut Vec<u8>, part: View<'_>) -> Result<(), AllocError> {
    match part {
        View::Int(number) => bytes.extend_from_slice(&number.to_be_bytes()),
        View::Auth(Held::Both(digest, _)) => bytes.extend_from_slice(digest.as_bytes()),
        _ => Err(AllocError),
    }
}
