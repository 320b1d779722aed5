// Values that are put, viewed, shared and cut away.
use core_terms::{Digest, NamedId, Tag};
use std::alloc::AllocError;
use std::process::Abort;
use std::test::Fail;
use value_store::{Held, Nodes, Ref, Store, View};

/// The greatest size of a value in the first format.
const LIMIT: u32 = 65_536;

/// Puts a text that is within the limits.
fn text_of(rt: &impl Abort, store: &mut Store, text: &str) -> Result<Ref, AllocError> {
    assert!(rt; text.len() < 100);
    store.put_text(text)
}

/// Puts a pair that is within the limits.
fn pair_of(rt: &impl Abort, store: &mut Store, first: Ref, second: Ref) -> Result<Ref, AllocError> {
    assert!(rt; first.0 < store.count());
    assert!(rt; second.0 < store.count());
    let size = store.shallow_size(first) + store.shallow_size(second);
    let depth = store.shallow_depth(first).max(store.shallow_depth(second));
    assert!(rt; size <= store.limit());
    assert!(rt; depth < 512);
    store.put_pair(first, second)
}

/// Puts a constructor with two fields, which is within the limits.
fn constructor_of(
    rt: &impl Abort,
    store: &mut Store,
    tag: Tag,
    first: Ref,
    second: Ref,
) -> Result<Ref, AllocError> {
    assert!(rt; first.0 < store.count());
    assert!(rt; second.0 < store.count());
    let size = store.shallow_size(first) + store.shallow_size(second);
    let depth = store.shallow_depth(first).max(store.shallow_depth(second));
    assert!(rt; size < store.limit());
    assert!(rt; depth < 512);
    store.put_constructor(NamedId(2), tag, &[first, second])
}

/// The size and the depth of a node.
fn limits_of(rt: &impl Abort, store: &Store, r: Ref) -> (u32, u32) {
    assert!(rt; r.0 < store.count());
    (store.shallow_size(r), store.shallow_depth(r))
}

#[test]
fn leaves_are_viewed(rt: HostRuntime) -> Result<(), Fail> {
    let mut store = Store::new(rt.alloc(), LIMIT);
    let unit = store.put_unit()?;
    let yes = store.put_bool(true)?;
    let int = store.put_int(-5)?;
    let text = text_of(&rt, &mut store, "héh")?;
    assert!(rt; store.count() == 4);
    assert!(rt; unit.0 < 4 && yes.0 < 4 && int.0 < 4 && text.0 < 4);
    assert!(rt; matches!(store.view(unit), View::Unit));
    assert!(rt; matches!(store.view(yes), View::Bool(true)));
    assert!(rt; matches!(store.view(int), View::Int(-5)));
    let View::Text(bytes) = store.view(text) else {
        panic!(rt; "no text");
    };
    assert!(rt; bytes.as_bytes() == "héh".as_bytes());
    assert!(rt; limits_of(&rt, &store, unit) == (0, 1));
    assert!(rt; limits_of(&rt, &store, yes) == (1, 1));
    assert!(rt; limits_of(&rt, &store, int) == (8, 1));
    assert!(rt; limits_of(&rt, &store, text) == (8, 1));
    Ok(())
}

#[test]
fn a_pair_and_a_constructor_are_viewed(rt: HostRuntime) -> Result<(), Fail> {
    let mut store = Store::new(rt.alloc(), LIMIT);
    let yes = store.put_bool(true)?;
    let text = text_of(&rt, &mut store, "ab")?;
    let pair = pair_of(&rt, &mut store, yes, text)?;
    let value = constructor_of(&rt, &mut store, Tag(3), text, yes)?;
    assert!(rt; pair.0 < store.count() && value.0 < store.count());
    let View::Pair(first, second) = store.view(pair) else {
        panic!(rt; "no pair");
    };
    assert!(rt; first == yes && second == text);
    let View::Constructor(named, tag, fields) = store.view(value) else {
        panic!(rt; "no constructor");
    };
    assert!(rt; named == NamedId(2) && tag == Tag(3));
    assert!(rt; fields == [text, yes].as_slice());
    assert!(rt; limits_of(&rt, &store, pair) == (7, 2));
    assert!(rt; limits_of(&rt, &store, value) == (8, 2));
    Ok(())
}

#[test]
fn what_is_authenticated_is_viewed(rt: HostRuntime) -> Result<(), Fail> {
    let mut store = Store::new(rt.alloc(), LIMIT);
    let text = text_of(&rt, &mut store, "a longer text, of more than 32 bytes")?;
    assert!(rt; text.0 < store.count());
    let ideal = store.put_auth(Held::Inner(text))?;
    let only = store.put_auth(Held::Only(Digest([9; 32])))?;
    assert!(rt; text.0 < store.count());
    let both = store.put_auth(Held::Both(Digest([9; 32]), text))?;
    assert!(rt; limits_of(&rt, &store, ideal) == (32, 1));
    assert!(rt; limits_of(&rt, &store, only) == (32, 1));
    assert!(rt; both.0 < store.count());
    let View::Auth(held) = store.view(both) else {
        panic!(rt; "nothing is held");
    };
    assert!(rt; held == Held::Both(Digest([9; 32]), text));
    Ok(())
}

/// A value that a pair holds twice, and so on, so many times.
fn doubled(rt: &impl Abort, store: &mut Store, leaf: Ref, times: u32) -> Result<Ref, AllocError> {
    let mut whole = leaf;
    for _ in 0..times {
        whole = pair_of(rt, store, whole, whole)?;
    }
    Ok(whole)
}

// Parts are shared, and a value may reach the limit of its size.
#[test]
fn a_value_of_many_leaves_is_shared(rt: HostRuntime) -> Result<(), Fail> {
    let mut store = Store::new(rt.alloc(), LIMIT);
    let unit = store.put_unit()?;
    let units = doubled(&rt, &mut store, unit, 30)?;
    assert!(rt; store.count() == 31);
    assert!(rt; limits_of(&rt, &store, units) == (0, 31));
    let int = store.put_int(1)?;
    let ints = doubled(&rt, &mut store, int, 13)?;
    assert!(rt; limits_of(&rt, &store, ints) == (LIMIT, 14));
    Ok(())
}

#[test]
fn later_nodes_are_cut_away(rt: HostRuntime) -> Result<(), Fail> {
    let mut store = Store::new(rt.alloc(), LIMIT);
    let kept = store.put_int(3)?;
    let mark = store.mark();
    store.put_int(4)?;
    store.put_unit()?;
    store.cut_to(mark);
    assert!(rt; store.count() == 1);
    assert!(rt; kept.0 < store.count());
    assert!(rt; matches!(store.view(kept), View::Int(3)));
    Ok(())
}
