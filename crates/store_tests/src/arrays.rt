// Arrays that are put, viewed and shared, up to the limits.
ghost use Rattle.std.specs.Prelude.{◌≡◌, true, length, nat_lt, IsTrue};
ghost use Rattle.std.specs.List.{list_all};
ghost use Rattle.value_store.specs.CodeNodes.{numbers_of};
ghost use Rattle.value_store.specs.Stores.{nodes_in};

use std::alloc::{AllocError, Global};
use std::test::Fail;
use value_store::{Nodes, Ref, Store, View};

/// The greatest size of a value in the second format.
const LIMIT: u32 = 1_048_576;

/// The greatest depth of a value.
const MOST_DEPTH: u32 = 512;

/// Why values make no array.
#[derive(Clone, Copy, Debug, PartialEq)]
enum Unfit {
    /// There are none, or more than 64.
    Length,
    /// It would be too big.
    Size,
    /// It would be too deep.
    Depth,
}

/// Whether all of these nodes are there.
fn are_there(store: &Store, refs: &[Ref]) -> bool
    ensures { IsTrue result → list_all (λ r. nat_lt r (length (nodes_in store.now))) (numbers_of refs.now) ≡ true }
{
    match refs {
        [] => true,
        [first, rest @ ..] => first.0 < store.count() && are_there(store, rest),
    }
}

/// Puts the array of some values. A put asks for 1 to 64 of them and for the limits, so what doesn't fit is told before.
fn array_of(store: &mut Store, items: &[Ref]) -> Result<Result<Ref, Unfit>, AllocError> {
    if items.is_empty() || items.len() > 64 {
        return Ok(Err(Unfit::Length));
    }
    if !are_there(store, items) {
        return Err(AllocError);
    }
    if !store.sizes_fit(items, store.limit()) {
        return Ok(Err(Unfit::Size));
    }
    if !store.depths_fit(items, MOST_DEPTH - 1) {
        return Ok(Err(Unfit::Depth));
    }
    Ok(Ok(store.put_vec(items)?))
}

#[test]
fn an_array_is_viewed(rt: HostRuntime) -> Result<(), Fail> {
    let mut store = Store::new(rt.alloc(), LIMIT);
    let seven = store.put_int(7)?;
    let nine = store.put_int(9)?;
    let Ok(array) = array_of(&mut store, &[nine, seven, nine])? else {
        return Err(Fail::new("no array"));
    };
    assert!(rt; array.0 < store.count());
    let View::Items(items) = store.view(array) else {
        panic!(rt; "no elements");
    };
    assert!(rt; items == [nine, seven, nine].as_slice());
    Ok(())
}

/// Puts a text of so many letters.
fn letters(alloc: Global, store: &mut Store, count: usize) -> Result<Ref, AllocError> {
    let mut text = String::new(alloc);
    for _ in 0..count {
        text.push_str("a")?;
    }
    if text.len() + 4 > store.limit() as usize {
        return Err(AllocError);
    }
    store.put_text(&text)
}

/// Values of which an array is put.
#[derive(Clone, Copy)]
enum Items {
    /// So many times an int.
    Ints(usize),
    /// 63 texts of so many letters, and one of others.
    Texts(usize, usize),
    /// An int in so many arrays of one element.
    Nested(u32),
    /// 64 times an array of 64 units.
    Units,
}

impl Items {
    /// Puts the values.
    fn put(self, alloc: Global, store: &mut Store) -> Result<Vec<Ref>, AllocError> {
        match self {
            Items::Ints(count) => Vec::from_elem(alloc, store.put_int(5)?, count),
            Items::Texts(count, last) => texts(alloc, store, count, last),
            Items::Nested(times) => Vec::from_elem(alloc, nested(store, times)?, 1),
            Items::Units => units(alloc, store),
        }
    }
}

fn texts(
    alloc: Global,
    store: &mut Store,
    count: usize,
    last: usize,
) -> Result<Vec<Ref>, AllocError> {
    let text = letters(alloc, store, count)?;
    let other = letters(alloc, store, last)?;
    let mut texts = Vec::from_elem(alloc, text, 63)?;
    texts.push(other)?;
    Ok(texts)
}

fn nested(store: &mut Store, times: u32) -> Result<Ref, AllocError> {
    let mut whole = store.put_int(5)?;
    for _ in 0..times {
        match array_of(store, &[whole])? {
            Ok(array) => whole = array,
            Err(_) => return Err(AllocError),
        }
    }
    Ok(whole)
}

fn units(alloc: Global, store: &mut Store) -> Result<Vec<Ref>, AllocError> {
    let unit = store.put_unit()?;
    let units = Vec::from_elem(alloc, unit, 64)?;
    match array_of(store, &units)? {
        Ok(row) => Vec::from_elem(alloc, row, 64),
        Err(_) => Err(AllocError),
    }
}

/// The size and the depth of the array of some values, and how many nodes there are then; or why there is none.
type Told = Result<(u32, u32, usize), Unfit>;

/// What is told of an array, in a store of a format.
fn told(alloc: Global, limit: u32, items: Items) -> Result<Told, AllocError> {
    if limit < 65_536 || limit > LIMIT {
        return Err(AllocError);
    }
    let mut store = Store::new(alloc, limit);
    let items = items.put(alloc, &mut store)?;
    match array_of(&mut store, &items)? {
        Ok(r) if r.0 < store.count() => Ok(Ok((
            store.shallow_size(r),
            store.shallow_depth(r),
            store.count(),
        ))),
        Ok(_) => Err(AllocError),
        Err(unfit) => Ok(Err(unfit)),
    }
}

/// The greatest size, the values, and what is told of their array.
const ROWS: [(u32, Items, Told); 11] = [
    // one to sixty-four elements
    (LIMIT, Items::Ints(0), Err(Unfit::Length)),
    (LIMIT, Items::Ints(1), Ok((8, 2, 2))),
    (LIMIT, Items::Ints(64), Ok((512, 2, 2))),
    (LIMIT, Items::Ints(65), Err(Unfit::Length)),
    // up to the last byte
    (65_536, Items::Texts(1_020, 1_020), Ok((65_536, 2, 3))),
    (65_536, Items::Texts(1_020, 1_021), Err(Unfit::Size)),
    (LIMIT, Items::Texts(16_380, 16_380), Ok((LIMIT, 2, 3))),
    (LIMIT, Items::Texts(16_380, 16_381), Err(Unfit::Size)),
    // up to the last level
    (LIMIT, Items::Nested(510), Ok((8, 512, 512))),
    (LIMIT, Items::Nested(511), Err(Unfit::Depth)),
    // 4,096 units are three nodes
    (LIMIT, Items::Units, Ok((0, 3, 3))),
];

#[test]
fn arrays_up_to_the_limits(rt: HostRuntime) -> Result<(), Fail> {
    for (number, (limit, items, wanted)) in ROWS.iter().enumerate() {
        if told(rt.alloc(), *limit, *items)? != *wanted {
            return Err(Fail::new(format_args!("row {number}")));
        }
    }
    Ok(())
}
