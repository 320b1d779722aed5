// The programs of the library: what they answer after a thousand puts, and that each state has the shape of its kind.
use crate::stage::{code_of, run};
use ads_library::source;
use ads_library::texts::{BST, MERKLE, REDBLACK, SKIPLIST};
use std::alloc::{AllocError, Global};
use std::test::Fail;

/// More fuel than a run here wants.
const FUEL: u64 = 1_000_000_000;

/// The first function answers 10,000 for each of 700 keys that the state after so many puts has with its newest value, and without
/// which it has no key, and adds what `checked` answers of this state. The type of the state stands for `%`.
const WORKLOAD: &[u8] =
    b"fun test(n: int): int = let s = filled(n) in add(mul(10000, right(s, 700)), checked(s));
fun key(n: int): int = sub(rem(mul(rem(n, 700), 7919), 2003), 1001);
fun newest(q: int): int = if le(q, 300) then add(q, 700) else q;
fun filled(n: int): auth % = if le(n, 0) then empty(()) else fst(put(filled(sub(n, 1)), (key(n), n)));
fun right(s: auth %, q: int): int = if le(q, 0) then 0 else add(right(s, sub(q, 1)), is_right(s, sub(q, 1)));
fun is_right(s: auth %, q: int): int = match get(s, key(q)) with | Missing -> 0
  | Found(v) -> if eq(v, newest(q)) then is_missing(s, add(key(q), 5000)) else 0 end;
fun is_missing(s: auth %, k: int): int = match get(s, k) with | Missing -> 1 | Found(v) -> 0 end;
fun broken(x: unit): int = div(1, 0);
fun same(x: int, y: int): int = if eq(x, y) then x else broken(());
fun between(x: int, k: int, y: int): bool = if lt(x, k) then lt(k, y) else false;
";

/// How many keys there are; a trap where they aren't in order.
const ORDER: &[u8] = b"fun checked(s: auth tree): int = ordered(s, -2000, 2000);
fun ordered(t: auth tree, x: int, y: int): int = match unauth(t) with
  | Leaf -> 0
  | Node(k, v, l, r) -> if between(x, k, y) then add(add(ordered(l, x, k), ordered(r, k, y)), 1) else broken(()) end;
";

/// How many Blacks each path has; a trap where paths differ, a Red is the root or under a Red, or keys aren't in order.
const COLOURS: &[u8] = b"fun checked(s: auth tree): int = coloured(s, -2000, 2000, true);
fun coloured(t: auth tree, x: int, y: int, under_red: bool): int = match unauth(t) with
  | Leaf -> 0
  | Red(k, v, l, r) -> if under_red then broken(()) else if between(x, k, y)
      then same(coloured(l, x, k, true), coloured(r, k, y, true)) else broken(())
  | Black(k, v, l, r) -> if between(x, k, y)
      then add(same(coloured(l, x, k, false), coloured(r, k, y, false)), 1) else broken(()) end;
";

/// How many keys there are; a trap where they aren't in order, or one doesn't stand in a lane of its level.
const LEVELS: &[u8] = b"fun checked(s: auth lane): int = levelled(s, 17, -2000, 2000);
fun levelled(t: auth lane, j: int, x: int, y: int): int = match unauth(t) with
  | Floor -> same(j, 0)
  | Last(d) -> levelled(d, sub(j, 1), x, y)
  | Step(d, k, v, r) -> if eq(due(k, 1), j) then if between(x, k, y)
      then add(add(levelled(d, sub(j, 1), x, k), levelled(r, j, k, y)), 1) else broken(()) else broken(()) end;
fun due(k: int, j: int): int = if eq(j, 17) then 17 else if eq(rem(k, 2), 0) then due(div(k, 2), add(j, 1)) else j;
";

/// A test, with the type of the state in its places, the checks, and the program of this name, as one text.
fn joined(
    alloc: Global,
    name: &str,
    state: &[u8],
    test: &[u8],
    checks: &[u8],
) -> Result<Vec<u8>, AllocError> {
    let Some(program) = source(name) else {
        return Err(AllocError);
    };
    let mut all = Vec::new(alloc);
    for byte in test {
        match byte {
            b'%' => all.extend_from_slice(state)?,
            byte => all.push(*byte)?,
        }
    }
    all.extend_from_slice(checks)?;
    all.extend_from_slice(program)?;
    Ok(all)
}

/// The name of a program, the type of its state, its checks, and how the workload of 1,000 puts ends.
const WORKLOADS: [(&str, &[u8], &[u8], &str); 3] = [
    ("bst", b"tree", ORDER, "7000700"),
    ("redblack", b"tree", COLOURS, "7000007"),
    ("skiplist", b"lane", LEVELS, "7000700"),
];

#[test]
fn a_thousand_puts_are_answered_and_keep_the_shape(rt: HostRuntime) -> Result<(), Fail> {
    let alloc = rt.alloc();
    for (name, state, checks, want) in WORKLOADS {
        let code = code_of(alloc, &joined(alloc, name, state, WORKLOAD, checks)?)?;
        assert_eq!(rt; run(alloc, &code, 1000, FUEL)?.as_str(), want);
    }
    Ok(())
}

/// The value of a key after the puts of each number up to 1,000 under itself.
const ASCENDING: &[u8] =
    b"fun test(k: int): int = match get(filled(1000), k) with | Missing -> 0 | Found(v) -> v end;
fun filled(n: int): auth % = if le(n, 0) then empty(()) else fst(put(filled(sub(n, 1)), (n, n)));
";

/// The level at which a key stands that is put into the empty list.
const LEVEL: &[u8] = b"fun test(k: int): int = level_in(fst(put(empty(()), (k, 0))), 17);
fun level_in(t: auth %, j: int): int = match unauth(t) with | Floor -> j
  | Last(d) -> level_in(d, sub(j, 1)) | Step(d, k, v, r) -> j end;
";

/// The name of a program, the type of its state, a test of it, its argument, and how the test ends.
type Call = (
    &'static str,
    &'static [u8],
    &'static [u8],
    i64,
    &'static str,
);

const CALLS: [Call; 7] = [
    ("redblack", b"tree", ASCENDING, 777, "777"),
    ("redblack", b"tree", ASCENDING, 1001, "0"),
    ("skiplist", b"lane", ASCENDING, 777, "777"),
    ("skiplist", b"lane", LEVEL, 0, "17"),
    ("skiplist", b"lane", LEVEL, 12, "3"),
    ("skiplist", b"lane", LEVEL, -1, "1"),
    ("skiplist", b"lane", LEVEL, 65_536, "17"),
];

/// Whether a test of a program ends as it should.
fn ends_so(alloc: Global, call: &Call) -> Result<bool, AllocError> {
    let (name, state, test, argument, want) = *call;
    let code = code_of(alloc, &joined(alloc, name, state, test, b"")?)?;
    Ok(run(alloc, &code, argument, FUEL)?.as_str() == want)
}

#[test]
fn keys_are_found_and_stand_at_their_levels(rt: HostRuntime) -> Result<(), Fail> {
    for call in &CALLS {
        assert!(rt; ends_so(rt.alloc(), call)?, "{} of {}", call.0, call.3);
    }
    Ok(())
}

#[test]
fn four_names_have_a_text(rt: HostRuntime) {
    assert!(rt; source("bst").is_some_and(|text| text == BST));
    assert!(rt; source("merkle").is_some_and(|text| text == MERKLE));
    assert!(rt; source("redblack").is_some_and(|text| text == REDBLACK));
    assert!(rt; source("skiplist").is_some_and(|text| text == SKIPLIST));
    assert!(rt; source("").is_none() && source("bst.lam").is_none() && source("list").is_none());
}
