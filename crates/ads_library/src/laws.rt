//! What the library's programs do, over the definitions alone: each law is the contract of a function that does nothing.
//!
//! The programs are those that the texts of [`crate::texts`] are read to, written out as definitions. A law speaks of all states
//! that a program can come to: those that are left by a call of its init and any calls of its update, each done with whatever
//! fuel it had. It says what each role gives there, that no call traps, and how much fuel is enough for each call.

ghost use Rattle.ads_library.specs.MoreFuel.{MoreFuel};
ghost use Rattle.ads_library.specs.PlaceTree.{MerkleIsList, MerkleKeepsList, MerkleRoles};
ghost use Rattle.ads_library.specs.RedBlackTree.{RedBlackIsMap, RedBlackKeepsMap, RedBlackRoles};
ghost use Rattle.ads_library.specs.SearchTree.{BstIsMap, BstKeepsMap, BstRoles};
ghost use Rattle.ads_library.specs.SkipList.{SkipListIsMap, SkipListKeepsMap, SkipListRoles};
ghost use Rattle.ads_library.specs.ThousandPuts.{FindsAmongThousand};

/// More fuel changes nothing but for a call that ran out of it: in any mode, a call that ends otherwise ends alike with more.
pub fn more_fuel<C, W>()
    ensures { MoreFuel C W }
{}

/// `bst` keeps a map from ints to ints.
///
/// `roles` says that the program's roles give what plain functions on search trees give, and `tree` that these are the
/// functions of a map. So, as `map` says, after `empty` and any puts a get finds the value that was put last for its key, or is
/// missing where none was put, and each state is a search tree; with n distinct keys fuel n + 2 is enough.
pub fn bst()
    ensures roles { BstRoles }
    ensures tree { BstIsMap }
    ensures map { BstKeepsMap }
{}

/// `merkle` keeps a list of 2^c ints, where c is the exponent that `make` is given, brought into 0 to 30.
///
/// `roles` says that the program's roles give what plain functions on full trees give, and `tree` that these are the functions of
/// a list. So, as `list` says, after `make` and any puts a get finds the element at its place, or is missing outside, and a put
/// outside changes nothing; fuel 2c + 3 is enough for `make`, and c + 2 for the others.
pub fn merkle()
    ensures roles { MerkleRoles }
    ensures tree { MerkleIsList }
    ensures list { MerkleKeepsList }
{}

/// `redblack` keeps a map from ints to ints.
///
/// `roles` says that the program's roles give what plain functions on red-black trees give, and `tree` that these keep the
/// trees' invariants and are the functions of a map, and how high a tree is. So, as `map` says, after `empty` and any puts a get
/// finds the value that was put last for its key, or is missing where none was put, and each state is a red-black tree; with
/// fewer than 2^30 distinct keys fuel 1,000 is enough. `thousand` is its row of 1,000 puts.
pub fn redblack()
    ensures roles { RedBlackRoles }
    ensures tree { RedBlackIsMap }
    ensures map { RedBlackKeepsMap }
    ensures thousand { FindsAmongThousand }
{}

/// `skiplist` keeps a map from ints to ints.
///
/// `roles` says that the program's roles give what plain functions on lanes give, and `lanes` that these keep the lanes'
/// invariants and are the functions of a map, what the level of a key is, and that the list at each level has the keys of this
/// level or more, ascending. So, as `map` says, after `empty` and any puts a get finds the value that was put last for its key,
/// or is missing where none was put, and each state is a skip list; with n distinct keys fuel 100 (n + 20) is enough.
pub fn skiplist()
    ensures roles { SkipListRoles }
    ensures lanes { SkipListIsMap }
    ensures map { SkipListKeepsMap }
{}
