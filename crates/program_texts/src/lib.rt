//! The texts of programs that more than one crate of tests reads. Where a file is named beside one, it has this text.
#![tactic(auto)]

/// Authenticates a unit and opens it: `first/a.lam`.
pub const FIRST: &[u8] = b"state auth unit;
init make(x: unit): auth unit = auth(x);
query open(s: auth unit, x: unit): unit = unauth(s);
";

/// Adds to a state that is an int: `sum/sum.lam`.
pub const SUM: &[u8] = b"# A state that is an int, and a query that adds to it.
state int;
init start(x: int): int = x;
query more(s: int, x: int): int = add(s, x);
";

pub use ads_library::texts::{BST, MERKLE};

/// A transparency log: `log.lam`.
pub const LOG: &[u8] =
    b"# A transparency log: entries are appended and never changed, and anybody who holds the state's digests can check what it tells.
#
# The entries stand in perfect trees of 1, 2, 4, .. entries, no two of one size: the peaks. The newest peak is the smallest.

type tree = Entry(text) | Join(auth tree, auth tree);
type peaks = None | Peak(int, auth tree, auth peaks);
type found = Missing | Found(text);

# how many entries there are, and their peaks
state (int, auth peaks);

# the peaks with a tree of n entries before them; two peaks of one size are joined, the older one on the left
fun push(n: int, t: auth tree, p: auth peaks): auth peaks = match unauth(p) with
  | None -> auth(Peak(n, t, p))
  | Peak(m, u, older) -> if eq(n, m) then push(add(n, m), auth(Join(u, t)), older) else auth(Peak(n, t, p)) end;

# the entry with number i, from 0, of a tree of n entries
fun leaf(t: auth tree, n: int, i: int): found = match unauth(t) with
  | Entry(e) -> Found(e)
  | Join(l, r) -> let h = div(n, 2) in if lt(i, h) then leaf(l, h, i) else leaf(r, h, sub(i, h)) end;

# the entry with number i among the first n, whose peaks these are: the newest peak has the last ones
fun find(p: auth peaks, n: int, i: int): found = match unauth(p) with
  | None -> Missing
  | Peak(m, t, older) -> let first = sub(n, m) in if lt(i, first) then find(older, first, i) else leaf(t, m, sub(i, first)) end;

init start(x: unit): (int, auth peaks) = (0, auth(None));

query size(s: (int, auth peaks), x: unit): int = fst(s);

# the proof of this query is a proof that the entry is in the log, at this number
query entry(s: (int, auth peaks), i: int): found = if lt(i, 0) then Missing
  else if le(fst(s), i) then Missing else find(snd(s), fst(s), i);

# appends an entry and answers its number; the proof shows that all else stays
update append(s: (int, auth peaks), e: text): ((int, auth peaks), int) =
  ((add(fst(s), 1), push(1, auth(Entry(e)), snd(s))), fst(s));
";

/// Opens a bool, turns it around, and traps.
pub const SWITCH: &[u8] =
    b"state auth bool; init make(x: bool): auth bool = auth(x); query both(s: auth bool, x: unit): (bool, bool) = (unauth(s), unauth(s)); update flip(s: auth bool, x: unit): (auth bool, bool) = let b = unauth(s) in (auth(not(b)), b); query over(s: auth bool, x: unit): int = let b = unauth(s) in add(9223372036854775807, 1);";

/// Opens the first of two bools, the second and the first again.
pub const TWO: &[u8] =
    b"state (auth bool, auth bool); init make(x: (bool, bool)): (auth bool, auth bool) = (auth(fst(x)), auth(snd(x))); query three(s: (auth bool, auth bool), x: unit): (bool, (bool, bool)) = (unauth(fst(s)), (unauth(snd(s)), unauth(fst(s))));";
