// The texts of the library. Each is the file of this name in `crates/library_files/data`.
ghost use Rattle.std.specs.Prelude.{◌≡◌, ◌↔◌, Contains, IsSome, option_map};
ghost use Rattle.ads_library.specs.Names.{library_names};
ghost use Rattle.ads_library.specs.Texts.{library_text};

/// The text of a program of the library; none exactly for other names.
pub fn source(name: &str) -> Option<&'static [u8]>
    ensures known { IsSome result ↔ Contains library_names name.now }
    ensures text { option_map (λ text. text.now) result ≡ library_text name.now }
{
    match name {
        "bst" => Some(BST),
        "merkle" => Some(MERKLE),
        "redblack" => Some(REDBLACK),
        "skiplist" => Some(SKIPLIST),
        _ => None,
    }
}

/// Keys and values in a search tree; its law is [`crate::laws::bst`].
pub const BST: &[u8] = b"type tree = Leaf | Node(int, int, auth tree, auth tree);
type found = Missing | Found(int);
state auth tree;
fun look(t: auth tree, k: int): found = match unauth(t) with | Leaf -> Missing
  | Node(a, v, l, r) -> if eq(k, a) then Found(v) else if lt(k, a) then look(l, k) else look(r, k) end;
fun ins(t: auth tree, k: int, v: int): auth tree = match unauth(t) with
  | Leaf -> auth(Node(k, v, auth(Leaf), auth(Leaf)))
  | Node(a, w, l, r) -> if eq(k, a) then auth(Node(a, v, l, r))
      else if lt(k, a) then auth(Node(a, w, ins(l, k, v), r)) else auth(Node(a, w, l, ins(r, k, v))) end;
init empty(x: unit): auth tree = auth(Leaf);
query get(s: auth tree, k: int): found = look(s, k);
update put(s: auth tree, e: (int, int)): (auth tree, unit) = (ins(s, fst(e), snd(e)), ());
";

/// A list of ints in a tree of digests; its law is [`crate::laws::merkle`].
pub const MERKLE: &[u8] = b"type tree = Tip(int) | Fork(auth tree, auth tree);
type found = Missing | Found(int);
state (int, auth tree);
fun full(d: int): int = if le(d, 0) then 1 else mul(2, full(sub(d, 1)));
fun fill(n: int, v: int): auth tree = if le(n, 1) then auth(Tip(v))
  else let t = fill(div(n, 2), v) in auth(Fork(t, t));
fun look(t: auth tree, n: int, i: int): found = match unauth(t) with | Tip(v) -> Found(v)
  | Fork(l, r) -> let h = div(n, 2) in if lt(i, h) then look(l, h, i) else look(r, h, sub(i, h)) end;
fun change(t: auth tree, n: int, i: int, v: int): auth tree = match unauth(t) with | Tip(w) -> auth(Tip(v))
  | Fork(l, r) -> let h = div(n, 2) in if lt(i, h) then auth(Fork(change(l, h, i, v), r))
      else auth(Fork(l, change(r, h, sub(i, h), v))) end;
init make(x: (int, int)): (int, auth tree) =
  let d = if lt(fst(x), 0) then 0 else if lt(30, fst(x)) then 30 else fst(x) in
  let n = full(d) in (n, fill(n, snd(x)));
query get(s: (int, auth tree), i: int): found = if lt(i, 0) then Missing
  else if le(fst(s), i) then Missing else look(snd(s), fst(s), i);
update put(s: (int, auth tree), e: (int, int)): ((int, auth tree), unit) = if lt(fst(e), 0) then (s, ())
  else if le(fst(s), fst(e)) then (s, ()) else ((fst(s), change(snd(s), fst(s), fst(e), snd(e))), ());
";

/// Keys and values in a red-black tree; its law is [`crate::laws::redblack`].
pub const REDBLACK: &[u8] =
    b"# Keys and values in a red-black tree. Keys are in order, no Red has a Red under it, and each path from the root to a Leaf has
# the same number of Blacks.
type tree = Leaf | Red(int, int, auth tree, auth tree) | Black(int, int, auth tree, auth tree);
type found = Missing | Found(int);
state auth tree;

# A subtree that was put into, as whoever has it next to a key sees it: it has no Red on top; it is a Red of this key, value and
# subtrees; or it is two Reds, one under the other, with two keys, their values and three subtrees in order. The last comes of a
# Red alone.
type grown = Settled(auth tree) | Rising(int, int, auth tree, auth tree)
  | Clash(int, int, int, int, auth tree, auth tree, auth tree);

fun look(t: auth tree, k: int): found = match unauth(t) with
  | Leaf -> Missing
  | Red(a, v, l, r) -> if eq(k, a) then Found(v) else if lt(k, a) then look(l, k) else look(r, k)
  | Black(a, v, l, r) -> if eq(k, a) then Found(v) else if lt(k, a) then look(l, k) else look(r, k) end;

# a Red with what grew on its left, and on its right
fun red_left(g: grown, a: int, w: int, r: auth tree): grown = match g with
  | Settled(l) -> Rising(a, w, l, r)
  | Rising(b, x, p, q) -> Clash(b, x, a, w, p, q, r)
  | Clash(b, x, c, y, p, q, s) -> Clash(c, y, a, w, auth(Red(b, x, p, q)), s, r) end;
fun red_right(l: auth tree, a: int, w: int, g: grown): grown = match g with
  | Settled(r) -> Rising(a, w, l, r)
  | Rising(b, x, p, q) -> Clash(a, w, b, x, l, p, q)
  | Clash(b, x, c, y, p, q, s) -> Clash(a, w, b, x, l, p, auth(Red(c, y, q, s))) end;

# a Black with what grew on its left, and on its right: two Reds below it become a Red over two Blacks
fun black_left(g: grown, a: int, w: int, r: auth tree): grown = match g with
  | Settled(l) -> Settled(auth(Black(a, w, l, r)))
  | Rising(b, x, p, q) -> Settled(auth(Black(a, w, auth(Red(b, x, p, q)), r)))
  | Clash(b, x, c, y, p, q, s) -> Rising(c, y, auth(Black(b, x, p, q)), auth(Black(a, w, s, r))) end;
fun black_right(l: auth tree, a: int, w: int, g: grown): grown = match g with
  | Settled(r) -> Settled(auth(Black(a, w, l, r)))
  | Rising(b, x, p, q) -> Settled(auth(Black(a, w, l, auth(Red(b, x, p, q)))))
  | Clash(b, x, c, y, p, q, s) -> Rising(b, x, auth(Black(a, w, l, p)), auth(Black(c, y, q, s))) end;

fun ins(t: auth tree, k: int, v: int): grown = match unauth(t) with
  | Leaf -> Rising(k, v, auth(Leaf), auth(Leaf))
  | Red(a, w, l, r) -> if eq(k, a) then Rising(a, v, l, r)
      else if lt(k, a) then red_left(ins(l, k, v), a, w, r) else red_right(l, a, w, ins(r, k, v))
  | Black(a, w, l, r) -> if eq(k, a) then Settled(auth(Black(a, v, l, r)))
      else if lt(k, a) then black_left(ins(l, k, v), a, w, r) else black_right(l, a, w, ins(r, k, v)) end;

# the whole tree that grew: its root is a Black
fun root(g: grown): auth tree = match g with
  | Settled(t) -> t
  | Rising(a, w, l, r) -> auth(Black(a, w, l, r))
  | Clash(b, x, c, y, p, q, s) -> auth(Black(c, y, auth(Red(b, x, p, q)), s)) end;

init empty(x: unit): auth tree = auth(Leaf);
query get(s: auth tree, k: int): found = look(s, k);
update put(s: auth tree, e: (int, int)): (auth tree, unit) = (root(ins(s, fst(e), snd(e))), ());
";

/// Keys and values in a skip list of 17 levels; its law is [`crate::laws::skiplist`].
pub const SKIPLIST: &[u8] =
    b"# Keys and values in a skip list of 17 levels. The level of a key depends on the key alone: 1, and 1 more for each time that 2
# divides it modulo 65,536, up to 17. The list at level j has the keys of level j or more, ascending.
#
# A lane is a part of the list at one level. Step has a key with its value, what is below before this key, and the rest of the
# lane; Last has what is below at the end. Below is a lane one level lower, of the keys between two neighbours. Level 0 is the Floor.
type lane = Floor | Last(auth lane) | Step(auth lane, int, int, auth lane);
type found = Missing | Found(int);
type cut = Cut(auth lane, auth lane);
state auth lane;

# a lane without keys at level j
fun bare(j: int): auth lane = if le(j, 0) then auth(Floor) else auth(Last(bare(sub(j, 1))));

fun look(t: auth lane, k: int): found = match unauth(t) with
  | Floor -> Missing
  | Last(d) -> look(d, k)
  | Step(d, a, v, r) -> if eq(k, a) then Found(v) else if lt(k, a) then look(d, k) else look(r, k) end;

# the level of a key, by what is left of it modulo 65,536 where it has at least level j
fun low(k: int): int = let m = rem(k, 65536) in if lt(m, 0) then add(m, 65536) else m;
fun level(m: int, j: int): int = if le(17, j) then 17
  else if eq(rem(m, 2), 0) then level(div(m, 2), add(j, 1)) else j;

# the keys of a lane before k, and those behind it, as two lanes
fun split(t: auth lane, k: int): cut = match unauth(t) with
  | Floor -> Cut(t, t)
  | Last(d) -> cut_end(split(d, k))
  | Step(d, a, w, r) -> if lt(k, a) then cut_below(split(d, k), a, w, r) else cut_behind(d, a, w, split(r, k)) end;

# the same of a lane whose cut part is below its end, below a step, or behind a step
fun cut_end(c: cut): cut = match c with | Cut(d, e) -> Cut(auth(Last(d)), auth(Last(e))) end;
fun cut_below(c: cut, a: int, w: int, r: auth lane): cut = match c with
  | Cut(d, e) -> Cut(auth(Last(d)), auth(Step(e, a, w, r))) end;
fun cut_behind(d: auth lane, a: int, w: int, c: cut): cut = match c with | Cut(r, s) -> Cut(auth(Step(d, a, w, r)), s) end;

# a step of key k between two lanes one level lower, at the end of its lane and before another step
fun step_at_end(c: cut, k: int, v: int): auth lane = match c with | Cut(d, e) -> auth(Step(d, k, v, auth(Last(e)))) end;
fun step_before(c: cut, k: int, v: int, a: int, w: int, r: auth lane): auth lane = match c with
  | Cut(d, e) -> auth(Step(d, k, v, auth(Step(e, a, w, r)))) end;

# puts a key into the lane of its level
fun place(t: auth lane, k: int, v: int): auth lane = match unauth(t) with
  | Floor -> t
  | Last(d) -> step_at_end(split(d, k), k, v)
  | Step(d, a, w, r) -> if eq(k, a) then auth(Step(d, a, v, r))
      else if lt(k, a) then step_before(split(d, k), k, v, a, w, r) else auth(Step(d, a, w, place(r, k, v))) end;

# the same from a lane that is n levels higher
fun ins(t: auth lane, n: int, k: int, v: int): auth lane = if le(n, 0) then place(t, k, v) else match unauth(t) with
  | Floor -> t
  | Last(d) -> auth(Last(ins(d, sub(n, 1), k, v)))
  | Step(d, a, w, r) -> if lt(k, a) then auth(Step(ins(d, sub(n, 1), k, v), a, w, r))
      else auth(Step(d, a, w, ins(r, n, k, v))) end;

init empty(x: unit): auth lane = bare(17);
query get(s: auth lane, k: int): found = look(s, k);
update put(s: auth lane, e: (int, int)): (auth lane, unit) =
  (ins(s, sub(17, level(low(fst(e)), 1)), fst(e), snd(e)), ());
";
