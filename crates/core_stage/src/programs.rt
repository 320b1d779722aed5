// The programs that are served, and their first versions.

use crate::stage::Stage;
use ads_library::texts::BST;

/// A unit, which is opened.
pub const UNIT: Stage = Stage {
    text: b"state auth unit; init make(x: unit): auth unit = auth(x); query open(s: auth unit, x: unit): unit = unauth(s);",
    count: 2,
    records: b"\0\x06\0\0\0\0",
};

/// A bool that is true: `both` opens it two times, `flip` makes the other one of it, and `over` traps.
pub const BOOL: Stage = Stage {
    text: b"state auth bool; init make(x: bool): auth bool = auth(x); query both(s: auth bool, x: unit): (bool, bool) = (unauth(s), unauth(s)); update flip(s: auth bool, x: unit): (auth bool, bool) = let b = unauth(s) in (auth(not(b)), b); query over(s: auth bool, x: unit): int = let b = unauth(s) in add(9223372036854775807, 1);",
    count: 2,
    records: b"\x01\x01\x06\0\0\0\0",
};

/// Two bools, true and false, of which the first is opened again behind the second.
pub const PAIR: Stage = Stage {
    text: b"state (auth bool, auth bool); init make(x: (bool, bool)): (auth bool, auth bool) = (auth(fst(x)), auth(snd(x))); query three(s: (auth bool, auth bool), x: unit): (bool, (bool, bool)) = (unauth(fst(s)), (unauth(snd(s)), unauth(fst(s))));",
    count: 5,
    records: b"\x01\x01\x06\0\0\0\0\x01\0\x06\0\0\0\x02\x04\0\0\0\x01\0\0\0\x03",
};

/// A unit that is authenticated twice.
pub const DEEP: Stage = Stage {
    text: b"state auth auth unit; init make(x: unit): auth auth unit = auth(auth(x)); query deep(s: auth auth unit, x: unit): unit = unauth(unauth(s));",
    count: 3,
    records: b"\0\x06\0\0\0\0\x06\0\0\0\x01",
};

/// A bool that is true, which an update of as many calls as it is told replaces.
pub const SPIN: Stage = Stage {
    text: b"state auth bool; fun spin(n: int): int = if le(n, 0) then 0 else spin(sub(n, 1)); init make(x: bool): auth bool = auth(x); update put(s: auth bool, e: (int, bool)): (auth bool, int) = let n = spin(fst(e)) in (auth(snd(e)), n);",
    count: 2,
    records: b"\x01\x01\x06\0\0\0\0",
};

/// An empty search tree.
pub const TREE: Stage = Stage {
    text: BST,
    count: 2,
    records: b"\x05\0\0\0\x06\0\0\0\0",
};
