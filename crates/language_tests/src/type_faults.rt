// The first fault of texts that the grammar takes and the rules refuse: its kind and its place.
use crate::answers::{failed_row_of, misfit_of};
use auth_types::fault::{Limited, TypeKind};
use std::alloc::{AllocError, Global};
use std::test::Fail;

/// A text, and the kind, the line and the column of its first fault.
type Row = (&'static [u8], TypeKind, usize, usize);

/// A name stands before in its space, or the state is declared before.
const TWICE: [Row; 6] = [
    (b"type a = A; type a = B;", TypeKind::Twice, 1, 18),
    (b"type a = A | A;", TypeKind::Twice, 1, 14),
    (b"type a = A; type b = B | A;", TypeKind::Twice, 1, 26),
    (
        b"state unit; fun f(x: unit): unit = x; query f(s: unit, x: unit): unit = x;",
        TypeKind::Twice,
        1,
        45,
    ),
    (
        b"state unit; fun f(x: int, y: int, x: text): int = x;",
        TypeKind::Twice,
        1,
        35,
    ),
    (
        b"state unit; fun f(x: unit): unit = x; state int;",
        TypeKind::Twice,
        1,
        39,
    ),
];

/// There are too many, or there is no state.
const TOO_MANY: [Row; 5] = [
    (
        b"state unit; fun f(a: int, b: int, c: int, d: int, e: int, f: int, g: int, h: int, i: int): int = a;",
        TypeKind::Limit(Limited::Parameters),
        1,
        83,
    ),
    (
        b"type a = A(int, int, int, int, int, int, int, int, auth int);",
        TypeKind::Limit(Limited::Fields),
        1,
        52,
    ),
    (
        b"state unit; fun f(a: int, b: int, c: int, d: int, e: int, f: int, g: int, h: int, h: int): int = a;",
        TypeKind::Twice,
        1,
        83,
    ),
    (b"", TypeKind::NoState, 1, 1),
    (
        b"fun f(x: int): int = x; # no state\n ",
        TypeKind::NoState,
        2,
        2,
    ),
];

/// No type has the name.
const UNKNOWN_TYPES: [Row; 4] = [
    (b"state a;", TypeKind::UnknownName, 1, 7),
    (
        b"state unit; type a = A | B(a, auth b);",
        TypeKind::UnknownName,
        1,
        36,
    ),
    (
        b"state unit; fun f(x: (int, a)): int = 1;",
        TypeKind::UnknownName,
        1,
        28,
    ),
    (
        b"state unit; fun f(x: int): a = 1;",
        TypeKind::UnknownName,
        1,
        28,
    ),
];

/// A role has not the shape of its kind, or an `auth` stands in its argument.
const ROLES: [Row; 15] = [
    (
        b"state unit; init f(x: int, y: int): unit = ();",
        TypeKind::RoleShape,
        1,
        18,
    ),
    (
        b"state unit; init f(x: int): int = x;",
        TypeKind::RoleShape,
        1,
        18,
    ),
    (
        b"state unit; query f(s: unit): unit = s;",
        TypeKind::RoleShape,
        1,
        19,
    ),
    (
        b"state unit; query f(s: unit, x: int, y: int): unit = s;",
        TypeKind::RoleShape,
        1,
        19,
    ),
    (
        b"state auth int; query f(s: int, x: int): int = x;",
        TypeKind::RoleShape,
        1,
        23,
    ),
    (
        b"state unit; update f(s: unit): (unit, int) = (s, 1);",
        TypeKind::RoleShape,
        1,
        20,
    ),
    (
        b"state unit; update f(s: int, x: int): (unit, int) = ((), x);",
        TypeKind::RoleShape,
        1,
        20,
    ),
    (
        b"state unit; update f(s: unit, x: int): unit = s;",
        TypeKind::RoleShape,
        1,
        20,
    ),
    (
        b"state unit; update f(s: unit, x: int): (int, unit) = (x, s);",
        TypeKind::RoleShape,
        1,
        20,
    ),
    (
        b"state unit; query q(s: unit, x: auth int): int = 1;",
        TypeKind::AuthInArgument,
        1,
        33,
    ),
    (
        b"state unit; init f(x: auth int): unit = ();",
        TypeKind::AuthInArgument,
        1,
        23,
    ),
    (
        b"state unit; update f(s: unit, x: (int, auth int)): (unit, int) = (s, 1);",
        TypeKind::AuthInArgument,
        1,
        34,
    ),
    (
        b"type a = A(auth int); state unit; query q(s: unit, x: a): int = 1;",
        TypeKind::AuthInArgument,
        1,
        55,
    ),
    (
        b"type a = A | B(int, b); type b = C(a) | D(auth unit); state unit; init f(x: (int, a)): unit = ();",
        TypeKind::AuthInArgument,
        1,
        77,
    ),
    (
        b"state unit; init f(x: auth int): int = 1;",
        TypeKind::RoleShape,
        1,
        18,
    ),
];

/// No local, function or constructor has the name.
const NAMES: [Row; 7] = [
    (
        b"state unit; fun f(x: int): int = add(x, y);",
        TypeKind::UnknownName,
        1,
        41,
    ),
    (
        b"state unit; fun f(x: int): int = x(1);",
        TypeKind::UnknownName,
        1,
        34,
    ),
    (
        b"state unit; fun f(x: int): int = A;",
        TypeKind::UnknownName,
        1,
        34,
    ),
    (
        b"state unit; fun f(x: int): int = add(let y = 1 in y, y);",
        TypeKind::UnknownName,
        1,
        54,
    ),
    (
        b"state unit; fun f(x: int): int = let y = y in y;",
        TypeKind::UnknownName,
        1,
        42,
    ),
    (
        b"type a = A(int) | B; state unit; fun f(x: a): int = match x with | A(y) -> y | B -> y end;",
        TypeKind::UnknownName,
        1,
        85,
    ),
    (
        b"state unit; fun f(x: int): bool = let x = lt(x, 1) in lt(x, 1);",
        TypeKind::WrongType,
        1,
        58,
    ),
];

/// Another number of arguments, fields or names than there are to be.
const COUNTS: [Row; 5] = [
    (
        b"state unit; fun f(x: int): int = f(x, y);",
        TypeKind::WrongCount,
        1,
        34,
    ),
    (
        b"type a = A(int, int); state unit; fun f(x: int): a = A(y);",
        TypeKind::WrongCount,
        1,
        54,
    ),
    (
        b"type a = A(int); state unit; fun f(x: int): a = A;",
        TypeKind::WrongCount,
        1,
        49,
    ),
    (
        b"type a = A(int, int) | B; state unit; fun f(x: a): int = match x with | A(y) -> z | B -> 1 end;",
        TypeKind::WrongCount,
        1,
        73,
    ),
    (
        b"type a = A(int, int) | B; state unit; fun f(x: a): int = match x with | A(y, z) -> z | B(y) -> 1 end;",
        TypeKind::WrongCount,
        1,
        88,
    ),
];

/// The arms are not those of the type.
const ARMS: [Row; 5] = [
    (
        b"type a = A | B; state unit; fun f(x: a): int = add(1, match x with | A -> 1 end);",
        TypeKind::ArmsWrong,
        1,
        55,
    ),
    (
        b"type a = A; type b = B; state unit; fun f(x: a): int = match x with | A -> 1 | B -> y end;",
        TypeKind::ArmsWrong,
        1,
        56,
    ),
    (
        b"type a = A | B; state unit; fun f(x: a): int = match x with | B -> 1 | A -> 1 end;",
        TypeKind::ArmsWrong,
        1,
        48,
    ),
    (
        b"type a = A; type b = B; state unit; fun f(x: a): int = match x with | B -> 1 end;",
        TypeKind::ArmsWrong,
        1,
        56,
    ),
    (
        b"type a = A(int, int, int); state unit; fun f(x: a): int = match x with | A(y, z, y) -> 1 end;",
        TypeKind::Twice,
        1,
        82,
    ),
];

/// A first operand of two.
const FIRST_OPERANDS: [Row; 11] = [
    (
        b"state unit; fun f(x: bool, y: int): int = add(x, y);",
        TypeKind::WrongType,
        1,
        47,
    ),
    (
        b"state unit; fun f(x: text, y: int): int = sub(x, y);",
        TypeKind::WrongType,
        1,
        47,
    ),
    (
        b"state unit; fun f(x: unit, y: int): int = mul(x, y);",
        TypeKind::WrongType,
        1,
        47,
    ),
    (
        b"state unit; fun f(x: bool, y: int): int = div(x, y);",
        TypeKind::WrongType,
        1,
        47,
    ),
    (
        b"state unit; fun f(x: bool, y: int): int = rem(x, y);",
        TypeKind::WrongType,
        1,
        47,
    ),
    (
        b"state unit; fun f(x: text, y: int): bool = eq(x, y);",
        TypeKind::WrongType,
        1,
        47,
    ),
    (
        b"state unit; fun f(x: bool, y: int): bool = lt(x, y);",
        TypeKind::WrongType,
        1,
        47,
    ),
    (
        b"state unit; fun f(x: bool, y: int): bool = le(x, y);",
        TypeKind::WrongType,
        1,
        47,
    ),
    (
        b"state unit; fun f(x: int, y: text): bool = teq(x, y);",
        TypeKind::WrongType,
        1,
        48,
    ),
    (
        b"state unit; fun f(x: int, y: text): bool = tlt(x, y);",
        TypeKind::WrongType,
        1,
        48,
    ),
    (
        b"state unit; fun f(x: int, y: text): text = cat(x, y);",
        TypeKind::WrongType,
        1,
        48,
    ),
];

/// A second operand of two.
const SECOND_OPERANDS: [Row; 11] = [
    (
        b"state unit; fun f(x: int, y: bool): int = add(x, y);",
        TypeKind::WrongType,
        1,
        50,
    ),
    (
        b"state unit; fun f(x: int, y: bool): int = sub(x, y);",
        TypeKind::WrongType,
        1,
        50,
    ),
    (
        b"state unit; fun f(x: int, y: bool): int = mul(x, y);",
        TypeKind::WrongType,
        1,
        50,
    ),
    (
        b"state unit; fun f(x: int, y: bool): int = div(x, y);",
        TypeKind::WrongType,
        1,
        50,
    ),
    (
        b"state unit; fun f(x: int, y: bool): int = rem(x, y);",
        TypeKind::WrongType,
        1,
        50,
    ),
    (
        b"state unit; fun f(x: int, y: text): bool = eq(x, y);",
        TypeKind::WrongType,
        1,
        50,
    ),
    (
        b"state unit; fun f(x: int, y: bool): bool = lt(x, y);",
        TypeKind::WrongType,
        1,
        50,
    ),
    (
        b"state unit; fun f(x: int, y: bool): bool = le(x, y);",
        TypeKind::WrongType,
        1,
        50,
    ),
    (
        b"state unit; fun f(x: text, y: int): bool = teq(x, y);",
        TypeKind::WrongType,
        1,
        51,
    ),
    (
        b"state unit; fun f(x: text, y: int): bool = tlt(x, y);",
        TypeKind::WrongType,
        1,
        51,
    ),
    (
        b"state unit; fun f(x: text, y: int): text = cat(x, y);",
        TypeKind::WrongType,
        1,
        51,
    ),
];

/// Other parts.
const PARTS: [Row; 17] = [
    (
        b"state unit; fun f(x: int): int = len(add(x, 1));",
        TypeKind::WrongType,
        1,
        38,
    ),
    (
        b"state unit; fun f(x: int): bool = not(x);",
        TypeKind::WrongType,
        1,
        39,
    ),
    (
        b"state unit; fun f(x: int, y: bool): int = f(y, x);",
        TypeKind::WrongType,
        1,
        45,
    ),
    (
        b"state unit; fun f(x: int, y: bool): int = f(x, add(x, 1));",
        TypeKind::WrongType,
        1,
        48,
    ),
    (
        b"type a = A(int, auth int); state unit; fun f(x: int): a = A(x, x);",
        TypeKind::WrongType,
        1,
        64,
    ),
    (
        b"state unit; fun f(x: int): int = if x then x else x;",
        TypeKind::WrongType,
        1,
        37,
    ),
    (
        b"state unit; fun f(x: int): int = if true then x else true;",
        TypeKind::WrongType,
        1,
        54,
    ),
    (
        b"type a = A | B | C; state unit; fun f(x: a): int = match x with | A -> 1 | B -> true | C -> () end;",
        TypeKind::WrongType,
        1,
        81,
    ),
    (
        b"state unit; fun f(x: int): auth int = x;",
        TypeKind::WrongType,
        1,
        39,
    ),
    (
        b"state unit; fun f(x: int): (int, bool) = (x, x);",
        TypeKind::WrongType,
        1,
        42,
    ),
    (
        b"type a = A; type b = B; state unit; fun f(x: int): a = B;",
        TypeKind::WrongType,
        1,
        56,
    ),
    (
        b"state unit; fun f(x: int): int = fst(x);",
        TypeKind::NotPair,
        1,
        38,
    ),
    (
        b"state unit; fun f(x: int): int = snd(auth((x, x)));",
        TypeKind::NotPair,
        1,
        38,
    ),
    (
        b"state unit; fun f(x: int): int = unauth(5);",
        TypeKind::NotAuth,
        1,
        41,
    ),
    (
        b"type a = A; state unit; fun f(x: int): int = match x with | A -> 1 end;",
        TypeKind::NotSum,
        1,
        52,
    ),
    (
        b"type a = A; state unit; fun f(x: auth a): int = match x with | A -> 1 end;",
        TypeKind::NotSum,
        1,
        55,
    ),
    (
        b"state unit; fun f(x: unit): int = \"a\";",
        TypeKind::WrongType,
        1,
        35,
    ),
];

/// Two faults in each text.
const ORDERS: [Row; 17] = [
    (
        b"state b; fun f(x: int): int = x; fun f(x: int): int = x;",
        TypeKind::Twice,
        1,
        38,
    ),
    (b"type a = A(b);", TypeKind::NoState, 1, 15),
    (
        b"state unit; init f(x: int): int = x; fun g(x: a): int = 1;",
        TypeKind::UnknownName,
        1,
        47,
    ),
    (
        b"state unit; fun f(x: int): int = y; init g(x: int): int = 1;",
        TypeKind::RoleShape,
        1,
        42,
    ),
    (
        b"state unit; state int; type a = A; type a = A; fun f(x: int, x: int): int = x;",
        TypeKind::Twice,
        1,
        13,
    ),
    (b"type a = A; type a = B;", TypeKind::Twice, 1, 18),
    (
        b"fun f(x: int, x: int): int = x; type a = A | A;",
        TypeKind::Twice,
        1,
        15,
    ),
    (
        b"type a = A | A; fun f(x: int, x: int): int = x;",
        TypeKind::Twice,
        1,
        14,
    ),
    (
        b"state unit; fun f(x: a, y: b): c = 1; type d = D(e);",
        TypeKind::UnknownName,
        1,
        22,
    ),
    (
        b"state unit; init f(x: auth int): unit = (); init g(x: int): int = 1;",
        TypeKind::AuthInArgument,
        1,
        23,
    ),
    (
        b"state unit; fun f(x: int): int = add(true, y); fun g(x: int): int = z;",
        TypeKind::WrongType,
        1,
        38,
    ),
    (
        b"state unit; fun f(x: int): text = add(x, y);",
        TypeKind::UnknownName,
        1,
        42,
    ),
    (
        b"state unit; fun f(x: int): int = add(true, add(y, z));",
        TypeKind::WrongType,
        1,
        38,
    ),
    (
        b"state unit; fun f(x: int): int = if 1 then y else z;",
        TypeKind::WrongType,
        1,
        37,
    ),
    (
        b"type a = A | B; state unit; fun f(x: a): int = match x with | A -> y end;",
        TypeKind::ArmsWrong,
        1,
        48,
    ),
    (
        b"type a = A(int) | B; state unit; fun f(x: a): int = match x with | A(y, y) -> z | B -> 1 end;",
        TypeKind::WrongCount,
        1,
        68,
    ),
    (
        b"type a = A(int, int); state unit; fun f(x: a): int = match x with | A(y, y) -> z end;",
        TypeKind::Twice,
        1,
        74,
    ),
];

/// The number of the first row, from 0, whose text has another fault, or none.
fn wrong_row(alloc: Global, rows: &[Row]) -> Result<Option<usize>, AllocError> {
    for (number, (text, kind, line, column)) in rows.iter().enumerate() {
        if misfit_of(alloc, text)? != Some((*kind, *line, *column)) {
            return Ok(Some(number));
        }
    }
    Ok(None)
}

const TABLES: [(&str, &[Row]); 11] = [
    ("twice", &TWICE),
    ("too many", &TOO_MANY),
    ("unknown types", &UNKNOWN_TYPES),
    ("roles", &ROLES),
    ("names", &NAMES),
    ("counts", &COUNTS),
    ("arms", &ARMS),
    ("first operands", &FIRST_OPERANDS),
    ("second operands", &SECOND_OPERANDS),
    ("parts", &PARTS),
    ("orders", &ORDERS),
];

#[test]
fn texts_have_their_first_fault(rt: HostRuntime) -> Result<(), Fail> {
    for (table, rows) in &TABLES {
        if let Some(number) = wrong_row(rt.alloc(), rows)? {
            return Err(failed_row_of(table, number));
        }
    }
    Ok(())
}
