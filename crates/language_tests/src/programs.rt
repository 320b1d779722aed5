// Texts that are programs, and what a program tells of itself.
use crate::answers::{Repeated, failed_row, misfit_of, program_of, tree_of};
use core_terms::{Program, RoleId, RoleKind, TyId};
use program_texts::{BST, LOG, MERKLE};
use std::alloc::{AllocError, Global};
use std::test::Fail;

/// Programs, large and small.
static PROGRAMS: [&[u8]; 16] = [
    BST,
    MERKLE,
    LOG,
    // spaces of names are apart, eight parts may stand, and a type may name a later one
    b"type a = A(a) | B; state a; fun a(a: a): a = A(a(a)); fun b(a: a): a = a;",
    b"type a = A(int, int, int, int, int, int, int, int); state unit; fun f(a: int, b: int, c: int, d: int, e: int, f: int, g: int, h: int): int = a;",
    b"state a; type a = A(b); type b = B;",
    // roles of their shapes
    b"type a = A; state a; init f(x: int): a = A; query g(s: a, x: text): bool = true; update h(s: a, x: (int, a)): (a, int) = (s, 1);",
    b"type a = A | B(int, b); type b = C(a) | D(int); type c = E(auth c); state unit; init f(x: (int, a)): unit = ();",
    b"state auth int; fun f(x: auth int): auth int = x; query q(s: auth int, x: int): auth int = s;",
    // locals that hide others, calls of later functions, and patterns with the same names
    b"state unit; fun f(x: int): bool = let x = lt(x, 1) in let x = not(x) in x;",
    b"type a = A(bool, a) | B; state unit; fun f(x: a): bool = match x with | A(y, x) -> y | B -> false end;",
    b"state unit; fun f(x: int): int = add(if let x = lt(x, 1) in x then 1 else 2, x);",
    b"state unit; fun f(x: unit): int = g((), x); query g(s: unit, x: unit): int = add(f(s), g(s, x));",
    b"type a = A(int) | B(int, a); state unit; fun f(x: a): int = match x with | A(y) -> y | B(y, z) -> match z with | A(y) -> y | B(z, y) -> z end end;",
    // each operation on operands of its types
    b"state unit; fun f(x: unit): (text, (int, (bool, (bool, unit)))) = (\"a\", (-1, (true, (false, ()))));",
    b"state unit; fun f(x: int, t: text, b: bool): (auth int, (bool, text)) = (auth(add(sub(x, 1), mul(div(x, 2), rem(x, 3)))), (if eq(x, 1) then not(lt(x, 1)) else if le(len(t), 1) then teq(t, t) else tlt(t, t), cat(t, t))); fun g(x: auth (int, bool)): bool = snd((fst(unauth(x)), snd(unauth(x))));",
];

#[test]
fn programs_are_taken(rt: HostRuntime) -> Result<(), Fail> {
    for (number, text) in PROGRAMS.iter().enumerate() {
        if misfit_of(rt.alloc(), text)?.is_some() {
            return Err(failed_row(number));
        }
    }
    Ok(())
}

#[test]
fn programs_of_some_size_are_parsed(rt: HostRuntime) -> Result<(), Fail> {
    assert!(rt; tree_of(rt.alloc(), BST)?.declarations.len() == 8);
    assert!(rt; tree_of(rt.alloc(), MERKLE)?.declarations.len() == 10);
    Ok(())
}

/// The program of three named types and a state of a type.
fn of_state(alloc: Global, state: &str) -> Result<Program, AllocError> {
    let text = format!(in alloc;
        "type outer = Outer(int, inner); type inner = Inner(auth int); type plain = Plain(int, plain); state {state};"
    )?;
    program_of(alloc, text.as_bytes())
}

/// Types, and whether an `auth` stands in them.
const STATES: [(&str, bool); 5] = [
    ("outer", true),
    ("inner", true),
    ("auth int", true),
    ("plain", false),
    ("int", false),
];

/// Whether the program of a state has the three named types, and an `auth` stands in the state if it is to.
fn is_of_state(alloc: Global, state: &str, has_auth: bool) -> Result<bool, AllocError> {
    let program = of_state(alloc, state)?;
    Ok(program.named_types().len() == 3 && program.has_auth(program.state_type()) == has_auth)
}

#[test]
fn an_auth_is_found_through_named_types(rt: HostRuntime) -> Result<(), Fail> {
    for (state, has_auth) in &STATES {
        if !is_of_state(rt.alloc(), state, *has_auth)? {
            return Err(Fail::new(*state));
        }
    }
    Ok(())
}

/// How many types of a program an `auth` stands in.
fn count_of_auths(program: &Program) -> usize {
    (0..program.type_count())
        .filter(|number| program.has_auth(TyId(*number)))
        .count()
}

/// In how many types an `auth` stands where 90 lets follow on a beginning.
fn count_behind(alloc: Global, beginning: &'static [u8]) -> Result<usize, AllocError> {
    let lets = Repeated {
        beginning,
        part: b"let x = (x, x) in\n",
        count: 90,
        middle: b"0;",
        closing: b"",
        end: b"",
    };
    let text = lets.text(alloc)?;
    Ok(count_of_auths(&program_of(alloc, &text)?))
}

/// The beginning of a function, and in how many types an `auth` stands where 90 lets each bind a pair of the last one, from the parameter
/// on.
static LONG: [(&[u8], usize); 2] = [
    (b"type item = Only; state unit; fun f(x: item): int =\n", 0),
    (
        b"type item = Only; state unit; fun f(x: auth item): int =\n",
        91,
    ),
];

#[test]
fn an_auth_is_found_in_long_types(rt: HostRuntime) -> Result<(), Fail> {
    for (number, (beginning, count)) in LONG.iter().enumerate() {
        if count_behind(rt.alloc(), beginning)? != *count {
            return Err(failed_row(number));
        }
    }
    Ok(())
}

/// A program with a function of each kind.
const KINDS: &[u8] =
    b"state unit; fun same(x: unit): unit = x; init make(x: unit): unit = x; query look(s: unit, x: unit): unit = x; update put(s: unit, x: unit): (unit, unit) = (s, x);";

/// Its roles: their kinds, the numbers of their functions and their names.
static ROLES: [(RoleKind, usize, &str); 3] = [
    (RoleKind::Init, 1, "make"),
    (RoleKind::Query, 2, "look"),
    (RoleKind::Update, 3, "put"),
];

/// Whether the program tells of these roles.
fn tells_roles(program: &Program) -> bool {
    for (place, (kind, function, name)) in ROLES.iter().enumerate() {
        let is_told = match program.roles().get(place) {
            Some(role) => {
                role.kind == *kind
                    && role.function.0 == *function
                    && role.argument == program.state_type()
            }
            None => false,
        };
        if !is_told || program.role(name) != Some(RoleId(place)) {
            return false;
        }
    }
    true
}

/// Whether it tells of nothing else.
fn tells_nothing_else(program: &Program) -> bool {
    program.roles().len() == 3
        && program.functions().len() == 4
        && program.role("same").is_none()
        && program.role("mak").is_none()
        && program.spelling_limit() == 65_536
        && program.text_digest().0 == [7; 32]
}

/// Whether the program of `KINDS` tells of its roles alone.
fn tells_kinds(alloc: Global) -> Result<bool, AllocError> {
    let program = program_of(alloc, KINDS)?;
    Ok(tells_roles(&program) && tells_nothing_else(&program))
}

#[test]
fn roles_are_told(rt: HostRuntime) -> Result<(), Fail> {
    assert!(rt; tells_kinds(rt.alloc())?);
    Ok(())
}
