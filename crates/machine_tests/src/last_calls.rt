// Calls that are the last of their function: the caller doesn't wait for the value, and what is computed of scalars is no node.
use crate::stage::{code_of, run_counted};
use std::alloc::Global;
use std::test::Fail;

/// A program, the int that its first function is called on, and what that comes to.
type Row = (&'static str, i64, &'static str);

/// Loops over scalars, whose calls are last ones: in a branch, under `let`, in the arm of a `match`, in turns with another function, in a
/// function whose value is worked on, and under several of them.
const LOOPS: [Row; 8] = [
    (
        "state unit; fun f(n: int): int = loop(n, 1); fun loop(n: int, a: int): int = if eq(n, 0) then a else loop(sub(n, 1), rem(add(mul(a, 31), n), 1000003));",
        1_000_000,
        "735937",
    ),
    (
        "state unit; fun f(n: int): int = if le(n, 0) then 7 else f(sub(n, 1));",
        100_000,
        "7",
    ),
    (
        "state unit; fun f(n: int): int = if eq(n, 0) then 8 else let m = sub(n, 1) in let k = add(m, 0) in f(k);",
        100_000,
        "8",
    ),
    (
        "state unit; fun f(n: int): int = g(n, le(n, 0)); fun g(n: int, b: bool): int = if b then n else if not(b) then f(sub(n, 1)) else 3;",
        100_000,
        "0",
    ),
    (
        "state unit; fun f(n: int): int = if f2(n) then 1 else 2; fun f2(n: int): bool = if le(n, 0) then true else f2(sub(n, 1));",
        100_000,
        "1",
    ),
    (
        "state unit; fun f(n: int): int = add(1, g(n)); fun g(n: int): int = if le(n, 0) then 0 else g(sub(n, 1));",
        100_000,
        "1",
    ),
    (
        "state unit; fun f(n: int): unit = if lt(0, n) then let u = () in let v = u in f(sub(n, 1)) else ();",
        100_000,
        "()",
    ),
    // it isn't the last, and each call waits
    (
        "state unit; fun f(n: int): int = if eq(n, 0) then 0 else add(n, f(sub(n, 1)));",
        100_000,
        "5000050000",
    ),
];

fn check_loop(alloc: Global, (text, argument, expected): Row) -> Result<(), Fail> {
    let code = code_of(alloc, text.as_bytes())?;
    let (told, nodes) = run_counted(alloc, &code, argument, 1_000_002)?;
    if told.as_str() != expected || nodes > 2 {
        return Err(Fail::new(format_args!("{text}: {told}, {nodes} nodes")));
    }
    Ok(())
}

/// The argument has a node, and the outcome's value has one.
#[test]
fn loops_over_scalars_put_the_outcome_alone(rt: HostRuntime) -> Result<(), Fail> {
    for row in LOOPS {
        check_loop(rt.alloc(), row)?;
    }
    Ok(())
}

/// What stands behind the functions whose last call is in the arm of a `match`.
const CHAINS: &str = "
    state unit;
    type chain = End | More(int, chain);
    fun chain(n: int, c: chain): chain = if le(n, 0) then c else chain(sub(n, 1), More(n, c));";

/// Functions over a chain of some links, and what they come to: a last call in an arm, in an arm under `let`, in an arm that is one of a
/// choice; one that waits in an arm.
const ARMS: [Row; 4] = [
    (
        "fun f(n: int): int = total(chain(n, End), 0); fun total(c: chain, a: int): int = match c with | End -> a | More(m, d) -> total(d, add(a, m)) end;",
        500,
        "125250",
    ),
    (
        "fun f(n: int): int = last(chain(n, End), 0); fun last(c: chain, a: int): int = match c with | End -> a | More(m, d) -> let b = sub(m, 1) in last(d, add(b, 1)) end;",
        500,
        "500",
    ),
    (
        "fun f(n: int): int = find(chain(n, End), 77, 0); fun find(c: chain, x: int, at: int): int = match c with | End -> -1 | More(m, d) -> if eq(m, x) then at else find(d, x, add(at, 1)) end;",
        500,
        "76",
    ),
    (
        "fun f(n: int): int = sum(chain(n, End)); fun sum(c: chain): int = match c with | End -> 0 | More(m, d) -> add(m, sum(d)) end;",
        500,
        "125250",
    ),
];

/// A chain is two nodes a link, one of them an int, and one at its end; beside it stand the argument and the outcome, which may be a part
/// of the chain or an operand that was put.
#[test]
fn walks_put_the_outcome_alone(rt: HostRuntime) -> Result<(), Fail> {
    for (walk, links, expected) in ARMS {
        let text = format!(in rt.alloc(); "{walk} {CHAINS}")?;
        let code = code_of(rt.alloc(), text.as_bytes())?;
        let (told, nodes) = run_counted(rt.alloc(), &code, links, 2_000)?;
        if told.as_str() != expected || nodes > 1 + 2 * 500 + 1 + 1 {
            return Err(Fail::new(format_args!("{walk}: {told}, {nodes} nodes")));
        }
    }
    Ok(())
}
