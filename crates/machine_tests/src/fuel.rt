// Fuel, in one run and in slices.
use crate::stage::{code_of, run, run_in_slices};
use code_gen::Code;
use std::alloc::Global;
use std::test::Fail;

/// A program, the int that its first function is called on, how many calls are made with enough fuel, and how the call ends then.
type Row = (&'static str, i64, u64, &'static str);

const ROWS: [Row; 9] = [
    ("state unit; fun f(x: int): int = x;", 3, 1, "3"),
    (
        "state unit; fun f(x: int): int = add(g(x), g(g(x))); fun g(n: int): int = mul(n, 2);",
        5,
        4,
        "30",
    ),
    (
        "state unit; fun f(x: int): int = if le(x, 0) then 0 else f(sub(x, 1));",
        13,
        14,
        "0",
    ),
    (
        "state unit; fun f(x: int): int = if le(x, 0) then 0 else add(1, f(sub(x, 1)));",
        20,
        21,
        "20",
    ),
    (
        "state unit; fun f(x: int): int = if lt(x, 2) then x else add(f(sub(x, 1)), f(sub(x, 2)));",
        9,
        109,
        "34",
    ),
    (
        "state unit; fun f(x: int): bool = if eq(x, 0) then true else odd(sub(x, 1)); fun odd(n: int): bool = if eq(n, 0) then false else f(sub(n, 1));",
        7,
        8,
        "false",
    ),
    // what traps ends with the fuel that is left
    (
        "state unit; fun f(x: int): int = if eq(x, 0) then div(1, x) else add(f(sub(x, 1)), f(x));",
        4,
        5,
        "divzero",
    ),
    // arguments are evaluated before a call takes its unit
    (
        "state unit; fun f(x: int): int = g(div(1, x)); fun g(n: int): int = n;",
        0,
        1,
        "divzero",
    ),
    (
        "state unit; fun f(x: int): int = let y = g(x) in g(add(y, 9223372036854775807)); fun g(n: int): int = n;",
        1,
        2,
        "overflow",
    ),
];

/// How many calls a slice has. The last one never ends.
const SLICES: [u64; 4] = [1, 2, 7, u64::MAX];

/// Checks that a run with this fuel makes so many calls and ends as told, at once and in slices. Between two slices a further call is
/// due and fuel is left.
///
/// # Errors
///
/// A failure where it doesn't, where memory runs out, and where the run can't be told.
pub fn check_ends(
    alloc: Global,
    code: &Code,
    argument: i64,
    fuel: u64,
    calls: u64,
    end: &str,
) -> Result<(), Fail> {
    let told = run(alloc, code, argument, fuel)?;
    if told.as_str() != end {
        return Err(Fail::new(format_args!("with {fuel}: {told}")));
    }
    for units in &SLICES {
        let due = calls.saturating_sub(1).checked_div(*units);
        check_slices(alloc, code, argument, fuel, *units, due, end)?;
    }
    Ok(())
}

/// Checks how a call ends in slices of so many calls, and that it pauses as often as is due.
fn check_slices(
    alloc: Global,
    code: &Code,
    argument: i64,
    fuel: u64,
    units: u64,
    due: Option<u64>,
    end: &str,
) -> Result<(), Fail> {
    let (told, pauses) = run_in_slices(alloc, code, argument, fuel, units)?;
    if told.as_str() != end || due != Some(pauses) {
        return Err(Fail::new(format_args!("with {fuel}, by {units}: {told}, {pauses} pauses")));
    }
    Ok(())
}

/// Checks a row with this fuel.
fn check_fuel(alloc: Global, code: &Code, row: &Row, fuel: u64) -> Result<(), Fail> {
    let (_, argument, calls, end) = *row;
    let end = if fuel < calls { "out" } else { end };
    check_ends(alloc, code, argument, fuel, calls.min(fuel), end)
}

/// Checks a row without fuel, with little, with one unit less than enough, with exactly enough, and with more.
fn check_row(alloc: Global, row: &Row) -> Result<(), Fail> {
    let code = code_of(alloc, row.0.as_bytes())?;
    let calls = row.2;
    for fuel in [
        0,
        1,
        2,
        7,
        calls.saturating_sub(1),
        calls,
        calls.saturating_add(1),
        1_000_000_000_000,
    ] {
        check_fuel(alloc, &code, row, fuel)?;
    }
    Ok(())
}

#[test]
fn fuel_in_slices(rt: HostRuntime) -> Result<(), Fail> {
    for row in &ROWS {
        check_row(rt.alloc(), row)?;
    }
    Ok(())
}
