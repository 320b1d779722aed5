// Many calls, and deep recursion: frames stand on the heap, and not on the native stack.
use crate::stage::{code_of, run_in_slices};
use std::test::Fail;

/// So many calls, each of which is the last of the one before it.
const SPIN: &[u8] = b"state unit; fun spin(n: int): int = if le(n, 0) then 0 else spin(sub(n, 1));";

/// The same, where each call waits for the value of the next one and adds to it.
const DEEP: &[u8] =
    b"state unit; fun deep(n: int): int = if le(n, 0) then 0 else add(1, deep(sub(n, 1)));";

#[test]
fn ten_million_calls(rt: HostRuntime) -> Result<(), Fail> {
    let code = code_of(rt.alloc(), SPIN)?;
    let (told, pauses) = run_in_slices(rt.alloc(), &code, 10_000_000, 10_000_001, 1_000_000)?;
    assert!(rt; told.as_str() == "0");
    assert!(rt; pauses == 10);
    Ok(())
}

#[test]
fn a_million_calls_within_calls(rt: HostRuntime) -> Result<(), Fail> {
    let code = code_of(rt.alloc(), DEEP)?;
    let (told, pauses) = run_in_slices(rt.alloc(), &code, 1_000_000, 1_000_001, u64::MAX)?;
    assert!(rt; told.as_str() == "1000000");
    assert!(rt; pauses == 0);
    Ok(())
}
