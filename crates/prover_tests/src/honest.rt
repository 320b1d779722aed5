// Calls that are proved: the proof is accepted and agreed with.
use crate::stage::{
    Call, End, audited, code, file, proved, proved_on, source, verdict, verdict_on,
};
use code_gen::Code;
use collision_audit::Audited;
use digest_layer::Sha;
use reuse_buffer::Ring;
use std::alloc::{AllocError, Global};
use std::test::Fail;
use value_store::Store;

/// Whether a proof file is accepted and agreed with, by so many bytes a read.
fn is_taken(
    alloc: Global,
    code: &Code,
    store: &mut Store,
    call: Call,
    end: End,
    bytes: &[u8],
    most: usize,
) -> Result<bool, AllocError> {
    let mut judged = source(alloc, bytes, most)?;
    let accepted = match &verdict::<Sha>(alloc, code, call, &mut judged)? {
        Ok(outcome) => end.is(outcome),
        Err(_) => false,
    };
    let mut compared = source(alloc, bytes, most)?;
    let agreed = match &audited::<Sha>(alloc, code, store, call, &mut compared)? {
        Ok(Audited::Agrees(outcome)) => end.is(outcome),
        _ => false,
    };
    Ok(accepted && agreed && judged.left() == 0 && compared.left() == 0)
}

/// A call, the number of pieces that are kept, how it ends, and how many frames are new and how many name a kept piece.
type Row = (Call, u16, End, [u64; 2]);

/// Whether a call is proved as its row says.
fn is_proved(alloc: Global, code: &Code, row: Row) -> Result<bool, AllocError> {
    let (call, size, end, frames) = row;
    let mut store = Store::new(alloc, code.types().spelling_limit() as u32);
    let told = proved::<Sha>(alloc, code, &mut store, call, size)?;
    if [told.fresh, told.again] != frames || !end.is(&told.outcome) {
        return Ok(false);
    }
    let bytes = file(alloc, size, &told.frames)?;
    for most in [1, 2, 3, 7] {
        if !is_taken(alloc, code, &mut store, call, end, &bytes, most)? {
            return Ok(false);
        }
    }
    Ok(true)
}

/// Of `again`: k and m, the number of pieces that are kept, the sum, and the frames.
type Distance = (i64, i64, u16, &'static [u8; 8], [u64; 2]);

/// A piece that is opened again k openings later is named where k pieces are kept, and new where fewer are.
const DISTANCES: [Distance; 9] = [
    (1, 3, 0, b"\0\0\0\0\0\0\0\0", [3, 0]),
    (1, 3, 1, b"\0\0\0\0\0\0\0\0", [1, 2]),
    (2, 4, 1, b"\0\0\0\0\0\0\0\x02", [4, 0]),
    (2, 5, 2, b"\0\0\0\0\0\0\0\x03", [2, 3]),
    (3, 6, 2, b"\0\0\0\0\0\0\0\x06", [6, 0]),
    (16, 40, 16, b"\0\0\0\0\0\0\x01\x14", [16, 24]),
    (17, 40, 16, b"\0\0\0\0\0\0\x01\x25", [40, 0]),
    (1024, 1026, 1024, b"\0\0\0\0\0\x07\xfe\x03", [1024, 2]),
    (1025, 1027, 1024, b"\0\0\0\0\0\x08\x02\x03", [1027, 0]),
];

#[test]
fn a_piece_is_named_as_long_as_it_is_kept(rt: HostRuntime) -> Result<(), Fail> {
    let code = code(rt.alloc())?;
    for (state, argument, size, sum, frames) in DISTANCES {
        let call = Call {
            role: "again",
            state,
            argument,
            fuel: 5000,
        };
        if !is_proved(rt.alloc(), &code, (call, size, End::Done(sum), frames))? {
            return Err(Fail::new(format_args!("{argument} by {state} with {size}")));
        }
    }
    Ok(())
}

/// A role, its state and argument, the fuel, the number of pieces that are kept, how it ends, and the frames.
type Ending = (&'static str, [i64; 2], u64, u16, End, [u64; 2]);

/// The greatest int.
const MAX: i64 = i64::MAX;

/// Queries and updates, traps, and runs without the fuel.
const ENDINGS: [Ending; 7] = [
    (
        "swap",
        [7, 9],
        3,
        1,
        End::Done(b"\0\0\0\0\0\0\0\x09\0\0\0\0\0\0\0\x07"),
        [2, 0],
    ),
    (
        "swap",
        [7, 7],
        3,
        1,
        End::Done(b"\0\0\0\0\0\0\0\x07\0\0\0\0\0\0\0\x07"),
        [1, 1],
    ),
    ("swap", [7, 7], 2, 1, End::Out, [1, 0]),
    ("over", [MAX, 1], 3, 16, End::Overflow, [2, 0]),
    ("over", [MAX, MAX], 3, 16, End::Overflow, [1, 1]),
    ("again", [3, 5], 4, 2, End::Out, [1, 0]),
    ("again", [3, 5], 0, 2, End::Out, [0, 0]),
];

#[test]
fn each_end_is_proved(rt: HostRuntime) -> Result<(), Fail> {
    let code = code(rt.alloc())?;
    for (role, [state, argument], fuel, size, end, frames) in ENDINGS {
        let call = Call {
            role,
            state,
            argument,
            fuel,
        };
        if !is_proved(rt.alloc(), &code, (call, size, end, frames))? {
            return Err(Fail::new(format_args!("{role} of {state} and {argument} with {fuel}")));
        }
    }
    Ok(())
}

/// Two pieces, the state's and the argument's.
const SWAP: Call = Call {
    role: "swap",
    state: 7,
    argument: 9,
    fuel: 3,
};

/// The frames of two proofs of [`SWAP`] that follow one another with a ring of two pieces, and how many of the second are new.
fn two_proofs(alloc: Global, code: &Code) -> Result<(Vec<u8>, Vec<u8>, u64), AllocError> {
    let mut store = Store::new(alloc, code.types().spelling_limit() as u32);
    let ring = Ring::with_size(alloc, 2)?;
    let (first, ring) = proved_on::<Sha>(alloc, code, &mut store, SWAP, ring)?;
    let (second, _ring) = proved_on::<Sha>(alloc, code, &mut store, SWAP, ring)?;
    Ok((first.frames, second.frames, second.fresh))
}

/// Whether both are accepted, where a ring of two pieces goes from one to the other.
fn are_accepted(
    alloc: Global,
    code: &Code,
    first: &[u8],
    second: &[u8],
) -> Result<bool, AllocError> {
    let ring = Ring::with_size(alloc, 2)?;
    let (one, ring) = verdict_on(alloc, code, SWAP, first, ring)?;
    let (two, _ring) = verdict_on(alloc, code, SWAP, second, ring)?;
    let end = End::Done(b"\0\0\0\0\0\0\0\x09\0\0\0\0\0\0\0\x07");
    Ok(end.is(&one) && end.is(&two))
}

#[test]
fn the_ring_goes_on(rt: HostRuntime) -> Result<(), Fail> {
    let code = code(rt.alloc())?;
    let (first, second, fresh) = two_proofs(rt.alloc(), &code)?;
    if fresh != 0 || second.as_slice() != b"\x01\0\x01\x01\0\0".as_slice() {
        return Err(Fail::new("the second proof"));
    }
    if !are_accepted(rt.alloc(), &code, &first, &second)? {
        return Err(Fail::new("the verdicts"));
    }
    Ok(())
}
