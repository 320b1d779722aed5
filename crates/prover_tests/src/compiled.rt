// A compiled program, beside the written one with the same query: no machine is stuck on its code, whatever is offered.
use crate::stage::{
    Call, DIGEST, End, audited, file, is_same_outcome, proved, source, verdict, verdict_of_bytes,
};
use call_stage::calls::code_of;
use code_gen::Code;
use collision_audit::Audited;
use core_terms::{Outcome, Spelling};
use digest_layer::Sha;
use std::alloc::{AllocError, Global};
use std::test::Fail;
use term_stage::compiled::sum_program;
use value_store::Store;
use verifier_mode::Verdict;

/// The text whose query does what that of the compiled program does.
const WRITTEN: &[u8] = b"state int; query sum(s: int, x: int): int = add(unauth(auth(s)), x);";

/// A call of the query, on 3 and 4.
const SUM: Call = Call {
    role: "sum",
    state: 3,
    argument: 4,
    fuel: 1,
};

/// The code of both programs.
#[derive(Drop)]
struct Both {
    compiled: Box<Code>,
    written: Box<Code>,
}

impl Both {
    fn new(alloc: Global) -> Result<Self, AllocError> {
        let program = Box::into_inner(sum_program(alloc)?);
        let compiled = Box::new(alloc, Code::generate(program, alloc)?)?;
        let written = code_of(alloc, WRITTEN, DIGEST)?;
        Ok(Both { compiled, written })
    }
}

/// The proof file of a call.
fn proof_of(alloc: Global, code: &Code, call: Call) -> Result<Vec<u8>, AllocError> {
    let mut store = Store::new(alloc, code.types().spelling_limit() as u32);
    let told = proved::<Sha>(alloc, code, &mut store, call, 0)?;
    file(alloc, 0, &told.frames)
}

/// How calls end: the query takes one unit of fuel.
const ENDS: [(Call, End); 4] = [
    (SUM, End::Done(&[0, 0, 0, 0, 0, 0, 0, 7])),
    (Call { fuel: 0, ..SUM }, End::Out),
    (
        Call {
            state: i64::MAX,
            ..SUM
        },
        End::Overflow,
    ),
    (
        Call {
            argument: -3,
            ..SUM
        },
        End::Done(&[0; 8]),
    ),
];

/// Whether a compiled call is proved as a written one, and its proof accepted and agreed with.
fn is_proved(alloc: Global, both: &Both, call: Call, end: End) -> Result<bool, AllocError> {
    let bytes = proof_of(alloc, &both.compiled, call)?;
    let written = proof_of(alloc, &both.written, call)?;
    if bytes.as_slice() != written.as_slice() {
        return Ok(false);
    }
    let mut judged = source(alloc, &bytes, 3)?;
    let accepted = match &verdict::<Sha>(alloc, &both.compiled, call, &mut judged)? {
        Ok(outcome) => end.is(outcome),
        Err(_) => false,
    };
    let mut store = Store::new(alloc, both.compiled.types().spelling_limit() as u32);
    let mut compared = source(alloc, &bytes, 3)?;
    match &audited::<Sha>(alloc, &both.compiled, &mut store, call, &mut compared)? {
        Ok(Audited::Agrees(outcome)) => Ok(accepted && end.is(outcome)),
        _ => Ok(false),
    }
}

#[test]
fn a_compiled_call_is_proved(rt: HostRuntime) -> Result<(), Fail> {
    let both = Both::new(rt.alloc())?;
    for (number, row) in ENDS.iter().enumerate() {
        let (call, end) = *row;
        if !is_proved(rt.alloc(), &both, call, end)? {
            return Err(Fail::new(format_args!("{number}")));
        }
    }
    Ok(())
}

/// Whether two verdicts are one, and neither is want of memory or of a source.
fn is_same(
    one: &Result<Outcome<Spelling>, Verdict>,
    other: &Result<Outcome<Spelling>, Verdict>,
) -> bool {
    match (one, other) {
        (Ok(outcome), Ok(told)) => is_same_outcome(outcome, told),
        (Err(Verdict::Rejected(cause)), Err(Verdict::Rejected(told))) => *cause == *told,
        (Err(Verdict::BadState(offset)), Err(Verdict::BadState(told))) => *offset == *told,
        (Err(Verdict::BadArgument(offset)), Err(Verdict::BadArgument(told))) => *offset == *told,
        _ => false,
    }
}

/// Whether both programs have the same verdict on a call, whose state and argument are these bytes, by a proof of these bytes.
fn is_judged_alike(
    alloc: Global,
    both: &Both,
    spelled: (&[u8], &[u8]),
    proof: &[u8],
) -> Result<bool, AllocError> {
    let mut first = source(alloc, proof, 7)?;
    let mut second = source(alloc, proof, 7)?;
    let told = verdict_of_bytes::<Sha>(alloc, &both.compiled, SUM, spelled, &mut first)?;
    let wanted = verdict_of_bytes::<Sha>(alloc, &both.written, SUM, spelled, &mut second)?;
    Ok(is_same(&told, &wanted) && first.left() == second.left())
}

/// The spellings of the state and the argument of the call.
const SPELLED: (&[u8], &[u8]) = (&[0, 0, 0, 0, 0, 0, 0, 3], &[0, 0, 0, 0, 0, 0, 0, 4]);

/// The first byte of a proof whose change, or the cut before which, both programs judge otherwise; none where there is none.
fn altered_apart(alloc: Global, both: &Both) -> Result<Option<usize>, AllocError> {
    let honest = proof_of(alloc, &both.compiled, SUM)?;
    for place in 0..honest.len() {
        for mask in [1, 2, 128, 255] {
            let mut bytes = Vec::from_slice(alloc, &honest)?;
            if let Some(byte) = bytes.get_mut(place) {
                *byte ^= mask;
            }
            if !is_judged_alike(alloc, both, SPELLED, &bytes)? {
                return Ok(Some(place));
            }
        }
        let (front, _) = honest.split_at(place);
        if !is_judged_alike(alloc, both, SPELLED, front)? {
            return Ok(Some(place));
        }
    }
    Ok(None)
}

#[test]
fn compiled_code_is_not_stuck_on_false_pieces(rt: HostRuntime) -> Result<(), Fail> {
    let both = Both::new(rt.alloc())?;
    match altered_apart(rt.alloc(), &both)? {
        Some(place) => Err(Fail::new(format_args!("at {place}"))),
        None => Ok(()),
    }
}

#[test]
fn compiled_code_is_not_stuck_on_false_spellings(rt: HostRuntime) -> Result<(), Fail> {
    let both = Both::new(rt.alloc())?;
    let proof = proof_of(rt.alloc(), &both.compiled, SUM)?;
    let (state, argument) = SPELLED;
    for len in 0..8 {
        let (front, _) = state.split_at(len);
        if !is_judged_alike(rt.alloc(), &both, (front, argument), &proof)?
            || !is_judged_alike(rt.alloc(), &both, (state, front), &proof)?
        {
            return Err(Fail::new(format_args!("{len}")));
        }
    }
    let long = [0; 9];
    if !is_judged_alike(rt.alloc(), &both, (&long, argument), &proof)? {
        return Err(Fail::new(format_args!("long")));
    }
    Ok(())
}
