// The program of the tests, and its calls: proved, verified and audited.
ghost use Rattle.std.specs.Prelude.{◌≡◌, ◌<◌, ◌∷◌, [], length, IfOk, IsTrue, OnOk};
ghost use Rattle.core_terms.specs.Formats.{Hash};
ghost use Rattle.core_terms.specs.Programs.{meaning};
ghost use Rattle.core_terms.specs.Terms.{function_at};
ghost use Rattle.core_terms.specs.Types.{IntTy};
ghost use Rattle.core_terms.specs.Values.{Value};
ghost use Rattle.value_store.specs.Markings.{HasLimit};
ghost use Rattle.value_store.specs.Stores.{nodes_in, store_lent};
ghost use Rattle.mode_vm.specs.Meanings.{program_of};
ghost use Rattle.mode_vm.specs.StateCalls.{IsCalledOn, TakesState};

use call_stage::calls::{code_of, reading};
use code_gen::Code;
use collision_audit::{AuditFault, Audited, audit};
use core_terms::{Digest, FunctionId, Hash32, Outcome, Program, Spelling, Trap, TyForm};
use digest_layer::Sha;
use lam_outside::{Bytes, MemLink};
use proof_stream::put_header;
use prover_mode::{Proved, prove};
use reuse_buffer::Ring;
use std::alloc::{AllocError, Global};
use term_stage::one_int::trap_word;
use value_store::{Nodes, Ref, Store};
use verifier_mode::{Verdict, verify, verify_on};

/// The program of the tests. `opened` opens a piece of 17 bytes, the n-th one; `again` opens m pieces, each with its number modulo k;
/// `twice` opens a piece of 8 bytes, the state's, two times.
const TEXT: &[u8] =
    b"state int; fun opened(n: int): int = fst(unauth(auth((n, \"piece\")))); fun sum(n: int, k: int, s: int): int = if le(n, 0) then s else sum(sub(n, 1), k, add(s, opened(rem(n, k)))); query again(k: int, m: int): int = sum(m, k, 0); query over(s: int, x: int): int = add(opened(s), opened(x)); update swap(s: int, x: int): (int, int) = (opened(x), opened(s)); query twice(s: int, x: int): int = add(unauth(auth(s)), unauth(auth(s)));";

/// The digest of the texts of the tests, which no call reads.
pub const DIGEST: Digest = Digest([7; 32]);

/// A call on a state and an argument that are ints, with so much fuel.
#[derive(Clone, Copy)]
pub struct Call {
    pub role: &'static str,
    pub state: i64,
    pub argument: i64,
    pub fuel: u64,
}

/// How a call ends.
#[derive(Clone, Copy)]
pub enum End {
    Done(&'static [u8]),
    Overflow,
    Out,
}

impl End {
    /// Whether it is this.
    pub fn is(&self, outcome: &Outcome<Spelling>) -> bool {
        match (self, outcome) {
            (End::Done(bytes), Outcome::Done(value)) => value.as_bytes() == *bytes,
            (End::Overflow, Outcome::Trapped(Trap::Overflow)) => true,
            (End::Out, Outcome::Out) => true,
            _ => false,
        }
    }
}

/// Whether two outcomes are one.
pub fn is_same_outcome(one: &Outcome<Spelling>, other: &Outcome<Spelling>) -> bool {
    match (one, other) {
        (Outcome::Done(value), Outcome::Done(told)) => value.as_bytes() == told.as_bytes(),
        (Outcome::Trapped(trap), Outcome::Trapped(told)) => trap_word(*trap) == trap_word(*told),
        (Outcome::Out, Outcome::Out) => true,
        _ => false,
    }
}

/// A call that is put into a store.
#[derive(Clone, Copy)]
pub struct PutCall {
    role: FunctionId,
    state: Ref,
    argument: Ref,
}

/// The code of the program.
pub fn code(alloc: Global) -> Result<Box<Code>, AllocError> {
    code_of(alloc, TEXT, DIGEST)
}

/// Whether the state is an int, and the function takes two ints.
fn takes_ints(program: &Program, function: FunctionId) -> bool
    requires { function.0 < length (meaning program.now).functions }
    ensures state { IsTrue result → (meaning program.now).state ≡ IntTy }
    ensures ints { IsTrue result → (function_at (meaning program.now) function.0).parameters ≡ IntTy ∷ IntTy ∷ [] }
{
    if program.form(program.state_type()) != TyForm::IntForm {
        return false;
    }
    match program.function(function).parameters.as_slice() {
        [state, argument] => {
            program.form(*state) == TyForm::IntForm && program.form(*argument) == TyForm::IntForm
        }
        _ => false,
    }
}

/// Whether a role of this name reads the state, and both the state and the argument are ints.
pub fn takes_call(code: &Code, name: &str) -> bool {
    match reading(code.program(), name) {
        Some(role) => takes_ints(code.program(), role),
        None => false,
    }
}

/// Puts the state and the argument of a call into a store of the program's limit.
fn put_call(code: &Code, store: &mut Store, call: Call) -> Result<PutCall, AllocError>
    ensures limit { OnOk result (HasLimit (program_of code.now) (store_lent store.new)) }
    ensures there { IfOk result (λ put. put.role.0 < length (program_of code.now).functions) }
    ensures role { IfOk result (λ put. TakesState (program_of code.now) put.role.0) }
    ensures called { IfOk result (λ put. (hash : Hash) → (s : Value) × (a : Value) × IsCalledOn hash (program_of code.now) put.role.0 (nodes_in store.new) put.state put.argument s a) }
{
    let Some(role) = reading(code.program(), call.role) else {
        return Err(AllocError);
    };
    if !takes_ints(code.program(), role)
        || store.limit() as usize != code.types().spelling_limit()
    {
        return Err(AllocError);
    }
    let state = store.put_int(call.state)?;
    let argument = store.put_int(call.argument)?;
    Ok(PutCall {
        role,
        state,
        argument,
    })
}

/// The proof of a call with a ring, and the ring behind it.
pub fn proved_on<H: Hash32>(
    alloc: Global,
    code: &Code,
    store: &mut Store,
    call: Call,
    ring: Ring,
) -> Result<(Proved, Ring), AllocError> {
    let PutCall {
        role,
        state,
        argument,
    } = put_call(code, store, call)?;
    let fuel = call.fuel.min(5000);
    prove::<H, Store>(alloc, code, store, role, state, argument, fuel, ring)
}

/// The proof of a call with a new ring of so many pieces, of 1,024 at most.
pub fn proved<H: Hash32>(
    alloc: Global,
    code: &Code,
    store: &mut Store,
    call: Call,
    size: u16,
) -> Result<Proved, AllocError> {
    let ring = Ring::with_size(alloc, size.min(1024))?;
    let told = proved_on::<H>(alloc, code, store, call, ring)?;
    Ok(told.0)
}

/// The proof file with these frames, which asks for so many pieces to be kept.
pub fn file(alloc: Global, size: u16, frames: &[u8]) -> Result<Vec<u8>, AllocError> {
    let mut bytes = Vec::new(alloc);
    put_header(&mut bytes, *b"LAP1", size)?;
    bytes.extend_from_slice(frames)?;
    Ok(bytes)
}

/// A source of these bytes, which gives so many a read, and one at least.
pub fn source(alloc: Global, bytes: &[u8], most: usize) -> Result<MemLink, AllocError> {
    MemLink::from_bytes(alloc, bytes, most.max(1), &[])
}

/// The verdict on a call.
pub fn verdict<H: Hash32>(
    alloc: Global,
    code: &Code,
    call: Call,
    proof: &mut MemLink,
) -> Result<Result<Outcome<Spelling>, Verdict>, AllocError> {
    let state = call.state.to_be_bytes();
    let argument = call.argument.to_be_bytes();
    verdict_of_bytes::<H>(alloc, code, call, (&state, &argument), proof)
}

/// The verdict on a call, whose state and argument are these bytes in the place of its own.
pub fn verdict_of_bytes<H: Hash32>(
    alloc: Global,
    code: &Code,
    call: Call,
    (state, argument): (&[u8], &[u8]),
    proof: &mut MemLink,
) -> Result<Result<Outcome<Spelling>, Verdict>, AllocError> {
    let Some(role) = reading(code.program(), call.role) else {
        return Err(AllocError);
    };
    let fuel = call.fuel.min(5000);
    Ok(verify::<H, MemLink>(alloc, code, role, state, argument, fuel, proof))
}

/// The verdict on a call by frames without a header, with a ring.
pub fn verdict_on(
    alloc: Global,
    code: &Code,
    call: Call,
    frames: &[u8],
    ring: Ring,
) -> Result<(Outcome<Spelling>, Ring), AllocError> {
    let Some(role) = reading(code.program(), call.role) else {
        return Err(AllocError);
    };
    let state = call.state.to_be_bytes();
    let argument = call.argument.to_be_bytes();
    let fuel = call.fuel.min(5000);
    let mut proof = Bytes::new(frames);
    match verify_on::<Sha, Bytes>(alloc, code, role, &state, &argument, fuel, &mut proof, ring) {
        Ok(told) => Ok(told),
        Err(_) => Err(AllocError),
    }
}

/// The audit of a call.
pub fn audited<H: Hash32>(
    alloc: Global,
    code: &Code,
    store: &mut Store,
    call: Call,
    proof: &mut MemLink,
) -> Result<Result<Audited, AuditFault>, AllocError> {
    let PutCall {
        role,
        state,
        argument,
    } = put_call(code, store, call)?;
    let fuel = call.fuel.min(5000);
    Ok(audit::<H, MemLink, Store>(alloc, code, store, role, state, argument, fuel, proof))
}
