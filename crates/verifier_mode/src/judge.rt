// The verdict on a call, from the spellings of its state and its argument and the bytes of a proof.
ghost use Rattle.std.specs.Prelude.{◌≡◌, ◌<◌, ◌≤◌, ◌^◌, ℕ, List, [], Some, IfOk, length};
ghost use Rattle.std.specs.Option.{ForSome};
ghost use Rattle.core_terms.specs.Programs.{meaning, types_of};
ghost use Rattle.core_terms.specs.ProgramTypes.{named_table, types_by_number, types_meaning};
ghost use Rattle.core_terms.specs.Roles.{argument_type};
ghost use Rattle.core_terms.specs.Terms.{function_at};
ghost use Rattle.core_terms.specs.TypeTables.{type_at};
ghost use Rattle.core_terms.specs.Values.{Values};
ghost use Rattle.ideal_meaning.specs.Checked as checked;
ghost use Rattle.ideal_meaning.specs.Following.{after_bytes};
ghost use Rattle.ideal_meaning.specs.Frames.{header};
ghost use Rattle.value_store.specs.CodeNodes.{numbers_of};
ghost use Rattle.value_store.specs.Standing.{AllStandFor, VerifierNodes};
ghost use Rattle.value_store.specs.Markings.{HasLimit};
ghost use Rattle.value_store.specs.Stores.{nodes_in, store_lent};
ghost use Rattle.mode_vm.specs.Meanings.{program_of};
ghost use Rattle.mode_vm.specs.StateCalls.{TakesState};
ghost use Rattle.proof_stream.specs.TakenFrames.{HeadCause, TakesHeader};
ghost use Rattle.reuse_buffer.specs.Kept.{kept};
ghost use Rattle.verifier_mode.specs.CallParts.{ArePut};
ghost use Rattle.verifier_mode.specs.Spelled.{IsSpelledAs, OutcomeStands};
ghost use Rattle.verifier_mode.specs.Verdicts.{AnswersVerdict, AnswersWithRing, TellsSomeOutcome, SaysTrue, SaysTrueOn, VerdictCause};

use crate::checked_runs::checked_run;
use crate::verdict::{CallFault, Verdict};
use code_gen::Code;
use core_terms::{Cause, FunctionId, Hash32, Outcome, Program, Spelling, TyId, Types};
use lam_outside::Source;
use proof_stream::{FrameReader, HeadEnd};
use reuse_buffer::{Ring, SpareRing};
use shallow_codec::{UnspellFault, spell, unspell};
use std::alloc::{AllocError, Global};
use value_store::{Ref, Store};

/// Judges a call of a query or an update with this much fuel (at most 10^12), from the spellings of its state and its argument and the
/// bytes of a proof file, which may ask for as many pieces to be kept as the program's format allows. The proof is read as it is needed:
/// of it the piece in hand is held, the last new one and the pieces kept, and the nodes of all that was read, until the call is judged.
///
/// # Errors
///
/// The order is: the state, the argument, the header of the proof, the run, the bytes left behind it. `BadState` and `BadArgument`
/// name the offset of the first fault, and `Rejected` the cause with each of its fields. `ReadFault` comes where the source failed,
/// and its count of faults rose. `NoMemory` comes where there is no memory for a piece, the ring, the run or the outcome's spelling.
pub fn verify<H: Hash32, S: Source>(
    alloc: Global,
    code: &Code,
    role: FunctionId,
    state: &[u8],
    argument: &[u8],
    fuel: u64,
    proof: &mut S,
) -> Result<Outcome<Spelling>, Verdict>
    requires there { role.0 < length (program_of code.now).functions }
    requires role { TakesState (program_of code.now) role.0 }
    requires fuel_fits { fuel ≤ 10 ^ 12 }
    ensures verdict { ForSome (S.left proof.old) (λ bytes. let P = program_of code.now in
        AnswersVerdict P role.0 (checked.verdict H.hash P (argument_type P role.0) role.0 state.now argument.now fuel bytes) result) }
    ensures headline { ForSome (S.left proof.old) (λ bytes. SaysTrue H.hash (program_of code.now) role.0 state.now argument.now fuel bytes result) }
    ensures told { IfOk result (TellsSomeOutcome (program_of code.now) (function_at (program_of code.now) role.0).result) }
    ensures end { ForSome (S.left proof.old) (λ bytes. IfOk result (λ _. S.left proof.new ≡ Some [])) }
    ensures faults { VerdictCause (S.faults proof.old) (S.faults proof.new) result }
    ensures rest { S.rest proof.new ≡ S.rest proof.old }
{
    let mut spare = SpareRing::new();
    verify_reusing::<H, S>(alloc, code, role, state, argument, fuel, proof, &mut spare)
}

/// Judges a call as [`verify`] does, with the memory of a spare ring, which is kept again where the call is accepted.
///
/// # Errors
///
/// Those of [`verify`]. Whether a ring is kept then isn't told.
pub fn verify_reusing<H: Hash32, S: Source>(
    alloc: Global,
    code: &Code,
    role: FunctionId,
    state: &[u8],
    argument: &[u8],
    fuel: u64,
    proof: &mut S,
    spare: &mut SpareRing,
) -> Result<Outcome<Spelling>, Verdict>
    requires there { role.0 < length (program_of code.now).functions }
    requires role { TakesState (program_of code.now) role.0 }
    requires fuel_fits { fuel ≤ 10 ^ 12 }
    ensures verdict { ForSome (S.left proof.old) (λ bytes. let P = program_of code.now in
        AnswersVerdict P role.0 (checked.verdict H.hash P (argument_type P role.0) role.0 state.now argument.now fuel bytes) result) }
    ensures headline { ForSome (S.left proof.old) (λ bytes. SaysTrue H.hash (program_of code.now) role.0 state.now argument.now fuel bytes result) }
    ensures told { IfOk result (TellsSomeOutcome (program_of code.now) (function_at (program_of code.now) role.0).result) }
    ensures end { ForSome (S.left proof.old) (λ bytes. IfOk result (λ _. S.left proof.new ≡ Some [])) }
    ensures faults { VerdictCause (S.faults proof.old) (S.faults proof.new) result }
    ensures rest { S.rest proof.new ≡ S.rest proof.old }
{
    let mut store = Store::new(alloc, code.types().spelling_limit() as u32);
    let ty = argument_of(code.program(), role);
    let refs = put_call(alloc, code.types(), &mut store, state, argument, ty)?;
    judge_file::<H, S>(alloc, code, &mut store, role, &refs, fuel, proof, spare)
}

/// Judges a call as [`verify`] does, from the frames of a proof without its header, with a ring that holds the last of the new pieces
/// that came before. It gives the ring back, which holds the last of them and of the new pieces of this proof.
///
/// # Errors
///
/// Those of [`verify`], but that no header is judged. A verdict other than an outcome drops the ring.
pub fn verify_on<H: Hash32, S: Source>(
    alloc: Global,
    code: &Code,
    role: FunctionId,
    state: &[u8],
    argument: &[u8],
    fuel: u64,
    proof: &mut S,
    ring: Ring,
) -> Result<(Outcome<Spelling>, Ring), Verdict>
    requires there { role.0 < length (program_of code.now).functions }
    requires role { TakesState (program_of code.now) role.0 }
    requires fuel_fits { fuel ≤ 10 ^ 12 }
    ensures verdict { (recent : List (List ℕ)) → ring ≡ kept ring.size recent → ForSome (S.left proof.old) (λ bytes. let P = program_of code.now in
        AnswersWithRing P role.0 (checked.verdict_on H.hash P (argument_type P role.0) role.0 state.now argument.now fuel bytes ring.size recent) result) }
    ensures headline { (recent : List (List ℕ)) → ring ≡ kept ring.size recent → ForSome (S.left proof.old) (λ bytes.
        SaysTrueOn H.hash (program_of code.now) role.0 state.now argument.now fuel bytes ring.size recent result) }
    ensures ring { (recent : List (List ℕ)) → ring ≡ kept ring.size recent → ForSome (S.left proof.old) (λ bytes.
        IfOk result (λ told. told.1 ≡ kept ring.size (after_bytes (program_of code.now).format.limit bytes ring.size recent))) }
    ensures told { IfOk result (λ told. TellsSomeOutcome (program_of code.now) (function_at (program_of code.now) role.0).result told.0) }
    ensures end { (recent : List (List ℕ)) → ring ≡ kept ring.size recent → ForSome (S.left proof.old) (λ bytes. IfOk result (λ _. S.left proof.new ≡ Some [])) }
    ensures faults { VerdictCause (S.faults proof.old) (S.faults proof.new) result }
    ensures rest { S.rest proof.new ≡ S.rest proof.old }
{
    let mut store = Store::new(alloc, code.types().spelling_limit() as u32);
    let ty = argument_of(code.program(), role);
    let refs = put_call(alloc, code.types(), &mut store, state, argument, ty)?;
    judge_call::<H, S>(alloc, code, &mut store, role, &refs, fuel, proof, ring)
}

/// The type of the argument of a query or an update, whose parameters are the state and the argument.
pub fn argument_of(program: &Program, role: FunctionId) -> TyId
    requires there { role.0 < length (meaning program.now).functions }
    requires role { TakesState (meaning program.now) role.0 }
    ensures { type_at (types_of program.now) result ≡ argument_type (meaning program.now) role.0 }
{
    program.function(role).parameters[1]
}

/// Puts the state of a call and its argument, which is of this type, into the store.
///
/// # Errors
///
/// `BadState` and `BadArgument`, in this order, name the offset of the first fault. `NoMemory` comes where there is no memory for the nodes.
pub fn put_call(
    alloc: Global,
    types: &Types,
    store: &mut Store,
    state: &[u8],
    argument: &[u8],
    ty: TyId,
) -> Result<[Ref; 2], CallFault>
    requires { HasLimit (types_meaning types.now) (store_lent store.old) }
    ensures limit { store.new.limit ≡ store.old.limit }
    ensures put { ArePut (types_meaning types.now) (nodes_in store.new) (type_at (types_by_number types.now) ty) state.now argument.now result }
{
    let state = match unspell(alloc, types, store, state, types.state_type()) {
        Ok(state) => state,
        Err(UnspellFault::Bad(offset)) => return Err(CallFault::BadState(offset)),
        Err(UnspellFault::NoMemory) => return Err(CallFault::NoMemory),
    };
    match unspell(alloc, types, store, argument, ty) {
        Ok(argument) => Ok([state, argument]),
        Err(UnspellFault::Bad(offset)) => Err(CallFault::BadArgument(offset)),
        Err(UnspellFault::NoMemory) => Err(CallFault::NoMemory),
    }
}

/// Judges a call on a state and an argument that stand in the store, by a proof file: its header, the run, and the bytes left behind it.
fn judge_file<H: Hash32, S: Source>(
    alloc: Global,
    code: &Code,
    store: &mut Store,
    role: FunctionId,
    args: &[Ref],
    fuel: u64,
    proof: &mut S,
    spare: &mut SpareRing,
) -> Result<Outcome<Spelling>, Verdict>
    requires there { role.0 < length (program_of code.now).functions }
    requires stand { (vs : Values) × AllStandFor VerifierNodes (program_of code.now).types (nodes_in store.old) (numbers_of args.now) (function_at (program_of code.now) role.0).parameters vs }
    requires fuel_fits { fuel ≤ 10 ^ 12 }
    requires limit { HasLimit (program_of code.now) (store_lent store.old) }
    ensures verdict { (vs : Values) → AllStandFor VerifierNodes (program_of code.now).types (nodes_in store.old) (numbers_of args.now) (function_at (program_of code.now) role.0).parameters vs
        → ForSome (S.left proof.old) (λ bytes. let P = program_of code.now in
        AnswersVerdict P role.0 (checked.with_header H.hash P (header P.format bytes) role.0 vs fuel bytes) result) }
    ensures told { IfOk result (TellsSomeOutcome (program_of code.now) (function_at (program_of code.now) role.0).result) }
    ensures end { ForSome (S.left proof.old) (λ bytes. IfOk result (λ _. S.left proof.new ≡ Some [])) }
    ensures faults { VerdictCause (S.faults proof.old) (S.faults proof.new) result }
    ensures rest { S.rest proof.new ≡ S.rest proof.old }
{
    let size = read_header(alloc, code.types(), proof)?;
    let ring = spare.take(alloc, size)?;
    let judged = judge_call::<H, S>(alloc, code, store, role, args, fuel, proof, ring)?;
    let (outcome, ring) = judged;
    spare.keep(ring);
    Ok(outcome)
}

/// Takes the header of a proof file, as the format of a program with these types has it, and answers how many pieces it asks to be kept.
fn read_header<S: Source>(alloc: Global, types: &Types, proof: &mut S) -> Result<u16, HeadEnd>
    ensures takes { let format = (types_meaning types.now).format in
        ForSome (S.left proof.old) (λ bytes. TakesHeader format.magic format.most_kept bytes (S.left proof.new) result) }
    ensures within { IfOk result (λ size. size ≤ (types_meaning types.now).format.most_kept) }
    ensures cause { HeadCause (S.faults proof.old) (S.faults proof.new) result }
    ensures rest { S.rest proof.new ≡ S.rest proof.old }
{
    FrameReader::new(alloc, 0).header(proof, types.proof_magic(), types.most_kept())
}

/// Judges a call on a state and an argument that stand in the store: the run, and the bytes left behind it.
fn judge_call<H: Hash32, S: Source>(
    alloc: Global,
    code: &Code,
    store: &mut Store,
    role: FunctionId,
    args: &[Ref],
    fuel: u64,
    proof: &mut S,
    ring: Ring,
) -> Result<(Outcome<Spelling>, Ring), Verdict>
    requires there { role.0 < length (program_of code.now).functions }
    requires stand { (vs : Values) × AllStandFor VerifierNodes (program_of code.now).types (nodes_in store.old) (numbers_of args.now) (function_at (program_of code.now) role.0).parameters vs }
    requires fuel_fits { fuel ≤ 10 ^ 12 }
    requires limit { HasLimit (program_of code.now) (store_lent store.old) }
    ensures verdict { (vs : Values) (bytes : List ℕ) (recent : List (List ℕ))
        → AllStandFor VerifierNodes (program_of code.now).types (nodes_in store.old) (numbers_of args.now) (function_at (program_of code.now) role.0).parameters vs
        → S.left proof.old ≡ Some bytes → ring ≡ kept ring.size recent
        → AnswersWithRing (program_of code.now) role.0 (checked.judge H.hash (program_of code.now) role.0 vs fuel bytes ring.size recent) result }
    ensures ring { (bytes : List ℕ) (recent : List (List ℕ)) → S.left proof.old ≡ Some bytes → ring ≡ kept ring.size recent
        → IfOk result (λ told. told.1 ≡ kept ring.size (after_bytes (program_of code.now).format.limit bytes ring.size recent)) }
    ensures told { IfOk result (λ told. TellsSomeOutcome (program_of code.now) (function_at (program_of code.now) role.0).result told.0) }
    ensures end { (bytes : List ℕ) (recent : List (List ℕ)) → S.left proof.old ≡ Some bytes → ring ≡ kept ring.size recent
        → IfOk result (λ _. S.left proof.new ≡ Some []) }
    ensures faults { VerdictCause (S.faults proof.old) (S.faults proof.new) result }
    ensures rest { S.rest proof.new ≡ S.rest proof.old }
{
    let run = checked_run::<H, S, Store>(alloc, code, store, role, args, fuel, proof, ring)?;
    let left = FrameReader::new(alloc, 0).count_rest(proof)?;
    if left > 0 {
        return Err(Verdict::Rejected(Cause::Leftover(left)));
    }
    let (outcome, ring) = run;
    let ty = code.program().function(role).result;
    let told = spelled(alloc, code.types(), store, outcome, ty)?;
    Ok((told, ring))
}

/// The outcome with the spelling of its value, which stands in the store at a type.
pub fn spelled(
    alloc: Global,
    types: &Types,
    store: &Store,
    outcome: Outcome<Ref>,
    ty: TyId,
) -> Result<Outcome<Spelling>, AllocError>
    requires { OutcomeStands (types_meaning types.now) (nodes_in store.now) (type_at (types_by_number types.now) ty) outcome }
    ensures { IfOk result (IsSpelledAs (named_table types.now) (nodes_in store.now) (type_at (types_by_number types.now) ty) outcome) }
{
    Ok(match outcome {
        Outcome::Done(value) => Outcome::Done(spell(alloc, types, store, value, ty)?),
        Outcome::Trapped(trap) => Outcome::Trapped(trap),
        Outcome::Out => Outcome::Out,
    })
}
