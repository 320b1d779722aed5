// Calls that are proved, and whose proofs are verified.
ghost use Rattle.std.specs.Prelude.{◌≡◌, ◌<◌, ◌≤◌, IfOk, length};
ghost use Rattle.core_terms.specs.Programs.{types_of};
ghost use Rattle.core_terms.specs.Projection.{digest_at, projection};
ghost use Rattle.core_terms.specs.Roles.{argument_type};
ghost use Rattle.core_terms.specs.Spelling.{spelling};
ghost use Rattle.core_terms.specs.Terms.{function_at};
ghost use Rattle.core_terms.specs.TypeTables.{type_at};
ghost use Rattle.core_terms.specs.Values.{Value};
ghost use Rattle.code_gen.specs.Programs.{program_in};
ghost use Rattle.value_store.specs.Markings.{HasLimit};
ghost use Rattle.value_store.specs.Standing.{Keeps, ProverNodes, StandsFor};
ghost use Rattle.mode_vm.specs.IdealRuns.{IsOutcome};
ghost use Rattle.mode_vm.specs.Meanings.{program_of};
ghost use Rattle.mode_vm.specs.StateCalls.{IsCalledOn, TakesState};
ghost use Rattle.prover_mode.specs.Calls.{IsAccepted};
ghost use Rattle.verifier_mode.specs.declared.verdict.Verdict.TheVariants.{NoMemory};
ghost use Rattle.verified_calls.specs.Verified.{IsCallOf, IsVerified};
ghost use Rattle.workloads.specs.Sums.{IsChecked, IsCounted};
ghost use Rattle.workloads.specs.Workloads.{call_fuel, outcome_of};

use code_gen::Code;
use core_terms::{FunctionId, Hash32, Outcome, Spelling, TyId};
use prover_mode::prove_file_reusing;
use reuse_buffer::SpareRing;
use shallow_codec::spell;
use std::alloc::{AllocError, Global};
use value_store::{Nodes, Ref};
use verified_calls::{VerifiedCall, verify_call_reusing};
use verifier_mode::{Verdict, argument_of};

/// The fuel of each call.
const CALL_FUEL: u64 = 1_000_000;

/// A call that was proved into a proof file of its own, which was verified.
#[derive(Drop)]
pub(crate) struct CheckedCall {
    /// How the call ended, with the node of its value.
    pub(crate) value: Outcome<Ref>,
    /// The call with its proof file, as it was verified.
    pub(crate) verified: VerifiedCall,
    /// The number of frames with a piece of their own.
    pub(crate) fresh: u64,
    /// The number of frames that name a kept piece.
    pub(crate) again: u64,
}

/// Proves a call of a query or an update on a state and an argument that stand among the prover's nodes, into a proof file that asks for
/// `kept` pieces, and verifies it from the spellings of both. Both use the memory of the spare ring.
pub(crate) fn checked_call<H: Hash32, N: Nodes>(
    alloc: Global,
    code: &Code,
    store: &mut N,
    role: FunctionId,
    state: Ref,
    argument: Ref,
    kept: u16,
    spare: &mut SpareRing,
) -> Result<CheckedCall, AllocError>
    requires there { role.0 < length (program_of code.now).functions }
    requires role { TakesState (program_of code.now) role.0 }
    requires called { (s : Value) × (a : Value) × IsCalledOn H.hash (program_of code.now) role.0 (N.nodes store.old) state argument s a }
    requires kept { kept ≤ (program_of code.now).format.most_kept }
    requires limit { HasLimit (program_of code.now) (N.lent store.old) }
    ensures value { let P = program_of code.now in IfOk result (λ call. (s a : Value) → IsCalledOn H.hash P role.0 (N.nodes store.old) state argument s a
        → IsOutcome (ProverNodes (digest_at H.hash P)) P.types (N.nodes store.new) (function_at P role.0).result call.value (outcome_of P role.0 s a)) }
    ensures counted { let P = program_of code.now in IfOk result (λ call. (s a : Value) → IsCalledOn H.hash P role.0 (N.nodes store.old) state argument s a
        → IsCounted H.hash P kept role.0 s a call) }
    ensures checked { let P = program_of code.now in IfOk result (λ call. (s a : Value) → IsCalledOn H.hash P role.0 (N.nodes store.old) state argument s a
        → IsChecked H.hash P kept role s a call) }
    ensures keeps { Keeps (N.nodes store.old) (N.nodes store.new) }
    ensures lent { N.lent store.new ≡ N.lent store.old }
{
    let spelled_state = spelled::<H, N>(alloc, code, store, state, code.program().state_type())?;
    let argument_type = argument_of(code.program(), role);
    let spelled_argument = spelled::<H, N>(alloc, code, store, argument, argument_type)?;
    let proof = prove_file_reusing::<H, N>(
        alloc, code, store, role, state, argument, CALL_FUEL, kept, spare,
    )?;
    let (proved, file) = proof;
    let verified = verified::<H>(
        alloc,
        code,
        role,
        spelled_state,
        spelled_argument,
        file,
        spare,
    )?;
    Ok(CheckedCall {
        value: proved.value,
        verified,
        fresh: proved.fresh,
        again: proved.again,
    })
}

/// Verifies a proof file that is accepted.
fn verified<H: Hash32>(
    alloc: Global,
    code: &Code,
    role: FunctionId,
    state: Spelling,
    argument: Spelling,
    file: Vec<u8>,
    spare: &mut SpareRing,
) -> Result<VerifiedCall, AllocError>
    requires there { role.0 < length (program_of code.now).functions }
    requires role { TakesState (program_of code.now) role.0 }
    requires accepted { let P = program_of code.now in (s : Value) × (a : Value) × (state ≡ spelling (projection H.hash P P.state s))
        × (argument ≡ spelling (projection H.hash P (argument_type P role.0) a)) × IsAccepted H.hash P role.0 s a call_fuel file.items }
    ensures call { IfOk result (IsCallOf role state argument call_fuel file.items) }
    ensures accepted { IfOk result (IsVerified H.hash (program_of code.now)) }
{
    match verify_call_reusing::<H>(alloc, code, role, state, argument, CALL_FUEL, file, spare) {
        Ok(call) => Ok(call),
        Err(refusal) => Err(want_of_memory(refusal)),
    }
}

/// What a refusal is that isn't on the proof or on the spellings.
fn want_of_memory(refusal: Verdict) -> AllocError
    requires { refusal ≡ NoMemory }
{
    match refusal {
        Verdict::NoMemory => AllocError,
        _ => unreachable!(),
    }
}

/// The spelling of the projection of what a node of the prover's stands for, at a type.
fn spelled<H: Hash32, N: Nodes>(
    alloc: Global,
    code: &Code,
    store: &N,
    r: Ref,
    ty: TyId,
) -> Result<Spelling, AllocError>
    requires { let P = program_of code.now in (v : Value) × StandsFor (ProverNodes (digest_at H.hash P)) P.types (N.nodes store.now) r.0 (type_at (types_of (program_in code.now)) ty) v }
    ensures { let P = program_of code.now in let t = type_at (types_of (program_in code.now)) ty in IfOk result (λ bytes. (v : Value)
        → StandsFor (ProverNodes (digest_at H.hash P)) P.types (N.nodes store.now) r.0 t v → bytes ≡ spelling (projection H.hash P t v)) }
{
    spell(alloc, code.types(), store, r, ty)
}
