// Proofs of calls.
ghost use Rattle.std.specs.Prelude.{◌≡◌, ◌<◌, ◌≤◌, ◌^◌, ℕ, List, IfOk, length};
ghost use Rattle.core_terms.specs.Projection.{digest_at};
ghost use Rattle.core_terms.specs.Terms.{function_at};
ghost use Rattle.core_terms.specs.Values.{Value};
ghost use Rattle.ideal_meaning.specs.Headline.{call_values};
ghost use Rattle.ideal_meaning.specs.Ideal as ideal;
ghost use Rattle.value_store.specs.Markings.{HasLimit};
ghost use Rattle.value_store.specs.Standing.{Keeps, ProverNodes};
ghost use Rattle.mode_vm.specs.IdealRuns.{IsOutcome};
ghost use Rattle.mode_vm.specs.Meanings.{program_of};
ghost use Rattle.reuse_buffer.specs.Kept.{kept};
ghost use Rattle.mode_vm.specs.StateCalls.{IsCalledOn, TakesState};
ghost use Rattle.ideal_meaning.specs.SpelledOutcomes.{SpellsOutcome};
ghost use Rattle.ideal_meaning.specs.RunFrames.{run_frames};
ghost use Rattle.prover_mode.specs.Told.{TellsFrames};

use crate::spelling::spelled_outcome;
use crate::turns::{ProofFrames, Proving};
use code_gen::Code;
use core_terms::{FunctionId, Hash32, Outcome, Spelling};
use reuse_buffer::Ring;
use std::alloc::{AllocError, Global};
use value_store::{Nodes, Ref};

/// The proof of a call.
#[derive(Drop)]
pub struct Proved {
    /// How the call ended, with the node of its value.
    pub value: Outcome<Ref>,
    /// The same, with the spelling of the value's projection: what a verifier of the proof comes to.
    pub outcome: Outcome<Spelling>,
    /// The frames of the proof.
    pub frames: Vec<u8>,
    /// The number of frames with a piece of their own.
    pub fresh: u64,
    /// The number of frames that name a kept piece.
    pub again: u64,
}

/// Proves a call of a query or an update with this much fuel (at most 10^12), on a state and an argument that stand among the prover's
/// nodes, with a ring that holds the last of the new pieces that came before. It gives the ring back, which holds the last of them and
/// of the new pieces of this proof. The store has the limit of the program's format.
///
/// The frames have no header. A run that ends without a value is proved too. What a verifier makes of honest frames is said by the laws
/// of `ideal_meaning`. Where memory is wanting the ring is dropped.
pub fn prove<H: Hash32, N: Nodes>(
    alloc: Global,
    code: &Code,
    store: &mut N,
    role: FunctionId,
    state: Ref,
    argument: Ref,
    fuel: u64,
    ring: Ring,
) -> Result<(Proved, Ring), AllocError>
    requires there { role.0 < length (program_of code.now).functions }
    requires role { TakesState (program_of code.now) role.0 }
    requires called { (s : Value) × (a : Value) × IsCalledOn H.hash (program_of code.now) role.0 (N.nodes store.old) state argument s a }
    requires limit { HasLimit (program_of code.now) (N.lent store.old) }
    requires fuel_fits { fuel ≤ 10 ^ 12 }
    ensures value { let P = program_of code.now in IfOk result (λ told. (s a : Value) → IsCalledOn H.hash P role.0 (N.nodes store.old) state argument s a
        → IsOutcome (ProverNodes (digest_at H.hash P)) P.types (N.nodes store.new) (function_at P role.0).result told.0.value (ideal.outcome (ideal.ideal P role.0 (call_values s a) fuel))) }
    ensures outcome { let P = program_of code.now in IfOk result (λ told. (s a : Value) → IsCalledOn H.hash P role.0 (N.nodes store.old) state argument s a
        → SpellsOutcome P (function_at P role.0).result (ideal.outcome_projection H.hash P (function_at P role.0).result (ideal.outcome (ideal.ideal P role.0 (call_values s a) fuel))) told.0.outcome) }
    ensures frames { let P = program_of code.now in IfOk result (λ told. (s a : Value) (recent : List (List ℕ))
        → IsCalledOn H.hash P role.0 (N.nodes store.old) state argument s a → ring ≡ kept ring.size recent
        → TellsFrames (run_frames H.hash P role.0 (call_values s a) fuel ring.size recent) ring.size recent told.0.frames.items told.0.fresh told.0.again told.1) }
    ensures keeps { Keeps (N.nodes store.old) (N.nodes store.new) }
    ensures lent { N.lent store.new ≡ N.lent store.old }
{
    let mut proving = Proving::<H>::start(alloc, code, role, state, argument, fuel)?;
    let Some(value) = proving.turn(code, store, u64::MAX)? else {
        unreachable!()
    };
    let ty = code.program().function(role).result;
    let outcome = spelled_outcome::<H, N>(alloc, code.types(), store, value, ty)?;
    let (frames, ring) = proving.finish(alloc, code, store, ring)?;
    let ProofFrames {
        bytes,
        fresh,
        again,
    } = frames;
    let proved = Proved {
        value,
        outcome,
        frames: bytes,
        fresh,
        again,
    };
    Ok((proved, ring))
}
