// Proof files of calls.
ghost use Rattle.std.specs.Prelude.{◌≡◌, ◌<◌, ◌≤◌, ◌^◌, ◌++◌, ◌∷◌, [], List, ℕ, IfOk, length};
ghost use Rattle.std.specs.Int.{w16, to_be_bytes};
ghost use Rattle.core_terms.specs.ProgramTypes.{types_meaning};
ghost use Rattle.core_terms.specs.Projection.{digest_at};
ghost use Rattle.core_terms.specs.Terms.{function_at};
ghost use Rattle.core_terms.specs.Values.{Value};
ghost use Rattle.ideal_meaning.specs.Frames.{frame_bytes, proof_file};
ghost use Rattle.ideal_meaning.specs.Headline.{call_values};
ghost use Rattle.ideal_meaning.specs.Ideal as ideal;
ghost use Rattle.value_store.specs.Markings.{HasLimit};
ghost use Rattle.value_store.specs.Standing.{Keeps, ProverNodes};
ghost use Rattle.mode_vm.specs.IdealRuns.{IsOutcome};
ghost use Rattle.mode_vm.specs.Meanings.{program_of};
ghost use Rattle.mode_vm.specs.StateCalls.{IsCalledOn, TakesState};
ghost use Rattle.ideal_meaning.specs.SpelledOutcomes.{SpellsOutcome};
ghost use Rattle.prover_mode.specs.Calls.{IsAccepted};
ghost use Rattle.ideal_meaning.specs.RunFrames.{run_frames, again_in, fresh_in};

use crate::proving::{Proved, prove};
use code_gen::Code;
use core_terms::{FunctionId, Hash32, Types};
use proof_stream::put_header;
use reuse_buffer::SpareRing;
use std::alloc::{AllocError, Global};
use value_store::{Nodes, Ref};

/// Proves a call as [`prove`] does, where no pieces came before, and gives the bytes of the proof file beside it: a header, which asks
/// for `size` pieces to be kept, as many as the program's format allows at most, and the frames. Whoever holds the spellings of the
/// projected state and argument accepts the file, with this outcome. A unit of `fuel` is a call of a function, and there are 10^12 at most.
///
/// # Errors
///
/// `AllocError` where there is no memory for the run, the ring, the frames or the file, to which the frames are copied.
pub fn prove_file<H: Hash32, N: Nodes>(
    alloc: Global,
    code: &Code,
    store: &mut N,
    role: FunctionId,
    state: Ref,
    argument: Ref,
    fuel: u64,
    size: u16,
) -> Result<(Proved, Vec<u8>), AllocError>
    requires there { role.0 < length (program_of code.now).functions }
    requires role { TakesState (program_of code.now) role.0 }
    requires called { (s : Value) × (a : Value) × IsCalledOn H.hash (program_of code.now) role.0 (N.nodes store.old) state argument s a }
    requires limit { HasLimit (program_of code.now) (N.lent store.old) }
    requires fuel_fits { fuel ≤ 10 ^ 12 }
    requires size { size ≤ (program_of code.now).format.most_kept }
    ensures value { let P = program_of code.now in IfOk result (λ told. (s a : Value) → IsCalledOn H.hash P role.0 (N.nodes store.old) state argument s a
        → IsOutcome (ProverNodes (digest_at H.hash P)) P.types (N.nodes store.new) (function_at P role.0).result told.0.value (ideal.outcome (ideal.ideal P role.0 (call_values s a) fuel))) }
    ensures outcome { let P = program_of code.now in IfOk result (λ told. (s a : Value) → IsCalledOn H.hash P role.0 (N.nodes store.old) state argument s a
        → SpellsOutcome P (function_at P role.0).result (ideal.outcome_projection H.hash P (function_at P role.0).result (ideal.outcome (ideal.ideal P role.0 (call_values s a) fuel))) told.0.outcome) }
    ensures frames { let P = program_of code.now in IfOk result (λ told. (s a : Value) → IsCalledOn H.hash P role.0 (N.nodes store.old) state argument s a
        → told.0.frames.items ≡ frame_bytes (run_frames H.hash P role.0 (call_values s a) fuel size [])) }
    ensures fresh { let P = program_of code.now in IfOk result (λ told. (s a : Value) → IsCalledOn H.hash P role.0 (N.nodes store.old) state argument s a
        → told.0.fresh ≡ fresh_in (run_frames H.hash P role.0 (call_values s a) fuel size [])) }
    ensures again { let P = program_of code.now in IfOk result (λ told. (s a : Value) → IsCalledOn H.hash P role.0 (N.nodes store.old) state argument s a
        → told.0.again ≡ again_in (run_frames H.hash P role.0 (call_values s a) fuel size [])) }
    ensures file { let P = program_of code.now in IfOk result (λ told. (s a : Value) → IsCalledOn H.hash P role.0 (N.nodes store.old) state argument s a
        → told.1.items ≡ proof_file P.format size (ideal.bytes_of (ideal.honest_pieces H.hash P role.0 (call_values s a) fuel))) }
    ensures accepted { let P = program_of code.now in IfOk result (λ told. (s a : Value) → IsCalledOn H.hash P role.0 (N.nodes store.old) state argument s a
        → IsAccepted H.hash P role.0 s a fuel told.1.items) }
    ensures keeps { Keeps (N.nodes store.old) (N.nodes store.new) }
    ensures lent { N.lent store.new ≡ N.lent store.old }
{
    let mut spare = SpareRing::new();
    prove_file_reusing::<H, N>(
        alloc, code, store, role, state, argument, fuel, size, &mut spare,
    )
}

/// Proves a call as [`prove_file`] does, with the memory of a spare ring, which is kept again behind the call.
///
/// # Errors
///
/// Those of [`prove_file`]. Whether a ring is kept then isn't told.
pub fn prove_file_reusing<H: Hash32, N: Nodes>(
    alloc: Global,
    code: &Code,
    store: &mut N,
    role: FunctionId,
    state: Ref,
    argument: Ref,
    fuel: u64,
    size: u16,
    spare: &mut SpareRing,
) -> Result<(Proved, Vec<u8>), AllocError>
    requires there { role.0 < length (program_of code.now).functions }
    requires role { TakesState (program_of code.now) role.0 }
    requires called { (s : Value) × (a : Value) × IsCalledOn H.hash (program_of code.now) role.0 (N.nodes store.old) state argument s a }
    requires limit { HasLimit (program_of code.now) (N.lent store.old) }
    requires fuel_fits { fuel ≤ 10 ^ 12 }
    requires size { size ≤ (program_of code.now).format.most_kept }
    ensures value { let P = program_of code.now in IfOk result (λ told. (s a : Value) → IsCalledOn H.hash P role.0 (N.nodes store.old) state argument s a
        → IsOutcome (ProverNodes (digest_at H.hash P)) P.types (N.nodes store.new) (function_at P role.0).result told.0.value (ideal.outcome (ideal.ideal P role.0 (call_values s a) fuel))) }
    ensures outcome { let P = program_of code.now in IfOk result (λ told. (s a : Value) → IsCalledOn H.hash P role.0 (N.nodes store.old) state argument s a
        → SpellsOutcome P (function_at P role.0).result (ideal.outcome_projection H.hash P (function_at P role.0).result (ideal.outcome (ideal.ideal P role.0 (call_values s a) fuel))) told.0.outcome) }
    ensures frames { let P = program_of code.now in IfOk result (λ told. (s a : Value) → IsCalledOn H.hash P role.0 (N.nodes store.old) state argument s a
        → told.0.frames.items ≡ frame_bytes (run_frames H.hash P role.0 (call_values s a) fuel size [])) }
    ensures fresh { let P = program_of code.now in IfOk result (λ told. (s a : Value) → IsCalledOn H.hash P role.0 (N.nodes store.old) state argument s a
        → told.0.fresh ≡ fresh_in (run_frames H.hash P role.0 (call_values s a) fuel size [])) }
    ensures again { let P = program_of code.now in IfOk result (λ told. (s a : Value) → IsCalledOn H.hash P role.0 (N.nodes store.old) state argument s a
        → told.0.again ≡ again_in (run_frames H.hash P role.0 (call_values s a) fuel size [])) }
    ensures file { let P = program_of code.now in IfOk result (λ told. (s a : Value) → IsCalledOn H.hash P role.0 (N.nodes store.old) state argument s a
        → told.1.items ≡ proof_file P.format size (ideal.bytes_of (ideal.honest_pieces H.hash P role.0 (call_values s a) fuel))) }
    ensures accepted { let P = program_of code.now in IfOk result (λ told. (s a : Value) → IsCalledOn H.hash P role.0 (N.nodes store.old) state argument s a
        → IsAccepted H.hash P role.0 s a fuel told.1.items) }
    ensures keeps { Keeps (N.nodes store.old) (N.nodes store.new) }
    ensures lent { N.lent store.new ≡ N.lent store.old }
{
    let ring = spare.take(alloc, size)?;
    let proof = prove::<H, N>(alloc, code, store, role, state, argument, fuel, ring)?;
    let (proved, ring) = proof;
    spare.keep(ring);
    let file = behind_header(alloc, code.types(), size, &proved.frames)?;
    Ok((proved, file))
}

/// The number of bytes of a header: the magic, and how many pieces are to be kept.
const HEADER_BYTES: usize = 6;

/// A proof file of these frames, for a program with these types.
fn behind_header(
    alloc: Global,
    types: &Types,
    size: u16,
    frames: &[u8],
) -> Result<Vec<u8>, AllocError>
    ensures { IfOk result (λ file. file.items ≡ (types_meaning types.now).format.magic ++ (to_be_bytes w16 size ++ frames.now)) }
{
    let mut file = Vec::new(alloc);
    // All of it at once, where there is memory: else the file asks for it as it grows.
    let _ = file.reserve(frames.len().saturating_add(HEADER_BYTES));
    put_header(&mut file, types.proof_magic(), size)?;
    file.extend_from_slice(frames)?;
    Ok(file)
}
