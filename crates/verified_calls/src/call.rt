// A call whose proof file was verified.
ghost use Rattle.std.specs.Prelude.{◌≡◌, ◌<◌, ◌≤◌, Err, IfErr, IfOk, length};
ghost use Rattle.core_terms.specs.declared.byte_string.ByteString.{ByteString as Spelling};
ghost use Rattle.core_terms.specs.declared.outcome.Outcome.{Outcome};
ghost use Rattle.core_terms.specs.Limits.{most_fuel};
ghost use Rattle.core_terms.specs.Roles.{argument_type};
ghost use Rattle.ideal_meaning.specs.Checked as checked;
ghost use Rattle.mode_vm.specs.Meanings.{program_of};
ghost use Rattle.mode_vm.specs.StateCalls.{TakesState};
ghost use Rattle.verifier_mode.specs.Verdicts.{AnswersVerdict, VerdictCause};
ghost use Rattle.verified_calls.specs.Verified.{IsCallOf, IsVerified};

use code_gen::Code;
use core_terms::{FunctionId, Hash32, Outcome, Spelling};
use lam_outside::Bytes;
use reuse_buffer::SpareRing;
use std::alloc::Global;
use verifier_mode::{Verdict, verify_reusing};

/// A call whose proof file the verifier accepted.
///
/// None is made but by `verify_call_reusing`, and nothing that this asks says that a file is accepted: so whoever holds one has had its file verified.
#[derive(Drop)]
pub struct VerifiedCall {
    role: FunctionId,
    state: Spelling,
    argument: Spelling,
    fuel: u64,
    file: Vec<u8>,
    outcome: Outcome<Spelling>,
}

impl VerifiedCall {
    /// How the call ended, as the verifier told.
    pub fn outcome(&self) -> &Outcome<Spelling>
        ensures { result.now ≡ self.now.outcome }
    {
        &self.outcome
    }

    /// The proof file.
    pub fn file(&self) -> &[u8]
        ensures { result.now ≡ self.now.file.items }
    {
        &self.file
    }
}

/// Verifies a proof file for a call of a query or an update with this much fuel (at most 10^12), from the spellings of its state and its argument.
///
/// # Errors
///
/// Those of `verify`; the file may be any.
pub fn verify_call<H: Hash32>(
    alloc: Global,
    code: &Code,
    role: FunctionId,
    state: Spelling,
    argument: Spelling,
    fuel: u64,
    file: Vec<u8>,
) -> Result<VerifiedCall, Verdict>
    requires there { role.0 < length (program_of code.now).functions }
    requires role { TakesState (program_of code.now) role.0 }
    requires fuel_fits { fuel ≤ most_fuel }
    ensures call { IfOk result (IsCallOf role state argument fuel file.items) }
    ensures accepted { IfOk result (IsVerified H.hash (program_of code.now)) }
    ensures cause { IfErr result (λ refusal. VerdictCause {T = Outcome Spelling} 0 0 (Err refusal)) }
    ensures refused { let P = program_of code.now in
        IfErr result (λ refusal. AnswersVerdict P role.0 (checked.verdict H.hash P (argument_type P role.0) role.0 state argument fuel file.items) (Err refusal)) }
{
    let mut spare = SpareRing::new();
    verify_call_reusing::<H>(alloc, code, role, state, argument, fuel, file, &mut spare)
}

/// Verifies a proof file as [`verify_call`] does, with the memory of a spare ring, which is kept again where the file is accepted.
///
/// # Errors
///
/// Those of [`verify_call`].
pub fn verify_call_reusing<H: Hash32>(
    alloc: Global,
    code: &Code,
    role: FunctionId,
    state: Spelling,
    argument: Spelling,
    fuel: u64,
    file: Vec<u8>,
    spare: &mut SpareRing,
) -> Result<VerifiedCall, Verdict>
    requires there { role.0 < length (program_of code.now).functions }
    requires role { TakesState (program_of code.now) role.0 }
    requires fuel_fits { fuel ≤ most_fuel }
    ensures call { IfOk result (IsCallOf role state argument fuel file.items) }
    ensures accepted { IfOk result (IsVerified H.hash (program_of code.now)) }
    ensures cause { IfErr result (λ refusal. VerdictCause {T = Outcome Spelling} 0 0 (Err refusal)) }
    ensures refused { let P = program_of code.now in
        IfErr result (λ refusal. AnswersVerdict P role.0 (checked.verdict H.hash P (argument_type P role.0) role.0 state argument fuel file.items) (Err refusal)) }
{
    match judge::<H>(
        alloc,
        code,
        role,
        state.as_bytes(),
        argument.as_bytes(),
        fuel,
        &file,
        spare,
    ) {
        Ok(outcome) => Ok(VerifiedCall {
            role,
            state,
            argument,
            fuel,
            file,
            outcome,
        }),
        Err(refusal) => Err(refusal),
    }
}

/// Verifies the bytes of a proof file.
fn judge<H: Hash32>(
    alloc: Global,
    code: &Code,
    role: FunctionId,
    state: &[u8],
    argument: &[u8],
    fuel: u64,
    file: &[u8],
    spare: &mut SpareRing,
) -> Result<Outcome<Spelling>, Verdict>
    requires there { role.0 < length (program_of code.now).functions }
    requires role { TakesState (program_of code.now) role.0 }
    requires fuel_fits { fuel ≤ most_fuel }
    ensures verdict { let P = program_of code.now in AnswersVerdict P role.0 (checked.verdict H.hash P (argument_type P role.0) role.0 state.now argument.now fuel file.now) result }
    ensures cause { VerdictCause 0 0 result }
{
    let mut proof = Bytes::new(file);
    verify_reusing::<H, Bytes>(alloc, code, role, state, argument, fuel, &mut proof, spare)
}
