// The verdict on a call, from the spellings of its state and its argument, over pieces that are fetched.
ghost use Rattle.std.specs.Prelude.{◌≡◌, ◌<◌, ◌≤◌, ◌^◌, length};
ghost use Rattle.mode_vm.specs.Meanings.{program_of};
ghost use Rattle.mode_vm.specs.StateCalls.{TakesState};
ghost use Rattle.piece_fetch.specs.Completes.{IsComplete};
ghost use Rattle.piece_fetch.specs.Verdicts.{Judges, VerdictCause};

use crate::fetched_runs::fetched_run;
use crate::verdict::FetchVerdict;
use code_gen::Code;
use core_terms::{FunctionId, Hash32, Outcome, Spelling};
use std::alloc::Global;
use value_store::Store;
use verifier_mode::{argument_of, put_call, spelled};
use wire_form::Fetch;

/// Judges a call of a query or an update with this much fuel (at most 10^12), from the spellings of its state and its argument: each
/// piece that is opened is asked for by the digest that is held.
///
/// # Errors
///
/// The order is: the state, the argument, the run. `Rejected` has the cause with each of its fields. `FetchFault` comes where who is asked
/// failed, and its count of faults rose. `NoMemory` comes where there is no memory for a piece, the run or the outcome's spelling.
pub fn verify_from<H: Hash32, F: Fetch>(
    alloc: Global,
    code: &Code,
    role: FunctionId,
    state: &[u8],
    argument: &[u8],
    fuel: u64,
    from: &mut F,
) -> Result<Outcome<Spelling>, FetchVerdict>
    requires there { role.0 < length (program_of code.now).functions }
    requires role { TakesState (program_of code.now) role.0 }
    requires fuel_fits { fuel ≤ 10 ^ 12 }
    ensures judges { Judges H.hash F.gives (program_of code.now) role.0 state.now argument.now fuel from.old from.new result }
    ensures complete { IsComplete H.hash F.gives (program_of code.now) role.0 state.now argument.now fuel from.old from.new result }
    ensures faults { VerdictCause (F.faults from.old) (F.faults from.new) result }
    ensures rest { F.rest from.new ≡ F.rest from.old }
{
    let mut store = Store::new(alloc, code.types().spelling_limit() as u32);
    let ty = argument_of(code.program(), role);
    let refs = put_call(alloc, code.types(), &mut store, state, argument, ty)?;
    let outcome = fetched_run::<H, F, Store>(alloc, code, &mut store, role, &refs, fuel, from)?;
    let ty = code.program().function(role).result;
    Ok(spelled(alloc, code.types(), &store, outcome, ty)?)
}
