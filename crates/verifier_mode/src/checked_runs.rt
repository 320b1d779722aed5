// Runs of a verifier over a source.
ghost use Rattle.std.specs.Prelude.{◌≡◌, ◌<◌, ◌≤◌, ◌^◌, ℕ, List, Some, IfOk, length};
ghost use Rattle.core_terms.specs.Terms.{function_at};
ghost use Rattle.core_terms.specs.Values.{Values};
ghost use Rattle.ideal_meaning.specs.Checked.{before_all, checked};
ghost use Rattle.ideal_meaning.specs.Following.{after_bytes};
ghost use Rattle.ideal_meaning.specs.Frames.{offered};
ghost use Rattle.lam_outside.specs.Causes.{Rose};
ghost use Rattle.value_store.specs.Markings.{HasLimit};
ghost use Rattle.value_store.specs.Standing.{AllStandFor, VerifierNodes};
ghost use Rattle.value_store.specs.CodeNodes.{numbers_of};
ghost use Rattle.mode_vm.specs.Meanings.{program_of};
ghost use Rattle.mode_vm.specs.Openings.{Counts};
ghost use Rattle.reuse_buffer.specs.Kept.{kept};
ghost use Rattle.verifier_mode.specs.CheckedRuns.{IsChecked};
ghost use Rattle.verifier_mode.specs.Faults.{fault_cause};
ghost use Rattle.verifier_mode.specs.Spelled.{OutcomeStands};

use crate::verifier::{Verifier, VerifierFault};
use code_gen::Code;
use core_terms::{Fronts, FunctionId, Hash32, Outcome};
use lam_outside::Source;
use mode_vm::{Machine, Stop};
use reuse_buffer::Ring;
use std::alloc::Global;
use value_store::{Nodes, Ref};

/// Calls a function on values of the store, as a verifier over the frames of a source whose ring holds what came before, with at most
/// 10^12 units of fuel. The store has the limit of the program's format. It gives the outcome, and the ring as the run left it.
///
/// # Errors
///
/// `Mode` where the verifier stops the run: with the cause of the rejection, or with `ReadFault` where the source failed and its count of
/// faults rose. `NoMemory` where there is no memory for the machine, a piece or a node. The ring is dropped then.
pub fn checked_run<H: Hash32, S: Source, N: Nodes>(
    alloc: Global,
    code: &Code,
    store: &mut N,
    function: FunctionId,
    args: &[Ref],
    fuel: u64,
    source: &mut S,
    ring: Ring,
) -> Result<(Outcome<Ref>, Ring), Stop<VerifierFault>>
    requires there { function.0 < length (program_of code.now).functions }
    requires stand { (vs : Values) × AllStandFor VerifierNodes (program_of code.now).types (N.nodes store.old) (numbers_of args.now) (function_at (program_of code.now) function.0).parameters vs }
    requires limit { HasLimit (program_of code.now) (N.lent store.old) }
    requires fuel_fits { fuel ≤ 10 ^ 12 }
    ensures is { (vs : Values) (bytes : List ℕ) (recent : List (List ℕ))
        → AllStandFor VerifierNodes (program_of code.now).types (N.nodes store.old) (numbers_of args.now) (function_at (program_of code.now) function.0).parameters vs
        → S.left source.old ≡ Some bytes → ring ≡ kept ring.size recent
        → IsChecked (program_of code.now) (N.nodes store.new) (function_at (program_of code.now) function.0).result ring.size (S.left source.new)
        (after_bytes (program_of code.now).format.limit bytes ring.size recent)
        (checked H.hash (program_of code.now) function.0 vs fuel (before_all (length bytes) (offered (program_of code.now).format.limit bytes ring.size recent))) result }
    ensures stands { IfOk result (λ r. OutcomeStands (program_of code.now) (N.nodes store.new) (function_at (program_of code.now) function.0).result r.0) }
    ensures faults { Counts fault_cause Rose (S.faults source.old) (S.faults source.new) result }
    ensures rest { S.rest source.new ≡ S.rest source.old }
    ensures lent { N.lent store.new ≡ N.lent store.old }
{
    let limit = code.types().spelling_limit();
    let fronts = Fronts::of_types::<H>(code.types(), alloc)?;
    let verifier = Verifier::<H, S>::new(alloc, limit, ring, fronts);
    let mut machine = Machine::start(code, function, args, fuel, verifier, alloc)?;
    let outcome = machine.run(code, store, source)?;
    Ok((outcome, machine.into_mode().into_ring()))
}
