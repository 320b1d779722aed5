// Runs of a verifier over pieces that are fetched.
ghost use Rattle.std.specs.Prelude.{◌≡◌, ◌<◌, ◌≤◌, ◌^◌, IfOk, length};
ghost use Rattle.core_terms.specs.Terms.{function_at};
ghost use Rattle.core_terms.specs.Values.{Values};
ghost use Rattle.ideal_meaning.specs.Fetched.{asking, fetched};
ghost use Rattle.lam_outside.specs.Causes.{Rose};
ghost use Rattle.value_store.specs.Markings.{HasLimit};
ghost use Rattle.value_store.specs.Standing.{AllStandFor, VerifierNodes};
ghost use Rattle.value_store.specs.CodeNodes.{numbers_of};
ghost use Rattle.mode_vm.specs.Meanings.{program_of};
ghost use Rattle.mode_vm.specs.Openings.{Came, Counts};
ghost use Rattle.verifier_mode.specs.Spelled.{OutcomeStands};
ghost use Rattle.piece_fetch.specs.Answerings.{MayGive, MayStop};
ghost use Rattle.piece_fetch.specs.FetchedRuns.{IsFetched};
ghost use Rattle.piece_fetch.specs.Faults.{fault_cause};

use crate::fetcher::{Fetcher, FetcherFault};
use code_gen::Code;
use core_terms::{Fronts, FunctionId, Hash32, Outcome};
use mode_vm::{Machine, Stop};
use std::alloc::Global;
use value_store::{Nodes, Ref};
use wire_form::Fetch;

/// Calls a function on values of the store, as a verifier that fetches each piece that is opened, with at most 10^12 units of fuel.
/// The store has the limit of the program's format.
///
/// # Errors
///
/// `Mode` where the verifier stops the run: for a cause, or since the outside failed and its count of faults rose. `NoMemory` where there
/// is no memory for the machine, the fronts of the program's types, a piece or a node.
pub fn fetched_run<H: Hash32, F: Fetch, N: Nodes>(
    alloc: Global,
    code: &Code,
    store: &mut N,
    function: FunctionId,
    args: &[Ref],
    fuel: u64,
    from: &mut F,
) -> Result<Outcome<Ref>, Stop<FetcherFault>>
    requires there { function.0 < length (program_of code.now).functions }
    requires stand { (vs : Values) × AllStandFor VerifierNodes (program_of code.now).types (N.nodes store.old) (numbers_of args.now) (function_at (program_of code.now) function.0).parameters vs }
    requires limit { HasLimit (program_of code.now) (N.lent store.old) }
    requires fuel_fits { fuel ≤ 10 ^ 12 }
    ensures is { Came (MayGive H.hash F.gives) (λ v a f w. MayStop H.hash F.gives v a (fault_cause f) w) fault_cause from.old from.new result (λ answers. (vs : Values)
        → AllStandFor VerifierNodes (program_of code.now).types (N.nodes store.old) (numbers_of args.now) (function_at (program_of code.now) function.0).parameters vs
        → IsFetched (program_of code.now) (N.nodes store.new) (function_at (program_of code.now) function.0).result
        (fetched H.hash (program_of code.now) function.0 vs fuel (asking answers)) result) }
    ensures stands { IfOk result (OutcomeStands (program_of code.now) (N.nodes store.new) (function_at (program_of code.now) function.0).result) }
    ensures faults { Counts fault_cause Rose (F.faults from.old) (F.faults from.new) result }
    ensures rest { F.rest from.new ≡ F.rest from.old }
    ensures lent { N.lent store.new ≡ N.lent store.old }
{
    let fronts = Fronts::of_types::<H>(code.types(), alloc)?;
    let fetcher = Fetcher::<H, F>::new(alloc, fronts);
    let mut machine = Machine::start(code, function, args, fuel, fetcher, alloc)?;
    machine.run(code, store, from)
}
