// Runs of a prover.
ghost use Rattle.std.specs.Prelude.{◌≡◌, ◌<◌, ◌≤◌, ◌^◌, IfOk, length};
ghost use Rattle.core_terms.specs.Projection.{digest_at};
ghost use Rattle.core_terms.specs.Terms.{function_at};
ghost use Rattle.core_terms.specs.Values.{Values};
ghost use Rattle.code_gen.specs.Programs.{program_in};
ghost use Rattle.ideal_meaning.specs.Ideal.{ideal, outcome};
ghost use Rattle.ideal_meaning.specs.Run.{state_of};
ghost use Rattle.value_store.specs.CodeNodes.{numbers_of};
ghost use Rattle.value_store.specs.Markings.{HasLimit};
ghost use Rattle.value_store.specs.Standing.{AllStandFor, Keeps, ProverNodes};
ghost use Rattle.mode_vm.specs.IdealRuns.{IsOutcome};
ghost use Rattle.mode_vm.specs.Meanings.{program_of};
ghost use Rattle.prover_mode.specs.Seen.{AreSeen};

use crate::opened::Opened;
use crate::prover::Prover;
use code_gen::Code;
use core_terms::{Fronts, FunctionId, Hash32, Outcome};
use mode_vm::Machine;
use std::alloc::{AllocError, Global};
use value_store::{Nodes, Ref};

/// How a call ended, and what it opened.
#[derive(Drop)]
pub struct ProverRun {
    /// The outcome, with the node of its value.
    pub value: Outcome<Ref>,
    /// What was opened, in order.
    pub opened: Vec<Opened>,
}

/// Calls a function as a prover, on arguments that stand among the prover's nodes, with so much fuel, 10^12 units at most: its outcome,
/// whose value stands among the nodes then, and all that the call opened. The store has the limit of the program's format.
///
/// # Errors
///
/// `AllocError` where there is no memory for a frame, an operand, a node, a spelling or the note of what is opened. Nodes may have been put
/// then.
pub fn prover_run<H: Hash32, N: Nodes>(
    alloc: Global,
    code: &Code,
    store: &mut N,
    function: FunctionId,
    args: &[Ref],
    fuel: u64,
) -> Result<ProverRun, AllocError>
    requires there { function.0 < length (program_of code.now).functions }
    requires stand { let P = program_of code.now in
        (vs : Values) × AllStandFor (ProverNodes (digest_at H.hash P)) P.types (N.nodes store.old) (numbers_of args.now) (function_at P function.0).parameters vs }
    requires limit { HasLimit (program_of code.now) (N.lent store.old) }
    requires fuel_fits { fuel ≤ 10 ^ 12 }
    ensures value { let P = program_of code.now in let kind = ProverNodes (digest_at H.hash P) in IfOk result (λ run. (vs : Values)
        → AllStandFor kind P.types (N.nodes store.old) (numbers_of args.now) (function_at P function.0).parameters vs
        → IsOutcome kind P.types (N.nodes store.new) (function_at P function.0).result run.value (outcome (ideal P function.0 vs fuel))) }
    ensures opened { let P = program_of code.now in IfOk result (λ run. (vs : Values)
        → AllStandFor (ProverNodes (digest_at H.hash P)) P.types (N.nodes store.old) (numbers_of args.now) (function_at P function.0).parameters vs
        → AreSeen H.hash (program_in code.now).types (N.nodes store.new) run.opened.items (state_of (ideal P function.0 vs fuel))) }
    ensures keeps { Keeps (N.nodes store.old) (N.nodes store.new) }
    ensures lent { N.lent store.new ≡ N.lent store.old }
{
    let fronts = Fronts::of_types::<H>(code.types(), alloc)?;
    let prover = Prover::<H>::new(alloc, fronts);
    let mut machine = Machine::start(code, function, args, fuel, prover, alloc)?;
    match machine.run(code, store, &mut ()) {
        Ok(value) => {
            let opened = machine.into_mode().into_opened();
            Ok(ProverRun { value, opened })
        }
        Err(_) => Err(AllocError),
    }
}
