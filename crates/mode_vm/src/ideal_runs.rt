// Runs in ideal mode.
ghost use Rattle.std.specs.Prelude.{◌≡◌, ◌<◌, ◌≤◌, ◌^◌, length, IfOk};
ghost use Rattle.core_terms.specs.Projection.{digest_at};
ghost use Rattle.core_terms.specs.Terms.{function_at};
ghost use Rattle.core_terms.specs.Values.{Values};
ghost use Rattle.ideal_meaning.specs.Ideal.{ideal, outcome};
ghost use Rattle.value_store.specs.Markings.{HasLimit};
ghost use Rattle.value_store.specs.Standing.{AllStandFor, IdealNodes, Keeps, ProverNodes};
ghost use Rattle.value_store.specs.CodeNodes.{numbers_of};
ghost use Rattle.mode_vm.specs.IdealRuns.{IsOutcome};
ghost use Rattle.mode_vm.specs.Meanings.{program_of};

use crate::digesting::DigestingMode;
use crate::ideal::IdealMode;
use crate::machine::Machine;
use code_gen::Code;
use core_terms::{Fronts, FunctionId, Hash32, Outcome};
use std::alloc::{AllocError, Global};
use value_store::{Nodes, Ref};

/// Calls a function in ideal mode, on arguments that stand among the nodes, with so much fuel, 10^12 units at most: its
/// outcome, whose value stands among the nodes then. The store has the limit of the program's format.
///
/// # Errors
///
/// `AllocError` where there is no memory for a frame, an operand or a node. Nodes may have been put then.
pub fn ideal_run<N: Nodes>(
    code: &Code,
    store: &mut N,
    function: FunctionId,
    args: &[Ref],
    fuel: u64,
    alloc: Global,
) -> Result<Outcome<Ref>, AllocError>
    requires there { function.0 < length (program_of code.now).functions }
    requires stand { (vs : Values) × AllStandFor IdealNodes (program_of code.now).types (N.nodes store.old) (numbers_of args.now) (function_at (program_of code.now) function.0).parameters vs }
    requires limit { HasLimit (program_of code.now) (N.lent store.old) }
    requires fuel_fits { fuel ≤ 10 ^ 12 }
    ensures outcome { IfOk result (λ o. (vs : Values)
        → AllStandFor IdealNodes (program_of code.now).types (N.nodes store.old) (numbers_of args.now) (function_at (program_of code.now) function.0).parameters vs
        → IsOutcome IdealNodes (program_of code.now).types (N.nodes store.new) (function_at (program_of code.now) function.0).result o (outcome (ideal (program_of code.now) function.0 vs fuel))) }
    ensures keeps { Keeps (N.nodes store.old) (N.nodes store.new) }
    ensures lent { N.lent store.new ≡ N.lent store.old }
{
    let mut machine = Machine::start(code, function, args, fuel, IdealMode, alloc)?;
    match machine.run(code, store, &mut ()) {
        Ok(outcome) => Ok(outcome),
        Err(_) => Err(AllocError),
    }
}

/// The same over the prover's nodes: each authenticated value that the run makes is digested once, when it is made.
///
/// # Errors
///
/// `AllocError` as for [`ideal_run`], and where there is no memory for a spelling that is digested.
pub fn digesting_run<H: Hash32, N: Nodes>(
    code: &Code,
    store: &mut N,
    function: FunctionId,
    args: &[Ref],
    fuel: u64,
    alloc: Global,
) -> Result<Outcome<Ref>, AllocError>
    requires there { function.0 < length (program_of code.now).functions }
    requires stand { let P = program_of code.now in
        (vs : Values) × AllStandFor (ProverNodes (digest_at H.hash P)) P.types (N.nodes store.old) (numbers_of args.now) (function_at P function.0).parameters vs }
    requires limit { HasLimit (program_of code.now) (N.lent store.old) }
    requires fuel_fits { fuel ≤ 10 ^ 12 }
    ensures outcome { let P = program_of code.now in let kind = ProverNodes (digest_at H.hash P) in IfOk result (λ o. (vs : Values)
        → AllStandFor kind P.types (N.nodes store.old) (numbers_of args.now) (function_at P function.0).parameters vs
        → IsOutcome kind P.types (N.nodes store.new) (function_at P function.0).result o (outcome (ideal P function.0 vs fuel))) }
    ensures keeps { Keeps (N.nodes store.old) (N.nodes store.new) }
    ensures lent { N.lent store.new ≡ N.lent store.old }
{
    let fronts = Fronts::of_types::<H>(code.types(), alloc)?;
    let mode = DigestingMode::<H>::new(alloc, fronts);
    let mut machine = Machine::start(code, function, args, fuel, mode, alloc)?;
    match machine.run(code, store, &mut ()) {
        Ok(outcome) => Ok(outcome),
        Err(_) => Err(AllocError),
    }
}
