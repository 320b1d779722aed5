// Workloads.
ghost use Rattle.std.specs.Prelude.{◌≡◌, ◌<◌, ◌≤◌, IfOk};
ghost use Rattle.core_terms.specs.Projection.{digest_at};
ghost use Rattle.core_terms.specs.RoleTypes.{IsRole};
ghost use Rattle.core_terms.specs.Terms.{Query, Update};
ghost use Rattle.core_terms.specs.Types.{IntTy, PairTy, Ty};
ghost use Rattle.core_terms.specs.Values.{Value};
ghost use Rattle.value_store.specs.Markings.{HasLimit};
ghost use Rattle.value_store.specs.Standing.{Keeps, ProverNodes, StandsFor};
ghost use Rattle.mode_vm.specs.Meanings.{program_of};
ghost use Rattle.workloads.specs.Workloads.{after_rounds, no_calls};

use crate::rounds::run_round;
use crate::tally::Tally;
use ads_library::Gen;
use code_gen::Code;
use core_terms::{FunctionId, Hash32};
use reuse_buffer::SpareRing;
use std::alloc::{AllocError, Global};
use value_store::{Nodes, Ref};

/// What a workload calls, on which keys, and with which proofs.
#[derive(Clone, Copy)]
pub struct Workload {
    /// The update that puts a value under a key: its argument is a pair of ints.
    pub put: FunctionId,
    /// The query that finds the value of a key: its argument is an int.
    pub get: FunctionId,
    /// How many keys there are: they are the numbers from 0 on. Not 0.
    pub keys: u64,
    /// How many pieces each proof file asks to be kept.
    pub kept: u16,
}

/// Runs a workload from a state that stands among the prover's nodes of a store with the limit of the program's format: so many rounds
/// (at most 100,000), each of a put with the next key and the next value, and a get with this key. Every call has 1,000,000 units of
/// fuel, is proved, and its proof file is verified from the spellings. A put that ends with a value gives the new state; behind another
/// the state stays as it is. It gives the sums over the calls and the node of the last state.
///
/// The nodes that a get puts are dropped behind it, and so are those of a put that ends without a value. The generator starts with
/// `seed`.
///
/// # Errors
///
/// `AllocError` where there is no memory for a call, its proof or its verification. Nodes may have been put then.
pub fn run_workload<H: Hash32, N: Nodes>(
    alloc: Global,
    code: &Code,
    store: &mut N,
    state: Ref,
    workload: &Workload,
    seed: u64,
    count: u32,
) -> Result<(Tally, Ref), AllocError>
    requires put { (answer : Ty) × IsRole (program_of code.now) workload.now.put.0 Update (PairTy IntTy IntTy) answer }
    requires get { (answer : Ty) × IsRole (program_of code.now) workload.now.get.0 Query IntTy answer }
    requires keys { 0 < workload.now.keys }
    requires kept { workload.now.kept ≤ (program_of code.now).format.most_kept }
    requires limit { HasLimit (program_of code.now) (N.lent store.old) }
    requires count { count ≤ 100000 }
    requires state { let P = program_of code.now in (s : Value) × StandsFor (ProverNodes (digest_at H.hash P)) P.types (N.nodes store.old) state.0 P.state s }
    ensures tally { let P = program_of code.now in IfOk result (λ told. (s : Value) → StandsFor (ProverNodes (digest_at H.hash P)) P.types (N.nodes store.old) state.0 P.state s
        → told.0 ≡ (after_rounds H.hash P workload.now count seed s no_calls).0) }
    ensures state { let P = program_of code.now in IfOk result (λ told. (s : Value) → StandsFor (ProverNodes (digest_at H.hash P)) P.types (N.nodes store.old) state.0 P.state s
        → StandsFor (ProverNodes (digest_at H.hash P)) P.types (N.nodes store.new) told.1.0 P.state (after_rounds H.hash P workload.now count seed s no_calls).1) }
    ensures keeps { Keeps (N.nodes store.old) (N.nodes store.new) }
    ensures lent { N.lent store.new ≡ N.lent store.old }
{
    let mut numbers = Gen::new(seed);
    let mut tally = Tally::new();
    // The memory of a ring, and of the pieces that it held, from call to call.
    let mut spare = SpareRing::new();
    let mut state = state;
    for _round in 0..count {
        state = run_round::<H, N>(
            alloc,
            code,
            store,
            state,
            workload,
            &mut numbers,
            &mut tally,
            &mut spare,
        )?;
    }
    Ok((tally, state))
}
