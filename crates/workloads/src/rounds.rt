// Rounds of a workload: a put, and a get of its key.
ghost use Rattle.std.specs.Prelude.{◌≡◌, ◌<◌, ◌≤◌, ◌+◌, ◌%◌, ◌^◌, ℕ, IfOk, OnOk, length, pos};
ghost use Rattle.core_terms.specs.Projection.{digest_at};
ghost use Rattle.core_terms.specs.RoleTypes.{IsRole};
ghost use Rattle.core_terms.specs.Terms.{Query, Update};
ghost use Rattle.core_terms.specs.Types.{IntTy, PairTy, Table, Ty};
ghost use Rattle.core_terms.specs.Values.{IntV, PairV, Value};
ghost use Rattle.ideal_meaning.specs.Ideal as ideal;
ghost use Rattle.value_store.specs.Markings.{HasLimit};
ghost use Rattle.value_store.specs.Standing.{Keeps, Kind, ProverNodes, StandsFor};
ghost use Rattle.mode_vm.specs.IdealRuns.{IsOutcome};
ghost use Rattle.mode_vm.specs.Meanings.{program_of};
ghost use Rattle.ads_library.specs.Recurrence.{next_state, number_of};
ghost use Rattle.workloads.specs.Sums.{IsBounded};
ghost use Rattle.workloads.specs.Workloads.{add_call, behind_round, outcome_of, state_after, state_behind, tally_after};

use crate::calls::checked_call;
use crate::tally::Tally;
use crate::workload::Workload;
use ads_library::Gen;
use code_gen::Code;
use core_terms::{Hash32, Outcome};
use reuse_buffer::SpareRing;
use std::alloc::{AllocError, Global};
use value_store::{Mark, Nodes, Ref, first_component};

/// Puts the next value under the next key, and gets it: the node of the state behind the put.
pub(crate) fn run_round<H: Hash32, N: Nodes>(
    alloc: Global,
    code: &Code,
    store: &mut N,
    state: Ref,
    workload: &Workload,
    numbers: &mut Gen,
    tally: &mut Tally,
    spare: &mut SpareRing,
) -> Result<Ref, AllocError>
    requires put { (answer : Ty) × IsRole (program_of code.now) workload.now.put.0 Update (PairTy IntTy IntTy) answer }
    requires get { (answer : Ty) × IsRole (program_of code.now) workload.now.get.0 Query IntTy answer }
    requires keys { 0 < workload.now.keys }
    requires kept { workload.now.kept ≤ (program_of code.now).format.most_kept }
    requires limit { HasLimit (program_of code.now) (N.lent store.old) }
    requires state { let P = program_of code.now in (s : Value) × StandsFor (ProverNodes (digest_at H.hash P)) P.types (N.nodes store.old) state.0 P.state s }
    requires bounded { IsBounded tally.old }
    requires few { tally.old.calls + 1 < 2 ^ 32 }
    ensures numbers { numbers.new ≡ behind_round numbers.old }
    ensures tally { let P = program_of code.now in OnOk result ((s : Value) → StandsFor (ProverNodes (digest_at H.hash P)) P.types (N.nodes store.old) state.0 P.state s
        → tally.new ≡ tally_after H.hash P workload.now numbers.old s tally.old) }
    ensures state { let P = program_of code.now in IfOk result (λ r. (s : Value) → StandsFor (ProverNodes (digest_at H.hash P)) P.types (N.nodes store.old) state.0 P.state s
        → StandsFor (ProverNodes (digest_at H.hash P)) P.types (N.nodes store.new) r.0 P.state (state_after H.hash P workload.now numbers.old s)) }
    ensures count { OnOk result (tally.new.calls ≡ tally.old.calls + 2) }
    ensures bounded { OnOk result (IsBounded tally.new) }
    ensures keeps { Keeps (N.nodes store.old) (N.nodes store.new) }
    ensures lent { N.lent store.new ≡ N.lent store.old }
{
    let key = next_key(numbers, workload.keys);
    let value = next_value(numbers);
    let state = put::<H, N>(
        alloc, code, store, state, key, value, workload, tally, spare,
    )?;
    get::<H, N>(alloc, code, store, state, key, workload, tally, spare)?;
    Ok(state)
}

/// The key that a generator gives, one of so many.
fn next_key(numbers: &mut Gen, keys: u64) -> i64
    requires { 0 < keys }
    ensures numbers { numbers.new ≡ next_state numbers.old }
    ensures key { result ≡ pos (number_of (next_state numbers.old) % keys) }
{
    (numbers.next() % keys) as i64
}

/// The value that a generator gives.
fn next_value(numbers: &mut Gen) -> i64
    ensures numbers { numbers.new ≡ next_state numbers.old }
    ensures value { result ≡ pos (number_of (next_state numbers.old)) }
{
    numbers.next() as i64
}

/// Puts a value under a key: the node of the state behind. Without a new state the nodes that were put are dropped.
fn put<H: Hash32, N: Nodes>(
    alloc: Global,
    code: &Code,
    store: &mut N,
    state: Ref,
    key: i64,
    value: i64,
    workload: &Workload,
    tally: &mut Tally,
    spare: &mut SpareRing,
) -> Result<Ref, AllocError>
    requires put { (answer : Ty) × IsRole (program_of code.now) workload.now.put.0 Update (PairTy IntTy IntTy) answer }
    requires kept { workload.now.kept ≤ (program_of code.now).format.most_kept }
    requires limit { HasLimit (program_of code.now) (N.lent store.old) }
    requires state { let P = program_of code.now in (s : Value) × StandsFor (ProverNodes (digest_at H.hash P)) P.types (N.nodes store.old) state.0 P.state s }
    requires bounded { IsBounded tally.old }
    requires few { tally.old.calls < 2 ^ 32 }
    ensures tally { let P = program_of code.now in let w = workload.now in OnOk result ((s : Value) → StandsFor (ProverNodes (digest_at H.hash P)) P.types (N.nodes store.old) state.0 P.state s
        → tally.new ≡ add_call H.hash P w.kept tally.old w.put.0 s (PairV (IntV key) (IntV value))) }
    ensures state { let P = program_of code.now in let w = workload.now in IfOk result (λ r. (s : Value) → StandsFor (ProverNodes (digest_at H.hash P)) P.types (N.nodes store.old) state.0 P.state s
        → StandsFor (ProverNodes (digest_at H.hash P)) P.types (N.nodes store.new) r.0 P.state (state_behind s (outcome_of P w.put.0 s (PairV (IntV key) (IntV value))))) }
    ensures count { OnOk result (tally.new.calls ≡ tally.old.calls + 1) }
    ensures bounded { OnOk result (IsBounded tally.new) }
    ensures keeps { Keeps (N.nodes store.old) (N.nodes store.new) }
    ensures lent { N.lent store.new ≡ N.lent store.old }
{
    let before = store.mark();
    let first = store.put_int(key)?;
    let second = store.put_int(value)?;
    let argument = store.put_pair(first, second)?;
    let call = checked_call::<H, N>(
        alloc,
        code,
        store,
        workload.put,
        state,
        argument,
        workload.kept,
        spare,
    )?;
    tally.add(&call);
    Ok(new_state(store, state, call.value, before))
}

/// The node of the state behind a put that ended so, on a state that stands before the mark. Without a new state the nodes behind the
/// mark are dropped.
fn new_state<N: Nodes>(store: &mut N, state: Ref, ended: Outcome<Ref>, before: Mark) -> Ref
    requires there { before.0 ≤ length (N.nodes store.old) }
    requires lent { length (N.lent store.old).nodes ≤ before.0 }
    requires state { state.0 < before.0 }
    requires pair { (kind : Kind) × (types : Table) × (a : Ty) × (b : Ty) × (o : ideal.Outcome) × IsOutcome kind types (N.nodes store.old) (PairTy a b) ended o }
    ensures state { (kind : Kind) (types : Table) (a b : Ty) (o : ideal.Outcome) (s : Value) → IsOutcome kind types (N.nodes store.old) (PairTy a b) ended o
        → StandsFor kind types (N.nodes store.old) state.0 a s → StandsFor kind types (N.nodes store.new) result.0 a (state_behind s o) }
    ensures keeps { (kind : Kind) (types : Table) (r : ℕ) (t : Ty) (v : Value) → r < before.0
        → StandsFor kind types (N.nodes store.old) r t v → StandsFor kind types (N.nodes store.new) r t v }
    ensures lent { N.lent store.new ≡ N.lent store.old }
{
    match ended {
        Outcome::Done(value) => first_component(store, value),
        Outcome::Trapped(_) | Outcome::Out => {
            store.cut_to(before);
            state
        }
    }
}

/// Gets a key, and drops the nodes that were put for this.
fn get<H: Hash32, N: Nodes>(
    alloc: Global,
    code: &Code,
    store: &mut N,
    state: Ref,
    key: i64,
    workload: &Workload,
    tally: &mut Tally,
    spare: &mut SpareRing,
) -> Result<(), AllocError>
    requires get { (answer : Ty) × IsRole (program_of code.now) workload.now.get.0 Query IntTy answer }
    requires kept { workload.now.kept ≤ (program_of code.now).format.most_kept }
    requires limit { HasLimit (program_of code.now) (N.lent store.old) }
    requires state { let P = program_of code.now in (s : Value) × StandsFor (ProverNodes (digest_at H.hash P)) P.types (N.nodes store.old) state.0 P.state s }
    requires bounded { IsBounded tally.old }
    requires few { tally.old.calls < 2 ^ 32 }
    ensures tally { let P = program_of code.now in let w = workload.now in OnOk result ((s : Value) → StandsFor (ProverNodes (digest_at H.hash P)) P.types (N.nodes store.old) state.0 P.state s
        → tally.new ≡ add_call H.hash P w.kept tally.old w.get.0 s (IntV key)) }
    ensures count { OnOk result (tally.new.calls ≡ tally.old.calls + 1) }
    ensures dropped { OnOk result (length (N.nodes store.new) ≡ length (N.nodes store.old)) }
    ensures bounded { OnOk result (IsBounded tally.new) }
    ensures keeps { Keeps (N.nodes store.old) (N.nodes store.new) }
    ensures lent { N.lent store.new ≡ N.lent store.old }
{
    let before = store.mark();
    let argument = store.put_int(key)?;
    let call = checked_call::<H, N>(
        alloc,
        code,
        store,
        workload.get,
        state,
        argument,
        workload.kept,
        spare,
    )?;
    tally.add(&call);
    store.cut_to(before);
    Ok(())
}
