// Audits of proofs.
ghost use Rattle.std.specs.Prelude.{◌≡◌, ◌<◌, ◌≤◌, ◌^◌, List, length};
ghost use Rattle.std.specs.Option.{ForSome};
ghost use Rattle.core_terms.specs.Projection.{digest_at};
ghost use Rattle.core_terms.specs.Roles.{argument_type};
ghost use Rattle.core_terms.specs.Terms.{function_at};
ghost use Rattle.core_terms.specs.Values.{Value};
ghost use Rattle.code_gen.specs.Programs.{program_in};
ghost use Rattle.ideal_meaning.specs.Ideal as ideal;
ghost use Rattle.value_store.specs.Markings.{HasLimit};
ghost use Rattle.value_store.specs.Standing.{Keeps, ProverNodes};
ghost use Rattle.mode_vm.specs.IdealRuns.{IsOutcome};
ghost use Rattle.mode_vm.specs.Meanings.{program_of};
ghost use Rattle.mode_vm.specs.StateCalls.{IsCalledOn, TakesState};
ghost use Rattle.prover_mode.specs.Seen.{AreSeen};
ghost use Rattle.collision_audit.specs.Audits.{audit_of};
ghost use Rattle.collision_audit.specs.AuditsInCode.{TellsAudit, AuditCause, AuditsTruly, StopsAtDifference};
ghost use Rattle.collision_audit.specs.PieceAudits.{run_audit};

use crate::audited::{AuditFault, Audited};
use crate::comparing::compare_file;
use code_gen::Code;
use core_terms::{Fronts, FunctionId, Hash32};
use lam_outside::Source;
use prover_mode::{ProverRun, prover_run, spelled_outcome};
use std::alloc::Global;
use value_store::{Nodes, Ref};

/// Audits a proof of a call of a query or an update with this much fuel (at most 10^12), on an ideal state and argument, which stand over
/// the prover's nodes, and so are within the limits, in a store with the limit of the program's format. The proof is a proof file, which
/// may ask for as many pieces to be kept as the program's format allows; it is read as it is needed, and no more of it is held than a
/// piece and the pieces kept.
///
/// `Collision` comes exactly where, at the first place at which the offered pieces and the honest ones differ, both have a piece and the
/// two have one digest: it has that place and both pieces. Else the answer is that of a verifier who is given the spellings of the
/// projected state and argument alone: an outcome, which is true, or the cause of a rejection with each of its fields. No frame behind
/// the first piece that differs is read. `ReadFault` comes where the source failed, and its count of faults rose; `NoMemory` where
/// memory was wanting. The store keeps what the run made.
pub fn audit<H: Hash32, S: Source, N: Nodes>(
    alloc: Global,
    code: &Code,
    store: &mut N,
    role: FunctionId,
    state: Ref,
    argument: Ref,
    fuel: u64,
    proof: &mut S,
) -> Result<Audited, AuditFault>
    requires there { role.0 < length (program_of code.now).functions }
    requires role { TakesState (program_of code.now) role.0 }
    requires stand { (s : Value) × (a : Value) × IsCalledOn H.hash (program_of code.now) role.0 (N.nodes store.old) state argument s a }
    requires limit { HasLimit (program_of code.now) (N.lent store.old) }
    requires fuel_fits { fuel ≤ 10 ^ 12 }
    ensures audit { (s a : Value) → IsCalledOn H.hash (program_of code.now) role.0 (N.nodes store.old) state argument s a → ForSome (S.left proof.old) (λ bytes.
        let P = program_of code.now in
        TellsAudit P role.0 (audit_of H.hash P (argument_type P role.0) role.0 s a fuel bytes) result) }
    ensures headline { (s a : Value) → IsCalledOn H.hash (program_of code.now) role.0 (N.nodes store.old) state argument s a → ForSome (S.left proof.old) (λ bytes.
        AuditsTruly H.hash (program_of code.now) role.0 s a fuel bytes result) }
    ensures stops { ForSome (S.left proof.old) (λ bytes. StopsAtDifference (program_of code.now) bytes (S.left proof.new) result) }
    ensures faults { AuditCause (S.faults proof.old) (S.faults proof.new) result }
    ensures rest { S.rest proof.new ≡ S.rest proof.old }
    ensures keeps { Keeps (N.nodes store.old) (N.nodes store.new) }
    ensures lent { N.lent store.new ≡ N.lent store.old }
{
    let run = prover_run::<H, N>(alloc, code, store, role, &[state, argument], fuel)?;
    audit_run::<H, S, N>(alloc, code, store, role, &run, proof)
}

/// Audits a proof by a prover's run of the call.
fn audit_run<H: Hash32, S: Source, N: Nodes>(
    alloc: Global,
    code: &Code,
    store: &N,
    role: FunctionId,
    run: &ProverRun,
    proof: &mut S,
) -> Result<Audited, AuditFault>
    requires there { role.0 < length (program_of code.now).functions }
    requires limit { HasLimit (program_of code.now) (N.lent store.now) }
    requires proved { let P = program_of code.now in
        (o : ideal.Outcome) × IsOutcome (ProverNodes (digest_at H.hash P)) P.types (N.nodes store.now) (function_at P role.0).result run.now.value o }
    requires seen { (seen : List ideal.Opened) × AreSeen H.hash (program_in code.now).types (N.nodes store.now) run.now.opened.items seen }
    ensures tells { let P = program_of code.now in (o : ideal.Outcome) (seen : List ideal.Opened)
        → IsOutcome (ProverNodes (digest_at H.hash P)) P.types (N.nodes store.now) (function_at P role.0).result run.now.value o
        → AreSeen H.hash (program_in code.now).types (N.nodes store.now) run.now.opened.items seen
        → ForSome (S.left proof.old) (λ bytes. TellsAudit P role.0 (run_audit H.hash P role.0 o seen bytes) result) }
    ensures stops { ForSome (S.left proof.old) (λ bytes. StopsAtDifference (program_of code.now) bytes (S.left proof.new) result) }
    ensures faults { AuditCause (S.faults proof.old) (S.faults proof.new) result }
    ensures rest { S.rest proof.new ≡ S.rest proof.old }
{
    let fronts = Fronts::of_types::<H>(code.types(), alloc)?;
    match compare_file::<H, S, N>(alloc, code.types(), &fronts, store, &run.opened, proof)? {
        Some(answer) => Ok(answer),
        None => {
            let ty = code.program().function(role).result;
            let outcome = spelled_outcome::<H, N>(alloc, code.types(), store, run.value, ty)?;
            Ok(Audited::Agrees(outcome))
        }
    }
}
