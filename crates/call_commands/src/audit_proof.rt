// The command `audit`.
ghost use Rattle.std.specs.Prelude.{◌≡◌, ℕ, IfOk, Ok, Some, length, option_map};
ghost use Rattle.std.specs.Option.{ForSome};
ghost use Rattle.command_words.specs.Commands.{texts};
ghost use Rattle.command_words.specs.declared.command.Command.TheVariants.{Audit};
ghost use Rattle.core_terms.specs.Programs.{meaning};
ghost use Rattle.core_terms.specs.declared.digest.Digest.{Digest};
ghost use Rattle.code_gen.specs.Programs.{program_in};
ghost use Rattle.collision_audit.specs.Audits as audits;
ghost use Rattle.printed_lines.specs.Lines as lines;
ghost use Rattle.collision_audit.specs.AuditsInCode.{TellsAudit, AuditCause};
ghost use Rattle.command_parts.specs.Answer.{answer_with, audit_told, audited_answer, call_audit_answer};
ghost use Rattle.command_parts.specs.CallsInStores.{HoldsCall, HoldsSome};
ghost use Rattle.call_commands.specs.AnswersBehind.{audited_behind};
ghost use Rattle.command_parts.specs.Ending.{EndsAs};
ghost use Rattle.command_parts.specs.Outsides.{outside};
ghost use Rattle.command_parts.specs.Halting.{Finds, JudgementCause, WithoutFiles, ending_status};
ghost use Rattle.command_parts.specs.IdealCalls as meant;
ghost use Rattle.command_parts.specs.IdealCalls.{call_audit};
ghost use Rattle.command_parts.specs.ReachingInCode.{FaultsAtReached, ReachedAt};
ghost use Rattle.command_parts.specs.ReadPrograms.{named_of};
ghost use Rattle.command_parts.specs.Reporting.{ReportsAgreement};
ghost use Rattle.command_parts.specs.RolesCalled.{CallsOnStates, IsCalled, role_of};
ghost use Rattle.command_parts.specs.SoundPrograms.{IsOutcome};
ghost use Rattle.command_parts.specs.Statuses.{MayAnswer};
ghost use Rattle.command_parts.specs.declared.roles.Callee.{Callee};

use code_gen::Code;
use collision_audit::{AuditFault, Audited, Collision, audit};
use command_parts::{
    CallWords, CalledRole, Callee, Ending, Halt, IdealCall, Report, Status, outcome_report,
    read_code, read_named_call, tell,
};
use core_terms::{Outcome, Program, Spelling};
use digest_layer::Sha;
use lam_outside::{Files, Sink};
use printed_lines::lines::{agrees_line, collision_line};
use printed_lines::refusal::{Refusal, Rejection};
use std::alloc::{AllocError, Global};
use value_store::Store;

/// Audits a proof of a query or an update, and tells the outcome on which it agrees, the collision that the proof shows, or why the
/// proof is rejected. The words behind the command are `P ROLE IMG ARG FUEL PROOF`.
pub fn audit_command<F: Files, O: Sink>(
    alloc: Global,
    words: &[&str],
    files: &mut F,
    out: &mut O,
) -> Status
    requires { length words.now ≡ 6 }
    ensures ends { let seen = outside F.contents F.stores F.faults F.store_faults O.written O.faults in
        EndsAs (answer_with Audit (texts words.now)) (seen files.old out.old) (seen files.new out.new) result }
    ensures reached { ReachedAt result (answer_with Audit (texts words.now)) (F.contents files.old) (F.asked files.new) }
    ensures possible { MayAnswer Audit result }
{
    let [program, role, image, argument, fuel, proof] = words else {
        unreachable!()
    };
    let words = CallWords {
        program,
        role,
        argument,
        fuel,
    };
    let found = find_audit(alloc, &words, image, proof, files);
    tell(alloc, out, found)
}

/// What is found of a program, a call and a proof: the proof file is opened when all else is well-formed.
fn find_audit<F: Files>(
    alloc: Global,
    words: &CallWords<'_>,
    image: &str,
    proof: &str,
    files: &mut F,
) -> Result<Report, Halt>
    ensures finds { let words = words.now in ForSome (F.contents files.old) (λ told.
        Finds (audited_answer words.program.now words.role.now image.now words.argument.now words.fuel.now proof.now told) result) }
    ensures ending { IfOk result (λ report. MayAnswer Audit (ending_status report.ending)) }
    ensures reached { let words = words.now in FaultsAtReached (audited_answer words.program.now words.role.now image.now words.argument.now words.fuel.now proof.now) (F.contents files.old) (F.asked files.new) result }
    ensures cause { JudgementCause (F.faults files.old) (F.faults files.new) result }
    ensures stores { F.stores files.new ≡ F.stores files.old }
    ensures store_faults { F.store_faults files.new ≡ F.store_faults files.old }
{
    let code = read_code(alloc, files, words.program)?;
    audit_named(alloc, files, &code, words, image, proof)
}

/// The same of the code of a program.
fn audit_named<F: Files>(
    alloc: Global,
    files: &mut F,
    code: &Code,
    words: &CallWords<'_>,
    image: &str,
    proof: &str,
) -> Result<Report, Halt>
    ensures finds { let words = words.now in let p = named_of (program_in code.now) in ForSome (F.contents files.old) (λ told.
        Finds (audited_behind words.role.now image.now words.argument.now words.fuel.now proof.now p told) result) }
    ensures ending { IfOk result (λ report. MayAnswer Audit (ending_status report.ending)) }
    ensures reached { let words = words.now in let p = named_of (program_in code.now) in
        FaultsAtReached (audited_behind words.role.now image.now words.argument.now words.fuel.now proof.now p) (F.contents files.old) (F.asked files.new) result }
    ensures cause { JudgementCause (F.faults files.old) (F.faults files.new) result }
    ensures stores { F.stores files.new ≡ F.stores files.old }
    ensures store_faults { F.store_faults files.new ≡ F.store_faults files.old }
{
    let program = code.program();
    let call = read_named_call(alloc, files, program, Callee::OfState, words, image)?;
    files.start(proof)?;
    audit_started(alloc, files, code, call)
}

/// Audits the proof that was started.
fn audit_started<F: Files>(
    alloc: Global,
    files: &mut F,
    code: &Code,
    call: IdealCall,
) -> Result<Report, Halt>
    requires { (callee : Callee) × CallsOnStates callee × HoldsSome callee (program_in code.now) call }
    ensures finds { (callee : Callee) (ideal : meant.IdealCall) → CallsOnStates callee → HoldsCall callee (program_in code.now) call ideal
        → ForSome (F.left files.old) (λ bytes. Finds (Some (call_audit_answer ideal bytes)) result) }
    ensures ending { IfOk result (λ report. MayAnswer Audit (ending_status report.ending)) }
    ensures asked { F.asked files.new ≡ F.asked files.old }
    ensures cause { JudgementCause (F.faults files.old) (F.faults files.new) result }
    ensures stores { F.stores files.new ≡ F.stores files.old }
    ensures store_faults { F.store_faults files.new ≡ F.store_faults files.old }
{
    let called = call.called;
    let audited = audit_call::<F>(alloc, files, code, call)?;
    report_audit(alloc, code.program(), &called, audited)
}

/// What the audit of a proof of a call comes to.
fn audit_call<F: Files>(
    alloc: Global,
    files: &mut F,
    code: &Code,
    call: IdealCall,
) -> Result<Audited, AuditFault>
    requires { (callee : Callee) × CallsOnStates callee × HoldsSome callee (program_in code.now) call }
    ensures audit { let p = program_in code.now in (callee : Callee) (ideal : meant.IdealCall) → CallsOnStates callee → HoldsCall callee p call ideal
        → ForSome (F.left files.old) (λ bytes. TellsAudit (meaning p) call.called.function.0 (call_audit ideal bytes) result) }
    ensures cause { AuditCause (F.faults files.old) (F.faults files.new) result }
    ensures asked { F.asked files.new ≡ F.asked files.old }
    ensures stores { F.stores files.new ≡ F.stores files.old }
    ensures store_faults { F.store_faults files.new ≡ F.store_faults files.old }
{
    let mut store = call.store;
    let CalledRole { function, fuel, .. } = call.called;
    audit::<Sha, F, Store>(
        alloc,
        code,
        &mut store,
        function,
        call.state,
        call.argument,
        fuel,
        files,
    )
}

/// The report of what an audit of a proof of a call of this role came to.
fn report_audit(
    alloc: Global,
    program: &Program,
    called: &CalledRole,
    audited: Audited,
) -> Result<Report, Halt>
    requires { (callee : Callee) × IsCalled callee program.now called.now }
    ensures finds { (audit : audits.Audit) → TellsAudit (meaning program.now) called.now.function.0 audit (Ok audited)
        → WithoutFiles (Finds (Some (audit_told (role_of program.now called.now) audit))) result }
    ensures faults { (count : ℕ) → JudgementCause count count result }
    ensures ending { IfOk result (λ report. MayAnswer Audit (ending_status report.ending)) }
{
    match audited {
        Audited::Agrees(outcome) => Ok(agreement(alloc, program, called, &outcome)?),
        Audited::Collision(collision) => Ok(report_collision(alloc, &collision)?),
        Audited::Rejected(cause) => Err(Halt::Refused(Refusal::Proof(Rejection::Cause(cause)))),
    }
}

/// The report of an audit that agrees on an outcome.
fn agreement(
    alloc: Global,
    program: &Program,
    called: &CalledRole,
    outcome: &Outcome<Spelling>,
) -> Result<Report, AllocError>
    requires { (callee : Callee) × IsCalled callee program.now called.now }
    ensures ending { IfOk result (λ report. IsOutcome (ending_status report.ending)) }
    ensures reports { IfOk result (ReportsAgreement (role_of program.now called.now) outcome.now) }
{
    let report = outcome_report(alloc, program, called, outcome)?;
    let text = agrees_line(alloc, &report.text)?;
    let ending = report.ending;
    Ok(Report { ending, text })
}

/// The report of a collision.
fn report_collision(alloc: Global, collision: &Collision) -> Result<Report, AllocError>
    ensures ending { IfOk result (λ report. report.ending ≡ Ending.Collision) }
    ensures line { IfOk result (λ report. report.text.items ≡ lines.collision_line collision.now.place collision.now.offered collision.now.honest (option_map (λ (digest : Digest). digest.0) collision.now.print)) }
{
    let offered = collision.offered.as_bytes();
    let honest = collision.honest.as_bytes();
    let text = collision_line(alloc, collision.place, offered, honest, collision.print)?;
    Ok(Report {
        ending: Ending::Collision,
        text,
    })
}
