// The command `prove`.
ghost use Rattle.std.specs.Prelude.{◌≡◌, ◌≤◌, ℕ, List, IfOk, length};
ghost use Rattle.std.specs.Option.{ForSome};
ghost use Rattle.command_words.specs.Commands.{texts};
ghost use Rattle.command_words.specs.declared.command.Command.TheVariants.{Prove};
ghost use Rattle.code_gen.specs.Programs.{program_in};
ghost use Rattle.command_parts.specs.Answer.{answer_with, proof_answer, proved_answer};
ghost use Rattle.command_parts.specs.CallsInStores.{HoldsCall, HoldsSome};
ghost use Rattle.call_commands.specs.AnswersBehind.{proved_behind};
ghost use Rattle.command_parts.specs.Ending.{EndsAs};
ghost use Rattle.command_parts.specs.Outsides.{outside};
ghost use Rattle.command_parts.specs.Halting.{HaltCause, ending_status};
ghost use Rattle.command_parts.specs.IdealCalls as meant;
ghost use Rattle.command_parts.specs.ReachingInCode.{FaultsAtReached, ReachedAt};
ghost use Rattle.command_parts.specs.ReadPrograms.{named_of};
ghost use Rattle.command_parts.specs.Reporting.{ReportsProof};
ghost use Rattle.command_parts.specs.RolesCalled.{CallsOnStates, IsCalled, role_of};
ghost use Rattle.command_parts.specs.SoundPrograms.{IsOutcome};
ghost use Rattle.command_parts.specs.Statuses.{MayAnswer};
ghost use Rattle.command_parts.specs.Storing.{FindsOutput, IsOutput};
ghost use Rattle.command_parts.specs.declared.roles.Callee.{Callee};

use code_gen::Code;
use command_parts::{
    CallWords, CalledRole, Callee, Halt, IdealCall, Output, Report, Status, called_role,
    kept_named, outcome_report, read_code, read_ideal_call, store_and_tell,
};
use core_terms::Program;
use digest_layer::Sha;
use lam_outside::{Files, Sink};
use printed_lines::lines::proof_line;
use prover_mode::{Proved, prove_file};
use std::alloc::{AllocError, Global};
use value_store::Store;

/// Proves a call of a query or an update, stores the proof file, and tells the outcome and what the proof has. The words behind the
/// command are `P ROLE IMG ARG FUEL N OUT`.
pub fn prove_command<F: Files, O: Sink>(
    alloc: Global,
    words: &[&str],
    files: &mut F,
    out: &mut O,
) -> Status
    requires { length words.now ≡ 7 }
    ensures ends { let seen = outside F.contents F.stores F.faults F.store_faults O.written O.faults in
        EndsAs (answer_with Prove (texts words.now)) (seen files.old out.old) (seen files.new out.new) result }
    ensures reached { ReachedAt result (answer_with Prove (texts words.now)) (F.contents files.old) (F.asked files.new) }
    ensures possible { MayAnswer Prove result }
{
    let [program, role, image, argument, fuel, kept, name] = words else {
        unreachable!()
    };
    let words = CallWords {
        program,
        role,
        argument,
        fuel,
    };
    let found = find_proof(alloc, &words, image, kept, files);
    store_and_tell(alloc, name, files, out, found)
}

/// What is found of a program, a call and the number of pieces that are kept: the proof.
fn find_proof<F: Files>(
    alloc: Global,
    words: &CallWords<'_>,
    image: &str,
    kept: &str,
    files: &mut F,
) -> Result<Output, Halt>
    ensures finds { let words = words.now in (name : List ℕ) → ForSome (F.contents files.old) (λ told.
        FindsOutput name (proved_answer words.program.now words.role.now image.now words.argument.now words.fuel.now kept.now name told) result) }
    ensures ending { IfOk result (λ output. IsOutcome (ending_status output.report.ending)) }
    ensures reached { let words = words.now in (name : List ℕ) → FaultsAtReached (proved_answer words.program.now words.role.now image.now words.argument.now words.fuel.now kept.now name) (F.contents files.old) (F.asked files.new) result }
    ensures cause { HaltCause (F.faults files.old) (F.faults files.new) result }
    ensures stores { F.stores files.new ≡ F.stores files.old }
    ensures store_faults { F.store_faults files.new ≡ F.store_faults files.old }
{
    let code = read_code(alloc, files, words.program)?;
    prove_named(alloc, files, &code, words, image, kept)
}

/// The same of the code of a program. The image is opened when the numbers are well-formed.
fn prove_named<F: Files>(
    alloc: Global,
    files: &mut F,
    code: &Code,
    words: &CallWords<'_>,
    image: &str,
    kept: &str,
) -> Result<Output, Halt>
    ensures finds { let words = words.now in let p = named_of (program_in code.now) in (name : List ℕ) → ForSome (F.contents files.old) (λ told.
        FindsOutput name (proved_behind words.role.now image.now words.argument.now words.fuel.now kept.now name p told) result) }
    ensures ending { IfOk result (λ output. IsOutcome (ending_status output.report.ending)) }
    ensures reached { let words = words.now in let p = named_of (program_in code.now) in (name : List ℕ) →
        FaultsAtReached (proved_behind words.role.now image.now words.argument.now words.fuel.now kept.now name p) (F.contents files.old) (F.asked files.new) result }
    ensures cause { HaltCause (F.faults files.old) (F.faults files.new) result }
    ensures stores { F.stores files.new ≡ F.stores files.old }
    ensures store_faults { F.store_faults files.new ≡ F.store_faults files.old }
{
    let program = code.program();
    let called = called_role(program, Callee::OfState, words.role, words.fuel)?;
    let kept = kept_named(program, kept)?;
    let call = read_ideal_call(alloc, files, program, called, image, words.argument)?;
    Ok(make_proof(alloc, code, call, kept)?)
}

/// The proof file of a call, where so many pieces are kept, and the lines that tell it.
fn make_proof(alloc: Global, code: &Code, call: IdealCall, kept: u16) -> Result<Output, AllocError>
    requires called { (callee : Callee) × CallsOnStates callee × HoldsSome callee (program_in code.now) call }
    requires fits { kept ≤ 1024 }
    ensures ending { IfOk result (λ output. IsOutcome (ending_status output.report.ending)) }
    ensures output { let p = program_in code.now in IfOk result (λ output. (callee : Callee) (ideal : meant.IdealCall) → CallsOnStates callee → HoldsCall callee p call ideal
        → (name : List ℕ) → IsOutput (proof_answer ideal kept name) name output) }
{
    let mut store = call.store;
    let CalledRole { function, fuel, .. } = call.called;
    let proof = prove_file::<Sha, Store>(
        alloc,
        code,
        &mut store,
        function,
        call.state,
        call.argument,
        fuel,
        kept,
    )?;
    let (proved, file) = proof;
    let report = proof_report(alloc, code.program(), &call.called, &proved, file.len())?;
    let file = Some(file);
    Ok(Output { report, file })
}

/// The report of a proof of so many bytes: the line of the outcome, and that of the proof.
fn proof_report(
    alloc: Global,
    program: &Program,
    called: &CalledRole,
    proved: &Proved,
    bytes: usize,
) -> Result<Report, AllocError>
    requires { (callee : Callee) × IsCalled callee program.now called.now }
    ensures ending { IfOk result (λ report. IsOutcome (ending_status report.ending)) }
    ensures reports { IfOk result (ReportsProof (role_of program.now called.now) proved.now bytes) }
{
    let line = proof_line(alloc, proved.fresh, proved.again, bytes)?;
    let mut report = outcome_report(alloc, program, called, &proved.outcome)?;
    report.text.extend_from_slice(&line)?;
    Ok(report)
}
