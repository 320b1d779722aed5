// The command `verify`.
ghost use Rattle.std.specs.Prelude.{◌≡◌, ◌≤◌, ℕ, List, Option, Some, IfOk, length};
ghost use Rattle.std.specs.Option.{ForSome};
ghost use Rattle.command_words.specs.Commands.{texts};
ghost use Rattle.command_words.specs.declared.command.Command.TheVariants.{Verify};
ghost use Rattle.core_terms.specs.Programs.{meaning};
ghost use Rattle.code_gen.specs.Programs.{program_in};
ghost use Rattle.ideal_meaning.specs.Ideal as meant;
ghost use Rattle.verifier_mode.specs.Verdicts.{AnswersVerdict, TellsSomeOutcome, VerdictCause};
ghost use Rattle.ideal_meaning.specs.SpelledOutcomes.{SpellsOutcome};
ghost use Rattle.command_parts.specs.ReachingInCode.{FaultsAtReached, ReachedAt};
ghost use Rattle.command_parts.specs.Answer.{answer_with, verified_answer};
ghost use Rattle.command_parts.specs.AcceptedAnswers.{accepted_answer, callee_of, spelling_stored, shallow_told};
ghost use Rattle.command_parts.specs.RoleInputs.{role_verdict};
ghost use Rattle.command_parts.specs.AnswerForms.{says};
ghost use Rattle.command_parts.specs.Ending.{EndsAs};
ghost use Rattle.command_parts.specs.Outsides.{outside};
ghost use Rattle.command_parts.specs.Halting.{JudgementCause, ending_status};
ghost use Rattle.command_parts.specs.ReadPrograms.{named_of};
ghost use Rattle.command_parts.specs.RoleCalls.{result_called};
ghost use Rattle.command_parts.specs.RolesCalled.{CallsOnStates, IsCalled, role_of};
ghost use Rattle.command_parts.specs.RolesJudged.{call_meant};
ghost use Rattle.call_commands.specs.AnswersBehind.{answer_behind, answer_to, name_of, out_of};
ghost use Rattle.command_parts.specs.SoundPrograms.{IsOutcome};
ghost use Rattle.command_parts.specs.Statuses.{MayAnswer};
ghost use Rattle.command_parts.specs.Storing.{FindsOutput, IsOutput, stored_as};
ghost use Rattle.command_parts.specs.declared.roles.Callee.{Callee};

use code_gen::Code;
use command_parts::{
    CallWords, CalledRole, Callee, Halt, Output, RoleCall, Status, outcome_report, read_code,
    read_role_call, store_and_tell,
};
use core_terms::{Outcome, Program, Spelling};
use digest_layer::Sha;
use lam_outside::{Files, Sink};
use shallow_codec::first_spelled;
use std::alloc::{AllocError, Global};
use verifier_mode::{Verdict, verify};

/// The words behind the command: those of a call, the files of its state and of its proof, and the name that the new state is stored under,
/// where there is one.
#[derive(Clone, Copy)]
pub struct VerifyWords<'a> {
    pub call: CallWords<'a>,
    pub state: &'a str,
    pub proof: &'a str,
    pub out: Option<&'a str>,
}

impl VerifyWords<'_> {
    /// The roles that are called.
    fn callee(&self) -> Callee
        ensures { result ≡ callee_of (out_of self.now) }
    {
        match self.out {
            Some(_) => Callee::Update,
            None => Callee::OfState,
        }
    }
}

/// Verifies a proof of a query or an update, and tells the outcome. The words behind the command are `P ROLE STATE ARG FUEL PROOF`, and
/// there may be `OUT` behind them: then the role is an update, and the spelling of the new state is stored where the outcome has one.
pub fn verify_command<F: Files, O: Sink>(
    alloc: Global,
    words: &[&str],
    files: &mut F,
    out: &mut O,
) -> Status
    requires least { 6 ≤ length words.now }
    requires most { length words.now ≤ 7 }
    ensures ends { let seen = outside F.contents F.stores F.faults F.store_faults O.written O.faults in
        EndsAs (answer_with Verify (texts words.now)) (seen files.old out.old) (seen files.new out.new) result }
    ensures reached { ReachedAt result (answer_with Verify (texts words.now)) (F.contents files.old) (F.asked files.new) }
    ensures possible { MayAnswer Verify result }
{
    let [program, role, state, argument, fuel, proof, ..] = words else {
        unreachable!()
    };
    let name = words.get(6).copied();
    let words = VerifyWords {
        call: CallWords {
            program,
            role,
            argument,
            fuel,
        },
        state,
        proof,
        out: name,
    };
    let found = find_verdict(alloc, &words, files);
    store_and_tell(alloc, name.unwrap_or(""), files, out, found)
}

/// What is found of a call and a proof: the proof file is opened when all else is well-formed.
fn find_verdict<F: Files>(
    alloc: Global,
    words: &VerifyWords<'_>,
    files: &mut F,
) -> Result<Output, Halt>
    ensures finds { ForSome (F.contents files.old) (λ told. FindsOutput (name_of (out_of words.now)) (answer_to words.now told) result) }
    ensures ending { IfOk result (λ output. IsOutcome (ending_status output.report.ending)) }
    ensures reached { FaultsAtReached (answer_to words.now) (F.contents files.old) (F.asked files.new) result }
    ensures cause { JudgementCause (F.faults files.old) (F.faults files.new) result }
    ensures stores { F.stores files.new ≡ F.stores files.old }
    ensures store_faults { F.store_faults files.new ≡ F.store_faults files.old }
{
    let code = read_code(alloc, files, words.call.program)?;
    find_judgement(alloc, files, &code, words)
}

/// The same of the code of a program.
fn find_judgement<F: Files>(
    alloc: Global,
    files: &mut F,
    code: &Code,
    words: &VerifyWords<'_>,
) -> Result<Output, Halt>
    ensures finds { let p = named_of (program_in code.now) in
        ForSome (F.contents files.old) (λ told. FindsOutput (name_of (out_of words.now)) (answer_behind p words.now told) result) }
    ensures ending { IfOk result (λ output. IsOutcome (ending_status output.report.ending)) }
    ensures reached { let p = named_of (program_in code.now) in FaultsAtReached (answer_behind p words.now) (F.contents files.old) (F.asked files.new) result }
    ensures cause { JudgementCause (F.faults files.old) (F.faults files.new) result }
    ensures stores { F.stores files.new ≡ F.stores files.old }
    ensures store_faults { F.store_faults files.new ≡ F.store_faults files.old }
{
    let callee = words.callee();
    let call = read_role_call(
        alloc,
        files,
        code.program(),
        callee,
        &words.call,
        words.state,
    )?;
    files.start(words.proof)?;
    judge_proof(alloc, files, code, &call, callee)
}

/// Judges the proof that was started. Where updates alone are called, the spelling of the new state is given too.
fn judge_proof<F: Files>(
    alloc: Global,
    files: &mut F,
    code: &Code,
    call: &RoleCall,
    callee: Callee,
) -> Result<Output, Halt>
    requires called { IsCalled callee (program_in code.now) call.now.called }
    requires reads { CallsOnStates callee }
    ensures finds { (out : Option (List ℕ)) → callee ≡ callee_of out → ForSome (F.left files.old) (λ bytes.
        FindsOutput (name_of out) (Some (verified_answer out (call_meant (program_in code.now) call.now) bytes)) result) }
    ensures ending { IfOk result (λ output. IsOutcome (ending_status output.report.ending)) }
    ensures cause { JudgementCause (F.faults files.old) (F.faults files.new) result }
    ensures asked { F.asked files.new ≡ F.asked files.old }
    ensures stores { F.stores files.new ≡ F.stores files.old }
    ensures store_faults { F.store_faults files.new ≡ F.store_faults files.old }
{
    let outcome = verdict_of::<F>(alloc, files, code, call)?;
    Ok(outcome_output(alloc, code.program(), &call.called, callee, &outcome)?)
}

/// The verifier's answer on a proof of a call.
#[tactic(auto, unfolding(command_parts::specs::RoleInputs::role_verdict))]
fn verdict_of<F: Files>(
    alloc: Global,
    files: &mut F,
    code: &Code,
    call: &RoleCall,
) -> Result<Outcome<Spelling>, Verdict>
    requires { (callee : Callee) × CallsOnStates callee × IsCalled callee (program_in code.now) call.now.called }
    ensures verdict { ForSome (F.left files.old) (λ bytes. let p = program_in code.now in
        AnswersVerdict (meaning p) call.now.called.function.0 (role_verdict (call_meant p call.now) bytes) result) }
    ensures told { let p = program_in code.now in IfOk result (TellsSomeOutcome (meaning p) (result_called (role_of p call.now.called))) }
    ensures cause { VerdictCause (F.faults files.old) (F.faults files.new) result }
    ensures asked { F.asked files.new ≡ F.asked files.old }
    ensures stores { F.stores files.new ≡ F.stores files.old }
    ensures store_faults { F.store_faults files.new ≡ F.store_faults files.old }
{
    let CalledRole { function, fuel, .. } = call.called;
    verify::<Sha, F>(
        alloc,
        code,
        function,
        &call.state,
        call.argument.as_bytes(),
        fuel,
        files,
    )
}

/// The report of an outcome that is accepted, and the spelling of the new state, where updates alone are called and one was made.
fn outcome_output(
    alloc: Global,
    program: &Program,
    called: &CalledRole,
    callee: Callee,
    outcome: &Outcome<Spelling>,
) -> Result<Output, AllocError>
    requires called { IsCalled callee program.now called.now }
    requires told { TellsSomeOutcome (meaning program.now) (result_called (role_of program.now called.now)) outcome.now }
    ensures ending { IfOk result (λ output. IsOutcome (ending_status output.report.ending)) }
    ensures finds { IfOk result (λ output. (out : Option (List ℕ)) (o : meant.Outcome) → callee ≡ callee_of out
        → SpellsOutcome (meaning program.now) (result_called (role_of program.now called.now)) o outcome.now
        → IsOutput (accepted_answer (role_of program.now called.now) out o) (name_of out) output) }
{
    let report = outcome_report(alloc, program, called, outcome)?;
    let file = match callee {
        Callee::Update => new_state(alloc, program, called, outcome)?,
        Callee::Init | Callee::OfState => None,
    };
    Ok(Output { report, file })
}

/// The spelling of the state that an update makes, where it makes one.
fn new_state(
    alloc: Global,
    program: &Program,
    called: &CalledRole,
    outcome: &Outcome<Spelling>,
) -> Result<Option<Vec<u8>>, AllocError>
    requires called { IsCalled Callee.Update program.now called.now }
    requires told { TellsSomeOutcome (meaning program.now) (result_called (role_of program.now called.now)) outcome.now }
    ensures { IfOk result (λ file. (name : List ℕ) (o : meant.Outcome) → SpellsOutcome (meaning program.now) (result_called (role_of program.now called.now)) o outcome.now
        → spelling_stored (role_of program.now called.now) (Some name) o ≡ stored_as name file) }
{
    match outcome {
        Outcome::Done(value) => {
            let state = first_spelled(alloc, program.types(), called.result, value.as_bytes())?;
            Ok(Some(state.into_bytes()))
        }
        Outcome::Trapped(_) | Outcome::Out => Ok(None),
    }
}
