// The command `fetch`.
ghost use Rattle.std.specs.Prelude.{◌≡◌, Some, IfOk, length};
ghost use Rattle.std.specs.Option.{ForSome};
ghost use Rattle.command_words.specs.Commands.{texts};
ghost use Rattle.command_words.specs.declared.command.Command.TheVariants.{Fetch};
ghost use Rattle.core_terms.specs.Programs.{meaning};
ghost use Rattle.code_gen.specs.Programs.{program_in};
ghost use Rattle.piece_mirror.specs.Tables.{bytes_of};
ghost use Rattle.command_parts.specs.Answer.{answer_with, fetched_answer, fetched_verdict, mirrored_answer};
ghost use Rattle.command_parts.specs.Ending.{EndsAs};
ghost use Rattle.command_parts.specs.Outsides.{outside};
ghost use Rattle.command_parts.specs.FetchedCalls.{TellsVerdict};
ghost use Rattle.call_commands.specs.AnswersBehind.{fetched_behind};
ghost use Rattle.command_parts.specs.Halting.{Finds, JudgementCause, WithoutFiles, ending_status};
ghost use Rattle.command_parts.specs.ReachingInCode.{FaultsAtReached, ReachedAt};
ghost use Rattle.command_parts.specs.ReadPrograms.{named_of};
ghost use Rattle.command_parts.specs.RoleCalls.{result_called};
ghost use Rattle.command_parts.specs.RolesCalled.{IsCalled, role_of};
ghost use Rattle.command_parts.specs.RolesJudged.{call_meant};
ghost use Rattle.command_parts.specs.SoundPrograms.{IsOutcome};
ghost use Rattle.command_parts.specs.Statuses.{MayAnswer};
ghost use Rattle.command_parts.specs.declared.roles.Callee.TheVariants.{OfState};

use code_gen::Code;
use command_parts::{
    CallWords, CalledRole, Callee, Halt, Report, RoleCall, Status, load_mirror_file, read_code,
    read_role_call, tell, verdict_report,
};
use core_terms::{Outcome, Spelling};
use digest_layer::Sha;
use lam_outside::{Files, Sink};
use piece_fetch::{FetchVerdict, verify_from};
use piece_mirror::Mirror;
use std::alloc::Global;

/// The words behind the command: those of a call, and the files of its state and of a mirror.
#[derive(Clone, Copy)]
pub struct FetchWords<'a> {
    pub call: CallWords<'a>,
    pub state: &'a str,
    pub mirror: &'a str,
}

/// Judges a call of a query or an update, whose pieces a mirror gives, and tells the outcome. The words behind the command are
/// `P ROLE STATE ARG FUEL MIRROR`.
pub fn fetch_command<F: Files, O: Sink>(
    alloc: Global,
    words: &[&str],
    files: &mut F,
    out: &mut O,
) -> Status
    requires { length words.now ≡ 6 }
    ensures ends { let seen = outside F.contents F.stores F.faults F.store_faults O.written O.faults in
        EndsAs (answer_with Fetch (texts words.now)) (seen files.old out.old) (seen files.new out.new) result }
    ensures reached { ReachedAt result (answer_with Fetch (texts words.now)) (F.contents files.old) (F.asked files.new) }
    ensures possible { MayAnswer Fetch result }
{
    let [program, role, state, argument, fuel, mirror] = words else {
        unreachable!()
    };
    let words = FetchWords {
        call: CallWords {
            program,
            role,
            argument,
            fuel,
        },
        state,
        mirror,
    };
    let found = find_fetched(alloc, &words, files);
    tell(alloc, out, found)
}

/// What is found of a call and a mirror, which is read when all else is well-formed.
fn find_fetched<F: Files>(
    alloc: Global,
    words: &FetchWords<'_>,
    files: &mut F,
) -> Result<Report, Halt>
    ensures finds { let words = words.now in ForSome (F.contents files.old) (λ told.
        Finds (fetched_answer words.call.program.now words.call.role.now words.state.now words.call.argument.now words.call.fuel.now words.mirror.now told) result) }
    ensures ending { IfOk result (λ report. IsOutcome (ending_status report.ending)) }
    ensures reached { let words = words.now in FaultsAtReached
        (fetched_answer words.call.program.now words.call.role.now words.state.now words.call.argument.now words.call.fuel.now words.mirror.now) (F.contents files.old) (F.asked files.new) result }
    ensures cause { JudgementCause (F.faults files.old) (F.faults files.new) result }
    ensures stores { F.stores files.new ≡ F.stores files.old }
    ensures store_faults { F.store_faults files.new ≡ F.store_faults files.old }
{
    let code = read_code(alloc, files, words.call.program)?;
    fetch_named(alloc, files, &code, words)
}

/// The same of the code of a program.
fn fetch_named<F: Files>(
    alloc: Global,
    files: &mut F,
    code: &Code,
    words: &FetchWords<'_>,
) -> Result<Report, Halt>
    ensures finds { let p = named_of (program_in code.now) in
        ForSome (F.contents files.old) (λ told. Finds (fetched_behind p words.now told) result) }
    ensures ending { IfOk result (λ report. IsOutcome (ending_status report.ending)) }
    ensures reached { let p = named_of (program_in code.now) in FaultsAtReached (fetched_behind p words.now) (F.contents files.old) (F.asked files.new) result }
    ensures cause { JudgementCause (F.faults files.old) (F.faults files.new) result }
    ensures stores { F.stores files.new ≡ F.stores files.old }
    ensures store_faults { F.store_faults files.new ≡ F.store_faults files.old }
{
    let program = code.program();
    let call = read_role_call(
        alloc,
        files,
        program,
        Callee::OfState,
        &words.call,
        words.state,
    )?;
    let mut mirror = load_mirror_file(alloc, files, words.mirror)?;
    fetch_from(alloc, code, &call, &mut mirror)
}

/// The report of a call whose pieces a mirror gives.
fn fetch_from(
    alloc: Global,
    code: &Code,
    call: &RoleCall,
    mirror: &mut Mirror<Sha>,
) -> Result<Report, Halt>
    requires { IsCalled OfState (program_in code.now) call.now.called }
    ensures finds { WithoutFiles (Finds (Some (mirrored_answer (call_meant (program_in code.now) call.now) (bytes_of mirror.old.pieces)))) result }
    ensures ending { IfOk result (λ report. IsOutcome (ending_status report.ending)) }
{
    let judged = fetched_outcome(alloc, code, call, mirror);
    verdict_report(alloc, code.program(), &call.called, judged)
}

/// The verdict on a call whose pieces a mirror gives.
fn fetched_outcome(
    alloc: Global,
    code: &Code,
    call: &RoleCall,
    mirror: &mut Mirror<Sha>,
) -> Result<Outcome<Spelling>, FetchVerdict>
    requires { IsCalled OfState (program_in code.now) call.now.called }
    ensures { let p = program_in code.now in
        TellsVerdict (meaning p) (result_called (role_of p call.now.called)) (fetched_verdict (call_meant p call.now) (bytes_of mirror.old.pieces)) result }
{
    let CalledRole { function, fuel, .. } = call.called;
    verify_from::<Sha, Mirror<Sha>>(
        alloc,
        code,
        function,
        &call.state,
        call.argument.as_bytes(),
        fuel,
        mirror,
    )
}
