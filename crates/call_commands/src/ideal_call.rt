// The command `ideal`.
ghost use Rattle.std.specs.Prelude.{◌≡◌, Some, length, IfOk};
ghost use Rattle.std.specs.Option.{ForSome};
ghost use Rattle.command_words.specs.Commands.{texts};
ghost use Rattle.command_words.specs.declared.command.Command.TheVariants.{Ideal};
ghost use Rattle.code_gen.specs.Programs.{program_in};
ghost use Rattle.command_parts.specs.ReachingInCode.{FaultsAtReached, ReachedAt};
ghost use Rattle.command_parts.specs.Answer.{answer_with, ideal_answer};
ghost use Rattle.command_parts.specs.OutcomeAnswers.{role_answer};
ghost use Rattle.command_parts.specs.RoleInputs.{with_ended_call};
ghost use Rattle.command_parts.specs.Ending.{EndsAs};
ghost use Rattle.command_parts.specs.Outsides.{outside};
ghost use Rattle.command_parts.specs.Halting.{Finds, HaltCause, ending_status};
ghost use Rattle.command_parts.specs.ReadPrograms.{named_of};
ghost use Rattle.command_parts.specs.SoundPrograms.{IsOutcome};
ghost use Rattle.command_parts.specs.Statuses.{MayAnswer};
ghost use Rattle.command_parts.specs.declared.roles.Callee.TheVariants as callee;

use code_gen::Code;
use command_parts::{
    CallWords, Callee, Halt, Report, Status, call_role, read_code, role_report, tell,
};
use lam_outside::{Files, Sink};
use std::alloc::Global;

/// Runs a query or an update on the state in an image, and tells the projection of its result, or the trap or the want of fuel. The words behind the command are
/// `P ROLE IMG ARG FUEL`.
pub fn ideal_command<F: Files, O: Sink>(
    alloc: Global,
    words: &[&str],
    files: &mut F,
    out: &mut O,
) -> Status
    requires { length words.now ≡ 5 }
    ensures ends { let seen = outside F.contents F.stores F.faults F.store_faults O.written O.faults in
        EndsAs (answer_with Ideal (texts words.now)) (seen files.old out.old) (seen files.new out.new) result }
    ensures reached { ReachedAt result (answer_with Ideal (texts words.now)) (F.contents files.old) (F.asked files.new) }
    ensures possible { MayAnswer Ideal result }
{
    let [program, role, image, argument, fuel] = words else {
        unreachable!()
    };
    let words = CallWords {
        program,
        role,
        argument,
        fuel,
    };
    let found = find_ideal(alloc, &words, image, files);
    tell(alloc, out, found)
}

/// What is found of a program and a query or an update: how it ends on the state in an image.
fn find_ideal<F: Files>(
    alloc: Global,
    words: &CallWords<'_>,
    image: &str,
    files: &mut F,
) -> Result<Report, Halt>
    ensures finds { let words = words.now in ForSome (F.contents files.old) (λ told.
        Finds (ideal_answer words.program.now words.role.now image.now words.argument.now words.fuel.now told) result) }
    ensures ending { IfOk result (λ report. IsOutcome (ending_status report.ending)) }
    ensures reached { let words = words.now in FaultsAtReached (ideal_answer words.program.now words.role.now image.now words.argument.now words.fuel.now) (F.contents files.old) (F.asked files.new) result }
    ensures cause { HaltCause (F.faults files.old) (F.faults files.new) result }
    ensures stores { F.stores files.new ≡ F.stores files.old }
    ensures store_faults { F.store_faults files.new ≡ F.store_faults files.old }
{
    let code = read_code(alloc, files, words.program)?;
    tell_ideal(alloc, files, &code, words, image)
}

/// The same of the code of a program.
fn tell_ideal<F: Files>(
    alloc: Global,
    files: &mut F,
    code: &Code,
    words: &CallWords<'_>,
    image: &str,
) -> Result<Report, Halt>
    ensures finds { let words = words.now in let p = program_in code.now in ForSome (F.contents files.old) (λ told. Finds
        (with_ended_call callee.OfState (named_of p) words.role.now image.now words.argument.now words.fuel.now told (λ ended. Some (role_answer ended))) result) }
    ensures ending { IfOk result (λ report. IsOutcome (ending_status report.ending)) }
    ensures reached { let words = words.now in let p = program_in code.now in FaultsAtReached
        (λ told. with_ended_call callee.OfState (named_of p) words.role.now image.now words.argument.now words.fuel.now told (λ ended. Some (role_answer ended))) (F.contents files.old) (F.asked files.new) result }
    ensures cause { HaltCause (F.faults files.old) (F.faults files.new) result }
    ensures stores { F.stores files.new ≡ F.stores files.old }
    ensures store_faults { F.store_faults files.new ≡ F.store_faults files.old }
{
    let ended = call_role(alloc, files, code, Callee::OfState, words, image)?;
    Ok(role_report(alloc, code.program(), &ended)?)
}
