// The command `step`.
ghost use Rattle.std.specs.Prelude.{◌≡◌, ℕ, List, Some, length, IfOk};
ghost use Rattle.std.specs.Option.{ForSome};
ghost use Rattle.command_words.specs.Commands.{texts};
ghost use Rattle.command_words.specs.declared.command.Command.TheVariants.{Step};
ghost use Rattle.code_gen.specs.Programs.{program_in};
ghost use Rattle.command_parts.specs.ReachingInCode.{FaultsAtReached, ReachedAt};
ghost use Rattle.command_parts.specs.Answer.{answer_with, stepped_answer};
ghost use Rattle.command_parts.specs.OutcomeAnswers.{storing_answer};
ghost use Rattle.command_parts.specs.RoleInputs.{with_ended_call};
ghost use Rattle.command_parts.specs.Ending.{EndsAs};
ghost use Rattle.command_parts.specs.Outsides.{outside};
ghost use Rattle.command_parts.specs.Halting.{HaltCause, ending_status};
ghost use Rattle.command_parts.specs.ReadPrograms.{named_of};
ghost use Rattle.command_parts.specs.SoundPrograms.{IsOutcome};
ghost use Rattle.command_parts.specs.Statuses.{MayAnswer};
ghost use Rattle.command_parts.specs.Storing.{FindsOutput};
ghost use Rattle.command_parts.specs.declared.roles.Callee.TheVariants as callee;

use code_gen::Code;
use command_parts::{
    CallWords, Callee, Halt, Output, Status, call_role, read_code, role_output, store_and_tell,
};
use lam_outside::{Files, Sink};
use std::alloc::Global;

/// Runs an update on the state in an image, stores the image of the new state, and tells the projection of the result; or tells the trap or
/// the want of fuel. The words behind the command are
/// `P ROLE IMG ARG FUEL OUT`.
pub fn step_command<F: Files, O: Sink>(
    alloc: Global,
    words: &[&str],
    files: &mut F,
    out: &mut O,
) -> Status
    requires { length words.now ≡ 6 }
    ensures ends { let seen = outside F.contents F.stores F.faults F.store_faults O.written O.faults in
        EndsAs (answer_with Step (texts words.now)) (seen files.old out.old) (seen files.new out.new) result }
    ensures reached { ReachedAt result (answer_with Step (texts words.now)) (F.contents files.old) (F.asked files.new) }
    ensures possible { MayAnswer Step result }
{
    let [program, role, image, argument, fuel, name] = words else {
        unreachable!()
    };
    let words = CallWords {
        program,
        role,
        argument,
        fuel,
    };
    let found = find_step(alloc, &words, image, files);
    store_and_tell(alloc, name, files, out, found)
}

/// What is found of a program and an update: how it ends on the state in an image.
fn find_step<F: Files>(
    alloc: Global,
    words: &CallWords<'_>,
    image: &str,
    files: &mut F,
) -> Result<Output, Halt>
    ensures finds { let words = words.now in (name : List ℕ) → ForSome (F.contents files.old) (λ told.
        FindsOutput name (stepped_answer words.program.now words.role.now image.now words.argument.now words.fuel.now name told) result) }
    ensures ending { IfOk result (λ output. IsOutcome (ending_status output.report.ending)) }
    ensures reached { let words = words.now in (name : List ℕ) → FaultsAtReached (stepped_answer words.program.now words.role.now image.now words.argument.now words.fuel.now name) (F.contents files.old) (F.asked files.new) result }
    ensures cause { HaltCause (F.faults files.old) (F.faults files.new) result }
    ensures stores { F.stores files.new ≡ F.stores files.old }
    ensures store_faults { F.store_faults files.new ≡ F.store_faults files.old }
{
    let code = read_code(alloc, files, words.program)?;
    step_state(alloc, files, &code, words, image)
}

/// The same of the code of a program.
fn step_state<F: Files>(
    alloc: Global,
    files: &mut F,
    code: &Code,
    words: &CallWords<'_>,
    image: &str,
) -> Result<Output, Halt>
    ensures finds { let words = words.now in let p = program_in code.now in (name : List ℕ) → ForSome (F.contents files.old) (λ told. FindsOutput name
        (with_ended_call callee.Update (named_of p) words.role.now image.now words.argument.now words.fuel.now told (λ ended. Some (storing_answer ended name))) result) }
    ensures ending { IfOk result (λ output. IsOutcome (ending_status output.report.ending)) }
    ensures reached { let words = words.now in let p = program_in code.now in (name : List ℕ) → FaultsAtReached
        (λ told. with_ended_call callee.Update (named_of p) words.role.now image.now words.argument.now words.fuel.now told (λ ended. Some (storing_answer ended name))) (F.contents files.old) (F.asked files.new) result }
    ensures cause { HaltCause (F.faults files.old) (F.faults files.new) result }
    ensures stores { F.stores files.new ≡ F.stores files.old }
    ensures store_faults { F.store_faults files.new ≡ F.store_faults files.old }
{
    let ended = call_role(alloc, files, code, Callee::Update, words, image)?;
    role_output(alloc, code.program(), &ended)
}
