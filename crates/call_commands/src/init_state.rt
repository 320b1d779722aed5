// The command `init`.
ghost use Rattle.std.specs.Prelude.{◌≡◌, ℕ, List, Some, length, IfOk};
ghost use Rattle.std.specs.Option.{ForSome};
ghost use Rattle.command_words.specs.Commands.{texts};
ghost use Rattle.command_words.specs.declared.command.Command.TheVariants.{Init};
ghost use Rattle.code_gen.specs.Programs.{program_in};
ghost use Rattle.command_parts.specs.ReachingInCode.{FaultsAtReached, ReachedAt};
ghost use Rattle.command_parts.specs.Answer.{answer_with, initial_answer};
ghost use Rattle.command_parts.specs.OutcomeAnswers.{storing_answer};
ghost use Rattle.command_parts.specs.RoleInputs.{with_ended_init};
ghost use Rattle.command_parts.specs.Ending.{EndsAs};
ghost use Rattle.command_parts.specs.Outsides.{outside};
ghost use Rattle.command_parts.specs.Halting.{HaltCause, InHand, ending_status};
ghost use Rattle.command_parts.specs.ReadPrograms.{named_of};
ghost use Rattle.command_parts.specs.SoundPrograms.{IsOutcome};
ghost use Rattle.command_parts.specs.Statuses.{MayAnswer};
ghost use Rattle.command_parts.specs.Storing.{FindsOutput};

use code_gen::Code;
use command_parts::{
    CallWords, Halt, Output, Status, call_init, read_code, role_output, store_and_tell,
};
use lam_outside::{Files, Sink};
use std::alloc::Global;

/// Makes a state, stores its image, and tells its projection; or tells the trap or the want of fuel. The words behind the command are
/// `P ROLE ARG FUEL OUT`.
pub fn init_command<F: Files, O: Sink>(
    alloc: Global,
    words: &[&str],
    files: &mut F,
    out: &mut O,
) -> Status
    requires { length words.now ≡ 5 }
    ensures ends { let seen = outside F.contents F.stores F.faults F.store_faults O.written O.faults in
        EndsAs (answer_with Init (texts words.now)) (seen files.old out.old) (seen files.new out.new) result }
    ensures reached { ReachedAt result (answer_with Init (texts words.now)) (F.contents files.old) (F.asked files.new) }
    ensures possible { MayAnswer Init result }
{
    let [program, role, argument, fuel, name] = words else {
        unreachable!()
    };
    let words = CallWords {
        program,
        role,
        argument,
        fuel,
    };
    let found = find_initial(alloc, &words, files);
    store_and_tell(alloc, name, files, out, found)
}

/// What is found of a program and an init: the state that it makes.
fn find_initial<F: Files>(
    alloc: Global,
    words: &CallWords<'_>,
    files: &mut F,
) -> Result<Output, Halt>
    ensures finds { let words = words.now in (name : List ℕ) → ForSome (F.contents files.old) (λ told.
        FindsOutput name (initial_answer words.program.now words.role.now words.argument.now words.fuel.now name told) result) }
    ensures ending { IfOk result (λ output. IsOutcome (ending_status output.report.ending)) }
    ensures reached { let words = words.now in (name : List ℕ) → FaultsAtReached (initial_answer words.program.now words.role.now words.argument.now words.fuel.now name) (F.contents files.old) (F.asked files.new) result }
    ensures cause { HaltCause (F.faults files.old) (F.faults files.new) result }
    ensures stores { F.stores files.new ≡ F.stores files.old }
    ensures store_faults { F.store_faults files.new ≡ F.store_faults files.old }
{
    let code = read_code(alloc, files, words.program)?;
    make_state(alloc, &code, words)
}

/// What an init of a program gives.
fn make_state(alloc: Global, code: &Code, words: &CallWords<'_>) -> Result<Output, Halt>
    ensures finds { let words = words.now in (name : List ℕ) → InHand (FindsOutput name
        (with_ended_init (named_of (program_in code.now)) words.role.now words.argument.now words.fuel.now (λ ended. Some (storing_answer ended name)))) result }
    ensures ending { IfOk result (λ output. IsOutcome (ending_status output.report.ending)) }
{
    let ended = call_init(alloc, code, words)?;
    role_output(alloc, code.program(), &ended)
}
