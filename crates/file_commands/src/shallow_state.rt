// The command `shallow`.
ghost use Rattle.std.specs.Prelude.{◌≡◌, ℕ, List, IfOk, length};
ghost use Rattle.std.specs.Option.{ForSome};
ghost use Rattle.command_words.specs.Commands.{texts};
ghost use Rattle.command_words.specs.declared.command.Command.TheVariants.{Shallow};
ghost use Rattle.core_terms.specs.Programs.{meaning};
ghost use Rattle.core_terms.specs.Values.{Value};
ghost use Rattle.command_parts.specs.ReachingInCode.{FaultsAtReached, ReachedAt};
ghost use Rattle.command_parts.specs.Answer.{answer_with, spelled_answer};
ghost use Rattle.command_parts.specs.OutcomeAnswers.{state_answer};
ghost use Rattle.command_parts.specs.Ending.{EndsAs};
ghost use Rattle.command_parts.specs.Outsides.{outside};
ghost use Rattle.command_parts.specs.Halting.{HaltCause, ending_status};
ghost use Rattle.command_parts.specs.ReadPrograms.{named_of};
ghost use Rattle.command_parts.specs.Statuses.{MayAnswer};
ghost use Rattle.command_parts.specs.StoredStates.{IsStoredState};
ghost use Rattle.command_parts.specs.Storing.{FindsOutput, IsOutput};

use command_parts::{
    Ending, Halt, Output, Report, Status, load_image_file, read_program_file, store_and_tell,
};
use core_terms::Program;
use images::Loaded;
use lam_outside::{Files, Sink};
use printed_lines::lines::state_line;
use shallow_codec::spell;
use std::alloc::{AllocError, Global};

/// Stores the spelling of the projection of a state, and tells its value. The words behind the command are `P IMG OUT`.
pub fn shallow_command<F: Files, O: Sink>(
    alloc: Global,
    words: &[&str],
    files: &mut F,
    out: &mut O,
) -> Status
    requires { length words.now ≡ 3 }
    ensures ends { let seen = outside F.contents F.stores F.faults F.store_faults O.written O.faults in
        EndsAs (answer_with Shallow (texts words.now)) (seen files.old out.old) (seen files.new out.new) result }
    ensures reached { ReachedAt result (answer_with Shallow (texts words.now)) (F.contents files.old) (F.asked files.new) }
    ensures possible { MayAnswer Shallow result }
{
    let [program, image, name] = words else {
        unreachable!()
    };
    let found = find_state(alloc, program, image, files);
    store_and_tell(alloc, name, files, out, found)
}

/// What is found of an image: the projection of its state.
fn find_state<F: Files>(
    alloc: Global,
    program: &str,
    image: &str,
    files: &mut F,
) -> Result<Output, Halt>
    ensures finds { (name : List ℕ) → ForSome (F.contents files.old) (λ told. FindsOutput name (spelled_answer program.now image.now name told) result) }
    ensures ending { IfOk result (λ output. MayAnswer Shallow (ending_status output.report.ending)) }
    ensures reached { (name : List ℕ) → FaultsAtReached (spelled_answer program.now image.now name) (F.contents files.old) (F.asked files.new) result }
    ensures cause { HaltCause (F.faults files.old) (F.faults files.new) result }
    ensures stores { F.stores files.new ≡ F.stores files.old }
    ensures store_faults { F.store_faults files.new ≡ F.store_faults files.old }
{
    let program = read_program_file(alloc, files, program)?;
    let state = load_image_file(alloc, files, &program, image)?;
    Ok(spell_state(alloc, &program, &state)?)
}

/// The projection of a state, spelled and told.
pub fn spell_state(alloc: Global, program: &Program, state: &Loaded) -> Result<Output, AllocError>
    requires { (v : Value) × IsStoredState (meaning program.now) state.now v }
    ensures ending { IfOk result (λ output. MayAnswer Shallow (ending_status output.report.ending)) }
    ensures output { IfOk result
        (λ output. (name : List ℕ) (v : Value) → IsStoredState (meaning program.now) state.now v → IsOutput (state_answer (named_of program.now) v name) name output) }
{
    let ty = program.state_type();
    let spelled = spell(alloc, program.types(), &state.store, state.root, ty)?;
    let text = state_line(alloc, program, ty, spelled.as_bytes())?;
    let report = Report {
        ending: Ending::Done,
        text,
    };
    let file = Some(spelled.into_bytes());
    Ok(Output { report, file })
}
