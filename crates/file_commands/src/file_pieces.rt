// The command `pieces`.
ghost use Rattle.std.specs.Prelude.{◌≡◌, ℕ, List, Some, IfOk, length};
ghost use Rattle.std.specs.Option.{ForSome};
ghost use Rattle.command_words.specs.Commands.{texts};
ghost use Rattle.command_words.specs.declared.command.Command.TheVariants.{Pieces};
ghost use Rattle.core_terms.specs.Programs.{meaning};
ghost use Rattle.core_terms.specs.Values.{Value};
ghost use Rattle.piece_mirror.specs.Tables.{bytes_of};
ghost use Rattle.command_parts.specs.Answer.{answer_with, filed_answer, pieces_answer, state_pieces};
ghost use Rattle.command_parts.specs.Ending.{EndsAs};
ghost use Rattle.command_parts.specs.Outsides.{outside};
ghost use Rattle.command_parts.specs.Halting.{HaltCause, InHand, ending_status};
ghost use Rattle.command_parts.specs.ReachingInCode.{FaultsAtReached, ReachedAt};
ghost use Rattle.command_parts.specs.Statuses.{MayAnswer};
ghost use Rattle.command_parts.specs.StoredStates.{IsStoredState};
ghost use Rattle.command_parts.specs.Storing.{FindsOutput};

use command_parts::{
    Ending, Halt, Output, Report, Status, load_image_file, read_program_file, store_and_tell,
};
use core_terms::Program;
use digest_layer::Sha;
use images::Loaded;
use lam_outside::{Files, Sink};
use piece_mirror::Mirror;
use printed_lines::lines::pieces_line;
use std::alloc::Global;

/// Stores the file of a mirror that has the pieces of a state, and tells how many these are. The words behind the command are `P IMG OUT`.
pub fn pieces_command<F: Files, O: Sink>(
    alloc: Global,
    words: &[&str],
    files: &mut F,
    out: &mut O,
) -> Status
    requires { length words.now ≡ 3 }
    ensures ends { let seen = outside F.contents F.stores F.faults F.store_faults O.written O.faults in
        EndsAs (answer_with Pieces (texts words.now)) (seen files.old out.old) (seen files.new out.new) result }
    ensures reached { ReachedAt result (answer_with Pieces (texts words.now)) (F.contents files.old) (F.asked files.new) }
    ensures possible { MayAnswer Pieces result }
{
    let [program, image, name] = words else {
        unreachable!()
    };
    let found = find_pieces(alloc, program, image, files);
    store_and_tell(alloc, name, files, out, found)
}

/// What is found of an image: a mirror with the pieces of its state.
fn find_pieces<F: Files>(
    alloc: Global,
    program: &str,
    image: &str,
    files: &mut F,
) -> Result<Output, Halt>
    ensures finds { (name : List ℕ) → ForSome (F.contents files.old) (λ told. FindsOutput name (filed_answer program.now image.now name told) result) }
    ensures ending { IfOk result (λ output. MayAnswer Pieces (ending_status output.report.ending)) }
    ensures reached { (name : List ℕ) → FaultsAtReached (filed_answer program.now image.now name) (F.contents files.old) (F.asked files.new) result }
    ensures cause { HaltCause (F.faults files.old) (F.faults files.new) result }
    ensures stores { F.stores files.new ≡ F.stores files.old }
    ensures store_faults { F.store_faults files.new ≡ F.store_faults files.old }
{
    let program = read_program_file(alloc, files, program)?;
    let state = load_image_file(alloc, files, &program, image)?;
    file_pieces(alloc, &program, &state)
}

/// A mirror with the pieces of a state, filed and told.
fn file_pieces(alloc: Global, program: &Program, state: &Loaded) -> Result<Output, Halt>
    requires { (v : Value) × IsStoredState (meaning program.now) state.now v }
    ensures ending { IfOk result (λ output. MayAnswer Pieces (ending_status output.report.ending)) }
    ensures finds { (name : List ℕ) (v : Value) → IsStoredState (meaning program.now) state.now v
        → InHand (FindsOutput name (Some (pieces_answer (state_pieces (meaning program.now) v) name))) result }
{
    let mut mirror = Mirror::<Sha>::new(alloc);
    mirror.fill(program.types(), &state.store, state.root)?;
    mirror_output(alloc, &mirror)
}

/// The file of a mirror, and how many pieces it has.
fn mirror_output(alloc: Global, mirror: &Mirror<Sha>) -> Result<Output, Halt>
    ensures ending { IfOk result (λ output. MayAnswer Pieces (ending_status output.report.ending)) }
    ensures finds { (name : List ℕ) → InHand (FindsOutput name (Some (pieces_answer (bytes_of mirror.now.pieces) name))) result }
{
    let file = mirror.save()?;
    let text = pieces_line(alloc, mirror.count())?;
    let report = Report {
        ending: Ending::Done,
        text,
    };
    let file = Some(file);
    Ok(Output { report, file })
}
