// The command `emit`.
ghost use Rattle.std.specs.Prelude.{◌≡◌, ℕ, List, None, Some, IfOk, length};
ghost use Rattle.std.specs.Option.{ForSome};
ghost use Rattle.command_words.specs.Commands.{texts};
ghost use Rattle.command_words.specs.declared.command.Command.TheVariants.{Emit};
ghost use Rattle.core_terms.specs.Programs.{meaning};
ghost use Rattle.core_terms.specs.declared.format.Format.TheVariants.{First};
ghost use Rattle.command_parts.specs.Answer.{answer_with, emitted_answer, object_answer, stored_object, object_written, with_listed_file};
ghost use Rattle.command_parts.specs.Ending.{EndsAs};
ghost use Rattle.command_parts.specs.Outsides.{outside};
ghost use Rattle.command_parts.specs.Halting.{StepGives, HaltCause, InHand, ending_status};
ghost use Rattle.command_parts.specs.ReachingInCode.{FaultsAt, FaultsAtReached, ReachedAt};
ghost use Rattle.command_parts.specs.ReadPrograms.{listed_of};
ghost use Rattle.command_parts.specs.Statuses.{MayAnswer};
ghost use Rattle.command_parts.specs.Storing.{FindsOutput};

use code_gen::Code;
use command_parts::{
    Ending, Halt, Output, Report, Status, begins_as_object, load_program, read_program,
    store_and_tell,
};
use core_terms::{Format, Program};
use lam_outside::{Files, Sink};
use object_writer::write_object;
use printed_lines::refusal::InputFault;
use std::alloc::Global;

/// Stores the object of a text's program, and tells nothing. The words behind the command are `P OUT`.
pub fn emit_command<F: Files, O: Sink>(
    alloc: Global,
    words: &[&str],
    files: &mut F,
    out: &mut O,
) -> Status
    requires { length words.now ≡ 2 }
    ensures ends { let seen = outside F.contents F.stores F.faults F.store_faults O.written O.faults in
        EndsAs (answer_with Emit (texts words.now)) (seen files.old out.old) (seen files.new out.new) result }
    ensures reached { ReachedAt result (answer_with Emit (texts words.now)) (F.contents files.old) (F.asked files.new) }
    ensures possible { MayAnswer Emit result }
{
    let [program, name] = words else {
        unreachable!()
    };
    let found = find_object(alloc, program, files);
    store_and_tell(alloc, name, files, out, found)
}

/// What is found of a text: the object of its program.
fn find_object<F: Files>(alloc: Global, program: &str, files: &mut F) -> Result<Output, Halt>
    ensures finds { (name : List ℕ) → ForSome (F.contents files.old) (λ told. FindsOutput name (emitted_answer program.now name told) result) }
    ensures ending { IfOk result (λ output. MayAnswer Emit (ending_status output.report.ending)) }
    ensures reached { (name : List ℕ) → FaultsAtReached (emitted_answer program.now name) (F.contents files.old) (F.asked files.new) result }
    ensures cause { HaltCause (F.faults files.old) (F.faults files.new) result }
    ensures stores { F.stores files.new ≡ F.stores files.old }
    ensures store_faults { F.store_faults files.new ≡ F.store_faults files.old }
{
    let program = read_listed_program(alloc, files, program)?;
    emit_object(alloc, program)
}

/// The program of a text in a file. A file that begins as an object is refused, whatever follows.
fn read_listed_program<F: Files>(alloc: Global, files: &mut F, name: &str) -> Result<Program, Halt>
    ensures goes { ForSome (F.contents files.old) (λ told. StepGives (with_listed_file (told name.now)) listed_of result) }
    ensures written { IfOk result (λ program. (meaning program).code ≡ None) }
    ensures asked { FaultsAt name.now (F.asked files.new) result }
    ensures cause { HaltCause (F.faults files.old) (F.faults files.new) result }
    ensures contents { F.contents files.new ≡ F.contents files.old }
    ensures stores { F.stores files.new ≡ F.stores files.old }
    ensures store_faults { F.store_faults files.new ≡ F.store_faults files.old }
{
    let bytes = load_program(alloc, files, name)?;
    if begins_as_object(&bytes) {
        return Err(InputFault::ObjectFormat.into());
    }
    Ok(read_program(alloc, &bytes)?)
}

/// The object of a written program. One of the second format has none.
fn emit_object(alloc: Global, program: Program) -> Result<Output, Halt>
    requires { (meaning program).code ≡ None }
    ensures ending { IfOk result (λ output. MayAnswer Emit (ending_status output.report.ending)) }
    ensures finds { (name : List ℕ) → InHand (FindsOutput name (Some (object_answer (listed_of program) name))) result }
{
    match program.format() {
        Format::First => write_output(alloc, program),
        Format::Second => Err(InputFault::ObjectFormat.into()),
    }
}

/// The object of a written program of the first format, as the file that is stored.
fn write_output(alloc: Global, program: Program) -> Result<Output, Halt>
    requires written { (meaning program).code ≡ None }
    requires first { program.types.table.format ≡ First }
    ensures ending { IfOk result (λ output. MayAnswer Emit (ending_status output.report.ending)) }
    ensures finds { (name : List ℕ) → InHand (FindsOutput name (Some (stored_object (object_written (listed_of program)) name))) result }
{
    let code = Code::generate(program, alloc)?;
    let object = write_object(alloc, &code)?;
    let report = Report {
        ending: Ending::Done,
        text: Vec::new(alloc),
    };
    let file = Some(object);
    Ok(Output { report, file })
}
