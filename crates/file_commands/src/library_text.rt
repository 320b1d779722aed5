// The command `library`.
ghost use Rattle.std.specs.Prelude.{◌≡◌, length, IfErr, IfOk, Some};
ghost use Rattle.ads_library.specs.Texts.{library_text};
ghost use Rattle.command_words.specs.Commands.{texts};
ghost use Rattle.command_words.specs.declared.command.Command.{Command};
ghost use Rattle.command_words.specs.declared.command.Command.TheVariants.{Library};
ghost use Rattle.command_parts.specs.Answer.{answer_with};
ghost use Rattle.command_parts.specs.WorkloadAnswers.{with_source};
ghost use Rattle.command_parts.specs.AnswerForms.{says};
ghost use Rattle.command_parts.specs.EndingInCode.{EndsOnSink};
ghost use Rattle.command_parts.specs.Halting.{Finds, StepGives, InHand, halt_status, status_of};
ghost use Rattle.command_parts.specs.Statuses.{MayAnswer};
ghost use Rattle.command_parts.specs.declared.status.Status.TheVariants as status;

use ads_library::source;
use command_parts::{Ending, Halt, Report, Status, tell};
use lam_outside::Sink;
use printed_lines::refusal::InputFault;
use std::alloc::Global;

/// Tells the text of a program of the library. The words behind the command are `NAME`.
pub fn library_command<O: Sink>(alloc: Global, words: &[&str], out: &mut O) -> Status
    requires { length words.now ≡ 1 }
    ensures ends { EndsOnSink (answer_with Library (texts words.now)) (O.written out.old) (O.written out.new) (O.faults out.old) (O.faults out.new) result }
    ensures possible { MayAnswer Library result }
{
    let [name] = words else { unreachable!() };
    let found = find_text(alloc, name);
    tell(alloc, out, found)
}

/// What is found of a name: the text of the program of the library.
fn find_text(alloc: Global, name: &str) -> Result<Report, Halt>
    ensures finds { InHand (Finds (with_source (library_text name.now) (λ text. Some (says status.Done text)))) result }
    ensures possible { MayAnswer Library (status_of result) }
{
    let source = source_named(name)?;
    let text = Vec::from_slice(alloc, source)?;
    Ok(Report {
        ending: Ending::Done,
        text,
    })
}

/// The text of the program of the library that has this name.
pub fn source_named(name: &str) -> Result<&'static [u8], Halt>
    ensures goes { InHand (StepGives (with_source (library_text name.now)) (λ text. text.now)) result }
    ensures text { IfOk result (λ text. library_text name.now ≡ Some text.now) }
    ensures possible { (command : Command) → IfErr result (λ halt. MayAnswer command (halt_status halt)) }
{
    Ok(source(name).ok_or(InputFault::LibraryUnknown)?)
}
