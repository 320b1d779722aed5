// The command `check`.
ghost use Rattle.std.specs.Prelude.{◌≡◌, IfOk, length};
ghost use Rattle.std.specs.Option.{ForSome};
ghost use Rattle.command_words.specs.Commands.{texts};
ghost use Rattle.command_words.specs.declared.command.Command.TheVariants.{Check};
ghost use Rattle.command_parts.specs.ReachingInCode.{FaultsAtReached, ReachedAt};
ghost use Rattle.command_parts.specs.Answer.{answer_with, checked_answer};
ghost use Rattle.command_parts.specs.Ending.{EndsAs};
ghost use Rattle.command_parts.specs.Outsides.{outside};
ghost use Rattle.command_parts.specs.Halting.{Finds, HaltCause, ending_status};
ghost use Rattle.command_parts.specs.Statuses.{MayAnswer};

use command_parts::{Ending, Halt, Report, Status, read_program_file, tell};
use lam_outside::{Files, Sink};
use printed_lines::lines::ok_line;
use std::alloc::Global;

/// Checks a program, and tells the digest of its text or object. The words behind the command are `P`.
pub fn check_command<F: Files, O: Sink>(
    alloc: Global,
    words: &[&str],
    files: &mut F,
    out: &mut O,
) -> Status
    requires { length words.now ≡ 1 }
    ensures ends { let seen = outside F.contents F.stores F.faults F.store_faults O.written O.faults in
        EndsAs (answer_with Check (texts words.now)) (seen files.old out.old) (seen files.new out.new) result }
    ensures reached { ReachedAt result (answer_with Check (texts words.now)) (F.contents files.old) (F.asked files.new) }
    ensures possible { MayAnswer Check result }
{
    let [program] = words else { unreachable!() };
    let found = find_digest(alloc, program, files);
    tell(alloc, out, found)
}

/// What is found of a program: its digest.
fn find_digest<F: Files>(alloc: Global, program: &str, files: &mut F) -> Result<Report, Halt>
    ensures finds { ForSome (F.contents files.old) (λ told. Finds (checked_answer program.now told) result) }
    ensures ending { IfOk result (λ report. MayAnswer Check (ending_status report.ending)) }
    ensures reached { FaultsAtReached (checked_answer program.now) (F.contents files.old) (F.asked files.new) result }
    ensures cause { HaltCause (F.faults files.old) (F.faults files.new) result }
    ensures stores { F.stores files.new ≡ F.stores files.old }
    ensures store_faults { F.store_faults files.new ≡ F.store_faults files.old }
{
    let program = read_program_file(alloc, files, program)?;
    let text = ok_line(alloc, program.text_digest())?;
    Ok(Report {
        ending: Ending::Done,
        text,
    })
}
