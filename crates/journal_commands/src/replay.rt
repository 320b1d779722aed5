// The command `replay`.
ghost use Rattle.std.specs.Prelude.{◌≡◌, ◌⊎◌, ℕ, List, IfOk, Some, length};
ghost use Rattle.std.specs.Option.{ForSome};
ghost use Rattle.sha2.specs.Sha256.{sha256};
ghost use Rattle.code_gen.specs.Programs.{program_in};
ghost use Rattle.command_words.specs.Commands.{texts};
ghost use Rattle.command_words.specs.declared.command.Command.TheVariants.{Replay};
ghost use Rattle.mode_vm.specs.Meanings.{program_of};
ghost use Rattle.session_meaning.specs.Server as meant;
ghost use Rattle.session_turns.specs.Sharing.{Shares};
ghost use Rattle.command_parts.specs.Answer.{answer_with};
ghost use Rattle.command_parts.specs.UnansweredInCode.{unreplayed_answer};
ghost use Rattle.command_parts.specs.Outsides.{outside};
ghost use Rattle.command_parts.specs.Halting.{InHand, ending_status};
ghost use Rattle.command_parts.specs.ReadPrograms.{digested_of};
ghost use Rattle.command_parts.specs.Reaching.{IsReached};
ghost use Rattle.command_parts.specs.Statuses.{MayAnswer};
ghost use Rattle.command_parts.specs.Storing.{FindsOutput};
ghost use Rattle.journal_commands.specs.DiskCounts.{DiskCountsBy};
ghost use Rattle.journal_commands.specs.DisksSeen.{WritesNothing, disk_seen, file_in, if_told};
ghost use Rattle.journal_commands.specs.JournalAnswers.{last_answer, replayed_answer};
ghost use Rattle.journal_commands.specs.Replaying.{EndsReplaying};
ghost use Rattle.journal_commands.specs.Stops.{WorkCause};
ghost use Rattle.journal_commands.specs.Works.{FindsKept};

use crate::opened::open_named;
use crate::stop::DiskStop;
use code_gen::Code;
use command_parts::{Ending, Halt, Output, Report, Status, read_code, store_and_tell};
use images::save_image;
use lam_outside::{Disk, Files, Sink};
use printed_lines::lines::versions_line;
use session_turns::Shared;
use std::alloc::Global;

/// Stores the image of the last version that a journal keeps, and tells how many versions and commits there are. The words behind the command are
/// `P JOURNAL OUT`.
pub fn replay_command<F: Files, O: Sink, D: Disk>(
    alloc: Global,
    words: &[&str],
    files: &mut F,
    out: &mut O,
    disk: &mut D,
) -> Status
    requires { length words.now ≡ 3 }
    ensures ends { let seen = outside F.contents F.stores F.faults F.store_faults O.written O.faults in let on = disk_seen D.contents D.moments D.read_faults D.write_faults in
        EndsReplaying (texts words.now) (seen files.old out.old) (seen files.new out.new) (on disk.old) (on disk.new) result }
    ensures counts { let seen = outside F.contents F.stores F.faults F.store_faults O.written O.faults in let on = disk_seen D.contents D.moments D.read_faults D.write_faults in
        DiskCountsBy (seen files.old out.old) (seen files.new out.new) (on disk.old) (on disk.new) result }
    ensures reached { (F.faults files.new ≡ F.faults files.old) ⊎ IsReached (answer_with Replay (texts words.now)) (F.contents files.old) (F.asked files.new) }
    ensures possible { MayAnswer Replay result }
{
    let [program, journal, name] = words else {
        unreachable!()
    };
    match find_last(alloc, files, disk, program, journal) {
        Ok(output) => store_and_tell(alloc, name, files, out, Ok(output)),
        Err(DiskStop::Halts(halt)) => store_and_tell(alloc, name, files, out, Err(halt)),
        Err(DiskStop::WriteFault) => Status::WriteFault,
    }
}

/// What is found of a program and a journal: the last version.
fn find_last<F: Files, D: Disk>(
    alloc: Global,
    files: &mut F,
    disk: &mut D,
    program: &str,
    journal: &str,
) -> Result<Output, DiskStop>
    ensures finds { (name : List ℕ) → ForSome (if_told (D.contents disk.old) (F.contents files.old)) (λ told.
        FindsKept name (replayed_answer program.now name (file_in (D.contents disk.old) journal.now) told) result) }
    ensures ending { IfOk result (λ output. MayAnswer Replay (ending_status output.report.ending)) }
    ensures writes { let on = disk_seen D.contents D.moments D.read_faults D.write_faults in WritesNothing journal.now (on disk.old) (on disk.new) }
    ensures reached { (F.faults files.new ≡ F.faults files.old) ⊎ IsReached (unreplayed_answer program.now) (F.contents files.old) (F.asked files.new) }
    ensures cause { WorkCause (F.faults files.old) (F.faults files.new) (D.read_faults disk.old) (D.read_faults disk.new) (D.write_faults disk.old) (D.write_faults disk.new) result }
    ensures stores { F.stores files.new ≡ F.stores files.old }
    ensures store_faults { F.store_faults files.new ≡ F.store_faults files.old }
{
    let code = read_code(alloc, files, program)?;
    let opened = open_named(alloc, disk, &code, journal)?;
    Ok(last_output(alloc, &code, &opened.shared)?)
}

/// The image of the last version, and how many versions and commits there are.
fn last_output(alloc: Global, code: &Code, shared: &Shared) -> Result<Output, Halt>
    requires { (same : meant.Shared) × Shares sha256 (program_of code.now) shared.now same }
    ensures finds { (name : List ℕ) (same : meant.Shared) → Shares sha256 (program_of code.now) shared.now same
        → InHand (FindsOutput name (Some (last_answer (digested_of (program_in code.now)) same name))) result }
    ensures ending { IfOk result (λ output. MayAnswer Replay (ending_status output.report.ending)) }
{
    let program = code.program();
    let versions = shared.versions();
    let last = versions[versions.len() - 1];
    let file = save_image(
        alloc,
        program.types(),
        program.text_digest(),
        shared.store(),
        last,
    )?;
    let text = versions_line(alloc, versions.len(), shared.commits().len())?;
    let report = Report {
        ending: Ending::Done,
        text,
    };
    let file = Some(file);
    Ok(Output { report, file })
}
