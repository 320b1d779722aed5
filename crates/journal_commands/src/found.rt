// The command `found`.
ghost use Rattle.std.specs.Prelude.{◌≡◌, ◌⊎◌, ◌≤◌, OnOk, Some, length};
ghost use Rattle.std.specs.Option.{ForSome};
ghost use Rattle.core_terms.specs.Limits.{most_file_bytes};
ghost use Rattle.command_words.specs.Commands.{texts};
ghost use Rattle.command_words.specs.declared.command.Command.TheVariants.{Found};
ghost use Rattle.code_gen.specs.Programs.{program_in};
ghost use Rattle.command_parts.specs.Answer.{Founding, answer_with};
ghost use Rattle.command_parts.specs.UnansweredInCode.{unfounded_answer};
ghost use Rattle.command_parts.specs.Outsides.{outside};
ghost use Rattle.command_parts.specs.ReadPrograms.{digested_of};
ghost use Rattle.command_parts.specs.Reaching.{IsReached};
ghost use Rattle.command_parts.specs.Statuses.{MayAnswer};
ghost use Rattle.journal_commands.specs.DiskCounts.{DiskCountsBy};
ghost use Rattle.journal_commands.specs.DisksSeen.{disk_seen, file_in, if_told};
ghost use Rattle.journal_commands.specs.Founding.{EndsFounding, MeansFounding};
ghost use Rattle.journal_commands.specs.FoundingInCode.{LeavesOn, founding_of};
ghost use Rattle.journal_commands.specs.JournalAnswers.{founded_answer, making_answer};
ghost use Rattle.journal_commands.specs.Stops.{DiskCause, WorkCause};
ghost use Rattle.journal_commands.specs.Works.{FindsMade};

use crate::stop::DiskStop;
use code_gen::Code;
use command_parts::{Halt, Status, load_image_bytes, read_code, tell};
use lam_outside::{Disk, Failed, Files, Sink};
use std::alloc::Global;
use version_journal::make;

/// Makes a journal of an image in a file of the disk without bytes, and tells nothing. The words behind the command are `P IMG JOURNAL`.
pub fn found_command<F: Files, O: Sink, D: Disk>(
    alloc: Global,
    words: &[&str],
    files: &mut F,
    out: &mut O,
    disk: &mut D,
) -> Status
    requires { length words.now ≡ 3 }
    ensures ends { let seen = outside F.contents F.stores F.faults F.store_faults O.written O.faults in let on = disk_seen D.contents D.moments D.read_faults D.write_faults in
        EndsFounding (texts words.now) (seen files.old out.old) (seen files.new out.new) (on disk.old) (on disk.new) result }
    ensures counts { let seen = outside F.contents F.stores F.faults F.store_faults O.written O.faults in let on = disk_seen D.contents D.moments D.read_faults D.write_faults in
        DiskCountsBy (seen files.old out.old) (seen files.new out.new) (on disk.old) (on disk.new) result }
    ensures reached { (F.faults files.new ≡ F.faults files.old) ⊎ IsReached (answer_with Found (texts words.now)) (F.contents files.old) (F.asked files.new) }
    ensures possible { MayAnswer Found result }
{
    let [program, image, name] = words else {
        unreachable!()
    };
    match found(alloc, files, disk, program, image, name) {
        Ok(()) => Status::Done,
        Err(DiskStop::Halts(halt)) => tell(alloc, out, Err(halt)),
        Err(DiskStop::WriteFault) => Status::WriteFault,
    }
}

/// Makes the journal that the words and the files mean.
fn found<F: Files, D: Disk>(
    alloc: Global,
    files: &mut F,
    disk: &mut D,
    program: &str,
    image: &str,
    name: &str,
) -> Result<(), DiskStop>
    ensures finds { ForSome (if_told (D.contents disk.old) (F.contents files.old)) (λ told. FindsMade (founded_answer program.now image.now (file_in (D.contents disk.old) name.now) told) result) }
    ensures left { let on = disk_seen D.contents D.moments D.read_faults D.write_faults in
        (f : Founding) × OnOk result (ForSome (F.contents files.old) (λ told. MeansFounding program.now image.now told f)) × LeavesOn f name.now (on disk.old) (on disk.new) result }
    ensures reached { (F.faults files.new ≡ F.faults files.old) ⊎ IsReached (unfounded_answer program.now image.now) (F.contents files.old) (F.asked files.new) }
    ensures cause { WorkCause (F.faults files.old) (F.faults files.new) (D.read_faults disk.old) (D.read_faults disk.new) (D.write_faults disk.old) (D.write_faults disk.new) result }
    ensures stores { F.stores files.new ≡ F.stores files.old }
    ensures store_faults { F.store_faults files.new ≡ F.store_faults files.old }
{
    let code = read_code(alloc, files, program)?;
    let image = load_image_bytes(alloc, files, code.program(), image)?;
    make_named(alloc, disk, &code, name, &image)
}

/// Makes a journal of this image in the file of this name.
fn make_named<D: Disk>(
    alloc: Global,
    disk: &mut D,
    code: &Code,
    name: &str,
    image: &[u8],
) -> Result<(), DiskStop>
    requires { length image.now ≤ most_file_bytes }
    ensures finds { ForSome (D.contents disk.old) (λ told. FindsMade (Some (making_answer (file_in (Some told) name.now))) result) }
    ensures left { let on = disk_seen D.contents D.moments D.read_faults D.write_faults in
        LeavesOn (founding_of (digested_of (program_in code.now)) image.now) name.now (on disk.old) (on disk.new) result }
    ensures cause { DiskCause (D.read_faults disk.old) (D.read_faults disk.new) (D.write_faults disk.old) (D.write_faults disk.new) result }
{
    match disk.choose(name) {
        Ok(()) => {
            make(alloc, disk, code, image)?;
            Ok(())
        }
        Err(Failed) => Err(DiskStop::Halts(Halt::ReadFault)),
    }
}
