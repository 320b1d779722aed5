// A journal that is opened by its name.
ghost use Rattle.code_gen.specs.Programs.{program_in};
ghost use Rattle.command_parts.specs.ReadPrograms.{digested_of};
ghost use Rattle.journal_commands.specs.DisksSeen.{WritesNothing, disk_seen};
ghost use Rattle.journal_commands.specs.OpenedJournals.{OpensNamed};
ghost use Rattle.journal_commands.specs.Stops.{DiskCause};

use crate::stop::DiskStop;
use code_gen::Code;
use command_parts::Halt;
use digest_layer::Sha;
use lam_outside::{Disk, Failed};
use std::alloc::Global;
use version_journal::{Opened, open};

/// Opens the journal of this name, which is of the program of the code. Nothing is written; a file that is missing is made, without bytes.
///
/// # Errors
///
/// `Halts` where the journal is refused, for its first fault from left to right, where it could not be read, or where memory was wanting; `WriteFault`
/// where the disk could not be synced.
pub fn open_named<D: Disk>(
    alloc: Global,
    disk: &mut D,
    code: &Code,
    name: &str,
) -> Result<Opened, DiskStop>
    ensures opens { let seen = disk_seen D.contents D.moments D.read_faults D.write_faults in
        OpensNamed (digested_of (program_in code.now)) name.now (seen disk.old) (seen disk.new) result }
    ensures writes { let seen = disk_seen D.contents D.moments D.read_faults D.write_faults in WritesNothing name.now (seen disk.old) (seen disk.new) }
    ensures cause { DiskCause (D.read_faults disk.old) (D.read_faults disk.new) (D.write_faults disk.old) (D.write_faults disk.new) result }
{
    match disk.choose(name) {
        Ok(()) => Ok(open::<Sha, D>(alloc, disk, code)?),
        Err(Failed) => Err(DiskStop::Halts(Halt::ReadFault)),
    }
}
