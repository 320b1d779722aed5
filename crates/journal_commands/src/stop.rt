// What ends the work of a command on a disk early.
ghost use Rattle.std.specs.Prelude.{◌≡◌};
ghost use Rattle.command_parts.specs.declared.report.Halt.TheVariants.{NoMemory};
ghost use Rattle.journal_commands.specs.Stops.{of_image_fault, of_journal_fault, of_kind};
ghost use Rattle.journal_commands.specs.declared.stop.DiskStop.TheVariants.{Halts};

use command_parts::{Halt, image_kind};
use images::ImageFault;
use printed_lines::refusal::{InputFault, JournalKind, Refusal};
use std::alloc::AllocError;
use version_journal::{DiskCount, JournalFault};

/// What ends the work of a command on a disk early.
#[derive(Clone, Copy)]
pub enum DiskStop {
    /// What ends that of other commands too; a read of the disk that failed is a read fault.
    Halts(Halt),
    /// A write or a sync of the disk failed, and its count of write faults rose. Nothing is told of it.
    WriteFault,
}

impl From<Halt> for DiskStop {
    ghost from_gives = { λ halt stop. stop ≡ Halts halt };

    fn from(halt: Halt) -> Self {
        DiskStop::Halts(halt)
    }
}

impl From<AllocError> for DiskStop {
    ghost from_gives = { λ _ stop. stop ≡ Halts NoMemory };

    fn from(_: AllocError) -> Self {
        DiskStop::Halts(Halt::NoMemory)
    }
}

/// `Failed` comes of no journal that is being made or opened.
impl From<JournalFault> for DiskStop {
    ghost from_gives = { λ fault stop. stop ≡ of_journal_fault fault };

    fn from(fault: JournalFault) -> Self {
        let kind = match fault {
            JournalFault::NotEmpty => JournalKind::NotEmpty,
            JournalFault::Magic => JournalKind::Magic,
            JournalFault::Cut(bytes) => JournalKind::Cut(bytes),
            JournalFault::OtherProgram => JournalKind::OtherProgram,
            JournalFault::BadRecord(number) => JournalKind::BadRecord(number),
            JournalFault::Image(fault) => return image_stop(fault),
            JournalFault::DiskFault(DiskCount::Reads) => {
                return DiskStop::Halts(Halt::ReadFault);
            }
            JournalFault::DiskFault(DiskCount::Writes) | JournalFault::Failed => {
                return DiskStop::WriteFault;
            }
            JournalFault::NoMemory => return DiskStop::Halts(Halt::NoMemory),
        };
        refused(kind)
    }
}

/// The journal is refused.
fn refused(kind: JournalKind) -> DiskStop
    ensures { result ≡ of_kind kind }
{
    DiskStop::Halts(Halt::Refused(Refusal::Input(InputFault::Journal(kind))))
}

/// The image of the journal is refused, or memory was wanting for it.
fn image_stop(fault: ImageFault) -> DiskStop
    ensures { result ≡ of_image_fault fault }
{
    match image_kind(fault) {
        Some(kind) => refused(JournalKind::Image(kind)),
        None => DiskStop::Halts(Halt::NoMemory),
    }
}
