// Why a trial ends early.

use std::alloc::AllocError;
use std::io;
use version_journal::JournalFault;

/// Why a trial ends early.
#[derive(Clone, Copy)]
pub enum Trouble {
    /// The words call nothing.
    Usage,
    /// The file was not chosen.
    Unchosen,
    /// The journal was not made, opened or appended to.
    Journal(JournalFault),
    /// The words or the output failed, or memory was wanting.
    Outside,
}

impl Trouble {
    /// What is printed.
    pub fn text(self) -> &'static str {
        match self {
            Trouble::Usage => {
                "journal_trial make FILE | append FILE KEY COUNT CALLS | open FILE | torn STEP"
            }
            Trouble::Unchosen => "not chosen",
            Trouble::Outside => "the outside failed",
            Trouble::Journal(fault) => fault_text(fault),
        }
    }

    /// The status of the process. To be called without words is no failure.
    pub fn status(self) -> u8 {
        match self {
            Trouble::Usage => 0,
            Trouble::Unchosen | Trouble::Outside | Trouble::Journal(_) => 1,
        }
    }
}

fn fault_text(fault: JournalFault) -> &'static str {
    match fault {
        JournalFault::NotEmpty => "not empty",
        JournalFault::Magic => "magic",
        JournalFault::Cut(_) => "cut",
        JournalFault::OtherProgram => "program",
        JournalFault::Image(_) => "image",
        JournalFault::BadRecord(_) => "record",
        JournalFault::DiskFault(_) => "disk",
        JournalFault::Failed => "failed",
        JournalFault::NoMemory => "no memory",
    }
}

impl From<JournalFault> for Trouble {
    fn from(fault: JournalFault) -> Self {
        Trouble::Journal(fault)
    }
}

impl From<AllocError> for Trouble {
    fn from(_: AllocError) -> Self {
        Trouble::Outside
    }
}

impl From<io::Error> for Trouble {
    fn from(_: io::Error) -> Self {
        Trouble::Outside
    }
}
