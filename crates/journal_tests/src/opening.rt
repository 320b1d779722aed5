// What `open` gives, in the words of the plain reader.

use crate::plain::{Reading, UPDATE};
use crate::stage::sound_disk;
use code_gen::Code;
use core_terms::Digest;
use digest_layer::Sha;
use lam_outside::Disk;
use session_turns::Commit;
use std::alloc::{AllocError, Global};
use version_journal::{JournalFault, Opened, open};

/// What `open` gives of a file with these bytes.
pub fn found(alloc: Global, code: &Code, bytes: &[u8]) -> Result<Option<Reading>, AllocError> {
    opened(alloc, code, &mut sound_disk(alloc, bytes)?)
}

/// What `open` gives of the chosen file; none where the disk failed, or where it gives another thing than any reading.
///
/// # Errors
///
/// `AllocError` where memory runs out.
pub fn opened<D: Disk>(
    alloc: Global,
    code: &Code,
    disk: &mut D,
) -> Result<Option<Reading>, AllocError> {
    match open::<Sha, D>(alloc, disk, code) {
        Ok(opened) => {
            let spelling = opened.shared.last_spelling::<Sha>(alloc, code)?;
            Ok(held(&opened, spelling.as_bytes()))
        }
        Err(fault) => told(fault),
    }
}

/// What was opened, whose last version has this spelling; none where its counts differ, or where a commit is no update.
fn held(opened: &Opened, spelling: &[u8]) -> Option<Reading> {
    let (last, _) = spelling.split_first_chunk::<32>()?;
    let commits = u64::from(opened.journal.records());
    let calls = opened.shared.commits();
    let versions = opened.shared.versions().len() as u64;
    if calls.len() as u64 != commits || versions != commits + 1 {
        return None;
    }
    Some(Reading::Holds {
        commits,
        fuel: fuel_of(calls)?,
        last: Digest(*last),
    })
}

/// The fuel of all commits; none where one is no update.
fn fuel_of(commits: &[Commit]) -> Option<u64> {
    let mut fuel = 0_u64;
    for commit in commits {
        if commit.role.0 as u64 != UPDATE {
            return None;
        }
        fuel = fuel.saturating_add(commit.fuel);
    }
    Some(fuel)
}

/// A fault in the words of readings.
fn told(fault: JournalFault) -> Result<Option<Reading>, AllocError> {
    match fault {
        JournalFault::Magic => Ok(Some(Reading::Magic)),
        JournalFault::Cut(size) => Ok(Some(Reading::Cut(size))),
        JournalFault::OtherProgram => Ok(Some(Reading::OtherProgram)),
        JournalFault::Image(_) => Ok(Some(Reading::Image)),
        JournalFault::BadRecord(number) => Ok(Some(Reading::BadRecord(u64::from(number)))),
        JournalFault::DiskFault(_) | JournalFault::NotEmpty | JournalFault::Failed => Ok(None),
        JournalFault::NoMemory => Err(AllocError),
    }
}
