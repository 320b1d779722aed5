// A journal that keeps the commits of a server.
ghost use Rattle.std.specs.Prelude.{ℕ};
ghost use Rattle.version_journal.specs.FoundJournals.{FoundJournal, KeepsFound};

use crate::fault::JournalFault;
use crate::journal::Journal;
use crate::keeping::append_all;
use lam_outside::Disk;
use session_turns::{Commit, Keeper, NotKept};

/// A journal whose file is chosen on a disk, and which keeps the commits of a server.
#[derive(Drop)]
pub struct JournalKeeper<'a, D> {
    pub journal: Journal,
    pub disk: &'a mut D,
    /// The disk failed as commits were appended.
    pub faulted: bool,
}

/// The commits that the journal hasn't got yet are appended to it.
impl<D: Disk> Keeper for JournalKeeper<'_, D> {
    ghost Place = { FoundJournal };

    ghost keeps = { λ keeper found commits. KeepsFound found keeper.journal (D.moments keeper.disk.now) commits };

    ghost faults = { λ keeper. D.write_faults keeper.disk.now };

    ghost faulted = { λ keeper. keeper.faulted };

    ghost Rest = { ℕ × ℕ };

    ghost rest = { λ keeper. (keeper.disk.ghost_name, D.read_faults keeper.disk.now) };

    fn keep(&mut self, commits: &[Commit]) -> Result<(), NotKept> {
        let kept = self.journal.records() as usize;
        match append_all(&mut self.journal, self.disk, &commits[kept..]) {
            Ok(()) => Ok(()),
            Err(fault) => match fault {
                JournalFault::DiskFault(_) => {
                    self.faulted = true;
                    Err(NotKept)
                }
                _ => Err(NotKept),
            },
        }
    }
}
