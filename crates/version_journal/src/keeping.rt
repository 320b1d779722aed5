// Commits that are appended one after another.
ghost use Rattle.std.specs.Prelude.{◌≡◌, ◌<◌, ◌+◌, ◌≤◌, ◌++◌, ℕ, suc, true, List, length, Err, IfErr, IfSome, OnErr, OnOk};
ghost use Rattle.std.specs.List.{All};
ghost use Rattle.core_terms.specs.Terms.{Program};
ghost use Rattle.core_terms.specs.Values.{Value};
ghost use Rattle.session_meaning.specs.Calls.{RoleCall};
ghost use Rattle.session_meaning.specs.Server.{version_at};
ghost use Rattle.session_turns.specs.Keepers.{FitsRecord};
ghost use Rattle.session_turns.specs.Rows.{AreAlike};
ghost use Rattle.session_turns.specs.Sharing.{IsCommit};
ghost use Rattle.version_journal.specs.Appended.{AreAppended};
ghost use Rattle.version_journal.specs.AtGates.{IsAt, MayStop};
ghost use Rattle.version_journal.specs.Gates.{AtLast, ForTold, IsKept};
ghost use Rattle.version_journal.specs.JournalCauses.{JournalCause};
ghost use Rattle.version_journal.specs.JournalLaws.{AreWritable};
ghost use Rattle.version_journal.specs.Journals.{journal_front};
ghost use Rattle.version_journal.specs.Keeping.{AppendsAll, StopsAt};
ghost use Rattle.version_journal.specs.declared.fault.JournalFault.TheVariants.{Failed};

use crate::fault::JournalFault;
use crate::journal::Journal;
use lam_outside::Disk;
use session_turns::Commit;

/// Appends commits, one after another, up to the first that fails. There must be room for all of them, which are 4,095 records with those
/// that are there at most, and each must be one that `append` takes.
///
/// A crash at any moment leaves the commits that were there with the first of these behind them, in order; after `Ok` with all. Where each
/// makes a version of the last one, they are appended as the law on crashes says.
///
/// # Errors
///
/// Those of [`Journal::append`], of the first commit that is not appended.
pub fn append_all<D: Disk>(
    journal: &mut Journal,
    disk: &mut D,
    commits: &[Commit],
) -> Result<(), JournalFault>
    requires room { journal.old.records + length commits.now ≤ 4095 }
    requires fit { All FitsRecord commits.now }
    ensures appends { (own image : List ℕ) (calls news : List RoleCall) → IsAt own image calls journal.old → AreAlike IsCommit commits.now news
        → IfSome (D.moments disk.old) (AtLast (IsKept (journal_front own image calls)))
        → ForTold (D.moments disk.old) (D.moments disk.new) (λ old new. AppendsAll own image calls news old new result) }
    ensures steps { (P : Program) (own image : List ℕ) (calls news : List RoleCall) (versions made : List Value) → IsAt own image calls journal.old
        → AreAlike IsCommit commits.now news → length versions ≡ suc (length calls) → AreWritable P (version_at versions (length calls)) news made
        → IfSome (D.moments disk.old) (AtLast (IsKept (journal_front own image calls)))
        → ForTold (D.moments disk.old) (D.moments disk.new) (λ old new. AreAppended P own image calls versions news made old new result) }
    ensures at { (own image : List ℕ) (calls news : List RoleCall) → IsAt own image calls journal.old → AreAlike IsCommit commits.now news
        → OnOk result (IsAt own image (calls ++ news) journal.new) }
    ensures stops { (own image : List ℕ) (calls news : List RoleCall) → IsAt own image calls journal.old → AreAlike IsCommit commits.now news
        → IfSome (D.moments disk.old) (AtLast (IsKept (journal_front own image calls)))
        → OnErr result (ForTold (D.moments disk.old) (D.moments disk.new) (StopsAt own image calls news journal.new.records)) }
    ensures counts { journal.new.records ≤ journal.old.records + length commits.now }
    ensures failed { journal.old.failed ≡ true → (journal.new ≡ journal.old) × (disk.new ≡ disk.old) × (0 < length commits.now → result ≡ Err Failed) }
    ensures breaks { OnErr result (journal.new.failed ≡ true) }
    ensures faults { IfErr result MayStop }
    ensures reads { D.read_faults disk.new ≡ D.read_faults disk.old }
    ensures cause { JournalCause (D.read_faults disk.old) (D.read_faults disk.new) (D.write_faults disk.old) (D.write_faults disk.new) result }
{
    for commit in commits {
        journal.append(disk, commit)?;
    }
    Ok(())
}
