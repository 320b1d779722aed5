// A journal on a disk.
ghost use Rattle.std.specs.Prelude.{◌≡◌, ◌≤◌, ◌<◌, ◌+◌, ◌*◌, ◌^◌, ◌++◌, [], ◌∷◌, ℕ, List, length, true, Err, IfErr, IfOk, IfSome, OnErr, OnOk};
ghost use Rattle.session_meaning.specs.Calls.{RoleCall};
ghost use Rattle.session_turns.specs.Sharing.{IsCommit};
ghost use Rattle.version_journal.specs.Gates.{Appends, AtLast, ForTold, IsKept};
ghost use Rattle.version_journal.specs.JournalCauses.{JournalCause};
ghost use Rattle.version_journal.specs.Journals.{journal_front, record_bytes};

use crate::fault::JournalFault;
use crate::gates::add_record;
use lam_outside::Disk;
use session_turns::Commit;
use std::alloc::{AllocError, Global};

/// The byte of a gate that is closed.
pub(crate) const CLOSED: u8 = 0;

/// A journal whose file is chosen on a disk: an image, and the commits behind it.
#[derive(Drop)]
pub struct Journal {
    pub(crate) alloc: Global,
    /// The place of the gate behind the last record, which is closed.
    pub(crate) gate: u64,
    /// How many records there are.
    pub(crate) records: u32,
    /// The disk failed, or memory was wanting.
    pub(crate) failed: bool,
    ghost few: { records < 2 ^ 32 },
    ghost fits: { gate ≤ 2 ^ 63 + records * 2 ^ 30 },
}

impl Journal {
    ghost use Rattle.version_journal.specs.declared.fault.JournalFault.TheVariants.{Failed};
    ghost use Rattle.version_journal.specs.AtGates.{Breaks, FailsSo, IsAt};

    /// How many records there are.
    pub fn records(&self) -> u32
        ensures { result ≡ self.now.records }
    {
        self.records
    }

    /// Appends a commit, whose role is below 2^16 and whose argument has at most 1,048,576 bytes. The journal's own file must be chosen, and
    /// have fewer than 4,095 records.
    ///
    /// A crash at any moment of the call leaves the commits that were there, or those with this one. After `Ok` it leaves those with this one.
    ///
    /// # Errors
    ///
    /// `DiskFault` where a call of the disk failed; `NoMemory`; `Failed` exactly after one of these, and then no call of the disk is made.
    pub fn append<D: Disk>(&mut self, disk: &mut D, commit: &Commit) -> Result<(), JournalFault>
        requires room { self.old.records < 4095 }
        requires role { commit.now.role.0 < 2 ^ 16 }
        requires argument { length commit.now.argument < 2 ^ 20 + 1 }
        ensures appends { (own image : List ℕ) (calls : List RoleCall) (call : RoleCall) → IsAt own image calls self.old → IsCommit commit.now call
            → IfSome (D.moments disk.old) (AtLast (IsKept (journal_front own image calls)))
            → ForTold (D.moments disk.old) (D.moments disk.new) (λ old new. Appends (journal_front own image calls) (record_bytes call) old new result) }
        ensures at { (own image : List ℕ) (calls : List RoleCall) (call : RoleCall) → IsAt own image calls self.old → IsCommit commit.now call
            → OnOk result (IsAt own image (calls ++ call ∷ []) self.new) }
        ensures count { OnOk result (self.new.records ≡ self.old.records + 1) }
        ensures stays { OnErr result (self.new.records ≡ self.old.records) }
        ensures failed { self.old.failed ≡ true → (result ≡ Err Failed) × (self.new ≡ self.old) × (disk.new ≡ disk.old) }
        ensures breaks { FailsSo self.old.failed self.new.failed result }
        ensures reads { D.read_faults disk.new ≡ D.read_faults disk.old }
        ensures cause { JournalCause (D.read_faults disk.old) (D.read_faults disk.new) (D.write_faults disk.old) (D.write_faults disk.new) result }
    {
        if self.failed {
            return Err(JournalFault::Failed);
        }
        match self.add(disk, commit) {
            Ok(gate) => {
                self.gate = gate;
                self.records += 1;
                Ok(())
            }
            Err(fault) => {
                self.failed = true;
                Err(fault)
            }
        }
    }

    /// Adds the record of a commit, and says where the gate behind it is.
    fn add<D: Disk>(&self, disk: &mut D, commit: &Commit) -> Result<u64, JournalFault>
        requires room { self.now.records < 4095 }
        requires role { commit.now.role.0 < 2 ^ 16 }
        requires argument { length commit.now.argument < 2 ^ 20 + 1 }
        ensures appends { (own image : List ℕ) (calls : List RoleCall) (call : RoleCall) → IsAt own image calls self.now → IsCommit commit.now call
            → IfSome (D.moments disk.old) (AtLast (IsKept (journal_front own image calls)))
            → ForTold (D.moments disk.old) (D.moments disk.new) (λ old new. Appends (journal_front own image calls) (record_bytes call) old new result) }
        ensures at { (own image : List ℕ) (calls : List RoleCall) (call : RoleCall) → IsAt own image calls self.now → IsCommit commit.now call
            → IfOk result (λ gate. gate ≡ length (journal_front own image (calls ++ call ∷ []))) }
        ensures fits { IfOk result (λ gate. gate ≤ 2 ^ 63 + (self.now.records + 1) * 2 ^ 30) }
        ensures breaks { IfErr result Breaks }
        ensures reads { D.read_faults disk.new ≡ D.read_faults disk.old }
        ensures cause { JournalCause (D.read_faults disk.old) (D.read_faults disk.new) (D.write_faults disk.old) (D.write_faults disk.new) result }
    {
        let staged = staged_record(self.alloc, commit)?;
        add_record(disk, self.gate, &staged)?;
        Ok(self.gate + staged.len() as u64)
    }
}

/// The record of a commit, and a closed gate behind it.
fn staged_record(alloc: Global, commit: &Commit) -> Result<Vec<u8>, AllocError>
    requires role { commit.now.role.0 < 2 ^ 16 }
    requires argument { length commit.now.argument < 2 ^ 20 + 1 }
    ensures record { IfOk result (λ bytes. (call : RoleCall) → IsCommit commit.now call → bytes.items ≡ record_bytes call ++ 0 ∷ []) }
    ensures fits { IfOk result (λ bytes. length bytes.items ≤ 2 ^ 30) }
{
    let argument = commit.argument.as_bytes();
    let mut bytes = Vec::new(alloc);
    bytes.extend_from_slice(&(commit.role.0 as u16).to_be_bytes())?;
    bytes.extend_from_slice(&commit.fuel.to_be_bytes())?;
    bytes.extend_from_slice(&(argument.len() as u32).to_be_bytes())?;
    bytes.extend_from_slice(argument)?;
    bytes.push(CLOSED)?;
    Ok(bytes)
}
