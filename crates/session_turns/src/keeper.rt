// What keeps commits.
ghost use Rattle.std.specs.Prelude.{◌≡◌, ℕ, Bool, List, false, IfErr, OnOk};
ghost use Rattle.session_turns.specs.Keepers.{AreKeepable, KeepCause, KeepsOn};
ghost use Rattle.session_meaning.specs.Beginnings.{IsFront};
ghost use Rattle.session_turns.specs.declared.commit.Commit.{Commit as Made};

use crate::commit::Commit;

/// Commits were not kept, or memory was wanting to keep them.
#[derive(Clone, Copy)]
pub struct NotKept;

/// What keeps the commits of a server, so that none is told that isn't kept.
pub trait Keeper {
    /// What it keeps commits behind: as the bytes of a file that were there.
    ghost Place: { Type 0 };

    /// Behind this place it keeps these commits.
    ghost keeps: { Self → Place → List Made → Type 0 };

    /// How often it failed, but for want of memory.
    ghost faults: { Self → ℕ };

    /// It says that it failed so.
    ghost faulted: { Self → Bool };

    /// The kind of all else that the object means.
    ghost Rest: { Type 0 };

    /// All else that the object means, which it leaves as it was.
    ghost rest: { Self → Rest };

    /// Keeps these commits, which begin with those that it keeps. Where it answers `NotKept` it keeps those that it had, and the first of the others.
    ///
    /// `NotKept` where it failed, and its count of faults rose, or where memory was wanting.
    fn keep(&mut self, commits: &[Commit]) -> Result<(), NotKept>
        requires fit { AreKeepable commits.now }
        requires more { (place : Place) × (before : List Made) × keeps self.old place before × IsFront before commits.now }
        ensures kept { (place : Place) (before : List Made) → keeps self.old place before → IsFront before commits.now
            → KeepsOn (keeps self.new place) before commits.now result }
        ensures cause { KeepCause (faults self.old) (faults self.new) (faulted self.old) (faulted self.new) result }
        ensures rest { rest self.new ≡ rest self.old };
}

/// What keeps nothing.
#[derive(Clone, Copy)]
pub struct NoKeeper;

/// Of commits that are lost with the server it says nothing.
impl Keeper for NoKeeper {
    ghost Place = { Unit {0} };

    ghost keeps = { λ keeper place commits. Unit {0} };

    ghost faults = { λ keeper. 0 };

    ghost faulted = { λ keeper. false };

    ghost Rest = { Unit {0} };

    ghost rest = { λ keeper. tt };

    fn keep(&mut self, _commits: &[Commit]) -> Result<(), NotKept> {
        Ok(())
    }
}
