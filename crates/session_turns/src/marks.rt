// The marks of the spellings of versions.
ghost use Rattle.std.specs.Prelude.{◌≡◌, ◌≢◌, ◌⊎◌, ◌<◌, ℕ, length, Some, None, OnOk, IsTrue};
ghost use Rattle.session_turns.specs.Marks.{mark_in, mark_of};

use std::alloc::{AllocError, Global};

/// The mark of a spelling: where it has fewer than 32 bytes these, and zeros behind them, else its first 31 bytes, and the XOR of all. So a
/// spelling with another mark is another one. That several have one mark costs no more than comparing them, so it needn't be a digest, which
/// would make the first greeting at a long spelling dear.
#[derive(Clone, Copy)]
pub(crate) struct Mark([u8; 32]);

impl Mark {
    /// The mark of this spelling.
    pub fn of(spelling: &[u8]) -> Mark
        ensures { result.0 ≡ mark_of spelling.now }
    {
        let Some((first, _)) = spelling.split_first_chunk::<32>() else {
            let mut bytes = [0; 32];
            bytes[..spelling.len()].copy_from_slice(spelling);
            return Mark(bytes);
        };
        let mut bytes = *first;
        bytes[31] = spelling.iter().fold(0, |folded, byte| folded ^ byte);
        Mark(bytes)
    }
}

/// The marks of the spellings of versions, by the number of the version, as far as they are known.
#[derive(Drop)]
pub(crate) struct SpellingMarks {
    /// None behind the last of these.
    known: Vec<Option<Mark>>,
}

impl SpellingMarks {
    /// None is known.
    pub fn new(alloc: Global) -> Self
        ensures { (n : ℕ) → mark_in result n ≡ None }
    {
        SpellingMarks {
            known: Vec::new(alloc),
        }
    }

    /// Whether the mark of this version's spelling is known, and another one.
    pub fn is_other(&self, version: usize, mark: &Mark) -> bool
        ensures { IsTrue result → (known : Mark) × (mark_in self.now version ≡ Some known) × (known.0 ≢ mark.now.0) }
    {
        match self.known.get(version) {
            Some(Some(known)) => known.0 != mark.0,
            _ => false,
        }
    }

    /// Notes the mark of this version's spelling. Answers `AllocError` where there is no memory for it.
    pub fn note(&mut self, version: usize, mark: Mark) -> Result<(), AllocError>
        ensures noted { OnOk result (mark_in self.new version ≡ Some mark) }
        ensures within { (n : ℕ) (m : Mark) → mark_in self.new n ≡ Some m → ((n ≡ version) × (m ≡ mark)) ⊎ (mark_in self.old n ≡ Some m) }
    {
        self.reach(version)?;
        self.known[version] = Some(mark);
        Ok(())
    }

    /// Makes room up to a version.
    fn reach(&mut self, version: usize) -> Result<(), AllocError>
        ensures same { (n : ℕ) → mark_in self.new n ≡ mark_in self.old n }
        ensures there { OnOk result (version < length self.new.known.items) }
    {
        while self.known.len() <= version {
            self.known.push(None)?;
        }
        Ok(())
    }
}
