// The tests of a greeting.
ghost use Rattle.std.specs.Prelude.{◌≡◌, ℕ, length, is_some};
ghost use Rattle.code_gen.specs.Programs.{program_in};
ghost use Rattle.mode_vm.specs.Meanings.{program_of};
ghost use Rattle.session_meaning.specs.Server as meant;
ghost use Rattle.session_meaning.specs.Tables.{find};

use crate::refusal::{Denial, Refusal};
use crate::shared::Shared;
use code_gen::Code;
use core_terms::{Digest, Hash32};
use std::alloc::Global;

/// The greatest number of sessions.
const MAX_SESSIONS: usize = 64;

/// What a greeting finds of the sessions.
#[derive(Clone, Copy)]
pub struct Room {
    /// How many there are.
    pub sessions: usize,
    /// Whether its own is one of them.
    pub taken: bool,
}

impl Shared {
    ghost use Rattle.session_turns.specs.Refusals.{IsTestedAs};
    ghost use Rattle.session_turns.specs.Sharing.{AreKept, Shares};

    /// Tests a greeting: its session is to stand at the newest version with the spelling that it names.
    ///
    /// # Errors
    ///
    /// In this order: `OtherProgram`, `LargeRing`, `ManySessions`, `SessionThere`, `NoVersion`; and `NoMemory`.
    pub fn greet<H: Hash32>(
        &mut self,
        alloc: Global,
        code: &Code,
        room: Room,
        program: &Digest,
        kept: u16,
        state: &[u8],
    ) -> Result<usize, Denial>
        requires { (shared : meant.Shared) × Shares H.hash (program_of code.now) self.old shared }
        ensures tested { let P = program_of code.now in (ending : ℕ → ℕ) (server : meant.Server) (number : ℕ) → Shares H.hash P self.old server.shared
            → room.sessions ≡ length server.sessions → room.taken ≡ is_some (find number server.sessions)
            → IsTestedAs result (meant.hello_test H.hash P (program_in code.now).text_digest.0 ending server number program.now.0 kept state.now) }
        ensures shares { let P = program_of code.now in (shared : meant.Shared) → Shares H.hash P self.old shared → Shares H.hash P self.new shared }
        ensures rest { AreKept self.old self.new }
    {
        if program.0 != code.program().text_digest().0 {
            return Err(Denial::Refused(Refusal::OtherProgram));
        }
        if kept > code.types().most_kept() {
            return Err(Denial::Refused(Refusal::LargeRing));
        }
        if room.sessions >= MAX_SESSIONS {
            return Err(Denial::Refused(Refusal::ManySessions));
        }
        if room.taken {
            return Err(Denial::Refused(Refusal::SessionThere));
        }
        match self.newest::<H>(alloc, code, state)? {
            Some(version) => Ok(version),
            None => Err(Denial::Refused(Refusal::NoVersion)),
        }
    }
}
