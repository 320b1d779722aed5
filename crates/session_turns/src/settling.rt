// How the end of a run is settled.
ghost use Rattle.std.specs.Prelude.{◌≡◌, ℕ, ◌<◌, ◌≤◌, ◌+◌, ◌++◌, List, Option, length, take, IfOk, IfSome, OnErr};
ghost use Rattle.core_terms.specs.Formats.{Hash};
ghost use Rattle.core_terms.specs.Terms.{Program};
ghost use Rattle.core_terms.specs.Values.{Value};
ghost use Rattle.ideal_meaning.specs.Frames.{Frame};
ghost use Rattle.mode_vm.specs.Meanings.{program_of};
ghost use Rattle.session_meaning.specs.Calls.{RoleCall};
ghost use Rattle.session_meaning.specs.Server as meant;
ghost use Rattle.value_store.specs.Nodes.{AreSound};
ghost use Rattle.value_store.specs.Overs.{own_nodes};
ghost use Rattle.value_store.specs.Standing.{Grows};
ghost use Rattle.value_store.specs.Stores.{nodes_in};
ghost use Rattle.session_turns.specs.Sharing.{Shares};

use crate::commit::Commit;
use crate::shared::Shared;
use code_gen::Code;
use core_terms::{Hash32, Spelling};
use std::alloc::{AllocError, Global};
use value_store::{Own, Ref};

/// A run that has come to its end, with a proof that fits into a message.
#[derive(Drop)]
pub struct RunEnd {
    /// The version that it ran on.
    pub version: usize,
    /// The node of the state that it made, if it made one.
    pub made: Option<Ref>,
    /// The nodes that it put, over the first `from` of the store.
    pub own: Own,
    pub from: usize,
    /// The call.
    pub call: Commit,
}

/// How the end of a run is settled.
#[derive(Drop)]
pub enum Settled {
    /// Its proof is sent, and its session stands at this version.
    Proved(usize),
    /// Its version isn't the last one: its session ends, and is told the spelling of the last one.
    Stale(Spelling),
}

impl Shared {
    ghost use Rattle.session_turns.specs.Settling.{EndsSo, IsSettled};

    /// Settles the end of a run. Of a state that it made, where its version is the last one, a version is made, and the call is
    /// committed.
    ///
    /// # Errors
    ///
    /// `AllocError` where there is no memory for the version or for the spelling of the last one. The versions and the commits stay then,
    /// though nodes may have been put behind.
    pub fn settle<H: Hash32>(
        &mut self,
        alloc: Global,
        code: &Code,
        ended: RunEnd,
    ) -> Result<Settled, AllocError>
        requires shares { (shared : meant.Shared) × Shares H.hash (program_of code.now) self.old shared }
        requires version { ended.version < length self.old.versions.items }
        requires within { ended.from ≤ length (nodes_in self.old.store) }
        requires sound { AreSound self.old.store.limit (take ended.from (nodes_in self.old.store) ++ own_nodes ended.own) }
        requires made { IfSome ended.made (λ r. r.0 < ended.from + length (own_nodes ended.own)) }
        ensures settled { let P = program_of code.now in IfOk result
            (λ settled. (number : ℕ) (s : meant.Session) (call : RoleCall) (frames : List Frame) (made : Option Value) (shared : meant.Shared)
            → Shares H.hash P self.old shared → EndsSo H.hash P (nodes_in self.old.store) ended s call frames made
            → let t = meant.frames_turn H.hash P (meant.fits_message frames) made number s call frames shared in
            Shares H.hash P self.new t.shared × IsSettled number s frames settled t) }
        ensures refused { OnErr result ((hash : Hash) (P : Program) (shared : meant.Shared) → Shares hash P self.old shared → Shares hash P self.new shared) }
        ensures grows { Grows (nodes_in self.old.store) (nodes_in self.new.store) }
    {
        let RunEnd {
            version,
            made,
            own,
            from,
            call,
        } = ended;
        let Some(made) = made else {
            return Ok(Settled::Proved(version));
        };
        let number = self.versions.len();
        if version + 1 != number {
            let last = self.last_spelling::<H>(alloc, code)?;
            return Ok(Settled::Stale(last));
        }
        self.commit(own, from, made, call)?;
        Ok(Settled::Proved(number))
    }
}
