// The turns that were taken in a round, settled one after another.
ghost use Rattle.std.specs.Prelude.{ℕ, [], ◌∷◌, List, IfOk, OnErr};
ghost use Rattle.mode_vm.specs.Meanings.{program_of};
ghost use Rattle.session_meaning.specs.Server as meant;
ghost use Rattle.session_meaning.specs.Stopped.{RoundReaches};
ghost use Rattle.session_meaning.specs.Tables.{Numbered};
ghost use Rattle.value_store.specs.Standing.{Grows};
ghost use Rattle.value_store.specs.Stores.{nodes_in};

use crate::session::{Session, Turned};
use crate::shared::Shared;
use code_gen::Code;
use core_terms::Hash32;
use session_tables::Entry;
use std::alloc::{AllocError, Global};
use wire_form::Reply;

impl Shared {
    ghost use Rattle.session_turns.specs.Ahead.{AreAhead, IsNumberedAhead};
    ghost use Rattle.session_turns.specs.Rounds.{IsRound, entries_of};
    ghost use Rattle.session_turns.specs.Sharing.{Shares};

    /// Settles the turn that was taken in a session under its number; the reply is added behind those that are there. What is left of the
    /// session, if it doesn't end.
    fn settle_turn<H: Hash32>(
        &mut self,
        alloc: Global,
        code: &Code,
        entry: Entry<Session<H>>,
        replies: &mut Vec<Reply>,
    ) -> Result<Option<Entry<Session<H>>>, AllocError>
        requires { (slice : ℕ) × (m : meant.Shared) × (x : Numbered meant.Session) × Shares H.hash (program_of code.now) self.old m
            × IsNumberedAhead H.hash code.now slice self.old m.versions entry x }
        ensures turned { let P = program_of code.now in IfOk result (λ left. (slice : ℕ) (m : meant.Shared) (x : Numbered meant.Session)
            → Shares H.hash P self.old m → IsNumberedAhead H.hash code.now slice self.old m.versions entry x
            → IsRound H.hash code.now slice self.new (entries_of left) replies.old.items replies.new.items
            (meant.turn H.hash P (meant.last_turn slice) x.number x.value m)) }
        ensures refused { let P = program_of code.now in OnErr result ((slice : ℕ) (m : meant.Shared) (x : Numbered meant.Session)
            → Shares H.hash P self.old m → IsNumberedAhead H.hash code.now slice self.old m.versions entry x
            → (reached : meant.Shared) × RoundReaches H.hash P (meant.last_turn slice) (x ∷ []) m reached × Shares H.hash P self.new reached) }
        ensures grows { Grows (nodes_in self.old.store) (nodes_in self.new.store) }
    {
        let Entry { number, value } = entry;
        let Turned { session, reply } = value.settle(self, alloc, code, number)?;
        if let Some(reply) = reply {
            replies.push(reply)?;
        }
        match session {
            Some(value) => Ok(Some(Entry { number, value })),
            None => Ok(None),
        }
    }

    /// Settles the turns that were taken in a round, in this order. The sessions that are left, in the same order; the replies are added
    /// behind those that are there. Where memory is wanting, or was in a turn, the sessions are dropped, and what is shared is as behind
    /// some of the turns.
    pub(crate) fn settle_turns<H: Hash32>(
        &mut self,
        alloc: Global,
        code: &Code,
        entries: Vec<Entry<Session<H>>>,
        replies: &mut Vec<Reply>,
    ) -> Result<Vec<Entry<Session<H>>>, AllocError>
        requires { (slice : ℕ) × (m : meant.Shared) × (xs : List (Numbered meant.Session)) × Shares H.hash (program_of code.now) self.old m
            × AreAhead H.hash code.now slice self.old m.versions entries.items xs }
        ensures turned { let P = program_of code.now in IfOk result (λ left. (slice : ℕ) (m : meant.Shared) (xs : List (Numbered meant.Session))
            → Shares H.hash P self.old m → AreAhead H.hash code.now slice self.old m.versions entries.items xs
            → IsRound H.hash code.now slice self.new left.items replies.old.items replies.new.items (meant.round H.hash P (meant.last_turn slice) xs m)) }
        ensures refused { let P = program_of code.now in OnErr result ((slice : ℕ) (m : meant.Shared) (xs : List (Numbered meant.Session))
            → Shares H.hash P self.old m → AreAhead H.hash code.now slice self.old m.versions entries.items xs
            → (reached : meant.Shared) × RoundReaches H.hash P (meant.last_turn slice) xs m reached × Shares H.hash P self.new reached) }
    {
        let mut left = Vec::new(alloc);
        for entry in entries {
            if let Some(entry) = self.settle_turn::<H>(alloc, code, entry, replies)? {
                left.push(entry)?;
            }
        }
        Ok(left)
    }
}
