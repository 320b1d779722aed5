// Rounds of turns over sessions in a row.
ghost use Rattle.std.specs.Prelude.{ℕ, ◌<◌, List, IfOk, OnErr};
ghost use Rattle.mode_vm.specs.Meanings.{program_of};
ghost use Rattle.session_meaning.specs.Server as meant;
ghost use Rattle.session_meaning.specs.Stopped.{RoundReaches, RoundsReach};
ghost use Rattle.session_meaning.specs.Tables.{Numbered};

use crate::gate::Gate;
use crate::session::Session;
use crate::shared::Shared;
use crate::turning;
use code_gen::Code;
use core_terms::Hash32;
use session_tables::Entry;
use std::alloc::{AllocError, Global};
use std::thread::Threads;
use wire_form::Reply;

impl Shared {
    ghost use Rattle.session_turns.specs.Sharing.{Shares};
    ghost use Rattle.session_turns.specs.Rounds.{AreSessions, IsRound};

    /// A turn of each session, in this order: of a call that runs in it so many calls of functions more (1 at least), or those up to
    /// its end. The sessions that are left, in the same order; the replies are added behind those that are there. Where memory is
    /// wanting the sessions are dropped, and what is shared is as behind some of the turns.
    ///
    /// The calls run at once on threads, each on its own nodes; then the turns are settled one after another.
    pub fn round<H: Hash32, G: Gate, R: Threads + Sync>(
        &mut self,
        rt: &R,
        alloc: Global,
        code: &Code,
        entries: Vec<Entry<Session<H>>>,
        units: u64,
        gate: &G,
        replies: &mut Vec<Reply>,
    ) -> Result<Vec<Entry<Session<H>>>, AllocError>
        requires shares { (m : meant.Shared) × (xs : List (Numbered meant.Session)) × Shares H.hash (program_of code.now) self.old m
            × AreSessions H.hash code.now units self.old m.versions entries.items xs }
        requires some { 0 < units }
        ensures turned { let P = program_of code.now in IfOk result (λ left. (m : meant.Shared) (xs : List (Numbered meant.Session))
            → Shares H.hash P self.old m → AreSessions H.hash code.now units self.old m.versions entries.items xs
            → IsRound H.hash code.now units self.new left.items replies.old.items replies.new.items (meant.round H.hash P (meant.last_turn units) xs m)) }
        ensures refused { let P = program_of code.now in OnErr result ((m : meant.Shared) (xs : List (Numbered meant.Session))
            → Shares H.hash P self.old m → AreSessions H.hash code.now units self.old m.versions entries.items xs
            → (reached : meant.Shared) × RoundReaches H.hash P (meant.last_turn units) xs m reached × Shares H.hash P self.new reached) }
    {
        let mut entries = entries;
        turning::round(rt, code, &self.store, entries.as_mut_slice(), units, gate);
        self.settle_turns::<H>(alloc, code, entries, replies)
    }

    /// So many rounds, each as [`Shared::round`], ended early where no call runs. Where memory is wanting the sessions are dropped, and
    /// what is shared is as behind some of the turns.
    pub fn rounds<H: Hash32, G: Gate, R: Threads + Sync>(
        &mut self,
        rt: &R,
        alloc: Global,
        code: &Code,
        entries: Vec<Entry<Session<H>>>,
        rounds: u32,
        units: u64,
        gate: &G,
        replies: &mut Vec<Reply>,
    ) -> Result<Vec<Entry<Session<H>>>, AllocError>
        requires shares { (m : meant.Shared) × (xs : List (Numbered meant.Session)) × Shares H.hash (program_of code.now) self.old m
            × AreSessions H.hash code.now units self.old m.versions entries.items xs }
        requires some { 0 < units }
        ensures turned { let P = program_of code.now in IfOk result (λ left. (m : meant.Shared) (xs : List (Numbered meant.Session))
            → Shares H.hash P self.old m → AreSessions H.hash code.now units self.old m.versions entries.items xs
            → IsRound H.hash code.now units self.new left.items replies.old.items replies.new.items (meant.rounds H.hash P (meant.last_turn units) rounds xs m)) }
        ensures refused { let P = program_of code.now in OnErr result ((m : meant.Shared) (xs : List (Numbered meant.Session))
            → Shares H.hash P self.old m → AreSessions H.hash code.now units self.old m.versions entries.items xs
            → (reached : meant.Shared) × RoundsReach H.hash P (meant.last_turn units) rounds xs m reached × Shares H.hash P self.new reached) }
    {
        let mut left = entries;
        for _ in 0..rounds {
            if !turning::any_runs(&left) {
                return Ok(left);
            }
            left = self.round::<H, G, R>(rt, alloc, code, left, units, gate, replies)?;
        }
        Ok(left)
    }
}
