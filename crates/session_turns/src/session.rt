// One session, and a turn of it.
ghost use Rattle.std.specs.Prelude.{◌≡◌, ℕ, ◌<◌, ◌≤◌, ◌+◌, ◌++◌, List, Option, length, take, IfOk, IfSome, OnErr};
ghost use Rattle.core_terms.specs.Formats.{Hash};
ghost use Rattle.core_terms.specs.Terms.{Program};
ghost use Rattle.core_terms.specs.Values.{Value};
ghost use Rattle.ideal_meaning.specs.Frames.{Frame, frame_bytes};
ghost use Rattle.ideal_meaning.specs.Following.{after_frames};
ghost use Rattle.mode_vm.specs.Meanings.{program_of};
ghost use Rattle.reuse_buffer.specs.Kept.{kept};
ghost use Rattle.session_meaning.specs.Calls.{RoleCall};
ghost use Rattle.session_meaning.specs.Server as meant;
ghost use Rattle.value_store.specs.Nodes.{AreSound};
ghost use Rattle.value_store.specs.Overs.{own_nodes};
ghost use Rattle.value_store.specs.Standing.{Grows};
ghost use Rattle.value_store.specs.Stores.{nodes_in};
ghost use Rattle.session_turns.specs.Settling.{EndsSo};
ghost use Rattle.session_turns.specs.Sharing.{Shares};

use crate::commit::Commit;
use crate::finishing::Finished;
use crate::refusal::Refusal;
use crate::running::Running;
use crate::settling::Settled;
use crate::shared::Shared;
use code_gen::Code;
use core_terms::{Hash32, Piece};
use reuse_buffer::Ring;
use std::alloc::{AllocError, Global};
use wire_form::Reply;

/// A session of a server.
#[derive(Drop)]
pub struct Session<H> {
    /// The number of its version.
    pub version: usize,
    /// The last new pieces of its proofs.
    pub ring: Ring,
    /// Its call, if one runs.
    pub running: Option<SessionCall<H>>,
}

/// A call that runs in a session.
#[derive(Drop)]
pub struct SessionCall<H> {
    pub run: Running<H>,
    /// What is committed if it makes a version.
    pub call: Commit,
}

/// What a turn leaves of a session, if it doesn't end, and the reply, if there is one.
#[derive(Drop)]
pub struct Turned<H> {
    pub session: Option<Session<H>>,
    pub reply: Option<Reply>,
}

impl Shared {
    ghost use Rattle.session_turns.specs.Sessions.{IsTurned};

    /// Settles the end of a run in the session with this number.
    fn end_turn<H: Hash32>(
        &mut self,
        alloc: Global,
        code: &Code,
        number: u16,
        finished: Finished,
    ) -> Result<Turned<H>, AllocError>
        requires shares { (m : meant.Shared) × Shares H.hash (program_of code.now) self.old m }
        requires version { finished.ended.version < length self.old.versions.items }
        requires within { finished.ended.from ≤ length (nodes_in self.old.store) }
        requires sound { AreSound self.old.store.limit (take finished.ended.from (nodes_in self.old.store) ++ own_nodes finished.ended.own) }
        requires made { IfSome finished.ended.made (λ r. r.0 < finished.ended.from + length (own_nodes finished.ended.own)) }
        ensures turned { let P = program_of code.now in IfOk result
            (λ turned. (slice : ℕ) (m : meant.Shared) (s : meant.Session) (call : RoleCall) (frames : List Frame) (made : Option Value)
            → Shares H.hash P self.old m → EndsSo H.hash P (nodes_in self.old.store) finished.ended s call frames made
            → finished.frames.items ≡ frame_bytes frames → finished.ring ≡ kept s.kept (after_frames frames s.recent)
            → IsTurned H.hash code.now slice self.new number turned (meant.frames_turn H.hash P (meant.fits_message frames) made number s call frames m)) }
        ensures refused { OnErr result ((hash : Hash) (P : Program) (m : meant.Shared) → Shares hash P self.old m → Shares hash P self.new m) }
        ensures grows { Grows (nodes_in self.old.store) (nodes_in self.new.store) }
    {
        let Finished {
            frames,
            ring,
            ended,
        } = finished;
        match self.settle::<H>(alloc, code, ended)? {
            Settled::Proved(version) => Ok(Turned {
                session: Some(Session {
                    version,
                    ring,
                    running: None,
                }),
                reply: Some(Reply::Proof {
                    session: number,
                    frames: Piece::new(frames),
                }),
            }),
            Settled::Stale(state) => Ok(Turned {
                session: None,
                reply: Some(Reply::Stale {
                    session: number,
                    state,
                }),
            }),
        }
    }
}

impl<H: Hash32> Session<H> {
    ghost use Rattle.session_turns.specs.Ahead.{IsAhead};
    ghost use Rattle.session_turns.specs.Sessions.{IsTurned};

    /// Settles the turn that was taken in the session with this number: a call that has run ends, and one that goes on stays. A proof that
    /// is too long for a message ends the session, and nothing of the call stays. Where memory is wanting, or was in the turn, the session
    /// is dropped; the versions and the commits stay, though nodes may have been put behind.
    pub fn settle(
        self,
        shared: &mut Shared,
        alloc: Global,
        code: &Code,
        number: u16,
    ) -> Result<Turned<H>, AllocError>
        requires { (slice : ℕ) × (m : meant.Shared) × (s : meant.Session) × Shares H.hash (program_of code.now) shared.old m
            × IsAhead H.hash code.now slice (nodes_in shared.old.store) m.versions self s }
        ensures turned { let P = program_of code.now in IfOk result (λ turned. (slice : ℕ) (m : meant.Shared) (s : meant.Session) → Shares H.hash P shared.old m
            → IsAhead H.hash code.now slice (nodes_in shared.old.store) m.versions self s
            → IsTurned H.hash code.now slice shared.new number turned (meant.turn H.hash P (meant.last_turn slice) number s m)) }
        ensures refused { OnErr result ((hash : Hash) (P : Program) (m : meant.Shared) → Shares hash P shared.old m → Shares hash P shared.new m) }
        ensures grows { Grows (nodes_in shared.old.store) (nodes_in shared.new.store) }
    {
        let Session {
            version,
            ring,
            running,
        } = self;
        let Some(SessionCall { run, call }) = running else {
            let session = Session {
                version,
                ring,
                running: None,
            };
            return Ok(Turned {
                session: Some(session),
                reply: None,
            });
        };
        let told = run.last?;
        if told.is_none() {
            let session = Session {
                version,
                ring,
                running: Some(SessionCall { run, call }),
            };
            return Ok(Turned {
                session: Some(session),
                reply: None,
            });
        }
        match run.finish(alloc, code, &shared.store, ring, version, call)? {
            Some(finished) => shared.end_turn::<H>(alloc, code, number, finished),
            None => Ok(Turned {
                session: None,
                reply: Some(Reply::Refused {
                    session: number,
                    cause: Refusal::LongProof.cause(),
                }),
            }),
        }
    }
}
