// The requests, one by one.
ghost use Rattle.std.specs.Prelude.{◌≡◌, ◌≤◌, ◌^◌, [], Some, IfOk, OnErr};
ghost use Rattle.code_gen.specs.Programs.{program_in};
ghost use Rattle.mode_vm.specs.Meanings.{program_of};
ghost use Rattle.session_meaning.specs.Calls.{RoleCall};
ghost use Rattle.session_meaning.specs.Server as meant;
ghost use Rattle.session_meaning.specs.Stopped.{RoundsReach};
ghost use Rattle.session_meaning.specs.Tables.{find, put};
ghost use Rattle.session_turns.specs.Granting.{HoldsCall};
ghost use Rattle.session_turns.specs.Sharing.{IsCommit, Shares};
ghost use Rattle.value_store.specs.Stores.{nodes_in};
ghost use Rattle.wire_form.specs.MessageViews.{request_meant};
ghost use Rattle.serve_core.specs.Requests.{IsRefusal, RequestReaches};

use crate::heard::Replies;
use crate::server::ServeCore;
use core_terms::{Digest, Hash32, Piece, RoleId};
use reuse_buffer::Ring;
use session_tables::Table;
use session_turns::{Commit, Denial, Gate, Granted, Refusal, Room, Running, Session, SessionCall};
use std::alloc::{AllocError, Global};
use std::mem;
use std::thread::Threads;
use wire_form::{Reply, Request};

/// The number of the cause in a message: the session was asked to end.
const LEFT: u8 = 0;

impl<H: Hash32, G: Gate + Drop> ServeCore<H, G> {
    ghost use Rattle.serve_core.specs.Requests.{IsAdmitted};
    ghost use Rattle.serve_core.specs.Serving.{HandlesAs, Serves};

    /// A request that counts.
    pub(crate) fn request<R: Threads + Sync>(
        &mut self,
        rt: &R,
        request: Request,
    ) -> Result<Replies, AllocError>
        requires serves { (server : meant.Server) × Serves H.hash self.old server }
        ensures answered { let P = program_of self.old.code in let own = (program_in self.old.code).text_digest.0 in
            IfOk result (λ replies. (server : meant.Server) → Serves H.hash self.old server
            → HandlesAs H.hash self.new replies (meant.request_step H.hash P own (meant.last_turn self.old.slice) server (request_meant request))) }
        ensures stopped { let P = program_of self.old.code in OnErr result ((server : meant.Server) → Serves H.hash self.old server
            → (reached : meant.Shared) × RequestReaches H.hash P (meant.last_turn self.old.slice) server (request_meant request) reached
            × Shares H.hash P self.new.shared reached) }
        ensures code { self.new.code ≡ self.old.code }
        ensures slice { self.new.slice ≡ self.old.slice }
    {
        match request {
            Request::Hello {
                session,
                program,
                kept,
                state,
            } => self.hello(session, &program, kept, state.as_bytes()),
            Request::Call {
                session,
                role,
                fuel,
                argument,
            } => self.call(session, role, fuel, argument),
            Request::Go { rounds } => self.go(rt, rounds),
            Request::Bye { session } => self.bye(session),
        }
    }

    /// A session begins under this number, if the greeting passes its tests.
    fn hello(
        &mut self,
        number: u16,
        program: &Digest,
        kept: u16,
        state: &[u8],
    ) -> Result<Replies, AllocError>
        requires serves { (server : meant.Server) × Serves H.hash self.old server }
        ensures answered { let P = program_of self.old.code in let own = (program_in self.old.code).text_digest.0 in
            IfOk result (λ replies. (server : meant.Server) → Serves H.hash self.old server → HandlesAs H.hash self.new replies
            (meant.hello_step (meant.hello_test H.hash P own (meant.last_turn self.old.slice) server number program.now.0 kept state.now) server number kept)) }
        ensures shares { let P = program_of self.old.code in (m : meant.Shared) → Shares H.hash P self.old.shared m → Shares H.hash P self.new.shared m }
        ensures code { self.new.code ≡ self.old.code }
        ensures slice { self.new.slice ≡ self.old.slice }
    {
        let room = Room {
            sessions: self.sessions.count(),
            taken: self.sessions.find(number).is_some(),
        };
        let version = match self
            .shared
            .greet::<H>(self.alloc, &self.code, room, program, kept, state)
        {
            Ok(version) => version,
            Err(denial) => return refused(self.alloc, number, denial),
        };
        let ring = Ring::with_size(self.alloc, kept)?;
        let session = Session {
            version,
            ring,
            running: None,
        };
        self.sessions.put(number, session)?;
        Replies::one(self.alloc, Reply::Welcome { session: number }, false)
    }

    /// A call begins to run in the session with this number, if it passes its tests.
    fn call(
        &mut self,
        number: u16,
        role: u16,
        fuel: u64,
        argument: Piece,
    ) -> Result<Replies, AllocError>
        requires serves { (server : meant.Server) × Serves H.hash self.old server }
        ensures answered { let P = program_of self.old.code in let own = (program_in self.old.code).text_digest.0 in
            IfOk result (λ replies. (server : meant.Server) → Serves H.hash self.old server → HandlesAs H.hash self.new replies
            (meant.call_step (meant.call_test H.hash P own (meant.last_turn self.old.slice) server number role fuel argument) server number)) }
        ensures shared { self.new.shared ≡ self.old.shared }
        ensures code { self.new.code ≡ self.old.code }
        ensures slice { self.new.slice ≡ self.old.slice }
    {
        match self.admit(number, role, fuel, argument.as_bytes()) {
            Ok(granted) => {
                let call = Commit {
                    role: RoleId(usize::from(role)),
                    argument,
                    fuel,
                };
                self.start(number, granted, call)?;
                Ok(Replies {
                    list: Vec::new(self.alloc),
                    closing: false,
                })
            }
            Err(denial) => refused(self.alloc, number, denial),
        }
    }

    /// Tests a call in the session with this number.
    ///
    /// # Errors
    ///
    /// In this order: `NoSession`, `CallRuns`, and those of [`Shared::grant`](session_turns::Shared::grant).
    fn admit(&self, number: u16, role: u16, fuel: u64, argument: &[u8]) -> Result<Granted, Denial>
        requires serves { (server : meant.Server) × Serves H.hash self.now server }
        ensures { let P = program_of self.now.code in let own = (program_in self.now.code).text_digest.0 in (server : meant.Server)
            → Serves H.hash self.now server → IsAdmitted H.hash P (nodes_in self.now.shared.store) role fuel argument.now result
            (meant.call_test H.hash P own (meant.last_turn self.now.slice) server number role fuel argument.now) }
    {
        let Some(session) = self.sessions.find(number) else {
            return Err(Denial::Refused(Refusal::NoSession));
        };
        if session.running.is_some() {
            return Err(Denial::Refused(Refusal::CallRuns));
        }
        self.shared
            .grant::<H>(self.alloc, &self.code, role, fuel, argument)
    }

    /// Starts a granted call in the session with this number, which is there and in which none runs.
    fn start(&mut self, number: u16, granted: Granted, call: Commit) -> Result<(), AllocError>
        requires serves { let P = program_of self.old.code in (server : meant.Server) × (s : meant.Session) × (c : RoleCall) × Serves H.hash self.old server
            × (find number server.sessions ≡ Some s) × HoldsCall H.hash P (nodes_in self.old.shared.store) granted c.role c.argument }
        requires fuel_fits { call.fuel ≤ 10 ^ 12 }
        ensures started { let P = program_of self.old.code in IfOk result (λ _. (server : meant.Server) (s : meant.Session) (c : RoleCall)
            → Serves H.hash self.old server → find number server.sessions ≡ Some s
            → HoldsCall H.hash P (nodes_in self.old.shared.store) granted c.role c.argument → IsCommit call c
            → Serves H.hash self.new (meant.sessions_step server (put number (meant.with_run s c 0) server.sessions) []).server) }
        ensures shared { self.new.shared ≡ self.old.shared }
        ensures code { self.new.code ≡ self.old.code }
        ensures slice { self.new.slice ≡ self.old.slice }
    {
        let Some(session) = self.sessions.take(number) else {
            unreachable!()
        };
        let Session { version, ring, .. } = session;
        let state = self.shared.version(version);
        let run = Running::start(self.alloc, &self.code, granted, state, call.fuel)?;
        let session = Session {
            version,
            ring,
            running: Some(SessionCall { run, call }),
        };
        self.sessions.put(number, session)
    }

    /// So many rounds of turns.
    fn go<R: Threads + Sync>(&mut self, rt: &R, rounds: u32) -> Result<Replies, AllocError>
        requires serves { (server : meant.Server) × Serves H.hash self.old server }
        ensures answered { let P = program_of self.old.code in IfOk result (λ replies. (server : meant.Server) → Serves H.hash self.old server
            → HandlesAs H.hash self.new replies (meant.go_step server (meant.rounds H.hash P (meant.last_turn self.old.slice) rounds server.sessions server.shared))) }
        ensures stopped { let P = program_of self.old.code in OnErr result ((server : meant.Server) → Serves H.hash self.old server
            → (reached : meant.Shared) × RoundsReach H.hash P (meant.last_turn self.old.slice) rounds server.sessions server.shared reached
            × Shares H.hash P self.new.shared reached) }
        ensures code { self.new.code ≡ self.old.code }
        ensures slice { self.new.slice ≡ self.old.slice }
    {
        let entries = mem::replace(&mut self.sessions, Table::new(self.alloc)).into_entries();
        let mut list = Vec::new(self.alloc);
        let left = self.shared.rounds::<H, G, R>(
            rt, self.alloc, &self.code, entries, rounds, self.slice, &self.gate, &mut list,
        )?;
        self.sessions = Table::from_entries(left);
        Ok(Replies {
            list,
            closing: false,
        })
    }

    /// The session with this number ends, and a call that runs in it is dropped.
    fn bye(&mut self, number: u16) -> Result<Replies, AllocError>
        requires serves { (server : meant.Server) × Serves H.hash self.old server }
        ensures answered { IfOk result (λ replies. (server : meant.Server) → Serves H.hash self.old server
            → HandlesAs H.hash self.new replies (meant.bye_step (find number server.sessions) server number)) }
        ensures shared { self.new.shared ≡ self.old.shared }
        ensures code { self.new.code ≡ self.old.code }
        ensures slice { self.new.slice ≡ self.old.slice }
    {
        let Some(_) = self.sessions.take(number) else {
            return refused(self.alloc, number, Denial::Refused(Refusal::NoSession));
        };
        let reply = Reply::Closed {
            session: number,
            cause: LEFT,
        };
        Replies::one(self.alloc, reply, false)
    }
}

/// The refusal of a request in the session with this number. Answers `AllocError` where memory was wanting for the request, or is for the reply.
fn refused(alloc: Global, number: u16, denial: Denial) -> Result<Replies, AllocError>
    ensures { IfOk result (λ replies. IsRefusal number denial replies) }
{
    match denial {
        Denial::Refused(refusal) => Replies::one(
            alloc,
            Reply::Refused {
                session: number,
                cause: refusal.cause(),
            },
            false,
        ),
        Denial::NoMemory => Err(AllocError),
    }
}
