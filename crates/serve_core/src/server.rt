// The server machine over nodes.
ghost use Rattle.std.specs.Prelude.{◌≡◌, ◌<◌, true, [], ◌∷◌, IfOk, OnErr};
ghost use Rattle.core_terms.specs.Values.{Value};
ghost use Rattle.code_gen.specs.Programs.{program_in};
ghost use Rattle.mode_vm.specs.Meanings.{program_of};
ghost use Rattle.session_meaning.specs.Server as meant;
ghost use Rattle.session_meaning.specs.Stopped.{IsStopped, Reaches};
ghost use Rattle.session_tables.specs.Tables.{rows_of};
ghost use Rattle.session_turns.specs.Sharing.{Shares};
ghost use Rattle.session_turns.specs.Versions.{IsVersion};
ghost use Rattle.value_store.specs.Markings.{HasLimit};
ghost use Rattle.value_store.specs.Stores.{nodes_in, store_lent};
ghost use Rattle.wire_form.specs.MessageViews.{reply_meant};

use crate::heard::{Heard, Replies};
use code_gen::Code;
use core_terms::Hash32;
use session_tables::Table;
use session_turns::{Commit, Gate, Refusal, Session, Shared};
use std::alloc::{AllocError, Global};
use std::thread::Threads;
use value_store::{Ref, Store};
use wire_form::Reply;

/// The greatest number of messages of a connection.
const MAX_MESSAGES: u32 = 1_000_000;

/// The number of the cause in a message: there were too many.
const MANY_MESSAGES: u8 = 1;

/// The server of a program: versions of its state with the commits that made them, and the sessions of a connection.
#[derive(Drop)]
pub struct ServeCore<H, G> {
    pub(crate) alloc: Global,
    pub(crate) code: Code,
    /// The greatest number of calls of functions in a turn.
    pub(crate) slice: u64,
    pub(crate) shared: Shared,
    /// The number of messages on this connection.
    pub(crate) heard: u32,
    pub(crate) sessions: Table<Session<H>>,
    /// What each turn passes first.
    pub(crate) gate: G,
    ghost some: { 0 < slice },
}

impl<H: Hash32, G: Gate + Drop> ServeCore<H, G> {
    ghost use Rattle.serve_core.specs.Serving.{HandlesAs, Serves, heard_meant};

    /// A server whose first version is this node, before its first connection. A turn makes at most `slice` calls of functions, 1 at least,
    /// and passes the gate first.
    ///
    /// # Errors
    ///
    /// `AllocError` where memory is wanting.
    pub fn new(
        alloc: Global,
        code: Code,
        store: Store,
        root: Ref,
        slice: u64,
        gate: G,
    ) -> Result<Self, AllocError>
        requires { 0 < slice }
        ensures serves { let P = program_of code in IfOk result (λ core. (v : Value) → HasLimit P (store_lent store) → IsVersion H.hash P (nodes_in store) root v → Serves H.hash core (meant.new_server v)) }
        ensures code { IfOk result (λ core. core.code ≡ code) }
        ensures slice { IfOk result (λ core. core.slice ≡ slice) }
    {
        Ok(ServeCore {
            alloc,
            code,
            slice,
            shared: Shared::new(alloc, store, root)?,
            heard: 0,
            sessions: Table::new(alloc),
            gate,
        })
    }

    /// A server with the versions and the commits of what is shared, before its first connection. A turn makes at most `slice` calls of
    /// functions, 1 at least, and passes the gate first.
    pub fn resume(alloc: Global, code: Code, shared: Shared, slice: u64, gate: G) -> Self
        requires { 0 < slice }
        ensures serves { let P = program_of code in (begun : meant.Shared) → Shares H.hash P shared begun → Serves H.hash result (meant.begun_server begun) }
        ensures code { result.code ≡ code }
        ensures slice { result.slice ≡ slice }
        ensures shared { result.shared ≡ shared }
    {
        ServeCore {
            alloc,
            code,
            slice,
            shared,
            heard: 0,
            sessions: Table::new(alloc),
            gate,
        }
    }

    /// Hears a message, and answers it. The turns of a round run at once on threads; the answer is that of one thread.
    ///
    /// # Errors
    ///
    /// `AllocError` where memory is wanting: all sessions are ended, and the versions and the commits are those after some of the turns of
    /// this message, in order.
    pub fn handle<R: Threads + Sync>(&mut self, rt: &R, heard: Heard) -> Result<Replies, AllocError>
        requires serves { (server : meant.Server) × Serves H.hash self.old server }
        ensures handled { let P = program_of self.old.code in let own = (program_in self.old.code).text_digest.0 in
            IfOk result (λ replies. (server : meant.Server) → Serves H.hash self.old server
            → HandlesAs H.hash self.new replies (meant.handle H.hash P own (meant.last_turn self.old.slice) server (heard_meant heard))) }
        ensures stopped { let P = program_of self.old.code in OnErr result ((server : meant.Server) → Serves H.hash self.old server
            → (stopped : meant.Server) × IsStopped H.hash P (meant.last_turn self.old.slice) server (heard_meant heard) stopped × Serves H.hash self.new stopped) }
        ensures code { self.new.code ≡ self.old.code }
        ensures slice { self.new.slice ≡ self.old.slice }
    {
        let answer = self.answer(rt, heard);
        if answer.is_err() {
            self.end_sessions();
        }
        answer
    }

    /// The answer to a message. Where memory is wanting, what is shared is as behind some of the turns of this message.
    fn answer<R: Threads + Sync>(&mut self, rt: &R, heard: Heard) -> Result<Replies, AllocError>
        requires serves { (server : meant.Server) × Serves H.hash self.old server }
        ensures handled { let P = program_of self.old.code in let own = (program_in self.old.code).text_digest.0 in
            IfOk result (λ replies. (server : meant.Server) → Serves H.hash self.old server
            → HandlesAs H.hash self.new replies (meant.handle H.hash P own (meant.last_turn self.old.slice) server (heard_meant heard))) }
        ensures stopped { let P = program_of self.old.code in OnErr result ((server : meant.Server) → Serves H.hash self.old server
            → (reached : meant.Shared) × Reaches H.hash P (meant.last_turn self.old.slice) server (heard_meant heard) reached × Shares H.hash P self.new.shared reached) }
        ensures code { self.new.code ≡ self.old.code }
        ensures slice { self.new.slice ≡ self.old.slice }
    {
        match heard {
            Heard::Request(request) => {
                if self.heard >= MAX_MESSAGES {
                    return self.close(Reply::Closed {
                        session: 0,
                        cause: MANY_MESSAGES,
                    });
                }
                self.heard += 1;
                self.request(rt, request)
            }
            Heard::Bad => {
                if self.heard >= MAX_MESSAGES {
                    return self.close(Reply::Closed {
                        session: 0,
                        cause: MANY_MESSAGES,
                    });
                }
                self.close(Reply::Refused {
                    session: 0,
                    cause: Refusal::NoMessage.cause(),
                })
            }
            Heard::End => {
                self.end_sessions();
                Ok(Replies {
                    list: Vec::new(self.alloc),
                    closing: false,
                })
            }
        }
    }

    /// Ends all sessions with this reply, and closes the connection.
    fn close(&mut self, reply: Reply) -> Result<Replies, AllocError>
        ensures closed { IfOk result (λ replies. (server : meant.Server) → Serves H.hash self.old server
            → HandlesAs H.hash self.new replies (meant.end_step server (reply_meant reply ∷ []) true)) }
        ensures shared { self.new.shared ≡ self.old.shared }
        ensures code { self.new.code ≡ self.old.code }
        ensures slice { self.new.slice ≡ self.old.slice }
    {
        let replies = Replies::one(self.alloc, reply, true)?;
        self.end_sessions();
        Ok(replies)
    }

    /// Ends all sessions: the next message is the first of a connection. Calls that run are dropped.
    pub fn end_sessions(&mut self)
        ensures sessions { rows_of self.new.sessions ≡ [] }
        ensures heard { self.new.heard ≡ 0 }
        ensures shared { self.new.shared ≡ self.old.shared }
        ensures code { self.new.code ≡ self.old.code }
        ensures slice { self.new.slice ≡ self.old.slice }
    {
        self.sessions = Table::new(self.alloc);
        self.heard = 0;
    }

    /// The store in which the versions stand.
    pub fn store(&self) -> &Store
        ensures { result.now ≡ self.now.shared.store }
    {
        self.shared.store()
    }

    /// The versions, the first one first.
    pub fn versions(&self) -> &[Ref]
        ensures { result.now ≡ self.now.shared.versions.items }
    {
        self.shared.versions()
    }

    /// The commits, the first one first: each made the next version.
    pub fn commits(&self) -> &[Commit]
        ensures { result.now ≡ self.now.shared.commits.items }
    {
        self.shared.commits()
    }

    /// The code of the program.
    pub fn code(&self) -> &Code
        ensures { result.now ≡ self.now.code }
    {
        &self.code
    }
}
