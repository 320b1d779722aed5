// The core.
ghost use Rattle.std.specs.Prelude.{◌≡◌, ◌≤◌, ◌^◌, true, Some, None, IfOk, IfErr, OnErr, option_copied};
ghost use Rattle.core_terms.specs.Programs.{meaning};
ghost use Rattle.code_gen.specs.Programs.{program_in};
ghost use Rattle.mode_vm.specs.Meanings.{program_of};
ghost use Rattle.session_meaning.specs.Client.{Byes, Calls, Client, Forgets, Hears, Hellos, new_client, state_of, take_event, waits};
ghost use Rattle.session_meaning.specs.Messages.{session_of};
ghost use Rattle.session_meaning.specs.Tables.{find, put, remove};
ghost use Rattle.session_tables.specs.Tables.{HasRoom, rows_of};
ghost use Rattle.wire_form.specs.MessageViews.{reply_meant};
ghost use Rattle.ask_core.specs.Answers.{Asks};
ghost use Rattle.ask_core.specs.Clients.{IsClient};
ghost use Rattle.ask_core.specs.Replies.{ClientTakes};
ghost use Rattle.ask_core.specs.Turns.{greeting_refused, idle_refused, reply_refused, standing_waits};
ghost use Rattle.ask_core.specs.declared.standing.Standing.{Standing};
ghost use Rattle.ask_core.specs.declared.standing.Standing.TheVariants.{Idle};

use crate::checks::{check_state, spelled_call};
use crate::replied::{Replied, reply_fault, waiting_replied};
use crate::reply_parts::{cause_for_all, session_of};
use crate::standing::{Known, Standing};
use crate::told::{AskFault, Told};
use code_gen::Code;
use core_terms::{Hash32, Piece};
use session_tables::Table;
use std::alloc::Global;
use std::marker::PhantomData;
use wire_form::{Reply, Request};

/// The client of sessions for one program.
#[derive(Drop)]
pub struct AskCore<H> {
    alloc: Global,
    pub(crate) code: Code,
    /// The cause of a reply that ended all sessions, once one came.
    closed: Option<u8>,
    pub(crate) sessions: Table<Standing>,
    hash: PhantomData<H>,
}

impl<H: Hash32> AskCore<H> {
    /// A client of this program without sessions. Takes no memory.
    pub fn new(alloc: Global, code: Code) -> Self
        ensures code { result.code ≡ code }
        ensures client { IsClient (program_of code) result.closed (rows_of result.sessions) new_client }
    {
        AskCore {
            alloc,
            code,
            closed: None,
            sessions: Table::new(alloc),
            hash: PhantomData,
        }
    }

    /// The code of the program.
    pub fn code(&self) -> &Code
        ensures { result.now ≡ self.now.code }
    {
        &self.code
    }

    /// Whether a reply to the session is waited for: to its greeting, its call or its leave.
    pub fn waiting(&self, session: u16) -> bool
        ensures { (c : Client) → IsClient (program_of self.now.code) self.now.closed (rows_of self.now.sessions) c → result ≡ waits c session }
    {
        match self.sessions.find(session) {
            Some(standing) => standing.waits(),
            None => false,
        }
    }

    /// The spelling of the state of a session that is idle or calls; else none.
    pub fn state(&self, session: u16) -> Option<&[u8]>
        ensures { (c : Client) → IsClient (program_of self.now.code) self.now.closed (rows_of self.now.sessions) c → option_copied result ≡ state_of c session }
    {
        match self.sessions.find(session) {
            Some(standing) => standing.state(),
            None => None,
        }
    }

    /// Greets: an absent session is to begin at a state of which these bytes are the spelling, with a ring of at most 1,024 pieces.
    ///
    /// `Closed`, `Failed` and `Broken` come first, then `OutOfTurn` where the session isn't absent, then `BadState`. Each fault,
    /// `NoMemory` too, leaves the session as it was.
    pub fn hello(&mut self, session: u16, size: u16, state: &[u8]) -> Result<Request, AskFault>
        requires { size ≤ 1024 }
        ensures answer { let P = program_of self.old.code in (c : Client) → IsClient P self.old.closed (rows_of self.old.sessions) c
            → Asks (IsClient P self.new.closed (rows_of self.new.sessions)) c
            (take_event H.hash P (program_in self.old.code).text_digest.0 c (Hellos session size state.now)) result }
        ensures code { self.new.code ≡ self.old.code }
    {
        if let Some(fault) = greeting_refused(self.closed, &self.sessions, session) {
            return Err(fault);
        }
        check_state(self.alloc, &self.code, state)?;
        let standing = Standing::greeting(self.alloc, size, state)?;
        let state = Piece::new(Vec::from_slice(self.alloc, state)?);
        let program = *self.code.program().text_digest();
        self.sessions.put(session, standing)?;
        Ok(Request::Hello {
            session,
            program,
            kept: size,
            state,
        })
    }

    /// Calls, in an idle session, the role with this number among the roles of the program, with the argument that the bytes
    /// spell and with this much fuel, at most 10^12.
    ///
    /// `Closed`, `Failed` and `Broken` come first, then `OutOfTurn` where the session isn't idle or the role is no query or
    /// update, then `BadArgument`. Each fault, `NoMemory` too, leaves the session as it was.
    pub fn call(
        &mut self,
        session: u16,
        role: u16,
        fuel: u64,
        argument: &[u8],
    ) -> Result<Request, AskFault>
        requires { fuel ≤ 10 ^ 12 }
        ensures answer { let P = program_of self.old.code in (c : Client) → IsClient P self.old.closed (rows_of self.old.sessions) c
            → Asks (IsClient P self.new.closed (rows_of self.new.sessions)) c
            (take_event H.hash P (program_in self.old.code).text_digest.0 c (Calls session role fuel argument.now)) result }
        ensures code { self.new.code ≡ self.old.code }
    {
        if let Some(fault) = idle_refused(self.closed, &self.sessions, session) {
            return Err(fault);
        }
        let asked = spelled_call(self.alloc, &self.code, role, fuel, argument)?;
        let argument = Piece::new(Vec::from_slice(self.alloc, argument)?);
        let known = take_idle(self.closed, &mut self.sessions, session)?;
        self.sessions.put(session, Standing::Calling(known, asked))?;
        Ok(Request::Call {
            session,
            role,
            fuel,
            argument,
        })
    }

    /// Leaves: an idle session is to end.
    ///
    /// `Closed`, `Failed` and `Broken` come first, then `OutOfTurn` where the session isn't idle. Each fault leaves the session as
    /// it was.
    pub fn bye(&mut self, session: u16) -> Result<Request, AskFault>
        ensures answer { let P = program_of self.old.code in (c : Client) → IsClient P self.old.closed (rows_of self.old.sessions) c
            → Asks (IsClient P self.new.closed (rows_of self.new.sessions)) c
            (take_event H.hash P (program_in self.old.code).text_digest.0 c (Byes session)) result }
        ensures code { self.new.code ≡ self.old.code }
    {
        let known = take_idle(self.closed, &mut self.sessions, session)?;
        self.sessions.put(session, Standing::Leaving(known))?;
        Ok(Request::Bye { session })
    }

    /// Takes a reply, and answers what it tells. A proof is judged on the ring of its session, which keeps the new pieces of those
    /// that are accepted; the state behind an update's value is its first component.
    ///
    /// `Closed` where this or an earlier reply is for all sessions, which wants no memory. Else, of the session that the reply is to:
    /// `Failed` or `Broken` where it has failed before; `Stranger` where it waits for none; `WrongReply` where it waits for another,
    /// and `Rejected` where the proof of its call is rejected: it has failed then. `NoMemory` leaves the session absent, and all else
    /// as it was. `BadState` and `BadArgument` would come where what was kept for a call is no spelling, and leave it absent too.
    pub fn take_reply(&mut self, reply: Reply) -> Result<Told, AskFault>
        ensures answer { let P = program_of self.old.code in let own = (program_in self.old.code).text_digest.0 in let r = reply_meant reply in
            (c : Client) → IsClient P self.old.closed (rows_of self.old.sessions) c
            → ClientTakes (IsClient P self.new.closed (rows_of self.new.sessions)) P c r
            (take_event H.hash P own c (Hears r)) (take_event H.hash P own c (Forgets (session_of r))) result }
        ensures code { self.new.code ≡ self.old.code }
    {
        if let Some(cause) = self.closed {
            return Err(AskFault::Closed(cause));
        }
        if let Some(cause) = cause_for_all(&reply) {
            self.closed = Some(cause);
            return Err(AskFault::Closed(cause));
        }
        let session = session_of(&reply);
        let standing = take_waiting(&mut self.sessions, session)?;
        let replied = waiting_replied::<H>(self.alloc, &self.code, standing, reply)?;
        let Replied { standing, told } = replied;
        if let Some(standing) = standing {
            self.sessions.put(session, standing)?;
        }
        told
    }
}

/// Why a greeting of the session is refused; none where it is absent.
fn greeting_refused(
    closed: Option<u8>,
    sessions: &Table<Standing>,
    session: u16,
) -> Option<AskFault>
    ensures { result ≡ greeting_refused closed (find session (rows_of sessions.now)) }
{
    if let Some(cause) = closed {
        return Some(AskFault::Closed(cause));
    }
    match sessions.find(session) {
        Some(standing) => Some(standing.greeting_fault()),
        None => None,
    }
}

/// Why a call or a leave of the session is refused; none where it is idle.
fn idle_refused(closed: Option<u8>, sessions: &Table<Standing>, session: u16) -> Option<AskFault>
    ensures { result ≡ idle_refused closed (find session (rows_of sessions.now)) }
{
    if let Some(cause) = closed {
        return Some(AskFault::Closed(cause));
    }
    match sessions.find(session) {
        Some(standing) => standing.idle_fault(),
        None => Some(AskFault::OutOfTurn),
    }
}

/// Takes an idle session out, to be put back as it goes on, for which no memory is wanted. A refusal leaves it.
fn take_idle(
    closed: Option<u8>,
    sessions: &mut Table<Standing>,
    session: u16,
) -> Result<Known, AskFault>
    ensures open { IfOk result (λ known. idle_refused closed (find session (rows_of sessions.old)) ≡ None) }
    ensures idle { IfOk result (λ known. find session (rows_of sessions.old) ≡ Some (Idle known)) }
    ensures behind { IfOk result (λ known. (s : Standing) → put session s (rows_of sessions.new) ≡ put session s (rows_of sessions.old)) }
    ensures room { IfOk result (λ known. HasRoom sessions.new) }
    ensures refused { IfErr result (λ fault. idle_refused closed (find session (rows_of sessions.old)) ≡ Some fault) }
    ensures same { OnErr result (rows_of sessions.new ≡ rows_of sessions.old) }
{
    if let Some(fault) = idle_refused(closed, sessions, session) {
        return Err(fault);
    }
    match sessions.take(session) {
        Some(standing) => match standing.into_idle() {
            Some(known) => Ok(known),
            None => Err(AskFault::OutOfTurn),
        },
        None => Err(AskFault::OutOfTurn),
    }
}

/// Why a reply to the session isn't looked at; none where it waits for one.
fn reply_refused(sessions: &Table<Standing>, session: u16) -> Option<AskFault>
    ensures { result ≡ reply_refused session (find session (rows_of sessions.now)) }
{
    match sessions.find(session) {
        Some(standing) => reply_fault(standing, session),
        None => Some(AskFault::Stranger(session)),
    }
}

/// Takes out a session that waits for a reply, to be put back as it goes on, for which no memory is wanted. A refusal leaves it.
fn take_waiting(sessions: &mut Table<Standing>, session: u16) -> Result<Standing, AskFault>
    ensures waits { IfOk result (λ standing. standing_waits standing ≡ true) }
    ensures found { IfOk result (λ standing. find session (rows_of sessions.old) ≡ Some standing) }
    ensures rows { IfOk result (λ standing. rows_of sessions.new ≡ remove session (rows_of sessions.old)) }
    ensures behind { IfOk result (λ standing. (s : Standing) → put session s (rows_of sessions.new) ≡ put session s (rows_of sessions.old)) }
    ensures room { IfOk result (λ standing. HasRoom sessions.new) }
    ensures refused { IfErr result (λ fault. reply_refused session (find session (rows_of sessions.old)) ≡ Some fault) }
    ensures same { OnErr result (rows_of sessions.new ≡ rows_of sessions.old) }
{
    if let Some(fault) = reply_refused(sessions, session) {
        return Err(fault);
    }
    match sessions.take(session) {
        Some(standing) => Ok(standing),
        None => Err(AskFault::Stranger(session)),
    }
}
