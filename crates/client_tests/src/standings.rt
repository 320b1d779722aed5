// How a session of a client stands, and how it comes to stand so.

use ask_core::{AskCore, AskFault};
use core_stage::programs::{BOOL, UNIT};
use core_stage::stage::{Stage, code_of};
use core_terms::{Cause, Hash32, Piece, RoleKind};
use digest_layer::Sha;
use std::alloc::{AllocError, Global};
use wire_form::Reply;

/// How a session stands.
#[derive(Clone, Copy, PartialEq)]
pub enum Standing {
    Absent,
    Greeting,
    /// Idle at the state that it was greeted with.
    Idle,
    /// Idle at another state.
    Moved,
    CallsQuery,
    CallsUpdate,
    Leaving,
    /// It has failed, since a proof was rejected.
    Failed(Cause),
    /// It has failed, since a reply of this kind wasn't waited for.
    Broken(u8),
    /// All sessions were ended.
    Closed(u8),
}

/// Who is replied to: a client of a program with a session of number 1. Role 1 is a query, and role 2 an update.
#[derive(Clone, Copy)]
pub struct Played {
    pub of: Stage,
    /// The size of the session's ring.
    pub kept: u16,
    /// The spelling of what is authenticated as its state.
    pub held: &'static [u8],
}

/// The unit, with no ring.
pub const ON_UNIT: Played = Played {
    of: UNIT,
    kept: 0,
    held: b"",
};

/// The bool, with a ring of one piece.
pub const ON_BOOL: Played = Played {
    of: BOOL,
    kept: 1,
    held: b"\x01",
};

/// The query of a program, by its number among the roles.
const QUERY: u16 = 1;

/// The update.
const UPDATE: u16 = 2;

/// The kind of a proof.
const PROOF: u8 = 0x82;

/// An empty proof for the session.
fn empty_proof(alloc: Global) -> Reply {
    Reply::Proof {
        session: 1,
        frames: Piece::new(Vec::new(alloc)),
    }
}

/// A client whose session is absent.
pub fn new_client(alloc: Global, played: &Played) -> Result<AskCore<Sha>, AllocError> {
    let code = code_of(alloc, played.of.text)?;
    Ok(AskCore::new(alloc, code))
}

/// Brings a new client's session to stand so.
pub fn bring(
    alloc: Global,
    core: &mut AskCore<Sha>,
    played: &Played,
    standing: Standing,
) -> Result<(), AskFault> {
    match standing {
        Standing::Absent => Ok(()),
        Standing::Closed(cause) => {
            hear(core, Reply::Closed { session: 0, cause });
            Ok(())
        }
        _ => {
            greet(core, played)?;
            bring_greeting(alloc, core, standing)
        }
    }
}

/// Takes a reply, whatever it tells.
fn hear(core: &mut AskCore<Sha>, reply: Reply) {
    let _told = core.take_reply(reply);
}

/// Greets with the spelling of the state.
fn greet(core: &mut AskCore<Sha>, played: &Played) -> Result<(), AskFault> {
    let state = Sha::of(played.held);
    core.hello(1, played.kept.min(1024), &state.0)?;
    Ok(())
}

/// Brings a session that greets to stand so.
fn bring_greeting(
    alloc: Global,
    core: &mut AskCore<Sha>,
    standing: Standing,
) -> Result<(), AskFault> {
    if standing == Standing::Greeting {
        return Ok(());
    }
    if standing == Standing::Broken(PROOF) {
        hear(core, empty_proof(alloc));
        return Ok(());
    }
    core.take_reply(Reply::Welcome { session: 1 })?;
    bring_idle(alloc, core, standing)
}

/// Brings a session that is idle to stand so.
fn bring_idle(alloc: Global, core: &mut AskCore<Sha>, standing: Standing) -> Result<(), AskFault> {
    match standing {
        Standing::CallsQuery => call(core, QUERY),
        Standing::CallsUpdate => call(core, UPDATE),
        Standing::Leaving => {
            core.bye(1)?;
            Ok(())
        }
        Standing::Failed(_) => {
            call(core, QUERY)?;
            hear(core, empty_proof(alloc));
            Ok(())
        }
        _ => Ok(()),
    }
}

/// Calls a role, which takes no argument.
fn call(core: &mut AskCore<Sha>, role: u16) -> Result<(), AskFault> {
    core.call(1, role, 1, &[])?;
    Ok(())
}

/// How the session of a client stands, which isn't used any more.
pub fn standing_of(core: &mut AskCore<Sha>, played: &Played) -> Result<Standing, AskFault> {
    if let Some(cause) = closed_cause(core) {
        return Ok(Standing::Closed(cause));
    }
    if core.waiting(1) {
        return waiting_standing(core);
    }
    if let Some(state) = core.state(1) {
        return Ok(idle_standing(state, played));
    }
    still_standing(core, played)
}

/// The cause with which all sessions were ended.
fn closed_cause(core: &mut AskCore<Sha>) -> Option<u8> {
    // there is no session 0, so this changes nothing
    match core.take_reply(Reply::Welcome { session: 0 }) {
        Err(AskFault::Closed(cause)) => Some(cause),
        _ => None,
    }
}

/// How a session stands that is idle at this state.
fn idle_standing(state: &[u8], played: &Played) -> Standing {
    if state == Sha::of(played.held).0.as_slice() {
        Standing::Idle
    } else {
        Standing::Moved
    }
}

/// How a session stands that neither waits nor is idle.
fn still_standing(core: &mut AskCore<Sha>, played: &Played) -> Result<Standing, AskFault> {
    match greet(core, played) {
        Ok(()) => Ok(Standing::Absent),
        Err(AskFault::Failed(cause)) => Ok(Standing::Failed(cause)),
        Err(AskFault::Broken(kind)) => Ok(Standing::Broken(kind)),
        Err(fault) => Err(fault),
    }
}

/// The same of one that waits for a reply. Of those without a state the one that leaves takes its end.
fn waiting_standing(core: &mut AskCore<Sha>) -> Result<Standing, AskFault> {
    if let Some(called) = core.called(1) {
        return Ok(match called.kind {
            RoleKind::Update => Standing::CallsUpdate,
            RoleKind::Init | RoleKind::Query => Standing::CallsQuery,
        });
    }
    let end = Reply::Closed {
        session: 1,
        cause: 0,
    };
    match core.take_reply(end) {
        Ok(_) => Ok(Standing::Leaving),
        Err(AskFault::WrongReply(_)) => Ok(Standing::Greeting),
        Err(fault) => Err(fault),
    }
}
