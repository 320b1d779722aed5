// What follows of a reply to a session.
ghost use Rattle.std.specs.Prelude.{◌≡◌, ℕ, true, None, Some, Ok, Err, IfOk};
ghost use Rattle.core_terms.specs.Formats.{Hash};
ghost use Rattle.core_terms.specs.Terms as tree;
ghost use Rattle.mode_vm.specs.Meanings.{program_of};
ghost use Rattle.core_terms.specs.Programs.{meaning};
ghost use Rattle.session_meaning.specs.Calls.{changes_state, role_in};
ghost use Rattle.session_meaning.specs.Client.{ends_session};
ghost use Rattle.session_meaning.specs.Messages.{Stale, Refused};
ghost use Rattle.wire_form.specs.MessageViews.{reply_meant};
ghost use Rattle.ask_core.specs.Replies.{IsReplied};
ghost use Rattle.ask_core.specs.Turns.{reply_fault, standing_waits};
ghost use Rattle.ask_core.specs.declared.asked.Asked.{Asked};
ghost use Rattle.ask_core.specs.declared.standing.Known.{Known};
ghost use Rattle.ask_core.specs.declared.standing.Standing.TheVariants.{Greeting, Idle, Calling, Leaving, BrokenBy};
ghost use Rattle.ask_core.specs.declared.told.AskFault.TheVariants.{WrongReply};

use crate::asked::Asked;
use crate::checks::role_called;
use crate::judging::proof_replied;
use crate::standing::{Known, Standing};
use crate::told::{AskFault, Told};
use code_gen::Code;
use core_terms::{Hash32, Piece, Program, RoleKind};
use std::alloc::{AllocError, Global};
use wire_form::Reply;
use wire_form::kinds::{CLOSED, PROOF, REFUSED, STALE, WELCOME};

/// The cause of a refusal: there is no such session.
const NO_SESSION: u8 = 3;

/// The cause of a refusal: the proof is too long for a message.
const LONG_PROOF: u8 = 13;

/// What follows of a reply to a session.
#[derive(Drop)]
pub struct Replied {
    /// How the session stands behind it; none where it is absent.
    pub standing: Option<Standing>,
    pub told: Result<Told, AskFault>,
}

impl Replied {
    /// This is told, and the session is idle.
    fn idle(known: Known, told: Told) -> Self
        ensures standing { result.standing ≡ Some (Idle known) }
        ensures told { result.told ≡ Ok told }
    {
        Replied {
            standing: Some(Standing::Idle(known)),
            told: Ok(told),
        }
    }

    /// This is told, and the session is absent.
    fn absent(told: Told) -> Self
        ensures standing { result.standing ≡ None }
        ensures told { result.told ≡ Ok told }
    {
        Replied {
            standing: None,
            told: Ok(told),
        }
    }

    /// A reply of this kind isn't waited for, and the session has failed.
    pub fn wrong(kind: u8) -> Self
        ensures standing { result.standing ≡ Some (BrokenBy kind) }
        ensures told { result.told ≡ Err (WrongReply kind) }
    {
        Replied {
            standing: Some(Standing::BrokenBy(kind)),
            told: Err(AskFault::WrongReply(kind)),
        }
    }
}

/// Why a reply to the session with this number, which stands so, isn't looked at; none where one is waited for.
pub fn reply_fault(standing: &Standing, session: u16) -> Option<AskFault>
    ensures { result ≡ reply_fault session standing.now }
{
    match standing {
        Standing::Greeting(_) => None,
        Standing::Idle(_) => Some(AskFault::Stranger(session)),
        Standing::Calling(_, _) => None,
        Standing::Leaving(_) => None,
        Standing::FailedBy(cause) => Some(AskFault::Failed(*cause)),
        Standing::BrokenBy(kind) => Some(AskFault::Broken(*kind)),
    }
}

/// What follows of a reply to a session that waits for one.
pub fn waiting_replied<H: Hash32>(
    alloc: Global,
    code: &Code,
    standing: Standing,
    reply: Reply,
) -> Result<Replied, AllocError>
    requires { standing_waits standing ≡ true }
    ensures { IfOk result (IsReplied H.hash (program_of code.now) standing (reply_meant reply)) }
{
    match standing {
        Standing::Greeting(known) => Ok(greeting_replied(known, reply)),
        Standing::Calling(known, asked) => calling_replied::<H>(alloc, code, known, asked, reply),
        Standing::Leaving(_) => Ok(leaving_replied(reply)),
        _ => unreachable!(),
    }
}

/// The same of one that is greeted.
fn greeting_replied(known: Known, reply: Reply) -> Replied
    ensures { (hash : Hash) (P : tree.Program) → IsReplied hash P (Greeting known) (reply_meant reply) result }
{
    match reply {
        Reply::Welcome { .. } => Replied::idle(known, Told::Welcome),
        Reply::Proof { .. } => Replied::wrong(PROOF),
        Reply::Stale { .. } => Replied::wrong(STALE),
        Reply::Refused { cause, .. } => Replied::absent(Told::Refused(cause)),
        Reply::Closed { .. } => Replied::wrong(CLOSED),
    }
}

/// The same of one that leaves.
fn leaving_replied(reply: Reply) -> Replied
    ensures { (hash : Hash) (P : tree.Program) (known : Known) → IsReplied hash P (Leaving known) (reply_meant reply) result }
{
    match reply {
        Reply::Welcome { .. } => Replied::wrong(WELCOME),
        Reply::Proof { .. } => Replied::wrong(PROOF),
        Reply::Stale { .. } => Replied::wrong(STALE),
        Reply::Refused { .. } => Replied::wrong(REFUSED),
        Reply::Closed { .. } => Replied::absent(Told::Ended),
    }
}

/// The same of one that calls.
fn calling_replied<H: Hash32>(
    alloc: Global,
    code: &Code,
    known: Known,
    asked: Asked,
    reply: Reply,
) -> Result<Replied, AllocError>
    ensures { IfOk result (IsReplied H.hash (program_of code.now) (Calling known asked) (reply_meant reply)) }
{
    match reply {
        Reply::Proof { session, frames } => {
            proof_replied::<H>(alloc, code, session, known, &asked, &frames)
        }
        Reply::Stale { state, .. } => Ok(stale_replied(code.program(), asked.role, state)),
        Reply::Refused { cause, .. } => Ok(refused_replied(known, cause)),
        Reply::Welcome { .. } => Ok(Replied::wrong(WELCOME)),
        Reply::Closed { .. } => Ok(Replied::wrong(CLOSED)),
    }
}

/// Of the reply that a call of this role is stale: no query is.
fn stale_replied(program: &Program, role: u16, state: Piece) -> Replied
    ensures { (hash : Hash) (known : Known) (asked : Asked) (session : ℕ) → asked.role ≡ role
        → IsReplied hash (meaning program.now) (Calling known asked) (Stale session state) result }
{
    if changes_state(program, role) {
        Replied::absent(Told::Stale(state))
    } else {
        Replied::wrong(STALE)
    }
}

/// Of the reply that a call is refused: the session has ended where there is none, or its proof is too long.
fn refused_replied(known: Known, cause: u8) -> Replied
    ensures { (hash : Hash) (P : tree.Program) (asked : Asked) (session : ℕ) → IsReplied hash P (Calling known asked) (Refused session cause) result }
{
    if ends_session(cause) {
        Replied::absent(Told::Refused(cause))
    } else {
        Replied::idle(known, Told::Refused(cause))
    }
}

/// Whether the role with this number is an update.
fn changes_state(program: &Program, number: u16) -> bool
    ensures { result ≡ changes_state (role_in (meaning program.now) number).kind }
{
    match role_called(program, number) {
        Some(role) => match role.kind {
            RoleKind::Update => true,
            RoleKind::Init => false,
            RoleKind::Query => false,
        },
        None => false,
    }
}

/// Whether a call that is refused for this cause ends its session.
fn ends_session(cause: u8) -> bool
    ensures { result ≡ ends_session cause }
{
    cause == NO_SESSION || cause == LONG_PROOF
}
