// How a session stands.
ghost use Rattle.std.specs.Prelude.{◌≡◌, ◌≤◌, IfOk, option_copied};
ghost use Rattle.ask_core.specs.Turns.{IsGreeting, greeting_fault, idle_fault, idle_known, standing_state, standing_waits};

use crate::asked::Asked;
use crate::told::AskFault;
use core_terms::{Cause, Spelling};
use reuse_buffer::Ring;
use std::alloc::{AllocError, Global};

/// What is known of a session.
#[derive(Drop)]
pub struct Known {
    /// The spelling of its state.
    pub state: Spelling,
    /// The last of the new pieces of its accepted proofs.
    pub ring: Ring,
}

/// How a session stands that isn't absent.
#[derive(Drop)]
pub enum Standing {
    /// Its greeting is sent, and not yet answered.
    Greeting(Known),
    /// It may be called.
    Idle(Known),
    /// A call of it is sent, and not yet answered.
    Calling(Known, Asked),
    /// Its leave is sent, and not yet answered.
    Leaving(Known),
    /// It has failed: a proof was rejected.
    FailedBy(Cause),
    /// It has failed: a reply of this kind wasn't waited for.
    BrokenBy(u8),
}

impl Standing {
    /// A session that is greeted with this state and this size of its ring.
    pub fn greeting(alloc: Global, size: u16, state: &[u8]) -> Result<Self, AllocError>
        requires { size ≤ 1024 }
        ensures { IfOk result (IsGreeting size state.now) }
    {
        let state = Spelling::new(Vec::from_slice(alloc, state)?);
        let ring = Ring::with_size(alloc, size)?;
        Ok(Standing::Greeting(Known { state, ring }))
    }

    /// Whether a reply is waited for.
    pub fn waits(&self) -> bool
        ensures { result ≡ standing_waits self.now }
    {
        match self {
            Standing::Greeting(_) => true,
            Standing::Idle(_) => false,
            Standing::Calling(_, _) => true,
            Standing::Leaving(_) => true,
            Standing::FailedBy(_) => false,
            Standing::BrokenBy(_) => false,
        }
    }

    /// The spelling of the state, where it is idle or calls.
    pub fn state(&self) -> Option<&[u8]>
        ensures { option_copied result ≡ standing_state self.now }
    {
        match self {
            Standing::Greeting(_) => None,
            Standing::Idle(known) => Some(known.state.as_bytes()),
            Standing::Calling(known, _) => Some(known.state.as_bytes()),
            Standing::Leaving(_) => None,
            Standing::FailedBy(_) => None,
            Standing::BrokenBy(_) => None,
        }
    }

    /// Why a greeting is refused.
    pub fn greeting_fault(&self) -> AskFault
        ensures { result ≡ greeting_fault self.now }
    {
        match self {
            Standing::Greeting(_) => AskFault::OutOfTurn,
            Standing::Idle(_) => AskFault::OutOfTurn,
            Standing::Calling(_, _) => AskFault::OutOfTurn,
            Standing::Leaving(_) => AskFault::OutOfTurn,
            Standing::FailedBy(cause) => AskFault::Failed(*cause),
            Standing::BrokenBy(kind) => AskFault::Broken(*kind),
        }
    }

    /// Why a call or a leave is refused; none where it is idle.
    pub fn idle_fault(&self) -> Option<AskFault>
        ensures { result ≡ idle_fault self.now }
    {
        match self {
            Standing::Greeting(_) => Some(AskFault::OutOfTurn),
            Standing::Idle(_) => None,
            Standing::Calling(_, _) => Some(AskFault::OutOfTurn),
            Standing::Leaving(_) => Some(AskFault::OutOfTurn),
            Standing::FailedBy(cause) => Some(AskFault::Failed(*cause)),
            Standing::BrokenBy(kind) => Some(AskFault::Broken(*kind)),
        }
    }

    /// What is known of it, where it is idle.
    pub fn into_idle(self) -> Option<Known>
        ensures { result ≡ idle_known self }
    {
        match self {
            Standing::Greeting(_) => None,
            Standing::Idle(known) => Some(known),
            Standing::Calling(_, _) => None,
            Standing::Leaving(_) => None,
            Standing::FailedBy(_) => None,
            Standing::BrokenBy(_) => None,
        }
    }
}
