// What a client is told.
ghost use Rattle.std.specs.Prelude.{◌≡◌};
ghost use Rattle.ask_core.specs.declared.told.AskFault.TheVariants.{NoMemory};

use core_terms::{Cause, Outcome, Piece, Spelling};
use std::alloc::AllocError;

/// What a reply tells.
#[derive(Drop)]
pub enum Told {
    /// The session has begun, and is idle.
    Welcome,
    /// The proof of the session's call is accepted: how the call ended, with the spelling of its value. The session is idle.
    Outcome(Outcome<Spelling>),
    /// The session's update came too late. What the server says of the last state is unproved. The session is absent.
    Stale(Piece),
    /// The greeting or the call was refused, for the cause with this number.
    Refused(u8),
    /// The session has ended, as it was asked to.
    Ended,
}

/// Why nothing is sent or told.
///
/// Each of `hello`, `call`, `bye` and `take_reply` may answer `Failed`, `Broken`, `Closed` and `NoMemory`. Of a session that failed
/// `Failed` and `Broken` come for ever, and of all sessions `Closed`.
#[derive(Clone, Copy)]
pub enum AskFault {
    /// Of `hello`: the state's bytes are no spelling at the state's type: the offset of the first fault. Of `take_reply` the same of
    /// the state that was kept, which no call of these leaves so; the session is absent then.
    BadState(u32),
    /// Of `call`: the argument's bytes are no spelling at the type of the role's argument: the offset of the first fault. Of
    /// `take_reply` the same of the argument that was kept, which no call of these leaves so; the session is absent then.
    BadArgument(u32),
    /// Of `hello`: the session isn't absent. Of `call` and `bye`: it isn't idle. Of `call`: or the role is no query or update.
    OutOfTurn,
    /// Of `take_reply`: the proof of the session with this number is rejected, for this cause. The session has failed.
    Rejected(u16, Cause),
    /// Of `take_reply`: the reply is to the session with this number, which waits for none. Nothing changes.
    Stranger(u16),
    /// Of `take_reply`: the session waits for another reply than one of this kind. The session has failed.
    WrongReply(u8),
    /// The session has failed, since a proof was rejected for this cause.
    Failed(Cause),
    /// The session has failed, since a reply of this kind wasn't waited for.
    Broken(u8),
    /// A reply ended all sessions, with this cause.
    Closed(u8),
    /// Memory was wanting. `hello`, `call` and `bye` leave the session as it was; after `take_reply` it is absent.
    NoMemory,
}

impl From<AllocError> for AskFault {
    ghost from_gives = { λ _ fault. fault ≡ NoMemory };

    fn from(_: AllocError) -> Self {
        AskFault::NoMemory
    }
}
