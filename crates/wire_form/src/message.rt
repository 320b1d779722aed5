// Messages, and how reading and writing them stop.
ghost use Rattle.std.specs.Prelude.{◌≡◌};
ghost use Rattle.wire_form.specs.declared.message.ReadStop.TheVariants.{LinkFault, NoMemory};
ghost use Rattle.wire_form.specs.declared.message.WriteStop.TheVariants.{LinkFault as SendFault, NoMemory as NoSendMemory};

use core_terms::{Digest, Piece};
use lam_outside::Failed;
use std::alloc::AllocError;

/// What a client asks of a server.
#[derive(Drop)]
pub enum Request {
    /// A session begins: the program whose text has this digest, the number of pieces that are kept, and the spelling of the
    /// state that the client holds.
    Hello {
        session: u16,
        program: Digest,
        kept: u16,
        state: Piece,
    },
    /// A call of the role with this number among the program's, on the spelling of its argument.
    Call {
        session: u16,
        role: u16,
        /// In calls of functions. Any number can be sent; a server refuses more than 10^12.
        fuel: u64,
        argument: Piece,
    },
    /// The calls that run take turns, so many rounds of them.
    Go {
        rounds: u32,
    },
    /// The session ends.
    Bye {
        session: u16,
    },
}

/// What a server replies.
#[derive(Drop)]
pub enum Reply {
    /// The session has begun.
    Welcome { session: u16 },
    /// The proof of the session's call, as frames without a header.
    Proof { session: u16, frames: Piece },
    /// The session's update came too late: the spelling of the last version's state.
    Stale { session: u16, state: Piece },
    /// A request was refused, for the cause with this number; of no session where it is 0.
    Refused { session: u16, cause: u8 },
    /// The session has ended, or the connection where the session is 0.
    Closed { session: u16, cause: u8 },
}

/// Why no message was read.
#[derive(Clone, Copy)]
pub enum ReadStop {
    /// The bytes are no message: the kind byte, or 0 where there is none, and the offset behind the length field of the first
    /// field that is missing, not whole or not allowed, or of the first byte too many. The whole message was taken.
    BadMessage(u8, u32),
    /// The length field says more than 16,777,216. Its 4 bytes were taken.
    TooLong(u32),
    /// There was no byte at all.
    End,
    /// The input ends inside the message.
    Cut,
    /// The link failed, and its count of faults rose.
    LinkFault,
    /// There was no memory for the bytes that came.
    NoMemory,
}

impl From<Failed> for ReadStop {
    ghost from_gives = { λ _ stop. stop ≡ LinkFault };

    fn from(_: Failed) -> Self {
        ReadStop::LinkFault
    }
}

impl From<AllocError> for ReadStop {
    ghost from_gives = { λ _ stop. stop ≡ NoMemory };

    fn from(_: AllocError) -> Self {
        ReadStop::NoMemory
    }
}

/// Why a message was not written whole.
#[derive(Clone, Copy)]
pub enum WriteStop {
    /// The link failed, and its count of faults rose.
    LinkFault,
    /// There was no memory for the fields of the message.
    NoMemory,
}

impl From<Failed> for WriteStop {
    ghost from_gives = { λ _ stop. stop ≡ SendFault };

    fn from(_: Failed) -> Self {
        WriteStop::LinkFault
    }
}

impl From<AllocError> for WriteStop {
    ghost from_gives = { λ _ stop. stop ≡ NoSendMemory };

    fn from(_: AllocError) -> Self {
        WriteStop::NoMemory
    }
}
