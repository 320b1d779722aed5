// Why a request is refused.
ghost use Rattle.std.specs.Prelude.{◌≡◌};
ghost use Rattle.session_meaning.specs.Causes.{refusal_cause};
ghost use Rattle.session_turns.specs.Refusals.{Denies, refusal_meant};
ghost use Rattle.session_turns.specs.declared.refusal.Denial.TheVariants.{NoMemory};

use shallow_codec::UnspellFault;
use std::alloc::AllocError;

/// Why a request is refused.
#[derive(Clone, Copy, PartialEq)]
pub enum Refusal {
    /// The greeting names another program.
    OtherProgram,
    /// No version has the greeting's state.
    NoVersion,
    /// There is no such session.
    NoSession,
    /// There is such a session already.
    SessionThere,
    /// A call of the session runs.
    CallRuns,
    /// The role is no query or update.
    NoRole,
    /// The argument is no spelling at its type.
    NoArgument,
    /// There are 64 sessions.
    ManySessions,
    /// There are 4,096 versions.
    ManyVersions,
    /// The ring is larger than 1,024.
    LargeRing,
    /// The bytes are no message.
    NoMessage,
    /// The fuel is more than 10^12.
    MuchFuel,
    /// The proof is too long for a message.
    LongProof,
}

impl Refusal {
    /// The number of the cause in a message.
    pub fn cause(self) -> u8
        ensures { result ≡ refusal_cause (refusal_meant self) }
    {
        match self {
            Refusal::OtherProgram => 1,
            Refusal::NoVersion => 2,
            Refusal::NoSession => 3,
            Refusal::SessionThere => 4,
            Refusal::CallRuns => 5,
            Refusal::NoRole => 6,
            Refusal::NoArgument => 7,
            Refusal::ManySessions => 8,
            Refusal::ManyVersions => 9,
            Refusal::LargeRing => 10,
            Refusal::NoMessage => 11,
            Refusal::MuchFuel => 12,
            Refusal::LongProof => 13,
        }
    }
}

/// Why a request isn't granted.
#[derive(Clone, Copy)]
pub enum Denial {
    /// It is refused.
    Refused(Refusal),
    /// There is no memory for it.
    NoMemory,
}

impl From<AllocError> for Denial {
    ghost from_gives = { λ _ denial. denial ≡ NoMemory };

    fn from(_: AllocError) -> Self {
        Denial::NoMemory
    }
}

impl From<UnspellFault> for Denial {
    ghost from_gives = { λ fault denial. Denies fault denial };

    fn from(fault: UnspellFault) -> Self {
        match fault {
            UnspellFault::Bad(_) => Denial::Refused(Refusal::NoArgument),
            UnspellFault::NoMemory => Denial::NoMemory,
        }
    }
}
