// The verdict on a call.
ghost use Rattle.std.specs.Prelude.{◌≡◌};
ghost use Rattle.verifier_mode.specs.Verdicts.{call_verdict, verdict_at, verdict_of};
ghost use Rattle.verifier_mode.specs.declared.verdict.Verdict.TheVariants as verdict;

use crate::verifier::VerifierFault;
use core_terms::Cause;
use lam_outside::Failed;
use mode_vm::Stop;
use proof_stream::HeadEnd;
use std::alloc::AllocError;

/// Why a call isn't accepted.
#[derive(Clone, Copy)]
pub enum Verdict {
    /// The proof is rejected, for this cause.
    Rejected(Cause),
    /// The state's bytes are no spelling at the state's type: the offset of the first fault.
    BadState(u32),
    /// The argument's bytes are no spelling at the argument's type: the offset of the first fault.
    BadArgument(u32),
    /// The source of the proof failed, and its count of faults rose.
    ReadFault,
    /// Memory was wanting.
    NoMemory,
}

/// Why the state and the argument of a call aren't put into a store.
#[derive(Clone, Copy)]
pub enum CallFault {
    /// The state's bytes are no spelling at the state's type: the offset of the first fault.
    BadState(u32),
    /// The argument's bytes are no spelling at the argument's type: the offset of the first fault.
    BadArgument(u32),
    /// Memory was wanting.
    NoMemory,
}

impl From<CallFault> for Verdict {
    ghost from_gives = { λ fault result. result ≡ call_verdict fault };

    fn from(fault: CallFault) -> Self {
        match fault {
            CallFault::BadState(offset) => Verdict::BadState(offset),
            CallFault::BadArgument(offset) => Verdict::BadArgument(offset),
            CallFault::NoMemory => Verdict::NoMemory,
        }
    }
}

impl From<Stop<VerifierFault>> for Verdict {
    ghost from_gives = { λ stop result. result ≡ verdict_of stop };

    fn from(stop: Stop<VerifierFault>) -> Self {
        match stop {
            Stop::Mode(VerifierFault::Rejected(cause)) => Verdict::Rejected(cause),
            Stop::Mode(VerifierFault::ReadFault) => Verdict::ReadFault,
            Stop::NoMemory => Verdict::NoMemory,
        }
    }
}

impl From<HeadEnd> for Verdict {
    ghost from_gives = { λ end result. result ≡ verdict_at end };

    fn from(end: HeadEnd) -> Self {
        match end {
            HeadEnd::Header => Verdict::Rejected(Cause::Header),
            HeadEnd::ReadFault => Verdict::ReadFault,
        }
    }
}

impl From<Failed> for Verdict {
    ghost from_gives = { λ _ result. result ≡ verdict.ReadFault };

    fn from(_: Failed) -> Self {
        Verdict::ReadFault
    }
}

impl From<AllocError> for Verdict {
    ghost from_gives = { λ _ result. result ≡ verdict.NoMemory };

    fn from(_: AllocError) -> Self {
        Verdict::NoMemory
    }
}
