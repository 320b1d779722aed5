// The verdict on a call over pieces that are fetched.
ghost use Rattle.std.specs.Prelude.{◌≡◌};
ghost use Rattle.piece_fetch.specs.Verdicts.{call_verdict, verdict_of};
ghost use Rattle.piece_fetch.specs.declared.verdict.FetchVerdict.TheVariants as verdict;

use crate::fetcher::FetcherFault;
use core_terms::Digest;
use mode_vm::Stop;
use std::alloc::AllocError;
use verifier_mode::CallFault;
use wire_form::Wire;

/// Why a call over pieces that are fetched is rejected. A piece goes by its place: pieces are numbered from 0, as they are asked for.
#[derive(Clone, Copy)]
pub enum FetchCause {
    /// There is no piece with this digest, which is held.
    Missing(u64, Digest),
    /// No answer is read.
    Broken(u64, Wire),
    /// The digest held, and the piece's, which differs from it.
    WrongPiece(u64, Digest, Digest),
    /// The digests agree, and the piece is no spelling at the type behind its front: the offset of its first fault in the piece.
    BadPiece(u64, u32),
}

/// Why a call isn't accepted.
#[derive(Clone, Copy)]
pub enum FetchVerdict {
    /// The answers are rejected, for this cause.
    Rejected(FetchCause),
    /// The state's bytes are no spelling at the state's type: the offset of the first fault.
    BadState(u32),
    /// The argument's bytes are no spelling at the argument's type: the offset of the first fault.
    BadArgument(u32),
    /// Who was asked failed, and its count of faults rose.
    FetchFault,
    /// Memory was wanting.
    NoMemory,
}

impl From<Stop<FetcherFault>> for FetchVerdict {
    ghost from_gives = { λ stop result. result ≡ verdict_of stop };

    fn from(stop: Stop<FetcherFault>) -> Self {
        match stop {
            Stop::Mode(FetcherFault::Missing(place, want)) => {
                FetchVerdict::Rejected(FetchCause::Missing(place, want))
            }
            Stop::Mode(FetcherFault::Broken(place, _, wire)) => {
                FetchVerdict::Rejected(FetchCause::Broken(place, wire))
            }
            Stop::Mode(FetcherFault::WrongPiece(place, want, found)) => {
                FetchVerdict::Rejected(FetchCause::WrongPiece(place, want, found))
            }
            Stop::Mode(FetcherFault::BadPiece(place, offset)) => {
                FetchVerdict::Rejected(FetchCause::BadPiece(place, offset))
            }
            Stop::Mode(FetcherFault::Failed) => FetchVerdict::FetchFault,
            Stop::NoMemory => FetchVerdict::NoMemory,
        }
    }
}

impl From<AllocError> for FetchVerdict {
    ghost from_gives = { λ _ result. result ≡ verdict.NoMemory };

    fn from(_: AllocError) -> Self {
        FetchVerdict::NoMemory
    }
}

impl From<CallFault> for FetchVerdict {
    ghost from_gives = { λ fault result. result ≡ call_verdict fault };

    fn from(fault: CallFault) -> Self {
        match fault {
            CallFault::BadState(offset) => FetchVerdict::BadState(offset),
            CallFault::BadArgument(offset) => FetchVerdict::BadArgument(offset),
            CallFault::NoMemory => FetchVerdict::NoMemory,
        }
    }
}
