// Frames, and why there is none.
ghost use Rattle.std.specs.Prelude.{◌≡◌};
ghost use Rattle.proof_stream.specs.declared.frame.FrameEnd.TheVariants as frame_end;
ghost use Rattle.proof_stream.specs.declared.frame.HeadEnd.TheVariants as head_end;

use lam_outside::Failed;
use std::alloc::AllocError;

/// The first byte of a frame with a new piece.
pub(crate) const NEW: u8 = 0;
/// The first byte of a frame that names a kept piece.
pub(crate) const USE: u8 = 1;

/// A frame.
#[derive(Clone, Copy, Debug, PartialEq, Eq)]
pub enum Frame {
    /// A new piece, which is in hand.
    New,
    /// The number of a kept piece, 0 being the last new one.
    Back(u16),
}

/// Why there is no further frame.
#[derive(Clone, Copy, Debug, PartialEq, Eq)]
pub enum FrameEnd {
    /// No byte is left.
    End,
    /// The frame begins with this byte, which begins no frame.
    BadKind(u8),
    /// The bytes end inside the frame.
    Cut,
    /// The piece would have so many bytes, more than the limit.
    PieceLong(u32),
    /// The source failed, and its count of faults rose.
    ReadFault,
    /// There was no memory for what came of the piece.
    NoMemory,
}

/// Why there is no header.
#[derive(Clone, Copy, Debug, PartialEq, Eq)]
pub enum HeadEnd {
    /// The bytes don't begin with a header, or it asks for more kept pieces than there may be.
    Header,
    /// The source failed, and its count of faults rose.
    ReadFault,
}

impl From<Failed> for FrameEnd {
    ghost from_gives = { λ _ e. e ≡ frame_end.ReadFault };

    fn from(_: Failed) -> Self {
        FrameEnd::ReadFault
    }
}

impl From<AllocError> for FrameEnd {
    ghost from_gives = { λ _ e. e ≡ frame_end.NoMemory };

    fn from(_: AllocError) -> Self {
        FrameEnd::NoMemory
    }
}

impl From<Failed> for HeadEnd {
    ghost from_gives = { λ _ e. e ≡ head_end.ReadFault };

    fn from(_: Failed) -> Self {
        HeadEnd::ReadFault
    }
}
