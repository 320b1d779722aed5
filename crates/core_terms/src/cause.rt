// Why a proof is rejected.

use crate::Digest;

/// Why a verifier rejects a proof. A piece goes by its place: pieces are numbered from 0, as they are asked for.
#[derive(Clone, Copy, PartialEq)]
pub enum Cause {
    /// The first 6 bytes of the proof aren't whole, don't begin with the format's magic, or ask for more pieces to be kept
    /// than the format allows.
    Header,
    /// The piece is asked for, and no byte is left.
    Short(u64),
    /// The first byte of the piece's frame is this one, which begins no frame.
    BadKind(u64, u8),
    /// The piece's frame isn't whole.
    Cut(u64),
    /// The piece has so many bytes, more than a spelling may have.
    PieceLong(u64, u32),
    /// The frame names the kept piece with this number, of so many that are kept.
    BadUse(u64, u16, u16),
    /// The digest held, and the piece's digest, which differs from it.
    WrongPiece(u64, Digest, Digest),
    /// The digests agree, and the piece is no spelling at the type: the offset of its first fault.
    BadPiece(u64, u32),
    /// The run ended in an outcome, and so many bytes are left, or 65,536 where there are more.
    Leftover(u32),
}
