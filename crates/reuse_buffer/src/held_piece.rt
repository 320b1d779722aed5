// A piece that a ring holds, and buckets of pieces by their bytes.
ghost use Rattle.std.specs.Prelude.{◌≡◌, ◌<◌};
ghost use Rattle.reuse_buffer.specs.Index.{bucket_of};

use std::hash::{FoldHasher, Hasher};

/// A piece that is held, linked to the piece that is next in its bucket.
#[derive(Drop)]
pub struct HeldPiece {
    pub(crate) bytes: Vec<u8>,
    pub(crate) bucket: u16,
    /// How many pieces stand between it and the next older one in its bucket, where that is held.
    pub(crate) between: u16,
}

/// The bytes of a piece.
pub(crate) fn bytes_of(held: Option<HeldPiece>) -> Option<Vec<u8>> {
    match held {
        Some(
            HeldPiece {
                bytes,
                bucket: _,
                between: _,
            },
        ) => Some(bytes),
        None => None,
    }
}

/// The bucket of a piece, of `count`.
#[inline(always)]
#[tactic(auto, unfolding(crate::specs::Index::bucket_of))]
pub(crate) fn bucket_of(bytes: &[u8], count: u16) -> u16
    requires { 0 < count }
    ensures bucket { result ≡ bucket_of count bytes.now }
    ensures within { result < count }
{
    let mut hasher = FoldHasher::default();
    hasher.write(bytes);
    (hasher.finish() % u64::from(count)) as u16
}
