// The frames of a proof, as an honest prover writes them.
ghost use Rattle.std.specs.Prelude.{◌≡◌, ◌<◌, ◌+◌, ◌-◌, ◌++◌, ◌∷◌, ◌^◌, [], ℕ, List, length, suc, IfOk, IfNone, OnOk};
ghost use Rattle.ideal_meaning.specs.Ideal as ideal;
ghost use Rattle.reuse_buffer.specs.Kept.{kept};
ghost use Rattle.prover_mode.specs.Seen.{AreSeen, pieces_of};
ghost use Rattle.prover_mode.specs.Written.{HasWritten, HasWrittenWithin};

use crate::opened::Opened;
use core_terms::{Hash32, Types};
use proof_stream::{put_new, put_use};
use reuse_buffer::Ring;
use shallow_codec::spell_into;
use std::alloc::{AllocError, Global};
use value_store::Nodes;

/// How many bytes the frames have room for at first, where there is memory: else they ask for memory as they grow.
const FIRST_BYTES: usize = 1_024;

/// The frames that were written so far, and the ring behind them.
#[derive(Drop)]
pub(crate) struct FrameWriter {
    pub(crate) ring: Ring,
    pub(crate) bytes: Vec<u8>,
    /// The number of frames with a piece of their own.
    pub(crate) fresh: u64,
    /// The number of frames that name a kept piece.
    pub(crate) again: u64,
}

impl FrameWriter {
    /// A writer before its first frame.
    pub(crate) fn new(alloc: Global, ring: Ring) -> Self
        ensures written { (recent : List (List ℕ)) → ring ≡ kept ring.size recent → HasWritten ring.size recent [] result }
        ensures count { result.fresh + result.again ≡ 0 }
        ensures empty { result.bytes.items ≡ [] }
    {
        let mut bytes = Vec::new(alloc);
        let _ = bytes.reserve(FIRST_BYTES);
        FrameWriter {
            ring,
            bytes,
            fresh: 0,
            again: 0,
        }
    }

    /// Writes a piece: where it is kept, it is named, and else it is written whole and kept from then on. It gives back what memory of
    /// pieces is out of use then.
    #[inline(always)]
    pub(crate) fn put(&mut self, piece: Vec<u8>) -> Result<Option<Vec<u8>>, AllocError>
        requires short { length piece.items < 2 ^ 32 }
        requires few { suc (self.old.fresh + self.old.again) < 2 ^ 64 }
        ensures written { (n : ℕ) (recent pieces : List (List ℕ)) → HasWritten n recent pieces self.old
            → OnOk result (HasWritten n recent (pieces ++ piece.items ∷ []) self.new) }
        ensures count { OnOk result (self.new.fresh + self.new.again ≡ suc (self.old.fresh + self.old.again)) }
    {
        let bucket = self.ring.bucket(&piece);
        match self.ring.place_in(bucket, &piece) {
            None => {
                put_new(&mut self.bytes, &piece)?;
                let unused = self.ring.push_in(bucket, piece);
                self.fresh += 1;
                Ok(unused)
            }
            Some(k) => {
                put_use(&mut self.bytes, k)?;
                self.again += 1;
                Ok(Some(piece))
            }
        }
    }
}

/// Writes what was opened, in order: of each value the spelling of its projection. `None` where the frames have more than `most` bytes:
/// the first frame that goes beyond is the last one that is written.
pub(crate) fn write_frames<H: Hash32, N: Nodes>(
    alloc: Global,
    types: &Types,
    store: &N,
    opened: &[Opened],
    ring: Ring,
    most: usize,
) -> Result<Option<FrameWriter>, AllocError>
    requires seen { (seen : List ideal.Opened) × AreSeen H.hash types.now (N.nodes store.now) opened.now seen }
    ensures written { IfOk result (λ told. (seen : List ideal.Opened) (recent : List (List ℕ))
        → AreSeen H.hash types.now (N.nodes store.now) opened.now seen → ring ≡ kept ring.size recent
        → HasWrittenWithin most ring.size recent (pieces_of H.hash types.now seen) told) }
    ensures limited { IfOk result (λ told. IfNone told (most < 2 ^ 64 - 1)) }
{
    let mut writer = FrameWriter::new(alloc, ring);
    let mut piece = Vec::new(alloc);
    for Opened { ty, value } in opened {
        spell_into(types, store, *value, *ty, &mut piece)?;
        piece = writer.put(piece)?.unwrap_or(Vec::new(alloc));
        if writer.bytes.len() > most {
            return Ok(None);
        }
    }
    Ok(Some(writer))
}
