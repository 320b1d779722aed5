// Frames, written behind a buffer.
ghost use Rattle.std.specs.Prelude.{◌<◌, ◌^◌, ◌++◌, ◌∷◌, [], length};
ghost use Rattle.std.specs.Int.{w16, to_be_bytes};
ghost use Rattle.ideal_meaning.specs.Frames.{New, Use, frame_bytes};
ghost use Rattle.proof_stream.specs.Written.{Puts};

use crate::frame::{NEW, USE};
use std::alloc::AllocError;

/// Puts the header of a proof file behind the buffer: the magic of its format, and how many pieces are to be kept.
///
/// Where memory is wanting, a front of it was put.
pub fn put_header(out: &mut Vec<u8>, magic: [u8; 4], size: u16) -> Result<(), AllocError>
    ensures { Puts (magic ++ to_be_bytes w16 size) out.old.items out.new.items result }
{
    out.extend_from_slice(&magic)?;
    out.extend_from_slice(&size.to_be_bytes())
}

/// Puts a frame with a new piece, of fewer than 2^32 bytes, behind the buffer.
///
/// Where memory is wanting, a front of it was put.
pub fn put_new(out: &mut Vec<u8>, piece: &[u8]) -> Result<(), AllocError>
    requires { length piece.now < 2 ^ 32 }
    ensures { Puts (frame_bytes (New piece.now ∷ [])) out.old.items out.new.items result }
{
    out.push(NEW)?;
    out.extend_from_slice(&(piece.len() as u32).to_be_bytes())?;
    out.extend_from_slice(piece)
}

/// Puts a frame that names the k-th last kept piece, 0 being the last, behind the buffer.
///
/// Where memory is wanting, a front of it was put.
pub fn put_use(out: &mut Vec<u8>, k: u16) -> Result<(), AllocError>
    ensures { Puts (frame_bytes (Use k ∷ [])) out.old.items out.new.items result }
{
    out.push(USE)?;
    out.extend_from_slice(&k.to_be_bytes())
}
