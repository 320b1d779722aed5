// The parts of a frame as they come: its first byte, numbers, and the bytes of a piece.
ghost use Rattle.std.specs.Prelude.{◌≡◌, ◌<◌, ◌≤◌, length, take, IfOk, OnOk};
ghost use Rattle.std.specs.Option.{ForSome};
ghost use Rattle.proof_stream.specs.Incoming.{FrameCause, IsWithin, KindCame, LengthCame, NumberCame, PieceCame};

use crate::FrameEnd;
use byteorder::{BigEndian, ByteOrder};
use lam_outside::{Source, fill};
use std::alloc::AllocError;

/// By how many bytes the buffer of a piece grows at once, at most.
const CHUNK: usize = 16_384;

/// The first byte of the next frame.
pub fn read_kind<S: Source>(source: &mut S) -> Result<u8, FrameEnd>
    ensures came { ForSome (S.left source.old) (λ bytes. KindCame bytes (S.left source.new) result) }
    ensures rest { S.rest source.new ≡ S.rest source.old }
    ensures cause { FrameCause (S.faults source.old) (S.faults source.new) result }
{
    let mut kind = [0];
    match fill(source, &mut kind)? {
        0 => Err(FrameEnd::End),
        _ => Ok(kind[0]),
    }
}

/// The number of a kept piece.
pub fn read_number<S: Source>(source: &mut S) -> Result<u16, FrameEnd>
    ensures came { ForSome (S.left source.old) (λ bytes. NumberCame bytes (S.left source.new) result) }
    ensures rest { S.rest source.new ≡ S.rest source.old }
    ensures cause { FrameCause (S.faults source.old) (S.faults source.new) result }
{
    let mut field = [0; 2];
    match fill(source, &mut field)? {
        2 => Ok(BigEndian::read_u16(&field)),
        _ => Err(FrameEnd::Cut),
    }
}

/// The length of a new piece, which is at most `limit`.
pub fn read_length<S: Source>(source: &mut S, limit: usize) -> Result<u32, FrameEnd>
    ensures came { ForSome (S.left source.old) (λ bytes. LengthCame limit bytes (S.left source.new) result) }
    ensures short { IfOk result (λ len. len ≤ limit) }
    ensures rest { S.rest source.new ≡ S.rest source.old }
    ensures cause { FrameCause (S.faults source.old) (S.faults source.new) result }
{
    let mut field = [0; 4];
    match fill(source, &mut field)? {
        4 => within(BigEndian::read_u32(&field), limit),
        _ => Err(FrameEnd::Cut),
    }
}

/// A length that a piece may have.
fn within(len: u32, limit: usize) -> Result<u32, FrameEnd>
    ensures { IsWithin limit len result }
{
    if len as usize > limit {
        return Err(FrameEnd::PieceLong(len));
    }
    Ok(len)
}

/// The bytes of a piece of this length, in place of those that were in the buffer. It takes memory for no more than
/// comes and one chunk, beside what the buffer has: its bytes are written over, which costs less than clearing them first.
pub fn read_piece<S: Source>(
    source: &mut S,
    len: usize,
    piece: &mut Vec<u8>,
) -> Result<(), FrameEnd>
    ensures came { ForSome (S.left source.old) (λ bytes. PieceCame len bytes piece.new.items (S.left source.new) result) }
    ensures whole { OnOk result (length piece.new.items ≡ len) }
    ensures rest { S.rest source.new ≡ S.rest source.old }
    ensures cause { FrameCause (S.faults source.old) (S.faults source.new) result }
{
    piece.truncate(len);
    let mut start = 0;
    while start < len {
        make_room(piece, start, len)?;
        let most = piece.len() - start;
        let count = fill(source, &mut piece[start..])?;
        if count < most {
            return Err(FrameEnd::Cut);
        }
        start += most;
    }
    Ok(())
}

/// Makes the buffer longer than its first bytes, by one chunk at most, where it isn't.
fn make_room(piece: &mut Vec<u8>, start: usize, len: usize) -> Result<(), AllocError>
    requires below { start < len }
    requires there { start ≤ length piece.old.items }
    requires fits { length piece.old.items ≤ len }
    ensures kept { take start piece.new.items ≡ take start piece.old.items }
    ensures room { OnOk result (start < length piece.new.items) }
    ensures within { length piece.new.items ≤ len }
{
    if start < piece.len() {
        return Ok(());
    }
    let most = CHUNK.min(len - start);
    piece.resize(start + most, 0)?;
    Ok(())
}
