// The frames of a proof, pulled from a source one at a time.
ghost use Rattle.std.specs.Prelude.{◌≡◌, ◌≤◌, ◌∷◌, [], ℕ, List, IfOk, IfSome};
ghost use Rattle.std.specs.Option.{ForSome};
ghost use Rattle.core_terms.specs.Formats.{Format};
ghost use Rattle.ideal_meaning.specs.Frames.{header};
ghost use Rattle.lam_outside.specs.Causes.{HasCause};
ghost use Rattle.proof_stream.specs.Incoming.{FrameCause};
ghost use Rattle.proof_stream.specs.TakenFrames.{CountsLeft, HasInHand, HeadCause, TakesFrame, TakesHeader};

use crate::frame::{NEW, USE};
use crate::incoming::{read_kind, read_length, read_number, read_piece};
use crate::{Frame, FrameEnd, HeadEnd};
use byteorder::{BigEndian, ByteOrder};
use lam_outside::{Failed, Source, fill};
use std::alloc::Global;
use std::mem;

/// How many bytes are asked for at once.
const CHUNK: usize = 4096;
/// The greatest number of bytes left over that is told.
const MOST_LEFT: usize = 65_536;

/// Reads frames, and has the last new piece in hand. It keeps no source. After an `Err` it may only be dropped.
#[derive(Drop)]
pub struct FrameReader {
    alloc: Global,
    limit: usize,
    piece: Vec<u8>,
    /// The memory of the next piece.
    spare: Vec<u8>,
}

impl FrameReader {
    ghost use Rattle.proof_stream.specs.Readers.{limit_of, piece_of};

    /// A reader of pieces of at most `limit` bytes, with none in hand.
    pub fn new(alloc: Global, limit: usize) -> Self
        ensures limit { limit_of result ≡ limit }
        ensures piece { piece_of result ≡ [] }
    {
        FrameReader {
            alloc,
            limit,
            piece: Vec::new(alloc),
            spare: Vec::new(alloc),
        }
    }

    /// Takes the header of a proof file, in a format with this magic and at most `most_kept` kept pieces, and gives the number
    /// of pieces that are to be kept.
    ///
    /// - `Header` where the bytes have no such header; its 6 bytes, or all that there are, were taken.
    /// - `ReadFault` where the source failed, and its count of faults rose; at most 6 bytes were taken.
    pub fn header<S: Source>(
        &mut self,
        source: &mut S,
        magic: [u8; 4],
        most_kept: u16,
    ) -> Result<u16, HeadEnd>
        ensures takes { ForSome (S.left source.old) (λ bytes. TakesHeader magic most_kept bytes (S.left source.new) result) }
        ensures within { IfOk result (λ size. size ≤ most_kept) }
        ensures limit { limit_of self.new ≡ limit_of self.old }
        ensures piece { piece_of self.new ≡ piece_of self.old }
        ensures rest { S.rest source.new ≡ S.rest source.old }
        ensures cause { HeadCause (S.faults source.old) (S.faults source.new) result }
    {
        let mut head = [0; 6];
        let count = fill(source, &mut head)?;
        if count < 6 {
            return Err(HeadEnd::Header);
        }
        match ring_size(&head, magic, most_kept) {
            Some(size) => Ok(size),
            None => Err(HeadEnd::Header),
        }
    }

    /// Takes the next frame.
    ///
    /// - `End` where no byte is left, `Cut` where the bytes end inside the frame: all of them were taken.
    /// - `BadKind` where its first byte begins no frame; this byte was taken.
    /// - `PieceLong` where its piece would be longer than the limit; its first byte and the 4 bytes of the length were taken.
    /// - `ReadFault` where the source failed, and its count of faults rose.
    /// - `NoMemory` where what came of the piece found no memory. A length that is announced and doesn't come takes none.
    pub fn next<S: Source>(&mut self, source: &mut S) -> Result<Frame, FrameEnd>
        ensures takes { ForSome (S.left source.old) (λ bytes. TakesFrame (limit_of self.old) bytes (piece_of self.new) (S.left source.new) result) }
        ensures hand { HasInHand (limit_of self.old) (piece_of self.old) (piece_of self.new) result }
        ensures limit { limit_of self.new ≡ limit_of self.old }
        ensures rest { S.rest source.new ≡ S.rest source.old }
        ensures cause { FrameCause (S.faults source.old) (S.faults source.new) result }
    {
        match read_kind(source)? {
            NEW => self.next_new(source),
            USE => next_back(source),
            kind => Err(FrameEnd::BadKind(kind)),
        }
    }

    /// Takes a new piece, from behind its frame's first byte.
    fn next_new<S: Source>(&mut self, source: &mut S) -> Result<Frame, FrameEnd>
        ensures takes { ForSome (S.left source.old) (λ bytes. TakesFrame (limit_of self.old) (0 ∷ bytes) (piece_of self.new) (S.left source.new) result) }
        ensures hand { HasInHand (limit_of self.old) (piece_of self.old) (piece_of self.new) result }
        ensures limit { limit_of self.new ≡ limit_of self.old }
        ensures rest { S.rest source.new ≡ S.rest source.old }
        ensures cause { FrameCause (S.faults source.old) (S.faults source.new) result }
    {
        let len = read_length(source, self.limit)?;
        read_piece(source, len as usize, &mut self.spare)?;
        mem::swap(&mut self.piece, &mut self.spare);
        Ok(Frame::New)
    }

    /// The piece of the last `New`; empty before it, and after [`take_piece`](FrameReader::take_piece).
    pub fn piece(&self) -> &[u8]
        ensures { result.now ≡ piece_of self.now }
    {
        &self.piece
    }

    /// Moves the piece of the last `New` out.
    pub fn take_piece(&mut self) -> Vec<u8>
        ensures piece { result.items ≡ piece_of self.old }
        ensures empty { piece_of self.new ≡ [] }
        ensures limit { limit_of self.new ≡ limit_of self.old }
    {
        mem::replace(&mut self.piece, Vec::new(self.alloc))
    }

    /// Takes the memory of a piece that is out of use, for the next one. None is in hand then.
    pub fn reuse(&mut self, spare: Option<Vec<u8>>)
        ensures piece { piece_of self.new ≡ [] }
        ensures limit { limit_of self.new ≡ limit_of self.old }
    {
        self.piece.clear();
        if let Some(spare) = spare {
            self.spare = spare;
        }
    }

    /// Takes the bytes that are left, at most 65,536, and gives their number.
    ///
    /// `Failed` where the source failed, and its count of faults rose.
    pub fn count_rest<S: Source>(&mut self, source: &mut S) -> Result<u32, Failed>
        ensures counts { ForSome (S.left source.old) (λ bytes. CountsLeft bytes (S.left source.new) result) }
        ensures limit { limit_of self.new ≡ limit_of self.old }
        ensures piece { piece_of self.new ≡ piece_of self.old }
        ensures rest { S.rest source.new ≡ S.rest source.old }
        ensures cause { HasCause (S.faults source.old) (S.faults source.new) result }
    {
        let mut chunk = [0; CHUNK];
        let mut count = 0;
        while count < MOST_LEFT {
            let most = CHUNK.min(MOST_LEFT - count);
            let read = source.read(&mut chunk[..most])?;
            if read == 0 {
                break;
            }
            count += read;
        }
        Ok(count as u32)
    }
}

/// Takes the number of a kept piece, from behind its frame's first byte.
fn next_back<S: Source>(source: &mut S) -> Result<Frame, FrameEnd>
    ensures takes { (limit : ℕ) → (piece : List ℕ) → ForSome (S.left source.old) (λ bytes. TakesFrame limit (1 ∷ bytes) piece (S.left source.new) result) }
    ensures hand { (limit : ℕ) → (piece : List ℕ) → HasInHand limit piece piece result }
    ensures rest { S.rest source.new ≡ S.rest source.old }
    ensures cause { FrameCause (S.faults source.old) (S.faults source.new) result }
{
    let number = read_number(source)?;
    Ok(Frame::Back(number))
}

/// The number of pieces to be kept, in the header that these bytes are; none where they are no header.
fn ring_size(head: &[u8], magic: [u8; 4], most_kept: u16) -> Option<u16>
    ensures is { (format : Format) → format.magic ≡ magic → format.most_kept ≡ most_kept → header format head.now ≡ result }
    ensures within { IfSome result (λ size. size ≤ most_kept) }
{
    let (front, size) = head.split_at_checked(4)?;
    if size.len() < 2 || front != magic.as_slice() {
        return None;
    }
    let size = BigEndian::read_u16(size);
    if size > most_kept {
        return None;
    }
    Some(size)
}
