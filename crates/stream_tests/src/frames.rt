// The frames of a proof, one at a time.
ghost use Rattle.std.specs.Prelude.{◌<◌};

use lam_outside::{Bytes, Endless, MemLink, Source};
use proof_stream::{Frame, FrameEnd, FrameReader, HeadEnd, put_header, put_new, put_use};
use reuse_buffer::Ring;
use std::alloc::{AllocError, Global};
use std::test::Fail;

const MAGIC: [u8; 4] = *b"LAP1";

const LIMIT: usize = 65_536;

/// Frames, and what a reader answers at each, with the piece in hand.
static FRAMES: [(&[u8], Result<Frame, FrameEnd>, &[u8]); 11] = [
    (b"\x00\x00\x00\x00\x00", Ok(Frame::New), b""),
    (b"\x00\x00\x00\x00\x03abc", Ok(Frame::New), b"abc"),
    (
        b"\x00\x00\x00\x00\x0aabcdefghij",
        Ok(Frame::New),
        b"abcdefghij",
    ),
    (b"\x01\x00\x00", Ok(Frame::Back(0)), b""),
    (b"\x01\x01\x02", Ok(Frame::Back(258)), b""),
    (b"\x01\xff\xff", Ok(Frame::Back(65_535)), b""),
    (b"\x02", Err(FrameEnd::BadKind(2)), b""),
    (b"\xff", Err(FrameEnd::BadKind(255)), b""),
    (
        b"\x00\x00\x01\x00\x01",
        Err(FrameEnd::PieceLong(65_537)),
        b"",
    ),
    (
        b"\x00\x01\x00\x00\x00",
        Err(FrameEnd::PieceLong(16_777_216)),
        b"",
    ),
    (
        b"\x00\xff\xff\xff\xff",
        Err(FrameEnd::PieceLong(4_294_967_295)),
        b"",
    ),
];

/// Whether the next frame is this one, and so many bytes are left behind it.
fn is_next(
    alloc: Global,
    source: &mut MemLink,
    want: Result<Frame, FrameEnd>,
    piece: &[u8],
    left: usize,
) -> bool {
    let mut reader = FrameReader::new(alloc, LIMIT);
    let answer = reader.next(source);
    answer == want && source.left() == left && (answer.is_err() || reader.piece() == piece)
}

/// The bytes, and two behind them.
fn with_two(alloc: Global, front: &[u8]) -> Result<Vec<u8>, AllocError> {
    let mut all = Vec::from_slice(alloc, front)?;
    all.extend_from_slice(b"\x00\x01")?;
    Ok(all)
}

/// The number of the first frame that is answered otherwise, by so many bytes a read.
fn misread(alloc: Global, most: usize) -> Result<Option<usize>, AllocError>
    requires { 0 < most }
{
    for (number, (frame, want, piece)) in FRAMES.iter().enumerate() {
        let coming = with_two(alloc, frame)?;
        let mut source = MemLink::from_bytes(alloc, &coming, most, &[])?;
        if !is_next(alloc, &mut source, *want, piece, 2) {
            return Ok(Some(number));
        }
    }
    Ok(None)
}

#[test]
fn each_frame_is_taken(rt: HostRuntime) -> Result<(), Fail> {
    for most in [1, 2, 3, 7, 4096] {
        if let Some(number) = misread(rt.alloc(), most)? {
            return Err(Fail::new(format_args!("frame {number}, by {most}")));
        }
    }
    Ok(())
}

/// The number of bytes at which a cut of the frame is answered otherwise, by so many bytes a read.
fn miscut(alloc: Global, frame: &[u8], most: usize) -> Result<Option<usize>, AllocError>
    requires { 0 < most }
{
    for count in 0..frame.len() {
        let mut source = MemLink::from_bytes(alloc, &frame[..count], most, &[])?;
        let end = if count == 0 {
            FrameEnd::End
        } else {
            FrameEnd::Cut
        };
        if !is_next(alloc, &mut source, Err(end), &[], 0) {
            return Ok(Some(count));
        }
    }
    Ok(None)
}

/// The first frame whose cuts are answered otherwise, by so many bytes a read.
fn miscut_frame(alloc: Global, most: usize) -> Result<Option<usize>, AllocError>
    requires { 0 < most }
{
    for (number, (frame, _, _)) in FRAMES.iter().enumerate() {
        if miscut(alloc, frame, most)?.is_some() {
            return Ok(Some(number));
        }
    }
    Ok(None)
}

#[test]
fn each_frame_is_cut_at_each_byte(rt: HostRuntime) -> Result<(), Fail> {
    for most in [1, 2, 3, 7] {
        if let Some(number) = miscut_frame(rt.alloc(), most)? {
            return Err(Fail::new(format_args!("frame {number}, by {most}")));
        }
    }
    Ok(())
}

#[test]
fn each_read_of_a_frame_fails_in_turn(rt: HostRuntime) -> Result<(), Fail> {
    let alloc = rt.alloc();
    for (call, left) in [(0, 8), (1, 7), (2, 5), (3, 3), (4, 1)] {
        let mut source = MemLink::from_bytes(alloc, b"\x00\x00\x00\x00\x03abc", 2, &[call])?;
        assert!(rt; is_next(alloc, &mut source, Err(FrameEnd::ReadFault), &[], left));
    }
    Ok(())
}

#[test]
fn a_length_is_judged_before_the_piece_comes(rt: HostRuntime) -> Result<(), Fail> {
    let alloc = rt.alloc();
    let mut source = MemLink::from_bytes(alloc, b"\x00\x00\x01\x00\x00abc", 7, &[])?;
    assert!(rt; is_next(alloc, &mut source, Err(FrameEnd::Cut), &[], 0));
    let mut source = MemLink::from_bytes(alloc, b"\x00\x00\x01\x00\x01abc", 7, &[])?;
    assert!(rt; is_next(alloc, &mut source, Err(FrameEnd::PieceLong(65_537)), &[], 3));
    Ok(())
}

/// Bytes, how many pieces may be kept, and what a reader answers at the header.
static HEADERS: [(&[u8], u16, Result<u16, HeadEnd>); 9] = [
    (b"LAP1\x00\x00", 0, Ok(0)),
    (b"LAP1\x04\x00", 1024, Ok(1024)),
    (b"LAP1\x04\x01", 1024, Err(HeadEnd::Header)),
    (b"LAP1\x00\x01", 0, Err(HeadEnd::Header)),
    (b"LAP1\x00", 1024, Err(HeadEnd::Header)),
    (b"LAP1", 1024, Err(HeadEnd::Header)),
    (b"", 1024, Err(HeadEnd::Header)),
    (b"LAP2\x00\x00", 1024, Err(HeadEnd::Header)),
    (b"\x00\x00LAP1", 1024, Err(HeadEnd::Header)),
];

#[test]
fn headers_are_taken(rt: HostRuntime) -> Result<(), Fail> {
    let alloc = rt.alloc();
    for (number, (head, most_kept, want)) in HEADERS.iter().enumerate() {
        for most in [1, 2, 3, 7] {
            let mut source = MemLink::from_bytes(alloc, head, most, &[])?;
            let mut reader = FrameReader::new(alloc, LIMIT);
            if reader.header(&mut source, MAGIC, *most_kept) != *want {
                return Err(Fail::new(format_args!("header {number}, by {most}")));
            }
        }
    }
    let mut source = MemLink::from_bytes(alloc, b"LAP1\x00\x00", 4, &[1])?;
    let mut reader = FrameReader::new(alloc, LIMIT);
    assert!(rt; reader.header(&mut source, MAGIC, 0) == Err(HeadEnd::ReadFault));
    assert!(rt; source.left() == 2);
    Ok(())
}

/// How the pieces that frames offer end.
#[derive(Clone, Copy, PartialEq, Eq)]
enum Ending {
    Frames(FrameEnd),
    /// A frame names a piece that isn't kept.
    BadUse,
    /// There are more frames than were asked for.
    More,
}

/// Frames, how many pieces are kept, the pieces offered one behind the other with a dot behind each, and how they end.
static OFFERS: [(&[u8], u16, &[u8], Ending); 6] = [
    (
        b"\x00\x00\x00\x00\x01a\x00\x00\x00\x00\x01b\x01\x00\x01",
        2,
        b"a.b.a.",
        Ending::Frames(FrameEnd::End),
    ),
    (
        b"\x00\x00\x00\x00\x01a\x00\x00\x00\x00\x01b\x01\x00\x01",
        1,
        b"a.b.",
        Ending::BadUse,
    ),
    (
        b"\x00\x00\x00\x00\x01a\x00\x00\x00\x00\x01b\x01\x00\x02",
        3,
        b"a.b.",
        Ending::BadUse,
    ),
    (
        b"\x00\x00\x00\x00\x01a\x00\x00\x00\x00\x01b\x01\x00\x01\x01\x00\x01\x00\x00\x00\x00\x01c\x01\x00\x01\x01\x00\x02",
        3,
        b"a.b.a.a.c.b.a.",
        Ending::Frames(FrameEnd::End),
    ),
    (b"\x01\x00\x00", 0, b"", Ending::BadUse),
    (
        b"\x00\x00\x00\x00\x01a\x01\x00",
        1,
        b"a.",
        Ending::Frames(FrameEnd::Cut),
    ),
];

/// Takes frames to their end, with a ring; puts each piece behind those before it.
fn follow(
    alloc: Global,
    source: &mut Bytes,
    size: u16,
    pieces: &mut Vec<u8>,
) -> Result<Ending, AllocError>
    requires { size < 1024 }
{
    let mut reader = FrameReader::new(alloc, LIMIT);
    let mut ring = Ring::with_size(alloc, size)?;
    for _ in 0..64 {
        match reader.next(source) {
            Ok(Frame::New) => {
                pieces.extend_from_slice(reader.piece())?;
                ring.push(reader.take_piece());
            }
            Ok(Frame::Back(k)) => match ring.get(k) {
                Some(piece) => pieces.extend_from_slice(piece)?,
                None => return Ok(Ending::BadUse),
            },
            Err(end) => return Ok(Ending::Frames(end)),
        }
        pieces.push(b'.')?;
    }
    Ok(Ending::More)
}

#[test]
fn frames_offer_their_pieces(rt: HostRuntime) -> Result<(), Fail> {
    let alloc = rt.alloc();
    for (number, (frames, size, want, end)) in OFFERS.iter().enumerate() {
        let mut pieces = Vec::new(alloc);
        let found = follow(
            alloc,
            &mut Bytes::new(frames),
            *size.min(&1000),
            &mut pieces,
        )?;
        if found != *end || pieces.as_slice() != *want {
            return Err(Fail::new(format_args!("frames {number}")));
        }
    }
    Ok(())
}

#[test]
fn what_is_left_is_counted(rt: HostRuntime) -> Result<(), Fail> {
    let alloc = rt.alloc();
    for count in [0, 1, 4096, 4097, 65_535, 65_536, 65_537] {
        let coming = Vec::from_elem(alloc, 7, count)?;
        let mut source = MemLink::from_bytes(alloc, &coming, 4096, &[])?;
        let mut reader = FrameReader::new(alloc, LIMIT);
        let told = reader.count_rest(&mut source);
        let want = count.min(65_536);
        assert!(rt; told.is_ok_and(|told| told as usize == want) && source.left() == count - want);
    }
    let mut source = MemLink::from_bytes(alloc, b"abcd", 2, &[1])?;
    let mut reader = FrameReader::new(alloc, LIMIT);
    assert!(rt; reader.count_rest(&mut source).is_err());
    Ok(())
}

/// Whether a thousand frames of an endless source are each this one.
fn goes_on(alloc: Global, round: &'static [u8], want: Frame, piece: &[u8]) -> bool {
    let mut source = Endless::new(round);
    let mut reader = FrameReader::new(alloc, LIMIT);
    for _ in 0..1000 {
        if reader.next(&mut source) != Ok(want) || reader.piece() != piece {
            return false;
        }
    }
    reader
        .count_rest(&mut source)
        .is_ok_and(|left| left == 65_536)
}

#[test]
fn endless_sources_are_answered(rt: HostRuntime) -> Result<(), Fail> {
    let alloc = rt.alloc();
    assert!(rt; goes_on(alloc, b"\x00", Frame::New, b""));
    assert!(rt; goes_on(alloc, b"\x00\x00\x00\x00\x00", Frame::New, b""));
    assert!(rt; goes_on(alloc, b"\x00\x00\x00\x00\x02ab", Frame::New, b"ab"));
    assert!(rt; goes_on(alloc, b"\x01\x00\x07", Frame::Back(7), b""));
    let mut reader = FrameReader::new(alloc, LIMIT);
    assert!(rt; reader.header(&mut Endless::new(b"\x00"), MAGIC, 0) == Err(HeadEnd::Header));
    Ok(())
}

#[test]
fn frames_are_written(rt: HostRuntime) -> Result<(), Fail> {
    let mut out = Vec::new(rt.alloc());
    put_header(&mut out, MAGIC, 2)?;
    put_new(&mut out, b"\x01")?;
    put_new(&mut out, b"")?;
    put_use(&mut out, 1)?;
    assert!(rt;
        out.as_slice()
            == b"LAP1\x00\x02\x00\x00\x00\x00\x01\x01\x00\x00\x00\x00\x00\x01\x00\x01".as_slice()
    );
    Ok(())
}
