// Messages between who asks for pieces and who has them, over links in memory.
ghost use Rattle.std.specs.Prelude.{◌<◌};

use core_terms::Digest;
use lam_outside::MemLink;
use std::alloc::{AllocError, Global};
use std::test::Fail;
use wire_form::{
    Fetch, FetchStop, Got, LinkFetch, ReadStop, Wire, read_fetch, read_piece, write_fetch,
    write_piece,
};

/// What a read answers.
#[derive(Clone, Copy)]
enum Want {
    /// A digest or a piece, of these bytes.
    Bytes(&'static [u8]),
    Lack,
    /// No message of this kind, with the first fault at this offset.
    Bad(u8, u32),
    /// A length that is too great.
    Long(u32),
    End,
    Cut,
    Fault,
}

/// The digest that is asked for.
const DIGEST: [u8; 32] = [7; 32];

/// The message that asks for it.
const FETCH: [u8; 39] =
    *b"\x00\x00\x00\x23\x05\x00\x00\x07\x07\x07\x07\x07\x07\x07\x07\x07\x07\x07\x07\x07\x07\x07\x07\x07\x07\x07\x07\x07\x07\x07\x07\x07\x07\x07\x07\x07\x07\x07\x07";

/// Each answer, as it is written.
static ANSWERS: [(&[u8], Want); 3] = [
    (b"\x00\x00\x00\x05\x86\x00\x00ab", Want::Bytes(b"ab")),
    // a piece without bytes is one too
    (b"\x00\x00\x00\x03\x86\x00\x00", Want::Bytes(b"")),
    (b"\x00\x00\x00\x03\x87\x00\x00", Want::Lack),
];

/// Messages that are no answer.
static OTHERS: [(&[u8], Want); 10] = [
    (b"\x00\x00\x00\x00", Want::Bad(0, 0)),
    (b"\x00\x00\x00\x01\x86", Want::Bad(0x86, 1)),
    (b"\x00\x00\x00\x02\x87\x00", Want::Bad(0x87, 1)),
    // of a session
    (b"\x00\x00\x00\x05\x86\x00\x01ab", Want::Bad(0x86, 1)),
    (b"\x00\x00\x00\x03\x87\x01\x00", Want::Bad(0x87, 1)),
    // a byte too many
    (b"\x00\x00\x00\x04\x87\x00\x00\x00", Want::Bad(0x87, 3)),
    // of another kind: one that asks, and a reply
    (b"\x00\x00\x00\x03\x05\x00\x00", Want::Bad(5, 0)),
    (b"\x00\x00\x00\x05\x82\x00\x01ab", Want::Bad(0x82, 0)),
    (b"\x00\x00\x00\x03\x88\x00\x00", Want::Bad(0x88, 0)),
    (b"\x01\x00\x00\x01\x86\x00\x00", Want::Long(16_777_217)),
];

/// Bodies behind the kind of a message that asks, and what a read of them answers.
static ASKED: [(&[u8], Want); 5] = [
    (b"", Want::Bad(5, 1)),
    (b"\x00\x01", Want::Bad(5, 1)),
    (b"\x00\x00", Want::Bad(5, 3)),
    (
        b"\x00\x00\x07\x07\x07\x07\x07\x07\x07\x07\x07\x07\x07\x07\x07\x07\x07\x07\x07\x07\x07\x07\x07\x07\x07\x07\x07\x07\x07\x07\x07\x07\x07",
        Want::Bad(5, 3),
    ),
    (
        b"\x00\x00\x07\x07\x07\x07\x07\x07\x07\x07\x07\x07\x07\x07\x07\x07\x07\x07\x07\x07\x07\x07\x07\x07\x07\x07\x07\x07\x07\x07\x07\x07\x07\x07\x00",
        Want::Bad(5, 35),
    ),
];

fn is_stop(stop: ReadStop, want: Want) -> bool {
    match (stop, want) {
        (ReadStop::BadMessage(kind, offset), Want::Bad(of, at)) => kind == of && offset == at,
        (ReadStop::TooLong(len), Want::Long(of)) => len == of,
        (ReadStop::End, Want::End)
        | (ReadStop::Cut, Want::Cut)
        | (ReadStop::LinkFault, Want::Fault) => true,
        _ => false,
    }
}

/// Whether a message that asks is read so, with as many bytes left.
fn is_asked(alloc: Global, from: &mut MemLink, want: Want, left: usize) -> bool {
    let read = match read_fetch(alloc, from) {
        Ok(digest) => matches!(want, Want::Bytes(bytes) if digest.as_bytes() == bytes),
        Err(stop) => is_stop(stop, want),
    };
    read && from.left() == left
}

/// Whether an answer is this.
fn is_got(got: &Got, want: Want) -> bool {
    match (got, want) {
        (Got::Piece(piece), Want::Bytes(bytes)) => piece.as_bytes() == bytes,
        (Got::Lack, Want::Lack) => true,
        (Got::Broken(Wire::BadMessage(kind, offset)), Want::Bad(of, at)) => {
            *kind == of && *offset == at
        }
        (Got::Broken(Wire::TooLong(len)), Want::Long(of)) => *len == of,
        (Got::Broken(Wire::End), Want::End) | (Got::Broken(Wire::Cut), Want::Cut) => true,
        _ => false,
    }
}

/// Whether an answer is read so, with as many bytes left.
fn is_answered(alloc: Global, from: &mut MemLink, want: Want, left: usize) -> bool {
    let read = match read_piece(alloc, from) {
        Ok(got) => is_got(&got, want),
        Err(stop) => is_stop(stop, want),
    };
    read && from.left() == left
}

/// A link on which these bytes come, and two behind them.
fn with_two(alloc: Global, bytes: &[u8], most: usize) -> Result<MemLink, AllocError>
    requires { 0 < most }
{
    let mut coming = Vec::from_slice(alloc, bytes)?;
    coming.extend_from_slice(b"\x00\x01")?;
    MemLink::from_bytes(alloc, &coming, most, &[])
}

#[test]
fn each_answer_is_read_and_no_byte_behind_it(rt: HostRuntime) -> Result<(), Fail> {
    let alloc = rt.alloc();
    for most in [1, 2, 3, 4096] {
        let mut from = with_two(alloc, &FETCH, most)?;
        assert!(rt; is_asked(alloc, &mut from, Want::Bytes(&DIGEST), 2));
        for (number, (message, want)) in ANSWERS.iter().enumerate() {
            let mut from = with_two(alloc, message, most)?;
            if !is_answered(alloc, &mut from, *want, 2) {
                return Err(Fail::new(format_args!("answer {number}, by {most}")));
            }
        }
    }
    Ok(())
}

#[test]
fn what_is_no_answer_is_refused_at_its_first_fault(rt: HostRuntime) -> Result<(), Fail> {
    let alloc = rt.alloc();
    for (number, (message, want)) in OTHERS.iter().enumerate() {
        // of one that is too long the length field alone is taken
        let left = if matches!(want, Want::Long(_)) { 5 } else { 2 };
        let mut from = with_two(alloc, message, 3)?;
        if !is_answered(alloc, &mut from, *want, left) {
            return Err(Fail::new(format_args!("message {number}")));
        }
    }
    Ok(())
}

/// Whether a message that asks, with this body behind its kind, is read so.
fn is_asked_by(alloc: Global, body: &[u8], want: Want) -> Result<bool, AllocError> {
    let len = u32::try_from(body.len()).unwrap_or(0).saturating_add(1);
    let mut message = Vec::from_slice(alloc, &len.to_be_bytes())?;
    message.push(5)?;
    message.extend_from_slice(body)?;
    let mut from = with_two(alloc, &message, 5)?;
    Ok(is_asked(alloc, &mut from, want, 2))
}

#[test]
fn what_does_not_ask_is_refused_at_its_first_fault(rt: HostRuntime) -> Result<(), Fail> {
    let alloc = rt.alloc();
    for (number, (body, want)) in ASKED.iter().enumerate() {
        if !is_asked_by(alloc, body, *want)? {
            return Err(Fail::new(format_args!("body {number}")));
        }
    }
    // an answer asks nothing
    let mut from = with_two(alloc, b"\x00\x00\x00\x03\x87\x00\x00", 5)?;
    assert!(rt; is_asked(alloc, &mut from, Want::Bad(0x87, 0), 2));
    Ok(())
}

/// What is read where so many bytes of a message have come.
fn cut_at(count: usize) -> Want {
    if count == 0 { Want::End } else { Want::Cut }
}

#[test]
fn each_message_is_cut_at_each_byte(rt: HostRuntime) -> Result<(), Fail> {
    let alloc = rt.alloc();
    for count in 0..FETCH.len() {
        let mut from = MemLink::from_bytes(alloc, &FETCH[..count], 3, &[])?;
        if !is_asked(alloc, &mut from, cut_at(count), 0) {
            return Err(Fail::new(format_args!("cut at {count}")));
        }
    }
    for (number, (message, _)) in ANSWERS.iter().enumerate() {
        for count in 0..message.len() {
            let mut from = MemLink::from_bytes(alloc, &message[..count], 3, &[])?;
            if !is_answered(alloc, &mut from, cut_at(count), 0) {
                return Err(Fail::new(format_args!("answer {number}, cut at {count}")));
            }
        }
    }
    Ok(())
}

#[test]
fn each_call_of_a_link_fails_in_turn(rt: HostRuntime) -> Result<(), Fail> {
    let alloc = rt.alloc();
    // of the 4 bytes of the length the second call reads one
    for (call, left) in [(0, 39), (1, 36), (2, 35)] {
        let mut from = MemLink::from_bytes(alloc, &FETCH, 3, &[call])?;
        assert!(rt; is_asked(alloc, &mut from, Want::Fault, left));
    }
    for (call, count) in [(0, 0), (1, 3), (12, 36)] {
        let mut to = MemLink::from_bytes(alloc, &[], 3, &[call])?;
        assert!(rt; write_fetch(alloc, &mut to, &Digest(DIGEST)).is_err());
        assert!(rt; Some(to.sent()) == FETCH.get(..count));
    }
    Ok(())
}

/// Whether what is read of an answer is written as the same bytes.
fn is_written_back(alloc: Global, message: &[u8]) -> Result<bool, AllocError> {
    let mut from = MemLink::from_bytes(alloc, message, 7, &[])?;
    let mut to = MemLink::from_bytes(alloc, &[], 3, &[])?;
    let written = match read_piece(alloc, &mut from) {
        Ok(got) => write_piece(alloc, &mut to, &got).is_ok(),
        Err(_) => false,
    };
    Ok(written && to.sent() == message)
}

#[test]
fn each_message_is_written_as_its_bytes(rt: HostRuntime) -> Result<(), Fail> {
    let alloc = rt.alloc();
    let mut to = MemLink::from_bytes(alloc, &[], 3, &[])?;
    assert!(rt; write_fetch(alloc, &mut to, &Digest(DIGEST)).is_ok());
    assert!(rt; to.sent() == FETCH.as_slice());
    for (number, (message, _)) in ANSWERS.iter().enumerate() {
        if !is_written_back(alloc, message)? {
            return Err(Fail::new(format_args!("answer {number}")));
        }
    }
    Ok(())
}

/// Whether the peer of a link on which these bytes come is asked for the piece, and answers so.
fn is_fetched(alloc: Global, coming: &[u8], want: Want) -> Result<bool, AllocError> {
    let mut link = MemLink::from_bytes(alloc, coming, 7, &[])?;
    let mut fetch = LinkFetch { link: &mut link };
    let got = match fetch.fetch(alloc, &Digest(DIGEST)) {
        Ok(got) => is_got(&got, want),
        Err(_) => false,
    };
    Ok(got && link.sent() == FETCH.as_slice())
}

#[test]
fn a_peer_is_asked_once_and_its_next_message_answers(rt: HostRuntime) -> Result<(), Fail> {
    let alloc = rt.alloc();
    for (number, (message, want)) in ANSWERS.iter().enumerate() {
        if !is_fetched(alloc, message, *want)? {
            return Err(Fail::new(format_args!("answer {number}")));
        }
    }
    for (number, (message, want)) in OTHERS.iter().enumerate() {
        if !is_fetched(alloc, message, *want)? {
            return Err(Fail::new(format_args!("message {number}")));
        }
    }
    assert!(rt; is_fetched(alloc, b"", Want::End)?);
    assert!(rt; is_fetched(alloc, b"\x00\x00\x00\x05\x86\x00\x00a", Want::Cut)?);
    Ok(())
}

#[test]
fn a_link_that_fails_gives_no_answer(rt: HostRuntime) -> Result<(), Fail> {
    let alloc = rt.alloc();
    for call in [0, 1] {
        let mut link = MemLink::from_bytes(alloc, b"\x00\x00\x00\x03\x87\x00\x00", 64, &[call])?;
        let mut fetch = LinkFetch { link: &mut link };
        let got = fetch.fetch(alloc, &Digest(DIGEST));
        assert!(rt; matches!(&got, Err(FetchStop::Failed)));
    }
    Ok(())
}
