// Messages over links in memory. Of a message that is read its kind, its session and its last field are compared.
ghost use Rattle.std.specs.Prelude.{◌<◌};

use lam_outside::MemLink;
use std::alloc::{AllocError, Global};
use std::test::Fail;
use wire_form::{ReadStop, Reply, Request, read_reply, read_request};

/// Who sends a message.
#[derive(Clone, Copy)]
pub enum Sender {
    Client,
    Server,
}

/// What a read answers.
#[derive(Clone, Copy)]
enum Want {
    /// A message.
    Whole,
    /// No message of this kind, with the first fault at this offset.
    Bad(u8, u32),
    /// A length that is too great.
    Long(u32),
    End,
    Cut,
    Fault,
}

/// One message of each kind, as who sends it writes it.
pub static MESSAGES: [(Sender, &[u8]); 9] = [
    (
        Sender::Client,
        b"\x00\x00\x00\x27\x01\x00\x01\x07\x07\x07\x07\x07\x07\x07\x07\x07\x07\x07\x07\x07\x07\x07\x07\x07\x07\x07\x07\x07\x07\x07\x07\x07\x07\x07\x07\x07\x07\x07\x07\x04\x00ab",
    ),
    (
        Sender::Client,
        b"\x00\x00\x00\x10\x02\xff\xff\x00\x01\x00\x00\x00\xe8\xd4\xa5\x10\x00xyz",
    ),
    (
        Sender::Client,
        b"\x00\x00\x00\x07\x03\x00\x00\xff\xff\xff\xff",
    ),
    (Sender::Client, b"\x00\x00\x00\x03\x04\x00\x01"),
    (Sender::Server, b"\x00\x00\x00\x03\x81\x00\x01"),
    (Sender::Server, b"\x00\x00\x00\x05\x82\xff\xffpf"),
    (Sender::Server, b"\x00\x00\x00\x04\x83\x00\x02s"),
    (Sender::Server, b"\x00\x00\x00\x04\x84\x00\x00\x0b"),
    (Sender::Server, b"\x00\x00\x00\x04\x85\x00\x01\x00"),
];

/// Bodies at the borders of each field, and what a read of them answers.
static BODIES: [(Sender, &[u8], Want); 38] = [
    (Sender::Client, b"", Want::Bad(0, 0)),
    (Sender::Client, b"\x00\x00\x01", Want::Bad(0, 0)),
    (Sender::Client, b"\x05\x00\x01", Want::Bad(5, 0)),
    (Sender::Client, b"\x01", Want::Bad(1, 1)),
    (Sender::Client, b"\x01\x00", Want::Bad(1, 1)),
    (Sender::Client, b"\x01\x00\x00", Want::Bad(1, 1)),
    (Sender::Client, b"\x01\x00\x01", Want::Bad(1, 3)),
    (
        Sender::Client,
        b"\x01\x00\x01\x07\x07\x07\x07\x07\x07\x07\x07\x07\x07\x07\x07\x07\x07\x07\x07\x07\x07\x07\x07\x07\x07\x07\x07\x07\x07\x07\x07\x07\x07\x07",
        Want::Bad(1, 3),
    ),
    (
        Sender::Client,
        b"\x01\x00\x01\x07\x07\x07\x07\x07\x07\x07\x07\x07\x07\x07\x07\x07\x07\x07\x07\x07\x07\x07\x07\x07\x07\x07\x07\x07\x07\x07\x07\x07\x07\x07\x07\x00",
        Want::Bad(1, 35),
    ),
    (
        Sender::Client,
        b"\x01\x00\x01\x07\x07\x07\x07\x07\x07\x07\x07\x07\x07\x07\x07\x07\x07\x07\x07\x07\x07\x07\x07\x07\x07\x07\x07\x07\x07\x07\x07\x07\x07\x07\x07\xff\xff",
        Want::Whole,
    ),
    (Sender::Client, b"\x02\x00\x00", Want::Bad(2, 1)),
    (Sender::Client, b"\x02\x00\x01\x00", Want::Bad(2, 3)),
    (Sender::Client, b"\x02\x00\x01\xff\xff", Want::Bad(2, 5)),
    (
        Sender::Client,
        b"\x02\x00\x01\xff\xff\xff\xff\xff\xff\xff\xff\xff",
        Want::Bad(2, 5),
    ),
    (
        Sender::Client,
        b"\x02\x00\x01\xff\xff\xff\xff\xff\xff\xff\xff\xff\xff",
        Want::Whole,
    ),
    (Sender::Client, b"\x03", Want::Bad(3, 1)),
    (
        Sender::Client,
        b"\x03\x00\x01\x00\x00\x00\x01",
        Want::Bad(3, 1),
    ),
    (Sender::Client, b"\x03\x00\x00", Want::Bad(3, 3)),
    (Sender::Client, b"\x03\x00\x00\x00\x00\x00", Want::Bad(3, 3)),
    (Sender::Client, b"\x03\x00\x00\x00\x00\x00\x00", Want::Whole),
    (
        Sender::Client,
        b"\x03\x00\x00\x00\x00\x00\x01\x00",
        Want::Bad(3, 7),
    ),
    (Sender::Client, b"\x04\x00\x00", Want::Bad(4, 1)),
    (Sender::Client, b"\x04\xff\xff", Want::Whole),
    (Sender::Client, b"\x04\x00\x01\x00", Want::Bad(4, 3)),
    (Sender::Server, b"", Want::Bad(0, 0)),
    (Sender::Server, b"\x80\x00\x01", Want::Bad(0x80, 0)),
    (Sender::Server, b"\x86\x00\x01", Want::Bad(0x86, 0)),
    (Sender::Server, b"\x81\x00", Want::Bad(0x81, 1)),
    (Sender::Server, b"\x81\x00\x00", Want::Bad(0x81, 1)),
    (Sender::Server, b"\x81\x00\x01\x00", Want::Bad(0x81, 3)),
    (Sender::Server, b"\x82\x00\x00", Want::Bad(0x82, 1)),
    (Sender::Server, b"\x82\x00\x01", Want::Whole),
    (Sender::Server, b"\x83\x00\x00", Want::Bad(0x83, 1)),
    (Sender::Server, b"\x83\xff\xff", Want::Whole),
    (Sender::Server, b"\x84\x00\x01", Want::Bad(0x84, 3)),
    (Sender::Server, b"\x84\xff\xff\xff", Want::Whole),
    (Sender::Server, b"\x85\x00", Want::Bad(0x85, 1)),
    (Sender::Server, b"\x85\x00\x00\x00\x00", Want::Bad(0x85, 4)),
];

/// What was read of some bytes: why it stopped, how many bytes are left, and the message's kind, its session and its last field.
#[derive(Drop)]
struct Told {
    stop: Option<ReadStop>,
    left: usize,
    kind: u8,
    session: u16,
    last: Vec<u8>,
}

/// Reads a message of the sender.
fn pass(alloc: Global, sender: Sender, from: &mut MemLink) -> Result<Told, AllocError> {
    match sender {
        Sender::Client => match read_request(alloc, from) {
            Ok(request) => told_request(alloc, from, &request),
            Err(stop) => Ok(stopped(alloc, from, stop)),
        },
        Sender::Server => match read_reply(alloc, from) {
            Ok(reply) => told_reply(alloc, from, &reply),
            Err(stop) => Ok(stopped(alloc, from, stop)),
        },
    }
}

fn stopped(alloc: Global, from: &MemLink, stop: ReadStop) -> Told {
    Told {
        stop: Some(stop),
        left: from.left(),
        kind: 0,
        session: 0,
        last: Vec::new(alloc),
    }
}

fn told_request(alloc: Global, from: &MemLink, request: &Request) -> Result<Told, AllocError> {
    let (kind, session, last): (u8, u16, &[u8]) = match request {
        Request::Hello { session, state, .. } => (1, *session, state.as_bytes()),
        Request::Call {
            session,
            argument,
            ..
        } => (2, *session, argument.as_bytes()),
        Request::Go { .. } => (3, 0, &[]),
        Request::Bye { session } => (4, *session, &[]),
    };
    Ok(Told {
        stop: None,
        left: from.left(),
        kind,
        session,
        last: Vec::from_slice(alloc, last)?,
    })
}

fn told_reply(alloc: Global, from: &MemLink, reply: &Reply) -> Result<Told, AllocError> {
    let (kind, session, last): (u8, u16, &[u8]) = match reply {
        Reply::Welcome { session } => (0x81, *session, &[]),
        Reply::Proof { session, frames } => (0x82, *session, frames.as_bytes()),
        Reply::Stale { session, state } => (0x83, *session, state.as_bytes()),
        Reply::Refused { session, .. } => (0x84, *session, &[]),
        Reply::Closed { session, .. } => (0x85, *session, &[]),
    };
    Ok(Told {
        stop: None,
        left: from.left(),
        kind,
        session,
        last: Vec::from_slice(alloc, last)?,
    })
}

/// Whether a message that was read is this one: the kind stands behind its length, the session behind the kind, and the last
/// field at its end.
fn is_read(told: &Told, message: &[u8]) -> bool {
    let session = told.session.to_be_bytes();
    message.get(4) == Some(&told.kind)
        && message.get(5) == session.first()
        && message.get(6) == session.last()
        && message.ends_with(&told.last)
}

/// Whether a read answered so, with as many bytes left.
fn is_told(told: &Told, want: Want, left: usize, message: &[u8]) -> bool {
    let answered = match (told.stop, want) {
        (None, Want::Whole) => is_read(told, message),
        (Some(ReadStop::BadMessage(kind, offset)), Want::Bad(of, at)) => kind == of && offset == at,
        (Some(ReadStop::TooLong(len)), Want::Long(of)) => len == of,
        (Some(ReadStop::End), Want::End)
        | (Some(ReadStop::Cut), Want::Cut)
        | (Some(ReadStop::LinkFault), Want::Fault) => true,
        _ => false,
    };
    answered && told.left == left
}

/// The bytes, and so many behind them.
fn with_rest(alloc: Global, bytes: &[u8], rest: &[u8]) -> Result<Vec<u8>, AllocError> {
    let mut all = Vec::from_slice(alloc, bytes)?;
    all.extend_from_slice(rest)?;
    Ok(all)
}

/// The number of the first message, from 0, that isn't read whole, with two bytes left, by so many bytes a call.
fn misread(alloc: Global, most: usize) -> Result<Option<usize>, AllocError>
    requires { 0 < most }
{
    for (number, (sender, message)) in MESSAGES.iter().enumerate() {
        let coming = with_rest(alloc, message, b"\x00\x01")?;
        let mut from = MemLink::from_bytes(alloc, &coming, most, &[])?;
        let told = pass(alloc, *sender, &mut from)?;
        if !is_told(&told, Want::Whole, 2, message) {
            return Ok(Some(number));
        }
    }
    Ok(None)
}

#[test]
fn each_kind_is_read(rt: HostRuntime) -> Result<(), Fail> {
    for most in [1, 2, 3, 7, 4096] {
        if let Some(number) = misread(rt.alloc(), most)? {
            return Err(Fail::new(format_args!("message {number}, by {most}")));
        }
    }
    Ok(())
}

/// The number of bytes at which a cut of the message is told otherwise.
fn miscut(alloc: Global, sender: Sender, message: &[u8]) -> Result<Option<usize>, AllocError> {
    for count in 0..message.len() {
        let mut from = MemLink::from_bytes(alloc, &message[..count], 3, &[])?;
        let told = pass(alloc, sender, &mut from)?;
        let want = if count == 0 { Want::End } else { Want::Cut };
        if !is_told(&told, want, 0, message) {
            return Ok(Some(count));
        }
    }
    Ok(None)
}

#[test]
fn each_kind_is_cut_at_each_byte(rt: HostRuntime) -> Result<(), Fail> {
    for (number, (sender, message)) in MESSAGES.iter().enumerate() {
        if let Some(count) = miscut(rt.alloc(), *sender, message)? {
            return Err(Fail::new(format_args!("message {number}, cut at {count}")));
        }
    }
    Ok(())
}

/// Whether the message is refused at its kind where the other side reads it.
fn is_of_its_sender(alloc: Global, sender: Sender, message: &[u8]) -> Result<bool, AllocError> {
    let other = match sender {
        Sender::Client => Sender::Server,
        Sender::Server => Sender::Client,
    };
    let kind = message.get(4).copied().unwrap_or(0);
    let coming = with_rest(alloc, message, b"\x00")?;
    let mut from = MemLink::from_bytes(alloc, &coming, 7, &[])?;
    let told = pass(alloc, other, &mut from)?;
    Ok(is_told(&told, Want::Bad(kind, 0), 1, message))
}

#[test]
fn no_kind_goes_the_other_way(rt: HostRuntime) -> Result<(), Fail> {
    for (number, (sender, message)) in MESSAGES.iter().enumerate() {
        if !is_of_its_sender(rt.alloc(), *sender, message)? {
            return Err(Fail::new(format_args!("message {number}")));
        }
    }
    Ok(())
}

/// Whether a body is answered so, with the two bytes behind it left.
fn is_answered(alloc: Global, sender: Sender, body: &[u8], want: Want) -> Result<bool, AllocError> {
    let len = u32::try_from(body.len()).unwrap_or(0);
    let message = with_rest(alloc, &len.to_be_bytes(), body)?;
    let coming = with_rest(alloc, &message, b"\x00\x00")?;
    let mut from = MemLink::from_bytes(alloc, &coming, 5, &[])?;
    let told = pass(alloc, sender, &mut from)?;
    Ok(is_told(&told, want, 2, &message))
}

#[test]
fn fields_are_taken_at_their_borders(rt: HostRuntime) -> Result<(), Fail> {
    for (number, (sender, body, want)) in BODIES.iter().enumerate() {
        if body.len() > 64 || !is_answered(rt.alloc(), *sender, body, *want)? {
            return Err(Fail::new(format_args!("body {number}")));
        }
    }
    Ok(())
}

#[test]
fn a_length_is_judged_before_the_body_comes(rt: HostRuntime) -> Result<(), Fail> {
    let alloc = rt.alloc();
    let mut from = MemLink::from_bytes(alloc, b"\x01\x00\x00\x00\x01\x00\x01", 7, &[])?;
    let told = pass(alloc, Sender::Client, &mut from)?;
    assert!(rt; is_told(&told, Want::Cut, 0, &[]));
    let mut from = MemLink::from_bytes(alloc, b"\x01\x00\x00\x01\x01\x00\x01", 7, &[])?;
    let told = pass(alloc, Sender::Client, &mut from)?;
    assert!(rt; is_told(&told, Want::Long(16_777_217), 3, &[]));
    Ok(())
}

/// The number of the first call that fails and is told otherwise, of the reads of a message by 3 bytes a call.
fn misfailed(alloc: Global, sender: Sender, message: &[u8]) -> Result<Option<u64>, AllocError> {
    for call in 0..3 {
        let mut from = MemLink::from_bytes(alloc, message, 3, &[call])?;
        let told = pass(alloc, sender, &mut from)?;
        let taken = message.len() - told.left.min(message.len());
        if !is_told(&told, Want::Fault, told.left, &[]) || taken > 3 * call as usize {
            return Ok(Some(call));
        }
    }
    Ok(None)
}

#[test]
fn each_read_of_a_message_fails_in_turn(rt: HostRuntime) -> Result<(), Fail> {
    for (number, (sender, message)) in MESSAGES.iter().enumerate() {
        if let Some(call) = misfailed(rt.alloc(), *sender, message)? {
            return Err(Fail::new(format_args!("message {number}, call {call}")));
        }
    }
    Ok(())
}
