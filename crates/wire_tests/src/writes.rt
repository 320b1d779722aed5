// Messages that are written: over links that take a few bytes a call, of which a call fails, or that take no more.
ghost use Rattle.std.specs.Prelude.{◌≡◌, ◌<◌, None, length, refl, IfOk};
ghost use Rattle.session_meaning.specs.MessageFields.{IsReply, IsRequest};
ghost use Rattle.wire_form.specs.MessageViews.{reply_meant, request_meant};

use crate::messages::MESSAGES;
use core_terms::{Digest, Piece};
use lam_outside::{Failed, Link, MemLink, Source};
use std::alloc::{AllocError, Global};
use std::test::Fail;
use wire_form::{Reply, Request, WriteStop, read_reply, read_request, write_reply, write_request};

/// How many of the messages are requests; they stand first.
const REQUESTS: usize = 4;

/// A link on which nothing comes, and which tells nothing. It takes so many bytes in all, and of what is sent then it takes none.
#[derive(Drop)]
struct Full {
    sent: Vec<u8>,
    room: usize,
    faults: u64,
}

impl Source for Full {
    ghost given = { λ _. None };

    ghost left = { λ _. None };

    ghost sent = { λ _. None };

    ghost reads = { λ _. None };

    ghost faults = { λ link. link.faults };

    ghost Rest = { Unit {0} };

    ghost rest = { λ _. tt };

    fn read(&mut self, _into: &mut [u8]) -> Result<usize, Failed> {
        Ok(0)
    }
}

impl Link for Full {
    ghost Beyond = { Unit {0} };

    ghost beyond = { λ _. tt };

    ghost rest_has_beyond = { λ old new same. refl };

    fn send(&mut self, piece: &[u8]) -> Result<usize, Failed> {
        let count = piece.len().min(self.room).min(5);
        let kept = self.sent.extend_from_slice(&piece[..count]);
        if kept.is_err() || (count == 0 && !piece.is_empty()) {
            self.faults = self.faults.saturating_add(1);
        }
        self.room -= count;
        if kept.is_err() {
            Err(Failed)
        } else {
            Ok(count)
        }
    }
}

fn piece(alloc: Global, bytes: &[u8]) -> Result<Piece, AllocError>
    ensures { IfOk result (λ piece. length piece ≡ length bytes.now) }
{
    Ok(Piece::new(Vec::from_slice(alloc, bytes)?))
}

/// The request with this number among the messages.
fn request(alloc: Global, number: usize) -> Result<Request, AllocError>
    ensures { IfOk result (λ request. IsRequest (request_meant request)) }
{
    match number {
        0 => Ok(Request::Hello {
            session: 1,
            program: Digest([7; 32]),
            kept: 1024,
            state: piece(alloc, b"ab")?,
        }),
        1 => Ok(Request::Call {
            session: 65_535,
            role: 1,
            fuel: 1_000_000_000_000,
            argument: piece(alloc, b"xyz")?,
        }),
        2 => Ok(Request::Go {
            rounds: 4_294_967_295,
        }),
        _ => Ok(Request::Bye { session: 1 }),
    }
}

/// The reply with this number among the messages.
fn reply(alloc: Global, number: usize) -> Result<Reply, AllocError>
    ensures { IfOk result (λ reply. IsReply (reply_meant reply)) }
{
    match number {
        4 => Ok(Reply::Welcome { session: 1 }),
        5 => Ok(Reply::Proof {
            session: 65_535,
            frames: piece(alloc, b"pf")?,
        }),
        6 => Ok(Reply::Stale {
            session: 2,
            state: piece(alloc, b"s")?,
        }),
        7 => Ok(Reply::Refused {
            session: 0,
            cause: 11,
        }),
        _ => Ok(Reply::Closed {
            session: 1,
            cause: 0,
        }),
    }
}

/// Writes the message with this number; what could not be made counts as memory that was wanting.
fn write<L: Link>(alloc: Global, number: usize, to: &mut L) -> Result<(), WriteStop> {
    if number < REQUESTS {
        write_request(alloc, to, &request(alloc, number)?)
    } else {
        write_reply(alloc, to, &reply(alloc, number)?)
    }
}

/// The number of the first message that isn't written as its bytes, by so many bytes a call.
fn miswritten(alloc: Global, most: usize) -> Result<Option<usize>, AllocError>
    requires { 0 < most }
{
    for (number, (_, message)) in MESSAGES.iter().enumerate() {
        let mut to = MemLink::from_bytes(alloc, &[], most, &[])?;
        if write(alloc, number, &mut to).is_err() || to.sent() != *message {
            return Ok(Some(number));
        }
    }
    Ok(None)
}

#[test]
fn each_kind_is_written(rt: HostRuntime) -> Result<(), Fail> {
    for most in [1, 2, 3, 7, 4096] {
        if let Some(number) = miswritten(rt.alloc(), most)? {
            return Err(Fail::new(format_args!("message {number}, by {most}")));
        }
    }
    Ok(())
}

/// The number of the first call that fails, by 3 bytes a call, and after which not just a front of the message was sent.
fn misfailed(alloc: Global, number: usize, message: &[u8]) -> Result<Option<u64>, AllocError> {
    for call in 0..20 {
        let mut to = MemLink::from_bytes(alloc, &[], 3, &[call])?;
        let written = write(alloc, number, &mut to);
        let sent = to.sent();
        let told = match written {
            Ok(()) => sent == message && sent.len() <= 3 * call as usize,
            Err(WriteStop::LinkFault) => {
                message.starts_with(sent) && sent.len() < message.len().min(3 * call as usize + 1)
            }
            Err(WriteStop::NoMemory) => false,
        };
        if !told {
            return Ok(Some(call));
        }
    }
    Ok(None)
}

#[test]
fn each_send_of_a_message_fails_in_turn(rt: HostRuntime) -> Result<(), Fail> {
    for (number, (_, message)) in MESSAGES.iter().enumerate() {
        if let Some(call) = misfailed(rt.alloc(), number, message)? {
            return Err(Fail::new(format_args!("message {number}, call {call}")));
        }
    }
    Ok(())
}

/// The number of bytes that a link takes of the message, in all, where that is told otherwise.
fn misfilled(alloc: Global, number: usize, message: &[u8]) -> Option<usize> {
    for room in 0..=message.len() {
        let mut to = Full {
            sent: Vec::new(alloc),
            room,
            faults: 0,
        };
        let told = match write(alloc, number, &mut to) {
            Ok(()) => room == message.len(),
            Err(WriteStop::LinkFault) => room < message.len(),
            Err(WriteStop::NoMemory) => false,
        };
        if !told || to.sent.as_slice() != &message[..room] {
            return Some(room);
        }
    }
    None
}

#[test]
fn a_short_send_is_not_taken_for_whole(rt: HostRuntime) -> Result<(), Fail> {
    for (number, (_, message)) in MESSAGES.iter().enumerate() {
        if let Some(room) = misfilled(rt.alloc(), number, message) {
            return Err(Fail::new(format_args!("message {number}, room {room}")));
        }
    }
    Ok(())
}

fn same_request(one: &Request, other: &Request) -> bool {
    match (one, other) {
        (
            Request::Hello {
                session,
                program,
                kept,
                state,
            },
            Request::Hello {
                session: of,
                program: text,
                kept: most,
                state: spelling,
            },
        ) => {
            session == of
                && program == text
                && kept == most
                && state.as_bytes() == spelling.as_bytes()
        }
        (
            Request::Call {
                session,
                role,
                fuel,
                argument,
            },
            Request::Call {
                session: of,
                role: called,
                fuel: most,
                argument: spelling,
            },
        ) => {
            session == of
                && role == called
                && fuel == most
                && argument.as_bytes() == spelling.as_bytes()
        }
        (Request::Go { rounds }, Request::Go { rounds: most }) => rounds == most,
        (Request::Bye { session }, Request::Bye { session: of }) => session == of,
        _ => false,
    }
}

fn same_reply(one: &Reply, other: &Reply) -> bool {
    match (one, other) {
        (Reply::Welcome { session }, Reply::Welcome { session: of }) => session == of,
        (
            Reply::Proof { session, frames },
            Reply::Proof {
                session: of,
                frames: bytes,
            },
        ) => session == of && frames.as_bytes() == bytes.as_bytes(),
        (
            Reply::Stale { session, state },
            Reply::Stale {
                session: of,
                state: spelling,
            },
        ) => session == of && state.as_bytes() == spelling.as_bytes(),
        (
            Reply::Refused { session, cause },
            Reply::Refused {
                session: of,
                cause: why,
            },
        )
        | (
            Reply::Closed { session, cause },
            Reply::Closed {
                session: of,
                cause: why,
            },
        ) => session == of && cause == why,
        _ => false,
    }
}

/// Whether the message is read back as it was written.
fn is_read_back(alloc: Global, number: usize) -> Result<bool, AllocError> {
    let mut to = MemLink::from_bytes(alloc, &[], 7, &[])?;
    if write(alloc, number, &mut to).is_err() {
        return Ok(false);
    }
    let mut from = MemLink::from_bytes(alloc, to.sent(), 7, &[])?;
    let same = if number < REQUESTS {
        let message = request(alloc, number)?;
        read_request(alloc, &mut from).is_ok_and(|read| same_request(&read, &message))
    } else {
        let message = reply(alloc, number)?;
        read_reply(alloc, &mut from).is_ok_and(|read| same_reply(&read, &message))
    };
    Ok(same && from.left() == 0)
}

#[test]
fn what_is_written_is_read_back(rt: HostRuntime) -> Result<(), Fail> {
    for number in 0..MESSAGES.len() {
        if !is_read_back(rt.alloc(), number)? {
            return Err(Fail::new(format_args!("message {number}")));
        }
    }
    Ok(())
}

/// Whether what is read is written as the bytes that it was read from.
fn is_written_back(alloc: Global, number: usize, message: &[u8]) -> Result<bool, AllocError> {
    let mut from = MemLink::from_bytes(alloc, message, 7, &[])?;
    let mut to = MemLink::from_bytes(alloc, &[], 7, &[])?;
    let written = if number < REQUESTS {
        match read_request(alloc, &mut from) {
            Ok(request) => write_request(alloc, &mut to, &request).is_ok(),
            Err(_) => false,
        }
    } else {
        match read_reply(alloc, &mut from) {
            Ok(reply) => write_reply(alloc, &mut to, &reply).is_ok(),
            Err(_) => false,
        }
    };
    Ok(written && to.sent() == message)
}

#[test]
fn what_is_read_is_written_back(rt: HostRuntime) -> Result<(), Fail> {
    for (number, (_, message)) in MESSAGES.iter().enumerate() {
        if !is_written_back(rt.alloc(), number, message)? {
            return Err(Fail::new(format_args!("message {number}")));
        }
    }
    Ok(())
}
