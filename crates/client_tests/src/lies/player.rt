// A client that asks what it is to ask, and takes what comes.

use crate::wire::{link_with, request_bytes};
use ask_core::reply_parts::session_of;
use ask_core::{AskCore, AskFault};
use core_stage::stage::{Stage, code_of};
use core_terms::{MOST_FUEL, Outcome, Spelling, Trap};
use digest_layer::Sha;
use lam_outside::MemLink;
use std::alloc::{AllocError, Global};
use std::mem;
use wire_form::{ReadStop, Reply, Request, read_reply, read_request};

/// What a client was told of the calls of each session, and what it sent.
#[derive(Drop)]
pub struct Told {
    /// The outcomes of each session, as bytes one behind the other.
    pub outcomes: Vec<Vec<u8>>,
    /// How many outcomes there are.
    pub count: usize,
    pub sent: Vec<u8>,
    /// Whether the client asked all that it was to ask, without a fault.
    pub whole: bool,
}

impl Told {
    /// Nothing yet, of sessions with these outcomes.
    fn new(alloc: Global, outcomes: Vec<Vec<u8>>) -> Told {
        Told {
            outcomes,
            count: 0,
            sent: Vec::new(alloc),
            whole: false,
        }
    }

    /// Whether this is what is told of each session at first in the other one.
    pub fn begins(&self, other: &Told) -> bool {
        self.outcomes
            .iter()
            .zip(&other.outcomes)
            .all(|(ours, theirs)| theirs.starts_with(ours))
    }
}

/// What a client is waiting for.
#[derive(Clone, Copy)]
enum Awaited {
    Nothing,
    /// The reply to a session.
    One(u16),
    /// The replies to all sessions.
    All,
}

/// What is waited for behind a request.
fn awaited_behind(request: &Request) -> Awaited {
    match request {
        Request::Hello { session, .. } | Request::Bye { session } => Awaited::One(*session),
        Request::Call { .. } => Awaited::Nothing,
        Request::Go { .. } => Awaited::All,
    }
}

/// A client on a link on which replies come.
#[derive(Drop)]
struct Player {
    alloc: Global,
    core: AskCore<Sha>,
    link: MemLink,
    told: Told,
}

/// How many sessions there may be in a conversation, and one more.
const SESSIONS: usize = 4;

/// How many replies are waited for at most, behind a request.
const REPLIES: usize = 10;

/// The outcomes of each session before it calls.
fn no_outcomes(alloc: Global) -> Result<Vec<Vec<u8>>, AllocError> {
    let mut outcomes = Vec::new(alloc);
    for _ in 0..SESSIONS {
        outcomes.push(Vec::new(alloc))?;
    }
    Ok(outcomes)
}

impl Player {
    fn new(alloc: Global, of: Stage, replies: &[u8]) -> Result<Player, AllocError> {
        let outcomes = no_outcomes(alloc)?;
        let coming = Vec::from_slice(alloc, replies)?;
        let code = code_of(alloc, of.text)?;
        Ok(Player {
            alloc,
            core: AskCore::new(alloc, code),
            link: link_with(alloc, coming),
            told: Told::new(alloc, outcomes),
        })
    }

    /// Asks all these requests, up to the first one behind which the client doesn't go on.
    fn ask_all(&mut self, asked: &[u8]) -> Result<(), AllocError> {
        let mut requests = link_with(self.alloc, Vec::from_slice(self.alloc, asked)?);
        for _ in 0..=asked.len() {
            if !self.ask_next(&mut requests)? {
                break;
            }
        }
        Ok(())
    }

    /// Asks the next of the requests on a link. Whether the client goes on.
    fn ask_next(&mut self, requests: &mut MemLink) -> Result<bool, AllocError> {
        match read_request(self.alloc, requests) {
            Ok(request) => self.ask(&request),
            Err(ReadStop::End) => {
                self.told.whole = true;
                Ok(false)
            }
            Err(_) => Ok(false),
        }
    }

    /// Asks this, and takes what is replied. Whether the client goes on; it does where it may not ask this now.
    fn ask(&mut self, request: &Request) -> Result<bool, AllocError> {
        match self.request(request) {
            Ok(sent) => {
                self.send(&sent)?;
                self.take_awaited(awaited_behind(request))
            }
            Err(AskFault::NoMemory) => Err(AllocError),
            Err(_) => Ok(true),
        }
    }

    fn send(&mut self, request: &Request) -> Result<(), AllocError> {
        let bytes = request_bytes(self.alloc, request)?;
        self.told.sent.extend_from_slice(&bytes)
    }

    /// The client's own request that asks the same.
    fn request(&mut self, request: &Request) -> Result<Request, AskFault> {
        match request {
            Request::Hello {
                session,
                kept,
                state,
                ..
            } => self
                .core
                .hello(*session, (*kept).min(1024), state.as_bytes()),
            Request::Call {
                session,
                role,
                fuel,
                argument,
            } => {
                let fuel = (*fuel).min(MOST_FUEL);
                self.core.call(*session, *role, fuel, argument.as_bytes())
            }
            Request::Go { rounds } => self.go(*rounds),
            Request::Bye { session } => self.core.bye(*session),
        }
    }

    /// Rounds, where a session calls.
    fn go(&self, rounds: u32) -> Result<Request, AskFault> {
        if self.core.any_calls() {
            Ok(Request::Go { rounds })
        } else {
            Err(AskFault::OutOfTurn)
        }
    }

    fn waits(&self, awaited: Awaited) -> bool {
        match awaited {
            Awaited::Nothing => false,
            Awaited::One(session) => self.core.waiting(session),
            Awaited::All => self.core.any_waits(),
        }
    }

    /// Takes replies until none is waited for. Whether there was no fault.
    fn take_awaited(&mut self, awaited: Awaited) -> Result<bool, AllocError> {
        for _ in 0..REPLIES {
            if !self.waits(awaited) {
                return Ok(true);
            }
            let goes_on = match read_reply(self.alloc, &mut self.link) {
                Ok(reply) => self.take(reply)?,
                Err(ReadStop::NoMemory) => return Err(AllocError),
                Err(_) => false,
            };
            if !goes_on {
                return Ok(false);
            }
        }
        Ok(false)
    }

    /// Takes a reply. Whether there was no fault.
    fn take(&mut self, reply: Reply) -> Result<bool, AllocError> {
        let session = session_of(&reply);
        match self.core.take_reply(reply) {
            Ok(ask_core::Told::Outcome(outcome)) => {
                self.told.count = self.told.count.saturating_add(1);
                if let Some(outcomes) = self.told.outcomes.get_mut(usize::from(session)) {
                    put_outcome(outcomes, &outcome)?;
                }
                Ok(true)
            }
            Ok(_) => Ok(true),
            Err(AskFault::NoMemory) => Err(AllocError),
            Err(_) => Ok(false),
        }
    }
}

/// Puts an outcome: how the call ended, and the length of its value's spelling, and this.
fn put_outcome(bytes: &mut Vec<u8>, outcome: &Outcome<Spelling>) -> Result<(), AllocError> {
    match outcome {
        Outcome::Done(value) => {
            let len = u32::try_from(value.as_bytes().len()).unwrap_or(u32::MAX);
            bytes.push(0)?;
            bytes.extend_from_slice(&len.to_be_bytes())?;
            bytes.extend_from_slice(value.as_bytes())
        }
        Outcome::Trapped(trap) => Ok(bytes.push(trap_number(*trap))?),
        Outcome::Out => Ok(bytes.push(1)?),
    }
}

fn trap_number(trap: Trap) -> u8 {
    match trap {
        Trap::Overflow => 2,
        Trap::DivZero => 3,
        Trap::TooBig => 4,
        Trap::TooDeep => 5,
        Trap::Index => 6,
    }
}

/// What a client is told that asks this, where these replies come.
pub fn told_of(alloc: Global, of: Stage, asked: &[u8], replies: &[u8]) -> Result<Told, AllocError> {
    let mut player = Player::new(alloc, of, replies)?;
    player.ask_all(asked)?;
    let none = Told::new(alloc, Vec::new(alloc));
    Ok(mem::replace(&mut player.told, none))
}
