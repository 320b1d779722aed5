// A user of sessions, who asks what looks random.
ghost use Rattle.std.specs.Prelude.{◌<◌, ◌≤◌, ◌^◌};

use crate::exchange::spelled::spelling_of;
use crate::wire::{link_with, request_bytes};
use ads_library::Gen;
use ask_core::reply_parts::session_of;
use ask_core::{AskCore, AskFault, Told};
use code_gen::Code;
use core_terms::{Outcome, RoleKind};
use digest_layer::Sha;
use serve_core::ServeCore;
use session_turns::NoGate;
use std::alloc::{AllocError, Global};
use std::mem;
use wire_form::{ReadStop, Reply, Request, read_reply};

/// Why an exchange doesn't go on.
#[derive(Clone, Copy)]
pub enum Trouble {
    NoMemory,
    /// A message can't be read or heard.
    NoMessage,
    /// The client has failed sessions, or is closed, before it asks.
    NotAsked,
    /// A reply isn't taken.
    NotTaken,
    /// The state of a session isn't the spelling of its version.
    OtherState,
    /// Fewer calls were told, or not as many updates as were committed.
    NotTold,
}

impl From<AllocError> for Trouble {
    fn from(_: AllocError) -> Self {
        Trouble::NoMemory
    }
}

/// How many sessions there are at most, and one more.
const SESSIONS: usize = 10;

/// How many keys there are.
const KEYS: u64 = 1_200;

/// A user of sessions, who knows the versions of the server.
#[derive(Drop)]
pub struct User {
    alloc: Global,
    client: AskCore<Sha>,
    numbers: Gen,
    /// The size of the ring of each session.
    kept: u16,
    /// The spellings of the versions.
    versions: Vec<Vec<u8>>,
    /// The version of each session, by its number.
    seats: [usize; SESSIONS],
    /// Replies that came, and are not yet taken.
    coming: Vec<u8>,
    /// How many updates with a value were told, each of which made a version; and how many outcomes.
    commits: usize,
    outcomes: usize,
}

impl User {
    pub fn new(alloc: Global, code: Code, seed: u64, kept: u16) -> User {
        User {
            alloc,
            client: AskCore::new(alloc, code),
            numbers: Gen::new(seed),
            kept: kept.min(1024),
            versions: Vec::new(alloc),
            seats: [0; SESSIONS],
            coming: Vec::new(alloc),
            commits: 0,
            outcomes: 0,
        }
    }

    /// A number below some other, which isn't 0.
    fn below(&mut self, most: u64) -> u64
        requires { 0 < most }
        ensures { result < most }
    {
        self.numbers.next() % most
    }

    /// The bytes of the next request; none where the client refuses it.
    pub fn ask(&mut self) -> Result<Vec<u8>, Trouble> {
        let session = (self.below(9) as u16).wrapping_add(1);
        let asked = match self.below(20) {
            0 => self.hello(session),
            1 => self.client.bye(session),
            2 => self.call(session),
            3 => Ok(self.go()),
            _ => self.ask_in_turn(session),
        };
        match asked {
            Ok(request) => Ok(request_bytes(self.alloc, &request)?),
            Err(AskFault::OutOfTurn | AskFault::BadState(_) | AskFault::BadArgument(_)) => {
                Ok(Vec::new(self.alloc))
            }
            Err(AskFault::NoMemory) => Err(Trouble::NoMemory),
            Err(_) => Err(Trouble::NotAsked),
        }
    }

    /// What a session may ask as it stands.
    fn ask_in_turn(&mut self, session: u16) -> Result<Request, AskFault> {
        if self.client.waiting(session) {
            Ok(self.go())
        } else if self.client.state(session).is_some() {
            self.call(session)
        } else {
            self.hello(session)
        }
    }

    /// A greeting, mostly at one of the last versions.
    fn hello(&mut self, session: u16) -> Result<Request, AskFault> {
        let state = self.state()?;
        let request = self.client.hello(session, self.kept.min(1024), &state)?;
        let newest = self.versions.iter().rposition(|version| *version == state);
        if let Some(seat) = self.seats.get_mut(usize::from(session)) {
            *seat = newest.unwrap_or(0);
        }
        Ok(request)
    }

    /// The spelling of a version; rarely a byte less, or that of none.
    fn state(&mut self) -> Result<Vec<u8>, AllocError> {
        let back = if self.below(4) == 0 {
            self.below(5) as usize
        } else {
            1
        };
        let mut state = match self.versions.len().checked_sub(back) {
            Some(number) if number < self.versions.len() => {
                Vec::from_slice(self.alloc, &self.versions[number])?
            }
            _ => Vec::new(self.alloc),
        };
        let some = self.below(40);
        if let Some(last) = state.last_mut() {
            *last ^= u8::from(some == 1);
        }
        if some == 0 {
            state.truncate(state.len().saturating_sub(1));
        }
        Ok(state)
    }

    /// A call of any role, mostly with enough fuel.
    fn call(&mut self, session: u16) -> Result<Request, AskFault> {
        let role = match self.below(20) {
            0 => 0,
            1 => 3,
            2..=9 => 1,
            _ => 2,
        };
        let fuel = if self.below(20) == 0 {
            self.below(40)
        } else {
            1_000_000
        };
        let argument = self.argument(role)?;
        self.client.call(session, role, fuel, &argument)
    }

    /// A key, and of an update a value; rarely a byte less.
    fn argument(&mut self, role: u16) -> Result<Vec<u8>, AllocError> {
        let key = self.below(KEYS) as i64;
        let mut bytes = Vec::from_slice(self.alloc, &key.to_be_bytes())?;
        if role == 2 {
            let value = self.below(1_000) as i64;
            bytes.extend_from_slice(&value.to_be_bytes())?;
        }
        if self.below(40) == 0 {
            bytes.truncate(bytes.len().saturating_sub(1));
        }
        Ok(bytes)
    }

    /// A few rounds, or more than any call takes.
    fn go(&mut self) -> Request {
        let rounds = match self.below(4) {
            0 => 1_000_000,
            few => few as u32,
        };
        Request::Go { rounds }
    }

    /// Replies come, behind those that came before.
    pub fn comes(&mut self, replies: &[u8]) -> Result<(), AllocError> {
        self.coming.extend_from_slice(replies)
    }

    /// Learns the versions that the server made.
    pub fn learn(&mut self, core: &ServeCore<Sha, NoGate>) -> Result<(), AllocError> {
        for version in core.versions().iter().skip(self.versions.len()) {
            let spelling = spelling_of(self.alloc, core.store(), *version)?;
            self.versions.push(spelling)?;
        }
        Ok(())
    }

    /// Takes what came, or leaves it for later.
    pub fn take_some(&mut self) -> Result<(), Trouble> {
        if self.below(2) == 0 {
            return Ok(());
        }
        self.take_all()
    }

    /// Takes all replies that came.
    pub fn take_all(&mut self) -> Result<(), Trouble> {
        let coming = mem::replace(&mut self.coming, Vec::new(self.alloc));
        let most = coming.len();
        let mut link = link_with(self.alloc, coming);
        for _ in 0..most {
            match read_reply(self.alloc, &mut link) {
                Ok(reply) => self.take(reply)?,
                Err(ReadStop::End) => break,
                Err(ReadStop::NoMemory) => return Err(Trouble::NoMemory),
                Err(_) => return Err(Trouble::NoMessage),
            }
        }
        Ok(())
    }

    /// Takes a reply, which is one that is waited for, and accepted.
    fn take(&mut self, reply: Reply) -> Result<(), Trouble> {
        let session = session_of(&reply);
        let called = self.client.called(session);
        let told = self.client.take_reply(reply);
        match &told {
            Ok(Told::Outcome(outcome)) => {
                let updates = called.is_some_and(|role| matches!(role.kind, RoleKind::Update));
                let done = matches!(outcome, Outcome::Done(_));
                self.count(session, updates && done);
            }
            Ok(_) => {}
            Err(AskFault::NoMemory) => return Err(Trouble::NoMemory),
            Err(_) => return Err(Trouble::NotTaken),
        }
        self.is_there(session)
    }

    /// Counts an outcome of a session, which may have made a version, where the session stands then.
    fn count(&mut self, session: u16, makes: bool) {
        self.outcomes = self.outcomes.saturating_add(1);
        if makes {
            self.commits = self.commits.saturating_add(1);
            if let Some(seat) = self.seats.get_mut(usize::from(session)) {
                *seat = self.commits;
            }
        }
    }

    /// The state of a session is the spelling of its version.
    fn is_there(&self, session: u16) -> Result<(), Trouble> {
        let Some(state) = self.client.state(session) else {
            return Ok(());
        };
        let seat = self.seats.get(usize::from(session)).copied().unwrap_or(0);
        match self.versions.get(seat) {
            Some(version) if version.as_slice() == state => Ok(()),
            _ => Err(Trouble::OtherState),
        }
    }

    /// At the end many calls were told, and of updates as many as were committed.
    pub fn is_told(&self, core: &ServeCore<Sha, NoGate>, least: usize) -> Result<(), Trouble> {
        let enough = self.outcomes >= least && self.commits >= least / 10;
        if enough && core.commits().len() == self.commits {
            Ok(())
        } else {
            Err(Trouble::NotTold)
        }
    }
}
