// Requests that look random, fed to the model.
ghost use Rattle.std.specs.Prelude.{◌<◌};

use crate::soak::model::Model;
use ads_library::Gen;
use core_terms::{Digest, Hash32};
use digest_layer::Sha;
use std::alloc::{AllocError, Global};

/// Draws requests.
#[derive(Drop)]
pub struct Requests {
    alloc: Global,
    numbers: Gen,
    /// The digest of the program's text.
    program: Digest,
    /// What was fed.
    fed: Vec<u8>,
}

impl Requests {
    pub fn new(alloc: Global, seed: u64, program: Digest) -> Requests {
        Requests {
            alloc,
            numbers: Gen::new(seed),
            program,
            fed: Vec::new(alloc),
        }
    }

    /// What was fed so far.
    pub fn fed(&self) -> &[u8] {
        &self.fed
    }

    /// A number below some other, which isn't 0.
    fn below(&mut self, most: u64) -> u64
        requires { 0 < most }
        ensures { result < most }
    {
        self.numbers.next() % most
    }

    fn chance(&mut self, one_in: u64) -> bool
        requires { 0 < one_in }
    {
        self.below(one_in) == 0
    }

    /// The next request, to which the model answers.
    pub fn next(&mut self, model: &mut Model<'_>) -> Result<(), AllocError> {
        match self.below(20) {
            0..=6 => self.hello(model),
            7 => self.bye(model),
            8..=13 => self.call(model),
            _ => self.go(model),
        }
    }

    /// The number of a session, mostly of one that is there.
    fn session(&mut self, model: &Model<'_>, one_in: u64) -> u16
        requires { 0 < one_in }
    {
        let some = (self.below(70) as u16).wrapping_add(1);
        if self.chance(one_in) {
            return some;
        }
        let place = self.below(64) as usize;
        model.session(place).unwrap_or(some)
    }

    /// The number of a session that calls: mostly of one that stands at the last version, so that it may commit.
    fn caller(&mut self, model: &Model<'_>) -> u16 {
        let some = self.session(model, 20);
        if self.chance(8) {
            return some;
        }
        model.session_at_last().unwrap_or(some)
    }

    /// Puts the length of a body, the kind and the session.
    fn head(&mut self, len: u32, kind: u8, session: u16) -> Result<(), AllocError> {
        self.fed.extend_from_slice(&len.to_be_bytes())?;
        self.fed.push(kind)?;
        self.fed.extend_from_slice(&session.to_be_bytes())
    }

    /// A greeting, mostly of a new session at one of the last versions.
    fn hello(&mut self, model: &mut Model<'_>) -> Result<(), AllocError> {
        let session = self.session(model, 1);
        let program = if self.chance(30) {
            Sha::of(b"")
        } else {
            self.program
        };
        let state = self.state(model);
        let kept = self.kept();
        self.head(69, 1, session)?;
        self.fed.extend_from_slice(&program.0)?;
        self.fed.extend_from_slice(&kept.to_be_bytes())?;
        self.fed.extend_from_slice(&state.0)?;
        model.hello(session, &program, kept, &state)
    }

    fn state(&mut self, model: &Model<'_>) -> Digest {
        if self.chance(20) {
            return Sha::of(b"");
        }
        let back = if self.chance(5) {
            self.below(3) as usize
        } else {
            0
        };
        model.spelling(model.count().saturating_sub(back.saturating_add(1)))
    }

    fn kept(&mut self) -> u16 {
        match self.below(20) {
            0 => 1_025,
            1 => 1_024,
            2..=5 => 0,
            6..=9 => 1,
            10..=13 => 4,
            _ => 30,
        }
    }

    fn bye(&mut self, model: &mut Model<'_>) -> Result<(), AllocError> {
        let session = self.session(model, 3);
        self.head(3, 4, session)?;
        model.bye(session)
    }

    /// A call, mostly of an update, with enough fuel.
    fn call(&mut self, model: &mut Model<'_>) -> Result<(), AllocError> {
        let session = self.caller(model);
        let role = self.role();
        let fuel = self.fuel();
        let argument = self.argument(role)?;
        let len = u32::try_from(argument.len()).unwrap_or(0).wrapping_add(13);
        self.head(len, 2, session)?;
        self.fed.extend_from_slice(&role.to_be_bytes())?;
        self.fed.extend_from_slice(&fuel.to_be_bytes())?;
        self.fed.extend_from_slice(&argument)?;
        model.call(session, role, fuel, &argument)
    }

    fn role(&mut self) -> u16 {
        match self.below(40) {
            0 => 0,
            1 => 3,
            2..=15 => 1,
            _ => 2,
        }
    }

    fn fuel(&mut self) -> u64 {
        match self.below(40) {
            0 => 1_000_000_000_001,
            1..=8 => self.below(12),
            _ => 1_000,
        }
    }

    /// A key, and of an update a value; a byte less where it is to be refused.
    fn argument(&mut self, role: u16) -> Result<Vec<u8>, AllocError> {
        let key = self.below(30) as i64;
        let value = self.below(3) as i64;
        let mut bytes = Vec::from_slice(self.alloc, &key.to_be_bytes())?;
        if role == 2 {
            bytes.extend_from_slice(&value.to_be_bytes())?;
        }
        if self.chance(30) {
            bytes.truncate(bytes.len().saturating_sub(1));
        }
        Ok(bytes)
    }

    /// A few rounds, or more than any call takes.
    fn go(&mut self, model: &mut Model<'_>) -> Result<(), AllocError> {
        let rounds = match self.below(10) {
            0..=3 => 1_000_000,
            few => few as u32,
        };
        self.head(7, 3, 0)?;
        self.fed.extend_from_slice(&rounds.to_be_bytes())?;
        model.go(rounds)
    }
}
