// A second server of search trees, written plainly: a call is run at once by the reference, and answered when its turns are over.
ghost use Rattle.std.specs.Prelude.{◌<◌, length, IfSome};

use crate::soak::trees::{DEPTH, LEAF, Trees};
use core_terms::{Digest, FunctionId, MOST_FUEL, Outcome, Program, RoleKind};
use reference_run::{Plain, metered_run};
use std::alloc::{AllocError, Global};

/// A call that runs: how many calls of functions it makes, the tree that an update makes, what it opens, and the turns so far.
#[derive(Drop)]
struct Run {
    spent: u64,
    made: Option<usize>,
    opened: Vec<usize>,
    turns: u64,
}

/// A session: its version, the size of its ring, and the nodes whose pieces were new, the last first.
#[derive(Drop)]
struct Seat {
    number: u16,
    version: usize,
    kept: usize,
    recent: Vec<usize>,
}

/// A session with its call.
#[derive(Drop)]
struct Guest {
    seat: Seat,
    running: Option<Run>,
}

/// A key and a value; of a query the key alone is read.
#[derive(Clone, Copy)]
struct Pick {
    key: i64,
    value: Option<i64>,
}

/// The server. Versions are roots of trees, and sessions stand in ascending order.
#[derive(Drop)]
pub struct Model<'a> {
    alloc: Global,
    program: &'a Program,
    slice: u64,
    trees: Trees,
    versions: Vec<usize>,
    guests: Vec<Guest>,
    /// What is sent.
    sent: Vec<u8>,
}

impl<'a> Model<'a> {
    /// A server of an empty tree.
    pub fn new(alloc: Global, program: &'a Program, slice: u64) -> Result<Model<'a>, AllocError> {
        let mut versions = Vec::new(alloc);
        versions.push(LEAF)?;
        Ok(Model {
            alloc,
            program,
            slice: slice.max(1),
            trees: Trees::new(alloc)?,
            versions,
            guests: Vec::new(alloc),
            sent: Vec::new(alloc),
        })
    }

    /// What was sent so far.
    pub fn sent(&self) -> &[u8] {
        &self.sent
    }

    /// How many versions there are.
    pub fn count(&self) -> usize {
        self.versions.len()
    }

    /// The spelling of a version.
    pub fn spelling(&self, version: usize) -> Digest {
        self.trees
            .digest(self.versions.get(version).copied().unwrap_or(LEAF))
    }

    /// The number of a session that is there, by some number.
    pub fn session(&self, some: usize) -> Option<u16> {
        let place = some.checked_rem(self.guests.len())?;
        Some(self.guests.get(place)?.seat.number)
    }

    /// The number of a session that stands at the last version.
    pub fn session_at_last(&self) -> Option<u16> {
        let last = self.versions.len().saturating_sub(1);
        let guest = self.guests.iter().find(|guest| guest.seat.version == last)?;
        Some(guest.seat.number)
    }

    fn reply(&mut self, kind: u8, session: u16, body: &[u8]) -> Result<(), AllocError> {
        let len = u32::try_from(body.len()).unwrap_or(0).wrapping_add(3);
        self.sent.extend_from_slice(&len.to_be_bytes())?;
        self.sent.push(kind)?;
        self.sent.extend_from_slice(&session.to_be_bytes())?;
        self.sent.extend_from_slice(body)
    }

    fn refuse(&mut self, session: u16, cause: u8) -> Result<(), AllocError> {
        self.reply(0x84, session, &[cause])
    }

    fn place(&self, session: u16) -> Option<usize>
        ensures { IfSome result (λ place. place < length self.now.guests.items) }
    {
        self.guests
            .iter()
            .position(|guest| guest.seat.number == session)
    }

    /// Hears a greeting.
    pub fn hello(
        &mut self,
        session: u16,
        program: &Digest,
        kept: u16,
        state: &Digest,
    ) -> Result<(), AllocError> {
        match self.greeted(session, program, kept, state) {
            Ok(version) => {
                self.welcome(session, version, kept)?;
                self.reply(0x81, session, &[])
            }
            Err(cause) => self.refuse(session, cause),
        }
    }

    /// The version at which a session that greets is to stand, or the cause of its refusal.
    fn greeted(
        &self,
        session: u16,
        program: &Digest,
        kept: u16,
        state: &Digest,
    ) -> Result<usize, u8> {
        if program != self.program.text_digest() {
            Err(1)
        } else if kept > 1024 {
            Err(10)
        } else if self.guests.len() >= 64 {
            Err(8)
        } else if self.place(session).is_some() {
            Err(4)
        } else {
            self.newest(state).ok_or(2)
        }
    }

    fn newest(&self, state: &Digest) -> Option<usize> {
        let mut newest = None;
        for (version, root) in self.versions.iter().enumerate() {
            if self.trees.digest(*root) == *state {
                newest = Some(version);
            }
        }
        newest
    }

    fn welcome(&mut self, number: u16, version: usize, kept: u16) -> Result<(), AllocError> {
        let seat = Seat {
            number,
            version,
            kept: usize::from(kept),
            recent: Vec::new(self.alloc),
        };
        let guest = Guest {
            seat,
            running: None,
        };
        match self
            .guests
            .iter()
            .position(|other| other.seat.number > number)
        {
            Some(place) => self.guests.insert(place, guest)?,
            None => self.guests.push(guest)?,
        }
        Ok(())
    }

    /// Hears a leave.
    pub fn bye(&mut self, session: u16) -> Result<(), AllocError> {
        match self.place(session) {
            Some(place) => {
                let _left = self.guests.remove(place);
                self.reply(0x85, session, &[0])
            }
            None => self.refuse(session, 3),
        }
    }

    /// Hears a call.
    pub fn call(
        &mut self,
        session: u16,
        role: u16,
        fuel: u64,
        argument: &[u8],
    ) -> Result<(), AllocError> {
        match self.called(session, role, fuel, argument) {
            Ok((function, pick)) => self.start(session, function, fuel, pick),
            Err(cause) => self.refuse(session, cause),
        }
    }

    /// The function that a call enters, and what it reads; or the cause of its refusal.
    fn called(
        &self,
        session: u16,
        role: u16,
        fuel: u64,
        argument: &[u8],
    ) -> Result<(FunctionId, Pick), u8> {
        let place = self.place(session).ok_or(3)?;
        if self
            .guests
            .get(place)
            .is_some_and(|guest| guest.running.is_some())
        {
            return Err(5);
        }
        let role = self.program.roles().get(usize::from(role)).ok_or(6)?;
        let pick = match role.kind {
            RoleKind::Init => return Err(6),
            _ if fuel > MOST_FUEL => return Err(12),
            RoleKind::Query => one_int(argument),
            RoleKind::Update => two_ints(argument),
        };
        match pick {
            None => Err(7),
            Some(Pick { value: Some(_), .. }) if self.versions.len() >= 4096 => Err(9),
            Some(pick) => Ok((role.function, pick)),
        }
    }

    /// The call runs, at once: its replies come when its turns are over.
    fn start(
        &mut self,
        session: u16,
        function: FunctionId,
        fuel: u64,
        pick: Pick,
    ) -> Result<(), AllocError> {
        let root = self.root_of(session);
        let run = self.run(root, function, fuel, pick)?;
        for guest in &mut self.guests {
            if guest.seat.number == session {
                guest.running = Some(run);
                return Ok(());
            }
        }
        Ok(())
    }

    /// The root of the version of a session.
    fn root_of(&self, session: u16) -> usize {
        let guest = self
            .guests
            .iter()
            .find(|guest| guest.seat.number == session);
        let version = guest.map_or(0, |guest| guest.seat.version);
        self.versions.get(version).copied().unwrap_or(LEAF)
    }

    fn run(
        &mut self,
        root: usize,
        function: FunctionId,
        fuel: u64,
        pick: Pick,
    ) -> Result<Run, AllocError> {
        let arguments = self.arguments(root, pick)?;
        let mut left = fuel;
        let outcome = metered_run(self.alloc, self.program, function, arguments, &mut left)?;
        let spent = fuel.saturating_sub(left);
        let made = if pick.value.is_some() {
            self.made(&outcome)?
        } else {
            None
        };
        // the role itself is entered first, and opens nothing
        let opened = self.trees.opened(root, pick.key, spent.saturating_sub(1))?;
        Ok(Run {
            spent,
            made,
            opened,
            turns: 0,
        })
    }

    fn arguments(&self, root: usize, pick: Pick) -> Result<Vec<Plain>, AllocError> {
        let mut arguments = Vec::new(self.alloc);
        arguments.push(self.trees.plain(root, DEPTH)?)?;
        arguments.push(pick.plain(self.alloc)?)?;
        Ok(arguments)
    }

    /// The tree that an update made.
    fn made(&mut self, outcome: &Outcome<Plain>) -> Result<Option<usize>, AllocError> {
        match outcome {
            Outcome::Done(Plain::PairValue(tree, _)) => Ok(Some(self.trees.keep(tree, DEPTH)?)),
            _ => Ok(None),
        }
    }

    /// Hears rounds.
    pub fn go(&mut self, rounds: u32) -> Result<(), AllocError> {
        for _ in 0..rounds {
            if !self.guests.iter().any(|guest| guest.running.is_some()) {
                break;
            }
            self.round()?;
        }
        Ok(())
    }

    fn round(&mut self) -> Result<(), AllocError> {
        let guests = std::mem::replace(&mut self.guests, Vec::new(self.alloc));
        for guest in guests {
            if let Some(guest) = self.turn(guest)? {
                self.guests.push(guest)?;
            }
        }
        Ok(())
    }

    /// A turn of a session: what is left of it.
    fn turn(&mut self, guest: Guest) -> Result<Option<Guest>, AllocError> {
        let Guest { seat, running } = guest;
        let Some(run) = running else {
            return Ok(Some(Guest {
                seat,
                running: None,
            }));
        };
        let turns = run.turns.saturating_add(1);
        if turns < run.spent.div_ceil(self.slice.max(1)) {
            let running = Some(Run { turns, ..run });
            return Ok(Some(Guest { seat, running }));
        }
        self.end(seat, run.made, &run.opened)
    }

    /// A call has ended, which made this version, if it made one.
    fn end(
        &mut self,
        seat: Seat,
        made: Option<usize>,
        opened: &[usize],
    ) -> Result<Option<Guest>, AllocError> {
        let version = self.versions.len();
        match made {
            None => self.prove(seat, opened),
            Some(root) if seat.version.saturating_add(1) == version => {
                self.versions.push(root)?;
                self.prove(Seat { version, ..seat }, opened)
            }
            Some(_) => self.tell_stale(seat.number),
        }
    }

    fn tell_stale(&mut self, session: u16) -> Result<Option<Guest>, AllocError> {
        let last = self.spelling(self.versions.len().saturating_sub(1));
        self.reply(0x83, session, &last.0)?;
        Ok(None)
    }

    /// The proof is sent, and its new pieces are recent.
    fn prove(&mut self, seat: Seat, opened: &[usize]) -> Result<Option<Guest>, AllocError> {
        let mut seat = seat;
        let mut frames = Vec::new(self.alloc);
        for number in opened {
            put_frame(&self.trees, &mut frames, &mut seat, *number)?;
        }
        self.reply(0x82, seat.number, &frames)?;
        Ok(Some(Guest {
            seat,
            running: None,
        }))
    }
}

impl Pick {
    /// The argument of the call.
    fn plain(self, alloc: Global) -> Result<Plain, AllocError> {
        match self.value {
            None => Ok(Plain::IntValue(self.key)),
            Some(value) => {
                let key = Box::new(alloc, Plain::IntValue(self.key))?;
                let value = Box::new(alloc, Plain::IntValue(value))?;
                Ok(Plain::PairValue(key, value))
            }
        }
    }
}

/// Puts the frame of a piece: which of the recent ones it is, or the piece.
fn put_frame(
    trees: &Trees,
    frames: &mut Vec<u8>,
    seat: &mut Seat,
    number: usize,
) -> Result<(), AllocError> {
    let piece = trees.piece(number);
    match place_among(trees, &seat.recent, seat.kept, piece) {
        Some(place) => {
            frames.push(1)?;
            frames.extend_from_slice(&place.to_be_bytes())
        }
        None => {
            seat.recent.insert(0, number)?;
            put_piece(frames, piece)
        }
    }
}

/// The place of a piece among the recent ones that are kept.
fn place_among(trees: &Trees, recent: &[usize], kept: usize, piece: &[u8]) -> Option<u16> {
    for (place, number) in recent.iter().take(kept).enumerate() {
        if trees.piece(*number) == piece {
            return u16::try_from(place).ok();
        }
    }
    None
}

fn put_piece(frames: &mut Vec<u8>, piece: &[u8]) -> Result<(), AllocError> {
    let len = u32::try_from(piece.len()).unwrap_or(0);
    frames.push(0)?;
    frames.extend_from_slice(&len.to_be_bytes())?;
    frames.extend_from_slice(piece)
}

fn int_of(bytes: &[u8]) -> Option<i64> {
    Some(i64::from_be_bytes(*bytes.first_chunk::<8>()?))
}

/// What a query reads, where this is the spelling of an int.
fn one_int(argument: &[u8]) -> Option<Pick> {
    if argument.len() != 8 {
        return None;
    }
    let key = int_of(argument)?;
    Some(Pick { key, value: None })
}

/// What an update reads, where this is the spelling of two ints.
fn two_ints(argument: &[u8]) -> Option<Pick> {
    if argument.len() != 16 {
        return None;
    }
    let key = int_of(argument)?;
    let value = int_of(&argument[8..])?;
    let value = Some(value);
    Some(Pick { key, value })
}
