// Who answers for others, may lie once, and keeps what was asked and answered.
ghost use Rattle.wire_form.specs.Fetches.{FetchCause};

use core_terms::{Digest, Piece};
use std::alloc::{AllocError, Global};
use wire_form::{Fetch, FetchStop, Got, Wire};

/// What is answered in place of the truth.
#[derive(Clone, Copy)]
pub enum Lie<'a> {
    Piece(&'a [u8]),
    Lack,
    Broken(Wire),
}

/// Answers as another one does, but for one lie.
#[derive(Drop)]
pub struct Witness<'a, F> {
    from: &'a mut F,
    /// The number of the answer that is a lie, from 0.
    place: usize,
    lie: Lie<'a>,
    asked: Vec<Digest>,
    answered: Vec<Vec<u8>>,
}

impl<'a, F: Fetch> Witness<'a, F> {
    /// Nothing was asked. The answer with this number will be this lie.
    pub fn lying(alloc: Global, from: &'a mut F, place: usize, lie: Lie<'a>) -> Self {
        Witness {
            from,
            place,
            lie,
            asked: Vec::new(alloc),
            answered: Vec::new(alloc),
        }
    }

    /// The same without a lie.
    pub fn honest(alloc: Global, from: &'a mut F) -> Self {
        Witness::lying(alloc, from, usize::MAX, Lie::Lack)
    }

    /// The digests that were asked for.
    pub fn asked(&self) -> &[Digest] {
        &self.asked
    }

    /// The pieces that were answered.
    pub fn answered(&self) -> &[Vec<u8>] {
        &self.answered
    }

    /// The answer to a digest.
    fn answer(&mut self, alloc: Global, digest: &Digest) -> Result<Got, FetchStop>
        ensures { FetchCause (F.faults self.old.from.now) (F.faults self.new.from.now) result }
    {
        let place = self.asked.len();
        if self.asked.push(*digest).is_err() {
            return Err(FetchStop::NoMemory);
        }
        if place != self.place {
            return self.from.fetch(alloc, digest);
        }
        match self.lie {
            Lie::Piece(bytes) => match Vec::from_slice(alloc, bytes) {
                Ok(bytes) => Ok(Got::Piece(Piece::new(bytes))),
                Err(_) => Err(FetchStop::NoMemory),
            },
            Lie::Lack => Ok(Got::Lack),
            Lie::Broken(wire) => Ok(Got::Broken(wire)),
        }
    }
}

/// Keeps what is answered, where it is a piece.
fn keep(alloc: Global, answered: &mut Vec<Vec<u8>>, got: &Got) -> Result<(), AllocError> {
    if let Got::Piece(piece) = got {
        answered.push(Vec::from_slice(alloc, piece.as_bytes())?)?;
    }
    Ok(())
}

impl<F: Fetch> Fetch for Witness<'_, F> {
    ghost faults = { λ witness. F.faults witness.from.now };

    ghost gives = { λ old digest got new. Unit {0} };

    ghost Rest = { Unit {0} };

    ghost rest = { λ witness. tt };

    fn fetch(&mut self, alloc: Global, digest: &Digest) -> Result<Got, FetchStop> {
        match self.answer(alloc, digest) {
            Ok(got) => match keep(alloc, &mut self.answered, &got) {
                Ok(()) => Ok(got),
                Err(_) => Err(FetchStop::NoMemory),
            },
            Err(stop) => Err(stop),
        }
    }
}
