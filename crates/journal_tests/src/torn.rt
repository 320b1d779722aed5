// The files that a crash may leave of a disk that stopped, opened.

use crate::opening::found;
use crate::pending::{Pending, laid};
use crate::plain::{Reading, holding};
use crate::stage::ADDED;
use code_gen::Code;
use std::alloc::{AllocError, Global};

/// A disk that stopped, and what its journal may then hold: the commits that were told, or these and one more.
#[derive(Clone, Copy)]
pub struct Crash<'a> {
    alloc: Global,
    code: &'a Code,
    left: &'a Pending,
    told: Option<Reading>,
    more: Option<Reading>,
}

impl<'a> Crash<'a> {
    /// A disk stopped after so many of three appends had answered Ok.
    pub fn new(alloc: Global, code: &'a Code, left: &'a Pending, told: usize) -> Self {
        Crash {
            alloc,
            code,
            left,
            told: with_first(told),
            more: with_first(told.saturating_add(1)),
        }
    }

    /// Whether the file opens as it may.
    pub fn opens(&self, file: &[u8]) -> Result<bool, AllocError> {
        let found = found(self.alloc, self.code, file)?;
        Ok(found == self.told || found == self.more)
    }

    /// Whether the file opens as it may where these bytes stand of the range that is pending.
    fn keeps(&self, range: &[u8]) -> Result<bool, AllocError> {
        let file = laid(self.alloc, &self.left.synced, self.left.at, range)?;
        self.opens(&file)
    }

    /// Whether it does where any number of the first bytes stands as it was written, or with any one of them torn.
    pub fn keeps_fronts(&self) -> Result<bool, AllocError> {
        for size in 0..=self.left.written.len() {
            if !self.keeps(&self.front(size)?)? || !self.keeps_places(size)? {
                return Ok(false);
            }
        }
        Ok(true)
    }

    fn keeps_places(&self, size: usize) -> Result<bool, AllocError> {
        for place in 0..size {
            if !self.keeps_values(size, place)? {
                return Ok(false);
            }
        }
        Ok(true)
    }

    fn keeps_values(&self, size: usize, place: usize) -> Result<bool, AllocError> {
        for byte in 0..=255 {
            if !self.keeps_torn(size, place, byte)? {
                return Ok(false);
            }
        }
        Ok(true)
    }

    /// Whether it does where this byte of so many is torn, and those behind it are as they were written, zeros or the same.
    fn keeps_torn(&self, size: usize, place: usize, byte: u8) -> Result<bool, AllocError> {
        let mut range = self.front(size)?;
        if let Some(there) = range.get_mut(place) {
            *there = byte;
        }
        if !self.keeps(&range)? {
            return Ok(false);
        }
        for filler in [0, byte] {
            range.truncate(place.saturating_add(1));
            range.resize(size, filler)?;
            if !self.keeps(&range)? {
                return Ok(false);
            }
        }
        Ok(true)
    }

    /// So many first bytes of the range, as they were written.
    fn front(&self, size: usize) -> Result<Vec<u8>, AllocError> {
        let mut front = Vec::from_slice(self.alloc, &self.left.written)?;
        front.truncate(size);
        Ok(front)
    }

    /// Whether the file opens as it may where two bytes stand of the range, whatever they are, and where three do, whose number is a multiple of 257.
    pub fn keeps_few(&self) -> Result<bool, AllocError> {
        for number in 0..=u16::MAX {
            let [_, first, second, third] = (u32::from(number) * 257).to_be_bytes();
            if !self.keeps(&number.to_be_bytes())? || !self.keeps(&[first, second, third])? {
                return Ok(false);
            }
        }
        Ok(true)
    }
}

/// What a journal with so many of the three commits holds; none where there aren't so many.
fn with_first(commits: usize) -> Option<Reading> {
    Some(holding(ADDED.get(..commits)?))
}
