// A plain reader of journals of the program.

use crate::stage::{FIRST, FUEL, digest};
use core_terms::{Digest, Hash32, MOST_FUEL};
use digest_layer::Sha;

/// What a journal of the program is.
#[derive(Clone, Copy, PartialEq)]
pub enum Reading {
    /// It holds so many updates, with so much fuel in all, which leave a version with this digest.
    Holds {
        commits: u64,
        fuel: u64,
        last: Digest,
    },
    Magic,
    Cut(u64),
    OtherProgram,
    /// Its image isn't that of an int.
    Image,
    BadRecord(u64),
}

/// The number of the update among the roles.
pub const UPDATE: u64 = 2;

/// The least fuel of an update that ends.
const LEAST_FUEL: u64 = 1;

/// The most records.
const MOST_RECORDS: u64 = 4_095;

/// What the records of a journal leave.
#[derive(Clone, Copy)]
struct Held {
    commits: u64,
    fuel: u64,
    last: i64,
}

impl Held {
    fn reading(self) -> Reading {
        Reading::Holds {
            commits: self.commits,
            fuel: self.fuel,
            last: Sha::of(&self.last.to_be_bytes()),
        }
    }

    /// What is left with one record more; none where that is no update, or does not end.
    fn with(self, record: Record<'_>) -> Option<Held> {
        let is_update = self.commits < MOST_RECORDS && record.role == UPDATE;
        let can_end = LEAST_FUEL <= record.fuel && record.fuel <= MOST_FUEL;
        if !is_update || !can_end || record.argument.len() != 8 {
            return None;
        }
        Some(Held {
            commits: self.commits.saturating_add(1),
            fuel: self.fuel.saturating_add(record.fuel),
            last: self.last.checked_add(int(record.argument)?)?,
        })
    }
}

/// The parts of a record, and the bytes behind it.
#[derive(Clone, Copy)]
struct Record<'a> {
    role: u64,
    fuel: u64,
    argument: &'a [u8],
    rest: &'a [u8],
}

/// What a journal is of commits that add so much.
pub fn holding(added: &[i64]) -> Reading {
    let commits = added.len() as u64;
    let held = Held {
        commits,
        fuel: FUEL.wrapping_mul(commits),
        last: added
            .iter()
            .fold(FIRST, |last, int| last.wrapping_add(*int)),
    };
    held.reading()
}

/// So many bytes, and those behind them.
fn part(bytes: &[u8], count: u64) -> Option<(&[u8], &[u8])> {
    if count > bytes.len() as u64 {
        return None;
    }
    Some(bytes.split_at(count as usize))
}

/// The int that 8 bytes spell.
fn int(bytes: &[u8]) -> Option<i64> {
    let (bytes, _) = bytes.split_first_chunk::<8>()?;
    Some(i64::from_be_bytes(*bytes))
}

/// The number that bytes spell.
fn number(bytes: &[u8]) -> u64 {
    bytes
        .iter()
        .fold(0, |number, byte| (number << 8) | u64::from(*byte))
}

/// What the bytes are.
pub fn read(bytes: &[u8]) -> Reading {
    let cut = Reading::Cut(bytes.len() as u64);
    let Some((magic, rest)) = part(bytes, 4) else {
        return Reading::Magic;
    };
    if magic != b"LAJ1".as_slice() {
        return Reading::Magic;
    }
    let Some((text, rest)) = part(rest, 32) else {
        return cut;
    };
    if text != digest().as_bytes() {
        return Reading::OtherProgram;
    }
    let Some((size, rest)) = part(rest, 4) else {
        return cut;
    };
    let Some((image, rest)) = part(rest, number(size)) else {
        return cut;
    };
    match int_of(image) {
        Some(int) => read_records(cut, int, rest),
        None => Reading::Image,
    }
}

/// The int of which this is the image.
fn int_of(image: &[u8]) -> Option<i64> {
    let (magic, rest) = part(image, 4)?;
    let (text, rest) = part(rest, 32)?;
    let (count, rest) = part(rest, 5)?;
    let (spelling, rest) = part(rest, 8)?;
    let is_magic = magic == b"LAI1".as_slice() && text == digest().as_bytes();
    if is_magic && count == b"\0\0\0\x02\x02".as_slice() && rest == b"\x06\0\0\0\0".as_slice() {
        return int(spelling);
    }
    None
}

/// What the records leave of an int.
fn read_records(cut: Reading, int: i64, bytes: &[u8]) -> Reading {
    let mut held = Held {
        commits: 0,
        fuel: 0,
        last: int,
    };
    let mut rest = bytes;
    for _ in 0..=MOST_RECORDS {
        let Some((gate, behind)) = rest.split_first() else {
            return cut;
        };
        if *gate != 1 {
            return held.reading();
        }
        let Some(record) = first_record(behind) else {
            return cut;
        };
        let Some(next) = held.with(record) else {
            return Reading::BadRecord(held.commits);
        };
        held = next;
        rest = record.rest;
    }
    cut
}

/// The record that the bytes begin with.
fn first_record(bytes: &[u8]) -> Option<Record<'_>> {
    let (role, rest) = part(bytes, 2)?;
    let (fuel, rest) = part(rest, 8)?;
    let (size, rest) = part(rest, 4)?;
    let (argument, rest) = part(rest, number(size))?;
    Some(Record {
        role: number(role),
        fuel: number(fuel),
        argument,
        rest,
    })
}
