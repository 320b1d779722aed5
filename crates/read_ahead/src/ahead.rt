// Bytes that are read ahead of those that are asked for.
ghost use Rattle.std.specs.Prelude.{◌≡◌, ◌≤◌, ◌<◌, ◌-◌, ◌++◌, [], min, length, take, OnErr, OnOk};
ghost use Rattle.std.specs.Io.{ReadsAtMost};
ghost use Rattle.std.specs.Io.KnownBytes.{IsAtEnd, Keeps, ReadConsumes, prepend_known};

use std::alloc::Global;
use std::io::{self, Read};

/// How many bytes are read at once at first: most files and messages are shorter.
const FIRST_ROOM: usize = 512;

/// How many bytes are read at once at most.
const MOST_ROOM: usize = 8192;

/// The bytes that were read from a source and not yet given.
#[derive(Drop)]
pub struct ReadAhead {
    bytes: Vec<u8>,
    /// Where those that are left begin and end.
    begin: usize,
    end: usize,
    ghost in_order: { begin ≤ end },
    ghost within: { end ≤ length bytes.items },
}

impl ReadAhead {
    ghost use Rattle.read_ahead.specs.Held.{held};

    /// Nothing was read yet. Takes no memory before the first read.
    pub fn new(alloc: Global) -> Self
        ensures { held result ≡ [] }
    {
        ReadAhead {
            bytes: Vec::new(alloc),
            begin: 0,
            end: 0,
        }
    }

    /// Forgets what is left, so that another source is read.
    pub fn clear(&mut self)
        ensures begin { self.new.begin ≡ 0 }
        ensures end { self.new.end ≡ 0 }
        ensures none { held self.new ≡ [] }
    {
        self.begin = 0;
        self.end = 0;
    }

    /// Gives some of the bytes that are left, from their front. Where none are, it reads from the source first: as much as comes by one read
    /// of 512 bytes, and of more, up to 8,192, once a read gave all that there was room for; or straight into a buffer that has room for as many,
    /// or for 8,192.
    /// Where there is no memory for that room, reads are shorter, or straight.
    ///
    /// An `Err` is the source's, which is asked where no byte is left.
    pub fn read<R: Read>(&mut self, source: &mut R, into: &mut [u8]) -> io::Result<usize>
        ensures bound { ReadsAtMost result into.new }
        ensures fault { OnErr result (held self.old ≡ []) }
        ensures bytes { ReadConsumes (prepend_known (held self.old) (R.remaining source.old)) (prepend_known (held self.new) (R.remaining source.new)) result into.new }
    {
        if self.begin < self.end {
            return Ok(self.give(into));
        }
        if into.len() >= MOST_ROOM {
            return source.read(into);
        }
        self.make_room();
        if into.len() >= self.bytes.len() {
            return source.read(into);
        }
        self.fill(source)?;
        Ok(self.give(into))
    }

    /// Forgets what is left, and makes room for a longer read where the last one gave all that there was room for.
    fn make_room(&mut self)
        ensures begin { self.new.begin ≡ 0 }
        ensures end { self.new.end ≡ 0 }
        ensures none { held self.new ≡ [] }
    {
        let room = self.bytes.len();
        if self.end == room && room < MOST_ROOM {
            let more = (8 * room).clamp(FIRST_ROOM, MOST_ROOM);
            let _ = self.bytes.resize(more, 0);
        }
        self.clear();
    }

    /// Reads from the source into the room that there is, where no byte is left.
    fn fill<R: Read>(&mut self, source: &mut R) -> io::Result<()>
        requires begin { self.old.begin ≡ 0 }
        requires end { self.old.end ≡ 0 }
        requires room { 0 < length self.old.bytes.items }
        ensures bytes { Keeps (prepend_known (held self.old) (R.remaining source.old)) (prepend_known (held self.new) (R.remaining source.new)) }
        ensures end { OnOk result (self.new.end ≤ self.new.begin → IsAtEnd (R.remaining source.new)) }
    {
        self.end = source.read(&mut self.bytes)?;
        Ok(())
    }

    /// Gives as many of the bytes that are left as there is room for.
    fn give(&mut self, into: &mut [u8]) -> usize
        ensures count { result ≡ min (self.old.end - self.old.begin) (length into.new) }
        ensures bytes { held self.old ≡ take result into.new ++ held self.new }
    {
        let left = &self.bytes[self.begin..self.end];
        let count = left.len().min(into.len());
        into[..count].copy_from_slice(&left[..count]);
        self.begin += count;
        count
    }
}
