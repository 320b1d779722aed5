// The bytes of an object, as far as they are written.
ghost use Rattle.std.specs.Prelude.{◌≡◌, ◌∷◌, [], ◌<◌, ◌≤◌, length};
ghost use Rattle.std.specs.Int.{to_be_bytes};
ghost use Rattle.object_meaning.specs.ObjectBytes.{name_bytes, word};
ghost use Rattle.object_meaning.specs.Objects.{most_object_bytes};

use crate::WriteFault;
use core_terms::{Name, NamedId};
use std::alloc::Global;

/// How many bytes an object has at most.
const MOST_BYTES: usize = 4_194_304;

/// The first bytes of an object, to which others are added at the end. They never are more than an object may have: so no memory is taken
/// for what is too long.
#[derive(Drop)]
pub(crate) struct ObjectBytes {
    bytes: Vec<u8>,
    ghost fits: { length bytes.items ≤ most_object_bytes },
}

impl ObjectBytes {
    ghost use Rattle.object_writer.specs.Adding.{Adds, written_so_far};

    /// None yet.
    pub(crate) fn new(alloc: Global) -> ObjectBytes
        ensures { written_so_far result ≡ [] }
    {
        ObjectBytes {
            bytes: Vec::new(alloc),
        }
    }

    /// All of them, given up.
    pub(crate) fn into_vec(self) -> Vec<u8>
        ensures bytes { result.items ≡ written_so_far self }
        ensures fits { length result.items ≤ most_object_bytes }
    {
        self.bytes
    }

    /// Adds these.
    pub(crate) fn put(&mut self, more: &[u8]) -> Result<(), WriteFault>
        ensures { Adds (written_so_far self.old) more.now (written_so_far self.new) result }
    {
        if self.bytes.len() + more.len() > MOST_BYTES {
            return Err(WriteFault::TooLong);
        }
        self.bytes.extend_from_slice(more)?;
        Ok(())
    }

    /// Adds a byte and others behind it.
    pub(crate) fn put_behind(&mut self, first: u8, more: &[u8]) -> Result<(), WriteFault>
        ensures { Adds (written_so_far self.old) (first ∷ more.now) (written_so_far self.new) result }
    {
        self.put(&[first])?;
        self.put(more)
    }

    /// Adds a byte, and a number in four bytes behind it.
    pub(crate) fn put_tagged(&mut self, tag: u8, number: u32) -> Result<(), WriteFault>
        ensures { Adds (written_so_far self.old) (tag ∷ word number) (written_so_far self.new) result }
    {
        self.put_behind(tag, &number.to_be_bytes())
    }

    /// Adds a number in four bytes.
    pub(crate) fn put_word(&mut self, number: u32) -> Result<(), WriteFault>
        ensures { Adds (written_so_far self.old) (word number) (written_so_far self.new) result }
    {
        self.put(&number.to_be_bytes())
    }

    /// Adds a name behind its length.
    pub(crate) fn put_name(&mut self, name: &Name) -> Result<(), WriteFault>
        ensures { Adds (written_so_far self.old) (name_bytes name.now) (written_so_far self.new) result }
    {
        let bytes = name.as_bytes();
        self.put_behind(bytes.len() as u8, bytes)
    }
}
