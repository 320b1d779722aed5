// Memory for spellings that are digested and then out of use.
ghost use Rattle.std.specs.Prelude.{◌≡◌, []};

use std::alloc::Global;
use std::marker::Model;
use std::mem;

/// A buffer that is out of use. To what it held, or how much memory it has, no contract gives a meaning.
#[derive(Drop)]
pub struct SpareBuffer {
    alloc: Global,
    bytes: Vec<u8>,
}

impl Model for SpareBuffer {
    ghost Value = { Unit {0} };

    ghost view = { λ s. tt };
}

impl SpareBuffer {
    /// A buffer without memory.
    pub fn new(alloc: Global) -> Self {
        SpareBuffer {
            alloc,
            bytes: Vec::new(alloc),
        }
    }

    /// An empty buffer, which has the memory of the one that was kept last.
    pub fn take(&mut self) -> Vec<u8>
        ensures { result.items ≡ [] }
    {
        let mut taken = mem::replace(&mut self.bytes, Vec::new(self.alloc));
        taken.clear();
        taken
    }

    /// Keeps the memory of a buffer.
    pub fn keep(&mut self, buffer: Vec<u8>) {
        self.bytes = buffer;
    }
}
