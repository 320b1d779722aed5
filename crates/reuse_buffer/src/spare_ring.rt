// The memory of a ring, from one proof to the next.
ghost use Rattle.std.specs.Prelude.{◌≡◌, ◌≤◌, [], IfOk};
ghost use Rattle.reuse_buffer.specs.Kept.{kept};

use crate::ring::Ring;
use std::alloc::{AllocError, Global};
use std::marker::Model;
use std::mem;

/// A ring that is out of use, for its memory, or none. No contract gives a meaning to what it held.
#[derive(Drop)]
pub struct SpareRing {
    ring: Option<Ring>,
}

impl Model for SpareRing {
    ghost Value = { Unit {0} };

    ghost view = { λ s. tt };
}

impl SpareRing {
    /// None yet.
    pub fn new() -> Self {
        SpareRing { ring: None }
    }

    /// A ring that holds at most `size` pieces, up to 1,024, and none yet: the one that was kept last, where it has this size, else a new
    /// one. `AllocError` where there is no memory for a new one.
    pub fn take(&mut self, alloc: Global, size: u16) -> Result<Ring, AllocError>
        requires { size ≤ 1024 }
        ensures { IfOk result (λ ring. ring ≡ kept size []) }
    {
        if let Some(mut ring) = mem::replace(&mut self.ring, None) {
            if ring.size() == usize::from(size) {
                ring.clear();
                return Ok(ring);
            }
        }
        Ring::with_size(alloc, size)
    }

    /// Keeps a ring, in the place of the one that was kept before.
    pub fn keep(&mut self, ring: Ring) {
        self.ring = Some(ring);
    }
}
