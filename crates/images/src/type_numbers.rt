// The numbers of the types of records.
ghost use Rattle.std.specs.Prelude.{◌≡◌, ◌<◌, ◌^◌, ◌++◌, ◌∷◌, [], length, slice_get, OnErr, OnOk};

use std::alloc::{AllocError, Global};
use std::marker::Model;

/// How many types have a number of one byte.
const NARROW_TYPES: usize = 256;

/// The greatest number of a type that is kept.
const MOST_TYPE: usize = 4_294_967_295;

/// The numbers of types.
#[derive(Drop)]
pub(crate) struct TypeNumbers {
    kept: Numbers,
}

/// In one byte each where no type has a greater number, and else in four.
#[derive(Drop)]
pub(crate) enum Numbers {
    Narrow(Vec<u8>),
    Wide(Vec<u32>),
}

impl Model for TypeNumbers {
    ghost use Rattle.std.specs.Prelude.{List, ℕ};
    ghost use Rattle.images.specs.KeptRecords.{numbers_kept};

    ghost Value = { List ℕ };

    ghost view = { λ numbers. numbers_kept numbers.kept };

    ghost invariant = { λ numbers. Unit {0} };
}

impl TypeNumbers {
    /// No numbers, of a program with so many types.
    pub fn new(alloc: Global, types: usize) -> Self
        ensures { result ≡ [] }
    {
        if types <= NARROW_TYPES {
            TypeNumbers {
                kept: Numbers::Narrow(Vec::new(alloc)),
            }
        } else {
            TypeNumbers {
                kept: Numbers::Wide(Vec::new(alloc)),
            }
        }
    }

    /// How many there are.
    pub fn len(&self) -> usize
        ensures { result ≡ length self.now }
    {
        match &self.kept {
            Numbers::Narrow(numbers) => numbers.len(),
            Numbers::Wide(numbers) => numbers.len(),
        }
    }

    /// The one at a place, where there are so many.
    pub fn get(&self, place: usize) -> Option<u32>
        ensures { result ≡ slice_get self.now place }
    {
        match &self.kept {
            Numbers::Narrow(numbers) => byte_at(numbers, place),
            Numbers::Wide(numbers) => numbers.get(place).copied(),
        }
    }

    /// Adds a number. One that is greater than the program's types have finds no room.
    #[inline(always)]
    pub fn push(&mut self, number: usize) -> Result<(), AllocError>
        ensures added { OnOk result (self.new ≡ self.old ++ number ∷ []) }
        ensures fits { OnOk result (length self.new < 2 ^ 64) }
        ensures refused { OnErr result (self.new ≡ self.old) }
    {
        match &mut self.kept {
            Numbers::Narrow(numbers) => {
                if number >= NARROW_TYPES {
                    return Err(AllocError);
                }
                numbers.push(number as u8)?;
            }
            Numbers::Wide(numbers) => {
                if number > MOST_TYPE {
                    return Err(AllocError);
                }
                numbers.push(number as u32)?;
            }
        }
        Ok(())
    }
}

/// The byte at a place, where there are so many.
fn byte_at(bytes: &[u8], place: usize) -> Option<u32>
    ensures { result ≡ slice_get bytes.now place }
{
    match bytes.get(place) {
        Some(byte) => Some(*byte as u32),
        None => None,
    }
}
