// Why a program has no object.

use std::alloc::{AllocError, AllocFailed};

/// Why no object was written.
#[derive(Clone, Copy, PartialEq)]
pub enum WriteFault {
    /// The object has more than 4,194,304 bytes, or lists more than 100,000 types.
    TooLong,
    /// There was no memory for it. It says nothing of the program.
    NoMemory,
}

impl From<AllocError> for WriteFault {
    ghost use Rattle.std.specs.Prelude.{◌≡◌};
    ghost use Rattle.object_writer.specs.declared.fault.WriteFault.TheVariants.{NoMemory};

    ghost from_gives = { λ _ fault. fault ≡ NoMemory };

    fn from(_: AllocError) -> WriteFault {
        WriteFault::NoMemory
    }
}

impl<T: Drop> From<AllocFailed<T>> for WriteFault {
    ghost use Rattle.std.specs.Prelude.{◌≡◌};
    ghost use Rattle.object_writer.specs.declared.fault.WriteFault.TheVariants.{NoMemory};

    ghost from_gives = { λ _ fault. fault ≡ NoMemory };

    fn from(_: AllocFailed<T>) -> WriteFault {
        WriteFault::NoMemory
    }
}
