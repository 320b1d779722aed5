// Why bytes are no object that is accepted.

use object_reader::ObjectFault as ReadFault;
use std::alloc::{AllocError, AllocFailed};

/// The first fault of bytes that are no accepted object. The faults of a read come before those of shapes, and these before those of kinds.
#[derive(Clone, Copy, PartialEq)]
pub enum ObjectFault {
    /// The bytes end within a field: how many they are.
    Cut(usize),
    /// The field that begins at this offset isn't allowed.
    BadField(usize),
    /// So many bytes stand behind the object.
    Leftover(usize),
    /// The function with this number has not the shape of its role, or has an `auth` in its argument.
    Shape(usize),
    /// The instruction with the second number, of the function with the first one, is at fault.
    Kind(usize, usize),
    /// There was no memory for the object. It says nothing of the bytes.
    NoMemory,
}

impl From<ReadFault> for ObjectFault {
    ghost use Rattle.std.specs.Prelude.{◌≡◌};
    ghost use Rattle.code_check.specs.Faults.{of_read_fault};

    ghost from_gives = { λ given fault. fault ≡ of_read_fault given };

    fn from(fault: ReadFault) -> ObjectFault {
        match fault {
            ReadFault::Cut(length) => ObjectFault::Cut(length),
            ReadFault::BadField(offset) => ObjectFault::BadField(offset),
            ReadFault::Leftover(length) => ObjectFault::Leftover(length),
            ReadFault::NoMemory => ObjectFault::NoMemory,
        }
    }
}

impl From<AllocError> for ObjectFault {
    ghost use Rattle.std.specs.Prelude.{◌≡◌};
    ghost use Rattle.code_check.specs.declared.fault.ObjectFault.TheVariants.{NoMemory};

    ghost from_gives = { λ _ fault. fault ≡ NoMemory };

    fn from(_: AllocError) -> ObjectFault {
        ObjectFault::NoMemory
    }
}

impl<T: Drop> From<AllocFailed<T>> for ObjectFault {
    ghost use Rattle.std.specs.Prelude.{◌≡◌};
    ghost use Rattle.code_check.specs.declared.fault.ObjectFault.TheVariants.{NoMemory};

    ghost from_gives = { λ _ fault. fault ≡ NoMemory };

    fn from(_: AllocFailed<T>) -> ObjectFault {
        ObjectFault::NoMemory
    }
}
