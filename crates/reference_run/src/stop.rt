// Why an evaluation ends before its value.
ghost use Rattle.std.specs.Prelude.{◌≡◌};
ghost use Rattle.reference_run.specs.declared.stop.Stop.TheVariants as stops;

use core_terms::Trap;
use std::alloc::{AllocError, AllocFailed};

/// What ends an evaluation before its value.
#[derive(Clone, Copy)]
pub(crate) enum Stop {
    /// A trap of the program.
    Trapped(Trap),
    /// A call was due, and no fuel was left.
    Out,
    /// Memory was wanting.
    NoMemory,
}

impl From<AllocError> for Stop {
    ghost from_gives = { λ _ stop. stop ≡ stops.NoMemory };

    fn from(_: AllocError) -> Self {
        Stop::NoMemory
    }
}

impl<T: Drop> From<AllocFailed<T>> for Stop {
    ghost from_gives = { λ _ stop. stop ≡ stops.NoMemory };

    fn from(_: AllocFailed<T>) -> Self {
        Stop::NoMemory
    }
}
