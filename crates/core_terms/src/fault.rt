// Faults with a place.

use std::alloc::{AllocError, AllocFailed};

/// Why nothing was made of some input.
#[derive(Clone, Copy)]
pub enum Fault<K, P> {
    /// The first fault of the input: its kind and its place.
    At(K, P),
    /// There was no memory.
    NoMemory,
}

impl<K, P> Fault<K, P> {
    ghost use Rattle.std.specs.Prelude.{◌≡◌};
    ghost use Rattle.core_terms.specs.Faults.{IsSameFault};

    /// The same fault, its kind among those of another type.
    pub fn widened<L: From<K>>(self) -> Fault<L, P>
        ensures { IsSameFault L.from_gives self result }
    {
        match self {
            Fault::At(kind, place) => Fault::At(L::from(kind), place),
            Fault::NoMemory => Fault::NoMemory,
        }
    }
}

impl<K, P> From<AllocError> for Fault<K, P> {
    ghost use Rattle.std.specs.Prelude.{◌≡◌};
    ghost use Rattle.core_terms.specs.declared.fault.Fault.TheVariants.{NoMemory};

    ghost from_gives = { λ _ fault. fault ≡ NoMemory };

    fn from(_: AllocError) -> Self {
        Fault::NoMemory
    }
}

impl<T: Drop, K, P> From<AllocFailed<T>> for Fault<K, P> {
    ghost use Rattle.std.specs.Prelude.{◌≡◌};
    ghost use Rattle.core_terms.specs.declared.fault.Fault.TheVariants.{NoMemory};

    ghost from_gives = { λ _ fault. fault ≡ NoMemory };

    fn from(_: AllocFailed<T>) -> Self {
        Fault::NoMemory
    }
}
