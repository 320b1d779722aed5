// Why words are not read.
ghost use Rattle.std.specs.Prelude.{◌≡◌};
ghost use Rattle.command_words.specs.declared.fault.WordsFault.TheVariants.{NoMemory};
ghost use Rattle.command_words.specs.Faults.{of_clap};

use clap::Error;
use clap::error::ErrorKind;
use std::alloc::AllocError;

/// Why the words of a command line are not read.
#[derive(Clone, Copy)]
pub enum WordsFault {
    /// They call no command.
    Refused,
    /// Memory was wanting.
    NoMemory,
}

impl From<AllocError> for WordsFault {
    ghost from_gives = { λ _ fault. fault ≡ NoMemory };

    fn from(_: AllocError) -> Self {
        WordsFault::NoMemory
    }
}

impl From<Error> for WordsFault {
    ghost from_gives = { λ error fault. fault ≡ of_clap error };

    fn from(error: Error) -> Self {
        match error.kind() {
            ErrorKind::OutOfMemory => WordsFault::NoMemory,
            _ => WordsFault::Refused,
        }
    }
}
