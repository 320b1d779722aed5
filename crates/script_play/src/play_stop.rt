// Why a play ends before its script does.
ghost use Rattle.std.specs.Prelude.{◌≡◌};
ghost use Rattle.script_play.specs.declared.play_stop.PlayStop.TheVariants.{NoMemory, WriteFault};

use lam_outside::Failed;
use std::alloc::AllocError;

/// Why a play ends before its script does.
#[derive(Clone, Copy)]
pub enum PlayStop {
    /// What was told last ends it.
    Ended,
    /// The link failed, and its count of faults rose.
    LinkFault,
    /// The sink failed, and its count of faults rose.
    WriteFault,
    /// Memory was wanting.
    NoMemory,
}

impl From<AllocError> for PlayStop {
    ghost from_gives = { λ _ halt. halt ≡ NoMemory };

    fn from(_: AllocError) -> Self {
        PlayStop::NoMemory
    }
}

impl From<Failed> for PlayStop {
    ghost from_gives = { λ _ halt. halt ≡ WriteFault };

    fn from(_: Failed) -> Self {
        PlayStop::WriteFault
    }
}
