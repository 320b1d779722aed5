// Why serving breaks off.
ghost use Rattle.std.specs.Prelude.{◌≡◌};
ghost use Rattle.link_ends.specs.declared.link_stop.LinkStop.TheVariants.{LinkFault, Stopped};

use lam_outside::Failed;
use std::alloc::AllocError;
use wire_form::WriteStop;

/// Why serving breaks off.
#[derive(Clone, Copy)]
pub enum LinkStop {
    /// The link failed, or no link was accepted, and the count of faults rose.
    LinkFault,
    /// It can't go on: memory was wanting, or a server's commits could not be kept.
    Stopped,
}

impl From<Failed> for LinkStop {
    ghost from_gives = { λ _ stop. stop ≡ LinkFault };

    fn from(_: Failed) -> Self {
        LinkStop::LinkFault
    }
}

impl From<AllocError> for LinkStop {
    ghost from_gives = { λ _ stop. stop ≡ Stopped };

    fn from(_: AllocError) -> Self {
        LinkStop::Stopped
    }
}

impl From<WriteStop> for LinkStop {
    ghost use Rattle.link_ends.specs.LinkStops.{link_stop_of};

    ghost from_gives = { λ stop link_stop. link_stop ≡ link_stop_of stop };

    fn from(stop: WriteStop) -> Self {
        match stop {
            WriteStop::LinkFault => LinkStop::LinkFault,
            WriteStop::NoMemory => LinkStop::Stopped,
        }
    }
}
