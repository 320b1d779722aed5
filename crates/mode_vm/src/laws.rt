//! The laws of a machine that waits, in `specs/`: that it stays ready as nodes are put behind. They are the contract of a function without
//! parameters.
ghost use Rattle.mode_vm.specs.Laws.{PausedIsReady, PausedWill};

/// A machine that waits is as ready after the store has grown, and will come to the same.
pub fn growing()
    ensures ready { PausedIsReady }
    ensures will { PausedWill }
{}
