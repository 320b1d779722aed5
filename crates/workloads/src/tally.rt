// Sums over calls.
ghost use Rattle.std.specs.Prelude.{◌≡◌, ◌<◌, ◌+◌, ◌^◌, suc};
ghost use Rattle.workloads.specs.Workloads.{no_calls};
ghost use Rattle.workloads.specs.Sums.{IsBounded, call_added, is_done};

use crate::calls::CheckedCall;
use core_terms::{Outcome, Spelling};

/// Sums over calls, each of which was proved into a proof file of its own.
///
/// They begin at nothing and grow by checked calls alone, so each call that they count has had its file verified.
#[derive(Clone, Copy)]
pub struct Tally {
    calls: u64,
    done: u64,
    fresh: u128,
    again: u128,
    bytes: u128,
}

impl Tally {
    /// The sums before the first call.
    pub(crate) fn new() -> Self
        ensures sums { result ≡ no_calls }
        ensures bounded { IsBounded result }
    {
        Tally {
            calls: 0,
            done: 0,
            fresh: 0,
            again: 0,
            bytes: 0,
        }
    }

    /// How many calls there were.
    pub fn calls(&self) -> u64
        ensures { result ≡ self.now.calls }
    {
        self.calls
    }

    /// How many of them ended with a value.
    pub fn done(&self) -> u64
        ensures { result ≡ self.now.done }
    {
        self.done
    }

    /// How many frames have a piece of their own.
    pub fn fresh(&self) -> u128
        ensures { result ≡ self.now.fresh }
    {
        self.fresh
    }

    /// How many frames name a kept piece.
    pub fn again(&self) -> u128
        ensures { result ≡ self.now.again }
    {
        self.again
    }

    /// The number of bytes of all proof files.
    pub fn bytes(&self) -> u128
        ensures { result ≡ self.now.bytes }
    {
        self.bytes
    }

    /// Counts a call.
    pub(crate) fn add(&mut self, call: &CheckedCall)
        requires bounded { IsBounded self.old }
        requires few { self.old.calls < 2 ^ 32 }
        ensures sums { self.new ≡ call_added self.old call.now }
        ensures bounded { IsBounded self.new }
    {
        self.calls += 1;
        self.done += u64::from(has_value(call.verified.outcome()));
        self.fresh += u128::from(call.fresh);
        self.again += u128::from(call.again);
        self.bytes += call.verified.file().len() as u128;
    }
}

/// Whether an outcome has a value.
fn has_value(outcome: &Outcome<Spelling>) -> bool
    ensures { result ≡ is_done outcome.now }
{
    matches!(outcome, Outcome::Done(_))
}
