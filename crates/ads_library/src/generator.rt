// Numbers that look random, and are determined by the first one.
ghost use Rattle.std.specs.Prelude.{◌≡◌};
ghost use Rattle.ads_library.specs.Recurrence.{next_state, number_of};

use std::marker::Model;

/// A sequence of numbers below 2^31. A clause sees it as its state.
#[derive(Drop)]
pub struct Gen {
    state: u64,
}

impl Model for Gen {
    ghost use Rattle.std.specs.Prelude.{ℕ};

    ghost Value = { ℕ };

    ghost view = { λ gen. gen.state };
}

impl Gen {
    /// The sequence of a seed.
    pub fn new(seed: u64) -> Self
        ensures { result ≡ seed }
    {
        Gen { state: seed }
    }

    /// The next number.
    pub fn next(&mut self) -> u64
        ensures state { self.new ≡ next_state self.old }
        ensures number { result ≡ number_of self.new }
    {
        self.state = self
            .state
            .wrapping_mul(6_364_136_223_846_793_005)
            .wrapping_add(1_442_695_040_888_963_407);
        self.state >> 33
    }
}
