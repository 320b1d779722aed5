// Numbers that look random, and are determined by the first one.
ghost use Rattle.std.specs.Prelude.{◌<◌};

/// A sequence of numbers: a linear congruential generator.
#[derive(Clone, Copy)]
pub struct Numbers {
    state: u64,
}

impl Numbers {
    /// The sequence of a seed.
    pub fn new(seed: u64) -> Self {
        let mut numbers = Numbers { state: seed };
        // neighbouring seeds differ in few bits
        for _step in 0..4 {
            numbers.step();
        }
        numbers
    }

    fn step(&mut self) {
        self.state = self
            .state
            .wrapping_mul(6_364_136_223_846_793_005)
            .wrapping_add(1_442_695_040_888_963_407);
    }

    /// A number below a bound; 0 where the bound is 0.
    pub fn below(&mut self, bound: usize) -> usize
        ensures { 0 < bound → result < bound }
    {
        if bound == 0 {
            return 0;
        }
        self.step();
        ((self.state >> 33) % bound as u64) as usize
    }
}
