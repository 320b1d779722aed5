// Numbers that look random, and are determined by the first one.
ghost use Rattle.std.specs.Prelude.{◌<◌};

/// A sequence of numbers: SplitMix64.
#[derive(Clone, Copy)]
pub struct Numbers {
    state: u64,
}

impl Numbers {
    /// The sequence of a seed.
    pub fn new(seed: u64) -> Self {
        Numbers { state: seed }
    }

    /// The next number.
    fn next(&mut self) -> u64 {
        self.state = self.state.wrapping_add(0x9e37_79b9_7f4a_7c15);
        let mixed = (self.state ^ (self.state >> 30)).wrapping_mul(0xbf58_476d_1ce4_e5b9);
        let mixed = (mixed ^ (mixed >> 27)).wrapping_mul(0x94d0_49bb_1331_11eb);
        mixed ^ (mixed >> 31)
    }

    /// A number below a bound; 0 where the bound is 0.
    pub fn below(&mut self, bound: usize) -> usize
        ensures { 0 < bound → result < bound }
    {
        if bound == 0 {
            return 0;
        }
        (self.next() % bound as u64) as usize
    }

    /// One of these texts; an empty one where there are none.
    pub fn one_of(&mut self, texts: &[&'static [u8]]) -> &'static [u8] {
        let place = self.below(texts.len());
        match texts.get(place) {
            Some(text) => *text,
            None => b"",
        }
    }
}
