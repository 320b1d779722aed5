// A call, as it is kept until its proof comes.
ghost use Rattle.std.specs.Prelude.{◌≤◌, ◌^◌};

use core_terms::Spelling;

/// A call that was sent.
#[derive(Drop)]
pub struct Asked {
    /// The number of the role among the roles of the program.
    pub role: u16,
    pub argument: Spelling,
    /// In calls of functions, at most 10^12.
    pub fuel: u64,
    ghost fuel_fits: { fuel ≤ 10 ^ 12 },
}
