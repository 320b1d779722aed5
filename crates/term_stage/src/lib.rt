//! Programs made of terms, for tests: parts that are judged to be well typed and within the limits are those of a program, in either
//! format.
#![tactic(auto)]

pub mod compiled;
pub mod flat;
pub mod judge;
pub mod one_int;
pub mod parts;
pub mod shapes;
pub mod tables;
