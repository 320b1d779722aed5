//! Programs to start from, the laws of what they keep, and numbers for workloads of any length.
#![tactic(auto)]

mod generator;
pub mod laws;
pub mod texts;

pub use generator::Gen;
pub use texts::source;
