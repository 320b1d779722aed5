//! A stage for tests of the top call: files and a sink in memory, and runs over them.
#![tactic(auto)]

pub mod runs;
pub mod stage;
pub mod waiting;
