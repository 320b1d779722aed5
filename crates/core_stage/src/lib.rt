//! What the tests of the two cores share: programs with their first versions, servers of them and connections to these, and a
//! notation of messages as bytes.
#![tactic(auto)]

pub mod notation;
pub mod programs;
pub mod stage;
