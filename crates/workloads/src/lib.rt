//! Workloads: from a state, puts and gets of keys and values that a generator gives. Each call is proved into a proof file of its own,
//! and the file is verified from the spellings of the state and the argument. [`run_workload`] gives the sums over the calls and the
//! last state.
#![tactic(auto)]

mod calls;
mod rounds;
mod tally;
mod workload;

pub use tally::Tally;
pub use workload::{Workload, run_workload};
