//! The top call over the real files, standard output, links and disk of this machine.
#![tactic(auto)]

mod ending;

pub use ending::{RunEnd, ended};
