//! The words of a command line, read by clap.
#![tactic(auto)]

mod command;
mod fault;
pub mod laws;
mod line;
mod reading;

pub use command::{Command, Invocation};
pub use fault::WordsFault;
pub use reading::read;
