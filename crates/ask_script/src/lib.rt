//! The scripts of the command `ask`: the lines in which a user tells what is to be asked of a server.
#![tactic(auto)]

mod calls;
pub mod laws;
mod line;
mod script;
mod step;
mod words;

pub use script::{ScriptFault, read_script};
pub use step::Step;
