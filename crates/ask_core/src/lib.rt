//! The client of sessions for one program: a core that reads and writes nothing, makes the requests and takes the replies.
//!
//! [`AskCore`] greets, calls, leaves and takes replies as the client of `session_meaning` does, for as many sessions as are greeted.
//! What is true of whole runs of that client stands in [`laws`].
#![tactic(auto)]

mod asked;
mod checks;
mod client;
mod judging;
pub mod laws;
mod replied;
pub mod reply_parts;
mod seen;
mod standing;
mod states;
mod told;

pub use client::AskCore;
pub use seen::CalledRole;
pub use told::{AskFault, Told};
