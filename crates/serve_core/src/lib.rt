//! The core of a server: it reads and writes nothing, hears messages, and answers replies.
//!
//! A server is defined in `session_meaning`, as a machine over values. [`ServeCore`] is this machine over nodes of a store: it counts the
//! messages of a connection, keeps the sessions under their numbers, tests each request by what the sessions share, and lets their calls
//! take turns. `specs/` says how the two stand to each other: each message that it handles is a step of the machine, and where memory is
//! wanting what is shared is as behind some of the turns. [`laws`] has what holds of the machine over whole runs.
#![tactic(auto)]

mod heard;
pub mod laws;
mod requests;
mod server;

pub use heard::{Heard, Replies};
pub use server::ServeCore;
pub use session_turns::round;
