//! The messages of a session on a link: requests and replies, each read and written by the bytes that stand for it.
//!
//! A message is a length of 4 bytes, the kind in a byte, the session in 2, and what else its kind has. Numbers have their high
//! byte first. What the bytes mean is defined in `session_meaning`.
#![tactic(auto)]

mod body;
mod fetch;
mod fields;
mod got;
mod incoming;
pub mod kinds;
mod message;
mod pieces;
mod reading;
mod writing;

pub use fetch::{Fetch, FetchStop, LinkFetch};
pub use got::{Got, Wire};
pub use message::{ReadStop, Reply, Request, WriteStop};
pub use pieces::{read_fetch, read_piece, write_fetch, write_piece};
pub use reading::{read_reply, read_request};
pub use writing::{write_reply, write_request};
