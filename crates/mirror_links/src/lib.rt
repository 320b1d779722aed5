//! A mirror on the links of a net, one after another.
//!
//! `session_meaning` defines what a mirror sends on a link, to the messages of the bytes that come. [`answer_link`] does this on one
//! link, and [`answer_links`] on the links of a net, one after another.
#![tactic(auto)]

mod connection;
mod net;

pub use connection::answer_link;
pub use net::answer_links;
