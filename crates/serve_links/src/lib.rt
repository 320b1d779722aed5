//! A server on the links of a net, one after another.
//!
//! `session_meaning` defines what a server sends on a link, to the messages of the bytes that come. [`serve_link`] does this on one
//! link, and [`serve_links`] on the links of a net, one after another.
#![tactic(auto)]

mod connection;
pub mod laws;
mod message;
mod net;
mod sending;

pub use connection::serve_link;
pub use link_ends::{ConnectionEnd, ServingEnd};
pub use net::serve_links;
