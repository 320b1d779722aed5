//! How links end: a connection on one, and the serving of links one after another. What is served on them is said by others.
#![tactic(auto)]

mod end;
mod link_stop;

pub use end::{ConnectionEnd, ServingEnd};
pub use link_stop::LinkStop;
