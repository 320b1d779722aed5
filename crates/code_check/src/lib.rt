//! The check of code that nobody vouches for: bytes are an object that is accepted, and then a program that is never stuck; or they have a
//! first fault.
//!
//! `listed`, with the modules whose names begin with it, makes the parts of a program of what `object_reader` reads, `shapes` and `kinds`
//! find the first fault of these, and `acceptance` puts them together. `kinds` goes over the instructions of a function: `steps` says what one
//! leaves, `ways` where it leads, `known` what is known of those ahead. `lists` has lists of types as types, so that two of them are compared
//! by number, and `spans` the short ways through them.
#![tactic(auto)]

mod acceptance;
mod fault;
mod kinds;
mod known;
mod listed;
mod listed_code;
mod listed_functions;
mod listed_types;
mod lists;
mod operations;
mod parts;
mod shapes;
mod spans;
mod steps;
mod ways;

pub use acceptance::accept;
pub use fault::ObjectFault;
