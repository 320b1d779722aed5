//! Tests of the messages of a session, and of those that ask for pieces: each kind read whole, cut, with faulty fields and over links
//! that fail, and written over links that take a few bytes a call, fail or take no more.
#![tactic(auto)]

#[cfg(test)]
mod messages;
#[cfg(test)]
mod pieces;
#[cfg(test)]
mod writes;
