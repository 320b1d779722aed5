//! The syntax of lambda-auth: from the tokens of a text to the tree of a program.
//!
//! `specs/` has the grammar, and the first fault of a text that is no program.
#![tactic(auto)]

pub mod laws;
pub mod parser;
pub mod tree;
