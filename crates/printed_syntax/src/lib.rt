//! Programs and values as text: programs as they are printed, the literals of a type, and values as they are printed.
//!
//! `specs/` has their texts, and the laws that what is printed is read back.
#![tactic(auto)]

pub mod fault;
pub mod laws;
pub mod literal;
pub mod print;
mod printer;
pub mod printing;
