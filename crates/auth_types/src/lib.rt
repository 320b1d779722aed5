//! The type checker of lambda-auth: from the syntax tree of a program to the program, or to the first fault.
//!
//! `check::check` goes over a tree in four passes: the names that are declared and how many, the names and arrays in written types, the
//! shapes of roles, which are those of `declared_types`, and bodies. The answer is the program, or the first fault, by place, of the
//! first pass that has one; `specs/` says what each pass finds. `laws` has what a program that passes may be held to.
#![tactic(auto)]

mod bodies;
pub mod check;
pub mod laws;

pub use declared_types::fault;
