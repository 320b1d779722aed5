//! What is emitted of a text: the object of its program, which is accepted.
//!
//! `specs/` has the laws, and [`laws`] the theorems. They join what `auth_types` says of the program that a text is checked to, and what
//! `object_meaning` asks of a program whose object is accepted. Nothing here runs.
#![tactic(auto)]

pub mod laws;
