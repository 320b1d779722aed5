//! The text of a program's types: what its table of types is printed as, which the fingerprints of its types are made of.
//!
//! `specs/` has the laws: that it is what is printed of the declarations of types, and that it tells the table.
#![tactic(auto)]

pub mod laws;
