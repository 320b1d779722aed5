//! The tokens of programs and literals: from the bytes of a text to its words, names, ints, texts and marks, each with its place.
//!
//! `specs/` has the tokens of a text and its first lexical fault, and what reading at the head of some tokens finds.
#![tactic(auto)]

pub mod fault;
pub mod laws;
pub mod lexer;
pub mod parser;
pub mod place;
pub mod token;
