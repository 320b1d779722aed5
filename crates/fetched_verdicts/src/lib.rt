//! The verdict of a verifier that gets its pieces of a store, as a function of what the store answers to a digest.
//!
//! `ideal_meaning` has the verdict over answers that were given, whoever gave them. Where answers are a function of the digest the verdict is
//! one too (`specs/Verdicts`), and [`laws`] tie both. Nothing here runs.
#![tactic(auto)]

pub mod laws;
