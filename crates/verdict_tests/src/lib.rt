//! Tests of the verifier on programs, over sources that give a few bytes a read and that have no end.
#![tactic(auto)]

#[cfg(test)]
mod verdicts;
