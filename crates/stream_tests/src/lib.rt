//! Tests of the frames of a proof, read from sources that fail and that have no end, and of the ring of kept pieces.
#![tactic(auto)]

#[cfg(test)]
mod frames;
#[cfg(test)]
mod rings;
