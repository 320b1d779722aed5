//! Reads that are made ahead of what is asked for, so that small reads of a file or of a link ask the system once for many bytes. It takes
//! memory for 8,192 bytes at most, and does with less where there is no more.
#![tactic(auto)]

mod ahead;

pub use ahead::ReadAhead;
