//! A mirror: an untrusted store of pieces, found by their digests. It knows no program.
//!
//! A piece is put once, and pieces keep the order in which they were put. Where two pieces have one digest both are kept and filed, and
//! the first is the one that is found. The file of a [`Mirror`] is its pieces behind their lengths, and is read back to the same mirror
//! or refused at its first fault.
#![tactic(auto)]

mod fault;
mod fetch;
mod file;
mod fill;
mod mirror;

pub use fault::MirrorFault;
pub use mirror::Mirror;
