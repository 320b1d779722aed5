//! The disk of the machine.
#![tactic(auto)]

mod disk;
mod stopping;

pub use disk::HostDisk;
pub use stopping::StoppingDisk;
