//! Objects that are written: the bytes of the code of a program of the first format.
#![tactic(auto)]

mod bytes;
mod code;
mod fault;
mod functions;
mod numbering;
mod types;
mod walk;
mod writing;

pub use fault::WriteFault;
pub use writing::write_object;
