//! The real files, standard output and command line of this machine. They tell nothing of what they hold; that a fault raises its count,
//! and no other, is proved.
#![tactic(auto)]

mod command_line;
mod files;
mod output;

pub use command_line::words;
pub use files::HostFiles;
pub use output::HostSink;
