//! The commands on a disk that use no net: they make a journal of an image, and store the last version that a journal keeps. What opens a journal by its
//! name is for the server that keeps its versions in one too.
#![tactic(auto)]

mod found;
mod opened;
mod replay;
mod stop;

pub use found::found_command;
pub use opened::open_named;
pub use replay::replay_command;
pub use stop::DiskStop;
