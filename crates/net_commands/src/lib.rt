//! The commands of lambda-auth on the net, over the files, the sink, the net and the disk that they are handed.
#![tactic(auto)]

mod ask;
mod asking;
mod course_end;
mod draw;
mod drawing;
mod host;
mod hosting;
mod last_version;
mod mirror;
mod mirroring;
mod serve;
mod serving;

pub use ask::ask_command;
pub use draw::draw_command;
pub use host::host_command;
pub use mirror::mirror_command;
pub use serve::serve_command;
