//! The outside as traits: sources, sinks, files, links, nets and disks, each with what it tells of its bytes and a count of its faults, or one
//! of each kind of its calls. A call fails only where its own count rose, and no call raises another's.
//!
//! Beside them stand fakes in memory for tests, which tell their bytes and fail by a plan.
#![tactic(auto)]

mod bytes;
mod chosen_file;
mod disk;
mod endless;
mod load;
mod mem_disk;
mod mem_files;
mod mem_link;
mod mem_net;
mod mem_sink;
mod net;
mod plan;
mod traits;
mod whole;

pub use bytes::Bytes;
pub use chosen_file::DiskCall;
pub use disk::Disk;
pub use endless::Endless;
pub use load::{Load, load_all};
pub use mem_disk::MemDisk;
pub use mem_files::{MemFile, MemFiles};
pub use mem_link::MemLink;
pub use mem_net::MemNet;
pub use mem_sink::MemSink;
pub use net::{Link, Net};
pub use plan::Plan;
pub use traits::{Failed, Files, Sink, Source};
pub use whole::{fill, send_all, write_all};
