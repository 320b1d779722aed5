//! The frames of a proof: read from a source one at a time, and written.
//!
//! What frames offer is defined in `ideal_meaning`. A reader keeps the piece in hand, and the memory of one that is out of
//! use for the next; a piece takes no more memory than comes of it and one chunk.
#![tactic(auto)]

mod frame;
mod frame_reader;
mod frame_writer;
mod incoming;

pub use frame::{Frame, FrameEnd, HeadEnd};
pub use frame_reader::FrameReader;
pub use frame_writer::{put_header, put_new, put_use};
