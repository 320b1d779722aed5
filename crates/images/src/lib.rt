//! Images: the bytes that keep an ideal value of a program's state.
//!
//! `specs/` says what an image is: which bytes are one, what its first fault is where they aren't, and the one image that is written for a
//! value. [`load_image`] puts each record as one node of a store, so what the records share the store shares; [`save_image`] writes each
//! distinct part of a value once, and takes time linear in the records, however large the value is as a tree. What it writes loads to the
//! value.
#![tactic(auto)]

mod entries;
mod fault;
mod fields;
mod header;
pub mod laws;
mod load;
mod order;
mod part_types;
mod parts;
mod record;
mod save;
mod stored;
mod stored_records;
mod type_numbers;

pub use fault::{ImageFault, SaveFault};
pub use load::{Loaded, load_image};
pub use order::auth_order;
pub use save::save_image;
