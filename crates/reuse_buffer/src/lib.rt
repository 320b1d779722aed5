//! The ring of a proof: the last pieces that were pushed, up to a number, with their places by their bytes.
#![tactic(auto)]

mod held_piece;
mod ring;
mod spare_ring;

#[doc(hidden)]
pub use held_piece::HeldPiece;
pub use ring::{Bucket, Ring};
pub use spare_ring::SpareRing;
