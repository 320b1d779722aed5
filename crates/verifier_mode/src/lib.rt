//! The verifier: the machine runs a call on the spellings of its state and its argument, and each opening takes the next piece of a
//! proof, which is pulled from a source.
//!
//! Of the proof it holds the piece in hand, the last new one and the ring of kept pieces, so a proof may have any length; the nodes of what
//! it reads stay in its store until the call is judged. [`verify`] judges a call by a proof file, [`verify_on`] by the frames of one proof
//! among others that follow one another.
#![tactic(auto)]

mod checked_runs;
mod judge;
mod last_read;
mod opening;
mod verdict;
mod verifier;

pub use checked_runs::checked_run;
pub use judge::{argument_of, put_call, spelled, verify, verify_on, verify_reusing};
pub use opening::{Asked, are_same, held_digest, stop_of};
pub use verdict::{CallFault, Verdict};
pub use verifier::{Verifier, VerifierFault};
