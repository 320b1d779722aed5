//! Verifying a call over pieces that are fetched: each is asked for by the digest that is held, of anybody.
//!
//! A piece is all that its digest is of: in the first format the spelling, in the second the type's fingerprint and the spelling behind it.
//! So whoever answers needs no types, and isn't trusted: [`verify_from`] judges a call by what a [`Fetch`](wire_form::Fetch) answers, and of
//! an outcome it is proved that the answers were the honest pieces and the outcome the true one, or that two different pieces have one
//! digest. [`fetched_run`] is its run alone, in the mode [`Fetcher`].
#![tactic(auto)]

mod fetched_runs;
mod fetcher;
mod judge;
mod opening;
mod verdict;

pub use fetched_runs::fetched_run;
pub use fetcher::{Fetcher, FetcherFault};
pub use judge::verify_from;
pub use verdict::{FetchCause, FetchVerdict};
