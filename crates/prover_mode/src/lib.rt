//! The prover: the machine runs a call on the prover's nodes, and each opening notes what is opened. What was opened is then written
//! as the frames of a proof, over a ring of the pieces that came before.
//!
//! [`prove`] gives the frames of one proof among others that follow one another, [`prove_file`] a proof file, and
//! [`prove_file_reusing`] one after another with the same memory. [`Proving`] is a proof in the making, whose call runs in turns.
//! [`prover_run`] is the run alone, and [`spelled_outcome`] spells what it comes to.
#![tactic(auto)]

mod frames;
mod opened;
mod proof_files;
mod prover;
mod prover_runs;
mod proving;
mod spelling;
mod turns;

pub use opened::Opened;
pub use proof_files::{prove_file, prove_file_reusing};
pub use prover::Prover;
pub use prover_runs::{ProverRun, prover_run};
pub use proving::{Proved, prove};
pub use spelling::spelled_outcome;
pub use turns::{ProofFrames, Proving};
