//! Calls whose proof files were verified. One is made here alone, of whatever file, and only where the verifier accepted it.
#![tactic(auto)]

mod call;

pub use call::{VerifiedCall, verify_call, verify_call_reusing};
