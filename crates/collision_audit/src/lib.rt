//! The audit of a proof that is pulled from a source: whoever has the ideal state and argument of a call says what a proof of it is worth.
//!
//! [`audit`] runs the call as a prover does, compares what the proof offers with the honest pieces one after another, and shows the first
//! piece that differs and has the digest of the honest one: a collision of the hash. Else it answers what a verifier answers, and runs
//! none: up to the first difference the verifier's run is the projection of the prover's. What this means is said by `specs/`; [`laws`]
//! tie it to the verifier's verdict.
#![tactic(auto)]

mod audited;
mod auditing;
mod comparing;
pub mod laws;
mod offers;

pub use audited::{AuditFault, Audited, Collision};
pub use auditing::audit;
