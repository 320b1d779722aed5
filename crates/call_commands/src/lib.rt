//! The commands of lambda-auth that call roles of programs, over the files and the sink that they are handed.
#![tactic(auto)]

mod audit_proof;
mod fetch_call;
mod ideal_call;
mod init_state;
pub mod laws;
mod prove_call;
mod step_state;
mod verify_call;

pub use audit_proof::audit_command;
pub use fetch_call::fetch_command;
pub use ideal_call::ideal_command;
pub use init_state::init_command;
pub use prove_call::prove_command;
pub use step_state::step_command;
pub use verify_call::verify_command;
