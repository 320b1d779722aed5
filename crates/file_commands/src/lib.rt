//! The commands of lambda-auth on programs and states: what is told and stored of them, the library, and workloads on it.
#![tactic(auto)]

mod check_program;
mod emit_object;
mod file_pieces;
mod gen_workload;
pub mod laws;
mod library_text;
mod migrate_state;
mod shallow_state;
mod workload_roles;

pub use check_program::check_command;
pub use emit_object::emit_command;
pub use file_pieces::pieces_command;
pub use gen_workload::gen_command;
pub use library_text::library_command;
pub use migrate_state::migrate_command;
pub use shallow_state::shallow_command;
