//! The parts that commands are made of: what words and files give to one, what each answers, and how what it found is told and stored.
#![tactic(auto)]

mod arguments;
mod calls;
mod fetched_pieces;
mod ideal_calls;
mod machine_calls;
mod outcomes;
mod programs;
mod report;
mod role_outcomes;
mod roles;
mod status;
mod stored_states;
mod storing;

pub use arguments::{kept_named, number_named, positive_named};
pub use calls::{RoleCall, read_role_call, read_role_inputs, read_state_file};
pub use fetched_pieces::{load_mirror_file, verdict_report};
pub use ideal_calls::{IdealCall, read_ideal_call, read_named_call};
pub use machine_calls::{Ended, call_init, call_role, read_code};
pub use outcomes::outcome_report;
pub use programs::{
    ProgramFault, begins_as_object, load_program, read_named_program, read_program,
    read_program_file,
};
pub use report::{Ending, Halt, NO_MEMORY, Output, Report, image_kind, load, tell, tell_text};
pub use role_outcomes::{role_output, role_report, state_made};
pub use roles::{CallWords, CalledRole, Callee, called_role, role_named};
pub use status::Status;
pub use stored_states::{load_image_bytes, load_image_file, load_state};
pub use storing::store_and_tell;
