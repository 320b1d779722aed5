//! The virtual machine: runs the code of a program in a mode, on values that stand among nodes.
//!
//! A [`Mode`] says what `auth` and `unauth` do. A [`Machine`] on code does in each mode what the code means there, in one run or in
//! slices, over any nodes.
#![tactic(auto)]

mod arrays;
mod choices;
mod composites;
pub mod digesting;
mod frame;
pub mod ideal;
pub mod ideal_runs;
mod ints;
pub mod laws;
mod limits;
mod literals;
mod locals;
pub mod machine;
pub mod mode;
mod operand;
mod stack;
mod state;
mod texts;
mod values;

pub use digesting::DigestingMode;
pub use ideal::{IdealMode, Never};
pub use ideal_runs::{digesting_run, ideal_run};
pub use machine::Machine;
pub use mode::{Mode, Stop};
pub use state::Step;
