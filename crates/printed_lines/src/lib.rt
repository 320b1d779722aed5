//! The lines that the commands print: outcomes, and refusals with their kinds, places and numbers.
//!
//! Each line ends with a line feed. `specs/Lines.antt` has their texts.
#![tactic(auto)]

pub mod lines;
mod names;
pub mod refusal;
mod rejections;
pub mod session_lines;
