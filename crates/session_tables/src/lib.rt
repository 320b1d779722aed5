//! Tables by number, in ascending order of the numbers.
//!
//! A [`Table`] is what `session_meaning` calls a table: what its calls give is `find`, `put` and `remove` there.
#![tactic(auto)]

mod table;

pub use table::{Entry, Table};
