//! The language, run by a slow evaluator over trees: it says what the ideal meaning of a program is, and is there to test
//! the machine against.
//!
//! [`plain_run`] calls a function on ideal values, which are trees of their own ([`Plain`]), and gives what the ideal run of the
//! crate `ideal_meaning` gives; [`metered_run`] tells the fuel that is left too. Values are copied wherever they are used,
//! and the evaluator calls itself: for each nested expression, for each call of the program that isn't done, and for each level of a
//! value that it copies, measures or drops. So it is for small tests: a deep run needs a deep stack.
#![tactic(auto)]

mod arrays;
mod calls;
mod copies;
mod evaluator;
mod ints;
mod measures;
mod operations;
mod stop;
mod texts;
mod values;

pub use calls::{metered_run, plain_run};
pub use values::Plain;
