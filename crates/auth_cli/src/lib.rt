//! The top call of all commands of lambda-auth.
#![tactic(auto)]

mod carrying_out;
pub mod laws;
mod top;

pub use top::run;
