//! What tests of calls share: the code of a text, and the function of a role that reads the state.
#![tactic(auto)]

pub mod calls;
