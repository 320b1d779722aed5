//! What a program of lambda-auth declares: from the syntax tree to its named types, its functions and its state's type, or to the first
//! fault of the passes before the bodies.
//!
//! `passes` goes over a tree three times: the names that are declared and how many, the names and arrays in written types, and the shapes
//! of roles. What they give is a `Scope`, in which bodies find functions and constructors by name. `fault` has the faults of these
//! passes, and of the one over bodies, which is the crate above; `specs/` says what each pass finds.
#![tactic(auto)]

pub mod declarations;
pub mod fault;
mod numbering;
pub mod passes;
mod roles;
pub mod scope;
pub mod written_types;
