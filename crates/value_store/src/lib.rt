//! The store: an append-only list of nodes, each of which stands for a value of a program and refers to earlier nodes.
//!
//! A node is put once and never changed, so a value in hand is a number, its parts are shared, and an authenticated value is
//! digested once. `specs/` says which value a node stands for, over ideal nodes, the prover's and the verifier's.
#![tactic(auto)]

pub mod absorbing;
pub mod laws;
pub mod marker;
pub mod node;
pub mod nodes;
pub mod over;
pub mod packed;
pub mod parts;
pub mod store;
pub mod view;

pub use marker::Marker;
pub use node::{Held, Ref};
pub use nodes::Nodes;
pub use over::{Over, Own};
pub use parts::{first_component, inner_of};
pub use store::{Mark, Store};
pub use view::View;
