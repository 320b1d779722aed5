//! What the sessions of a server share, over nodes of a store.
//!
//! A server is defined in `session_meaning`, as a machine over values. Here a version is a node of the prover's, and `specs/` says how
//! the two stand to each other. [`Shared`] holds the versions and the commits: it tests a greeting and a call, settles the end of a run, and
//! takes the nodes of a call that commits over. A granted call runs in turns, as a [`Running`], on nodes of its own behind those of the
//! store; once it has run, it is [`Finished`], with its proof. A round takes one turn of each session, under its number: the calls run at once
//! on threads, over a store that nobody changes, each passing a [`Gate`] first ([`round()`]); then the turns are settled one after another,
//! in this order, each to what the machine leaves of its [`Session`] and of what is shared, with its reply.
//! A [`Keeper`] keeps the commits, so that none is told that isn't kept. [`laws`] has what stays as the store grows.
#![tactic(auto)]

mod commit;
mod finishing;
mod gate;
mod grants;
mod greetings;
mod keeper;
pub mod laws;
mod marks;
mod refusal;
mod rounds;
mod running;
mod session;
mod settled_turns;
mod settling;
mod shared;
mod turning;
mod versions;

pub use commit::Commit;
pub use finishing::{Finished, state_made};
pub use gate::{Gate, NoGate};
pub use grants::Granted;
pub use greetings::Room;
pub use keeper::{Keeper, NoKeeper, NotKept};
pub use refusal::{Denial, Refusal};
pub use running::Running;
pub use session::{Session, SessionCall, Turned};
pub use settling::{RunEnd, Settled};
pub use shared::Shared;
pub use turning::round;
