//! The play of a user's script against a server.
//!
//! What a play does is defined in `specs/Plays.antt`: a list of deeds, a function of the replies that come. [`play`]
//! does them over a link and a sink.
#![tactic(auto)]

mod asking;
mod hearing;
pub mod laws;
mod lines;
mod play_stop;
mod playing;
mod taking;
mod telling;

pub use play_stop::PlayStop;
pub use playing::play;
