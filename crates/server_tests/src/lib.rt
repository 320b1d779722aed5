//! Tests of the core of a server over messages as bytes: what is sent for what is fed, byte for byte, for small programs; each cause
//! of a refusal, and which of two comes first; the limits; long random sessions, against a second server that is written
//! plainly; and that the turns of a round run at once.
#![tactic(auto)]

#[cfg(test)]
mod limits;
#[cfg(test)]
mod meeting;
#[cfg(test)]
mod rows;
#[cfg(test)]
mod soak;
