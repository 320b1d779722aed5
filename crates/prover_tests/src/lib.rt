//! Tests that tie the prover, the verifier and the audit of programs together: at SHA-256 what is proved is accepted and agreed with,
//! and what is altered is told alike; at a digest for tests collisions are shown. And tests of both digests, of compiled
//! code, and of objects that are accepted after a change of their bytes.
#![tactic(auto)]

#[cfg(test)]
mod altered;
#[cfg(test)]
mod collisions;
#[cfg(test)]
mod compiled;
#[cfg(test)]
mod digests;
#[cfg(test)]
mod honest;
#[cfg(test)]
mod random_objects;
#[cfg(test)]
mod stage;
