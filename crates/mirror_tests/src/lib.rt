//! Calls that are verified over pieces of an untrusted mirror: an honest one, one that lies once, and one of a digest for which collisions
//! are easily found, in both formats.
#![tactic(auto)]

#[cfg(test)]
mod calls;
#[cfg(test)]
mod lies;
#[cfg(test)]
mod program;
#[cfg(test)]
mod terms;
#[cfg(test)]
mod trees;
#[cfg(test)]
mod weak;
#[cfg(test)]
mod witness;
