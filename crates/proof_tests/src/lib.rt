//! Tests of the top call: the proofs that it makes, what it says of proofs and of mirrors, and audits; and of all commands where a file is
//! cut, or a call of the files or of the output fails.
#![tactic(auto)]

#[cfg(test)]
mod calls;
#[cfg(test)]
mod cuts;
#[cfg(test)]
mod faults;
#[cfg(test)]
mod mirrors;
#[cfg(test)]
mod refused;
#[cfg(test)]
mod sides;
#[cfg(test)]
mod updates;
#[cfg(test)]
mod verdicts;
