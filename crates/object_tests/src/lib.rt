//! Tests of objects: how they are read from bytes, and which are accepted.
#![tactic(auto)]

#[cfg(test)]
mod accepting;
#[cfg(test)]
mod objects;
#[cfg(test)]
mod reading;
#[cfg(test)]
mod reference;
