//! Tests of the top call: the words of a command line, what it says of the texts and objects of programs, the calls of roles, the states that it
//! makes and keeps, the inputs that it refuses, and how values are printed.
#![tactic(auto)]

#[cfg(test)]
mod arrays;
#[cfg(test)]
mod endless;
#[cfg(test)]
mod inputs;
#[cfg(test)]
mod library;
#[cfg(test)]
mod moved;
#[cfg(test)]
mod objects;
#[cfg(test)]
mod programs;
#[cfg(test)]
mod roles;
#[cfg(test)]
mod states;
#[cfg(test)]
mod values;
#[cfg(test)]
mod words;
