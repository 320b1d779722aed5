//! Tests of the machine: what each operation gives at its borders, the limits of values, choices, fuel in one run and in slices, last
//! calls and deep recursion, scalars in hand, and the instructions that are generated; and tests of the library on it.
#![tactic(auto)]

#[cfg(test)]
mod choices;
#[cfg(test)]
mod emitted;
#[cfg(test)]
mod fuel;
#[cfg(test)]
mod generator;
#[cfg(test)]
mod last_calls;
#[cfg(test)]
mod library;
#[cfg(test)]
mod limits;
#[cfg(test)]
mod operations;
#[cfg(test)]
mod random;
#[cfg(test)]
mod recursion;
#[cfg(test)]
mod scalars;
#[cfg(test)]
mod stage;
