//! Tests of the language: which texts are programs, the trees that they are, the text that these are printed as and the first fault of
//! the others; what a program tells of itself; literals and printed values.
#![tactic(auto)]

#[cfg(test)]
mod answers;
#[cfg(test)]
mod arrays;
#[cfg(test)]
mod formats;
#[cfg(test)]
mod forms;
#[cfg(test)]
mod library;
#[cfg(test)]
mod limits;
#[cfg(test)]
mod literals;
#[cfg(test)]
mod nesting;
#[cfg(test)]
mod printed;
#[cfg(test)]
mod programs;
#[cfg(test)]
mod shared_parts;
#[cfg(test)]
mod syntax_faults;
#[cfg(test)]
mod trees;
#[cfg(test)]
mod type_faults;
#[cfg(test)]
mod type_limits;
#[cfg(test)]
mod values;
