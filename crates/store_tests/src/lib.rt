//! Tests of values in a store: how they are put and viewed, spelled and read, kept in images, and put into a mirror piece by piece.
#![tactic(auto)]

#[cfg(test)]
mod array_images;
#[cfg(test)]
mod arrays;
#[cfg(test)]
mod codec;
#[cfg(test)]
mod faults;
#[cfg(test)]
mod large;
#[cfg(test)]
mod mirror_files;
#[cfg(test)]
mod mirrors;
#[cfg(test)]
mod nodes;
#[cfg(test)]
mod saved;
#[cfg(test)]
mod spelled;
#[cfg(test)]
mod stage;
