//! Tests of the outside in memory: files, a sink, links and a net, read and written with ample memory, and calls that fail in turn.
#![tactic(auto)]

#[cfg(test)]
mod files;
#[cfg(test)]
mod links;
