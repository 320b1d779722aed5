//! Tests of the commands `serve`, `ask`, `mirror` and `draw` over a net in memory, and of `found`, `host` and `replay` over a disk in memory too:
//! what it writes, stores and sends, and where a call of the net, of the output or of the files fails. And of runs over the files and links of
//! this machine: how they end.
#![tactic(auto)]

#[cfg(test)]
mod asking;
#[cfg(test)]
mod drawing;
#[cfg(test)]
mod ended_runs;
#[cfg(test)]
mod hosting;
#[cfg(test)]
mod lies;
#[cfg(test)]
mod messages;
#[cfg(test)]
mod mirroring;
#[cfg(test)]
mod serving;
#[cfg(test)]
mod states;
#[cfg(test)]
mod telling;
#[cfg(test)]
mod waiting;
