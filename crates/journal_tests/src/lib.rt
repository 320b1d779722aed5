//! Tests of journals on disks in memory and on the disk of the machine.
#![tactic(auto)]

#[cfg(test)]
mod appended;
#[cfg(test)]
mod crashes;
#[cfg(test)]
mod opening;
#[cfg(test)]
mod pending;
#[cfg(test)]
mod plain;
#[cfg(test)]
mod readings;
#[cfg(test)]
mod real;
#[cfg(test)]
mod stage;
#[cfg(test)]
mod torn;
