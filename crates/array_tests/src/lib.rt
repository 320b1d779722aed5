//! Random programs with arrays, on which the machine is compared with the reference.
#![tactic(auto)]

#[cfg(test)]
mod drawn;
#[cfg(test)]
mod kinds;
#[cfg(test)]
mod limits;
#[cfg(test)]
mod maker;
#[cfg(test)]
mod numbers;
#[cfg(test)]
mod random;
#[cfg(test)]
mod stage;
