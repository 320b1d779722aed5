//! Tests of the core of a client over messages as bytes: what each reply tells in each standing of a session; the
//! client's core and the server's against each other over long random sessions; and a server that lies.
#![tactic(auto)]

#[cfg(test)]
mod exchange;
#[cfg(test)]
mod lies;
#[cfg(test)]
mod replies;
#[cfg(test)]
mod standings;
#[cfg(test)]
mod wire;
