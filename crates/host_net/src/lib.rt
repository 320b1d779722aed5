//! TCP on 127.0.0.1, as the links of this machine.
#![tactic(auto)]

mod net;

pub use net::HostNet;
