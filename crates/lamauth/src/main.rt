//! `lamauth COMMAND ARGUMENTS`: the real files, standard output, links and disk of this machine, handed to the top call.
#![tactic(auto)]

use host_files::words;
use host_run::{RunEnd, ended};

fn main(rt: HostRuntime) -> RunEnd {
    ended(&rt, &rt, words(&rt))
}
