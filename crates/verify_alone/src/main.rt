//! `verify_alone P ROLE STATE ARG FUEL PROOF`: the command `verify` of `lamauth` over the real files, as a program that is small enough to be
//! built, unproved, within a minute.
#![tactic(auto)]

use call_commands::verify_command;
use command_parts::{Halt, Status, tell};
use host_files::{HostFiles, HostSink, words};
use std::process::ExitCode;

fn main(rt: HostRuntime) -> ExitCode {
    let mut out = HostSink::new(&rt);
    let status = match verified(&rt, &mut out) {
        Ok(status) => status,
        Err(halt) => tell(rt.alloc(), &mut out, Err(halt)),
    };
    ExitCode::from(status.code())
}

/// Runs `verify` on the words behind the program's name. Other than six of them call nothing: `Halt::Usage`.
fn verified(rt: &HostRuntime, out: &mut HostSink) -> Result<Status, Halt> {
    let words = words(rt)?;
    let words: Vec<&str> = words.iter().map(|word| word.as_str()).collect(rt.alloc())?;
    match &*words {
        [_, arguments @ ..] if arguments.len() == 6 => {
            Ok(verify_command(rt.alloc(), arguments, &mut HostFiles::new(rt), out))
        }
        _ => Err(Halt::Usage),
    }
}
