// A run over the real objects, and the status that the process ends with.
ghost use Rattle.std.specs.Prelude.{◌≡◌, ◌⊎◌};
ghost use Rattle.std.specs.Process.{exit_status};
ghost use Rattle.command_words.specs.CommandLine.{AreRefused};
ghost use Rattle.command_words.specs.Commands.{texts};

use auth_cli::run;
use command_parts::{Halt, tell};
use host_disk::HostDisk;
use host_files::{HostFiles, HostSink};
use host_net::HostNet;
use std::alloc::AllocError;
use std::process::{ExitCode, Termination};
use std::thread::Threads;

/// How a run ended, which is how the process ends. Only a run makes one.
#[derive(Clone, Copy, Debug, PartialEq, Eq)]
pub struct RunEnd {
    status: u8,
}

impl RunEnd {
    /// The status of the run.
    pub fn status(self) -> u8
        ensures { result ≡ self.status }
    {
        self.status
    }
}

impl Termination for RunEnd {
    /// The process ends with the status of the run.
    fn report<R: Eprint>(self, _rt: &R) -> ExitCode
        ensures { exit_status result ≡ self.status }
    {
        ExitCode::from(self.status)
    }
}

/// Runs the top call on these words, or tells why there are none.
pub fn ended<R: Threads + Sync>(
    threads: &R,
    rt: &HostRuntime,
    words: Result<Vec<String>, Halt>,
) -> RunEnd {
    match words {
        Ok(words) => run_borrowed(threads, rt, &words),
        Err(halt) => halted(rt, halt),
    }
}

/// The same where there are words.
fn run_borrowed<R: Threads + Sync>(threads: &R, rt: &HostRuntime, words: &[String]) -> RunEnd {
    let words: Result<Vec<&str>, AllocError> = words
        .iter()
        .map(|word| word.as_str())
        .collect(rt.alloc());
    match words {
        Ok(words) => run_on(threads, rt, &words),
        Err(AllocError) => halted(rt, Halt::NoMemory),
    }
}

/// Tells why there is no run.
fn halted(rt: &HostRuntime, halt: Halt) -> RunEnd {
    let status = tell(rt.alloc(), &mut HostSink::new(rt), Err(halt));
    RunEnd {
        status: status.code(),
    }
}

/// Runs the top call over the real objects, and ends the link that still stands behind it.
fn run_on<R: Threads + Sync>(threads: &R, rt: &HostRuntime, words: &[&str]) -> RunEnd
    ensures usage { result.status ≡ 2 → AreRefused (texts words.now) }
    ensures refused { AreRefused (texts words.now) → (result.status ≡ 2) ⊎ ((result.status ≡ 9) ⊎ (result.status ≡ 10)) }
{
    let mut files = HostFiles::new(rt);
    let mut out = HostSink::new(rt);
    let mut net = HostNet::new(rt);
    let mut disk = HostDisk::new(rt);
    let status = run(
        threads,
        rt.alloc(),
        words,
        &mut files,
        &mut out,
        &mut net,
        &mut disk,
    );
    net.end_link();
    RunEnd { status }
}
