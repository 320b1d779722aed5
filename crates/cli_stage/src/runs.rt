// Runs over files, a sink, a net and a disk in memory.
ghost use Rattle.std.specs.Prelude.{◌<◌, ◌-◌, ◌^◌};

use crate::stage::{Stage, disk, files, net, sink, staged};
use crate::waiting::{Turn, WaitingNet};
use auth_cli::run;
use lam_outside::{Disk, MemFiles, MemSink, Net};
use std::alloc::{AllocError, Global};
use std::thread::Threads;

/// What a run told, how many files it stored, and the name and the bytes of the last one.
#[derive(Drop)]
pub struct Run {
    pub status: u8,
    pub text: Vec<u8>,
    pub stored: usize,
    pub name: String,
    pub file: Vec<u8>,
}

impl Run {
    /// The run ended with this status, and wrote this text.
    pub fn tells(&self, status: u8, text: &str) -> bool {
        self.status == status && self.text.as_slice() == text.as_bytes()
    }

    /// So it did, and it stored nothing.
    pub fn only_tells(&self, status: u8, text: &str) -> bool {
        self.tells(status, text) && self.stored == 0
    }

    /// It ended and wrote so, and stored a file `o` of these bytes alone.
    pub fn stores(&self, status: u8, text: &str, file: &[u8]) -> bool {
        self.tells(status, text)
            && self.stored == 1
            && self.name.as_str() == "o"
            && self.file.as_slice() == file
    }
}

/// The program's name, and these words behind it.
fn with_name<'a>(alloc: Global, words: &[&'a str]) -> Result<Vec<&'a str>, AllocError> {
    let mut all = Vec::new(alloc);
    all.push("lamauth")?;
    all.extend_from_slice(words)?;
    Ok(all)
}

/// What a run with this status told and stored.
fn told(alloc: Global, status: u8, files: &MemFiles, out: &MemSink) -> Result<Run, AllocError> {
    let text = out.bytes().to_vec(alloc)?;
    let (name, file) = match files.stored().last() {
        Some(stored) => (stored.name.as_str(), stored.bytes.as_slice()),
        None => ("", b"".as_slice()),
    };
    Ok(Run {
        status,
        text,
        stored: files.stored().len(),
        name: String::from_str(alloc, name)?,
        file: file.to_vec(alloc)?,
    })
}

/// How many bytes a write takes at most, and which writes fail.
pub type Writes<'a> = (usize, &'a [u64]);

/// Runs these words behind the program's name, where these calls of the files fail.
pub fn run_failing<R: Threads + Sync>(
    rt: &R,
    alloc: Global,
    stage: &Stage,
    words: &[&str],
    failing: &[u64],
    writes: Writes,
) -> Result<Run, AllocError>
    requires read { 0 < stage.now.most_read }
    requires written { 0 < writes.0 }
{
    let mut net = net(alloc, &[], 1, &[])?;
    run_over(rt, alloc, stage, words, &mut net, failing, writes)
}

/// What comes on the links of a net, how much of it moves at once, and which calls of the net fail.
#[derive(Clone, Copy)]
pub struct Peers<'a> {
    pub bytes: &'a [Vec<u8>],
    pub most: usize,
    pub failing: &'a [u64],
}

/// Runs these words behind the program's name over a net, where these calls of the files fail; and what was sent on its last link.
pub fn run_on_net<R: Threads + Sync>(
    rt: &R,
    alloc: Global,
    stage: &Stage,
    words: &[&str],
    peers: &Peers,
    failing: &[u64],
    writes: Writes,
) -> Result<(Run, Vec<u8>), AllocError>
    requires read { 0 < stage.now.most_read }
    requires written { 0 < writes.0 }
    requires moved { 0 < peers.now.most }
{
    let mut net = net(alloc, peers.bytes, peers.most, peers.failing)?;
    let run = run_over(rt, alloc, stage, words, &mut net, failing, writes)?;
    Ok((run, net.sent().to_vec(alloc)?))
}

/// Runs these words behind the program's name over a net with a peer that takes these turns; and what was sent to it.
pub fn run_waiting<R: Threads + Sync>(
    rt: &R,
    alloc: Global,
    stage: &Stage,
    words: &[&str],
    turns: &[Turn],
) -> Result<(Run, Vec<u8>), AllocError>
    requires { 0 < stage.now.most_read }
{
    let mut net = WaitingNet::new(alloc, turns);
    let run = run_over(rt, alloc, stage, words, &mut net, &[], (100, &[]))?;
    Ok((run, net.sent().to_vec(alloc)?))
}

/// Runs these words behind the program's name over a net and a disk; and what was sent on the net's last link.
pub fn run_hosting<R: Threads + Sync, D: Disk>(
    rt: &R,
    alloc: Global,
    stage: &Stage,
    words: &[&str],
    peers: &Peers,
    disk: &mut D,
    writes: Writes,
) -> Result<(Run, Vec<u8>), AllocError>
    requires read { 0 < stage.now.most_read }
    requires written { 0 < writes.0 }
    requires moved { 0 < peers.now.most }
    requires disk_reads { D.read_faults disk.old < 2 ^ 64 - 1 }
    requires disk_writes { D.write_faults disk.old < 2 ^ 64 - 1 }
{
    let mut net = net(alloc, peers.bytes, peers.most, peers.failing)?;
    let run = run_all(rt, alloc, stage, words, &mut net, disk, &[], writes)?;
    Ok((run, net.sent().to_vec(alloc)?))
}

/// Runs these words behind the program's name over a disk, where these calls of the files fail.
pub fn run_on_disk<R: Threads + Sync, D: Disk>(
    rt: &R,
    alloc: Global,
    stage: &Stage,
    words: &[&str],
    disk: &mut D,
    failing: &[u64],
    writes: Writes,
) -> Result<Run, AllocError>
    requires read { 0 < stage.now.most_read }
    requires written { 0 < writes.0 }
    requires disk_reads { D.read_faults disk.old < 2 ^ 64 - 1 }
    requires disk_writes { D.write_faults disk.old < 2 ^ 64 - 1 }
{
    let mut net = net(alloc, &[], 1, &[])?;
    run_all(rt, alloc, stage, words, &mut net, disk, failing, writes)
}

/// The same over this net, and a disk without files.
fn run_over<R: Threads + Sync, N: Net>(
    rt: &R,
    alloc: Global,
    stage: &Stage,
    words: &[&str],
    net: &mut N,
    failing: &[u64],
    writes: Writes,
) -> Result<Run, AllocError>
    requires read { 0 < stage.now.most_read }
    requires written { 0 < writes.0 }
    requires links { N.faults net.old < 2 ^ 64 - 1 }
    requires listens { N.listen_faults net.old < 2 ^ 64 - 1 }
    requires accepts { N.accept_faults net.old < 2 ^ 64 - 1 }
    requires dials { N.dial_faults net.old < 2 ^ 64 - 1 }
{
    let mut disk = disk(alloc, None, &[])?;
    run_all(rt, alloc, stage, words, net, &mut disk, failing, writes)
}

/// The same over this net and this disk.
fn run_all<R: Threads + Sync, N: Net, D: Disk>(
    rt: &R,
    alloc: Global,
    stage: &Stage,
    words: &[&str],
    net: &mut N,
    disk: &mut D,
    failing: &[u64],
    writes: Writes,
) -> Result<Run, AllocError>
    requires read { 0 < stage.now.most_read }
    requires written { 0 < writes.0 }
    requires links { N.faults net.old < 2 ^ 64 - 1 }
    requires listens { N.listen_faults net.old < 2 ^ 64 - 1 }
    requires accepts { N.accept_faults net.old < 2 ^ 64 - 1 }
    requires dials { N.dial_faults net.old < 2 ^ 64 - 1 }
    requires disk_reads { D.read_faults disk.old < 2 ^ 64 - 1 }
    requires disk_writes { D.write_faults disk.old < 2 ^ 64 - 1 }
{
    let (most, failing_writes) = writes;
    let words = with_name(alloc, words)?;
    let mut out = sink(alloc, most, failing_writes)?;
    let mut files = files(alloc, stage, failing)?;
    let status = run(rt, alloc, &words, &mut files, &mut out, net, disk);
    told(alloc, status, &files, &out)
}

/// Runs these words behind the program's name.
pub fn run_words<R: Threads + Sync>(
    rt: &R,
    alloc: Global,
    stage: &Stage,
    words: &[&str],
) -> Result<Run, AllocError>
    requires { 0 < stage.now.most_read }
{
    run_failing(rt, alloc, stage, words, &[], (100, &[]))
}

/// Runs `check` of a program.
pub fn check<R: Threads + Sync>(rt: &R, alloc: Global, program: &[u8]) -> Result<Run, AllocError> {
    run_words(rt, alloc, &staged(program, &[], &[]), &["check", "p"])
}

/// Runs a role of `init` on a literal.
pub fn made<R: Threads + Sync>(
    rt: &R,
    alloc: Global,
    program: &[u8],
    role: &str,
    literal: &str,
) -> Result<Run, AllocError> {
    let words = ["init", "p", role, literal, "1000", "o"];
    run_words(rt, alloc, &staged(program, &[], &[]), &words)
}

/// Runs `shallow` on an image.
pub fn kept<R: Threads + Sync>(
    rt: &R,
    alloc: Global,
    program: &[u8],
    image: &[u8],
) -> Result<Run, AllocError> {
    let words = ["shallow", "p", "q", "o"];
    run_words(rt, alloc, &staged(program, &[], image), &words)
}

/// The words of a call.
#[derive(Clone, Copy)]
pub struct Call<'a> {
    pub role: &'a str,
    pub argument: &'a str,
    pub fuel: &'a str,
}

/// The call of the role `open` with the argument `()`, with this much fuel.
pub fn opening(fuel: &str) -> Call<'_> {
    Call {
        role: "open",
        argument: "()",
        fuel,
    }
}

/// Runs `prove` of a call on an image, where so many pieces are kept.
pub fn proved<R: Threads + Sync>(
    rt: &R,
    alloc: Global,
    program: &[u8],
    image: &[u8],
    call: &Call,
    number: &str,
) -> Result<Run, AllocError> {
    let words = [
        "prove",
        "p",
        call.role,
        "q",
        call.argument,
        call.fuel,
        number,
        "o",
    ];
    run_words(rt, alloc, &staged(program, &[], image), &words)
}

/// Runs `verify` of a proof of a call.
pub fn verified<R: Threads + Sync>(
    rt: &R,
    alloc: Global,
    program: &[u8],
    state: &[u8],
    proof: &[u8],
    call: &Call,
) -> Result<Run, AllocError> {
    let words = ["verify", "p", call.role, "s", call.argument, call.fuel, "q"];
    run_words(rt, alloc, &staged(program, state, proof), &words)
}
