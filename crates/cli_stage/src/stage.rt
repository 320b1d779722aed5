// Files, a sink, a net and a disk in memory, and what lies in the files.
ghost use Rattle.std.specs.Prelude.{◌≡◌, ◌<◌, IfOk};
ghost use Rattle.lam_outside.specs.MemDisks.{disk_read_faults, disk_write_faults};
ghost use Rattle.lam_outside.specs.MemNets.{net_accept_faults, net_dial_faults, net_faults, net_listen_faults};
ghost use Rattle.lam_outside.specs.MemTold.{IsFresh, sink_faults};

use lam_outside::{MemDisk, MemFile, MemFiles, MemNet, MemSink, Plan};
use std::alloc::{AllocError, Global};

/// The SHA-256 digest of no bytes: the spelling of the state of `()`.
pub const STATE: [u8; 32] = [
    0xe3, 0xb0, 0xc4, 0x42, 0x98, 0xfc, 0x1c, 0x14, 0x9a, 0xfb, 0xf4, 0xc8, 0x99, 0x6f, 0xb9, 0x24,
    0x27, 0xae, 0x41, 0xe4, 0x64, 0x9b, 0x93, 0x4c, 0xa4, 0x95, 0x99, 0x1b, 0x78, 0x52, 0xb8, 0x55,
];

/// The proof that opens this state: one new piece of no bytes.
pub const PROOF: &[u8] = b"LAP1\0\0\0\0\0\0\0";

/// The proof that opens nothing.
pub const HEADER: &[u8] = b"LAP1\0\0";

/// What lies in the files `p`, `s` and `q`, and how much of them one read gives at most.
#[derive(Clone, Copy)]
pub struct Stage<'a> {
    pub program: &'a [u8],
    pub state: &'a [u8],
    pub proof: &'a [u8],
    pub most_read: usize,
}

pub fn staged<'a>(program: &'a [u8], state: &'a [u8], proof: &'a [u8]) -> Stage<'a>
    ensures { 0 < result.most_read }
{
    Stage {
        program,
        state,
        proof,
        most_read: 4096,
    }
}

/// Adds a file.
fn add(all: &mut Vec<MemFile>, alloc: Global, name: &str, bytes: &[u8]) -> Result<(), AllocError> {
    let file = MemFile {
        name: String::from_str(alloc, name)?,
        bytes: Vec::from_slice(alloc, bytes)?,
    };
    Ok(all.push(file)?)
}

/// The files, of which these calls fail.
pub fn files(alloc: Global, stage: &Stage, failing: &[u64]) -> Result<MemFiles, AllocError>
    requires { 0 < stage.now.most_read }
    ensures { IfOk result IsFresh }
{
    let plan = Plan::new(Vec::from_slice(alloc, failing)?);
    let mut all = Vec::new(alloc);
    add(&mut all, alloc, "p", stage.program)?;
    add(&mut all, alloc, "s", stage.state)?;
    add(&mut all, alloc, "q", stage.proof)?;
    Ok(MemFiles::new(alloc, all, stage.most_read, plan))
}

/// A sink that takes so many bytes a write, of which these calls fail.
pub fn sink(alloc: Global, most: usize, failing: &[u64]) -> Result<MemSink, AllocError>
    requires { 0 < most }
    ensures { IfOk result (λ sink. sink_faults sink ≡ 0) }
{
    Ok(MemSink::new(alloc, most, Plan::new(Vec::from_slice(alloc, failing)?)))
}

/// A net on whose n-th link the n-th of these bytes come, of which so many move at once, and of which these calls fail.
pub fn net(
    alloc: Global,
    peers: &[Vec<u8>],
    most: usize,
    failing: &[u64],
) -> Result<MemNet, AllocError>
    requires { 0 < most }
    ensures links { IfOk result (λ net. net_faults net ≡ 0) }
    ensures listens { IfOk result (λ net. net_listen_faults net ≡ 0) }
    ensures accepts { IfOk result (λ net. net_accept_faults net ≡ 0) }
    ensures dials { IfOk result (λ net. net_dial_faults net ≡ 0) }
{
    let plan = Plan::new(Vec::from_slice(alloc, failing)?);
    let mut all = Vec::new(alloc);
    for bytes in peers {
        all.push(Vec::from_slice(alloc, bytes)?)?;
    }
    Ok(MemNet::new(alloc, all, most, plan))
}

/// A disk with these bytes in the file `j`, where there are some, of which these calls fail.
pub fn disk(alloc: Global, journal: Option<&[u8]>, failing: &[u64]) -> Result<MemDisk, AllocError>
    ensures reads { IfOk result (λ disk. disk_read_faults disk ≡ 0) }
    ensures writes { IfOk result (λ disk. disk_write_faults disk ≡ 0) }
{
    let plan = Plan::new(Vec::from_slice(alloc, failing)?);
    let mut all = Vec::new(alloc);
    if let Some(bytes) = journal {
        add(&mut all, alloc, "j", bytes)?;
    }
    Ok(MemDisk::new(alloc, all, 4096, plan))
}
