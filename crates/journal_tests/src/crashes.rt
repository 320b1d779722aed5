// Three appends to a disk in memory that stops after each of its calls, and each file that a crash may then leave.

use crate::pending::{Pending, left_by};
use crate::stage::{ADDED, append, calls, code, disk, made};
use crate::torn::Crash;
use code_gen::Code;
use lam_outside::MemDisk;
use std::alloc::{AllocError, Global};
use std::test::Fail;
use version_journal::next_record;

/// A disk that stopped: its file as it reads, what is pending of it, and how many of three appends answered Ok.
#[derive(Drop)]
struct Stopped {
    reads: Vec<u8>,
    left: Pending,
    told: usize,
}

/// A journal on a disk that stops after so many calls of three appends.
fn stopped_after(alloc: Global, code: &Code, stop: u64) -> Result<Stopped, AllocError> {
    // choose, len, and the two calls of make come first
    let mut disk = disk(alloc, b"", calls(alloc, stop.saturating_add(4), 40)?)?;
    let told = told(alloc, code, &mut disk)?;
    Ok(Stopped {
        reads: Vec::from_slice(alloc, disk.bytes())?,
        left: left_by(alloc, disk.calls())?,
        told,
    })
}

/// How many of three appends to a new journal answer Ok.
fn told(alloc: Global, code: &Code, disk: &mut MemDisk) -> Result<usize, AllocError> {
    let Ok(mut journal) = made(alloc, disk, code) else {
        return Err(AllocError);
    };
    let mut told = 0_usize;
    for int in ADDED {
        if append(alloc, &mut journal, disk, int).is_ok() {
            told = told.saturating_add(1);
        }
    }
    Ok(told)
}

#[test]
fn a_disk_that_stops_leaves_the_commits_that_were_told(rt: HostRuntime) -> Result<(), Fail> {
    let alloc = rt.alloc();
    let code = code(alloc)?;
    for stop in 0..13 {
        let stopped = stopped_after(alloc, &code, stop)?;
        assert_eq!(rt; stopped.told as u64, stop / 4);
        let crash = Crash::new(alloc, &code, &stopped.left, stopped.told);
        assert!(rt; crash.opens(&stopped.reads)?, "stopped after {stop}");
    }
    Ok(())
}

/// Whether the disk is left alike by this call, which fails, and by the one behind it.
fn is_left_alike(alloc: Global, code: &Code, stop: u64) -> Result<bool, AllocError> {
    let failed = stopped_after(alloc, code, stop)?.left;
    let made = stopped_after(alloc, code, stop.saturating_add(1))?.left;
    Ok(
        failed.synced.as_slice() == made.synced.as_slice()
            && failed.at == made.at
            && failed.written.as_slice() == made.written.as_slice(),
    )
}

/// So the tests below try each stop behind a call that was made, and none behind one that failed.
#[test]
fn a_write_that_fails_leaves_what_one_that_is_made_does(rt: HostRuntime) -> Result<(), Fail> {
    let alloc = rt.alloc();
    let code = code(alloc)?;
    for stop in [0, 2, 4, 6, 8, 10] {
        assert!(rt; is_left_alike(alloc, &code, stop)?, "stopped after {stop}");
    }
    Ok(())
}

/// Of the record and the gate behind it as of the gate that is opened then.
#[test]
fn a_torn_byte_makes_no_other_commit(rt: HostRuntime) -> Result<(), Fail> {
    let alloc = rt.alloc();
    let code = code(alloc)?;
    for (stop, size) in [(1, 23), (3, 1), (5, 23), (7, 1), (9, 23), (11, 1), (12, 0)] {
        let stopped = stopped_after(alloc, &code, stop)?;
        assert_eq!(rt; stopped.left.written.len(), size);
        let crash = Crash::new(alloc, &code, &stopped.left, stopped.told);
        assert!(rt; crash.keeps_fronts()?, "stopped after {stop}");
    }
    Ok(())
}

#[test]
fn two_or_three_torn_bytes_make_no_commit(rt: HostRuntime) -> Result<(), Fail> {
    let alloc = rt.alloc();
    let code = code(alloc)?;
    for stop in [1, 5, 9] {
        let stopped = stopped_after(alloc, &code, stop)?;
        let crash = Crash::new(alloc, &code, &stopped.left, stopped.told);
        assert!(rt; crash.keeps_few()?, "stopped after {stop}");
    }
    Ok(())
}

/// The same of all that three bytes can be, by the reading of what stands from the closed gate on.
#[test]
fn no_three_bytes_behind_a_closed_gate_are_a_record(rt: HostRuntime) -> Result<(), Fail> {
    for number in 0..=0xff_ff_ff_u32 {
        let [_, first, second, third] = number.to_be_bytes();
        assert!(rt;
            matches!(next_record(4, &[0, first, second, third]), Ok(None)),
            "{number:06x}"
        );
    }
    Ok(())
}
