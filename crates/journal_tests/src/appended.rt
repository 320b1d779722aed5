// Journals that are made and appended to.

use crate::opening::{found, opened};
use crate::plain::holding;
use crate::stage::{ADDED, append, calls, code, commit, disk, journal_bytes, made, sound_disk};
use code_gen::Code;
use lam_outside::{Disk, MemDisk};
use std::alloc::{AllocError, Global};
use std::test::Fail;
use version_journal::{DiskCount, Journal, JournalFault, append_all};

/// Whether the disk has, byte by byte, the journal of commits that add so much.
fn has_added(alloc: Global, disk: &MemDisk, added: &[i64]) -> Result<bool, AllocError> {
    Ok(disk.bytes() == journal_bytes(alloc, added)?.as_slice())
}

/// Whether the commits are appended one by one, each behind those before it.
fn are_appended(
    alloc: Global,
    journal: &mut Journal,
    disk: &mut MemDisk,
) -> Result<bool, AllocError> {
    for count in 0..3 {
        let stands = has_added(alloc, disk, &ADDED[..count])?;
        let is_appended = append(alloc, journal, disk, ADDED[count]).is_ok();
        if !stands || !is_appended || journal.records() as usize != count + 1 {
            return Ok(false);
        }
    }
    has_added(alloc, disk, &ADDED)
}

/// The same of a journal that is made on this disk.
fn are_appended_to_one(alloc: Global, code: &Code, disk: &mut MemDisk) -> Result<bool, AllocError> {
    match made(alloc, disk, code) {
        Ok(mut journal) => are_appended(alloc, &mut journal, disk),
        Err(_) => Ok(false),
    }
}

#[test]
fn what_is_appended_stands_byte_by_byte(rt: HostRuntime) -> Result<(), Fail> {
    let alloc = rt.alloc();
    let code = code(alloc)?;
    let mut disk = sound_disk(alloc, b"")?;
    assert!(rt; are_appended_to_one(alloc, &code, &mut disk)?);
    assert_eq!(rt; disk.calls().len(), 14);
    assert!(rt; found(alloc, &code, disk.bytes())? == Some(holding(&ADDED)));
    Ok(())
}

#[test]
fn a_file_with_bytes_stays(rt: HostRuntime) -> Result<(), Fail> {
    let alloc = rt.alloc();
    let code = code(alloc)?;
    let mut disk = sound_disk(alloc, b"x")?;
    assert!(rt; matches!(made(alloc, &mut disk, &code), Err(JournalFault::NotEmpty)));
    assert!(rt; disk.bytes() == b"x".as_slice() && disk.calls().is_empty());
    Ok(())
}

/// Whether two commits are appended at once to a journal that is made on this disk.
fn are_both_appended(alloc: Global, code: &Code, disk: &mut MemDisk) -> Result<bool, AllocError> {
    let commits = [commit(alloc, 1)?, commit(alloc, 20)?];
    match made(alloc, disk, code) {
        Ok(mut journal) => Ok(append_all(&mut journal, disk, &commits).is_ok()),
        Err(_) => Ok(false),
    }
}

#[test]
fn commits_are_appended_one_after_another(rt: HostRuntime) -> Result<(), Fail> {
    let alloc = rt.alloc();
    let code = code(alloc)?;
    let mut disk = sound_disk(alloc, b"")?;
    assert!(rt; are_both_appended(alloc, &code, &mut disk)?);
    assert!(rt; has_added(alloc, &disk, &ADDED[..2])?);
    Ok(())
}

#[test]
fn a_journal_that_failed_makes_no_call(rt: HostRuntime) -> Result<(), Fail> {
    let alloc = rt.alloc();
    let code = code(alloc)?;
    // choose, len, and the two calls of make come first
    let mut disk = disk(alloc, b"", calls(alloc, 4, 5)?)?;
    let Ok(mut journal) = made(alloc, &mut disk, &code) else {
        return Err(Fail::new(format_args!("not made")));
    };
    let failed = append(alloc, &mut journal, &mut disk, 1);
    assert!(rt; matches!(failed, Err(JournalFault::DiskFault(DiskCount::Writes))));
    let before = disk.calls().len();
    let again = append(alloc, &mut journal, &mut disk, 1);
    assert!(rt; matches!(again, Err(JournalFault::Failed)));
    assert_eq!(rt; disk.calls().len(), before);
    Ok(())
}

/// A disk whose file has these bytes, of which the calls from this number on fail.
fn failing_from(alloc: Global, bytes: &[u8], call: u64) -> Result<MemDisk, AllocError> {
    disk(alloc, bytes, calls(alloc, call, 9)?)
}

/// Whether no journal is made on a disk of which the calls from this number on fail.
fn fails_to_make(alloc: Global, code: &Code, call: u64) -> Result<bool, AllocError> {
    let mut failing = failing_from(alloc, b"", call)?;
    let result = made(alloc, &mut failing, code);
    Ok(matches!(result, Err(JournalFault::DiskFault(_))))
}

/// Whether a disk that has these bytes, and of which the calls from this number on fail, tells nothing of them.
fn fails_to_open(alloc: Global, code: &Code, bytes: &[u8], call: u64) -> Result<bool, AllocError> {
    let mut failing = failing_from(alloc, bytes, call)?;
    let reading = opened(alloc, code, &mut failing)?;
    Ok(reading == None && failing.sync().is_err())
}

#[test]
fn each_failing_call_of_make_is_told(rt: HostRuntime) -> Result<(), Fail> {
    let alloc = rt.alloc();
    let code = code(alloc)?;
    for call in 1..4 {
        assert!(rt; fails_to_make(alloc, &code, call)?, "call {call}");
    }
    Ok(())
}

#[test]
fn each_failing_call_of_open_is_told(rt: HostRuntime) -> Result<(), Fail> {
    let alloc = rt.alloc();
    let code = code(alloc)?;
    let bytes = journal_bytes(alloc, &ADDED)?;
    for call in 1..6 {
        assert!(rt; fails_to_open(alloc, &code, &bytes, call)?, "call {call}");
    }
    Ok(())
}
