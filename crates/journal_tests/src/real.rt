// Three appends to the disk of the machine, which stops after each of its calls, and its file opened again.

use crate::opening::opened;
use crate::plain::Reading;
use crate::stage::{ADDED, append, code, made};
use host_disk::{HostDisk, StoppingDisk};
use lam_outside::Disk;
use std::fs;
use std::test::Fail;

/// Makes a journal on a disk that stops after so many calls of three appends, and says how many of these answered Ok.
fn told(rt: &HostRuntime, name: &str, stop: u64) -> Result<u32, Fail> {
    let alloc = rt.alloc();
    let code = code(alloc)?;
    // choose, len, and the two calls of make come first
    let mut disk = StoppingDisk::new(rt, stop.saturating_add(4));
    if disk.choose(name).is_err() {
        return Err(Fail::new(format_args!("not chosen")));
    }
    let Ok(mut journal) = made(alloc, &mut disk, &code) else {
        return Err(Fail::new(format_args!("not made")));
    };
    let mut told = 0_u32;
    for int in ADDED {
        if append(alloc, &mut journal, &mut disk, int).is_ok() {
            told = told.saturating_add(1);
        }
    }
    Ok(told)
}

#[test]
fn the_file_of_a_disk_that_stopped_opens(rt: HostRuntime) -> Result<(), Fail> {
    let alloc = rt.alloc();
    let code = code(alloc)?;
    let name = "/tmp/lamauth_journal_of_a_test";
    for stop in 0..13 {
        let _ = fs::remove_file(&rt, name);
        let told = told(&rt, name, stop)?;
        assert_eq!(rt; u64::from(told), stop / 4);
        let mut disk = HostDisk::new(&rt);
        assert!(rt; disk.choose(name).is_ok());
        let Some(Reading::Holds { commits, .. }) = opened(alloc, &code, &mut disk)? else {
            return Err(Fail::new(format_args!("no journal after {stop}")));
        };
        // What was written is there, synced or not, where the machine goes on: with the third call of an append its gate is open.
        assert_eq!(rt; commits, (stop + 1) / 4);
    }
    let _ = fs::remove_file(&rt, name);
    Ok(())
}
