// A disk that stops, for tests and trials.
ghost use Rattle.std.specs.Prelude.{◌≡◌, ◌≤◌, None};

use crate::HostDisk;
use lam_outside::{Disk, Failed};

/// The disk of the machine, which stops: after so many calls each one fails, and does nothing.
#[derive(Drop)]
pub struct StoppingDisk<'a> {
    disk: HostDisk<'a>,
    calls: u64,
    read_faults: u64,
    write_faults: u64,
}

impl<'a> StoppingDisk<'a> {
    /// No file is chosen, no call has failed, and so many are made.
    pub fn new(rt: &'a HostRuntime, calls: u64) -> Self
        ensures reads { result.read_faults ≡ 0 }
        ensures writes { result.write_faults ≡ 0 }
    {
        StoppingDisk {
            disk: HostDisk::new(rt),
            calls,
            read_faults: 0,
            write_faults: 0,
        }
    }

    /// Counts a call, and says whether it is made.
    fn goes(&mut self) -> bool
        ensures reads { self.new.read_faults ≡ self.old.read_faults }
        ensures writes { self.new.write_faults ≡ self.old.write_faults }
    {
        let goes = self.calls > 0;
        self.calls = self.calls.saturating_sub(1);
        goes
    }
}

impl Disk for StoppingDisk<'_> {
    ghost contents = { λ _. None };

    ghost moments = { λ _. None };

    ghost read_faults = { λ disk. disk.read_faults };

    ghost write_faults = { λ disk. disk.write_faults };

    fn choose(&mut self, name: &str) -> Result<(), Failed> {
        if self.goes() && self.disk.choose(name).is_ok() {
            return Ok(());
        }
        self.read_faults = self.read_faults.saturating_add(1);
        Err(Failed)
    }

    fn len(&mut self) -> Result<u64, Failed> {
        if self.goes()
            && let Ok(size) = self.disk.len()
        {
            return Ok(size);
        }
        self.read_faults = self.read_faults.saturating_add(1);
        Err(Failed)
    }

    fn read(&mut self, at: u64, into: &mut [u8]) -> Result<usize, Failed> {
        if self.goes()
            && let Ok(count) = self.disk.read(at, into)
        {
            return Ok(count);
        }
        self.read_faults = self.read_faults.saturating_add(1);
        Err(Failed)
    }

    fn write_at(&mut self, at: u64, bytes: &[u8]) -> Result<(), Failed> {
        if self.goes() && self.disk.write_at(at, bytes).is_ok() {
            return Ok(());
        }
        self.write_faults = self.write_faults.saturating_add(1);
        Err(Failed)
    }

    fn sync(&mut self) -> Result<(), Failed> {
        if self.goes() && self.disk.sync().is_ok() {
            return Ok(());
        }
        self.write_faults = self.write_faults.saturating_add(1);
        Err(Failed)
    }
}
