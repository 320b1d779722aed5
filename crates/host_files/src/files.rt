// The real files. They tell nothing of what they hold: this is the trusted edge.
ghost use Rattle.std.specs.Prelude.{◌≡◌, ℕ, None, refl};

use lam_outside::{Failed, Files, Source};
use read_ahead::ReadAhead;
use std::fs::{self, File};

/// The files of the machine. The one that is read is read ahead.
#[derive(Drop)]
pub struct HostFiles<'a> {
    rt: &'a HostRuntime,
    started: Option<File>,
    ahead: ReadAhead,
    read_faults: u64,
    store_faults: u64,
}

impl<'a> HostFiles<'a> {
    /// No file is started, and no call has failed.
    pub fn new(rt: &'a HostRuntime) -> Self
        ensures reads { result.read_faults ≡ 0 }
        ensures stores { result.store_faults ≡ 0 }
    {
        HostFiles {
            rt,
            started: None,
            ahead: ReadAhead::new(rt.alloc()),
            read_faults: 0,
            store_faults: 0,
        }
    }
}

impl Source for HostFiles<'_> {
    ghost given = { λ _. None };

    ghost left = { λ _. None };

    ghost sent = { λ _. None };

    ghost reads = { λ _. None };

    ghost faults = { λ files. files.read_faults };

    ghost Rest = { ℕ };

    ghost rest = { λ files. files.store_faults };

    fn read(&mut self, into: &mut [u8]) -> Result<usize, Failed> {
        let Some(file) = &mut self.started else {
            return Ok(0);
        };
        match self.ahead.read(file, into) {
            Ok(count) => Ok(count),
            Err(_) => {
                self.read_faults = self.read_faults.saturating_add(1);
                Err(Failed)
            }
        }
    }
}

impl Files for HostFiles<'_> {
    ghost contents = { λ _. None };

    ghost stores = { λ _. None };

    ghost store_faults = { λ files. files.store_faults };

    ghost rest_has_contents = { λ old new same. refl };

    ghost rest_has_stores = { λ old new same. refl };

    ghost rest_has_store_faults = { λ old new same. same };

    ghost asked = { λ _. None };

    ghost rest_has_asked = { λ old new same. refl };

    fn start(&mut self, name: &str) -> Result<(), Failed> {
        match fs::open(self.rt, name) {
            Ok(file) => {
                self.started = Some(file);
                self.ahead.clear();
                Ok(())
            }
            Err(_) => {
                self.read_faults = self.read_faults.saturating_add(1);
                Err(Failed)
            }
        }
    }

    fn store(&mut self, name: &str, bytes: &[u8]) -> Result<(), Failed> {
        match fs::write(self.rt, name, bytes) {
            Ok(()) => Ok(()),
            Err(_) => {
                self.store_faults = self.store_faults.saturating_add(1);
                Err(Failed)
            }
        }
    }
}

#[cfg(test)]
mod tests {
    use super::HostFiles;
    use lam_outside::{Failed, Files, Load, Source, load_all};
    use std::fs;
    use std::test::Fail;

    #[test]
    fn what_is_stored_is_read(rt: HostRuntime) -> Result<(), Fail> {
        let name = "/tmp/lamauth_stored_by_a_test";
        let mut files = HostFiles::new(&rt);
        assert!(rt; files.store(name, b"abc").is_ok());
        let loaded = load_all(rt.alloc(), &mut files, name, 3);
        assert!(rt; loaded.is_ok_and(|bytes| bytes.as_slice() == b"abc".as_slice()));
        let _ = fs::remove_file(&rt, name);
        assert!(rt; files.start(name) == Err(Failed));
        assert!(rt; files.store("/no such folder/file", b"abc") == Err(Failed));
        Ok(())
    }

    #[test]
    fn a_failed_read_is_no_end(rt: HostRuntime) -> Result<(), Fail> {
        let mut files = HostFiles::new(&rt);
        let mut into = [0; 4];
        assert!(rt; files.start("/tmp").is_ok(), "a folder can be opened");
        assert!(rt; files.read(&mut into) == Err(Failed), "and not be read");
        assert!(rt; files.read_faults == 1);
        assert!(rt;
            load_all(rt.alloc(), &mut files, "/tmp", 3).is_err_and(|load| load == Load::ReadFault)
        );
        Ok(())
    }

    #[test]
    fn reads_of_every_length_give_the_bytes_in_their_order(rt: HostRuntime) -> Result<(), Fail> {
        let name = "/tmp/lamauth_long_file_of_a_test";
        let mut text = Vec::new(rt.alloc());
        for k in 0..30_000_u32 {
            text.push((k % 251) as u8)?;
        }
        let mut files = HostFiles::new(&rt);
        assert!(rt; files.store(name, &text).is_ok() && files.start(name).is_ok());
        let mut read = Vec::new(rt.alloc());
        let mut into = [0; 10_000];
        for most in [1, 4, 8_187, 1, 9_000, 8_191, 100, 8_192, 10_000, 10_000] {
            let count = files.read(&mut into[..most]).unwrap_or(0);
            read.extend_from_slice(&into[..count.min(most)])?;
        }
        let _ = fs::remove_file(&rt, name);
        assert!(rt; read.as_slice() == text.as_slice());
        assert!(rt; files.read(&mut into) == Ok(0));
        assert!(rt; files.start("/dev/null").is_ok() && files.read(&mut into) == Ok(0));
        Ok(())
    }
}
