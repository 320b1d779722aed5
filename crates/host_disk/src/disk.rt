// The real disk. It tells nothing of what it holds: this is the trusted edge.
ghost use Rattle.std.specs.Prelude.{◌≡◌, ◌≤◌, IfOk, None, length};

use lam_outside::{Disk, Failed};
use std::fs::{File, OpenOptions};
use std::io;
use std::os::unix::fs::FileExt;
use std::path::Path;

/// The files of the machine that are written in place, of which one is chosen.
#[derive(Drop)]
pub struct HostDisk<'a> {
    rt: &'a HostRuntime,
    chosen: Option<File>,
    read_faults: u64,
    write_faults: u64,
}

impl<'a> HostDisk<'a> {
    /// No file is chosen, and no call has failed.
    pub fn new(rt: &'a HostRuntime) -> Self
        ensures reads { result.read_faults ≡ 0 }
        ensures writes { result.write_faults ≡ 0 }
    {
        HostDisk {
            rt,
            chosen: None,
            read_faults: 0,
            write_faults: 0,
        }
    }
}

impl Disk for HostDisk<'_> {
    ghost contents = { λ _. None };

    ghost moments = { λ _. None };

    ghost read_faults = { λ disk. disk.read_faults };

    ghost write_faults = { λ disk. disk.write_faults };

    fn choose(&mut self, name: &str) -> Result<(), Failed> {
        match opened(self.rt, name) {
            Ok(file) => {
                self.chosen = Some(file);
                Ok(())
            }
            Err(_) => {
                self.read_faults = self.read_faults.saturating_add(1);
                Err(Failed)
            }
        }
    }

    fn len(&mut self) -> Result<u64, Failed> {
        match size(&self.chosen) {
            Ok(size) => Ok(size),
            Err(_) => {
                self.read_faults = self.read_faults.saturating_add(1);
                Err(Failed)
            }
        }
    }

    fn read(&mut self, at: u64, into: &mut [u8]) -> Result<usize, Failed> {
        match read_some(&self.chosen, at, into) {
            Ok(count) => Ok(count),
            Err(_) => {
                self.read_faults = self.read_faults.saturating_add(1);
                Err(Failed)
            }
        }
    }

    fn write_at(&mut self, at: u64, bytes: &[u8]) -> Result<(), Failed> {
        match write_all(&self.chosen, at, bytes) {
            Ok(()) => Ok(()),
            Err(_) => {
                self.write_faults = self.write_faults.saturating_add(1);
                Err(Failed)
            }
        }
    }

    fn sync(&mut self) -> Result<(), Failed> {
        match synced(&self.chosen) {
            Ok(()) => Ok(()),
            Err(_) => {
                self.write_faults = self.write_faults.saturating_add(1);
                Err(Failed)
            }
        }
    }
}

/// The file of this name, to be read and written in place. One that is missing is created. Its folder is synced, so that a crash leaves
/// the name.
fn opened(rt: &HostRuntime, name: &str) -> io::Result<File> {
    let file = OpenOptions::new()
        .read(true)
        .write(true)
        .create(true)
        .truncate(false)
        .open(rt, name)?;
    File::open(rt, folder(name))?.sync_all()?;
    Ok(file)
}

/// The folder in which the file of this name stands.
fn folder(name: &str) -> Path<'_> {
    match Path::new(name).parent() {
        Some(folder) if !folder.as_str().is_empty() => folder,
        _ => Path::new("."),
    }
}

fn file(chosen: &Option<File>) -> io::Result<&File> {
    match chosen {
        Some(file) => Ok(file),
        None => Err(io::ErrorKind::NotFound.into()),
    }
}

fn size(chosen: &Option<File>) -> io::Result<u64> {
    Ok(file(chosen)?.metadata()?.len())
}

fn read_some(chosen: &Option<File>, at: u64, into: &mut [u8]) -> io::Result<usize>
    ensures { IfOk result (λ n. n ≤ length into.new) }
{
    file(chosen)?.read_at(into, at)
}

fn write_all(chosen: &Option<File>, at: u64, bytes: &[u8]) -> io::Result<()> {
    file(chosen)?.write_all_at(bytes, at)
}

fn synced(chosen: &Option<File>) -> io::Result<()> {
    file(chosen)?.sync_data()
}

#[cfg(test)]
mod tests {
    use super::{HostDisk, folder};
    use lam_outside::Disk;
    use std::fs;
    use std::test::Fail;

    #[test]
    fn what_is_written_in_place_is_read(rt: HostRuntime) -> Result<(), Fail> {
        let name = "/tmp/lamauth_disk_of_a_test";
        let _ = fs::remove_file(&rt, name);
        let mut disk = HostDisk::new(&rt);
        assert!(rt; disk.choose(name).is_ok());
        assert!(rt; disk.len().is_ok_and(|size| size == 0));
        assert!(rt; disk.write_at(0, b"abcd").is_ok());
        assert!(rt; disk.sync().is_ok());
        assert!(rt; disk.write_at(2, b"xyz").is_ok());
        let mut bytes = [0; 8];
        assert!(rt; disk.read(1, &mut bytes).is_ok_and(|count| count == 4));
        assert_eq!(rt; &bytes[..4], b"bxyz".as_slice());
        assert!(rt; disk.len().is_ok_and(|size| size == 5));
        let _ = fs::remove_file(&rt, name);
        Ok(())
    }

    #[test]
    fn a_file_that_is_chosen_again_keeps_its_bytes(rt: HostRuntime) -> Result<(), Fail> {
        let name = "/tmp/lamauth_kept_by_a_test";
        let _ = fs::remove_file(&rt, name);
        let mut disk = HostDisk::new(&rt);
        assert!(rt; disk.choose(name).is_ok());
        assert!(rt; disk.write_at(0, b"abc").is_ok() && disk.sync().is_ok());
        let mut again = HostDisk::new(&rt);
        assert!(rt; again.choose(name).is_ok());
        assert!(rt; again.len().is_ok_and(|size| size == 3));
        let _ = fs::remove_file(&rt, name);
        Ok(())
    }

    #[test]
    fn a_call_that_fails_is_counted(rt: HostRuntime) -> Result<(), Fail> {
        let mut disk = HostDisk::new(&rt);
        assert!(rt; disk.len().is_err(), "no file is chosen");
        assert!(rt; disk.write_at(0, b"a").is_err() && disk.sync().is_err());
        assert!(rt; disk.read_faults == 1 && disk.write_faults == 2);
        assert!(rt; disk.choose("/no such folder/file").is_err());
        assert!(rt; disk.choose("/tmp").is_err(), "a folder is no file");
        assert!(rt; disk.read_faults == 3 && disk.write_faults == 2);
        Ok(())
    }

    #[test]
    fn the_folder_of_a_name_is_found(rt: HostRuntime) -> Result<(), Fail> {
        for (name, of) in [("/tmp/a", "/tmp"), ("a", "."), ("b/c", "b"), ("/a", "/")] {
            assert_eq!(rt; folder(name).as_str(), of);
        }
        Ok(())
    }
}
