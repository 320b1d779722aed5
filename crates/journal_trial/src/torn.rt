// Three torn bytes behind the closed gate of a journal with two commits, opened.

use crate::trial::{FUEL, PUT, appended, code, made};
use crate::trouble::Trouble;
use code_gen::Code;
use core_terms::Spelling;
use digest_layer::Sha;
use lam_outside::{Disk, MemDisk, MemFile, Plan};
use session_turns::{Commit, Shared};
use std::alloc::{AllocError, Global};
use version_journal::{JournalFault, open};

/// The name of the file.
const NAME: &str = "journal";

/// The key of the first put. That of the second is one more.
const KEY: u64 = 1;

/// How many values three bytes have.
const VALUES: u64 = 1 << 24;

/// What a file with torn bytes opens with.
#[derive(Clone, Copy)]
enum Found {
    /// The two commits, and the last version that they make.
    Kept,
    /// The two commits and one more.
    Grown,
    /// A fault, or other commits or versions.
    Other,
}

/// How many files were tried, and how they opened.
#[derive(Clone, Copy, Default)]
struct Tally {
    files: u64,
    kept: u64,
    grown: u64,
    other: u64,
}

impl Tally {
    fn count(&mut self, found: Found) {
        self.files = self.files.saturating_add(1);
        match found {
            Found::Kept => self.kept = self.kept.saturating_add(1),
            Found::Grown => self.grown = self.grown.saturating_add(1),
            Found::Other => self.other = self.other.saturating_add(1),
        }
    }
}

/// Tries the values of three bytes whose number is a multiple of `step`, and says how the files opened.
pub fn try_torn(rt: &HostRuntime, step: u64) -> Result<(), Trouble> {
    let alloc = rt.alloc();
    let code = code(alloc)?;
    let journal = two_puts(alloc, &code)?;
    let Tally {
        files,
        kept,
        grown,
        other,
    } = tally_of(alloc, &code, &journal, step)?;
    println!(rt; "files {files} kept {kept} grown {grown} other {other}")?;
    Ok(())
}

/// A journal of an empty tree with two puts, byte by byte. Its last byte is the closed gate.
fn two_puts(alloc: Global, code: &Code) -> Result<Vec<u8>, Trouble> {
    let mut disk = disk(alloc, b"")?;
    let mut journal = made(alloc, &mut disk, code)?;
    if appended(alloc, &mut journal, &mut disk, KEY, 2)? < 2 {
        return Err(Trouble::Outside);
    }
    Ok(Vec::from_slice(alloc, disk.bytes())?)
}

/// A disk in memory whose chosen file has these bytes.
fn disk(alloc: Global, bytes: &[u8]) -> Result<MemDisk, AllocError> {
    let mut files = Vec::new(alloc);
    files.push(MemFile {
        name: String::from_str(alloc, NAME)?,
        bytes: Vec::from_slice(alloc, bytes)?,
    })?;
    let mut disk = MemDisk::new(alloc, files, 4_096, Plan::new(Vec::new(alloc)));
    match disk.choose(NAME) {
        Ok(()) => Ok(disk),
        Err(_) => Err(AllocError),
    }
}

/// How the files open that have three bytes behind the journal.
fn tally_of(alloc: Global, code: &Code, journal: &[u8], step: u64) -> Result<Tally, AllocError> {
    let last = last_spelling(alloc, code, journal)?;
    let mut tally = Tally::default();
    for number in 0..VALUES {
        if number.is_multiple_of(step) {
            let [.., first, second, third] = number.to_be_bytes();
            let file = with_torn(alloc, journal, &[first, second, third])?;
            tally.count(found_in(alloc, code, &file, last.as_bytes())?);
        }
    }
    Ok(tally)
}

/// The spelling of the last version that the journal keeps.
fn last_spelling(alloc: Global, code: &Code, journal: &[u8]) -> Result<Spelling, AllocError> {
    match open::<Sha, MemDisk>(alloc, &mut disk(alloc, journal)?, code) {
        Ok(opened) => opened.shared.last_spelling::<Sha>(alloc, code),
        Err(_) => Err(AllocError),
    }
}

/// The journal with bytes behind it.
fn with_torn(alloc: Global, journal: &[u8], torn: &[u8]) -> Result<Vec<u8>, AllocError> {
    let mut file = Vec::from_slice(alloc, journal)?;
    file.extend_from_slice(torn)?;
    Ok(file)
}

/// What the file opens with, where the two puts leave a version with this spelling.
fn found_in(alloc: Global, code: &Code, file: &[u8], last: &[u8]) -> Result<Found, AllocError> {
    match open::<Sha, MemDisk>(alloc, &mut disk(alloc, file)?, code) {
        Ok(opened) => {
            let spelling = opened.shared.last_spelling::<Sha>(alloc, code)?;
            Ok(judged(&opened.shared, spelling.as_bytes() == last))
        }
        Err(JournalFault::NoMemory) => Err(AllocError),
        Err(_) => Ok(Found::Other),
    }
}

/// What was opened, where the last version is that of the two puts or another.
fn judged(shared: &Shared, is_last: bool) -> Found {
    let versions = shared.versions().len();
    match shared.commits() {
        [first, second] if are_puts(first, second) && versions == 3 && is_last => Found::Kept,
        [first, second, _] if are_puts(first, second) && versions == 4 => Found::Grown,
        _ => Found::Other,
    }
}

/// Whether these are the two puts.
fn are_puts(first: &Commit, second: &Commit) -> bool {
    is_put(first, KEY) && is_put(second, KEY + 1)
}

/// Whether the commit is the put of this key, with itself as the value.
fn is_put(commit: &Commit, key: u64) -> bool {
    let Some((first, value)) = commit.argument.as_bytes().split_first_chunk::<8>() else {
        return false;
    };
    let key = key.to_be_bytes();
    commit.role.0 == PUT && commit.fuel == FUEL && *first == key && value == key.as_slice()
}
