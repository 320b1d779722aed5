// What is tried.
ghost use Rattle.std.specs.Prelude.{◌≡◌, ◌<◌, IfOk, length};

use crate::trouble::Trouble;
use ads_library::texts::BST;
use auth_syntax::parser::parse;
use auth_types::check::check;
use code_gen::Code;
use core_terms::{Hash32, MOST_PROGRAM_BYTES, RoleId, Spelling};
use digest_layer::Sha;
use host_disk::{HostDisk, StoppingDisk};
use lam_outside::Disk;
use session_turns::Commit;
use std::alloc::{AllocError, Global};
use version_journal::{Journal, JournalFault, make, open};

/// The fuel of each put.
pub const FUEL: u64 = 1_000_000;

/// The number of `put` among the roles of the search tree.
pub const PUT: usize = 2;

/// The code of the library's search tree.
pub fn code(alloc: Global) -> Result<Code, AllocError> {
    if BST.len() > MOST_PROGRAM_BYTES {
        return Err(AllocError);
    }
    let Ok(ast) = parse(alloc, BST) else {
        return Err(AllocError);
    };
    match check(alloc, &ast, Sha::of(BST)) {
        Ok(program) => Code::generate(program, alloc),
        Err(_) => Err(AllocError),
    }
}

/// The image of an empty tree: a leaf, and what authenticates it.
fn image(alloc: Global) -> Result<Vec<u8>, AllocError> {
    let mut bytes = Vec::from_slice(alloc, b"LAI1")?;
    bytes.extend_from_slice(Sha::of(BST).as_bytes())?;
    bytes.extend_from_slice(b"\0\0\0\x02\x05\0\0\0\x06\0\0\0\0")?;
    Ok(bytes)
}

/// The disk of the machine, where this file is chosen.
fn chosen<'a>(rt: &'a HostRuntime, file: &str) -> Result<HostDisk<'a>, Trouble> {
    let mut disk = HostDisk::new(rt);
    match disk.choose(file) {
        Ok(()) => Ok(disk),
        Err(_) => Err(Trouble::Unchosen),
    }
}

/// Makes a journal of an empty tree.
pub fn make_empty(rt: &HostRuntime, file: &str) -> Result<(), Trouble> {
    let alloc = rt.alloc();
    let code = code(alloc)?;
    made(alloc, &mut chosen(rt, file)?, &code)?;
    Ok(())
}

/// A new journal of an empty tree, in the chosen file, which has no bytes.
pub fn made<D: Disk>(alloc: Global, disk: &mut D, code: &Code) -> Result<Journal, Trouble> {
    let image = image(alloc)?;
    if image.len() > 100 {
        return Err(Trouble::Outside);
    }
    Ok(make(alloc, disk, code, &image)?)
}

/// Opens a journal, and says what it holds.
pub fn open_file(rt: &HostRuntime, file: &str) -> Result<(), Trouble> {
    let alloc = rt.alloc();
    let code = code(alloc)?;
    let opened = open::<Sha, HostDisk<'_>>(alloc, &mut chosen(rt, file)?, &code)?;
    let versions = opened.shared.versions().len();
    let commits = opened.shared.commits().len();
    println!(rt; "versions {versions} commits {commits}")?;
    Ok(())
}

/// Appends puts of so many keys to a disk that stops after so many calls, and says of how many it was told.
pub fn append_puts(
    rt: &HostRuntime,
    file: &str,
    key: u64,
    count: u64,
    calls: u64,
) -> Result<(), Trouble> {
    let alloc = rt.alloc();
    let code = code(alloc)?;
    let mut journal = open::<Sha, HostDisk<'_>>(alloc, &mut chosen(rt, file)?, &code)?.journal;
    let mut disk = StoppingDisk::new(rt, calls.saturating_add(1));
    if disk.choose(file).is_err() {
        return Err(Trouble::Unchosen);
    }
    let told = appended(alloc, &mut journal, &mut disk, key, count)?;
    println!(rt; "told {told}")?;
    Ok(())
}

/// How many of so many puts of keys from this one on were appended, up to the first that failed.
pub fn appended<D: Disk>(
    alloc: Global,
    journal: &mut Journal,
    disk: &mut D,
    key: u64,
    count: u64,
) -> Result<u64, Trouble> {
    for told in 0..count {
        if journal.records() >= 4_095 {
            return Ok(told);
        }
        let commit = put(alloc, key.wrapping_add(told))?;
        match journal.append(disk, &commit) {
            Ok(()) => {}
            Err(JournalFault::DiskFault(_)) => return Ok(told),
            Err(fault) => return Err(Trouble::Journal(fault)),
        }
    }
    Ok(count)
}

/// The commit of a put of this key, with itself as the value.
fn put(alloc: Global, key: u64) -> Result<Commit, AllocError>
    ensures { IfOk result (λ commit. (commit.role.0 ≡ 2) × (length commit.argument < 100)) }
{
    let mut argument = Vec::from_slice(alloc, &key.to_be_bytes())?;
    argument.extend_from_slice(&key.to_be_bytes())?;
    Ok(Commit {
        role: RoleId(PUT),
        argument: Spelling::new(argument),
        fuel: FUEL,
    })
}
