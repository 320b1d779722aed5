// A program, journals of it, and disks that hold them.
ghost use Rattle.std.specs.Prelude.{◌≡◌, ◌<◌, IfOk, length};

use auth_syntax::parser::parse;
use auth_types::check::check;
use code_gen::Code;
use core_terms::{Digest, Hash32, RoleId, Spelling};
use digest_layer::Sha;
use lam_outside::{Disk, MemDisk, MemFile, Plan};
use session_turns::Commit;
use std::alloc::{AllocError, Global};
use version_journal::{Journal, JournalFault, make};

/// An int, to which an update adds.
const TEXT: &[u8] =
    b"state auth int; init make(x: int): auth int = auth(x); query look(s: auth int, x: unit): int = unauth(s); update raise(s: auth int, x: int): (auth int, int) = let n = unauth(s) in (auth(add(n, x)), n);";

/// The first version.
pub const FIRST: i64 = 7;

/// What three commits add.
pub const ADDED: [i64; 3] = [1, 20, 300];

/// The fuel of each commit.
pub const FUEL: u64 = 100;

/// The name of the file.
pub const NAME: &str = "journal";

/// The code of the program.
pub fn code(alloc: Global) -> Result<Box<Code>, AllocError> {
    let Ok(ast) = parse(alloc, TEXT) else {
        return Err(AllocError);
    };
    match check(alloc, &ast, Sha::of(TEXT)) {
        Ok(program) => Ok(Box::new(alloc, Code::generate(program, alloc)?)?),
        Err(_) => Err(AllocError),
    }
}

/// The digest of the program's text.
pub fn digest() -> Digest {
    Sha::of(TEXT)
}

/// The image of an int: the int, and what authenticates it.
pub fn image(alloc: Global, int: i64) -> Result<Vec<u8>, AllocError> {
    let mut bytes = Vec::from_slice(alloc, b"LAI1")?;
    bytes.extend_from_slice(digest().as_bytes())?;
    bytes.extend_from_slice(b"\0\0\0\x02\x02")?;
    bytes.extend_from_slice(&int.to_be_bytes())?;
    bytes.extend_from_slice(b"\x06\0\0\0\0")?;
    Ok(bytes)
}

/// The commit of an update that adds.
pub fn commit(alloc: Global, added: i64) -> Result<Commit, AllocError>
    ensures { IfOk result (λ commit. (commit.role.0 ≡ 2) × (length commit.argument < 100)) }
{
    Ok(Commit {
        role: RoleId(2),
        argument: Spelling::new(Vec::from_slice(alloc, &added.to_be_bytes())?),
        fuel: FUEL,
    })
}

/// What stands before the first gate of a journal, byte by byte.
pub fn head(alloc: Global) -> Result<Vec<u8>, AllocError> {
    let mut bytes = Vec::from_slice(alloc, b"LAJ1")?;
    bytes.extend_from_slice(digest().as_bytes())?;
    bytes.extend_from_slice(&[0, 0, 0, 54])?;
    bytes.extend_from_slice(&image(alloc, FIRST)?)?;
    Ok(bytes)
}

/// Puts an open gate behind a journal, and the record of a commit that adds.
pub fn put_record(bytes: &mut Vec<u8>, added: i64) -> Result<(), AllocError> {
    bytes.extend_from_slice(&[1, 0, 2, 0, 0, 0, 0, 0, 0, 0, 100, 0, 0, 0, 8])?;
    bytes.extend_from_slice(&added.to_be_bytes())
}

/// A journal of commits that add so much, byte by byte.
pub fn journal_bytes(alloc: Global, added: &[i64]) -> Result<Vec<u8>, AllocError> {
    let mut bytes = head(alloc)?;
    for int in added {
        put_record(&mut bytes, *int)?;
    }
    bytes.push(0)?;
    Ok(bytes)
}

/// A disk on which the calls of these numbers fail, and whose file has these bytes. It is chosen, by the call with number 0.
pub fn disk(alloc: Global, bytes: &[u8], failing: Vec<u64>) -> Result<MemDisk, AllocError> {
    let mut files = Vec::new(alloc);
    files.push(MemFile {
        name: String::from_str(alloc, NAME)?,
        bytes: Vec::from_slice(alloc, bytes)?,
    })?;
    let mut disk = MemDisk::new(alloc, files, 50, Plan::new(failing));
    match disk.choose(NAME) {
        Ok(()) => Ok(disk),
        Err(_) => Err(AllocError),
    }
}

/// A disk of which no call fails.
pub fn sound_disk(alloc: Global, bytes: &[u8]) -> Result<MemDisk, AllocError> {
    disk(alloc, bytes, Vec::new(alloc))
}

/// The numbers from one to another.
pub fn calls(alloc: Global, from: u64, to: u64) -> Result<Vec<u64>, AllocError> {
    let mut numbers = Vec::new(alloc);
    for number in from..to {
        numbers.push(number)?;
    }
    Ok(numbers)
}

/// Makes a journal of the first version.
pub fn made<D: Disk>(alloc: Global, disk: &mut D, code: &Code) -> Result<Journal, JournalFault>
    ensures { IfOk result (λ journal. journal.records ≡ 0) }
{
    let image = image(alloc, FIRST)?;
    if image.len() > 100 {
        return Err(JournalFault::NoMemory);
    }
    make(alloc, disk, code, &image)
}

/// Appends the commit of an update that adds. A journal that is full fails.
pub fn append<D: Disk>(
    alloc: Global,
    journal: &mut Journal,
    disk: &mut D,
    added: i64,
) -> Result<(), JournalFault> {
    if journal.records() >= 4_095 {
        return Err(JournalFault::Failed);
    }
    let commit = commit(alloc, added)?;
    journal.append(disk, &commit)
}
