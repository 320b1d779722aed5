// Making a journal.
ghost use Rattle.std.specs.Prelude.{◌≡◌, ◌<◌, ◌≤◌, ◌^◌, ◌++◌, [], ◌∷◌, false, length, IfErr, IfOk};
ghost use Rattle.code_gen.specs.Programs.{program_in};
ghost use Rattle.core_terms.specs.Limits.{most_file_bytes};
ghost use Rattle.version_journal.specs.AtGates.{IsAt, Makes, MayNotMake};
ghost use Rattle.version_journal.specs.Gates.{ForTold};
ghost use Rattle.version_journal.specs.JournalCauses.{JournalCause};
ghost use Rattle.version_journal.specs.Journals.{journal_head};

use crate::fault::{DiskCount, JournalFault};
use crate::gates::write_through;
use crate::journal::{CLOSED, Journal};
use code_gen::Code;
use core_terms::Digest;
use lam_outside::{Disk, Failed};
use std::alloc::{AllocError, Global};

/// The bytes that a journal begins with.
pub(crate) const MAGIC: [u8; 4] = *b"LAJ1";

/// Makes a journal of an image of the program in the chosen file, which has no bytes.
///
/// # Errors
///
/// `NotEmpty` exactly where the file has bytes, which then stay as they are; `DiskFault` where a call of the disk failed; `NoMemory`.
pub fn make<D: Disk>(
    alloc: Global,
    disk: &mut D,
    code: &Code,
    image: &[u8],
) -> Result<Journal, JournalFault>
    requires fits { length image.now ≤ most_file_bytes }
    ensures makes { ForTold (D.moments disk.old) (D.moments disk.new) (λ old new. Makes (program_in code.now).text_digest.0 image.now old new result) }
    ensures at { IfOk result (λ journal. IsAt (program_in code.now).text_digest.0 image.now [] journal) }
    ensures whole { IfOk result (λ journal. journal.failed ≡ false) }
    ensures possible { IfErr result MayNotMake }
    ensures cause { JournalCause (D.read_faults disk.old) (D.read_faults disk.new) (D.write_faults disk.old) (D.write_faults disk.new) result }
{
    make_of(alloc, disk, code.program().text_digest(), image)
}

/// Makes a journal of an image of the program whose text has this digest.
fn make_of<D: Disk>(
    alloc: Global,
    disk: &mut D,
    digest: &Digest,
    image: &[u8],
) -> Result<Journal, JournalFault>
    requires fits { length image.now ≤ most_file_bytes }
    ensures makes { ForTold (D.moments disk.old) (D.moments disk.new) (λ old new. Makes digest.now.0 image.now old new result) }
    ensures at { IfOk result (λ journal. IsAt digest.now.0 image.now [] journal) }
    ensures whole { IfOk result (λ journal. journal.failed ≡ false) }
    ensures possible { IfErr result MayNotMake }
    ensures cause { JournalCause (D.read_faults disk.old) (D.read_faults disk.new) (D.write_faults disk.old) (D.write_faults disk.new) result }
{
    match disk.len() {
        Ok(0) => {}
        Ok(_) => return Err(JournalFault::NotEmpty),
        Err(Failed) => return Err(JournalFault::DiskFault(DiskCount::Reads)),
    }
    let bytes = first_bytes(alloc, digest, image)?;
    write_through(disk, 0, &bytes)?;
    Ok(Journal {
        alloc,
        gate: bytes.len() as u64 - 1,
        records: 0,
        failed: false,
    })
}

/// The bytes of a journal of this image without commits.
fn first_bytes(alloc: Global, digest: &Digest, image: &[u8]) -> Result<Vec<u8>, AllocError>
    requires fits { length image.now ≤ most_file_bytes }
    ensures bytes { IfOk result (λ bytes. bytes.items ≡ journal_head digest.now.0 image.now ++ 0 ∷ []) }
    ensures fits { IfOk result (λ bytes. (0 < length bytes.items) × (length bytes.items ≤ 2 ^ 32)) }
{
    let mut bytes = MAGIC.to_vec(alloc)?;
    bytes.extend_from_slice(digest.as_bytes())?;
    bytes.extend_from_slice(&(image.len() as u32).to_be_bytes())?;
    bytes.extend_from_slice(image)?;
    bytes.push(CLOSED)?;
    Ok(bytes)
}
