// Opening a journal.
ghost use Rattle.std.specs.Prelude.{◌≡◌, ◌≤◌, ◌^◌, false, length, IfErr, IfOk};
ghost use Rattle.code_gen.specs.Programs.{program_in};
ghost use Rattle.mode_vm.specs.Meanings.{program_of};
ghost use Rattle.version_journal.specs.Gates.{ForTold};
ghost use Rattle.version_journal.specs.JournalCauses.{JournalCause};
ghost use Rattle.version_journal.specs.Openings.{IsFirst, IsOpening, MayNotOpen, OnlySynced, OpensTo, Refuses, Stands};

use crate::fault::{DiskCount, JournalFault};
use crate::journal::Journal;
use crate::marking::DigestingMarker;
use crate::parts::{next_record, read_head};
use crate::replaying::{ReplayFault, replay};
use crate::whole_file::{ReadStop, read_whole};
use code_gen::Code;
use core_terms::Hash32;
use images::{ImageFault, load_image};
use lam_outside::Disk;
use session_turns::Shared;
use std::alloc::Global;

/// What the bytes of a journal give: the versions and the commits, how many records there are, and the place of the closed gate behind them.
#[derive(Drop)]
pub struct Opening {
    pub shared: Shared,
    pub records: u32,
    pub gate: u64,
}

/// A journal, and the versions and commits that it keeps.
#[derive(Drop)]
pub struct Opened {
    pub journal: Journal,
    pub shared: Shared,
}

/// Opens the journal in the chosen file: syncs, reads the file, and makes each commit again. Nothing is written.
///
/// # Errors
///
/// The first fault of the journal, from left to right; `DiskFault` where a call of the disk failed; `NoMemory`.
pub fn open<H: Hash32, D: Disk>(
    alloc: Global,
    disk: &mut D,
    code: &Code,
) -> Result<Opened, JournalFault>
    ensures opens { let P = program_of code.now in let own = (program_in code.now).text_digest.0 in
        ForTold (D.moments disk.old) (D.moments disk.new) (λ old new. OpensTo H.hash P own new result) }
    ensures synced { ForTold (D.moments disk.old) (D.moments disk.new) (λ old new. OnlySynced old new result) }
    ensures stands { IfOk result (λ opened. Stands H.hash (program_of code.now) (program_in code.now).text_digest.0 opened) }
    ensures possible { IfErr result MayNotOpen }
    ensures few { IfOk result (λ opened. opened.journal.records ≤ 4095) }
    ensures whole { IfOk result (λ opened. opened.journal.failed ≡ false) }
    ensures cause { JournalCause (D.read_faults disk.old) (D.read_faults disk.new) (D.write_faults disk.old) (D.write_faults disk.new) result }
{
    disk.sync()?;
    let bytes = match read_whole(alloc, disk) {
        Ok(bytes) => bytes,
        Err(ReadStop::DiskFault) => return Err(JournalFault::DiskFault(DiskCount::Reads)),
        Err(ReadStop::NoMemory) => return Err(JournalFault::NoMemory),
    };
    let opening = read_journal::<H>(alloc, code, &bytes)?;
    Ok(standing(alloc, opening))
}

/// The journal that stands behind what was read, with that.
fn standing(alloc: Global, opening: Opening) -> Opened
    requires fits { opening.gate ≤ 2 ^ 63 }
    ensures shared { result.shared ≡ opening.shared }
    ensures gate { result.journal.gate ≡ opening.gate }
    ensures records { result.journal.records ≡ opening.records }
    ensures whole { result.journal.failed ≡ false }
{
    let Opening {
        shared,
        records,
        gate,
    } = opening;
    Opened {
        journal: Journal {
            alloc,
            gate,
            records,
            failed: false,
        },
        shared,
    }
}

/// What the bytes give, as a journal of the program: the versions and commits, how many records it has, and where the next one begins.
///
/// # Errors
///
/// The first fault of the journal, from left to right; `NoMemory`.
pub fn read_journal<H: Hash32>(
    alloc: Global,
    code: &Code,
    bytes: &[u8],
) -> Result<Opening, JournalFault>
    ensures opens { IsOpening H.hash (program_of code.now) (program_in code.now).text_digest.0 bytes.now result }
    ensures gate { IfOk result (λ opening. opening.gate ≤ length bytes.now) }
    ensures few { IfOk result (λ opening. opening.records ≤ 4095) }
{
    let size = bytes.len() as u64;
    let head = read_head(code.program().text_digest(), bytes)?;
    let mut shared = first_version::<H>(alloc, code, head.image)?;
    let mut rest = head.records;
    for number in 0..4_095 {
        let Some(front) = next_record(size, rest)? else {
            return Ok(Opening {
                shared,
                records: number,
                gate: size - rest.len() as u64,
            });
        };
        match replay::<H>(
            alloc,
            code,
            &mut shared,
            front.role,
            front.fuel,
            front.argument,
        ) {
            Ok(()) => {}
            Err(ReplayFault::NotMade) => return Err(JournalFault::BadRecord(number)),
            Err(ReplayFault::NoMemory) => return Err(JournalFault::NoMemory),
        }
        rest = front.rest;
    }
    match next_record(size, rest)? {
        None => Ok(Opening {
            shared,
            records: 4_095,
            gate: size - rest.len() as u64,
        }),
        Some(_) => Err(JournalFault::BadRecord(4_095)),
    }
}

/// The version that the image keeps, without commits.
fn first_version<H: Hash32>(
    alloc: Global,
    code: &Code,
    image: &[u8],
) -> Result<Shared, JournalFault>
    ensures { IsFirst H.hash (program_of code.now) (program_in code.now).text_digest.0 image.now result }
{
    let types = code.types();
    let mut marker = DigestingMarker::<H>::new(alloc, types)?;
    match load_image(
        alloc,
        types,
        code.program().text_digest(),
        &mut marker,
        image,
    ) {
        Ok(loaded) => Ok(Shared::new(alloc, loaded.store, loaded.root)?),
        Err(fault) => Err(image_refused(fault)),
    }
}

/// What a journal answers where loading its image has this fault.
fn image_refused(fault: ImageFault) -> JournalFault
    ensures { Refuses fault result }
{
    match fault {
        ImageFault::NoMemory => JournalFault::NoMemory,
        _ => JournalFault::Image(fault),
    }
}
