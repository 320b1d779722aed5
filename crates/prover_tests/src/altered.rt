// Proof files that are altered: the verdict and the audit tell the same, and read no more than they need.
use crate::stage::{Call, audited, code, file, proved, source, verdict};
use code_gen::Code;
use collision_audit::Audited;
use core_terms::Cause;
use digest_layer::Sha;
use std::alloc::{AllocError, Global};
use std::test::Fail;
use value_store::Store;
use verifier_mode::Verdict;

/// Four pieces, the first two of which are opened again.
const FOUR: Call = Call {
    role: "again",
    state: 2,
    argument: 4,
    fuel: 100,
};

/// What is altered.
#[derive(Clone, Copy)]
enum Change {
    /// The byte at this place becomes this one.
    Byte(usize, u8),
    /// So many bytes are left.
    Cut(usize),
    /// This byte comes behind the others.
    More(u8),
}

impl Change {
    fn alter(self, bytes: &mut Vec<u8>) -> Result<(), AllocError> {
        match self {
            Change::Byte(place, to) => {
                if let Some(byte) = bytes.get_mut(place) {
                    *byte = to;
                }
            }
            Change::Cut(len) => bytes.truncate(len),
            Change::More(byte) => bytes.push(byte)?,
        }
        Ok(())
    }
}

/// A cause in words, with the number of the piece.
fn told(alloc: Global, cause: Cause) -> Result<String, AllocError> {
    match cause {
        Cause::Header => String::from_str(alloc, "header"),
        Cause::Short(place) => format!(in alloc; "short {place}"),
        Cause::BadKind(place, kind) => format!(in alloc; "kind {place} {kind}"),
        Cause::Cut(place) => format!(in alloc; "cut {place}"),
        Cause::PieceLong(place, len) => format!(in alloc; "long {place} {len}"),
        Cause::BadUse(place, k, held) => format!(in alloc; "use {place} {k} {held}"),
        Cause::WrongPiece(place, _, _) => format!(in alloc; "wrong {place}"),
        Cause::BadPiece(place, offset) => format!(in alloc; "bad {place} {offset}"),
        Cause::Leftover(count) => format!(in alloc; "left {count}"),
    }
}

/// The cause for which both the verdict and the audit reject a proof of [`FOUR`], and how many bytes each leaves; none where they
/// differ in a field, or one of them doesn't reject it.
fn rejected(
    alloc: Global,
    code: &Code,
    bytes: &[u8],
    most: usize,
) -> Result<Option<(Cause, usize)>, AllocError> {
    let mut judged = source(alloc, bytes, most)?;
    let Err(Verdict::Rejected(cause)) = verdict::<Sha>(alloc, code, FOUR, &mut judged)? else {
        return Ok(None);
    };
    let mut store = Store::new(alloc, code.types().spelling_limit() as u32);
    let mut compared = source(alloc, bytes, most)?;
    let Ok(Audited::Rejected(other)) = audited::<Sha>(alloc, code, &mut store, FOUR, &mut compared)?
    else {
        return Ok(None);
    };
    if cause != other || judged.left() != compared.left() {
        return Ok(None);
    }
    Ok(Some((cause, compared.left())))
}

/// The proof file of [`FOUR`], which has 56 bytes: a header of 6, two frames of 22 with pieces of their own, and two of 3.
fn four(alloc: Global, code: &Code) -> Result<Vec<u8>, AllocError> {
    let mut store = Store::new(alloc, code.types().spelling_limit() as u32);
    let told = proved::<Sha>(alloc, code, &mut store, FOUR, 2)?;
    file(alloc, 2, &told.frames)
}

/// What is altered, the cause in words, and how many bytes are left.
type Row = (Change, &'static str, usize);

static ROWS: [Row; 15] = [
    (Change::Byte(0, b'X'), "header", 50),
    (Change::Byte(4, 8), "header", 50),
    (Change::Cut(5), "header", 0),
    (Change::Byte(6, 7), "kind 0 7", 49),
    (Change::Byte(7, 1), "long 0 16777233", 45),
    (Change::Byte(11, 1), "wrong 0", 28),
    (Change::Byte(27, b'f'), "wrong 0", 28),
    (Change::Byte(28, 1), "wrong 1", 25),
    (Change::Byte(49, 0), "wrong 1", 6),
    (Change::Byte(52, 0), "wrong 2", 3),
    (Change::Byte(52, 2), "use 2 2 2", 3),
    (Change::Cut(6), "short 0", 0),
    (Change::Cut(27), "cut 0", 0),
    (Change::Cut(53), "short 3", 0),
    (Change::More(0), "left 1", 0),
];

/// Whether an altered proof file is rejected as its row says, by so many bytes a read.
fn is_rejected(alloc: Global, code: &Code, row: Row, most: usize) -> Result<bool, AllocError> {
    let (change, cause, left) = row;
    let mut bytes = four(alloc, code)?;
    change.alter(&mut bytes)?;
    match rejected(alloc, code, &bytes, most)? {
        Some((why, rest)) => Ok(told(alloc, why)?.as_str() == cause && rest == left),
        None => Ok(false),
    }
}

#[test]
fn an_altered_proof_is_told_alike(rt: HostRuntime) -> Result<(), Fail> {
    let code = code(rt.alloc())?;
    for (number, row) in ROWS.iter().enumerate() {
        for most in [1, 2, 3, 7] {
            if !is_rejected(rt.alloc(), &code, *row, most)? {
                return Err(Fail::new(format_args!("{number} by {most}")));
            }
        }
    }
    Ok(())
}

/// A file whose first piece is false, with 100,000 bytes behind its frame.
fn false_and_long(alloc: Global, code: &Code) -> Result<Vec<u8>, AllocError> {
    let mut bytes = four(alloc, code)?;
    Change::Byte(11, 1).alter(&mut bytes)?;
    Change::Cut(28).alter(&mut bytes)?;
    let behind = Vec::from_elem(alloc, 0, 100_000)?;
    bytes.extend_from_slice(&behind)?;
    Ok(bytes)
}

#[test]
fn nothing_is_read_behind_a_false_piece(rt: HostRuntime) -> Result<(), Fail> {
    let code = code(rt.alloc())?;
    let bytes = false_and_long(rt.alloc(), &code)?;
    for most in [1, 7, 4096, 200_000] {
        match rejected(rt.alloc(), &code, &bytes, most)? {
            Some((Cause::WrongPiece(0, _, _), 100_000)) => {}
            _ => return Err(Fail::new(format_args!("by {most}"))),
        }
    }
    Ok(())
}
