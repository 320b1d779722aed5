// What each command does where a call of the files or of the output fails.
ghost use Rattle.std.specs.Prelude.{◌<◌};

use crate::sides::{Sides, made_sides};
use cli_stage::runs::{Run, Writes, run_failing};
use cli_stage::stage::{PROOF, Stage};
use program_texts::{FIRST, SWITCH};
use std::alloc::{AllocError, Global};
use std::test::Fail;
use std::thread::Threads;

/// The mirror of a unit's piece.
const MIRROR: &[u8] = b"LAM1\0\0\0\x01\0\0\0\0";

/// The proof of one new piece, the byte 1, and that of the same piece twice.
const ONE: &[u8] = b"LAP1\0\0\0\0\0\0\x01\x01";

const TWICE: &[u8] = b"LAP1\0\0\0\0\0\0\x01\x01\0\0\0\0\x01\x01";

/// A program, and the literal of a state of it.
type Made = (&'static [u8], &'static str);

const UNIT: Made = (FIRST, "()");

const BOOL: Made = (SWITCH, "true");

/// A state; the words of a command, and a proof or a mirror where it judges a call by one; how much one read gives at most, how many calls
/// of the files read them, and whether a call behind these stores one.
///
/// Of a program, an image, a state and a mirror there are a start, a read of all and a read at the end; of a proof a start, and reads of the
/// header, of each frame's kind, of its length and of its piece, and at the end.
type Row = (Made, &'static str, &'static [u8], [u64; 2], bool);

static ROWS: [Row; 15] = [
    (UNIT, "check p", b"", [4096, 3], false),
    (BOOL, "init p make true 1 o", b"", [4096, 3], true),
    (BOOL, "ideal p over q () 1", b"", [4096, 6], false),
    (BOOL, "step p flip q () 1 o", b"", [4096, 6], true),
    (UNIT, "shallow p q o", b"", [4096, 6], true),
    (BOOL, "prove p both q () 1 0 o", b"", [4096, 6], true),
    (BOOL, "prove p both q () 1 1 o", b"", [4096, 6], true),
    (BOOL, "prove p flip q () 0 0 o", b"", [4096, 6], true),
    (UNIT, "verify p open s () 1 q", PROOF, [4096, 11], false),
    (UNIT, "verify p open s () 1 q", PROOF, [1, 160], false),
    (BOOL, "verify p both s () 1 q", TWICE, [4096, 15], false),
    (BOOL, "verify p flip s () 1 q o", ONE, [4096, 12], true),
    (BOOL, "audit p flip s () 1 q", ONE, [4096, 12], false),
    (UNIT, "pieces p q o", b"", [4096, 6], true),
    (UNIT, "fetch p open s () 1 q", MIRROR, [4096, 9], false),
];

/// What both sides have of the state of a row.
fn sides_of_row<R: Threads + Sync>(
    rt: &R,
    alloc: Global,
    row: &Row,
) -> Result<Sides<'static>, AllocError> {
    let (program, literal) = row.0;
    made_sides(rt, alloc, program, "make", literal)
}

/// A run of a row's words, where these calls of the files fail, and these writes, of so many bytes each.
fn run_row<R: Threads + Sync>(
    rt: &R,
    alloc: Global,
    row: &Row,
    sides: &Sides,
    failing: &[u64],
    writes: Writes,
) -> Result<Run, AllocError>
    requires { 0 < writes.0 }
{
    let words: Vec<&str> = row.1.split(' ').collect(alloc)?;
    run_failing(rt, alloc, &stage_of(row, sides), &words, failing, writes)
}

/// The files of a command: beside a proof or a mirror what a client keeps, or what the owner has, else the image alone.
fn stage_of<'a>(row: &Row, sides: &'a Sides) -> Stage<'a>
    ensures { 0 < result.most_read }
{
    let (_, words, proof, [most_read, _], _) = *row;
    let most_read = (most_read as usize).max(1);
    let (state, proof) = if words.starts_with("verify") || words.starts_with("fetch") {
        (sides.state.as_slice(), proof)
    } else if words.starts_with("audit") {
        (sides.image.as_slice(), proof)
    } else {
        (b"".as_slice(), sides.image.as_slice())
    };
    Stage {
        program: sides.program,
        state,
        proof,
        most_read,
    }
}

/// Whether a run ends as it has to where this call of the files fails, or, behind the last one, as it does where none fails.
fn ends_as_due(row: &Row, call: u64, run: &Run, whole: &Run) -> bool {
    let (_, _, _, [_, reads], is_stored) = *row;
    if call < reads {
        run.only_tells(8, "read fault\n")
    } else if call == reads && is_stored {
        run.tells(9, "")
    } else {
        run.status == whole.status && run.text.as_slice() == whole.text.as_slice()
    }
}

/// Whether a run in which this call of the files fails ends as it has to.
fn is_read_as_due<R: Threads + Sync>(
    rt: &R,
    alloc: Global,
    row: &Row,
    sides: &Sides,
    call: u64,
    whole: &Run,
) -> Result<bool, AllocError> {
    let run = run_row(rt, alloc, row, sides, &[call], (100, &[]))?;
    Ok(ends_as_due(row, call, &run, whole))
}

/// The number of the first call of the files, from 0, whose failure is told otherwise, beside a run in which none fails.
fn first_misread<R: Threads + Sync>(
    rt: &R,
    alloc: Global,
    row: &Row,
    sides: &Sides,
    whole: &Run,
) -> Result<Option<u64>, AllocError> {
    for call in 0..row.3[1].saturating_add(2) {
        if !is_read_as_due(rt, alloc, row, sides, call, whole)? {
            return Ok(Some(call));
        }
    }
    Ok(None)
}

/// The number of the first call of the files, from 0, whose failure is told otherwise.
fn misread<R: Threads + Sync>(rt: &R, alloc: Global, row: &Row) -> Result<Option<u64>, AllocError> {
    let sides = sides_of_row(rt, alloc, row)?;
    let whole = run_row(rt, alloc, row, &sides, &[], (100, &[]))?;
    first_misread(rt, alloc, row, &sides, &whole)
}

#[test]
fn each_call_of_the_files_fails_once(rt: HostRuntime) -> Result<(), Fail> {
    for (number, row) in ROWS.iter().enumerate() {
        if let Some(call) = misread(&rt, rt.alloc(), row)? {
            return Err(Fail::new(format_args!("row {number} at call {call}")));
        }
    }
    Ok(())
}

/// Whether a run in which this write fails, and each takes so many bytes, ends with what the writes before it took; what is stored is
/// stored before.
fn is_written_as_due<R: Threads + Sync>(
    rt: &R,
    alloc: Global,
    row: &Row,
    sides: &Sides,
    most: usize,
    write: usize,
    whole: &Run,
) -> Result<bool, AllocError>
    requires { 0 < most }
{
    let run = run_row(rt, alloc, row, sides, &[], (most, &[write as u64]))?;
    let written = whole
        .text
        .get(..write.saturating_mul(most))
        .unwrap_or_default();
    Ok(run.status == 9 && run.text.as_slice() == written && run.stored == whole.stored)
}

/// The number of the first write, from 0, whose failure ends a run otherwise, where each takes so many bytes, beside a run in which none
/// fails.
fn first_miswritten<R: Threads + Sync>(
    rt: &R,
    alloc: Global,
    row: &Row,
    sides: &Sides,
    most: usize,
    whole: &Run,
) -> Result<Option<usize>, AllocError>
    requires { 0 < most }
{
    for (write, _) in whole.text.chunks(most).enumerate() {
        if !is_written_as_due(rt, alloc, row, sides, most, write, whole)? {
            return Ok(Some(write));
        }
    }
    Ok(None)
}

/// The number of the first write, from 0, whose failure ends a run otherwise, where each takes so many bytes.
fn miswritten<R: Threads + Sync>(
    rt: &R,
    alloc: Global,
    row: &Row,
    sides: &Sides,
    most: usize,
) -> Result<Option<usize>, AllocError>
    requires { 0 < most }
{
    let whole = run_row(rt, alloc, row, sides, &[], (most, &[]))?;
    first_miswritten(rt, alloc, row, sides, most, &whole)
}

/// The same by writes of several sizes, with the size.
fn miswritten_by<R: Threads + Sync>(
    rt: &R,
    alloc: Global,
    row: &Row,
    sides: &Sides,
) -> Result<Option<(usize, usize)>, AllocError> {
    for most in [1, 2, 7, 100] {
        if let Some(write) = miswritten(rt, alloc, row, sides, most.max(1))? {
            return Ok(Some((write, most)));
        }
    }
    Ok(None)
}

#[test]
fn each_write_fails_once(rt: HostRuntime) -> Result<(), Fail> {
    for (number, row) in ROWS.iter().enumerate() {
        let sides = sides_of_row(&rt, rt.alloc(), row)?;
        if let Some((write, most)) = miswritten_by(&rt, rt.alloc(), row, &sides)? {
            return Err(Fail::new(format_args!("row {number} at write {write} of {most}")));
        }
    }
    Ok(())
}
