// What is told of a file that is cut, to each length, and of one that has a byte too many.
ghost use Rattle.std.specs.Prelude.{◌<◌};

use crate::calls::{DEEP, DEEP_PROOF};
use crate::sides::{Sides, made_sides};
use cli_stage::runs::{Call, kept, made, opening, verified};
use cli_stage::stage::{PROOF, STATE};
use program_texts::{FIRST, SWITCH, TWO};
use std::alloc::{AllocError, Global};
use std::test::Fail;
use std::thread::Threads;

/// From how many bytes on a file is told so: the status and the line.
type Told = (usize, u8, &'static str);

/// What is told of so many bytes: the last that begins no later.
fn told_of(told: &[Told], bytes: usize) -> (u8, &'static str) {
    let mut found = (0, "");
    for (first, status, line) in told {
        if *first <= bytes {
            found = (*status, *line);
        }
    }
    found
}

/// The file, and a byte more.
fn longer(alloc: Global, file: &[u8]) -> Result<Vec<u8>, AllocError> {
    let mut longer = Vec::from_slice(alloc, file)?;
    longer.push(0)?;
    Ok(longer)
}

/// A program, the literal of its state, the role of a call, its proof, and what is told of that.
type Proofs = (
    &'static [u8],
    &'static str,
    &'static str,
    &'static [u8],
    &'static [Told],
);

static PROOFS: [Proofs; 4] = [
    (
        FIRST,
        "()",
        "open",
        PROOF,
        &[
            (0, 5, "rejected header\n"),
            (6, 5, "rejected short 0\n"),
            (7, 5, "rejected cut 0\n"),
            (11, 0, "done ()\n"),
            (12, 5, "rejected leftover 1\n"),
        ],
    ),
    // two new pieces, and one that is named again
    (
        SWITCH,
        "true",
        "both",
        b"LAP1\0\0\0\0\0\0\x01\x01\0\0\0\0\x01\x01",
        &[
            (0, 5, "rejected header\n"),
            (6, 5, "rejected short 0\n"),
            (7, 5, "rejected cut 0\n"),
            (12, 5, "rejected short 1\n"),
            (13, 5, "rejected cut 1\n"),
            (18, 0, "done (true, true)\n"),
            (19, 5, "rejected leftover 1\n"),
        ],
    ),
    (
        SWITCH,
        "true",
        "both",
        b"LAP1\0\x01\0\0\0\0\x01\x01\x01\0\0",
        &[
            (0, 5, "rejected header\n"),
            (6, 5, "rejected short 0\n"),
            (7, 5, "rejected cut 0\n"),
            (12, 5, "rejected short 1\n"),
            (13, 5, "rejected cut 1\n"),
            (15, 0, "done (true, true)\n"),
            (16, 5, "rejected leftover 1\n"),
        ],
    ),
    // a piece of 32 bytes, then one of none
    (
        DEEP,
        "()",
        "deep",
        DEEP_PROOF,
        &[
            (0, 5, "rejected header\n"),
            (6, 5, "rejected short 0\n"),
            (7, 5, "rejected cut 0\n"),
            (43, 5, "rejected short 1\n"),
            (44, 5, "rejected cut 1\n"),
            (48, 0, "done ()\n"),
            (49, 5, "rejected leftover 1\n"),
        ],
    ),
];

/// To how many bytes a file is cut whose cut is told otherwise of this call, where one read gives so many bytes at most.
fn first_misjudged<R: Threads + Sync>(
    rt: &R,
    alloc: Global,
    made: &Sides,
    call: &Call,
    file: &[u8],
    told: &[Told],
    most_read: usize,
) -> Result<Option<usize>, AllocError>
    requires { 0 < most_read }
{
    for bytes in 0..=file.len() {
        let cut = file.get(..bytes).unwrap_or_default();
        if !made.are_told(rt, alloc, call, cut, most_read, told_of(told, bytes))? {
            return Ok(Some(bytes));
        }
    }
    Ok(None)
}

/// To how many bytes a proof is cut whose cut is told otherwise, where one read gives so many bytes at most.
fn misjudged<R: Threads + Sync>(
    rt: &R,
    alloc: Global,
    row: &Proofs,
    most_read: usize,
) -> Result<Option<usize>, AllocError> {
    let (program, literal, role, proof, told) = *row;
    let made = made_sides(rt, alloc, program, "make", literal)?;
    let file = longer(alloc, proof)?;
    let call = Call {
        role,
        argument: "()",
        fuel: "1",
    };
    first_misjudged(rt, alloc, &made, &call, &file, told, most_read.max(1))
}

#[test]
fn a_proof_is_cut(rt: HostRuntime) -> Result<(), Fail> {
    for (number, row) in PROOFS.iter().enumerate() {
        for most_read in [4096, 1, 2, 3, 7] {
            if let Some(bytes) = misjudged(&rt, rt.alloc(), row, most_read)? {
                return Err(Fail::new(format_args!("row {number} at {bytes} by {most_read}")));
            }
        }
    }
    Ok(())
}

static STATES: [Told; 3] = [
    (0, 7, "input refused: state 0\n"),
    (32, 0, "done ()\n"),
    (33, 7, "input refused: state 32\n"),
];

#[test]
fn a_state_is_cut(rt: HostRuntime) -> Result<(), Fail> {
    let file = longer(rt.alloc(), &STATE)?;
    for bytes in 0..=file.len() {
        let cut = file.get(..bytes).unwrap_or_default();
        let (status, line) = told_of(&STATES, bytes);
        if !verified(&rt, rt.alloc(), FIRST, cut, PROOF, &opening("1"))?.only_tells(status, line) {
            return Err(Fail::new(format_args!("{bytes}")));
        }
    }
    Ok(())
}

/// A program, the literal of its state, and what is told of the state's image; `N` stands for the number of bytes.
type Images = (&'static [u8], &'static str, &'static [Told]);

static IMAGES: [Images; 2] = [
    (
        FIRST,
        "()",
        &[
            (0, 7, "input refused: image magic\n"),
            (4, 7, "input refused: image cut N\n"),
            (
                46,
                0,
                "state #e3b0c44298fc1c149afbf4c8996fb92427ae41e4649b934ca495991b7852b855\n",
            ),
            (47, 7, "input refused: image leftover 1\n"),
        ],
    ),
    (
        TWO,
        "(true, true)",
        &[
            (0, 7, "input refused: image magic\n"),
            (4, 7, "input refused: image cut N\n"),
            (
                56,
                0,
                "state (#4bf5122f344554c53bde2ebb8cd2b7e3d1600ad631c385a5d7cce23c7785459a, #4bf5122f344554c53bde2ebb8cd2b7e3d1600ad631c385a5d7cce23c7785459a)\n",
            ),
            (57, 7, "input refused: image leftover 1\n"),
        ],
    ),
];

/// The line, with so many bytes in the place of an `N` at its end.
fn line_of(alloc: Global, line: &str, bytes: usize) -> Result<String, AllocError> {
    match line.strip_suffix("N\n") {
        Some(front) => Ok(format!(in alloc; "{front}{bytes}\n")?),
        None => String::from_str(alloc, line),
    }
}

/// Whether this is told of an image. What is told is stored.
fn is_told<R: Threads + Sync>(
    rt: &R,
    alloc: Global,
    program: &[u8],
    image: &[u8],
    told: (u8, &str),
) -> Result<bool, AllocError> {
    let (status, line) = told;
    let line = line_of(alloc, line, image.len())?;
    let run = kept(rt, alloc, program, image)?;
    Ok(run.tells(status, &line) && (run.stored == 1) == (status == 0))
}

/// To how many bytes a file is cut whose cut is told otherwise as an image of this program.
fn first_misread<R: Threads + Sync>(
    rt: &R,
    alloc: Global,
    program: &[u8],
    file: &[u8],
    told: &[Told],
) -> Result<Option<usize>, AllocError> {
    for bytes in 0..=file.len() {
        let cut = file.get(..bytes).unwrap_or_default();
        if !is_told(rt, alloc, program, cut, told_of(told, bytes))? {
            return Ok(Some(bytes));
        }
    }
    Ok(None)
}

/// To how many bytes an image is cut whose cut is told otherwise.
fn misread<R: Threads + Sync>(
    rt: &R,
    alloc: Global,
    row: &Images,
) -> Result<Option<usize>, AllocError> {
    let (program, literal, told) = *row;
    let image = made(rt, alloc, program, "make", literal)?.file;
    let file = longer(alloc, &image)?;
    first_misread(rt, alloc, program, &file, told)
}

#[test]
fn an_image_is_cut(rt: HostRuntime) -> Result<(), Fail> {
    for (number, row) in IMAGES.iter().enumerate() {
        if let Some(bytes) = misread(&rt, rt.alloc(), row)? {
            return Err(Fail::new(format_args!("row {number} at {bytes}")));
        }
    }
    Ok(())
}
