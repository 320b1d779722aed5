// What `prove` and `audit` refuse, and in which order.
ghost use Rattle.std.specs.Prelude.{◌<◌};

use cli_stage::runs::{made, run_words};
use cli_stage::stage::{Stage, staged};
use program_texts::{FIRST, MERKLE};
use std::alloc::{AllocError, Global};
use std::test::Fail;
use std::thread::Threads;

/// A program, a role, an image, an argument, the fuel, and how many pieces are kept or a proof. The file `p` has the program of a list, `q`
/// the image of a list of two ints, and `s` the image of a state of another program; there is no file `r`.
type Words = [&'static str; 6];

/// Inputs that `prove` refuses, and the first fault.
static PROVE: [(Words, &str); 16] = [
    (["p", "none", "r", "x", "x", "x"], "role unknown"),
    // a function that is no role
    (["p", "look", "r", "x", "x", "x"], "role unknown"),
    (["p", "make", "r", "x", "x", "x"], "role kind"),
    (["p", "get", "r", "x", "x", "x"], "number FUEL"),
    (["p", "put", "r", "x", "1000000000001", "x"], "number FUEL"),
    (["p", "get", "r", "x", "0", "x"], "number N"),
    (["p", "get", "r", "x", "0", "+1"], "number N"),
    (["p", "put", "r", "x", "0", "1025"], "number N"),
    (["p", "get", "r", "x", "0", "65536"], "number N"),
    (
        ["p", "get", "r", "x", "0", "000000000000000000000"],
        "number N",
    ),
    (["p", "get", "p", "x", "0", "0"], "image magic"),
    (["p", "put", "s", "x", "0", "0"], "image program"),
    (["p", "get", "q", "x", "0", "0"], "argument Mismatch 0"),
    (["p", "put", "q", "1", "0", "0"], "argument Mismatch 0"),
    (["p", "put", "q", "(1", "0", "0"], "argument Mismatch 2"),
    (
        ["p", "get", "q", "9223372036854775808", "0", "0"],
        "argument NumberRange 0",
    ),
];

/// Inputs that `audit` refuses, and the first fault.
static AUDIT: [(Words, &str); 9] = [
    (["p", "none", "r", "x", "x", "r"], "role unknown"),
    (["p", "look", "r", "x", "x", "r"], "role unknown"),
    (["p", "make", "r", "x", "x", "r"], "role kind"),
    (["p", "get", "r", "x", "x", "r"], "number FUEL"),
    (["p", "put", "r", "x", "1000000000001", "r"], "number FUEL"),
    (["p", "get", "p", "x", "0", "r"], "image magic"),
    (["p", "put", "s", "x", "0", "r"], "image program"),
    (["p", "get", "q", "x", "0", "r"], "argument Mismatch 0"),
    (["p", "put", "q", "(1", "0", "r"], "argument Mismatch 2"),
];

/// The command, and the status and the line of what isn't the fault of an input: a file isn't there, or isn't what it is to be.
static OTHERS: [(&str, Words, u8, &str); 9] = [
    ("prove", ["r", "none", "r", "x", "x", "x"], 8, "read fault"),
    ("prove", ["s", "none", "r", "x", "x", "x"], 6, PROGRAM),
    (
        "prove",
        ["p", "get", "r", "x", "0", "1024"],
        8,
        "read fault",
    ),
    ("prove", ["p", "put", "r", "x", "0", "0"], 8, "read fault"),
    ("audit", ["r", "none", "r", "x", "x", "r"], 8, "read fault"),
    ("audit", ["s", "none", "r", "x", "x", "r"], 6, PROGRAM),
    ("audit", ["p", "get", "r", "x", "0", "r"], 8, "read fault"),
    ("audit", ["p", "get", "q", "1", "0", "r"], 8, "read fault"),
    (
        "audit",
        ["p", "get", "q", "1", "0", "p"],
        5,
        "rejected header",
    ),
];

/// What is told where the text of a program begins with a name.
const PROGRAM: &str = "program refused: Expected 1 1";

/// Whether a command tells this.
fn is_told<R: Threads + Sync>(
    rt: &R,
    alloc: Global,
    stage: &Stage,
    command: &str,
    words: Words,
    told: (u8, &str),
) -> Result<bool, AllocError>
    requires { 0 < stage.now.most_read }
{
    let (status, line) = told;
    let mut all = Vec::new(alloc);
    all.push(command)?;
    all.extend_from_slice(&words)?;
    if command == "prove" {
        all.push("o")?;
    }
    Ok(run_words(rt, alloc, stage, &all)?.only_tells(status, line))
}

/// The number of the first row, from 0, whose words a command doesn't refuse with their fault.
fn misjudged<R: Threads + Sync>(
    rt: &R,
    alloc: Global,
    stage: &Stage,
    command: &str,
    rows: &[(Words, &str)],
) -> Result<Option<usize>, AllocError>
    requires { 0 < stage.now.most_read }
{
    for (number, (words, fault)) in rows.iter().enumerate() {
        let line = format!(in alloc; "input refused: {fault}\n")?;
        if !is_told(rt, alloc, stage, command, *words, (7, &line))? {
            return Ok(Some(number));
        }
    }
    Ok(None)
}

/// The number of the first row of `OTHERS`, from 0, that is told otherwise.
fn mistold<R: Threads + Sync>(
    rt: &R,
    alloc: Global,
    stage: &Stage,
) -> Result<Option<usize>, AllocError>
    requires { 0 < stage.now.most_read }
{
    for (number, (command, words, status, line)) in OTHERS.iter().enumerate() {
        let line = format!(in alloc; "{line}\n")?;
        if !is_told(rt, alloc, stage, command, *words, (*status, &line))? {
            return Ok(Some(number));
        }
    }
    Ok(None)
}

#[test]
fn the_first_fault_is_told(rt: HostRuntime) -> Result<(), Fail> {
    let alloc = rt.alloc();
    let image = made(&rt, alloc, MERKLE, "make", "(1, 5)")?.file;
    let other = made(&rt, alloc, FIRST, "make", "()")?.file;
    let stage = staged(MERKLE, &other, &image);
    match first_misjudged(&rt, alloc, &stage)? {
        (None, None, None) => Ok(()),
        rows => Err(Fail::new(format_args!("{rows:?}"))),
    }
}

/// The numbers of the first rows of each table, from 0, that are told otherwise.
fn first_misjudged<R: Threads + Sync>(
    rt: &R,
    alloc: Global,
    stage: &Stage,
) -> Result<(Option<usize>, Option<usize>, Option<usize>), AllocError>
    requires { 0 < stage.now.most_read }
{
    let prove = misjudged(rt, alloc, stage, "prove", &PROVE)?;
    let audit = misjudged(rt, alloc, stage, "audit", &AUDIT)?;
    let others = mistold(rt, alloc, stage)?;
    Ok((prove, audit, others))
}
