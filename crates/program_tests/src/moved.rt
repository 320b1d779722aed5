// What `migrate` stores and tells: the state of a program of the first format as one of the second.
use crate::programs::repeated;
use cli_stage::runs::{Run, kept, opening, proved, run_words, verified};
use cli_stage::stage::staged;
use program_texts::{FIRST, SWITCH};
use std::alloc::{AllocError, Global};
use std::test::Fail;
use std::thread::Threads;

/// Of the second format, with the state of `SWITCH`.
const OPEN: &[u8] =
    b"format 2; state auth bool; query open(s: auth bool, x: unit): bool = unauth(s);";

/// The image of `SWITCH` at true: the bool, and what is authenticated of it. Digests here and below are those of Python's hashlib.
const SWITCH_IMAGE: &[u8] =
    b"LAI1J\xd2!\x82\x9f\xe5m\xdf3V\xf1r2[\xb4\xd2\x9fd\xe1C\xd4\x8dp\xaf-\x0eA\xd0-\xa3\xffZ\0\0\0\x02\x01\x01\x06\0\0\0\0";

/// The image of `OPEN` at true.
const OPEN_IMAGE: &[u8] =
    b"LAI2i#J\x01\xa2y>\x0b\xb2\x08a\xf6\xa6\xc3\xa1\x9bC\x9c\xfeUR\xd4i\xb3d,D \xb1\xee}\xde\0\0\0\x02\x01\x01\x06\0\0\0\0";

/// The projection of this state: the digest of the fingerprint of bool, which is the digest of `01`, and of `01` behind it.
const OPEN_LINE: &str = "state #6d320088ab8e60d5252e5177c064197302b95217c095bd04294664c121e09dfa\n";

const OPEN_STATE: &[u8] =
    b"m2\0\x88\xab\x8e`\xd5%.Qw\xc0d\x19s\x02\xb9R\x17\xc0\x95\xbd\x04)Fd\xc1!\xe0\x9d\xfa";

/// A program whose state has values of two named types.
const NAMED: &[u8] =
    b"type side = Left | Right; type tree = Leaf | Node(side, int, auth tree); state (tree, text);";

/// Of the second format, with the same types in other blanks, and a query.
const TREES: &[u8] =
    b"format 2;type side=Left|Right;type tree=Leaf|Node(side,int,auth tree);state(tree,text);query open(s:(tree,text),x:unit):tree=match fst(s)with|Leaf->Leaf|Node(a,b,c)->unauth(c)end;";

/// The image of `NAMED` at a node and a text. What stands in the last field of the node is authenticated.
const NAMED_IMAGE: &[u8] =
    b"LAI1|\xad\x88\xf7\xb6{9`\xa6C3\x031v\x17\xb4\x16~\xeb\x8d+\xef\\)Le<\x93\x87[\x93\x10\0\0\0\x07\x05\0\0\x01\x02\xff\xff\xff\xff\xff\xff\xff\xfd\x05\0\x01\0\x06\0\0\0\x02\x05\0\x01\x01\0\0\0\0\0\0\0\x01\0\0\0\x03\x03\0\0\0\x03\xc3\xa9\"\x04\0\0\0\x04\0\0\0\x05";

/// The image of `TREES` at the same value.
const TREES_IMAGE: &[u8] =
    b"LAI2\xc8qb\xb1\x07\x94\x0c0\x83\xf4\x1ao,\x8cA\xe8\xac\x81{;\x93X\xfc\xa5\xef\xd4\xeb\xac\x86D\x0b\xe7\0\0\0\x07\x05\0\0\x01\x02\xff\xff\xff\xff\xff\xff\xff\xfd\x05\0\x01\0\x06\0\0\0\x02\x05\0\x01\x01\0\0\0\0\0\0\0\x01\0\0\0\x03\x03\0\0\0\x03\xc3\xa9\"\x04\0\0\0\x04\0\0\0\x05";

/// Its projection: the digest of the leaf is that of the fingerprint of its type, number 1 of the declared ones, and of `00` behind it.
const TREES_LINE: &str =
    "state (Node(Right, -3, #87463946899ac7612f5ec5f2e09171bc33f879a0ec1dfee68a70712ddd0fe25d), \"é\\\"\")\n";

const TREES_STATE: &[u8] =
    b"\x01\x01\xff\xff\xff\xff\xff\xff\xff\xfd\x87F9F\x89\x9a\xc7a/^\xc5\xf2\xe0\x91q\xbc3\xf8y\xa0\xec\x1d\xfe\xe6\x8apq-\xdd\x0f\xe2]\0\0\0\x03\xc3\xa9\"";

/// The state of a program of the first format as one of the second.
struct Move {
    from: &'static [u8],
    image: &'static [u8],
    to: &'static [u8],
    stored: &'static [u8],
    line: &'static str,
    state: &'static [u8],
    opened: &'static str,
    proof: &'static [u8],
}

/// Each with the image that is stored, the line, the spelling of the projection, what the query `open` answers, and the proof of this.
static MOVES: [Move; 2] = [
    Move {
        from: SWITCH,
        image: SWITCH_IMAGE,
        to: OPEN,
        stored: OPEN_IMAGE,
        line: OPEN_LINE,
        state: OPEN_STATE,
        opened: "done true\n",
        proof: b"LAP2\0\0\0\0\0\0\x01\x01",
    },
    Move {
        from: NAMED,
        image: NAMED_IMAGE,
        to: TREES,
        stored: TREES_IMAGE,
        line: TREES_LINE,
        state: TREES_STATE,
        opened: "done Leaf\n",
        proof: b"LAP2\0\0\0\0\0\0\x01\0",
    },
];

/// Runs `migrate` of an image of one program to another.
fn moved<R: Threads + Sync>(
    rt: &R,
    alloc: Global,
    from: &[u8],
    image: &[u8],
    to: &[u8],
) -> Result<Run, AllocError> {
    let words = ["migrate", "p", "s", "q", "o"];
    run_words(rt, alloc, &staged(from, image, to), &words)
}

#[test]
fn a_state_is_moved(rt: HostRuntime) -> Result<(), Fail> {
    for row in &MOVES {
        let run = moved(&rt, rt.alloc(), row.from, row.image, row.to)?;
        if !run.stores(0, row.line, row.stored) {
            return Err(Fail::new(row.line));
        }
    }
    Ok(())
}

/// Whether the state that a client keeps of what is moved gets proofs that it accepts.
fn is_proved<R: Threads + Sync>(rt: &R, alloc: Global, row: &Move) -> Result<bool, AllocError> {
    let shallow = kept(rt, alloc, row.to, row.stored)?;
    if !shallow.stores(0, row.line, row.state) {
        return Ok(false);
    }
    let proof = proved(rt, alloc, row.to, row.stored, &opening("1"), "0")?;
    if proof.file.as_slice() != row.proof || !proof.text.starts_with(row.opened.as_bytes()) {
        return Ok(false);
    }
    let run = verified(rt, alloc, row.to, &shallow.file, &proof.file, &opening("1"))?;
    Ok(proof.status == 0 && run.only_tells(0, row.opened))
}

#[test]
fn what_is_moved_is_proved_and_verified(rt: HostRuntime) -> Result<(), Fail> {
    for row in &MOVES {
        if !is_proved(&rt, rt.alloc(), row)? {
            return Err(Fail::new(row.line));
        }
    }
    Ok(())
}

const FORMAT: &str = "input refused: migrate format\n";

const TYPES: &str = "input refused: migrate types\n";

/// Two programs between which no state is moved, and the line. The formats are judged before the types.
static APART: [(&[u8], &[u8], &str); 10] = [
    (SWITCH, SWITCH, FORMAT),
    (OPEN, OPEN, FORMAT),
    (OPEN, SWITCH, FORMAT),
    (SWITCH, FIRST, FORMAT),
    (
        b"format 1; state auth bool;",
        b"format 1; state auth bool;",
        FORMAT,
    ),
    (FIRST, OPEN, TYPES),
    (SWITCH, b"format 2; state bool;", TYPES),
    (SWITCH, b"format 2; type a = A; state auth bool;", TYPES),
    (
        b"type a = A | B; state a;",
        b"format 2; type a = B | A; state a;",
        TYPES,
    ),
    (
        b"type a = A; type b = B; state a;",
        b"format 2; type a = A; type b = B; state b;",
        TYPES,
    ),
];

#[test]
fn other_programs_are_refused(rt: HostRuntime) -> Result<(), Fail> {
    for (number, (from, to, line)) in APART.iter().enumerate() {
        if !moved(&rt, rt.alloc(), from, b"", to)?.only_tells(7, line) {
            return Err(Fail::new(format_args!("row {number}")));
        }
    }
    Ok(())
}

/// A program, an image and another program, with the status and the line of the first that is refused.
static REFUSED: [(&[u8], &[u8], &[u8], u8, &str); 6] = [
    (
        b"abc",
        b"",
        b"abc def",
        6,
        "program refused: Expected 1 1\n",
    ),
    (
        SWITCH,
        b"",
        b"format 3;",
        6,
        "program refused: Expected 1 8\n",
    ),
    (SWITCH, b"", OPEN, 7, "input refused: image magic\n"),
    (SWITCH, OPEN_IMAGE, OPEN, 7, "input refused: image magic\n"),
    (
        SWITCH,
        NAMED_IMAGE,
        OPEN,
        7,
        "input refused: image program\n",
    ),
    (NAMED, SWITCH_IMAGE, OPEN, 7, TYPES),
];

#[test]
fn the_first_refusal_is_told(rt: HostRuntime) -> Result<(), Fail> {
    for (number, (from, image, to, status, line)) in REFUSED.iter().enumerate() {
        if !moved(&rt, rt.alloc(), from, image, to)?.only_tells(*status, line) {
            return Err(Fail::new(format_args!("row {number}")));
        }
    }
    Ok(())
}

/// The lengths of both programs, and the line where one is too long.
const LONG: [(usize, usize, &str); 3] = [
    (0, 262_145, "input refused: too long Q\n"),
    (262_145, 262_145, "input refused: too long P\n"),
    (0, 262_144, OPEN_LINE),
];

#[test]
fn programs_have_a_greatest_length(rt: HostRuntime) -> Result<(), Fail> {
    for (from_length, to_length, line) in &LONG {
        let from = with_blanks(rt.alloc(), SWITCH, *from_length)?;
        let to = with_blanks(rt.alloc(), OPEN, *to_length)?;
        let run = moved(&rt, rt.alloc(), &from, SWITCH_IMAGE, &to)?;
        if run.text.as_slice() != line.as_bytes() {
            return Err(Fail::new(*line));
        }
    }
    Ok(())
}

/// A text, and blanks behind it up to this length.
fn with_blanks(alloc: Global, text: &[u8], length: usize) -> Result<Vec<u8>, AllocError> {
    repeated(alloc, text, b" ", length.saturating_sub(text.len()), b"")
}

/// The words behind `migrate` of which one names no file.
const ABSENT: [[&str; 5]; 3] = [
    ["migrate", "none", "s", "q", "o"],
    ["migrate", "p", "s", "none", "o"],
    ["migrate", "p", "none", "q", "o"],
];

#[test]
fn absent_files_are_read_faults(rt: HostRuntime) -> Result<(), Fail> {
    let stage = staged(SWITCH, SWITCH_IMAGE, OPEN);
    for (number, words) in ABSENT.iter().enumerate() {
        if !run_words(&rt, rt.alloc(), &stage, words)?.only_tells(8, "read fault\n") {
            return Err(Fail::new(format_args!("row {number}")));
        }
    }
    Ok(())
}
