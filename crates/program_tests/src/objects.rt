// Programs that are objects: what `emit` stores, what is refused of bytes that begin as an object, and the commands on an object.
use crate::programs::repeated;
use ads_library::texts::{BST, MERKLE, REDBLACK, SKIPLIST};
use cli_stage::runs::{Call, Run, check, kept, made, opening, proved, run_words, verified};
use cli_stage::stage::{PROOF, STATE, staged};
use program_texts::FIRST;
use std::alloc::{AllocError, Global};
use std::test::Fail;
use std::thread::Threads;

/// The query of `FIRST` as an object, by itself: two types, the state, and a function of three instructions.
const OPEN: &[u8] =
    b"LAO1\0\0\0\x02\0\x06\0\0\0\0\0\0\0\x01\0\x01\x02\x04open\x02\0\0\0\x01\0\0\0\0\0\0\0\0\0\0\0\x03\x04\0\x11\0\0\0\0\x0f";

/// The object of `FIRST`: the same types and state, its init and its query.
const FIRST_OBJECT: &[u8] =
    b"LAO1\0\0\0\x02\0\x06\0\0\0\0\0\0\0\x01\0\x02\x01\x04make\x01\0\0\0\0\0\0\0\x01\0\0\0\x03\x04\0\x10\0\0\0\0\x0f\x02\x04open\x02\0\0\0\x01\0\0\0\0\0\0\0\0\0\0\0\x03\x04\0\x11\0\0\0\0\x0f";

#[test]
fn an_object_is_verified(rt: HostRuntime) -> Result<(), Fail> {
    for object in [OPEN, FIRST_OBJECT] {
        let run = verified(&rt, rt.alloc(), object, &STATE, PROOF, &opening("1"))?;
        assert!(rt; run.only_tells(0, "done ()\n"));
    }
    Ok(())
}

/// `OPEN` with another byte at a place, and the line that it is refused with.
const CHANGED: [(usize, u8, &str); 9] = [
    // the number of types is more than there may be
    (4, 1, "program refused: object field 4\n"),
    // a type of no tag, and a state that is no type
    (8, 7, "program refused: object field 8\n"),
    (17, 2, "program refused: object field 14\n"),
    // a role without a name, and a function with one that is no role
    (21, 0, "program refused: object field 21\n"),
    (20, 0, "program refused: object field 21\n"),
    // an init with two parameters, and an update whose result is no pair
    (20, 1, "program refused: object shape 0\n"),
    (20, 3, "program refused: object shape 0\n"),
    // the second parameter is loaded, which isn't authenticated
    (44, 1, "program refused: object kind 0 1\n"),
    // the last instruction is none that ends
    (50, 0, "program refused: object kind 0 2\n"),
];

/// `OPEN` with this byte at this place.
fn changed(alloc: Global, place: usize, byte: u8) -> Result<Vec<u8>, AllocError> {
    let mut object = Vec::from_slice(alloc, OPEN)?;
    if let Some(at) = object.get_mut(place) {
        *at = byte;
    }
    Ok(object)
}

#[test]
fn objects_are_refused(rt: HostRuntime) -> Result<(), Fail> {
    for (place, byte, line) in CHANGED {
        let object = changed(rt.alloc(), place, byte)?;
        let run = check(&rt, rt.alloc(), &object)?;
        if !run.only_tells(6, line) {
            return Err(Fail::new(line));
        }
    }
    Ok(())
}

#[test]
fn objects_are_whole(rt: HostRuntime) -> Result<(), Fail> {
    for length in 4..OPEN.len() {
        let line = format!(in rt.alloc(); "program refused: object cut {length}\n")?;
        assert!(rt; check(&rt, rt.alloc(), &OPEN[..length])?.only_tells(6, &line));
    }
    let longer = repeated(rt.alloc(), OPEN, b"\0", 2, b"")?;
    let run = check(&rt, rt.alloc(), &longer)?;
    assert!(rt; run.only_tells(6, "program refused: object leftover 2\n"));
    Ok(())
}

/// Files of so many bytes that begin so, with zeros behind it, and what they are refused with: an object may be longer than a text.
const LONG: [(&[u8], usize, u8, &str); 4] = [
    (b"LAO1", 4_194_304, 6, "program refused: object field 8\n"),
    (b"LAO1", 4_194_305, 7, "input refused: too long P\n"),
    (b"LAO2", 262_144, 6, "program refused: Expected 1 1\n"),
    (b"LAO2", 262_145, 7, "input refused: too long P\n"),
];

#[test]
fn objects_may_be_longer_than_texts(rt: HostRuntime) -> Result<(), Fail> {
    for (front, length, status, line) in LONG {
        let file = repeated(rt.alloc(), front, b"\0", length.saturating_sub(4), b"")?;
        let run = check(&rt, rt.alloc(), &file)?;
        if !run.only_tells(status, line) {
            return Err(Fail::new(line));
        }
    }
    Ok(())
}

/// Runs `emit` of a file.
fn emitted<R: Threads + Sync>(rt: &R, alloc: Global, program: &[u8]) -> Result<Run, AllocError> {
    run_words(rt, alloc, &staged(program, b"", b""), &["emit", "p", "o"])
}

/// What `emit` refuses: objects, also such as are none, programs of the second format, and texts as each command does.
const UNWRITTEN: [(&[u8], u8, &str); 5] = [
    (OPEN, 7, "input refused: object format\n"),
    (b"LAO1", 7, "input refused: object format\n"),
    (
        b"format 2; state unit;",
        7,
        "input refused: object format\n",
    ),
    (b"state", 6, "program refused: Expected 1 6\n"),
    (b"type t = A;", 6, "program refused: NoState 1 12\n"),
];

#[test]
fn an_object_is_emitted(rt: HostRuntime) -> Result<(), Fail> {
    assert!(rt; emitted(&rt, rt.alloc(), FIRST)?.stores(0, "", FIRST_OBJECT));
    for (program, status, line) in UNWRITTEN {
        let run = emitted(&rt, rt.alloc(), program)?;
        if !run.only_tells(status, line) {
            return Err(Fail::new(line));
        }
    }
    Ok(())
}

/// `migrate` reads texts alone.
#[test]
fn an_object_is_not_moved(rt: HostRuntime) -> Result<(), Fail> {
    let words = ["migrate", "p", "s", "q", "o"];
    let run = run_words(&rt, rt.alloc(), &staged(OPEN, b"", FIRST), &words)?;
    assert!(rt; run.only_tells(6, "program refused: Expected 1 1\n"));
    Ok(())
}

/// Programs of the library with an init and what is passed to it.
const PROGRAMS: [(&[u8], &str, &str); 4] = [
    (BST, "empty", "()"),
    (MERKLE, "make", "(2, 5)"),
    (REDBLACK, "empty", "()"),
    (SKIPLIST, "empty", "()"),
];

/// What a program tells and stores: of its first state, of what a client keeps of it, and of a proof.
#[derive(Drop)]
struct Told {
    first: Run,
    client: Run,
    proof: Run,
}

/// What it does, where this init makes the state.
fn answer_of<R: Threads + Sync>(
    rt: &R,
    alloc: Global,
    program: &[u8],
    role: &str,
    literal: &str,
) -> Result<Told, AllocError> {
    let first = made(rt, alloc, program, role, literal)?;
    let client = kept(rt, alloc, program, &first.file)?;
    let proof = proved(rt, alloc, program, &first.file, &GET, "0")?;
    Ok(Told {
        first,
        client,
        proof,
    })
}

/// The call that is proved.
const GET: Call<'static> = Call {
    role: "get",
    argument: "3",
    fuel: "100",
};

/// What stands in an image behind the digest of its program.
fn records(image: &[u8]) -> &[u8] {
    match image.split_at_checked(36) {
        Some((_, records)) => records,
        None => &[],
    }
}

/// Whether two runs tell and store the same.
fn are_same(one: &Run, other: &Run) -> bool {
    one.status == 0
        && other.status == 0
        && one.text.as_slice() == other.text.as_slice()
        && one.file.as_slice() == other.file.as_slice()
}

/// Whether a program's object tells and stores what the program does, but for the digest in the image, and accepts its proof.
fn is_same<R: Threads + Sync>(
    rt: &R,
    alloc: Global,
    program: &[u8],
    role: &str,
    literal: &str,
) -> Result<bool, AllocError> {
    let object = emitted(rt, alloc, program)?;
    if !object.stores(0, "", &object.file) || check(rt, alloc, &object.file)?.status != 0 {
        return Ok(false);
    }
    let one = answer_of(rt, alloc, program, role, literal)?;
    let other = answer_of(rt, alloc, &object.file, role, literal)?;
    let run = verified(
        rt,
        alloc,
        &object.file,
        &one.client.file,
        &one.proof.file,
        &GET,
    )?;
    Ok(
        one.first.text.as_slice() == other.first.text.as_slice()
            && records(&one.first.file) == records(&other.first.file)
            && are_same(&one.client, &other.client)
            && are_same(&one.proof, &other.proof)
            && run.status == 0
            && one.proof.text.starts_with(&run.text),
    )
}

#[test]
fn objects_tell_what_their_programs_tell(rt: HostRuntime) -> Result<(), Fail> {
    for (program, role, literal) in PROGRAMS {
        if !is_same(&rt, rt.alloc(), program, role, literal)? {
            return Err(Fail::new(role));
        }
    }
    Ok(())
}
