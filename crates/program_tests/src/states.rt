// What `init` and `shallow` store and tell: states, from literals and from their images.
use crate::programs::repeated;
use cli_stage::runs::{kept, made, run_words};
use cli_stage::stage::{STATE, staged};
use program_texts::{BST, FIRST, TWO};
use std::alloc::{AllocError, Global};
use std::test::Fail;

/// The first 36 bytes of each image of `FIRST`: the magic, and the digest of the text.
const FIRST_HEAD: &[u8] =
    b"LAI12\xb0\xf8\xadA\xd9\x99<W\x96\x96\xd8\x900\xfe^\\'y6\xdd\xcd\xb8\x13\xc52\xf1eyg\xc4\xa3";

/// The image of its state of `()`: a unit, and what is authenticated of it.
const FIRST_IMAGE: &[u8] =
    b"LAI12\xb0\xf8\xadA\xd9\x99<W\x96\x96\xd8\x900\xfe^\\'y6\xdd\xcd\xb8\x13\xc52\xf1eyg\xc4\xa3\0\0\0\x02\0\x06\0\0\0\0";

/// The calls of `init`, with the status and the line of each that makes no state.
const UNMADE: [(&[u8], [&str; 3], u8, &str); 7] = [
    (
        FIRST,
        ["none", "()", "1"],
        7,
        "input refused: role unknown\n",
    ),
    (FIRST, ["open", "()", "1"], 7, "input refused: role kind\n"),
    (
        FIRST,
        ["make", "()", "x"],
        7,
        "input refused: number FUEL\n",
    ),
    (
        FIRST,
        ["make", "1", "1"],
        7,
        "input refused: argument Mismatch 0\n",
    ),
    (FIRST, ["make", "()", "0"], 4, "out of fuel\n"),
    // literals beyond the range of ints
    (
        INTS,
        ["make", "9223372036854775808", "1"],
        7,
        "input refused: argument NumberRange 0\n",
    ),
    (
        INTS,
        ["make", "  -9223372036854775809", "1"],
        7,
        "input refused: argument NumberRange 2\n",
    ),
];

/// A program whose state is an int.
const INTS: &[u8] = b"state int; init make(x: int): int = x;";

#[test]
fn an_init_is_refused_or_out_of_fuel(rt: HostRuntime) -> Result<(), Fail> {
    for (program, [role, argument, fuel], status, line) in &UNMADE {
        let words = ["init", "p", role, argument, fuel, "o"];
        let run = run_words(&rt, rt.alloc(), &staged(program, b"", b""), &words)?;
        if !run.only_tells(*status, line) {
            return Err(Fail::new(*line));
        }
    }
    Ok(())
}

#[test]
fn an_init_stores_the_image_of_its_state(rt: HostRuntime) -> Result<(), Fail> {
    let alloc = rt.alloc();
    let line = "done #e3b0c44298fc1c149afbf4c8996fb92427ae41e4649b934ca495991b7852b855\n";
    assert!(rt; made(&rt, alloc, FIRST, "make", "()")?.stores(0, line, FIRST_IMAGE));
    Ok(())
}

/// The image of a tree with one node, of key 5 and value 7: the two ints, a leaf and what is authenticated of it, the node and what is
/// authenticated of it.
const BST_IMAGE: &[u8] =
    b"LAI1\xe9v}\x8b;R\x93\x0f\x1b\xa4\xec6\xbf\xdf\xcb\x92,\x8f`\x81R#\xf5\x12\xad[R\xeb\xe8\xbdk\xf7\0\0\0\x06\x02\0\0\0\0\0\0\0\x05\x02\0\0\0\0\0\0\0\x07\x05\0\0\0\x06\0\0\0\x02\x05\0\0\x01\0\0\0\0\0\0\0\x01\0\0\0\x03\0\0\0\x03\x06\0\0\0\x04";

/// The image of `TWO` at (true, true): the bool, what is authenticated of it, and the pair.
const TWO_IMAGE: &[u8] =
    b"LAI1c\xc9\x0bs\x7f\x14h\xbf\xea\x96^%\x10;d=\xe62\x8b\xcc\x99#\xe9\x1a\xab\xa4x\xe9\xf1/BW\0\0\0\x03\x01\x01\x06\0\0\0\0\x04\0\0\0\x01\0\0\0\x01";

/// A program whose state has values of two named types.
const NAMED: &[u8] =
    b"type side = Left | Right; type tree = Leaf | Node(side, int, auth tree); state (tree, text);";

/// The image of a node and a text. What stands in the last field of the node is authenticated.
const NAMED_IMAGE: &[u8] =
    b"LAI1|\xad\x88\xf7\xb6{9`\xa6C3\x031v\x17\xb4\x16~\xeb\x8d+\xef\\)Le<\x93\x87[\x93\x10\0\0\0\x07\x05\0\0\x01\x02\xff\xff\xff\xff\xff\xff\xff\xfd\x05\0\x01\0\x06\0\0\0\x02\x05\0\x01\x01\0\0\0\0\0\0\0\x01\0\0\0\x03\x03\0\0\0\x03\xc3\xa9\"\x04\0\0\0\x04\0\0\0\x05";

/// Programs and images, with the line that `shallow` tells and the bytes that it stores.
const KEPT: [(&[u8], &[u8], &str, &[u8]); 4] = [
    (
        FIRST,
        FIRST_IMAGE,
        "state #e3b0c44298fc1c149afbf4c8996fb92427ae41e4649b934ca495991b7852b855\n",
        &STATE,
    ),
    (
        BST,
        BST_IMAGE,
        "state #3574df3ae619b87dab8c62dbff8547514b88e7f8ea7ed4ab583937fc0e95d34b\n",
        b"5t\xdf:\xe6\x19\xb8}\xab\x8cb\xdb\xff\x85GQK\x88\xe7\xf8\xea~\xd4\xabX97\xfc\x0e\x95\xd3K",
    ),
    (
        TWO,
        TWO_IMAGE,
        "state (#4bf5122f344554c53bde2ebb8cd2b7e3d1600ad631c385a5d7cce23c7785459a, #4bf5122f344554c53bde2ebb8cd2b7e3d1600ad631c385a5d7cce23c7785459a)\n",
        b"K\xf5\x12/4ET\xc5;\xde.\xbb\x8c\xd2\xb7\xe3\xd1`\x0a\xd61\xc3\x85\xa5\xd7\xcc\xe2<w\x85E\x9aK\xf5\x12/4ET\xc5;\xde.\xbb\x8c\xd2\xb7\xe3\xd1`\x0a\xd61\xc3\x85\xa5\xd7\xcc\xe2<w\x85E\x9a",
    ),
    (
        NAMED,
        NAMED_IMAGE,
        "state (Node(Right, -3, #6e340b9cffb37a989ca544e6bb780a2c78901d3fb33738768511a30617afa01d), \"é\\\"\")\n",
        b"\x01\x01\xff\xff\xff\xff\xff\xff\xff\xfdn4\x0b\x9c\xff\xb3z\x98\x9c\xa5D\xe6\xbbx\x0a,x\x90\x1d?\xb378v\x85\x11\xa3\x06\x17\xaf\xa0\x1d\0\0\0\x03\xc3\xa9\"",
    ),
];

#[test]
fn a_state_is_stored_as_its_projection(rt: HostRuntime) -> Result<(), Fail> {
    for (program, image, line, file) in &KEPT {
        if !kept(&rt, rt.alloc(), program, image)?.stores(0, line, file) {
            return Err(Fail::new(*line));
        }
    }
    Ok(())
}

/// A program whose state has a value of a named type, authenticated.
const SIDE: &[u8] = b"type side = Left | Right; state (auth side, int);";

/// The first 36 bytes of each image of it: the magic, and the digest of the text.
const SIDE_HEAD: &[u8] =
    b"LAI1\xc8F\x95\0-\xdc\x9b\xb0\x8e\x8d\x9a\x0b\x8f-\x15\xb5`d\xedP\xd4\xafS\x8b\x14\x81\xbe\xec\xdf]\x15\x1a";

/// A header with a digest of zeros.
const ZEROS: &[u8] = b"LAI1\0\0\0\0\0\0\0\0\0\0\0\0\0\0\0\0\0\0\0\0\0\0\0\0\0\0\0\0\0\0\0\0";

/// A program, the first bytes of an image and those behind them, with the line of its first fault.
static REFUSED: [(&[u8], &[u8], &[u8], &str); 20] = [
    (
        FIRST,
        b"LAI2",
        b"2\xb0\xf8\xadA\xd9\x99<W\x96\x96\xd8\x900\xfe^\\'y6\xdd\xcd\xb8\x13\xc52\xf1eyg\xc4\xa3\0\0\0\x02\0\x06\0\0\0\0",
        "input refused: image magic\n",
    ),
    (
        FIRST,
        ZEROS,
        b"\0\0\0\x02\0\x06\0\0\0\0",
        "input refused: image program\n",
    ),
    (
        FIRST,
        FIRST_HEAD,
        b"\0\0\0\x02\0\x06\0\0\0\x01",
        "input refused: image record 1\n",
    ),
    (
        FIRST,
        FIRST_HEAD,
        b"\0\0\0\x02\x07",
        "input refused: image record 0\n",
    ),
    (
        FIRST,
        FIRST_HEAD,
        b"\0\0\0\0",
        "input refused: image root\n",
    ),
    (
        FIRST,
        FIRST_HEAD,
        b"\0\0\0\x01\0",
        "input refused: image root\n",
    ),
    (SIDE, b"LAI", b"", "input refused: image magic\n"),
    (SIDE, b"LAI2", b"", "input refused: image magic\n"),
    (SIDE, SIDE_HEAD, b"", "input refused: image cut 36\n"),
    (SIDE, ZEROS, b"\0\0\0\0", "input refused: image program\n"),
    // a ref that ends too early
    (
        SIDE,
        SIDE_HEAD,
        b"\0\0\0\x04\x05\0\0\x01\x06\0\0\0\0\x02\0\0\0\0\0\0\0\x01\x04\0\0\0\x01\0\0\0",
        "input refused: image cut 66\n",
    ),
    // no such tag
    (
        SIDE,
        SIDE_HEAD,
        b"\0\0\0\x01\x05\0\0\x02",
        "input refused: image record 0\n",
    ),
    // no such type
    (
        SIDE,
        SIDE_HEAD,
        b"\0\0\0\x01\x05\0\x01\0",
        "input refused: image record 0\n",
    ),
    // a bool, which is no part of the state
    (
        SIDE,
        SIDE_HEAD,
        b"\0\0\0\x01\x01\x01",
        "input refused: image record 0\n",
    ),
    // no kind of record
    (
        SIDE,
        SIDE_HEAD,
        b"\0\0\0\x01\x07",
        "input refused: image record 0\n",
    ),
    // a ref to the record itself
    (
        SIDE,
        SIDE_HEAD,
        b"\0\0\0\x02\x05\0\0\x01\x06\0\0\0\x01",
        "input refused: image record 1\n",
    ),
    // the pair of a side that is not authenticated
    (
        SIDE,
        SIDE_HEAD,
        b"\0\0\0\x03\x05\0\0\x01\x02\0\0\0\0\0\0\0\x01\x04\0\0\0\0\0\0\0\x01",
        "input refused: image record 2\n",
    ),
    // no record
    (SIDE, SIDE_HEAD, b"\0\0\0\0", "input refused: image root\n"),
    // the last one is an int
    (
        SIDE,
        SIDE_HEAD,
        b"\0\0\0\x03\x05\0\0\x01\x06\0\0\0\0\x02\0\0\0\0\0\0\0\x01",
        "input refused: image root\n",
    ),
    // two bytes more
    (
        SIDE,
        SIDE_HEAD,
        b"\0\0\0\x04\x05\0\0\x01\x06\0\0\0\0\x02\0\0\0\0\0\0\0\x01\x04\0\0\0\x01\0\0\0\x02\0\0",
        "input refused: image leftover 2\n",
    ),
];

#[test]
fn images_are_refused_for_their_first_fault(rt: HostRuntime) -> Result<(), Fail> {
    for (number, (program, head, behind, line)) in REFUSED.iter().enumerate() {
        let image = repeated(rt.alloc(), head, b"", 0, behind)?;
        if !kept(&rt, rt.alloc(), program, &image)?.only_tells(7, line) {
            return Err(Fail::new(format_args!("row {number}: {line}")));
        }
    }
    Ok(())
}

/// A program whose states are as deep as one likes.
const CHAIN: &[u8] = b"type chain = End | Link(chain); state chain;";

/// The first 36 bytes of its images.
const CHAIN_HEAD: &[u8] =
    b"LAI1\x80E\xebA\x0e.\x14\xf7\x16\xb4=\x0a\x17\xa6\xfd\xcc\xca\x05\xd8F\x97\xa3p>7\x05Cv\xe2\x07,\x11";

/// The image of a chain of so many records: the end, and a link to each one before.
fn chain(alloc: Global, records: u32) -> Result<Vec<u8>, AllocError> {
    let mut image = Vec::from_slice(alloc, CHAIN_HEAD)?;
    image.extend_from_slice(&records.to_be_bytes())?;
    image.extend_from_slice(b"\x05\0\0\0")?;
    for record in 1..records {
        let last = record - 1;
        image.extend_from_slice(b"\x05\0\0\x01")?;
        image.extend_from_slice(&last.to_be_bytes())?;
    }
    Ok(image)
}

#[test]
fn a_state_may_be_512_levels_deep(rt: HostRuntime) -> Result<(), Fail> {
    let run = kept(&rt, rt.alloc(), CHAIN, &chain(rt.alloc(), 512)?)?;
    assert!(rt; run.status == 0 && run.file.len() == 512);
    let run = kept(&rt, rt.alloc(), CHAIN, &chain(rt.alloc(), 513)?)?;
    assert!(rt; run.only_tells(7, "input refused: image too deep 512\n"));
    Ok(())
}

/// A program whose states are as large as one likes.
const FORK: &[u8] = b"type tree = Leaf(text) | Fork(tree, tree); state tree;";

/// An image of it with three records, up to the bytes of its first, a text of 40,000 bytes.
const FORK_FRONT: &[u8] =
    b"LAI1z\xaf\xb5\x02\x85\xcf\xdaW\x84\x90\xca\x01\x83\x02f&\x0b\x15\xb4\x87\x9b\xcb\xb2?\x05\xf3\xc4\x02\xf6\xbd\xebS\0\0\0\x03\x03\0\0\x9c@";

/// The two records behind: a leaf with the text, and the fork of that and itself.
const FORK_BEHIND: &[u8] = b"\x05\0\0\0\0\0\0\0\x05\0\0\x01\0\0\0\x01\0\0\0\x01";

/// A program whose state is a text.
const TEXT: &[u8] = b"state text; init make(x: text): text = x;";

/// The image of a text of 65,533 bytes, up to its first byte: its spelling has one byte more than the limit.
const TEXT_FRONT: &[u8] =
    b"LAI1\x00\x9e\xa4\x47\x13\x3f\xdc\x42\xe1\xff\x8c\xe3\x79\x18\xc9\x07\xe5\x0b\x98\xf7\xce\x9b\x61\x22\xf9\xfb\xc1\x36\x4a\x4c\x52\x43\x00\x00\x00\x01\x03\x00\x00\xff\xfd";

/// A program and the image of a state with a part beyond the limit: its first bytes, how many letters stand behind them, and the rest.
const LONG: [(&[u8], &[u8], usize, &[u8], &str); 2] = [
    (
        FORK,
        FORK_FRONT,
        40_000,
        FORK_BEHIND,
        "input refused: image too big 2\n",
    ),
    (
        TEXT,
        TEXT_FRONT,
        65_533,
        b"",
        "input refused: image too big 0\n",
    ),
];

#[test]
fn a_part_beyond_the_limit_is_too_big(rt: HostRuntime) -> Result<(), Fail> {
    for (program, front, letters, behind, line) in &LONG {
        let image = repeated(rt.alloc(), front, b"a", *letters, behind)?;
        if !kept(&rt, rt.alloc(), program, &image)?.only_tells(7, line) {
            return Err(Fail::new(*line));
        }
    }
    Ok(())
}
