// The authenticated parts of a state in the order of its image, and the pieces of these in a mirror.
use crate::spelled::of_forms;
use crate::stage::{DIGEST, Ideal, image, program_of};
use core_terms::{Digest, Format, Hash32, Program, TyForm, TyId};
use digest_layer::{ProverMarker, Sha};
use images::{auth_order, load_image};
use piece_mirror::Mirror;
use std::alloc::{AllocError, Global};
use std::test::Fail;
use wire_form::{Fetch, Got};

/// A program whose state is a pair of authenticated bools.
const PAIR: &[u8] = b"state (auth bool, auth bool);";

/// Types of the second format: `vec[2] auth bool`, `auth vec[2] bool` and `(auth bool, auth vec[1] bool)`.
const TWO_PARTS: [TyForm; 3] = [
    TyForm::BoolForm,
    TyForm::AuthForm(TyId(0)),
    TyForm::VecForm(2, TyId(1)),
];

const TWO_BOOLS: [TyForm; 3] = [
    TyForm::BoolForm,
    TyForm::VecForm(2, TyId(0)),
    TyForm::AuthForm(TyId(1)),
];

const TWO_TYPES: [TyForm; 5] = [
    TyForm::BoolForm,
    TyForm::VecForm(1, TyId(0)),
    TyForm::AuthForm(TyId(0)),
    TyForm::AuthForm(TyId(1)),
    TyForm::PairForm(TyId(2), TyId(3)),
];

/// The program of an image.
#[derive(Clone, Copy)]
enum Of {
    /// Of a text, in the first format.
    Text(&'static [u8]),
    /// Of these types, in the second one.
    Types(&'static [TyForm]),
}

/// An image of so many records, the nodes of what is authenticated in it, in order, and the pieces of these.
type Row = (
    Of,
    u32,
    &'static [u8],
    &'static [usize],
    &'static [&'static [u8]],
);

static ROWS: [Row; 9] = [
    (
        Of::Text(PAIR),
        5,
        b"\x01\x01\x06\0\0\0\0\x01\0\x06\0\0\0\x02\x04\0\0\0\x01\0\0\0\x03",
        &[0, 2],
        &[b"\x01", b"\0"],
    ),
    // from left to right, whatever the order in the image that was loaded
    (
        Of::Text(PAIR),
        5,
        b"\x01\0\x06\0\0\0\0\x01\x01\x06\0\0\0\x02\x04\0\0\0\x03\0\0\0\x01",
        &[2, 0],
        &[b"\x01", b"\0"],
    ),
    // equal values once: of one node, and of two
    (
        Of::Text(PAIR),
        3,
        b"\x01\x01\x06\0\0\0\0\x04\0\0\0\x01\0\0\0\x01",
        &[0],
        &[b"\x01"],
    ),
    (
        Of::Text(PAIR),
        5,
        b"\x01\x01\x01\x01\x06\0\0\0\0\x06\0\0\0\x01\x04\0\0\0\x02\0\0\0\x03",
        &[0],
        &[b"\x01"],
    ),
    // an inner one before the one around it, which is spelled by its digest
    (
        Of::Text(b"state auth auth bool;"),
        3,
        b"\x01\x01\x06\0\0\0\0\x06\0\0\0\x01",
        &[0, 1],
        &[
            b"\x01",
            b"\x4b\xf5\x12\x2f\x34\x45\x54\xc5\x3b\xde\x2e\xbb\x8c\xd2\xb7\xe3\xd1\x60\x0a\xd6\x31\xc3\x85\xa5\xd7\xcc\xe2\x3c\x77\x85\x45\x9a",
        ],
    ),
    // in the first format values of two types may have one spelling, and so one piece
    (
        Of::Text(b"type flag = Off | On; state (auth bool, auth flag);"),
        5,
        b"\x01\x01\x06\0\0\0\0\x05\0\0\x01\x06\0\0\0\x02\x04\0\0\0\x01\0\0\0\x03",
        &[0, 2],
        &[b"\x01"],
    ),
    // in the second format the fingerprint of the type stands before the spelling
    (
        Of::Types(&TWO_PARTS),
        5,
        b"\x01\x01\x06\0\0\0\0\x01\0\x06\0\0\0\x02\x07\x02\0\0\0\x01\0\0\0\x03",
        &[0, 2],
        &[
            b"\x4b\xf5\x12\x2f\x34\x45\x54\xc5\x3b\xde\x2e\xbb\x8c\xd2\xb7\xe3\xd1\x60\x0a\xd6\x31\xc3\x85\xa5\xd7\xcc\xe2\x3c\x77\x85\x45\x9a\x01",
            b"\x4b\xf5\x12\x2f\x34\x45\x54\xc5\x3b\xde\x2e\xbb\x8c\xd2\xb7\xe3\xd1\x60\x0a\xd6\x31\xc3\x85\xa5\xd7\xcc\xe2\x3c\x77\x85\x45\x9a\0",
        ],
    ),
    (
        Of::Types(&TWO_BOOLS),
        4,
        b"\x01\x01\x01\0\x07\x02\0\0\0\0\0\0\0\x01\x06\0\0\0\x02",
        &[2],
        &[
            b"\xa5\x7f\xcb\xa8\x95\xcc\x18\xf1\xc9\x45\x58\xac\xb1\x59\x1a\x31\xb0\x25\xcd\xa2\x0f\x9d\x48\xfe\x0d\xb7\x88\xb9\x1b\xe5\xe7\xc6\x01\0",
        ],
    ),
    (
        Of::Types(&TWO_TYPES),
        5,
        b"\x01\x01\x06\0\0\0\0\x07\x01\0\0\0\0\x06\0\0\0\x02\x04\0\0\0\x01\0\0\0\x03",
        &[0, 2],
        &[
            b"\x4b\xf5\x12\x2f\x34\x45\x54\xc5\x3b\xde\x2e\xbb\x8c\xd2\xb7\xe3\xd1\x60\x0a\xd6\x31\xc3\x85\xa5\xd7\xcc\xe2\x3c\x77\x85\x45\x9a\x01",
            b"\xf0\x83\x6e\x2d\x8c\x88\x7e\xeb\xc3\xe9\x9d\xd1\x92\x9b\xaa\x6f\x5e\x83\x22\x46\xb7\xf6\x48\x81\xed\x66\x13\xec\x57\xb1\x81\x64\x01",
        ],
    ),
];

/// The program, and an image of it with these records.
fn state(
    alloc: Global,
    of: Of,
    count: u32,
    records: &[u8],
) -> Result<(Box<Program>, Vec<u8>), AllocError> {
    match of {
        Of::Text(text) => Ok((program_of(alloc, text)?, image(alloc, count, records)?)),
        Of::Types(forms) => {
            let program = of_forms(alloc, Format::Second, forms)?;
            let mut bytes = Vec::from_slice(alloc, b"LAI2")?;
            bytes.extend_from_slice(&DIGEST)?;
            bytes.extend_from_slice(&count.to_be_bytes())?;
            bytes.extend_from_slice(records)?;
            Ok((program, bytes))
        }
    }
}

/// Whether the nodes of what is authenticated in the state that an image keeps are these, in this order.
fn is_in_order(
    alloc: Global,
    program: &Program,
    bytes: &[u8],
    nodes: &[usize],
) -> Result<bool, AllocError> {
    let types = program.types();
    let Ok(loaded) = load_image(alloc, types, program.text_digest(), &mut Ideal, bytes) else {
        return Ok(false);
    };
    let order = auth_order(alloc, types, &loaded.store, loaded.root)?;
    Ok(
        order
            .iter()
            .map(|(_, node)| node.0)
            .eq(nodes.iter().copied()),
    )
}

#[test]
fn authenticated_parts_in_the_order_of_the_image(rt: HostRuntime) -> Result<(), Fail> {
    let alloc = rt.alloc();
    for (number, (of, count, records, nodes, _)) in ROWS.iter().enumerate() {
        let (program, bytes) = state(alloc, *of, *count, records)?;
        if !is_in_order(alloc, &program, &bytes, nodes)? {
            return Err(Fail::new(format_args!("row {number}")));
        }
    }
    Ok(())
}

/// The mirror of the state that an image keeps.
fn filled(alloc: Global, program: &Program, bytes: &[u8]) -> Result<Mirror<Sha>, AllocError> {
    let types = program.types();
    let mut marker = ProverMarker::new(alloc, types)?;
    let Ok(loaded) = load_image(alloc, types, program.text_digest(), &mut marker, bytes) else {
        return Err(AllocError);
    };
    let mut mirror = Mirror::new(alloc);
    mirror.fill(types, &loaded.store, loaded.root)?;
    Ok(mirror)
}

/// The file of a mirror with these pieces.
fn file(alloc: Global, pieces: &[&[u8]]) -> Result<Vec<u8>, AllocError> {
    let mut bytes = Vec::from_slice(alloc, b"LAM1")?;
    bytes.extend_from_slice(&u32::try_from(pieces.len()).unwrap_or(0).to_be_bytes())?;
    for piece in pieces {
        bytes.extend_from_slice(&u32::try_from(piece.len()).unwrap_or(0).to_be_bytes())?;
        bytes.extend_from_slice(piece)?;
    }
    Ok(bytes)
}

/// Whether a mirror answers its piece to the digest of each of these, and no piece to another digest.
fn answers(alloc: Global, mirror: &mut Mirror<Sha>, pieces: &[&[u8]]) -> bool {
    for piece in pieces {
        let found = match mirror.fetch(alloc, &Sha::of(piece)) {
            Ok(Got::Piece(got)) => got.as_bytes() == *piece,
            _ => false,
        };
        if !found {
            return false;
        }
    }
    matches!(&mirror.fetch(alloc, &Digest([0; 32])), Ok(Got::Lack))
}

#[test]
fn a_mirror_has_the_pieces_of_a_state(rt: HostRuntime) -> Result<(), Fail> {
    let alloc = rt.alloc();
    for (number, (of, count, records, _, pieces)) in ROWS.iter().enumerate() {
        let (program, bytes) = state(alloc, *of, *count, records)?;
        let mut mirror = filled(alloc, &program, &bytes)?;
        let wanted = file(alloc, pieces)?;
        let saved = mirror
            .save()
            .is_ok_and(|saved| saved.as_slice() == wanted.as_slice());
        if !saved || !answers(alloc, &mut mirror, pieces) {
            return Err(Fail::new(format_args!("row {number}")));
        }
    }
    Ok(())
}

#[test]
fn a_state_that_is_filled_in_again_adds_nothing(rt: HostRuntime) -> Result<(), Fail> {
    let alloc = rt.alloc();
    let (of, count, records, _, _) = ROWS[0];
    let (program, bytes) = state(alloc, of, count, records)?;
    let types = program.types();
    let mut marker = ProverMarker::new(alloc, types)?;
    let Ok(loaded) = load_image(alloc, types, program.text_digest(), &mut marker, &bytes) else {
        return Err(Fail::new(format_args!("no state")));
    };
    let mut mirror: Mirror<Sha> = Mirror::new(alloc);
    mirror.put(b"\0")?;
    mirror.fill(types, &loaded.store, loaded.root)?;
    mirror.fill(types, &loaded.store, loaded.root)?;
    let wanted = file(alloc, &[b"\0", b"\x01"])?;
    assert!(rt;
        mirror
            .save()
            .is_ok_and(|saved| saved.as_slice() == wanted.as_slice())
    );
    Ok(())
}
