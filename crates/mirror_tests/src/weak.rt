// Two pieces of one digest, under a digest for tests: what is told of a call where the mirror gives the false one.
use crate::calls::{CALLS, Call, Told, is_honest, put_all};
use crate::program::code_of;
use crate::trees::pieces;
use crate::witness::Witness;
use core_terms::{Digest, Format, Hash32};
use digest_layer::Toy;
use piece_mirror::Mirror;
use std::alloc::{AllocError, Global};
use std::test::Fail;

/// The places of the calls.
const GET: usize = 0;

const TOTAL: usize = 1;

const GROW: usize = 2;

/// A call, a false piece, and what is told.
type Row = (usize, &'static [u8], Told<'static>);

/// The digest that no piece has.
const NOBODY: Digest = Digest([
    0, 0, 0, 0, 0, 0, 0, 0, 0, 0, 0, 0, 0, 0, 0, 0, 0, 0, 0, 0, 0, 0, 0, 0, 0, 0, 0, 0, 0, 0, 0,
    0x20,
]);

/// In the first format. The digests end in 5, 7 and 9 for the leaves, in 3 for the inner node and in 11 for the root.
static FIRST: [Row; 10] = [
    // another leaf, to the left of which all is honest; the sum has it too, and so has the new state
    (
        GET,
        b"\0\0\0\0\0\0\0\x01\x06",
        Told::Done(b"\0\0\0\0\0\0\x01\x06"),
    ),
    (
        TOTAL,
        b"\0\0\0\0\0\0\0\x01\x06",
        Told::Done(b"\0\0\0\0\0\0\x01\x14"),
    ),
    (
        GROW,
        b"\0\0\0\0\0\0\0\x01\x04",
        Told::Done(
            b"\0\0\0\0\0\0\0\0\0\0\0\0\0\0\0\0\0\0\0\0\0\0\0\0\0\0\0\0\0\0\0\x0a\0\0\0\0\0\0\0\x01",
        ),
    ),
    // a leaf in place of the root
    (
        GET,
        b"\0\0\0\0\0\0\0\0\x0b",
        Told::Done(b"\0\0\0\0\0\0\0\x0b"),
    ),
    // a node in place of the leaf, which has another leaf of the tree, and one that has none
    (
        GET,
        b"\x01\0\0\0\0\0\0\0\0\0\0\0\0\0\0\0\0\0\0\0\0\0\0\0\0\0\0\0\0\0\0\0\x05\0\0\0\0\0\0\0\0\0\0\0\0\0\0\0\0\0\0\0\0\0\0\0\0\0\0\0\0\0\0\0\x03",
        Told::Done(b"\0\0\0\0\0\0\0\x05"),
    ),
    (
        GET,
        b"\x01\0\0\0\0\0\0\0\0\0\0\0\0\0\0\0\0\0\0\0\0\0\0\0\0\0\0\0\0\0\0\0\x20\0\0\0\0\0\0\0\0\0\0\0\0\0\0\0\0\0\0\0\0\0\0\0\0\0\0\0\0\0\0\0\x26",
        Told::Missing(3, NOBODY),
    ),
    // a constructor that isn't there, an int that isn't whole, a byte too many
    (GET, b"\x07", Told::BadPiece(2, 0)),
    (GET, b"\0\0\x07", Told::BadPiece(2, 1)),
    (GET, b"\0\0\0\0\0\0\0\0\x07\0", Told::BadPiece(2, 9)),
    (GET, b"\x03", Told::BadPiece(1, 0)),
];

/// In the second format. The fingerprint of a tree is 31 zeros and 0x3a, and that of an int 31 zeros and 2.
static SECOND: [Row; 9] = [
    (
        GET,
        b"\0\0\0\0\0\0\0\0\0\0\0\0\0\0\0\0\0\0\0\0\0\0\0\0\0\0\0\0\0\0\0\x3a\0\0\0\0\0\0\0\x01\x06",
        Told::Done(b"\0\0\0\0\0\0\x01\x06"),
    ),
    (
        GROW,
        b"\0\0\0\0\0\0\0\0\0\0\0\0\0\0\0\0\0\0\0\0\0\0\0\0\0\0\0\0\0\0\0\x3a\0\0\0\0\0\0\0\x01\x04",
        Told::Done(
            b"\0\0\0\0\0\0\0\0\0\0\0\0\0\0\0\0\0\0\0\0\0\0\0\0\0\0\0\0\0\0\0\x30\0\0\0\0\0\0\0\x01",
        ),
    ),
    (
        GET,
        b"\0\0\0\0\0\0\0\0\0\0\0\0\0\0\0\0\0\0\0\0\0\0\0\0\0\0\0\0\0\0\0\x3a\0\0\0\0\0\0\0\0\x0b",
        Told::Done(b"\0\0\0\0\0\0\0\x0b"),
    ),
    // no fingerprint in front: another first byte, and another one behind eight zeros
    (GET, b"\x3d", Told::BadPiece(2, 0)),
    (GET, b"\0\0\0\0\0\0\0\0\x3d", Told::BadPiece(2, 8)),
    // the fingerprint of an int
    (
        GET,
        b"\0\0\0\0\0\0\0\0\0\0\0\0\0\0\0\0\0\0\0\0\0\0\0\0\0\0\0\0\0\0\0\x02\0\0\0\0\0\0\0\0\x3f",
        Told::BadPiece(2, 31),
    ),
    // behind the right one a constructor that isn't there, an int that isn't whole, a byte too many
    (
        GET,
        b"\0\0\0\0\0\0\0\0\0\0\0\0\0\0\0\0\0\0\0\0\0\0\0\0\0\0\0\0\0\0\0\x3a\x07",
        Told::BadPiece(2, 32),
    ),
    (
        GET,
        b"\0\0\0\0\0\0\0\0\0\0\0\0\0\0\0\0\0\0\0\0\0\0\0\0\0\0\0\0\0\0\0\x3a\0\0\x07",
        Told::BadPiece(2, 33),
    ),
    (
        GET,
        b"\0\0\0\0\0\0\0\0\0\0\0\0\0\0\0\0\0\0\0\0\0\0\0\0\0\0\0\0\0\0\0\x3a\0\0\0\0\0\0\0\0\x07\0",
        Told::BadPiece(2, 41),
    ),
];

/// Whether an answer differs from the honest one, and the first that does has one digest with it.
fn is_split(call: &Call, pieces: &[Vec<u8>], answered: &[Vec<u8>]) -> bool {
    for (number, piece) in answered.iter().enumerate() {
        let honest = call.honest(pieces, number);
        if honest != piece.as_slice() {
            return Toy::of(honest) == Toy::of(piece);
        }
    }
    false
}

/// Whether a row is told where the false piece was put before the honest ones, and the truth where it was put behind them.
fn is_told(alloc: Global, format: Format, row: &Row) -> Result<bool, AllocError> {
    let (number, lie, told) = row;
    let Some(call) = CALLS.get(*number) else {
        return Ok(false);
    };
    let code = code_of(alloc, format)?;
    let pieces = pieces::<Toy>(alloc, format)?;
    let mut lies = Vec::new(alloc);
    lies.push(Vec::from_slice(alloc, lie)?)?;
    let mut mirror: Mirror<Toy> = Mirror::new(alloc);
    put_all(&mut mirror, &lies)?;
    put_all(&mut mirror, &pieces)?;
    let mut witness = Witness::honest(alloc, &mut mirror);
    let answer = call.verdict::<Toy, _>(alloc, &code, &pieces, &mut witness)?;
    if !told.is(&answer) || !is_split(call, &pieces, witness.answered()) {
        return Ok(false);
    }
    let mut mirror: Mirror<Toy> = Mirror::new(alloc);
    put_all(&mut mirror, &pieces)?;
    put_all(&mut mirror, &lies)?;
    is_honest(alloc, &code, &pieces, &mut mirror, call)
}

#[test]
fn the_first_of_two_pieces_is_taken(rt: HostRuntime) -> Result<(), Fail> {
    for (number, row) in FIRST.iter().enumerate() {
        if !is_told(rt.alloc(), Format::First, row)? {
            return Err(Fail::new(format_args!("first format: row {number}")));
        }
    }
    for (number, row) in SECOND.iter().enumerate() {
        if !is_told(rt.alloc(), Format::Second, row)? {
            return Err(Fail::new(format_args!("second format: row {number}")));
        }
    }
    Ok(())
}
