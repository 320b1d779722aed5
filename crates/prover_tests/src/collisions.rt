// Audits of proofs of an int that is opened twice, under a digest for which collisions are easily found. The state is 258.
use crate::stage::{Call, audited, code, proved, source, verdict};
use code_gen::Code;
use collision_audit::Audited;
use core_terms::{Cause, Digest, Outcome};
use digest_layer::Toy;
use std::alloc::{AllocError, Global};
use std::test::Fail;
use value_store::Store;
use verifier_mode::Verdict;

/// A call of `twice` with so much fuel.
const fn twice(fuel: u64) -> Call {
    Call {
        role: "twice",
        state: 258,
        argument: 0,
        fuel,
    }
}

/// The digest of the piece that is asked for.
const WANT: Digest = Digest([
    0, 0, 0, 0, 0, 0, 0, 0, 0, 0, 0, 0, 0, 0, 0, 0, 0, 0, 0, 0, 0, 0, 0, 0, 0, 0, 0, 0, 0, 0, 0, 3,
]);

/// The digest of a spelling that ends in `01 03`.
const OTHER: Digest = Digest([
    0, 0, 0, 0, 0, 0, 0, 0, 0, 0, 0, 0, 0, 0, 0, 0, 0, 0, 0, 0, 0, 0, 0, 0, 0, 0, 0, 0, 0, 0, 0, 2,
]);

/// The piece that is asked for.
const HONEST: &[u8] = b"\0\0\0\0\0\0\x01\x02";

/// The piece `02 01`, which has its digest.
const FALSE: &[u8] = b"\0\0\0\0\0\0\x02\x01";

/// What an audit answers.
#[derive(Clone, Copy)]
enum Told {
    /// The value is this int.
    Agrees(i64),
    /// The fuel runs out.
    Out,
    Rejects(Cause),
    /// This piece, at this place, has the digest of the honest one.
    Collides(u64, &'static [u8]),
}

impl Told {
    /// Whether it is this.
    fn is(&self, audited: &Audited) -> bool {
        match (self, audited) {
            (Told::Agrees(int), Audited::Agrees(Outcome::Done(value))) => {
                value.as_bytes() == int.to_be_bytes().as_slice()
            }
            (Told::Out, Audited::Agrees(Outcome::Out)) => true,
            (Told::Rejects(wanted), Audited::Rejected(cause)) => cause == wanted,
            (Told::Collides(place, offered), Audited::Collision(collision)) => {
                collision.place == *place
                    && collision.offered.as_bytes() == *offered
                    && collision.honest.as_bytes() == HONEST
            }
            _ => false,
        }
    }
}

/// The fuel and a proof, and what an audit of it tells.
static AUDITS: [(u64, &[u8], Told); 20] = [
    // a false answer that is accepted: the first piece that differs is shown
    (
        1,
        b"LAP1\0\0\0\0\0\0\x08\0\0\0\0\0\0\x02\x01\0\0\0\0\x08\0\0\0\0\0\0\x02\x01",
        Told::Collides(0, FALSE),
    ),
    (
        1,
        b"LAP1\0\0\0\0\0\0\x08\0\0\0\0\0\0\x01\x02\0\0\0\0\x08\0\0\0\0\0\0\x02\x01",
        Told::Collides(1, FALSE),
    ),
    // whatever stands behind the first piece that differs
    (
        1,
        b"LAP1\0\0\0\0\0\0\x08\0\0\0\0\0\0\x02\x01\0\0\0\0\x08\0\0\0\0\0\0\0\x03",
        Told::Collides(0, FALSE),
    ),
    (
        1,
        b"LAP1\0\0\0\0\0\0\x08\0\0\0\0\0\0\x02\x01",
        Told::Collides(0, FALSE),
    ),
    (
        1,
        b"LAP1\0\0\0\0\0\0\x08\0\0\0\0\0\0\x02\x01\x07",
        Told::Collides(0, FALSE),
    ),
    // a piece that is no spelling has the digest too
    (1, b"LAP1\0\0\0\0\0\0\x01\x03", Told::Collides(0, b"\x03")),
    // behind a piece of another digest no collision is looked for
    (
        1,
        b"LAP1\0\0\0\0\0\0\x08\0\0\0\0\0\0\x01\x03",
        Told::Rejects(Cause::WrongPiece(0, WANT, OTHER)),
    ),
    (
        1,
        b"LAP1\0\0\0\0\0\0\x08\0\0\0\0\0\0\x01\x03\0\0\0\0\x08\0\0\0\0\0\0\x02\x01",
        Told::Rejects(Cause::WrongPiece(0, WANT, OTHER)),
    ),
    // another number of pieces
    (1, b"LAP1\0\0", Told::Rejects(Cause::Short(0))),
    (
        1,
        b"LAP1\0\0\0\0\0\0\x08\0\0\0\0\0\0\x01\x02",
        Told::Rejects(Cause::Short(1)),
    ),
    (
        1,
        b"LAP1\0\0\0\0\0\0\x08\0\0\0\0\0\0\x01\x02\0\0\0\0\x08\0\0\0\0\0\0\x01\x02\0\0\0\0\x08\0\0\0\0\0\0\x02\x01",
        Told::Rejects(Cause::Leftover(13)),
    ),
    // honest proofs
    (
        1,
        b"LAP1\0\0\0\0\0\0\x08\0\0\0\0\0\0\x01\x02\0\0\0\0\x08\0\0\0\0\0\0\x01\x02",
        Told::Agrees(516),
    ),
    (0, b"LAP1\0\0", Told::Out),
    // a piece that is kept: the honest one, a false one, and a false one behind the honest one
    (
        1,
        b"LAP1\0\x01\0\0\0\0\x08\0\0\0\0\0\0\x01\x02\x01\0\0",
        Told::Agrees(516),
    ),
    (
        1,
        b"LAP1\0\x01\0\0\0\0\x08\0\0\0\0\0\0\x02\x01\x01\0\0",
        Told::Collides(0, FALSE),
    ),
    (
        1,
        b"LAP1\0\x01\0\0\0\0\x08\0\0\0\0\0\0\x01\x02\0\0\0\0\x08\0\0\0\0\0\0\x02\x01",
        Told::Collides(1, FALSE),
    ),
    (
        1,
        b"LAP1\0\x01\0\0\0\0\x08\0\0\0\0\0\0\x01\x02\x01\0\x01",
        Told::Rejects(Cause::BadUse(1, 1, 1)),
    ),
    // a faulty header offers no piece
    (1, b"LAP1\0", Told::Rejects(Cause::Header)),
    (
        1,
        b"LAP2\0\0\0\0\0\0\x08\0\0\0\0\0\0\x02\x01",
        Told::Rejects(Cause::Header),
    ),
    (
        1,
        b"LAP1\x04\x01\0\0\0\0\x08\0\0\0\0\0\0\x02\x01",
        Told::Rejects(Cause::Header),
    ),
];

/// Whether an audit of a proof tells this.
fn tells(
    alloc: Global,
    code: &Code,
    fuel: u64,
    proof: &[u8],
    told: Told,
) -> Result<bool, AllocError> {
    let mut store = Store::new(alloc, code.types().spelling_limit() as u32);
    let mut compared = source(alloc, proof, 3)?;
    Ok(
        match &audited::<Toy>(alloc, code, &mut store, twice(fuel), &mut compared)? {
            Ok(answer) => told.is(answer),
            Err(_) => false,
        },
    )
}

#[test]
fn proofs_are_audited(rt: HostRuntime) -> Result<(), Fail> {
    let code = code(rt.alloc())?;
    for (number, (fuel, proof, told)) in AUDITS.iter().enumerate() {
        if !tells(rt.alloc(), &code, *fuel, proof, *told)? {
            return Err(Fail::new(format_args!("row {number}")));
        }
    }
    Ok(())
}

/// Proofs that the verifier accepts with 513 + 513: the false piece two times, and the same where it is kept.
const ACCEPTED: [&[u8]; 2] = [
    b"LAP1\0\0\0\0\0\0\x08\0\0\0\0\0\0\x02\x01\0\0\0\0\x08\0\0\0\0\0\0\x02\x01",
    b"LAP1\0\x01\0\0\0\0\x08\0\0\0\0\0\0\x02\x01\x01\0\0",
];

#[test]
fn a_false_answer_is_accepted(rt: HostRuntime) -> Result<(), Fail> {
    let code = code(rt.alloc())?;
    for proof in ACCEPTED {
        let mut judged = source(rt.alloc(), proof, 3)?;
        match &verdict::<Toy>(rt.alloc(), &code, twice(1), &mut judged)? {
            Ok(Outcome::Done(value)) => {
                assert!(rt; value.as_bytes() == 1026i64.to_be_bytes().as_slice());
            }
            _ => return Err(Fail::new("not accepted")),
        }
    }
    Ok(())
}

#[test]
fn a_piece_that_is_no_spelling_is_refused(rt: HostRuntime) -> Result<(), Fail> {
    let code = code(rt.alloc())?;
    let mut judged = source(rt.alloc(), b"LAP1\0\0\0\0\0\0\x01\x03", 3)?;
    let refused = verdict::<Toy>(rt.alloc(), &code, twice(1), &mut judged)?;
    assert!(rt; matches!(refused, Err(Verdict::Rejected(Cause::BadPiece(0, 0)))));
    Ok(())
}

/// The frames of the honest proof where a piece is kept.
const FRAMES: &[u8] = b"\0\0\0\0\x08\0\0\0\0\0\0\x01\x02\x01\0\0";

#[test]
fn values_opened_are_pieces_of_the_proof(rt: HostRuntime) -> Result<(), Fail> {
    let code = code(rt.alloc())?;
    let mut store = Store::new(rt.alloc(), code.types().spelling_limit() as u32);
    let told = proved::<Toy>(rt.alloc(), &code, &mut store, twice(1), 1)?;
    assert!(rt; told.frames.as_slice() == FRAMES);
    Ok(())
}
