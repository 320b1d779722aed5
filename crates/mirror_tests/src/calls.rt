// Calls on the tree, what they ask for, and what is told of them.
use crate::trees::{FIVE, INNER, NEW_ROOT, NINE, ROOT, SEVEN, at};
use crate::witness::Witness;
use call_stage::calls::reading;
use code_gen::Code;
use core_terms::{Digest, Hash32, Outcome, Spelling};
use piece_fetch::{FetchCause, FetchVerdict, verify_from};
use piece_mirror::Mirror;
use std::alloc::{AllocError, Global};
use wire_form::{Fetch, Wire};

/// The greatest number of bytes of a piece.
const MOST_BYTES: usize = 1_048_608;

/// A call: its role and argument, the places of the pieces that it asks for, and its outcome: the digest of the piece at a place, where
/// there is one, and bytes behind it.
#[derive(Clone, Copy)]
pub struct Call {
    pub role: &'static str,
    pub argument: &'static [u8],
    pub asked: &'static [usize],
    pub new: Option<usize>,
    pub answer: &'static [u8],
}

/// To the left and to the right; the sum of the leaves; and 1 more at the first leaf.
pub static CALLS: [Call; 3] = [
    Call {
        role: "get",
        argument: b"\0\0\0\0\0\0\0\x02",
        asked: &[ROOT, INNER, SEVEN],
        new: None,
        answer: b"\0\0\0\0\0\0\0\x07",
    },
    Call {
        role: "total",
        argument: b"",
        asked: &[ROOT, INNER, FIVE, SEVEN, NINE],
        new: None,
        answer: b"\0\0\0\0\0\0\0\x15",
    },
    Call {
        role: "grow",
        argument: b"\0\0\0\0\0\0\0\x01",
        asked: &[ROOT, INNER, FIVE],
        new: Some(NEW_ROOT),
        answer: b"\0\0\0\0\0\0\0\x01",
    },
];

impl Call {
    /// The spelling of the outcome.
    pub fn outcome<H: Hash32>(
        &self,
        alloc: Global,
        pieces: &[Vec<u8>],
    ) -> Result<Vec<u8>, AllocError> {
        let mut bytes = Vec::new(alloc);
        if let Some(place) = self.new {
            bytes.extend_from_slice(H::of(at(pieces, place)).as_bytes())?;
        }
        bytes.extend_from_slice(self.answer)?;
        Ok(bytes)
    }

    /// What is told of the call, where pieces are asked of this one.
    pub fn verdict<H: Hash32, F: Fetch>(
        &self,
        alloc: Global,
        code: &Code,
        pieces: &[Vec<u8>],
        from: &mut F,
    ) -> Result<Result<Outcome<Spelling>, FetchVerdict>, AllocError> {
        let Some(role) = reading(code.program(), self.role) else {
            return Err(AllocError);
        };
        let state = H::of(at(pieces, ROOT));
        Ok(verify_from::<H, F>(
            alloc,
            code,
            role,
            state.as_bytes(),
            self.argument,
            100,
            from,
        ))
    }

    /// The honest piece with a number.
    pub fn honest<'a>(&self, pieces: &'a [Vec<u8>], number: usize) -> &'a [u8] {
        match self.asked.get(number) {
            Some(place) => at(pieces, *place),
            None => &[],
        }
    }

    /// Whether the first so many pieces were asked for by their digests, and nothing else.
    pub fn asks<H: Hash32>(&self, pieces: &[Vec<u8>], count: usize, asked: &[Digest]) -> bool {
        if asked.len() != count.min(self.asked.len()) {
            return false;
        }
        for (place, digest) in self.asked.iter().zip(asked) {
            if H::of(at(pieces, *place)) != *digest {
                return false;
            }
        }
        true
    }
}

/// What is told of a call.
#[derive(Clone, Copy)]
pub enum Told<'a> {
    Done(&'a [u8]),
    Missing(u64, Digest),
    Broken(u64, Wire),
    WrongPiece(u64, Digest, Digest),
    BadPiece(u64, u32),
}

impl Told<'_> {
    /// Whether it is this.
    pub fn is(&self, answer: &Result<Outcome<Spelling>, FetchVerdict>) -> bool {
        match answer {
            Ok(Outcome::Done(value)) => match self {
                Told::Done(bytes) => value.as_bytes() == *bytes,
                _ => false,
            },
            Err(FetchVerdict::Rejected(cause)) => self.is_cause(cause),
            _ => false,
        }
    }

    fn is_cause(&self, cause: &FetchCause) -> bool {
        match (self, cause) {
            (Told::Missing(i, want), FetchCause::Missing(j, other)) => i == j && want == other,
            (Told::Broken(i, wire), FetchCause::Broken(j, other)) => i == j && wire == other,
            (Told::WrongPiece(i, a, b), FetchCause::WrongPiece(j, c, d)) => {
                i == j && a == c && b == d
            }
            (Told::BadPiece(i, offset), FetchCause::BadPiece(j, other)) => {
                i == j && offset == other
            }
            _ => false,
        }
    }
}

/// Puts pieces into a mirror, in this order.
///
/// # Errors
///
/// `AllocError` where memory runs out, and where a piece is too long.
pub fn put_all<H: Hash32>(mirror: &mut Mirror<H>, pieces: &[Vec<u8>]) -> Result<(), AllocError> {
    for piece in pieces {
        if piece.len() > MOST_BYTES {
            return Err(AllocError);
        }
        mirror.put(piece)?;
    }
    Ok(())
}

/// Whether a call is told so where pieces are asked of a mirror, which is asked for all of its pieces alone.
pub fn is_honest<H: Hash32>(
    alloc: Global,
    code: &Code,
    pieces: &[Vec<u8>],
    mirror: &mut Mirror<H>,
    call: &Call,
) -> Result<bool, AllocError> {
    let outcome = call.outcome::<H>(alloc, pieces)?;
    let mut witness = Witness::honest(alloc, mirror);
    let answer = call.verdict::<H, _>(alloc, code, pieces, &mut witness)?;
    Ok(Told::Done(&outcome).is(&answer) && call.asks::<H>(pieces, usize::MAX, witness.asked()))
}
