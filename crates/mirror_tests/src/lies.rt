// One answer is replaced by another one: with SHA-256 it is told which one, and how it differs.
use crate::calls::{CALLS, Call, Told, is_honest, put_all};
use crate::program::code_of;
use crate::trees::pieces;
use crate::witness::{Lie, Witness};
use code_gen::Code;
use core_terms::{Format, Hash32};
use digest_layer::Sha;
use piece_mirror::Mirror;
use std::alloc::{AllocError, Global};
use std::test::Fail;
use wire_form::Wire;

/// Each of the ways in which no answer is read.
const WIRES: [Wire; 4] = [
    Wire::End,
    Wire::Cut,
    Wire::TooLong(16_777_217),
    Wire::BadMessage(0x90, 3),
];

/// The code of the program in a format, and the honest pieces.
#[derive(Drop)]
struct Scene {
    code: Box<Code>,
    pieces: Vec<Vec<u8>>,
    alloc: Global,
}

impl Scene {
    fn new(alloc: Global, format: Format) -> Result<Self, AllocError> {
        let code = code_of(alloc, format)?;
        let pieces = pieces::<Sha>(alloc, format)?;
        Ok(Scene {
            code,
            pieces,
            alloc,
        })
    }

    /// Whether a call is told as it has to be, where a mirror answers but for one lie.
    fn is_told(
        &self,
        mirror: &mut Mirror<Sha>,
        call: &Call,
        place: usize,
        lie: Lie,
    ) -> Result<bool, AllocError> {
        let outcome = call.outcome::<Sha>(self.alloc, &self.pieces)?;
        let want = Sha::of(call.honest(&self.pieces, place));
        let number = place as u64;
        let (told, asked) = match lie {
            Lie::Lack => (Told::Missing(number, want), place),
            Lie::Broken(wire) => (Told::Broken(number, wire), place),
            Lie::Piece(bytes) => {
                let found = Sha::of(bytes);
                if found == want {
                    (Told::Done(&outcome), usize::MAX)
                } else {
                    (Told::WrongPiece(number, want, found), place)
                }
            }
        };
        let mut witness = Witness::lying(self.alloc, mirror, place, lie);
        let answer = call.verdict::<Sha, _>(self.alloc, &self.code, &self.pieces, &mut witness)?;
        let asks = call.asks::<Sha>(&self.pieces, asked.saturating_add(1), witness.asked());
        Ok(asks && told.is(&answer))
    }

    /// Whether it is told that there is no piece at a place, or no answer that is read.
    fn is_lack_told(
        &self,
        mirror: &mut Mirror<Sha>,
        call: &Call,
        place: usize,
    ) -> Result<bool, AllocError> {
        for wire in WIRES {
            if !self.is_told(mirror, call, place, Lie::Broken(wire))? {
                return Ok(false);
            }
        }
        self.is_told(mirror, call, place, Lie::Lack)
    }

    /// Whether it is told that another one of these pieces stands at a place.
    fn are_others_told(
        &self,
        mirror: &mut Mirror<Sha>,
        call: &Call,
        place: usize,
        others: &[Vec<u8>],
    ) -> Result<bool, AllocError> {
        for piece in others {
            if !self.is_told(mirror, call, place, Lie::Piece(piece))? {
                return Ok(false);
            }
        }
        Ok(true)
    }

    /// The first place of a call where a lie isn't told.
    fn untold(&self, mirror: &mut Mirror<Sha>, call: &Call) -> Result<Option<usize>, AllocError> {
        for place in 0..call.asked.len() {
            let changed = changed(self.alloc, call.honest(&self.pieces, place))?;
            let is_told = self.is_lack_told(mirror, call, place)?
                && self.are_others_told(mirror, call, place, &self.pieces)?
                && self.are_others_told(mirror, call, place, &changed)?;
            if !is_told {
                return Ok(Some(place));
            }
        }
        Ok(None)
    }
}

/// A piece with a byte more, with one less, with another first one, without the bytes of a fingerprint, and without any byte.
fn changed(alloc: Global, piece: &[u8]) -> Result<Vec<Vec<u8>>, AllocError> {
    let mut longer = Vec::from_slice(alloc, piece)?;
    longer.push(0)?;
    let mut other = Vec::from_slice(alloc, piece)?;
    if let Some(first) = other.get_mut(0) {
        *first ^= 1;
    }
    let cut = piece.get(..piece.len().saturating_sub(1)).unwrap_or(&[]);
    let mut pieces = Vec::new(alloc);
    pieces.push(longer)?;
    pieces.push(other)?;
    for part in [cut, piece.get(32..).unwrap_or(&[]), &[]] {
        pieces.push(Vec::from_slice(alloc, part)?)?;
    }
    Ok(pieces)
}

/// The first call, and its place, where a lie isn't told; the place is that behind the last one where the honest answers aren't.
fn untold(alloc: Global, format: Format) -> Result<Option<(usize, usize)>, AllocError> {
    let scene = Scene::new(alloc, format)?;
    let mut mirror = Mirror::new(alloc);
    put_all(&mut mirror, &scene.pieces)?;
    for (number, call) in CALLS.iter().enumerate() {
        if !is_honest(alloc, &scene.code, &scene.pieces, &mut mirror, call)? {
            return Ok(Some((number, call.asked.len())));
        }
        if let Some(place) = scene.untold(&mut mirror, call)? {
            return Ok(Some((number, place)));
        }
    }
    Ok(None)
}

#[test]
fn one_lie_is_told(rt: HostRuntime) -> Result<(), Fail> {
    for format in [Format::First, Format::Second] {
        if let Some((number, place)) = untold(rt.alloc(), format)? {
            return Err(Fail::new(format_args!("call {number}: piece {place}")));
        }
    }
    Ok(())
}
