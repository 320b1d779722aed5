// Files of mirrors, cut anywhere and with each byte changed, loaded beside a plain reader of them.
use core_terms::{Digest, Hash32, MOST_FILE_BYTES};
use digest_layer::{Sha, Toy};
use piece_mirror::{Mirror, MirrorFault};
use std::alloc::{AllocError, Global};
use std::test::Fail;

/// The greatest number of bytes of a piece.
const MOST_BYTES: usize = 1_048_608;

/// Files of no piece, of one without bytes, of one, and of three: without bytes in the middle, of which two differ in one bit, and of which
/// the last two have one XOR of their bytes.
static FILES: [&[u8]; 6] = [
    b"LAM1\0\0\0\0",
    b"LAM1\0\0\0\x01\0\0\0\0",
    b"LAM1\0\0\0\x01\0\0\0\x02ab",
    b"LAM1\0\0\0\x03\0\0\0\x02ab\0\0\0\0\0\0\0\x03abc",
    b"LAM1\0\0\0\x03\0\0\0\x01\x04\0\0\0\x01\x05\0\0\0\x01\x07",
    b"LAM1\0\0\0\x03\0\0\0\x01\x07\0\0\0\x01\x03\0\0\0\x02\x01\x02",
];

/// A number of bytes as a fault tells it.
fn short(number: usize) -> u32 {
    u32::try_from(number).unwrap_or(u32::MAX)
}

/// The number in the four bytes at a place; none where they aren't there.
fn number_at(file: &[u8], place: usize) -> Option<usize> {
    match bytes_at(file, place, 4) {
        Some([a, b, c, d]) => Some(u32::from_be_bytes([*a, *b, *c, *d]) as usize),
        _ => None,
    }
}

/// So many bytes at a place; none where they aren't there.
fn bytes_at(file: &[u8], place: usize, count: usize) -> Option<&[u8]> {
    file.get(place..)?.get(..count)
}

/// The piece whose length stands at a place, behind these others.
fn piece_at<'a>(file: &'a [u8], place: usize, before: &[&[u8]]) -> Result<&'a [u8], MirrorFault> {
    let cut = MirrorFault::Cut(short(file.len()));
    let bad = MirrorFault::BadField(short(place));
    match number_at(file, place) {
        None => return Err(cut),
        Some(length) if length > MOST_BYTES => return Err(bad),
        Some(length) => match bytes_at(file, place.saturating_add(4), length) {
            None => Err(cut),
            Some(piece) if before.contains(&piece) => Err(bad),
            Some(piece) => Ok(piece),
        },
    }
}

/// What the bytes of a file are by the words of the format: pieces, or their first fault from left to right.
fn pieces_of<'a>(
    alloc: Global,
    file: &'a [u8],
) -> Result<Result<Vec<&'a [u8]>, MirrorFault>, AllocError> {
    let cut = MirrorFault::Cut(short(file.len()));
    match bytes_at(file, 0, 4) {
        None => return Ok(Err(cut)),
        Some(magic) if magic != b"LAM1".as_slice() => return Ok(Err(MirrorFault::BadField(0))),
        Some(_) => {}
    }
    let Some(count) = number_at(file, 4) else {
        return Ok(Err(cut));
    };
    let mut pieces = Vec::new(alloc);
    let mut place: usize = 8;
    for _ in 0..count {
        match piece_at(file, place, &pieces) {
            Ok(piece) => {
                pieces.push(piece)?;
                place = place.saturating_add(piece.len()).saturating_add(4);
            }
            Err(fault) => return Ok(Err(fault)),
        }
    }
    match file.len().saturating_sub(place) {
        0 => Ok(Ok(pieces)),
        left => Ok(Err(MirrorFault::Leftover(short(left)))),
    }
}

/// The first piece with this digest.
fn first_with<'a, H: Hash32>(pieces: &[&'a [u8]], digest: &Digest) -> Option<&'a [u8]> {
    for piece in pieces {
        if H::of(piece) == *digest {
            return Some(*piece);
        }
    }
    None
}

/// Whether a mirror has just these pieces, and is saved as this file.
fn is_mirror_of<H: Hash32>(mirror: &Mirror<H>, pieces: &[&[u8]], file: &[u8]) -> bool {
    let nobody = Digest([9; 32]);
    if mirror.count() != pieces.len() || mirror.get(&nobody) != first_with::<H>(pieces, &nobody) {
        return false;
    }
    for piece in pieces {
        let digest = H::of(piece);
        if mirror.get(&digest) != first_with::<H>(pieces, &digest) {
            return false;
        }
    }
    match mirror.save() {
        Ok(saved) => saved.as_slice() == file,
        Err(_) => false,
    }
}

/// Whether bytes are loaded as the plain reader reads them.
fn is_loaded<H: Hash32>(alloc: Global, file: &[u8]) -> Result<bool, AllocError> {
    if file.len() > MOST_FILE_BYTES {
        return Ok(false);
    }
    let wanted = pieces_of(alloc, file)?;
    Ok(match (Mirror::<H>::load(alloc, file), &wanted) {
        (Ok(mirror), Ok(pieces)) => is_mirror_of(&mirror, pieces, file),
        (Err(fault), Err(wanted)) => fault == *wanted,
        _ => false,
    })
}

/// The same with both digests.
fn are_loaded(alloc: Global, file: &[u8]) -> Result<bool, AllocError> {
    Ok(is_loaded::<Sha>(alloc, file)? && is_loaded::<Toy>(alloc, file)?)
}

/// The first length at which a file, with other bytes behind it, is loaded otherwise.
fn other_length(alloc: Global, file: &[u8]) -> Result<Option<usize>, AllocError> {
    let mut bytes = Vec::from_slice(alloc, file)?;
    bytes.extend_from_slice(&[9; 5])?;
    for length in 0..=bytes.len() {
        if !are_loaded(alloc, bytes.get(..length).unwrap_or(&[]))? {
            return Ok(Some(length));
        }
    }
    Ok(None)
}

/// The first place and byte where a file is loaded otherwise.
fn other_byte(alloc: Global, file: &[u8]) -> Result<Option<(usize, u8)>, AllocError> {
    for (place, old) in file.iter().enumerate() {
        for change in 1..=u8::MAX {
            let mut bytes = Vec::from_slice(alloc, file)?;
            if let Some(byte) = bytes.get_mut(place) {
                *byte = old ^ change;
            }
            if !are_loaded(alloc, &bytes)? {
                return Ok(Some((place, old ^ change)));
            }
        }
    }
    Ok(None)
}

#[test]
fn files_of_mirrors_have_their_first_fault(rt: HostRuntime) -> Result<(), Fail> {
    for (number, file) in FILES.iter().enumerate() {
        if let Some(length) = other_length(rt.alloc(), file)? {
            return Err(Fail::new(format_args!("file {number}: {length} bytes")));
        }
        if let Some((place, byte)) = other_byte(rt.alloc(), file)? {
            return Err(Fail::new(format_args!("file {number}: {byte} at {place}")));
        }
    }
    Ok(())
}

/// The file of one piece of so many bytes, with some behind it.
fn file_of_one(alloc: Global, length: u32, behind: &[u8]) -> Result<Vec<u8>, AllocError> {
    let mut bytes = Vec::from_slice(alloc, b"LAM1\0\0\0\x01")?;
    bytes.extend_from_slice(&length.to_be_bytes())?;
    for number in 0..length {
        bytes.push((number % 251) as u8)?;
    }
    bytes.extend_from_slice(behind)?;
    Ok(bytes)
}

#[test]
fn a_piece_is_as_long_as_a_spelling_and_a_fingerprint(rt: HostRuntime) -> Result<(), Fail> {
    for length in [65_536, 1_048_576, 1_048_608, 1_048_609] {
        for behind in [b"".as_slice(), b"\x09"] {
            let file = file_of_one(rt.alloc(), length, behind)?;
            if !are_loaded(rt.alloc(), &file)? {
                return Err(Fail::new(format_args!("a piece of {length} bytes")));
            }
        }
    }
    Ok(())
}
