// Digests and their texts.
use core_terms::{Digest, Hash32};
use digest_layer::{Sha, Toy, hex_text, read_hex};
use std::test::Fail;

/// The text of the digest of `abc`.
const ABC: &[u8; 64] = b"ba7816bf8f01cfea414140de5dae2223b00361a396177a9cb410ff61f20015ad";

/// Bytes and the text of their digest, from FIPS 180-4's examples, and `sha256sum`.
static KNOWN: [(&[u8], &[u8; 64]); 4] = [
    (b"abc", ABC),
    (
        b"",
        b"e3b0c44298fc1c149afbf4c8996fb92427ae41e4649b934ca495991b7852b855",
    ),
    (
        b"\0",
        b"6e340b9cffb37a989ca544e6bb780a2c78901d3fb33738768511a30617afa01d",
    ),
    (
        b"\x01",
        b"4bf5122f344554c53bde2ebb8cd2b7e3d1600ad631c385a5d7cce23c7785459a",
    ),
];

#[test]
fn known_digests(rt: HostRuntime) -> Result<(), Fail> {
    for (number, (bytes, text)) in KNOWN.iter().enumerate() {
        if hex_text(&Sha::of(bytes)) != **text {
            return Err(Fail::new(format_args!("row {number}")));
        }
    }
    Ok(())
}

/// Bytes and the XOR of all of them.
static TOYS: [(&[u8], u8); 4] = [
    (b"\x03\x02", 1),
    (b"\x01\x00", 1),
    (b"\xff\x0f", 0xf0),
    (b"", 0),
];

#[test]
fn the_toy_digest_ends_in_the_xor_of_all_bytes(rt: HostRuntime) -> Result<(), Fail> {
    for (number, (bytes, last)) in TOYS.iter().enumerate() {
        let mut wanted = [0; 32];
        wanted[31] = *last;
        if Toy::of(bytes) != Digest(wanted) {
            return Err(Fail::new(format_args!("row {number}")));
        }
    }
    Ok(())
}

/// Texts, and whether they are read as the digest of `abc`: 64 digits of either case are.
const TEXTS: [(&str, bool); 4] = [
    (
        "ba7816bf8f01cfea414140de5dae2223b00361a396177a9cb410ff61f20015ad",
        true,
    ),
    (
        "BA7816BF8F01CFEA414140DE5DAE2223B00361A396177A9CB410FF61F20015AD",
        true,
    ),
    (
        "ba7816bf8f01cfea414140de5dae2223b00361a396177a9cb410ff61f20015a",
        false,
    ),
    (
        "ba7816bf8f01cfea414140de5dae2223b00361a396177a9cb410ff61f20015ag",
        false,
    ),
];

#[test]
fn reads_64_digits_of_either_case(rt: HostRuntime) -> Result<(), Fail> {
    for (text, is_digest) in TEXTS {
        let wanted = if is_digest {
            Some(Sha::of(b"abc"))
        } else {
            None
        };
        if read_hex(text) != wanted {
            return Err(Fail::new(text));
        }
    }
    Ok(())
}
