//! SHA-256 as the hash of lambda-auth and of the prover's nodes, a digest for tests, and the texts of digests.
#![tactic(auto)]

mod marking;

ghost use Rattle.std.specs.Prelude.{◌≡◌, ◌↔◌, length, IfSome, IsSome};
ghost use Rattle.std.specs.List.{AllPass};
ghost use Rattle.std.specs.Str.{str_to_ascii_lowercase};
ghost use Rattle.hex.specs.Hex.{encode_lower, is_hex_digit};
ghost use Rattle.sha2.specs.Sha256.{sha256};

use core_terms::{Digest, Hash32};
use hex::FromHex;
pub use marking::ProverMarker;
use sha2::{Digest as Hasher, Sha256};

/// SHA-256, as FIPS 180-4 defines it.
pub struct Sha;

impl Hash32 for Sha {
    ghost use Rattle.sha2.proofs.Facts256.{length-sha256};

    ghost hash = { sha256 };

    ghost digest_length = { length-sha256 };

    fn of(bytes: &[u8]) -> Digest {
        Digest(Sha256::digest(bytes))
    }

    // A digest is made for each authenticated value, and LLVM would not inline it by itself.
    #[inline(always)]
    fn of_pair(first: &[u8], second: &[u8]) -> Digest {
        // The first format has no front, and one call costs less than three.
        if first.is_empty() {
            return Sha::of(second);
        }
        Digest(
            Sha256::new()
                .chain_update(first)
                .chain_update(second)
                .finalize(),
        )
    }
}

/// A digest for tests: 31 zero bytes, then the XOR of all bytes.
pub struct Toy;

impl Hash32 for Toy {
    ghost use Rattle.std.specs.Prelude.{refl};
    ghost use Rattle.digest_layer.specs.ToyDigests.{toy_digest};

    ghost hash = { toy_digest };

    ghost digest_length = { λ bytes. refl };

    fn of(bytes: &[u8]) -> Digest {
        let mut digest = [0; 32];
        digest[31] = bytes.iter().fold(0, |folded, byte| folded ^ byte);
        Digest(digest)
    }

    fn of_pair(first: &[u8], second: &[u8]) -> Digest {
        let front = first.iter().fold(0, |folded, byte| folded ^ byte);
        let mut digest = [0; 32];
        digest[31] = second.iter().fold(front, |folded, byte| folded ^ byte);
        Digest(digest)
    }
}

/// The text of a digest: two lower-case hexadecimal digits for each byte, the high one first.
pub fn hex_text(digest: &Digest) -> [u8; 64]
    ensures { result ≡ encode_lower digest.now.0 }
{
    let mut text = [0; 64];
    // The text has room for two digits a byte, so this can't fail.
    let _ = hex::encode_to_slice(&digest.0, &mut text);
    text
}

/// The digest whose text is 64 hexadecimal digits, each of either case; `None` exactly where the text isn't that.
#[tactic(auto, using(crate::proofs::ReadDigits::text_of))]
pub fn read_hex(text: &str) -> Option<Digest>
    ensures digits { IsSome result ↔ ((length text.now ≡ 64) × AllPass is_hex_digit text.now) }
    ensures value { IfSome result (λ digest. encode_lower digest.0 ≡ str_to_ascii_lowercase text.now) }
{
    <[u8; 32] as FromHex>::from_hex(text).ok().map(Digest)
}
