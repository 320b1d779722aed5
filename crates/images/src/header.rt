// The header of an image.
ghost use Rattle.std.specs.Prelude.{◌≡◌, ◌++◌, ℕ, List, length, IfOk};
ghost use Rattle.core_terms.specs.ProgramTypes.{types_meaning};
ghost use Rattle.std.specs.Int.{w32, to_be_bytes};
ghost use Rattle.images.specs.Images.{headed};
ghost use Rattle.images.specs.Loads.{IsHeaded};

use crate::ImageFault;
use core_terms::{Digest, Types};
use std::alloc::{AllocError, Global};

/// What the header of an image says, and the bytes behind it.
#[derive(Clone, Copy)]
pub(crate) struct Header<'a> {
    pub count: u32,
    pub records: &'a [u8],
}

/// The header of an image of the program whose text has this digest. An error is `Magic`, `Cut` or `OtherProgram`.
pub(crate) fn read_header<'a>(
    types: &Types,
    digest: &Digest,
    bytes: &'a [u8],
) -> Result<Header<'a>, ImageFault>
    ensures { IsHeaded (λ go. headed (types_meaning types.now).format.image_magic digest.now.0 bytes.now go) result }
{
    let Some((magic, behind)) = bytes.split_first_chunk::<4>() else {
        return Err(ImageFault::Magic);
    };
    if *magic != types.image_magic() {
        return Err(ImageFault::Magic);
    }
    let Some((of_text, behind)) = behind.split_first_chunk::<32>() else {
        return Err(ImageFault::Cut(bytes.len()));
    };
    let Some((count, records)) = behind.split_first_chunk::<4>() else {
        return Err(ImageFault::Cut(bytes.len()));
    };
    if *of_text != digest.0 {
        return Err(ImageFault::OtherProgram);
    }
    Ok(Header {
        count: u32::from_be_bytes(*count),
        records,
    })
}

/// The header of an image of so many records, of the program whose text has the digest with these 32 bytes.
pub(crate) fn write_header(
    alloc: Global,
    types: &Types,
    digest: &[u8],
    count: u32,
) -> Result<Vec<u8>, AllocError>
    ensures { IfOk result (λ bytes. bytes.items ≡ (types_meaning types.now).format.image_magic ++ digest.now ++ to_be_bytes w32 count) }
{
    let mut bytes = types.image_magic().to_vec(alloc)?;
    bytes.extend_from_slice(digest)?;
    bytes.extend_from_slice(&count.to_be_bytes())?;
    Ok(bytes)
}
