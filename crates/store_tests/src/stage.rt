// Programs and images for the tests, and what loading and saving give.
ghost use Rattle.value_store.specs.Markings.{IdealMarking};

use auth_syntax::parser::parse;
use auth_types::check::check;
use core_terms::{Digest, MOST_PROGRAM_BYTES, Program, TyId, Types};
use images::{ImageFault, load_image, save_image};
use std::alloc::{AllocError, Global};
use value_store::{Held, Marker, Nodes, Ref, Store};

/// The digest that stands for that of each program's text.
pub const DIGEST: [u8; 32] = [7; 32];

/// A marker of ideal nodes.
#[derive(Clone, Copy, Drop)]
pub struct Ideal;

impl Marker for Ideal {
    ghost marking = { IdealMarking };

    ghost Knows = { λ types marker. Unit {0} };

    fn mark_auth(
        &mut self,
        _types: &Types,
        store: &mut Store,
        _ty: TyId,
        inner: Ref,
    ) -> Result<Ref, AllocError> {
        store.put_auth(Held::Inner(inner))
    }
}

/// The program of a text, in a box: it is wide, and tests hold it over many calls.
///
/// # Errors
///
/// `AllocError` where memory runs out, or where the text is no program.
pub fn program_of(alloc: Global, text: &[u8]) -> Result<Box<Program>, AllocError> {
    if text.len() > MOST_PROGRAM_BYTES {
        return Err(AllocError);
    }
    let Ok(ast) = parse(alloc, text) else {
        return Err(AllocError);
    };
    match check(alloc, &ast, Digest(DIGEST)) {
        Ok(program) => Ok(Box::new(alloc, program)?),
        Err(_) => Err(AllocError),
    }
}

/// An image of so many records, which stand in these bytes.
///
/// # Errors
///
/// `AllocError` where memory runs out.
pub fn image(alloc: Global, count: u32, records: &[u8]) -> Result<Vec<u8>, AllocError> {
    let mut bytes = Vec::from_slice(alloc, b"LAI1")?;
    bytes.extend_from_slice(&DIGEST)?;
    bytes.extend_from_slice(&count.to_be_bytes())?;
    bytes.extend_from_slice(records)?;
    Ok(bytes)
}

/// Adds a record of a kind, with the numbers of the records of its parts.
///
/// # Errors
///
/// `AllocError` where memory runs out.
pub fn add_record(records: &mut Vec<u8>, kind: &[u8], parts: &[u32]) -> Result<(), AllocError> {
    records.extend_from_slice(kind)?;
    for part in parts {
        records.extend_from_slice(&part.to_be_bytes())?;
    }
    Ok(())
}

/// The first fault of an image; none where it loads.
pub fn fault_of(alloc: Global, program: &Program, bytes: &[u8]) -> Option<ImageFault> {
    match load_image(
        alloc,
        program.types(),
        program.text_digest(),
        &mut Ideal,
        bytes,
    ) {
        Ok(_) => None,
        Err(fault) => Some(fault),
    }
}

/// How many nodes an image loads; none where it doesn't load.
pub fn nodes_of(alloc: Global, program: &Program, bytes: &[u8]) -> Option<usize> {
    let types = program.types();
    match load_image(alloc, types, program.text_digest(), &mut Ideal, bytes) {
        Ok(loaded) => Some(loaded.store.count()),
        Err(_) => None,
    }
}

/// The image that is saved for the state that an image keeps; none where it doesn't load, or can't be saved.
pub fn saved_again(alloc: Global, program: &Program, bytes: &[u8]) -> Option<Vec<u8>> {
    let types = program.types();
    let digest = program.text_digest();
    let Ok(loaded) = load_image(alloc, types, digest, &mut Ideal, bytes) else {
        return None;
    };
    save_image(alloc, types, digest, &loaded.store, loaded.root).ok()
}

/// Whether the state that an image keeps is saved as these bytes.
pub fn is_saved_as(alloc: Global, program: &Program, bytes: &[u8], saved: &[u8]) -> bool {
    match saved_again(alloc, program, bytes) {
        Some(again) => again.as_slice() == saved,
        None => false,
    }
}
