// Messages as bytes.
use core_terms::Hash32;
use digest_layer::Sha;
use std::alloc::{AllocError, Global};

/// The greatest number of bytes of a body.
const MAX_BODY: usize = 16_777_216;

/// Adds a message with a body of these parts.
fn add(bytes: &mut Vec<u8>, head: &[u8], tail: &[u8]) -> Result<(), AllocError> {
    let len = head.len().saturating_add(tail.len()).min(MAX_BODY);
    bytes.extend_from_slice(&(len as u32).to_be_bytes())?;
    bytes.extend_from_slice(head)?;
    bytes.extend_from_slice(tail)
}

/// What a client of session 1 says: it greets at a state of the program, calls a role without an argument, lets it run for so many
/// rounds, and leaves.
pub fn conversation(
    alloc: Global,
    program: &[u8],
    state: &[u8],
    role: u8,
    rounds: u32,
) -> Result<Vec<u8>, AllocError> {
    let greeting = greeting(alloc, program, state)?;
    let mut bytes = Vec::new(alloc);
    add(&mut bytes, &[1, 0, 1], &greeting)?;
    call_and_leave(&mut bytes, role, rounds)?;
    Ok(bytes)
}

/// What a greeting at a state of the program says behind its session.
fn greeting(alloc: Global, program: &[u8], state: &[u8]) -> Result<Vec<u8>, AllocError> {
    let mut bytes = Vec::from_slice(alloc, &Sha::of(program).0)?;
    bytes.extend_from_slice(&[0, 0])?;
    bytes.extend_from_slice(state)?;
    Ok(bytes)
}

/// The messages behind the greeting, with fuel 1.
fn call_and_leave(bytes: &mut Vec<u8>, role: u8, rounds: u32) -> Result<(), AllocError> {
    add(bytes, &[2, 0, 1, 0, role, 0, 0, 0, 0, 0, 0, 0, 1], &[])?;
    add(bytes, &[3, 0, 0], &rounds.to_be_bytes())?;
    add(bytes, &[4, 0, 1], &[])
}

/// What two sessions say that race: both greet at a state of the program, call a role without an argument, and run in one round.
pub fn race(alloc: Global, program: &[u8], state: &[u8], role: u8) -> Result<Vec<u8>, AllocError> {
    let greeting = greeting(alloc, program, state)?;
    let mut bytes = Vec::new(alloc);
    greet_and_call(&mut bytes, 1, &greeting, role)?;
    greet_and_call(&mut bytes, 2, &greeting, role)?;
    add(&mut bytes, &[3, 0, 0], &1u32.to_be_bytes())?;
    Ok(bytes)
}

/// A session's greeting, and its call with fuel 1.
fn greet_and_call(
    bytes: &mut Vec<u8>,
    session: u8,
    greeting: &[u8],
    role: u8,
) -> Result<(), AllocError> {
    add(bytes, &[1, 0, session], greeting)?;
    add(
        bytes,
        &[2, 0, session, 0, role, 0, 0, 0, 0, 0, 0, 0, 1],
        &[],
    )
}

/// What is answered to them: the first one's proof has these frames, and the other one is told the last state.
pub fn raced(alloc: Global, frames: &[u8], last: &[u8]) -> Result<Vec<u8>, AllocError> {
    let mut bytes = Vec::new(alloc);
    add(&mut bytes, &[0x81, 0, 1], &[])?;
    add(&mut bytes, &[0x81, 0, 2], &[])?;
    add(&mut bytes, &[0x82, 0, 1], frames)?;
    add(&mut bytes, &[0x83, 0, 2], last)?;
    Ok(bytes)
}

/// What a server answers to it, with a proof of these frames.
pub fn answers(alloc: Global, frames: &[u8]) -> Result<Vec<u8>, AllocError> {
    let mut bytes = Vec::new(alloc);
    add(&mut bytes, &[0x81, 0, 1], &[])?;
    add(&mut bytes, &[0x82, 0, 1], frames)?;
    add(&mut bytes, &[0x85, 0, 1, 0], &[])?;
    Ok(bytes)
}

/// Messages that ask a mirror for the pieces of these bytes.
pub fn fetches(alloc: Global, pieces: &[&[u8]]) -> Result<Vec<u8>, AllocError> {
    let mut bytes = Vec::new(alloc);
    for piece in pieces {
        add(&mut bytes, &[5, 0, 0], &Sha::of(piece).0)?;
    }
    Ok(bytes)
}

/// Answers that give these pieces; a piece that isn't there is lacking.
pub fn given(alloc: Global, pieces: &[Option<&[u8]>]) -> Result<Vec<u8>, AllocError> {
    let mut bytes = Vec::new(alloc);
    for piece in pieces {
        match piece {
            Some(piece) => add(&mut bytes, &[0x86, 0, 0], piece)?,
            None => add(&mut bytes, &[0x87, 0, 0], &[])?,
        }
    }
    Ok(bytes)
}
