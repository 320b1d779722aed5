// States of a program that holds a bool, and clients at them.
use crate::messages::conversation;
use cli_stage::runs::{kept, made};
use program_texts::SWITCH;
use std::alloc::{AllocError, Global};
use std::thread::Threads;

/// The roles of the program, by their numbers.
pub const BOTH: u8 = 1;

pub const FLIP: u8 = 2;

/// The image of the state that a literal makes.
pub fn image<R: Threads + Sync>(
    rt: &R,
    alloc: Global,
    literal: &str,
) -> Result<Vec<u8>, AllocError> {
    Ok(made(rt, alloc, SWITCH, "make", literal)?.file)
}

/// The spelling of the projection of that state.
pub fn state<R: Threads + Sync>(
    rt: &R,
    alloc: Global,
    literal: &str,
) -> Result<Vec<u8>, AllocError> {
    let image = image(rt, alloc, literal)?;
    Ok(kept(rt, alloc, SWITCH, &image)?.file)
}

/// What a client says that greets at that state and runs a call of a role in one round.
pub fn called<R: Threads + Sync>(
    rt: &R,
    alloc: Global,
    literal: &str,
    role: u8,
) -> Result<Vec<u8>, AllocError> {
    let state = state(rt, alloc, literal)?;
    conversation(alloc, SWITCH, &state, role, 1)
}
