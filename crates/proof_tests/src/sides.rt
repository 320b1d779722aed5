// What an owner and a client have of a state, and what both are told of a proof of a call.
ghost use Rattle.std.specs.Prelude.{◌<◌};

use cli_stage::runs::{Call, kept, made, run_words};
use cli_stage::stage::Stage;
use std::alloc::{AllocError, Global};
use std::thread::Threads;

/// A program, the image of a state, which its owner has, and the spelling of its projection, which a client keeps.
#[derive(Drop)]
pub struct Sides<'a> {
    pub program: &'a [u8],
    pub image: Vec<u8>,
    pub state: Vec<u8>,
}

/// What both have of a state that is made by this role of a literal.
pub fn made_sides<'a, R: Threads + Sync>(
    rt: &R,
    alloc: Global,
    program: &'a [u8],
    role: &str,
    literal: &str,
) -> Result<Sides<'a>, AllocError> {
    let image = made(rt, alloc, program, role, literal)?.file;
    sides_of(rt, alloc, program, image)
}

/// What both have of the state with this image.
pub fn sides_of<'a, R: Threads + Sync>(
    rt: &R,
    alloc: Global,
    program: &'a [u8],
    image: Vec<u8>,
) -> Result<Sides<'a>, AllocError> {
    let state = kept(rt, alloc, program, &image)?.file;
    Ok(Sides {
        program,
        image,
        state,
    })
}

impl<'a> Sides<'a> {
    /// The files of the owner, or of the client, beside a proof, of which one read gives so many bytes at most.
    fn stage<'b>(&'b self, is_owner: bool, proof: &'b [u8], most_read: usize) -> Stage<'b>
        requires { 0 < most_read }
        ensures { 0 < result.most_read }
    {
        let state = if is_owner { &self.image } else { &self.state };
        Stage {
            program: self.program,
            state,
            proof,
            most_read,
        }
    }

    /// Whether `verify` tells this of a proof of a call and stores nothing, and so does `audit`, where an outcome is agreed on.
    pub fn are_told<R: Threads + Sync>(
        &self,
        rt: &R,
        alloc: Global,
        call: &Call,
        proof: &[u8],
        most_read: usize,
        told: (u8, &str),
    ) -> Result<bool, AllocError>
        requires { 0 < most_read }
    {
        let (status, line) = told;
        let agreed = if status == 5 { "" } else { "agrees " };
        let audit_line = format!(in alloc; "{agreed}{line}")?;
        Ok(
            self.is_told(rt, alloc, "verify", call, proof, most_read, told)?
                && self.is_told(
                    rt,
                    alloc,
                    "audit",
                    call,
                    proof,
                    most_read,
                    (status, &audit_line),
                )?,
        )
    }

    /// Whether this command tells this of a proof of a call, of which one read gives so many bytes at most, and stores nothing.
    fn is_told<R: Threads + Sync>(
        &self,
        rt: &R,
        alloc: Global,
        command: &str,
        call: &Call,
        proof: &[u8],
        most_read: usize,
        told: (u8, &str),
    ) -> Result<bool, AllocError>
        requires { 0 < most_read }
    {
        let (status, line) = told;
        let words = [command, "p", call.role, "s", call.argument, call.fuel, "q"];
        let stage = self.stage(command == "audit", proof, most_read);
        Ok(run_words(rt, alloc, &stage, &words)?.only_tells(status, line))
    }
}
