// The code of a text, and the function of a role that reads the state.
ghost use Rattle.std.specs.Prelude.{◌<◌, length, IfSome};
ghost use Rattle.core_terms.specs.Programs.{meaning};
ghost use Rattle.mode_vm.specs.StateCalls.{TakesState};

use auth_syntax::parser::parse;
use auth_types::check::check;
use code_gen::Code;
use core_terms::{Digest, FunctionId, MOST_PROGRAM_BYTES, Program, RoleId, RoleKind};
use std::alloc::{AllocError, Global};

/// The code of a text with this digest, in a box: it is wide, and tests hold it over many calls.
///
/// # Errors
///
/// `AllocError` where memory runs out, or where the text is no program.
pub fn code_of(alloc: Global, text: &[u8], digest: Digest) -> Result<Box<Code>, AllocError> {
    if text.len() > MOST_PROGRAM_BYTES {
        return Err(AllocError);
    }
    let Ok(ast) = parse(alloc, text) else {
        return Err(AllocError);
    };
    let Ok(program) = check(alloc, &ast, digest) else {
        return Err(AllocError);
    };
    Ok(Box::new(alloc, Code::generate(program, alloc)?)?)
}

/// The function of a role that reads the state.
pub fn reading(program: &Program, name: &str) -> Option<FunctionId>
    ensures { IfSome result (λ f. (f.0 < length (meaning program.now).functions) × TakesState (meaning program.now) f.0) }
{
    let RoleId(number) = program.role(name)?;
    let role = program.roles().get(number)?;
    match role.kind {
        RoleKind::Init => None,
        RoleKind::Query | RoleKind::Update => Some(role.function),
    }
}
