// Which bytes are an object that is accepted.
ghost use Rattle.std.specs.Prelude.{◌≡◌, ◌≤◌, true, length, IfOk, IfErr};
ghost use Rattle.core_terms.specs.ProgramSizes.{IsWithinLimits};
ghost use Rattle.core_terms.specs.Programs.{meaning};
ghost use Rattle.core_terms.specs.Typing.{is_shaped, is_typed};
ghost use Rattle.core_terms.specs.Kinds as kinds;
ghost use Rattle.object_meaning.specs.Accepting.{accepting, kinds_judged, shape_fault, shapes_judged};
ghost use Rattle.object_meaning.specs.ObjectBodies.{body_in, program_in};
ghost use Rattle.object_meaning.specs.Objects as meant;
ghost use Rattle.code_check.specs.Acceptances.{AcceptsAs, AreParts, JudgesAs};
ghost use Rattle.code_check.specs.Faults.{FaultsAs};
ghost use Rattle.code_check.specs.ObjectParts.{parts_program};

use crate::ObjectFault;
use crate::kinds::kind_fault;
use crate::listed::parts_of;
use crate::parts::Parts;
use crate::shapes::shape_fault;
use core_terms::{Digest, Program};
use object_reader::read_object;
use std::alloc::{AllocError, Global};

/// The program of an object of at most 4,194,304 bytes, which have this digest. It is compiled, well-typed, and each of its roles has its
/// shape: so its code is never stuck, whoever wrote it. Each named type, which has no name in an object, is named `type`.
///
/// # Errors
///
/// The first fault, in this order: of the fields from left to right (`Cut`, `BadField`), of the end (`Leftover`), of the shapes of all
/// roles (`Shape`), of the kinds of all instructions (`Kind`). `NoMemory` where there is none for the program; it says nothing of the bytes.
pub fn accept(alloc: Global, bytes: &[u8], digest: Digest) -> Result<Program, ObjectFault>
    requires fits { length bytes.now ≤ 4194304 }
    ensures accepts { AcceptsAs (accepting bytes.now) result }
    ensures digest { IfOk result (λ program. program.text_digest ≡ digest) }
{
    let parts = parts_in(alloc, bytes)?;
    judge(alloc, &parts)?;
    Ok(compiled(alloc, Box::into_inner(parts), digest)?)
}

/// The parts of the object that the bytes are, before its shapes and its kinds are judged.
///
/// # Errors
///
/// The first fault of a field or of the end, as `accept` has them, or `NoMemory`.
fn parts_in(alloc: Global, bytes: &[u8]) -> Result<Box<Parts>, ObjectFault>
    ensures parts { IfOk result (λ parts. AreParts bytes.now parts.value) }
    ensures fault { IfErr result (λ fault. FaultsAs (accepting bytes.now) fault) }
{
    let object = read_object(alloc, bytes)?;
    let parts = parts_of(alloc, &object)?;
    Ok(Box::new(alloc, parts)?)
}

/// Whether the object with these parts is accepted.
///
/// # Errors
///
/// The first role that has not its shape, else the first instruction at fault; or `NoMemory`.
fn judge(alloc: Global, parts: &Parts) -> Result<(), ObjectFault>
    ensures { (o : meant.Object) → parts_program parts.now ≡ program_in o → JudgesAs o (shapes_judged o (shape_fault (program_in o))) result }
{
    match shape_fault(alloc, parts)? {
        Some(function) => Err(ObjectFault::Shape(function)),
        None => judge_kinds(alloc, parts),
    }
}

/// The same, where each role has its shape.
fn judge_kinds(alloc: Global, parts: &Parts) -> Result<(), ObjectFault>
    ensures { (o : meant.Object) → parts_program parts.now ≡ program_in o → JudgesAs o (kinds_judged o (kinds.kind_fault (body_in o))) result }
{
    match kind_fault(alloc, parts)? {
        Some(spot) => Err(ObjectFault::Kind(spot.function, spot.instruction)),
        None => Ok(()),
    }
}

/// The program of these parts.
fn compiled(alloc: Global, parts: Parts, digest: Digest) -> Result<Program, AllocError>
    requires typed { is_typed (parts_program parts) ≡ true }
    requires shaped { is_shaped (parts_program parts) ≡ true }
    requires limits { IsWithinLimits (parts_program parts) }
    ensures meaning { IfOk result (λ program. meaning program ≡ parts_program parts) }
    ensures named { IfOk result (λ program. program.types.named.items ≡ parts.named.items) }
    ensures digest { IfOk result (λ program. program.text_digest ≡ digest) }
{
    let Parts {
        types,
        named,
        state,
        functions,
        code,
    } = parts;
    Program::compiled(types, named, state, functions, code, digest, alloc)
}
