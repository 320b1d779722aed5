// A compiled program, whose code is its own.
ghost use Rattle.std.specs.Prelude.{◌≡◌, ◌∷◌, [], true, IfOk};
ghost use Rattle.core_terms.specs.InstructionViews.{instructions_of};
ghost use Rattle.core_terms.specs.ProgramTrees.{function_of, has_types_below};
ghost use Rattle.core_terms.specs.Programs.{types_in};
ghost use Rattle.core_terms.specs.Types.{IntTy};
ghost use Rattle.term_stage.specs.Compiled as compiled;

use crate::tables::name;
use core_terms::{
    Arith, Digest, Format, Function, Instruction, Kind, LocalId, Name, Program, Term, TyForm, TyId,
    TyTable,
};
use std::alloc::{AllocError, Global};

/// A table of ints alone, and their number.
fn ints(alloc: Global) -> Result<(TyTable, TyId), AllocError>
    ensures types { IfOk result (λ r. types_in r.0 ≡ IntTy ∷ []) }
    ensures number { IfOk result (λ r. r.1.0 ≡ 0) }
{
    let mut types = TyTable::new(Format::First, alloc);
    let int = types.intern(TyForm::IntForm)?;
    Ok((types, int))
}

/// The code of the query.
fn sum_code(int: TyId, alloc: Global) -> Result<Vec<Instruction>, AllocError>
    requires { int.0 ≡ 0 }
    ensures { IfOk result (λ code. instructions_of (IntTy ∷ []) code.items ≡ compiled.sum_code) }
{
    Ok(vec![in alloc;
        Instruction::Load(LocalId(0)),
        Instruction::Auth(int),
        Instruction::Unauth(int),
        Instruction::Load(LocalId(1)),
        Instruction::Arith(Arith::Add),
        Instruction::Return,
    ]?)
}

/// The query of this name, which takes the state and an int.
fn sum_function(name: Name, int: TyId, alloc: Global) -> Result<Function, AllocError>
    requires { int.0 ≡ 0 }
    ensures function { IfOk result (λ function. function_of (IntTy ∷ []) function ≡ compiled.sum_function name) }
    ensures within { IfOk result (λ function. has_types_below 1 function ≡ true) }
{
    Ok(Function {
        name,
        kind: Kind::Query,
        parameters: vec![in alloc; int, int]?,
        result: int,
        body: Term::UnitLiteral,
    })
}

/// The compiled program with the query `sum(s: int, x: int): int`: it authenticates the state, opens it, and adds x.
///
/// # Errors
///
/// `AllocError` where memory runs out.
pub fn sum_program(alloc: Global) -> Result<Box<Program>, AllocError> {
    let (types, int) = ints(alloc)?;
    let code = vec![in alloc; sum_code(int, alloc)?]?;
    let function = sum_function(name(b"sum", alloc)?, int, alloc)?;
    let functions = vec![in alloc; function]?;
    let program = Program::compiled(
        types,
        Vec::new(alloc),
        int,
        functions,
        code,
        Digest([7; 32]),
        alloc,
    );
    Ok(Box::new(alloc, program?)?)
}
