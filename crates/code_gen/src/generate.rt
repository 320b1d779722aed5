// The generator: from terms to instructions.
ghost use Rattle.std.specs.Prelude.{◌≡◌, ◌++◌, ◌∷◌, [], List, map, IfOk, OnOk};
ghost use Rattle.core_terms.specs.Programs.{meaning, types_of};
ghost use Rattle.core_terms.specs.ProgramTrees.{function_of, operation_of};
ghost use Rattle.core_terms.specs.Types.{Ty};
ghost use Rattle.core_terms.specs.GeneratedCode.{operation_code};
ghost use Rattle.code_gen.specs.CodeTrees.{Adds, arms_code, codes_of, listed, single, term_code, terms_code};
ghost use Rattle.core_terms.specs.InstructionViews.{instruction_of};
ghost use Rattle.core_terms.specs.GeneratedCode as meant;
ghost use Rattle.core_terms.specs.Instructions as instruction;

use crate::arms::select;
use crate::pieces::{choose, put, put_text, put_unbind};
use core_terms::{Function, Instruction, NamedId, Operation, Program, Term};
use std::alloc::{AllocError, Global};

/// The instructions of each function of a written program.
pub(crate) fn function_codes(
    program: &Program,
    alloc: Global,
) -> Result<Vec<Vec<Instruction>>, AllocError>
    ensures { IfOk result (λ codes. map (λ c. listed program.now c.items) codes.items ≡ codes_of (meaning program.now)) }
{
    let mut codes = Vec::new(alloc);
    for function in program.functions() {
        let code = function_code(program, function, alloc)?;
        codes.push(code)?;
    }
    Ok(codes)
}

/// The instructions of a function: those of its body, and the return.
fn function_code(
    program: &Program,
    function: &Function,
    alloc: Global,
) -> Result<Vec<Instruction>, AllocError>
    ensures { IfOk result (λ code. listed program.now code.items ≡ (meant.function_code (meaning program.now).types (function_of (types_of program.now) function.now)).code) }
{
    let mut code = Vec::new(alloc);
    emit(&mut code, program, &function.body, alloc)?;
    put(&mut code, program, Instruction::Return)?;
    Ok(code)
}

/// Adds the instructions of a term.
#[cycle(terms)]
fn emit(
    code: &mut Vec<Instruction>,
    program: &Program,
    term: &Term,
    alloc: Global,
) -> Result<(), AllocError>
    ensures { OnOk result (Adds program.now code.old.items code.new.items (term_code program.now term.now)) }
{
    match term {
        Term::UnitLiteral => put(code, program, Instruction::PushUnit),
        Term::BoolLiteral(value) => put(code, program, Instruction::PushBool(*value)),
        Term::IntLiteral(value) => put(code, program, Instruction::PushInt(*value)),
        Term::TextLiteral(text) => put_text(code, program, text, alloc),
        Term::Local(local) => put(code, program, Instruction::Load(*local)),
        Term::Pair(_, _, x, y) => emit_two(code, program, x, y, Instruction::Pair, alloc),
        Term::Fst(_, _, pair) => emit_one(code, program, pair, Instruction::Fst, alloc),
        Term::Snd(_, _, pair) => emit_one(code, program, pair, Instruction::Snd, alloc),
        Term::Not(test) => emit_one(code, program, test, Instruction::Not, alloc),
        Term::Len(text) => emit_one(code, program, text, Instruction::Len, alloc),
        Term::Auth(ty, x) => emit_one(code, program, x, Instruction::Auth(*ty), alloc),
        Term::Unauth(ty, x) => emit_one(code, program, x, Instruction::Unauth(*ty), alloc),
        Term::Constructor(named, tag, fields) => {
            emit_all(
                code,
                program,
                fields,
                Instruction::Make(*named, *tag),
                alloc,
            )
        }
        Term::Arith(op, x, y) => emit_two(code, program, x, y, Instruction::Arith(*op), alloc),
        Term::Compare(op, x, y) => emit_two(code, program, x, y, Instruction::Compare(*op), alloc),
        Term::TextCompare(op, x, y) => {
            emit_two(code, program, x, y, Instruction::TextCompare(*op), alloc)
        }
        Term::Cat(x, y) => emit_two(code, program, x, y, Instruction::Cat, alloc),
        Term::Let {
            bound_type: _,
            bound,
            body,
        } => emit_let(code, program, bound, body, alloc),
        Term::If { test, first, other } => emit_if(code, program, test, first, other, alloc),
        Term::Match {
            named,
            subject,
            arms,
        } => { emit_match(code, program, *named, subject, arms, alloc) }
        Term::Call(function, arguments) => {
            emit_all(
                code,
                program,
                arguments,
                Instruction::Call(*function),
                alloc,
            )
        }
        Term::Operate(operation, operands) => {
            emit_all(code, program, operands, instruction_for(*operation), alloc)
        }
    }
}

/// The instruction of an operation.
fn instruction_for(operation: Operation) -> Instruction
    ensures { (types : List Ty) → instruction_of types result ≡ operation_code (operation_of types operation) }
{
    match operation {
        Operation::VecFill(len, _) => Instruction::VecFill(len),
        Operation::VecGet(_, _) => Instruction::VecGet,
        Operation::VecPut(_, _) => Instruction::VecPut,
    }
}

/// Adds the instructions of a term, and an instruction.
#[cycle(terms)]
fn emit_one(
    code: &mut Vec<Instruction>,
    program: &Program,
    x: &Term,
    instruction: Instruction,
    alloc: Global,
) -> Result<(), AllocError>
    ensures { OnOk result (Adds program.now code.old.items code.new.items (term_code program.now x.now ++ single program.now instruction)) }
{
    emit(code, program, x, alloc)?;
    put(code, program, instruction)
}

/// Adds the instructions of two terms, and an instruction.
#[cycle(terms)]
fn emit_two(
    code: &mut Vec<Instruction>,
    program: &Program,
    x: &Term,
    y: &Term,
    instruction: Instruction,
    alloc: Global,
) -> Result<(), AllocError>
    ensures { OnOk result (Adds program.now code.old.items code.new.items (term_code program.now x.now ++ term_code program.now y.now ++ single program.now instruction)) }
{
    emit(code, program, x, alloc)?;
    emit(code, program, y, alloc)?;
    put(code, program, instruction)
}

/// Adds the instructions of terms in a row, and an instruction.
#[cycle(terms)]
fn emit_all(
    code: &mut Vec<Instruction>,
    program: &Program,
    terms: &[Term],
    instruction: Instruction,
    alloc: Global,
) -> Result<(), AllocError>
    ensures { OnOk result (Adds program.now code.old.items code.new.items (terms_code program.now terms.now ++ single program.now instruction)) }
{
    emit_row(code, program, terms, alloc)?;
    put(code, program, instruction)
}

/// Adds the instructions of terms in a row.
#[cycle(terms)]
fn emit_row(
    code: &mut Vec<Instruction>,
    program: &Program,
    terms: &[Term],
    alloc: Global,
) -> Result<(), AllocError>
    ensures { OnOk result (Adds program.now code.old.items code.new.items (terms_code program.now terms.now)) }
{
    for term in terms {
        emit(code, program, term, alloc)?;
    }
    Ok(())
}

/// Adds the instructions of a term, and those of a body in which its value is the next local.
#[cycle(terms)]
fn emit_let(
    code: &mut Vec<Instruction>,
    program: &Program,
    bound: &Term,
    body: &Term,
    alloc: Global,
) -> Result<(), AllocError>
    ensures { OnOk result (Adds program.now code.old.items code.new.items (term_code program.now bound.now ++ instruction.Bind ∷ term_code program.now body.now ++ instruction.Unbind 1 ∷ [])) }
{
    emit(code, program, bound, alloc)?;
    put(code, program, Instruction::Bind)?;
    emit(code, program, body, alloc)?;
    put(code, program, Instruction::Unbind(1))
}

/// Adds the instructions of a test, and those of its two sides.
#[cycle(terms)]
fn emit_if(
    code: &mut Vec<Instruction>,
    program: &Program,
    test: &Term,
    first: &Term,
    other: &Term,
    alloc: Global,
) -> Result<(), AllocError>
    ensures { OnOk result (Adds program.now code.old.items code.new.items (meant.if_code (term_code program.now test.now) (term_code program.now first.now) (term_code program.now other.now))) }
{
    emit(code, program, test, alloc)?;
    let mut first_code = Vec::new(alloc);
    emit(&mut first_code, program, first, alloc)?;
    let mut other_code = Vec::new(alloc);
    emit(&mut other_code, program, other, alloc)?;
    choose(code, program, first_code, other_code)
}

/// Adds the instructions of a subject, and those of the arms for its constructors.
#[cycle(terms)]
fn emit_match(
    code: &mut Vec<Instruction>,
    program: &Program,
    named: NamedId,
    subject: &Term,
    arms: &[Term],
    alloc: Global,
) -> Result<(), AllocError>
    ensures { OnOk result (Adds program.now code.old.items code.new.items (term_code program.now subject.now ++ meant.match_code named.0 (arms_code program.now named arms.now))) }
{
    emit(code, program, subject, alloc)?;
    let arm_codes = arm_codes(program, named, arms, alloc)?;
    select(code, program, named, arm_codes, alloc)
}

/// The instructions of each arm: those of its body, and behind it the end of its fields.
#[cycle(terms)]
fn arm_codes(
    program: &Program,
    named: NamedId,
    arms: &[Term],
    alloc: Global,
) -> Result<Vec<Vec<Instruction>>, AllocError>
    ensures { IfOk result (λ codes. map (λ c. listed program.now c.items) codes.items ≡ arms_code program.now named arms.now) }
{
    let mut codes = Vec::new(alloc);
    for (tag, arm) in arms.iter().enumerate() {
        let code = arm_code(program, named, tag, arm, alloc)?;
        codes.push(code)?;
    }
    Ok(codes)
}

/// The instructions of the arm for a constructor, by its number.
#[cycle(terms)]
fn arm_code(
    program: &Program,
    named: NamedId,
    tag: usize,
    arm: &Term,
    alloc: Global,
) -> Result<Vec<Instruction>, AllocError>
    ensures { IfOk result (λ code. listed program.now code.items ≡ term_code program.now arm.now ++ meant.unbind_code (meant.field_count (meaning program.now).types named.0 tag)) }
{
    let mut code = Vec::new(alloc);
    emit(&mut code, program, arm, alloc)?;
    put_unbind(&mut code, program, named, tag)?;
    Ok(code)
}
