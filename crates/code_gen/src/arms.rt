// The arms of a match, laid one behind the other.
ghost use Rattle.std.specs.Prelude.{◌≡◌, ◌≤◌, ◌+◌, ◌-◌, ◌++◌, length, map, IfOk, OnOk};
ghost use Rattle.core_terms.specs.Programs.{types_of};
ghost use Rattle.code_gen.specs.CodeTrees.{Adds, listed};
ghost use Rattle.core_terms.specs.InstructionViews.{instructions_of};
ghost use Rattle.core_terms.specs.GeneratedCode as meant;

use crate::pieces::{append, put};
use core_terms::{Instruction, NamedId, Program};
use std::alloc::{AllocError, Global};

/// Adds a match behind its subject: the switch, and its arms.
pub(crate) fn select(
    code: &mut Vec<Instruction>,
    program: &Program,
    named: NamedId,
    arms: Vec<Vec<Instruction>>,
    alloc: Global,
) -> Result<(), AllocError>
    ensures { OnOk result (Adds program.now code.old.items code.new.items (meant.match_code named.0 (map (λ c. listed program.now c.items) arms.items))) }
{
    let layout = laid_out(program, &arms, alloc)?;
    put(code, program, Instruction::Switch(named, layout.places))?;
    lay(code, program, arms, layout.length)
}

/// Where arms begin that are laid one behind the other, and the number of their instructions with the jumps between them.
#[derive(Drop)]
struct Layout {
    places: Vec<usize>,
    length: usize,
}

/// How arms are laid.
fn laid_out(
    program: &Program,
    arms: &[Vec<Instruction>],
    alloc: Global,
) -> Result<Layout, AllocError>
    ensures { IfOk result (λ layout. let codes = map (λ c. listed program.now c.items) arms.now in (layout.places.items ≡ meant.places 0 codes) × (layout.length ≡ length (meant.laid codes))) }
{
    let mut places = Vec::new(alloc);
    let mut end: usize = 0;
    for arm in arms {
        let next = behind(end, arm)?;
        places.push(end)?;
        end = next;
    }
    Ok(Layout {
        places,
        length: end.saturating_sub(1),
    })
}

/// Where an arm begins behind one that begins at `start`. So many instructions are more than memory holds.
fn behind(start: usize, arm: &[Instruction]) -> Result<usize, AllocError>
    ensures { IfOk result (λ next. next ≡ start + (length arm.now + 1)) }
{
    start.checked_add(arm.len() + 1).ok_or(AllocError)
}

/// Adds arms, each but the last one with a jump past the later ones; `total` is the number of instructions added.
fn lay(
    code: &mut Vec<Instruction>,
    program: &Program,
    arms: Vec<Vec<Instruction>>,
    total: usize,
) -> Result<(), AllocError>
    requires { total ≡ length (meant.laid (map (λ c. instructions_of (types_of program.now) c.items) arms.items)) }
    ensures { OnOk result (Adds program.now code.old.items code.new.items (meant.laid (map (λ c. listed program.now c.items) arms.items))) }
{
    let mut left = total;
    for arm in arms {
        left = lay_arm(code, program, arm, left)?;
    }
    Ok(())
}

/// Adds an arm, and the jump behind it where there are later ones. Of the arm and what stands behind it `left` instructions are
/// to be added; it gives how many the later arms have.
fn lay_arm(
    code: &mut Vec<Instruction>,
    program: &Program,
    arm: Vec<Instruction>,
    left: usize,
) -> Result<usize, AllocError>
    requires { length arm.items ≤ left }
    ensures code { OnOk result (listed program.now code.new.items ≡ (listed program.now code.old.items ++ listed program.now arm.items) ++ meant.jump_code (left - length arm.items)) }
    ensures later { IfOk result (λ later. later ≡ left - length arm.items - 1) }
{
    let behind = left - arm.len();
    append(code, program, arm)?;
    put_jump(code, program, behind)?;
    Ok(behind.saturating_sub(1))
}

/// Adds what stands before `left` instructions, the jump among them: nothing where there are none, else the jump past the others.
fn put_jump(code: &mut Vec<Instruction>, program: &Program, left: usize) -> Result<(), AllocError>
    ensures { OnOk result (Adds program.now code.old.items code.new.items (meant.jump_code left)) }
{
    match left.checked_sub(1) {
        Some(others) => put(code, program, Instruction::Jump(others)),
        None => Ok(()),
    }
}
