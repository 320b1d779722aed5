// The instructions on ints.
ghost use Rattle.std.specs.Prelude.{◌≡◌, ◌+◌, ◌<◌, ◌^◌, ℕ, IfOk};
ghost use Rattle.core_terms.specs.Instructions as instruction;
ghost use Rattle.core_terms.specs.Types.{IntTy, Table};
ghost use Rattle.core_terms.specs.Values.{Value};
ghost use Rattle.ideal_meaning.specs.Run as meant;
ghost use Rattle.value_store.specs.Markings.{Marking};
ghost use Rattle.value_store.specs.Standing.{Kind};
ghost use Rattle.mode_vm.specs.Calculations.{Makes, calculation_of};
ghost use Rattle.mode_vm.specs.Operands.{IsHeld};
ghost use Rattle.mode_vm.specs.Meanings.{CauseOf, StateOf, program_of};

use crate::frame::Frame;
use crate::operand::Operand;
use crate::values::int_in;
use code_gen::Code;
use core_terms::{Arith, Compare, Trap};
use std::alloc::AllocError;
use value_store::Nodes;

impl Frame {
    ghost use Rattle.mode_vm.specs.Outcomes.{Does, IsBefore};

    /// Pushes the result of an operation on two ints, or traps.
    #[inline(always)]
    pub(crate) fn arith<N: Nodes>(
        &mut self,
        code: &Code,
        store: &N,
        op: Arith,
    ) -> Result<Option<Trap>, AllocError>
        requires before { IsBefore (program_of code.now) (N.nodes store.now) self.old (instruction.ArithOp op) }
        requires room { self.old.place + 1 < 2 ^ 64 }
        ensures does { Does (program_of code.now) (instruction.ArithOp op) (N.nodes store.now) (N.nodes store.now) self.old self.new result }
    {
        let (first, second) = self.pop_two();
        let made = new_result(store, op, first, second);
        self.finish(made)
    }

    /// Pushes whether a comparison of two ints holds.
    #[inline(always)]
    pub(crate) fn compare<N: Nodes>(
        &mut self,
        code: &Code,
        store: &N,
        op: Compare,
    ) -> Result<Option<Trap>, AllocError>
        requires before { IsBefore (program_of code.now) (N.nodes store.now) self.old (instruction.CompareOp op) }
        requires room { self.old.place + 1 < 2 ^ 64 }
        ensures does { Does (program_of code.now) (instruction.CompareOp op) (N.nodes store.now) (N.nodes store.now) self.old self.new result }
    {
        let (first, second) = self.pop_two();
        let x = int_in(store, first);
        let y = int_in(store, second);
        let holds = compared(op, x, y);
        self.finish(Ok(Operand::Bool(holds)))
    }
}

/// The result of an operation on two ints.
#[inline(always)]
fn new_result<N: Nodes>(
    store: &N,
    op: Arith,
    first: Operand,
    second: Operand,
) -> Result<Operand, Trap>
    requires first { (kind : Kind) × (types : Table) × (v : Value) × IsHeld kind types (N.nodes store.now) first IntTy v }
    requires second { (kind : Kind) × (types : Table) × (v : Value) × IsHeld kind types (N.nodes store.now) second IntTy v }
    ensures makes { (m : Marking) (kind : Kind) (types : Table) (x y : Value) → IsHeld kind types (N.nodes store.now) first IntTy x → IsHeld kind types (N.nodes store.now) second IntTy y
        → Makes m kind types (N.nodes store.now) IntTy (meant.arith_of op (meant.int_in x) (meant.int_in y)) result }
{
    let x = int_in(store, first);
    let y = int_in(store, second);
    match calculated(op, x, y) {
        Ok(z) => Ok(Operand::Int(z)),
        Err(trap) => Err(trap),
    }
}

/// The result of an operation on two ints.
#[inline(always)]
fn calculated(op: Arith, x: i64, y: i64) -> Result<i64, Trap>
    ensures { (m : Marking) (k : ℕ) (w : StateOf m) → meant.arith_of {C = CauseOf m} op x y k w ≡ calculation_of result k w }
{
    match op {
        Arith::Add => x.checked_add(y).ok_or(Trap::Overflow),
        Arith::Sub => x.checked_sub(y).ok_or(Trap::Overflow),
        Arith::Mul => x.checked_mul(y).ok_or(Trap::Overflow),
        Arith::Div => {
            if y == 0 {
                return Err(Trap::DivZero);
            }
            x.checked_div(y).ok_or(Trap::Overflow)
        }
        Arith::Rem => {
            if y == 0 {
                return Err(Trap::DivZero);
            }
            x.checked_rem(y).ok_or(Trap::Overflow)
        }
    }
}

/// Whether a comparison of two ints holds.
#[inline(always)]
fn compared(op: Compare, x: i64, y: i64) -> bool
    ensures { result ≡ meant.compare_of op x y }
{
    match op {
        Compare::Eq => x == y,
        Compare::Lt => x < y,
        Compare::Le => x <= y,
    }
}
