// The stack of the locals of all frames, or that of their operands.
ghost use Rattle.std.specs.Prelude.{◌≡◌, ◌≤◌, ◌<◌, ◌-◌, ◌++◌, ◌∷◌, [], List, Some, OnOk, length, take, drop, slice_get};
ghost use Rattle.mode_vm.specs.Operands.{all_at};
ghost use Rattle.mode_vm.specs.Stacks.{IsMoved, Stacked, cut_at};

use crate::operand::Operand;
use std::alloc::{AllocError, Global};
use std::marker::Model;
use value_store::Ref;

/// How many operands there is room for at first, where there is memory: else it is asked for as they are pushed.
const FIRST_OPERANDS: usize = 64;

/// The locals of all frames, or their operands, the top one last: those of the frames that wait, and from `base` on those of the
/// running frame. A contract sees the two parts apart.
#[derive(Drop)]
pub struct Stack {
    /// The operands, and behind them room that is written over, so that few pushes ask for memory.
    all: Vec<Operand>,
    /// How many operands there are.
    count: usize,
    base: usize,
}

impl Model for Stack {
    ghost Value = { Stacked };

    ghost view = { λ s. cut_at s.base (take s.count s.all.items) };

    ghost invariant = { λ s. (s.base ≤ s.count) × (s.count ≤ length s.all.items) };
}

impl Stack {
    pub(crate) fn new(alloc: Global) -> Self
        ensures below { result.below ≡ [] }
        ensures items { result.items ≡ [] }
    {
        let all = match Vec::from_elem(alloc, Operand::Unit, FIRST_OPERANDS) {
            Ok(all) => all,
            Err(_) => Vec::new(alloc),
        };
        Stack {
            all,
            count: 0,
            base: 0,
        }
    }

    /// The operand of the running frame at a place.
    pub(crate) fn at(&self, index: usize) -> Operand
        requires { index < length self.now.items }
        ensures { slice_get self.now.items index ≡ Some result }
    {
        self.all[self.base + index]
    }

    /// As many of the topmost operands of the running frame.
    pub(crate) fn topmost(&self, count: usize) -> &[Operand]
        requires { count ≤ length self.now.items }
        ensures { result.now ≡ drop (length self.now.items - count) self.now.items }
    {
        &self.all[self.count - count..self.count]
    }

    /// Pushes an operand of the running frame.
    #[inline(always)]
    pub(crate) fn push(&mut self, operand: Operand) -> Result<(), AllocError>
        ensures below { OnOk result (self.new.below ≡ self.old.below) }
        ensures items { OnOk result (self.new.items ≡ self.old.items ++ operand ∷ []) }
    {
        if self.count < self.all.len() {
            self.all[self.count] = operand;
        } else {
            self.all.push(operand)?;
        }
        self.count += 1;
        Ok(())
    }

    /// Pushes some operands of the running frame, the last of them on top.
    #[inline(always)]
    pub(crate) fn push_all(&mut self, operands: &[Operand]) -> Result<(), AllocError>
        ensures below { OnOk result (self.new.below ≡ self.old.below) }
        ensures items { OnOk result (self.new.items ≡ self.old.items ++ operands.now) }
    {
        for operand in operands {
            self.push(*operand)?;
        }
        Ok(())
    }

    /// Pushes some nodes, the last of them on top.
    pub(crate) fn push_nodes(&mut self, nodes: &[Ref]) -> Result<(), AllocError>
        ensures below { OnOk result (self.new.below ≡ self.old.below) }
        ensures items { OnOk result (self.new.items ≡ self.old.items ++ all_at nodes.now) }
    {
        for r in nodes {
            self.push(Operand::At(*r))?;
        }
        Ok(())
    }

    /// Pops the top operand of the running frame.
    pub(crate) fn pop(&mut self) -> Operand
        requires { 0 < length self.old.items }
        ensures below { self.new.below ≡ self.old.below }
        ensures items { self.old.items ≡ self.new.items ++ result ∷ [] }
    {
        self.count -= 1;
        self.all[self.count]
    }

    /// Drops as many of the topmost operands of the running frame.
    pub(crate) fn drop_last(&mut self, count: usize)
        requires { count ≤ length self.old.items }
        ensures below { self.new.below ≡ self.old.below }
        ensures items { self.new.items ≡ take (length self.old.items - count) self.old.items }
    {
        self.count -= count;
    }

    /// Drops all that the running frame has.
    pub(crate) fn clear(&mut self)
        ensures below { self.new.below ≡ self.old.below }
        ensures items { self.new.items ≡ [] }
    {
        self.count = self.base;
    }

    /// Moves as many of the topmost operands of the running frame onto another stack, in their order.
    #[inline(always)]
    pub(crate) fn move_to(&mut self, count: usize, to: &mut Stack) -> Result<(), AllocError>
        requires { count ≤ length self.old.items }
        ensures below { OnOk result (self.new.below ≡ self.old.below) }
        ensures below_there { OnOk result (to.new.below ≡ to.old.below) }
        ensures moved { OnOk result (IsMoved count self.old.items to.old.items self.new.items to.new.items) }
    {
        to.push_all(self.topmost(count))?;
        self.drop_last(count);
        Ok(())
    }

    /// Begins the part of a further frame, which has nothing yet, and tells where that of the frame begins which waits for it.
    pub(crate) fn enter(&mut self) -> usize
        ensures base { result ≡ length self.old.below }
        ensures below { self.new.below ≡ self.old.below ++ self.old.items }
        ensures items { self.new.items ≡ [] }
    {
        let base = self.base;
        self.base = self.count;
        base
    }

    /// Drops all that the running frame has, and goes back to the frame whose part begins there.
    pub(crate) fn leave(&mut self, base: usize)
        requires { base ≤ length self.old.below }
        ensures { self.new ≡ cut_at base self.old.below }
    {
        self.count = self.base;
        self.base = base;
    }
}
