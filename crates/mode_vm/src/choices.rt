// Choices and jumps.
ghost use Rattle.std.specs.Prelude.{◌≡◌, ◌+◌, ◌<◌, ◌^◌, length};
ghost use Rattle.core_terms.specs.Instructions as instruction;
ghost use Rattle.value_store.specs.Standing.{Keeps};
ghost use Rattle.core_terms.specs.Bodies.{code_at};
ghost use Rattle.core_terms.specs.GeneratedCode.{generated};
ghost use Rattle.mode_vm.specs.Meanings.{program_of};

use crate::frame::Frame;
use crate::operand::{Operand, node_in};
use crate::values::bool_in;
use code_gen::Code;
use core_terms::{NamedId, Trap};
use std::alloc::AllocError;
use value_store::{Nodes, View};

impl Frame {
    ghost use Rattle.mode_vm.specs.Outcomes.{Does, IsBefore};

    /// Negates a bool.
    pub(crate) fn not<N: Nodes>(
        &mut self,
        code: &Code,
        store: &N,
    ) -> Result<Option<Trap>, AllocError>
        requires before { IsBefore (program_of code.now) (N.nodes store.now) self.old instruction.Not }
        requires room { self.old.place + 1 < 2 ^ 64 }
        ensures does { Does (program_of code.now) instruction.Not (N.nodes store.now) (N.nodes store.now) self.old self.new result }
    {
        let r = self.pop();
        let value = bool_in(store, r);
        self.finish(Ok(Operand::Bool(!value)))
    }

    /// Pops a bool, and passes over some instructions where it is false.
    #[inline(always)]
    pub(crate) fn branch<N: Nodes>(
        &mut self,
        code: &Code,
        store: &N,
        skip: usize,
    ) -> Result<Option<Trap>, AllocError>
        requires before { IsBefore (program_of code.now) (N.nodes store.now) self.old (instruction.Branch skip) }
        requires length { length (code_at (generated (program_of code.now)) self.old.function.0).code < 2 ^ 64 }
        ensures does { Does (program_of code.now) (instruction.Branch skip) (N.nodes store.now) (N.nodes store.now) self.old self.new result }
    {
        let r = self.pop();
        if bool_in(store, r) {
            self.place += 1;
            return Ok(None);
        }
        self.place = self.place + 1 + skip;
        Ok(None)
    }

    /// Passes over some instructions.
    pub(crate) fn jump<N: Nodes>(
        &mut self,
        code: &Code,
        store: &N,
        count: usize,
    ) -> Result<Option<Trap>, AllocError>
        requires before { IsBefore (program_of code.now) (N.nodes store.now) self.old (instruction.Jump count) }
        requires length { length (code_at (generated (program_of code.now)) self.old.function.0).code < 2 ^ 64 }
        ensures does { Does (program_of code.now) (instruction.Jump count) (N.nodes store.now) (N.nodes store.now) self.old self.new result }
    {
        self.place = self.place + 1 + count;
        Ok(None)
    }

    /// Pops a value of a named type, makes its fields the next locals, and passes over as many instructions as its tag says.
    #[inline(always)]
    pub(crate) fn switch<N: Nodes>(
        &mut self,
        code: &Code,
        store: &N,
        named: NamedId,
        skips: &[usize],
    ) -> Result<Option<Trap>, AllocError>
        requires before { IsBefore (program_of code.now) (N.nodes store.now) self.old (instruction.Switch named.0 skips.now) }
        requires length { length (code_at (generated (program_of code.now)) self.old.function.0).code < 2 ^ 64 }
        ensures does { Does (program_of code.now) (instruction.Switch named.0 skips.now) (N.nodes store.now) (N.nodes store.now) self.old self.new result }
    {
        let top = self.pop();
        match store.view(node_in(top)) {
            View::Constructor(_, tag, fields) => {
                self.locals.push_nodes(fields)?;
                self.place = self.place + 1 + skips[usize::from(tag.0)];
                Ok(None)
            }
            _ => unreachable!(),
        }
    }
}
