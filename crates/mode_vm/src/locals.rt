// The instructions that read, bind and drop locals.
ghost use Rattle.std.specs.Prelude.{◌≡◌, ◌+◌, ◌<◌, ◌^◌};
ghost use Rattle.core_terms.specs.Instructions as instruction;
ghost use Rattle.mode_vm.specs.Meanings.{program_of};

use crate::frame::Frame;
use code_gen::Code;
use core_terms::{LocalId, Trap};
use std::alloc::AllocError;
use value_store::Nodes;

impl Frame {
    ghost use Rattle.mode_vm.specs.Outcomes.{Does, IsBefore};

    /// Pushes a local.
    pub(crate) fn load<N: Nodes>(
        &mut self,
        code: &Code,
        store: &N,
        local: LocalId,
    ) -> Result<Option<Trap>, AllocError>
        requires before { IsBefore (program_of code.now) (N.nodes store.now) self.old (instruction.Load local.0) }
        requires room { self.old.place + 1 < 2 ^ 64 }
        ensures does { Does (program_of code.now) (instruction.Load local.0) (N.nodes store.now) (N.nodes store.now) self.old self.new result }
    {
        let r = self.locals.at(local.0);
        self.finish(Ok(r))
    }

    /// Pops an operand, which becomes the next local.
    pub(crate) fn bind<N: Nodes>(
        &mut self,
        code: &Code,
        store: &N,
    ) -> Result<Option<Trap>, AllocError>
        requires before { IsBefore (program_of code.now) (N.nodes store.now) self.old instruction.Bind }
        requires room { self.old.place + 1 < 2 ^ 64 }
        ensures does { Does (program_of code.now) instruction.Bind (N.nodes store.now) (N.nodes store.now) self.old self.new result }
    {
        let r = self.pop();
        self.locals.push(r)?;
        self.place += 1;
        Ok(None)
    }

    /// Drops so many of the last locals.
    pub(crate) fn unbind<N: Nodes>(
        &mut self,
        code: &Code,
        store: &N,
        count: usize,
    ) -> Result<Option<Trap>, AllocError>
        requires before { IsBefore (program_of code.now) (N.nodes store.now) self.old (instruction.Unbind count) }
        requires room { self.old.place + 1 < 2 ^ 64 }
        ensures does { Does (program_of code.now) (instruction.Unbind count) (N.nodes store.now) (N.nodes store.now) self.old self.new result }
    {
        self.locals.drop_last(count);
        self.place += 1;
        Ok(None)
    }
}
