// The instructions that push a literal.
ghost use Rattle.std.specs.Prelude.{◌≡◌, ◌+◌, ◌<◌, ◌^◌};
ghost use Rattle.value_store.specs.Standing.{Keeps};
ghost use Rattle.core_terms.specs.Instructions as instruction;
ghost use Rattle.core_terms.specs.Texts.{bytes_of};
ghost use Rattle.mode_vm.specs.Meanings.{program_of};

use crate::frame::Frame;
use crate::operand::Operand;
use code_gen::Code;
use core_terms::{Text, Trap};
use std::alloc::AllocError;
use std::str::from_utf8;
use value_store::Nodes;

impl Frame {
    ghost use Rattle.mode_vm.specs.Outcomes.{Does, IsBefore};

    /// Pushes the value of `unit`.
    pub(crate) fn push_unit<N: Nodes>(
        &mut self,
        code: &Code,
        store: &N,
    ) -> Result<Option<Trap>, AllocError>
        requires before { IsBefore (program_of code.now) (N.nodes store.now) self.old instruction.PushUnit }
        requires room { self.old.place + 1 < 2 ^ 64 }
        ensures does { Does (program_of code.now) instruction.PushUnit (N.nodes store.now) (N.nodes store.now) self.old self.new result }
    {
        self.finish(Ok(Operand::Unit))
    }

    /// Pushes a bool.
    pub(crate) fn push_bool<N: Nodes>(
        &mut self,
        code: &Code,
        store: &N,
        value: bool,
    ) -> Result<Option<Trap>, AllocError>
        requires before { IsBefore (program_of code.now) (N.nodes store.now) self.old (instruction.PushBool value) }
        requires room { self.old.place + 1 < 2 ^ 64 }
        ensures does { Does (program_of code.now) (instruction.PushBool value) (N.nodes store.now) (N.nodes store.now) self.old self.new result }
    {
        self.finish(Ok(Operand::Bool(value)))
    }

    /// Pushes an int.
    pub(crate) fn push_int<N: Nodes>(
        &mut self,
        code: &Code,
        store: &N,
        value: i64,
    ) -> Result<Option<Trap>, AllocError>
        requires before { IsBefore (program_of code.now) (N.nodes store.now) self.old (instruction.PushInt value) }
        requires room { self.old.place + 1 < 2 ^ 64 }
        ensures does { Does (program_of code.now) (instruction.PushInt value) (N.nodes store.now) (N.nodes store.now) self.old self.new result }
    {
        self.finish(Ok(Operand::Int(value)))
    }

    /// Pushes a text.
    pub(crate) fn push_text<N: Nodes>(
        &mut self,
        code: &Code,
        store: &mut N,
        text: &Text,
    ) -> Result<Option<Trap>, AllocError>
        requires before { IsBefore (program_of code.now) (N.nodes store.old) self.old (instruction.PushText (bytes_of text.now)) }
        requires room { self.old.place + 1 < 2 ^ 64 }
        ensures does { Does (program_of code.now) (instruction.PushText (bytes_of text.now)) (N.nodes store.old) (N.nodes store.new) self.old self.new result }
        ensures keeps { Keeps (N.nodes store.old) (N.nodes store.new) }
        ensures lent { N.lent store.new ≡ N.lent store.old }
    {
        let Ok(text) = from_utf8(text.as_bytes()) else {
            unreachable!();
        };
        let r = store.put_text(text)?;
        self.finish(Ok(Operand::At(r)))
    }
}
