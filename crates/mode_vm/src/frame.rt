// A frame: a function that runs or waits, and what its instructions do to it.
ghost use Rattle.std.specs.Prelude.{◌≡◌, ◌+◌, ◌<◌, ◌≤◌, ◌^◌, ◌++◌, ◌∷◌, [], true, IfOk, OnOk, length};
ghost use Rattle.core_terms.specs.Programs.{types_of};
ghost use Rattle.value_store.specs.Markings.{HasLimit};
ghost use Rattle.value_store.specs.Standing.{Keeps};
ghost use Rattle.core_terms.specs.Bodies.{code_at};
ghost use Rattle.core_terms.specs.GeneratedCode.{generated};
ghost use Rattle.core_terms.specs.InstructionViews.{instruction_of};
ghost use Rattle.code_gen.specs.Programs.{program_in};
ghost use Rattle.mode_vm.specs.Meanings.{program_of};
ghost use Rattle.mode_vm.specs.Outcomes.{rare_told};

use crate::operand::Operand;
use crate::stack::Stack;
use code_gen::Code;
use core_terms::{FunctionId, Instruction, Trap};
use std::alloc::AllocError;
use value_store::{Nodes, Ref};

/// The function that runs: the place of its next instruction, its locals and its operands. The functions that wait have theirs below
/// these on the same two stacks. Locals and operands have a stack each, since a local is bound under operands that are there already.
#[derive(Drop)]
pub struct Frame {
    pub(crate) function: FunctionId,
    pub(crate) place: usize,
    pub(crate) locals: Stack,
    pub(crate) operands: Stack,
}

/// A function that waits for a value: the place of its next instruction, and where its locals and its operands begin.
#[derive(Clone, Copy)]
pub struct Waiting {
    pub(crate) function: FunctionId,
    pub(crate) place: usize,
    pub(crate) local_base: usize,
    pub(crate) operand_base: usize,
}

/// What a rare instruction comes to.
enum Rare {
    Acted,
    Trapped(Trap),
    NoMemory(AllocError),
}

/// What a rare instruction comes to, as each other instruction tells it.
#[inline(always)]
fn result_of(rare: Rare) -> Result<Option<Trap>, AllocError>
    ensures { result ≡ rare_told rare }
{
    match rare {
        Rare::Acted => Ok(None),
        Rare::Trapped(trap) => Ok(Some(trap)),
        Rare::NoMemory(error) => Err(error),
    }
}

impl Frame {
    ghost use Rattle.mode_vm.specs.Machines.{is_own, is_rare};
    ghost use Rattle.mode_vm.specs.NodesPut.{works_in_hand};
    ghost use Rattle.mode_vm.specs.Outcomes.{Does, IsBefore};
    ghost use Rattle.mode_vm.specs.StateParts.{BecomesCall, BeginsCall, Finishes, IsAt, frame_in};

    /// Pushes what an instruction gives, and goes to the next one.
    pub(crate) fn push(&mut self, r: Operand) -> Result<(), AllocError>
        requires { self.old.place + 1 < 2 ^ 64 }
        ensures { OnOk result (IsAt self.old (self.old.place + 1) self.old.locals.items (self.old.operands.items ++ r ∷ []) self.new) }
    {
        self.operands.push(r)?;
        self.place += 1;
        Ok(())
    }

    /// Pops the top operand.
    pub(crate) fn pop(&mut self) -> Operand
        requires { 0 < length self.old.operands.items }
        ensures at { IsAt self.old self.old.place self.old.locals.items self.new.operands.items self.new }
        ensures top { self.old.operands.items ≡ self.new.operands.items ++ result ∷ [] }
    {
        self.operands.pop()
    }

    /// Pops the two top operands.
    pub(crate) fn pop_two(&mut self) -> (Operand, Operand)
        requires { 1 < length self.old.operands.items }
        ensures at { IsAt self.old self.old.place self.old.locals.items self.new.operands.items self.new }
        ensures top { self.old.operands.items ≡ self.new.operands.items ++ result.0 ∷ result.1 ∷ [] }
    {
        let second = self.pop();
        let first = self.pop();
        (first, second)
    }

    /// Pops the three top operands.
    pub(crate) fn pop_three(&mut self) -> (Operand, Operand, Operand)
        requires { 2 < length self.old.operands.items }
        ensures at { IsAt self.old self.old.place self.old.locals.items self.new.operands.items self.new }
        ensures top { self.old.operands.items ≡ self.new.operands.items ++ result.0 ∷ result.1 ∷ result.2 ∷ [] }
    {
        let third = self.pop();
        let (first, second) = self.pop_two();
        (first, second, third)
    }

    /// Becomes the frame of another function, which is called on as many of the topmost operands. What is told is to go on behind the
    /// call.
    #[inline(always)]
    pub(crate) fn begin_call(
        &mut self,
        callee: FunctionId,
        count: usize,
    ) -> Result<Waiting, AllocError>
        requires enough { count ≤ length self.old.operands.items }
        requires room { self.old.place + 1 < 2 ^ 64 }
        ensures { IfOk result (λ caller. BeginsCall self.old callee.0 count caller self.new) }
    {
        let local_base = self.locals.enter();
        self.operands.move_to(count, &mut self.locals)?;
        let operand_base = self.operands.enter();
        let caller = Waiting {
            function: self.function,
            place: self.place + 1,
            local_base,
            operand_base,
        };
        self.function = callee;
        self.place = 0;
        Ok(caller)
    }

    /// Becomes the frame of another function, which is called on as many of the topmost operands, and for which this one doesn't wait.
    #[inline(always)]
    pub(crate) fn become_call(&mut self, callee: FunctionId, count: usize) -> Result<(), AllocError>
        requires { count ≤ length self.old.operands.items }
        ensures { OnOk result (BecomesCall self.old callee.0 count self.new) }
    {
        self.locals.clear();
        self.operands.move_to(count, &mut self.locals)?;
        self.operands.clear();
        self.function = callee;
        self.place = 0;
        Ok(())
    }

    /// Becomes the frame that waits, and drops what this one has.
    #[inline(always)]
    pub(crate) fn resume(&mut self, caller: Waiting)
        requires locals { caller.local_base ≤ length self.old.locals.below }
        requires operands { caller.operand_base ≤ length self.old.operands.below }
        ensures { self.new ≡ frame_in caller self.old.locals.below self.old.operands.below }
    {
        self.locals.leave(caller.local_base);
        self.operands.leave(caller.operand_base);
        self.function = caller.function;
        self.place = caller.place;
    }

    /// Pushes what was made, and goes to the next instruction; or traps.
    pub(crate) fn finish(&mut self, made: Result<Operand, Trap>) -> Result<Option<Trap>, AllocError>
        requires { self.old.place + 1 < 2 ^ 64 }
        ensures { Finishes self.old made self.new result }
    {
        match made {
            Ok(r) => {
                self.push(r)?;
                Ok(None)
            }
            Err(trap) => Ok(Some(trap)),
        }
    }

    /// Does an instruction that changes the running frame alone: it goes on behind the instruction, or it traps. It gets room for the
    /// fields of a constructor value.
    // The machine calls it for each instruction, in each of its modes, so LLVM would not inline it by itself.
    #[inline(always)]
    pub(crate) fn act<N: Nodes>(
        &mut self,
        code: &Code,
        store: &mut N,
        instruction: &Instruction,
        fields: &mut Vec<Ref>,
    ) -> Result<Option<Trap>, AllocError>
        requires before { IsBefore (program_of code.now) (N.nodes store.old) self.old (instruction_of (types_of (program_in code.now)) instruction.now) }
        requires limit { HasLimit (program_of code.now) (N.lent store.old) }
        requires own { is_own (instruction_of (types_of (program_in code.now)) instruction.now) ≡ true }
        requires room { self.old.place + 1 < 2 ^ 64 }
        requires length { length (code_at (generated (program_of code.now)) self.old.function.0).code < 2 ^ 64 }
        ensures does { Does (program_of code.now) (instruction_of (types_of (program_in code.now)) instruction.now) (N.nodes store.old) (N.nodes store.new) self.old self.new result }
        ensures in_hand { works_in_hand (instruction_of (types_of (program_in code.now)) instruction.now) ≡ true → N.nodes store.new ≡ N.nodes store.old }
        ensures keeps { Keeps (N.nodes store.old) (N.nodes store.new) }
        ensures lent { N.lent store.new ≡ N.lent store.old }
    {
        match instruction {
            Instruction::PushUnit => self.push_unit(code, store),
            Instruction::PushBool(value) => self.push_bool(code, store, *value),
            Instruction::PushInt(value) => self.push_int(code, store, *value),
            Instruction::Load(local) => self.load(code, store, *local),
            Instruction::Bind => self.bind(code, store),
            Instruction::Unbind(count) => self.unbind(code, store, *count),
            Instruction::Pair => self.pair(code, store),
            Instruction::Fst => self.first(code, store),
            Instruction::Snd => self.second(code, store),
            Instruction::Make(named, tag) => self.make(code, store, *named, *tag, fields),
            Instruction::Switch(named, skips) => self.switch(code, store, *named, skips),
            Instruction::Branch(skip) => self.branch(code, store, *skip),
            Instruction::Jump(skip) => self.jump(code, store, *skip),
            Instruction::Arith(op) => self.arith(code, store, *op),
            Instruction::Compare(op) => self.compare(code, store, *op),
            Instruction::Not => self.not(code, store),
            _ => result_of(self.act_apart(code, store, instruction)),
        }
    }

    /// Does one of the rare instructions, by a call.
    // Were it inlined, the code of the rare ones would stand among that of the frequent ones. What it gives back fits registers: a result
    // in memory would be cleared before each instruction, so that each frequent one would pay for the rare ones.
    #[inline(never)]
    fn act_apart<N: Nodes>(&mut self, code: &Code, store: &mut N, instruction: &Instruction) -> Rare
        requires before { IsBefore (program_of code.now) (N.nodes store.old) self.old (instruction_of (types_of (program_in code.now)) instruction.now) }
        requires limit { HasLimit (program_of code.now) (N.lent store.old) }
        requires rare { is_rare (instruction_of (types_of (program_in code.now)) instruction.now) ≡ true }
        requires room { self.old.place + 1 < 2 ^ 64 }
        requires length { length (code_at (generated (program_of code.now)) self.old.function.0).code < 2 ^ 64 }
        ensures does { Does (program_of code.now) (instruction_of (types_of (program_in code.now)) instruction.now) (N.nodes store.old) (N.nodes store.new) self.old self.new (rare_told result) }
        ensures in_hand { works_in_hand (instruction_of (types_of (program_in code.now)) instruction.now) ≡ true → N.nodes store.new ≡ N.nodes store.old }
        ensures keeps { Keeps (N.nodes store.old) (N.nodes store.new) }
        ensures lent { N.lent store.new ≡ N.lent store.old }
    {
        match self.act_rarely(code, store, instruction) {
            Ok(None) => Rare::Acted,
            Ok(Some(trap)) => Rare::Trapped(trap),
            Err(error) => Rare::NoMemory(error),
        }
    }

    /// Does one of the rare instructions.
    #[inline(always)]
    fn act_rarely<N: Nodes>(
        &mut self,
        code: &Code,
        store: &mut N,
        instruction: &Instruction,
    ) -> Result<Option<Trap>, AllocError>
        requires before { IsBefore (program_of code.now) (N.nodes store.old) self.old (instruction_of (types_of (program_in code.now)) instruction.now) }
        requires limit { HasLimit (program_of code.now) (N.lent store.old) }
        requires rare { is_rare (instruction_of (types_of (program_in code.now)) instruction.now) ≡ true }
        requires room { self.old.place + 1 < 2 ^ 64 }
        requires length { length (code_at (generated (program_of code.now)) self.old.function.0).code < 2 ^ 64 }
        ensures does { Does (program_of code.now) (instruction_of (types_of (program_in code.now)) instruction.now) (N.nodes store.old) (N.nodes store.new) self.old self.new result }
        ensures in_hand { works_in_hand (instruction_of (types_of (program_in code.now)) instruction.now) ≡ true → N.nodes store.new ≡ N.nodes store.old }
        ensures keeps { Keeps (N.nodes store.old) (N.nodes store.new) }
        ensures lent { N.lent store.new ≡ N.lent store.old }
    {
        match instruction {
            Instruction::PushText(text) => self.push_text(code, store, text),
            Instruction::TextCompare(op) => self.compare_texts(code, store, *op),
            Instruction::Cat => self.concat(code, store),
            Instruction::Len => self.length(code, store),
            Instruction::VecFill(count) => self.fill(code, store, *count),
            Instruction::VecGet => self.element(code, store),
            Instruction::VecPut => self.replace(code, store),
            _ => unreachable!(),
        }
    }
}
