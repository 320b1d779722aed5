// The state of a machine: the frames and the fuel, calls and returns.
ghost use Rattle.std.specs.Prelude.{◌≡◌, ◌+◌, ◌<◌, ◌^◌, ◌++◌, ◌∷◌, [], ◌-◌, ◌≢◌, ◌≤◌, true, false, IsTrue, MatchBool, MatchOption, Ok, List, IfOk, OnOk, Some, length, slice_get};
ghost use Rattle.core_terms.specs.Programs.{types_of};
ghost use Rattle.core_terms.specs.Terms.{Program as Meant};
ghost use Rattle.core_terms.specs.Types.{Ty};
ghost use Rattle.value_store.specs.Nodes.{Node};
ghost use Rattle.value_store.specs.Markings.{Marking};
ghost use Rattle.value_store.specs.Markings.{HasLimit};
ghost use Rattle.value_store.specs.Standing.{Keeps};
ghost use Rattle.code_gen.specs.Programs.{program_in};
ghost use Rattle.core_terms.specs.Bodies.{code_at};
ghost use Rattle.core_terms.specs.GeneratedCode.{generated};
ghost use Rattle.core_terms.specs.Instructions as instruction;
ghost use Rattle.core_terms.specs.declared.instruction.Instruction.TheVariants.{Call, Return};
ghost use Rattle.core_terms.specs.InstructionViews.{instruction_of, instructions_of};
ghost use Rattle.mode_vm.specs.Machines.{GivesBack};
ghost use Rattle.mode_vm.specs.Meanings.{program_of};
ghost use Rattle.mode_vm.specs.Outcomes.{step_told};
ghost use Rattle.mode_vm.specs.declared.operand.Operand.{Operand};

use crate::frame::{Frame, Waiting};
use crate::operand::{Operand, place};
use crate::stack::Stack;
use code_gen::Code;
use core_terms::{FunctionId, Instruction, Outcome, Trap};
use std::alloc::{AllocError, Global};
use value_store::{Nodes, Ref};

/// How many frames that wait there is room for at first, where there is memory: else it is asked for as calls come.
const FIRST_WAITING: usize = 32;

/// Where the machine stands: the fuel left, the running frame, whether it has taken its unit of fuel, and the frames that wait
/// for a value, the innermost last.
#[derive(Drop)]
pub struct State {
    pub(crate) fuel: u64,
    pub(crate) entered: bool,
    top: Frame,
    waiting: Vec<Waiting>,
}

/// What a part of a run comes to.
#[derive(Drop)]
pub enum Step {
    /// The machine can go on.
    Paused,
    /// The run ended.
    Ended(Outcome<Ref>),
}

impl State {
    ghost use Rattle.mode_vm.specs.Machines.{ValueStack, Represents, IsNext, is_plain};
    ghost use Rattle.mode_vm.specs.NodesPut.{StepPuts, works_in_hand};
    ghost use Rattle.mode_vm.specs.Outcomes.{Leads};
    ghost use Rattle.mode_vm.specs.StateParts.{Begins, BeginsLast, IsAt, IsElseSame, Spent, Starts};

    /// The state in which a function is to be called on these arguments.
    pub(crate) fn start(
        function: FunctionId,
        args: &[Ref],
        fuel: u64,
        alloc: Global,
    ) -> Result<State, AllocError>
        ensures { IfOk result (Starts function.0 args.now fuel) }
    {
        let mut locals = Stack::new(alloc);
        locals.push_nodes(args)?;
        let top = Frame {
            function,
            place: 0,
            locals,
            operands: Stack::new(alloc),
        };
        Ok(State {
            fuel,
            entered: false,
            top,
            waiting: room_for_waiting(alloc),
        })
    }

    /// Begins a call of a function on as many operands.
    // Inlined like `act`, of which they are parts: a result of theirs is matched at once.
    #[inline(always)]
    fn begin(&mut self, callee: FunctionId, count: usize) -> Result<(), AllocError>
        requires enough { count ≤ length self.old.top.operands.items }
        requires room { self.old.top.place + 1 < 2 ^ 64 }
        ensures { IfOk result (λ done. (args : List Operand) × (kept : List Operand) × (length args ≡ count) × Begins self.old callee.0 args kept self.new) }
    {
        let caller = self.top.begin_call(callee, count)?;
        self.waiting.push(caller)?;
        self.entered = false;
        Ok(())
    }

    /// Begins a call of a function on as many operands, in the place of the running one.
    #[inline(always)]
    fn begin_last(&mut self, callee: FunctionId, count: usize) -> Result<(), AllocError>
        requires enough { count ≤ length self.old.top.operands.items }
        ensures { IfOk result (λ done. (args : List Operand) × (kept : List Operand) × (length args ≡ count) × BeginsLast self.old callee.0 args kept self.new) }
    {
        self.top.become_call(callee, count)?;
        self.entered = false;
        Ok(())
    }

    /// Calls a function on the topmost operands. Where the caller would only give its value back, it doesn't wait for it.
    #[inline(always)]
    fn call(&mut self, code: &Code, callee: FunctionId) -> Result<Step, AllocError>
        requires before { (m : Marking) × (z : Ty) × (nodes : List Node) × (cs : ValueStack) × Represents m (program_of code.now) z nodes self.old cs × IsNext (instruction.Call callee.0) cs.top }
        requires entered { self.old.entered ≡ true }
        requires room { self.old.top.place + 1 < 2 ^ 64 }
        ensures leads { (m : Marking) (z : Ty) (nodes : List Node) (cs : ValueStack) → Represents m (program_of code.now) z nodes self.old cs → IsNext (instruction.Call callee.0) cs.top
            → Leads m (program_of code.now) z nodes true self.old.fuel cs self.new result }
        ensures fuel { OnOk result (self.new.fuel ≡ self.old.fuel) }
    {
        let count = parameter_count(code, callee);
        if gives_back(code, self.top.function, self.top.place + 1) {
            self.begin_last(callee, count)?;
        } else {
            self.begin(callee, count)?;
        }
        Ok(Step::Paused)
    }

    /// Gives the top operand back to the function that waits for it, or ends.
    #[inline(always)]
    fn give_back<N: Nodes>(&mut self, code: &Code, store: &mut N) -> Result<Step, AllocError>
        requires before { (m : Marking) × (z : Ty) × (cs : ValueStack) × Represents m (program_of code.now) z (N.nodes store.old) self.old cs × IsNext instruction.Return cs.top }
        requires entered { self.old.entered ≡ true }
        ensures leads { (m : Marking) (z : Ty) (cs : ValueStack) → Represents m (program_of code.now) z (N.nodes store.old) self.old cs → IsNext instruction.Return cs.top
            → Leads m (program_of code.now) z (N.nodes store.new) true self.old.fuel cs self.new result }
        ensures fuel { OnOk result (self.new.fuel ≡ self.old.fuel) }
        ensures puts { StepPuts (N.nodes store.old) (N.nodes store.new) result }
        ensures keeps { Keeps (N.nodes store.old) (N.nodes store.new) }
        ensures lent { N.lent store.new ≡ N.lent store.old }
    {
        let top = self.top.pop();
        match self.waiting.pop() {
            Some(caller) => {
                self.top.resume(caller);
                self.top.operands.push(top)?;
                Ok(Step::Paused)
            }
            None => {
                let r = place(store, top)?;
                Ok(Step::Ended(Outcome::Done(r)))
            }
        }
    }

    /// Whether a call is due with fuel left, and as many calls were made since there was so much fuel.
    pub(crate) fn is_spent(&self, start: u64, units: u64) -> bool
        requires { self.now.fuel ≤ start }
        ensures { MatchBool result (Spent units start self.now) ((self.now.entered ≡ false) → 0 < self.now.fuel → start ≢ self.now.fuel + units) }
    {
        if self.entered {
            return false;
        }
        self.fuel > 0 && start - self.fuel == units
    }

    /// Takes the running frame's unit of fuel, or ends where none is left.
    pub(crate) fn enter(&mut self) -> Step
        requires { self.old.entered ≡ false }
        ensures leads { (m : Marking) (P : Meant) (z : Ty) (nodes : List Node) (cs : ValueStack) → Represents m P z nodes self.old cs
            → Leads m P z nodes {E = AllocError} false self.old.fuel cs self.new (Ok result) }
        ensures fuel { self.new.fuel ≡ self.old.fuel - 1 }
    {
        if self.fuel == 0 {
            return Step::Ended(Outcome::Out);
        }
        self.fuel -= 1;
        self.entered = true;
        Step::Paused
    }

    /// Pops the top operand of the running frame.
    pub(crate) fn pop_top(&mut self) -> Operand
        requires { 0 < length self.old.top.operands.items }
        ensures at { IsAt self.old.top self.old.top.place self.old.top.locals.items self.new.top.operands.items self.new.top }
        ensures top { self.old.top.operands.items ≡ self.new.top.operands.items ++ result ∷ [] }
        ensures rest { IsElseSame self.old self.new }
    {
        self.top.pop()
    }

    /// Pushes an operand of the running frame, and goes to the next instruction.
    pub(crate) fn push_top(&mut self, r: Operand) -> Result<(), AllocError>
        requires { self.old.top.place + 1 < 2 ^ 64 }
        ensures at { OnOk result (IsAt self.old.top (self.old.top.place + 1) self.old.top.locals.items (self.old.top.operands.items ++ r ∷ []) self.new.top) }
        ensures rest { OnOk result (IsElseSame self.old self.new) }
    {
        self.top.push(r)
    }

    /// The function that runs.
    pub(crate) fn running(&self) -> FunctionId
        ensures { result ≡ self.now.top.function }
    {
        self.top.function
    }

    /// The instructions of the function that runs: these, where they are its.
    // They are seldom another function's, and to ask the code for them takes more loads than to compare.
    pub(crate) fn fetch<'a>(
        &self,
        code: &'a Code,
        function: FunctionId,
        held: &'a [Instruction],
    ) -> &'a [Instruction]
        requires shows { (m : Marking) × (z : Ty) × (nodes : List Node) × (cs : ValueStack) × Represents m (program_of code.now) z nodes self.now cs }
        requires held { instructions_of (types_of (program_in code.now)) held.now ≡ (code_at (generated (program_of code.now)) function.0).code }
        ensures { instructions_of (types_of (program_in code.now)) result.now ≡ (code_at (generated (program_of code.now)) self.now.top.function.0).code }
    {
        if self.top.function.0 == function.0 {
            return held;
        }
        code.instructions(self.top.function)
    }

    /// The next instruction, among those of the function that runs.
    pub(crate) fn next<'a>(&self, code: &Code, instructions: &'a [Instruction]) -> &'a Instruction
        requires shows { (m : Marking) × (z : Ty) × (nodes : List Node) × (cs : ValueStack) × Represents m (program_of code.now) z nodes self.now cs }
        requires held { instructions_of (types_of (program_in code.now)) instructions.now ≡ (code_at (generated (program_of code.now)) self.now.top.function.0).code }
        ensures next { (m : Marking) (z : Ty) (nodes : List Node) (cs : ValueStack) → Represents m (program_of code.now) z nodes self.now cs
            → IsNext (instruction_of (types_of (program_in code.now)) result.now) cs.top }
        ensures at { slice_get (code_at (generated (program_of code.now)) self.now.top.function.0).code self.now.top.place
            ≡ Some (instruction_of (types_of (program_in code.now)) result.now) }
        ensures room { self.now.top.place + 1 < 2 ^ 64 }
        ensures length { length (code_at (generated (program_of code.now)) self.now.top.function.0).code < 2 ^ 64 }
    {
        &instructions[self.top.place]
    }

    /// Does an instruction that asks nothing of the mode. It gets room for the fields of a constructor value.
    // The machine calls it for each instruction, in each of its modes, so LLVM would not inline it by itself.
    #[inline(always)]
    pub(crate) fn act<N: Nodes>(
        &mut self,
        code: &Code,
        store: &mut N,
        instruction: &Instruction,
        fields: &mut Vec<Ref>,
    ) -> Result<Step, AllocError>
        requires before { (m : Marking) × (z : Ty) × (cs : ValueStack) × Represents m (program_of code.now) z (N.nodes store.old) self.old cs
            × IsNext (instruction_of (types_of (program_in code.now)) instruction.now) cs.top }
        requires limit { HasLimit (program_of code.now) (N.lent store.old) }
        requires plain { is_plain (instruction_of (types_of (program_in code.now)) instruction.now) ≡ true }
        requires entered { self.old.entered ≡ true }
        requires room { self.old.top.place + 1 < 2 ^ 64 }
        requires length { length (code_at (generated (program_of code.now)) self.old.top.function.0).code < 2 ^ 64 }
        ensures leads { (m : Marking) (z : Ty) (cs : ValueStack) → Represents m (program_of code.now) z (N.nodes store.old) self.old cs
            → IsNext (instruction_of (types_of (program_in code.now)) instruction.now) cs.top
            → Leads m (program_of code.now) z (N.nodes store.new) true self.old.fuel cs self.new result }
        ensures fuel { OnOk result (self.new.fuel ≡ self.old.fuel) }
        ensures in_hand { works_in_hand (instruction_of (types_of (program_in code.now)) instruction.now) ≡ true → StepPuts (N.nodes store.old) (N.nodes store.new) result }
        ensures keeps { Keeps (N.nodes store.old) (N.nodes store.new) }
        ensures lent { N.lent store.new ≡ N.lent store.old }
    {
        // Each of these calls gets a result of its own: LLVM keeps none in registers whose address a call takes, and then each other
        // instruction would pay for it.
        if let Some(callee) = called(instruction) {
            return Ok(self.call(code, callee)?);
        }
        if returns(instruction) {
            return Ok(self.give_back(code, store)?);
        }
        let trapped = self.top.act(code, store, instruction, fields)?;
        Ok(step_of(trapped))
    }
}

/// No frames, with room for some where there is memory.
fn room_for_waiting(alloc: Global) -> Vec<Waiting>
    ensures { result.items ≡ [] }
{
    let mut waiting = Vec::new(alloc);
    let _ = waiting.reserve(FIRST_WAITING);
    waiting
}

/// What an instruction comes to.
fn step_of(trapped: Option<Trap>) -> Step
    ensures { result ≡ step_told trapped }
{
    match trapped {
        None => Step::Paused,
        Some(trap) => Step::Ended(Outcome::Trapped(trap)),
    }
}

/// Whether the instructions of a function from this place on only give the top operand back.
// Jumps go forward alone, so it takes at most as many turns as doing what it passes over would take steps, and where it answers true, those
// aren't done.
fn gives_back(code: &Code, function: FunctionId, place: usize) -> bool
    requires { function.0 < length (program_of code.now).functions }
    ensures { IsTrue result → GivesBack (code_at (generated (program_of code.now)) function.0).code place }
{
    let instructions = code.instructions(function);
    let mut at = place;
    while at < instructions.len() {
        match &instructions[at] {
            Instruction::Return => return true,
            Instruction::Unbind(_) => at += 1,
            Instruction::Jump(skip) => match (at + 1).checked_add(*skip) {
                Some(next) => at = next,
                None => return false,
            },
            _ => return false,
        }
    }
    false
}

/// The number of parameters of a function.
fn parameter_count(code: &Code, function: FunctionId) -> usize
    requires { function.0 < length (program_of code.now).functions }
    ensures { result ≡ length (code_at (generated (program_of code.now)) function.0).parameters }
{
    code.program().function(function).parameters.len()
}

// As with `authenticated`, one instruction is told from all others by each of these.

/// The function that an instruction calls.
fn called(instruction: &Instruction) -> Option<FunctionId>
    ensures { MatchOption result ((callee : FunctionId) → instruction.now ≡ Call callee → ⊥) (λ callee. instruction.now ≡ Call callee) }
{
    match instruction {
        Instruction::Call(callee) => Some(*callee),
        _ => None,
    }
}

/// Whether an instruction returns.
fn returns(instruction: &Instruction) -> bool
    ensures { MatchBool result (instruction.now ≡ Return) (instruction.now ≡ Return → ⊥) }
{
    matches!(instruction, Instruction::Return)
}
