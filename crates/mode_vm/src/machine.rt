// The virtual machine, over a mode.
ghost use Rattle.std.specs.Prelude.{◌≡◌, ◌++◌, ◌<◌, ◌≤◌, ◌+◌, ◌^◌, List, suc, true, MatchOption, IfOk, OnOk, length};
ghost use Rattle.core_terms.specs.Programs.{types_of};
ghost use Rattle.core_terms.specs.Types.{Ty};
ghost use Rattle.core_terms.specs.Values.{Values};
ghost use Rattle.core_terms.specs.Terms.{function_at};
ghost use Rattle.ideal_meaning.specs.Called.{call_from};
ghost use Rattle.value_store.specs.Markings.{HasLimit};
ghost use Rattle.value_store.specs.Nodes.{Node};
ghost use Rattle.value_store.specs.Standing.{Keeps};
ghost use Rattle.code_gen.specs.Programs.{program_in};
ghost use Rattle.core_terms.specs.Bodies.{code_at};
ghost use Rattle.core_terms.specs.GeneratedCode.{generated};
ghost use Rattle.core_terms.specs.InstructionViews.{instruction_of, instructions_of};
ghost use Rattle.core_terms.specs.declared.instruction.Instruction.TheVariants.{Auth, Unauth};
ghost use Rattle.mode_vm.specs.Meanings.{RunOf, StateOf, mode_of, program_of};

use crate::mode::{Mode, Stop};
use crate::operand::{Operand, node_in, place};
use crate::state::{State, Step};
use code_gen::Code;
use core_terms::{FunctionId, Instruction, Outcome, TyId};
use std::alloc::{AllocError, Global};
use value_store::{Nodes, Ref};

/// A machine that runs a function of some code, in a mode.
#[derive(Drop)]
pub struct Machine<M> {
    mode: M,
    state: State,
    /// Room for the nodes of the fields of the next constructor value.
    fields: Vec<Ref>,
}

impl<M: Mode> Machine<M> {
    ghost use Rattle.mode_vm.specs.Machines.{AreArguments, OpensFew, ValueStack, IsNext, Represents, steps_left};
    ghost use Rattle.mode_vm.specs.NodesPut.{NextInHand, RunPuts, StepPuts, WorksInHand};
    ghost use Rattle.mode_vm.specs.Openings.{Came, Counts, OnlyMemory};
    ghost use Rattle.mode_vm.specs.StateParts.{Starts, fuel_after};
    ghost use Rattle.mode_vm.specs.Runs.{OnGoes, Ready, RunIs, RunStands, Slices, StepIs, StepStands, WillRun};

    /// A machine that is to call a function on these arguments, with this much fuel: 10^12 units at most, in a mode that has opened at
    /// most 2^62 values.
    ///
    /// # Errors
    ///
    /// `AllocError` where there is no memory for the first frame.
    pub fn start(
        code: &Code,
        function: FunctionId,
        args: &[Ref],
        fuel: u64,
        mode: M,
        alloc: Global,
    ) -> Result<Self, AllocError>
        requires there { function.0 < length (program_of code.now).functions }
        requires fuel_fits { fuel ≤ 10 ^ 12 }
        requires few { M.opened mode ≤ 2 ^ 62 }
        ensures ready { IfOk result (λ machine. (nodes : List Node) (vs : Values) → AreArguments M.marking (program_of code.now) nodes function.0 args.now vs
            → Ready M.marking (program_of code.now) (function_at (program_of code.now) function.0).result nodes machine.state) }
        ensures will { IfOk result (λ machine. (nodes : List Node) (vs : Values) (w : StateOf M.marking) → AreArguments M.marking (program_of code.now) nodes function.0 args.now vs
            → WillRun M.marking (program_of code.now) (function_at (program_of code.now) function.0).result nodes machine.state w
            (call_from (program_of code.now) (mode_of M.marking (program_of code.now)) function.0 vs fuel w)) }
        ensures starts { IfOk result (λ machine. Starts function.0 args.now fuel machine.state) }
        ensures mode { IfOk result (λ machine. machine.mode ≡ mode) }
        ensures few { IfOk result (λ machine. OpensFew (M.opened machine.mode) (program_of code.now) machine.state) }
    {
        let state = State::start(function, args, fuel, alloc)?;
        let fields = Vec::new(alloc);
        Ok(Machine {
            mode,
            state,
            fields,
        })
    }

    /// Authenticates the top operand, by the mode.
    fn auth<N: Nodes>(
        &mut self,
        code: &Code,
        store: &mut N,
        world: &M::World,
        ty: TyId,
    ) -> Result<Step, Stop<M::Fault>>
        requires before { (z : Ty) × (cs : ValueStack) × Represents M.marking (program_of code.now) z (N.nodes store.old) self.old.state cs
            × IsNext (instruction_of (types_of (program_in code.now)) (Instruction.Auth ty)) cs.top }
        requires entered { self.old.state.entered ≡ true }
        requires knows { M.Knows (program_in code.now).types self.old.mode (N.nodes store.old) }
        requires room { self.old.state.top.place + 1 < 2 ^ 64 }
        ensures stands { (z : Ty) (cs : ValueStack) → Represents M.marking (program_of code.now) z (N.nodes store.old) self.old.state cs
            → IsNext (instruction_of (types_of (program_in code.now)) (Instruction.Auth ty)) cs.top
            → StepStands M.marking (program_of code.now) z (N.nodes store.new) self.new.state result }
        ensures is { (z : Ty) (w : StateOf M.marking) (run : RunOf M.marking) → M.Follows (program_in code.now).types self.old.mode world.now (N.nodes store.old) w
            → (will : WillRun M.marking (program_of code.now) z (N.nodes store.old) self.old.state w run)
            → IsNext (instruction_of (types_of (program_in code.now)) (Instruction.Auth ty)) will.stack.top
            → StepIs M.marking (program_of code.now) z M.cause (M.Follows (program_in code.now).types self.new.mode world.now (N.nodes store.new)) (N.nodes store.new) self.new.state result run }
        ensures stays { (z : Ty) (w : StateOf M.marking) (run : RunOf M.marking)
            → (will : WillRun M.marking (program_of code.now) z (N.nodes store.old) self.old.state w run)
            → IsNext (instruction_of (types_of (program_in code.now)) (Instruction.Auth ty)) will.stack.top
            → StepIs M.marking (program_of code.now) z M.cause (λ after. after ≡ w) (N.nodes store.new) self.new.state result run }
        ensures fewer { OnGoes result (steps_left (program_of code.now) self.new.state < steps_left (program_of code.now) self.old.state) }
        ensures keeps { Keeps (N.nodes store.old) (N.nodes store.new) }
        ensures lent { N.lent store.new ≡ N.lent store.old }
        ensures opened { M.opened self.new.mode ≤ suc (M.opened self.old.mode) }
        ensures fuel { OnOk result (self.new.state.fuel ≡ self.old.state.fuel) }
        ensures memory { OnlyMemory result }
        ensures mode { self.new.mode ≡ self.old.mode }
    {
        let top = self.state.pop_top();
        let v = place(store, top)?;
        let made = self.mode.auth(code.types(), store, ty, v)?;
        self.state.push_top(Operand::At(made))?;
        Ok(Step::Paused)
    }

    /// Opens the top operand, by the mode.
    fn unauth<N: Nodes>(
        &mut self,
        code: &Code,
        store: &mut N,
        world: &mut M::World,
        ty: TyId,
    ) -> Result<Step, Stop<M::Fault>>
        requires before { (z : Ty) × (cs : ValueStack) × Represents M.marking (program_of code.now) z (N.nodes store.old) self.old.state cs
            × IsNext (instruction_of (types_of (program_in code.now)) (Instruction.Unauth ty)) cs.top }
        requires entered { self.old.state.entered ≡ true }
        requires few { M.opened self.old.mode < 2 ^ 63 }
        requires knows { M.Knows (program_in code.now).types self.old.mode (N.nodes store.old) }
        requires limit { HasLimit (program_of code.now) (N.lent store.old) }
        requires room { self.old.state.top.place + 1 < 2 ^ 64 }
        ensures stands { (z : Ty) (cs : ValueStack) → Represents M.marking (program_of code.now) z (N.nodes store.old) self.old.state cs
            → IsNext (instruction_of (types_of (program_in code.now)) (Instruction.Unauth ty)) cs.top
            → StepStands M.marking (program_of code.now) z (N.nodes store.new) self.new.state result }
        ensures is { (z : Ty) (w : StateOf M.marking) (run : RunOf M.marking) → M.Follows (program_in code.now).types self.old.mode world.old (N.nodes store.old) w
            → (will : WillRun M.marking (program_of code.now) z (N.nodes store.old) self.old.state w run)
            → IsNext (instruction_of (types_of (program_in code.now)) (Instruction.Unauth ty)) will.stack.top
            → StepIs M.marking (program_of code.now) z M.cause (M.Follows (program_in code.now).types self.new.mode world.new (N.nodes store.new)) (N.nodes store.new) self.new.state result run }
        ensures answers { M.Asks → Came M.May M.Last M.cause world.old world.new result (λ got. (z : Ty) (w : StateOf M.marking) (run : RunOf M.marking) (more : List M.Answer) → M.Expects self.old.mode w (got ++ more)
            → (will : WillRun M.marking (program_of code.now) z (N.nodes store.old) self.old.state w run)
            → IsNext (instruction_of (types_of (program_in code.now)) (Instruction.Unauth ty)) will.stack.top
            → StepIs M.marking (program_of code.now) z M.cause (λ after. M.Expects self.new.mode after more) (N.nodes store.new) self.new.state result run) }
        ensures fewer { OnGoes result (steps_left (program_of code.now) self.new.state < steps_left (program_of code.now) self.old.state) }
        ensures keeps { Keeps (N.nodes store.old) (N.nodes store.new) }
        ensures lent { N.lent store.new ≡ N.lent store.old }
        ensures opened { M.opened self.new.mode ≤ suc (M.opened self.old.mode) }
        ensures fuel { OnOk result (self.new.state.fuel ≡ self.old.state.fuel) }
        ensures faults { Counts M.cause M.Rose (M.faults world.old) (M.faults world.new) result }
        ensures rest { M.rest world.new ≡ M.rest world.old }
        ensures moves { OnOk result (M.Moves self.old.mode world.old self.new.mode world.new) }
        ensures knows { OnOk result (M.Knows (program_in code.now).types self.new.mode (N.nodes store.new)) }
    {
        let v = node_in(self.state.pop_top());
        let opened = self.mode.unauth(world, code.types(), store, ty, v)?;
        self.state.push_top(Operand::At(opened))?;
        Ok(Step::Paused)
    }

    /// Does one instruction, or enters a function that is called. It finds the instruction among those of a function that are held, and
    /// then holds those of the function that runs.
    fn step<'a, N: Nodes>(
        &mut self,
        code: &'a Code,
        store: &mut N,
        world: &mut M::World,
        function: &mut FunctionId,
        instructions: &mut &'a [Instruction],
    ) -> Result<Step, Stop<M::Fault>>
        requires ready { (z : Ty) × Ready M.marking (program_of code.now) z (N.nodes store.old) self.old.state }
        requires held { instructions_of (types_of (program_in code.now)) instructions.old.now ≡ (code_at (generated (program_of code.now)) function.old.0).code }
        requires few { M.opened self.old.mode < 2 ^ 63 }
        requires knows { M.Knows (program_in code.now).types self.old.mode (N.nodes store.old) }
        requires limit { HasLimit (program_of code.now) (N.lent store.old) }
        ensures stands { (z : Ty) → Ready M.marking (program_of code.now) z (N.nodes store.old) self.old.state
            → StepStands M.marking (program_of code.now) z (N.nodes store.new) self.new.state result }
        ensures is { (z : Ty) (w : StateOf M.marking) (run : RunOf M.marking) → M.Follows (program_in code.now).types self.old.mode world.old (N.nodes store.old) w
            → WillRun M.marking (program_of code.now) z (N.nodes store.old) self.old.state w run
            → StepIs M.marking (program_of code.now) z M.cause (M.Follows (program_in code.now).types self.new.mode world.new (N.nodes store.new)) (N.nodes store.new) self.new.state result run }
        ensures answers { M.Asks → Came M.May M.Last M.cause world.old world.new result (λ got. (z : Ty) (w : StateOf M.marking) (run : RunOf M.marking) (more : List M.Answer) → M.Expects self.old.mode w (got ++ more)
            → WillRun M.marking (program_of code.now) z (N.nodes store.old) self.old.state w run
            → StepIs M.marking (program_of code.now) z M.cause (λ after. M.Expects self.new.mode after more) (N.nodes store.new) self.new.state result run) }
        ensures fewer { OnGoes result (steps_left (program_of code.now) self.new.state < steps_left (program_of code.now) self.old.state) }
        ensures keeps { Keeps (N.nodes store.old) (N.nodes store.new) }
        ensures lent { N.lent store.new ≡ N.lent store.old }
        ensures in_hand { NextInHand (program_of code.now) self.old.state → StepPuts (N.nodes store.old) (N.nodes store.new) result }
        ensures held { instructions_of (types_of (program_in code.now)) instructions.new.now ≡ (code_at (generated (program_of code.now)) function.new.0).code }
        ensures opened { M.opened self.new.mode ≤ suc (M.opened self.old.mode) }
        ensures fuel { OnOk result (self.new.state.fuel ≡ fuel_after self.old.state.entered self.old.state.fuel) }
        ensures faults { Counts M.cause M.Rose (M.faults world.old) (M.faults world.new) result }
        ensures rest { M.rest world.new ≡ M.rest world.old }
        ensures moves { OnOk result (M.Moves self.old.mode world.old self.new.mode world.new) }
        ensures knows { OnOk result (M.Knows (program_in code.now).types self.new.mode (N.nodes store.new)) }
    {
        if !self.state.entered {
            return Ok(self.state.enter());
        }
        *instructions = self.state.fetch(code, *function, *instructions);
        *function = self.state.running();
        let instruction = self.state.next(code, *instructions);
        if let Some(ty) = authenticated(instruction) {
            return self.auth(code, store, world, ty);
        }
        if let Some(ty) = opened(instruction) {
            return self.unauth(code, store, world, ty);
        }
        Ok(self.state.act(code, store, instruction, &mut self.fields)?)
    }

    /// Runs until a further call is due when `units` calls of functions, 1 at least, were made in this slice and fuel is left, and there
    /// pauses; or to the end. The machine is as `start` made it, or as the last slice left it, over a store with the limit of the
    /// program's format.
    ///
    /// # Errors
    ///
    /// `Mode` where the mode stops the run, with its fault. `NoMemory` where there is no memory for a frame, an operand or a node, or
    /// for what the mode makes.
    pub fn run_slice<N: Nodes>(
        &mut self,
        code: &Code,
        store: &mut N,
        world: &mut M::World,
        units: u64,
    ) -> Result<Step, Stop<M::Fault>>
        requires ready { (z : Ty) × Ready M.marking (program_of code.now) z (N.nodes store.old) self.old.state }
        requires few { OpensFew (M.opened self.old.mode) (program_of code.now) self.old.state }
        requires knows { M.Knows (program_in code.now).types self.old.mode (N.nodes store.old) }
        requires limit { HasLimit (program_of code.now) (N.lent store.old) }
        requires some { 0 < units }
        ensures stands { (z : Ty) → Ready M.marking (program_of code.now) z (N.nodes store.old) self.old.state
            → StepStands M.marking (program_of code.now) z (N.nodes store.new) self.new.state result }
        ensures is { (z : Ty) (w : StateOf M.marking) (run : RunOf M.marking) → M.Follows (program_in code.now).types self.old.mode world.old (N.nodes store.old) w
            → WillRun M.marking (program_of code.now) z (N.nodes store.old) self.old.state w run
            → StepIs M.marking (program_of code.now) z M.cause (M.Follows (program_in code.now).types self.new.mode world.new (N.nodes store.new)) (N.nodes store.new) self.new.state result run }
        ensures answers { M.Asks → Came M.May M.Last M.cause world.old world.new result (λ got. (z : Ty) (w : StateOf M.marking) (run : RunOf M.marking) (more : List M.Answer) → M.Expects self.old.mode w (got ++ more)
            → WillRun M.marking (program_of code.now) z (N.nodes store.old) self.old.state w run
            → StepIs M.marking (program_of code.now) z M.cause (λ after. M.Expects self.new.mode after more) (N.nodes store.new) self.new.state result run) }
        ensures few { OnGoes result (OpensFew (M.opened self.new.mode) (program_of code.now) self.new.state) }
        ensures calls { Slices units self.old.state self.new.state result }
        ensures in_hand { WorksInHand (program_of code.now) → StepPuts (N.nodes store.old) (N.nodes store.new) result }
        ensures keeps { Keeps (N.nodes store.old) (N.nodes store.new) }
        ensures lent { N.lent store.new ≡ N.lent store.old }
        ensures faults { Counts M.cause M.Rose (M.faults world.old) (M.faults world.new) result }
        ensures rest { M.rest world.new ≡ M.rest world.old }
        ensures moves { OnOk result (M.Moves self.old.mode world.old self.new.mode world.new) }
        ensures knows { OnOk result (M.Knows (program_in code.now).types self.new.mode (N.nodes store.new)) }
    {
        let start = self.state.fuel;
        let mut function = self.state.running();
        let mut instructions = code.instructions(function);
        loop {
            if self.state.is_spent(start, units) {
                return Ok(Step::Paused);
            }
            match self.step(code, store, world, &mut function, &mut instructions) {
                Ok(Step::Paused) => {}
                Ok(Step::Ended(outcome)) => return Ok(Step::Ended(outcome)),
                Err(stop) => return Err(stop),
            }
        }
    }

    /// Runs to the end, of a machine and a store as [`Machine::run_slice`] takes them.
    ///
    /// # Errors
    ///
    /// Those of [`Machine::run_slice`].
    pub fn run<N: Nodes>(
        &mut self,
        code: &Code,
        store: &mut N,
        world: &mut M::World,
    ) -> Result<Outcome<Ref>, Stop<M::Fault>>
        requires ready { (z : Ty) × Ready M.marking (program_of code.now) z (N.nodes store.old) self.old.state }
        requires few { OpensFew (M.opened self.old.mode) (program_of code.now) self.old.state }
        requires knows { M.Knows (program_in code.now).types self.old.mode (N.nodes store.old) }
        requires limit { HasLimit (program_of code.now) (N.lent store.old) }
        ensures stands { (z : Ty) → Ready M.marking (program_of code.now) z (N.nodes store.old) self.old.state → RunStands M.marking (program_of code.now) z (N.nodes store.new) result }
        ensures is { (z : Ty) (w : StateOf M.marking) (run : RunOf M.marking) → M.Follows (program_in code.now).types self.old.mode world.old (N.nodes store.old) w
            → WillRun M.marking (program_of code.now) z (N.nodes store.old) self.old.state w run
            → RunIs M.marking (program_of code.now) z M.cause (M.Follows (program_in code.now).types self.new.mode world.new (N.nodes store.new)) (N.nodes store.new) self.new.state result run }
        ensures answers { M.Asks → Came M.May M.Last M.cause world.old world.new result (λ got. (z : Ty) (w : StateOf M.marking) (run : RunOf M.marking) (more : List M.Answer) → M.Expects self.old.mode w (got ++ more)
            → WillRun M.marking (program_of code.now) z (N.nodes store.old) self.old.state w run
            → RunIs M.marking (program_of code.now) z M.cause (λ after. M.Expects self.new.mode after more) (N.nodes store.new) self.new.state result run) }
        ensures in_hand { WorksInHand (program_of code.now) → RunPuts (N.nodes store.old) (N.nodes store.new) result }
        ensures keeps { Keeps (N.nodes store.old) (N.nodes store.new) }
        ensures lent { N.lent store.new ≡ N.lent store.old }
        ensures faults { Counts M.cause M.Rose (M.faults world.old) (M.faults world.new) result }
        ensures rest { M.rest world.new ≡ M.rest world.old }
        ensures moves { OnOk result (M.Moves self.old.mode world.old self.new.mode world.new) }
        ensures knows { OnOk result (M.Knows (program_in code.now).types self.new.mode (N.nodes store.new)) }
    {
        match self.run_slice(code, store, world, u64::MAX) {
            Ok(Step::Ended(outcome)) => Ok(outcome),
            Ok(Step::Paused) => unreachable!(),
            Err(stop) => Err(stop),
        }
    }

    /// The mode, as the run left it.
    pub fn into_mode(self) -> M
        ensures { result ≡ self.mode }
    {
        let Machine {
            mode,
            state,
            fields,
        } = self;
        drop(state);
        drop(fields);
        mode
    }
}

// One instruction is told from all others by each of these, and not by a match of several arms: LLVM makes one jump of the tests that
// follow one another and of the match behind them.

/// The type whose value an instruction authenticates.
fn authenticated(instruction: &Instruction) -> Option<TyId>
    ensures { MatchOption result ((ty : TyId) → instruction.now ≡ Auth ty → ⊥) (λ ty. instruction.now ≡ Auth ty) }
{
    match instruction {
        Instruction::Auth(ty) => Some(*ty),
        _ => None,
    }
}

/// The type whose value an instruction opens.
fn opened(instruction: &Instruction) -> Option<TyId>
    ensures { MatchOption result ((ty : TyId) → instruction.now ≡ Unauth ty → ⊥) (λ ty. instruction.now ≡ Unauth ty) }
{
    match instruction {
        Instruction::Unauth(ty) => Some(*ty),
        _ => None,
    }
}
