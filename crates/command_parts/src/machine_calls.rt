// Calls of roles by the machine, as the words of a command line name them.
ghost use Rattle.std.specs.Prelude.{◌≡◌, IfOk, Option};
ghost use Rattle.std.specs.Option.{ForSome};
ghost use Rattle.core_terms.specs.Programs.{meaning};
ghost use Rattle.core_terms.specs.Values.{AndV, NoV};
ghost use Rattle.code_gen.specs.Programs.{program_in};
ghost use Rattle.command_parts.specs.RoleInputs.{with_ended_call, with_ended_init, with_passed};
ghost use Rattle.command_parts.specs.FileInputs.{with_program_file};
ghost use Rattle.command_parts.specs.AnswerForms.{Answer};
ghost use Rattle.command_parts.specs.CallsInStores.{HoldsCall, HoldsSome};
ghost use Rattle.command_parts.specs.Halting.{StepGives, StepGivesFor, HaltCause, InHand};
ghost use Rattle.command_parts.specs.IdealCalls as meant;
ghost use Rattle.command_parts.specs.IdealCalls.{ended_call};
ghost use Rattle.command_parts.specs.ReachingInCode.{FaultsAt, FaultsAtReached};
ghost use Rattle.command_parts.specs.ReadPrograms.{named_of};
ghost use Rattle.command_parts.specs.RoleCalls.{EndedRole, ended_with};
ghost use Rattle.command_parts.specs.RolesCalled.{CallsOnStates, HasEnded, IsCalled, IsEnded, role_of};
ghost use Rattle.command_parts.specs.FilePrograms.{IsOfTextOrObject};

use crate::Halt;
use crate::ideal_calls::{IdealCall, put_argument, read_named_call};
use crate::programs::read_program_file;
use crate::roles::{CallWords, CalledRole, Callee, called_role};
use code_gen::Code;
use core_terms::Outcome;
use digest_layer::Sha;
use lam_outside::Files;
use mode_vm::digesting_run;
use std::alloc::{AllocError, Global};
use value_store::{Ref, Store};

/// A role that was called, and how it ended. The value of the outcome stands in the store, over the prover's nodes.
#[derive(Drop)]
pub struct Ended {
    pub called: CalledRole,
    pub store: Store,
    pub outcome: Outcome<Ref>,
}

/// The code of the program in a file.
pub fn read_code<F: Files>(alloc: Global, files: &mut F, name: &str) -> Result<Code, Halt>
    ensures goes { ForSome (F.contents files.old) (λ told. StepGives (with_program_file (told name.now)) (λ code. named_of (program_in code)) result) }
    ensures source { IfOk result (λ code. IsOfTextOrObject (meaning (program_in code))) }
    ensures asked { FaultsAt name.now (F.asked files.new) result }
    ensures cause { HaltCause (F.faults files.old) (F.faults files.new) result }
    ensures contents { F.contents files.new ≡ F.contents files.old }
    ensures stores { F.stores files.new ≡ F.stores files.old }
    ensures store_faults { F.store_faults files.new ≡ F.store_faults files.old }
{
    let program = read_program_file(alloc, files, name)?;
    Ok(Code::generate(program, alloc)?)
}

/// Calls the init that the words name.
pub fn call_init(alloc: Global, code: &Code, words: &CallWords<'_>) -> Result<Ended, Halt>
    ensures { let words = words.now in let p = program_in code.now in
        InHand (StepGivesFor (with_ended_init (named_of p) words.role.now words.argument.now words.fuel.now) (IsEnded Callee.Init p)) result }
{
    let program = code.program();
    let called = called_role(program, Callee::Init, words.role, words.fuel)?;
    run_init(alloc, code, called, words.argument)
}

/// Calls a role that the words name on the state in an image.
pub fn call_role<F: Files>(
    alloc: Global,
    files: &mut F,
    code: &Code,
    callee: Callee,
    words: &CallWords<'_>,
    image: &str,
) -> Result<Ended, Halt>
    requires { CallsOnStates callee }
    ensures goes { let words = words.now in let p = program_in code.now in ForSome (F.contents files.old) (λ told.
        StepGivesFor (with_ended_call callee (named_of p) words.role.now image.now words.argument.now words.fuel.now told) (IsEnded callee p) result) }
    ensures ended { IfOk result (HasEnded callee (program_in code.now)) }
    ensures reached { let words = words.now in let p = program_in code.now in (go : EndedRole → Option Answer) →
        FaultsAtReached (λ told. with_ended_call callee (named_of p) words.role.now image.now words.argument.now words.fuel.now told go) (F.contents files.old) (F.asked files.new) result }
    ensures cause { HaltCause (F.faults files.old) (F.faults files.new) result }
    ensures contents { F.contents files.new ≡ F.contents files.old }
    ensures stores { F.stores files.new ≡ F.stores files.old }
    ensures store_faults { F.store_faults files.new ≡ F.store_faults files.old }
{
    let call = read_named_call(alloc, files, code.program(), callee, words, image)?;
    Ok(run_call(alloc, code, call)?)
}

/// Runs an init.
fn run_init(alloc: Global, code: &Code, called: CalledRole, argument: &str) -> Result<Ended, Halt>
    requires { IsCalled Callee.Init (program_in code.now) called }
    ensures { let p = program_in code.now in
        InHand (StepGivesFor (λ go. with_passed (role_of p called) argument.now (λ a. go (ended_with (role_of p called) (AndV a NoV)))) (IsEnded Callee.Init p)) result }
{
    let mut store = Store::new(alloc, code.types().spelling_limit() as u32);
    let ty = called.argument;
    let argument = put_argument(alloc, code.program(), &mut store, ty, argument)?;
    let args = [argument];
    let outcome = digesting_run::<Sha, Store>(
        code,
        &mut store,
        called.function,
        &args,
        called.fuel,
        alloc,
    )?;
    Ok(Ended {
        called,
        store,
        outcome,
    })
}

/// Runs a call of a role on an ideal state.
fn run_call(alloc: Global, code: &Code, call: IdealCall) -> Result<Ended, AllocError>
    requires { (callee : Callee) × CallsOnStates callee × HoldsSome callee (program_in code.now) call }
    ensures { let p = program_in code.now in IfOk result (λ ended. (callee : Callee) (ideal : meant.IdealCall) → CallsOnStates callee → HoldsCall callee p call ideal
        → IsEnded callee p ended (ended_call ideal)) }
{
    let called = call.called;
    let mut store = call.store;
    let args = [call.state, call.argument];
    let outcome = digesting_run::<Sha, Store>(
        code,
        &mut store,
        called.function,
        &args,
        called.fuel,
        alloc,
    )?;
    Ok(Ended {
        called,
        store,
        outcome,
    })
}
