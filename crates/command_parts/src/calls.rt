// Calls of roles on the spelling of a state, as the words of a command line name them.
ghost use Rattle.std.specs.Prelude.{◌≡◌, IfOk, Option};
ghost use Rattle.std.specs.Option.{ForSome};
ghost use Rattle.core_terms.specs.Programs.{meaning};
ghost use Rattle.lam_outside.specs.Told.{Contents};
ghost use Rattle.command_parts.specs.ReachingInCode.{FaultsAt, FaultsAtReached};
ghost use Rattle.command_parts.specs.RoleInputs.{with_fueled_role, with_role_call};
ghost use Rattle.command_parts.specs.FileInputs.{with_state, with_state_file};
ghost use Rattle.command_parts.specs.AnswerForms.{Answer};
ghost use Rattle.command_parts.specs.RoleInputs as meant;
ghost use Rattle.command_parts.specs.FueledRoles.{FueledRole};
ghost use Rattle.command_parts.specs.Halting.{StepGives, HaltCause, InHand};
ghost use Rattle.command_parts.specs.ReadPrograms.{named_of};
ghost use Rattle.command_parts.specs.RolesCalled.{IsCalled, role_of};
ghost use Rattle.command_parts.specs.RolesJudged.{call_meant, with_named_call, with_spelled};
ghost use Rattle.command_parts.specs.declared.roles.Callee.{Callee};

use crate::Halt;
use crate::report::load;
use crate::roles::{CallWords, CalledRole, Callee, called_role};
use core_terms::{MOST_FILE_BYTES, Program, Spelling};
use lam_outside::Files;
use printed_lines::refusal::{Argument, InputFault};
use printed_syntax::literal::parse_literal;
use shallow_codec::{UnspellFault, check_spelled};
use std::alloc::Global;

/// A call of a role.
#[derive(Drop)]
pub struct RoleCall {
    pub called: CalledRole,
    /// A spelling at the type of the program's state.
    pub state: Vec<u8>,
    pub argument: Spelling,
}

/// The call of a role that the words name, on the state that a file spells. What is refused first in this order halts it: the role, the
/// fuel, the state, the argument.
pub fn read_role_call<F: Files>(
    alloc: Global,
    files: &mut F,
    program: &Program,
    callee: Callee,
    words: &CallWords<'_>,
    state: &str,
) -> Result<RoleCall, Halt>
    ensures goes { let words = words.now in let p = program.now in ForSome (F.contents files.old) (λ told.
        StepGives (with_named_call callee (named_of p) words.role.now words.fuel.now state.now words.argument.now told) (call_meant p) result) }
    ensures role { let words = words.now in let p = program.now in IfOk result (λ call.
        (go : FueledRole → Option Answer) → with_fueled_role callee (named_of p) words.role.now words.fuel.now go ≡ go (role_of p call.called)) }
    ensures valid { IfOk result (λ call. IsCalled callee program.now call.called) }
    ensures reached { let words = words.now in let p = program.now in (next : Contents → meant.RoleCall → Option Answer) → FaultsAtReached
        (λ told. with_named_call callee (named_of p) words.role.now words.fuel.now state.now words.argument.now told (next told)) (F.contents files.old) (F.asked files.new) result }
    ensures cause { HaltCause (F.faults files.old) (F.faults files.new) result }
    ensures contents { F.contents files.new ≡ F.contents files.old }
    ensures stores { F.stores files.new ≡ F.stores files.old }
    ensures store_faults { F.store_faults files.new ≡ F.store_faults files.old }
{
    let called = called_role(program, callee, words.role, words.fuel)?;
    read_role_inputs(alloc, files, program, called, state, words.argument)
}

/// The call of a role that was named, on the state that a file spells. What is refused first halts it: the state, the argument.
pub fn read_role_inputs<F: Files>(
    alloc: Global,
    files: &mut F,
    program: &Program,
    called: CalledRole,
    state: &str,
    argument: &str,
) -> Result<RoleCall, Halt>
    requires { (callee : Callee) × IsCalled callee program.now called }
    ensures goes { let p = program.now in ForSome (F.contents files.old) (λ told.
        StepGives (with_role_call (role_of p called) state.now argument.now told) (call_meant p) result) }
    ensures role { IfOk result (λ call. call.called ≡ called) }
    ensures reached { (next : Contents → meant.RoleCall → Option Answer) → FaultsAtReached
        (λ told. with_role_call (role_of program.now called) state.now argument.now told (next told)) (F.contents files.old) (F.asked files.new) result }
    ensures cause { HaltCause (F.faults files.old) (F.faults files.new) result }
    ensures contents { F.contents files.new ≡ F.contents files.old }
    ensures stores { F.stores files.new ≡ F.stores files.old }
    ensures store_faults { F.store_faults files.new ≡ F.store_faults files.old }
{
    let state = read_state_file(alloc, files, program, state)?;
    let argument = read_passed(alloc, program, &called, argument)?;
    Ok(RoleCall {
        called,
        state,
        argument,
    })
}

/// The bytes of a file that are a spelling of a state.
pub fn read_state_file<F: Files>(
    alloc: Global,
    files: &mut F,
    program: &Program,
    name: &str,
) -> Result<Vec<u8>, Halt>
    ensures goes { ForSome (F.contents files.old) (λ told.
        StepGives (with_state_file (meaning program.now) (told name.now)) (λ bytes. bytes.items) result) }
    ensures asked { FaultsAt name.now (F.asked files.new) result }
    ensures cause { HaltCause (F.faults files.old) (F.faults files.new) result }
    ensures contents { F.contents files.new ≡ F.contents files.old }
    ensures stores { F.stores files.new ≡ F.stores files.old }
    ensures store_faults { F.store_faults files.new ≡ F.store_faults files.old }
{
    let state = load(alloc, files, Argument::State, name, MOST_FILE_BYTES)?;
    judge_state(alloc, program, &state)?;
    Ok(state)
}

/// Judges whether the bytes are a spelling at the type of the program's state.
#[tactic(auto, unfolding(crate::specs::FileInputs::state_read))]
fn judge_state(alloc: Global, program: &Program, bytes: &[u8]) -> Result<(), Halt>
    ensures { InHand (StepGives (with_state (meaning program.now) bytes.now) (λ _. bytes.now)) result }
{
    match check_spelled(alloc, program.types(), bytes, program.state_type()) {
        Ok(()) => Ok(()),
        Err(UnspellFault::Bad(offset)) => Err(InputFault::State(offset).into()),
        Err(UnspellFault::NoMemory) => Err(Halt::NoMemory),
    }
}

/// The spelling of the value that a text is a literal of, at the type of what is passed to a role.
fn read_passed(
    alloc: Global,
    program: &Program,
    called: &CalledRole,
    text: &str,
) -> Result<Spelling, Halt>
    requires { (callee : Callee) × IsCalled callee program.now called.now }
    ensures { InHand (StepGives (with_spelled (role_of program.now called.now) text.now) (λ spelling. spelling)) result }
{
    Ok(parse_literal(alloc, program, called.argument, text)?)
}
