// Calls of roles on ideal states, as the words of a command line name them.
ghost use Rattle.std.specs.Prelude.{◌≡◌, IfOk, Option};
ghost use Rattle.std.specs.Option.{ForSome};
ghost use Rattle.lam_outside.specs.Told.{Contents};
ghost use Rattle.core_terms.specs.Programs.{meaning, types_of};
ghost use Rattle.core_terms.specs.RoleTypes.{IsPlain};
ghost use Rattle.core_terms.specs.TypeTables.{type_at};
ghost use Rattle.value_store.specs.Markings.{HasLimit};
ghost use Rattle.value_store.specs.Standing.{Keeps, StandsFor};
ghost use Rattle.value_store.specs.Stores.{nodes_in, store_lent};
ghost use Rattle.command_parts.specs.RoleInputs.{with_fueled_role, with_ideal_call};
ghost use Rattle.command_parts.specs.FileInputs.{with_literal};
ghost use Rattle.command_parts.specs.AnswerForms.{Answer};
ghost use Rattle.command_parts.specs.CallsInStores.{HoldsCall, HoldsSome, with_called};
ghost use Rattle.command_parts.specs.FueledRoles.{FueledRole};
ghost use Rattle.command_parts.specs.Halting.{StepGivesFor, HaltCause, InHand};
ghost use Rattle.command_parts.specs.IdealCalls as meant;
ghost use Rattle.command_parts.specs.ReachingInCode.{FaultsAt, FaultsAtReached};
ghost use Rattle.command_parts.specs.ReadPrograms.{named_of};
ghost use Rattle.command_parts.specs.RoleCalls.{named_literal};
ghost use Rattle.command_parts.specs.RolesCalled.{IsCalled, prover_nodes, role_of};
ghost use Rattle.command_parts.specs.declared.roles.Callee.{Callee};

use crate::Halt;
use crate::roles::{CallWords, CalledRole, Callee, called_role};
use crate::stored_states::load_image_file;
use core_terms::{Program, TyId};
use lam_outside::Files;
use printed_syntax::literal::parse_literal;
use shallow_codec::{UnspellFault, unspell};
use std::alloc::Global;
use value_store::{Ref, Store};

/// A call of a role on an ideal state and an argument, which stand in a store over the prover's nodes.
#[derive(Drop)]
pub struct IdealCall {
    pub called: CalledRole,
    pub store: Store,
    pub state: Ref,
    pub argument: Ref,
}

/// The call of a role that the words name, on the state in an image. What is refused first in this order halts it: the role, the fuel,
/// the image, the argument.
pub fn read_named_call<F: Files>(
    alloc: Global,
    files: &mut F,
    program: &Program,
    callee: Callee,
    words: &CallWords<'_>,
    image: &str,
) -> Result<IdealCall, Halt>
    ensures goes { let words = words.now in let p = program.now in ForSome (F.contents files.old) (λ told.
        StepGivesFor (with_called callee (named_of p) words.role.now image.now words.argument.now words.fuel.now told) (HoldsCall callee p) result) }
    ensures holds { IfOk result (HoldsSome callee program.now) }
    ensures role { let words = words.now in let p = program.now in IfOk result (λ held.
        (go : FueledRole → Option Answer) → with_fueled_role callee (named_of p) words.role.now words.fuel.now go ≡ go (role_of p held.called)) }
    ensures reached { let words = words.now in let p = program.now in (next : Contents → meant.IdealCall → Option Answer) → FaultsAtReached
        (λ told. with_called callee (named_of p) words.role.now image.now words.argument.now words.fuel.now told (next told)) (F.contents files.old) (F.asked files.new) result }
    ensures cause { HaltCause (F.faults files.old) (F.faults files.new) result }
    ensures contents { F.contents files.new ≡ F.contents files.old }
    ensures stores { F.stores files.new ≡ F.stores files.old }
    ensures store_faults { F.store_faults files.new ≡ F.store_faults files.old }
{
    let called = called_role(program, callee, words.role, words.fuel)?;
    read_ideal_call(alloc, files, program, called, image, words.argument)
}

/// The call of a role on the state in an image, and on an argument. The image is judged first.
pub fn read_ideal_call<F: Files>(
    alloc: Global,
    files: &mut F,
    program: &Program,
    called: CalledRole,
    image: &str,
    argument: &str,
) -> Result<IdealCall, Halt>
    requires { (callee : Callee) × IsCalled callee program.now called }
    ensures goes { let p = program.now in (callee : Callee) → IsCalled callee p called → ForSome (F.contents files.old) (λ told.
        StepGivesFor (with_ideal_call (role_of p called) image.now argument.now told) (HoldsCall callee p) result) }
    ensures holds { let p = program.now in (callee : Callee) → IsCalled callee p called → IfOk result (HoldsSome callee p) }
    ensures called { IfOk result (λ held. held.called ≡ called) }
    ensures asked { FaultsAt image.now (F.asked files.new) result }
    ensures cause { HaltCause (F.faults files.old) (F.faults files.new) result }
    ensures contents { F.contents files.new ≡ F.contents files.old }
    ensures stores { F.stores files.new ≡ F.stores files.old }
    ensures store_faults { F.store_faults files.new ≡ F.store_faults files.old }
{
    let loaded = load_image_file(alloc, files, program, image)?;
    let mut store = loaded.store;
    let ty = called.argument;
    let argument = put_argument(alloc, program, &mut store, ty, argument)?;
    Ok(IdealCall {
        called,
        store,
        state: loaded.root,
        argument,
    })
}

/// Puts the value that a text is a literal of, at a type without `auth`.
pub fn put_argument(
    alloc: Global,
    program: &Program,
    store: &mut Store,
    ty: TyId,
    text: &str,
) -> Result<Ref, Halt>
    requires plain { IsPlain (meaning program.now).types (type_at (types_of program.now) ty) }
    requires limit { HasLimit (meaning program.now) (store_lent store.old) }
    ensures goes { let p = program.now in let t = type_at (types_of p) ty in
        InHand (StepGivesFor (with_literal (named_literal (named_of p) t text.now)) (λ value v. StandsFor (prover_nodes p) (meaning p).types (nodes_in store.new) value.0 t v)) result }
    ensures keeps { Keeps (nodes_in store.old) (nodes_in store.new) }
    ensures limit { HasLimit (meaning program.now) (store_lent store.new) }
{
    let spelling = parse_literal(alloc, program, ty, text)?;
    match unspell(alloc, program.types(), store, spelling.as_bytes(), ty) {
        Ok(value) => Ok(value),
        Err(UnspellFault::Bad(_)) => unreachable!(),
        Err(UnspellFault::NoMemory) => Err(Halt::NoMemory),
    }
}
