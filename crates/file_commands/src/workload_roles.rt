// What a workload calls of a program.
ghost use Rattle.std.specs.Prelude.{◌≡◌, IfOk, codes};
ghost use Rattle.core_terms.specs.Programs.{meaning, types_of};
ghost use Rattle.core_terms.specs.RoleViews.{role_kind_of};
ghost use Rattle.core_terms.specs.RoleTypes.{IsRole};
ghost use Rattle.core_terms.specs.Terms as tree;
ghost use Rattle.core_terms.specs.TypeTables.{type_at};
ghost use Rattle.core_terms.specs.Types.{IntTy, PairTy, Ty};
ghost use Rattle.command_parts.specs.WorkloadAnswers.{is_entry, is_get, is_key, is_put, keys_of, with_shaped_role, with_workload};
ghost use Rattle.file_commands.specs.GeneratedCalls.{AreCalled};
ghost use Rattle.command_parts.specs.Halting.{StepGives, InHand};

use command_parts::{Callee, Halt, role_named};
use core_terms::{FunctionId, Program, Role, RoleKind, TyForm, TyId};
use printed_lines::refusal::InputFault;
use workloads::Workload;

/// What a workload on a program of the library calls: the update `put` on a pair of ints, and the query `get` on an int.
pub fn workload_of(program: &Program, name: &str, kept: u16) -> Result<Workload, Halt>
    ensures goes { InHand (StepGives (with_workload (meaning program.now) name.now kept) (λ workload. workload)) result }
    ensures calls { IfOk result (AreCalled (meaning program.now)) }
    ensures kept { IfOk result (λ workload. workload.kept ≡ kept) }
{
    Ok(Workload {
        put: put_role(program)?,
        get: get_role(program)?,
        keys: keys_of(name),
        kept,
    })
}

/// How many keys a workload on a program of the library has.
fn keys_of(name: &str) -> u64
    ensures { result ≡ keys_of name.now }
{
    match name {
        "merkle" => 1_024,
        _ => 1_000_000,
    }
}

/// The update `put`.
fn put_role(program: &Program) -> Result<FunctionId, Halt>
    ensures goes { InHand (StepGives (with_shaped_role is_put (meaning program.now) (codes "put")) (λ put. put.0)) result }
    ensures role { IfOk result (λ put. (answer : Ty) × IsRole (meaning program.now) put.0 tree.Update (PairTy IntTy IntTy) answer) }
{
    let role = role_named(program, Callee::OfState, "put")?;
    if is_put(program, role) {
        Ok(role.function)
    } else {
        Err(InputFault::RoleKind.into())
    }
}

/// The query `get`.
fn get_role(program: &Program) -> Result<FunctionId, Halt>
    ensures goes { InHand (StepGives (with_shaped_role is_get (meaning program.now) (codes "get")) (λ get. get.0)) result }
    ensures role { IfOk result (λ get. (answer : Ty) × IsRole (meaning program.now) get.0 tree.Query IntTy answer) }
{
    let role = role_named(program, Callee::OfState, "get")?;
    if is_get(program, role) {
        Ok(role.function)
    } else {
        Err(InputFault::RoleKind.into())
    }
}

/// Whether a workload can put by the role.
fn is_put(program: &Program, role: &Role) -> bool
    ensures { result ≡ is_put (role_kind_of role.now.kind) (type_at (types_of program.now) role.now.argument) }
{
    match role.kind {
        RoleKind::Update => is_entry(program, role.argument),
        RoleKind::Init | RoleKind::Query => false,
    }
}

/// Whether it can get by it.
fn is_get(program: &Program, role: &Role) -> bool
    ensures { result ≡ is_get (role_kind_of role.now.kind) (type_at (types_of program.now) role.now.argument) }
{
    match role.kind {
        RoleKind::Query => is_key(program, role.argument),
        RoleKind::Init | RoleKind::Update => false,
    }
}

/// Whether the type is that of an entry: a pair of ints.
fn is_entry(program: &Program, ty: TyId) -> bool
    ensures { result ≡ is_entry (type_at (types_of program.now) ty) }
{
    match program.form(ty) {
        TyForm::PairForm(key, value) => is_key(program, key) && is_key(program, value),
        _ => false,
    }
}

/// Whether the type is that of a key: int.
fn is_key(program: &Program, ty: TyId) -> bool
    ensures { result ≡ is_key (type_at (types_of program.now) ty) }
{
    matches!(program.form(ty), TyForm::IntForm)
}
