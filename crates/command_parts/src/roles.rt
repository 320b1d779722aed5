// Roles of programs, as the words of a command line name them.
ghost use Rattle.std.specs.Prelude.{◌≡◌, IfOk};
ghost use Rattle.core_terms.specs.Programs.{meaning};
ghost use Rattle.core_terms.specs.RoleViews.{role_kind_of};
ghost use Rattle.command_parts.specs.RoleInputs.{with_fueled_role, with_role};
ghost use Rattle.command_parts.specs.Halting.{StepGives, InHand};
ghost use Rattle.command_parts.specs.ReadPrograms.{named_of};
ghost use Rattle.command_parts.specs.RoleCalls.{is_called};
ghost use Rattle.command_parts.specs.RolesCalled.{IsCalled, IsRoleOf, role_of};

use crate::Halt;
use crate::arguments::fuel_named;
use core_terms::{FunctionId, Program, Role, RoleKind, TyId};
use printed_lines::refusal::InputFault;

/// The words that name a call: the program's file, a role, the literal of its argument, and the fuel.
#[derive(Clone, Copy)]
pub struct CallWords<'a> {
    pub program: &'a str,
    pub role: &'a str,
    pub argument: &'a str,
    pub fuel: &'a str,
}

/// The roles that a command calls.
#[derive(Clone, Copy)]
pub enum Callee {
    /// Those that make a state.
    Init,
    /// Those that read a state: queries and updates.
    OfState,
    /// Those that give a new state for one.
    Update,
}

impl Callee {
    /// Whether a role of this kind is among them.
    fn calls(self, kind: RoleKind) -> bool
        ensures { result ≡ is_called self (role_kind_of kind) }
    {
        match self {
            Callee::Init => matches!(kind, RoleKind::Init),
            Callee::OfState => matches!(kind, RoleKind::Query | RoleKind::Update),
            Callee::Update => matches!(kind, RoleKind::Update),
        }
    }
}

/// A role of a program, with the fuel that it is called with.
#[derive(Clone, Copy)]
pub struct CalledRole {
    pub function: FunctionId,
    pub kind: RoleKind,
    /// The type of what is passed, beside the state.
    pub argument: TyId,
    pub result: TyId,
    pub fuel: u64,
}

/// The role and the fuel that the words name. What is refused first halts it: the name, the kind of the role, the fuel.
pub fn called_role(
    program: &Program,
    callee: Callee,
    name: &str,
    fuel: &str,
) -> Result<CalledRole, Halt>
    ensures goes { InHand (StepGives (with_fueled_role callee (named_of program.now) name.now fuel.now) (role_of program.now)) result }
    ensures valid { IfOk result (IsCalled callee program.now) }
{
    let role = role_named(program, callee, name)?;
    let fuel = fuel_named(fuel)?;
    Ok(CalledRole {
        function: role.function,
        kind: role.kind,
        argument: role.argument,
        result: role.result,
        fuel,
    })
}

/// The role of this name, which has to be one that the command calls.
pub fn role_named<'a>(program: &'a Program, callee: Callee, name: &str) -> Result<&'a Role, Halt>
    ensures goes { InHand (StepGives (with_role callee (meaning program.now) name.now) (λ role. role.now.function.0)) result }
    ensures role { IfOk result (λ role. IsRoleOf callee program.now role.now) }
{
    let id = program.role(name).ok_or(InputFault::RoleUnknown)?;
    let role = &program.roles()[id.0];
    if callee.calls(role.kind) {
        Ok(role)
    } else {
        Err(InputFault::RoleKind.into())
    }
}
