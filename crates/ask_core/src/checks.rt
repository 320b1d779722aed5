// The bytes of a state and of a call, before they are sent.
ghost use Rattle.std.specs.Prelude.{◌≡◌, ◌≤◌, ◌^◌, IfSome, option_copied};
ghost use Rattle.core_terms.specs.Programs.{meaning, types_of};
ghost use Rattle.core_terms.specs.RoleTypes.{HasRoleShape};
ghost use Rattle.core_terms.specs.RoleViews.{role_of};
ghost use Rattle.mode_vm.specs.Meanings.{program_of};
ghost use Rattle.ask_core.specs.Checks.{CallRead, IsCalled, StateRead};

use crate::asked::Asked;
use crate::told::AskFault;
use code_gen::Code;
use core_terms::{Program, Role, RoleKind, Spelling};
use shallow_codec::{UnspellFault, check_spelled};
use std::alloc::Global;

/// Checks that the bytes spell a state of the program.
pub fn check_state(alloc: Global, code: &Code, state: &[u8]) -> Result<(), AskFault>
    ensures { StateRead (program_of code.now) state.now result }
{
    let types = code.types();
    match check_spelled(alloc, types, state, types.state_type()) {
        Ok(()) => Ok(()),
        Err(UnspellFault::Bad(offset)) => Err(AskFault::BadState(offset)),
        Err(UnspellFault::NoMemory) => Err(AskFault::NoMemory),
    }
}

/// A call of a role with an argument that these bytes spell.
pub fn spelled_call(
    alloc: Global,
    code: &Code,
    role: u16,
    fuel: u64,
    argument: &[u8],
) -> Result<Asked, AskFault>
    requires { fuel ≤ 10 ^ 12 }
    ensures { CallRead (program_of code.now) role fuel argument.now result }
{
    let called = match role_called(code.program(), role) {
        Some(called) => called,
        None => return Err(AskFault::OutOfTurn),
    };
    match check_spelled(alloc, code.types(), argument, called.argument) {
        Ok(()) => {
            let argument = Spelling::new(Vec::from_slice(alloc, argument)?);
            Ok(Asked {
                role,
                argument,
                fuel,
            })
        }
        Err(UnspellFault::Bad(offset)) => Err(AskFault::BadArgument(offset)),
        Err(UnspellFault::NoMemory) => Err(AskFault::NoMemory),
    }
}

/// The role with a number, where it is a query or an update.
pub fn role_called(program: &Program, number: u16) -> Option<&Role>
    ensures called { IsCalled (types_of program.now) (meaning program.now) number (option_copied result) }
    ensures shape { IfSome (option_copied result) (λ role. HasRoleShape (meaning program.now) (role_of (types_of program.now) role)) }
{
    match program.roles().get(usize::from(number)) {
        Some(role) => match role.kind {
            RoleKind::Init => None,
            RoleKind::Query => Some(role),
            RoleKind::Update => Some(role),
        },
        None => None,
    }
}
