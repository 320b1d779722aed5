// The roles of a program: its functions that can be entered from outside.
ghost use Rattle.std.specs.Prelude.{◌≡◌, ℕ, true, Option, Some, None, List, map, option_map, bytes_eq, if◌then◌else◌, IfOk};
ghost use Rattle.std.specs.List.{list_all, position};
ghost use Rattle.core_terms.specs.ProgramTrees.{function_of, has_types_below, kind_of};
ghost use Rattle.core_terms.specs.RoleViews.{HasArgument, HaveArguments, has_role_below, role_kind_of, role_of};
ghost use Rattle.core_terms.specs.Roles.{is_entered, roles_among, role_with};
ghost use Rattle.core_terms.specs.Types.{Ty};

use crate::{Function, FunctionId, Kind, Name, TyId};
use std::alloc::{AllocError, Global};

/// The number of a role among the roles of its program, in the order of declarations.
#[derive(Clone, Copy, PartialEq)]
pub struct RoleId(pub usize);

/// How a role is entered.
#[derive(Clone, Copy, PartialEq)]
pub enum RoleKind {
    /// To make a state.
    Init,
    /// To read a state and answer.
    Query,
    /// To give a new state and answer.
    Update,
}

/// A role of a program.
#[derive(Drop)]
pub struct Role {
    /// The function that is entered.
    pub function: FunctionId,
    pub name: Name,
    pub kind: RoleKind,
    /// The type of what the caller passes, beside the state that a query or update reads.
    pub argument: TyId,
    /// The type of the function's result: of an update a pair, the new state and the answer.
    pub result: TyId,
}

impl Kind {
    /// The kind of the role; none exactly where the function is called by the program alone.
    pub fn of_role(self) -> Option<RoleKind>
        ensures { option_map role_kind_of result ≡ (if is_entered (kind_of self) then Some (kind_of self) else None) }
    {
        match self {
            Kind::Inner => None,
            Kind::Init => Some(RoleKind::Init),
            Kind::Query => Some(RoleKind::Query),
            Kind::Update => Some(RoleKind::Update),
        }
    }
}

/// The roles among the functions of a program, in the order of declarations.
pub fn roles_of(functions: &[Function], alloc: Global) -> Result<Vec<Role>, AllocError>
    requires { HaveArguments functions.now }
    ensures roles { IfOk result (λ roles. (types : List Ty) → map (role_of types) roles.items ≡ roles_among 0 (map (function_of types) functions.now)) }
    ensures within { IfOk result (λ roles. (count : ℕ) → list_all (has_types_below count) functions.now ≡ true → list_all (has_role_below count) roles.items ≡ true) }
{
    let mut roles = Vec::new(alloc);
    for (number, function) in functions.iter().enumerate() {
        if let Some(kind) = function.kind.of_role() {
            let role = as_role(FunctionId(number), function, kind, alloc)?;
            roles.push(role)?;
        }
    }
    Ok(roles)
}

/// A function, entered in this way.
fn as_role(
    id: FunctionId,
    function: &Function,
    kind: RoleKind,
    alloc: Global,
) -> Result<Role, AllocError>
    requires kind { kind_of function.now.kind ≡ role_kind_of kind }
    requires argument { HasArgument function.now }
    ensures role { IfOk result (λ role. (types : List Ty) → role_of types role ≡ role_with id.0 (function_of types function.now)) }
    ensures within { IfOk result (λ role. (count : ℕ) → has_types_below count function.now ≡ true → has_role_below count role ≡ true) }
{
    let place = match kind {
        RoleKind::Init => 0,
        RoleKind::Query | RoleKind::Update => 1,
    };
    Ok(Role {
        function: id,
        name: function.name.copied(alloc)?,
        kind,
        argument: function.parameters[place],
        result: function.result,
    })
}

/// The place of the first of the roles that has this name.
pub fn place_of(roles: &[Role], name: &str) -> Option<usize>
    ensures { result ≡ position (λ role. bytes_eq role.name name.now) roles.now }
{
    roles
        .iter()
        .position(|role| role.name.as_bytes() == name.as_bytes())
}
