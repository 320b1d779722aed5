// The state behind an accepted outcome.
ghost use Rattle.std.specs.Prelude.{◌≡◌, IfOk};
ghost use Rattle.core_terms.specs.Programs.{meaning, types_of};
ghost use Rattle.core_terms.specs.RoleTypes.{HasRoleShape};
ghost use Rattle.core_terms.specs.RoleViews.{role_kind_of, role_of};
ghost use Rattle.core_terms.specs.TypeTables.{type_at};
ghost use Rattle.ideal_meaning.specs.Ideal as ideal;
ghost use Rattle.ideal_meaning.specs.SpelledOutcomes.{SpellsOutcome};
ghost use Rattle.session_meaning.specs.Calls.{state_made};
ghost use Rattle.session_meaning.specs.Client.{state_behind};
ghost use Rattle.verifier_mode.specs.Verdicts.{TellsSomeOutcome};

use core_terms::{Outcome, Program, Role, RoleKind, Spelling};
use shallow_codec::first_spelled;
use std::alloc::{AllocError, Global};

/// The spelling of the state behind an outcome that is told: of the state that an update makes, if it makes one.
pub fn state_behind(
    alloc: Global,
    program: &Program,
    role: &Role,
    state: Spelling,
    outcome: &Outcome<Spelling>,
) -> Result<Spelling, AllocError>
    requires shape { HasRoleShape (meaning program.now) (role_of (types_of program.now) role.now) }
    requires told { TellsSomeOutcome (meaning program.now) (type_at (types_of program.now) role.now.result) outcome.now }
    ensures { IfOk result (λ behind. (o : ideal.Outcome) → SpellsOutcome (meaning program.now) (type_at (types_of program.now) role.now.result) o outcome.now
        → behind ≡ state_behind (state_made (role_kind_of role.now.kind) o) state) }
{
    match outcome {
        Outcome::Done(value) => match role.kind {
            RoleKind::Update => {
                first_spelled(alloc, program.types(), role.result, value.as_bytes())
            }
            RoleKind::Init => Ok(state),
            RoleKind::Query => Ok(state),
        },
        Outcome::Trapped(_) => Ok(state),
        Outcome::Out => Ok(state),
    }
}
