// Outcomes with the spellings of their values.
ghost use Rattle.std.specs.Prelude.{IfOk};
ghost use Rattle.core_terms.specs.ProgramTypes.{types_by_number, types_meaning};
ghost use Rattle.core_terms.specs.Projection.{digest_at};
ghost use Rattle.core_terms.specs.TypeTables.{type_at};
ghost use Rattle.ideal_meaning.specs.Ideal as ideal;
ghost use Rattle.value_store.specs.Markings.{HasLimit};
ghost use Rattle.value_store.specs.Standing.{ProverNodes};
ghost use Rattle.mode_vm.specs.IdealRuns.{IsOutcome};
ghost use Rattle.ideal_meaning.specs.SpelledOutcomes.{SpellsOutcome};

use core_terms::{Hash32, Outcome, Spelling, TyId, Types};
use shallow_codec::spell;
use std::alloc::{AllocError, Global};
use value_store::{Nodes, Ref};

/// The outcome with the spelling of the projection of its value, which stands among the prover's nodes at a type.
///
/// # Errors
///
/// `AllocError` where there is no memory for the spelling.
pub fn spelled_outcome<H: Hash32, N: Nodes>(
    alloc: Global,
    types: &Types,
    store: &N,
    outcome: Outcome<Ref>,
    ty: TyId,
) -> Result<Outcome<Spelling>, AllocError>
    requires limit { HasLimit (types_meaning types.now) (N.lent store.now) }
    requires ends { let P = types_meaning types.now in
        (o : ideal.Outcome) × IsOutcome (ProverNodes (digest_at H.hash P)) P.types (N.nodes store.now) (type_at (types_by_number types.now) ty) outcome o }
    ensures { let P = types_meaning types.now in let t = type_at (types_by_number types.now) ty in IfOk result (λ told. (o : ideal.Outcome)
        → IsOutcome (ProverNodes (digest_at H.hash P)) P.types (N.nodes store.now) t outcome o
        → SpellsOutcome P t (ideal.outcome_projection H.hash P t o) told) }
{
    Ok(match outcome {
        Outcome::Done(value) => Outcome::Done(spell(alloc, types, store, value, ty)?),
        Outcome::Trapped(trap) => Outcome::Trapped(trap),
        Outcome::Out => Outcome::Out,
    })
}
