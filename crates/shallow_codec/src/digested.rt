// The prover's nodes of authenticated values.
ghost use Rattle.std.specs.Prelude.{◌≡◌, IfOk, OnErr};
ghost use Rattle.core_terms.specs.Fronts.{AreFronts};
ghost use Rattle.core_terms.specs.ProgramTypes.{types_meaning};
ghost use Rattle.core_terms.specs.Projection.{digest_at};
ghost use Rattle.core_terms.specs.Types.{AuthTy};
ghost use Rattle.core_terms.specs.Values.{Value};
ghost use Rattle.shallow_codec.specs.ProgramTypes.{table, ty_of};
ghost use Rattle.value_store.specs.Standing.{Grows, Keeps, ProverNodes, StandsFor};

use crate::spell;
use core_terms::{Fronts, Hash32, TyId, Types};
use std::alloc::{AllocError, Global};
use value_store::{Held, Nodes, Ref};

/// Puts the authenticated value of a value that stands over the prover's nodes: it is held with the digest of the spelling of its
/// projection. Takes the time of that spelling and of its digest. Where memory is wanting nothing is changed.
pub fn put_digested<H: Hash32, N: Nodes>(
    alloc: Global,
    types: &Types,
    fronts: &Fronts,
    store: &mut N,
    ty: TyId,
    v: Ref,
) -> Result<Ref, AllocError>
    requires fronts { AreFronts H.hash types.now fronts.now }
    requires stands { (x : Value) × StandsFor (ProverNodes (digest_at H.hash (types_meaning types.now))) (table types.now) (N.nodes store.old) v.0 (ty_of types.now ty) x }
    ensures stands { IfOk result
        (λ r. (x : Value) → StandsFor (ProverNodes (digest_at H.hash (types_meaning types.now))) (table types.now) (N.nodes store.old) v.0 (ty_of types.now ty) x
        → StandsFor (ProverNodes (digest_at H.hash (types_meaning types.now))) (table types.now) (N.nodes store.new) r.0 (AuthTy (ty_of types.now ty)) x) }
    ensures grows { Grows (N.nodes store.old) (N.nodes store.new) }
    ensures lent { N.lent store.new ≡ N.lent store.old }
    ensures keeps { Keeps (N.nodes store.old) (N.nodes store.new) }
    ensures refused { OnErr result (N.nodes store.new ≡ N.nodes store.old) }
{
    let spelling = spell(alloc, types, store, v, ty)?;
    let digest = H::of_pair(fronts.front(ty), spelling.as_bytes());
    store.put_auth(Held::Both(digest, v))
}
