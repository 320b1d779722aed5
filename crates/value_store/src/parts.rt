// The parts of what a node stands for.
ghost use Rattle.std.specs.Prelude.{ℕ, List};
ghost use Rattle.core_terms.specs.Types.{AuthTy, PairTy, Table, Ty};
ghost use Rattle.core_terms.specs.Values.{PairV, Value};
ghost use Rattle.value_store.specs.Standing.{Kind, ProverNodes, StandsFor};

use crate::node::{Held, Ref};
use crate::nodes::Nodes;
use crate::view::View;

/// The node of the first component of a pair.
pub fn first_component<N: Nodes>(store: &N, pair: Ref) -> Ref
    requires { (kind : Kind) × (types : Table) × (a : Ty) × (b : Ty) × (v : Value) × StandsFor kind types (N.nodes store.now) pair.0 (PairTy a b) v }
    ensures { (kind : Kind) (types : Table) (a b : Ty) (x y : Value) → StandsFor kind types (N.nodes store.now) pair.0 (PairTy a b) (PairV x y)
        → StandsFor kind types (N.nodes store.now) result.0 a x }
{
    match store.view(pair) {
        View::Pair(first, _) => first,
        _ => unreachable!(),
    }
}

/// The node that a prover's node of an authenticated value refers to.
pub fn inner_of<N: Nodes>(store: &N, r: Ref) -> Ref
    requires { (digest : Ty → List ℕ → List ℕ) × (types : Table) × (t : Ty) × (x : Value) × StandsFor (ProverNodes digest) types (N.nodes store.now) r.0 (AuthTy t) x }
    ensures { (digest : Ty → List ℕ → List ℕ) (types : Table) (t : Ty) (x : Value) → StandsFor (ProverNodes digest) types (N.nodes store.now) r.0 (AuthTy t) x
        → StandsFor (ProverNodes digest) types (N.nodes store.now) result.0 t x }
{
    match store.view(r) {
        View::Auth(Held::Both(_, inner)) => inner,
        _ => unreachable!(),
    }
}
