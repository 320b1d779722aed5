// Pairs and arrays that are spelled by nothing.
ghost use Rattle.std.specs.Prelude.{◌≡◌, ◌<◌, ℕ, None, Some, List, length, IfOk, OnOk};
ghost use Rattle.core_terms.specs.Types.{Ty, Table};
ghost use Rattle.core_terms.specs.TypeTables.{type_at};
ghost use Rattle.core_terms.specs.Values.{Value};
ghost use Rattle.shallow_codec.specs.PutNodes.{IsThere};
ghost use Rattle.value_store.specs.Nodes.{size_at};

use core_terms::TyId;
use std::alloc::{AllocError, Global};
use std::collections::HashMap;
use value_store::{Nodes, Ref};

/// The pairs and arrays that are spelled by nothing and were put so far, by the numbers of their types. A type has at most one such value, so each
/// is put once, however often it is a part. A unit, the one other value that is spelled by nothing, isn't kept here: it is one node, and is
/// put where it is read.
#[derive(Drop)]
pub(crate) struct Nothings {
    refs: HashMap<usize, Ref>,
}

impl Nothings {
    ghost use Rattle.shallow_codec.specs.KnownNothings.{AreKnown, known};

    /// None so far.
    pub fn new(alloc: Global) -> Self
        ensures { (n : ℕ) → known result n ≡ None }
    {
        Nothings {
            refs: HashMap::new(alloc),
        }
    }

    /// That of a type, where it was put.
    pub fn get(&self, ty: TyId) -> Option<Ref>
        ensures { result ≡ known self.now ty.0 }
    {
        self.refs.get(&ty.0).copied()
    }

    /// Keeps a value of a type if it is spelled by nothing. `AllocError` where there is no memory to keep it.
    pub fn note<N: Nodes>(&mut self, store: &N, ty: TyId, value: Ref) -> Result<(), AllocError>
        requires { value.0 < length (N.nodes store.now) }
        ensures kept { OnOk result (size_at (N.nodes store.now) value.0 ≡ 0 → known self.new ty.0 ≡ Some value) }
        ensures known { IfOk result
            (λ _. (types : Table) (tys : List Ty) (v : Value) → AreKnown types tys (N.nodes store.now) self.old
            → IsThere types (N.nodes store.now) value.0 (type_at tys ty) v → AreKnown types tys (N.nodes store.now) self.new) }
    {
        if store.shallow_size(value) > 0 {
            return Ok(());
        }
        match self.refs.insert(ty.0, value) {
            Ok(_) => Ok(()),
            Err(_) => Err(AllocError),
        }
    }
}
