// The prover's nodes, with SHA-256 digests.
ghost use Rattle.std.specs.Prelude.{IfOk};
ghost use Rattle.core_terms.specs.Fronts.{AreFronts};
ghost use Rattle.sha2.specs.Sha256.{sha256};

use crate::Sha;
use core_terms::{Fronts, TyId, Types};
use shallow_codec::put_digested;
use std::alloc::{AllocError, Global};
use value_store::{Marker, Ref, Store};

/// Makes the prover's nodes: each authenticated value is held with the SHA-256 digest of the spelling of its projection, behind the
/// front of its type.
#[derive(Drop)]
pub struct ProverMarker {
    alloc: Global,
    fronts: Fronts,
}

impl ProverMarker {
    /// A marker for values of these types, that takes the memory of spellings from here.
    ///
    /// # Errors
    ///
    /// `AllocError` where there is no memory for the fingerprints of the types. In the first format it takes none.
    pub fn new(alloc: Global, types: &Types) -> Result<Self, AllocError>
        ensures { IfOk result (λ marker. AreFronts sha256 types.now marker.fronts) }
    {
        let fronts = Fronts::of_types::<Sha>(types, alloc)?;
        Ok(ProverMarker { alloc, fronts })
    }
}

impl Marker for ProverMarker {
    ghost use Rattle.value_store.specs.Markings.{ProverMarking};

    ghost marking = { ProverMarking sha256 };

    ghost Knows = { λ types marker. AreFronts sha256 types marker.fronts };

    fn mark_auth(
        &mut self,
        types: &Types,
        store: &mut Store,
        ty: TyId,
        inner: Ref,
    ) -> Result<Ref, AllocError> {
        put_digested::<Sha, Store>(self.alloc, types, &self.fronts, store, ty, inner)
    }
}
