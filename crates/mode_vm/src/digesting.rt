// The ideal mode over the prover's nodes.
ghost use Rattle.std.specs.Prelude.{◌≡◌, None};
ghost use Rattle.core_terms.specs.Fronts.{AreFronts};
ghost use Rattle.value_store.specs.Markings.{ProverMarking};

use crate::ideal::Never;
use crate::mode::{Mode, Stop};
use core_terms::{Fronts, Hash32, TyId, Types};
use shallow_codec::{SpareBuffer, spell_into};
use std::alloc::Global;
use std::marker::PhantomData;
use value_store::{Held, Nodes, Ref, inner_of};

/// The ideal mode, whose authenticated values are held with their digests: each is digested once, when it is made.
#[derive(Drop)]
pub struct DigestingMode<H> {
    spare: SpareBuffer,
    fronts: Fronts,
    hash: PhantomData<H>,
}

impl<H: Hash32> DigestingMode<H> {
    /// A mode that takes the memory of spellings from here, and digests behind these fronts.
    pub fn new(alloc: Global, fronts: Fronts) -> Self
        ensures fronts { result.fronts ≡ fronts }
    {
        DigestingMode {
            spare: SpareBuffer::new(alloc),
            fronts,
            hash: PhantomData,
        }
    }
}

impl<H: Hash32> Mode for DigestingMode<H> {
    type Fault = Never;

    type World = ();

    ghost marking = { ProverMarking H.hash };

    ghost Follows = { λ t mode world nodes w. Unit {0} };

    ghost cause = { λ f. None };

    ghost May = { λ v a w. ⊥ };

    ghost Last = { λ v a f w. ⊥ };

    ghost Expects = { λ mode w got. ⊥ };

    ghost opened = { λ mode. 0 };

    ghost Knows = { λ t mode nodes. AreFronts H.hash t mode.fronts };

    ghost rest = { λ world. tt };

    ghost moves_not = { λ a v. tt };

    ghost moves_on = { λ a b c v w x h k. tt };

    ghost follows_on = { λ t mode world old new w k h. h };

    ghost knows_on = { λ t mode old new k h. h };

    // The prover calls this for each value that it authenticates.
    #[inline(always)]
    fn auth<N: Nodes>(
        &mut self,
        types: &Types,
        store: &mut N,
        ty: TyId,
        v: Ref,
    ) -> Result<Ref, Stop<Never>> {
        let mut spelling = self.spare.take();
        spell_into(types, store, v, ty, &mut spelling)?;
        let digest = H::of_pair(self.fronts.front(ty), &spelling);
        self.spare.keep(spelling);
        Ok(store.put_auth(Held::Both(digest, v))?)
    }

    fn unauth<N: Nodes>(
        &mut self,
        _world: &mut (),
        _types: &Types,
        store: &mut N,
        _ty: TyId,
        v: Ref,
    ) -> Result<Ref, Stop<Never>> {
        Ok(inner_of(store, v))
    }
}
