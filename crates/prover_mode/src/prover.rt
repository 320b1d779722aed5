// The prover as a mode of the machine.
ghost use Rattle.std.specs.Prelude.{◌≡◌, [], length, None};
ghost use Rattle.core_terms.specs.Fronts.{AreFronts};
ghost use Rattle.value_store.specs.Markings.{ProverMarking};

use crate::opened::Opened;
use core_terms::{Fronts, Hash32, TyId, Types};
use mode_vm::{DigestingMode, Mode, Never, Stop};
use std::alloc::Global;
use value_store::{Nodes, Ref, inner_of};

/// How many openings there is room for at first, where there is memory: else it is asked for as values are opened.
const FIRST_OPENED: usize = 16;

/// The prover: the digesting mode, which notes what is opened.
#[derive(Drop)]
pub struct Prover<H> {
    digesting: DigestingMode<H>,
    opened: Vec<Opened>,
}

impl<H: Hash32> Prover<H> {
    /// A prover that has opened nothing, and digests behind these fronts.
    pub fn new(alloc: Global, fronts: Fronts) -> Self
        ensures opened { result.opened.items ≡ [] }
        ensures fronts { result.digesting.fronts ≡ fronts }
    {
        let mut opened = Vec::new(alloc);
        let _ = opened.reserve(FIRST_OPENED);
        Prover {
            digesting: DigestingMode::new(alloc, fronts),
            opened,
        }
    }

    /// What was opened, in order.
    pub fn into_opened(self) -> Vec<Opened>
        ensures { result ≡ self.opened }
    {
        let Prover { digesting, opened } = self;
        drop(digesting);
        opened
    }
}

impl<H: Hash32> Mode for Prover<H> {
    ghost use Rattle.prover_mode.specs.Seen.{AreSeen, seen_keeps};

    type Fault = Never;

    type World = ();

    ghost marking = { ProverMarking H.hash };

    ghost Follows = { λ t mode world nodes w. AreSeen H.hash t nodes mode.opened.items w };

    ghost cause = { λ f. None };

    ghost May = { λ v a w. ⊥ };

    ghost Last = { λ v a f w. ⊥ };

    ghost Expects = { λ mode w got. ⊥ };

    ghost opened = { λ mode. length mode.opened.items };

    ghost Knows = { λ t mode nodes. AreFronts H.hash t mode.digesting.fronts };

    ghost rest = { λ world. tt };

    ghost moves_not = { λ a v. tt };

    ghost moves_on = { λ a b c v w x h k. tt };

    ghost follows_on = { λ t mode world old new w k h. seen_keeps H.hash t old new k mode.opened.items w h };

    ghost knows_on = { λ t mode old new k h. h };

    fn auth<N: Nodes>(
        &mut self,
        types: &Types,
        store: &mut N,
        ty: TyId,
        v: Ref,
    ) -> Result<Ref, Stop<Never>> {
        self.digesting.auth(types, store, ty, v)
    }

    fn unauth<N: Nodes>(
        &mut self,
        _world: &mut (),
        _types: &Types,
        store: &mut N,
        ty: TyId,
        v: Ref,
    ) -> Result<Ref, Stop<Never>> {
        let value = inner_of(store, v);
        self.opened.push(Opened { ty, value })?;
        Ok(value)
    }
}
