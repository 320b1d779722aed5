// The ideal mode.
ghost use Rattle.std.specs.Prelude.{None};
ghost use Rattle.value_store.specs.Markings.{IdealMarking};

use crate::mode::{Mode, Stop};
use core_terms::{TyId, Types};
use value_store::{Held, Nodes, Ref, View};

/// The ideal mode: an authenticated value is the value.
#[derive(Clone, Copy)]
pub struct IdealMode;

/// The ideal mode stops no run.
#[derive(Clone, Copy)]
pub enum Never {}

impl Mode for IdealMode {
    type Fault = Never;

    type World = ();

    ghost marking = { IdealMarking };

    ghost Follows = { λ t mode world nodes w. Unit {0} };

    ghost cause = { λ f. None };

    ghost May = { λ v a w. ⊥ };

    ghost Last = { λ v a f w. ⊥ };

    ghost Expects = { λ mode w got. ⊥ };

    ghost opened = { λ mode. 0 };

    ghost Knows = { λ t mode nodes. Unit {0} };

    ghost rest = { λ world. tt };

    ghost moves_not = { λ a v. tt };

    ghost moves_on = { λ a b c v w x h k. tt };

    ghost follows_on = { λ t mode world old new w k h. h };

    ghost knows_on = { λ t mode old new k h. h };

    fn auth<N: Nodes>(
        &mut self,
        _types: &Types,
        store: &mut N,
        _ty: TyId,
        v: Ref,
    ) -> Result<Ref, Stop<Never>> {
        Ok(store.put_auth(Held::Inner(v))?)
    }

    fn unauth<N: Nodes>(
        &mut self,
        _world: &mut (),
        _types: &Types,
        store: &mut N,
        _ty: TyId,
        v: Ref,
    ) -> Result<Ref, Stop<Never>> {
        match store.view(v) {
            View::Auth(Held::Inner(inner)) => Ok(inner),
            View::Auth(Held::Both(_, inner)) => Ok(inner),
            _ => unreachable!(),
        }
    }
}
