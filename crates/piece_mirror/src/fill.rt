// The pieces of a state are put into a mirror.
ghost use Rattle.std.specs.Prelude.{◌≡◌, ◌≤◌, ℕ, length, take, IfOk, OnErr, OnOk};
ghost use Rattle.core_terms.specs.Fronts.{AreFronts};
ghost use Rattle.core_terms.specs.ProgramTypes.{types_meaning};
ghost use Rattle.core_terms.specs.Values.{Value};
ghost use Rattle.shallow_codec.specs.ProgramTypes.{ty_of};
ghost use Rattle.value_store.specs.Stores.{nodes_in};
ghost use Rattle.piece_mirror.specs.Filled.{all_added, piece_of, pieces_in};
ghost use Rattle.piece_mirror.specs.FilledInCode.{IsProverState, IsProverValue};
ghost use Rattle.piece_mirror.specs.Mirrors.{piece_limit};
ghost use Rattle.piece_mirror.specs.Tables.{bytes_of};

use crate::Mirror;
use core_terms::{Fronts, Hash32, TyId, Types};
use images::auth_order;
use shallow_codec::spell;
use std::alloc::{AllocError, Global};
use value_store::{Ref, Store};

impl<H: Hash32> Mirror<H> {
    /// Puts the piece of each authenticated part of a state, in the order of the records of the state's image. The state stands over
    /// the prover's nodes.
    ///
    /// # Errors
    ///
    /// `AllocError` where there is no memory for one of them. The first ones were put then.
    pub fn fill(&mut self, types: &Types, store: &Store, root: Ref) -> Result<(), AllocError>
        requires { (v : Value) × IsProverState H.hash (types_meaning types.now) (nodes_in store.now) root.0 v }
        ensures filled { (v : Value) → IsProverState H.hash (types_meaning types.now) (nodes_in store.now) root.0 v
            → OnOk result (bytes_of self.new.pieces ≡ all_added (bytes_of self.old.pieces) (pieces_in H.hash (types_meaning types.now) v)) }
        ensures refused { (v : Value) → IsProverState H.hash (types_meaning types.now) (nodes_in store.now) root.0 v
            → OnErr result ((n : ℕ) × (bytes_of self.new.pieces ≡ all_added (bytes_of self.old.pieces) (take n (pieces_in H.hash (types_meaning types.now) v)))) }
    {
        let order = auth_order(self.alloc, types, store, root)?;
        let fronts = Fronts::of_types::<H>(types, self.alloc)?;
        for (ty, inner) in order.as_slice() {
            let piece = piece_at::<H>(self.alloc, types, &fronts, store, *inner, *ty)?;
            self.put(&piece)?;
        }
        Ok(())
    }
}

/// The piece of what a node of the prover's stands for.
fn piece_at<H: Hash32>(
    alloc: Global,
    types: &Types,
    fronts: &Fronts,
    store: &Store,
    node: Ref,
    ty: TyId,
) -> Result<Vec<u8>, AllocError>
    requires fronts { AreFronts H.hash types.now fronts.now }
    requires stands { (v : Value) × IsProverValue H.hash (types_meaning types.now) (nodes_in store.now) node.0 (ty_of types.now ty) v }
    ensures piece { IfOk result
        (λ piece. (v : Value) → IsProverValue H.hash (types_meaning types.now) (nodes_in store.now) node.0 (ty_of types.now ty) v
        → piece.items ≡ piece_of H.hash (types_meaning types.now) (ty_of types.now ty) v) }
    ensures short { IfOk result (λ piece. length piece.items ≤ piece_limit) }
{
    let spelling = spell(alloc, types, store, node, ty)?;
    let mut piece = Vec::from_slice(alloc, fronts.front(ty))?;
    piece.extend_from_slice(spelling.as_bytes())?;
    Ok(piece)
}
