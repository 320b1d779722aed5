// The first component of a spelled pair.
ghost use Rattle.std.specs.Prelude.{◌≡◌, IfOk};
ghost use Rattle.core_terms.specs.ProgramTypes.{types_meaning};
ghost use Rattle.core_terms.specs.Spelling.{Spells, spelling};
ghost use Rattle.core_terms.specs.Types.{PairTy, Ty};
ghost use Rattle.core_terms.specs.Values.{PairV, Value};
ghost use Rattle.shallow_codec.specs.ProgramTypes.{table, ty_of};

use crate::{UnspellFault, spell, unspell};
use core_terms::{Spelling, TyId, Types};
use std::alloc::{AllocError, Global};
use value_store::{Store, first_component};

/// The spelling of the first component of the pair that the bytes spell, which is a state: of what an update gives, the state that it
/// makes. Takes the time of reading the bytes.
///
/// # Errors
///
/// `AllocError` where there is no memory for the nodes of the pair or for the spelling.
pub fn first_spelled(
    alloc: Global,
    types: &Types,
    ty: TyId,
    bytes: &[u8],
) -> Result<Spelling, AllocError>
    requires pair { (answer : Ty) × (ty_of types.now ty ≡ PairTy (types_meaning types.now).state answer) }
    requires spelled { (v : Value) × Spells (types_meaning types.now).format.limit (table types.now) bytes.now (ty_of types.now ty) v }
    ensures { IfOk result (λ state. (x y : Value) → Spells (types_meaning types.now).format.limit (table types.now) bytes.now (ty_of types.now ty) (PairV x y) → state ≡ spelling x) }
{
    let mut store = Store::new(alloc, types.spelling_limit() as u32);
    let pair = match unspell(alloc, types, &mut store, bytes, ty) {
        Ok(pair) => pair,
        Err(UnspellFault::Bad(_)) => unreachable!(),
        Err(UnspellFault::NoMemory) => return Err(AllocError),
    };
    let state = first_component(&store, pair);
    spell(alloc, types, &store, state, types.state_type())
}
