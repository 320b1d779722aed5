// The spelling of a version.
ghost use Rattle.std.specs.Prelude.{◌≡◌, IfOk};
ghost use Rattle.core_terms.specs.Values.{Value};
ghost use Rattle.mode_vm.specs.Meanings.{program_of};
ghost use Rattle.session_meaning.specs.Server as meant;
ghost use Rattle.value_store.specs.Stores.{nodes_in};
ghost use Rattle.session_turns.specs.Versions.{IsVersion};

use code_gen::Code;
use core_terms::{Hash32, Spelling};
use shallow_codec::spell;
use std::alloc::{AllocError, Global};
use value_store::{Ref, Store};

/// The spelling of a version: that of its projection, which a client holds. `AllocError` where there is no memory for it.
pub(crate) fn version_spelling<H: Hash32>(
    alloc: Global,
    code: &Code,
    store: &Store,
    version: Ref,
) -> Result<Spelling, AllocError>
    requires { (v : Value) × IsVersion H.hash (program_of code.now) (nodes_in store.now) version v }
    ensures { let P = program_of code.now in IfOk result (λ spelled. (v : Value) → IsVersion H.hash P (nodes_in store.now) version v
        → spelled ≡ meant.state_spelling H.hash P v) }
{
    let ty = code.program().state_type();
    spell(alloc, code.types(), store, version, ty)
}
