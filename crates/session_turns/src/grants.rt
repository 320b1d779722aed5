// The tests of a call.
ghost use Rattle.std.specs.Prelude.{◌≡◌, ℕ, List, Some, None, length};
ghost use Rattle.mode_vm.specs.Meanings.{program_of};
ghost use Rattle.core_terms.specs.RoleViews.{role_kind_of};
ghost use Rattle.session_meaning.specs.Calls as meant_calls;
ghost use Rattle.session_meaning.specs.Server as meant;
ghost use Rattle.value_store.specs.Markings.{HasLimit};
ghost use Rattle.value_store.specs.Stores.{nodes_in, store_lent};

use crate::refusal::{Denial, Refusal};
use crate::shared::Shared;
use code_gen::Code;
use core_terms::{FunctionId, Hash32, MOST_FUEL, Role, RoleKind};
use shallow_codec::{UnspellFault, unspell};
use std::alloc::Global;
use value_store::{Over, Own, Ref};

/// The greatest number of versions.
const MAX_VERSIONS: usize = 4_096;

/// A call that is granted.
#[derive(Drop)]
pub struct Granted {
    /// The function of its role.
    pub function: FunctionId,
    /// The node of its argument, among own nodes over the first `from` of the store.
    pub argument: Ref,
    pub own: Own,
    pub from: usize,
}

/// Whether roles of this kind read the state.
fn reads_state(kind: RoleKind) -> bool
    ensures { result ≡ meant_calls.reads_state (role_kind_of kind) }
{
    match kind {
        RoleKind::Init => false,
        RoleKind::Query | RoleKind::Update => true,
    }
}

/// Whether roles of this kind change it.
fn changes_state(kind: RoleKind) -> bool
    ensures { result ≡ meant_calls.changes_state (role_kind_of kind) }
{
    match kind {
        RoleKind::Init | RoleKind::Query => false,
        RoleKind::Update => true,
    }
}

impl Shared {
    ghost use Rattle.session_turns.specs.Granting.{IsGranted};
    ghost use Rattle.session_turns.specs.Sharing.{Shares};

    /// Tests a call in a session in which none runs, and puts its argument into nodes of its own.
    ///
    /// # Errors
    ///
    /// In this order: `NoRole`, `MuchFuel`, `NoArgument`, `ManyVersions`; and `NoMemory`.
    pub fn grant<H: Hash32>(
        &self,
        alloc: Global,
        code: &Code,
        role: u16,
        fuel: u64,
        argument: &[u8],
    ) -> Result<Granted, Denial>
        requires limit { HasLimit (program_of code.now) (store_lent self.now.store) }
        ensures { let P = program_of code.now in (own : List ℕ) (ending : ℕ → ℕ) (s : meant.Session) (shared : meant.Shared)
            → Shares H.hash P self.now shared → s.running ≡ None
            → IsGranted H.hash P s role fuel (nodes_in self.now.store) result (meant.session_test H.hash P own ending (Some s) (length shared.versions) role fuel argument.now) }
    {
        let Some(role) = code.program().roles().get(usize::from(role)) else {
            return Err(Denial::Refused(Refusal::NoRole));
        };
        if !reads_state(role.kind) {
            return Err(Denial::Refused(Refusal::NoRole));
        }
        if fuel > MOST_FUEL {
            return Err(Denial::Refused(Refusal::MuchFuel));
        }
        let from = self.store.count();
        let mut over = Over::on(&self.store, Own::new(alloc), from);
        let argument = unspell(alloc, code.types(), &mut over, argument, role.argument)?;
        if changes_state(role.kind) && self.versions.len() >= MAX_VERSIONS {
            return Err(Denial::Refused(Refusal::ManyVersions));
        }
        Ok(Granted {
            function: role.function,
            argument,
            own: over.off(),
            from,
        })
    }
}
