// What the sessions share.
ghost use Rattle.std.specs.Prelude.{◌≡◌, ◌<◌, ◌≤◌, ◌+◌, ◌++◌, [], ◌∷◌, length, take, IfOk, OnErr, bytes_eq};
ghost use Rattle.core_terms.specs.Formats.{Hash};
ghost use Rattle.core_terms.specs.Terms.{Program};
ghost use Rattle.core_terms.specs.Values.{Value};
ghost use Rattle.mode_vm.specs.Meanings.{program_of};
ghost use Rattle.session_meaning.specs.Calls.{RoleCall};
ghost use Rattle.session_meaning.specs.Server as meant;
ghost use Rattle.value_store.specs.Markings.{HasLimit};
ghost use Rattle.value_store.specs.Nodes.{AreSound};
ghost use Rattle.value_store.specs.Overs.{own_nodes};
ghost use Rattle.value_store.specs.Standing.{Grows};
ghost use Rattle.value_store.specs.Stores.{nodes_in, store_lent};
ghost use Rattle.session_turns.specs.Marks.{mark_of};
ghost use Rattle.session_turns.specs.Versions.{IsVersion};

use crate::commit::Commit;
use crate::marks::{Mark, SpellingMarks};
use crate::versions::version_spelling;
use code_gen::Code;
use core_terms::{Hash32, Spelling};
use std::alloc::{AllocError, Global};
use value_store::{Nodes, Own, Ref, Store};

/// The versions of the state, which stand in a store, and the commits, each the call that made the next version.
#[derive(Drop)]
pub struct Shared {
    pub(crate) store: Store,
    pub(crate) versions: Vec<Ref>,
    pub(crate) commits: Vec<Commit>,
    /// What greetings have found of the versions' spellings.
    pub(crate) marks: SpellingMarks,
    ghost some: { 0 < length versions.items },
}

impl Shared {
    ghost use Rattle.session_turns.specs.Sharing.{AreKept, IsCommit, Shares};

    /// With this version alone. `AllocError` where there is no memory for the list of versions.
    pub fn new(alloc: Global, store: Store, first: Ref) -> Result<Shared, AllocError>
        ensures { IfOk result (λ shared. (hash : Hash) (P : Program) (v : Value) → HasLimit P (store_lent store) → IsVersion hash P (nodes_in store) first v
            → Shares hash P shared (meant.new_server v).shared) }
    {
        let mut versions = Vec::new(alloc);
        versions.push(first)?;
        Ok(Shared {
            store,
            versions,
            commits: Vec::new(alloc),
            marks: SpellingMarks::new(alloc),
        })
    }

    /// The store, the versions and the commits.
    pub fn into_parts(self) -> (Store, Vec<Ref>, Vec<Commit>)
        ensures store { result.0 ≡ self.store }
        ensures versions { result.1 ≡ self.versions }
        ensures commits { result.2 ≡ self.commits }
    {
        let Shared {
            store,
            versions,
            commits,
            ..
        } = self;
        (store, versions, commits)
    }

    /// The store.
    pub fn store(&self) -> &Store
        ensures { result.now ≡ self.now.store }
    {
        &self.store
    }

    /// The versions, the first one first.
    pub fn versions(&self) -> &[Ref]
        ensures { result.now ≡ self.now.versions.items }
    {
        &self.versions
    }

    /// The version with this number, which is there.
    pub fn version(&self, number: usize) -> Ref
        requires { number < length self.now.versions.items }
        ensures { (hash : Hash) (P : Program) (shared : meant.Shared) → Shares hash P self.now shared
            → IsVersion hash P (nodes_in self.now.store) result (meant.version_at shared.versions number) }
    {
        self.versions[number]
    }

    /// The commits, the first one first.
    pub fn commits(&self) -> &[Commit]
        ensures { result.now ≡ self.now.commits.items }
    {
        &self.commits
    }

    /// The number of the newest version with this spelling, if one has it.
    ///
    /// The versions are gone through from the last one back to the first that is equal. One whose spelling has this length is spelled and
    /// compared, and where it is another, its mark is noted: it isn't spelled again but for a spelling with that mark. So all greetings
    /// together spell each version once, beside those that they are welcomed at; one spelling is held at a time.
    ///
    /// # Errors
    ///
    /// `AllocError` where there is no memory for the spelling of a version or for its mark.
    pub fn newest<H: Hash32>(
        &mut self,
        alloc: Global,
        code: &Code,
        state: &[u8],
    ) -> Result<Option<usize>, AllocError>
        requires { (shared : meant.Shared) × Shares H.hash (program_of code.now) self.old shared }
        ensures newest { let P = program_of code.now in IfOk result (λ newest. (shared : meant.Shared) → Shares H.hash P self.old shared
            → newest ≡ meant.newest_version H.hash P state.now shared.versions) }
        ensures shares { let P = program_of code.now in (shared : meant.Shared) → Shares H.hash P self.old shared → Shares H.hash P self.new shared }
        ensures rest { AreKept self.old self.new }
    {
        let mark = Mark::of(state);
        for number in (0..self.versions.len()).rev() {
            if self.has_spelling::<H>(alloc, code, number, &mark, state)? {
                return Ok(Some(number));
            }
        }
        Ok(None)
    }

    /// Whether the version with this number has this spelling, which has this mark. `AllocError` where there is no memory for the
    /// version's own spelling, which is made where it has as many bytes and no other mark is known of it, or for its mark.
    fn has_spelling<H: Hash32>(
        &mut self,
        alloc: Global,
        code: &Code,
        number: usize,
        mark: &Mark,
        state: &[u8],
    ) -> Result<bool, AllocError>
        requires shares { (shared : meant.Shared) × Shares H.hash (program_of code.now) self.old shared }
        requires there { number < length self.old.versions.items }
        requires mark { mark.now.0 ≡ mark_of state.now }
        ensures same { let P = program_of code.now in IfOk result (λ same. (shared : meant.Shared) → Shares H.hash P self.old shared
            → same ≡ bytes_eq (meant.state_spelling H.hash P (meant.version_at shared.versions number)) state.now) }
        ensures shares { let P = program_of code.now in (shared : meant.Shared) → Shares H.hash P self.old shared → Shares H.hash P self.new shared }
        ensures rest { AreKept self.old self.new }
    {
        let version = self.versions[number];
        let size = self.store.shallow_size(version) as usize;
        if size != state.len() {
            return Ok(false);
        }
        if self.marks.is_other(number, mark) {
            return Ok(false);
        }
        let spelling = version_spelling::<H>(alloc, code, &self.store, version)?;
        if spelling.as_bytes() == state {
            return Ok(true);
        }
        self.marks.note(number, Mark::of(spelling.as_bytes()))?;
        Ok(false)
    }

    /// The spelling of the last version. `AllocError` where there is no memory for it.
    pub fn last_spelling<H: Hash32>(
        &self,
        alloc: Global,
        code: &Code,
    ) -> Result<Spelling, AllocError>
        requires { (shared : meant.Shared) × Shares H.hash (program_of code.now) self.now shared }
        ensures { let P = program_of code.now in IfOk result (λ spelled. (shared : meant.Shared) → Shares H.hash P self.now shared
            → spelled ≡ meant.last_spelling H.hash P shared.versions) }
    {
        let last = self.versions[self.versions.len() - 1];
        version_spelling::<H>(alloc, code, &self.store, last)
    }

    /// Takes over the own nodes of a call, which were put over the first `from` nodes, with the version that stands there, and adds
    /// the call. Where memory is wanting the versions and the commits stay, though nodes may have been put behind.
    pub fn commit(
        &mut self,
        own: Own,
        from: usize,
        version: Ref,
        commit: Commit,
    ) -> Result<(), AllocError>
        requires within { from ≤ length (nodes_in self.old.store) }
        requires sound { AreSound self.old.store.limit (take from (nodes_in self.old.store) ++ own_nodes own) }
        requires there { version.0 < from + length (own_nodes own) }
        ensures commits { IfOk result (λ _. (hash : Hash) (P : Program) (shared : meant.Shared) (call : RoleCall) (v : Value)
            → Shares hash P self.old shared → IsCommit commit call
            → IsVersion hash P (take from (nodes_in self.old.store) ++ own_nodes own) version v
            → Shares hash P self.new (meant.with_commit call v shared)) }
        ensures refused { OnErr result ((hash : Hash) (P : Program) (shared : meant.Shared) → Shares hash P self.old shared → Shares hash P self.new shared) }
        ensures grows { Grows (nodes_in self.old.store) (nodes_in self.new.store) }
    {
        self.versions.reserve(1)?;
        self.commits.reserve(1)?;
        let version = self.store.absorb(own, from, version)?;
        self.versions.push(version)?;
        self.commits.push(commit)?;
        Ok(())
    }
}
