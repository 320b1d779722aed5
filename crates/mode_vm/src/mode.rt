// Modes: what `auth` and `unauth` do.
ghost use Rattle.std.specs.Prelude.{◌≡◌, ◌++◌, ℕ, suc, ◌<◌, ◌≤◌, ◌^◌, List, Option, IfOk, OnOk};
ghost use Rattle.core_terms.specs.ProgramTypes.{types_by_number, types_meaning};
ghost use Rattle.core_terms.specs.Types.{AuthTy};
ghost use Rattle.core_terms.specs.TypeTables.{type_at};
ghost use Rattle.core_terms.specs.Values.{Value};
ghost use Rattle.core_terms.specs.declared.program_types.Types.{Types as Typed};
ghost use Rattle.value_store.specs.Nodes.{Node};
ghost use Rattle.value_store.specs.Markings.{HasLimit, Marking};
ghost use Rattle.value_store.specs.Standing.{Keeps};

use core_terms::{TyId, Types};
use std::alloc::{AllocError, AllocFailed};
use value_store::{Nodes, Ref};

/// What ends a run before its outcome.
#[derive(Clone, Copy)]
pub enum Stop<F> {
    /// The mode stops it.
    Mode(F),
    /// Memory was wanting.
    NoMemory,
}

impl<F> From<AllocError> for Stop<F> {
    ghost use Rattle.std.specs.Prelude.{◌≡◌};
    ghost use Rattle.mode_vm.specs.declared.mode.Stop.TheVariants.{NoMemory};

    ghost from_gives = { λ _ stop. stop ≡ NoMemory };

    fn from(_: AllocError) -> Self {
        Stop::NoMemory
    }
}

impl<T: Drop, F> From<AllocFailed<T>> for Stop<F> {
    ghost use Rattle.std.specs.Prelude.{◌≡◌};
    ghost use Rattle.mode_vm.specs.declared.mode.Stop.TheVariants.{NoMemory};

    ghost from_gives = { λ _ stop. stop ≡ NoMemory };

    fn from(_: AllocFailed<T>) -> Self {
        Stop::NoMemory
    }
}

/// What `auth` and `unauth` do. The ghost members with a default are, unless they are given, those of a mode that may go on in every way and
/// whose world neither answers freely nor fails.
pub trait Mode: Drop {
    ghost use Rattle.mode_vm.specs.Meanings.{CauseOf, StateOf, mode_of};
    ghost use Rattle.mode_vm.specs.Openings.{Came, Counts, OnlyMemory, OpensAs, OpensSome, Stands};

    /// Why the mode may stop a run.
    type Fault;

    /// What `unauth` reads from.
    type World;

    /// The mode of the definitions, and the kind of the nodes.
    ghost marking: { Marking };

    /// Where the mode and its world, over nodes, stand in the definitions' state.
    ghost Follows: { Typed → Self → Self.World → List Node → StateOf marking → Type 0 };

    /// The cause that a fault tells; none where the outside failed.
    ghost cause: { Self.Fault → Option (CauseOf marking) };

    /// How often the outside failed.
    ghost faults: { Self.World → ℕ } = { λ world. 0 };

    /// What is said where it failed once more.
    ghost Rose: { ℕ → ℕ → Type 0 } = { λ old new. ⊥ };

    /// All else that the world means, which no opening changes.
    ghost Rest: { Type 0 } = { Unit {0} };

    /// All else that the world means.
    ghost rest: { Self.World → Rest };

    /// How a mode and its world may go on.
    ghost Moves: { Self → Self.World → Self → Self.World → Type 0 } = { λ a v b w. Unit {0} };

    /// Whether the outside answers freely where a value is opened, so that no state of the definitions is known before it has.
    ghost Asks: { Type 0 } = { ⊥ };

    /// What it answers.
    ghost Answer: { Type 0 } = { Unit {0} };

    /// It may give this answer, which is taken, and be so then.
    ghost May: { Self.World → Answer → Self.World → Type 0 };

    /// It may give this answer, for which the mode stops, and be so then.
    ghost Last: { Self.World → Answer → Self.Fault → Self.World → Type 0 };

    /// The definitions' state is one of the mode, to which these answers are still to come.
    ghost Expects: { Self → StateOf marking → List Answer → Type 0 };

    /// How many values were opened.
    ghost opened: { Self → ℕ };

    /// What the mode knows of the types and of the nodes, whatever comes.
    ghost Knows: { Typed → Self → List Node → Type 0 };

    /// Makes the authenticated value of a value.
    fn auth<N: Nodes>(
        &mut self,
        types: &Types,
        store: &mut N,
        ty: TyId,
        v: Ref,
    ) -> Result<Ref, Stop<Self::Fault>>
        requires stands { (x : Value) × Stands marking (types_meaning types.now) (N.nodes store.old) v.0 (type_at (types_by_number types.now) ty) x }
        requires knows { Knows types.now self.old (N.nodes store.old) }
        ensures stands { IfOk result (λ r. (x : Value) → Stands marking (types_meaning types.now) (N.nodes store.old) v.0 (type_at (types_by_number types.now) ty) x
            → Stands marking (types_meaning types.now) (N.nodes store.new) r.0 (AuthTy (type_at (types_by_number types.now) ty))
            ((mode_of marking (types_meaning types.now)).auth (type_at (types_by_number types.now) ty) x)) }
        ensures keeps { Keeps (N.nodes store.old) (N.nodes store.new) }
        ensures lent { N.lent store.new ≡ N.lent store.old }
        ensures mode { self.new ≡ self.old }
        ensures memory { OnlyMemory result };

    /// Opens an authenticated value.
    fn unauth<N: Nodes>(
        &mut self,
        world: &mut Self::World,
        types: &Types,
        store: &mut N,
        ty: TyId,
        v: Ref,
    ) -> Result<Ref, Stop<Self::Fault>>
        requires stands { (x : Value) × Stands marking (types_meaning types.now) (N.nodes store.old) v.0 (AuthTy (type_at (types_by_number types.now) ty)) x }
        requires few { opened self.old < 2 ^ 63 }
        requires knows { Knows types.now self.old (N.nodes store.old) }
        requires limit { HasLimit (types_meaning types.now) (N.lent store.old) }
        ensures some { OpensSome marking (types_meaning types.now) (N.nodes store.new) (type_at (types_by_number types.now) ty) result }
        ensures opens { (x : Value) (w : StateOf marking) → Stands marking (types_meaning types.now) (N.nodes store.old) v.0 (AuthTy (type_at (types_by_number types.now) ty)) x
            → Follows types.now self.old world.old (N.nodes store.old) w
            → OpensAs marking (types_meaning types.now) cause (Follows types.now self.new world.new (N.nodes store.new)) (N.nodes store.new) (type_at (types_by_number types.now) ty) x w result }
        ensures answers { Asks → Came May Last cause world.old world.new result (λ got. (x : Value) (w : StateOf marking) (more : List Answer)
            → Stands marking (types_meaning types.now) (N.nodes store.old) v.0 (AuthTy (type_at (types_by_number types.now) ty)) x → Expects self.old w (got ++ more)
            → OpensAs marking (types_meaning types.now) cause (λ after. Expects self.new after more) (N.nodes store.new) (type_at (types_by_number types.now) ty) x w result) }
        ensures keeps { Keeps (N.nodes store.old) (N.nodes store.new) }
        ensures lent { N.lent store.new ≡ N.lent store.old }
        ensures faults { Counts cause Rose (faults world.old) (faults world.new) result }
        ensures rest { rest world.new ≡ rest world.old }
        ensures moves { OnOk result (Moves self.old world.old self.new world.new) }
        ensures knows { OnOk result (Knows types.now self.new (N.nodes store.new)) }
        ensures opened { opened self.new ≤ suc (opened self.old) };

    /// A mode may stay as it is.
    ghost moves_not: { (mode : Self) (world : Self.World) → Moves mode world mode world };

    /// It may go on in steps.
    ghost moves_on: { (a b c : Self) (v w x : Self.World) → Moves a v b w → Moves b w c x → Moves a v c x };

    /// Putting nodes changes nothing.
    ghost follows_on: { (t : Typed) (mode : Self) (world : Self.World) (old new : List Node) (w : StateOf marking) → Keeps old new → Follows t mode world old w → Follows t mode world new w };

    /// Nor what it knows.
    ghost knows_on: { (t : Typed) (mode : Self) (old new : List Node) → Keeps old new → Knows t mode old → Knows t mode new };
}
