// Programs of types alone, and a node of the prover's, spelled by its digest.
ghost use Rattle.std.specs.Prelude.{◌≡◌, IfOk};
ghost use Rattle.core_terms.specs.Programs.{meaning, types_in};
ghost use Rattle.core_terms.specs.TypeTables.{type_at};
ghost use Rattle.core_terms.specs.Types.{AuthTy, Ty};

use core_terms::{Digest, Format, Program, TyForm, TyId, TyTable};
use shallow_codec::spell;
use std::alloc::{AllocError, Global};
use std::test::Fail;
use term_stage::flat::is_flat;
use term_stage::tables::may_stand;
use value_store::{Held, Nodes, Store};

/// How many levels a type that is written has at most.
const MOST_LEVELS: u8 = 100;

/// A program without functions and named types. An error where its state is none of the types, or has more levels than one that is written.
#[tactic(auto, using(crate::proofs::EmptyPrograms::are_named, crate::proofs::EmptyPrograms::is_limited))]
pub fn of_types(alloc: Global, types: TyTable, state: TyId) -> Result<Program, AllocError>
    ensures { IfOk result (λ program. (meaning program).state ≡ type_at (types_in types) state) }
{
    if state.0 >= types.len() || !is_flat(&types, state, MOST_LEVELS) {
        return Err(AllocError);
    }
    Program::new(
        types,
        Vec::new(alloc),
        state,
        Vec::new(alloc),
        Digest([7; 32]),
        alloc,
    )
}

/// Types of these forms, in a format, and the last one.
fn table_of(
    alloc: Global,
    format: Format,
    forms: &[TyForm],
) -> Result<(TyTable, TyId), AllocError> {
    let mut types = TyTable::new(format, alloc);
    let mut last = TyId(0);
    for form in forms {
        if !may_stand(&types, *form) {
            return Err(AllocError);
        }
        last = types.intern(*form)?;
    }
    Ok((types, last))
}

/// The program of types of these forms, in a format. The last one is that of its state. It stands in a box: it is wide, and tests hold it over
/// many calls.
pub fn of_forms(
    alloc: Global,
    format: Format,
    forms: &[TyForm],
) -> Result<Box<Program>, AllocError> {
    let (types, state) = table_of(alloc, format, forms)?;
    let program = of_types(alloc, types, state)?;
    Ok(Box::new(alloc, program)?)
}

/// A program of the type `auth int`.
fn held_int(alloc: Global) -> Result<Program, AllocError>
    ensures { IfOk result (λ program. (t : Ty) × ((meaning program).state ≡ AuthTy t)) }
{
    let mut types = TyTable::new(Format::First, alloc);
    let int = types.intern(TyForm::IntForm)?;
    let held = types.intern(TyForm::AuthForm(int))?;
    of_types(alloc, types, held)
}

/// Whether the prover's node of an authenticated int is spelled by its digest.
fn is_spelled_by_its_digest(alloc: Global, program: &Program) -> Result<bool, AllocError>
    requires { (t : Ty) × ((meaning program.now).state ≡ AuthTy t) }
{
    let types = program.types();
    let mut store = Store::new(alloc, types.spelling_limit() as u32);
    let inner = store.put_int(5)?;
    let value = store.put_auth(Held::Both(Digest([9; 32]), inner))?;
    let spelling = spell(alloc, types, &store, value, types.state_type())?;
    Ok(spelling.as_bytes() == [9; 32].as_slice())
}

#[test]
fn a_provers_node_by_its_digest(rt: HostRuntime) -> Result<(), Fail> {
    let program = held_int(rt.alloc())?;
    assert!(rt; is_spelled_by_its_digest(rt.alloc(), &program)?);
    Ok(())
}
