// The authenticated parts of a state, in the order of its image.
ghost use Rattle.std.specs.Prelude.{◌≡◌, ◌++◌, ◌∷◌, [], IfOk, OnOk};
ghost use Rattle.core_terms.specs.ProgramTypes.{types_meaning};
ghost use Rattle.core_terms.specs.Values.{Value};
ghost use Rattle.images.specs.AuthOrders.{auth_entries};
ghost use Rattle.images.specs.AuthOrdersInCode.{AreInOrder};
ghost use Rattle.images.specs.FormTypes.{form_told, id_in, inner_told, items_told};
ghost use Rattle.images.specs.LoadedRoots.{IsStateAt};
ghost use Rattle.images.specs.Reached.{OrderReached};
ghost use Rattle.value_store.specs.CodeNodes.{numbers_of};
ghost use Rattle.value_store.specs.Stores.{nodes_in};
ghost use Rattle.value_store.specs.Views.{form_shown};

use crate::part_types::PartTypes;
use crate::parts::PartMarks;
use crate::save::record::part;
use crate::save::records::Records;
use crate::save::records_of;
use core_terms::{TyForm, TyId, Types};
use std::alloc::{AllocError, Global};
use value_store::{Held, Nodes, Ref, Store, View};

/// Of each authenticated part of the state that a node stands for the type and the node of what is authenticated, each part once, in
/// the order of the records of the state's image. The node is read over ideal nodes or the prover's.
///
/// # Errors
///
/// Where there is no memory for them.
pub fn auth_order(
    alloc: Global,
    types: &Types,
    store: &Store,
    root: Ref,
) -> Result<Vec<(TyId, Ref)>, AllocError>
    requires { (v : Value) × IsStateAt (types_meaning types.now) store.now root v }
    ensures reached { IfOk result (λ order. OrderReached (nodes_in store.now) root.0 order.items) }
    ensures order { (v : Value) → IsStateAt (types_meaning types.now) store.now root v
        → IfOk result (λ order. AreInOrder types.now (nodes_in store.now) (auth_entries (types_meaning types.now).types (types_meaning types.now).state v) order.items) }
{
    // No records are too long here: what is wanting is memory.
    let Ok(found) = records_of(alloc, store, root, usize::MAX, true) else {
        return Err(AllocError);
    };
    let records = &found;
    let marks = PartMarks::of(alloc, types)?;
    let parts = PartTypes {
        types,
        marks: &marks,
    };
    let mut known = Vec::new(alloc);
    let mut order = Vec::new(alloc);
    for node in records.nodes() {
        let view = store.view(*node);
        let form = form_of(records, &known, view);
        let Some(ty) = parts.part(form) else {
            unreachable!()
        };
        push_type(&mut known, ty)?;
        push_inner(&mut order, form, view)?;
    }
    Ok(order)
}

/// The type of a node with a record, as far as the types of the records are known.
fn type_in(records: &Records, known: &[TyId], node: Ref) -> TyId
    ensures { result ≡ id_in known.now records.now node.0 }
{
    let number = records.number_of(node).unwrap_or(0);
    known.get(number).copied().unwrap_or(TyId(0))
}

/// The form of the type of what is shown.
fn form_of(records: &Records, known: &[TyId], view: View<'_>) -> TyForm
    ensures { result ≡ form_told (id_in known.now records.now) (form_shown view.entry) }
{
    match view {
        View::Unit => TyForm::UnitForm,
        View::Bool(_) => TyForm::BoolForm,
        View::Int(_) => TyForm::IntForm,
        View::Text(_) => TyForm::TextForm,
        View::Pair(first, second) => TyForm::PairForm(
            type_in(records, known, first),
            type_in(records, known, second),
        ),
        View::Constructor(named, _, _) => TyForm::NamedForm(named),
        View::Items(items) => items_form(records, known, items),
        View::Auth(Held::Inner(inner) | Held::Both(_, inner)) => {
            TyForm::AuthForm(type_in(records, known, inner))
        }
        View::Auth(Held::Only(_)) => TyForm::UnitForm,
    }
}

/// The form of the type of an array, told by its first element.
fn items_form(records: &Records, known: &[TyId], items: &[Ref]) -> TyForm
    ensures { result ≡ items_told (id_in known.now records.now) (numbers_of items.now) }
{
    match items.first() {
        Some(first) => TyForm::VecForm((items.len() % 256) as u8, type_in(records, known, *first)),
        None => TyForm::UnitForm,
    }
}

fn push_type(known: &mut Vec<TyId>, ty: TyId) -> Result<(), AllocError>
    ensures { OnOk result (known.new.items ≡ known.old.items ++ ty ∷ []) }
{
    known.push(ty)?;
    Ok(())
}

/// Adds the type and the node of what is authenticated, where the form is one of an authenticated value.
fn push_inner(order: &mut Vec<(TyId, Ref)>, form: TyForm, view: View<'_>) -> Result<(), AllocError>
    ensures { OnOk result (order.new.items ≡ order.old.items ++ inner_told form (form_shown view.entry)) }
{
    let TyForm::AuthForm(ty) = form else {
        return Ok(());
    };
    match view {
        View::Auth(Held::Inner(inner) | Held::Both(_, inner)) => {
            order.push((ty, inner))?;
            Ok(())
        }
        _ => Ok(()),
    }
}
