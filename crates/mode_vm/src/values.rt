// The values of operands.
ghost use Rattle.std.specs.Prelude.{◌≡◌, ℕ};
ghost use Rattle.core_terms.specs.Types.{BoolTy, IntTy, PairTy, VecTy, Table, TextTy, Ty, item_types};
ghost use Rattle.core_terms.specs.Values.{BoolV, IntV, ItemsV, PairV, TextV, Value, Values};
ghost use Rattle.value_store.specs.CodeNodes.{numbers_of};
ghost use Rattle.value_store.specs.Standing.{AllStandFor, Kind, StandsFor};
ghost use Rattle.mode_vm.specs.Operands.{IsHeld};

use crate::operand::{Operand, node_in};
use value_store::{Nodes, Ref, View};

/// The bool that an operand is.
pub(crate) fn bool_in<N: Nodes>(store: &N, operand: Operand) -> bool
    requires { (kind : Kind) × (types : Table) × (v : Value) × IsHeld kind types (N.nodes store.now) operand BoolTy v }
    ensures { (kind : Kind) (types : Table) (v : Value) → IsHeld kind types (N.nodes store.now) operand BoolTy v → v ≡ BoolV result }
{
    match operand {
        Operand::Bool(value) => value,
        Operand::At(r) => match store.view(r) {
            View::Bool(value) => value,
            _ => unreachable!(),
        },
        _ => unreachable!(),
    }
}

/// The int that an operand is.
pub(crate) fn int_in<N: Nodes>(store: &N, operand: Operand) -> i64
    requires { (kind : Kind) × (types : Table) × (v : Value) × IsHeld kind types (N.nodes store.now) operand IntTy v }
    ensures { (kind : Kind) (types : Table) (v : Value) → IsHeld kind types (N.nodes store.now) operand IntTy v → v ≡ IntV result }
{
    match operand {
        Operand::Int(value) => value,
        Operand::At(r) => match store.view(r) {
            View::Int(value) => value,
            _ => unreachable!(),
        },
        _ => unreachable!(),
    }
}

/// The text that an operand is.
pub(crate) fn text_in<N: Nodes>(store: &N, operand: Operand) -> &str
    requires { (kind : Kind) × (types : Table) × (v : Value) × IsHeld kind types (N.nodes store.now) operand TextTy v }
    ensures { (kind : Kind) (types : Table) (v : Value) → IsHeld kind types (N.nodes store.now) operand TextTy v → v ≡ TextV result.now }
{
    match store.view(node_in(operand)) {
        View::Text(text) => text,
        _ => unreachable!(),
    }
}

/// The nodes of the parts of a pair.
pub(crate) fn parts_in<N: Nodes>(store: &N, operand: Operand) -> (Ref, Ref)
    requires { (kind : Kind) × (types : Table) × (a : Ty) × (b : Ty) × (v : Value) × IsHeld kind types (N.nodes store.now) operand (PairTy a b) v }
    ensures { (kind : Kind) (types : Table) (a b : Ty) (v : Value) → IsHeld kind types (N.nodes store.now) operand (PairTy a b) v
        → (x : Value) × (y : Value) × (v ≡ PairV x y) × StandsFor kind types (N.nodes store.now) result.0.0 a x × StandsFor kind types (N.nodes store.now) result.1.0 b y }
{
    match store.view(node_in(operand)) {
        View::Pair(first, second) => (first, second),
        _ => unreachable!(),
    }
}

/// The nodes of the elements of an array.
pub(crate) fn items_in<N: Nodes>(store: &N, operand: Operand) -> &[Ref]
    requires { (kind : Kind) × (types : Table) × (n : ℕ) × (t : Ty) × (v : Value) × IsHeld kind types (N.nodes store.now) operand (VecTy n t) v }
    ensures { (kind : Kind) (types : Table) (n : ℕ) (t : Ty) (v : Value) → IsHeld kind types (N.nodes store.now) operand (VecTy n t) v
        → (vs : Values) × (v ≡ ItemsV vs) × AllStandFor kind types (N.nodes store.now) (numbers_of result.now) (item_types n t) vs }
{
    match store.view(node_in(operand)) {
        View::Items(items) => items,
        _ => unreachable!(),
    }
}
