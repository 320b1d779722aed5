// What an instruction works on: a scalar itself, or the node of a value.
ghost use Rattle.std.specs.Prelude.{◌≡◌, ◌≤◌, ◌+◌, List, IfOk, OnOk, OnErr, length};
ghost use Rattle.core_terms.specs.Types.{Table, Ty};
ghost use Rattle.core_terms.specs.Values.{Value, Values};
ghost use Rattle.value_store.specs.CodeNodes.{numbers_of};
ghost use Rattle.value_store.specs.Standing.{AllStandFor, Keeps, Kind, StandsFor};

use std::alloc::AllocError;
use value_store::{Nodes, Ref};

/// A value in hand. A scalar needs no node until it becomes a part of another value, or leaves the machine.
#[derive(Clone, Copy)]
pub enum Operand {
    Unit,
    Bool(bool),
    Int(i64),
    At(Ref),
}

ghost use Rattle.mode_vm.specs.Operands.{AllHeld, IsHeld};
ghost use Rattle.mode_vm.specs.declared.operand.Operand.TheVariants.{At};

/// A node for an operand: that of one which has a node, and else one that is put.
#[inline(always)]
pub(crate) fn place<N: Nodes>(store: &mut N, operand: Operand) -> Result<Ref, AllocError>
    ensures stands { (kind : Kind) (types : Table) (t : Ty) (v : Value) → IsHeld kind types (N.nodes store.old) operand t v
        → IfOk result (λ r. StandsFor kind types (N.nodes store.new) r.0 t v) }
    ensures few { length (N.nodes store.new) ≤ length (N.nodes store.old) + 1 }
    ensures refused { OnErr result (N.nodes store.new ≡ N.nodes store.old) }
    ensures keeps { Keeps (N.nodes store.old) (N.nodes store.new) }
    ensures lent { N.lent store.new ≡ N.lent store.old }
{
    match operand {
        Operand::Unit => store.put_unit(),
        Operand::Bool(value) => store.put_bool(value),
        Operand::Int(value) => store.put_int(value),
        Operand::At(r) => Ok(r),
    }
}

/// The node of an operand that is no scalar.
pub(crate) fn node_in(operand: Operand) -> Ref
    requires { (r : Ref) × (operand ≡ At r) }
    ensures { operand ≡ At result }
{
    match operand {
        Operand::At(r) => r,
        _ => unreachable!(),
    }
}

/// Nodes for some operands, in the place of what was there.
#[inline(always)]
pub(crate) fn place_all<N: Nodes>(
    store: &mut N,
    operands: &[Operand],
    placed: &mut Vec<Ref>,
) -> Result<(), AllocError>
    ensures stand { (kind : Kind) (types : Table) (ts : List Ty) (vs : Values) → AllHeld kind types (N.nodes store.old) operands.now ts vs
        → OnOk result (AllStandFor kind types (N.nodes store.new) (numbers_of placed.new.items) ts vs) }
    ensures keeps { Keeps (N.nodes store.old) (N.nodes store.new) }
    ensures lent { N.lent store.new ≡ N.lent store.old }
{
    placed.clear();
    for operand in operands {
        let r = place(store, *operand)?;
        placed.push(r)?;
    }
    Ok(())
}
