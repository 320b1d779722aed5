// The instructions on texts.
ghost use Rattle.std.specs.Prelude.{◌≡◌, ◌+◌, ◌<◌, ◌^◌, ◌++◌, ℕ, List, IfOk, length};
ghost use Rattle.core_terms.specs.Instructions as instruction;
ghost use Rattle.core_terms.specs.Types.{Table, TextTy};
ghost use Rattle.core_terms.specs.Values.{TextV, Value};
ghost use Rattle.ideal_meaning.specs.Run as meant;
ghost use Rattle.value_store.specs.Markings.{HasLimit, Marking};
ghost use Rattle.value_store.specs.Standing.{Keeps, Kind};
ghost use Rattle.mode_vm.specs.Operands.{IsHeld};
ghost use Rattle.mode_vm.specs.Meanings.{program_of};
ghost use Rattle.mode_vm.specs.Calculations.{Makes};

use crate::frame::Frame;
use crate::operand::Operand;
use crate::values::text_in;
use code_gen::Code;
use core_terms::{TextCompare, Trap};
use std::alloc::AllocError;
use value_store::Nodes;

/// The number of bytes of the length in the spelling of a text.
const TEXT_LENGTH_SIZE: u32 = 4;

impl Frame {
    ghost use Rattle.mode_vm.specs.Outcomes.{Does, IsBefore};

    /// Pushes whether a comparison of two texts holds.
    pub(crate) fn compare_texts<N: Nodes>(
        &mut self,
        code: &Code,
        store: &N,
        op: TextCompare,
    ) -> Result<Option<Trap>, AllocError>
        requires before { IsBefore (program_of code.now) (N.nodes store.now) self.old (instruction.TextCompareOp op) }
        requires room { self.old.place + 1 < 2 ^ 64 }
        ensures does { Does (program_of code.now) (instruction.TextCompareOp op) (N.nodes store.now) (N.nodes store.now) self.old self.new result }
    {
        let (first, second) = self.pop_two();
        let x = text_in(store, first);
        let y = text_in(store, second);
        let holds = compared(op, x, y);
        self.finish(Ok(Operand::Bool(holds)))
    }

    /// Pushes two texts, joined, where that is within the limits.
    pub(crate) fn concat<N: Nodes>(
        &mut self,
        code: &Code,
        store: &mut N,
    ) -> Result<Option<Trap>, AllocError>
        requires before { IsBefore (program_of code.now) (N.nodes store.old) self.old instruction.Cat }
        requires limit { HasLimit (program_of code.now) (N.lent store.old) }
        requires room { self.old.place + 1 < 2 ^ 64 }
        ensures does { Does (program_of code.now) instruction.Cat (N.nodes store.old) (N.nodes store.new) self.old self.new result }
        ensures keeps { Keeps (N.nodes store.old) (N.nodes store.new) }
        ensures lent { N.lent store.new ≡ N.lent store.old }
    {
        let (first, second) = self.pop_two();
        let made = new_text(store, first, second)?;
        self.finish(made)
    }

    /// Pushes the number of bytes of a text.
    pub(crate) fn length<N: Nodes>(
        &mut self,
        code: &Code,
        store: &N,
    ) -> Result<Option<Trap>, AllocError>
        requires before { IsBefore (program_of code.now) (N.nodes store.now) self.old instruction.Len }
        requires room { self.old.place + 1 < 2 ^ 64 }
        ensures does { Does (program_of code.now) instruction.Len (N.nodes store.now) (N.nodes store.now) self.old self.new result }
    {
        let r = self.pop();
        let text = text_in(store, r);
        let len = text.len() as i64;
        self.finish(Ok(Operand::Int(len)))
    }
}

/// Puts two texts, joined, where that is within the limits.
fn new_text<N: Nodes>(
    store: &mut N,
    first: Operand,
    second: Operand,
) -> Result<Result<Operand, Trap>, AllocError>
    requires first { (kind : Kind) × (types : Table) × (v : Value) × IsHeld kind types (N.nodes store.old) first TextTy v }
    requires second { (kind : Kind) × (types : Table) × (v : Value) × IsHeld kind types (N.nodes store.old) second TextTy v }
    ensures makes { (limit : ℕ) → (N.lent store.old).limit ≡ limit → (m : Marking) (kind : Kind) (types : Table) (x y : Value) → IsHeld kind types (N.nodes store.old) first TextTy x → IsHeld kind types (N.nodes store.old) second TextTy y
        → IfOk result (Makes m kind types (N.nodes store.new) TextTy (meant.limited limit types TextTy (TextV (meant.text_in x ++ meant.text_in y)))) }
    ensures keeps { Keeps (N.nodes store.old) (N.nodes store.new) }
    ensures lent { N.lent store.new ≡ N.lent store.old }
{
    let x = text_in(store, first);
    let y = text_in(store, second);
    if x.len() + y.len() > (store.limit() - TEXT_LENGTH_SIZE) as usize {
        return Ok(Err(Trap::TooBig));
    }
    let mut text = String::from_str(store.alloc(), x)?;
    text.push_str(y)?;
    let r = store.put_text(&text)?;
    Ok(Ok(Operand::At(r)))
}

/// Whether a comparison of two texts holds.
fn compared(op: TextCompare, x: &str, y: &str) -> bool
    ensures { result ≡ meant.text_compare_of op x.now y.now }
{
    match op {
        TextCompare::Eq => x == y,
        TextCompare::Lt => x < y,
    }
}
