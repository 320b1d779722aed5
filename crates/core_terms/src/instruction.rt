// The instructions of the virtual machine.

use crate::{Arith, Compare, FunctionId, LocalId, NamedId, Tag, Text, TextCompare, TyId};

/// An instruction. A frame has locals and a stack of operands; an instruction pops its operands, the last one first, and
/// pushes what it gives. Jumps go forward alone: a jump says how many of the instructions behind it are passed over.
#[derive(Drop)]
pub enum Instruction {
    PushUnit,
    PushBool(bool),
    PushInt(i64),
    PushText(Text),
    /// Pushes a local.
    Load(LocalId),
    /// Pops an operand, which becomes the next local.
    Bind,
    /// Drops so many of the last locals.
    Unbind(usize),
    Pair,
    Fst,
    Snd,
    /// A constructor of a named type, of as many operands as it has fields.
    Make(NamedId, Tag),
    /// Pops a value of a named type, makes its fields the next locals, and jumps by its tag.
    Switch(NamedId, Vec<usize>),
    /// Pops a bool, and jumps where it is false.
    Branch(usize),
    Jump(usize),
    /// Calls a function on as many popped arguments as it has parameters. A call takes one unit of fuel.
    Call(FunctionId),
    /// Gives back the one operand.
    Return,
    /// `auth` of a value of this type.
    Auth(TyId),
    /// `unauth` to a value of this type.
    Unauth(TyId),
    Arith(Arith),
    Compare(Compare),
    TextCompare(TextCompare),
    /// Joins two texts.
    Cat,
    /// The number of bytes of a text.
    Len,
    Not,
    /// An array of so many times the operand.
    VecFill(u8),
    /// The element of an array at an int.
    VecGet,
    /// The array with its element at an int replaced.
    VecPut,
}
