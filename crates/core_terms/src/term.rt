// Terms: the bodies of functions, with names resolved and types written.
ghost use Rattle.std.specs.Prelude.{◌≡◌, ◌≤◌, ◌↔◌, true, length, IfOk, IfSome, IsSome};
ghost use Rattle.std.specs.Str.{is_utf8};

use crate::{FunctionId, NamedId, Tag, TyId};
use std::alloc::{AllocError, Global};
use std::marker::Model;

/// A name of a program: 1 to 64 bytes. Clauses see the list of its bytes.
#[derive(Drop)]
pub struct Name {
    bytes: Vec<u8>,
}

impl Model for Name {
    ghost use Rattle.std.specs.Prelude.{ℕ, List};
    ghost use Rattle.core_terms.specs.Names.{IsName};

    ghost Value = { List ℕ };

    ghost view = { λ name. name.bytes.items };

    ghost invariant = { λ name. IsName name.bytes.items };
}

impl Name {
    ghost use Rattle.core_terms.specs.Names.{IsName};

    /// The bytes, lent.
    pub fn as_bytes(&self) -> &[u8]
        ensures bytes { result.now ≡ self.now }
        ensures is_name { IsName result.now }
    {
        &self.bytes
    }

    /// A name of the same bytes.
    ///
    /// # Errors
    ///
    /// `AllocError` where there is no memory for the copy.
    pub fn copied(&self, alloc: Global) -> Result<Name, AllocError>
        ensures { IfOk result (λ copy. copy ≡ self.now) }
    {
        let bytes = Vec::from_slice(alloc, &self.bytes)?;
        Ok(Name { bytes })
    }
}

/// Two names are equal where their bytes are.
impl PartialEq for Name {
    ghost use Rattle.std.specs.Prelude.{bytes_eq};
    ghost use Rattle.std.specs.Cmp.{partial_equiv_from_equiv};
    ghost use Rattle.std.specs.Cmp.Lexicographic.{nat_list_eq_equiv};

    ghost eq = { bytes_eq };

    ghost laws = { partial_equiv_from_equiv nat_list_eq_equiv };

    fn eq(&self, other: &Name) -> bool {
        self.as_bytes() == other.as_bytes()
    }
}

impl Eq for Name {
    ghost use Rattle.std.specs.Cmp.Lexicographic.{nat_list_eq_equiv};

    ghost laws = { nat_list_eq_equiv };
}

/// How many bytes a name has at most.
const LONGEST_NAME: usize = 64;

/// The bytes of a name, lent: 1 to 64 of them.
#[derive(Clone, Copy)]
pub struct NameRef<'a> {
    bytes: &'a [u8],
    ghost some: { 1 ≤ length bytes.now },
    ghost short: { length bytes.now ≤ 64 },
}

impl<'a> NameRef<'a> {
    ghost use Rattle.core_terms.specs.Names.{IsName};
    ghost use Rattle.core_terms.specs.Texts.{name_bytes};

    /// The name of these bytes; `None` exactly where they are none: where there is no byte, or where there are more than 64.
    pub fn new(bytes: &'a [u8]) -> Option<Self>
        ensures exactly { IsSome result ↔ IsName bytes.now }
        ensures bytes { IfSome result (λ name. name_bytes name ≡ bytes.now) }
    {
        if bytes.is_empty() || bytes.len() > LONGEST_NAME {
            None
        } else {
            Some(NameRef { bytes })
        }
    }

    /// The bytes.
    pub fn as_bytes(self) -> &'a [u8]
        ensures bytes { result.now ≡ name_bytes self.entry }
        ensures is_name { IsName result.now }
    {
        self.bytes
    }

    /// A name of one's own, of the same bytes.
    ///
    /// # Errors
    ///
    /// `AllocError` where there is no memory for the copy.
    pub fn to_name(self, alloc: Global) -> Result<Name, AllocError>
        ensures { IfOk result (λ name. name ≡ name_bytes self.entry) }
    {
        let bytes = Vec::from_slice(alloc, self.bytes)?;
        Ok(Name { bytes })
    }
}

/// A text that stands in a program: UTF-8 of at most 65,532 bytes.
#[derive(Drop)]
pub struct Text {
    bytes: Vec<u8>,
    ghost utf8: { is_utf8 bytes.items ≡ true },
    ghost fits: { length bytes.items ≤ 65532 },
}

impl Text {
    ghost use Rattle.core_terms.specs.Texts.{bytes_of};

    /// Takes the bytes over.
    pub fn new(bytes: Vec<u8>) -> Self
        requires utf8 { is_utf8 bytes.items ≡ true }
        requires fits { length bytes.items ≤ 65532 }
        ensures { bytes_of result ≡ bytes.items }
    {
        Text { bytes }
    }

    /// The bytes, lent.
    pub fn as_bytes(&self) -> &[u8]
        ensures { result.now ≡ bytes_of self.now }
    {
        &self.bytes
    }

    /// A text of the same bytes.
    ///
    /// # Errors
    ///
    /// `AllocError` where there is no memory for the copy.
    pub fn copied(&self, alloc: Global) -> Result<Text, AllocError>
        ensures { IfOk result (λ copy. bytes_of copy ≡ bytes_of self.now) }
    {
        let bytes = Vec::from_slice(alloc, &self.bytes)?;
        Ok(Text { bytes })
    }
}

/// The number of a local, the outermost being 0: parameters come first.
#[derive(Clone, Copy)]
pub struct LocalId(pub usize);

/// An operation on two ints that gives an int.
#[derive(Clone, Copy)]
pub enum Arith {
    Add,
    Sub,
    Mul,
    Div,
    Rem,
}

/// A comparison of two ints.
#[derive(Clone, Copy)]
pub enum Compare {
    Eq,
    Lt,
    Le,
}

/// A comparison of two texts, by their bytes.
#[derive(Clone, Copy)]
pub enum TextCompare {
    Eq,
    Lt,
}

/// An operator on two operands.
#[derive(Clone, Copy)]
pub enum BinaryOperator {
    Arith(Arith),
    Compare(Compare),
    TextCompare(TextCompare),
    /// Two texts, joined.
    Cat,
}

/// An operation on operands, with what their types don't show: the number of an array's elements, and their type.
#[derive(Clone, Copy)]
pub enum Operation {
    /// An array of so many times the operand.
    VecFill(u8, TyId),
    /// The element of an array at an int.
    VecGet(u8, TyId),
    /// The array with its element at an int replaced.
    VecPut(u8, TyId),
}

/// An expression. Types stand where those of the parts don't follow.
#[derive(Drop)]
pub enum Term {
    UnitLiteral,
    BoolLiteral(bool),
    IntLiteral(i64),
    TextLiteral(Text),
    Local(LocalId),
    /// Two terms, of these types.
    Pair(TyId, TyId, Box<Term>, Box<Term>),
    /// The first of a pair of these types.
    Fst(TyId, TyId, Box<Term>),
    /// The second of a pair of these types.
    Snd(TyId, TyId, Box<Term>),
    Not(Box<Term>),
    /// The number of bytes of a text.
    Len(Box<Term>),
    /// `auth` of a term of this type.
    Auth(TyId, Box<Term>),
    /// `unauth` to a value of this type.
    Unauth(TyId, Box<Term>),
    /// A constructor of a named type, and its fields.
    Constructor(NamedId, Tag, Vec<Term>),
    Arith(Arith, Box<Term>, Box<Term>),
    Compare(Compare, Box<Term>, Box<Term>),
    TextCompare(TextCompare, Box<Term>, Box<Term>),
    /// Two texts, joined.
    Cat(Box<Term>, Box<Term>),
    /// Binds a term of this type as the next local.
    Let {
        bound_type: TyId,
        bound: Box<Term>,
        body: Box<Term>,
    },
    If {
        test: Box<Term>,
        first: Box<Term>,
        other: Box<Term>,
    },
    /// One arm for each constructor of the named type, by tag. The constructor's fields are the next locals of its arm.
    Match {
        named: NamedId,
        subject: Box<Term>,
        arms: Vec<Term>,
    },
    /// A call of a function, and its arguments.
    Call(FunctionId, Vec<Term>),
    /// An operation, and its operands.
    Operate(Operation, Vec<Term>),
}

/// A named type, with its constructors by tag.
#[derive(Drop)]
pub struct NamedType {
    pub name: Name,
    pub constructors: Vec<Constructor>,
}

/// A constructor of a named type, with the types of its fields.
#[derive(Drop)]
pub struct Constructor {
    pub name: Name,
    pub fields: Vec<TyId>,
}

/// How a function may be entered.
#[derive(Clone, Copy)]
pub enum Kind {
    /// By calls of the program alone.
    Inner,
    /// From outside, to make a state.
    Init,
    /// From outside, to read a state and answer.
    Query,
    /// From outside, to give a new state and answer.
    Update,
}

/// A function of a program.
#[derive(Drop)]
pub struct Function {
    pub name: Name,
    pub kind: Kind,
    pub parameters: Vec<TyId>,
    pub result: TyId,
    pub body: Term,
}
