// The trees that texts are parsed to. A whole one, `Ast`, is within the limits of names, texts, nesting and size by its type, wherever it
// comes from. Each node has the place of its first token.

ghost use Rattle.auth_syntax.specs.TreeLimits.{IsWithinLimits};
ghost use Rattle.auth_syntax.specs.TreeParts.{declarations_of};

use core_terms::{BinaryOperator, Format, Name, Text};
use lexemes::place::Place;

/// A program: its format, where it tells one, its declarations, in order, and the place behind the last byte of its text. Its names have 1
/// to 64 bytes, its text literals at most 65,532, no type and no body has more than 100 levels, and there are at most 262,144 expressions
/// in all. A parsed one has arrays in the second format alone, each of 1 to 64 elements.
#[derive(Drop)]
pub struct Ast {
    pub format: Option<Format>,
    pub declarations: Vec<Declaration>,
    pub end: Place,
    pub ghost within: { IsWithinLimits (declarations_of declarations) },
}

/// A name where it stands.
#[derive(Drop)]
pub struct PlacedName {
    pub at: Place,
    pub name: Name,
}

/// What a program declares; the place is that of the declaration's keyword.
#[derive(Drop)]
pub enum Declaration {
    /// A named type.
    Type(Place, TypeDeclaration),
    /// The type of the state.
    State(Place, TypeTree),
    /// A function.
    Function(Place, Function),
}

/// A named type. A parsed one has at least one constructor.
#[derive(Drop)]
pub struct TypeDeclaration {
    pub name: PlacedName,
    pub constructors: Vec<ConstructorDeclaration>,
}

/// A constructor of a named type, with the types of its fields.
#[derive(Drop)]
pub struct ConstructorDeclaration {
    pub name: PlacedName,
    pub fields: Vec<TypeTree>,
}

/// What a function is for.
#[derive(Clone, Copy, Debug, PartialEq, Eq)]
pub enum FunctionKind {
    /// It is called by the program alone.
    Inner,
    /// It makes a first state.
    Init,
    /// It asks about a state.
    Query,
    /// It changes a state.
    Update,
}

/// A function. A parsed one has at least one parameter.
#[derive(Drop)]
pub struct Function {
    pub kind: FunctionKind,
    pub name: PlacedName,
    pub parameters: Vec<Parameter>,
    pub result_type: TypeTree,
    pub body: ExpTree,
}

/// A parameter of a function.
#[derive(Drop)]
pub struct Parameter {
    pub name: PlacedName,
    pub of_type: TypeTree,
}

/// A type, as it is written.
#[derive(Drop)]
pub enum TypeTree {
    /// `unit`
    UnitType(Place),
    /// `bool`
    BoolType(Place),
    /// `int`
    IntType(Place),
    /// `text`
    TextType(Place),
    /// The name of a declared type.
    NamedType(Place, Name),
    /// `auth` and a type
    AuthType(Place, Box<TypeTree>),
    /// Two types between parentheses.
    PairType(Place, Box<TypeTree>, Box<TypeTree>),
    /// `vec`, a length in brackets and the type of the elements
    VecType(Place, u8, Box<TypeTree>),
}

/// An operation on one operand.
#[derive(Clone, Copy, Debug, PartialEq, Eq)]
pub enum UnaryOperator {
    Fst,
    Snd,
    Auth,
    Unauth,
    Len,
    Not,
}

/// An operation on arrays, with what stands between its word and its operands.
#[derive(Clone, Copy, Debug, PartialEq, Eq)]
pub enum ArrayOperator {
    /// An array of so many; its operand is each of them.
    VecFill(u8),
    VecGet,
    VecPut,
}

/// An expression, as it is written.
#[cycle(tree)]
#[derive(Drop)]
pub enum ExpTree {
    /// `()`
    UnitLiteral(Place),
    /// `true` or `false`
    BoolLiteral(Place, bool),
    IntLiteral(Place, i64),
    /// A text, by the bytes that it stands for.
    TextLiteral(Place, Text),
    /// The name of a parameter, or of what a `let` or an arm binds.
    Local(Place, Name),
    /// Two expressions between parentheses.
    Pair(Place, Box<ExpTree>, Box<ExpTree>),
    Unary(Place, UnaryOperator, Box<ExpTree>),
    Binary(Place, BinaryOperator, Box<ExpTree>, Box<ExpTree>),
    /// The name of a function, and its arguments. A parsed call has at least one.
    Call(Place, Name, Vec<ExpTree>),
    /// The name of a constructor, and its fields. One without fields is written without parentheses.
    Constructor(Place, Name, Vec<ExpTree>),
    /// An operation on arrays, and its operands. A parsed one has as many as the operation wants.
    Operate(Place, ArrayOperator, Vec<ExpTree>),
    /// `let name = bound in body`
    Let {
        at: Place,
        name: PlacedName,
        bound: Box<ExpTree>,
        body: Box<ExpTree>,
    },
    /// `if test then first else other`
    If {
        at: Place,
        test: Box<ExpTree>,
        first: Box<ExpTree>,
        other: Box<ExpTree>,
    },
    /// `match subject with arms end`; a parsed one has at least one arm.
    Match {
        at: Place,
        subject: Box<ExpTree>,
        arms: Vec<Arm>,
    },
}

/// An arm of a `match`: a constructor, the names of its fields, and the body.
#[cycle(tree)]
#[derive(Drop)]
pub struct Arm {
    pub constructor: PlacedName,
    pub fields: Vec<PlacedName>,
    pub body: ExpTree,
}
