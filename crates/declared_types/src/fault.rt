// How a program's tree breaks the rules of the language.

use core_terms::Fault;
use lexemes::place::Place;

/// What a program may have only so many of.
#[derive(Clone, Copy, Debug, PartialEq, Eq)]
pub enum Limited {
    /// Named types: 256.
    Types,
    /// Constructors of a type: 255.
    Constructors,
    /// Fields of a constructor: 8.
    Fields,
    /// Functions, roles included: 1,024.
    Functions,
    /// Parameters of a function: 8.
    Parameters,
    /// Locals at one place: 255.
    Locals,
}

/// Which rule a program breaks.
#[derive(Clone, Copy, Debug, PartialEq, Eq)]
pub enum TypeKind {
    /// The name stood before among those of its kind, or the state is declared a second time.
    Twice,
    /// One more than there may be.
    Limit(Limited),
    /// No state is declared. It stands at the end of the text.
    NoState,
    /// Nothing of its kind has this name.
    UnknownName,
    /// The role hasn't the shape of its kind.
    RoleShape,
    /// An `auth` stands in the type of a role's argument, at any depth.
    AuthInArgument,
    /// The part has another type than the one wanted.
    WrongType,
    /// The operand of `fst` or `snd` is no pair.
    NotPair,
    /// The operand of `unauth` is no authenticated value.
    NotAuth,
    /// The first operand of `vget` or `vput` is no array; or an array is written or made that the program may not have, which no text has.
    NotVec,
    /// What is matched is of no named type.
    NotSum,
    /// The arms' constructors aren't those of the type, in order.
    ArmsWrong,
    /// Another number of parts than a function, a constructor or a pattern has.
    WrongCount,
}

/// Why a tree gives no program: the kind of its first fault, with its place, or that there was no memory.
pub type TypeFault = Fault<TypeKind, Place>;
