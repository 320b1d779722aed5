//! The laws of the grammar in `specs/`: that parsing finds the program of a text, that a text has at most one, and which first fault is
//! told. Each is a function without parameters, whose contract is the law.

ghost use Rattle.auth_syntax.specs.Laws.{FirstFaultIsFirst, FirstFaultIsTold, OneIsWritten, ParsingIsExact};

/// Parsing finds exactly the program that the grammar gives a text.
pub fn parsing_is_exact()
    ensures { ParsingIsExact }
{}

/// A text is one of at most one program.
pub fn one_is_written()
    ensures { OneIsWritten }
{}

/// The first fault that is told is a first one in the words of the grammar: the tokens before it can be gone on with to a
/// program, and with the token that stands there they can't, or not within the limit of nesting. Of a fault of nesting the law
/// leaves open at which token of what is nested it stands.
pub fn first_fault_is_first()
    ensures { FirstFaultIsFirst }
{}

/// Such a fault is told, where the tokens before it can be gone on with within the limit itself, and it isn't one of nesting.
pub fn first_fault_is_told()
    ensures { FirstFaultIsTold }
{}
