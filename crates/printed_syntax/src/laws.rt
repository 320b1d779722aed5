//! The laws of printed programs and of literals in `specs/`: that both are read back, and that a literal is what its tokens say. Each is a
//! function without parameters, whose contract is the law.

ghost use Rattle.printed_syntax.specs.LiteralLaws.{LiteralsAreByTheirTokens, LiteralsAreReadBack};
ghost use Rattle.printed_syntax.specs.PrintedProgramLaws.{ParsedIsReadBack, PrintedProgramIsReadBack};

/// The printed text of a program is read back: it is a text of a program that is equal but for places. This holds of each program that
/// is well-formed, and whose names, ints and texts a text can have.
pub fn printed_is_read_back()
    ensures { PrintedProgramIsReadBack }
{}

/// What a text is parsed to is such a program.
pub fn parsed_is_read_back()
    ensures { ParsedIsReadBack }
{}

/// The value of a literal has its type, within the limits, is an ideal and a shallow one, and is read back from its spelling, with
/// nothing left over. It holds in a format whose limit fits the length field of a text.
pub fn literals_are_read_back()
    ensures { LiteralsAreReadBack }
{}

/// A text is a literal of a type exactly where its tokens are one by the rules of the type's form, and a fault is told of it exactly where
/// the rule that it names is the first to be broken, at the token with its offset.
pub fn literals_are_by_their_tokens()
    ensures { LiteralsAreByTheirTokens }
{}
