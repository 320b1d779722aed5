//! Laws over the definitions alone, each the contract of a function that does nothing.
ghost use Rattle.code_gen.specs.CodeSizes.{CodeHasALimit, CodeIsShort};

/// The code of a written program has at most four instructions an expression, and one return a function.
pub fn code_is_short()
    ensures { CodeIsShort }
{}

/// Code has at most 4,194,304 instructions: that is the limit of a compiled program, and a written one has at most 1,049,600, for
/// 262,144 expressions and 1,024 functions.
pub fn code_has_a_limit()
    ensures { CodeHasALimit }
{}
