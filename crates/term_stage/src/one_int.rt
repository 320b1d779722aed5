// The first function of a program, which tests call on one int, and traps in words.
ghost use Rattle.std.specs.Prelude.{◌≡◌, ◌<◌, ◌∷◌, [], length, IsTrue};
ghost use Rattle.core_terms.specs.Programs.{meaning};
ghost use Rattle.core_terms.specs.Terms.{function_at};
ghost use Rattle.core_terms.specs.Types.{IntTy};

use core_terms::{FunctionId, Program, Trap, TyForm};

/// The function that the tests call: the first one.
pub const FIRST: FunctionId = FunctionId(0);

/// Whether there is a first function, of one int.
pub fn takes_int(program: &Program) -> bool
    ensures there { IsTrue result → 0 < length (meaning program.now).functions }
    ensures int { IsTrue result → (function_at (meaning program.now) 0).parameters ≡ IntTy ∷ [] }
{
    if program.functions().is_empty() {
        return false;
    }
    match program.function(FIRST).parameters.as_slice() {
        [ty] => program.form(*ty) == TyForm::IntForm,
        _ => false,
    }
}

/// A trap in a word.
pub fn trap_word(trap: Trap) -> &'static str {
    match trap {
        Trap::Overflow => "overflow",
        Trap::DivZero => "divzero",
        Trap::TooBig => "toobig",
        Trap::TooDeep => "toodeep",
        Trap::Index => "index",
    }
}
