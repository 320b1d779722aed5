//! The law of the definitions in `specs/`: a function without parameters, whose contract is the law.
ghost use Rattle.std.specs.Prelude.{◌≡◌, ◌↔◌, List, ℕ, None};
ghost use Rattle.command_words.specs.CommandLine.{AreRefused};
ghost use Rattle.command_words.specs.Invocations.{invocation_of};

/// The words that call no command are exactly those that the program's own test refuses, or clap.
pub fn refused_exactly()
    ensures { (words : List (List ℕ)) → (invocation_of words ≡ None) ↔ AreRefused words }
{}
