//! What is true of scripts by their definition: the contract of a function that does nothing.
ghost use Rattle.ask_script.specs.ScriptLaws.{ArgumentsAreBytes};

/// The arguments of a script's calls are of bytes. It holds in a format whose limit fits the length field of a text, where each constructor has a tag of
/// one byte, as in every program that a text gives.
pub fn arguments_are_bytes()
    ensures { ArgumentsAreBytes }
{}
