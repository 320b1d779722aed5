//! The laws of the definitions in `specs/`: each is a function without parameters, whose contract is the law.
ghost use Rattle.command_parts.specs.FilePrograms.{program_of_file};
ghost use Rattle.command_parts.specs.SoundPrograms.{GivesSound};
ghost use Rattle.file_commands.specs.TextLaws.{ConstructorsAreNamed};
ghost use Rattle.command_parts.specs.TextPrograms.{program_of_text};

/// The program that a text gives is well-typed, and its roles have their shapes; and so is that of a file, as an object or as a text.
pub fn programs_are_sound()
    ensures texts { GivesSound program_of_text }
    ensures files { GivesSound program_of_file }
{}

/// Each constructor of a program has a name in the program's text or object.
pub fn constructors_are_named()
    ensures { ConstructorsAreNamed }
{}
