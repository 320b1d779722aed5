//! The laws of what is emitted, in `specs/`: each is the contract of a function that does nothing.
ghost use Rattle.emitted_objects.specs.TextLaws.{EmittedIsAccepted, TextsAreEmittable};

/// The program that a text of the first format is checked to may be emitted, with the names of its constructors.
pub fn texts_are_emittable()
    ensures { TextsAreEmittable }
{}

/// What is written of such a program is accepted, as the object that it is.
pub fn emitted_is_accepted()
    ensures { EmittedIsAccepted }
{}
