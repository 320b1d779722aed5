//! The law of places in `specs/`: that they count the bytes before them. It is a function without parameters, whose contract is the law.

ghost use Rattle.lexemes.specs.Laws.{PlacesAreCounted};

/// Offset, line and column of a place count the bytes before it.
pub fn places_are_counted()
    ensures { PlacesAreCounted }
{}
