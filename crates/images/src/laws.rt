//! The laws of images in `specs/`: that what is saved has each part once, that the parts of a type are found, and that a root is within the
//! limits. Each is a function without parameters, whose contract is the law.
ghost use Rattle.images.specs.ImageLaws.{PartsAreFound, RootsFit, SavedPartsAreOnce};

/// No two records of a value that is saved are equal, and the last one is that of the value itself.
pub fn saved_parts_are_once()
    ensures { SavedPartsAreOnce }
{}

/// The search for the parts of a type, by which the types of records are judged, finds each part and nothing else.
pub fn parts_are_found()
    ensures { PartsAreFound }
{}

/// The root of an image is a state within the limits.
pub fn roots_fit()
    ensures { RootsFit }
{}
