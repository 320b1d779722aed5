//! The laws of the definitions in `specs/`: each is a function without parameters, whose contract is the law.
ghost use Rattle.core_terms.specs.Laws.{FirstFormatIsFormat, FormatsAreTheTwo, NoneIsPrefix, OneIsSpelled, PlainIsOwnProjection, ProjectionIsReadBack, ProjectionIsShallow, ProjectionKeepsLimits, ReadingIsExact, SecondFormatIsFormat, ShapeTestIsExact, SizeIsLength, TypingTestIsExact};

/// Both formats are ones that the laws speak of: their numbers fit their fields, their limits hold each text literal, and their
/// digests are as long as those of the hash. Every program of the code has one of them.
pub fn formats()
    ensures first { FirstFormatIsFormat }
    ensures second { SecondFormatIsFormat }
    ensures each { FormatsAreTheTwo }
{}

/// Bytes are read as a value exactly where they spell it; a string spells one value at a type at most; no spelling at a type
/// is a proper prefix of another; the size of a value is the length of its spelling.
pub fn spelling()
    ensures exact { ReadingIsExact }
    ensures one { OneIsSpelled }
    ensures prefix { NoneIsPrefix }
    ensures size { SizeIsLength }
{}

/// The shallow projection keeps size and depth, gives a shallow value of the same type, leaves a value without `auth` as it
/// is, and is read back from its spelling exactly where the value is within the limits.
pub fn projection()
    ensures limits { ProjectionKeepsLimits }
    ensures shape { ProjectionIsShallow }
    ensures plain { PlainIsOwnProjection }
    ensures read_back { ProjectionIsReadBack }
{}

/// The typing test says yes exactly where the typing rules hold, and the shape test exactly where each function that can be
/// entered from outside has the shape of its role.
pub fn typing()
    ensures types { TypingTestIsExact }
    ensures shapes { ShapeTestIsExact }
{}
