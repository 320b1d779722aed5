//! The laws of objects, in `specs/`: each is the contract of a function that does nothing.
ghost use Rattle.object_meaning.specs.KindLaws.{KindsAreAccepted, ProgramsHaveKinds};
ghost use Rattle.object_meaning.specs.ObjectLaws.{BytesAreTheObjects, ConstructorsHaveNames, ObjectsAreAccepted, ObjectsAreBodies, ObjectsAreCode, ObjectsArePrograms, ObjectsAreReadBack, ObjectsAreSound, ObjectsAreWithin, ObjectsDoTheSame, ObjectsMeanTheSame, ProgramsAreAccepted, ReadsAreWellFormed, VerdictsAreTheSame};

/// Code that passes the test of kinds is accepted.
pub fn kinds_are_accepted()
    ensures { KindsAreAccepted }
{}

/// The code of a well-typed program passes the test of kinds, where each match has an arm and no place has more than 255 locals.
pub fn programs_have_kinds()
    ensures { ProgramsHaveKinds }
{}

/// The bytes of a well-formed object are read as this object.
pub fn objects_are_read_back()
    ensures { ObjectsAreReadBack }
{}

/// No other bytes are read as an object: it has one form in bytes.
pub fn bytes_are_the_objects()
    ensures { BytesAreTheObjects }
{}

/// What is read of bytes as an object is well-formed: its numbers name what is there, its names are names, and its counts are within the
/// limits.
pub fn reads_are_well_formed()
    ensures { ReadsAreWellFormed }
{}

/// An object is a compiled program. `bodies` says that the program of an object runs the object's code.
///
/// `code` says that the object of a program is the program's code, and `programs` that it is the program itself, compiled, where this is
/// of the first format.
pub fn objects_are_programs()
    ensures bodies { ObjectsAreBodies }
    ensures code { ObjectsAreCode }
    ensures programs { ObjectsArePrograms }
{}

/// The object of a typed program does in both modes what the program means: `code` says it of the object's code, `program` of the
/// object as a program. So, `verdict`, each verdict on the object is that on the program.
pub fn objects_mean_the_same()
    ensures code { ObjectsDoTheSame }
    ensures program { ObjectsMeanTheSame }
    ensures verdict { VerdictsAreTheSame }
{}

/// What is accepted of bytes is accepted code, never stuck in any mode; and a well-typed program whose roles have their shapes, so that
/// the headline, its companion and the laws of sessions hold of it. Where there are no more bytes
/// than an object may have, it is within the limits of compiled programs; and each constructor has a name. So `Program::compiled` can hold
/// it, with names of its own for the named types.
pub fn objects_are_accepted()
    ensures code { ObjectsAreAccepted }
    ensures program { ObjectsAreSound }
    ensures limits { ObjectsAreWithin }
    ensures names { ConstructorsHaveNames }
{}

/// What is written of a program is accepted, as the object that it is. The program is one whose object the limits allow, as each
/// text's is: `EmittablePrograms` lists what is asked.
pub fn programs_are_accepted()
    ensures { ProgramsAreAccepted }
{}
