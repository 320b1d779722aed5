//! The laws of the definitions in `specs/`: each is a function without parameters, whose contract is the law.
ghost use Rattle.auth_types.specs.TypingLaws.{DenotesWhatPasses, PassesByTheRules, TellsTheFirst, TellsWhatBreaks};
ghost use Rattle.auth_types.specs.WrittenTypeRules.{WrittenTypesStand};
ghost use Rattle.auth_types.specs.CheckedLaws.{CheckedIsTyped, CheckedIsWithinAllLimits, CheckedIsWithinLimits, CheckedNamesDiffer, CheckedNamesItsTypes, ElaboratedHasType, ParsedIsTyped, ScopeIsOfProgram};

/// An expression that passes has the type that it says, where the locals have theirs; and the bodies of a program that passes are
/// checked with the functions, constructors and types that it has.
pub fn elaborated_has_type()
    ensures has_type { ElaboratedHasType }
    ensures scope { ScopeIsOfProgram }
{}

/// A program that passes is well-typed, and its roles have their shapes.
pub fn checked_is_typed()
    ensures { CheckedIsTyped }
{}

/// What the checker gives of a text that has a tree is well-typed, and its roles have their shapes.
pub fn parsed_is_typed()
    ensures { ParsedIsTyped }
{}

/// A program that passes names only types that it declares.
pub fn checked_names_its_types()
    ensures { CheckedNamesItsTypes }
{}

/// A program that passes is within the limits of what the passes count, and within all limits where its tree is within those of
/// trees.
pub fn checked_is_within_limits()
    ensures counted { CheckedIsWithinLimits }
    ensures all { CheckedIsWithinAllLimits }
{}

/// No two functions of a program that passes have one name.
pub fn checked_names_differ()
    ensures { CheckedNamesDiffer }
{}

/// An expression passes exactly where the typing rules give it a type, and a fault is told of it exactly where the rule that it names
/// is broken at its place, and all that is judged before has its type.
pub fn expressions_pass_by_the_rules()
    ensures passes { PassesByTheRules }
    ensures tells { TellsWhatBreaks }
{}

/// A tree passes exactly where the rules say that it stands for the program; and a fault is told of it exactly where it is the first, by
/// place, of the first pass that has one. A written type passes and stands for a type exactly where the rule of types says so.
pub fn programs_pass_by_the_rules()
    ensures passes { DenotesWhatPasses }
    ensures tells { TellsTheFirst }
    ensures types { WrittenTypesStand }
{}
