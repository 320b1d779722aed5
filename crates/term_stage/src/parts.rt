// Programs of parts that fit.
ghost use Rattle.std.specs.Prelude.{◌≡◌, ◌≤◌, All, IsTrue};
ghost use Rattle.core_terms.specs.Names.{IsName};
ghost use Rattle.core_terms.specs.Programs.{types_in};
ghost use Rattle.term_stage.specs.Fitting.{ConstructorFits, FunctionFits, NamedFits, PartsFit, TypeFits, judged};

use crate::flat::is_flat;
use crate::judge::Judge;
use core_terms::{Constructor, Digest, Function, Name, NamedType, Program, TyId, TyTable};
use std::alloc::{AllocError, Global};

/// How many levels a type that is written has at most, and a body.
const MOST_LEVELS: u8 = 100;

/// How many fields a constructor has at most, and how many parameters a function.
const MOST_FIELDS: usize = 8;

/// How many constructors a type has at most.
const MOST_CONSTRUCTORS: usize = 255;

/// How many named types a program has at most.
const MOST_TYPES: usize = 256;

/// How many functions a program has at most.
const MOST_FUNCTIONS: usize = 1024;

/// How many expressions a program has at most.
const MOST_EXPRESSIONS: u32 = 262_144;

/// Whether a type is in the table and may be written.
fn type_fits(types: &TyTable, ty: TyId) -> bool
    ensures { IsTrue result → TypeFits (types_in types.now) ty }
{
    ty.0 < types.len() && is_flat(types, ty, MOST_LEVELS)
}

/// Whether each of these types is one of that kind.
fn each_type_fits(types: &TyTable, ids: &[TyId]) -> bool
    ensures { IsTrue result → All (TypeFits (types_in types.now)) ids.now }
{
    for id in ids {
        if !type_fits(types, *id) {
            return false;
        }
    }
    true
}

/// Whether a name has a byte, as each has.
fn is_named(name: &Name) -> bool
    ensures { IsTrue result → IsName name.now }
{
    !name.as_bytes().is_empty()
}

/// Whether a constructor is within the limits.
fn constructor_fits(types: &TyTable, constructor: &Constructor) -> bool
    ensures { IsTrue result → ConstructorFits (types_in types.now) constructor.now }
{
    is_named(&constructor.name)
        && constructor.fields.len() <= MOST_FIELDS
        && each_type_fits(types, &constructor.fields)
}

/// Whether each of these constructors is.
fn each_constructor_fits(types: &TyTable, constructors: &[Constructor]) -> bool
    ensures { IsTrue result → All (ConstructorFits (types_in types.now)) constructors.now }
{
    for constructor in constructors {
        if !constructor_fits(types, constructor) {
            return false;
        }
    }
    true
}

/// Whether a named type is within the limits.
fn named_fits(types: &TyTable, named: &NamedType) -> bool
    ensures { IsTrue result → NamedFits (types_in types.now) named.now }
{
    is_named(&named.name)
        && named.constructors.len() <= MOST_CONSTRUCTORS
        && each_constructor_fits(types, &named.constructors)
}

/// Whether each of these named types is.
fn each_named_fits(types: &TyTable, named: &[NamedType]) -> bool
    ensures { IsTrue result → All (NamedFits (types_in types.now)) named.now }
{
    for one in named {
        if !named_fits(types, one) {
            return false;
        }
    }
    true
}

impl Judge<'_> {
    ghost use Rattle.std.specs.Prelude.{◌+◌, map};
    ghost use Rattle.core_terms.specs.ProgramSizes.{expressions_in, expressions_in_all};
    ghost use Rattle.core_terms.specs.ProgramTrees.{expression_of, function_of};

    /// Whether a function has its type within the limits. It takes the number of its expressions from what is left.
    fn function_fits(&self, function: &Function, left: &mut u32) -> bool
        ensures fits { IsTrue result → FunctionFits (judged self.now.types.now self.now.named.now self.now.state self.now.functions.now) (types_in self.now.types.now) function.now }
        ensures counted { IsTrue result → expressions_in (expression_of (types_in self.now.types.now) function.now.body) + left.new ≤ left.old }
    {
        if !self.is_shaped(function) || !is_named(&function.name) {
            return false;
        }
        if function.parameters.len() > MOST_FIELDS
            || !each_type_fits(self.types, &function.parameters)
        {
            return false;
        }
        if !type_fits(self.types, function.result) {
            return false;
        }
        let wanted = self.types.form(function.result);
        self.fits(
            &function.parameters,
            &function.body,
            wanted,
            MOST_LEVELS,
            left,
        )
    }

    /// Whether each function has its type within the limits, and how many expressions there may be.
    fn each_function_fits(&self, limit: u32) -> bool
        ensures fit { IsTrue result → All (FunctionFits (judged self.now.types.now self.now.named.now self.now.state self.now.functions.now) (types_in self.now.types.now)) self.now.functions.now }
        ensures counted { IsTrue result → expressions_in_all (map (function_of (types_in self.now.types.now)) self.now.functions.now) ≤ limit }
    {
        let mut left = limit;
        for function in self.functions {
            if !self.function_fits(function, &mut left) {
                return false;
            }
        }
        true
    }

    /// Whether the parts are those of a program.
    fn parts_fit(&self) -> bool
        ensures { IsTrue result → PartsFit self.now.types.now self.now.named.now self.now.state self.now.functions.now }
    {
        if self.named.len() > MOST_TYPES || self.functions.len() > MOST_FUNCTIONS {
            return false;
        }
        if !type_fits(self.types, self.state) || !each_named_fits(self.types, self.named) {
            return false;
        }
        self.each_function_fits(MOST_EXPRESSIONS)
    }
}

/// The program of these parts, in a box: it is wide, and tests hold it over many calls.
///
/// # Errors
///
/// `AllocError` where memory runs out, or where the parts aren't judged to be those of a program.
#[tactic(auto, using(crate::proofs::FittingParts::parts_typed, crate::proofs::FittingParts::parts_shaped, crate::proofs::FittingParts::parts_within, crate::proofs::FittingParts::parts_named, crate::proofs::FittingParts::parts_limited))]
pub fn program_of(
    types: TyTable,
    named: Vec<NamedType>,
    state: TyId,
    functions: Vec<Function>,
    alloc: Global,
) -> Result<Box<Program>, AllocError> {
    if !are_parts(&types, &named, state, &functions, alloc) {
        return Err(AllocError);
    }
    match Program::new(types, named, state, functions, Digest([7; 32]), alloc) {
        Ok(program) => Ok(Box::new(alloc, program)?),
        Err(_) => Err(AllocError),
    }
}

/// Whether these are the parts of a program.
fn are_parts(
    types: &TyTable,
    named: &[NamedType],
    state: TyId,
    functions: &[Function],
    alloc: Global,
) -> bool
    ensures { IsTrue result → PartsFit types.now named.now state functions.now }
{
    let judge = Judge {
        types,
        named,
        state,
        functions,
        alloc,
    };
    judge.parts_fit()
}
