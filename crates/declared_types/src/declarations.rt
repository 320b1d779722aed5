// The first pass: the names that are declared, and how many.
ghost use Rattle.std.specs.Prelude.{◌≡◌, [], ◌∷◌, map, IfOk};
ghost use Rattle.std.specs.List.{list_any};
ghost use Rattle.std.specs.Str.{bytes_eq};
ghost use Rattle.auth_syntax.specs.Trees as written;
ghost use Rattle.declared_types.specs.Checking.{Sound, new_name};
ghost use Rattle.declared_types.specs.Declarations as spec;
ghost use Rattle.declared_types.specs.DeclaredNames.{declared_of, names_met};
ghost use Rattle.declared_types.specs.Findings.{Finds};
ghost use Rattle.declared_types.specs.declared.fault.Limited.TheVariants.{Functions, Types};

use crate::fault::{Limited, TypeFault, TypeKind};
use crate::written_types::first_token;
use auth_syntax::tree::{ConstructorDeclaration, Declaration, Parameter, PlacedName, TypeTree};
use indexmap::IndexSet;
use lexemes::place::Place;
use std::alloc::Global;

// How many named types a program has at most.
const MOST_TYPES: usize = 256;

// How many constructors a type has at most.
const MOST_CONSTRUCTORS: usize = 255;

// How many fields a constructor has at most.
const MOST_FIELDS: usize = 8;

// How many functions a program has at most.
const MOST_FUNCTIONS: usize = 1024;

// How many parameters a function has at most.
const MOST_PARAMETERS: usize = 8;

/// The names of what was declared so far, in the order of declaration, and whether the state was.
#[derive(Drop)]
pub struct Declared<'a> {
    pub types: IndexSet<&'a [u8]>,
    pub constructors: IndexSet<&'a [u8]>,
    pub functions: IndexSet<&'a [u8]>,
    pub has_state: bool,
}

/// The first pass over the declarations of a text that ends at `end`: what they declare.
///
/// # Errors
///
/// `At` with the first fault: `Twice` at the name of a type, a constructor or a function, or of a parameter of one function, that stood
/// before among those of its kind, or at a second `state`; `Limit` at the name of a 257th type, a 256th constructor of a type, a 1,025th
/// function or a 9th parameter that stands nowhere before, or at the first token of a 9th field; behind all, `NoState` at the end.
/// `NoMemory` where there is no memory for the names.
pub fn first_pass<'a>(
    alloc: Global,
    declarations: &'a [Declaration],
    end: Place,
) -> Result<Box<Declared<'a>>, TypeFault>
    ensures found { Finds (λ _. tt) (spec.checked_whole (map written.declaration_of declarations.now) end) result }
    ensures declared { IfOk result (λ declared. spec.checked_declarations spec.nothing_declared (map written.declaration_of declarations.now) ≡ Sound (declared_of declared.value)) }
{
    let nothing = Declared {
        types: IndexSet::new(alloc),
        constructors: IndexSet::new(alloc),
        functions: IndexSet::new(alloc),
        has_state: false,
    };
    let mut declared = Box::new(alloc, nothing)?;
    for declaration in declarations {
        declare(&mut declared, declaration)?;
    }
    if declared.has_state {
        Ok(declared)
    } else {
        Err(TypeFault::At(TypeKind::NoState, end))
    }
}

/// Adds a declaration to those before it, or finds its first fault.
fn declare<'a>(declared: &mut Declared<'a>, declaration: &'a Declaration) -> Result<(), TypeFault>
    ensures { Finds (λ _. declared_of declared.new) (spec.checked_declaration (declared_of declared.old) (written.declaration_of declaration.now)) result }
{
    match declaration {
        Declaration::Type(_, named) => {
            name_type(&mut declared.types, &named.name)?;
            add_constructors(&mut declared.constructors, &named.constructors)
        }
        Declaration::State(at, _) if declared.has_state => Err(TypeFault::At(TypeKind::Twice, *at)),
        Declaration::State(_, _) => {
            declared.has_state = true;
            Ok(())
        }
        Declaration::Function(_, function) => {
            name_function(&mut declared.functions, &function.name)?;
            check_parameters(&function.parameters)
        }
    }
}

/// Adds a name to those of its kind before it, of which there may be so many, or finds that it may not stand there.
fn add_name<'a>(
    names: &mut IndexSet<&'a [u8]>,
    most: usize,
    thing: Limited,
    name: &'a PlacedName,
) -> Result<(), TypeFault>
    ensures { Finds (λ _. names_met names.new.keys) (new_name (names_met names.old.keys) most thing (written.name_of name.now) (Sound (name.now.name ∷ names_met names.old.keys))) result }
{
    if !names.insert(name.name.as_bytes())? {
        return Err(TypeFault::At(TypeKind::Twice, name.at));
    }
    if names.len() > most {
        return Err(TypeFault::At(TypeKind::Limit(thing), name.at));
    }
    Ok(())
}

/// Adds the name of a type.
fn name_type<'a>(names: &mut IndexSet<&'a [u8]>, name: &'a PlacedName) -> Result<(), TypeFault>
    ensures { Finds (λ _. names_met names.new.keys) (new_name (names_met names.old.keys) spec.most_types Types (written.name_of name.now) (Sound (name.now.name ∷ names_met names.old.keys))) result }
{
    add_name(names, MOST_TYPES, Limited::Types, name)
}

/// Adds the name of a function.
fn name_function<'a>(names: &mut IndexSet<&'a [u8]>, name: &'a PlacedName) -> Result<(), TypeFault>
    ensures { Finds (λ _. names_met names.new.keys) (new_name (names_met names.old.keys) spec.most_functions Functions (written.name_of name.now) (Sound (name.now.name ∷ names_met names.old.keys))) result }
{
    add_name(names, MOST_FUNCTIONS, Limited::Functions, name)
}

/// Adds the constructors of a type to those of the program before them, or finds their first fault.
fn add_constructors<'a>(
    names: &mut IndexSet<&'a [u8]>,
    constructors: &'a [ConstructorDeclaration],
) -> Result<(), TypeFault>
    ensures { Finds (λ _. names_met names.new.keys) (spec.checked_constructors 0 (names_met names.old.keys) (map written.constructor_of constructors.now)) result }
{
    for (before, constructor) in constructors.iter().enumerate() {
        add_constructor(names, before, constructor)?;
    }
    Ok(())
}

/// Adds a constructor, behind so many others of its type, or finds its first fault.
fn add_constructor<'a>(
    names: &mut IndexSet<&'a [u8]>,
    before: usize,
    constructor: &'a ConstructorDeclaration,
) -> Result<(), TypeFault>
    ensures { Finds (λ _. names_met names.new.keys) (spec.checked_constructor before (names_met names.old.keys) (written.constructor_of constructor.now) (Sound (constructor.now.name.name ∷ names_met names.old.keys))) result }
{
    if !names.insert(constructor.name.name.as_bytes())? {
        return Err(TypeFault::At(TypeKind::Twice, constructor.name.at));
    }
    if before >= MOST_CONSTRUCTORS {
        return Err(TypeFault::At(TypeKind::Limit(Limited::Constructors), constructor.name.at));
    }
    check_fields(&constructor.fields)
}

/// The first fault of the fields of a constructor: one is too many.
fn check_fields(fields: &[TypeTree]) -> Result<(), TypeFault>
    ensures { Finds (λ _. tt) (spec.checked_fields 0 (map written.type_of fields.now)) result }
{
    for (before, field) in fields.iter().enumerate() {
        if before >= MOST_FIELDS {
            return Err(TypeFault::At(TypeKind::Limit(Limited::Fields), first_token(field)));
        }
    }
    Ok(())
}

/// Whether a parameter has this name.
fn is_parameter(name: &PlacedName, parameters: &[Parameter]) -> bool
    ensures { result ≡ list_any (λ p. bytes_eq p.name.name name.now.name) parameters.now }
{
    parameters.iter().any(|parameter| parameter.name.name.as_bytes() == name.name.as_bytes())
}

/// The first fault of the names of a function's parameters.
fn check_parameters(parameters: &[Parameter]) -> Result<(), TypeFault>
    ensures { Finds (λ _. tt) (spec.checked_parameters [] (map written.parameter_of parameters.now)) result }
{
    for (place, parameter) in parameters.iter().enumerate() {
        if is_parameter(&parameter.name, &parameters[..place]) {
            return Err(TypeFault::At(TypeKind::Twice, parameter.name.at));
        }
        if place >= MOST_PARAMETERS {
            return Err(TypeFault::At(TypeKind::Limit(Limited::Parameters), parameter.name.at));
        }
    }
    Ok(())
}
