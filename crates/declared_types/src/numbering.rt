// What a program declares for its bodies, with its types by number.
ghost use Rattle.std.specs.Prelude.{◌≡◌, ◌<◌, ◌≤◌, ◌++◌, length, map, slice_get, unwrap_or, Some, All, IfOk, OnOk};
ghost use Rattle.std.specs.List.{AllZip};
ghost use Rattle.core_terms.specs.Programs.{type_names, types_in};
ghost use Rattle.core_terms.specs.TypeTables.{type_at};
ghost use Rattle.auth_syntax.specs.Trees as written;
ghost use Rattle.declared_types.specs.Checking.{Sound};
ghost use Rattle.declared_types.specs.Declarations.{checked_declarations, nothing_declared};
ghost use Rattle.declared_types.specs.DeclaredNames.{declared_of};
ghost use Rattle.declared_types.specs.Numbering.{AreConstructorsOf, AreNamedOf, IsConstructorOf, IsHeadOf, IsNamedOf};
ghost use Rattle.declared_types.specs.OverTypes.{AreNumbers, Grows, functions_written};
ghost use Rattle.declared_types.specs.ScopeNames.{constructor_meant, constructors_meant, names_in, numbered, tagged};
ghost use Rattle.declared_types.specs.Scopes.{IsWithin, functions_meant, scope_in, scope_meant};
ghost use Rattle.declared_types.specs.WrittenTypes as defined;
ghost use Rattle.declared_types.specs.WrittenTypes.{array_meant, number_of, type_meant};

use crate::declarations::Declared;
use crate::scope::{ConstructorId, Head, Scope};
use crate::written_types::may_have;
use auth_syntax::tree::{
    ConstructorDeclaration, Declaration, Function, Parameter, TypeDeclaration, TypeTree,
};
use core_terms::{Constructor, Name, NamedId, NamedType, Tag, TyForm, TyId, TyTable};
use indexmap::IndexSet;
use std::alloc::{AllocError, Global};

/// What declarations declare for the bodies, where the first pass found these names. The types that they name are added to the table.
pub(crate) fn declared_scope<'a>(
    alloc: Global,
    types: &mut TyTable,
    declared: Box<Declared<'a>>,
    declarations: &'a [Declaration],
) -> Result<Box<Scope<'a>>, AllocError>
    requires { checked_declarations nothing_declared (map written.declaration_of declarations.now) ≡ Sound (declared_of declared.value) }
    ensures grows { Grows (types_in types.old) (types_in types.new) }
    ensures format { types.new.format ≡ types.old.format }
    ensures scope { IfOk result (λ scope. scope_meant types.old.format (types_in types.new) scope.value ≡ scope_in types.old.format (map written.declaration_of declarations.now)) }
    ensures functions { IfOk result (λ scope. functions_meant scope.value ≡ functions_written declarations.now) }
    ensures names { IfOk result (λ scope. type_names scope.value.named.items ≡ defined.type_names (map written.declaration_of declarations.now)) }
    ensures within { IfOk result (λ scope. IsWithin (length (types_in types.new)) scope.value) }
{
    let named = named_types(alloc, types, &declared.types, declarations)?;
    let heads = heads(alloc, types, &declared.types, declarations)?;
    let constructor_ids = constructor_ids(alloc, &named)?;
    let Declared {
        types: _,
        constructors: constructor_names,
        functions: function_names,
        has_state: _,
    } = Box::into_inner(declared);
    let scope = Scope {
        named,
        heads,
        constructor_names,
        constructor_ids,
        function_names,
    };
    Ok(Box::new(alloc, scope)?)
}

/// The number of a written type, where the named types have these names. A name that none has stands for the first type, and an array that
/// the program may not have for its elements.
pub(crate) fn number(
    types: &mut TyTable,
    names: &IndexSet<&[u8]>,
    tree: &TypeTree,
) -> Result<TyId, AllocError>
    ensures grows { Grows (types_in types.old) (types_in types.new) }
    ensures format { types.new.format ≡ types.old.format }
    ensures found { IfOk result (λ id. slice_get (types_in types.new) id.0 ≡ Some (type_meant types.old.format (names_in names.now.keys) (written.type_of tree.now))) }
{
    match tree {
        TypeTree::UnitType(_) => types.intern(TyForm::UnitForm),
        TypeTree::BoolType(_) => types.intern(TyForm::BoolForm),
        TypeTree::IntType(_) => types.intern(TyForm::IntForm),
        TypeTree::TextType(_) => types.intern(TyForm::TextForm),
        TypeTree::NamedType(_, name) => types.intern(TyForm::NamedForm(named_id(names, name))),
        TypeTree::AuthType(_, inner) => {
            let part = number(types, names, inner)?;
            types.intern(TyForm::AuthForm(part))
        }
        TypeTree::PairType(_, first, second) => {
            let first = number(types, names, first)?;
            let second = number(types, names, second)?;
            types.intern(TyForm::PairForm(first, second))
        }
        TypeTree::VecType(_, length, item) => {
            let part = number(types, names, item)?;
            array_number(types, *length, part)
        }
    }
}

/// The number of the type of arrays of so many elements of this type, where the program may have it; else that of the elements.
fn array_number(types: &mut TyTable, count: u8, part: TyId) -> Result<TyId, AllocError>
    requires { part.0 < length (types_in types.old) }
    ensures grows { Grows (types_in types.old) (types_in types.new) }
    ensures format { types.new.format ≡ types.old.format }
    ensures found { IfOk result (λ id. slice_get (types_in types.new) id.0 ≡ Some (array_meant types.old.format count (type_at (types_in types.old) part))) }
{
    if may_have(types.format(), count) {
        types.intern(TyForm::VecForm(count, part))
    } else {
        Ok(part)
    }
}

/// The number of the named type of a name, and that of the first one where none has it.
fn named_id(names: &IndexSet<&[u8]>, name: &Name) -> NamedId
    ensures { result.0 ≡ unwrap_or (number_of (names_in names.now.keys) name.now) 0 }
{
    match names.get_index_of(name.as_bytes()) {
        Some(number) => NamedId(number),
        None => NamedId(0),
    }
}

/// The numbers of written types.
fn numbers(
    alloc: Global,
    types: &mut TyTable,
    names: &IndexSet<&[u8]>,
    trees: &[TypeTree],
) -> Result<Vec<TyId>, AllocError>
    ensures grows { Grows (types_in types.old) (types_in types.new) }
    ensures format { types.new.format ≡ types.old.format }
    ensures found { IfOk result (λ ids. AreNumbers (types_in types.new) ids.items (map (type_meant types.old.format (names_in names.now.keys)) (map written.type_of trees.now))) }
{
    let mut ids = Vec::new(alloc);
    for tree in trees {
        ids.push(number(types, names, tree)?)?;
    }
    Ok(ids)
}

/// The numbers of the types of parameters.
fn parameter_numbers(
    alloc: Global,
    types: &mut TyTable,
    names: &IndexSet<&[u8]>,
    parameters: &[Parameter],
) -> Result<Vec<TyId>, AllocError>
    ensures grows { Grows (types_in types.old) (types_in types.new) }
    ensures format { types.new.format ≡ types.old.format }
    ensures found { IfOk result (λ ids. AreNumbers (types_in types.new) ids.items (map (λ p. type_meant types.old.format (names_in names.now.keys) p.of_type) (map written.parameter_of parameters.now))) }
{
    let mut ids = Vec::new(alloc);
    for parameter in parameters {
        ids.push(number(types, names, &parameter.of_type)?)?;
    }
    Ok(ids)
}

/// The named types of declarations.
fn named_types(
    alloc: Global,
    types: &mut TyTable,
    names: &IndexSet<&[u8]>,
    declarations: &[Declaration],
) -> Result<Vec<NamedType>, AllocError>
    ensures grows { Grows (types_in types.old) (types_in types.new) }
    ensures format { types.new.format ≡ types.old.format }
    ensures found { IfOk result (λ named. AreNamedOf types.old.format (names_in names.now.keys) (types_in types.new) (map written.declaration_of declarations.now) named.items) }
{
    let mut named = Vec::new(alloc);
    for declaration in declarations {
        if let Declaration::Type(_, declared) = declaration {
            named.push(named_type(alloc, types, names, declared)?)?;
        }
    }
    Ok(named)
}

/// A named type.
fn named_type(
    alloc: Global,
    types: &mut TyTable,
    names: &IndexSet<&[u8]>,
    declared: &TypeDeclaration,
) -> Result<NamedType, AllocError>
    ensures grows { Grows (types_in types.old) (types_in types.new) }
    ensures format { types.new.format ≡ types.old.format }
    ensures found { IfOk result (λ named. IsNamedOf types.old.format (names_in names.now.keys) (types_in types.new) (record { name = written.name_of declared.now.name; constructors = written.constructors_of declared.now.constructors }) named) }
{
    let constructors = constructors(alloc, types, names, &declared.constructors)?;
    let name = declared.name.name.copied(alloc)?;
    Ok(NamedType { name, constructors })
}

/// The constructors of a named type.
fn constructors(
    alloc: Global,
    types: &mut TyTable,
    names: &IndexSet<&[u8]>,
    declared: &[ConstructorDeclaration],
) -> Result<Vec<Constructor>, AllocError>
    ensures grows { Grows (types_in types.old) (types_in types.new) }
    ensures format { types.new.format ≡ types.old.format }
    ensures found { IfOk result (λ constructors. AreConstructorsOf types.old.format (names_in names.now.keys) (types_in types.new) (map written.constructor_of declared.now) constructors.items) }
{
    let mut constructors = Vec::new(alloc);
    for one in declared {
        constructors.push(constructor(alloc, types, names, one)?)?;
    }
    Ok(constructors)
}

/// A constructor.
fn constructor(
    alloc: Global,
    types: &mut TyTable,
    names: &IndexSet<&[u8]>,
    declared: &ConstructorDeclaration,
) -> Result<Constructor, AllocError>
    ensures grows { Grows (types_in types.old) (types_in types.new) }
    ensures format { types.new.format ≡ types.old.format }
    ensures found { IfOk result (λ constructor. IsConstructorOf types.old.format (names_in names.now.keys) (types_in types.new) (written.constructor_of declared.now) constructor) }
{
    let fields = numbers(alloc, types, names, &declared.fields)?;
    let name = declared.name.name.copied(alloc)?;
    Ok(Constructor { name, fields })
}

/// The functions of declarations.
fn heads<'a>(
    alloc: Global,
    types: &mut TyTable,
    names: &IndexSet<&[u8]>,
    declarations: &'a [Declaration],
) -> Result<Vec<Head<'a>>, AllocError>
    ensures grows { Grows (types_in types.old) (types_in types.new) }
    ensures format { types.new.format ≡ types.old.format }
    ensures found { IfOk result (λ heads. AllZip (IsHeadOf types.old.format (names_in names.now.keys) (types_in types.new)) (functions_written declarations.now) heads.items) }
{
    let mut heads = Vec::new(alloc);
    for declaration in declarations {
        if let Declaration::Function(_, function) = declaration {
            heads.push(head(alloc, types, names, function)?)?;
        }
    }
    Ok(heads)
}

/// A function.
fn head<'a>(
    alloc: Global,
    types: &mut TyTable,
    names: &IndexSet<&[u8]>,
    function: &'a Function,
) -> Result<Head<'a>, AllocError>
    ensures grows { Grows (types_in types.old) (types_in types.new) }
    ensures format { types.new.format ≡ types.old.format }
    ensures found { IfOk result (λ head. IsHeadOf types.old.format (names_in names.now.keys) (types_in types.new) (written.function_of function.now) head) }
{
    let parameters = parameter_numbers(alloc, types, names, &function.parameters)?;
    let result = number(types, names, &function.result_type)?;
    Ok(Head {
        function,
        parameters,
        result,
    })
}

/// The numbers of all constructors of named types, of which each has at most 255.
fn constructor_ids(alloc: Global, named: &[NamedType]) -> Result<Vec<ConstructorId>, AllocError>
    requires { All (λ (t : NamedType). length t.constructors.items ≤ 255) named.now }
    ensures { IfOk result (λ ids. map constructor_meant ids.items ≡ numbered 0 (constructors_meant named.now)) }
{
    let mut ids = Vec::new(alloc);
    for (number, declared) in named.iter().enumerate() {
        add_ids(&mut ids, NamedId(number), &declared.constructors)?;
    }
    Ok(ids)
}

/// Adds the numbers of the constructors of a named type.
fn add_ids(
    ids: &mut Vec<ConstructorId>,
    named: NamedId,
    constructors: &[Constructor],
) -> Result<(), AllocError>
    requires { length constructors.now ≤ 255 }
    ensures { OnOk result (map constructor_meant ids.new.items ≡ map constructor_meant ids.old.items ++ tagged named.0 0 (map (λ (c : Constructor). c.name) constructors.now)) }
{
    for tag in 0..constructors.len() {
        ids.push(ConstructorId {
            named,
            tag: Tag(tag as u8),
        })?;
    }
    Ok(())
}
