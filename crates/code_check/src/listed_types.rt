// The types of an object: its list of them in a table, and the named types.
ghost use Rattle.std.specs.Prelude.{◌≡◌, ◌<◌, ◌≤◌, ◌∷◌, [], ℕ, true, List, length, All, IfOk};
ghost use Rattle.std.specs.List.{AllZip};
ghost use Rattle.core_terms.specs.Names.{IsName};
ghost use Rattle.core_terms.specs.ProgramTrees.{are_below, types_at};
ghost use Rattle.core_terms.specs.Programs.{types_in};
ghost use Rattle.core_terms.specs.TypeTables.{is_form_in, stands_behind, type_of_form};
ghost use Rattle.core_terms.specs.Types.{Ty};
ghost use Rattle.core_terms.specs.declared.format.Format.{Format};
ghost use Rattle.object_meaning.specs.ObjectBodies.{tree_of, trees_of};
ghost use Rattle.object_meaning.specs.ReadObjects.{named_count as named_in};
ghost use Rattle.object_meaning.specs.WellFormedObjects.{AllBelow};
ghost use Rattle.object_reader.specs.ObjectViews.{constructor_of, constructors_of, shape_of, type_of, types_of};
ghost use Rattle.object_reader.specs.declared.object.ListedConstructor as declared_constructor;
ghost use Rattle.object_reader.specs.declared.object.ListedType as declared_type;
ghost use Rattle.code_check.specs.ListedParts.{AreNamedOf, AreTypesOf, HasConstructorsAmong, HasPartsBefore, HavePartsBefore, IsConstructorAmong, IsConstructorOf, IsNamedOf, IsTypeOf};

use core_terms::{Constructor, Name, NameRef, NamedId, NamedType, TyForm, TyId, TyTable};
use object_reader::{ListedConstructor, ListedType, TypeShape};
use std::alloc::{AllocError, Global};

/// Adds listed types to a table. It gives for each of them its number in the table.
pub(crate) fn type_numbers(
    alloc: Global,
    types: &mut TyTable,
    listed: &[ListedType<'_>],
) -> Result<Vec<TyId>, AllocError>
    requires parts { HavePartsBefore 0 (types_of listed.now) }
    ensures format { types.new.format ≡ types.old.format }
    ensures trees { IfOk result (λ numbers. types_at (types_in types.new) numbers.items ≡ trees_of (types_of listed.now)) }
    ensures within { IfOk result (λ numbers. are_below (length (types_in types.new)) numbers.items ≡ true) }
    ensures each { IfOk result (λ numbers. length numbers.items ≡ length listed.now) }
{
    let mut numbers = Vec::new(alloc);
    let mut named = 0;
    for ty in listed {
        let form = form_of(&numbers, named, ty);
        let id = types.intern(form)?;
        numbers.push(id)?;
        named += named_count(ty);
    }
    Ok(numbers)
}

/// 1 for a named type, and 0 for any other.
fn named_count(listed: &ListedType<'_>) -> usize
    ensures count { result ≡ named_in (type_of listed.now ∷ []) }
    ensures one { result ≤ 1 }
{
    match listed {
        ListedType::Named(_) => 1,
        ListedType::Shaped(_) => 0,
    }
}

/// The form of a type behind those that have these numbers. A named type is the one behind so many others.
fn form_of(numbers: &[TyId], named: usize, listed: &ListedType<'_>) -> TyForm
    requires { HasPartsBefore (length numbers.now) (type_of listed.now) }
    ensures tree { (types : List Ty) → type_of_form types result ≡ tree_of (types_at types numbers.now) named (type_of listed.now) }
    ensures behind { (count : ℕ) → are_below count numbers.now ≡ true → stands_behind count result ≡ true }
    ensures format { (format : Format) → is_form_in format result ≡ true }
{
    match listed {
        ListedType::Named(_) => TyForm::NamedForm(NamedId(named)),
        ListedType::Shaped(shape) => shaped_form(numbers, *shape),
    }
}

/// The form of a type that has no constructors.
fn shaped_form(numbers: &[TyId], shape: TypeShape) -> TyForm
    requires { HasPartsBefore (length numbers.now) (shape_of shape) }
    ensures tree { (types : List Ty) (named : ℕ) → type_of_form types result ≡ tree_of (types_at types numbers.now) named (shape_of shape) }
    ensures behind { (count : ℕ) → are_below count numbers.now ≡ true → stands_behind count result ≡ true }
    ensures format { (format : Format) → is_form_in format result ≡ true }
{
    match shape {
        TypeShape::UnitShape => TyForm::UnitForm,
        TypeShape::BoolShape => TyForm::BoolForm,
        TypeShape::IntShape => TyForm::IntForm,
        TypeShape::TextShape => TyForm::TextForm,
        TypeShape::PairShape(first, second) => {
            TyForm::PairForm(type_id(numbers, first), type_id(numbers, second))
        }
        TypeShape::AuthShape(inner) => TyForm::AuthForm(type_id(numbers, inner)),
    }
}

/// The number in the table of a listed type.
pub(crate) fn type_id(numbers: &[TyId], listed: u32) -> TyId
    requires { listed < length numbers.now }
    ensures { IsTypeOf numbers.now listed result }
{
    numbers[listed as usize]
}

/// The numbers in the table of listed types.
pub(crate) fn type_ids(
    alloc: Global,
    numbers: &[TyId],
    listed: &[u32],
) -> Result<Vec<TyId>, AllocError>
    requires { AllBelow (length numbers.now) listed.now }
    ensures { IfOk result (λ ids. AreTypesOf numbers.now listed.now ids.items) }
{
    let mut ids = Vec::new(alloc);
    for ty in listed {
        ids.push(type_id(numbers, *ty))?;
    }
    Ok(ids)
}

/// The named types of a list.
pub(crate) fn named_list(
    alloc: Global,
    numbers: &[TyId],
    listed: &[ListedType<'_>],
) -> Result<Vec<NamedType>, AllocError>
    requires { All (λ (t : declared_type.ListedType). HasConstructorsAmong (length numbers.now) (type_of t)) listed.now }
    ensures { IfOk result (λ named. AreNamedOf numbers.now (types_of listed.now) named.items) }
{
    let mut named = Vec::new(alloc);
    for ty in listed {
        if let ListedType::Named(constructors) = ty {
            named.push(named_type(alloc, numbers, constructors)?)?;
        }
    }
    Ok(named)
}

/// The named type of these constructors. In an object it has no name; its own is the keyword.
fn named_type(
    alloc: Global,
    numbers: &[TyId],
    listed: &[ListedConstructor<'_>],
) -> Result<NamedType, AllocError>
    requires { All (λ (c : declared_constructor.ListedConstructor). IsConstructorAmong (length numbers.now) (constructor_of c)) listed.now }
    ensures { IfOk result (λ named. IsNamedOf numbers.now (constructors_of listed.now) named) }
{
    let constructors = constructor_list(alloc, numbers, listed)?;
    let name = name_of(alloc, b"type")?;
    Ok(NamedType { name, constructors })
}

/// Constructors, with the types of their fields.
fn constructor_list(
    alloc: Global,
    numbers: &[TyId],
    listed: &[ListedConstructor<'_>],
) -> Result<Vec<Constructor>, AllocError>
    requires { All (λ (c : declared_constructor.ListedConstructor). IsConstructorAmong (length numbers.now) (constructor_of c)) listed.now }
    ensures { IfOk result (λ constructors. AllZip (IsConstructorOf numbers.now) (constructors_of listed.now) constructors.items) }
{
    let mut constructors = Vec::new(alloc);
    for one in listed {
        constructors.push(constructor(alloc, numbers, one)?)?;
    }
    Ok(constructors)
}

/// A constructor, with the types of its fields.
fn constructor(
    alloc: Global,
    numbers: &[TyId],
    listed: &ListedConstructor<'_>,
) -> Result<Constructor, AllocError>
    requires { IsConstructorAmong (length numbers.now) (constructor_of listed.now) }
    ensures { IfOk result (λ constructor. IsConstructorOf numbers.now (constructor_of listed.now) constructor) }
{
    let name = name_of(alloc, listed.name)?;
    let fields = type_ids(alloc, numbers, &listed.fields)?;
    Ok(Constructor { name, fields })
}

/// The name of these bytes, copied.
pub(crate) fn name_of(alloc: Global, bytes: &[u8]) -> Result<Name, AllocError>
    requires { IsName bytes.now }
    ensures { IfOk result (λ name. name ≡ bytes.now) }
{
    match NameRef::new(bytes) {
        Some(name) => name.to_name(alloc),
        None => unreachable!(),
    }
}
