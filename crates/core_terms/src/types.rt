// Types by number, in a table in which equal types have one number.
ghost use Rattle.std.specs.Prelude.{◌≡◌, ◌≢◌, true, ◌<◌, ◌≤◌, ◌++◌, ◌⊎◌, ◌∷◌, [], ℕ, length, Some, slice_get, IfOk, IfSome, IsNone, IsTrue, OnErr, ◌↔◌, slice_index_or};
ghost use Rattle.std.specs.List.{list_all};
ghost use Rattle.core_terms.specs.TypeTables.{HasNoNumber, is_form_in, HasOneNumber, IsWithForm, is_in_order, stands_behind, type_at, type_of_form, types_of_forms};

use crate::Format;
use indexmap::IndexSet;
use std::alloc::{AllocError, Global};

/// The number of a type in the table of its program. A number that isn't in the table stands for `unit`.
#[derive(Clone, Copy, PartialEq, Eq, Hash)]
pub struct TyId(pub usize);

/// The number of a named type, in the order of declarations.
#[derive(Clone, Copy, PartialEq, Eq, Hash)]
pub struct NamedId(pub usize);

/// The number of a constructor in its type, in the order of declaration.
#[derive(Clone, Copy, PartialEq)]
pub struct Tag(pub u8);

/// The form of a type, with the numbers of its parts. A named type is one by its name alone.
#[derive(Clone, Copy, PartialEq, Eq, Hash)]
pub enum TyForm {
    UnitForm,
    BoolForm,
    IntForm,
    TextForm,
    AuthForm(TyId),
    PairForm(TyId, TyId),
    NamedForm(NamedId),
    /// An array of so many elements of a type.
    VecForm(u8, TyId),
}

/// The types of a program, of which only those of the second format have arrays. Parts stand before what they are parts of, and no two are equal, so types are compared by number,
/// and a type costs one entry however long it is when it is written.
#[derive(Drop)]
pub struct TyTable {
    format: Format,
    forms: IndexSet<TyForm>,
    ghost of_format: { list_all (is_form_in format) forms.keys ≡ true },
    ghost in_order: { is_in_order 0 forms.keys ≡ true },
    ghost one_number: { HasOneNumber (types_of_forms forms.keys) },
}

impl TyTable {
    ghost use Rattle.core_terms.specs.Programs.{types_in};

    /// An empty table, of a program of this format.
    pub fn new(format: Format, alloc: Global) -> Self
        ensures format { result.format ≡ format }
        ensures types { types_in result ≡ [] }
    {
        TyTable {
            format,
            forms: IndexSet::new(alloc),
        }
    }

    /// The format of the program.
    pub fn format(&self) -> Format
        ensures { result ≡ self.now.format }
    {
        self.format
    }

    /// The number of the type of this form, whose parts are in the table; an array has 1 to 64 elements. A type that isn't there yet is added behind all
    /// others, so each earlier number stands for the type that it stood for. Where memory is wanting nothing is changed.
    pub fn intern(&mut self, form: TyForm) -> Result<TyId, AllocError>
        requires parts { stands_behind (length (types_in self.old)) form ≡ true }
        requires format { is_form_in self.old.format form ≡ true }
        ensures format { self.new.format ≡ self.old.format }
        ensures number { IfOk result (λ id. slice_get (types_in self.new) id.0 ≡ Some (type_of_form (types_in self.old) form)) }
        ensures types { (types_in self.new ≡ types_in self.old) ⊎ (types_in self.new ≡ types_in self.old ++ type_of_form (types_in self.old) form ∷ []) }
        ensures within { IfOk result (λ id. id.0 < length (types_in self.new)) }
        ensures grows { length (types_in self.old) ≤ length (types_in self.new) }
        ensures err { OnErr result (types_in self.new ≡ types_in self.old) }
    {
        let number = add(&mut self.forms, form)?;
        Ok(TyId(number))
    }

    /// The number of types.
    pub fn len(&self) -> usize
        ensures { result ≡ length (types_in self.now) }
    {
        self.forms.len()
    }

    /// The number of the type of this form; none where the type isn't in the table, as long as the form's parts are.
    pub fn number_of(&self, form: TyForm) -> Option<TyId>
        ensures found { IfSome result (λ id. slice_get (types_in self.now) id.0 ≡ Some (type_of_form (types_in self.now) form)) }
        ensures within { IfSome result (λ id. id.0 < length (types_in self.now)) }
        ensures none { IsNone result → HasNoNumber (types_in self.now) form }
    {
        match place_of(&self.forms, form) {
            Some(number) => Some(TyId(number)),
            None => None,
        }
    }

    /// Whether two types of the table are equal. Equal types have one number.
    pub fn is_same(&self, a: TyId, b: TyId) -> bool
        requires first { a.0 < length (types_in self.now) }
        requires second { b.0 < length (types_in self.now) }
        ensures { IsTrue result ↔ (type_at (types_in self.now) a ≡ type_at (types_in self.now) b) }
    {
        a == b
    }

    /// The form of a type. Its parts stand before the type.
    pub fn form(&self, ty: TyId) -> TyForm
        ensures form { type_of_form (types_in self.now) result ≡ type_at (types_in self.now) ty }
        ensures parts { stands_behind ty.0 result ≡ true }
    {
        form_at(&self.forms, ty)
    }
}

/// The number of a form, which is added at the end where it isn't there yet.
fn add(forms: &mut IndexSet<TyForm>, form: TyForm) -> Result<usize, AllocError>
    ensures number { IfOk result (λ number. slice_get forms.new.keys number ≡ Some form) }
    ensures either { IsWithForm forms.old.keys form forms.new.keys }
    ensures err { OnErr result (forms.new.keys ≡ forms.old.keys) }
{
    match forms.insert_full(form) {
        Ok((number, _)) => Ok(number),
        Err(_) => Err(AllocError),
    }
}

/// The place of a form among these.
fn place_of(forms: &IndexSet<TyForm>, form: TyForm) -> Option<usize>
    ensures found { IfSome result (λ place. slice_get forms.now.keys place ≡ Some form) }
    ensures none { IsNone result → (i : ℕ) → slice_get forms.now.keys i ≢ Some form }
{
    forms.get_index_of(&form)
}

/// The form with a number, among these.
fn form_at(forms: &IndexSet<TyForm>, ty: TyId) -> TyForm
    ensures { result ≡ slice_index_or forms.now.keys ty.0 TyForm.UnitForm }
{
    match forms.get_index(ty.0) {
        Some(form) => *form,
        None => TyForm::UnitForm,
    }
}
