// The numbers that types have in an object.
ghost use Rattle.std.specs.Option.{is_some};
ghost use Rattle.std.specs.Prelude.{◌≡◌, ◌<◌, ◌≤◌, length, map, IfOk};
ghost use Rattle.core_terms.specs.ProgramTypes.{named_table, types_by_number};
ghost use Rattle.core_terms.specs.TypeTables.{type_at};
ghost use Rattle.object_meaning.specs.WrittenObjects.{named_from, number_in, once, place_of, with_type};
ghost use Rattle.object_writer.specs.NamedNumbers.{named_place};

use crate::WriteFault;
use core_terms::{TyForm, TyId, Types};
use std::alloc::{AllocError, Global};

/// How many types an object lists at most.
const MOST_TYPES: usize = 100_000;

/// Which types of a program are listed in its object, and as which number. The named ones come first, in the order of declarations;
/// a type is listed behind its parts.
#[derive(Drop)]
pub(crate) struct Numbering {
    /// Of each type of the program's table, by its number there.
    numbers: Vec<Option<u32>>,
    /// The types behind the named ones.
    order: Vec<TyId>,
    /// The type of a number that isn't in the table.
    unit: TyId,
}

impl Numbering {
    ghost use Rattle.object_writer.specs.Numberings.{HasListedParts, IsNumbering, Lists, Numbers, listed};

    /// The named types alone.
    ///
    /// # Errors
    ///
    /// `AllocError` where there is no memory for a number of each type.
    pub(crate) fn new(alloc: Global, types: &Types) -> Result<Numbering, AllocError>
        ensures { IfOk result (λ numbering. Numbers types.now (named_from 0 (named_table types.now)) numbering) }
    {
        let mut numbers = named_numbers(alloc, types)?;
        let order = Vec::new(alloc);
        match types.type_of(TyForm::UnitForm) {
            Some(unit) => Ok(Numbering {
                numbers,
                order,
                unit,
            }),
            None => {
                let unit = TyId(numbers.len());
                numbers.push(None)?;
                Ok(Numbering {
                    numbers,
                    order,
                    unit,
                })
            }
        }
    }

    /// The types behind the named ones.
    pub(crate) fn order(&self) -> &[TyId]
        ensures { result.now ≡ self.now.order.items }
    {
        &self.order
    }

    /// How many types are listed.
    pub(crate) fn len(&self, types: &Types) -> usize
        ensures { result ≡ length (listed types.now self.now) }
    {
        types.named_types().len() + self.order.len()
    }

    /// The number of a type; 0 where it has none.
    pub(crate) fn number(&self, types: &Types, ty: TyId) -> u32
        requires { IsNumbering types.now self.now }
        ensures { result ≡ number_in (listed types.now self.now) (type_at (types_by_number types.now) ty) }
    {
        let known = self.known(types, ty);
        self.numbers[known.0].unwrap_or(0)
    }

    /// Whether a type is listed.
    fn is_listed(&self, types: &Types, ty: TyId) -> bool
        requires { IsNumbering types.now self.now }
        ensures { result ≡ is_some (place_of (listed types.now self.now) (type_at (types_by_number types.now) ty)) }
    {
        let known = self.known(types, ty);
        self.numbers[known.0].is_some()
    }

    /// The number in the table under which a type has its place here: its own, or that of `unit` where it isn't in the table.
    fn known(&self, types: &Types, ty: TyId) -> TyId
        requires { IsNumbering types.now self.now }
        ensures same { type_at (types_by_number types.now) result ≡ type_at (types_by_number types.now) ty }
        ensures within { result.0 < length self.now.numbers.items }
    {
        if ty.0 < types.type_count() {
            ty
        } else {
            self.unit
        }
    }

    /// Lists a type and its parts, parts first, each that isn't listed yet. A type has few levels, so this goes down a few calls.
    pub(crate) fn list(&mut self, types: &Types, ty: TyId) -> Result<(), WriteFault>
        requires { IsNumbering types.now self.old }
        ensures { Lists types.now (with_type (listed types.now self.old) (type_at (types_by_number types.now) ty)) self.new result }
    {
        if self.is_listed(types, ty) {
            return Ok(());
        }
        match types.form(ty) {
            TyForm::AuthForm(inner) => {
                self.list(types, inner)?;
                self.list_once(types, ty)
            }
            TyForm::PairForm(first, second) => {
                self.list(types, first)?;
                self.list(types, second)?;
                self.list_once(types, ty)
            }
            _ => self.list_once(types, ty),
        }
    }

    /// Lists a type whose parts are listed, where it isn't listed yet.
    fn list_once(&mut self, types: &Types, ty: TyId) -> Result<(), WriteFault>
        requires numbering { IsNumbering types.now self.old }
        requires parts { HasListedParts (listed types.now self.old) (type_at (types_by_number types.now) ty) }
        ensures { Lists types.now (once (listed types.now self.old) (type_at (types_by_number types.now) ty)) self.new result }
    {
        if self.is_listed(types, ty) {
            return Ok(());
        }
        let number = self.len(types);
        if number >= MOST_TYPES {
            return Err(WriteFault::TooLong);
        }
        let known = self.known(types, ty);
        self.order.push(known)?;
        self.numbers[known.0] = Some(number as u32);
        Ok(())
    }
}

/// The numbers of the named types of the table.
fn named_numbers(alloc: Global, types: &Types) -> Result<Vec<Option<u32>>, AllocError>
    ensures { IfOk result (λ numbers. numbers.items ≡ map (place_of (named_from 0 (named_table types.now))) (types_by_number types.now)) }
{
    let count = types.named_types().len();
    let mut numbers = Vec::new(alloc);
    for number in 0..types.type_count() {
        let place = named_number(types.form(TyId(number)), count);
        numbers.push(place)?;
    }
    Ok(numbers)
}

/// The number of a named type, where there are so many.
fn named_number(form: TyForm, count: usize) -> Option<u32>
    requires { count ≤ 256 }
    ensures { result ≡ named_place count form }
{
    match form {
        TyForm::NamedForm(named) if named.0 < count => Some(named.0 as u32),
        _ => None,
    }
}
