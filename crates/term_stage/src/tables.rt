// Types in a table, and names.
ghost use Rattle.std.specs.Prelude.{◌≡◌, true, length, IsTrue};
ghost use Rattle.core_terms.specs.Programs.{types_in};
ghost use Rattle.core_terms.specs.TypeTables.{is_form_in, stands_behind};

use core_terms::{Format, Name, NameRef, TyForm, TyTable};
use std::alloc::{AllocError, Global};

/// Whether a type of this form may be put into a table: its parts are there, and an array is one of the second format, of 1 to 64 elements.
pub fn may_stand(types: &TyTable, form: TyForm) -> bool
    ensures parts { IsTrue result → stands_behind (length (types_in types.now)) form ≡ true }
    ensures format { IsTrue result → is_form_in types.now.format form ≡ true }
{
    let count = types.len();
    match form {
        TyForm::AuthForm(part) => part.0 < count,
        TyForm::PairForm(first, second) => first.0 < count && second.0 < count,
        TyForm::VecForm(len, item) => {
            types.format() == Format::Second && item.0 < count && len >= 1 && len <= 64
        }
        _ => true,
    }
}

/// A name of these bytes; an error where they are none.
pub fn name(bytes: &[u8], alloc: Global) -> Result<Name, AllocError> {
    match NameRef::new(bytes) {
        Some(name) => name.to_name(alloc),
        None => Err(AllocError),
    }
}
