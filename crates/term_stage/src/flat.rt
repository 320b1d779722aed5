// Types within the limits of a program.
ghost use Rattle.std.specs.Prelude.{◌≡◌, ◌≤◌, IsTrue};
ghost use Rattle.core_terms.specs.Programs.{types_in};
ghost use Rattle.core_terms.specs.ProgramSizes.{levels_of_type};
ghost use Rattle.core_terms.specs.TypeTables.{type_at};

use core_terms::{TyForm, TyId, TyTable};

/// Whether a type has at most so many levels.
pub fn is_flat(types: &TyTable, ty: TyId, levels: u8) -> bool
    ensures { IsTrue result → levels_of_type (type_at (types_in types.now) ty) ≤ levels }
{
    if levels == 0 {
        return false;
    }
    match types.form(ty) {
        TyForm::PairForm(first, second) => {
            is_flat(types, first, levels - 1) && is_flat(types, second, levels - 1)
        }
        TyForm::AuthForm(part) => is_flat(types, part, levels - 1),
        TyForm::VecForm(_, part) => is_flat(types, part, levels - 1),
        _ => true,
    }
}

/// Whether two forms are one.
pub fn is_form(form: TyForm, other: TyForm) -> bool
    ensures { IsTrue result → form ≡ other }
{
    form == other
}
