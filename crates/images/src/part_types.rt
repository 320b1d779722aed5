// The types that a record may have.
ghost use Rattle.std.specs.Prelude.{◌≡◌, true, length, ◌≤◌};
ghost use Rattle.value_store.specs.Nodes.{greatest_limit, least_limit};
ghost use Rattle.core_terms.specs.TypeTables.{stands_behind};
ghost use Rattle.core_terms.specs.ProgramTypes.{types_by_number, types_meaning};
ghost use Rattle.images.specs.PartMarks.{IsMarksOf, IsPartOfState};

use crate::parts::PartMarks;
use core_terms::{Format, TyForm, TyId, Types};

/// The types of a program, with which of them are the state's or parts of it.
#[derive(Clone, Copy)]
pub(crate) struct PartTypes<'a> {
    pub types: &'a Types,
    pub marks: &'a PartMarks,
}

impl<'a> PartTypes<'a> {
    /// The type of this form, where it is the state's or a part of it. The form's parts are types of the program.
    // As `part_of`, which it calls.
    #[inline(always)]
    pub fn part(&self, form: TyForm) -> Option<TyId>
        requires marked { IsMarksOf self.now.types.now self.now.marks.now }
        requires behind { stands_behind (length (types_by_number self.now.types.now)) form ≡ true }
        ensures { IsPartOfState self.now.types.now form result }
    {
        self.marks.part_of(self.types, form)
    }

    /// The greatest number of bytes of a spelling.
    pub fn size_limit(&self) -> u32
        ensures limit { result ≡ (types_meaning self.now.types.now).format.limit }
        ensures least { least_limit ≤ result }
        ensures greatest { result ≤ greatest_limit }
    {
        self.types.spelling_limit() as u32
    }

    /// Whether programs of the format may have arrays.
    pub fn has_arrays(&self) -> bool
        ensures { result ≡ (types_meaning self.now.types.now).format.arrays }
    {
        match self.types.format() {
            Format::First => false,
            Format::Second => true,
        }
    }
}
