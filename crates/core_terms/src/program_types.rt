// The types of a program: what whoever makes, reads or stores its values must know of it.
ghost use Rattle.std.specs.Prelude.{◌≡◌, ◌<◌, ◌≤◌, true, length, Some, slice_get, option_map, bytes_eq, IfOk, IfSome, IsNone};
ghost use Rattle.std.specs.List.{list_all, position};
ghost use Rattle.std.proofs.Props.{props};
ghost use Rattle.core_terms.specs.AuthMarks.{AreAuthMarks};
ghost use Rattle.core_terms.specs.TypeNames.{AreNamed};
ghost use Rattle.core_terms.specs.ProgramTrees.{are_types_within, has_fields_below, table_of, types_at};
ghost use Rattle.core_terms.specs.TypeTables.{HasNoNumber, stands_behind, type_at, type_of_form, types_of_forms};
ghost use Rattle.core_terms.specs.Roles.{has_auth};
ghost use Rattle.core_terms.specs.Types.{fields_at, has_numbers, has_tags};

use crate::marks::{auth_marks, is_marked};
use crate::type_texts::declared_text;
use crate::{Constructor, Format, NamedId, NamedType, Tag, TyForm, TyId, TyTable};
use std::alloc::{AllocError, Global};

/// The types of a program: its format, a table of types by number, the named types, the type of its state, and which types an `auth` stands
/// in. The types of its state and fields are in the table. There are at most 256 named types, of at most 255 constructors each, and the
/// names of these have 1 to 64 bytes.
#[derive(Drop)]
pub struct Types {
    table: TyTable,
    named: Vec<NamedType>,
    state: TyId,
    auths: Vec<bool>,
    ghost marked: { AreAuthMarks (types_of_forms table.forms.keys) named.items auths.items },
    ghost within: { are_types_within (length (types_of_forms table.forms.keys)) named.items state ≡ true },
    ghost numbers: { has_numbers (table_of (types_of_forms table.forms.keys) named.items) ≡ true },
    ghost names: { AreNamed named.items } by { Prim.hlevel props },
    ghost tags: { has_tags (table_of (types_of_forms table.forms.keys) named.items) ≡ true },
}

impl Types {
    ghost use Rattle.core_terms.specs.Programs.{constructor_names};
    ghost use Rattle.core_terms.specs.ProgramTypes.{named_table, text_of, types_by_number, types_meaning};

    /// The types of these parts. Which of them have an `auth` is found here, once: each pass over the table and the named types
    /// opens named types once more, and there are at most as many passes as named types.
    ///
    /// # Errors
    ///
    /// `AllocError` where there is no memory for the marks.
    pub fn new(
        table: TyTable,
        named: Vec<NamedType>,
        state: TyId,
        alloc: Global,
    ) -> Result<Self, AllocError>
        requires within { are_types_within (length (types_of_forms table.forms.keys)) named.items state ≡ true }
        requires numbers { has_numbers (table_of (types_of_forms table.forms.keys) named.items) ≡ true }
        requires tags { has_tags (table_of (types_of_forms table.forms.keys) named.items) ≡ true }
        requires names { AreNamed named.items }
        ensures table { IfOk result (λ types. types.table ≡ table) }
        ensures named { IfOk result (λ types. types.named ≡ named) }
        ensures state { IfOk result (λ types. types.state ≡ state) }
    {
        let auths = auth_marks(&table, &named, alloc)?;
        Ok(Types {
            table,
            named,
            state,
            auths,
        })
    }

    /// The format of the program.
    pub fn format(&self) -> Format
        ensures { result ≡ self.now.table.format }
    {
        self.table.format()
    }

    /// The declarations of the named types, printed, each on its line. A type is written whole, as in the text of a program: so this is
    /// linear in such a text, but not in a table in which types share their parts.
    ///
    /// # Errors
    ///
    /// `AllocError` where there is no memory for the text.
    pub fn text(&self, alloc: Global) -> Result<Vec<u8>, AllocError>
        ensures { IfOk result (λ text. text.items ≡ text_of self.now) }
    {
        declared_text(&self.table, &self.named, alloc)
    }

    /// The number of types. Their numbers are those below it.
    pub fn type_count(&self) -> usize
        ensures { result ≡ length (types_by_number self.now) }
    {
        self.table.len()
    }

    /// The form of a type. Its parts stand before the type.
    pub fn form(&self, ty: TyId) -> TyForm
        ensures form { type_of_form (types_by_number self.now) result ≡ type_at (types_by_number self.now) ty }
        ensures parts { stands_behind ty.0 result ≡ true }
    {
        self.table.form(ty)
    }

    /// The type of this form; none where it isn't one of the program's, as long as the form's parts are.
    pub fn type_of(&self, form: TyForm) -> Option<TyId>
        ensures found { IfSome result (λ id. slice_get (types_by_number self.now) id.0 ≡ Some (type_of_form (types_by_number self.now) form)) }
        ensures within { IfSome result (λ id. id.0 < length (types_by_number self.now)) }
        ensures none { IsNone result → HasNoNumber (types_by_number self.now) form }
    {
        self.table.number_of(form)
    }

    /// The named types, in the order of declarations.
    pub fn named_types(&self) -> &[NamedType]
        ensures named { result.now ≡ self.now.named.items }
        ensures within { list_all (has_fields_below (length (types_by_number self.now))) result.now ≡ true }
        ensures numbers { has_numbers (named_table self.now) ≡ true }
        ensures tags { has_tags (named_table self.now) ≡ true }
        ensures names { AreNamed result.now }
    {
        &self.named
    }

    /// The constructor of a named type with this tag; none exactly where it has no such one.
    pub fn constructor_at(&self, named: NamedId, tag: Tag) -> Option<&Constructor>
        ensures name { option_map (λ constructor. constructor.now.name) result ≡ slice_get (constructor_names self.now.named.items named.0) tag.0 }
        ensures fields { option_map (λ constructor. types_at (types_by_number self.now) constructor.now.fields.items) result ≡ fields_at (named_table self.now) named.0 tag.0 }
    {
        let declared = self.named.get(named.0)?;
        declared.constructors.get(usize::from(tag.0))
    }

    /// The constructor of this name among those of a named type, with the types of its fields; none exactly where it has no such one.
    pub fn constructor(&self, named: NamedId, name: &[u8]) -> Option<(Tag, &[TyId])>
        ensures tag { option_map (λ found. found.0.0) result ≡ position (λ other. bytes_eq other name.now) (constructor_names self.now.named.items named.0) }
        ensures fields { IfSome result (λ found. fields_at (named_table self.now) named.0 found.0.0 ≡ Some (types_at (types_by_number self.now) found.1.now)) }
    {
        let declared = self.named.get(named.0)?;
        let place = place_of_constructor(&declared.constructors, name)?;
        Some((Tag(place as u8), &declared.constructors[place].fields))
    }

    /// The type of the state.
    pub fn state_type(&self) -> TyId
        ensures state { type_at (types_by_number self.now) result ≡ (types_meaning self.now).state }
        ensures within { result.0 < length (types_by_number self.now) }
    {
        self.state
    }

    /// Whether an `auth` stands in the type, at any depth and through named types.
    pub fn has_auth(&self, ty: TyId) -> bool
        ensures { result ≡ has_auth (named_table self.now) (type_at (types_by_number self.now) ty) }
    {
        is_marked(&self.auths, ty)
    }

    /// The greatest number of bytes of a spelling, and so of a piece of a proof.
    pub fn spelling_limit(&self) -> usize
        ensures limit { result ≡ (types_meaning self.now).format.limit }
        ensures holds { 65536 ≤ result }
        ensures fits { result ≤ 1048576 }
    {
        match self.table.format() {
            Format::First => 65_536,
            Format::Second => 1_048_576,
        }
    }

    /// The bytes that a proof file begins with.
    pub fn proof_magic(&self) -> [u8; 4]
        ensures { result ≡ (types_meaning self.now).format.magic }
    {
        match self.table.format() {
            Format::First => *b"LAP1",
            Format::Second => *b"LAP2",
        }
    }

    /// The bytes that an image begins with.
    pub fn image_magic(&self) -> [u8; 4]
        ensures { result ≡ (types_meaning self.now).format.image_magic }
    {
        match self.table.format() {
            Format::First => *b"LAI1",
            Format::Second => *b"LAI2",
        }
    }

    /// The greatest number of pieces that a proof may ask its verifier to keep.
    pub fn most_kept(&self) -> u16
        ensures { result ≡ (types_meaning self.now).format.most_kept }
    {
        1_024
    }
}

/// The place of the first of the constructors that has this name.
fn place_of_constructor(constructors: &[Constructor], name: &[u8]) -> Option<usize>
    ensures place { result ≡ position (λ constructor. bytes_eq constructor.name name.now) constructors.now }
    ensures within { IfSome result (λ place. place < length constructors.now) }
{
    constructors
        .iter()
        .position(|constructor| constructor.name.as_bytes() == name)
}
