// Which types of a program are parts of its state's.
//
// They are found by levels. On level 0 no named type is opened; on the next one the fields of the named types that are marked are marked
// too, and then their parts. A level that is like the one before it is like all that follow, and a path to a part opens each named type
// once at most, so no more levels are needed than there are named types.
ghost use Rattle.std.specs.Prelude.{◌≡◌, ◌<◌, ◌+◌, ℕ, true, length, IfOk};
ghost use Rattle.std.specs.List.{list_all};
ghost use Rattle.core_terms.specs.ProgramTrees.{are_below};
ghost use Rattle.core_terms.specs.TypeTables.{stands_behind};
ghost use Rattle.core_terms.specs.ProgramTypes.{types_by_number, types_meaning};
ghost use Rattle.core_terms.specs.declared.program_types.Types as code;
ghost use Rattle.images.specs.Parts.{is_part};
ghost use Rattle.images.specs.PartMarks.{AddsMarks, AreLeaves, AreLevelMarks, ArePartMarks, IsAmong, IsMarked, IsMarksOf, IsOfField, IsOpened, IsPartOfForm, IsPartOfState, IsSpread, constructors_in, type_of};

use core_terms::{Constructor, TyForm, TyId, Types};
use std::alloc::{AllocError, Global};

/// Which types of a program are the state's or parts of it.
#[derive(Drop)]
pub(crate) struct PartMarks {
    marks: Vec<bool>,
    leaves: Leaves,
}

/// The types without parts, each where it is the state's or a part of it. Most records are of one, so they are looked up once.
#[derive(Clone, Copy, Drop)]
struct Leaves {
    unit: Option<TyId>,
    bool: Option<TyId>,
    int: Option<TyId>,
    text: Option<TyId>,
}

impl PartMarks {
    /// The marks of the program's types. Each pass over the table opens the named types that are marked, and there are at most as many
    /// passes as named types.
    pub fn of(alloc: Global, types: &Types) -> Result<Self, AllocError>
        ensures { IfOk result (λ parts. IsMarksOf types.now parts) }
    {
        let marks = part_marks(alloc, types)?;
        let leaves = Leaves::of(types, &marks);
        Ok(PartMarks { marks, leaves })
    }

    /// The type of this form, where it is the state's or a part of it. The form's parts are types of the program.
    // Where it is called the kind of form is known: inlined, a leaf is read, and of the others most of the hash is known too.
    #[inline(always)]
    pub fn part_of(&self, types: &Types, form: TyForm) -> Option<TyId>
        requires marks { IsMarksOf types.now self.now }
        requires parts { stands_behind (length (types_by_number types.now)) form ≡ true }
        ensures { IsPartOfState types.now form result }
    {
        match form {
            TyForm::UnitForm => self.leaves.unit,
            TyForm::BoolForm => self.leaves.bool,
            TyForm::IntForm => self.leaves.int,
            TyForm::TextForm => self.leaves.text,
            form => marked(types, &self.marks, form),
        }
    }
}

impl Leaves {
    fn of(types: &Types, marks: &[bool]) -> Self
        requires { ArePartMarks types.now marks.now }
        ensures { AreLeaves types.now result }
    {
        Leaves {
            unit: marked(types, marks, TyForm::UnitForm),
            bool: marked(types, marks, TyForm::BoolForm),
            int: marked(types, marks, TyForm::IntForm),
            text: marked(types, marks, TyForm::TextForm),
        }
    }
}

/// The type of this form, where it is marked. The form's parts are types of the program.
#[inline(always)]
fn marked(types: &Types, marks: &[bool], form: TyForm) -> Option<TyId>
    requires marks { ArePartMarks types.now marks.now }
    requires parts { stands_behind (length (types_by_number types.now)) form ≡ true }
    ensures { IsPartOfState types.now form result }
{
    let ty = types.type_of(form)?;
    match marks.get(ty.0) {
        Some(true) => Some(ty),
        _ => None,
    }
}

/// For each type of the program whether it is the state's or a part of it.
fn part_marks(alloc: Global, types: &Types) -> Result<Vec<bool>, AllocError>
    ensures { IfOk result (λ marks. ArePartMarks types.now marks.items) }
{
    let mut marks = first_level(alloc, types)?;
    for _level in 0..types.named_types().len() {
        let next = next_level(alloc, types, &marks)?;
        if next.as_slice() == marks.as_slice() {
            return Ok(marks);
        }
        marks = next;
    }
    Ok(marks)
}

/// The marks of the types on the level on which no named type is opened.
fn first_level(alloc: Global, types: &Types) -> Result<Vec<bool>, AllocError>
    ensures { IfOk result (λ marks. AreLevelMarks types.now 0 marks.items) }
{
    let mut marks = vec![in alloc; false; types.type_count()]?;
    mark_state(types, &mut marks);
    Ok(marks)
}

/// Marks the state's type, and its parts with no named type opened.
fn mark_state(types: &Types, marks: &mut [bool])
    requires count { length marks.old ≡ length (types_by_number types.now) }
    requires none { (i : ℕ) → IsMarked marks.old i → ⊥ }
    ensures { AreLevelMarks types.now 0 marks.new }
{
    marks[types.state_type().0] = true;
    spread(types, marks);
}

/// The marks of the types on the level behind the one that has these.
fn next_level(alloc: Global, types: &Types, opened: &[bool]) -> Result<Vec<bool>, AllocError>
    requires { length opened.now ≡ length (types_by_number types.now) }
    ensures { (level : ℕ) → AreLevelMarks types.now level opened.now → IfOk result (λ marks. AreLevelMarks types.now (level + 1) marks.items) }
{
    let mut marks = opened.to_vec(alloc)?;
    mark_next(types, opened, &mut marks);
    Ok(marks)
}

/// Marks what is found by opening one named type more than on the level that has these marks.
fn mark_next(types: &Types, opened: &[bool], marks: &mut [bool])
    requires count { length marks.old ≡ length (types_by_number types.now) }
    requires same { marks.old ≡ opened.now }
    ensures { (level : ℕ) → AreLevelMarks types.now level opened.now → AreLevelMarks types.now (level + 1) marks.new }
{
    open(types, opened, marks);
    spread(types, marks);
}

/// Marks the types of the fields of each named type that is opened.
fn open(types: &Types, opened: &[bool], marks: &mut [bool])
    requires { length marks.old ≡ length (types_by_number types.now) }
    ensures { AddsMarks (IsOpened types.now opened.now (length opened.now)) marks.old marks.new }
{
    for (number, is_opened) in opened.iter().enumerate() {
        if *is_opened {
            mark_fields(constructors_of(types, TyId(number)), marks);
        }
    }
}

/// The constructors of a named type; other types have none.
fn constructors_of(types: &Types, ty: TyId) -> &[Constructor]
    ensures constructors { result.now ≡ constructors_in types.now (type_of types.now ty.0) }
    ensures below { list_all (λ c. are_below (length (types_by_number types.now)) c.fields.items) result.now ≡ true }
{
    let TyForm::NamedForm(named) = types.form(ty) else {
        return &[];
    };
    match types.named_types().get(named.0) {
        Some(declared) => &declared.constructors,
        None => &[],
    }
}

/// Marks the types of the fields of all constructors.
fn mark_fields(constructors: &[Constructor], marks: &mut [bool])
    requires { list_all (λ c. are_below (length marks.old) c.fields.items) constructors.now ≡ true }
    ensures { AddsMarks (IsOfField constructors.now (length constructors.now)) marks.old marks.new }
{
    for constructor in constructors {
        mark_all(&constructor.fields, marks);
    }
}

/// Marks each of the types.
fn mark_all(types: &[TyId], marks: &mut [bool])
    requires { are_below (length marks.old) types.now ≡ true }
    ensures { AddsMarks (IsAmong types.now (length types.now)) marks.old marks.new }
{
    for ty in types {
        marks[ty.0] = true;
    }
}

/// Marks the parts of all types that are marked. A type's parts stand before it.
fn spread(types: &Types, marks: &mut [bool])
    requires { length marks.old ≡ length (types_by_number types.now) }
    ensures { IsSpread types.now marks.old marks.new }
{
    for number in (0..marks.len()).rev() {
        if marks[number] {
            mark_parts(types.form(TyId(number)), marks);
        }
    }
}

/// Marks the direct parts of a type of this form; those of a named type are the fields of its constructors, and aren't marked here.
fn mark_parts(form: TyForm, marks: &mut [bool])
    requires { stands_behind (length marks.old) form ≡ true }
    ensures { AddsMarks (IsPartOfForm form) marks.old marks.new }
{
    match form {
        TyForm::AuthForm(part) => marks[part.0] = true,
        TyForm::VecForm(_, part) => marks[part.0] = true,
        TyForm::PairForm(first, second) => {
            marks[first.0] = true;
            marks[second.0] = true;
        }
        _ => {}
    }
}
