// What stands before the spellings of a program's values where they are digested.
ghost use Rattle.std.specs.Prelude.{◌≡◌, ◌++◌, ◌∷◌, [], IfOk, length, option_map, slice_get};
ghost use Rattle.std.specs.Int.{w16, to_be_bytes};
ghost use Rattle.core_terms.specs.Fronts.{AreFronts, ArePrints, bytes_or, front_of, print_kept, print_of_form};
ghost use Rattle.core_terms.specs.ProgramTypes.{types_by_number};

use crate::{Digest, Format, Hash32, NamedId, TyForm, TyId, Types};
use std::alloc::{AllocError, Global};

/// What stands before the spellings of a program's values where they are digested: of each type in the second format its fingerprint, and
/// in the first format nothing. They are made once for a hash, so a fingerprint costs nothing where a value is digested, however long
/// its type is when it is written.
#[derive(Drop)]
pub struct Fronts {
    prints: Vec<Digest>,
    unit: Option<Digest>,
}

impl Fronts {
    /// Those of a program's types.
    ///
    /// # Errors
    ///
    /// `AllocError` where there is no memory for the fingerprints.
    pub fn of_types<H: Hash32>(types: &Types, alloc: Global) -> Result<Fronts, AllocError>
        ensures { IfOk result (AreFronts H.hash types.now) }
    {
        match types.format() {
            Format::First => Ok(Fronts {
                prints: Vec::new(alloc),
                unit: None,
            }),
            Format::Second => Ok(Fronts {
                prints: fingerprints::<H>(types, alloc)?,
                unit: Some(H::of(&[])),
            }),
        }
    }

    /// What stands before a spelling at a type.
    pub fn front(&self, ty: TyId) -> &[u8]
        ensures { result.now ≡ front_of self.now ty }
    {
        match self.print_of(ty) {
            Some(print) => print.as_bytes(),
            None => &[],
        }
    }

    /// The fingerprint that a digest at a type tells, in the second format.
    pub fn print(&self, ty: TyId) -> Option<Digest>
        ensures { result ≡ print_kept self.now ty }
    {
        self.print_of(ty).copied()
    }

    /// The same, lent.
    fn print_of(&self, ty: TyId) -> Option<&Digest>
        ensures { option_map (λ print. print.now) result ≡ print_kept self.now ty }
    {
        match self.prints.get(ty.0) {
            Some(print) => Some(print),
            None => self.unit.as_ref(),
        }
    }
}

/// The fingerprints of a program's types, by number.
fn fingerprints<H: Hash32>(types: &Types, alloc: Global) -> Result<Vec<Digest>, AllocError>
    ensures { IfOk result (λ prints. ArePrints H.hash types.now (length (types_by_number types.now)) prints.items) }
{
    let text = types.text(alloc)?;
    let declared = H::of(&text);
    let mut prints = Vec::new(alloc);
    for number in 0..types.type_count() {
        let print = form_print::<H>(types.form(TyId(number)), &prints, declared, alloc)?;
        prints.push(print)?;
    }
    Ok(prints)
}

/// The fingerprint of a form, from those of its parts.
fn form_print<H: Hash32>(
    form: TyForm,
    prints: &[Digest],
    declared: Digest,
    alloc: Global,
) -> Result<Digest, AllocError>
    ensures { IfOk result (λ print. print.0 ≡ print_of_form H.hash declared.0 prints.now form) }
{
    Ok(match form {
        TyForm::UnitForm => H::of(&[]),
        TyForm::BoolForm => H::of(&[1]),
        TyForm::IntForm => H::of(&[2]),
        TyForm::TextForm => H::of(&[3]),
        TyForm::PairForm(first, second) => H::of(&pair_bytes(
            print_at::<H>(prints, first),
            print_at::<H>(prints, second),
            alloc,
        )?),
        TyForm::NamedForm(number) => H::of(&named_bytes(declared, number, alloc)?),
        TyForm::AuthForm(part) => H::of_pair(&[6], print_at::<H>(prints, part).as_bytes()),
        TyForm::VecForm(n, part) => { H::of_pair(&[7, n], print_at::<H>(prints, part).as_bytes()) }
    })
}

/// The fingerprint with a number; that of `unit` where there is none.
fn print_at<H: Hash32>(prints: &[Digest], ty: TyId) -> Digest
    ensures { result.0 ≡ bytes_or (slice_get prints.now ty.0) (H.hash []) }
{
    match prints.get(ty.0) {
        Some(print) => *print,
        None => H::of(&[]),
    }
}

/// What is digested for a pair.
fn pair_bytes(first: Digest, second: Digest, alloc: Global) -> Result<Vec<u8>, AllocError>
    ensures { IfOk result (λ bytes. bytes.items ≡ 4 ∷ first.0 ++ second.0) }
{
    let mut bytes = [4].to_vec(alloc)?;
    bytes.extend_from_slice(first.as_bytes())?;
    bytes.extend_from_slice(second.as_bytes())?;
    Ok(bytes)
}

/// What is digested for a named type.
fn named_bytes(declared: Digest, number: NamedId, alloc: Global) -> Result<Vec<u8>, AllocError>
    ensures { IfOk result (λ bytes. bytes.items ≡ 5 ∷ declared.0 ++ to_be_bytes w16 number.0) }
{
    let mut bytes = [5].to_vec(alloc)?;
    bytes.extend_from_slice(declared.as_bytes())?;
    bytes.extend_from_slice(&((number.0 % 65_536) as u16).to_be_bytes())?;
    Ok(bytes)
}
