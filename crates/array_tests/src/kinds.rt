// The types of the random programs: arrays by themselves, in one another, in pairs, in constructors, and authenticated.
use core_terms::{Constructor, Format, NamedId, NamedType, TyForm, TyId, TyTable};
use std::alloc::{AllocError, Global};
use term_stage::tables::{may_stand, name};

/// How many elements an array has.
#[derive(Clone, Copy)]
pub enum Length {
    /// As many as this number that is drawn for a program.
    Drawn(usize),
    Fixed(u8),
}

/// The shape of a type, whose parts stand before it.
#[derive(Clone, Copy)]
pub enum Shape {
    Leaf(TyForm),
    Auth(usize),
    Pair(usize, usize),
    Items(Length, usize),
}

/// The places of types.
pub const INT: usize = 2;

pub const INTS: usize = 3;

pub const CHAIN: usize = 9;

pub const LINK: usize = 10;

pub const WIDE: usize = 14;

pub const WIDER: usize = 15;

pub const WIDEST: usize = 16;

pub const WIDE_PAIR: usize = 17;

pub const CHAINS: usize = 18;

pub const ALL_CHAINS: usize = 19;

/// How many of the types stand in terms that are drawn; the others are near the limits.
pub const DRAWN_TYPES: usize = 14;

/// How many lengths are drawn for a program.
pub const LENGTHS: usize = 4;

const SHAPES: [Shape; 20] = [
    Shape::Leaf(TyForm::UnitForm),
    Shape::Leaf(TyForm::BoolForm),
    Shape::Leaf(TyForm::IntForm),
    Shape::Items(Length::Drawn(0), INT),
    Shape::Auth(INTS),
    Shape::Pair(INTS, INT),
    Shape::Items(Length::Drawn(1), INTS),
    Shape::Items(Length::Drawn(2), 0),
    Shape::Items(Length::Drawn(2), 7),
    Shape::Leaf(TyForm::NamedForm(NamedId(0))),
    Shape::Items(Length::Fixed(1), CHAIN),
    Shape::Pair(6, 4),
    Shape::Auth(CHAIN),
    Shape::Items(Length::Drawn(1), 11),
    // 512 bytes, 32,768 bytes, and about the limit of 1,048,576
    Shape::Items(Length::Fixed(64), INT),
    Shape::Items(Length::Fixed(64), WIDE),
    Shape::Items(Length::Drawn(3), WIDER),
    Shape::Pair(WIDEST, INT),
    Shape::Items(Length::Fixed(8), CHAIN),
    Shape::Items(Length::Fixed(64), CHAINS),
];

/// The type at a place; the first one where there is none.
pub fn at(ids: &[TyId], place: usize) -> TyId {
    match ids.get(place) {
        Some(ty) => *ty,
        None => TyId(0),
    }
}

/// The form of a shape.
fn form_of(shape: Shape, ids: &[TyId], lengths: &[u8]) -> TyForm {
    match shape {
        Shape::Leaf(form) => form,
        Shape::Auth(part) => TyForm::AuthForm(at(ids, part)),
        Shape::Pair(first, second) => TyForm::PairForm(at(ids, first), at(ids, second)),
        Shape::Items(Length::Fixed(length), part) => TyForm::VecForm(length, at(ids, part)),
        Shape::Items(Length::Drawn(place), part) => {
            let length = lengths.get(place).copied().unwrap_or(1);
            TyForm::VecForm(length, at(ids, part))
        }
    }
}

/// The types, where the drawn lengths are these, and the numbers of the types by their places.
pub fn types_of(lengths: &[u8], alloc: Global) -> Result<(Box<TyTable>, Vec<TyId>), AllocError> {
    let mut types = Box::new(alloc, TyTable::new(Format::Second, alloc))?;
    let mut ids = Vec::new(alloc);
    for shape in SHAPES {
        let form = form_of(shape, &ids, lengths);
        if !may_stand(&types, form) {
            return Err(AllocError);
        }
        let ty = types.intern(form)?;
        ids.push(ty)?;
    }
    Ok((types, ids))
}

/// A constructor with fields of the types at these places.
fn constructor(
    bytes: &[u8],
    places: &[usize],
    ids: &[TyId],
    alloc: Global,
) -> Result<Constructor, AllocError> {
    let mut fields = Vec::new(alloc);
    for place in places {
        fields.push(at(ids, *place))?;
    }
    let name = name(bytes, alloc)?;
    Ok(Constructor { name, fields })
}

/// The one named type: a chain, of which each link holds the next one in an array.
pub fn chain(ids: &[TyId], alloc: Global) -> Result<Vec<NamedType>, AllocError> {
    let mut constructors = Vec::new(alloc);
    constructors.push(constructor(b"End", &[], ids, alloc)?)?;
    constructors.push(constructor(b"Link", &[LINK, INT], ids, alloc)?)?;
    constructors.push(constructor(b"Held", &[4, 6], ids, alloc)?)?;
    let mut named = Vec::new(alloc);
    let name = name(b"chain", alloc)?;
    named.push(NamedType { name, constructors })?;
    Ok(named)
}
