// The bytes of types.
ghost use Rattle.std.specs.Prelude.{◌≡◌, ◌≤◌, ◌<◌, length, map, All, option_map, slice_get};
ghost use Rattle.core_terms.specs.ProgramLimits.{most_fields};
ghost use Rattle.core_terms.specs.ProgramTrees.{types_at};
ghost use Rattle.core_terms.specs.ProgramTypes.{named_table, types_by_number};
ghost use Rattle.core_terms.specs.TypeNames.{all_constructor_names};
ghost use Rattle.core_terms.specs.TypeTables.{type_at};
ghost use Rattle.object_meaning.specs.ObjectBytes.{bytes_of_all, constructor_bytes, type_bytes, words};
ghost use Rattle.object_meaning.specs.WrittenObjects.{named_from, number_in, type_written};
ghost use Rattle.object_writer.specs.Adding.{Adds, written_so_far};
ghost use Rattle.object_writer.specs.Numberings.{IsNumbering, listed};
ghost use Rattle.object_writer.specs.WrittenTypes.{HasFewParts, constructor_written, constructor_list, named_written, named_at};

use crate::WriteFault;
use crate::bytes::ObjectBytes;
use crate::numbering::Numbering;
use core_terms::{Constructor, NamedId, NamedType, TyForm, TyId, Types};

/// Writes the named types.
pub(crate) fn put_named_types(
    object: &mut ObjectBytes,
    numbering: &Numbering,
    types: &Types,
) -> Result<(), WriteFault>
    requires numbering { IsNumbering types.now numbering.now }
    requires few { All HasFewParts (named_table types.now) }
    ensures { Adds (written_so_far object.old) (bytes_of_all type_bytes (map (type_written (listed types.now numbering.now) (named_table types.now) (all_constructor_names types.now.named.items)) (named_from 0 (named_table types.now)))) (written_so_far object.new) result }
{
    for declared in types.named_types() {
        put_named(object, numbering, types, declared)?;
    }
    Ok(())
}

/// Writes the types behind the named ones.
pub(crate) fn put_other_types(
    object: &mut ObjectBytes,
    numbering: &Numbering,
    types: &Types,
) -> Result<(), WriteFault>
    requires numbering { IsNumbering types.now numbering.now }
    requires few { All HasFewParts (named_table types.now) }
    ensures { Adds (written_so_far object.old) (bytes_of_all type_bytes (map (type_written (listed types.now numbering.now) (named_table types.now) (all_constructor_names types.now.named.items)) (types_at (types_by_number types.now) numbering.now.order.items))) (written_so_far object.new) result }
{
    for ty in numbering.order() {
        put_type(object, numbering, types, *ty)?;
    }
    Ok(())
}

/// Writes the numbers of types.
pub(crate) fn put_numbers(
    object: &mut ObjectBytes,
    numbering: &Numbering,
    types: &Types,
    listing: &[TyId],
) -> Result<(), WriteFault>
    requires numbering { IsNumbering types.now numbering.now }
    ensures { Adds (written_so_far object.old) (words (map (number_in (listed types.now numbering.now)) (types_at (types_by_number types.now) listing.now))) (written_so_far object.new) result }
{
    for ty in listing {
        object.put_word(numbering.number(types, *ty))?;
    }
    Ok(())
}

/// Writes a type. No program of the first format has arrays.
fn put_type(
    object: &mut ObjectBytes,
    numbering: &Numbering,
    types: &Types,
    ty: TyId,
) -> Result<(), WriteFault>
    requires numbering { IsNumbering types.now numbering.now }
    requires few { All HasFewParts (named_table types.now) }
    ensures { Adds (written_so_far object.old) (type_bytes (type_written (listed types.now numbering.now) (named_table types.now) (all_constructor_names types.now.named.items) (type_at (types_by_number types.now) ty))) (written_so_far object.new) result }
{
    match types.form(ty) {
        TyForm::UnitForm => object.put(&[0]),
        TyForm::BoolForm => object.put(&[1]),
        TyForm::IntForm => object.put(&[2]),
        TyForm::TextForm => object.put(&[3]),
        TyForm::PairForm(first, second) => {
            object.put_tagged(4, numbering.number(types, first))?;
            object.put_word(numbering.number(types, second))
        }
        TyForm::NamedForm(named) => put_named_at(object, numbering, types, named),
        TyForm::AuthForm(inner) => object.put_tagged(6, numbering.number(types, inner)),
        TyForm::VecForm(_, _) => object.put(&[0]),
    }
}

/// Writes the named type with a number, which has no constructors where there is none.
fn put_named_at(
    object: &mut ObjectBytes,
    numbering: &Numbering,
    types: &Types,
    named: NamedId,
) -> Result<(), WriteFault>
    requires numbering { IsNumbering types.now numbering.now }
    requires few { All HasFewParts (named_table types.now) }
    ensures { Adds (written_so_far object.old) (type_bytes (named_at (listed types.now numbering.now) types.now named.0)) (written_so_far object.new) result }
{
    match named_type(types, named) {
        Some(declared) => put_named(object, numbering, types, declared),
        None => object.put(&[5, 0]),
    }
}

/// The named type with a number.
fn named_type(types: &Types, named: NamedId) -> Option<&NamedType>
    ensures { option_map (λ declared. declared.now) result ≡ slice_get types.now.named.items named.0 }
{
    types.named_types().get(named.0)
}

/// Writes a named type.
fn put_named(
    object: &mut ObjectBytes,
    numbering: &Numbering,
    types: &Types,
    declared: &NamedType,
) -> Result<(), WriteFault>
    requires numbering { IsNumbering types.now numbering.now }
    requires few { HasFewParts (map (λ c. types_at (types_by_number types.now) c.fields.items) declared.now.constructors.items) }
    ensures { Adds (written_so_far object.old) (type_bytes (named_written (listed types.now numbering.now) (types_by_number types.now) declared.now)) (written_so_far object.new) result }
{
    object.put(&[5, declared.constructors.len() as u8])?;
    put_constructors(object, numbering, types, &declared.constructors)
}

/// Writes constructors.
fn put_constructors(
    object: &mut ObjectBytes,
    numbering: &Numbering,
    types: &Types,
    constructors: &[Constructor],
) -> Result<(), WriteFault>
    requires numbering { IsNumbering types.now numbering.now }
    requires few { All (λ fields. length fields ≤ most_fields) (map (λ c. types_at (types_by_number types.now) c.fields.items) constructors.now) }
    ensures { Adds (written_so_far object.old) (bytes_of_all constructor_bytes (constructor_list (listed types.now numbering.now) (types_by_number types.now) constructors.now)) (written_so_far object.new) result }
{
    for constructor in constructors {
        put_constructor(object, numbering, types, constructor)?;
    }
    Ok(())
}

/// Writes a constructor.
fn put_constructor(
    object: &mut ObjectBytes,
    numbering: &Numbering,
    types: &Types,
    constructor: &Constructor,
) -> Result<(), WriteFault>
    requires numbering { IsNumbering types.now numbering.now }
    requires few { length (types_at (types_by_number types.now) constructor.now.fields.items) ≤ most_fields }
    ensures { Adds (written_so_far object.old) (constructor_bytes (constructor_written (listed types.now numbering.now) (types_by_number types.now) constructor.now)) (written_so_far object.new) result }
{
    object.put_name(&constructor.name)?;
    object.put(&[constructor.fields.len() as u8])?;
    put_numbers(object, numbering, types, &constructor.fields)
}
