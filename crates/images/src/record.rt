// The records of an image, read from their bytes.
ghost use Rattle.std.specs.Prelude.{ℕ, IfOk, if◌then◌else◌};
ghost use Rattle.core_terms.specs.ProgramTypes.{types_meaning};
ghost use Rattle.core_terms.specs.declared.program_types.Types as code;
ghost use Rattle.images.specs.Images.{field_count};
ghost use Rattle.images.specs.Records as meant;
ghost use Rattle.images.specs.PartMarks.{IsMarksOf};
ghost use Rattle.images.specs.ReadRecords.{AreFieldsOf, HasConstructor, IsRead};

use crate::parts::PartMarks;
use core_terms::{NamedId, Tag, TyForm, TyId, Types};
use std::str::from_utf8;

/// A record. A text is lent by the image.
#[derive(Clone, Copy)]
pub(crate) enum Record<'a> {
    Unit,
    Bool(bool),
    Int(i64),
    Text(&'a str),
    /// The numbers of the records of the two parts.
    Pair(u32, u32),
    Constructor(ConstructorRecord<'a>),
    /// The number of the record of what is authenticated.
    Auth(u32),
    /// The number of an array's elements, and the numbers of their records, 4 bytes for each.
    Items(u8, &'a [u8]),
}

/// The record of a constructor's value.
#[derive(Clone, Copy)]
pub(crate) struct ConstructorRecord<'a> {
    pub named: NamedId,
    pub tag: Tag,
    /// The types of the constructor's fields, lent by the program.
    pub fields: &'a [TyId],
    /// The numbers of the records of the fields, 4 bytes for each.
    pub numbers: &'a [u8],
}

/// The record that some bytes begin with, and the bytes behind it.
#[derive(Clone, Copy)]
pub(crate) struct Front<'a> {
    pub record: Record<'a>,
    pub rest: &'a [u8],
}

/// Why no record stands at the front of some bytes.
#[derive(Clone, Copy)]
pub(crate) enum RecordFault {
    /// The bytes end inside it.
    Cut,
    /// Its kind, a byte of a bool or a text is not allowed, or it is of no constructor of a part of the state.
    Bad,
}

/// The record that the bytes begin with. It may be one of an array where `arrays` says so.
// As `next_front`, which calls it.
#[inline(always)]
pub(crate) fn read_record<'a>(
    types: &'a Types,
    parts: &PartMarks,
    arrays: bool,
    bytes: &'a [u8],
) -> Result<Front<'a>, RecordFault>
    requires parts { IsMarksOf types.now parts.now }
    ensures read { (size : ℕ) → IsRead (meant.read_record arrays (field_count (types_meaning types.now) size) bytes.now) result }
    ensures constructor { IfOk result (λ front. HasConstructor types.now front.record) }
{
    let Some((kind, rest)) = bytes.split_first() else {
        return Err(RecordFault::Cut);
    };
    match *kind {
        0 => Ok(Front {
            record: Record::Unit,
            rest,
        }),
        1 => read_bool(rest),
        2 => read_int(rest),
        3 => read_text(rest),
        4 => read_pair(rest),
        5 => read_constructor(types, parts, rest),
        6 => read_auth(rest),
        7 => read_items(arrays, rest),
        _ => Err(RecordFault::Bad),
    }
}

/// A bool: a byte 0 or 1.
fn read_bool(bytes: &[u8]) -> Result<Front<'_>, RecordFault>
    ensures read { IsRead (meant.bool_record bytes.now) result }
    ensures constructor { (types : code.Types) → IfOk result (λ front. HasConstructor types front.record) }
{
    let Some((byte, rest)) = bytes.split_first() else {
        return Err(RecordFault::Cut);
    };
    match *byte {
        0 => Ok(Front {
            record: Record::Bool(false),
            rest,
        }),
        1 => Ok(Front {
            record: Record::Bool(true),
            rest,
        }),
        _ => Err(RecordFault::Bad),
    }
}

/// An int: 8 bytes of two's complement.
fn read_int(bytes: &[u8]) -> Result<Front<'_>, RecordFault>
    ensures read { IsRead (meant.int_record bytes.now) result }
    ensures constructor { (types : code.Types) → IfOk result (λ front. HasConstructor types front.record) }
{
    let Some((number, rest)) = bytes.split_first_chunk::<8>() else {
        return Err(RecordFault::Cut);
    };
    Ok(Front {
        record: Record::Int(i64::from_be_bytes(*number)),
        rest,
    })
}

/// A text: its length in 4 bytes, and that many bytes of UTF-8.
fn read_text(bytes: &[u8]) -> Result<Front<'_>, RecordFault>
    ensures read { IsRead (meant.text_record bytes.now) result }
    ensures constructor { (types : code.Types) → IfOk result (λ front. HasConstructor types front.record) }
{
    let Some((len, behind)) = bytes.split_first_chunk::<4>() else {
        return Err(RecordFault::Cut);
    };
    let Some((text, rest)) = behind.split_at_checked(u32::from_be_bytes(*len) as usize) else {
        return Err(RecordFault::Cut);
    };
    match from_utf8(text) {
        Ok(text) => Ok(Front {
            record: Record::Text(text),
            rest,
        }),
        Err(_) => Err(RecordFault::Bad),
    }
}

/// A pair: the numbers of two records, of 4 bytes each.
fn read_pair(bytes: &[u8]) -> Result<Front<'_>, RecordFault>
    ensures read { IsRead (meant.pair_record bytes.now) result }
    ensures constructor { (types : code.Types) → IfOk result (λ front. HasConstructor types front.record) }
{
    let Some((first, behind)) = bytes.split_first_chunk::<4>() else {
        return Err(RecordFault::Cut);
    };
    let Some((second, rest)) = behind.split_first_chunk::<4>() else {
        return Err(RecordFault::Cut);
    };
    Ok(Front {
        record: Record::Pair(u32::from_be_bytes(*first), u32::from_be_bytes(*second)),
        rest,
    })
}

/// A constructor's value: the number of its type in 2 bytes, its tag, and 4 bytes for each of its fields.
fn read_constructor<'a>(
    types: &'a Types,
    parts: &PartMarks,
    bytes: &'a [u8],
) -> Result<Front<'a>, RecordFault>
    requires parts { IsMarksOf types.now parts.now }
    ensures read { (size : ℕ) → IsRead (meant.con_record (field_count (types_meaning types.now) size) bytes.now) result }
    ensures constructor { IfOk result (λ front. HasConstructor types.now front.record) }
{
    let Some((number, behind)) = bytes.split_first_chunk::<2>() else {
        return Err(RecordFault::Cut);
    };
    let Some((tag, behind)) = behind.split_first() else {
        return Err(RecordFault::Cut);
    };
    let named = NamedId(u16::from_be_bytes(*number) as usize);
    let tag = Tag(*tag);
    let Some(fields) = fields_of(types, parts, named, tag) else {
        return Err(RecordFault::Bad);
    };
    let Some((numbers, rest)) = behind.split_at_checked(4 * fields.len()) else {
        return Err(RecordFault::Cut);
    };
    Ok(Front {
        record: Record::Constructor(ConstructorRecord {
            named,
            tag,
            fields,
            numbers,
        }),
        rest,
    })
}

/// The types of the fields of a constructor whose type is a part of the state's; none where there is no such one.
fn fields_of<'a>(
    types: &'a Types,
    parts: &PartMarks,
    named: NamedId,
    tag: Tag,
) -> Option<&'a [TyId]>
    requires parts { IsMarksOf types.now parts.now }
    ensures fields { AreFieldsOf types.now named.0 tag.0 result }
{
    parts.part_of(types, TyForm::NamedForm(named))?;
    let declared = types.named_types().get(named.0)?;
    let constructor = declared.constructors.get(tag.0 as usize)?;
    Some(&constructor.fields)
}

/// An authenticated value: the number of a record, of 4 bytes.
fn read_auth(bytes: &[u8]) -> Result<Front<'_>, RecordFault>
    ensures read { IsRead (meant.auth_record bytes.now) result }
    ensures constructor { (types : code.Types) → IfOk result (λ front. HasConstructor types front.record) }
{
    let Some((inner, rest)) = bytes.split_first_chunk::<4>() else {
        return Err(RecordFault::Cut);
    };
    Ok(Front {
        record: Record::Auth(u32::from_be_bytes(*inner)),
        rest,
    })
}

/// An array, where there may be one: the number of its elements in a byte, and the number of a record, of 4 bytes, for each.
// It answers through memory where it is called, and with it all other kinds of record.
#[inline(always)]
fn read_items(arrays: bool, bytes: &[u8]) -> Result<Front<'_>, RecordFault>
    ensures read { IsRead (if arrays then meant.vec_record bytes.now else meant.NoRecord) result }
    ensures constructor { (types : code.Types) → IfOk result (λ front. HasConstructor types front.record) }
{
    if !arrays {
        return Err(RecordFault::Bad);
    }
    let Some((count, behind)) = bytes.split_first() else {
        return Err(RecordFault::Cut);
    };
    let Some((numbers, rest)) = behind.split_at_checked(4 * usize::from(*count)) else {
        return Err(RecordFault::Cut);
    };
    Ok(Front {
        record: Record::Items(*count, numbers),
        rest,
    })
}
