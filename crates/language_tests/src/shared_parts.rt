// Printed values of types that share their parts, as those of an object may: each is a pair, or an array, of the one before it. They are
// spelled by nothing, and their texts grow with each level.
use core_terms::{Format, Program, TyForm, TyId, TyTable};
use printed_syntax::printing::print_value;
use std::alloc::{AllocError, Global};
use std::test::Fail;
use term_stage::parts::program_of;
use term_stage::tables::may_stand;

/// How many levels stand above unit.
const LEVELS: usize = 600;

/// The first level whose pairs have a text of more than 4,294,967,296 bytes: 6 * 2^30 - 4.
const TOO_LONG: usize = 30;

/// A program whose types are unit, and arrays or pairs, each of the one before it.
fn level_program(alloc: Global, are_arrays: bool) -> Result<Box<Program>, AllocError> {
    let mut types = Box::new(alloc, TyTable::new(Format::Second, alloc))?;
    let mut last = types.intern(TyForm::UnitForm)?;
    for _level in 0..LEVELS {
        let next = if are_arrays {
            TyForm::VecForm(3, last)
        } else {
            TyForm::PairForm(last, last)
        };
        if !may_stand(&types, next) {
            return Err(AllocError);
        }
        last = types.intern(next)?;
    }
    program_of(
        Box::into_inner(types),
        Vec::new(alloc),
        TyId(0),
        Vec::new(alloc),
        alloc,
    )
}

/// Whether the value at a level is printed so.
fn is_printed(alloc: Global, program: &Program, level: usize, text: &[u8]) -> bool {
    match print_value(alloc, program, TyId(level), b"") {
        Ok(printed) => printed.as_slice() == text,
        Err(_) => false,
    }
}

/// The number of bytes of the text of the value at a level; none where it is refused.
fn printed_length(alloc: Global, program: &Program, level: usize) -> Option<usize> {
    match print_value(alloc, program, TyId(level), b"") {
        Ok(printed) => Some(printed.len()),
        Err(_) => None,
    }
}

/// Whether the value of pairs at ten levels has a text of its length.
fn are_ten_printed(alloc: Global) -> Result<bool, AllocError> {
    let pairs = level_program(alloc, false)?;
    Ok(printed_length(alloc, &pairs, 10) == Some(6_140))
}

/// Whether the value at a level of pairs or of arrays is printed so.
fn is_short_printed(
    alloc: Global,
    are_arrays: bool,
    level: usize,
    text: &[u8],
) -> Result<bool, AllocError> {
    let program = level_program(alloc, are_arrays)?;
    Ok(is_printed(alloc, &program, level, text))
}

#[test]
fn short_texts_are_printed(rt: HostRuntime) -> Result<(), Fail> {
    let three = b"((((), ()), ((), ())), (((), ()), ((), ())))";
    let two = b"[[(), (), ()], [(), (), ()], [(), (), ()]]";
    if !is_short_printed(rt.alloc(), false, 3, three)?
        || !is_short_printed(rt.alloc(), true, 2, two)?
    {
        return Err(Fail::new("short"));
    }
    if !are_ten_printed(rt.alloc())? {
        return Err(Fail::new("ten levels"));
    }
    Ok(())
}

/// The first of the high levels whose value is printed; none where each is refused.
fn printed_level(alloc: Global, are_arrays: bool) -> Result<Option<usize>, AllocError> {
    let program = level_program(alloc, are_arrays)?;
    for level in [TOO_LONG, 40, 64, 512, LEVELS] {
        if printed_length(alloc, &program, level).is_some() {
            return Ok(Some(level));
        }
    }
    Ok(None)
}

/// Each text here would have more than 2^32 bytes, and most more than a memory could ever hold.
#[test]
fn long_texts_are_refused_at_once(rt: HostRuntime) -> Result<(), Fail> {
    if let Some(level) = printed_level(rt.alloc(), false)? {
        return Err(Fail::new(format_args!("pairs at {level}")));
    }
    if let Some(level) = printed_level(rt.alloc(), true)? {
        return Err(Fail::new(format_args!("arrays at {level}")));
    }
    Ok(())
}
