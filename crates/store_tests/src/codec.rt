// Bytes that are read into a store and spelled as they were, and the offset of the first fault of the others.
ghost use Rattle.std.specs.Prelude.{◌<◌, length, IfOk};
ghost use Rattle.core_terms.specs.Programs.{types_in};

use crate::spelled::of_types;
use crate::stage::program_of;
use core_terms::{Format, Program, TyForm, TyId, TyTable};
use shallow_codec::{UnspellFault, spell, unspell};
use std::alloc::{AllocError, Global};
use std::test::Fail;
use value_store::{Nodes, Store};

/// The offset at which the bytes are refused, where the store is as before; none where they are read, and spelled as they are.
///
/// # Errors
///
/// `AllocError` where memory runs out, or where they are spelled otherwise or the store is another one.
pub fn refused_at(
    alloc: Global,
    program: &Program,
    bytes: &[u8],
    ty: TyId,
) -> Result<Option<u32>, AllocError> {
    let types = program.types();
    let mut store = Store::new(alloc, types.spelling_limit() as u32);
    store.put_bool(true)?;
    let mark = store.mark();
    match unspell(alloc, types, &mut store, bytes, ty) {
        Ok(read) if spell(alloc, types, &store, read, ty)?.as_bytes() == bytes => Ok(None),
        Err(UnspellFault::Bad(offset)) if store.mark() == mark => Ok(Some(offset)),
        _ => Err(AllocError),
    }
}

/// The program of a state that has a value of a type that is a part of itself, and parts of every kind.
const KINDS: &[u8] =
    b"type chain = Stop | More(chain); state (bool, (int, (text, (auth bool, chain))));";

/// The spelling of `(true, (1, ("a", (digest, More(Stop)))))`.
const SPELLING: [u8; 48] = [
    1, 0, 0, 0, 0, 0, 0, 0, 1, 0, 0, 0, 1, 0x61, 7, 7, 7, 7, 7, 7, 7, 7, 7, 7, 7, 7, 7, 7, 7, 7, 7,
    7, 7, 7, 7, 7, 7, 7, 7, 7, 7, 7, 7, 7, 7, 7, 1, 0,
];

/// A place of it, the byte that stands there or else its end, and the offset at which this is refused.
const FAULTS: [(usize, Option<u8>, Option<u32>); 15] = [
    (0, Some(2), Some(0)),
    (9, Some(1), Some(9)),
    (13, Some(0xff), Some(9)),
    (46, Some(2), Some(46)),
    (46, Some(0), Some(47)),
    (47, Some(3), Some(47)),
    (47, Some(0), None),
    (0, None, Some(0)),
    (1, None, Some(1)),
    (8, None, Some(1)),
    (12, None, Some(9)),
    (13, None, Some(9)),
    (45, None, Some(14)),
    (46, None, Some(46)),
    (47, None, Some(47)),
];

/// The spelling with this byte at a place, or cut there.
fn changed(alloc: Global, place: usize, byte: Option<u8>) -> Result<Vec<u8>, AllocError> {
    let mut bytes = Vec::from_slice(alloc, &SPELLING)?;
    match byte {
        Some(byte) => {
            if let Some(there) = bytes.get_mut(place) {
                *there = byte;
            }
        }
        None => bytes.truncate(place),
    }
    Ok(bytes)
}

#[test]
fn parts_of_every_kind_are_read(rt: HostRuntime) -> Result<(), Fail> {
    let alloc = rt.alloc();
    let program = program_of(alloc, KINDS)?;
    for (place, byte, offset) in FAULTS {
        let bytes = changed(alloc, place, byte)?;
        if refused_at(alloc, &program, &bytes, program.state_type())? != offset {
            return Err(Fail::new(format_args!("{byte:?} at {place}")));
        }
    }
    Ok(())
}

/// A program of chains.
const CHAINS: &[u8] = b"type chain = Stop | More(chain); state chain;";

/// A program of an int and a text.
const PAIR: &[u8] = b"state (int, text);";

/// The spelling of `(-1, "é")`, and that with one byte more.
const MINUS_ONE: &[u8] = b"\xff\xff\xff\xff\xff\xff\xff\xff\0\0\0\x02\xc3\xa9";

/// The text of a program, the first bytes of a spelling, how often which byte stands behind them, the last ones, and the offset at which
/// this is refused. A value has at most 512 levels, a spelling at most 65,536 bytes.
static ROWS: [(&[u8], &[u8], (usize, u8), &[u8], Option<u32>); 12] = [
    (CHAINS, b"", (511, 1), b"\0", None),
    (CHAINS, b"", (511, 1), b"\x02", Some(511)),
    (CHAINS, b"", (512, 1), b"\0", Some(512)),
    (PAIR, MINUS_ONE, (0, 0), b"", None),
    (PAIR, MINUS_ONE, (0, 0), b"\0", Some(14)),
    (
        PAIR,
        b"\xff\xff\xff\xff\xff\xff\xff\xff\0\0\0\x02\xc3",
        (0, 0),
        b"",
        Some(8),
    ),
    (PAIR, b"", (7, 0xff), b"", Some(0)),
    (b"state text;", b"\0\0\xff\xfc", (65_532, b' '), b"", None),
    (
        b"state text;",
        b"\0\0\xff\xfc",
        (65_532, b' '),
        b"\0",
        Some(65_536),
    ),
    (
        b"state text;",
        b"\0\0\xff\xfc",
        (65_532, b' '),
        b"\0\0",
        Some(65_536),
    ),
    (b"state auth int;", b"", (32, 9), b"", None),
    (b"state auth int;", b"", (31, 9), b"", Some(0)),
];

/// These bytes, one many times, and others.
fn repeated(
    alloc: Global,
    first: &[u8],
    count: usize,
    byte: u8,
    last: &[u8],
) -> Result<Vec<u8>, AllocError> {
    let mut bytes = Vec::from_slice(alloc, first)?;
    for _ in 0..count {
        bytes.push(byte)?;
    }
    bytes.extend_from_slice(last)?;
    Ok(bytes)
}

#[test]
fn spellings_are_read(rt: HostRuntime) -> Result<(), Fail> {
    let alloc = rt.alloc();
    for (number, (text, first, (count, byte), last, offset)) in ROWS.iter().enumerate() {
        let program = program_of(alloc, text)?;
        let bytes = repeated(alloc, first, *count, *byte, last)?;
        if refused_at(alloc, &program, &bytes, program.state_type())? != *offset {
            return Err(Fail::new(format_args!("row {number}")));
        }
    }
    Ok(())
}

/// Adds pairs of a type with itself, each of the one before, so many times.
fn nested_pairs(types: &mut TyTable, inner: TyId, levels: usize) -> Result<TyId, AllocError>
    requires { inner.0 < length (types_in types.old) }
    ensures { IfOk result (λ ty. ty.0 < length (types_in types.new)) }
{
    let mut ty = inner;
    for _level in 0..levels {
        ty = types.intern(TyForm::PairForm(ty, ty))?;
    }
    Ok(ty)
}

/// A program, and one of its types: units in pairs of so many levels. Its state is a unit, since a type that is written has at most 100
/// levels.
fn many_units(alloc: Global, levels: usize) -> Result<(Program, TyId), AllocError> {
    let mut types = TyTable::new(Format::First, alloc);
    let unit = types.intern(TyForm::UnitForm)?;
    let long = nested_pairs(&mut types, unit, levels)?;
    let state = types.intern(TyForm::UnitForm)?;
    Ok((of_types(alloc, types, state)?, long))
}

/// The levels of pairs around a unit, bytes, and the offset at which they are refused. Such values are spelled by nothing: they are read
/// by their type, however many units there are.
static UNITS: [(usize, &[u8], Option<u32>); 4] = [
    (90, b"", None),
    (90, b"\0", Some(0)),
    (511, b"", None),
    (512, b"", Some(0)),
];

#[test]
fn units_are_read_by_their_type(rt: HostRuntime) -> Result<(), Fail> {
    for (number, (levels, bytes, offset)) in UNITS.iter().enumerate() {
        let (program, long) = many_units(rt.alloc(), *levels)?;
        if refused_at(rt.alloc(), &program, bytes, long)? != *offset {
            return Err(Fail::new(format_args!("row {number}")));
        }
    }
    Ok(())
}
