// Verdicts on calls, over sources that give a few bytes a read, and over sources without an end.
ghost use Rattle.std.specs.Prelude.{◌<◌, ◌≤◌};

use call_stage::calls::{code_of, reading};
use code_gen::Code;
use core_terms::{Cause, Digest, Hash32, Outcome, Spelling, Trap};
use digest_layer::Sha;
use lam_outside::{Bytes, Endless, MemLink};
use proof_stream::{put_new, put_use};
use reuse_buffer::Ring;
use std::alloc::{AllocError, Global};
use std::test::Fail;
use verifier_mode::{Verdict, verify, verify_on};

/// The digest of no bytes.
const H0: [u8; 32] = [
    0xe3, 0xb0, 0xc4, 0x42, 0x98, 0xfc, 0x1c, 0x14, 0x9a, 0xfb, 0xf4, 0xc8, 0x99, 0x6f, 0xb9, 0x24,
    0x27, 0xae, 0x41, 0xe4, 0x64, 0x9b, 0x93, 0x4c, 0xa4, 0x95, 0x99, 0x1b, 0x78, 0x52, 0xb8, 0x55,
];
/// The digest of the byte 0.
const HF: [u8; 32] = [
    0x6e, 0x34, 0x0b, 0x9c, 0xff, 0xb3, 0x7a, 0x98, 0x9c, 0xa5, 0x44, 0xe6, 0xbb, 0x78, 0x0a, 0x2c,
    0x78, 0x90, 0x1d, 0x3f, 0xb3, 0x37, 0x38, 0x76, 0x85, 0x11, 0xa3, 0x06, 0x17, 0xaf, 0xa0, 0x1d,
];
/// The digest of the byte 1.
const HT: [u8; 32] = [
    0x4b, 0xf5, 0x12, 0x2f, 0x34, 0x45, 0x54, 0xc5, 0x3b, 0xde, 0x2e, 0xbb, 0x8c, 0xd2, 0xb7, 0xe3,
    0xd1, 0x60, 0x0a, 0xd6, 0x31, 0xc3, 0x85, 0xa5, 0xd7, 0xcc, 0xe2, 0x3c, 0x77, 0x85, 0x45, 0x9a,
];

const UNIT: &[u8] =
    b"state auth unit; init make(x: unit): auth unit = auth(x); query open(s: auth unit, x: unit): unit = unauth(s);";

const BOOL: &[u8] =
    b"state auth bool; query both(s: auth bool, x: unit): (bool, bool) = (unauth(s), unauth(s)); update flip(s: auth bool, x: unit): (auth bool, bool) = let b = unauth(s) in (auth(not(b)), b); query over(s: auth bool, x: unit): int = let b = unauth(s) in add(9223372036854775807, 1); fun spin(s: auth bool, n: int): int = if le(n, 0) then 0 else let b = unauth(s) in spin(s, sub(n, 1)); query many(s: auth bool, n: int): int = spin(s, n);";

const PAIR: &[u8] =
    b"state (auth bool, auth bool); query three(s: (auth bool, auth bool), x: unit): (bool, (bool, bool)) = (unauth(fst(s)), (unauth(snd(s)), unauth(fst(s)))); query again(s: (auth bool, auth bool), x: unit): (bool, (bool, (bool, (bool, bool)))) = (unauth(fst(s)), (unauth(fst(s)), (unauth(fst(s)), (unauth(snd(s)), unauth(fst(s))))));";

const TEXT: &[u8] = b"state auth text; query size(s: auth text, x: unit): int = len(unauth(s));";

/// What a verifier tells.
#[derive(Clone, Copy)]
enum Told {
    Done(&'static [u8]),
    Overflow,
    Out,
    Rejected(Cause),
    BadState(u32),
    BadArgument(u32),
}

impl Told {
    /// Whether it is this.
    fn is(&self, answer: &Result<Outcome<Spelling>, Verdict>) -> bool {
        match (self, answer) {
            (Told::Done(bytes), Ok(Outcome::Done(value))) => value.as_bytes() == *bytes,
            (Told::Overflow, Ok(Outcome::Trapped(Trap::Overflow))) => true,
            (Told::Out, Ok(Outcome::Out)) => true,
            (Told::Rejected(want), Err(Verdict::Rejected(cause))) => cause == want,
            (Told::BadState(want), Err(Verdict::BadState(offset))) => offset == want,
            (Told::BadArgument(want), Err(Verdict::BadArgument(offset))) => offset == want,
            _ => false,
        }
    }
}

/// A role, the fuel, the bytes of a proof, and what is told of the call.
type Row = (&'static str, u64, &'static [u8], Told);

/// Of the state `#` and H0.
const UNITS: [Row; 13] = [
    ("open", 1, b"LAP1\0\0\0\0\0\0\0", Told::Done(b"")),
    ("open", 1, b"LAP1\0\0", Told::Rejected(Cause::Short(0))),
    ("open", 1, b"LAP1\0", Told::Rejected(Cause::Header)),
    (
        "open",
        1,
        b"LAP1\x04\x01\0\0\0\0\0",
        Told::Rejected(Cause::Header),
    ),
    ("open", 1, b"LAP1\x04\0\0\0\0\0\0", Told::Done(b"")),
    ("open", 1, b"LAP1\0\0\0\0\0", Told::Rejected(Cause::Cut(0))),
    (
        "open",
        1,
        b"LAP1\0\0\0\0\0\0\x01\0",
        Told::Rejected(Cause::WrongPiece(0, Digest(H0), Digest(HF))),
    ),
    (
        "open",
        1,
        b"LAP1\0\0\0\0\0\0\0\0",
        Told::Rejected(Cause::Leftover(1)),
    ),
    (
        "open",
        1,
        b"LAP1\0\0\x07",
        Told::Rejected(Cause::BadKind(0, 7)),
    ),
    (
        "open",
        1,
        b"LAP1\0\0\x01\0\0",
        Told::Rejected(Cause::BadUse(0, 0, 0)),
    ),
    (
        "open",
        1,
        b"LAP1\0\0\0\0\x01\0\x01",
        Told::Rejected(Cause::PieceLong(0, 65_537)),
    ),
    ("open", 0, b"LAP1\0\0", Told::Out),
    (
        "open",
        0,
        b"LAP1\0\0\0\0\0\0\0",
        Told::Rejected(Cause::Leftover(5)),
    ),
];

/// Of the state `#` and HT.
const BOOLS: [Row; 8] = [
    (
        "both",
        1,
        b"LAP1\0\x01\0\0\0\0\x01\x01\x01\0\0",
        Told::Done(b"\x01\x01"),
    ),
    (
        "both",
        1,
        b"LAP1\0\0\0\0\0\0\x01\x01\0\0\0\0\x01\x01",
        Told::Done(b"\x01\x01"),
    ),
    (
        "both",
        1,
        b"LAP1\0\x01\0\0\0\0\x01\x01\x01\0\x01",
        Told::Rejected(Cause::BadUse(1, 1, 1)),
    ),
    (
        "both",
        1,
        b"LAP1\0\0\0\0\0\0\x01\x01\x01\0\0",
        Told::Rejected(Cause::BadUse(1, 0, 0)),
    ),
    (
        "flip",
        1,
        b"LAP1\0\0\0\0\0\0\x01\x01",
        Told::Done(
            b"\x6e\x34\x0b\x9c\xff\xb3\x7a\x98\x9c\xa5\x44\xe6\xbb\x78\x0a\x2c\x78\x90\x1d\x3f\xb3\x37\x38\x76\x85\x11\xa3\x06\x17\xaf\xa0\x1d\x01",
        ),
    ),
    ("over", 1, b"LAP1\0\0\0\0\0\0\x01\x01", Told::Overflow),
    ("over", 1, b"LAP1\0\0", Told::Rejected(Cause::Short(0))),
    (
        "over",
        1,
        b"LAP1\0\0\0\0\0\0\x01\0",
        Told::Rejected(Cause::WrongPiece(0, Digest(HT), Digest(HF))),
    ),
];

/// Of the state `#` and HT, `#` and HF: a kept piece stays where it is when it is used.
const PAIRS: [Row; 5] = [
    (
        "three",
        1,
        b"LAP1\0\x01\0\0\0\0\x01\x01\0\0\0\0\x01\0\0\0\0\0\x01\x01",
        Told::Done(b"\x01\0\x01"),
    ),
    (
        "three",
        1,
        b"LAP1\0\x02\0\0\0\0\x01\x01\0\0\0\0\x01\0\x01\0\x01",
        Told::Done(b"\x01\0\x01"),
    ),
    (
        "three",
        1,
        b"LAP1\0\x01\0\0\0\0\x01\x01\0\0\0\0\x01\0\x01\0\x01",
        Told::Rejected(Cause::BadUse(2, 1, 1)),
    ),
    (
        "again",
        1,
        b"LAP1\0\x02\0\0\0\0\x01\x01\x01\0\0\x01\0\0\0\0\0\0\x01\0\x01\0\x01",
        Told::Done(b"\x01\x01\x01\0\x01"),
    ),
    (
        "again",
        1,
        b"LAP1\0\x02\0\0\0\0\x01\x01\x01\0\0\x01\0\0\0\0\0\0\x01\0\x01\0\0",
        Told::Rejected(Cause::WrongPiece(4, Digest(HT), Digest(HF))),
    ),
];

/// What is told of a call with the argument `()`.
fn judged(
    alloc: Global,
    code: &Code,
    row: Row,
    state: &[u8],
    most: usize,
) -> Result<Result<Outcome<Spelling>, Verdict>, AllocError>
    requires { 0 < most }
{
    let (role, fuel, proof, _) = row;
    let Some(role) = reading(code.program(), role) else {
        return Err(AllocError);
    };
    let mut source = MemLink::from_bytes(alloc, proof, most, &[])?;
    Ok(verify::<Sha, MemLink>(alloc, code, role, state, b"", fuel.min(100), &mut source))
}

/// The number of the first row that is told otherwise, by so many bytes a read.
fn misjudged(
    alloc: Global,
    text: &[u8],
    state: &[u8],
    rows: &[Row],
    most: usize,
) -> Result<Option<usize>, AllocError>
    requires { 0 < most }
{
    let code = code_of(alloc, text, Digest(H0))?;
    for (number, row) in rows.iter().enumerate() {
        let answer = judged(alloc, &code, *row, state, most)?;
        if !row.3.is(&answer) {
            return Ok(Some(number));
        }
    }
    Ok(None)
}

/// The number of the first row of `PAIR` that is told otherwise, by so many bytes a read.
fn misjudged_pair(alloc: Global, most: usize) -> Result<Option<usize>, AllocError>
    requires { 0 < most }
{
    let mut both = Vec::from_slice(alloc, &HT)?;
    both.extend_from_slice(&HF)?;
    misjudged(alloc, PAIR, &both, &PAIRS, most)
}

/// For each of the programs, the number of the first row that is told otherwise, by so many bytes a read.
fn all_misjudged(alloc: Global, most: usize) -> Result<[Option<usize>; 3], AllocError>
    requires { 0 < most }
{
    let unit = misjudged(alloc, UNIT, &H0, &UNITS, most)?;
    let bool = misjudged(alloc, BOOL, &HT, &BOOLS, most)?;
    let pair = misjudged_pair(alloc, most)?;
    Ok([unit, bool, pair])
}

#[test]
fn each_row_is_judged(rt: HostRuntime) -> Result<(), Fail> {
    for most in [1, 2, 3, 7] {
        let rows = all_misjudged(rt.alloc(), most)?;
        if rows != [None; 3] {
            return Err(Fail::new(format_args!("{rows:?} by {most}")));
        }
    }
    Ok(())
}

/// The verdict on a call of `many` with so many openings, on these frames behind a header that asks for 1,024 pieces to be kept.
fn opened_many(
    alloc: Global,
    count: i64,
    news: usize,
    k: u16,
) -> Result<Result<Outcome<Spelling>, Verdict>, AllocError> {
    let code = code_of(alloc, BOOL, Digest(H0))?;
    let Some(role) = reading(code.program(), "many") else {
        return Err(AllocError);
    };
    let mut proof = Vec::from_slice(alloc, b"LAP1\x04\0")?;
    for _ in 0..news {
        put_new(&mut proof, b"\x01")?;
    }
    put_use(&mut proof, k)?;
    let mut source = Bytes::new(&proof);
    Ok(verify::<Sha, Bytes>(
        alloc,
        &code,
        role,
        &HT,
        &count.to_be_bytes(),
        5000,
        &mut source,
    ))
}

#[test]
fn the_oldest_of_1024_is_kept(rt: HostRuntime) -> Result<(), Fail> {
    let oldest = Told::Done(b"\0\0\0\0\0\0\0\0");
    if !oldest.is(&opened_many(rt.alloc(), 1026, 1025, 1023)?) {
        return Err(Fail::new("the oldest"));
    }
    let beyond = Told::Rejected(Cause::BadUse(1025, 1024, 1024));
    if !beyond.is(&opened_many(rt.alloc(), 1026, 1025, 1024)?) {
        return Err(Fail::new("beyond"));
    }
    Ok(())
}

/// The verdict on a call of `size`, where the state is the digest of a text of 65,532 bytes: its piece has 65,536.
fn sized(alloc: Global) -> Result<Result<Outcome<Spelling>, Verdict>, AllocError> {
    let code = code_of(alloc, TEXT, Digest(H0))?;
    let Some(role) = reading(code.program(), "size") else {
        return Err(AllocError);
    };
    let mut piece = Vec::from_slice(alloc, b"\0\0\xff\xfc")?;
    piece.extend_from_slice(&Vec::from_elem(alloc, b'a', 65_532)?)?;
    if piece.len() > 65_536 {
        return Err(AllocError);
    }
    let mut proof = Vec::from_slice(alloc, b"LAP1\0\0")?;
    put_new(&mut proof, &piece)?;
    let state = Sha::of(&piece);
    let mut source = Bytes::new(&proof);
    Ok(verify::<Sha, Bytes>(alloc, &code, role, &state.0, b"", 1, &mut source))
}

#[test]
fn the_longest_piece_is_taken(rt: HostRuntime) -> Result<(), Fail> {
    if !Told::Done(b"\0\0\0\0\0\0\xff\xfc").is(&sized(rt.alloc())?) {
        return Err(Fail::new("a piece of 65,536 bytes"));
    }
    Ok(())
}

/// The verdict on a call of `open` over a source without an end; with no header, where frames come alone.
fn endless(
    alloc: Global,
    round: &'static [u8],
    headed: bool,
) -> Result<Result<Outcome<Spelling>, Verdict>, AllocError> {
    let code = code_of(alloc, UNIT, Digest(H0))?;
    let Some(role) = reading(code.program(), "open") else {
        return Err(AllocError);
    };
    let mut source = Endless::new(round);
    if headed {
        return Ok(verify::<Sha, Endless>(alloc, &code, role, &H0, b"", 1, &mut source));
    }
    let ring = Ring::with_size(alloc, 0)?;
    match verify_on::<Sha, Endless>(alloc, &code, role, &H0, b"", 1, &mut source, ring) {
        Ok((outcome, _)) => Ok(Ok(outcome)),
        Err(verdict) => Ok(Err(verdict)),
    }
}

#[test]
fn sources_without_an_end_are_answered(rt: HostRuntime) -> Result<(), Fail> {
    let zeros = Told::Rejected(Cause::Header);
    if !zeros.is(&endless(rt.alloc(), b"\0", true)?) {
        return Err(Fail::new("zeros"));
    }
    let empty = Told::Rejected(Cause::Leftover(65_536));
    if !empty.is(&endless(rt.alloc(), b"\0\0\0\0\0", false)?) {
        return Err(Fail::new("empty pieces"));
    }
    let bytes = Told::Rejected(Cause::WrongPiece(0, Digest(H0), Digest(HF)));
    if !bytes.is(&endless(rt.alloc(), b"\0\0\0\0\x01\0", false)?) {
        return Err(Fail::new("pieces of a byte"));
    }
    Ok(())
}

/// The verdict on a call of `open` over no bytes at all, from these bytes of a state and an argument.
fn unproved(
    alloc: Global,
    state: &[u8],
    argument: &[u8],
) -> Result<Result<Outcome<Spelling>, Verdict>, AllocError> {
    let code = code_of(alloc, UNIT, Digest(H0))?;
    let Some(role) = reading(code.program(), "open") else {
        return Err(AllocError);
    };
    let mut source = Bytes::new(b"");
    Ok(verify::<Sha, Bytes>(alloc, &code, role, state, argument, 1, &mut source))
}

#[test]
fn the_state_and_the_argument_come_first(rt: HostRuntime) -> Result<(), Fail> {
    if !Told::BadState(0).is(&unproved(rt.alloc(), &[0; 31], b"\0")?) {
        return Err(Fail::new("a short state"));
    }
    if !Told::BadState(32).is(&unproved(rt.alloc(), &[0; 33], b"\0")?) {
        return Err(Fail::new("a long state"));
    }
    if !Told::BadArgument(0).is(&unproved(rt.alloc(), &H0, b"\0")?) {
        return Err(Fail::new("the argument"));
    }
    if !Told::Rejected(Cause::Header).is(&unproved(rt.alloc(), &H0, b"")?) {
        return Err(Fail::new("the proof"));
    }
    Ok(())
}

/// The verdict on a call of `both` that uses a piece twice, which another call on the same ring, of this size, brought.
fn following(alloc: Global, size: u16) -> Result<Result<Outcome<Spelling>, Verdict>, AllocError>
    requires { size ≤ 1024 }
{
    let code = code_of(alloc, BOOL, Digest(H0))?;
    let Some(role) = reading(code.program(), "both") else {
        return Err(AllocError);
    };
    let ring = Ring::with_size(alloc, size)?;
    let mut first = Bytes::new(b"\0\0\0\0\x01\x01\0\0\0\0\x01\x01");
    let ring = match verify_on::<Sha, Bytes>(alloc, &code, role, &HT, b"", 1, &mut first, ring) {
        Ok((_, ring)) => ring,
        Err(verdict) => return Ok(Err(verdict)),
    };
    let mut second = Bytes::new(b"\x01\0\0\x01\0\0");
    match verify_on::<Sha, Bytes>(alloc, &code, role, &HT, b"", 1, &mut second, ring) {
        Ok((outcome, _)) => Ok(Ok(outcome)),
        Err(verdict) => Ok(Err(verdict)),
    }
}

#[test]
fn the_ring_goes_on(rt: HostRuntime) -> Result<(), Fail> {
    if !Told::Done(b"\x01\x01").is(&following(rt.alloc(), 1)?) {
        return Err(Fail::new("a ring of a piece"));
    }
    if !Told::Rejected(Cause::BadUse(0, 0, 0)).is(&following(rt.alloc(), 0)?) {
        return Err(Fail::new("a ring of none"));
    }
    Ok(())
}
