// Limits: the length of a proof, the number of versions, and the number of messages.
ghost use Rattle.std.specs.Prelude.{◌<◌, IfOk};
ghost use Rattle.session_meaning.specs.Server as meant;
ghost use Rattle.sha2.specs.Sha256.{sha256};
ghost use Rattle.serve_core.specs.Serving.{Serves};

use crate::rows::answers_all;
use core_stage::notation::bytes_of;
use core_stage::programs::{BOOL, UNIT};
use core_stage::stage::{served, server, server_from};
use core_terms::{Hash32, Piece};
use digest_layer::Sha;
use serve_core::{Heard, ServeCore};
use session_turns::NoGate;
use std::alloc::{AllocError, Global};
use std::test::Fail;
use std::thread::Threads;
use wire_form::{Reply, Request};

/// A text, which `opened` opens as often as it is told.
const TEXT: &[u8] =
    b"state auth text; fun open(s: auth text, n: int): int = if le(n, 0) then 0 else add(len(unauth(s)), open(s, sub(n, 1))); init make(x: text): auth text = auth(x); query opened(s: auth text, n: int): int = open(s, n);";

/// The length of the text of the state: its spelling has 65,536 bytes.
const LEN: usize = 65_532;

/// The spelling of the state's text.
fn spelling(alloc: Global) -> Result<Vec<u8>, AllocError> {
    let mut bytes = Vec::from_slice(alloc, b"\0\0\xff\xfc")?;
    let text = Vec::from_elem(alloc, b'a', LEN)?;
    bytes.extend_from_slice(&text)?;
    Ok(bytes)
}

/// The records of the image of the state.
fn text_records(alloc: Global) -> Result<Vec<u8>, AllocError> {
    let mut bytes = Vec::from_slice(alloc, b"\x03")?;
    let spelling = spelling(alloc)?;
    bytes.extend_from_slice(&spelling)?;
    bytes.extend_from_slice(b"\x06\0\0\0\0")?;
    Ok(bytes)
}

/// A session without a ring greets, calls `opened` with this number, and leaves.
fn openings(alloc: Global, count: i64) -> Result<Vec<u8>, AllocError> {
    let mut bytes = Vec::from_slice(alloc, b"\0\0\0\x45\x01\0\x01")?;
    bytes.extend_from_slice(&Sha::of(TEXT).0)?;
    bytes.extend_from_slice(b"\0\0")?;
    put_digest_of_state(alloc, &mut bytes)?;
    put_call(&mut bytes, count)?;
    Ok(bytes)
}

fn put_digest_of_state(alloc: Global, bytes: &mut Vec<u8>) -> Result<(), AllocError> {
    let state = spelling(alloc)?;
    bytes.extend_from_slice(&Sha::of(&state).0)
}

/// Puts the call, a round, and the leave.
fn put_call(bytes: &mut Vec<u8>, count: i64) -> Result<(), AllocError> {
    bytes.extend_from_slice(b"\0\0\0\x15\x02\0\x01\0\x01\0\0\0\0\0\0\x03\xe8")?;
    bytes.extend_from_slice(&count.to_be_bytes())?;
    bytes.extend_from_slice(b"\0\0\0\x07\x03\0\0\0\0\0\x01\0\0\0\x03\x04\0\x01")
}

/// What is sent where the proof has 255 pieces: its length is that of 16,712,955 bytes of frames, the kind and the session.
fn sent_of_255(alloc: Global) -> Result<Vec<u8>, AllocError> {
    let mut bytes = Vec::from_slice(alloc, b"\0\0\0\x03\x81\0\x01")?;
    bytes.extend_from_slice(&16_712_958u32.to_be_bytes())?;
    bytes.extend_from_slice(b"\x82\0\x01")?;
    put_pieces(alloc, &mut bytes)?;
    bytes.extend_from_slice(b"\0\0\0\x04\x85\0\x01\0")?;
    Ok(bytes)
}

fn put_pieces(alloc: Global, bytes: &mut Vec<u8>) -> Result<(), AllocError> {
    let piece = spelling(alloc)?;
    for _ in 0..255 {
        bytes.extend_from_slice(b"\0\0\x01\0\0")?;
        bytes.extend_from_slice(&piece)?;
    }
    Ok(())
}

/// Whether this is sent where the text is opened so often, in a turn.
fn opens<R: Threads + Sync>(
    rt: &R,
    alloc: Global,
    count: i64,
    sent: &[u8],
) -> Result<bool, AllocError> {
    let records = text_records(alloc)?;
    let mut core = server_from(alloc, TEXT, 2, &records, 1_000, NoGate)?;
    let fed = openings(alloc, count)?;
    let told = served(rt, alloc, &mut core, &fed, 1_000_000)?;
    Ok(told.bytes.as_slice() == sent && !told.closing)
}

#[test]
fn a_proof_of_255_great_pieces_is_sent(rt: HostRuntime) -> Result<(), Fail> {
    let sent = sent_of_255(rt.alloc())?;
    assert!(rt; opens(&rt, rt.alloc(), 255, &sent)?);
    Ok(())
}

/// What is sent where it has 256: it is refused, the session ends, and its leave is refused.
const SENT_OF_256: &[u8] = b"\0\0\0\x03\x81\0\x01\0\0\0\x04\x84\0\x01\x0d\0\0\0\x04\x84\0\x01\x03";

#[test]
fn a_proof_of_256_great_pieces_is_refused(rt: HostRuntime) -> Result<(), Fail> {
    assert!(rt; opens(&rt, rt.alloc(), 256, SENT_OF_256)?);
    Ok(())
}

/// How many versions there may be.
const MOST_VERSIONS: usize = 4_096;

/// A session greets at the first version, and flips the bool until there are as many versions as there may be; what is sent then.
fn flips(alloc: Global) -> Result<(Vec<u8>, Vec<u8>), AllocError> {
    let program = Sha::of(BOOL.text);
    let mut fed = bytes_of(alloc, b"[01 0001 P 0000 T]", &program)?;
    let mut sent = bytes_of(alloc, b"[81 0001]", &program)?;
    for flip in 1..MOST_VERSIONS {
        fed.extend_from_slice(b"\0\0\0\x0d\x02\0\x01\0\x02\0\0\0\0\0\0\0\x01")?;
        fed.extend_from_slice(b"\0\0\0\x07\x03\0\0\0\0\0\x01")?;
        sent.extend_from_slice(b"\0\0\0\x09\x82\0\x01\0\0\0\0\x01")?;
        sent.push((flip % 2) as u8)?;
    }
    Ok((fed, sent))
}

/// Makes as many versions as there may be; whether what is sent is what is to be.
fn fill<R: Threads + Sync>(
    rt: &R,
    alloc: Global,
    core: &mut ServeCore<Sha, NoGate>,
) -> Result<bool, AllocError>
    requires { (server : meant.Server) × Serves sha256 core.old server }
    ensures { IfOk result (λ _. (server : meant.Server) × Serves sha256 core.new server) }
{
    let (fed, sent) = flips(alloc)?;
    let told = served(rt, alloc, core, &fed, 4096)?;
    Ok(told.bytes == sent && core.versions().len() == MOST_VERSIONS)
}

/// What is fed and sent on connections to a server with 4,096 versions, the last of which is false: an update is refused, behind all
/// other causes, and a query is answered.
static FULL: [(&[u8], &[u8]); 6] = [
    (
        b"[01 0001 P 0000 F] [02 0001 0002 0000000000000001] [02 0001 0001 0000000000000001] G",
        b"[81 0001] [84 0001 09] [82 0001 00 00000001 00 00 00000001 00]",
    ),
    (b"[02 0001 0002 0000000000000001]", b"[84 0001 03]"),
    (
        b"[01 0001 P 0000 F] [02 0001 0001 0000000000000001] [02 0001 0002 0000000000000001]",
        b"[81 0001] [84 0001 05]",
    ),
    (
        b"[01 0001 P 0000 F] [02 0001 0002 000000e8d4a51001]",
        b"[81 0001] [84 0001 0c]",
    ),
    (
        b"[01 0001 P 0000 F] [02 0001 0002 0000000000000001 00]",
        b"[81 0001] [84 0001 07]",
    ),
    // on an older version too, and where it would make none
    (
        b"[01 0001 P 0000 T] [02 0001 0002 0000000000000001] [02 0001 0002 0000000000000000]",
        b"[81 0001] [84 0001 09] [84 0001 09]",
    ),
];

/// The number of the first row that a server with 4,096 versions doesn't meet; that of no row where there are not as many.
fn unmet_when_full<R: Threads + Sync>(rt: &R, alloc: Global) -> Result<Option<usize>, AllocError> {
    let mut core = server(alloc, BOOL, 1)?;
    if !fill(rt, alloc, &mut core)? {
        return Ok(Some(FULL.len()));
    }
    for (number, (fed, sent)) in FULL.iter().enumerate() {
        if !answers_all(rt, alloc, &mut core, fed, sent, 7)? {
            return Ok(Some(number));
        }
    }
    Ok(None)
}

#[test]
fn versions_are_limited(rt: HostRuntime) -> Result<(), Fail> {
    match unmet_when_full(&rt, rt.alloc())? {
        Some(number) => Err(Fail::new(format_args!("row {number}"))),
        None => Ok(()),
    }
}

/// How many messages a connection may have.
const MOST_MESSAGES: u32 = 1_000_000;

/// A message that ends nothing: a greeting at no version, rounds, a leave of no session, or a call of none.
fn cheap(alloc: Global, number: u32) -> Request {
    match number % 3 {
        0 => Request::Go { rounds: number },
        1 => Request::Bye { session: 7 },
        _ => Request::Call {
            session: 9,
            role: 1,
            fuel: 1,
            argument: Piece::new(Vec::new(alloc)),
        },
    }
}

/// Hears so many messages, none of which ends the connection; whether none does.
fn goes_on<R: Threads + Sync>(
    rt: &R,
    alloc: Global,
    core: &mut ServeCore<Sha, NoGate>,
    count: u32,
) -> Result<bool, AllocError>
    requires { (server : meant.Server) × Serves sha256 core.old server }
    ensures { IfOk result (λ _. (server : meant.Server) × Serves sha256 core.new server) }
{
    for number in 0..count {
        if core
            .handle(rt, Heard::Request(cheap(alloc, number)))?
            .closing
        {
            return Ok(false);
        }
    }
    Ok(true)
}

/// Whether a message is one too many: the connection is closed for this alone.
fn is_too_many<R: Threads + Sync>(
    rt: &R,
    core: &mut ServeCore<Sha, NoGate>,
    heard: Heard,
) -> Result<bool, AllocError>
    requires { (server : meant.Server) × Serves sha256 core.old server }
    ensures { IfOk result (λ _. (server : meant.Server) × Serves sha256 core.new server) }
{
    let replies = core.handle(rt, heard)?;
    let told = matches!(
        replies.list.as_slice(),
        [Reply::Closed {
            session: 0,
            cause: 1
        }]
    );
    Ok(told && replies.closing)
}

/// Whether a message behind a million is one too many, also where it is none; the next is then the first of a connection. An end is
/// no message.
fn are_counted<R: Threads + Sync>(
    rt: &R,
    alloc: Global,
    core: &mut ServeCore<Sha, NoGate>,
) -> Result<bool, AllocError>
    requires { (server : meant.Server) × Serves sha256 core.old server }
    ensures { IfOk result (λ _. (server : meant.Server) × Serves sha256 core.new server) }
{
    let first = goes_on(rt, alloc, core, MOST_MESSAGES)?
        && is_too_many(rt, core, Heard::Request(cheap(alloc, 1)))?;
    let second = goes_on(rt, alloc, core, MOST_MESSAGES)? && is_too_many(rt, core, Heard::Bad)?;
    Ok(first && second)
}

#[test]
fn messages_are_limited(rt: HostRuntime) -> Result<(), Fail> {
    let mut core = server(rt.alloc(), UNIT, 1)?;
    assert!(rt; are_counted(&rt, rt.alloc(), &mut core)?);
    Ok(())
}
