// What servers send for what they are fed: a table for each program, a row for each course of things.
ghost use Rattle.std.specs.Prelude.{◌<◌, IfOk};
ghost use Rattle.session_meaning.specs.Server as meant;
ghost use Rattle.sha2.specs.Sha256.{sha256};
ghost use Rattle.serve_core.specs.Serving.{Serves};

use core_stage::notation::bytes_of;
use core_stage::programs::{BOOL, DEEP, PAIR, SPIN, UNIT};
use core_stage::stage::{Stage, served, server};
use core_terms::Digest;
use digest_layer::Sha;
use serve_core::ServeCore;
use session_turns::NoGate;
use std::alloc::{AllocError, Global};
use std::test::Fail;
use std::thread::Threads;

/// The greatest number of calls in a turn, what is fed, what is sent, and how many versions there are behind it.
///
/// A bar stands between connections; behind what is sent on one that the server closes stands `!`.
pub struct Row(pub u64, pub &'static [u8], pub &'static [u8], pub usize);

/// A unit, `open` of which is role 1.
const UNIT_ROWS: [Row; 47] = [
    // greeted, called, answered and left; then a message that is none
    Row(
        1,
        b"00000045 01 0001 P 0000 U 0000000d 02 0001 0001 0000000000000001 00000007 03 0000 00000001 00000003 04 0001 00000001 09",
        b"00000003 81 0001 00000008 82 0001 00 00000000 00000004 85 0001 00 00000004 84 0000 0b !",
        1,
    ),
    // messages that are none
    Row(1, b"00000002 01 00", b"00000004 84 0000 0b !", 1),
    Row(1, b"00000000", b"00000004 84 0000 0b !", 1),
    Row(1, b"01000001", b"00000004 84 0000 0b !", 1),
    Row(1, b"00000003 82 0001", b"00000004 84 0000 0b !", 1),
    Row(1, b"00000004 04 0001 00", b"00000004 84 0000 0b !", 1),
    Row(1, b"[04 0000]", b"[84 0000 0b] !", 1),
    Row(1, b"[03 0001 00000001]", b"[84 0000 0b] !", 1),
    // what stands behind one is not heard
    Row(1, b"[09] [04 0001]", b"[84 0000 0b] !", 1),
    Row(
        1,
        b"[01 0001 P 0000 U] [09] [04 0001]",
        b"[81 0001] [84 0000 0b] !",
        1,
    ),
    // an end, and an end inside a message
    Row(1, b"", b"", 1),
    Row(1, b"00", b"", 1),
    Row(1, b"[01 0001 P 0000 U] 00000003 04", b"[81 0001]", 1),
    // causes of a refused greeting, alone
    Row(1, b"[01 0001 U 0000 U]", b"[84 0001 01]", 1),
    Row(1, b"[01 0001 P 0401 U]", b"[84 0001 0a]", 1),
    Row(1, b"[01 0001 P 0400 U]", b"[81 0001]", 1),
    Row(
        1,
        b"S [01 0041 P 0000 U] [04 0040] [01 0041 P 0000 U]",
        b"W [84 0041 08] [85 0040 00] [81 0041]",
        1,
    ),
    Row(
        1,
        b"[01 0001 P 0000 U] [01 0001 P 0000 U]",
        b"[81 0001] [84 0001 04]",
        1,
    ),
    Row(1, b"[01 0001 P 0000 T]", b"[84 0001 02]", 1),
    Row(1, b"[01 0001 P 0000]", b"[84 0001 02]", 1),
    Row(1, b"[01 0001 P 0000 U 00]", b"[84 0001 02]", 1),
    // each two causes of a refused greeting that stand together
    Row(1, b"[01 0001 U 0401 U]", b"[84 0001 01]", 1),
    Row(1, b"S [01 0041 U 0000 U]", b"W [84 0041 01]", 1),
    Row(
        1,
        b"[01 0001 P 0000 U] [01 0001 U 0000 U]",
        b"[81 0001] [84 0001 01]",
        1,
    ),
    Row(1, b"[01 0001 U 0000 T]", b"[84 0001 01]", 1),
    Row(1, b"S [01 0041 P 0401 U]", b"W [84 0041 0a]", 1),
    Row(
        1,
        b"[01 0001 P 0000 U] [01 0001 P 0401 U]",
        b"[81 0001] [84 0001 0a]",
        1,
    ),
    Row(1, b"[01 0001 P 0401 T]", b"[84 0001 0a]", 1),
    Row(1, b"S [01 0040 P 0000 U]", b"W [84 0040 08]", 1),
    Row(1, b"S [01 0041 P 0000 T]", b"W [84 0041 08]", 1),
    Row(
        1,
        b"[01 0001 P 0000 U] [01 0001 P 0000 T]",
        b"[81 0001] [84 0001 04]",
        1,
    ),
    // causes of a refused call, alone; what is allowed at the borders is
    Row(1, b"[02 0001 0001 0000000000000001]", b"[84 0001 03]", 1),
    Row(
        1,
        b"[01 0001 P 0000 U] [02 0001 0001 000000e8d4a51000] [02 0001 0001 0000000000000001] [04 0001]",
        b"[81 0001] [84 0001 05] [85 0001 00]",
        1,
    ),
    Row(
        1,
        b"[01 0001 P 0000 U] [02 0001 0000 0000000000000001] [02 0001 0002 0000000000000001] [02 0001 ffff 0000000000000001]",
        b"[81 0001] [84 0001 06] [84 0001 06] [84 0001 06]",
        1,
    ),
    Row(
        1,
        b"[01 0001 P 0000 U] [02 0001 0001 000000e8d4a51001] [02 0001 0001 ffffffffffffffff] [02 0001 0001 0000000000000001 00]",
        b"[81 0001] [84 0001 0c] [84 0001 0c] [84 0001 07]",
        1,
    ),
    // each two causes of a refused call that stand together, but with 4,096 versions
    Row(
        1,
        b"[02 0001 0009 0000000000000001] [02 0001 0001 000000e8d4a51001] [02 0001 0001 0000000000000001 00]",
        b"[84 0001 03] [84 0001 03] [84 0001 03]",
        1,
    ),
    Row(
        1,
        b"[01 0001 P 0000 U] [02 0001 0001 0000000000000001] [02 0001 0009 0000000000000001] [02 0001 0001 000000e8d4a51001] [02 0001 0001 0000000000000001 00]",
        b"[81 0001] [84 0001 05] [84 0001 05] [84 0001 05]",
        1,
    ),
    Row(
        1,
        b"[01 0001 P 0000 U] [02 0001 0000 000000e8d4a51001] [02 0001 0000 0000000000000001 00] [02 0001 0001 000000e8d4a51001 00]",
        b"[81 0001] [84 0001 06] [84 0001 06] [84 0001 0c]",
        1,
    ),
    // leaving: no session, a call that runs, a session that has ended
    Row(1, b"[04 0001]", b"[84 0001 03]", 1),
    Row(
        1,
        b"[01 0001 P 0000 U] [02 0001 0001 0000000000000001] [04 0001] G [04 0001]",
        b"[81 0001] [85 0001 00] [84 0001 03]",
        1,
    ),
    Row(
        1,
        b"[01 0001 P 0000 U] [04 0001] [02 0001 0001 0000000000000001] G [01 0001 P 0000 U]",
        b"[81 0001] [85 0001 00] [84 0001 03] [81 0001]",
        1,
    ),
    // rounds: none, and as many as may be said, where a call runs and where none does
    Row(
        1,
        b"[03 0000 ffffffff] [01 ffff P 0000 U] [02 ffff 0001 0000000000000001] [03 0000 00000000] [02 ffff 0001 0000000000000001] [03 0000 ffffffff] [03 0000 ffffffff]",
        b"[81 ffff] [84 ffff 05] [82 ffff 00 00000000]",
        1,
    ),
    // no fuel
    Row(
        1,
        b"[01 0001 P 0000 U] [02 0001 0001 0000000000000000] G",
        b"[81 0001] [82 0001]",
        1,
    ),
    // sessions end with their connection, in each way in which it ends
    Row(
        1,
        b"[01 0001 P 0000 U] | [04 0001]",
        b"[81 0001] | [84 0001 03]",
        1,
    ),
    Row(
        1,
        b"[01 0001 P 0000 U] 00 | [04 0001]",
        b"[81 0001] | [84 0001 03]",
        1,
    ),
    Row(
        1,
        b"[01 0001 P 0000 U] [09] | [04 0001]",
        b"[81 0001] [84 0000 0b] ! | [84 0001 03]",
        1,
    ),
    Row(
        1,
        b"[01 0001 P 0000 U] [02 0001 0001 0000000000000001] | G [01 0001 P 0000 U] [02 0001 0001 0000000000000001] G",
        b"[81 0001] | [81 0001] [82 0001 00 00000000]",
        1,
    ),
];

/// A bool that is true: `both` is role 1, `flip` role 2 and `over` role 3.
const BOOL_ROWS: [Row; 17] = [
    // a ring goes on from call to call
    Row(
        1,
        b"[01 0001 P 0001 T] [02 0001 0001 0000000000000001] G [02 0001 0001 0000000000000001] G",
        b"[81 0001] 0000000c 82 0001 00 00000001 01 01 0000 00000009 82 0001 01 0000 01 0000",
        1,
    ),
    Row(
        1,
        b"[01 0001 P 0000 T] [02 0001 0001 0000000000000001] G [02 0001 0001 0000000000000001] G",
        b"[81 0001] [82 0001 00 00000001 01 00 00000001 01] [82 0001 00 00000001 01 00 00000001 01]",
        1,
    ),
    // each session has its own; one that greets again has a new one
    Row(
        1,
        b"[01 0001 P 0001 T] [02 0001 0001 0000000000000001] G [01 0002 P 0001 T] [02 0002 0001 0000000000000001] [02 0001 0001 0000000000000001] G",
        b"[81 0001] [82 0001 00 00000001 01 01 0000] [81 0002] [82 0001 01 0000 01 0000] [82 0002 00 00000001 01 01 0000]",
        1,
    ),
    Row(
        1,
        b"[01 0001 P 0001 T] [02 0001 0001 0000000000000001] G [04 0001] [01 0001 P 0001 T] [02 0001 0001 0000000000000001] G",
        b"[81 0001] [82 0001 00 00000001 01 01 0000] [85 0001 00] [81 0001] [82 0001 00 00000001 01 01 0000]",
        1,
    ),
    // an update commits, and its session moves on; the ring stays
    Row(
        1,
        b"[01 0001 P 0002 T] [02 0001 0002 0000000000000001] G [02 0001 0001 0000000000000001] G [02 0001 0002 0000000000000001] G",
        b"[81 0001] [82 0001 00 00000001 01] [82 0001 00 00000001 00 01 0000] [82 0001 01 0000]",
        3,
    ),
    // a trap has a proof and commits nothing
    Row(
        1,
        b"[01 0001 P 0000 T] [02 0001 0003 0000000000000001] G",
        b"[81 0001] [82 0001 00 00000001 01]",
        1,
    ),
    // an update without fuel commits nothing, and its session stays
    Row(
        1,
        b"[01 0001 P 0000 T] [02 0001 0002 0000000000000000] G [02 0001 0001 0000000000000001] G",
        b"[81 0001] [82 0001] [82 0001 00 00000001 01 00 00000001 01]",
        1,
    ),
    // an update on an older version is stale, and its session ends
    Row(
        1,
        b"[01 0001 P 0000 T] [01 0002 P 0000 T] [02 0001 0002 0000000000000001] G [02 0002 0002 0000000000000001] G [04 0002] [04 0001]",
        b"[81 0001] [81 0002] [82 0001 00 00000001 01] [83 0002 F] [84 0002 03] [85 0001 00]",
        2,
    ),
    // also where the session greeted with the older version's state
    Row(
        1,
        b"[01 0001 P 0000 T] [02 0001 0002 0000000000000001] G [01 0002 P 0000 T] [02 0002 0002 0000000000000001] G [02 0002 0001 0000000000000001]",
        b"[81 0001] [82 0001 00 00000001 01] [81 0002] [83 0002 F] [84 0002 03]",
        2,
    ),
    // a query on an older version is answered on it, and so is an update that makes no state
    Row(
        1,
        b"[01 0001 P 0000 T] [02 0001 0002 0000000000000001] G [01 0002 P 0000 T] [02 0002 0001 0000000000000001] G [02 0002 0002 0000000000000000] G [04 0002]",
        b"[81 0001] [82 0001 00 00000001 01] [81 0002] [82 0002 00 00000001 01 00 00000001 01] [82 0002] [85 0002 00]",
        2,
    ),
    // of two versions with one state it is the newer that a session greets
    Row(
        1,
        b"[01 0001 P 0000 T] [02 0001 0002 0000000000000001] G [02 0001 0002 0000000000000001] G [01 0002 P 0000 T] [02 0002 0002 0000000000000001] G",
        b"[81 0001] [82 0001 00 00000001 01] [82 0001 00 00000001 00] [81 0002] [82 0002 00 00000001 01]",
        4,
    ),
    // but one that greeted before stands at the older
    Row(
        1,
        b"[01 0002 P 0000 T] [01 0001 P 0000 T] [02 0001 0002 0000000000000001] G [02 0001 0002 0000000000000001] G [02 0002 0002 0000000000000001] G",
        b"[81 0002] [81 0001] [82 0001 00 00000001 01] [82 0001 00 00000001 00] [83 0002 T]",
        3,
    ),
    // sessions take their turns in ascending order, not in that of their calls
    Row(
        1,
        b"[01 0002 P 0000 T] [01 0001 P 0000 T] [02 0002 0002 0000000000000001] [02 0001 0002 0000000000000001] G",
        b"[81 0002] [81 0001] [82 0001 00 00000001 01] [83 0002 F]",
        2,
    ),
    // a session that has just been made stale ends alone
    Row(
        1,
        b"[01 0001 P 0000 T] [01 0002 P 0000 T] [01 0003 P 0000 T] [02 0001 0002 0000000000000001] [02 0002 0002 0000000000000001] [02 0003 0001 0000000000000001] G",
        b"[81 0001] [81 0002] [81 0003] [82 0001 00 00000001 01] [83 0002 F] [82 0003 00 00000001 01 00 00000001 01]",
        2,
    ),
    // versions stay for the next connections
    Row(
        1,
        b"[01 0001 P 0000 T] [02 0001 0002 0000000000000001] G | [01 0001 P 0000 F] [02 0001 0002 0000000000000001] G [09] | [01 0001 P 0000 F] [02 0001 0002 0000000000000001] G [01 0001 P 0000 T] [02 0001 0002 0000000000000001] G",
        b"[81 0001] [82 0001 00 00000001 01] | [81 0001] [82 0001 00 00000001 00] [84 0000 0b] ! | [81 0001] [83 0001 T] [81 0001] [82 0001 00 00000001 01]",
        4,
    ),
    // no state is known that was not made
    Row(1, b"[01 0001 P 0000 F]", b"[84 0001 02]", 1),
    // a call that is dropped commits nothing
    Row(
        1,
        b"[01 0001 P 0000 T] [02 0001 0002 0000000000000001] [04 0001] G [01 0001 P 0000 F] [01 0001 P 0000 T]",
        b"[81 0001] [85 0001 00] [84 0001 02] [81 0001]",
        1,
    ),
];

/// Two bools, of which the first is opened again behind the second: `three` is role 1.
const PAIR_ROWS: [Row; 3] = [
    Row(
        1,
        b"[01 0001 P 0001 T F] [02 0001 0001 0000000000000001] G",
        b"[81 0001] [82 0001 00 00000001 01 00 00000001 00 00 00000001 01]",
        1,
    ),
    Row(
        1,
        b"[01 0001 P 0002 T F] [02 0001 0001 0000000000000001] G [02 0001 0001 0000000000000001] G",
        b"[81 0001] [82 0001 00 00000001 01 00 00000001 00 01 0001] [82 0001 01 0001 01 0000 01 0001]",
        1,
    ),
    Row(
        1,
        b"[01 0001 P 0002 F T] [01 0001 P 0002 T]",
        b"[84 0001 02] [84 0001 02]",
        1,
    ),
];

/// A unit that is authenticated twice: `deep` is role 1.
const DEEP_ROWS: [Row; 1] = [Row(
    1,
    b"[01 0001 P 0000 H] [02 0001 0001 0000000000000001] G",
    b"[81 0001] [82 0001 00 00000020 U 00 00000000]",
    1,
)];

/// Two sessions greet at the same version. The first calls `put`, which is role 1, with 3 and so makes 5 calls, the second with 0
/// and makes 2.
const TWO_PUTS: &[u8] =
    b"[01 0001 P 0000 T] [01 0002 P 0000 T] [02 0001 0001 0000000000000064 0000000000000003 01] [02 0002 0001 0000000000000064 0000000000000000 00]";

/// The greatest number of calls in a turn, the rounds, and what is sent behind the welcomes.
static PUTS: [(u64, &[u8], &[u8], usize); 17] = [
    (1, b"G", b"", 1),
    (1, b"GG", b"[82 0002]", 2),
    (1, b"GGGG", b"[82 0002]", 2),
    (1, b"GGGGG", b"[82 0002] [83 0001 F]", 2),
    (1, b"GGGGGGGGGG", b"[82 0002] [83 0001 F]", 2),
    (1, b"[03 0000 0000000a]", b"[82 0002] [83 0001 F]", 2),
    (1, b"[03 0000 00000004]", b"[82 0002]", 2),
    (
        1,
        b"[03 0000 00000005] [04 0001] [04 0002]",
        b"[82 0002] [83 0001 F] [84 0001 03] [85 0002 00]",
        2,
    ),
    (1, b"GGGGGGGGGGGGGGGGGGGG", b"[82 0002] [83 0001 F]", 2),
    (2, b"G", b"[82 0002]", 2),
    (2, b"GG", b"[82 0002]", 2),
    (2, b"GGG", b"[82 0002] [83 0001 F]", 2),
    (4, b"G", b"[82 0002]", 2),
    (4, b"GG", b"[82 0002] [83 0001 F]", 2),
    (5, b"G", b"[82 0001] [83 0002 T]", 2),
    (
        5,
        b"GGGGGGGGGGGGGGGGGGGG [04 0001] [04 0002]",
        b"[82 0001] [83 0002 T] [85 0001 00] [84 0002 03]",
        2,
    ),
    (
        1_000_000,
        b"[03 0000 0000000a]",
        b"[82 0001] [83 0002 T]",
        2,
    ),
];

/// What is fed or sent on a connection, of the text of a row; whether the server closes it.
fn connection(alloc: Global, text: &[u8], program: &Digest) -> Result<(Vec<u8>, bool), AllocError> {
    let closes = text.ends_with(b"!");
    Ok((bytes_of(alloc, text, program)?, closes))
}

/// Whether a server sends on a connection what the text says for what the other text says, by so many bytes a call.
fn answers<R: Threads + Sync>(
    rt: &R,
    alloc: Global,
    core: &mut ServeCore<Sha, NoGate>,
    fed: &[u8],
    sent: &[u8],
    most: usize,
) -> Result<bool, AllocError>
    requires some { 0 < most }
    requires serves { (server : meant.Server) × Serves sha256 core.old server }
    ensures { IfOk result (λ _. (server : meant.Server) × Serves sha256 core.new server) }
{
    let program = *core.code().program().text_digest();
    let fed = bytes_of(alloc, fed, &program)?;
    let (bytes, closes) = connection(alloc, sent, &program)?;
    let told = served(rt, alloc, core, &fed, most)?;
    Ok(told.bytes == bytes && told.closing == closes)
}

/// What is fed on one connection after another.
fn connections<'a>(alloc: Global, fed: &'a [u8]) -> Result<Vec<&'a [u8]>, AllocError> {
    fed.split(|byte| *byte == b'|').collect(alloc)
}

/// Whether a server sends, on one connection after another, what a row says.
pub fn answers_all<R: Threads + Sync>(
    rt: &R,
    alloc: Global,
    core: &mut ServeCore<Sha, NoGate>,
    fed: &[u8],
    sent: &[u8],
    most: usize,
) -> Result<bool, AllocError>
    requires some { 0 < most }
    requires serves { (server : meant.Server) × Serves sha256 core.old server }
    ensures { IfOk result (λ _. (server : meant.Server) × Serves sha256 core.new server) }
{
    let mut rest = sent;
    for on_one in connections(alloc, fed)? {
        let (first, others) = match rest.iter().position(|byte| *byte == b'|') {
            Some(at) => (&rest[..at], &rest[at + 1..]),
            None => (rest, &rest[rest.len()..]),
        };
        if !answers(rt, alloc, core, on_one, first.trim_ascii(), most)? {
            return Ok(false);
        }
        rest = others;
    }
    Ok(rest.is_empty())
}

/// Whether a server answers as a row says, and has as many versions then, and one commit for each but the first.
fn is_met<R: Threads + Sync>(
    rt: &R,
    alloc: Global,
    of: Stage,
    row: &Row,
    most: usize,
) -> Result<bool, AllocError>
    requires { 0 < most }
{
    let mut core = server(alloc, of, row.0.max(1))?;
    let met = answers_all(rt, alloc, &mut core, row.1, row.2, most)?;
    let versions = core.versions().len();
    Ok(met && versions == row.3 && core.commits().len() == versions.saturating_sub(1))
}

/// The number of the first row of a table that isn't met, by so many bytes a call.
fn unmet<R: Threads + Sync>(
    rt: &R,
    alloc: Global,
    of: Stage,
    rows: &[Row],
    most: usize,
) -> Result<Option<usize>, AllocError>
    requires { 0 < most }
{
    for (number, row) in rows.iter().enumerate() {
        if !is_met(rt, alloc, of, row, most)? {
            return Ok(Some(number));
        }
    }
    Ok(None)
}

#[test]
fn rows_are_met(rt: HostRuntime) -> Result<(), Fail> {
    let tables: [(Stage, &[Row]); 4] = [
        (UNIT, &UNIT_ROWS),
        (BOOL, &BOOL_ROWS),
        (PAIR, &PAIR_ROWS),
        (DEEP, &DEEP_ROWS),
    ];
    for (table, (of, rows)) in tables.iter().enumerate() {
        for most in [1, 7, 4096] {
            if let Some(number) = unmet(&rt, rt.alloc(), *of, rows, most)? {
                return Err(Fail::new(format_args!("table {table}, row {number}, by {most}")));
            }
        }
    }
    Ok(())
}

/// Whether two puts are answered as a row says.
fn puts_are_met<R: Threads + Sync>(
    rt: &R,
    alloc: Global,
    row: (u64, &[u8], &[u8], usize),
) -> Result<bool, AllocError> {
    let (slice, rounds, replies, versions) = row;
    let mut core = server(alloc, SPIN, slice.max(1))?;
    let mut fed = Vec::from_slice(alloc, TWO_PUTS)?;
    fed.extend_from_slice(rounds)?;
    let mut sent = Vec::from_slice(alloc, b"[81 0001] [81 0002] ")?;
    sent.extend_from_slice(replies)?;
    let met = answers(rt, alloc, &mut core, &fed, &sent, 4096)?;
    Ok(met && core.versions().len() == versions && core.commits().len() + 1 == versions)
}

#[test]
fn updates_race_by_turns(rt: HostRuntime) -> Result<(), Fail> {
    for (number, row) in PUTS.iter().enumerate() {
        if !puts_are_met(&rt, rt.alloc(), *row)? {
            return Err(Fail::new(format_args!("row {number}")));
        }
    }
    Ok(())
}
