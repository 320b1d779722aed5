// What `mirror` tells and sends.
ghost use Rattle.std.specs.Prelude.{◌<◌};

use crate::asking::{Failing, NONE};
use crate::drawing::SIZES;
use crate::messages::{fetches, given};
use crate::telling::is_only;
use crate::waiting::{Wait, run_turns};
use cli_stage::runs::{Peers, Run, run_on_net};
use cli_stage::stage::staged;
use std::alloc::{AllocError, Global};
use std::test::Fail;
use std::thread::Threads;

/// The pieces of a mirror, and one that it hasn't.
const A: &[u8] = b"";

const B: &[u8] = b"\x07";

const C: &[u8] = b"ab";

const OTHER: &[u8] = b"x";

/// The file of the mirror.
const FILE: &[u8] = b"LAM1\0\0\0\x03\0\0\0\0\0\0\0\x01\x07\0\0\0\x02ab";

/// The text where nothing fails.
const WHOLE: &str = "listening 4711\n";

/// Answers on some of the links on which this comes, where so many bytes move at once; and what was sent on the last one of them.
fn mirror<R: Threads + Sync>(
    rt: &R,
    alloc: Global,
    links: &[Vec<u8>],
    connections: &str,
    most: usize,
    failing: &Failing,
) -> Result<(Run, Vec<u8>), AllocError>
    requires { 0 < most }
{
    let peers = Peers {
        bytes: links,
        most,
        failing: failing.net,
    };
    let words = ["mirror", "q", "4711", connections];
    let writes = (100, failing.writes);
    let stage = staged(b"", b"", FILE);
    run_on_net(rt, alloc, &stage, &words, &peers, failing.files, writes)
}

/// What is asked for on a link, and what is given.
type Asked = (&'static [&'static [u8]], &'static [Option<&'static [u8]>]);

static ASKED: [Asked; 4] = [
    (&[], &[]),
    (&[C], &[Some(C)]),
    (
        &[A, OTHER, A, C, C, B, OTHER],
        &[Some(A), None, Some(A), Some(C), Some(C), Some(B), None],
    ),
    (&[OTHER, B], &[None, Some(B)]),
];

/// Whether these pieces are given on the last one of so many links, and nothing is told but the port.
fn is_given<R: Threads + Sync>(
    rt: &R,
    alloc: Global,
    links: &[Vec<u8>],
    connections: &str,
    pieces: &[Option<&[u8]>],
) -> Result<bool, AllocError> {
    let answers = given(alloc, pieces)?;
    for most in &SIZES {
        let ran = mirror(rt, alloc, links, connections, (*most).max(1), &NONE)?;
        if !is_only(&ran, 0, WHOLE, &answers) {
            return Ok(false);
        }
    }
    Ok(true)
}

/// Whether this is given on the first one of two links, and this on the other one.
fn are_given<R: Threads + Sync>(
    rt: &R,
    alloc: Global,
    links: &[Vec<u8>],
    first: &[Option<&[u8]>],
    other: &[Option<&[u8]>],
) -> Result<bool, AllocError> {
    Ok(is_given(rt, alloc, links, "1", first)? && is_given(rt, alloc, links, "2", other)?)
}

/// Two links on which this comes.
fn links(alloc: Global, first: Vec<u8>, other: &[&[u8]]) -> Result<Vec<Vec<u8>>, AllocError> {
    let mut links = Vec::new(alloc);
    links.push(first)?;
    links.push(fetches(alloc, other)?)?;
    Ok(links)
}

/// Whether what is asked for on two links is given.
fn are_answered<R: Threads + Sync>(
    rt: &R,
    alloc: Global,
    first: &Asked,
    other: &Asked,
) -> Result<bool, AllocError> {
    let links = links(alloc, fetches(alloc, first.0)?, other.0)?;
    are_given(rt, alloc, &links, first.1, other.1)
}

#[test]
fn links_are_answered_one_after_another(rt: HostRuntime) -> Result<(), Fail> {
    for (number, first) in ASKED.iter().enumerate() {
        for other in &ASKED {
            if !are_answered(&rt, rt.alloc(), first, other)? {
                return Err(Fail::new(format_args!("link {number}")));
            }
        }
    }
    Ok(())
}

/// Messages that ask for four pieces, where a byte is changed; without a change, they end in front of it.
fn spoilt(alloc: Global, at: usize, change: u8) -> Result<Vec<u8>, AllocError> {
    let mut asked = fetches(alloc, &[C, OTHER, A, A])?;
    match asked.get_mut(at) {
        Some(byte) if change > 0 => *byte ^= change,
        _ => asked.truncate(at),
    }
    Ok(asked)
}

/// Whether nothing is given further on a link behind a message that asks but for a byte, and at an end inside of it; and the next link is
/// answered.
fn ends_there<R: Threads + Sync>(rt: &R, alloc: Global, at: usize) -> Result<bool, AllocError> {
    for change in [0, 1, 0x80] {
        let links = links(alloc, spoilt(alloc, at, change)?, &[B])?;
        if !are_given(rt, alloc, &links, &[Some(C), None], &[Some(B)])? {
            return Ok(false);
        }
    }
    Ok(true)
}

/// The length, the kind and the session of the third message are changed.
#[test]
fn other_messages_and_ends_are_not_answered(rt: HostRuntime) -> Result<(), Fail> {
    for at in 78..85 {
        if !ends_there(&rt, rt.alloc(), at)? {
            return Err(Fail::new(format_args!("byte {at}")));
        }
    }
    Ok(())
}

/// Whether a mirror of which a call of the net failed ended as it has to: with the line of its port before that of the
/// fault, but where it couldn't listen; and it sent some first ones of these bytes.
fn is_faulted(ran: &(Run, Vec<u8>), call: u64, answers: &[u8]) -> bool {
    let text = if call == 0 {
        "link fault\n"
    } else {
        "listening 4711\nlink fault\n"
    };
    ran.0.only_tells(8, text) && answers.starts_with(&ran.1)
}

/// The number of calls of the net on these links: of the first that may fail and nothing is told of it.
fn first_unfailing<R: Threads + Sync>(
    rt: &R,
    alloc: Global,
    links: &[Vec<u8>],
    answers: &[u8],
) -> Result<u64, AllocError> {
    for call in 0..100 {
        let net = [call];
        let failing = Failing { net: &net, ..NONE };
        let ran = mirror(rt, alloc, links, "2", 4096, &failing)?;
        if !is_faulted(&ran, call, answers) {
            return Ok(if ran.0.only_tells(0, WHOLE) {
                call
            } else {
                100
            });
        }
    }
    Ok(100)
}

#[test]
fn each_call_of_the_net_fails_once(rt: HostRuntime) -> Result<(), Fail> {
    let alloc = rt.alloc();
    let links = links(alloc, fetches(alloc, &[C])?, &[C])?;
    let answers = given(alloc, &[Some(C)])?;
    let calls = first_unfailing(&rt, alloc, &links, &answers)?;
    if !(10..100).contains(&calls) {
        return Err(Fail::new(format_args!("call {calls}")));
    }
    Ok(())
}

/// Whether a file that can't be read is told, where this call of the files fails.
fn is_told_of_files<R: Threads + Sync>(
    rt: &R,
    alloc: Global,
    call: u64,
) -> Result<bool, AllocError> {
    let files = [call];
    let failing = Failing {
        files: &files,
        ..NONE
    };
    let ran = mirror(rt, alloc, &[], "2", 1, &failing)?;
    Ok(ran.0.only_tells(8, "read fault\n"))
}

/// Whether nothing is told or sent where the first write fails.
fn is_silent<R: Threads + Sync>(rt: &R, alloc: Global) -> Result<bool, AllocError> {
    let failing = Failing {
        writes: &[0],
        ..NONE
    };
    let links = links(alloc, fetches(alloc, &[C])?, &[])?;
    let ran = mirror(rt, alloc, &links, "2", 1, &failing)?;
    Ok(is_only(&ran, 9, "", b""))
}

#[test]
fn calls_of_the_files_and_the_output_fail(rt: HostRuntime) -> Result<(), Fail> {
    for call in 0..3 {
        if !is_told_of_files(&rt, rt.alloc(), call)? {
            return Err(Fail::new(format_args!("call {call}")));
        }
    }
    if !is_silent(&rt, rt.alloc())? {
        return Err(Fail::new("the first write"));
    }
    Ok(())
}

/// A client that asks for two pieces: each message comes only behind the whole answer to the one before.
static WAITS: [Wait; 3] = [
    Wait {
        behind: 0,
        until: 39,
    },
    Wait {
        behind: 9,
        until: 78,
    },
    Wait {
        behind: 16,
        until: 78,
    },
];

/// Answers such a client.
fn mirror_waiting<R: Threads + Sync>(rt: &R, alloc: Global) -> Result<(Run, Vec<u8>), AllocError> {
    let asked = fetches(alloc, &[C, A])?;
    let stage = staged(b"", b"", FILE);
    let words = ["mirror", "q", "4711", "1"];
    run_turns(rt, alloc, &stage, &words, &asked, &WAITS, None)
}

#[test]
fn each_message_is_answered_before_the_next_is_read(rt: HostRuntime) -> Result<(), Fail> {
    let answers = given(rt.alloc(), &[Some(C), Some(A)])?;
    let ran = mirror_waiting(&rt, rt.alloc())?;
    if !is_only(&ran, 0, WHOLE, &answers) {
        return Err(Fail::new("what is told or sent"));
    }
    Ok(())
}
