// What `ask` tells, stores and sends.
ghost use Rattle.std.specs.Prelude.{◌<◌};

use crate::messages::{answers, conversation};
use crate::states::state;
use crate::telling::{is_told_to, link};
use cli_stage::runs::{Peers, Run, run_on_net};
use cli_stage::stage::{STATE, Stage, staged};
use program_texts::{FIRST, SWITCH};
use std::alloc::{AllocError, Global};
use std::test::Fail;
use std::thread::Threads;

/// A script that opens a session, calls once and closes.
const SCRIPT: &[u8] = b"open 1 0\ncall 1 open 1 ()\ngo\nclose 1\n";

/// The calls of the net, of the files and of the output that fail.
#[derive(Clone, Copy)]
pub struct Failing<'a> {
    pub net: &'a [u64],
    pub files: &'a [u64],
    pub writes: &'a [u64],
}

/// None of them.
pub static NONE: Failing<'static> = Failing {
    net: &[],
    files: &[],
    writes: &[],
};

/// Asks a server that replies so at a state of a program, where so many bytes move at once.
fn ask_at<R: Threads + Sync>(
    rt: &R,
    alloc: Global,
    stage: &Stage,
    replies: &[u8],
    most: usize,
    failing: &Failing,
) -> Result<(Run, Vec<u8>), AllocError>
    requires read { 0 < stage.now.most_read }
    requires moved { 0 < most }
{
    let links = link(alloc, replies)?;
    let peers = Peers {
        bytes: &links,
        most,
        failing: failing.net,
    };
    let words = ["ask", "p", "s", "4711", "q", "o"];
    let writes = (100, failing.writes);
    run_on_net(rt, alloc, stage, &words, &peers, failing.files, writes)
}

/// Plays the script with a server that replies so.
fn ask<R: Threads + Sync>(
    rt: &R,
    alloc: Global,
    replies: &[u8],
    most: usize,
    failing: &Failing,
) -> Result<(Run, Vec<u8>), AllocError>
    requires { 0 < most }
{
    let stage = staged(FIRST, &STATE, SCRIPT);
    ask_at(rt, alloc, &stage, replies, most, failing)
}

/// Plays the script with a server that answers all of it.
fn ask_answered<R: Threads + Sync>(
    rt: &R,
    alloc: Global,
    most: usize,
    failing: &Failing,
) -> Result<(Run, Vec<u8>), AllocError>
    requires { 0 < most }
{
    let replies = answers(alloc, FRAMES)?;
    ask(rt, alloc, &replies, most, failing)
}

/// Frames with one new piece of no bytes.
const FRAMES: &[u8] = &[0, 0, 0, 0, 0];

/// All that is told where nothing fails.
const WHOLE: &str = "1 welcome\n1 done ()\n1 closed\n";

/// How many bytes move at once.
static SIZES: [usize; 5] = [1, 2, 3, 7, 4096];

/// Whether all is told, stored and sent, where so many bytes move at once.
fn is_whole<R: Threads + Sync>(rt: &R, alloc: Global, most: usize) -> Result<bool, AllocError>
    requires { 0 < most }
{
    let said = conversation(alloc, FIRST, &STATE, 1, u32::MAX)?;
    let ran = ask_answered(rt, alloc, most, &NONE)?;
    Ok(ran.0.stores(0, WHOLE, &STATE) && ran.1.as_slice() == said.as_slice())
}

#[test]
fn a_script_is_played(rt: HostRuntime) -> Result<(), Fail> {
    for most in &SIZES {
        if !is_whole(&rt, rt.alloc(), (*most).max(1))? {
            return Err(Fail::new(format_args!("{most} at once")));
        }
    }
    Ok(())
}

/// Replies to the greeting of session 1, and what is told of them.
static ENDED: [(&[u8], &str); 9] = [
    (b"\0\0\0\x03\x01\0\x01", "bad message 1 0\n"),
    (b"\0\0\0\x03\x85\0\x01", "bad message 133 3\n"),
    (b"\0\0\0\x04\x85\0\x02\0", "bad reply 2 stranger\n"),
    (b"\0\0\0\x03\x82\0\x01", "bad reply 1 wrong 130\n"),
    (b"\0\0\0\x04\x84\0\0\x0b", "server closed 11\n"),
    (b"\x01\0\0\x01", "message too long 16777217\n"),
    (b"\0\0\0", "reply cut\n"),
    (b"", "reply ended\n"),
    (
        b"\0\0\0\x03\x81\0\x01\0\0\0\x03\x82\0\x01",
        "1 welcome\n1 rejected short 0\n",
    ),
];

#[test]
fn other_replies_end_the_play(rt: HostRuntime) -> Result<(), Fail> {
    for (replies, text) in &ENDED {
        let ran = ask(&rt, rt.alloc(), replies, 3, &NONE)?;
        if !ran.0.stores(5, text, &STATE) {
            return Err(Fail::new(format_args!("{text}")));
        }
    }
    Ok(())
}

/// The line of a link that failed.
const FAULT: &[u8] = b"link fault\n";

/// Whether a play of which a call of the net failed ended as it has to: one line where it couldn't dial, and nothing was stored; else the
/// first lines of a play that doesn't fail, that of the fault, and the state was stored.
fn is_faulted(run: &Run, call: u64) -> bool {
    let text = run.text.as_slice();
    if call == 0 {
        return run.only_tells(8, "link fault\n");
    }
    run.status == 8
        && text.ends_with(FAULT)
        && is_front(text.get(..text.len().saturating_sub(FAULT.len())))
        && run.stored == 1
        && run.file.as_slice() == STATE.as_slice()
}

/// Whether these are some first lines of those that are told where nothing fails.
fn is_front(lines: Option<&[u8]>) -> bool {
    let Some(lines) = lines else {
        return false;
    };
    WHOLE.as_bytes().starts_with(lines) && (lines.is_empty() || lines.ends_with(b"\n"))
}

/// The number of calls of the net: of the first that may fail and nothing is told of it.
fn first_unfailing<R: Threads + Sync>(rt: &R, alloc: Global) -> Result<u64, AllocError> {
    for call in 0..100 {
        let net = [call];
        let failing = Failing { net: &net, ..NONE };
        let ran = ask_answered(rt, alloc, 4096, &failing)?;
        if !is_faulted(&ran.0, call) {
            return Ok(if ran.0.tells(0, WHOLE) { call } else { 100 });
        }
    }
    Ok(100)
}

#[test]
fn each_call_of_the_net_fails_once(rt: HostRuntime) -> Result<(), Fail> {
    let calls = first_unfailing(&rt, rt.alloc())?;
    if !(10..100).contains(&calls) {
        return Err(Fail::new(format_args!("call {calls}")));
    }
    Ok(())
}

/// The call of the files that stores, behind a start, a read of all and a read at the end of each of three files.
const STORE: u64 = 9;

/// Whether a file that can't be read, or a state that can't be stored, is told as it has to be, where this call of the files fails.
fn is_told_of_files<R: Threads + Sync>(
    rt: &R,
    alloc: Global,
    call: u64,
) -> Result<bool, AllocError> {
    let files = [call];
    let failing = Failing {
        files: &files,
        ..NONE
    };
    let ran = ask_answered(rt, alloc, 4096, &failing)?;
    Ok(if call < STORE {
        ran.0.only_tells(8, "read fault\n")
    } else {
        ran.0.tells(9, WHOLE)
    })
}

#[test]
fn each_call_of_the_files_fails_once(rt: HostRuntime) -> Result<(), Fail> {
    for call in 0..=STORE {
        if !is_told_of_files(&rt, rt.alloc(), call)? {
            return Err(Fail::new(format_args!("call {call}")));
        }
    }
    Ok(())
}

/// The lines before the write that fails.
static BEFORE: [&str; 3] = ["", "1 welcome\n", "1 welcome\n1 done ()\n"];

/// Whether these lines alone are told, and the state is stored all the same, where this write fails.
fn is_told_before<R: Threads + Sync>(
    rt: &R,
    alloc: Global,
    write: u64,
    text: &str,
) -> Result<bool, AllocError> {
    let writes = [write];
    let failing = Failing {
        writes: &writes,
        ..NONE
    };
    let ran = ask_answered(rt, alloc, 4096, &failing)?;
    Ok(ran.0.stores(9, text, &STATE))
}

#[test]
fn each_write_fails_once(rt: HostRuntime) -> Result<(), Fail> {
    for (write, text) in BEFORE.iter().enumerate() {
        if !is_told_before(&rt, rt.alloc(), write as u64, text)? {
            return Err(Fail::new(format_args!("{text}")));
        }
    }
    Ok(())
}

/// Asks a server at the state of `true` for a flip, to which it replies.
fn ask_for_flip<R: Threads + Sync>(rt: &R, alloc: Global) -> Result<(Run, Vec<u8>), AllocError> {
    let first = state(rt, alloc, "true")?;
    let replies = answers(alloc, &[0, 0, 0, 0, 1, 1])?;
    let stage = staged(SWITCH, &first, b"open 1 0\ncall 1 flip 1 ()\ngo\nclose 1");
    ask_at(rt, alloc, &stage, &replies, 4096, &NONE)
}

/// An update's new state is stored.
#[test]
fn the_last_state_is_stored(rt: HostRuntime) -> Result<(), Fail> {
    let last = state(&rt, rt.alloc(), "false")?;
    let (run, _) = ask_for_flip(&rt, rt.alloc())?;
    if run.status == 0 && run.stored == 1 && run.file.as_slice() == last.as_slice() {
        return Ok(());
    }
    Err(Fail::new(format_args!("{}", run.status)))
}

/// Words, a state, a script, and the line by which one of them is refused.
static REFUSED: [(&str, &[u8], &[u8], &str); 8] = [
    ("ask p s 0 q o", b"x", b"x", "input refused: number PORT\n"),
    (
        "ask p s 65536 q o",
        b"x",
        b"x",
        "input refused: number PORT\n",
    ),
    ("ask p s 1 q o", b"x", b"x", "input refused: state 0\n"),
    ("ask p s 1 q o", &STATE, b"x", "input refused: script 1\n"),
    (
        "ask p s 1 q o",
        &STATE,
        b"\nopen 1 0\nopen 0 0\n",
        "input refused: script 3\n",
    ),
    (
        "ask p s 1 q o",
        &STATE,
        b"open 1 1025",
        "input refused: script 1\n",
    ),
    (
        "ask p s 1 q o",
        &STATE,
        b"call 1 make 1 ()",
        "input refused: script 1\n",
    ),
    (
        "ask p s 1 q o",
        &STATE,
        b"call 1 open 1 1",
        "input refused: script 1\n",
    ),
];

#[test]
fn words_states_and_scripts_are_refused(rt: HostRuntime) -> Result<(), Fail> {
    for (words, state, script, text) in &REFUSED {
        let stage = staged(FIRST, state, script);
        if !is_told_to(&rt, rt.alloc(), &stage, words, &[], 7, text)? {
            return Err(Fail::new(format_args!("{text}")));
        }
    }
    Ok(())
}
