// Peers that wait: each says the next thing only once it has all that it waits for.
ghost use Rattle.std.specs.Prelude.{◌<◌};

use crate::messages::{answers, conversation};
use cli_stage::runs::{Run, made, run_waiting};
use cli_stage::stage::{STATE, Stage, staged};
use cli_stage::waiting::Turn;
use program_texts::FIRST;
use std::alloc::{AllocError, Global};
use std::test::Fail;
use std::thread::Threads;

/// How many bytes in all a peer waits for, and up to where it says then what it says.
#[derive(Clone, Copy)]
pub struct Wait {
    pub behind: usize,
    pub until: usize,
}

/// A client: HELLO, CALL and GO behind WELCOME, BYE behind DONE, and the end behind CLOSED.
static CLIENT: [Wait; 5] = [
    Wait {
        behind: 0,
        until: 73,
    },
    Wait {
        behind: 7,
        until: 90,
    },
    Wait {
        behind: 7,
        until: 101,
    },
    Wait {
        behind: 19,
        until: 108,
    },
    Wait {
        behind: 27,
        until: 108,
    },
];

/// A server: WELCOME behind HELLO, DONE behind CALL and GO, CLOSED behind BYE.
static SERVER: [Wait; 3] = [
    Wait {
        behind: 73,
        until: 7,
    },
    Wait {
        behind: 101,
        until: 19,
    },
    Wait {
        behind: 108,
        until: 27,
    },
];

/// What a client says, and what is replied: a proof of one new piece of no bytes.
#[derive(Drop)]
struct Talk {
    said: Vec<u8>,
    replied: Vec<u8>,
}

impl Talk {
    fn new(alloc: Global) -> Result<Talk, AllocError> {
        Ok(Talk {
            said: conversation(alloc, FIRST, &STATE, 1, u32::MAX)?,
            replied: answers(alloc, &[0, 0, 0, 0, 0])?,
        })
    }
}

/// The turns of a peer that says these bytes, where it waits for a byte more than is sent before it takes the turn with this number.
fn turns<'a>(
    alloc: Global,
    said: &'a [u8],
    waits: &[Wait],
    endless: Option<usize>,
) -> Result<Vec<Turn<'a>>, AllocError> {
    let mut turns = Vec::new(alloc);
    let mut from = 0;
    for (number, wait) in waits.iter().enumerate() {
        let more = usize::from(endless == Some(number));
        turns.push(Turn {
            after: wait.behind.saturating_add(more),
            bytes: said.get(from..wait.until).unwrap_or(&[]),
        })?;
        from = wait.until;
    }
    Ok(turns)
}

/// Runs words over a net with a peer that says these bytes in such turns.
pub fn run_turns<R: Threads + Sync>(
    rt: &R,
    alloc: Global,
    stage: &Stage,
    words: &[&str],
    said: &[u8],
    waits: &[Wait],
    endless: Option<usize>,
) -> Result<(Run, Vec<u8>), AllocError>
    requires { 0 < stage.now.most_read }
{
    let turns = turns(alloc, said, waits, endless)?;
    run_waiting(rt, alloc, stage, words, &turns)
}

/// Serves such a client.
fn serve<R: Threads + Sync>(
    rt: &R,
    alloc: Global,
    talk: &Talk,
    endless: Option<usize>,
) -> Result<(Run, Vec<u8>), AllocError> {
    let image = made(rt, alloc, FIRST, "make", "()")?.file;
    let stage = staged(FIRST, b"", &image);
    let words = ["serve", "p", "q", "4711", "1", "1", "o"];
    run_turns(rt, alloc, &stage, &words, &talk.said, &CLIENT, endless)
}

/// Asks such a server.
fn ask<R: Threads + Sync>(
    rt: &R,
    alloc: Global,
    talk: &Talk,
    endless: Option<usize>,
) -> Result<(Run, Vec<u8>), AllocError> {
    let script = b"open 1 0\ncall 1 open 1 ()\ngo\nclose 1\n";
    let stage = staged(FIRST, &STATE, script);
    let words = ["ask", "p", "s", "4711", "q", "o"];
    run_turns(rt, alloc, &stage, &words, &talk.replied, &SERVER, endless)
}

#[test]
fn each_message_is_answered_before_the_next_is_read(rt: HostRuntime) -> Result<(), Fail> {
    let alloc = rt.alloc();
    let talk = Talk::new(alloc)?;
    let ran = serve(&rt, alloc, &talk, None)?;
    if !ran.0.tells(0, "listening 4711\nversions 1 commits 0\n") {
        return Err(Fail::new("what is told"));
    }
    if ran.1.as_slice() != talk.replied.as_slice() {
        return Err(Fail::new("what is sent"));
    }
    Ok(())
}

#[test]
fn each_request_is_sent_whole_before_a_reply_is_read(rt: HostRuntime) -> Result<(), Fail> {
    let alloc = rt.alloc();
    let talk = Talk::new(alloc)?;
    let ran = ask(&rt, alloc, &talk, None)?;
    if !ran.0.tells(0, "1 welcome\n1 done ()\n1 closed\n") {
        return Err(Fail::new("what is told"));
    }
    if ran.1.as_slice() != talk.said.as_slice() {
        return Err(Fail::new("what is sent"));
    }
    Ok(())
}

/// Whether a read that would wait for ever ended a run.
fn is_seen(run: &Run) -> bool {
    run.status == 8 && run.text.ends_with(b"link fault\n")
}

/// Fails where it is not seen in one of the turns of a client.
fn check_client<R: Threads + Sync>(rt: &R, alloc: Global, talk: &Talk) -> Result<(), Fail> {
    for number in 0..CLIENT.len() {
        if !is_seen(&serve(rt, alloc, talk, Some(number))?.0) {
            return Err(Fail::new(format_args!("turn {number} of a client")));
        }
    }
    Ok(())
}

/// Fails where it is not seen in one of the turns of a server.
fn check_server<R: Threads + Sync>(rt: &R, alloc: Global, talk: &Talk) -> Result<(), Fail> {
    for number in 0..SERVER.len() {
        if !is_seen(&ask(rt, alloc, talk, Some(number))?.0) {
            return Err(Fail::new(format_args!("turn {number} of a server")));
        }
    }
    Ok(())
}

#[test]
fn a_read_that_would_wait_for_ever_is_seen(rt: HostRuntime) -> Result<(), Fail> {
    let talk = Talk::new(rt.alloc())?;
    check_client(&rt, rt.alloc(), &talk)?;
    check_server(&rt, rt.alloc(), &talk)
}
