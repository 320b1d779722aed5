// A mirror that lies to `draw`: each byte of its answers is changed, and they are cut everywhere. And one that waits.
use crate::drawing::{Call, draw};
use crate::messages::{fetches, given};
use crate::telling::is_only;
use crate::waiting::{Wait, run_turns};
use cli_stage::runs::Run;
use cli_stage::stage::staged;
use core_terms::Hash32;
use digest_layer::Sha;
use std::alloc::{AllocError, Global};
use std::test::Fail;
use std::thread::Threads;

/// Opens three pieces, of which each of the first two is the digest of the next one; the last one has no bytes.
const CHAIN: &[u8] =
    b"state auth auth auth unit; init make(x: unit): auth auth auth unit = auth(auth(auth(x))); query last(s: auth auth auth unit, x: unit): unit = unauth(unauth(unauth(s)));";

/// The line of the true outcome.
const TRUTH: &str = "done ()\n";

/// How many bytes ask for a piece, how many stand before a piece that is given, and how many a body has at most.
const FETCH: usize = 39;

const HEAD: usize = 7;

const MAX_BODY: u32 = 16_777_216;

/// What stands first in bytes that came: a piece, that it is lacking, or neither.
#[derive(Clone, Copy)]
enum Reply<'a> {
    Piece(&'a [u8]),
    Lack,
    Ended,
    Cut,
    TooLong(u32),
    Bad(u8, usize),
}

/// What stands first in these bytes.
fn next_reply(bytes: &[u8]) -> Reply<'_> {
    let [a, b, c, d, rest @ ..] = bytes else {
        return if bytes.is_empty() {
            Reply::Ended
        } else {
            Reply::Cut
        };
    };
    let len = u32::from_be_bytes([*a, *b, *c, *d]);
    if len > MAX_BODY {
        return Reply::TooLong(len);
    }
    match rest.split_at_checked(len as usize) {
        Some((body, _)) => reply_in(body),
        None => Reply::Cut,
    }
}

/// What the body of a message says.
fn reply_in(body: &[u8]) -> Reply<'_> {
    match body {
        [0x86, 0, 0, piece @ ..] => Reply::Piece(piece),
        [0x87, 0, 0] => Reply::Lack,
        [0x87, 0, 0, ..] => Reply::Bad(0x87, 3),
        [0x86, ..] => Reply::Bad(0x86, 1),
        [0x87, ..] => Reply::Bad(0x87, 1),
        [kind, ..] => Reply::Bad(*kind, 0),
        [] => Reply::Bad(0, 0),
    }
}

/// The digest of a piece as it is told.
fn digits(alloc: Global, piece: &[u8]) -> Result<String, AllocError> {
    let mut digits = String::new(alloc);
    for byte in &Sha::of(piece).0 {
        for digit in [*byte >> 4, *byte & 15] {
            digits.push(char::from_digit(u32::from(digit), 16).unwrap_or('x'))?;
        }
    }
    Ok(digits)
}

/// Whether this is replied where a piece is wanted and given.
fn is_wanted(reply: Reply, want: &[u8]) -> bool {
    match reply {
        Reply::Piece(came) => came == want,
        _ => false,
    }
}

/// What is told where this is replied in the place of a piece that is wanted.
fn rejection(alloc: Global, reply: Reply, place: usize, want: &[u8]) -> Result<String, AllocError> {
    match reply {
        Reply::Piece(came) => wrong_piece(alloc, came, place, want),
        Reply::Lack => missing(alloc, place, want),
        Reply::Ended => String::from_str(alloc, "reply ended\n"),
        Reply::Cut => String::from_str(alloc, "reply cut\n"),
        Reply::TooLong(len) => format!(in alloc; "message too long {len}\n"),
        Reply::Bad(kind, offset) => format!(in alloc; "bad message {kind} {offset}\n"),
    }
}

fn wrong_piece(
    alloc: Global,
    came: &[u8],
    place: usize,
    want: &[u8],
) -> Result<String, AllocError> {
    let (digest, found) = (digits(alloc, want)?, digits(alloc, came)?);
    format!(in alloc; "rejected wrong-piece {place} {digest} {found}\n")
}

fn missing(alloc: Global, place: usize, want: &[u8]) -> Result<String, AllocError> {
    let digest = digits(alloc, want)?;
    format!(in alloc; "rejected missing {place} {digest}\n")
}

/// What is told of these answers to a run that opens these pieces, and how many it asks for.
fn told(alloc: Global, answers: &[u8], pieces: &[&[u8]]) -> Result<(String, usize), AllocError> {
    let mut left = answers;
    for (place, piece) in pieces.iter().enumerate() {
        let reply = next_reply(left);
        if !is_wanted(reply, piece) {
            let line = rejection(alloc, reply, place, piece)?;
            return Ok((line, place.saturating_add(1)));
        }
        left = left.get(HEAD.saturating_add(piece.len())..).unwrap_or(&[]);
    }
    Ok((String::from_str(alloc, TRUTH)?, pieces.len()))
}

/// The pieces in the order in which they are opened, the messages that ask for them, and the true answers.
#[derive(Drop)]
struct Talk {
    outer: [u8; 32],
    inner: [u8; 32],
    asked: Vec<u8>,
    answers: Vec<u8>,
}

impl Talk {
    fn new(alloc: Global) -> Result<Talk, AllocError> {
        let inner = Sha::of(b"").0;
        let outer = Sha::of(&inner).0;
        Ok(Talk {
            outer,
            inner,
            asked: fetches(alloc, &[&outer, &inner, b""])?,
            answers: given(alloc, &[Some(&outer), Some(&inner), Some(b"")])?,
        })
    }

    fn call(&self) -> Call<'_> {
        (CHAIN, &self.outer, "last", "1")
    }

    /// Whether these answers are told so, and no more pieces are asked for than so many.
    fn is_drawn<R: Threads + Sync>(
        &self,
        rt: &R,
        alloc: Global,
        answers: &[u8],
        line: &str,
        count: usize,
    ) -> Result<bool, AllocError> {
        let Some(asked) = self.asked.get(..count.saturating_mul(FETCH)) else {
            return Ok(false);
        };
        let status = if line == TRUTH { 0 } else { 5 };
        let ran = draw(rt, alloc, self.call(), answers, 4096, &[])?;
        Ok(is_only(&ran, status, line, asked))
    }

    /// Whether these answers are told as they have to be, with the truth or without it.
    fn is_told<R: Threads + Sync>(
        &self,
        rt: &R,
        alloc: Global,
        answers: &[u8],
        is_true: bool,
    ) -> Result<bool, AllocError> {
        let (line, count) = told(alloc, answers, &[&self.outer, &self.inner, b""])?;
        if is_true != (line.as_str() == TRUTH) {
            return Ok(false);
        }
        self.is_drawn(rt, alloc, answers, &line, count)
    }

    /// Whether it is told without the truth where the byte at a place is changed.
    fn is_change_told<R: Threads + Sync>(
        &self,
        rt: &R,
        alloc: Global,
        at: usize,
        change: u8,
    ) -> Result<bool, AllocError> {
        let mut answers = self.answers.to_vec(alloc)?;
        if let Some(byte) = answers.get_mut(at) {
            *byte ^= change;
        }
        self.is_told(rt, alloc, &answers, false)
    }

    /// Whether it is so where the byte at a place is changed twice, and where it and those behind it don't come.
    fn is_lie_told<R: Threads + Sync>(
        &self,
        rt: &R,
        alloc: Global,
        at: usize,
    ) -> Result<bool, AllocError> {
        for change in [1, 0x80] {
            if !self.is_change_told(rt, alloc, at, change)? {
                return Ok(false);
            }
        }
        self.is_told(rt, alloc, self.answers.get(..at).unwrap_or(&[]), false)
    }
}

#[test]
fn no_lie_is_taken_for_the_truth(rt: HostRuntime) -> Result<(), Fail> {
    let alloc = rt.alloc();
    let talk = Talk::new(alloc)?;
    if talk.answers.len() != 85 || !talk.is_told(&rt, alloc, &talk.answers, true)? {
        return Err(Fail::new("the true answers"));
    }
    for at in 0..85 {
        if !talk.is_lie_told(&rt, alloc, at)? {
            return Err(Fail::new(format_args!("byte {at}")));
        }
    }
    Ok(())
}

/// A mirror whose answers come each only behind the whole message that asks for it.
static WAITS: [Wait; 3] = [
    Wait {
        behind: 39,
        until: 39,
    },
    Wait {
        behind: 78,
        until: 78,
    },
    Wait {
        behind: 117,
        until: 85,
    },
];

/// Draws the call from such a mirror.
fn draw_waiting<R: Threads + Sync>(
    rt: &R,
    alloc: Global,
    talk: &Talk,
) -> Result<(Run, Vec<u8>), AllocError> {
    let state = Sha::of(&talk.outer).0;
    let stage = staged(CHAIN, &state, b"");
    let words = ["draw", "p", "last", "s", "()", "1", "4711"];
    run_turns(rt, alloc, &stage, &words, &talk.answers, &WAITS, None)
}

#[test]
fn each_message_is_sent_before_its_answer_is_read(rt: HostRuntime) -> Result<(), Fail> {
    let talk = Talk::new(rt.alloc())?;
    let ran = draw_waiting(&rt, rt.alloc(), &talk)?;
    if !is_only(&ran, 0, TRUTH, &talk.asked) {
        return Err(Fail::new("what is told or sent"));
    }
    Ok(())
}
