// What `found`, `host` and `replay` tell and send, and what they leave in a journal.
ghost use Rattle.std.specs.Prelude.{◌<◌};

use crate::messages::{answers, race, raced};
use crate::states::{BOTH, FLIP, called, image, state};
use crate::telling::{is_only, link};
use cli_stage::runs::{Peers, Run, run_hosting, run_on_disk};
use cli_stage::stage::{Stage, disk, staged};
use program_texts::SWITCH;
use std::alloc::{AllocError, Global};
use std::test::Fail;
use std::thread::Threads;

/// The frames of the proof of a flip of `true`.
const FRAMES: [u8; 6] = [0, 0, 0, 0, 1, 1];

/// The record of a flip with fuel 1, behind an open gate, and the closed gate behind it.
const RECORD: &[u8] = b"\x01\0\x02\0\0\0\0\0\0\0\x01\0\0\0\0\0";

/// All that `host` tells of a flip where nothing fails.
const WHOLE: &str = "listening 4711\nversions 2 commits 1\n";

/// What a run over a net and a disk told and sent, and the journal that it left on the disk.
#[derive(Drop)]
struct Hosted {
    ran: (Run, Vec<u8>),
    journal: Vec<u8>,
}

impl Hosted {
    /// Whether it ended well and told this alone.
    fn tells(&self, text: &str) -> bool {
        self.ran.0.only_tells(0, text)
    }

    /// Whether it left this journal with the record of a flip behind it.
    fn keeps_flip(&self, alloc: Global, first: &[u8]) -> Result<bool, AllocError> {
        let kept = with_record(alloc, first)?;
        Ok(self.journal.as_slice() == kept.as_slice())
    }
}

/// Runs words over a disk on which these bytes are the journal, if any; and what stands in its place then.
fn run_over<R: Threads + Sync>(
    rt: &R,
    alloc: Global,
    stage: &Stage,
    words: &[&str],
    before: Option<&[u8]>,
) -> Result<(Run, Vec<u8>), AllocError>
    requires { 0 < stage.now.most_read }
{
    let mut disk = disk(alloc, before, &[])?;
    let run = run_on_disk(rt, alloc, stage, words, &mut disk, &[], (100, &[]))?;
    Ok((run, disk.bytes().to_vec(alloc)?))
}

/// Makes a journal of `true` on a disk, where these bytes are in its place, if any; and what stands there then.
fn found<R: Threads + Sync>(
    rt: &R,
    alloc: Global,
    before: Option<&[u8]>,
) -> Result<(Run, Vec<u8>), AllocError> {
    let image = image(rt, alloc, "true")?;
    let stage = staged(SWITCH, b"", &image);
    run_over(rt, alloc, &stage, &["found", "p", "q", "j"], before)
}

/// Stores the last version that a journal keeps; and what the journal is then.
fn replay<R: Threads + Sync>(
    rt: &R,
    alloc: Global,
    journal: &[u8],
) -> Result<(Run, Vec<u8>), AllocError> {
    let stage = staged(SWITCH, b"", b"");
    let words = ["replay", "p", "j", "o"];
    run_over(rt, alloc, &stage, &words, Some(journal))
}

/// Hosts a journal on one link, on which the state of a literal is greeted and flipped, where these calls of the disk
/// fail.
fn host<R: Threads + Sync>(
    rt: &R,
    alloc: Global,
    literal: &str,
    journal: &[u8],
    failing: &[u64],
) -> Result<Hosted, AllocError> {
    let coming = called(rt, alloc, literal, FLIP)?;
    host_on(rt, alloc, &coming, journal, failing)
}

/// The same on a link on which this comes.
fn host_on<R: Threads + Sync>(
    rt: &R,
    alloc: Global,
    coming: &[u8],
    journal: &[u8],
    failing: &[u64],
) -> Result<Hosted, AllocError> {
    let links = link(alloc, coming)?;
    let peers = Peers {
        bytes: &links,
        most: 4096,
        failing: &[],
    };
    host_peers(rt, alloc, &peers, journal, failing)
}

/// The same over a net with these peers.
fn host_peers<R: Threads + Sync>(
    rt: &R,
    alloc: Global,
    peers: &Peers,
    journal: &[u8],
    failing: &[u64],
) -> Result<Hosted, AllocError>
    requires { 0 < peers.now.most }
{
    let stage = staged(SWITCH, b"", b"");
    let words = ["host", "p", "j", "4711", "1", "1"];
    let mut disk = disk(alloc, Some(journal), failing)?;
    let ran = run_hosting(rt, alloc, &stage, &words, peers, &mut disk, (100, &[]))?;
    let journal = disk.bytes().to_vec(alloc)?;
    Ok(Hosted { ran, journal })
}

/// The bytes of a journal of `true` without commits.
fn first_journal<R: Threads + Sync>(rt: &R, alloc: Global) -> Result<Vec<u8>, AllocError> {
    let (run, journal) = found(rt, alloc, None)?;
    if !run.only_tells(0, "") {
        return Ok(Vec::new(alloc));
    }
    Ok(journal)
}

/// A journal without commits, and the record of a flip in the place of its closed gate.
fn with_record(alloc: Global, first: &[u8]) -> Result<Vec<u8>, AllocError> {
    let mut bytes = Vec::new(alloc);
    if let Some((_, front)) = first.split_last() {
        bytes.extend_from_slice(front)?;
    }
    bytes.extend_from_slice(RECORD)?;
    Ok(bytes)
}

/// The same bytes with a bit of this one changed.
fn changed(alloc: Global, bytes: &[u8], at: usize) -> Result<Vec<u8>, AllocError> {
    let mut other = bytes.to_vec(alloc)?;
    if let Some(byte) = other.get_mut(at) {
        *byte ^= 1;
    }
    Ok(other)
}

/// Whether `replay` tells this of a journal, and stores the state of a literal.
fn is_replayed<R: Threads + Sync>(
    rt: &R,
    alloc: Global,
    journal: &[u8],
    text: &str,
    literal: &str,
) -> Result<bool, AllocError> {
    let last = image(rt, alloc, literal)?;
    let ran = replay(rt, alloc, journal)?;
    Ok(ran.0.stores(0, text, &last))
}

/// Whether these bytes have the length and the ends of a journal of `true` without commits.
fn is_first<R: Threads + Sync>(rt: &R, alloc: Global, bytes: &[u8]) -> Result<bool, AllocError> {
    let image = image(rt, alloc, "true")?;
    Ok(
        bytes.starts_with(b"LAJ1")
            && bytes.ends_with(b"\0")
            && bytes.len() == image.len().saturating_add(41),
    )
}

/// Whether no journal is made where these bytes are, and they are left.
fn is_left<R: Threads + Sync>(rt: &R, alloc: Global, bytes: &[u8]) -> Result<bool, AllocError> {
    let ran = found(rt, alloc, Some(bytes))?;
    Ok(is_only(&ran, 7, "input refused: journal not empty\n", bytes))
}

#[test]
fn a_journal_is_made_and_replayed(rt: HostRuntime) -> Result<(), Fail> {
    let alloc = rt.alloc();
    let bytes = first_journal(&rt, alloc)?;
    if !is_first(&rt, alloc, &bytes)? {
        return Err(Fail::new("the first journal"));
    }
    if !is_replayed(&rt, alloc, &bytes, "versions 1 commits 0\n", "true")? {
        return Err(Fail::new("its replay"));
    }
    if !is_left(&rt, alloc, &bytes)? {
        return Err(Fail::new("a second one in its place"));
    }
    Ok(())
}

/// Whether a flip is told and answered.
fn is_flip_answered(alloc: Global, hosted: &Hosted) -> Result<bool, AllocError> {
    let answers = answers(alloc, &FRAMES)?;
    Ok(is_only(&hosted.ran, 0, WHOLE, &answers))
}

/// Fails where a flip is not told and answered, not kept behind this journal, or not replayed.
fn check_flip<R: Threads + Sync>(
    rt: &R,
    alloc: Global,
    hosted: &Hosted,
    first: &[u8],
) -> Result<(), Fail> {
    if !is_flip_answered(alloc, hosted)? {
        return Err(Fail::new("the commit"));
    }
    if !hosted.keeps_flip(alloc, first)? {
        return Err(Fail::new("the journal"));
    }
    if !is_replayed(
        rt,
        alloc,
        &hosted.journal,
        "versions 2 commits 1\n",
        "false",
    )? {
        return Err(Fail::new("its replay"));
    }
    Ok(())
}

#[test]
fn a_commit_is_kept_and_told(rt: HostRuntime) -> Result<(), Fail> {
    let first = first_journal(&rt, rt.alloc())?;
    let hosted = host(&rt, rt.alloc(), "true", &first, &[])?;
    check_flip(&rt, rt.alloc(), &hosted, &first)
}

/// Hosts a journal of `true` and a flip, where the last version is flipped back.
fn host_again<R: Threads + Sync>(rt: &R, alloc: Global) -> Result<Hosted, AllocError> {
    let first = first_journal(rt, alloc)?;
    let kept = with_record(alloc, &first)?;
    host(rt, alloc, "false", &kept, &[])
}

/// The first version is one still.
#[test]
fn a_journal_is_hosted_again_from_its_last_version(rt: HostRuntime) -> Result<(), Fail> {
    let alloc = rt.alloc();
    let hosted = host_again(&rt, alloc)?;
    if !hosted.tells("listening 4711\nversions 3 commits 2\n") {
        return Err(Fail::new("the commit"));
    }
    let journal = &hosted.journal;
    if !is_replayed(&rt, alloc, journal, "versions 3 commits 2\n", "true")? {
        return Err(Fail::new("its replay"));
    }
    Ok(())
}

/// Whether `replay` tells this of these bytes, where it stores nothing.
fn is_refused<R: Threads + Sync>(
    rt: &R,
    alloc: Global,
    journal: &[u8],
    text: &str,
) -> Result<bool, AllocError> {
    let ran = replay(rt, alloc, journal)?;
    Ok(ran.0.only_tells(7, text))
}

/// Whether it does so where a bit of this byte is changed.
fn is_change_refused<R: Threads + Sync>(
    rt: &R,
    alloc: Global,
    journal: &[u8],
    at: usize,
    text: &str,
) -> Result<bool, AllocError> {
    let other = changed(alloc, journal, at)?;
    is_refused(rt, alloc, &other, text)
}

/// Journals that end in their magic or behind it, and what is told of them.
static CUT: [(&[u8], &str); 3] = [
    (b"", "input refused: journal magic\n"),
    (b"LAJ2", "input refused: journal magic\n"),
    (b"LAJ1", "input refused: journal cut 4\n"),
];

/// Bytes of a journal, and what is told where they are changed.
static CHANGED: [(usize, &str); 2] = [
    (4, "input refused: journal program\n"),
    (40, "input refused: journal image magic\n"),
];

/// Fails where a changed journal is not refused so.
fn check_changed<R: Threads + Sync>(rt: &R, alloc: Global, first: &[u8]) -> Result<(), Fail> {
    for (at, text) in &CHANGED {
        if !is_change_refused(rt, alloc, first, *at, text)? {
            return Err(Fail::new(format_args!("{text}")));
        }
    }
    Ok(())
}

#[test]
fn a_journal_is_refused_for_its_first_fault(rt: HostRuntime) -> Result<(), Fail> {
    for (journal, text) in &CUT {
        if !is_refused(&rt, rt.alloc(), journal, text)? {
            return Err(Fail::new(format_args!("{text}")));
        }
    }
    let first = first_journal(&rt, rt.alloc())?;
    check_changed(&rt, rt.alloc(), &first)
}

#[test]
fn a_record_of_no_update_is_refused(rt: HostRuntime) -> Result<(), Fail> {
    let alloc = rt.alloc();
    let first = first_journal(&rt, alloc)?;
    let kept = with_record(alloc, &first)?;
    // the number of the role, behind the gate: that of no update
    let at = first.len().saturating_add(1);
    if !is_change_refused(&rt, alloc, &kept, at, "input refused: journal record 0\n")? {
        return Err(Fail::new("the record"));
    }
    Ok(())
}

/// Words over a journal of one byte, and what is told of them.
static NUMBERS: [([&str; 6], &str); 4] = [
    (
        ["host", "p", "j", "0", "1", "1"],
        "input refused: number PORT\n",
    ),
    (
        ["host", "p", "j", "1", "1001", "1"],
        "input refused: number CONNS\n",
    ),
    (
        ["host", "p", "j", "1", "1", "0"],
        "input refused: number SLICE\n",
    ),
    (
        ["host", "p", "j", "1", "1", "1"],
        "input refused: journal magic\n",
    ),
];

#[test]
fn the_numbers_come_before_the_journal(rt: HostRuntime) -> Result<(), Fail> {
    let stage = staged(SWITCH, b"", b"");
    for (words, text) in &NUMBERS {
        let ran = run_over(&rt, rt.alloc(), &stage, words, Some(b"x"))?;
        if !ran.0.only_tells(7, text) {
            return Err(Fail::new(format_args!("{text}")));
        }
    }
    Ok(())
}

/// Whether a host of which a call of the disk failed ended as it has to: without a line where the journal could not be
/// opened for a write, with `read fault` for a read, and with the line of its port alone where a commit was not kept.
fn has_ended(ran: &(Run, Vec<u8>), whole: &[u8]) -> bool {
    let (run, sent) = ran;
    let opened = run.only_tells(9, "") || run.only_tells(9, "listening 4711\n");
    match run.status {
        0 => is_only(ran, 0, WHOLE, whole),
        8 => is_only(ran, 8, "read fault\n", b""),
        9 => opened && sent.len() < 8,
        _ => false,
    }
}

/// Whether `replay` tells of a commit in this journal, or of none where none was told.
fn is_kept<R: Threads + Sync>(
    rt: &R,
    alloc: Global,
    journal: &[u8],
    status: u8,
) -> Result<bool, AllocError> {
    let ran = replay(rt, alloc, journal)?;
    let none = ran.0.tells(0, "versions 1 commits 0\n");
    Ok(ran.0.tells(0, "versions 2 commits 1\n") || (none && status != 0))
}

/// Whether a host of which a call of the disk failed ended as it has to, and told no commit that its journal hasn't.
fn keeps_what_it_told<R: Threads + Sync>(
    rt: &R,
    alloc: Global,
    first: &[u8],
    call: u64,
) -> Result<bool, AllocError> {
    let hosted = host(rt, alloc, "true", first, &[call])?;
    let whole = answers(alloc, &FRAMES)?;
    if !has_ended(&hosted.ran, &whole) {
        return Ok(false);
    }
    is_kept(rt, alloc, &hosted.journal, hosted.ran.0.status)
}

#[test]
fn each_call_of_the_disk_fails_once(rt: HostRuntime) -> Result<(), Fail> {
    let alloc = rt.alloc();
    let first = first_journal(&rt, alloc)?;
    for call in 1..12 {
        if !keeps_what_it_told(&rt, alloc, &first, call)? {
            return Err(Fail::new(format_args!("call {call}")));
        }
    }
    Ok(())
}

/// Hosts a journal where a role is called that commits nothing.
fn host_both<R: Threads + Sync>(rt: &R, alloc: Global, first: &[u8]) -> Result<Hosted, AllocError> {
    let coming = called(rt, alloc, "true", BOTH)?;
    host_on(rt, alloc, &coming, first, &[])
}

#[test]
fn a_role_that_commits_nothing_leaves_the_journal(rt: HostRuntime) -> Result<(), Fail> {
    let first = first_journal(&rt, rt.alloc())?;
    let hosted = host_both(&rt, rt.alloc(), &first)?;
    if !hosted.tells("listening 4711\nversions 1 commits 0\n") || hosted.ran.1.is_empty() {
        return Err(Fail::new("the call"));
    }
    if hosted.journal.as_slice() != first.as_slice() {
        return Err(Fail::new("the journal"));
    }
    Ok(())
}

/// Hosts a journal where two flips of `true` race.
fn host_race<R: Threads + Sync>(rt: &R, alloc: Global, first: &[u8]) -> Result<Hosted, AllocError> {
    let old = state(rt, alloc, "true")?;
    let coming = race(alloc, SWITCH, &old, FLIP)?;
    host_on(rt, alloc, &coming, first, &[])
}

/// Whether one of them is told, and both are answered.
fn is_race_answered<R: Threads + Sync>(
    rt: &R,
    alloc: Global,
    hosted: &Hosted,
) -> Result<bool, AllocError> {
    let new = state(rt, alloc, "false")?;
    let answers = raced(alloc, &FRAMES, &new)?;
    Ok(is_only(&hosted.ran, 0, WHOLE, &answers))
}

#[test]
fn of_two_updates_that_race_one_is_kept(rt: HostRuntime) -> Result<(), Fail> {
    let alloc = rt.alloc();
    let first = first_journal(&rt, alloc)?;
    let hosted = host_race(&rt, alloc, &first)?;
    if !is_race_answered(&rt, alloc, &hosted)? {
        return Err(Fail::new("the answers"));
    }
    if !hosted.keeps_flip(alloc, &first)? {
        return Err(Fail::new("the journal"));
    }
    Ok(())
}
