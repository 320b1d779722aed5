// What `serve` tells, stores and sends.
ghost use Rattle.std.specs.Prelude.{◌<◌};

use crate::messages::answers;
use crate::states::{BOTH, FLIP, called, image};
use crate::telling::is_told_to;
use cli_stage::runs::{Peers, Run, Writes, run_on_net};
use cli_stage::stage::staged;
use program_texts::SWITCH;
use std::alloc::{AllocError, Global};
use std::test::Fail;
use std::thread::Threads;

/// What comes on the two links of a serving from `true` on: on the first the state is flipped, and on the second the new one is looked at.
fn peers<R: Threads + Sync>(rt: &R, alloc: Global) -> Result<Vec<Vec<u8>>, AllocError> {
    let mut all = Vec::new(alloc);
    all.push(called(rt, alloc, "true", FLIP)?)?;
    all.push(called(rt, alloc, "false", BOTH)?)?;
    Ok(all)
}

/// Serves two connections from `true` on, where these calls of the net, of the files and of the output fail.
fn serve<R: Threads + Sync>(
    rt: &R,
    alloc: Global,
    most: usize,
    net: &[u64],
    files: &[u64],
    writes: &[u64],
) -> Result<(Run, Vec<u8>), AllocError>
    requires { 0 < most }
{
    let bytes = peers(rt, alloc)?;
    let peers = Peers {
        bytes: &bytes,
        most,
        failing: net,
    };
    serve_peers(rt, alloc, &peers, files, (100, writes))
}

/// The same of these peers.
fn serve_peers<R: Threads + Sync>(
    rt: &R,
    alloc: Global,
    peers: &Peers,
    files: &[u64],
    writes: Writes,
) -> Result<(Run, Vec<u8>), AllocError>
    requires moved { 0 < peers.now.most }
    requires written { 0 < writes.0 }
{
    let image = image(rt, alloc, "true")?;
    let stage = staged(SWITCH, b"", &image);
    let words = ["serve", "p", "q", "4711", "2", "1", "o"];
    run_on_net(rt, alloc, &stage, &words, peers, files, writes)
}

/// All that is told where nothing fails.
const WHOLE: &str = "listening 4711\nversions 2 commits 1\n";

/// How many bytes move at once.
static SIZES: [usize; 5] = [1, 2, 3, 7, 4096];

/// Whether all is told, stored and sent, where so many bytes move at once.
fn is_whole<R: Threads + Sync>(rt: &R, alloc: Global, most: usize) -> Result<bool, AllocError>
    requires { 0 < most }
{
    let last = image(rt, alloc, "false")?;
    let proof = answers(alloc, &[0, 0, 0, 0, 1, 0, 0, 0, 0, 0, 1, 0])?;
    let ran = serve(rt, alloc, most, &[], &[], &[])?;
    Ok(ran.0.stores(0, WHOLE, &last) && ran.1.as_slice() == proof.as_slice())
}

#[test]
fn versions_go_on_from_link_to_link(rt: HostRuntime) -> Result<(), Fail> {
    for most in &SIZES {
        if !is_whole(&rt, rt.alloc(), (*most).max(1))? {
            return Err(Fail::new(format_args!("{most} at once")));
        }
    }
    Ok(())
}

/// Whether a serving of which a call of the net failed ended as it has to: one line where it couldn't listen, else the line of the
/// versions and that of the fault; and a version was stored.
fn is_faulted(run: &Run, call: u64) -> bool {
    let text = run.text.as_slice();
    let told = if call == 0 {
        text == b"link fault\n".as_slice()
    } else {
        text.starts_with(b"listening 4711\nversions ") && text.ends_with(b"\nlink fault\n")
    };
    run.status == 8 && told && run.stored == 1
}

/// The number of calls of the net: of the first that may fail and nothing is told of it.
fn first_unfailing<R: Threads + Sync>(rt: &R, alloc: Global) -> Result<u64, AllocError> {
    for call in 0..100 {
        let ran = serve(rt, alloc, 4096, &[call], &[], &[])?;
        if !is_faulted(&ran.0, call) {
            return Ok(if ran.0.tells(0, WHOLE) { call } else { 100 });
        }
    }
    Ok(100)
}

#[test]
fn each_call_of_the_net_fails_once(rt: HostRuntime) -> Result<(), Fail> {
    let calls = first_unfailing(&rt, rt.alloc())?;
    if !(10..100).contains(&calls) {
        return Err(Fail::new(format_args!("call {calls}")));
    }
    Ok(())
}

/// The call of the files that stores, behind a start, a read of all and a read at the end of each of two files.
const STORE: u64 = 6;

/// Whether a file that can't be read, or a version that can't be stored, is told as it has to be, where this call of the files fails.
fn is_told_of_files<R: Threads + Sync>(
    rt: &R,
    alloc: Global,
    call: u64,
) -> Result<bool, AllocError> {
    let ran = serve(rt, alloc, 4096, &[], &[call], &[])?;
    Ok(if call < STORE {
        ran.0.only_tells(8, "read fault\n")
    } else {
        ran.0.tells(9, WHOLE)
    })
}

#[test]
fn each_call_of_the_files_fails_once(rt: HostRuntime) -> Result<(), Fail> {
    for call in 0..=STORE {
        if !is_told_of_files(&rt, rt.alloc(), call)? {
            return Err(Fail::new(format_args!("call {call}")));
        }
    }
    Ok(())
}

/// Whether these lines alone stand before the write that fails, and a version is stored all the same.
fn is_told_before<R: Threads + Sync>(
    rt: &R,
    alloc: Global,
    write: u64,
    text: &str,
) -> Result<bool, AllocError> {
    let ran = serve(rt, alloc, 4096, &[], &[], &[write])?;
    Ok(ran.0.tells(9, text) && ran.0.stored == 1)
}

#[test]
fn each_write_fails_once(rt: HostRuntime) -> Result<(), Fail> {
    let alloc = rt.alloc();
    if !is_told_before(&rt, alloc, 0, "")? {
        return Err(Fail::new(format_args!("the first line")));
    }
    if !is_told_before(&rt, alloc, 1, "listening 4711\n")? {
        return Err(Fail::new(format_args!("the last line")));
    }
    Ok(())
}

/// Where the port can't be told, nobody is answered.
#[test]
fn the_port_is_told_before_a_client_is_answered(rt: HostRuntime) -> Result<(), Fail> {
    let ran = serve(&rt, rt.alloc(), 4096, &[], &[], &[0])?;
    if !ran.0.tells(9, "") || !ran.1.is_empty() {
        return Err(Fail::new("what is told or sent"));
    }
    Ok(())
}

/// Words that are refused, and the line.
static REFUSED: [(&str, &str); 8] = [
    ("serve p q 0 1 1 o", "input refused: number PORT\n"),
    ("serve p q 65536 1 1 o", "input refused: number PORT\n"),
    ("serve p q x 0 0 o", "input refused: number PORT\n"),
    ("serve p q 1 0 0 o", "input refused: number CONNS\n"),
    ("serve p q 1 1001 1 o", "input refused: number CONNS\n"),
    ("serve p q 1 1 0 o", "input refused: number SLICE\n"),
    ("serve p q 1 1 1000001 o", "input refused: number SLICE\n"),
    ("serve p s 1 1 1 o", "input refused: image magic\n"),
];

#[test]
fn numbers_and_images_are_refused(rt: HostRuntime) -> Result<(), Fail> {
    let stage = staged(SWITCH, b"", b"");
    for (words, line) in &REFUSED {
        if !is_told_to(&rt, rt.alloc(), &stage, words, &[], 7, line)? {
            return Err(Fail::new(format_args!("{words}")));
        }
    }
    Ok(())
}
