// Runs over a net in memory, what comes on it, and what they tell and send.
ghost use Rattle.std.specs.Prelude.{◌<◌};

use cli_stage::runs::{Peers, Run, run_on_net};
use cli_stage::stage::Stage;
use std::alloc::{AllocError, Global};
use std::thread::Threads;

/// Whether a run ended with this status, told this alone and stored nothing, and these are the bytes that it sent or
/// left.
pub fn is_only(ran: &(Run, Vec<u8>), status: u8, text: &str, bytes: &[u8]) -> bool {
    let (run, left) = ran;
    run.only_tells(status, text) && left.as_slice() == bytes
}

/// One link on which this comes.
pub fn link(alloc: Global, coming: &[u8]) -> Result<Vec<Vec<u8>>, AllocError> {
    let mut links = Vec::new(alloc);
    links.push(Vec::from_slice(alloc, coming)?)?;
    Ok(links)
}

/// Whether these words, between each two of which a space stands, are told this alone over a net on which nothing comes
/// and of which these calls fail.
pub fn is_told_to<R: Threads + Sync>(
    rt: &R,
    alloc: Global,
    stage: &Stage,
    words: &str,
    failing: &[u64],
    status: u8,
    text: &str,
) -> Result<bool, AllocError>
    requires { 0 < stage.now.most_read }
{
    let words: Vec<&str> = words.split(' ').collect(alloc)?;
    let peers = Peers {
        bytes: &[],
        most: 1,
        failing,
    };
    let ran = run_on_net(rt, alloc, stage, &words, &peers, &[], (100, &[]))?;
    Ok(ran.0.only_tells(status, text))
}
