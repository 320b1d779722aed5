// A message of a connection.
ghost use Rattle.std.specs.Prelude.{◌≡◌, IfOk};
ghost use Rattle.std.specs.Option.{ForSome};
ghost use Rattle.session_meaning.specs.ReplyLaws.{IsHeard};
ghost use Rattle.session_meaning.specs.Server.{Server};
ghost use Rattle.link_ends.specs.LinkStops.{LinkStopCause};
ghost use Rattle.serve_core.specs.Serving.{Serves, heard_meant};
ghost use Rattle.serve_links.specs.HistoriesInCode.{HasSameCode, HasServed};
ghost use Rattle.serve_links.specs.Messages.{ServerAnswers, CountsMessage, HearsNext, ServesMessage, StaysServing, StillKeeps, StopCause, asks};
ghost use Rattle.session_turns.specs.Keepers.{KeepsBetween};
ghost use Rattle.serve_links.specs.Prompt.{WaitsForOne};
ghost use Rattle.wire_form.specs.MovedBytes.{Moves};
ghost use Rattle.lam_outside.specs.LinkSteps.{AtEachRead};

use crate::sending::send_replies;
use core_terms::Hash32;
use lam_outside::Link;
use link_ends::LinkStop;
use serve_core::{Heard, ServeCore};
use session_turns::{Gate, Keeper};
use std::alloc::Global;
use std::thread::Threads;
use wire_form::{ReadStop, read_request};

/// What the server hears next on a link. Where the link fails, no message stands whole in the bytes that were taken.
fn next_heard<L: Link>(alloc: Global, link: &mut L) -> Result<Heard, LinkStop>
    ensures hears { ForSome (L.left link.old) (λ bytes. HearsNext bytes (L.left link.new) result) }
    ensures message { IfOk result (λ heard. IsHeard (heard_meant heard)) }
    ensures waits { ForSome (L.left link.old) (λ bytes. AtEachRead (WaitsForOne bytes (L.sent link.old)) (L.reads link.old) (L.reads link.new)) }
    ensures moves { Moves (L.given link.old) (L.left link.old) (L.given link.new) (L.left link.new) }
    ensures sent { L.sent link.new ≡ L.sent link.old }
    ensures beyond { L.beyond link.new ≡ L.beyond link.old }
    ensures cause { LinkStopCause (L.faults link.old) (L.faults link.new) result }
{
    match read_request(alloc, link) {
        Ok(request) => Ok(Heard::Request(request)),
        Err(ReadStop::BadMessage(_, _)) => Ok(Heard::Bad),
        Err(ReadStop::TooLong(_)) => Ok(Heard::Bad),
        Err(ReadStop::End) => Ok(Heard::End),
        Err(ReadStop::Cut) => Ok(Heard::End),
        Err(ReadStop::LinkFault) => Err(LinkStop::LinkFault),
        Err(ReadStop::NoMemory) => Err(LinkStop::Stopped),
    }
}

/// Lets the core hear a message, keeps the commits that it makes, and sends the replies to it. Whether the core closes the connection.
///
/// `Stopped` also where the commits are not kept: then all sessions are ended, and nothing of the replies is sent.
fn answer<H: Hash32, G: Gate + Drop, K: Keeper, L: Link, R: Threads + Sync>(
    rt: &R,
    alloc: Global,
    core: &mut ServeCore<H, G>,
    keeper: &mut K,
    link: &mut L,
    heard: Heard,
) -> Result<bool, LinkStop>
    requires history { HasServed H.hash core.old }
    requires kept { (place : K.Place) × K.keeps keeper.old place core.old.shared.commits.items }
    requires message { IsHeard (heard_meant heard) }
    ensures answers { (server : Server) (place : K.Place) → Serves H.hash core.old server → K.keeps keeper.old place core.old.shared.commits.items
        → ServerAnswers H.hash (KeepsBetween (K.keeps keeper.new place)) core.old core.new server (L.sent link.old) (L.sent link.new) (heard_meant heard) result }
    ensures kept { (place : K.Place) → K.keeps keeper.old place core.old.shared.commits.items → StillKeeps (K.keeps keeper.new place core.new.shared.commits.items) result }
    ensures keeper { StopCause (K.faults keeper.old) (K.faults keeper.new) (K.faulted keeper.old) (K.faulted keeper.new) result }
    ensures keeper_rest { K.rest keeper.new ≡ K.rest keeper.old }
    ensures code { HasSameCode core.old core.new }
    ensures reads { L.reads link.new ≡ L.reads link.old }
    ensures given { L.given link.new ≡ L.given link.old }
    ensures left { L.left link.new ≡ L.left link.old }
    ensures beyond { L.beyond link.new ≡ L.beyond link.old }
    ensures cause { LinkStopCause (L.faults link.old) (L.faults link.new) result }
{
    let replies = core.handle(rt, heard)?;
    if keeper.keep(core.commits()).is_err() {
        core.end_sessions();
        return Err(LinkStop::Stopped);
    }
    send_replies(alloc, link, &replies.list)?;
    Ok(replies.closing)
}

/// Whether a request is heard.
fn is_request(heard: &Heard) -> bool
    ensures { result ≡ asks (heard_meant heard.now) }
{
    match heard {
        Heard::Request(_) => true,
        Heard::Bad | Heard::End => false,
    }
}

/// Serves the next message of a connection. Whether the connection goes on.
pub fn serve_message<H: Hash32, G: Gate + Drop, K: Keeper, L: Link, R: Threads + Sync>(
    rt: &R,
    alloc: Global,
    core: &mut ServeCore<H, G>,
    keeper: &mut K,
    link: &mut L,
) -> Result<bool, LinkStop>
    requires history { HasServed H.hash core.old }
    requires kept { (place : K.Place) × K.keeps keeper.old place core.old.shared.commits.items }
    ensures served { ForSome (L.left link.old) (λ bytes. (server : Server) (place : K.Place) → Serves H.hash core.old server → K.keeps keeper.old place core.old.shared.commits.items
        → ServesMessage H.hash (KeepsBetween (K.keeps keeper.new place)) core.old core.new server (L.sent link.old) (L.sent link.new) bytes (L.left link.new) result) }
    ensures kept { (place : K.Place) → K.keeps keeper.old place core.old.shared.commits.items → StillKeeps (K.keeps keeper.new place core.new.shared.commits.items) result }
    ensures keeper { StopCause (K.faults keeper.old) (K.faults keeper.new) (K.faulted keeper.old) (K.faulted keeper.new) result }
    ensures keeper_rest { K.rest keeper.new ≡ K.rest keeper.old }
    ensures history { StaysServing H.hash core.new result }
    ensures counts { CountsMessage core.old.heard core.new.heard result }
    ensures code { HasSameCode core.old core.new }
    ensures waits { ForSome (L.left link.old) (λ bytes. AtEachRead (WaitsForOne bytes (L.sent link.old)) (L.reads link.old) (L.reads link.new)) }
    ensures moves { Moves (L.given link.old) (L.left link.old) (L.given link.new) (L.left link.new) }
    ensures beyond { L.beyond link.new ≡ L.beyond link.old }
    ensures cause { LinkStopCause (L.faults link.old) (L.faults link.new) result }
{
    let heard = next_heard(alloc, link)?;
    let asks = is_request(&heard);
    let closing = answer(rt, alloc, core, keeper, link, heard)?;
    Ok(asks && !closing)
}
