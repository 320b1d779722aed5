// A server on a net: links one after another.
ghost use Rattle.std.specs.Prelude.{◌≡◌, ◌<◌, length};
ghost use Rattle.std.specs.Option.{ForSome};
ghost use Rattle.session_meaning.specs.Server.{Server};
ghost use Rattle.lam_outside.specs.Links.{links_so_far};
ghost use Rattle.link_ends.specs.EndCauses.{LinkCause, ServingCause};
ghost use Rattle.link_ends.specs.LinkStops.{LinkStopCause};
ghost use Rattle.serve_core.specs.Serving.{Serves};
ghost use Rattle.serve_links.specs.HistoriesInCode.{HasSameCode, HasServed};
ghost use Rattle.serve_links.specs.Messages.{StaysServing, StillKeeps, StopCause};
ghost use Rattle.serve_links.specs.ServedLinksInCode.{KeeperCause, KeepsBehind, ServesLinks, ServesNext, StaysOn};
ghost use Rattle.session_turns.specs.Keepers.{KeepsBetween};

use crate::connection::serve_link;
use core_terms::Hash32;
use lam_outside::Net;
use link_ends::{ConnectionEnd, LinkStop, ServingEnd};
use serve_core::ServeCore;
use session_turns::{Gate, Keeper};
use std::alloc::Global;
use std::thread::Threads;

/// Accepts so many links, one after another, and serves each until its connection ends.
///
/// A link fault ends its connection, and the next link is accepted; a failed accept ends the serving. Where memory is wanting, or
/// commits are not kept, the server is one still, but no link is accepted further. The commits that the keeper keeps at first are those
/// of the server; what a message makes is kept before anything is sent to it.
pub fn serve_links<H: Hash32, G: Gate + Drop, K: Keeper, N: Net, R: Threads + Sync>(
    rt: &R,
    alloc: Global,
    core: &mut ServeCore<H, G>,
    keeper: &mut K,
    net: &mut N,
    connections: u16,
) -> ServingEnd
    requires history { HasServed H.hash core.old }
    requires kept { (place : K.Place) × K.keeps keeper.old place core.old.shared.commits.items }
    ensures served { ForSome (N.listened net.old) (λ port. (server : Server) (place : K.Place) → Serves H.hash core.old server → K.keeps keeper.old place core.old.shared.commits.items
        → ServesLinks H.hash (KeepsBetween (K.keeps keeper.new place)) core.old core.new server port
        (links_so_far (N.ended net.old) (N.linked net.old) (N.given net.old) (N.left net.old) (N.sent net.old) (N.reads net.old))
        (links_so_far (N.ended net.new) (N.linked net.new) (N.given net.new) (N.left net.new) (N.sent net.new) (N.reads net.new))
        connections (N.accept_faults net.old) (N.accept_faults net.new) result) }
    ensures kept { (place : K.Place) → K.keeps keeper.old place core.old.shared.commits.items → KeepsBehind (K.keeps keeper.new place core.new.shared.commits.items) result }
    ensures keeper { KeeperCause (K.faults keeper.old) (K.faults keeper.new) (K.faulted keeper.old) (K.faulted keeper.new) result }
    ensures keeper_rest { K.rest keeper.new ≡ K.rest keeper.old }
    ensures history { StaysOn H.hash core.new result }
    ensures code { HasSameCode core.old core.new }
    ensures versions { 0 < length core.new.shared.versions.items }
    ensures listened { N.listened net.new ≡ N.listened net.old }
    ensures listens { N.listen_faults net.new ≡ N.listen_faults net.old }
    ensures dials { N.dial_faults net.new ≡ N.dial_faults net.old }
    ensures cause { ServingCause (N.faults net.old) (N.faults net.new) (N.accept_faults net.old) (N.accept_faults net.new) result }
{
    let mut link_fault = false;
    for _ in 0..connections {
        match serve_next(rt, alloc, core, keeper, net) {
            Ok(faulted) => {
                if faulted {
                    link_fault = true;
                }
            }
            Err(LinkStop::LinkFault) => return ServingEnd::Served { link_fault: true },
            Err(LinkStop::Stopped) => return ServingEnd::Stopped,
        }
    }
    ServingEnd::Served { link_fault }
}

/// Accepts the next link, and serves it. Whether it ended in a link fault.
///
/// `LinkFault` where the accept failed: its count of faults rose, and nothing else changed. `Stopped` where memory was wanting
/// or commits were not kept.
fn serve_next<H: Hash32, G: Gate + Drop, K: Keeper, N: Net, R: Threads + Sync>(
    rt: &R,
    alloc: Global,
    core: &mut ServeCore<H, G>,
    keeper: &mut K,
    net: &mut N,
) -> Result<bool, LinkStop>
    requires history { HasServed H.hash core.old }
    requires kept { (place : K.Place) × K.keeps keeper.old place core.old.shared.commits.items }
    ensures served { ForSome (N.listened net.old) (λ port. (server : Server) (place : K.Place) → Serves H.hash core.old server → K.keeps keeper.old place core.old.shared.commits.items
        → ServesNext H.hash (KeepsBetween (K.keeps keeper.new place)) core.old core.new server port
        (links_so_far (N.ended net.old) (N.linked net.old) (N.given net.old) (N.left net.old) (N.sent net.old) (N.reads net.old))
        (links_so_far (N.ended net.new) (N.linked net.new) (N.given net.new) (N.left net.new) (N.sent net.new) (N.reads net.new)) result) }
    ensures kept { (place : K.Place) → K.keeps keeper.old place core.old.shared.commits.items → StillKeeps (K.keeps keeper.new place core.new.shared.commits.items) result }
    ensures keeper { StopCause (K.faults keeper.old) (K.faults keeper.new) (K.faulted keeper.old) (K.faulted keeper.new) result }
    ensures keeper_rest { K.rest keeper.new ≡ K.rest keeper.old }
    ensures history { StaysServing H.hash core.new result }
    ensures code { HasSameCode core.old core.new }
    ensures listened { N.listened net.new ≡ N.listened net.old }
    ensures listens { N.listen_faults net.new ≡ N.listen_faults net.old }
    ensures dials { N.dial_faults net.new ≡ N.dial_faults net.old }
    ensures accepts { LinkStopCause (N.accept_faults net.old) (N.accept_faults net.new) result }
    ensures cause { LinkCause (N.faults net.old) (N.faults net.new) result }
{
    net.accept()?;
    match serve_link(rt, alloc, core, keeper, net) {
        ConnectionEnd::Over => Ok(false),
        ConnectionEnd::LinkFault => Ok(true),
        ConnectionEnd::Stopped => Err(LinkStop::Stopped),
    }
}
