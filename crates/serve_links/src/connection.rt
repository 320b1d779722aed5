// A connection: a server on one link.
ghost use Rattle.std.specs.Prelude.{◌≡◌};
ghost use Rattle.std.specs.Option.{ForSome};
ghost use Rattle.session_meaning.specs.Server.{HearsEnd, Server};
ghost use Rattle.serve_core.specs.Serving.{Serves};
ghost use Rattle.link_ends.specs.EndCauses.{EndCause};
ghost use Rattle.serve_links.specs.Ends.{EndKeeperCause, IsBroken, KeepsAtEnd, StaysServer};
ghost use Rattle.session_turns.specs.Keepers.{KeepsBetween};
ghost use Rattle.serve_links.specs.HistoriesInCode.{HasSameCode, HasServed, own_digest, program_served, step_of, turns_of};
ghost use Rattle.serve_links.specs.Messages.{Ends};
ghost use Rattle.serve_links.specs.Prompt.{IsPrompt};
ghost use Rattle.wire_form.specs.MovedBytes.{Moves};
ghost use Rattle.lam_outside.specs.LinkSteps.{AtEachRead};

use crate::message::serve_message;
use core_terms::Hash32;
use lam_outside::Link;
use link_ends::{ConnectionEnd, LinkStop};
use serve_core::{Heard, ServeCore};
use session_turns::{Gate, Keeper};
use std::alloc::Global;
use std::thread::Threads;

/// Serves a link until the server closes the connection or the input ends. The server closes it at the latest behind 1,000,000
/// messages, so it ends whatever comes.
///
/// What is sent is what the server replies to the messages of the bytes that come. At a link fault the server heard all messages
/// of the bytes that it took from the link, and of the replies to the last one a front may have been sent; it then hears an end, so
/// that its sessions are ended. Where memory was wanting, or commits were not kept, the core is still a server, and it heard some of the messages: of
/// those to which something was sent all commits are kept.
pub fn serve_link<H: Hash32, G: Gate + Drop, K: Keeper, L: Link, R: Threads + Sync>(
    rt: &R,
    alloc: Global,
    core: &mut ServeCore<H, G>,
    keeper: &mut K,
    link: &mut L,
) -> ConnectionEnd
    requires history { HasServed H.hash core.old }
    requires kept { (place : K.Place) × K.keeps keeper.old place core.old.shared.commits.items }
    ensures prompt { ForSome (L.left link.old) (λ bytes. (server : Server) → Serves H.hash core.old server
        → AtEachRead (IsPrompt H.hash (program_served core.old) (own_digest core.old) (turns_of core.old) server bytes (L.sent link.old)) (L.reads link.old) (L.reads link.new)) }
    ensures served { ForSome (L.left link.old) (λ bytes. (server : Server) (place : K.Place) → Serves H.hash core.old server → K.keeps keeper.old place core.old.shared.commits.items
        → Ends H.hash (KeepsBetween (K.keeps keeper.new place)) core.old core.new server (L.sent link.old) (L.sent link.new) bytes (L.left link.new) result) }
    ensures kept { (place : K.Place) → K.keeps keeper.old place core.old.shared.commits.items → KeepsAtEnd (K.keeps keeper.new place core.new.shared.commits.items) result }
    ensures keeper { EndKeeperCause (K.faults keeper.old) (K.faults keeper.new) (K.faulted keeper.old) (K.faulted keeper.new) result }
    ensures keeper_rest { K.rest keeper.new ≡ K.rest keeper.old }
    ensures history { StaysServer H.hash core.new result }
    ensures code { HasSameCode core.old core.new }
    ensures moves { Moves (L.given link.old) (L.left link.old) (L.given link.new) (L.left link.new) }
    ensures beyond { L.beyond link.new ≡ L.beyond link.old }
    ensures cause { EndCause (L.faults link.old) (L.faults link.new) result }
{
    loop {
        match serve_message(rt, alloc, core, keeper, link) {
            Ok(true) => {}
            Ok(false) => return ConnectionEnd::Over,
            Err(LinkStop::LinkFault) => return end_at_fault(rt, core),
            Err(LinkStop::Stopped) => return ConnectionEnd::Stopped,
        }
    }
}

/// Lets the server hear the end of a connection whose link failed.
fn end_at_fault<H: Hash32, G: Gate + Drop, R: Threads + Sync>(
    rt: &R,
    core: &mut ServeCore<H, G>,
) -> ConnectionEnd
    requires { HasServed H.hash core.old }
    ensures broken { IsBroken result }
    ensures ended { (server : Server) → Serves H.hash core.old server → Serves H.hash core.new (step_of H.hash core.old server HearsEnd).server }
    ensures code { HasSameCode core.old core.new }
{
    match core.handle(rt, Heard::End) {
        Ok(_) => ConnectionEnd::LinkFault,
        Err(_) => ConnectionEnd::Stopped,
    }
}
