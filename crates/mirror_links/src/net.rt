// A mirror on a net: links one after another.
ghost use Rattle.std.specs.Prelude.{◌≡◌};
ghost use Rattle.std.specs.Option.{ForSome};
ghost use Rattle.lam_outside.specs.Links.{links_so_far};
ghost use Rattle.link_ends.specs.EndCauses.{LinkCause, ServingCause};
ghost use Rattle.link_ends.specs.LinkStops.{LinkStopCause};
ghost use Rattle.mirror_links.specs.AnsweredLinks.{AnswersLinks};
ghost use Rattle.mirror_links.specs.Steps.{AnswersNext};
ghost use Rattle.piece_mirror.specs.Answers.{given_by};
ghost use Rattle.piece_mirror.specs.Tables.{bytes_of};

use crate::connection::answer_link;
use core_terms::Hash32;
use lam_outside::Net;
use link_ends::{ConnectionEnd, LinkStop, ServingEnd};
use piece_mirror::Mirror;
use std::alloc::Global;

/// Accepts so many links, one after another, and answers on each until its connection ends.
///
/// A link fault ends its connection, and the next link is accepted; a failed accept ends the serving. Where memory is wanting no link is
/// accepted further.
pub fn answer_links<H: Hash32, N: Net>(
    alloc: Global,
    mirror: &Mirror<H>,
    net: &mut N,
    connections: u16,
) -> ServingEnd
    ensures answered { ForSome (N.listened net.old) (λ port. AnswersLinks (given_by H.hash (bytes_of mirror.now.pieces)) port
        (links_so_far (N.ended net.old) (N.linked net.old) (N.given net.old) (N.left net.old) (N.sent net.old) (N.reads net.old))
        (links_so_far (N.ended net.new) (N.linked net.new) (N.given net.new) (N.left net.new) (N.sent net.new) (N.reads net.new))
        connections (N.accept_faults net.old) (N.accept_faults net.new) result) }
    ensures listened { N.listened net.new ≡ N.listened net.old }
    ensures listens { N.listen_faults net.new ≡ N.listen_faults net.old }
    ensures dials { N.dial_faults net.new ≡ N.dial_faults net.old }
    ensures cause { ServingCause (N.faults net.old) (N.faults net.new) (N.accept_faults net.old) (N.accept_faults net.new) result }
{
    let mut link_fault = false;
    for _ in 0..connections {
        match answer_next(alloc, mirror, net) {
            Ok(faulted) => {
                if faulted {
                    link_fault = true;
                }
            }
            Err(LinkStop::LinkFault) => return ServingEnd::Served { link_fault: true },
            Err(LinkStop::Stopped) => return ServingEnd::Stopped,
        }
    }
    ServingEnd::Served { link_fault }
}

/// Accepts the next link, and answers on it. Whether it ended in a link fault.
///
/// `LinkFault` where the accept failed: its count of faults rose, and nothing else changed. `Stopped` where memory was wanting.
fn answer_next<H: Hash32, N: Net>(
    alloc: Global,
    mirror: &Mirror<H>,
    net: &mut N,
) -> Result<bool, LinkStop>
    ensures answered { ForSome (N.listened net.old) (λ port. AnswersNext (given_by H.hash (bytes_of mirror.now.pieces)) port
        (links_so_far (N.ended net.old) (N.linked net.old) (N.given net.old) (N.left net.old) (N.sent net.old) (N.reads net.old))
        (links_so_far (N.ended net.new) (N.linked net.new) (N.given net.new) (N.left net.new) (N.sent net.new) (N.reads net.new)) result) }
    ensures listened { N.listened net.new ≡ N.listened net.old }
    ensures listens { N.listen_faults net.new ≡ N.listen_faults net.old }
    ensures dials { N.dial_faults net.new ≡ N.dial_faults net.old }
    ensures accepts { LinkStopCause (N.accept_faults net.old) (N.accept_faults net.new) result }
    ensures cause { LinkCause (N.faults net.old) (N.faults net.new) result }
{
    net.accept()?;
    match answer_link(alloc, mirror, net) {
        ConnectionEnd::Over => Ok(false),
        ConnectionEnd::LinkFault => Ok(true),
        ConnectionEnd::Stopped => Err(LinkStop::Stopped),
    }
}
