// Replies that are sent.
ghost use Rattle.std.specs.Prelude.{◌≡◌, map};
ghost use Rattle.std.specs.List.{AllByRecursion};
ghost use Rattle.session_meaning.specs.MessageFields.{IsReply};
ghost use Rattle.serve_links.specs.Connections.{bytes_of};
ghost use Rattle.wire_form.specs.MessageViews.{reply_meant};
ghost use Rattle.wire_form.specs.WrittenMessages.{Sends, WriteCause};

use lam_outside::Link;
use std::alloc::Global;
use wire_form::{Reply, WriteStop, write_reply};

/// Sends replies, in their order.
///
/// `LinkFault` where the link failed, and its count of faults rose; `NoMemory` where there was no memory for a reply's fields. A
/// front of the bytes was sent then.
pub fn send_replies<L: Link>(
    alloc: Global,
    link: &mut L,
    replies: &[Reply],
) -> Result<(), WriteStop>
    requires { AllByRecursion IsReply (map reply_meant replies.now) }
    ensures sends { Sends (bytes_of (map reply_meant replies.now)) (L.sent link.old) (L.sent link.new) result }
    ensures reads { L.reads link.new ≡ L.reads link.old }
    ensures given { L.given link.new ≡ L.given link.old }
    ensures left { L.left link.new ≡ L.left link.old }
    ensures beyond { L.beyond link.new ≡ L.beyond link.old }
    ensures cause { WriteCause (L.faults link.old) (L.faults link.new) result }
{
    for reply in replies {
        write_reply(alloc, link, reply)?;
    }
    Ok(())
}
