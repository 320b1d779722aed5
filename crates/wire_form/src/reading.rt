// Messages that are read from a link.
ghost use Rattle.std.specs.Prelude.{◌≡◌, ◌≤◌, length, IfOk};
ghost use Rattle.std.specs.Option.{ForSome};
ghost use Rattle.session_meaning.specs.Messages as meant;
ghost use Rattle.session_meaning.specs.MessageFields as message_fields;
ghost use Rattle.session_meaning.specs.ReplyLaws.{HasArgumentBytes};
ghost use Rattle.wire_form.specs.Incoming.{ReadCause, WholeCame};
ghost use Rattle.wire_form.specs.MessageViews.{reply_meant, request_meant};
ghost use Rattle.wire_form.specs.MovedBytes.{Moves};
ghost use Rattle.lam_outside.specs.LinkSteps.{AtEachRead};
ghost use Rattle.wire_form.specs.Waits.{WaitsInside};
ghost use Rattle.wire_form.specs.ReadMessages.{ReadsMessage, SaysWhole};

use crate::body::{BodyFault, reply, request};
use crate::incoming::{read_body, read_length};
use crate::{ReadStop, Reply, Request};
use lam_outside::Link;
use std::alloc::Global;

/// Reads the next message, which must be a request, and no byte behind it. What it gives is one that `write_request` takes.
///
/// - `End` where there is no byte at all, `Cut` where the input ends inside the message.
/// - `TooLong` where its length field says more than 16,777,216; the field was taken, and nothing behind it.
/// - `BadMessage` where it is no request; the whole of it was taken.
/// - `LinkFault` where the link failed, and its count of faults rose.
/// - `NoMemory` where what came found no memory. A length that is announced and not sent takes none.
pub fn read_request<L: Link>(alloc: Global, link: &mut L) -> Result<Request, ReadStop>
    ensures reads { ForSome (L.left link.old) (λ bytes. ReadsMessage request_meant message_fields.read_request bytes (L.left link.new) result) }
    ensures message { IfOk result (λ request. message_fields.IsRequest (request_meant request)) }
    ensures argument { IfOk result (λ request. HasArgumentBytes (request_meant request)) }
    ensures waits { ForSome (L.left link.old) (λ bytes. AtEachRead (WaitsInside bytes (L.sent link.old)) (L.reads link.old) (L.reads link.new)) }
    ensures moves { Moves (L.given link.old) (L.left link.old) (L.given link.new) (L.left link.new) }
    ensures sent { L.sent link.new ≡ L.sent link.old }
    ensures beyond { L.beyond link.new ≡ L.beyond link.old }
    ensures cause { ReadCause (L.faults link.old) (L.faults link.new) result }
{
    let body = read_whole(alloc, link)?;
    request_in(alloc, &body)
}

/// Reads the next message, which must be a reply, and no byte behind it. The answers are those of `read_request`, and what it
/// gives is one that `write_reply` takes.
pub fn read_reply<L: Link>(alloc: Global, link: &mut L) -> Result<Reply, ReadStop>
    ensures reads { ForSome (L.left link.old) (λ bytes. ReadsMessage reply_meant message_fields.read_reply bytes (L.left link.new) result) }
    ensures message { IfOk result (λ reply. message_fields.IsReply (reply_meant reply)) }
    ensures waits { ForSome (L.left link.old) (λ bytes. AtEachRead (WaitsInside bytes (L.sent link.old)) (L.reads link.old) (L.reads link.new)) }
    ensures moves { Moves (L.given link.old) (L.left link.old) (L.given link.new) (L.left link.new) }
    ensures sent { L.sent link.new ≡ L.sent link.old }
    ensures beyond { L.beyond link.new ≡ L.beyond link.old }
    ensures cause { ReadCause (L.faults link.old) (L.faults link.new) result }
{
    let body = read_whole(alloc, link)?;
    reply_in(alloc, &body)
}

/// The body of the next message, with its kind.
pub fn read_whole<L: Link>(alloc: Global, link: &mut L) -> Result<Vec<u8>, ReadStop>
    ensures came { ForSome (L.left link.old) (λ bytes. WholeCame bytes (L.left link.new) result) }
    ensures fits { IfOk result (λ body. length body.items ≤ meant.message_limit) }
    ensures waits { ForSome (L.left link.old) (λ bytes. AtEachRead (WaitsInside bytes (L.sent link.old)) (L.reads link.old) (L.reads link.new)) }
    ensures moves { Moves (L.given link.old) (L.left link.old) (L.given link.new) (L.left link.new) }
    ensures sent { L.sent link.new ≡ L.sent link.old }
    ensures beyond { L.beyond link.new ≡ L.beyond link.old }
    ensures cause { ReadCause (L.faults link.old) (L.faults link.new) result }
{
    let len = read_length(link)?;
    read_body(alloc, link, len as usize)
}

/// The request in the body of a message.
fn request_in(alloc: Global, body: &[u8]) -> Result<Request, ReadStop>
    requires { length body.now ≤ meant.message_limit }
    ensures says { SaysWhole request_meant meant.request_of body.now result }
    ensures message { IfOk result (λ request. message_fields.IsRequest (request_meant request)) }
    ensures argument { IfOk result (λ request. HasArgumentBytes (request_meant request)) }
{
    let Some((kind, fields)) = body.split_first() else {
        return Err(ReadStop::BadMessage(0, 0));
    };
    match request(alloc, *kind, fields) {
        Ok(request) => Ok(request),
        Err(BodyFault::At(offset)) => Err(ReadStop::BadMessage(*kind, offset)),
        Err(BodyFault::NoMemory) => Err(ReadStop::NoMemory),
    }
}

/// The reply in the body of a message.
fn reply_in(alloc: Global, body: &[u8]) -> Result<Reply, ReadStop>
    requires { length body.now ≤ meant.message_limit }
    ensures says { SaysWhole reply_meant meant.reply_of body.now result }
    ensures message { IfOk result (λ reply. message_fields.IsReply (reply_meant reply)) }
{
    let Some((kind, fields)) = body.split_first() else {
        return Err(ReadStop::BadMessage(0, 0));
    };
    match reply(alloc, *kind, fields) {
        Ok(reply) => Ok(reply),
        Err(BodyFault::At(offset)) => Err(ReadStop::BadMessage(*kind, offset)),
        Err(BodyFault::NoMemory) => Err(ReadStop::NoMemory),
    }
}
