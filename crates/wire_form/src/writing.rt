// Messages that are written to a link.
ghost use Rattle.std.specs.Prelude.{◌≡◌, ◌≤◌, ◌+◌, ◌++◌, ◌∷◌, [], length, take, IfOk, OnOk};
ghost use Rattle.std.specs.Int.{w16, w32, to_be_bytes};
ghost use Rattle.session_meaning.specs.Messages as meant;
ghost use Rattle.session_meaning.specs.MessageFields as message_fields;
ghost use Rattle.wire_form.specs.MessageViews.{reply_meant, request_meant};
ghost use Rattle.wire_form.specs.WrittenMessages.{Sends, WriteCause, reply_fields, reply_tail, request_fields, request_tail};

use crate::{Reply, Request, WriteStop, kinds};
use lam_outside::{Link, send_all};
use std::alloc::{AllocError, Global};

/// Writes a request, whose session isn't 0 and whose body has at most 16,777,216 bytes.
///
/// `LinkFault` where the link failed, and its count of faults rose; `NoMemory` where there was no memory for the message's
/// fields. A front of its bytes was sent then, at `NoMemory` none.
pub fn write_request<L: Link>(
    alloc: Global,
    link: &mut L,
    message: &Request,
) -> Result<(), WriteStop>
    requires { message_fields.IsRequest (request_meant message.now) }
    ensures sends { Sends (meant.request_bytes (request_meant message.now)) (L.sent link.old) (L.sent link.new) result }
    ensures reads { L.reads link.new ≡ L.reads link.old }
    ensures given { L.given link.new ≡ L.given link.old }
    ensures left { L.left link.new ≡ L.left link.old }
    ensures beyond { L.beyond link.new ≡ L.beyond link.old }
    ensures cause { WriteCause (L.faults link.old) (L.faults link.new) result }
{
    let fields = request_head(alloc, message)?;
    write_message(alloc, link, &fields, tail_of_request(message))
}

/// Writes a reply, whose session may be 0 only where it refuses or closes, and whose body has at most 16,777,216 bytes. The answers are
/// those of `write_request`.
pub fn write_reply<L: Link>(alloc: Global, link: &mut L, message: &Reply) -> Result<(), WriteStop>
    requires { message_fields.IsReply (reply_meant message.now) }
    ensures sends { Sends (meant.reply_bytes (reply_meant message.now)) (L.sent link.old) (L.sent link.new) result }
    ensures reads { L.reads link.new ≡ L.reads link.old }
    ensures given { L.given link.new ≡ L.given link.old }
    ensures left { L.left link.new ≡ L.left link.old }
    ensures beyond { L.beyond link.new ≡ L.beyond link.old }
    ensures cause { WriteCause (L.faults link.old) (L.faults link.new) result }
{
    let fields = reply_head(alloc, message)?;
    write_message(alloc, link, &fields, tail_of_reply(message))
}

/// How many bytes of the last field are sent with the fields before it, at most.
const JOINED: usize = 16_384;

/// Writes the length of a body, 16,777,216 at most, its first fields, and its last one. So that a short message is sent at once, the
/// first bytes of the last field go with the fields before it.
pub fn write_message<L: Link>(
    alloc: Global,
    link: &mut L,
    fields: &[u8],
    tail: &[u8],
) -> Result<(), WriteStop>
    requires { length fields.now + length tail.now ≤ meant.message_limit }
    ensures sends { Sends (meant.message (fields.now ++ tail.now)) (L.sent link.old) (L.sent link.new) result }
    ensures reads { L.reads link.new ≡ L.reads link.old }
    ensures given { L.given link.new ≡ L.given link.old }
    ensures left { L.left link.new ≡ L.left link.old }
    ensures beyond { L.beyond link.new ≡ L.beyond link.old }
    ensures cause { WriteCause (L.faults link.old) (L.faults link.new) result }
{
    let joined = tail.len().min(JOINED);
    let front = front_of_message(alloc, fields, tail, joined)?;
    send_all(link, &front)?;
    Ok(send_all(link, &tail[joined..])?)
}

/// The length of a body, its first fields, and so many bytes of its last one.
fn front_of_message(
    alloc: Global,
    fields: &[u8],
    tail: &[u8],
    joined: usize,
) -> Result<Vec<u8>, AllocError>
    requires fits { length fields.now + length tail.now ≤ meant.message_limit }
    requires joined { joined ≤ length tail.now }
    ensures { IfOk result (λ front. front.items ≡ (to_be_bytes w32 (length fields.now + length tail.now) ++ fields.now) ++ take joined tail.now) }
{
    let mut front = Vec::new(alloc);
    front.extend_from_slice(&((fields.len() + tail.len()) as u32).to_be_bytes())?;
    front.extend_from_slice(fields)?;
    front.extend_from_slice(&tail[..joined])?;
    Ok(front)
}

/// The kind, the session and the other fields of a request, but the last one that has no fixed length.
fn request_head(alloc: Global, message: &Request) -> Result<Vec<u8>, AllocError>
    ensures { IfOk result (λ head. head.items ≡ request_fields (request_meant message.now)) }
{
    let mut head = Vec::new(alloc);
    match message {
        Request::Hello {
            session,
            program,
            kept,
            ..
        } => {
            put_start(&mut head, kinds::HELLO, *session)?;
            head.extend_from_slice(&program.0)?;
            head.extend_from_slice(&kept.to_be_bytes())?;
        }
        Request::Call {
            session,
            role,
            fuel,
            ..
        } => {
            put_start(&mut head, kinds::CALL, *session)?;
            head.extend_from_slice(&role.to_be_bytes())?;
            head.extend_from_slice(&fuel.to_be_bytes())?;
        }
        Request::Go { rounds } => {
            put_start(&mut head, kinds::GO, 0)?;
            head.extend_from_slice(&rounds.to_be_bytes())?;
        }
        Request::Bye { session } => put_start(&mut head, kinds::BYE, *session)?,
    }
    Ok(head)
}

/// The kind, the session and the cause of a reply.
fn reply_head(alloc: Global, message: &Reply) -> Result<Vec<u8>, AllocError>
    ensures { IfOk result (λ head. head.items ≡ reply_fields (reply_meant message.now)) }
{
    let mut head = Vec::new(alloc);
    match message {
        Reply::Welcome { session } => put_start(&mut head, kinds::WELCOME, *session)?,
        Reply::Proof { session, .. } => put_start(&mut head, kinds::PROOF, *session)?,
        Reply::Stale { session, .. } => put_start(&mut head, kinds::STALE, *session)?,
        Reply::Refused { session, cause } => put_cause(
            &mut head,
            kinds::REFUSED,
            *session,
            *cause,
        )?,
        Reply::Closed { session, cause } => put_cause(&mut head, kinds::CLOSED, *session, *cause)?,
    }
    Ok(head)
}

/// The last field of a request, where it has no fixed length.
fn tail_of_request(message: &Request) -> &[u8]
    ensures { result.now ≡ request_tail (request_meant message.now) }
{
    match message {
        Request::Hello { state, .. } => state.as_bytes(),
        Request::Call { argument, .. } => argument.as_bytes(),
        Request::Go { .. } | Request::Bye { .. } => &[],
    }
}

/// The last field of a reply, where it has no fixed length.
fn tail_of_reply(message: &Reply) -> &[u8]
    ensures { result.now ≡ reply_tail (reply_meant message.now) }
{
    match message {
        Reply::Proof { frames, .. } => frames.as_bytes(),
        Reply::Stale { state, .. } => state.as_bytes(),
        Reply::Welcome { .. } | Reply::Refused { .. } | Reply::Closed { .. } => &[],
    }
}

/// Puts the kind of a message and its session.
pub fn put_start(head: &mut Vec<u8>, kind: u8, session: u16) -> Result<(), AllocError>
    ensures { OnOk result (head.new.items ≡ head.old.items ++ kind ∷ to_be_bytes w16 session) }
{
    head.push(kind)?;
    head.extend_from_slice(&session.to_be_bytes())
}

/// Puts the kind of a message, its session and its cause.
fn put_cause(head: &mut Vec<u8>, kind: u8, session: u16, cause: u8) -> Result<(), AllocError>
    ensures { OnOk result (head.new.items ≡ head.old.items ++ kind ∷ (to_be_bytes w16 session ++ cause ∷ [])) }
{
    put_start(head, kind, session)?;
    head.push(cause)?;
    Ok(())
}
