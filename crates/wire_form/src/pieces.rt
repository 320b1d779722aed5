// Messages that ask for a piece by its digest, and that answer it. All have session 0.
ghost use Rattle.std.specs.Prelude.{◌≡◌, ◌≤◌, length, IfOk};
ghost use Rattle.std.specs.Option.{ForSome};
ghost use Rattle.session_meaning.specs.Messages.{message_limit};
ghost use Rattle.session_meaning.specs.FetchMessages as asked;
ghost use Rattle.lam_outside.specs.LinkSteps.{AtEachRead};
ghost use Rattle.wire_form.specs.Gots.{digest_meant, got_meant};
ghost use Rattle.wire_form.specs.Incoming.{ReadCause};
ghost use Rattle.wire_form.specs.MovedBytes.{Moves};
ghost use Rattle.wire_form.specs.ReadMessages.{ReadsMessage, SaysWhole};
ghost use Rattle.wire_form.specs.SentAnswers.{answer_fields, answer_tail, fetch_fields};
ghost use Rattle.wire_form.specs.TakenFields.{SaysOf};
ghost use Rattle.wire_form.specs.Waits.{WaitsInside};
ghost use Rattle.wire_form.specs.WrittenMessages.{Sends, WriteCause};

use crate::body::{BodyFault, piece};
use crate::fields::{digest_field, end, zero_field};
use crate::reading::read_whole;
use crate::writing::{put_start, write_message};
use crate::{Got, ReadStop, WriteStop, kinds};
use core_terms::Digest;
use lam_outside::Link;
use std::alloc::{AllocError, Global};

/// Reads the next message, which must ask for a piece, and no byte behind it. The answers are those of `read_request`.
pub fn read_fetch<L: Link>(alloc: Global, link: &mut L) -> Result<Digest, ReadStop>
    ensures reads { ForSome (L.left link.old) (λ bytes. ReadsMessage digest_meant asked.read_fetch bytes (L.left link.new) result) }
    ensures waits { ForSome (L.left link.old) (λ bytes. AtEachRead (WaitsInside bytes (L.sent link.old)) (L.reads link.old) (L.reads link.new)) }
    ensures moves { Moves (L.given link.old) (L.left link.old) (L.given link.new) (L.left link.new) }
    ensures sent { L.sent link.new ≡ L.sent link.old }
    ensures beyond { L.beyond link.new ≡ L.beyond link.old }
    ensures cause { ReadCause (L.faults link.old) (L.faults link.new) result }
{
    let body = read_whole(alloc, link)?;
    fetch_in(&body)
}

/// Reads the next message, which must be a piece or that it is lacking, and no byte behind it. The answers are those of
/// `read_request`, and what it gives is one that `write_piece` takes.
pub fn read_piece<L: Link>(alloc: Global, link: &mut L) -> Result<Got, ReadStop>
    ensures reads { ForSome (L.left link.old) (λ bytes. ReadsMessage got_meant asked.read_answer bytes (L.left link.new) result) }
    ensures message { IfOk result (λ got. asked.IsAnswer (got_meant got)) }
    ensures waits { ForSome (L.left link.old) (λ bytes. AtEachRead (WaitsInside bytes (L.sent link.old)) (L.reads link.old) (L.reads link.new)) }
    ensures moves { Moves (L.given link.old) (L.left link.old) (L.given link.new) (L.left link.new) }
    ensures sent { L.sent link.new ≡ L.sent link.old }
    ensures beyond { L.beyond link.new ≡ L.beyond link.old }
    ensures cause { ReadCause (L.faults link.old) (L.faults link.new) result }
{
    let body = read_whole(alloc, link)?;
    answer_in(alloc, &body)
}

/// The digest in the body of a message.
fn fetch_in(body: &[u8]) -> Result<Digest, ReadStop>
    ensures { SaysWhole digest_meant asked.fetch_of body.now result }
{
    let Some((kind, fields)) = body.split_first() else {
        return Err(ReadStop::BadMessage(0, 0));
    };
    match fetch(*kind, fields) {
        Ok(digest) => Ok(digest),
        Err(BodyFault::At(offset)) => Err(ReadStop::BadMessage(*kind, offset)),
        Err(BodyFault::NoMemory) => Err(ReadStop::NoMemory),
    }
}

/// The answer in the body of a message.
fn answer_in(alloc: Global, body: &[u8]) -> Result<Got, ReadStop>
    requires { length body.now ≤ message_limit }
    ensures says { SaysWhole got_meant asked.answer_of body.now result }
    ensures message { IfOk result (λ got. asked.IsAnswer (got_meant got)) }
{
    let Some((kind, fields)) = body.split_first() else {
        return Err(ReadStop::BadMessage(0, 0));
    };
    match answer(alloc, *kind, fields) {
        Ok(got) => Ok(got),
        Err(BodyFault::At(offset)) => Err(ReadStop::BadMessage(*kind, offset)),
        Err(BodyFault::NoMemory) => Err(ReadStop::NoMemory),
    }
}

/// What is asked for in the message of this kind and body.
fn fetch(kind: u8, body: &[u8]) -> Result<Digest, BodyFault>
    ensures { SaysOf digest_meant (asked.fetch_of kind body.now) result }
{
    match kind {
        kinds::FETCH => fetch_body(body),
        _ => Err(BodyFault::At(0)),
    }
}

fn fetch_body(body: &[u8]) -> Result<Digest, BodyFault>
    ensures { SaysOf digest_meant (asked.zero_field body.now asked.fetch_digest) result }
{
    let behind = zero_field(body)?;
    let (digest, behind) = digest_field(behind)?;
    end(behind, 35)?;
    Ok(digest)
}

/// The answer of this kind and body.
fn answer(alloc: Global, kind: u8, body: &[u8]) -> Result<Got, BodyFault>
    ensures { SaysOf got_meant (asked.answer_of kind body.now) result }
{
    match kind {
        kinds::PIECE => found(alloc, body),
        kinds::LACK => lacking(body),
        _ => Err(BodyFault::At(0)),
    }
}

fn found(alloc: Global, body: &[u8]) -> Result<Got, BodyFault>
    ensures { SaysOf got_meant (asked.zero_field body.now asked.piece_end) result }
{
    let bytes = zero_field(body)?;
    let bytes = piece(alloc, bytes)?;
    Ok(Got::Piece(bytes))
}

fn lacking(body: &[u8]) -> Result<Got, BodyFault>
    ensures { SaysOf got_meant (asked.zero_field body.now asked.lack_end) result }
{
    let behind = zero_field(body)?;
    end(behind, 3)?;
    Ok(Got::Lack)
}

/// Asks for the piece with this digest. The answers are those of `write_reply`.
pub fn write_fetch<L: Link>(alloc: Global, link: &mut L, digest: &Digest) -> Result<(), WriteStop>
    ensures sends { Sends (asked.fetch_bytes digest.now.0) (L.sent link.old) (L.sent link.new) result }
    ensures reads { L.reads link.new ≡ L.reads link.old }
    ensures given { L.given link.new ≡ L.given link.old }
    ensures left { L.left link.new ≡ L.left link.old }
    ensures beyond { L.beyond link.new ≡ L.beyond link.old }
    ensures cause { WriteCause (L.faults link.old) (L.faults link.new) result }
{
    let fields = fetch_head(alloc)?;
    write_message(alloc, link, &fields, &digest.0)
}

/// Writes an answer, with a piece of at most 16,777,213 bytes. The answers are those of `write_reply`.
pub fn write_piece<L: Link>(alloc: Global, link: &mut L, got: &Got) -> Result<(), WriteStop>
    requires { asked.IsAnswer (got_meant got.now) }
    ensures sends { Sends (asked.answer_bytes (got_meant got.now)) (L.sent link.old) (L.sent link.new) result }
    ensures reads { L.reads link.new ≡ L.reads link.old }
    ensures given { L.given link.new ≡ L.given link.old }
    ensures left { L.left link.new ≡ L.left link.old }
    ensures beyond { L.beyond link.new ≡ L.beyond link.old }
    ensures cause { WriteCause (L.faults link.old) (L.faults link.new) result }
{
    let fields = answer_head(alloc, got)?;
    write_message(alloc, link, &fields, tail_of_answer(got))
}

/// The kind and the session of a message that asks.
fn fetch_head(alloc: Global) -> Result<Vec<u8>, AllocError>
    ensures { IfOk result (λ head. head.items ≡ fetch_fields) }
{
    let mut head = Vec::new(alloc);
    put_start(&mut head, kinds::FETCH, 0)?;
    Ok(head)
}

/// The kind and the session of an answer.
fn answer_head(alloc: Global, got: &Got) -> Result<Vec<u8>, AllocError>
    ensures { IfOk result (λ head. head.items ≡ answer_fields (got_meant got.now)) }
{
    let mut head = Vec::new(alloc);
    match got {
        Got::Piece(_) => put_start(&mut head, kinds::PIECE, 0)?,
        Got::Lack => put_start(&mut head, kinds::LACK, 0)?,
        Got::Broken(_) => {}
    }
    Ok(head)
}

/// The bytes of a piece; an answer that gives none has no tail.
fn tail_of_answer(got: &Got) -> &[u8]
    ensures { result.now ≡ answer_tail (got_meant got.now) }
{
    match got {
        Got::Piece(bytes) => bytes.as_bytes(),
        Got::Lack | Got::Broken(_) => &[],
    }
}
