// The bodies of messages, behind their kind.
ghost use Rattle.std.specs.Prelude.{◌≡◌, IfOk};
ghost use Rattle.session_meaning.specs.Messages as meant;
ghost use Rattle.wire_form.specs.MessageViews.{reply_meant, request_meant};
ghost use Rattle.wire_form.specs.TakenFields.{SaysOf};

use crate::fields::{
    cause_field, digest_field, end, number_of_eight, number_of_two, rounds_field, session_field,
    zero_field,
};
use crate::{Reply, Request, kinds};
use core_terms::Piece;
use std::alloc::{AllocError, Global};

/// Why a body gives no message.
#[derive(Drop)]
pub enum BodyFault {
    /// The offset behind the length field of the first field that is missing, not whole or not allowed, or of the first byte
    /// too many.
    At(u32),
    /// There was no memory for the bytes of the message.
    NoMemory,
}

impl From<AllocError> for BodyFault {
    ghost use Rattle.wire_form.specs.declared.body.BodyFault.TheVariants.{NoMemory};

    ghost from_gives = { λ _ fault. fault ≡ NoMemory };

    fn from(_: AllocError) -> Self {
        BodyFault::NoMemory
    }
}

/// The request of this kind and body.
pub fn request(alloc: Global, kind: u8, body: &[u8]) -> Result<Request, BodyFault>
    ensures { SaysOf request_meant (meant.request_of kind body.now) result }
{
    match kind {
        kinds::HELLO => hello(alloc, body),
        kinds::CALL => call(alloc, body),
        kinds::GO => go(body),
        kinds::BYE => bye(body),
        _ => Err(BodyFault::At(0)),
    }
}

fn hello(alloc: Global, body: &[u8]) -> Result<Request, BodyFault>
    ensures { SaysOf request_meant (meant.hello_of body.now) result }
{
    let (session, behind) = session_field(body)?;
    let (program, behind) = digest_field(behind)?;
    let (kept, state) = number_of_two(behind, 35)?;
    let state = piece(alloc, state)?;
    Ok(Request::Hello {
        session,
        program,
        kept,
        state,
    })
}

fn call(alloc: Global, body: &[u8]) -> Result<Request, BodyFault>
    ensures { SaysOf request_meant (meant.call_of body.now) result }
{
    let (session, behind) = session_field(body)?;
    let (role, behind) = number_of_two(behind, 3)?;
    let (fuel, argument) = number_of_eight(behind, 5)?;
    let argument = piece(alloc, argument)?;
    Ok(Request::Call {
        session,
        role,
        fuel,
        argument,
    })
}

fn go(body: &[u8]) -> Result<Request, BodyFault>
    ensures { SaysOf request_meant (meant.go_of body.now) result }
{
    let behind = zero_field(body)?;
    let (rounds, behind) = rounds_field(behind)?;
    end(behind, 7)?;
    Ok(Request::Go { rounds })
}

fn bye(body: &[u8]) -> Result<Request, BodyFault>
    ensures { SaysOf request_meant (meant.bye_of body.now) result }
{
    let (session, behind) = session_field(body)?;
    end(behind, 3)?;
    Ok(Request::Bye { session })
}

/// The reply of this kind and body.
pub fn reply(alloc: Global, kind: u8, body: &[u8]) -> Result<Reply, BodyFault>
    ensures { SaysOf reply_meant (meant.reply_of kind body.now) result }
{
    match kind {
        kinds::WELCOME => welcome(body),
        kinds::PROOF => proof(alloc, body),
        kinds::STALE => stale(alloc, body),
        kinds::REFUSED => refused(body),
        kinds::CLOSED => closed(body),
        _ => Err(BodyFault::At(0)),
    }
}

fn welcome(body: &[u8]) -> Result<Reply, BodyFault>
    ensures { SaysOf reply_meant (meant.session_field body.now (λ session rest. meant.ends_at 3 rest (meant.Welcome session))) result }
{
    let (session, behind) = session_field(body)?;
    end(behind, 3)?;
    Ok(Reply::Welcome { session })
}

fn proof(alloc: Global, body: &[u8]) -> Result<Reply, BodyFault>
    ensures { SaysOf reply_meant (meant.session_field body.now (λ session frames. meant.Says (meant.Proof session frames))) result }
{
    let (session, frames) = session_field(body)?;
    let frames = piece(alloc, frames)?;
    Ok(Reply::Proof { session, frames })
}

fn stale(alloc: Global, body: &[u8]) -> Result<Reply, BodyFault>
    ensures { SaysOf reply_meant (meant.session_field body.now (λ session state. meant.Says (meant.Stale session state))) result }
{
    let (session, state) = session_field(body)?;
    let state = piece(alloc, state)?;
    Ok(Reply::Stale { session, state })
}

fn refused(body: &[u8]) -> Result<Reply, BodyFault>
    ensures { SaysOf reply_meant (meant.cause_of meant.Refused body.now) result }
{
    let (session, behind) = number_of_two(body, 1)?;
    let (cause, behind) = cause_field(behind)?;
    end(behind, 4)?;
    Ok(Reply::Refused { session, cause })
}

fn closed(body: &[u8]) -> Result<Reply, BodyFault>
    ensures { SaysOf reply_meant (meant.cause_of meant.Closed body.now) result }
{
    let (session, behind) = number_of_two(body, 1)?;
    let (cause, behind) = cause_field(behind)?;
    end(behind, 4)?;
    Ok(Reply::Closed { session, cause })
}

/// A copy of the bytes.
pub fn piece(alloc: Global, bytes: &[u8]) -> Result<Piece, AllocError>
    ensures { IfOk result (λ piece. piece ≡ bytes.now) }
{
    Ok(Piece::new(Vec::from_slice(alloc, bytes)?))
}
