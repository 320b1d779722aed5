// The lines of a user's script.

ghost use Rattle.std.specs.Prelude.{◌≡◌, ◌++◌, IfOk, codes, decimal, string_bytes};
ghost use Rattle.ideal_meaning.specs.Told.{cause_told};
ghost use Rattle.printed_lines.specs.Lines as parts;
ghost use Rattle.printed_lines.specs.SessionLines as def;

use crate::lines::between;
use crate::refusal::Rejection;
use crate::rejections::rejection_line;
use core_terms::Cause;
use std::alloc::{AllocError, Global};

/// The line of a session, behind whose number this line stands.
pub fn session_line(alloc: Global, session: u16, line: &[u8]) -> Result<Vec<u8>, AllocError>
    ensures { IfOk result (λ told. told.items ≡ def.session_line session line.now) }
{
    let number = number_text(alloc, session)?;
    let mut told = Vec::from_slice(alloc, number.as_bytes())?;
    told.extend_from_slice(b" ")?;
    told.extend_from_slice(line)?;
    Ok(told)
}

/// The number of a session.
fn number_text(alloc: Global, session: u16) -> Result<String, AllocError>
    ensures { IfOk result (λ text. string_bytes text ≡ decimal session) }
{
    format!(in alloc; "{session}")
}

/// The line of a session that begins.
pub fn welcome_line(alloc: Global, session: u16) -> Result<Vec<u8>, AllocError>
    ensures { IfOk result (λ line. line.items ≡ def.welcome_line session) }
{
    session_line(alloc, session, b"welcome\n")
}

/// The line of a session whose call came too late.
pub fn stale_line(alloc: Global, session: u16) -> Result<Vec<u8>, AllocError>
    ensures { IfOk result (λ line. line.items ≡ def.stale_line session) }
{
    session_line(alloc, session, b"stale\n")
}

/// The line of a session that has ended, as it was asked to.
pub fn ended_line(alloc: Global, session: u16) -> Result<Vec<u8>, AllocError>
    ensures { IfOk result (λ line. line.items ≡ def.ended_line session) }
{
    session_line(alloc, session, b"closed\n")
}

/// The line of what was asked of a session out of turn.
pub fn out_of_turn_line(alloc: Global, session: u16) -> Result<Vec<u8>, AllocError>
    ensures { IfOk result (λ line. line.items ≡ def.out_of_turn_line session) }
{
    session_line(alloc, session, b"out of turn\n")
}

/// The line of a session whose greeting or call was refused, for the cause with this number.
pub fn refused_line(alloc: Global, session: u16, cause: u8) -> Result<Vec<u8>, AllocError>
    ensures { IfOk result (λ line. line.items ≡ def.refused_line session cause) }
{
    let text = cause_text(alloc, cause)?;
    let line = between(alloc, b"refused", text.as_bytes())?;
    session_line(alloc, session, &line)
}

/// The number of a cause, behind a blank.
fn cause_text(alloc: Global, cause: u8) -> Result<String, AllocError>
    ensures { IfOk result (λ text. string_bytes text ≡ parts.also cause) }
{
    format!(in alloc; " {cause}")
}

/// The line of a session the proof of whose call is rejected.
pub fn rejected_line(alloc: Global, session: u16, cause: Cause) -> Result<Vec<u8>, AllocError>
    ensures { IfOk result (λ line. line.items ≡ def.session_line session (parts.rejected_line (cause_told cause))) }
{
    let line = rejection_line(alloc, Rejection::Cause(cause))?;
    session_line(alloc, session, &line)
}

/// The line of a reply to a session that waits for none.
pub fn stranger_line(alloc: Global, session: u16) -> Result<Vec<u8>, AllocError>
    ensures { IfOk result (λ line. line.items ≡ def.stranger_line session) }
{
    let text = stranger_text(alloc, session)?;
    between(alloc, b"bad reply", text.as_bytes())
}

/// The number of a session that waits for no reply.
fn stranger_text(alloc: Global, session: u16) -> Result<String, AllocError>
    ensures { IfOk result (λ text. string_bytes text ≡ parts.also session ++ codes " stranger") }
{
    format!(in alloc; " {session} stranger")
}

/// The line of a reply to a session that waits for another than one of this kind.
pub fn wrong_reply_line(alloc: Global, session: u16, kind: u8) -> Result<Vec<u8>, AllocError>
    ensures { IfOk result (λ line. line.items ≡ def.wrong_reply_line session kind) }
{
    let text = wrong_reply_text(alloc, session, kind)?;
    between(alloc, b"bad reply", text.as_bytes())
}

/// The number of a session that waits for another reply than one of this kind.
fn wrong_reply_text(alloc: Global, session: u16, kind: u8) -> Result<String, AllocError>
    ensures { IfOk result (λ text. string_bytes text ≡ parts.also session ++ (codes " wrong" ++ parts.also kind)) }
{
    format!(in alloc; " {session} wrong {kind}")
}

/// The line of a reply that ends all sessions, with this cause.
pub fn server_closed_line(alloc: Global, cause: u8) -> Result<Vec<u8>, AllocError>
    ensures { IfOk result (λ line. line.items ≡ def.server_closed_line cause) }
{
    let text = cause_text(alloc, cause)?;
    between(alloc, b"server closed", text.as_bytes())
}

/// The line of a message that is no reply: its kind, and the offset of its first fault.
pub fn bad_message_line(alloc: Global, kind: u8, offset: u32) -> Result<Vec<u8>, AllocError>
    ensures { IfOk result (λ line. line.items ≡ parts.bad_message_line kind offset) }
{
    let text = message_text(alloc, kind, offset)?;
    between(alloc, b"bad message", text.as_bytes())
}

/// A kind and an offset, each behind a blank.
fn message_text(alloc: Global, kind: u8, offset: u32) -> Result<String, AllocError>
    ensures { IfOk result (λ text. string_bytes text ≡ parts.also kind ++ parts.also offset) }
{
    format!(in alloc; " {kind} {offset}")
}

/// The line of a message whose length field says this, which is too much.
pub fn long_message_line(alloc: Global, len: u32) -> Result<Vec<u8>, AllocError>
    ensures { IfOk result (λ line. line.items ≡ parts.long_message_line len) }
{
    let text = length_text(alloc, len)?;
    between(alloc, b"message too long", text.as_bytes())
}

/// A length, behind a blank.
fn length_text(alloc: Global, len: u32) -> Result<String, AllocError>
    ensures { IfOk result (λ text. string_bytes text ≡ parts.also len) }
{
    format!(in alloc; " {len}")
}

/// The line of an input that ends inside a reply.
pub fn cut_line() -> &'static str
    ensures { result.now ≡ parts.cut_line }
{
    "reply cut\n"
}

/// The line of an input that ends where a reply is waited for.
pub fn no_reply_line() -> &'static str
    ensures { result.now ≡ parts.no_reply_line }
{
    "reply ended\n"
}
