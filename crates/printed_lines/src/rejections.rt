// The lines of rejections.

ghost use Rattle.std.specs.Prelude.{◌≡◌, IfOk, string_bytes};
ghost use Rattle.hex.specs.Hex.{encode_lower};
ghost use Rattle.ideal_meaning.specs.Told.{cause_told};
ghost use Rattle.printed_lines.specs.Lines as def;
ghost use Rattle.wire_form.specs.Gots.{wire_meant};

use crate::lines::between;
use crate::refusal::Rejection;
use crate::session_lines::{bad_message_line, cut_line, long_message_line, no_reply_line};
use core_terms::{Cause, Digest};
use std::alloc::{AllocError, Global};
use wire_form::Wire;

/// The line of a rejection.
pub(crate) fn rejection_line(alloc: Global, why: Rejection) -> Result<Vec<u8>, AllocError>
    ensures { IfOk result (λ line. line.items ≡ def.rejection_line why) }
{
    match why {
        Rejection::Cause(cause) => {
            let text = cause_text(alloc, cause)?;
            between(alloc, b"rejected ", text.as_bytes())
        }
        Rejection::Missing(place, want) => {
            let text = missing_text(alloc, place, &want)?;
            between(alloc, b"rejected ", text.as_bytes())
        }
        Rejection::Broken(wire) => broken_line(alloc, wire),
    }
}

/// Why a proof is rejected.
fn cause_text(alloc: Global, cause: Cause) -> Result<String, AllocError>
    ensures { IfOk result (λ text. def.reason_line (string_bytes text) ≡ def.rejected_line (cause_told cause)) }
{
    match cause {
        Cause::Header => format!(in alloc; "header"),
        Cause::Short(place) => format!(in alloc; "short {place}"),
        Cause::BadKind(place, byte) => format!(in alloc; "bad-kind {place} {byte}"),
        Cause::Cut(place) => format!(in alloc; "cut {place}"),
        Cause::PieceLong(place, len) => format!(in alloc; "piece-long {place} {len}"),
        Cause::BadUse(place, k, held) => bad_use_text(alloc, place, k, held),
        Cause::WrongPiece(place, want, found) => wrong_piece_text(alloc, place, &want, &found),
        Cause::BadPiece(place, offset) => format!(in alloc; "bad-piece {place} {offset}"),
        Cause::Leftover(bytes) => format!(in alloc; "leftover {bytes}"),
    }
}

/// That a frame names a kept piece which isn't there.
fn bad_use_text(alloc: Global, place: u64, k: u16, held: u16) -> Result<String, AllocError>
    ensures { IfOk result (λ text. string_bytes text ≡ def.bad_use_text place k held) }
{
    format!(in alloc; "bad-use {place} {k} {held}")
}

/// That a piece has another digest than the one held.
fn wrong_piece_text(
    alloc: Global,
    place: u64,
    want: &Digest,
    found: &Digest,
) -> Result<String, AllocError>
    ensures { IfOk result (λ text. string_bytes text ≡ def.wrong_piece_text place (encode_lower want.now.0) (encode_lower found.now.0)) }
{
    let want = hex::encode(alloc, &want.0)?;
    let found = hex::encode(alloc, &found.0)?;
    wrong_digests_text(alloc, place, &want, &found)
}

/// The same, with the digests in hexadecimal digits.
fn wrong_digests_text(
    alloc: Global,
    place: u64,
    want: &str,
    found: &str,
) -> Result<String, AllocError>
    ensures { IfOk result (λ text. string_bytes text ≡ def.wrong_piece_text place want.now found.now) }
{
    format!(in alloc; "wrong-piece {place} {want} {found}")
}

/// That there is no piece with the digest held.
fn missing_text(alloc: Global, place: u64, want: &Digest) -> Result<String, AllocError>
    ensures { IfOk result (λ text. string_bytes text ≡ def.missing_text place (encode_lower want.now.0)) }
{
    let want = hex::encode(alloc, &want.0)?;
    missing_digits_text(alloc, place, &want)
}

/// The same, with the digest in hexadecimal digits.
fn missing_digits_text(alloc: Global, place: u64, want: &str) -> Result<String, AllocError>
    ensures { IfOk result (λ text. string_bytes text ≡ def.missing_text place want.now) }
{
    format!(in alloc; "missing {place} {want}")
}

/// The line of an answer that isn't read.
fn broken_line(alloc: Global, wire: Wire) -> Result<Vec<u8>, AllocError>
    ensures { IfOk result (λ line. line.items ≡ def.wire_line (wire_meant wire)) }
{
    match wire {
        Wire::End => Vec::from_slice(alloc, no_reply_line().as_bytes()),
        Wire::Cut => Vec::from_slice(alloc, cut_line().as_bytes()),
        Wire::TooLong(len) => long_message_line(alloc, len),
        Wire::BadMessage(kind, offset) => bad_message_line(alloc, kind, offset),
    }
}
