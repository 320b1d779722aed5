// A connection: a mirror on one link.
ghost use Rattle.std.specs.Prelude.{◌≡◌, IfOk, option_map};
ghost use Rattle.std.specs.Option.{ForSome};
ghost use Rattle.lam_outside.specs.LinkSteps.{AtEachRead};
ghost use Rattle.link_ends.specs.EndCauses.{EndCause};
ghost use Rattle.link_ends.specs.LinkStops.{LinkStopCause};
ghost use Rattle.mirror_links.specs.Prompt.{IsPrompt};
ghost use Rattle.mirror_links.specs.Steps.{AnswersMessage, AsksNext, Ends, SendsFront};
ghost use Rattle.piece_mirror.specs.Answers.{answer_of, given_by};
ghost use Rattle.piece_mirror.specs.Tables.{bytes_of};
ghost use Rattle.session_meaning.specs.FetchMessages.{IsAnswer, answer_bytes};
ghost use Rattle.wire_form.specs.Gots.{got_meant};
ghost use Rattle.wire_form.specs.MovedBytes.{Moves};
ghost use Rattle.wire_form.specs.Waits.{WaitsInside};

use core_terms::{Digest, Hash32, Piece};
use lam_outside::Link;
use link_ends::{ConnectionEnd, LinkStop};
use piece_mirror::Mirror;
use std::alloc::{AllocError, Global};
use wire_form::{Got, ReadStop, read_fetch, write_piece};

/// How many messages are answered on a link.
const MOST_FETCHES: u32 = 1_000_000;

/// Answers on a link, each message that asks for a piece by the first piece of the mirror with its digest, or by that there is none.
/// The connection ends at another message, at the end of the input, or behind 1,000,000 answers, so it ends whatever comes.
///
/// At a link fault, or where memory is wanting, each message of the bytes that were taken from the link was answered; of the last
/// answer a front may have been sent.
pub fn answer_link<H: Hash32, L: Link>(
    alloc: Global,
    mirror: &Mirror<H>,
    link: &mut L,
) -> ConnectionEnd
    ensures answered { ForSome (L.left link.old) (λ bytes.
        Ends (given_by H.hash (bytes_of mirror.now.pieces)) bytes (L.left link.new) (L.sent link.old) (L.sent link.new) result) }
    ensures prompt { ForSome (L.left link.old) (λ bytes.
        AtEachRead (IsPrompt (given_by H.hash (bytes_of mirror.now.pieces)) bytes (L.sent link.old)) (L.reads link.old) (L.reads link.new)) }
    ensures moves { Moves (L.given link.old) (L.left link.old) (L.given link.new) (L.left link.new) }
    ensures beyond { L.beyond link.new ≡ L.beyond link.old }
    ensures cause { EndCause (L.faults link.old) (L.faults link.new) result }
{
    for _ in 0..MOST_FETCHES {
        match answer_message(alloc, mirror, link) {
            Ok(true) => {}
            Ok(false) => return ConnectionEnd::Over,
            Err(LinkStop::LinkFault) => return ConnectionEnd::LinkFault,
            Err(LinkStop::Stopped) => return ConnectionEnd::Stopped,
        }
    }
    ConnectionEnd::Over
}

/// Answers the next message of a connection. Whether there was one that asks for a piece.
fn answer_message<H: Hash32, L: Link>(
    alloc: Global,
    mirror: &Mirror<H>,
    link: &mut L,
) -> Result<bool, LinkStop>
    ensures answered { ForSome (L.left link.old) (λ bytes.
        AnswersMessage (given_by H.hash (bytes_of mirror.now.pieces)) bytes (L.left link.new) (L.sent link.old) (L.sent link.new) result) }
    ensures waits { ForSome (L.left link.old) (λ bytes. AtEachRead (WaitsInside bytes (L.sent link.old)) (L.reads link.old) (L.reads link.new)) }
    ensures moves { Moves (L.given link.old) (L.left link.old) (L.given link.new) (L.left link.new) }
    ensures beyond { L.beyond link.new ≡ L.beyond link.old }
    ensures cause { LinkStopCause (L.faults link.old) (L.faults link.new) result }
{
    match next_asked(alloc, link)? {
        Some(digest) => {
            answer(alloc, mirror.get(&digest), link)?;
            Ok(true)
        }
        None => Ok(false),
    }
}

/// The digest that the next message asks for; none where there is no such message.
fn next_asked<L: Link>(alloc: Global, link: &mut L) -> Result<Option<Digest>, LinkStop>
    ensures asks { ForSome (L.left link.old) (λ bytes. AsksNext bytes (L.left link.new) result) }
    ensures waits { ForSome (L.left link.old) (λ bytes. AtEachRead (WaitsInside bytes (L.sent link.old)) (L.reads link.old) (L.reads link.new)) }
    ensures moves { Moves (L.given link.old) (L.left link.old) (L.given link.new) (L.left link.new) }
    ensures sent { L.sent link.new ≡ L.sent link.old }
    ensures beyond { L.beyond link.new ≡ L.beyond link.old }
    ensures cause { LinkStopCause (L.faults link.old) (L.faults link.new) result }
{
    match read_fetch(alloc, link) {
        Ok(digest) => Ok(Some(digest)),
        Err(ReadStop::BadMessage(_, _)) => Ok(None),
        Err(ReadStop::TooLong(_)) => Ok(None),
        Err(ReadStop::End) => Ok(None),
        Err(ReadStop::Cut) => Ok(None),
        Err(ReadStop::LinkFault) => Err(LinkStop::LinkFault),
        Err(ReadStop::NoMemory) => Err(LinkStop::Stopped),
    }
}

/// Sends a piece, or that there is none. Where that fails a front of it may have been sent.
fn answer<L: Link>(alloc: Global, piece: Option<&[u8]>, link: &mut L) -> Result<(), LinkStop>
    requires { IsAnswer (answer_of (option_map (λ p. p.now) piece)) }
    ensures sends { SendsFront (answer_bytes (answer_of (option_map (λ p. p.now) piece.entry))) (L.sent link.old) (L.sent link.new) result }
    ensures reads { L.reads link.new ≡ L.reads link.old }
    ensures given { L.given link.new ≡ L.given link.old }
    ensures left { L.left link.new ≡ L.left link.old }
    ensures beyond { L.beyond link.new ≡ L.beyond link.old }
    ensures cause { LinkStopCause (L.faults link.old) (L.faults link.new) result }
{
    let got = got_of(alloc, piece)?;
    write_piece(alloc, link, &got)?;
    Ok(())
}

/// The answer that gives this piece, or that there is none.
fn got_of(alloc: Global, piece: Option<&[u8]>) -> Result<Got, AllocError>
    ensures { IfOk result (λ got. got_meant got ≡ answer_of (option_map (λ p. p.now) piece.entry)) }
{
    match piece {
        Some(bytes) => Ok(Got::Piece(Piece::new(Vec::from_slice(alloc, bytes)?))),
        None => Ok(Got::Lack),
    }
}
