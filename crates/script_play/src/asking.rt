// Lines of a script are asked.
ghost use Rattle.std.specs.Prelude.{◌≡◌, ℕ, Err, IfOk};
ghost use Rattle.core_terms.specs.Terms as tree;
ghost use Rattle.printed_syntax.specs.Literals.{ConstructorNames};
ghost use Rattle.session_meaning.specs.Calls.{no_role};
ghost use Rattle.session_meaning.specs.Client.{Taken};
ghost use Rattle.session_meaning.specs.Messages.{Messages, Reply};
ghost use Rattle.session_meaning.specs.MessageFields.{IsRequest};
ghost use Rattle.wire_form.specs.MessageViews.{request_meant};
ghost use Rattle.ask_core.specs.Answers.{fault_told};
ghost use Rattle.ask_core.specs.Replies.{step_taken};
ghost use Rattle.script_play.specs.Halting.{HaltsAt};
ghost use Rattle.script_play.specs.HaltingInCode.{OnLinkFault};
ghost use Rattle.script_play.specs.Plays.{Tells, asked_play, goes_behind, rests};
ghost use Rattle.script_play.specs.Playing.{AreComing, PlaysAs, world};
ghost use Rattle.script_play.specs.PlayingInCode.{SendsRequest, ClientAnswers, IsAnswered, IsTelling, PlayCause, is_sending};

use crate::hearing::goes_behind;
use crate::lines::fault_line;
use crate::play_stop::PlayStop;
use crate::telling::{Telling, tell};
use ask_core::AskFault;
use core_terms::Spelling;
use lam_outside::{Link, Sink};
use std::alloc::{AllocError, Global};
use wire_form::{Request, WriteStop, write_request};

/// Sends what a line asks, and answers that it was sent; or tells why nothing is sent, behind which the script goes on.
pub fn ask<L: Link, O: Sink>(
    alloc: Global,
    session: u16,
    answered: Result<Request, AskFault>,
    link: &mut L,
    out: &mut O,
    last: &mut Option<Spelling>,
) -> Result<bool, PlayStop>
    requires message { IfOk answered (λ request. IsRequest (request_meant request)) }
    ensures plays { (P : tree.Program) (names : ConstructorNames) (t : Taken) (ms : Messages Reply) → ClientAnswers (λ c. Unit {0}) t answered → AreComing (L.left link.old) ms
        → PlaysAs P names (λ c. c ≡ t.client) (L.left link.new)
        (world (L.sent link.old) (O.written out.old) last.old) (world (L.sent link.new) (O.written out.new) last.new)
        (asked_play t session ms rests) result }
    ensures halts { (P : tree.Program) (names : ConstructorNames) (t : Taken) (ms : Messages Reply) → ClientAnswers (λ c. Unit {0}) t answered
        → OnLinkFault result (HaltsAt P names (world (L.sent link.old) (O.written out.old) last.old) (world (L.sent link.new) (O.written out.new) last.new)
        (asked_play t session ms rests).deeds) }
    ensures sends { IfOk result (λ sent. (t : Taken) → ClientAnswers (λ c. Unit {0}) t answered → sent ≡ is_sending t.answer) }
    ensures memory { IfOk result (λ sent. IsAnswered answered) }
    ensures reads { L.reads link.new ≡ L.reads link.old }
    ensures given { L.given link.new ≡ L.given link.old }
    ensures left { L.left link.new ≡ L.left link.old }
    ensures beyond { L.beyond link.new ≡ L.beyond link.old }
    ensures cause { PlayCause (L.faults link.old) (L.faults link.new) (O.faults out.old) (O.faults out.new) result }
{
    match answered {
        Ok(request) => {
            send(alloc, link, &request)?;
            Ok(true)
        }
        Err(fault) => {
            let telling = refused(alloc, session, fault)?;
            tell(out, last, telling)?;
            Ok(false)
        }
    }
}

/// What is told of a line of a session that is refused.
fn refused(alloc: Global, session: u16, fault: AskFault) -> Result<Telling, AllocError>
    ensures tells { IfOk result (λ telling. (P : tree.Program) (names : ConstructorNames)
        → IsTelling P names (Tells session no_role (fault_told fault)) (goes_behind (fault_told fault)) telling) }
    ensures memory { IfOk result (λ telling. (hears forgets : Taken) → step_taken hears forgets (Err fault) ≡ hears) }
{
    let line = fault_line(alloc, session, fault)?;
    let goes_on = goes_behind(fault);
    Ok(Telling {
        line,
        made: None,
        goes_on,
    })
}

/// Sends a request.
pub fn send<L: Link>(alloc: Global, link: &mut L, request: &Request) -> Result<(), PlayStop>
    requires { IsRequest (request_meant request.now) }
    ensures sends { SendsRequest (request_meant request.now) (L.sent link.old) (L.sent link.new) result }
    ensures reads { L.reads link.new ≡ L.reads link.old }
    ensures given { L.given link.new ≡ L.given link.old }
    ensures left { L.left link.new ≡ L.left link.old }
    ensures beyond { L.beyond link.new ≡ L.beyond link.old }
    ensures cause { (sink : ℕ) → PlayCause (L.faults link.old) (L.faults link.new) sink sink result }
{
    match write_request(alloc, link, request) {
        Ok(()) => Ok(()),
        Err(WriteStop::LinkFault) => Err(PlayStop::LinkFault),
        Err(WriteStop::NoMemory) => Err(PlayStop::NoMemory),
    }
}
