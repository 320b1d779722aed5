// Replies are read, and what they tell is told.
ghost use Rattle.std.specs.Prelude.{◌≡◌, ◌<◌, ℕ, true, List, Some, IfOk, IfErr, OnOk};
ghost use Rattle.mode_vm.specs.Meanings.{program_of};
ghost use Rattle.session_meaning.specs.Client.{Client};
ghost use Rattle.session_meaning.specs.Messages.{Messages, Reply};
ghost use Rattle.wire_form.specs.MovedBytes.{Moves};
ghost use Rattle.ask_core.specs.Sessions.{StandsFor, StandsForSome, sessions_waiting};
ghost use Rattle.script_play.specs.HaltingInCode.{TakesNext};
ghost use Rattle.script_play.specs.PlayedInCode.{IsPlayed};
ghost use Rattle.script_play.specs.Plays.{take_replies};
ghost use Rattle.script_play.specs.Playing.{AreComing, world};
ghost use Rattle.script_play.specs.PlayingInCode.{IsCutShort, PlayCause, names_of, own_of, take_one, waits_for};
ghost use Rattle.std.specs.Option.{ForSome};
ghost use Rattle.lam_outside.specs.LinkSteps.{AtEachRead};
ghost use Rattle.script_play.specs.Prompt.{IsPromptOn, WaitsForReply};
ghost use Rattle.script_play.specs.Tellings.{IsNext, IsStopTold};

use crate::hearing::hear;
use crate::lines::stop_line;
use crate::play_stop::PlayStop;
use crate::telling::{Telling, tell};
use ask_core::AskCore;
use core_terms::{Hash32, Spelling};
use lam_outside::{Link, Sink};
use std::alloc::Global;
use wire_form::{ReadStop, read_reply};

/// Whose replies are waited for.
#[derive(Clone, Copy)]
pub enum Whose {
    /// Those to the session with this number.
    One(u16),
    /// Those to each session.
    All,
}

/// Whether one is waited for.
fn waits<H: Hash32>(core: &AskCore<H>, whose: Whose) -> bool
    ensures { (c : Client) → StandsFor core.now c → result ≡ waits_for whose c }
{
    match whose {
        Whose::One(session) => core.waiting(session),
        Whose::All => core.any_waits(),
    }
}

/// Takes replies, and tells what each tells, for as long as one is waited for.
///
/// `Ended` where what was told last ends the play: no reply that ends it is followed by another.
pub fn take_replies<H: Hash32, L: Link, O: Sink>(
    alloc: Global,
    core: &mut AskCore<H>,
    whose: Whose,
    link: &mut L,
    out: &mut O,
    last: &mut Option<Spelling>,
) -> Result<(), PlayStop>
    requires known { StandsForSome core.old }
    ensures played { let code = core.old.code in (c : Client) → StandsFor core.old c
        → IsPlayed code (StandsFor core.new) (L.left link.old) (L.left link.new)
        (world (L.sent link.old) (O.written out.old) last.old) (world (L.sent link.new) (O.written out.new) last.new)
        (take_replies H.hash (program_of code) (own_of code) (waits_for whose) c) result }
    ensures prompt { let code = core.old.code in (c : Client) (bytes : List ℕ) → StandsFor core.old c → L.left link.old ≡ Some bytes
        → AtEachRead (IsPromptOn bytes (L.sent link.old) (take_replies H.hash (program_of code) (own_of code) (waits_for whose) c)) (L.reads link.old) (L.reads link.new) }
    ensures known { StandsForSome core.new }
    ensures code { core.new.code ≡ core.old.code }
    ensures moves { Moves (L.given link.old) (L.left link.old) (L.given link.new) (L.left link.new) }
    ensures beyond { L.beyond link.new ≡ L.beyond link.old }
    ensures cause { PlayCause (L.faults link.old) (L.faults link.new) (O.faults out.old) (O.faults out.new) result }
{
    while waits(core, whose) {
        take_one(alloc, core, link, out, last)?;
    }
    Ok(())
}

/// Takes the next reply, and tells what it tells.
fn take_one<H: Hash32, L: Link, O: Sink>(
    alloc: Global,
    core: &mut AskCore<H>,
    link: &mut L,
    out: &mut O,
    last: &mut Option<Spelling>,
) -> Result<(), PlayStop>
    requires known { StandsForSome core.old }
    ensures played { let code = core.old.code in (c : Client) → StandsFor core.old c
        → IsPlayed code (StandsFor core.new) (L.left link.old) (L.left link.new)
        (world (L.sent link.old) (O.written out.old) last.old) (world (L.sent link.new) (O.written out.new) last.new)
        (take_one H.hash (program_of code) (own_of code) c) result }
    ensures fewer { OnOk result (sessions_waiting core.new < sessions_waiting core.old) }
    ensures waits { ForSome (L.left link.old) (λ bytes. AtEachRead (WaitsForReply bytes (L.sent link.old)) (L.reads link.old) (L.reads link.new)) }
    ensures known { StandsForSome core.new }
    ensures code { core.new.code ≡ core.old.code }
    ensures moves { Moves (L.given link.old) (L.left link.old) (L.given link.new) (L.left link.new) }
    ensures beyond { L.beyond link.new ≡ L.beyond link.old }
    ensures cause { PlayCause (L.faults link.old) (L.faults link.new) (O.faults out.old) (O.faults out.new) result }
{
    let telling = next_telling(alloc, core, link)?;
    tell(out, last, telling)
}

/// Takes the next reply, and finds what is told of it, or why there is none.
fn next_telling<H: Hash32, L: Link>(
    alloc: Global,
    core: &mut AskCore<H>,
    link: &mut L,
) -> Result<Telling, PlayStop>
    requires known { StandsForSome core.old }
    ensures next { let code = core.old.code in (c : Client) (ms : Messages Reply) → StandsFor core.old c → AreComing (L.left link.old) ms
        → IfOk result (IsNext H.hash (program_of code) (names_of code) (own_of code) (StandsFor core.new) (L.left link.new) c ms) }
    ensures halts { IfErr result IsCutShort }
    ensures takes { let code = core.old.code in (c : Client) (bytes : List ℕ) → StandsFor core.old c → L.left link.old ≡ Some bytes
        → TakesNext H.hash (program_of code) (names_of code) (own_of code) (StandsFor core.new) bytes (L.left link.new) c result }
    ensures fewer { IfOk result (λ telling. telling.goes_on ≡ true → sessions_waiting core.new < sessions_waiting core.old) }
    ensures waits { ForSome (L.left link.old) (λ bytes. AtEachRead (WaitsForReply bytes (L.sent link.old)) (L.reads link.old) (L.reads link.new)) }
    ensures known { StandsForSome core.new }
    ensures code { core.new.code ≡ core.old.code }
    ensures sent { L.sent link.new ≡ L.sent link.old }
    ensures moves { Moves (L.given link.old) (L.left link.old) (L.given link.new) (L.left link.new) }
    ensures beyond { L.beyond link.new ≡ L.beyond link.old }
    ensures cause { (sink : ℕ) → PlayCause (L.faults link.old) (L.faults link.new) sink sink result }
{
    match read_reply(alloc, link) {
        Ok(reply) => Ok(hear(alloc, core, reply)?),
        Err(stop) => stopped(alloc, stop),
    }
}

/// What is told where no reply can be read.
fn stopped(alloc: Global, stop: ReadStop) -> Result<Telling, PlayStop>
    ensures { IsStopTold stop result }
{
    let line = stop_line(alloc, stop)?;
    Ok(Telling {
        line,
        made: None,
        goes_on: false,
    })
}
