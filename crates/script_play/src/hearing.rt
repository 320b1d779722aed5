// What is told of a reply.
ghost use Rattle.std.specs.Prelude.{◌≡◌, ◌<◌, ◌&&◌, true, IfOk, IsSome};
ghost use Rattle.core_terms.specs.Programs.{types_of};
ghost use Rattle.code_gen.specs.Programs.{program_in};
ghost use Rattle.mode_vm.specs.Meanings.{program_of};
ghost use Rattle.session_meaning.specs.Client.{Client, Taken, state_of};
ghost use Rattle.session_meaning.specs.MessageFields.{IsReply};
ghost use Rattle.wire_form.specs.MessageViews.{reply_meant};
ghost use Rattle.ask_core.specs.Answers.{fault_told};
ghost use Rattle.ask_core.specs.Replies.{step_taken};
ghost use Rattle.ask_core.specs.Sessions.{StandsFor, StandsForSome, sessions_waiting};
ghost use Rattle.script_play.specs.DeedLines.{answer_line};
ghost use Rattle.script_play.specs.Plays.{goes_behind, hears, told_of};
ghost use Rattle.script_play.specs.PlayingInCode.{IsTelling, names_of, own_of};
ghost use Rattle.script_play.specs.Tellings.{OfAnswer, called_updates, is_outcome, makes_state, state_if, told_done, told_goes};

use crate::lines::answer_line;
use crate::telling::Telling;
use ask_core::reply_parts::session_of;
use ask_core::{AskCore, AskFault, CalledRole, Told};
use core_terms::{Hash32, Outcome, RoleKind, Spelling};
use std::alloc::{AllocError, Global};
use wire_form::Reply;

/// Takes a reply, and finds what is told of it. Where memory is wanting the core may have forgotten the session of the reply.
pub fn hear<H: Hash32>(
    alloc: Global,
    core: &mut AskCore<H>,
    reply: Reply,
) -> Result<Telling, AllocError>
    requires known { StandsForSome core.old }
    requires message { IsReply (reply_meant reply) }
    ensures tells { let code = core.old.code in let P = program_of code in let r = reply_meant reply in
        IfOk result (λ telling. (c : Client) → StandsFor core.old c
        → IsTelling P (names_of code) (told_of H.hash P (own_of code) c r) (goes_behind (hears H.hash P (own_of code) c r).answer) telling) }
    ensures stands { let code = core.old.code in let r = reply_meant reply in
        IfOk result (λ telling. (c : Client) → StandsFor core.old c → StandsFor core.new (hears H.hash (program_of code) (own_of code) c r).client) }
    ensures known { StandsForSome core.new }
    ensures fewer { IfOk result (λ telling. telling.goes_on ≡ true → sessions_waiting core.new < sessions_waiting core.old) }
    ensures code { core.new.code ≡ core.old.code }
{
    let session = session_of(&reply);
    let called = core.called(session);
    let told = core.take_reply(reply);
    telling_of(alloc, core, session, called, &told)
}

/// What is told of a session that called this role, where it called, and that stands as it does in the core now.
fn telling_of<H: Hash32>(
    alloc: Global,
    core: &AskCore<H>,
    session: u16,
    called: Option<CalledRole>,
    told: &Result<Told, AskFault>,
) -> Result<Telling, AllocError>
    requires { is_outcome told.now ≡ true → IsSome called }
    ensures line { let code = core.now.code in let P = program_of code in IfOk result (λ telling. OfAnswer (types_of (program_in code)) P called told.now
        (λ role answer. telling.line.items ≡ answer_line P (names_of code) session role answer)) }
    ensures made { let code = core.now.code in IfOk result (λ telling. OfAnswer (types_of (program_in code)) (program_of code) called told.now
        (λ role answer. (c : Client) → StandsFor core.now c → telling.made ≡ state_if (makes_state role answer) (state_of c session))) }
    ensures goes_on { let code = core.now.code in IfOk result (λ telling. OfAnswer (types_of (program_in code)) (program_of code) called told.now
        (λ role answer. telling.goes_on ≡ goes_behind answer)) }
    ensures memory { IfOk result (λ telling. (hears forgets : Taken) → step_taken hears forgets told.now ≡ hears) }
{
    let line = answer_line(alloc, core.code().program(), session, called, told)?;
    let made = made_state(alloc, core, session, called, told)?;
    let goes_on = goes_on(told);
    Ok(Telling {
        line,
        made,
        goes_on,
    })
}

/// The spelling of the state that is made, where one is: it is that of the session.
fn made_state<H: Hash32>(
    alloc: Global,
    core: &AskCore<H>,
    session: u16,
    called: Option<CalledRole>,
    told: &Result<Told, AskFault>,
) -> Result<Option<Spelling>, AllocError>
    ensures { let code = core.now.code in IfOk result (λ made. OfAnswer (types_of (program_in code)) (program_of code) called told.now
        (λ role answer. (c : Client) → StandsFor core.now c → made ≡ state_if (makes_state role answer) (state_of c session))) }
{
    if !makes_state(called, told) {
        return Ok(None);
    }
    match core.state(session) {
        Some(state) => {
            let state = Vec::from_slice(alloc, state)?;
            Ok(Some(Spelling::new(state)))
        }
        None => Ok(None),
    }
}

/// Whether it tells of a state that was made: that an update is done.
fn makes_state(called: Option<CalledRole>, told: &Result<Told, AskFault>) -> bool
    ensures { result ≡ (told_done told.now && called_updates called) }
{
    is_done(told) && is_update(called)
}

/// Whether it tells that a call is done.
fn is_done(told: &Result<Told, AskFault>) -> bool
    ensures { result ≡ told_done told.now }
{
    match told {
        Ok(Told::Welcome) => false,
        Ok(Told::Outcome(Outcome::Done(_))) => true,
        Ok(Told::Outcome(Outcome::Trapped(_))) => false,
        Ok(Told::Outcome(Outcome::Out)) => false,
        Ok(Told::Stale(_)) => false,
        Ok(Told::Refused(_)) => false,
        Ok(Told::Ended) => false,
        Err(_) => false,
    }
}

/// Whether an update is called.
fn is_update(called: Option<CalledRole>) -> bool
    ensures { result ≡ called_updates called }
{
    match called {
        Some(role) => match role.kind {
            RoleKind::Init => false,
            RoleKind::Query => false,
            RoleKind::Update => true,
        },
        None => false,
    }
}

/// Whether the script goes on behind it.
fn goes_on(told: &Result<Told, AskFault>) -> bool
    ensures { result ≡ told_goes told.now }
{
    match told {
        Ok(_) => true,
        Err(fault) => goes_behind(*fault),
    }
}

/// Whether the script goes on behind a fault: where it is a line out of turn.
pub fn goes_behind(fault: AskFault) -> bool
    ensures { result ≡ goes_behind (fault_told fault) }
{
    match fault {
        AskFault::OutOfTurn => true,
        AskFault::BadState(_) => false,
        AskFault::BadArgument(_) => false,
        AskFault::Rejected(_, _) => false,
        AskFault::Stranger(_) => false,
        AskFault::WrongReply(_) => false,
        AskFault::Failed(_) => false,
        AskFault::Broken(_) => false,
        AskFault::Closed(_) => false,
        AskFault::NoMemory => false,
    }
}
