// The lines of a script are played, one by one.
ghost use Rattle.std.specs.Prelude.{◌≡◌, ℕ, List, Some, IfOk, length, map};
ghost use Rattle.std.specs.List.{All};
ghost use Rattle.mode_vm.specs.Meanings.{program_of};
ghost use Rattle.lam_outside.specs.LinkSteps.{AtEachRead};
ghost use Rattle.session_meaning.specs.Client.{Client, Taken, waits};
ghost use Rattle.session_meaning.specs.MessageFields.{IsRequest};
ghost use Rattle.wire_form.specs.MessageViews.{request_meant};
ghost use Rattle.wire_form.specs.MovedBytes.{Moves};
ghost use Rattle.ask_core.specs.Sessions.{StandsFor, StandsForSome};
ghost use Rattle.session_meaning.specs.Waiting.{some_calls};
ghost use Rattle.ask_script.specs.ScriptAnswers.{step_meant};
ghost use Rattle.ask_script.specs.Scripts.{Fits};
ghost use Rattle.script_play.specs.PlayedInCode.{IsPlayed};
ghost use Rattle.script_play.specs.Plays.{asked_play, lets_run, play, play_step, take_replies};
ghost use Rattle.script_play.specs.Playing.{world};
ghost use Rattle.script_play.specs.PlayingInCode.{ClientAnswers, PlayCause, own_of};
ghost use Rattle.script_play.specs.Prompt.{IsPromptOn};

use crate::asking::{ask, send};
use crate::play_stop::PlayStop;
use crate::taking::{Whose, take_replies};
use ask_core::{AskCore, AskFault};
use ask_script::Step;
use core_terms::{Hash32, Spelling};
use lam_outside::{Link, Sink};
use std::alloc::Global;
use wire_form::Request;

/// Plays a script, line by line: what its lines ask is sent, replies are taken where they are waited for, and what
/// they tell is told. Sessions are opened at the state with the spelling `state`; `last` is the spelling of the state
/// that was told last.
///
/// # Errors
///
/// - `Ended` where what was told last ends the play: a rejection, a reply that isn't waited for, an end of all
///   sessions, or no reply where one is waited for.
/// - `LinkFault` where the link failed, `WriteFault` where the sink failed, and its count of faults rose.
/// - `NoMemory` where memory was wanting.
pub fn play<H: Hash32, L: Link, O: Sink>(
    alloc: Global,
    core: &mut AskCore<H>,
    state: &[u8],
    steps: &[Step],
    link: &mut L,
    out: &mut O,
    last: &mut Option<Spelling>,
) -> Result<(), PlayStop>
    requires known { StandsForSome core.old }
    requires script { All (λ step. Fits (program_of core.old.code) (step_meant step)) steps.now }
    ensures played { let code = core.old.code in (c : Client) → StandsFor core.old c
        → IsPlayed code (StandsFor core.new) (L.left link.old) (L.left link.new)
        (world (L.sent link.old) (O.written out.old) last.old) (world (L.sent link.new) (O.written out.new) last.new)
        (play H.hash (program_of code) (own_of code) state.now (map step_meant steps.now) c) result }
    ensures prompt { let code = core.old.code in (c : Client) (bytes : List ℕ) → StandsFor core.old c → L.left link.old ≡ Some bytes
        → AtEachRead (IsPromptOn bytes (L.sent link.old) (play H.hash (program_of code) (own_of code) state.now (map step_meant steps.now) c)) (L.reads link.old) (L.reads link.new) }
    ensures known { StandsForSome core.new }
    ensures code { core.new.code ≡ core.old.code }
    ensures moves { Moves (L.given link.old) (L.left link.old) (L.given link.new) (L.left link.new) }
    ensures beyond { L.beyond link.new ≡ L.beyond link.old }
    ensures cause { PlayCause (L.faults link.old) (L.faults link.new) (O.faults out.old) (O.faults out.new) result }
{
    // A greeting is a message since the digest that it sends has 32 bytes.
    core.code().program().text_digest().as_bytes();
    for step in steps {
        play_step(alloc, core, state, step, link, out, last)?;
    }
    Ok(())
}

/// Plays a line.
fn play_step<H: Hash32, L: Link, O: Sink>(
    alloc: Global,
    core: &mut AskCore<H>,
    state: &[u8],
    step: &Step,
    link: &mut L,
    out: &mut O,
    last: &mut Option<Spelling>,
) -> Result<(), PlayStop>
    requires known { StandsForSome core.old }
    requires own { length (own_of core.old.code) ≡ 32 }
    requires step { Fits (program_of core.old.code) (step_meant step.now) }
    ensures played { let code = core.old.code in (c : Client) → StandsFor core.old c
        → IsPlayed code (StandsFor core.new) (L.left link.old) (L.left link.new)
        (world (L.sent link.old) (O.written out.old) last.old) (world (L.sent link.new) (O.written out.new) last.new)
        (play_step H.hash (program_of code) (own_of code) state.now (step_meant step.now) c) result }
    ensures prompt { let code = core.old.code in (c : Client) (bytes : List ℕ) → StandsFor core.old c → L.left link.old ≡ Some bytes
        → AtEachRead (IsPromptOn bytes (L.sent link.old) (play_step H.hash (program_of code) (own_of code) state.now (step_meant step.now) c)) (L.reads link.old) (L.reads link.new) }
    ensures known { StandsForSome core.new }
    ensures code { core.new.code ≡ core.old.code }
    ensures moves { Moves (L.given link.old) (L.left link.old) (L.given link.new) (L.left link.new) }
    ensures beyond { L.beyond link.new ≡ L.beyond link.old }
    ensures cause { PlayCause (L.faults link.old) (L.faults link.new) (O.faults out.old) (O.faults out.new) result }
{
    match step {
        Step::Open { session, kept } => {
            let answered = core.hello(*session, *kept, state);
            ask_and_wait(alloc, core, *session, answered, link, out, last)
        }
        Step::Call {
            session,
            role,
            fuel,
            argument,
        } => {
            let answered = core.call(*session, *role, *fuel, argument.as_bytes());
            ask(alloc, *session, answered, link, out, last)?;
            Ok(())
        }
        Step::Go => let_run(alloc, core, link, out, last),
        Step::Close { session } => {
            let answered = core.bye(*session);
            ask_and_wait(alloc, core, *session, answered, link, out, last)
        }
    }
}

/// Sends what a line of a session asks, and takes replies until that session waits for none.
fn ask_and_wait<H: Hash32, L: Link, O: Sink>(
    alloc: Global,
    core: &mut AskCore<H>,
    session: u16,
    answered: Result<Request, AskFault>,
    link: &mut L,
    out: &mut O,
    last: &mut Option<Spelling>,
) -> Result<(), PlayStop>
    requires known { StandsForSome core.old }
    requires message { IfOk answered (λ request. IsRequest (request_meant request)) }
    ensures played { let code = core.old.code in (t : Taken) → ClientAnswers (StandsFor core.old) t answered
        → IsPlayed code (StandsFor core.new) (L.left link.old) (L.left link.new)
        (world (L.sent link.old) (O.written out.old) last.old) (world (L.sent link.new) (O.written out.new) last.new)
        (λ ms. asked_play t session ms (take_replies H.hash (program_of code) (own_of code) (λ c. waits c session))) result }
    ensures prompt { let code = core.old.code in (t : Taken) (bytes : List ℕ) → ClientAnswers (StandsFor core.old) t answered → L.left link.old ≡ Some bytes
        → AtEachRead (IsPromptOn bytes (L.sent link.old) (λ ms. asked_play t session ms (take_replies H.hash (program_of code) (own_of code) (λ c. waits c session))))
        (L.reads link.old) (L.reads link.new) }
    ensures known { StandsForSome core.new }
    ensures code { core.new.code ≡ core.old.code }
    ensures moves { Moves (L.given link.old) (L.left link.old) (L.given link.new) (L.left link.new) }
    ensures beyond { L.beyond link.new ≡ L.beyond link.old }
    ensures cause { PlayCause (L.faults link.old) (L.faults link.new) (O.faults out.old) (O.faults out.new) result }
{
    let sent = ask(alloc, session, answered, link, out, last)?;
    if sent {
        return take_replies(alloc, core, Whose::One(session), link, out, last);
    }
    Ok(())
}

/// Lets the calls of all sessions run, where one calls, and takes replies until no session waits for one.
fn let_run<H: Hash32, L: Link, O: Sink>(
    alloc: Global,
    core: &mut AskCore<H>,
    link: &mut L,
    out: &mut O,
    last: &mut Option<Spelling>,
) -> Result<(), PlayStop>
    requires known { StandsForSome core.old }
    ensures played { let code = core.old.code in (c : Client) → StandsFor core.old c
        → IsPlayed code (StandsFor core.new) (L.left link.old) (L.left link.new)
        (world (L.sent link.old) (O.written out.old) last.old) (world (L.sent link.new) (O.written out.new) last.new)
        (lets_run H.hash (program_of code) (own_of code) (some_calls c) c) result }
    ensures prompt { let code = core.old.code in (c : Client) (bytes : List ℕ) → StandsFor core.old c → L.left link.old ≡ Some bytes
        → AtEachRead (IsPromptOn bytes (L.sent link.old) (lets_run H.hash (program_of code) (own_of code) (some_calls c) c)) (L.reads link.old) (L.reads link.new) }
    ensures known { StandsForSome core.new }
    ensures code { core.new.code ≡ core.old.code }
    ensures moves { Moves (L.given link.old) (L.left link.old) (L.given link.new) (L.left link.new) }
    ensures beyond { L.beyond link.new ≡ L.beyond link.old }
    ensures cause { PlayCause (L.faults link.old) (L.faults link.new) (O.faults out.old) (O.faults out.new) result }
{
    if core.any_calls() {
        send(alloc, link, &Request::Go { rounds: u32::MAX })?;
    }
    take_replies(alloc, core, Whose::All, link, out, last)
}
