// The lines of what is told.
ghost use Rattle.std.specs.Prelude.{◌≡◌, true, Ok, Err, IfOk, IfSome, IsSome};
ghost use Rattle.core_terms.specs.Programs.{constructor_names, meaning, types_of};
ghost use Rattle.core_terms.specs.Roles.{Role};
ghost use Rattle.core_terms.specs.Terms as tree;
ghost use Rattle.core_terms.specs.TypeTables.{type_at};
ghost use Rattle.core_terms.specs.Types.{Ty};
ghost use Rattle.ideal_meaning.specs.Ideal as ideal;
ghost use Rattle.ideal_meaning.specs.SpelledOutcomes.{SpellsOutcome};
ghost use Rattle.printed_syntax.specs.Literals.{ConstructorNames};
ghost use Rattle.session_meaning.specs.Client.{Taken};
ghost use Rattle.ask_core.specs.Answers.{fault_told};
ghost use Rattle.ask_core.specs.Replies.{step_taken};
ghost use Rattle.script_play.specs.DeedLines.{answer_line, outcome_line};
ghost use Rattle.script_play.specs.Tellings.{IsStopLine, OfAnswer, is_outcome};

use crate::play_stop::PlayStop;
use ask_core::{AskFault, CalledRole, Told};
use core_terms::{Outcome, Program, Spelling};
use printed_lines::lines::{named_done_line, out_line, trap_line};
use printed_lines::session_lines::{
    bad_message_line, cut_line, ended_line, long_message_line, no_reply_line, out_of_turn_line,
    refused_line, rejected_line, server_closed_line, session_line, stale_line, stranger_line,
    welcome_line, wrong_reply_line,
};
use std::alloc::{AllocError, Global};
use wire_form::ReadStop;

/// The line of what a reply to a session tells, which calls this role where it calls. There is none for the want of memory.
pub fn answer_line(
    alloc: Global,
    program: &Program,
    session: u16,
    called: Option<CalledRole>,
    told: &Result<Told, AskFault>,
) -> Result<Vec<u8>, AllocError>
    requires { is_outcome told.now ≡ true → IsSome called }
    ensures line { let P = meaning program.now in IfOk result (λ line. OfAnswer (types_of program.now) P called told.now
        (λ role answer. line.items ≡ answer_line P (constructor_names program.now.types.named.items) session role answer)) }
    ensures memory { IfOk result (λ line. (hears forgets : Taken) → step_taken hears forgets told.now ≡ hears) }
{
    match told {
        Ok(told) => told_line(alloc, program, session, called, told),
        Err(fault) => fault_line(alloc, session, *fault),
    }
}

/// The line of what is told, where nothing is at fault.
fn told_line(
    alloc: Global,
    program: &Program,
    session: u16,
    called: Option<CalledRole>,
    told: &Told,
) -> Result<Vec<u8>, AllocError>
    requires { is_outcome (Ok told.now) ≡ true → IsSome called }
    ensures { let P = meaning program.now in IfOk result (λ line. OfAnswer (types_of program.now) P called (Ok told.now)
        (λ role answer. line.items ≡ answer_line P (constructor_names program.now.types.named.items) session role answer)) }
{
    match told {
        Told::Welcome => welcome_line(alloc, session),
        Told::Outcome(outcome) => {
            let line = outcome_line(alloc, program, called, outcome)?;
            session_line(alloc, session, &line)
        }
        Told::Stale(_) => stale_line(alloc, session),
        Told::Refused(cause) => refused_line(alloc, session, *cause),
        Told::Ended => ended_line(alloc, session),
    }
}

/// The line of an outcome.
fn outcome_line(
    alloc: Global,
    program: &Program,
    called: Option<CalledRole>,
    outcome: &Outcome<Spelling>,
) -> Result<Vec<u8>, AllocError>
    requires { IsSome called }
    ensures { let P = meaning program.now in IfOk result (λ line. (t : Ty) (o : ideal.Outcome) → IfSome called (λ role. type_at (types_of program.now) role.result ≡ t)
        → SpellsOutcome P t o outcome.now → line.items ≡ outcome_line P (constructor_names program.now.types.named.items) t o) }
{
    match outcome {
        Outcome::Done(value) => match called {
            Some(role) => named_done_line(alloc, program, role.result, value.as_bytes()),
            None => unreachable!(),
        },
        Outcome::Trapped(trap) => Vec::from_slice(alloc, trap_line(*trap).as_bytes()),
        Outcome::Out => Vec::from_slice(alloc, out_line().as_bytes()),
    }
}

/// The line of a fault of a session. There is none for the want of memory, nor, since the script and the state were judged before,
/// for a state or an argument that is no spelling.
pub fn fault_line(alloc: Global, session: u16, fault: AskFault) -> Result<Vec<u8>, AllocError>
    ensures line { IfOk result (λ line. (P : tree.Program) (names : ConstructorNames) (called : Role) → line.items ≡ answer_line P names session called (fault_told fault)) }
    ensures memory { IfOk result (λ line. (hears forgets : Taken) → step_taken hears forgets (Err fault) ≡ hears) }
{
    match fault {
        AskFault::BadState(_) => Ok(Vec::new(alloc)),
        AskFault::BadArgument(_) => Ok(Vec::new(alloc)),
        AskFault::OutOfTurn => out_of_turn_line(alloc, session),
        AskFault::Rejected(_, cause) => rejected_line(alloc, session, cause),
        AskFault::Stranger(_) => stranger_line(alloc, session),
        AskFault::WrongReply(kind) => wrong_reply_line(alloc, session, kind),
        AskFault::Failed(cause) => rejected_line(alloc, session, cause),
        AskFault::Broken(kind) => wrong_reply_line(alloc, session, kind),
        AskFault::Closed(cause) => server_closed_line(alloc, cause),
        AskFault::NoMemory => Err(AllocError),
    }
}

/// The line of why no more replies are read. There is none for a link that failed or the want of memory.
pub fn stop_line(alloc: Global, stop: ReadStop) -> Result<Vec<u8>, PlayStop>
    ensures { IsStopLine stop result }
{
    match stop {
        ReadStop::BadMessage(kind, offset) => Ok(bad_message_line(alloc, kind, offset)?),
        ReadStop::TooLong(len) => Ok(long_message_line(alloc, len)?),
        ReadStop::End => Ok(Vec::from_slice(alloc, no_reply_line().as_bytes())?),
        ReadStop::Cut => Ok(Vec::from_slice(alloc, cut_line().as_bytes())?),
        ReadStop::LinkFault => Err(PlayStop::LinkFault),
        ReadStop::NoMemory => Err(PlayStop::NoMemory),
    }
}
