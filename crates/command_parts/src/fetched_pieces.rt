// Pieces that are fetched: those of the mirror in a file, and what is reported of a verdict over some.
ghost use Rattle.std.specs.Prelude.{◌≡◌, ◌≤◌, IfErr, IfOk, length};
ghost use Rattle.std.specs.Option.{ForSome};
ghost use Rattle.command_words.specs.declared.command.Command.{Command};
ghost use Rattle.core_terms.specs.Limits.{most_file_bytes};
ghost use Rattle.piece_mirror.specs.Tables.{bytes_of};
ghost use Rattle.command_parts.specs.Answer.{with_mirror, with_mirror_file};
ghost use Rattle.command_parts.specs.FetchedCalls.{HaltsFor, IsNoFault, ReportsVerdict, rejection_of};
ghost use Rattle.command_parts.specs.Halting.{StepGives, HaltCause, InHand, ending_status, halt_status};
ghost use Rattle.command_parts.specs.ReachingInCode.{FaultsAt};
ghost use Rattle.command_parts.specs.RolesCalled.{IsCalled, role_of};
ghost use Rattle.command_parts.specs.SoundPrograms.{IsOutcome};
ghost use Rattle.command_parts.specs.Statuses.{MayAnswer, ReadsFiles};
ghost use Rattle.command_parts.specs.declared.roles.Callee.{Callee};

use crate::outcomes::outcome_report;
use crate::report::load;
use crate::roles::CalledRole;
use crate::{Halt, Report};
use core_terms::{Cause, MOST_FILE_BYTES, Outcome, Program, Spelling};
use digest_layer::Sha;
use lam_outside::Files;
use piece_fetch::{FetchCause, FetchVerdict};
use piece_mirror::Mirror;
use printed_lines::refusal::{Argument, InputFault, Refusal, Rejection};
use printed_syntax::fault::LiteralKind;
use std::alloc::Global;

/// The mirror in a file.
pub fn load_mirror_file<F: Files>(
    alloc: Global,
    files: &mut F,
    name: &str,
) -> Result<Mirror<Sha>, Halt>
    ensures goes { ForSome (F.contents files.old) (λ told. StepGives (with_mirror_file (told name.now)) (λ mirror. bytes_of mirror.pieces) result) }
    ensures asked { FaultsAt name.now (F.asked files.new) result }
    ensures cause { HaltCause (F.faults files.old) (F.faults files.new) result }
    ensures possible { (command : Command) → ReadsFiles command → IfErr result (λ halt. MayAnswer command (halt_status halt)) }
    ensures contents { F.contents files.new ≡ F.contents files.old }
    ensures stores { F.stores files.new ≡ F.stores files.old }
    ensures store_faults { F.store_faults files.new ≡ F.store_faults files.old }
{
    let bytes = load(alloc, files, Argument::Mirror, name, MOST_FILE_BYTES)?;
    load_mirror(alloc, &bytes)
}

/// The mirror that these bytes are the file of.
fn load_mirror(alloc: Global, bytes: &[u8]) -> Result<Mirror<Sha>, Halt>
    requires { length bytes.now ≤ most_file_bytes }
    ensures { InHand (StepGives (with_mirror bytes.now) (λ mirror. bytes_of mirror.pieces)) result }
{
    Ok(Mirror::load(alloc, bytes)?)
}

/// The report of a verdict on a call: that of its outcome, or what ends the work. Whoever gave the pieces did not fail.
pub fn verdict_report(
    alloc: Global,
    program: &Program,
    called: &CalledRole,
    judged: Result<Outcome<Spelling>, FetchVerdict>,
) -> Result<Report, Halt>
    requires called { (callee : Callee) × IsCalled callee program.now called.now }
    requires no_fault { IfErr judged IsNoFault }
    ensures reports { ReportsVerdict (role_of program.now called.now) judged result }
    ensures ending { IfOk result (λ report. IsOutcome (ending_status report.ending)) }
{
    match judged {
        Ok(outcome) => Ok(outcome_report(alloc, program, called, &outcome)?),
        Err(verdict) => Err(verdict_halt(verdict)),
    }
}

/// What ends the work for a verdict, where whoever gave the pieces did not fail.
fn verdict_halt(verdict: FetchVerdict) -> Halt
    requires { IsNoFault verdict }
    ensures { HaltsFor verdict result }
{
    match verdict {
        FetchVerdict::Rejected(cause) => Halt::Refused(Refusal::Proof(rejection_of(cause))),
        FetchVerdict::BadState(offset) => InputFault::State(offset).into(),
        FetchVerdict::BadArgument(offset) => {
            InputFault::Literal(LiteralKind::Mismatch, offset as usize).into()
        }
        FetchVerdict::FetchFault => unreachable!(),
        FetchVerdict::NoMemory => Halt::NoMemory,
    }
}

/// The rejection for a cause.
fn rejection_of(cause: FetchCause) -> Rejection
    ensures { result ≡ rejection_of cause }
{
    match cause {
        FetchCause::Missing(place, want) => Rejection::Missing(place, want),
        FetchCause::Broken(_, wire) => Rejection::Broken(wire),
        FetchCause::WrongPiece(place, want, found) => {
            Rejection::Cause(Cause::WrongPiece(place, want, found))
        }
        FetchCause::BadPiece(place, offset) => Rejection::Cause(Cause::BadPiece(place, offset)),
    }
}
