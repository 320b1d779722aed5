// What is told of an outcome.
ghost use Rattle.std.specs.Prelude.{◌≡◌, IfOk};
ghost use Rattle.command_parts.specs.Halting.{ending_status};
ghost use Rattle.command_parts.specs.Reporting.{Reports};
ghost use Rattle.command_parts.specs.RolesCalled.{IsCalled, role_of};
ghost use Rattle.command_parts.specs.SoundPrograms.{IsOutcome};
ghost use Rattle.command_parts.specs.declared.roles.Callee.{Callee};

use crate::roles::CalledRole;
use crate::{Ending, Report};
use core_terms::{Outcome, Program, Spelling};
use printed_lines::lines::{named_done_line, out_line, trap_line};
use std::alloc::{AllocError, Global};

/// The report of an outcome of a role, with the spelling of its value's projection.
pub fn outcome_report(
    alloc: Global,
    program: &Program,
    called: &CalledRole,
    outcome: &Outcome<Spelling>,
) -> Result<Report, AllocError>
    requires { (callee : Callee) × IsCalled callee program.now called.now }
    ensures ending { IfOk result (λ report. IsOutcome (ending_status report.ending)) }
    ensures tells { IfOk result (Reports (role_of program.now called.now) outcome.now) }
{
    match outcome {
        Outcome::Done(value) => {
            let text = named_done_line(alloc, program, called.result, value.as_bytes())?;
            let ending = Ending::Done;
            Ok(Report { ending, text })
        }
        Outcome::Trapped(trap) => line_report(alloc, Ending::Trap, trap_line(*trap)),
        Outcome::Out => line_report(alloc, Ending::OutOfFuel, out_line()),
    }
}

/// A report of a line that is there.
pub fn line_report(alloc: Global, ending: Ending, line: &str) -> Result<Report, AllocError>
    ensures ending { IfOk result (λ report. report.ending ≡ ending) }
    ensures line { IfOk result (λ report. report.text.items ≡ line.now) }
{
    let text = Vec::from_slice(alloc, line.as_bytes())?;
    Ok(Report { ending, text })
}
