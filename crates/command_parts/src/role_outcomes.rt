// What is told of a role that was called, and the state that it made.
ghost use Rattle.std.specs.Prelude.{◌≡◌, ℕ, List, IfOk, Some};
ghost use Rattle.core_terms.specs.Programs.{meaning, types_of};
ghost use Rattle.core_terms.specs.TypeTables.{type_at};
ghost use Rattle.core_terms.specs.Values.{Value};
ghost use Rattle.core_terms.specs.declared.program.Program.{Program};
ghost use Rattle.ideal_meaning.specs.Ideal as meant;
ghost use Rattle.value_store.specs.Standing.{StandsFor};
ghost use Rattle.value_store.specs.Stores.{nodes_in};
ghost use Rattle.command_parts.specs.OutcomeAnswers.{outcome_stored, outcome_told};
ghost use Rattle.command_parts.specs.AnswerForms.{says};
ghost use Rattle.command_parts.specs.Halting.{InHand, ending_status};
ghost use Rattle.command_parts.specs.RolesCalled.{EndsIn, HasEnded, IsStateMade, MakesStates, projection_line, prover_nodes, role_of};
ghost use Rattle.command_parts.specs.SoundPrograms.{IsOutcome};
ghost use Rattle.command_parts.specs.Storing.{FindsOutput};
ghost use Rattle.command_parts.specs.declared.roles.Callee.{Callee};

use crate::machine_calls::Ended;
use crate::outcomes::line_report;
use crate::{Ending, Halt, Output, Report};
use core_terms::{Outcome, Program, RoleKind, TyId};
use images::save_image;
use printed_lines::lines::{named_done_line, out_line, trap_line};
use shallow_codec::spell;
use std::alloc::{AllocError, Global};
use value_store::{Ref, Store, first_component};

/// The report of the outcome.
pub fn role_report(alloc: Global, program: &Program, ended: &Ended) -> Result<Report, AllocError>
    requires { (callee : Callee) × HasEnded callee program.now ended.now }
    ensures ending { IfOk result (λ report. IsOutcome (ending_status report.ending)) }
    ensures tells { IfOk result (λ report. (callee : Callee) (o : meant.Outcome) → EndsIn callee program.now ended.now o
        → outcome_told (role_of program.now ended.now.called) o ≡ says (ending_status report.ending) report.text.items) }
{
    match ended.outcome {
        Outcome::Done(value) => {
            let text = value_line(alloc, program, &ended.store, value, ended.called.result)?;
            let ending = Ending::Done;
            Ok(Report { ending, text })
        }
        Outcome::Trapped(trap) => line_report(alloc, Ending::Trap, trap_line(trap)),
        Outcome::Out => line_report(alloc, Ending::OutOfFuel, out_line()),
    }
}

/// The report of the outcome, and the image of the state that was made, where one was.
pub fn role_output(alloc: Global, program: &Program, ended: &Ended) -> Result<Output, Halt>
    requires { (callee : Callee) × MakesStates callee × HasEnded callee program.now ended.now }
    ensures finds { (name : List ℕ) (callee : Callee) (o : meant.Outcome) → MakesStates callee → EndsIn callee program.now ended.now o
        → InHand (FindsOutput name (Some (outcome_stored (role_of program.now ended.now.called) o name))) result }
    ensures ending { IfOk result (λ output. IsOutcome (ending_status output.report.ending)) }
{
    let report = role_report(alloc, program, ended)?;
    match state_made(ended) {
        Some(state) => {
            let types = program.types();
            let digest = program.text_digest();
            let image = save_image(alloc, types, digest, &ended.store, state)?;
            let file = Some(image);
            Ok(Output { report, file })
        }
        None => Ok(Output { report, file: None }),
    }
}

/// The line of the projection of a value.
fn value_line(
    alloc: Global,
    program: &Program,
    store: &Store,
    value: Ref,
    ty: TyId,
) -> Result<Vec<u8>, AllocError>
    requires { (v : Value) × StandsFor (prover_nodes program.now) (meaning program.now).types (nodes_in store.now) value.0 (type_at (types_of program.now) ty) v }
    ensures { IfOk result (λ line. (v : Value) → StandsFor (prover_nodes program.now) (meaning program.now).types (nodes_in store.now) value.0 (type_at (types_of program.now) ty) v
        → line.items ≡ projection_line program.now (type_at (types_of program.now) ty) v) }
{
    let spelled = spell(alloc, program.types(), store, value, ty)?;
    named_done_line(alloc, program, ty, spelled.as_bytes())
}

/// The state that was made: all that an init gives, and the first component of what an update gives.
pub fn state_made(ended: &Ended) -> Option<Ref>
    requires { (p : Program) × (callee : Callee) × MakesStates callee × HasEnded callee p ended.now }
    ensures { (p : Program) (callee : Callee) (o : meant.Outcome) → MakesStates callee → EndsIn callee p ended.now o
        → IsStateMade p (role_of p ended.now.called) (nodes_in ended.now.store) result o }
{
    match ended.outcome {
        Outcome::Done(value) => match ended.called.kind {
            RoleKind::Update => Some(first_component(&ended.store, value)),
            RoleKind::Init | RoleKind::Query => Some(value),
        },
        _ => None,
    }
}
