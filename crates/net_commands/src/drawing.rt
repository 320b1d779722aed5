// What `draw` judges, by its words and its files.
ghost use Rattle.std.specs.Prelude.{◌≡◌, IfOk, None};
ghost use Rattle.std.specs.Option.{ForSome};
ghost use Rattle.command_parts.specs.Answer.{with_drawing, with_drawn};
ghost use Rattle.command_parts.specs.UnansweredInCode.{undrawn_answer};
ghost use Rattle.command_parts.specs.Halting.{StepGives, HaltCause};
ghost use Rattle.command_parts.specs.ReadPrograms.{named_of};
ghost use Rattle.command_parts.specs.ReachingInCode.{FaultsAtReached};
ghost use Rattle.command_parts.specs.RolesCalled.{IsCalled, role_of};
ghost use Rattle.command_parts.specs.declared.roles.Callee.TheVariants.{OfState};
ghost use Rattle.net_commands.specs.Drawing.{IsOfSources};
ghost use Rattle.net_commands.specs.ToldNumbers.{TellsPort};
ghost use Rattle.net_commands.specs.PreparedDrawings.{IsReady, TellsRole, drawing_of, drawn_with, texts_of};

use crate::serving::MOST_PORT;
use code_gen::Code;
use command_parts::{
    CallWords, Callee, Halt, RoleCall, called_role, positive_named, read_code, read_role_inputs,
};
use core_terms::Program;
use lam_outside::Files;
use printed_lines::refusal::Argument;
use std::alloc::Global;

/// The words of a call whose pieces are asked for at a port.
#[derive(Clone, Copy)]
pub struct DrawWords<'a> {
    pub call: CallWords<'a>,
    pub state: &'a str,
    pub port: &'a str,
}

/// What the words and the files mean of a program.
#[derive(Drop)]
struct DrawInputs {
    call: RoleCall,
    port: u16,
}

/// A call before its link is made.
#[derive(Drop)]
pub struct PreparedDrawing {
    pub code: Code,
    pub call: RoleCall,
    /// The port that it will dial.
    pub port: u16,
}

/// What the words and the files mean to judge.
pub fn read_drawing<F: Files>(
    alloc: Global,
    words: &DrawWords<'_>,
    files: &mut F,
) -> Result<PreparedDrawing, Halt>
    ensures goes { let words = words.now in ForSome (F.contents files.old) (λ told. StepGives
        (with_drawing words.call.program.now words.call.role.now words.state.now words.call.argument.now words.call.fuel.now words.port.now told) drawing_of result) }
    ensures ready { IfOk result IsReady }
    ensures of_sources { IfOk result (λ held. IsOfSources (texts_of words.now) (drawing_of held)) }
    ensures reached { let words = words.now in FaultsAtReached
        (undrawn_answer words.call.program.now words.call.role.now words.state.now words.call.argument.now words.call.fuel.now words.port.now)
        (F.contents files.old) (F.asked files.new) result }
    ensures cause { HaltCause (F.faults files.old) (F.faults files.new) result }
    ensures contents { F.contents files.new ≡ F.contents files.old }
    ensures stores { F.stores files.new ≡ F.stores files.old }
    ensures store_faults { F.store_faults files.new ≡ F.store_faults files.old }
{
    let code = read_code(alloc, files, words.call.program)?;
    match read_inputs(alloc, files, code.program(), words) {
        Ok(DrawInputs { call, port }) => Ok(PreparedDrawing { code, call, port }),
        Err(halt) => Err(halt),
    }
}

/// What they mean of a program: the role, the fuel, the port, the state and the argument are judged in this order.
fn read_inputs<F: Files>(
    alloc: Global,
    files: &mut F,
    program: &Program,
    words: &DrawWords<'_>,
) -> Result<DrawInputs, Halt>
    ensures goes { let words = words.now in let p = program.now in ForSome (F.contents files.old) (λ told. StepGives
        (with_drawn (named_of p) words.call.role.now words.state.now words.call.argument.now words.call.fuel.now words.port.now told) (drawn_with p) result) }
    ensures called { IfOk result (λ inputs. IsCalled OfState program.now inputs.call.called) }
    ensures role { let words = words.now in let p = program.now in IfOk result (λ inputs.
        TellsRole (named_of p) words.call.role.now words.call.fuel.now (role_of p inputs.call.called)) }
    ensures port { IfOk result (λ inputs. TellsPort words.now.port.now inputs.port) }
    ensures reached { let words = words.now in let p = named_of program.now in FaultsAtReached
        (λ told. with_drawn p words.call.role.now words.state.now words.call.argument.now words.call.fuel.now words.port.now told (λ drawing. None))
        (F.contents files.old) (F.asked files.new) result }
    ensures cause { HaltCause (F.faults files.old) (F.faults files.new) result }
    ensures contents { F.contents files.new ≡ F.contents files.old }
    ensures stores { F.stores files.new ≡ F.stores files.old }
    ensures store_faults { F.store_faults files.new ≡ F.store_faults files.old }
{
    let called = called_role(program, Callee::OfState, words.call.role, words.call.fuel)?;
    let port = positive_named(words.port, Argument::Port, MOST_PORT)?;
    let call = read_role_inputs(
        alloc,
        files,
        program,
        called,
        words.state,
        words.call.argument,
    )?;
    Ok(DrawInputs {
        call,
        port: port as u16,
    })
}
