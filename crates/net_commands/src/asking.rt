// What `ask` asks, from its words and files.
ghost use Rattle.std.specs.Prelude.{◌≡◌, IfOk, None, map};
ghost use Rattle.std.specs.List.{All};
ghost use Rattle.std.specs.Option.{ForSome};
ghost use Rattle.code_gen.specs.Programs.{program_in};
ghost use Rattle.core_terms.specs.Programs.{meaning};
ghost use Rattle.ask_script.specs.ScriptAnswers.{step_meant};
ghost use Rattle.ask_script.specs.Scripts.{Fits};
ghost use Rattle.command_parts.specs.Answer.{with_asked, with_asking, with_script, with_script_file};
ghost use Rattle.command_parts.specs.UnansweredInCode.{unasked_answer};
ghost use Rattle.net_commands.specs.Asking.{IsOfScript, IsOfSources};
ghost use Rattle.command_parts.specs.Halting.{StepGives, HaltCause, InHand};
ghost use Rattle.net_commands.specs.PreparedClients.{FitProgram, IsReady, asked_by, asked_with};
ghost use Rattle.net_commands.specs.ToldNumbers.{TellsPort};
ghost use Rattle.command_parts.specs.ReadPrograms.{named_of};
ghost use Rattle.command_parts.specs.ReachingInCode.{FaultsAt, FaultsAtReached};

use crate::serving::MOST_PORT;
use ask_core::AskCore;
use ask_script::{Step, read_script};
use code_gen::Code;
use command_parts::{Halt, load, positive_named, read_code, read_state_file};
use core_terms::{MOST_FILE_BYTES, Program};
use digest_layer::Sha;
use lam_outside::Files;
use printed_lines::refusal::Argument;
use std::alloc::Global;

/// The words of what is asked.
#[derive(Clone, Copy)]
pub struct AskWords<'a> {
    pub program: &'a str,
    pub state: &'a str,
    pub port: &'a str,
    pub script: &'a str,
}

/// What is asked about a program.
#[derive(Drop)]
struct AskInputs {
    /// The spelling of the state at which sessions are opened.
    state: Vec<u8>,
    port: u16,
    steps: Vec<Step>,
}

/// A client before its link is made.
#[derive(Drop)]
pub struct PreparedClient {
    pub core: AskCore<Sha>,
    /// The spelling of the state at which sessions are opened.
    pub state: Vec<u8>,
    /// The port that it will dial.
    pub port: u16,
    /// What it will be asked, line by line.
    pub steps: Vec<Step>,
}

/// What the words and the files mean to ask.
pub fn read_asking<F: Files>(
    alloc: Global,
    words: &AskWords<'_>,
    files: &mut F,
) -> Result<PreparedClient, Halt>
    ensures goes { let words = words.now in ForSome (F.contents files.old) (λ told. StepGives
        (with_asking words.program.now words.state.now words.port.now words.script.now told) asked_by result) }
    ensures ready { IfOk result IsReady }
    ensures of_sources { IfOk result (λ client. IsOfSources (asked_by client)) }
    ensures port { IfOk result (λ client. TellsPort words.now.port.now client.port) }
    ensures reached { let words = words.now in FaultsAtReached (unasked_answer words.program.now words.state.now words.port.now words.script.now)
        (F.contents files.old) (F.asked files.new) result }
    ensures cause { HaltCause (F.faults files.old) (F.faults files.new) result }
    ensures contents { F.contents files.new ≡ F.contents files.old }
    ensures stores { F.stores files.new ≡ F.stores files.old }
    ensures store_faults { F.store_faults files.new ≡ F.store_faults files.old }
{
    let code = read_code(alloc, files, words.program)?;
    match read_inputs(alloc, files, code.program(), words) {
        Ok(inputs) => Ok(prepare(alloc, code, inputs)),
        Err(halt) => Err(halt),
    }
}

/// What is asked about a program: the port, the state and the script are judged in this order.
fn read_inputs<F: Files>(
    alloc: Global,
    files: &mut F,
    program: &Program,
    words: &AskWords<'_>,
) -> Result<AskInputs, Halt>
    ensures goes { let words = words.now in let p = program.now in ForSome (F.contents files.old) (λ told. StepGives
        (with_asked (named_of p) words.state.now words.port.now words.script.now told) (asked_with p) result) }
    ensures fits { IfOk result (FitProgram program.now) }
    ensures port { IfOk result (λ inputs. TellsPort words.now.port.now inputs.port) }
    ensures script { IfOk result (λ inputs. IsOfScript (named_of program.now) (map step_meant inputs.steps.items)) }
    ensures reached { let words = words.now in let p = named_of program.now in FaultsAtReached
        (λ told. with_asked p words.state.now words.port.now words.script.now told (λ asking. None)) (F.contents files.old) (F.asked files.new) result }
    ensures cause { HaltCause (F.faults files.old) (F.faults files.new) result }
    ensures contents { F.contents files.new ≡ F.contents files.old }
    ensures stores { F.stores files.new ≡ F.stores files.old }
    ensures store_faults { F.store_faults files.new ≡ F.store_faults files.old }
{
    let port = positive_named(words.port, Argument::Port, MOST_PORT)?;
    let state = read_state_file(alloc, files, program, words.state)?;
    let steps = read_script_file(alloc, files, program, words.script)?;
    Ok(AskInputs {
        state,
        port: port as u16,
        steps,
    })
}

/// The steps of the script in a file.
fn read_script_file<F: Files>(
    alloc: Global,
    files: &mut F,
    program: &Program,
    name: &str,
) -> Result<Vec<Step>, Halt>
    ensures goes { ForSome (F.contents files.old) (λ told.
        StepGives (with_script_file (named_of program.now) (told name.now)) (λ steps. map step_meant steps.items) result) }
    ensures fits { IfOk result (λ steps. All (λ step. Fits (meaning program.now) (step_meant step)) steps.items) }
    ensures script { IfOk result (λ steps. IsOfScript (named_of program.now) (map step_meant steps.items)) }
    ensures asked { FaultsAt name.now (F.asked files.new) result }
    ensures cause { HaltCause (F.faults files.old) (F.faults files.new) result }
    ensures contents { F.contents files.new ≡ F.contents files.old }
    ensures stores { F.stores files.new ≡ F.stores files.old }
    ensures store_faults { F.store_faults files.new ≡ F.store_faults files.old }
{
    let text = load(alloc, files, Argument::Script, name, MOST_FILE_BYTES)?;
    steps_in(alloc, program, &text)
}

/// The steps of a script.
fn steps_in(alloc: Global, program: &Program, text: &[u8]) -> Result<Vec<Step>, Halt>
    ensures goes { InHand (StepGives (with_script (named_of program.now) text.now) (λ steps. map step_meant steps.items)) result }
    ensures fits { IfOk result (λ steps. All (λ step. Fits (meaning program.now) (step_meant step)) steps.items) }
    ensures script { IfOk result (λ steps. IsOfScript (named_of program.now) (map step_meant steps.items)) }
{
    Ok(read_script(alloc, program, text)?)
}

/// A client of this code that is to ask so.
fn prepare(alloc: Global, code: Code, inputs: AskInputs) -> PreparedClient
    requires { FitProgram (program_in code) inputs }
    ensures asks { asked_by result ≡ asked_with (program_in code) inputs }
    ensures ready { IsReady result }
{
    let AskInputs { state, port, steps } = inputs;
    PreparedClient {
        core: AskCore::new(alloc, code),
        state,
        port,
        steps,
    }
}
