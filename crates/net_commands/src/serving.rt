// What `serve` serves, from its words and files.
ghost use Rattle.std.specs.Prelude.{◌≡◌, ◌≤◌, IfOk, None};
ghost use Rattle.std.specs.Option.{ForSome};
ghost use Rattle.code_gen.specs.Programs.{program_in};
ghost use Rattle.core_terms.specs.Programs.{meaning};
ghost use Rattle.core_terms.specs.Values.{Value};
ghost use Rattle.command_parts.specs.Answer.{Serving, first_shared, serving_of, with_serving, with_serving_numbers};
ghost use Rattle.command_parts.specs.UnansweredInCode.{unserved_answer};
ghost use Rattle.command_parts.specs.Halting.{StepGives, StepGivesFor, HaltCause, InHand};
ghost use Rattle.command_parts.specs.ReachingInCode.{FaultsAtReached};
ghost use Rattle.command_parts.specs.ReadPrograms.{digested_of};
ghost use Rattle.net_commands.specs.PreparedServers.{BeginsWith, IsPrepared, numbers_held, numbers_of, with_beginning};
ghost use Rattle.net_commands.specs.ToldNumbers.{TellNumbers};
ghost use Rattle.command_parts.specs.StoredStates.{IsStoredState};

use code_gen::Code;
use command_parts::{Halt, load_image_file, positive_named, read_code};
use digest_layer::Sha;
use images::Loaded;
use lam_outside::Files;
use printed_lines::lines::listening_line;
use printed_lines::refusal::Argument;
use serve_core::ServeCore;
use session_turns::NoGate;
use std::alloc::{AllocError, Global};

/// The words of a serving.
#[derive(Clone, Copy)]
pub struct ServeWords<'a> {
    pub program: &'a str,
    pub image: &'a str,
    pub port: &'a str,
    pub connections: &'a str,
    pub slice: &'a str,
}

/// The numbers of a serving.
#[derive(Clone, Copy)]
pub struct Numbers {
    /// The port that is listened to.
    pub port: u16,
    /// How many connections are served, one after another.
    pub connections: u16,
    /// The greatest number of calls of functions in a turn of a session.
    pub slice: u64,
}

/// The state with which a server begins, and the numbers of its serving.
#[derive(Drop)]
struct Beginning {
    state: Loaded,
    numbers: Numbers,
}

/// A server before its first connection.
#[derive(Drop)]
pub struct PreparedServer {
    pub core: ServeCore<Sha, NoGate>,
    /// The port to which it will listen.
    pub port: u16,
    /// How many connections it will serve, one after another.
    pub connections: u16,
    /// The line that says that it listens.
    pub greeting: Vec<u8>,
}

/// What the words and the files mean to serve.
pub fn read_serving<F: Files>(
    alloc: Global,
    words: &ServeWords<'_>,
    files: &mut F,
) -> Result<Box<PreparedServer>, Halt>
    ensures goes { let words = words.now in ForSome (F.contents files.old) (λ told. StepGivesFor
        (with_serving words.program.now words.image.now words.port.now words.connections.now words.slice.now told) (λ server s. IsPrepared server.value s) result) }
    ensures prepared { IfOk result (λ server. (s : Serving) × IsPrepared server.value s) }
    ensures numbers { let words = words.now in IfOk result (λ server. TellNumbers words.port.now words.connections.now words.slice.now (numbers_held server.value)) }
    ensures reached { let words = words.now in FaultsAtReached (unserved_answer words.program.now words.image.now words.port.now words.connections.now words.slice.now)
        (F.contents files.old) (F.asked files.new) result }
    ensures cause { HaltCause (F.faults files.old) (F.faults files.new) result }
    ensures contents { F.contents files.new ≡ F.contents files.old }
    ensures stores { F.stores files.new ≡ F.stores files.old }
    ensures store_faults { F.store_faults files.new ≡ F.store_faults files.old }
{
    let code = read_code(alloc, files, words.program)?;
    match read_beginning(alloc, files, &code, words) {
        Ok(beginning) => Ok(prepare(alloc, code, beginning)?),
        Err(halt) => Err(halt),
    }
}

/// The numbers of a serving, and the state with which it begins.
fn read_beginning<F: Files>(
    alloc: Global,
    files: &mut F,
    code: &Code,
    words: &ServeWords<'_>,
) -> Result<Beginning, Halt>
    ensures goes { let words = words.now in let p = program_in code.now in ForSome (F.contents files.old) (λ told. StepGivesFor
        (with_beginning (digested_of p) words.image.now words.port.now words.connections.now words.slice.now told) (BeginsWith p) result) }
    ensures stands { IfOk result (λ beginning. (v : Value) × IsStoredState (meaning (program_in code.now)) beginning.state v) }
    ensures slice { IfOk result (λ beginning. 1 ≤ beginning.numbers.slice) }
    ensures numbers { let words = words.now in IfOk result (λ beginning. TellNumbers words.port.now words.connections.now words.slice.now (numbers_of beginning.numbers)) }
    ensures reached { let words = words.now in let p = digested_of (program_in code.now) in FaultsAtReached
        (λ told. with_beginning p words.image.now words.port.now words.connections.now words.slice.now told (λ s. None)) (F.contents files.old) (F.asked files.new) result }
    ensures cause { HaltCause (F.faults files.old) (F.faults files.new) result }
    ensures contents { F.contents files.new ≡ F.contents files.old }
    ensures stores { F.stores files.new ≡ F.stores files.old }
    ensures store_faults { F.store_faults files.new ≡ F.store_faults files.old }
{
    let numbers = read_numbers(words.port, words.connections, words.slice)?;
    let state = load_image_file(alloc, files, code.program(), words.image)?;
    Ok(Beginning { state, numbers })
}

/// The numbers that words tell. The first that is refused halts it.
pub fn read_numbers(port: &str, connections: &str, slice: &str) -> Result<Numbers, Halt>
    ensures goes { InHand (StepGives (with_serving_numbers port.now connections.now slice.now) numbers_of) result }
    ensures slice { IfOk result (λ numbers. 1 ≤ numbers.slice) }
{
    let port = positive_named(port, Argument::Port, MOST_PORT)?;
    let connections = positive_named(connections, Argument::Connections, MOST_CONNECTIONS)?;
    let slice = positive_named(slice, Argument::Slice, MOST_SLICE)?;
    Ok(Numbers {
        port: port as u16,
        connections: connections as u16,
        slice,
    })
}

/// The greatest number of a port.
pub const MOST_PORT: u64 = 65_535;
/// The greatest number of connections.
pub const MOST_CONNECTIONS: u64 = 1_000;
/// The greatest slice, in calls of functions.
const MOST_SLICE: u64 = 1_000_000;

/// A server of this code that begins so.
fn prepare(
    alloc: Global,
    code: Code,
    beginning: Beginning,
) -> Result<Box<PreparedServer>, AllocError>
    requires state { (v : Value) × IsStoredState (meaning (program_in code)) beginning.state v }
    requires slice { 1 ≤ beginning.numbers.slice }
    ensures { IfOk result (λ server. (v : Value) → IsStoredState (meaning (program_in code)) beginning.state v
        → IsPrepared server.value (serving_of (digested_of (program_in code)) (numbers_of beginning.numbers) (first_shared v))) }
{
    let server = begin(alloc, code, beginning)?;
    Ok(Box::new(alloc, server)?)
}

/// The same, before it is put into a box.
fn begin(alloc: Global, code: Code, beginning: Beginning) -> Result<PreparedServer, AllocError>
    requires state { (v : Value) × IsStoredState (meaning (program_in code)) beginning.state v }
    requires slice { 1 ≤ beginning.numbers.slice }
    ensures { IfOk result (λ server. (v : Value) → IsStoredState (meaning (program_in code)) beginning.state v
        → IsPrepared server (serving_of (digested_of (program_in code)) (numbers_of beginning.numbers) (first_shared v))) }
{
    let Beginning { state, numbers } = beginning;
    let Loaded { store, root } = state;
    let core = ServeCore::new(alloc, code, store, root, numbers.slice, NoGate)?;
    let greeting = listening_line(alloc, numbers.port)?;
    Ok(PreparedServer {
        core,
        port: numbers.port,
        connections: numbers.connections,
        greeting,
    })
}
