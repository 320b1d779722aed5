// What `mirror` answers from, by its words and its file.
ghost use Rattle.std.specs.Prelude.{◌≡◌, IfErr, IfOk};
ghost use Rattle.std.specs.Option.{ForSome};
ghost use Rattle.command_words.specs.declared.command.Command.TheVariants.{Mirror as MirrorCommand};
ghost use Rattle.piece_mirror.specs.Tables.{bytes_of};
ghost use Rattle.command_parts.specs.Answer.{with_mirroring};
ghost use Rattle.command_parts.specs.UnansweredInCode.{unmirrored_answer};
ghost use Rattle.command_parts.specs.Halting.{StepGives, HaltCause, halt_status};
ghost use Rattle.command_parts.specs.ReachingInCode.{FaultsAtReached};
ghost use Rattle.command_parts.specs.Statuses.{MayAnswer};
ghost use Rattle.net_commands.specs.PreparedMirrors.{HasGreeting, mirroring_by, mirroring_of};
ghost use Rattle.net_commands.specs.ToldNumbers.{TellMirrorNumbers};

use crate::serving::{MOST_CONNECTIONS, MOST_PORT};
use command_parts::{Halt, load_mirror_file, positive_named};
use digest_layer::Sha;
use lam_outside::Files;
use piece_mirror::Mirror;
use printed_lines::lines::listening_line;
use printed_lines::refusal::Argument;
use std::alloc::{AllocError, Global};

/// The words of a mirror.
#[derive(Clone, Copy)]
pub struct MirrorWords<'a> {
    pub mirror: &'a str,
    pub port: &'a str,
    pub connections: &'a str,
}

/// A mirror before its first connection.
#[derive(Drop)]
pub struct PreparedMirror {
    pub mirror: Mirror<Sha>,
    /// The port to which it will listen.
    pub port: u16,
    /// On how many connections it will answer, one after another.
    pub connections: u16,
    /// The line that says that it listens.
    pub greeting: Vec<u8>,
}

/// What the words and the file mean: the port, the number of connections and the mirror are judged in this order.
pub fn read_mirroring<F: Files>(
    alloc: Global,
    words: &MirrorWords<'_>,
    files: &mut F,
) -> Result<Box<PreparedMirror>, Halt>
    ensures goes { let words = words.now in ForSome (F.contents files.old) (λ told. StepGives
        (with_mirroring words.mirror.now words.port.now words.connections.now told) (λ held. mirroring_of held.value) result) }
    ensures greeting { IfOk result (λ held. HasGreeting held.value) }
    ensures numbers { let words = words.now in IfOk result (λ held. TellMirrorNumbers words.port.now words.connections.now held.value.port held.value.connections) }
    ensures reached { let words = words.now in FaultsAtReached (unmirrored_answer words.mirror.now words.port.now words.connections.now)
        (F.contents files.old) (F.asked files.new) result }
    ensures cause { HaltCause (F.faults files.old) (F.faults files.new) result }
    ensures possible { IfErr result (λ halt. MayAnswer MirrorCommand (halt_status halt)) }
    ensures contents { F.contents files.new ≡ F.contents files.old }
    ensures stores { F.stores files.new ≡ F.stores files.old }
    ensures store_faults { F.store_faults files.new ≡ F.store_faults files.old }
{
    let port = positive_named(words.port, Argument::Port, MOST_PORT)?;
    let connections = positive_named(words.connections, Argument::Connections, MOST_CONNECTIONS)?;
    let mirror = load_mirror_file(alloc, files, words.mirror)?;
    Ok(prepare(alloc, mirror, port as u16, connections as u16)?)
}

/// A mirror before its first connection, with these numbers.
fn prepare(
    alloc: Global,
    mirror: Mirror<Sha>,
    port: u16,
    connections: u16,
) -> Result<Box<PreparedMirror>, AllocError>
    ensures is { IfOk result (λ held. mirroring_of held.value ≡ mirroring_by (bytes_of mirror.pieces) port connections) }
    ensures greeting { IfOk result (λ held. HasGreeting held.value) }
{
    let greeting = listening_line(alloc, port)?;
    let held = PreparedMirror {
        mirror,
        port,
        connections,
        greeting,
    };
    Ok(Box::new(alloc, held)?)
}
