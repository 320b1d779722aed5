// The command `mirror`.
ghost use Rattle.std.specs.Prelude.{◌≡◌, ◌⊎◌, length};
ghost use Rattle.command_words.specs.Commands.{texts};
ghost use Rattle.command_words.specs.declared.command.Command.TheVariants.{Mirror};
ghost use Rattle.command_parts.specs.Answer.{answer_with};
ghost use Rattle.command_parts.specs.Outsides.{outside};
ghost use Rattle.command_parts.specs.Reaching.{IsReached};
ghost use Rattle.command_parts.specs.Statuses.{MayAnswer};
ghost use Rattle.net_commands.specs.MirrorSteps.{IsEndTold, TellsMirroring};
ghost use Rattle.net_commands.specs.Mirroring.{IsMirror};
ghost use Rattle.net_commands.specs.NetCounts.{ListenCounts};
ghost use Rattle.net_commands.specs.NetFaults.{net_faults};
ghost use Rattle.net_commands.specs.OnlineRuns.{net_seen};
ghost use Rattle.net_commands.specs.PreparedMirrors.{HasGreeting, mirroring_of};

use crate::course_end::{end_status, fault_text};
use crate::mirroring::{MirrorWords, PreparedMirror, read_mirroring};
use command_parts::{NO_MEMORY, Status, tell, tell_text};
use lam_outside::{Failed, Files, Net, Sink, write_all};
use link_ends::ServingEnd;
use mirror_links::answer_links;
use printed_lines::lines::link_fault_line;
use std::alloc::Global;

/// Answers with the pieces of a mirror on connections, one after another. The words behind the command are `MIRROR PORT CONNS`.
pub fn mirror_command<F: Files, O: Sink, N: Net>(
    alloc: Global,
    words: &[&str],
    files: &mut F,
    out: &mut O,
    net: &mut N,
) -> Status
    requires { length words.now ≡ 3 }
    ensures ends { let seen = outside F.contents F.stores F.faults F.store_faults O.written O.faults in
        let links = net_seen N.ended N.linked N.given N.left N.sent N.reads N.listened (net_faults N.faults N.listen_faults N.accept_faults N.dial_faults) in
        IsMirror (texts words.now) (seen files.old out.old) (seen files.new out.new) (links net.old) (links net.new) result }
    ensures counts { let seen = outside F.contents F.stores F.faults F.store_faults O.written O.faults in
        let faults = net_faults N.faults N.listen_faults N.accept_faults N.dial_faults in
        ListenCounts (seen files.old out.old) (seen files.new out.new) (faults net.old) (faults net.new) result }
    ensures reached { (F.faults files.new ≡ F.faults files.old) ⊎ IsReached (answer_with Mirror (texts words.now)) (F.contents files.old) (F.asked files.new) }
    ensures possible { MayAnswer Mirror result }
{
    let [mirror, port, connections] = words else {
        unreachable!()
    };
    let words = MirrorWords {
        mirror,
        port,
        connections,
    };
    match read_mirroring(alloc, &words, files) {
        Ok(held) => answer_and_tell(alloc, &held, out, net),
        Err(halt) => tell(alloc, out, Err(halt)),
    }
}

/// Listens, answers on the connections, and tells both. The status.
fn answer_and_tell<O: Sink, N: Net>(
    alloc: Global,
    held: &PreparedMirror,
    out: &mut O,
    net: &mut N,
) -> Status
    requires { HasGreeting held.now }
    ensures { let links = net_seen N.ended N.linked N.given N.left N.sent N.reads N.listened (net_faults N.faults N.listen_faults N.accept_faults N.dial_faults) in
        TellsMirroring (mirroring_of held.now) (links net.old) (links net.new) result (O.written out.old) (O.written out.new) (O.faults out.old) (O.faults out.new) }
{
    match net.listen(held.port) {
        Ok(()) => match write_all(out, &held.greeting) {
            Ok(()) => {
                let end = answer_links(alloc, &held.mirror, net, held.connections);
                tell_end(out, end)
            }
            Err(Failed) => Status::WriteFault,
        },
        Err(Failed) => tell_text(out, Status::ReadFault, link_fault_line().as_bytes()),
    }
}

/// Tells how the connections ended: that a link failed, or that memory was wanting; else nothing.
fn tell_end<O: Sink>(out: &mut O, end: ServingEnd) -> Status
    ensures { IsEndTold end result (O.written out.old) (O.written out.new) (O.faults out.old) (O.faults out.new) }
{
    match end {
        ServingEnd::Served { link_fault } => tell_text(
            out,
            end_status(link_fault),
            fault_text(link_fault).as_bytes(),
        ),
        ServingEnd::Stopped => tell_text(out, Status::NoMemory, NO_MEMORY),
    }
}
