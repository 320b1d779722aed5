// The command `serve`.
ghost use Rattle.std.specs.Prelude.{◌≡◌, ◌⊎◌, IfOk, length};
ghost use Rattle.std.specs.List.{concat};
ghost use Rattle.command_words.specs.Commands.{texts};
ghost use Rattle.command_words.specs.declared.command.Command.TheVariants.{Serve};
ghost use Rattle.serve_links.specs.HistoriesInCode.{HasSameCode};
ghost use Rattle.command_parts.specs.Answer.{Serving, answer_with};
ghost use Rattle.command_parts.specs.Outsides.{outside};
ghost use Rattle.net_commands.specs.NetFaults.{net_faults};
ghost use Rattle.net_commands.specs.PreparedServers.{IsPrepared};
ghost use Rattle.command_parts.specs.Reaching.{IsReached};
ghost use Rattle.net_commands.specs.ServeSteps.{IsEndTold, KeeperFails, KeepsSoFar, ServesCourse, TellsCourse};
ghost use Rattle.session_turns.specs.Keepers.{KeepsBetween};
ghost use Rattle.net_commands.specs.Serving.{EndsServing, IsServe, count_lines};
ghost use Rattle.net_commands.specs.NetCounts.{ListenCounts};
ghost use Rattle.net_commands.specs.OnlineRuns.{net_seen};
ghost use Rattle.command_parts.specs.Statuses.{MayAnswer};

use crate::course_end::{end_status, fault_text};
use crate::last_version::store_last;
use crate::serving::{PreparedServer, ServeWords, read_serving};
use command_parts::{Halt, NO_MEMORY, Status, tell, tell_text};
use digest_layer::Sha;
use lam_outside::{Failed, Files, Net, Sink, write_all};
use printed_lines::lines::{link_fault_line, versions_line};
use serve_core::ServeCore;
use serve_links::{ServingEnd, serve_links};
use session_turns::{Keeper, NoGate, NoKeeper};
use std::alloc::{AllocError, Global};
use std::thread::Threads;

/// Serves connections, one after another, and stores the image of the last version of the state. The words behind the command are
/// `P IMG PORT CONNS SLICE OUT`.
pub fn serve_command<F: Files, O: Sink, N: Net, R: Threads + Sync>(
    rt: &R,
    alloc: Global,
    words: &[&str],
    files: &mut F,
    out: &mut O,
    net: &mut N,
) -> Status
    requires { length words.now ≡ 6 }
    ensures ends { let seen = outside F.contents F.stores F.faults F.store_faults O.written O.faults in
        let links = net_seen N.ended N.linked N.given N.left N.sent N.reads N.listened (net_faults N.faults N.listen_faults N.accept_faults N.dial_faults) in
        IsServe (texts words.now) (seen files.old out.old) (seen files.new out.new) (links net.old) (links net.new) result }
    ensures counts { let seen = outside F.contents F.stores F.faults F.store_faults O.written O.faults in
        let faults = net_faults N.faults N.listen_faults N.accept_faults N.dial_faults in
        ListenCounts (seen files.old out.old) (seen files.new out.new) (faults net.old) (faults net.new) result }
    ensures reached { (F.faults files.new ≡ F.faults files.old) ⊎ IsReached (answer_with Serve (texts words.now)) (F.contents files.old) (F.asked files.new) }
    ensures possible { MayAnswer Serve result }
{
    let [program, image, port, connections, slice, name] = words else {
        unreachable!()
    };
    let words = ServeWords {
        program,
        image,
        port,
        connections,
        slice,
    };
    match read_serving(alloc, &words, files) {
        Ok(mut server) => serve(rt, alloc, &mut server, name, files, out, net),
        Err(halt) => tell(alloc, out, Err(halt)),
    }
}

/// Serves, and then stores the last version under a name.
fn serve<F: Files, O: Sink, N: Net, R: Threads + Sync>(
    rt: &R,
    alloc: Global,
    server: &mut PreparedServer,
    name: &str,
    files: &mut F,
    out: &mut O,
    net: &mut N,
) -> Status
    requires { (s : Serving) × IsPrepared server.old s }
    ensures ends { let seen = outside F.contents F.stores F.faults F.store_faults O.written O.faults in
        let links = net_seen N.ended N.linked N.given N.left N.sent N.reads N.listened (net_faults N.faults N.listen_faults N.accept_faults N.dial_faults) in
        (s : Serving) → IsPrepared server.old s → EndsServing s name.now (seen files.old out.old) (seen files.new out.new) (links net.old) (links net.new) result }
    ensures asked { F.asked files.new ≡ F.asked files.old }
{
    let told = serve_and_tell(rt, alloc, server, out, net);
    store_last(alloc, &server.core, name, files, out, told)
}

/// Listens, serves the connections, and tells both. The status so far.
fn serve_and_tell<O: Sink, N: Net, R: Threads + Sync>(
    rt: &R,
    alloc: Global,
    server: &mut PreparedServer,
    out: &mut O,
    net: &mut N,
) -> Status
    requires { (s : Serving) × IsPrepared server.old s }
    ensures course { let links = net_seen N.ended N.linked N.given N.left N.sent N.reads N.listened (net_faults N.faults N.listen_faults N.accept_faults N.dial_faults) in
        (s : Serving) → IsPrepared server.old s
        → TellsCourse s (links net.old) (links net.new) server.new.core result (O.written out.old) (O.written out.new) (O.faults out.old) (O.faults out.new) }
    ensures code { HasSameCode server.old.core server.new.core }
{
    let mut keeper = NoKeeper;
    match listen_and_serve(rt, alloc, server, &mut keeper, out, net) {
        Ok(end) => tell_end(alloc, &server.core, out, end),
        Err(status) => status,
    }
}

/// Listens, tells so, and serves the connections, by a server whose commits are kept. How the serving ended; or the status where it could not listen, or
/// not tell so.
pub fn listen_and_serve<K: Keeper, O: Sink, N: Net, R: Threads + Sync>(
    rt: &R,
    alloc: Global,
    server: &mut PreparedServer,
    keeper: &mut K,
    out: &mut O,
    net: &mut N,
) -> Result<ServingEnd, Status>
    requires prepared { (s : Serving) × IsPrepared server.old s }
    requires kept { (place : K.Place) × K.keeps keeper.old place server.old.core.shared.commits.items }
    ensures course { let links = net_seen N.ended N.linked N.given N.left N.sent N.reads N.listened (net_faults N.faults N.listen_faults N.accept_faults N.dial_faults) in
        (s : Serving) (place : K.Place) → IsPrepared server.old s → K.keeps keeper.old place server.old.core.shared.commits.items
        → ServesCourse (KeepsBetween (K.keeps keeper.new place)) s (links net.old) (links net.new) server.new.core result (O.written out.old) (O.written out.new) (O.faults out.old) (O.faults out.new) }
    ensures kept { (place : K.Place) → K.keeps keeper.old place server.old.core.shared.commits.items → KeepsSoFar (K.keeps keeper.new place server.new.core.shared.commits.items) result }
    ensures keeper { KeeperFails (K.faults keeper.old) (K.faults keeper.new) (K.faulted keeper.old) (K.faulted keeper.new) result }
    ensures keeper_rest { K.rest keeper.new ≡ K.rest keeper.old }
    ensures code { HasSameCode server.old.core server.new.core }
{
    match net.listen(server.port) {
        Ok(()) => match write_all(out, &server.greeting) {
            Ok(()) => Ok(serve_links(rt, alloc, &mut server.core, keeper, net, server.connections)),
            Err(Failed) => Err(Status::WriteFault),
        },
        Err(Failed) => Err(tell_text(out, Status::ReadFault, link_fault_line().as_bytes())),
    }
}

/// Tells how the serving of connections ended: how many versions and commits there are, and that a link failed; or that memory was
/// wanting, also for these lines.
pub fn tell_end<O: Sink>(
    alloc: Global,
    core: &ServeCore<Sha, NoGate>,
    out: &mut O,
    end: ServingEnd,
) -> Status
    ensures { IsEndTold (length core.now.shared.versions.items) (length core.now.shared.commits.items) end result (O.written out.old) (O.written out.new) (O.faults out.old) (O.faults out.new) }
{
    match end {
        ServingEnd::Served { link_fault } => match end_text(alloc, core, link_fault) {
            Ok(text) => tell_text(out, end_status(link_fault), &text),
            Err(AllocError) => tell_text(out, Status::NoMemory, NO_MEMORY),
        },
        ServingEnd::Stopped => tell_text(out, Status::NoMemory, NO_MEMORY),
    }
}

/// The line of the versions and the commits, and that of a link that failed.
fn end_text(
    alloc: Global,
    core: &ServeCore<Sha, NoGate>,
    link_fault: bool,
) -> Result<Vec<u8>, AllocError>
    ensures { IfOk result (λ text. text.items ≡ concat (count_lines (length core.now.shared.versions.items) (length core.now.shared.commits.items) link_fault)) }
{
    let mut text = versions_line(alloc, core.versions().len(), core.commits().len())?;
    text.extend_from_slice(fault_text(link_fault).as_bytes())?;
    Ok(text)
}
