// The command `host`.
ghost use Rattle.std.specs.Prelude.{◌≡◌, ◌⊎◌, ℕ, List, length};
ghost use Rattle.command_words.specs.Commands.{texts};
ghost use Rattle.command_words.specs.declared.command.Command.TheVariants.{Host};
ghost use Rattle.command_parts.specs.Answer.{Serving, answer_with};
ghost use Rattle.command_parts.specs.Outsides.{outside};
ghost use Rattle.command_parts.specs.Reaching.{IsReached};
ghost use Rattle.command_parts.specs.Statuses.{MayAnswer};
ghost use Rattle.journal_commands.specs.DisksSeen.{DiskSeen, disk_seen};
ghost use Rattle.net_commands.specs.HostCounts.{HostCounts};
ghost use Rattle.net_commands.specs.HostSteps.{Hosts, IsHostEndTold};
ghost use Rattle.net_commands.specs.Hosting.{IsHost};
ghost use Rattle.net_commands.specs.NetFaults.{net_faults};
ghost use Rattle.net_commands.specs.OnlineRuns.{net_seen};
ghost use Rattle.net_commands.specs.PreparedHosts.{IsPreparedHost};

use crate::hosting::{HostWords, PreparedHost, read_hosting};
use crate::serve::{listen_and_serve, tell_end};
use command_parts::{Status, tell};
use digest_layer::Sha;
use journal_commands::DiskStop;
use lam_outside::{Disk, Files, Net, Sink};
use serve_core::ServeCore;
use serve_links::ServingEnd;
use session_turns::NoGate;
use std::alloc::Global;
use std::thread::Threads;
use version_journal::JournalKeeper;

/// Serves connections, one after another, from the last version that a journal keeps, and keeps each commit in it before it is told. The words behind
/// the command are `P JOURNAL PORT CONNS SLICE`.
pub fn host_command<F: Files, O: Sink, N: Net, D: Disk, R: Threads + Sync>(
    rt: &R,
    alloc: Global,
    words: &[&str],
    files: &mut F,
    out: &mut O,
    net: &mut N,
    disk: &mut D,
) -> Status
    requires { length words.now ≡ 5 }
    ensures ends { let seen = outside F.contents F.stores F.faults F.store_faults O.written O.faults in let on = disk_seen D.contents D.moments D.read_faults D.write_faults in
        let links = net_seen N.ended N.linked N.given N.left N.sent N.reads N.listened (net_faults N.faults N.listen_faults N.accept_faults N.dial_faults) in
        IsHost (texts words.now) (seen files.old out.old) (seen files.new out.new) (links net.old) (links net.new) (on disk.old) (on disk.new) result }
    ensures counts { let seen = outside F.contents F.stores F.faults F.store_faults O.written O.faults in let on = disk_seen D.contents D.moments D.read_faults D.write_faults in
        let faults = net_faults N.faults N.listen_faults N.accept_faults N.dial_faults in
        HostCounts (seen files.old out.old) (seen files.new out.new) (faults net.old) (faults net.new) (on disk.old) (on disk.new) result }
    ensures reached { (F.faults files.new ≡ F.faults files.old) ⊎ IsReached (answer_with Host (texts words.now)) (F.contents files.old) (F.asked files.new) }
    ensures possible { MayAnswer Host result }
{
    let [program, journal, port, connections, slice] = words else {
        unreachable!()
    };
    let words = HostWords {
        program,
        journal,
        port,
        connections,
        slice,
    };
    match read_hosting(alloc, &words, files, disk) {
        Ok(prepared) => host(rt, alloc, prepared, out, net, disk),
        Err(DiskStop::Halts(halt)) => tell(alloc, out, Err(halt)),
        Err(DiskStop::WriteFault) => Status::WriteFault,
    }
}

/// Listens, and serves connections whose commits the journal keeps. Where the disk fails at it nothing more is told.
fn host<O: Sink, N: Net, D: Disk, R: Threads + Sync>(
    rt: &R,
    alloc: Global,
    prepared: PreparedHost,
    out: &mut O,
    net: &mut N,
    disk: &mut D,
) -> Status
    requires { (s : Serving) × (name : List ℕ) × (first : DiskSeen) × (let on = disk_seen D.contents D.moments D.read_faults D.write_faults in IsPreparedHost prepared s name first (on disk.old)) }
    ensures ends { let on = disk_seen D.contents D.moments D.read_faults D.write_faults in
        let links = net_seen N.ended N.linked N.given N.left N.sent N.reads N.listened (net_faults N.faults N.listen_faults N.accept_faults N.dial_faults) in
        (s : Serving) (name : List ℕ) (first : DiskSeen) → IsPreparedHost prepared s name first (on disk.old)
        → Hosts s name (links net.old) (links net.new) first (on disk.old) (on disk.new) result (O.written out.old) (O.written out.new) (O.faults out.old) (O.faults out.new) }
{
    let PreparedHost {
        mut server,
        journal,
    } = prepared;
    let mut keeper = JournalKeeper {
        journal,
        disk,
        faulted: false,
    };
    match listen_and_serve(rt, alloc, &mut server, &mut keeper, out, net) {
        Ok(end) => tell_host_end(alloc, &server.core, keeper.faulted, out, end),
        Err(status) => status,
    }
}

/// Tells how the serving of connections ended, unless the disk failed.
fn tell_host_end<O: Sink>(
    alloc: Global,
    core: &ServeCore<Sha, NoGate>,
    faulted: bool,
    out: &mut O,
    end: ServingEnd,
) -> Status
    ensures told { IsHostEndTold faulted (length core.now.shared.versions.items) (length core.now.shared.commits.items) end result (O.written out.old) (O.written out.new) (O.faults out.old) (O.faults out.new) }
{
    if faulted {
        return Status::WriteFault;
    }
    tell_end(alloc, core, out, end)
}
