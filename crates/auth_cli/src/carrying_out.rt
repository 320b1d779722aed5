// The command that the words call is carried out.
ghost use Rattle.std.specs.Prelude.{◌≡◌, Some, None};
ghost use Rattle.command_words.specs.Commands.{IsOfCommand, texts};
ghost use Rattle.command_words.specs.Invocations.{Invocation, invocation_of};
ghost use Rattle.command_parts.specs.Answer.{answer, answer_with};
ghost use Rattle.command_parts.specs.Ending.{EndsAs};
ghost use Rattle.command_parts.specs.EndingInCode.{IsOfRefused};
ghost use Rattle.command_parts.specs.Outsides.{outside};
ghost use Rattle.net_commands.specs.NetFaults.{net_faults};
ghost use Rattle.auth_cli.specs.NetRuns.{IfCalled, IsOfFiles, UsesNoDisk, UsesNoNet};
ghost use Rattle.auth_cli.specs.RunsInCode.{EndsCommand, EndsRun, IsReadFaultAt};
ghost use Rattle.journal_commands.specs.DisksSeen.{disk_seen};
ghost use Rattle.net_commands.specs.OnlineRuns.{net_seen};
ghost use Rattle.command_parts.specs.ReachingInCode.{ReachedAt};
ghost use Rattle.command_parts.specs.Statuses.{MayAnswer};
ghost use Rattle.command_parts.specs.declared.status.Status.{Status};

use call_commands::{
    audit_command, fetch_command, ideal_command, init_command, prove_command, step_command,
    verify_command,
};
use command_parts::{Halt, Status, tell};
use command_words::{Command, WordsFault, read};
use file_commands::{
    check_command, emit_command, gen_command, library_command, migrate_command, pieces_command,
    shallow_command,
};
use journal_commands::{found_command, replay_command};
use lam_outside::{Disk, Files, Net, Sink};
use net_commands::{ask_command, draw_command, host_command, mirror_command, serve_command};
use std::alloc::Global;
use std::thread::Threads;

/// Judges the words, and carries out the command that they call.
pub(crate) fn ended<F: Files, O: Sink, N: Net, D: Disk, R: Threads + Sync>(
    rt: &R,
    alloc: Global,
    words: &[&str],
    files: &mut F,
    out: &mut O,
    net: &mut N,
    disk: &mut D,
) -> Status
    ensures ends { let seen = outside F.contents F.stores F.faults F.store_faults O.written O.faults in
        let links = net_seen N.ended N.linked N.given N.left N.sent N.reads N.listened (net_faults N.faults N.listen_faults N.accept_faults N.dial_faults) in
        let on = disk_seen D.contents D.moments D.read_faults D.write_faults in
        EndsRun (invocation_of (texts words.now)) (seen files.old out.old) (seen files.new out.new) (links net.old) (links net.new) (on disk.old) (on disk.new) result }
    ensures unused { IfCalled UsesNoNet (invocation_of (texts words.now)) → net.new ≡ net.old }
    ensures unused_disk { IfCalled UsesNoDisk (invocation_of (texts words.now)) → disk.new ≡ disk.old }
    ensures reached { IsReadFaultAt (answer (texts words.now)) (F.contents files.old) (F.asked files.new) (F.faults files.old) (F.faults files.new) result }
    ensures possible { (called : Invocation) → invocation_of (texts words.now) ≡ Some called → MayAnswer called.command result }
    ensures refused { invocation_of (texts words.now) ≡ None → IsOfRefused result }
{
    match read(alloc, words) {
        Ok(called) => carry_out(
            rt,
            alloc,
            called.command,
            called.texts,
            files,
            out,
            net,
            disk,
        ),
        Err(WordsFault::Refused) => tell(alloc, out, Err(Halt::Usage)),
        Err(WordsFault::NoMemory) => tell(alloc, out, Err(Halt::NoMemory)),
    }
}

/// Carries out a command with as many texts as it has arguments.
fn carry_out<F: Files, O: Sink, N: Net, D: Disk, R: Threads + Sync>(
    rt: &R,
    alloc: Global,
    command: Command,
    words: &[&str],
    files: &mut F,
    out: &mut O,
    net: &mut N,
    disk: &mut D,
) -> Status
    requires { IsOfCommand command (texts words.now) }
    ensures ends { let seen = outside F.contents F.stores F.faults F.store_faults O.written O.faults in
        let links = net_seen N.ended N.linked N.given N.left N.sent N.reads N.listened (net_faults N.faults N.listen_faults N.accept_faults N.dial_faults) in
        let on = disk_seen D.contents D.moments D.read_faults D.write_faults in
        EndsCommand command (texts words.now) (seen files.old out.old) (seen files.new out.new) (links net.old) (links net.new) (on disk.old) (on disk.new) result }
    ensures unused { UsesNoNet command → net.new ≡ net.old }
    ensures unused_disk { UsesNoDisk command → disk.new ≡ disk.old }
    ensures reached { IsReadFaultAt (answer_with command (texts words.now)) (F.contents files.old) (F.asked files.new) (F.faults files.old) (F.faults files.new) result }
    ensures possible { MayAnswer command result }
{
    match command {
        Command::Serve => serve_command(rt, alloc, words, files, out, net),
        Command::Ask => ask_command(alloc, words, files, out, net),
        Command::Mirror => mirror_command(alloc, words, files, out, net),
        Command::Draw => draw_command(alloc, words, files, out, net),
        Command::Host => host_command(rt, alloc, words, files, out, net, disk),
        Command::Found => found_command(alloc, words, files, out, disk),
        Command::Replay => replay_command(alloc, words, files, out, disk),
        _ => carry_out_offline(alloc, command, words, files, out),
    }
}

/// The same of a command that uses files and the sink alone.
fn carry_out_offline<F: Files, O: Sink>(
    alloc: Global,
    command: Command,
    words: &[&str],
    files: &mut F,
    out: &mut O,
) -> Status
    requires command { IsOfCommand command (texts words.now) }
    requires offline { IsOfFiles command }
    ensures ends { let seen = outside F.contents F.stores F.faults F.store_faults O.written O.faults in
        EndsAs (answer_with command (texts words.now)) (seen files.old out.old) (seen files.new out.new) result }
    ensures reached { ReachedAt result (answer_with command (texts words.now)) (F.contents files.old) (F.asked files.new) }
    ensures possible { MayAnswer command result }
{
    match command {
        Command::Check => check_command(alloc, words, files, out),
        Command::Init => init_command(alloc, words, files, out),
        Command::Ideal => ideal_command(alloc, words, files, out),
        Command::Step => step_command(alloc, words, files, out),
        Command::Shallow => shallow_command(alloc, words, files, out),
        Command::Migrate => migrate_command(alloc, words, files, out),
        Command::Prove => prove_command(alloc, words, files, out),
        Command::Verify => verify_command(alloc, words, files, out),
        Command::Audit => audit_command(alloc, words, files, out),
        Command::Library => library_command(alloc, words, out),
        Command::Gen => gen_command(alloc, words, out),
        Command::Pieces => pieces_command(alloc, words, files, out),
        Command::Fetch => fetch_command(alloc, words, files, out),
        Command::Emit => emit_command(alloc, words, files, out),
        Command::Serve | Command::Ask | Command::Mirror | Command::Draw => unreachable!(),
        Command::Host | Command::Found | Command::Replay => unreachable!(),
    }
}
