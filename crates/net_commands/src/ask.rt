// The command `ask`.
ghost use Rattle.std.specs.Prelude.{◌≡◌, ◌⊎◌, IfOk, length, unwrap_or};
ghost use Rattle.std.specs.Option.{ForSome};
ghost use Rattle.lam_outside.specs.LinkSteps.{AtEachRead};
ghost use Rattle.wire_form.specs.MovedBytes.{Moves};
ghost use Rattle.command_words.specs.Commands.{texts};
ghost use Rattle.command_words.specs.declared.command.Command.TheVariants.{Ask};
ghost use Rattle.command_parts.specs.Answer.{answer_with};
ghost use Rattle.net_commands.specs.AskSteps.{PlaysAndStores};
ghost use Rattle.net_commands.specs.Asking.{EndsAsking, IsAsk, IsEndTold, IsStateStored, asked_play};
ghost use Rattle.net_commands.specs.NetCounts.{DialCounts};
ghost use Rattle.script_play.specs.Prompt.{IsPromptOn};
ghost use Rattle.command_parts.specs.Outsides.{outside};
ghost use Rattle.net_commands.specs.NetFaults.{net_faults};
ghost use Rattle.net_commands.specs.OnlineRuns.{net_seen};
ghost use Rattle.net_commands.specs.PreparedClients.{IsReady, asked_by};
ghost use Rattle.command_parts.specs.Reaching.{IsReached};
ghost use Rattle.command_parts.specs.Statuses.{MayAnswer};

use crate::asking::{AskWords, PreparedClient, read_asking};
use command_parts::{Halt, NO_MEMORY, Status, tell, tell_text};
use core_terms::Spelling;
use lam_outside::{Failed, Files, Net, Sink};
use printed_lines::lines::link_fault_line;
use script_play::{PlayStop, play};
use std::alloc::Global;

/// Plays a script against a server, and stores the spelling of the state told last. The words behind the command are
/// `P STATE PORT SCRIPT OUT`.
pub fn ask_command<F: Files, O: Sink, N: Net>(
    alloc: Global,
    words: &[&str],
    files: &mut F,
    out: &mut O,
    net: &mut N,
) -> Status
    requires { length words.now ≡ 5 }
    ensures ends { let seen = outside F.contents F.stores F.faults F.store_faults O.written O.faults in
        let links = net_seen N.ended N.linked N.given N.left N.sent N.reads N.listened (net_faults N.faults N.listen_faults N.accept_faults N.dial_faults) in
        IsAsk (texts words.now) (seen files.old out.old) (seen files.new out.new) (links net.old) (links net.new) result }
    ensures counts { let seen = outside F.contents F.stores F.faults F.store_faults O.written O.faults in
        let faults = net_faults N.faults N.listen_faults N.accept_faults N.dial_faults in
        DialCounts (seen files.old out.old) (seen files.new out.new) (faults net.old) (faults net.new) result }
    ensures reached { (F.faults files.new ≡ F.faults files.old) ⊎ IsReached (answer_with Ask (texts words.now)) (F.contents files.old) (F.asked files.new) }
    ensures possible { MayAnswer Ask result }
{
    let [program, state, port, script, name] = words else {
        unreachable!()
    };
    let words = AskWords {
        program,
        state,
        port,
        script,
    };
    match read_asking(alloc, &words, files) {
        Ok(mut client) => ask(alloc, &mut client, name, files, out, net),
        Err(halt) => tell(alloc, out, Err(halt)),
    }
}

/// Dials, plays the script, and then stores the state told last under a name.
fn ask<F: Files, O: Sink, N: Net>(
    alloc: Global,
    client: &mut PreparedClient,
    name: &str,
    files: &mut F,
    out: &mut O,
    net: &mut N,
) -> Status
    requires { IsReady client.old }
    ensures ends { let seen = outside F.contents F.stores F.faults F.store_faults O.written O.faults in
        let links = net_seen N.ended N.linked N.given N.left N.sent N.reads N.listened (net_faults N.faults N.listen_faults N.accept_faults N.dial_faults) in
        EndsAsking (asked_by client.old) name.now (seen files.old out.old) (seen files.new out.new) (links net.old) (links net.new) result }
    ensures asked { F.asked files.new ≡ F.asked files.old }
{
    match net.dial(client.port) {
        Ok(()) => play_and_store(alloc, client, name, files, out, net),
        Err(Failed) => tell_text(out, Status::ReadFault, link_fault_line().as_bytes()),
    }
}

/// Plays the script on the link that stands, tells how that ended, and stores the state told last under a name, however it ended.
fn play_and_store<F: Files, O: Sink, N: Net>(
    alloc: Global,
    client: &mut PreparedClient,
    name: &str,
    files: &mut F,
    out: &mut O,
    net: &mut N,
) -> Status
    requires { IsReady client.old }
    ensures plays { let seen = outside F.contents F.stores F.faults F.store_faults O.written O.faults in
        PlaysAndStores (asked_by client.old) name.now (seen files.old out.old) (seen files.new out.new)
        (N.left net.old) (N.left net.new) (N.sent net.old) (N.sent net.new) (N.faults net.old) (N.faults net.new) result }
    ensures prompt { ForSome (N.left net.old) (λ bytes. AtEachRead (IsPromptOn bytes (N.sent net.old) (asked_play (asked_by client.old))) (N.reads net.old) (N.reads net.new)) }
    ensures moves { Moves (N.given net.old) (N.left net.old) (N.given net.new) (N.left net.new) }
    ensures beyond { N.beyond net.new ≡ N.beyond net.old }
    ensures asked { F.asked files.new ≡ F.asked files.old }
{
    let mut last = None;
    let end = play(
        alloc,
        &mut client.core,
        &client.state,
        &client.steps,
        net,
        out,
        &mut last,
    );
    let told = tell_end(out, end);
    store_state(files, name, &last, &client.state, told)
}

/// Tells how the play ended, behind its lines: that the link failed, or that memory was wanting.
fn tell_end<O: Sink>(out: &mut O, end: Result<(), PlayStop>) -> Status
    ensures { IsEndTold end result (O.written out.old) (O.written out.new) (O.faults out.old) (O.faults out.new) }
{
    match end {
        Ok(()) => Status::Done,
        Err(PlayStop::Ended) => Status::Rejected,
        Err(PlayStop::LinkFault) => {
            tell_text(out, Status::ReadFault, link_fault_line().as_bytes())
        }
        Err(PlayStop::WriteFault) => Status::WriteFault,
        Err(PlayStop::NoMemory) => tell_text(out, Status::NoMemory, NO_MEMORY),
    }
}

/// Stores the spelling of the state told last, else that of the state at which sessions are opened, behind lines that left this status.
fn store_state<F: Files>(
    files: &mut F,
    name: &str,
    last: &Option<Spelling>,
    first: &[u8],
    told: Status,
) -> Status
    ensures stored { IsStateStored name.now (unwrap_or last.now first.now) told result (F.stores files.old) (F.stores files.new) (F.store_faults files.old) (F.store_faults files.new) }
    ensures faults { F.faults files.new ≡ F.faults files.old }
    ensures asked { F.asked files.new ≡ F.asked files.old }
{
    match files.store(name, told_or(last, first)) {
        Ok(()) => told,
        Err(Failed) => Status::WriteFault,
    }
}

/// The spelling that was told last, else the first one.
fn told_or<'a>(last: &'a Option<Spelling>, first: &'a [u8]) -> &'a [u8]
    ensures { result.now ≡ unwrap_or last.now first.now }
{
    match last {
        Some(state) => state.as_bytes(),
        None => first,
    }
}
