// The command `draw`.
ghost use Rattle.std.specs.Prelude.{◌≡◌, ◌⊎◌, length};
ghost use Rattle.command_words.specs.Commands.{texts};
ghost use Rattle.command_words.specs.declared.command.Command.TheVariants.{Draw};
ghost use Rattle.command_parts.specs.Answer.{answer_with};
ghost use Rattle.command_parts.specs.EndingInCode.{with_sink};
ghost use Rattle.command_parts.specs.Outsides.{Outside, outside};
ghost use Rattle.command_parts.specs.Reaching.{IsReached};
ghost use Rattle.command_parts.specs.Statuses.{MayAnswer};
ghost use Rattle.piece_fetch.specs.Verdicts.{VerdictCause};
ghost use Rattle.net_commands.specs.DrawSteps.{EndsOnLink, JudgesOn, TellsJudged};
ghost use Rattle.net_commands.specs.Drawing.{EndsDialled, IsDraw};
ghost use Rattle.net_commands.specs.NetCounts.{DialCounts};
ghost use Rattle.net_commands.specs.NetFaults.{net_faults};
ghost use Rattle.net_commands.specs.OnlineRuns.{net_seen};
ghost use Rattle.net_commands.specs.PreparedDrawings.{IsReady, drawing_of};

use crate::drawing::{DrawWords, PreparedDrawing, read_drawing};
use command_parts::{CallWords, CalledRole, Status, tell, tell_text, verdict_report};
use core_terms::{Outcome, Spelling};
use digest_layer::Sha;
use lam_outside::{Failed, Files, Link, Net, Sink};
use piece_fetch::{FetchVerdict, verify_from};
use printed_lines::lines::link_fault_line;
use std::alloc::Global;
use wire_form::LinkFetch;

/// Judges a call of a query or an update, whose pieces are asked for on a link, and tells the outcome. The words behind the command are
/// `P ROLE STATE ARG FUEL PORT`.
pub fn draw_command<F: Files, O: Sink, N: Net>(
    alloc: Global,
    words: &[&str],
    files: &mut F,
    out: &mut O,
    net: &mut N,
) -> Status
    requires { length words.now ≡ 6 }
    ensures ends { let seen = outside F.contents F.stores F.faults F.store_faults O.written O.faults in
        let links = net_seen N.ended N.linked N.given N.left N.sent N.reads N.listened (net_faults N.faults N.listen_faults N.accept_faults N.dial_faults) in
        IsDraw (texts words.now) (seen files.old out.old) (seen files.new out.new) (links net.old) (links net.new) result }
    ensures counts { let seen = outside F.contents F.stores F.faults F.store_faults O.written O.faults in
        let faults = net_faults N.faults N.listen_faults N.accept_faults N.dial_faults in
        DialCounts (seen files.old out.old) (seen files.new out.new) (faults net.old) (faults net.new) result }
    ensures reached { (F.faults files.new ≡ F.faults files.old) ⊎ IsReached (answer_with Draw (texts words.now)) (F.contents files.old) (F.asked files.new) }
    ensures possible { MayAnswer Draw result }
{
    let [program, role, state, argument, fuel, port] = words else {
        unreachable!()
    };
    let words = DrawWords {
        call: CallWords {
            program,
            role,
            argument,
            fuel,
        },
        state,
        port,
    };
    match read_drawing(alloc, &words, files) {
        Ok(held) => draw(alloc, &held, out, net),
        Err(halt) => tell(alloc, out, Err(halt)),
    }
}

/// Dials, and judges the call on the link.
fn draw<O: Sink, N: Net>(alloc: Global, held: &PreparedDrawing, out: &mut O, net: &mut N) -> Status
    requires { IsReady held.now }
    ensures { let links = net_seen N.ended N.linked N.given N.left N.sent N.reads N.listened (net_faults N.faults N.listen_faults N.accept_faults N.dial_faults) in
        (seen : Outside) → EndsDialled (drawing_of held.now) (with_sink seen (O.written out.old) (O.faults out.old)) (with_sink seen (O.written out.new) (O.faults out.new))
        (links net.old) (links net.new) result }
{
    match net.dial(held.port) {
        Ok(()) => judge_and_tell(alloc, held, out, net),
        Err(Failed) => tell_text(out, Status::ReadFault, link_fault_line().as_bytes()),
    }
}

/// Judges the call on the link that stands, and tells the verdict.
fn judge_and_tell<O: Sink, L: Link>(
    alloc: Global,
    held: &PreparedDrawing,
    out: &mut O,
    link: &mut L,
) -> Status
    requires { IsReady held.now }
    ensures ends { EndsOnLink (drawing_of held.now).call (L.given link.old) (L.left link.old) (L.sent link.old) (L.given link.new) (L.left link.new) (L.sent link.new)
        (L.faults link.old) (L.faults link.new) result (O.written out.old) (O.written out.new) (O.faults out.old) (O.faults out.new) }
    ensures beyond { L.beyond link.new ≡ L.beyond link.old }
{
    let judged = judge_on(alloc, held, link);
    tell_judged(alloc, held, out, judged)
}

/// The verdict on the call over the answers that come on a link.
fn judge_on<L: Link>(
    alloc: Global,
    held: &PreparedDrawing,
    link: &mut L,
) -> Result<Outcome<Spelling>, FetchVerdict>
    requires { IsReady held.now }
    ensures judges { JudgesOn (drawing_of held.now).call (L.given link.old) (L.left link.old) (L.sent link.old) (L.given link.new) (L.left link.new) (L.sent link.new) result }
    ensures faults { VerdictCause (L.faults link.old) (L.faults link.new) result }
    ensures beyond { L.beyond link.new ≡ L.beyond link.old }
{
    let CalledRole { function, fuel, .. } = held.call.called;
    let mut fetch = LinkFetch { link };
    verify_from::<Sha, LinkFetch<'_, L>>(
        alloc,
        &held.code,
        function,
        &held.call.state,
        held.call.argument.as_bytes(),
        fuel,
        &mut fetch,
    )
}

/// Tells what was judged: the verdict, or that the link failed or memory was wanting.
fn tell_judged<O: Sink>(
    alloc: Global,
    held: &PreparedDrawing,
    out: &mut O,
    judged: Result<Outcome<Spelling>, FetchVerdict>,
) -> Status
    requires { IsReady held.now }
    ensures { TellsJudged (drawing_of held.now).call judged result (O.written out.old) (O.written out.new) (O.faults out.old) (O.faults out.new) }
{
    match judged {
        Err(FetchVerdict::FetchFault) => {
            tell_text(out, Status::ReadFault, link_fault_line().as_bytes())
        }
        judged => {
            let found = verdict_report(alloc, held.code.program(), &held.call.called, judged);
            tell(alloc, out, found)
        }
    }
}
