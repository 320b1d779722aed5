// The turns of a round, at once.
ghost use Rattle.std.specs.Prelude.{◌≡◌, ◌<◌};
ghost use Rattle.std.specs.List.{list_any};
ghost use Rattle.std.specs.Thread.{IsSync};
ghost use Rattle.mode_vm.specs.Meanings.{program_of};
ghost use Rattle.value_store.specs.Markings.{HasLimit};
ghost use Rattle.value_store.specs.Stores.{nodes_in, store_lent};
ghost use Rattle.session_turns.specs.Rounds.{runs};
ghost use Rattle.session_turns.specs.Turning.{AllGoOn, AllTurned, MayTakeTurn, IsTurnOf};

use crate::gate::Gate;
use crate::session::{Session, SessionCall};
use code_gen::Code;
use core_terms::Hash32;
use session_tables::Entry;
use std::thread::{Threads, join_mut};
use value_store::Store;

/// About so many threads share the turns of a round in which more calls run: to start one takes as long as some hundred calls of functions.
const SHARES: usize = 8;

/// A turn of the call of each session in which one runs, at once on threads: so many calls of functions more (1 at least), or those up to
/// its end. Each runs on its own nodes over the base, which nobody changes, and passes the gate first. Each session is left as its own
/// turn alone leaves it, on any number of threads; none is settled.
pub fn round<H: Hash32, G: Gate, R: Threads + Sync>(
    rt: &R,
    code: &Code,
    base: &Store,
    entries: &mut [Entry<Session<H>>],
    units: u64,
    gate: &G,
)
    requires limit { HasLimit (program_of code.now) (store_lent base.now) }
    requires go_on { AllGoOn H.hash code.now (nodes_in base.now) entries.old }
    requires some { 0 < units }
    ensures { AllTurned H.hash code.now (nodes_in base.now) units entries.old entries.new }
{
    let few = calls_in(entries) / SHARES;
    take_turns(rt, code, base, &units, gate, &few, entries);
}

/// Whether a call of one of them runs.
pub fn any_runs<H>(entries: &[Entry<Session<H>>]) -> bool
    ensures { result ≡ list_any runs entries.now }
{
    entries.iter().any(|entry| entry.value.running.is_some())
}

/// In how many of them a call runs.
fn calls_in<H>(entries: &[Entry<Session<H>>]) -> usize {
    entries
        .iter()
        .filter(|entry| entry.value.running.is_some())
        .count()
}

/// The turns of a row of sessions, by halves: at once, where a call runs in both, and in more than a few together.
fn take_turns<H: Hash32, G: Gate, R: Threads + Sync>(
    rt: &R,
    code: &Code,
    base: &Store,
    units: &u64,
    gate: &G,
    few: &usize,
    entries: &mut [Entry<Session<H>>],
)
    requires limit { HasLimit (program_of code.now) (store_lent base.now) }
    requires go_on { AllGoOn H.hash code.now (nodes_in base.now) entries.old }
    requires some { 0 < units.now }
    ensures { AllTurned H.hash code.now (nodes_in base.now) units.now entries.old entries.new }
{
    match entries {
        [] => {}
        [entry] => take_turn(code, base, *units, gate, entry),
        _ => {
            let are_many = calls_in(entries) > *few;
            let (front, back) = entries.split_at_mut(entries.len() / 2);
            if are_many && any_runs(front) && any_runs(back) {
                join_mut(
                    rt,
                    &mut ||
                        requires limit { HasLimit (program_of code.now) (store_lent base.now) }
                        requires go_on { AllGoOn H.hash code.now (nodes_in base.now) front.now }
                        requires some { IsSync R.row × (0 < units.now) }
                        ensures { AllTurned H.hash code.entry.now (nodes_in base.entry.now) units.entry.now front.entry.now front.exit.now }
                    { take_turns(rt, code, base, units, gate, few, front) },
                    &mut ||
                        requires limit { HasLimit (program_of code.now) (store_lent base.now) }
                        requires go_on { AllGoOn H.hash code.now (nodes_in base.now) back.now }
                        requires some { IsSync R.row × (0 < units.now) }
                        ensures { AllTurned H.hash code.entry.now (nodes_in base.entry.now) units.entry.now back.entry.now back.exit.now }
                    { take_turns(rt, code, base, units, gate, few, back) },
                );
            } else {
                take_turns(rt, code, base, units, gate, few, front);
                take_turns(rt, code, base, units, gate, few, back);
            }
        }
    }
}

/// The turn of a session, if a call of it runs.
fn take_turn<H: Hash32, G: Gate>(
    code: &Code,
    base: &Store,
    units: u64,
    gate: &G,
    entry: &mut Entry<Session<H>>,
)
    requires limit { HasLimit (program_of code.now) (store_lent base.now) }
    requires goes_on { MayTakeTurn H.hash code.now (nodes_in base.now) entry.old.value.running }
    requires some { 0 < units }
    ensures { IsTurnOf H.hash code.now (nodes_in base.now) units entry.old entry.new }
{
    if let Some(SessionCall { run, call }) = entry.value.running.take() {
        gate.pass(entry.number);
        let run = run.turn(code, base, units);
        entry.value.running = Some(SessionCall { run, call });
    }
}
