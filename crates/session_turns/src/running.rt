// Calls that run in turns.
ghost use Rattle.std.specs.Prelude.{◌≡◌, ◌<◌, ◌≤◌, ℕ, List, length, None, Ok, IfOk};
ghost use Rattle.core_terms.specs.Limits.{most_fuel};
ghost use Rattle.core_terms.specs.Values.{Value, Values};
ghost use Rattle.ideal_meaning.specs.Headline.{call_values};
ghost use Rattle.mode_vm.specs.Meanings.{program_of};
ghost use Rattle.mode_vm.specs.StateCalls.{TakesState};
ghost use Rattle.session_meaning.specs.Calls.{role_in};
ghost use Rattle.value_store.specs.Markings.{HasLimit};
ghost use Rattle.value_store.specs.Nodes.{Node};
ghost use Rattle.value_store.specs.Stores.{nodes_in, store_lent};

use crate::grants::Granted;
use code_gen::Code;
use core_terms::{Hash32, Outcome};
use prover_mode::Proving;
use std::alloc::{AllocError, Global};
use value_store::{Over, Own, Ref, Store};

/// A call that runs in turns, or has run. Between its turns others may put nodes behind those of the store.
#[derive(Drop)]
pub struct Running<H> {
    /// The nodes that it put, over the first `from` of the store.
    pub own: Own,
    pub from: usize,
    pub proving: Proving<H>,
    /// What its last turn came to: the outcome with the node of its value if it has run, or memory was wanting. `Ok(None)` before the
    /// first turn.
    pub last: Result<Option<Outcome<Ref>>, AllocError>,
}

impl<H: Hash32> Running<H> {
    ghost use Rattle.session_turns.specs.Granting.{HoldsCall};
    ghost use Rattle.session_turns.specs.Running.{IsRunning, RunsTo};
    ghost use Rattle.session_turns.specs.Versions.{IsVersion};

    /// A granted call before its first turn, on a version, with this much fuel (at most 10^12). Answers `AllocError` where memory is
    /// wanting.
    pub fn start(
        alloc: Global,
        code: &Code,
        granted: Granted,
        version: Ref,
        fuel: u64,
    ) -> Result<Running<H>, AllocError>
        requires there { granted.function.0 < length (program_of code.now).functions }
        requires role { TakesState (program_of code.now) granted.function.0 }
        requires fuel_fits { fuel ≤ most_fuel }
        ensures starts { let P = program_of code.now in IfOk result (λ run. (base : List Node) (role : ℕ) (s a : Value) → HoldsCall H.hash P base granted role a
            → IsVersion H.hash P base version s → IsRunning H.hash code.now base run (role_in P role).function (call_values s a) fuel 0) }
        ensures goes_on { IfOk result (λ run. run.last ≡ Ok None) }
    {
        let Granted {
            function,
            argument,
            own,
            from,
        } = granted;
        let proving = Proving::start(alloc, code, function, version, argument, fuel)?;
        Ok(Running {
            own,
            from,
            proving,
            last: Ok(None),
        })
    }

    /// One turn of a call that hasn't run: so many calls of functions more (1 at least), or those up to its end. Where memory was
    /// wanting the call can't go on.
    pub fn turn(self, code: &Code, base: &Store, units: u64) -> Running<H>
        requires running { (f : ℕ) × (vs : Values) × (k : ℕ) × (made : ℕ) × IsRunning H.hash code.now (nodes_in base.now) self f vs k made }
        requires limit { HasLimit (program_of code.now) (store_lent base.now) }
        requires goes_on { self.last ≡ Ok None }
        requires some { 0 < units }
        ensures { RunsTo H.hash code.now (nodes_in base.now) units self result }
    {
        let Running {
            own,
            from,
            mut proving,
            last: _,
        } = self;
        let mut over = Over::on(base, own, from);
        let last = proving.turn(code, &mut over, units);
        Running {
            own: over.off(),
            from,
            proving,
            last,
        }
    }
}
