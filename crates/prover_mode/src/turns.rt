// Calls that are proved in turns.
ghost use Rattle.std.specs.Prelude.{◌≡◌, ◌<◌, ◌≤◌, ◌+◌, ◌-◌, ◌^◌, ℕ, List, IfOk, IfSome, IfNone, length};
ghost use Rattle.core_terms.specs.Values.{Value, Values};
ghost use Rattle.ideal_meaning.specs.Frames.{frame_bytes};
ghost use Rattle.ideal_meaning.specs.Headline.{call_values};
ghost use Rattle.value_store.specs.Markings.{HasLimit};
ghost use Rattle.value_store.specs.Nodes.{Node};
ghost use Rattle.value_store.specs.Standing.{Keeps};
ghost use Rattle.mode_vm.specs.Meanings.{program_of};
ghost use Rattle.mode_vm.specs.StateCalls.{IsCalledOn, TakesState};
ghost use Rattle.reuse_buffer.specs.Kept.{kept};
ghost use Rattle.ideal_meaning.specs.RunFrames.{run_frames};
ghost use Rattle.prover_mode.specs.Told.{TellsFrames};

use crate::frames::{FrameWriter, write_frames};
use crate::prover::Prover;
use code_gen::Code;
use core_terms::{Fronts, FunctionId, Hash32, Outcome};
use mode_vm::{Machine, Step};
use reuse_buffer::Ring;
use std::alloc::{AllocError, Global};
use value_store::{Nodes, Ref};

/// A proof in the making: a call that runs in turns, each over the nodes that the one before it left, with any nodes put behind them.
#[derive(Drop)]
pub struct Proving<H> {
    machine: Machine<Prover<H>>,
}

/// The frames of a proof.
#[derive(Drop)]
pub struct ProofFrames {
    /// Their bytes, without a header.
    pub bytes: Vec<u8>,
    /// The number of frames with a piece of their own.
    pub fresh: u64,
    /// The number of frames that name a kept piece.
    pub again: u64,
}

impl<H: Hash32> Proving<H> {
    ghost use Rattle.prover_mode.specs.Turns.{HasRun, IsProving, TurnEnds};

    /// A call of a query or an update before its first turn, with this much fuel (at most 10^12), on a state and an argument that stand
    /// among the prover's nodes. Answers `AllocError` where memory is wanting.
    pub fn start(
        alloc: Global,
        code: &Code,
        role: FunctionId,
        state: Ref,
        argument: Ref,
        fuel: u64,
    ) -> Result<Proving<H>, AllocError>
        requires there { role.0 < length (program_of code.now).functions }
        requires role { TakesState (program_of code.now) role.0 }
        requires fuel_fits { fuel ≤ 10 ^ 12 }
        ensures { IfOk result (λ proving. (nodes : List Node) (s a : Value) → IsCalledOn H.hash (program_of code.now) role.0 nodes state argument s a
            → IsProving H.hash code.now nodes proving role.0 (call_values s a) fuel 0) }
    {
        let fronts = Fronts::of_types::<H>(code.types(), alloc)?;
        let prover = Prover::<H>::new(alloc, fronts);
        let machine = Machine::start(code, role, &[state, argument], fuel, prover, alloc)?;
        Ok(Proving { machine })
    }

    /// One turn: runs on until `units` more calls of functions (1 at least) were made and a further one is due with fuel left, and there
    /// pauses; or to the end. The outcome is told exactly where the call ended, with the node of its value. Where memory is wanting it
    /// answers `AllocError`, and the call can't go on.
    pub fn turn<N: Nodes>(
        &mut self,
        code: &Code,
        store: &mut N,
        units: u64,
    ) -> Result<Option<Outcome<Ref>>, AllocError>
        requires proving { (f : ℕ) × (vs : Values) × (k : ℕ) × (made : ℕ) × IsProving H.hash code.now (N.nodes store.old) self.old f vs k made }
        requires limit { HasLimit (program_of code.now) (N.lent store.old) }
        requires some { 0 < units }
        ensures ends { IfOk result (λ told. (f : ℕ) (vs : Values) (k made : ℕ) → IsProving H.hash code.now (N.nodes store.old) self.old f vs k made
            → TurnEnds H.hash code.now (N.nodes store.new) self.new f vs k (made + units) told) }
        ensures keeps { Keeps (N.nodes store.old) (N.nodes store.new) }
        ensures lent { N.lent store.new ≡ N.lent store.old }
    {
        match self.machine.run_slice(code, store, &mut (), units) {
            Ok(Step::Paused) => Ok(None),
            Ok(Step::Ended(outcome)) => Ok(Some(outcome)),
            Err(_) => Err(AllocError),
        }
    }

    /// The frames of the proof of a call that has run, with a ring that holds the last of the new pieces that came before. It gives the
    /// ring back, which holds the last of them and of the new pieces of this proof. Where memory is wanting it answers `AllocError`, and
    /// the ring is dropped.
    pub fn finish<N: Nodes>(
        self,
        alloc: Global,
        code: &Code,
        store: &N,
        ring: Ring,
    ) -> Result<(ProofFrames, Ring), AllocError>
        requires has_run { (f : ℕ) × (vs : Values) × (k : ℕ) × HasRun H.hash code.now (N.nodes store.now) self f vs k }
        ensures { IfOk result (λ told. (f : ℕ) (vs : Values) (k : ℕ) (recent : List (List ℕ)) → HasRun H.hash code.now (N.nodes store.now) self f vs k
            → ring ≡ kept ring.size recent
            → TellsFrames (run_frames H.hash (program_of code.now) f vs k ring.size recent) ring.size recent told.0.bytes.items told.0.fresh told.0.again told.1) }
    {
        let Some(told) = self.finish_within(alloc, code, store, ring, usize::MAX)? else {
            unreachable!()
        };
        Ok(told)
    }

    /// The frames, as [`Proving::finish`] gives them, where they have at most `most` bytes. `None` exactly where they have more: the first
    /// frame that goes beyond is the last one that is written, and the ring is dropped. Where memory is wanting for the frames up to there
    /// it answers `AllocError`.
    pub fn finish_within<N: Nodes>(
        self,
        alloc: Global,
        code: &Code,
        store: &N,
        ring: Ring,
        most: usize,
    ) -> Result<Option<(ProofFrames, Ring)>, AllocError>
        requires has_run { (f : ℕ) × (vs : Values) × (k : ℕ) × HasRun H.hash code.now (N.nodes store.now) self f vs k }
        ensures told { IfOk result (λ told. IfSome told (λ told. (f : ℕ) (vs : Values) (k : ℕ) (recent : List (List ℕ))
            → HasRun H.hash code.now (N.nodes store.now) self f vs k → ring ≡ kept ring.size recent
            → TellsFrames (run_frames H.hash (program_of code.now) f vs k ring.size recent) ring.size recent told.0.bytes.items told.0.fresh told.0.again told.1
            × (length told.0.bytes.items ≤ most))) }
        ensures long { IfOk result (λ told. IfNone told ((f : ℕ) (vs : Values) (k : ℕ) (recent : List (List ℕ))
            → HasRun H.hash code.now (N.nodes store.now) self f vs k → ring ≡ kept ring.size recent
            → most < length (frame_bytes (run_frames H.hash (program_of code.now) f vs k ring.size recent)))) }
        ensures limited { IfOk result (λ told. IfNone told (most < 2 ^ 64 - 1)) }
    {
        let opened = self.machine.into_mode().into_opened();
        let written = write_frames::<H, N>(alloc, code.types(), store, &opened, ring, most)?;
        let Some(writer) = written else {
            return Ok(None);
        };
        let FrameWriter {
            ring,
            bytes,
            fresh,
            again,
        } = writer;
        let frames = ProofFrames {
            bytes,
            fresh,
            again,
        };
        Ok(Some((frames, ring)))
    }
}
