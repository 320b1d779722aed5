// The end of a call that has run.
ghost use Rattle.std.specs.Prelude.{◌≡◌, ℕ, ◌<◌, ◌≤◌, ◌+◌, ◌++◌, false, length, take, Ok, Some, IfOk, IfSome, IfNone};
ghost use Rattle.core_terms.specs.declared.outcome.Outcome.{Outcome};
ghost use Rattle.core_terms.specs.Formats.{Hash};
ghost use Rattle.core_terms.specs.Projection.{digest_at};
ghost use Rattle.core_terms.specs.Terms.{function_at};
ghost use Rattle.core_terms.specs.Values.{Value};
ghost use Rattle.ideal_meaning.specs.Frames.{frame_bytes};
ghost use Rattle.ideal_meaning.specs.Following.{after_frames};
ghost use Rattle.ideal_meaning.specs.Headline.{call_values};
ghost use Rattle.ideal_meaning.specs.Ideal as ideal;
ghost use Rattle.mode_vm.specs.IdealRuns.{IsOutcome};
ghost use Rattle.mode_vm.specs.Meanings.{program_of};
ghost use Rattle.reuse_buffer.specs.Kept.{kept};
ghost use Rattle.session_meaning.specs.Calls as meant_calls;
ghost use Rattle.session_meaning.specs.Calls.{RoleCall, frames_of, new_state, outcome_of, role_in};
ghost use Rattle.session_meaning.specs.Server as meant;
ghost use Rattle.value_store.specs.Markings.{HasLimit};
ghost use Rattle.value_store.specs.Nodes.{AreSound};
ghost use Rattle.value_store.specs.Overs.{own_nodes};
ghost use Rattle.value_store.specs.Standing.{ProverNodes};
ghost use Rattle.value_store.specs.Stores.{nodes_in, store_lent};
ghost use Rattle.value_store.specs.declared.node.Ref.{Ref};
ghost use Rattle.session_turns.specs.Settling.{IsMade};

use crate::commit::Commit;
use crate::running::Running;
use crate::settling::RunEnd;
use code_gen::Code;
use core_terms::{Hash32, Outcome, RoleId, RoleKind};
use reuse_buffer::Ring;
use std::alloc::{AllocError, Global};
use value_store::{Nodes, Over, Ref, Store, first_component};

/// The greatest number of bytes of the frames of a proof, behind the kind and the session in a message.
const MAX_FRAMES: usize = 16_777_213;

/// A call that has run, with its proof.
#[derive(Drop)]
pub struct Finished {
    /// The bytes of the frames of its proof.
    pub frames: Vec<u8>,
    /// The ring behind them.
    pub ring: Ring,
    pub ended: RunEnd,
}

/// The node of the state that a run of a role made; none where it made none.
pub fn state_made<N: Nodes>(
    code: &Code,
    role: RoleId,
    store: &N,
    outcome: Outcome<Ref>,
) -> Option<Ref>
    requires { let P = program_of code.now in (hash : Hash) × (o : ideal.Outcome)
        × IsOutcome (ProverNodes (digest_at hash P)) P.types (N.nodes store.now) (function_at P (role_in P role.0).function).result outcome o }
    ensures { let P = program_of code.now in (hash : Hash) (o : ideal.Outcome)
        → IsOutcome (ProverNodes (digest_at hash P)) P.types (N.nodes store.now) (function_at P (role_in P role.0).function).result outcome o
        → IsMade hash P (N.nodes store.now) result (meant_calls.state_made (role_in P role.0).kind o) }
{
    let Some(role) = code.program().roles().get(role.0) else {
        return None;
    };
    match outcome {
        Outcome::Done(value) => match role.kind {
            RoleKind::Update => Some(first_component(store, value)),
            RoleKind::Init | RoleKind::Query => None,
        },
        Outcome::Trapped(_) | Outcome::Out => None,
    }
}

impl<H: Hash32> Running<H> {
    ghost use Rattle.session_turns.specs.RoleRuns.{IsRunOf};
    ghost use Rattle.session_turns.specs.Running.{IsRunning};
    ghost use Rattle.session_turns.specs.Settling.{EndsSo};

    /// The end of a call that has run in a session on this version, whose ring is lent for its proof. `None` exactly where the frames of
    /// the proof have more than 16,777,213 bytes, which are too many for a message: the first frame that goes beyond is the last one that
    /// is written, and the ring is dropped.
    ///
    /// # Errors
    ///
    /// `AllocError` where there is no memory for the frames. The ring is dropped then.
    pub fn finish(
        self,
        alloc: Global,
        code: &Code,
        base: &Store,
        ring: Ring,
        version: usize,
        call: Commit,
    ) -> Result<Option<Finished>, AllocError>
        requires limit { HasLimit (program_of code.now) (store_lent base.now) }
        requires has_run { (outcome : Outcome Ref) × (self.last ≡ Ok (Some outcome)) }
        requires running { (state : Value) × (role_call : RoleCall) × (made : ℕ) × IsRunOf H.hash code.now (nodes_in base.now) self call state role_call made }
        ensures ends { let P = program_of code.now in IfOk result (λ end. IfSome end (λ end. (s : meant.Session) (state : Value) (role_call : RoleCall) (made : ℕ)
            → IsRunOf H.hash code.now (nodes_in base.now) self call state role_call made → version ≡ s.version → ring ≡ kept s.kept s.recent
            → let frames = frames_of H.hash P s.kept s.recent state role_call in
            (end.frames.items ≡ frame_bytes frames) × (end.ring ≡ kept s.kept (after_frames frames s.recent))
            × EndsSo H.hash P (nodes_in base.now) end.ended s role_call frames (new_state P role_call (outcome_of P state role_call)))) }
        ensures too_long { let P = program_of code.now in IfOk result (λ end. IfNone end ((s : meant.Session) (state : Value) (role_call : RoleCall) (made : ℕ)
            → IsRunOf H.hash code.now (nodes_in base.now) self call state role_call made → version ≡ s.version → ring ≡ kept s.kept s.recent
            → meant.fits_message (frames_of H.hash P s.kept s.recent state role_call) ≡ false)) }
        ensures version { IfOk result (λ end. IfSome end (λ end. end.ended.version ≡ version)) }
        ensures within { IfOk result (λ end. IfSome end (λ end. end.ended.from ≤ length (nodes_in base.now))) }
        ensures sound { IfOk result (λ end. IfSome end (λ end. AreSound base.now.limit (take end.ended.from (nodes_in base.now) ++ own_nodes end.ended.own))) }
        ensures made { IfOk result (λ end. IfSome end (λ end. IfSome end.ended.made (λ r. r.0 < end.ended.from + length (own_nodes end.ended.own)))) }
    {
        let Running {
            own,
            from,
            proving,
            last,
        } = self;
        let Ok(Some(outcome)) = last else {
            unreachable!()
        };
        let over = Over::on(base, own, from);
        let made = state_made(code, call.role, &over, outcome);
        let Some(told) = proving.finish_within(alloc, code, &over, ring, MAX_FRAMES)? else {
            return Ok(None);
        };
        let (proof, ring) = told;
        let ended = RunEnd {
            version,
            made,
            own: over.off(),
            from,
            call,
        };
        Ok(Some(Finished {
            frames: proof.bytes,
            ring,
            ended,
        }))
    }
}
