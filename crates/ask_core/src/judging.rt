// What follows of the proof of a call.
ghost use Rattle.std.specs.Prelude.{◌≡◌, ◌≢◌, IfOk};
ghost use Rattle.mode_vm.specs.Meanings.{program_of};
ghost use Rattle.session_meaning.specs.Messages.{Proof};
ghost use Rattle.verifier_mode.specs.declared.verdict.Verdict.TheVariants.{ReadFault};
ghost use Rattle.ask_core.specs.Replies.{IsRefused, IsReplied};
ghost use Rattle.ask_core.specs.declared.standing.Standing.TheVariants.{Calling};

use crate::asked::Asked;
use crate::checks::role_called;
use crate::replied::Replied;
use crate::standing::{Known, Standing};
use crate::states::state_behind;
use crate::told::{AskFault, Told};
use code_gen::Code;
use core_terms::{Hash32, Piece};
use lam_outside::Bytes;
use std::alloc::{AllocError, Global};
use verifier_mode::{Verdict, verify_on};
use wire_form::kinds::PROOF;

/// What follows of the frames of a proof of a call, judged on the ring of its session.
pub fn proof_replied<H: Hash32>(
    alloc: Global,
    code: &Code,
    session: u16,
    known: Known,
    asked: &Asked,
    frames: &Piece,
) -> Result<Replied, AllocError>
    ensures { IfOk result (IsReplied H.hash (program_of code.now) (Calling known asked.now) (Proof session frames.now)) }
{
    let role = match role_called(code.program(), asked.role) {
        Some(role) => role,
        // No call of another role is sent.
        None => return Ok(Replied::wrong(PROOF)),
    };
    let Known { state, ring } = known;
    let mut proof = Bytes::new(frames.as_bytes());
    let judged = verify_on::<H, Bytes>(
        alloc,
        code,
        role.function,
        state.as_bytes(),
        asked.argument.as_bytes(),
        asked.fuel,
        &mut proof,
        ring,
    );
    match judged {
        Ok((outcome, ring)) => {
            let state = state_behind(alloc, code.program(), role, state, &outcome)?;
            Ok(Replied {
                standing: Some(Standing::Idle(Known { state, ring })),
                told: Ok(Told::Outcome(outcome)),
            })
        }
        Err(verdict) => refused_by(session, verdict),
    }
}

/// What follows of a verdict that isn't an outcome, on a source that doesn't fail.
fn refused_by(session: u16, verdict: Verdict) -> Result<Replied, AllocError>
    requires { verdict ≢ ReadFault }
    ensures { IfOk result (IsRefused session verdict) }
{
    match verdict {
        Verdict::Rejected(cause) => Ok(Replied {
            standing: Some(Standing::FailedBy(cause)),
            told: Err(AskFault::Rejected(session, cause)),
        }),
        Verdict::BadState(offset) => Ok(Replied {
            standing: None,
            told: Err(AskFault::BadState(offset)),
        }),
        Verdict::BadArgument(offset) => Ok(Replied {
            standing: None,
            told: Err(AskFault::BadArgument(offset)),
        }),
        Verdict::ReadFault => unreachable!(),
        Verdict::NoMemory => Err(AllocError),
    }
}
