//! The laws of the definitions in `specs/`: each is a function without parameters, whose contract is the law.
ghost use Rattle.call_commands.specs.ShallowLaws.{ShallowStoresTheClientsState};
ghost use Rattle.call_commands.specs.VerdictLaws.{VerdictsAreOnProofs};

/// The verdict that `verify` tells is one on the proof: where the state is read and the argument is a literal, there is none on
/// them.
pub fn verdicts_are_on_proofs()
    ensures { VerdictsAreOnProofs }
{}

/// Where words of `prove` name a call, `shallow` on the same text and image stores the spelling of the state that the client of this call holds:
/// it is what `verify` reads with the proof.
pub fn shallow_stores_the_clients_state()
    ensures { ShallowStoresTheClientsState }
{}
