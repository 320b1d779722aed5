//! The laws, each the contract of a function that does nothing.
ghost use Rattle.fetched_verdicts.specs.VerdictLaws.{AcceptsTheTruth, TellsTheTruth, VerdictsAreOverAnswers};

/// The verdict over a store is one over answers: those that the store gives in the run, each to the digest then held. It is the only one over
/// answers that a store gives so, where each piece that it gives has the digest.
pub fn over_answers()
    ensures { VerdictsAreOverAnswers }
{}

/// What is accepted over a store, whatever it answers, is true, and its answers are the honest pieces; or the first of them that differs from the
/// honest one has its digest.
pub fn headline()
    ensures { TellsTheTruth }
{}

/// Over a store that has a piece with the digest of each honest one the true outcome is accepted, or two different pieces have one digest.
pub fn complete()
    ensures { AcceptsTheTruth }
{}
