//! Laws over the definitions of an audit, each the contract of a function that does nothing.
ghost use Rattle.collision_audit.specs.AuditLaws.{AgreementIsTrue, AuditShowsCollision, EndsWithItsFrame, EndsWithTheDifference, NoSplitIsFound, SplitIsFound, VerdictIsOnProof};
ghost use Rattle.collision_audit.specs.PieceLaws.{AuditIsByPieces};

/// The headline with its pair. What a verifier accepts is true, or the audit of the same call shows the first offered piece that
/// differs from the honest one and has its digest. And what an audit agrees on is true.
pub fn headline()
    ensures shown { AuditShowsCollision }
    ensures agreed { AgreementIsTrue }
{}

/// The split that an audit finds is that of the headline, with its two pieces; and none is found exactly where there is none.
pub fn splits()
    ensures found { SplitIsFound }
    ensures none { NoSplitIsFound }
{}

/// A collision depends on no byte behind its frame: whatever follows there, the audit shows it. And whatever its digest, nothing
/// behind the first offered piece that differs from the honest one matters to the answer.
pub fn front()
    ensures collision { EndsWithItsFrame }
    ensures difference { EndsWithTheDifference }
{}

/// Of a state and an argument within the limits an audit comes to no verdict: it is one on the proof.
pub fn verdicts()
    ensures { VerdictIsOnProof }
{}

/// An audit, which is defined by the verdict of a verifier, is one piece by piece: no verifier needs to run.
pub fn by_pieces()
    ensures { AuditIsByPieces }
{}
