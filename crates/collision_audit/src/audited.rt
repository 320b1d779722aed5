// What an audit comes to.
ghost use Rattle.std.specs.Prelude.{◌≡◌};
ghost use Rattle.collision_audit.specs.declared.audited.AuditFault.TheVariants as audit_fault;

use core_terms::{Cause, Digest, Outcome, Piece, Spelling};
use lam_outside::Failed;
use std::alloc::AllocError;

/// Two pieces that differ and have one digest, at the type at which the honest one is opened.
#[derive(Drop)]
pub struct Collision {
    /// The number of the piece, from 0, as pieces are asked for.
    pub place: u64,
    /// What the proof offers.
    pub offered: Piece,
    /// What an honest prover writes.
    pub honest: Piece,
    /// The fingerprint of that type, which the digest tells; none in the first format, whose digests tell no type.
    pub print: Option<Digest>,
}

/// What an audit of a proof comes to.
#[derive(Drop)]
pub enum Audited {
    /// The proof is accepted with this outcome, which is true.
    Agrees(Outcome<Spelling>),
    /// The proof offers another piece with the digest of the honest one: a collision of the hash.
    Collision(Collision),
    /// The proof is rejected, for this cause.
    Rejected(Cause),
}

/// Why an audit comes to nothing.
#[derive(Clone, Copy)]
pub enum AuditFault {
    /// The source of the proof failed, and its count of faults rose.
    ReadFault,
    /// Memory was wanting.
    NoMemory,
}

impl From<Failed> for AuditFault {
    ghost from_gives = { λ _ result. result ≡ audit_fault.ReadFault };

    fn from(_: Failed) -> Self {
        AuditFault::ReadFault
    }
}

impl From<AllocError> for AuditFault {
    ghost from_gives = { λ _ result. result ≡ audit_fault.NoMemory };

    fn from(_: AllocError) -> Self {
        AuditFault::NoMemory
    }
}
