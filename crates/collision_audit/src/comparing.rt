// A proof, compared with what a run opened.
ghost use Rattle.std.specs.Prelude.{◌≡◌, ◌<◌, ◌^◌, ℕ, List, length, map, Option, Some, IfOk};
ghost use Rattle.std.specs.Option.{ForSome};
ghost use Rattle.core_terms.specs.Fronts.{AreFronts};
ghost use Rattle.core_terms.specs.ProgramTypes.{types_by_number, types_meaning};
ghost use Rattle.core_terms.specs.Projection.{digest_at, projection};
ghost use Rattle.core_terms.specs.Spelling.{spelling};
ghost use Rattle.core_terms.specs.TypeTables.{type_at};
ghost use Rattle.core_terms.specs.Values.{Value};
ghost use Rattle.ideal_meaning.specs.Frames.{Offer, header, offered};
ghost use Rattle.ideal_meaning.specs.Ideal as ideal;
ghost use Rattle.proof_stream.specs.Readers.{limit_of};
ghost use Rattle.value_store.specs.Standing.{ProverNodes, StandsFor};
ghost use Rattle.collision_audit.specs.Splits.{left_behind, rest_behind};
ghost use Rattle.collision_audit.specs.AuditsInCode.{AreLeft, AuditCause, StopsBehind};
ghost use Rattle.collision_audit.specs.Comparing.{Compares, ComparesAll, IsAhead, TellsDifference};
ghost use Rattle.collision_audit.specs.PieceAudits.{audit_file, audit_from, differing};
ghost use Rattle.prover_mode.specs.Seen.{AreSeen};

use crate::audited::{AuditFault, Audited, Collision};
use crate::offers::{Offered, Offers};
use core_terms::{Cause, Fronts, Hash32, Piece, Spelling, TyId, Types};
use lam_outside::Source;
use prover_mode::Opened;
use shallow_codec::spell;
use std::alloc::{AllocError, Global};
use value_store::{Nodes, Ref};

/// Compares a proof file with the honest pieces, which are the projections of what was opened, one after another: the answer where they
/// differ, or where bytes are left behind them; none where they are the same to the end. No frame behind the first piece that differs
/// is read.
pub(crate) fn compare_file<H: Hash32, S: Source, N: Nodes>(
    alloc: Global,
    types: &Types,
    fronts: &Fronts,
    store: &N,
    opened: &[Opened],
    proof: &mut S,
) -> Result<Option<Audited>, AuditFault>
    requires fronts { AreFronts H.hash types.now fronts.now }
    requires seen { (seen : List ideal.Opened) × AreSeen H.hash types.now (N.nodes store.now) opened.now seen }
    ensures compares { (seen : List ideal.Opened) → AreSeen H.hash types.now (N.nodes store.now) opened.now seen → ForSome (S.left proof.old) (λ bytes.
        let P = types_meaning types.now in
        ComparesAll (λ o. audit_file H.hash P.format o (map (ideal.honest_piece H.hash P) seen) (header P.format bytes) bytes) (rest_behind P.format bytes) (S.left proof.new) result) }
    ensures faults { AuditCause (S.faults proof.old) (S.faults proof.new) result }
    ensures rest { S.rest proof.new ≡ S.rest proof.old }
{
    match Offers::open(alloc, types, proof)? {
        Some(mut offers) => compare_to_end::<H, S, N>(
            alloc,
            types,
            fronts,
            store,
            opened,
            &mut offers,
            proof,
        ),
        None => Ok(Some(Audited::Rejected(Cause::Header))),
    }
}

/// Compares what is offered, and counts what is left behind it.
fn compare_to_end<H: Hash32, S: Source, N: Nodes>(
    alloc: Global,
    types: &Types,
    fronts: &Fronts,
    store: &N,
    opened: &[Opened],
    offers: &mut Offers,
    proof: &mut S,
) -> Result<Option<Audited>, AuditFault>
    requires fronts { AreFronts H.hash types.now fronts.now }
    requires seen { (seen : List ideal.Opened) × AreSeen H.hash types.now (N.nodes store.now) opened.now seen }
    ensures compares { (seen : List ideal.Opened) (count : ℕ) (o : Offer) → AreSeen H.hash types.now (N.nodes store.now) opened.now seen
        → IsAhead (limit_of offers.old.reader) offers.old.ring (S.left proof.old) count o
        → let P = types_meaning types.now in
        ComparesAll (λ outcome. audit_from H.hash P.format outcome 0 (map (ideal.honest_piece H.hash P) seen) count o) (left_behind o) (S.left proof.new) result }
    ensures faults { AuditCause (S.faults proof.old) (S.faults proof.new) result }
    ensures rest { S.rest proof.new ≡ S.rest proof.old }
{
    match compare::<H, S, N>(alloc, types, fronts, store, opened, offers, proof)? {
        Some(answer) => Ok(Some(answer)),
        None => offers.count_rest(proof),
    }
}

/// Takes one piece of the proof for each honest one, up to the first that differs.
fn compare<H: Hash32, S: Source, N: Nodes>(
    alloc: Global,
    types: &Types,
    fronts: &Fronts,
    store: &N,
    opened: &[Opened],
    offers: &mut Offers,
    proof: &mut S,
) -> Result<Option<Audited>, AuditFault>
    requires fronts { AreFronts H.hash types.now fronts.now }
    requires seen { (seen : List ideal.Opened) × AreSeen H.hash types.now (N.nodes store.now) opened.now seen }
    ensures compares { (seen : List ideal.Opened) (count : ℕ) (o : Offer) → AreSeen H.hash types.now (N.nodes store.now) opened.now seen
        → IsAhead (limit_of offers.old.reader) offers.old.ring (S.left proof.old) count o
        → let P = types_meaning types.now in
        Compares (λ outcome. audit_from H.hash P.format outcome 0 (map (ideal.honest_piece H.hash P) seen) count o) (left_behind o) (S.left proof.new) result }
    ensures faults { AuditCause (S.faults proof.old) (S.faults proof.new) result }
    ensures rest { S.rest proof.new ≡ S.rest proof.old }
{
    let mut place: u64 = 0;
    for one in opened {
        let honest = projected::<H, N>(alloc, types, store, one.ty, one.value)?;
        match offers.take(proof, place, honest.as_bytes())? {
            Offered::Same => place += 1,
            Offered::Other(piece) => {
                return Ok(Some(answer_to::<H>(types, fronts, one.ty, place, piece, honest)));
            }
            Offered::Ended(cause) => return Ok(Some(Audited::Rejected(cause))),
        }
    }
    Ok(None)
}

/// The spelling of the projection of what a prover's node stands for.
fn projected<H: Hash32, N: Nodes>(
    alloc: Global,
    types: &Types,
    store: &N,
    ty: TyId,
    value: Ref,
) -> Result<Spelling, AllocError>
    requires stands { let P = types_meaning types.now in
        (v : Value) × StandsFor (ProverNodes (digest_at H.hash P)) P.types (N.nodes store.now) value.0 (type_at (types_by_number types.now) ty) v }
    ensures { let P = types_meaning types.now in
        IfOk result (λ bytes. (v : Value) → StandsFor (ProverNodes (digest_at H.hash P)) P.types (N.nodes store.now) value.0 (type_at (types_by_number types.now) ty) v
        → bytes ≡ spelling (projection H.hash P (type_at (types_by_number types.now) ty) v)) }
{
    spell(alloc, types, store, value, ty)
}

/// The answer to two pieces that differ: a collision where they have one digest, else a rejection.
fn answer_to<H: Hash32>(
    types: &Types,
    fronts: &Fronts,
    ty: TyId,
    place: u64,
    piece: Vec<u8>,
    honest: Spelling,
) -> Audited
    requires fronts { AreFronts H.hash types.now fronts.now }
    ensures tells { TellsDifference (differing H.hash (types_meaning types.now).format place
        (record { ty = type_at (types_by_number types.now) ty; bytes = honest }) piece.items) result }
    ensures stops { (behind : ℕ → Option ℕ) (left : Option (List ℕ)) → AreLeft (behind place) left → StopsBehind behind left result }
{
    let want = H::of_pair(fronts.front(ty), honest.as_bytes());
    let found = H::of_pair(fronts.front(ty), &piece);
    if found.0.as_slice() != want.0.as_slice() {
        return Audited::Rejected(Cause::WrongPiece(place, want, found));
    }
    Audited::Collision(Collision {
        place,
        offered: Piece::new(piece),
        honest: Piece::new(honest.into_bytes()),
        print: fronts.print(ty),
    })
}
