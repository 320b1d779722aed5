//! Laws over the definitions alone, each the contract of a function that does nothing.

ghost use Rattle.std.specs.Prelude.{Bool};
ghost use Rattle.core_terms.specs.Types.{Ty};
ghost use Rattle.core_terms.specs.Values.{Value};
ghost use Rattle.ideal_meaning.specs.Run.{Mode};
ghost use Rattle.ideal_meaning.specs.CodeTypes.{NeverStuck};
ghost use Rattle.ideal_meaning.specs.CodeAgreement.{CodeAgreement};
ghost use Rattle.ideal_meaning.specs.HeadlineLaws.{HeadlineOfFrames, Headline, Companion};
ghost use Rattle.ideal_meaning.specs.FollowingLaws.{CompanionOfFrames, NewPieceBoundIsEnough, NewPiecesAreReadBack, VerdictIsOnFrames};
ghost use Rattle.ideal_meaning.specs.Agreement.{Agreement};
ghost use Rattle.ideal_meaning.specs.FetchLaws.{FetchCompanion, FetchHeadline};
ghost use Rattle.ideal_meaning.specs.Laws.{BoundIsEnough, FrameBoundIsEnough, OneSplit, ProofFileIsReadBack};
ghost use Rattle.ideal_meaning.specs.Ring.{RingOfProver, RingOfVerifier};
ghost use Rattle.ideal_meaning.specs.Arrays.{ArrayTable};
ghost use Rattle.ideal_meaning.specs.Operations.{OperationTable};
ghost use Rattle.ideal_meaning.specs.Table.{IdealTable};

/// The headline: what a verifier accepts is true, or a collision of the hash is shown and its place named.
///
/// For each well-typed program, each function, ideal state and argument, fuel and proof, whoever made it: if the outcome
/// is accepted, then the offered pieces are the honest ones and the outcome is the projection of the ideal one, or the
/// first offered piece that differs from the honest one has its digest. Of the hash nothing is asked but 32 bytes.
/// `frames` says it of the frames of a proof alone, over whatever pieces were kept before. `file` says it of the bytes of
/// a proof file, given no more of the state and of the argument than the spellings of their projections.
pub fn headline()
    ensures frames { HeadlineOfFrames }
    ensures file { Headline }
{}

/// The headline's companion: the proof file of the honest pieces is accepted, with the projection of the ideal outcome.
///
/// The state and the argument are within the limits, and so is each authenticated value in the state; the ring size is
/// any that the format allows.
pub fn companion()
    ensures { Companion }
{}

/// Proofs that follow one another without headers, each over the new pieces of those before it.
///
/// `verdict` says that a file is judged as its frames are, before which nothing came. `accepted` is the companion of frames
/// alone, over whatever pieces came before; `pieces` says that honest frames leave on both sides the same new pieces, and
/// `bound` that the bound on the number of frames ends none of them.
pub fn following_proofs()
    ensures verdict { VerdictIsOnFrames }
    ensures accepted { CompanionOfFrames }
    ensures pieces { NewPiecesAreReadBack }
    ensures bound { NewPieceBoundIsEnough }
{}

/// Accepted code is never stuck, in any mode.
pub fn never_stuck<C, W>()
    ensures { (mode : Mode C W) (A : Ty → Value → Bool) → NeverStuck mode A }
{}

/// The ideal and the checked run of accepted code do the same, or part at one opening. No source is named.
pub fn code_agreement()
    ensures { CodeAgreement }
{}

/// The relation behind both: called on ideal values and on their projections, with the same fuel and whatever pieces are
/// offered, the ideal and the checked run do the same, or part at one opening.
pub fn agreement()
    ensures { Agreement }
{}

/// Pieces that are fetched, each by the digest that is held, from anybody.
///
/// `headline` says that what is accepted is true, or the first piece that differs from the honest one has its digest. `complete` says
/// that whoever has a piece with the digest of each honest one, and answers by that, has the true outcome accepted, or there is such a
/// piece.
pub fn fetched_pieces()
    ensures headline { FetchHeadline }
    ensures complete { FetchCompanion }
{}

/// The bound on nested calls never ends a run: in any mode, each bound that isn't below the fuel gives the same run.
pub fn bound<C, W>()
    ensures { BoundIsEnough C W }
{}

/// Two lists of pieces split at one place at most.
pub fn one_split()
    ensures { OneSplit }
{}

/// The ideal meaning is that of its table, rule by rule.
pub fn ideal_table()
    ensures { IdealTable }
{}

/// What the operations give, in the words of arithmetic and of byte strings. Sums, differences and products are exact; quotients
/// are truncated toward zero; texts are compared byte by byte, and their order is strict; each trap comes exactly where it says.
pub fn operations()
    ensures { OperationTable }
{}

/// What the operations on arrays give, in the words of lists.
pub fn arrays()
    ensures { ArrayTable }
{}

/// The bound on the number of frames never ends a proof: each bound that isn't below the number of bytes offers the same pieces.
pub fn frame_bound()
    ensures { FrameBoundIsEnough }
{}

/// A proof file of pieces within the limit has a good header and offers these pieces.
pub fn proof_file_read_back()
    ensures { ProofFileIsReadBack }
{}

/// The ring keeps new pieces alone. USE k names the k-th last of the new pieces so far, whatever was used in between, exactly
/// where k is below the ring size and below their number; an honest prover writes it with the least such k, else NEW.
pub fn ring()
    ensures verifier { RingOfVerifier }
    ensures prover { RingOfProver }
{}
