//! Rows for the definitions of `core_terms` and `ideal_meaning`: what a definition gives at cases that no row beside it has.
//!
//! Both crates have rows of their own. Those here stand above them, so that a new row leaves proved what stands on these
//! crates. `specs/` has them by what they are about, and `proofs/` has under the same name that they hold.
#![tactic(auto)]

ghost use Rattle.definition_rows.specs.ArrayRows.{ArrayRows};
ghost use Rattle.definition_rows.specs.ArrayVerdictRows.{ArrayVerdictRows};
ghost use Rattle.definition_rows.specs.CauseRows.{CauseRows};
ghost use Rattle.definition_rows.specs.EndRows.{EndRows};
ghost use Rattle.definition_rows.specs.FaultRows.{FaultRows};
ghost use Rattle.definition_rows.specs.FetchedRows.{FetchedRows};
ghost use Rattle.definition_rows.specs.FormatRows.{FormatRows};
ghost use Rattle.definition_rows.specs.FrontRows.{FrontRows};
ghost use Rattle.definition_rows.specs.HeadlineRows.{HeadlineRows};
ghost use Rattle.definition_rows.specs.IntRows.{IntRows};
ghost use Rattle.definition_rows.specs.MarkRows.{MarkRows};
ghost use Rattle.definition_rows.specs.PartRows.{PartRows};
ghost use Rattle.definition_rows.specs.PieceRows.{PieceRows};
ghost use Rattle.definition_rows.specs.RingRows.{RingRows};
ghost use Rattle.definition_rows.specs.RoleRows.{RoleRows};
ghost use Rattle.definition_rows.specs.RuleRows.{RuleRows};
ghost use Rattle.definition_rows.specs.SecondFormatRows.{SecondFormatRows};
ghost use Rattle.definition_rows.specs.SpellingRows.{SpellingRows};
ghost use Rattle.definition_rows.specs.TermRows.{TermRows};
ghost use Rattle.definition_rows.specs.TreeRows.{TreeRows};
ghost use Rattle.definition_rows.specs.TypeRows.{TypeRows};
ghost use Rattle.definition_rows.specs.ValueRows.{ValueRows};
ghost use Rattle.definition_rows.specs.VerdictRows.{VerdictRows};

/// The rows of `core_terms`: types, formats, values and their spellings, programs of the code, marks and roles, terms and typing rules, faults, arrays, fingerprints.
pub fn core_terms_rows()
    ensures types { TypeRows }
    ensures formats { FormatRows }
    ensures values { ValueRows }
    ensures spellings { SpellingRows }
    ensures trees { TreeRows }
    ensures marks { MarkRows }
    ensures roles { RoleRows }
    ensures terms { TermRows }
    ensures rules { RuleRows }
    ensures faults { FaultRows }
    ensures arrays { ArrayRows }
    ensures fronts { FrontRows }
{}

/// The rows of `ideal_meaning`: how runs end, the words of the headline and of the ring, verdicts, offered, new and fetched pieces, causes, ints and texts, and the parts of values of another form.
pub fn ideal_meaning_rows()
    ensures ends { EndRows }
    ensures headline { HeadlineRows }
    ensures ring { RingRows }
    ensures verdicts { VerdictRows }
    ensures pieces { PieceRows }
    ensures causes { CauseRows }
    ensures fetched { FetchedRows }
    ensures ints { IntRows }
    ensures parts { PartRows }
{}

/// The rows of both on the second format.
pub fn second_format_rows()
    ensures { SecondFormatRows }
{}

/// The rows of both on arrays: verdicts, and runs at the limits.
pub fn array_rows()
    ensures { ArrayVerdictRows }
{}
