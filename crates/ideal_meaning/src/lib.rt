//! The meanings of a program, ideal and checked, and what ties them.
//!
//! `specs/` has the definitions, in this order: what an expression and what code means under any meaning of `auth` and `unauth`
//! (`Run`, `Execution`), the ideal meaning and the honest pieces of a run (`Ideal`), proof files (`Frames`), the split
//! (`SplitPieces`), what the headline says (`Headline`), the checked meaning and the verdict of a verifier (`Checked`), the laws of
//! the headline and its companion (`HeadlineLaws`), proofs that follow one another (`Following`), pieces that are fetched (`Fetched`),
//! and the relation of the two runs behind them (`Agreement`).
//! They are held to a second statement each: the ideal meaning's table of rules (`Table`), the operations in the words of
//! arithmetic and of byte strings (`Operations`), the ring of kept pieces in plain words (`Ring`) and further laws (`Laws`);
//! and to examples and rows, which compute (`Example..`, `..Rows`, `Library` and its runs).
//! Nothing here runs: [`laws`] has the theorems over these definitions.
#![tactic(auto)]

pub mod laws;
