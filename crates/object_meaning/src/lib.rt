//! Objects: programs as code, without a source.
//!
//! `specs/` has the definitions, in this order: what an object is (`Objects`), its bytes (`ObjectBytes`), how bytes are read
//! (`Readers`, `ReadObjects`), what an object means, as code and as a program of the definitions (`ObjectBodies`), which bytes are
//! accepted, and else the first fault (`Accepting`), and the object that is written of a program (`WrittenObjects`). They are held to
//! the laws in `KindLaws` and `ObjectLaws`, with `WellFormedObjects`, `ClosedPrograms` and `EmittablePrograms` for the premises, and to
//! rows that compute (`ObjectRows`). Nothing here runs: [`laws`] has the theorems over these definitions.
#![tactic(auto)]

pub mod laws;
