//! Types, terms and programs of lambda-auth, digests, and the outcomes of a run.
//!
//! `specs/` has what they mean: values, spellings and projections, expressions, typing and roles.
#![tactic(auto)]

pub mod byte_string;
pub mod cause;
pub mod digest;
pub mod fault;
pub mod format;
pub mod fronts;
pub mod instruction;
pub mod items;
pub mod laws;
pub mod limits;
mod marks;
pub mod outcome;
pub mod program;
pub mod program_types;
pub mod roles;
pub mod term;
mod type_texts;
pub mod types;

pub use byte_string::{ByteString, Piece, Spelling};
pub use cause::Cause;
pub use digest::{Digest, Hash32};
pub use fault::Fault;
pub use format::Format;
pub use fronts::Fronts;
pub use instruction::Instruction;
pub use items::item_types;
pub use limits::{MOST_FILE_BYTES, MOST_FUEL, MOST_PROGRAM_BYTES, OBJECT_MAGIC};
pub use marks::{auth_marks, is_marked};
pub use outcome::{Outcome, Trap};
pub use program::{FunctionId, Program};
pub use program_types::Types;
pub use roles::{Role, RoleId, RoleKind};
pub use term::{
    Arith, BinaryOperator, Compare, Constructor, Function, Kind, LocalId, Name, NameRef, NamedType,
    Operation, Term, Text, TextCompare,
};
pub use types::{NamedId, Tag, TyForm, TyId, TyTable};
