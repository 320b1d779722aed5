// The parts of a compiled program, before it is one.
ghost use Rattle.std.specs.Prelude.{◌≡◌, true, length};
ghost use Rattle.std.proofs.Props.{props};
ghost use Rattle.core_terms.specs.ProgramTrees.{is_within};
ghost use Rattle.core_terms.specs.TypeNames.{AreNamed};
ghost use Rattle.core_terms.specs.TypeTables.{types_of_forms};
ghost use Rattle.code_check.specs.CodeTypes.{is_code_within};

use core_terms::{Function, Instruction, NamedType, TyId, TyTable};

/// The types of a program in a table, its named types, the type of its state, its functions, and their code. All types that functions and
/// code name are in the table, and no instruction is one of arrays.
#[derive(Drop)]
pub struct Parts {
    pub types: TyTable,
    pub named: Vec<NamedType>,
    pub state: TyId,
    pub functions: Vec<Function>,
    pub code: Vec<Vec<Instruction>>,
    ghost within: { is_within types.forms.keys named.items state functions.items ≡ true },
    ghost code_within: { is_code_within (length (types_of_forms types.forms.keys)) code.items ≡ true },
    ghost names: { AreNamed named.items } by { Prim.hlevel props },
}
