// The first three passes over the tree of a program.
ghost use Rattle.std.specs.Prelude.{◌≡◌, ◌≢◌, ℕ, List, [], IfOk, map};
ghost use Rattle.core_terms.specs.Programs.{types_in};
ghost use Rattle.core_terms.specs.declared.format.Format.{Format};
ghost use Rattle.auth_syntax.specs.Trees as written;
ghost use Rattle.declared_types.specs.Checking.{Sound};
ghost use Rattle.declared_types.specs.Declarations.{checked_declarations, nothing_declared};
ghost use Rattle.declared_types.specs.DeclaredNames.{declared_of};
ghost use Rattle.declared_types.specs.DeclaredPrograms as specified;
ghost use Rattle.declared_types.specs.DeclaredPrograms.{first_state};
ghost use Rattle.declared_types.specs.Findings.{Finds};
ghost use Rattle.declared_types.specs.Passes.{TableStandsFor, names_known};
ghost use Rattle.declared_types.specs.WrittenTypes.{states_in, type_meant};

use crate::declarations::{Declared, first_pass};
use crate::fault::TypeFault;
use crate::numbering::{declared_scope, number};
use crate::roles::third_pass;
use crate::scope::Scope;
use crate::written_types::second_pass;
use auth_syntax::tree::{Ast, Declaration, TypeTree};
use core_terms::{Format, TyId, TyTable};
use std::alloc::Global;

/// What a program declares for its bodies: its types by number, its scope, and the number of its state's type.
#[derive(Drop)]
pub struct Shaped<'a> {
    pub types: Box<TyTable>,
    pub scope: Box<Scope<'a>>,
    pub state: TyId,
}

/// The first two passes: the names that a tree declares, where they find nothing.
///
/// # Errors
///
/// `At` with the first fault, by place, of the first pass, and where that finds none, of the second. `NoMemory` where there is no memory
/// for the names.
pub fn known_names(alloc: Global, ast: &Ast) -> Result<Box<Declared<'_>>, TypeFault>
    ensures found { Finds (λ _. tt) (names_known (written.program_of ast.now)) result }
    ensures declared { IfOk result (λ declared. checked_declarations nothing_declared (written.declarations_of ast.now.declarations) ≡ Sound (declared_of declared.value)) }
{
    let declared = first_pass(alloc, &ast.declarations, ast.end)?;
    second_pass(format_of(ast), &declared.types, &ast.declarations)?;
    Ok(declared)
}

/// The format of a program, which is the first where it tells none.
fn format_of(ast: &Ast) -> Format
    ensures { result ≡ specified.format_of (written.program_of ast.now) }
{
    ast.format.unwrap_or(Format::First)
}

/// The third pass, over a tree that declares these names: what it declares for its bodies.
///
/// # Errors
///
/// `At` with the fault of the first role that has one, and `NoMemory` where there is no memory for the types, the names or the heads.
pub fn checked_scope<'a>(
    alloc: Global,
    ast: &'a Ast,
    declared: Box<Declared<'a>>,
) -> Result<Shaped<'a>, TypeFault>
    requires known { names_known (written.program_of ast.now) ≡ Sound tt }
    requires declared { checked_declarations nothing_declared (written.declarations_of ast.now.declarations) ≡ Sound (declared_of declared.value) }
    ensures found { Finds (λ _. tt) (specified.third_pass (written.program_of ast.now)) result }
    ensures format { IfOk result (λ shaped. shaped.types.value.format ≡ specified.format_of (written.program_of ast.now)) }
    ensures shaped { IfOk result (λ shaped. TableStandsFor (written.program_of ast.now) (types_in shaped.types.value) shaped.scope.value shaped.state) }
{
    let mut types = Box::new(alloc, TyTable::new(format_of(ast), alloc))?;
    let state = number(
        &mut types,
        &declared.types,
        declared_state(&ast.declarations),
    )?;
    let scope = declared_scope(alloc, &mut types, declared, &ast.declarations)?;
    third_pass(alloc, &types, &scope, state)?;
    Ok(Shaped {
        types,
        scope,
        state,
    })
}

/// The written type of the first state, where there is one.
fn declared_state(declarations: &[Declaration]) -> &TypeTree
    requires { states_in (map written.declaration_of declarations.now) ≢ [] }
    ensures { (format : Format) (names : List (List ℕ)) → type_meant format names (written.type_of result.now) ≡ first_state format names (states_in (map written.declaration_of declarations.now)) }
{
    for declaration in declarations {
        if let Declaration::State(_, tree) = declaration {
            return tree;
        }
    }
    unreachable!()
}
