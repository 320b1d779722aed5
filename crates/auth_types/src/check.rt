// The four passes over the tree of a program.
ghost use Rattle.std.specs.Prelude.{◌≡◌, IfOk};
ghost use Rattle.core_terms.specs.Programs.{meaning, type_names};
ghost use Rattle.auth_syntax.specs.Trees as written;
ghost use Rattle.auth_types.specs.CheckedPrograms as specified;
ghost use Rattle.auth_types.specs.CheckedPrograms.{checked};
ghost use Rattle.auth_types.specs.Outcomes.{Checks};
ghost use Rattle.declared_types.specs.DeclaredPrograms.{constructors_in, names_of};
ghost use Rattle.declared_types.specs.Findings.{Finds};
ghost use Rattle.declared_types.specs.ScopeNames.{constructors_meant};

use crate::bodies::fourth_pass;
use auth_syntax::tree::Ast;
use core_terms::{Digest, Program};
use declared_types::fault::TypeFault;
use declared_types::passes::{Shaped, checked_scope, known_names};
use declared_types::scope::Scope;
use std::alloc::Global;

/// The program of a tree, whose text has this digest. Names and texts are copied into it. It has the named types of the tree, with
/// their names and those of their constructors, in the order of declaration.
///
/// # Errors
///
/// `At` with the first fault, by place, of the first pass that has one, and `NoMemory` where there is no memory for the program.
pub fn check(alloc: Global, ast: &Ast, digest: Digest) -> Result<Program, TypeFault>
    ensures answer { Checks (checked (written.program_of ast.now)) result }
    ensures digest { IfOk result (λ p. p.text_digest ≡ digest) }
    ensures types { IfOk result (λ p. type_names p.types.named.items ≡ names_of (written.program_of ast.now)) }
    ensures constructors { IfOk result (λ p. constructors_meant p.types.named.items ≡ constructors_in (written.declarations_of ast.now.declarations)) }
{
    all_passes(alloc, ast, digest)
}

/// One pass after another.
fn all_passes(alloc: Global, ast: &Ast, digest: Digest) -> Result<Program, TypeFault>
    ensures answer { Finds meaning (specified.all_passes (written.program_of ast.now)) result }
    ensures digest { IfOk result (λ p. p.text_digest ≡ digest) }
    ensures types { IfOk result (λ p. type_names p.types.named.items ≡ names_of (written.program_of ast.now)) }
    ensures constructors { IfOk result (λ p. constructors_meant p.types.named.items ≡ constructors_in (written.declarations_of ast.now.declarations)) }
{
    let declared = known_names(alloc, ast)?;
    let Shaped {
        types,
        scope,
        state,
    } = checked_scope(alloc, ast, declared)?;
    let bodies = fourth_pass(alloc, Box::into_inner(types), &scope)?;
    let Scope { named, .. } = Box::into_inner(scope);
    Ok(Program::new(bodies.types, named, state, bodies.functions, digest, alloc)?)
}
