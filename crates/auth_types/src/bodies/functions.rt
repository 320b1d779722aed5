// The functions of a program, with their bodies.
ghost use Rattle.std.specs.Prelude.{◌≡◌, [], length, map, List, ℕ, All, IfOk, OnOk};
ghost use Rattle.core_terms.specs.Programs.{types_in};
ghost use Rattle.core_terms.specs.ProgramTrees.{function_of, kind_of, types_at};
ghost use Rattle.auth_syntax.specs.Trees as written;
ghost use Rattle.auth_types.specs.Bodies.{checked_function, checked_functions, parameter_locals};
ghost use Rattle.auth_types.specs.CheckedLaws.{HasGoodLiterals};
ghost use Rattle.declared_types.specs.DeclaredPrograms.{signature_of};
ghost use Rattle.auth_types.specs.Elaborators.{Keeps, functions_of, locals_of, scope_of, types_of};
ghost use Rattle.declared_types.specs.Findings.{Finds};
ghost use Rattle.declared_types.specs.OverTypes.{FindsOver, Grows};
ghost use Rattle.declared_types.specs.RoleKinds.{kind_meant};
ghost use Rattle.declared_types.specs.WrittenTypes.{type_meant};
ghost use Rattle.auth_syntax.specs.Syntax as syntax;
ghost use Rattle.declared_types.specs.Scopes.{AreHeadsOf, AreWithin, IsCounted, IsHeadWithin, IsWithin, functions_meant, scope_meant, signature_meant};

use crate::bodies::elaborator::Elaborator;
use auth_syntax::tree::{FunctionKind, Parameter};
use core_terms::{Function, Kind, Term, TyId, TyTable};
use declared_types::fault::TypeFault;
use declared_types::scope::{Head, Scope};
use std::alloc::{AllocError, Global};

/// The functions of a program, and the table of the types that they name.
#[derive(Drop)]
pub(crate) struct Bodies {
    pub types: TyTable,
    pub functions: Vec<Function>,
}

/// How a function may be entered.
fn kind(kind: FunctionKind) -> Kind
    ensures { kind_of result ≡ kind_meant (written.kind_of kind) }
{
    match kind {
        FunctionKind::Inner => Kind::Inner,
        FunctionKind::Init => Kind::Init,
        FunctionKind::Query => Kind::Query,
        FunctionKind::Update => Kind::Update,
    }
}

/// The function of a head, with this body.
fn with_body(alloc: Global, head: &Head<'_>, body: Box<Term>) -> Result<Function, AllocError>
    ensures name { IfOk result (λ f. f.name ≡ head.now.function.now.name.name) }
    ensures kind { IfOk result (λ f. kind_of f.kind ≡ kind_meant (written.kind_of head.now.function.now.kind)) }
    ensures parameters { IfOk result (λ f. f.parameters.items ≡ head.now.parameters.items) }
    ensures gives { IfOk result (λ f. f.result ≡ head.now.result) }
    ensures body { IfOk result (λ f. f.body ≡ body.value) }
{
    let name = head.function.name.name.copied(alloc)?;
    let parameters = head.parameters.to_vec(alloc)?;
    Ok(Function {
        name,
        kind: kind(head.function.kind),
        parameters,
        result: head.result,
        body: Box::into_inner(body),
    })
}

impl<'s, 'a> Elaborator<'s, 'a> {
    /// Binds the parameters of a function, whose types have these numbers, as the next locals.
    fn enter(&mut self, parameters: &'a [Parameter], types: &[TyId]) -> Result<(), AllocError>
        requires count { length types.now ≡ length parameters.now }
        requires within { AreWithin (length (types_of self.old)) types.now }
        ensures types { types_of self.new ≡ types_of self.old }
        ensures scope { scope_of self.new ≡ scope_of self.old }
        ensures locals { OnOk result ((names : List (List ℕ)) → locals_of self.old ≡ [] → types_at (types_of self.old) types.now ≡ map (λ (p : syntax.ParameterSyntax). type_meant (scope_of self.old).format names p.of_type) (map written.parameter_of parameters.now) → locals_of self.new ≡ parameter_locals (scope_of self.old).format names (map written.parameter_of parameters.now)) }
    {
        for (index, parameter) in parameters.iter().enumerate() {
            self.push(&parameter.name, types[index])?;
        }
        Ok(())
    }

    /// A function, with its body. No locals stand here before and behind.
    fn function(&mut self, head: &Head<'a>) -> Result<Function, TypeFault>
        requires within { IsHeadWithin (length (types_of self.old)) head.now }
        requires count { IsCounted head.now }
        requires locals { locals_of self.old ≡ [] }
        ensures keeps { OnOk result (Keeps self.old self.new) }
        ensures found { (names : List (List ℕ)) → signature_meant (types_of self.old) head.now ≡ signature_of (scope_of self.old).format names (written.function_of head.now.function.now) → FindsOver (types_of self.new) function_of (checked_function names (scope_of self.old) (written.function_of head.now.function.now)) result }
        ensures literals { OnOk result (HasGoodLiterals (written.expression_of head.now.function.now.body)) }
        ensures parameters { IfOk result (λ f. f.parameters.items ≡ head.now.parameters.items) }
        ensures gives { IfOk result (λ f. f.result ≡ head.now.result) }
    {
        let function = head.function;
        self.enter(&function.parameters, &head.parameters)?;
        let body = self.part(&function.body, head.result)?;
        self.close(0);
        Ok(with_body(self.alloc, head, body)?)
    }
}

/// The fourth pass: the functions of a scope over these types, in order, with their bodies.
///
/// # Errors
///
/// `At` with the first fault of the first body that has one, and `NoMemory` where there is no memory for the functions.
pub(crate) fn fourth_pass(
    alloc: Global,
    types: TyTable,
    scope: &Scope<'_>,
) -> Result<Bodies, TypeFault>
    requires within { IsWithin (length (types_in types)) scope.now }
    requires counts { All IsCounted scope.now.heads.items }
    ensures grows { IfOk result (λ bodies. Grows (types_in types) (types_in bodies.types)) }
    ensures format { IfOk result (λ bodies. bodies.types.format ≡ types.format) }
    ensures found { (names : List (List ℕ)) → AreHeadsOf types.format names (types_in types) scope.now → Finds (λ bodies. functions_of (types_in bodies.types) bodies.functions) (checked_functions names (scope_meant types.format (types_in types) scope.now) (functions_meant scope.now)) result }
    ensures parameters { IfOk result (λ bodies. map (λ (f : Function). f.parameters.items) bodies.functions.items ≡ map (λ (h : Head). h.parameters.items) scope.now.heads.items) }
    ensures results { IfOk result (λ bodies. map (λ (f : Function). f.result) bodies.functions.items ≡ map (λ (h : Head). h.result) scope.now.heads.items) }
    ensures literals { OnOk result (All (λ (f : syntax.FunctionSyntax). HasGoodLiterals f.body) (functions_meant scope.now)) }
{
    let mut elaborator = Elaborator::new(alloc, types, scope);
    let mut functions = Vec::new(alloc);
    for head in &scope.heads {
        functions.push(elaborator.function(head)?)?;
    }
    Ok(Bodies {
        types: elaborator.into_types(),
        functions,
    })
}
