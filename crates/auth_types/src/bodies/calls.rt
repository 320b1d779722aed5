// What calls, constructors and matches name, before their parts are elaborated.
ghost use Rattle.std.specs.Prelude.{◌≡◌, ◌<◌, [], length, map, slice_get, unwrap_or, IfOk, List, OnOk};
ghost use Rattle.core_terms.specs.ProgramTrees.{expression_of};
ghost use Rattle.core_terms.specs.Types.{Ty, fields_at};
ghost use Rattle.core_terms.specs.TypeTables.{type_at};
ghost use Rattle.auth_syntax.specs.Trees as written;
ghost use Rattle.auth_types.specs.Applications.{Applies, applied_expression};
ghost use Rattle.auth_types.specs.Bodies.{arm_names, same_names};
ghost use Rattle.declared_types.specs.Signatures.{constructor_named, function_named};
ghost use Rattle.declared_types.specs.Scopes.{AreWithin, function_meant};
ghost use Rattle.auth_types.specs.Elaborators.{Calls, Constructs, Keeps, Matches, row_of, scope_of, types_of};

use crate::bodies::elaborator::Elaborator;
use auth_syntax::tree::Arm;
use core_terms::{Constructor, FunctionId, Name, NamedId, Term, TyForm, TyId};
use declared_types::fault::{TypeFault, TypeKind};
use declared_types::scope::ConstructorId;
use lexemes::place::Place;

/// Names of functions, or of constructors.
#[derive(Clone, Copy)]
pub(super) enum Space {
    Functions,
    Constructors,
}

/// What stands before expressions in a row.
#[derive(Clone, Copy)]
pub(super) enum Applied {
    Function(FunctionId),
    Constructor(ConstructorId),
}

/// A function or a constructor, with the numbers of the types of its parts and of the whole.
#[derive(Clone, Copy)]
pub(super) struct Callee<'s> {
    pub applied: Applied,
    pub types: &'s [TyId],
    pub ty: TyId,
}

/// The term of a function or a constructor with these terms behind it.
pub(super) fn applied_term(applied: Applied, terms: Vec<Term>) -> Term
    ensures { (types : List Ty) → expression_of types result ≡ applied_expression applied (row_of types terms) }
{
    match applied {
        Applied::Function(id) => Term::Call(id, terms),
        Applied::Constructor(id) => Term::Constructor(id.named, id.tag, terms),
    }
}

/// Whether the arms are of these constructors, in order.
fn are_of(arms: &[Arm], constructors: &[Constructor]) -> bool
    ensures { result ≡ same_names (arm_names (written.arms_in_a_row (map written.arm_of arms.now))) (map (λ (c : Constructor). c.name) constructors.now) }
{
    if arms.len() != constructors.len() {
        return false;
    }
    for (index, arm) in arms.iter().enumerate() {
        if arm.constructor.name != constructors[index].name {
            return false;
        }
    }
    true
}

impl<'s, 'a> Elaborator<'s, 'a> {
    /// What a name of this space at this place stands for, which has so many parts.
    pub(super) fn named(
        &mut self,
        space: Space,
        at: Place,
        name: &Name,
        count: usize,
    ) -> Result<Callee<'s>, TypeFault>
        ensures keeps { OnOk result (Keeps self.old self.new) }
        ensures found { Applies (scope_of self.old) space at name.now count (types_of self.new) result }
        ensures count { IfOk result (λ callee. count ≡ length callee.types.now) }
        ensures within { IfOk result (λ callee. AreWithin (length (types_of self.new)) callee.types.now) }
        ensures inside { IfOk result (λ callee. callee.ty.0 < length (types_of self.new)) }
    {
        match space {
            Space::Functions => {
                let id = self.callee(at, name, count)?;
                let head = self.scope.head(id);
                Ok(Callee {
                    applied: Applied::Function(id),
                    types: &head.parameters,
                    ty: head.result,
                })
            }
            Space::Constructors => {
                let id = self.maker(at, name, count)?;
                let types = self.scope.fields(id);
                let ty = self.intern(TyForm::NamedForm(id.named))?;
                Ok(Callee {
                    applied: Applied::Constructor(id),
                    types,
                    ty,
                })
            }
        }
    }

    /// The function that a call at this place names, which has so many parameters.
    fn callee(&self, at: Place, name: &Name, count: usize) -> Result<FunctionId, TypeFault>
        ensures found { Calls at count (function_named 0 (scope_of self.now).functions name.now) (function_meant (types_of self.now) self.now.scope.now) result }
        ensures count { IfOk result (λ id. count ≡ length (function_meant (types_of self.now) self.now.scope.now id).value.parameters) }
        ensures inside { IfOk result (λ id. id.0 < length self.now.scope.now.heads.items) }
    {
        let Some(id) = self.scope.function(name) else {
            return Err(TypeFault::At(TypeKind::UnknownName, at));
        };
        if count != self.scope.head(id).parameters.len() {
            return Err(TypeFault::At(TypeKind::WrongCount, at));
        }
        Ok(id)
    }

    /// The constructor of a name at this place, which has so many fields.
    fn maker(&self, at: Place, name: &Name, count: usize) -> Result<ConstructorId, TypeFault>
        ensures found { Constructs at count (scope_of self.now).table (constructor_named 0 (scope_of self.now).constructors name.now) result }
        ensures count { IfOk result (λ id. count ≡ length (unwrap_or (fields_at (scope_of self.now).table id.named.0 id.tag.0) [])) }
    {
        let Some(id) = self.scope.constructor(name) else {
            return Err(TypeFault::At(TypeKind::UnknownName, at));
        };
        if count != self.scope.fields(id).len() {
            return Err(TypeFault::At(TypeKind::WrongCount, at));
        }
        Ok(id)
    }

    /// The named type that a match at this place takes apart, by arms of its constructors. What is matched stands at `subject`.
    pub(super) fn taken_apart(
        &self,
        at: Place,
        subject: Place,
        ty: TyId,
        arms: &[Arm],
    ) -> Result<NamedId, TypeFault>
        ensures found { Matches (scope_of self.now) at subject (type_at (types_of self.now) ty) (arm_names (written.arms_in_a_row (map written.arm_of arms.now))) result }
        ensures count { IfOk result (λ named. length arms.now ≡ length (unwrap_or (slice_get (scope_of self.now).table named.0) [])) }
    {
        let TyForm::NamedForm(named) = self.form(ty) else {
            return Err(TypeFault::At(TypeKind::NotSum, subject));
        };
        if !are_of(arms, self.scope.constructors(named)) {
            return Err(TypeFault::At(TypeKind::ArmsWrong, at));
        }
        Ok(named)
    }
}
