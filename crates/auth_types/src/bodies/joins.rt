// Pairs, operations on two operands and `let`: of two expressions the second stands behind the first.
ghost use Rattle.std.specs.Prelude.{◌≡◌, ◌<◌, length, take, IfOk, OnOk};
ghost use Rattle.core_terms.specs.TypeTables.{type_at};
ghost use Rattle.core_terms.specs.Terms.{Expression};
ghost use Rattle.auth_types.specs.Bodies as specified;
ghost use Rattle.auth_types.specs.Bodies.{binary_expression, operand_type, result_type, typed, wanted};
ghost use Rattle.auth_types.specs.Joins.{inner_locals, joined};
ghost use Rattle.auth_types.specs.Elaborators.{Keeps, boxed_of, locals_of, scope_of, typed_of, types_of};
ghost use Rattle.declared_types.specs.Checking.{Checking, then_checked};
ghost use Rattle.declared_types.specs.Findings.{Finds};
ghost use Rattle.declared_types.specs.OverTypes.{FindsOver, Grows, Shows};

use crate::bodies::Typed;
use crate::bodies::elaborator::Elaborator;
use auth_syntax::tree::PlacedName;
use core_terms::{BinaryOperator, Term, TyId};
use declared_types::fault::TypeFault;
use lexemes::place::Place;

/// What joins two expressions.
#[derive(Clone, Copy)]
pub(super) enum Join<'a> {
    Pair,
    Operation(BinaryOperator),
    Let(&'a PlacedName),
}

impl<'s, 'a> Elaborator<'s, 'a> {
    /// Goes on behind the first of two, which stands at this place and has this type.
    pub(super) fn between(&mut self, join: Join<'a>, at: Place, ty: TyId) -> Result<(), TypeFault>
        requires { ty.0 < length (types_of self.old) }
        ensures grows { OnOk result (Grows (types_of self.old) (types_of self.new)) }
        ensures scope { OnOk result (scope_of self.new ≡ scope_of self.old) }
        ensures found { Finds (λ _. locals_of self.new) (inner_locals join.entry (locals_of self.old) at (type_at (types_of self.old) ty)) result }
        ensures outer { OnOk result (take (length (locals_of self.old)) (locals_of self.new) ≡ locals_of self.old) }
    {
        match join {
            Join::Pair => Ok(()),
            Join::Operation(operator) => {
                let wanted = self.operand_type(operator)?;
                self.compared(at, wanted, ty)
            }
            Join::Let(name) => self.bind(name, ty),
        }
    }

    /// The term of two, of which the second stands at this place.
    pub(super) fn joined(
        &mut self,
        join: Join<'a>,
        first: Typed,
        at: Place,
        second: Typed,
    ) -> Result<Typed, TypeFault>
        requires first { first.ty.0 < length (types_of self.old) }
        requires second { second.ty.0 < length (types_of self.old) }
        ensures keeps { OnOk result (Keeps self.old self.new) }
        ensures found { (x y : Checking specified.Typed) → Shows (types_of self.old) typed_of x first → Shows (types_of self.old) typed_of y second → FindsOver (types_of self.new) typed_of (then_checked x (λ a. joined join.entry a at y)) result }
        ensures inside { IfOk result (λ typed. typed.ty.0 < length (types_of self.new)) }
    {
        match join {
            Join::Pair => self.paired(first, second),
            Join::Operation(operator) => self.operated(operator, first.term, at, second),
            Join::Let(_) => {
                let term = Term::Let {
                    bound_type: first.ty,
                    bound: first.term,
                    body: second.term,
                };
                self.typed(term, second.ty)
            }
        }
    }

    /// An operation on two terms, of which the second stands at this place. The first is of the type that it wants.
    fn operated(
        &mut self,
        operator: BinaryOperator,
        first: Box<Term>,
        at: Place,
        second: Typed,
    ) -> Result<Typed, TypeFault>
        requires { second.ty.0 < length (types_of self.old) }
        ensures keeps { OnOk result (Keeps self.old self.new) }
        ensures found { (x : Checking Expression) (y : Checking specified.Typed) → Shows (types_of self.old) boxed_of x first → Shows (types_of self.old) typed_of y second → FindsOver (types_of self.new) typed_of (then_checked x (λ x. then_checked (wanted at (operand_type operator) y) (λ y. typed (binary_expression operator x y) (result_type operator)))) result }
        ensures inside { IfOk result (λ typed. typed.ty.0 < length (types_of self.new)) }
    {
        let ty = self.operand_type(operator)?;
        let second = self.wanted(at, ty, second)?;
        self.combined(operator, first, second)
    }
}
