// Pairs and operations, once their operands are elaborated.
ghost use Rattle.std.specs.Prelude.{◌≡◌, ◌<◌, [], ℕ, true, length, List, Some, slice_get, IfOk, OnOk};
ghost use Rattle.core_terms.specs.ProgramTrees.{expression_of};
ghost use Rattle.core_terms.specs.TypeTables.{stands_behind, type_of_form, type_at};
ghost use Rattle.core_terms.specs.Terms.{Expression};
ghost use Rattle.core_terms.specs.Types.{Ty};
ghost use Rattle.auth_syntax.specs.Syntax as syntax;
ghost use Rattle.auth_syntax.specs.Trees as written;
ghost use Rattle.auth_types.specs.Bodies as specified;
ghost use Rattle.auth_types.specs.Bodies.{binary_expression, operand_type, pair, result_type, typed, unary};
ghost use Rattle.declared_types.specs.Checking.{Checking, then_checked};
ghost use Rattle.declared_types.specs.OverTypes.{FindsOver, Shows};
ghost use Rattle.auth_types.specs.Elaborators.{Keeps, boxed_of, typed_of, types_of};

use crate::bodies::Typed;
use crate::bodies::elaborator::Elaborator;
use auth_syntax::tree::UnaryOperator;
use core_terms::{BinaryOperator, Term, TyForm, TyId};
use declared_types::fault::{TypeFault, TypeKind};
use lexemes::place::Place;
use std::alloc::AllocError;

/// The form of the type of the operands.
fn operand_form(operator: BinaryOperator) -> TyForm
    ensures form { (types : List Ty) → type_of_form types result ≡ operand_type operator }
    ensures plain { (count : ℕ) → stands_behind count result ≡ true }
{
    match operator {
        BinaryOperator::Arith(_) | BinaryOperator::Compare(_) => TyForm::IntForm,
        BinaryOperator::TextCompare(_) | BinaryOperator::Cat => TyForm::TextForm,
    }
}

/// The form of the type of the result.
fn result_form(operator: BinaryOperator) -> TyForm
    ensures form { type_of_form [] result ≡ result_type operator }
    ensures plain { stands_behind 0 result ≡ true }
{
    match operator {
        BinaryOperator::Arith(_) => TyForm::IntForm,
        BinaryOperator::Compare(_) | BinaryOperator::TextCompare(_) => TyForm::BoolForm,
        BinaryOperator::Cat => TyForm::TextForm,
    }
}

/// The term of an operation on two terms.
#[tactic(auto, using(crate::proofs::OperationSteps::operations_meant))]
fn operation(operator: BinaryOperator, first: Box<Term>, second: Box<Term>) -> Term
    ensures { (types : List Ty) → expression_of types result ≡ binary_expression operator (expression_of types first.value) (expression_of types second.value) }
{
    match operator {
        BinaryOperator::Arith(operator) => Term::Arith(operator, first, second),
        BinaryOperator::Compare(operator) => Term::Compare(operator, first, second),
        BinaryOperator::TextCompare(operator) => Term::TextCompare(operator, first, second),
        BinaryOperator::Cat => Term::Cat(first, second),
    }
}

impl<'s, 'a> Elaborator<'s, 'a> {
    /// A pair.
    pub(super) fn paired(&mut self, first: Typed, second: Typed) -> Result<Typed, TypeFault>
        requires first { first.ty.0 < length (types_of self.old) }
        requires second { second.ty.0 < length (types_of self.old) }
        ensures keeps { OnOk result (Keeps self.old self.new) }
        ensures found { (x y : Checking specified.Typed) → Shows (types_of self.old) typed_of x first → Shows (types_of self.old) typed_of y second → FindsOver (types_of self.new) typed_of (pair x y) result }
        ensures inside { IfOk result (λ typed. typed.ty.0 < length (types_of self.new)) }
    {
        let ty = self.intern(TyForm::PairForm(first.ty, second.ty))?;
        let term = Term::Pair(first.ty, second.ty, first.term, second.term);
        self.typed(term, ty)
    }

    /// An operation on a term at this place.
    pub(super) fn unary(
        &mut self,
        operator: UnaryOperator,
        at: Place,
        operand: Typed,
    ) -> Result<Typed, TypeFault>
        requires { operand.ty.0 < length (types_of self.old) }
        ensures keeps { OnOk result (Keeps self.old self.new) }
        ensures found { (found : Checking specified.Typed) → Shows (types_of self.old) typed_of found operand → FindsOver (types_of self.new) typed_of (unary (written.unary_of operator) at found) result }
        ensures inside { IfOk result (λ typed. typed.ty.0 < length (types_of self.new)) }
    {
        match operator {
            UnaryOperator::Fst => self.first(at, operand),
            UnaryOperator::Snd => self.second(at, operand),
            UnaryOperator::Auth => self.authenticated(operand),
            UnaryOperator::Unauth => self.opened(at, operand),
            UnaryOperator::Len => self.text_length(at, operand),
            UnaryOperator::Not => self.negated(at, operand),
        }
    }

    /// `fst` of a term at this place, which has a type of pairs.
    fn first(&self, at: Place, operand: Typed) -> Result<Typed, TypeFault>
        requires { operand.ty.0 < length (types_of self.now) }
        ensures found { (found : Checking specified.Typed) → Shows (types_of self.now) typed_of found operand → FindsOver (types_of self.now) typed_of (unary syntax.FstOperation at found) result }
        ensures inside { IfOk result (λ typed. typed.ty.0 < length (types_of self.now)) }
    {
        match self.form(operand.ty) {
            TyForm::PairForm(first, second) => {
                self.typed(Term::Fst(first, second, operand.term), first)
            }
            _ => Err(TypeFault::At(TypeKind::NotPair, at)),
        }
    }

    /// `snd` of a term at this place, which has a type of pairs.
    fn second(&self, at: Place, operand: Typed) -> Result<Typed, TypeFault>
        requires { operand.ty.0 < length (types_of self.now) }
        ensures found { (found : Checking specified.Typed) → Shows (types_of self.now) typed_of found operand → FindsOver (types_of self.now) typed_of (unary syntax.SndOperation at found) result }
        ensures inside { IfOk result (λ typed. typed.ty.0 < length (types_of self.now)) }
    {
        match self.form(operand.ty) {
            TyForm::PairForm(first, second) => {
                self.typed(Term::Snd(first, second, operand.term), second)
            }
            _ => Err(TypeFault::At(TypeKind::NotPair, at)),
        }
    }

    /// `auth` of a term.
    fn authenticated(&mut self, operand: Typed) -> Result<Typed, TypeFault>
        requires { operand.ty.0 < length (types_of self.old) }
        ensures keeps { OnOk result (Keeps self.old self.new) }
        ensures found { (at : Place) (found : Checking specified.Typed) → Shows (types_of self.old) typed_of found operand → FindsOver (types_of self.new) typed_of (unary syntax.AuthOperation at found) result }
        ensures inside { IfOk result (λ typed. typed.ty.0 < length (types_of self.new)) }
    {
        let ty = self.intern(TyForm::AuthForm(operand.ty))?;
        self.typed(Term::Auth(operand.ty, operand.term), ty)
    }

    /// `unauth` of a term at this place, which has a type of authenticated values.
    fn opened(&self, at: Place, operand: Typed) -> Result<Typed, TypeFault>
        requires { operand.ty.0 < length (types_of self.now) }
        ensures found { (found : Checking specified.Typed) → Shows (types_of self.now) typed_of found operand → FindsOver (types_of self.now) typed_of (unary syntax.UnauthOperation at found) result }
        ensures inside { IfOk result (λ typed. typed.ty.0 < length (types_of self.now)) }
    {
        match self.form(operand.ty) {
            TyForm::AuthForm(ty) => self.typed(Term::Unauth(ty, operand.term), ty),
            _ => Err(TypeFault::At(TypeKind::NotAuth, at)),
        }
    }

    /// `len` of a term at this place, which is a text.
    fn text_length(&mut self, at: Place, operand: Typed) -> Result<Typed, TypeFault>
        requires { operand.ty.0 < length (types_of self.old) }
        ensures keeps { OnOk result (Keeps self.old self.new) }
        ensures found { (found : Checking specified.Typed) → Shows (types_of self.old) typed_of found operand → FindsOver (types_of self.new) typed_of (unary syntax.LenOperation at found) result }
        ensures inside { IfOk result (λ typed. typed.ty.0 < length (types_of self.new)) }
    {
        let text = self.intern(TyForm::TextForm)?;
        let operand = self.wanted(at, text, operand)?;
        self.plain(Term::Len(operand), TyForm::IntForm)
    }

    /// `not` of a term at this place, which is a truth value.
    fn negated(&mut self, at: Place, operand: Typed) -> Result<Typed, TypeFault>
        requires { operand.ty.0 < length (types_of self.old) }
        ensures keeps { OnOk result (Keeps self.old self.new) }
        ensures found { (found : Checking specified.Typed) → Shows (types_of self.old) typed_of found operand → FindsOver (types_of self.new) typed_of (unary syntax.NotOperation at found) result }
        ensures inside { IfOk result (λ typed. typed.ty.0 < length (types_of self.new)) }
    {
        let truth = self.intern(TyForm::BoolForm)?;
        let operand = self.wanted(at, truth, operand)?;
        self.typed(Term::Not(operand), truth)
    }

    /// The type that an operation wants of its operands.
    pub(super) fn operand_type(&mut self, operator: BinaryOperator) -> Result<TyId, AllocError>
        ensures keeps { OnOk result (Keeps self.old self.new) }
        ensures found { IfOk result (λ id. slice_get (types_of self.new) id.0 ≡ Some (operand_type operator)) }
        ensures inside { IfOk result (λ id. id.0 < length (types_of self.new)) }
    {
        self.intern(operand_form(operator))
    }

    /// An operation on two terms of the types that it wants.
    pub(super) fn combined(
        &mut self,
        operator: BinaryOperator,
        first: Box<Term>,
        second: Box<Term>,
    ) -> Result<Typed, TypeFault>
        ensures keeps { OnOk result (Keeps self.old self.new) }
        ensures found { (x y : Checking Expression) → Shows (types_of self.old) boxed_of x first → Shows (types_of self.old) boxed_of y second → FindsOver (types_of self.new) typed_of (then_checked x (λ x. then_checked y (λ y. typed (binary_expression operator x y) (result_type operator)))) result }
        ensures inside { IfOk result (λ whole. whole.ty.0 < length (types_of self.new)) }
    {
        let term = operation(operator, first, second);
        self.plain(term, result_form(operator))
    }
}
