// The fourth pass: the bodies of functions, with their types by number.
//
// An elaborator goes over an expression once, from the left, and compares a part's type as soon as it has the part.

mod arrays;
mod binders;
mod calls;
mod elaborator;
mod functions;
mod joins;
mod leaves;
mod operations;
mod parts;

ghost use Rattle.std.specs.Prelude.{◌≡◌, ◌<◌, length, map, All, IfOk, IfSome, OnOk};
ghost use Rattle.core_terms.specs.ProgramTrees.{types_at};
ghost use Rattle.core_terms.specs.TypeTables.{type_at};
ghost use Rattle.auth_syntax.specs.Parsing.{in_a_row};
ghost use Rattle.lexemes.specs.Places.{start};
ghost use Rattle.auth_syntax.specs.Syntax as syntax;
ghost use Rattle.auth_syntax.specs.Trees as written;
ghost use Rattle.auth_types.specs.Applications.{application};
ghost use Rattle.auth_types.specs.Bodies as specified;
ghost use Rattle.auth_types.specs.CheckedLaws.{ArmsHaveGoodLiterals, HasGoodLiterals, HaveGoodLiterals};
ghost use Rattle.auth_types.specs.Elaborators.{Keeps, arm_found, arms_found, arms_of, boxed_of, fields_of, found_at, found_in, locals_of, row_found, row_of, scope_of, typed_of, types_of, want_of};
ghost use Rattle.auth_types.specs.Joins as joins;
ghost use Rattle.declared_types.specs.OverTypes.{FindsOver};
ghost use Rattle.declared_types.specs.Scopes.{AreWithin, IsConstructorWithin};

use crate::bodies::arrays::operated_term;
use crate::bodies::calls::{Space, applied_term};
use crate::bodies::elaborator::Elaborator;
use crate::bodies::joins::Join;
use crate::bodies::parts::{Parts, parts_of};
use auth_syntax::tree::{Arm, ArrayOperator, ExpTree};
use core_terms::{Constructor, Name, Term, TyForm, TyId};
use declared_types::fault::{TypeFault, TypeKind};
pub(crate) use functions::{Bodies, fourth_pass};
use lexemes::place::Place;

/// A term with the number of its type.
#[derive(Drop)]
struct Typed {
    term: Box<Term>,
    ty: TyId,
}

/// The bodies of the arms of a match, with the number of their type.
#[derive(Drop)]
struct TypedArms {
    bodies: Vec<Term>,
    ty: TyId,
}

/// The place of an expression.
fn place(tree: &ExpTree) -> Place
    ensures { result ≡ syntax.place_of (written.expression_of tree.now) }
{
    match tree {
        ExpTree::UnitLiteral(at)
        | ExpTree::BoolLiteral(at, _)
        | ExpTree::IntLiteral(at, _)
        | ExpTree::TextLiteral(at, _)
        | ExpTree::Local(at, _)
        | ExpTree::Pair(at, _, _)
        | ExpTree::Unary(at, _, _)
        | ExpTree::Binary(at, _, _, _)
        | ExpTree::Call(at, _, _)
        | ExpTree::Constructor(at, _, _)
        | ExpTree::Operate(at, _, _)
        | ExpTree::Let { at, .. }
        | ExpTree::If { at, .. }
        | ExpTree::Match { at, .. } => *at,
    }
}

impl<'s, 'a> Elaborator<'s, 'a> {
    /// The term of an expression, with its type.
    #[cycle(bodies)]
    fn term(&mut self, tree: &'a ExpTree) -> Result<Typed, TypeFault>
        ensures keeps { OnOk result (Keeps self.old self.new) }
        ensures found { FindsOver (types_of self.new) typed_of (found_in self.old tree.now) result }
        ensures inside { IfOk result (λ typed. typed.ty.0 < length (types_of self.new)) }
        ensures literals { OnOk result (HasGoodLiterals (written.expression_of tree.now)) }
    {
        match parts_of(tree) {
            Parts::Leaf => self.leaf(tree),
            Parts::One(operator, operand) => {
                let part = self.term(operand)?;
                self.unary(operator, place(operand), part)
            }
            Parts::Two(join, first, second) => self.two(join, first, second),
            Parts::Row(space, at, name, operands) => self.applied(space, at, name, operands),
            Parts::Array(at, operator, operands) => self.on_array(at, operator, operands),
            Parts::Branches(test, first, other) => self.condition(test, first, other),
            Parts::Arms(at, subject, arms) => self.match_with(at, subject, arms),
        }
    }

    /// The term of an expression, which has this type.
    #[cycle(bodies)]
    fn part(&mut self, tree: &'a ExpTree, ty: TyId) -> Result<Box<Term>, TypeFault>
        requires { ty.0 < length (types_of self.old) }
        ensures keeps { OnOk result (Keeps self.old self.new) }
        ensures found { FindsOver (types_of self.new) boxed_of (specified.wanted (syntax.place_of (written.expression_of tree.now)) (type_at (types_of self.old) ty) (found_in self.old tree.now)) result }
        ensures literals { OnOk result (HasGoodLiterals (written.expression_of tree.now)) }
    {
        let part = self.term(tree)?;
        self.wanted(place(tree), ty, part)
    }

    /// Two expressions, of which the second stands behind the first.
    #[cycle(bodies)]
    fn two(
        &mut self,
        join: Join<'a>,
        first: &'a ExpTree,
        second: &'a ExpTree,
    ) -> Result<Typed, TypeFault>
        ensures keeps { OnOk result (Keeps self.old self.new) }
        ensures found { FindsOver (types_of self.new) typed_of (joins.two (scope_of self.old) (locals_of self.old) join.entry (written.expression_of first.now) (written.expression_of second.now)) result }
        ensures inside { IfOk result (λ typed. typed.ty.0 < length (types_of self.new)) }
        ensures literals { OnOk result (HasGoodLiterals (written.expression_of first.now) × HasGoodLiterals (written.expression_of second.now)) }
    {
        let outer = self.depth();
        let one = self.term(first)?;
        self.between(join, place(first), one.ty)?;
        let other = self.term(second)?;
        self.close(outer);
        self.joined(join, one, place(second), other)
    }

    /// A name of this space at this place, with the expressions behind it.
    #[cycle(bodies)]
    fn applied(
        &mut self,
        space: Space,
        at: Place,
        name: &Name,
        operands: &'a [ExpTree],
    ) -> Result<Typed, TypeFault>
        ensures keeps { OnOk result (Keeps self.old self.new) }
        ensures found { FindsOver (types_of self.new) typed_of (application (scope_of self.old) space at name.now (specified.count_of (in_a_row (map written.expression_of operands.now))) (row_found self.old (in_a_row (map written.expression_of operands.now)))) result }
        ensures inside { IfOk result (λ typed. typed.ty.0 < length (types_of self.new)) }
        ensures literals { OnOk result (HaveGoodLiterals (in_a_row (map written.expression_of operands.now))) }
    {
        let callee = self.named(space, at, name, operands.len())?;
        let terms = self.operands(operands, callee.types)?;
        self.typed(applied_term(callee.applied, terms), callee.ty)
    }

    /// An operation on arrays at this place, with its operands.
    #[cycle(bodies)]
    fn on_array(
        &mut self,
        at: Place,
        operator: ArrayOperator,
        operands: &'a [ExpTree],
    ) -> Result<Typed, TypeFault>
        ensures keeps { OnOk result (Keeps self.old self.new) }
        ensures found { FindsOver (types_of self.new) typed_of (found_at self.old (syntax.OperateSyntax at (written.array_of operator) (in_a_row (map written.expression_of operands.now)))) result }
        ensures inside { IfOk result (λ typed. typed.ty.0 < length (types_of self.new)) }
        ensures literals { OnOk result (HaveGoodLiterals (in_a_row (map written.expression_of operands.now))) }
    {
        let parts = self.begun(at, operator, operands)?;
        let first = self.term(parts.first)?;
        let taken = self.taken(operator, place(parts.first), first.ty)?;
        let others = self.operands(parts.others, &taken.others)?;
        let term = operated_term(self.alloc, taken.operation, first.term, others)?;
        self.typed(term, taken.ty)
    }

    /// Expressions in a row, of these types.
    #[cycle(bodies)]
    fn operands(&mut self, operands: &'a [ExpTree], types: &[TyId]) -> Result<Vec<Term>, TypeFault>
        requires count { length operands.now ≡ length types.now }
        requires within { AreWithin (length (types_of self.old)) types.now }
        ensures keeps { OnOk result (Keeps self.old self.new) }
        ensures found { FindsOver (types_of self.new) row_of (row_found self.old (in_a_row (map written.expression_of operands.now)) (types_at (types_of self.old) types.now)) result }
        ensures literals { OnOk result (HaveGoodLiterals (in_a_row (map written.expression_of operands.now))) }
    {
        let mut terms = Vec::new(self.alloc);
        for (index, operand) in operands.iter().enumerate() {
            let part = self.part(operand, types[index])?;
            terms.push(Box::into_inner(part))?;
        }
        Ok(terms)
    }

    /// A condition.
    #[cycle(bodies)]
    fn condition(
        &mut self,
        test: &'a ExpTree,
        first: &'a ExpTree,
        other: &'a ExpTree,
    ) -> Result<Typed, TypeFault>
        ensures keeps { OnOk result (Keeps self.old self.new) }
        ensures found { FindsOver (types_of self.new) typed_of (found_at self.old (syntax.IfSyntax start (written.expression_of test.now) (written.expression_of first.now) (written.expression_of other.now))) result }
        ensures inside { IfOk result (λ typed. typed.ty.0 < length (types_of self.new)) }
        ensures literals { OnOk result (HasGoodLiterals (written.expression_of test.now) × HasGoodLiterals (written.expression_of first.now) × HasGoodLiterals (written.expression_of other.now)) }
    {
        let truth = self.intern(TyForm::BoolForm)?;
        let test = self.part(test, truth)?;
        let first = self.term(first)?;
        let other = self.part(other, first.ty)?;
        let term = Term::If {
            test,
            first: first.term,
            other,
        };
        self.typed(term, first.ty)
    }

    /// A match at this place, with its arms.
    #[cycle(bodies)]
    fn match_with(
        &mut self,
        at: Place,
        subject: &'a ExpTree,
        arms: &'a [Arm],
    ) -> Result<Typed, TypeFault>
        ensures keeps { OnOk result (Keeps self.old self.new) }
        ensures found { FindsOver (types_of self.new) typed_of (found_at self.old (syntax.MatchSyntax at (written.expression_of subject.now) (written.arms_in_a_row (map written.arm_of arms.now)))) result }
        ensures inside { IfOk result (λ typed. typed.ty.0 < length (types_of self.new)) }
        ensures literals { OnOk result (HasGoodLiterals (written.expression_of subject.now) × ArmsHaveGoodLiterals (written.arms_in_a_row (map written.arm_of arms.now))) }
    {
        let place = place(subject);
        let subject = self.term(subject)?;
        let named = self.taken_apart(at, place, subject.ty, arms)?;
        let constructors = self.scope.constructors(named);
        let arms = self.arms(arms, constructors)?;
        let term = Term::Match {
            named,
            subject: subject.term,
            arms: arms.bodies,
        };
        self.typed(term, arms.ty)
    }

    /// The arms of a match, which are of these constructors. Behind the first the type of its body is wanted.
    #[cycle(bodies)]
    fn arms(
        &mut self,
        arms: &'a [Arm],
        constructors: &[Constructor],
    ) -> Result<TypedArms, TypeFault>
        requires count { length arms.now ≡ length constructors.now }
        requires within { All (IsConstructorWithin (length (types_of self.old))) constructors.now }
        ensures keeps { OnOk result (Keeps self.old self.new) }
        ensures found { FindsOver (types_of self.new) arms_of (arms_found self.old (written.arms_in_a_row (map written.arm_of arms.now)) (fields_of (types_of self.old) constructors.now)) result }
        ensures inside { IfOk result (λ typed. typed.ty.0 < length (types_of self.new)) }
        ensures literals { OnOk result (ArmsHaveGoodLiterals (written.arms_in_a_row (map written.arm_of arms.now))) }
    {
        let mut bodies = Vec::new(self.alloc);
        let mut wanted = None;
        for (index, arm) in arms.iter().enumerate() {
            let body = self.arm(arm, wanted, &constructors[index].fields)?;
            wanted = Some(body.ty);
            bodies.push(Box::into_inner(body.term))?;
        }
        let ty = self.wanted_or_unit(wanted)?;
        Ok(TypedArms { bodies, ty })
    }

    /// An arm of a match, whose pattern has fields of these types.
    #[cycle(bodies)]
    fn arm(
        &mut self,
        arm: &'a Arm,
        wanted: Option<TyId>,
        fields: &[TyId],
    ) -> Result<Typed, TypeFault>
        requires wanted { IfSome wanted (λ ty. ty.0 < length (types_of self.old)) }
        requires within { AreWithin (length (types_of self.old)) fields.now }
        ensures keeps { OnOk result (Keeps self.old self.new) }
        ensures found { FindsOver (types_of self.new) typed_of (arm_found self.old (want_of (types_of self.old) wanted) (types_at (types_of self.old) fields.now) (written.arm_of arm.now)) result }
        ensures inside { IfOk result (λ typed. typed.ty.0 < length (types_of self.new)) }
        ensures literals { OnOk result (HasGoodLiterals (written.arm_of arm.now).body) }
    {
        if arm.fields.len() != fields.len() {
            return Err(TypeFault::At(TypeKind::WrongCount, arm.constructor.at));
        }
        let outer = self.depth();
        self.bind_each(&arm.fields, fields)?;
        let body = self.term(&arm.body)?;
        self.close(outer);
        self.wanted_arm(place(&arm.body), wanted, body)
    }
}
