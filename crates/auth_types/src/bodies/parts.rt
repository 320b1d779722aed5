// Expressions by their parts.
ghost use Rattle.std.specs.Prelude.{◌≡◌, List};
ghost use Rattle.auth_syntax.specs.Trees as written;
ghost use Rattle.auth_syntax.specs.declared.tree.ExpTree.TheViews.{size-ExpTree};
ghost use Rattle.auth_types.specs.Bodies.{Local, elaborated};
ghost use Rattle.auth_types.specs.CheckedLaws.{HasGoodLiterals};
ghost use Rattle.auth_types.specs.Parts.{AreBelow, AreGood, IsWhole, found_by};
ghost use Rattle.declared_types.specs.Signatures.{Scope};

use crate::bodies::calls::Space;
use crate::bodies::joins::Join;
use auth_syntax::tree::{Arm, ArrayOperator, ExpTree, UnaryOperator};
use core_terms::Name;
use lexemes::place::Place;

/// What an expression is made of.
#[derive(Clone, Copy)]
pub(super) enum Parts<'a> {
    Leaf,
    One(UnaryOperator, &'a ExpTree),
    Two(Join<'a>, &'a ExpTree, &'a ExpTree),
    Row(Space, Place, &'a Name, &'a [ExpTree]),
    Array(Place, ArrayOperator, &'a [ExpTree]),
    Branches(&'a ExpTree, &'a ExpTree, &'a ExpTree),
    Arms(Place, &'a ExpTree, &'a [Arm]),
}

/// The parts of an expression.
pub(super) fn parts_of(tree: &ExpTree) -> Parts<'_>
    ensures found { (scope : Scope) (locals : List Local) → elaborated scope locals (written.expression_of tree.now) ≡ found_by scope locals (written.expression_of tree.now) result }
    ensures whole { IsWhole (written.expression_of tree.now) result }
    ensures literals { AreGood (written.expression_of tree.now) result → HasGoodLiterals (written.expression_of tree.now) }
    ensures below { AreBelow (size-ExpTree tree.now) result }
{
    match tree {
        ExpTree::UnitLiteral(_)
        | ExpTree::BoolLiteral(_, _)
        | ExpTree::IntLiteral(_, _)
        | ExpTree::TextLiteral(_, _)
        | ExpTree::Local(_, _) => Parts::Leaf,
        ExpTree::Pair(_, first, second) => Parts::Two(Join::Pair, first, second),
        ExpTree::Unary(_, operator, operand) => Parts::One(*operator, operand),
        ExpTree::Binary(_, operator, first, second) => {
            Parts::Two(Join::Operation(*operator), first, second)
        }
        ExpTree::Call(at, name, operands) => Parts::Row(Space::Functions, *at, name, operands),
        ExpTree::Constructor(at, name, operands) => {
            Parts::Row(Space::Constructors, *at, name, operands)
        }
        ExpTree::Operate(at, operator, operands) => Parts::Array(*at, *operator, operands),
        ExpTree::Let {
            name,
            bound,
            body,
            ..
        } => Parts::Two(Join::Let(name), bound, body),
        ExpTree::If {
            test,
            first,
            other,
            ..
        } => Parts::Branches(test, first, other),
        ExpTree::Match { at, subject, arms } => Parts::Arms(*at, subject, arms),
    }
}
