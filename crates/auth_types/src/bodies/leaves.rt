// Expressions without parts.
ghost use Rattle.std.specs.Prelude.{◌≡◌, ◌<◌, length, true, IfOk, OnOk};
ghost use Rattle.auth_syntax.specs.Trees as written;
ghost use Rattle.auth_types.specs.CheckedLaws.{HasGoodLiterals};
ghost use Rattle.auth_types.specs.Elaborators.{Keeps, found_in, typed_of, types_of};
ghost use Rattle.auth_types.specs.Leaves.{is_leaf};
ghost use Rattle.declared_types.specs.OverTypes.{FindsOver};

use crate::bodies::Typed;
use crate::bodies::elaborator::Elaborator;
use auth_syntax::tree::ExpTree;
use core_terms::{Term, TyForm};
use declared_types::fault::TypeFault;

impl<'s, 'a> Elaborator<'s, 'a> {
    /// The term of a literal or of a name, with its type.
    pub(super) fn leaf(&mut self, tree: &ExpTree) -> Result<Typed, TypeFault>
        requires { is_leaf (written.expression_of tree.now) ≡ true }
        ensures keeps { OnOk result (Keeps self.old self.new) }
        ensures found { FindsOver (types_of self.new) typed_of (found_in self.old tree.now) result }
        ensures inside { IfOk result (λ typed. typed.ty.0 < length (types_of self.new)) }
        ensures literals { OnOk result (HasGoodLiterals (written.expression_of tree.now)) }
    {
        match tree {
            ExpTree::UnitLiteral(_) => self.plain(Term::UnitLiteral, TyForm::UnitForm),
            ExpTree::BoolLiteral(_, value) => {
                self.plain(Term::BoolLiteral(*value), TyForm::BoolForm)
            }
            ExpTree::IntLiteral(_, value) => self.plain(Term::IntLiteral(*value), TyForm::IntForm),
            ExpTree::TextLiteral(_, text) => self.text(text),
            ExpTree::Local(at, name) => self.local(*at, name),
            ExpTree::Pair(..)
            | ExpTree::Unary(..)
            | ExpTree::Binary(..)
            | ExpTree::Call(..)
            | ExpTree::Constructor(..)
            | ExpTree::Operate(..)
            | ExpTree::Let { .. }
            | ExpTree::If { .. }
            | ExpTree::Match { .. } => unreachable!(),
        }
    }
}
