// Operations on arrays: what is known before and behind their first operand.
ghost use Rattle.std.specs.Prelude.{◌≡◌, ◌<◌, length, true, IfOk, List, OnOk};
ghost use Rattle.core_terms.specs.ProgramTrees.{expression_of, operation_of};
ghost use Rattle.core_terms.specs.Terms as tree;
ghost use Rattle.core_terms.specs.TypeTables.{type_at};
ghost use Rattle.core_terms.specs.Types.{Ty, VecTy};
ghost use Rattle.auth_syntax.specs.Nesting as grammar;
ghost use Rattle.auth_syntax.specs.Syntax.{FillOperation, GetOperation, PutOperation};
ghost use Rattle.auth_syntax.specs.Trees as written;
ghost use Rattle.auth_types.specs.Arrays.{Begins, IsArrayAt, IsTaken, taken_of};
ghost use Rattle.auth_types.specs.Bodies.{taken_by};
ghost use Rattle.auth_types.specs.Bodies as specified;
ghost use Rattle.auth_types.specs.Elaborators.{Keeps, boxed_of, locals_of, row_of, scope_of, types_of};
ghost use Rattle.declared_types.specs.OverTypes.{FindsOver};
ghost use Rattle.declared_types.specs.WrittenTypes.{may_have};

use crate::bodies::elaborator::Elaborator;
use auth_syntax::tree::{ArrayOperator, ExpTree};
use core_terms::{Operation, Term, TyForm, TyId};
use declared_types::fault::{TypeFault, TypeKind};
use lexemes::place::Place;
use std::alloc::{AllocError, Global};

/// The operands of an operation.
#[derive(Clone, Copy)]
pub(super) struct Operands<'a> {
    pub first: &'a ExpTree,
    pub others: &'a [ExpTree],
}

/// An operation on arrays, with the numbers of the types of its operands behind the first and of its result.
#[derive(Drop)]
pub(super) struct Taken {
    pub operation: Operation,
    pub others: Vec<TyId>,
    pub ty: TyId,
}

/// How many operands stand behind the first.
fn others_of(operator: ArrayOperator) -> usize
    ensures { result ≡ grammar.others_of (written.array_of operator) }
{
    match operator {
        ArrayOperator::VecFill(_) => 0,
        ArrayOperator::VecGet => 1,
        ArrayOperator::VecPut => 2,
    }
}

/// The term of an operation on these terms.
pub(super) fn operated_term(
    alloc: Global,
    operation: Operation,
    first: Box<Term>,
    others: Vec<Term>,
) -> Result<Term, AllocError>
    ensures { IfOk result (λ term. (types : List Ty) → expression_of types term ≡ tree.OperateE (operation_of types operation) (tree.AndE (boxed_of types first) (row_of types others))) }
{
    let mut operands = others;
    operands.insert(0, Box::into_inner(first))?;
    Ok(Term::Operate(operation, operands))
}

impl<'s, 'a> Elaborator<'s, 'a> {
    /// Whether the program may have the array that an operation makes.
    fn may_begin(&self, operator: ArrayOperator) -> bool
        ensures { result ≡ specified.may_begin (scope_of self.now).format (written.array_of operator) }
    {
        match operator {
            ArrayOperator::VecFill(count) => self.may_have(count),
            ArrayOperator::VecGet | ArrayOperator::VecPut => true,
        }
    }

    /// The operands of an operation at this place, which are as many as it takes.
    pub(super) fn begun(
        &self,
        at: Place,
        operator: ArrayOperator,
        operands: &'a [ExpTree],
    ) -> Result<Operands<'a>, TypeFault>
        ensures { Begins (scope_of self.now) (locals_of self.now) at (written.array_of operator) operands.now result }
    {
        let [first, others @ ..] = operands else {
            return Err(TypeFault::At(TypeKind::WrongCount, at));
        };
        if others.len() != others_of(operator) {
            return Err(TypeFault::At(TypeKind::WrongCount, at));
        }
        if !self.may_begin(operator) {
            return Err(TypeFault::At(TypeKind::NotVec, at));
        }
        Ok(Operands { first, others })
    }

    /// The operation whose first operand, at this place, has this type.
    pub(super) fn taken(
        &mut self,
        operator: ArrayOperator,
        at: Place,
        ty: TyId,
    ) -> Result<Taken, TypeFault>
        requires inside { ty.0 < length (types_of self.old) }
        requires may_begin { specified.may_begin (scope_of self.old).format (written.array_of operator) ≡ true }
        ensures keeps { OnOk result (Keeps self.old self.new) }
        ensures found { FindsOver (types_of self.new) taken_of (taken_by (scope_of self.old).format (written.array_of operator) at (type_at (types_of self.old) ty)) result }
        ensures taken { IfOk result (IsTaken (types_of self.new) (written.array_of operator)) }
    {
        match operator {
            ArrayOperator::VecFill(count) => self.filled(count, ty),
            ArrayOperator::VecGet => self.got(at, ty),
            ArrayOperator::VecPut => self.put(at, ty),
        }
    }

    /// An array of so many elements of this type.
    fn filled(&mut self, count: u8, ty: TyId) -> Result<Taken, TypeFault>
        requires inside { ty.0 < length (types_of self.old) }
        requires may_have { may_have (scope_of self.old).format count ≡ true }
        ensures keeps { OnOk result (Keeps self.old self.new) }
        ensures found { (at : Place) → FindsOver (types_of self.new) taken_of (taken_by (scope_of self.old).format (FillOperation count) at (type_at (types_of self.old) ty)) result }
        ensures taken { IfOk result (IsTaken (types_of self.new) (FillOperation count)) }
    {
        let whole = self.intern(TyForm::VecForm(count, ty))?;
        Ok(Taken {
            operation: Operation::VecFill(count, ty),
            others: Vec::new(self.alloc),
            ty: whole,
        })
    }

    /// An element of what stands at this place, which is of this type.
    fn got(&mut self, at: Place, ty: TyId) -> Result<Taken, TypeFault>
        requires { ty.0 < length (types_of self.old) }
        ensures keeps { OnOk result (Keeps self.old self.new) }
        ensures found { FindsOver (types_of self.new) taken_of (taken_by (scope_of self.old).format GetOperation at (type_at (types_of self.old) ty)) result }
        ensures taken { IfOk result (IsTaken (types_of self.new) GetOperation) }
    {
        let (count, item) = self.array(at, ty)?;
        let int = self.intern(TyForm::IntForm)?;
        Ok(Taken {
            operation: Operation::VecGet(count, item),
            others: vec![in self.alloc; int]?,
            ty: item,
        })
    }

    /// What stands at this place, which is of this type, with an element replaced.
    fn put(&mut self, at: Place, ty: TyId) -> Result<Taken, TypeFault>
        requires { ty.0 < length (types_of self.old) }
        ensures keeps { OnOk result (Keeps self.old self.new) }
        ensures found { FindsOver (types_of self.new) taken_of (taken_by (scope_of self.old).format PutOperation at (type_at (types_of self.old) ty)) result }
        ensures taken { IfOk result (IsTaken (types_of self.new) PutOperation) }
    {
        let (count, item) = self.array(at, ty)?;
        let int = self.intern(TyForm::IntForm)?;
        Ok(Taken {
            operation: Operation::VecPut(count, item),
            others: vec![in self.alloc; int, item]?,
            ty,
        })
    }

    /// How many elements what stands at this place has, and the type of these, where its type is one of arrays.
    fn array(&self, at: Place, ty: TyId) -> Result<(u8, TyId), TypeFault>
        requires { ty.0 < length (types_of self.now) }
        ensures found { IsArrayAt (types_of self.now) (scope_of self.now).format at (type_at (types_of self.now) ty) result }
        ensures form { IfOk result (λ array. type_at (types_of self.now) ty ≡ VecTy array.0 (type_at (types_of self.now) array.1)) }
        ensures inside { IfOk result (λ array. array.1.0 < length (types_of self.now)) }
    {
        match self.form(ty) {
            TyForm::VecForm(count, item) => Ok((count, item)),
            _ => Err(TypeFault::At(TypeKind::NotVec, at)),
        }
    }
}
