// Terms whose values are near the limits of a size and of a depth.
use crate::kinds::{ALL_CHAINS, CHAIN, CHAINS, INT, LINK, WIDE, WIDE_PAIR, WIDER, WIDEST, at};
use crate::maker::Maker;
use core_terms::{Arith, Compare, FunctionId, LocalId, NamedId, Operation, Tag, Term, TyForm};
use std::alloc::AllocError;

/// What a program makes near a limit.
#[derive(Clone, Copy)]
pub enum Limit {
    /// A chain of many links.
    Deep,
    /// An array with an element replaced by such a chain.
    DeepChanged,
    /// Such a chain, authenticated.
    DeepHeld,
    /// Arrays of such chains.
    ManyDeep,
    /// Arrays of arrays of arrays of ints.
    Big,
    /// Such an array and an int.
    BigPair,
    /// Such an array with an element replaced.
    BigChanged,
    /// An element of such an array.
    BigElement,
}

pub const LIMITS: [Limit; 8] = [
    Limit::Deep,
    Limit::DeepChanged,
    Limit::DeepHeld,
    Limit::ManyDeep,
    Limit::Big,
    Limit::BigPair,
    Limit::BigChanged,
    Limit::BigElement,
];

/// The function that makes chains.
pub const LINKING: FunctionId = FunctionId(3);

impl Limit {
    /// The place of its type.
    pub fn place(self) -> usize {
        match self {
            Limit::Deep => CHAIN,
            Limit::DeepChanged => LINK,
            Limit::DeepHeld => 12,
            Limit::ManyDeep => ALL_CHAINS,
            Limit::Big | Limit::BigChanged => WIDEST,
            Limit::BigPair => WIDE_PAIR,
            Limit::BigElement => WIDER,
        }
    }
}

impl Maker<'_> {
    /// The body of the function that makes chains: of an int and of what comes behind so many more links.
    pub fn linking(&self) -> Result<Box<Term>, AllocError> {
        let count = self.int_local()?;
        let none = self.number(0)?;
        let test = self.boxed(Term::Compare(Compare::Le, count, none))?;
        let first = self.boxed(Term::Local(LocalId(1)))?;
        let other = self.linked_more()?;
        self.boxed(Term::If { test, first, other })
    }

    /// The call with one link more.
    fn linked_more(&self) -> Result<Box<Term>, AllocError> {
        let behind = self.boxed(Term::Local(LocalId(1)))?;
        let held = self.filled(LINK, behind)?;
        let fields = self.row_of_two(held, self.int_local()?)?;
        let link = self.boxed(Term::Constructor(NamedId(0), Tag(1), fields))?;
        let count = self.int_local()?;
        let one = self.number(1)?;
        let less = self.boxed(Term::Arith(Arith::Sub, count, one))?;
        let arguments = self.row_of_two(less, link)?;
        self.boxed(Term::Call(LINKING, arguments))
    }

    /// A term near a limit.
    pub fn limit(&mut self, limit: Limit) -> Result<Box<Term>, AllocError> {
        match limit {
            Limit::Deep => self.deep(),
            Limit::DeepChanged => self.deep_changed(),
            Limit::DeepHeld => {
                let chain = self.deep()?;
                self.boxed(Term::Auth(at(self.ids, CHAIN), chain))
            }
            Limit::ManyDeep => {
                let chain = self.deep()?;
                let chains = self.filled(CHAINS, chain)?;
                self.filled(ALL_CHAINS, chains)
            }
            Limit::Big => self.big(),
            Limit::BigPair => {
                let array = self.big()?;
                let int = self.int_local()?;
                let types = (at(self.ids, WIDEST), at(self.ids, INT));
                self.boxed(Term::Pair(types.0, types.1, array, int))
            }
            Limit::BigChanged => {
                let array = self.big()?;
                let new = self.wider()?;
                self.changed(WIDEST, array, new)
            }
            Limit::BigElement => self.big_element(),
        }
    }

    /// A chain of about as many links as fit.
    fn deep(&mut self) -> Result<Box<Term>, AllocError> {
        // one link is two levels of 512, and 512 chains of 227 links have as many bytes as fit
        let links = match self.numbers.below(2) {
            0 => 254 + self.numbers.below(4),
            _ => 222 + self.numbers.below(11),
        };
        let count = self.number(links as i64)?;
        let end = self.boxed(Term::Constructor(NamedId(0), Tag(0), Vec::new(self.alloc)))?;
        let arguments = self.row_of_two(count, end)?;
        self.boxed(Term::Call(LINKING, arguments))
    }

    fn deep_changed(&mut self) -> Result<Box<Term>, AllocError> {
        let end = self.boxed(Term::Constructor(NamedId(0), Tag(0), Vec::new(self.alloc)))?;
        let array = self.filled(LINK, end)?;
        let new = self.deep()?;
        self.changed(LINK, array, new)
    }

    /// An array of about as many bytes as fit.
    fn big(&self) -> Result<Box<Term>, AllocError> {
        let wider = self.wider()?;
        self.filled(WIDEST, wider)
    }

    fn wider(&self) -> Result<Box<Term>, AllocError> {
        let int = self.int_local()?;
        let wide = self.filled(WIDE, int)?;
        self.filled(WIDER, wide)
    }

    fn big_element(&mut self) -> Result<Box<Term>, AllocError> {
        let array = self.big()?;
        let index = self.index()?;
        let operands = self.row_of_two(array, index)?;
        match self.types.form(at(self.ids, WIDEST)) {
            TyForm::VecForm(count, item) => {
                self.boxed(Term::Operate(Operation::VecGet(count, item), operands))
            }
            _ => Err(AllocError),
        }
    }

    /// An index at the borders of arrays.
    fn index(&mut self) -> Result<Box<Term>, AllocError> {
        let index = match self.numbers.below(6) {
            0 => -1,
            1 => 1,
            2 => 31,
            3 => 64,
            _ => 0,
        };
        self.number(index)
    }

    /// An array of the type at a place, of so many times a term.
    fn filled(&self, place: usize, item: Box<Term>) -> Result<Box<Term>, AllocError> {
        let TyForm::VecForm(count, ty) = self.types.form(at(self.ids, place)) else {
            return Err(AllocError);
        };
        let mut operands = Vec::new(self.alloc);
        operands.push(Box::into_inner(item))?;
        self.boxed(Term::Operate(Operation::VecFill(count, ty), operands))
    }

    /// An array of the type at a place with an element replaced.
    fn changed(
        &mut self,
        place: usize,
        array: Box<Term>,
        new: Box<Term>,
    ) -> Result<Box<Term>, AllocError> {
        let TyForm::VecForm(count, ty) = self.types.form(at(self.ids, place)) else {
            return Err(AllocError);
        };
        let index = self.index()?;
        let mut operands = self.row_of_two(array, index)?;
        operands.push(Box::into_inner(new))?;
        self.boxed(Term::Operate(Operation::VecPut(count, ty), operands))
    }

    fn number(&self, value: i64) -> Result<Box<Term>, AllocError> {
        self.boxed(Term::IntLiteral(value))
    }

    /// The first local, an int.
    fn int_local(&self) -> Result<Box<Term>, AllocError> {
        self.boxed(Term::Local(LocalId(0)))
    }

    fn row_of_two(&self, first: Box<Term>, second: Box<Term>) -> Result<Vec<Term>, AllocError> {
        let mut terms = Vec::new(self.alloc);
        terms.push(Box::into_inner(first))?;
        terms.push(Box::into_inner(second))?;
        Ok(terms)
    }
}
