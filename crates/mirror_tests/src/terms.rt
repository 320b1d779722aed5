// Terms of the tests' program, written step by step.
use core_terms::{Arith, Compare, FunctionId, LocalId, NamedId, Tag, Term, TyId};
use std::alloc::{AllocError, Global};

/// The numbers of the types of the program: `unit`, `int`, `tree`, `auth tree`, and `(auth tree, int)`.
pub const UNIT: TyId = TyId(0);

pub const INT: TyId = TyId(1);

pub const TREE: TyId = TyId(2);

pub const HELD: TyId = TyId(3);

pub const CHANGED: TyId = TyId(4);

/// The last step of a term: it stands behind the steps of its parts, which are in order.
#[derive(Clone, Copy)]
pub enum Step {
    Int(i64),
    Local(usize),
    Arith(Arith),
    Less,
    If,
    Auth,
    Unauth,
    /// A leaf of an int, and a node of two trees.
    Leaf,
    Node,
    /// A choice between a leaf and a node.
    Match,
    /// A tree and an int.
    Pair,
    /// A call of the function with this number, on so many arguments.
    Call(usize, usize),
}

/// Terms that wait for what they are parts of.
#[derive(Drop)]
struct Waiting {
    terms: Vec<Box<Term>>,
    alloc: Global,
}

impl Waiting {
    /// The last one.
    fn last(&mut self) -> Result<Box<Term>, AllocError> {
        match self.terms.pop() {
            Some(term) => Ok(term),
            None => Err(AllocError),
        }
    }

    /// The last two, in order.
    fn two(&mut self) -> Result<(Box<Term>, Box<Term>), AllocError> {
        let second = self.last()?;
        let first = self.last()?;
        Ok((first, second))
    }

    /// The last ones, so many, in order.
    fn row(&mut self, count: usize) -> Result<Vec<Term>, AllocError> {
        let mut terms = Vec::new(self.alloc);
        for _ in 0..count {
            let term = self.last()?;
            terms.push(Box::into_inner(term))?;
        }
        terms.reverse();
        Ok(terms)
    }

    /// The term of a step.
    fn made(&mut self, step: Step) -> Result<Box<Term>, AllocError> {
        match step {
            Step::Int(value) => self.boxed(Term::IntLiteral(value)),
            Step::Local(place) => self.boxed(Term::Local(LocalId(place))),
            Step::Arith(arith) => {
                let (x, y) = self.two()?;
                self.boxed(Term::Arith(arith, x, y))
            }
            Step::Less => {
                let (x, y) = self.two()?;
                self.boxed(Term::Compare(Compare::Lt, x, y))
            }
            Step::If => self.choice(),
            Step::Auth => {
                let tree = self.last()?;
                self.boxed(Term::Auth(TREE, tree))
            }
            Step::Unauth => {
                let held = self.last()?;
                self.boxed(Term::Unauth(TREE, held))
            }
            Step::Leaf => self.tree(0, 1),
            Step::Node => self.tree(1, 2),
            Step::Match => self.matched(),
            Step::Pair => {
                let (tree, int) = self.two()?;
                self.boxed(Term::Pair(HELD, INT, tree, int))
            }
            Step::Call(function, count) => {
                let arguments = self.row(count)?;
                self.boxed(Term::Call(FunctionId(function), arguments))
            }
        }
    }

    fn boxed(&self, term: Term) -> Result<Box<Term>, AllocError> {
        Ok(Box::new(self.alloc, term)?)
    }

    fn choice(&mut self) -> Result<Box<Term>, AllocError> {
        let (first, other) = self.two()?;
        let test = self.last()?;
        self.boxed(Term::If { test, first, other })
    }

    fn tree(&mut self, tag: u8, count: usize) -> Result<Box<Term>, AllocError> {
        let fields = self.row(count)?;
        self.boxed(Term::Constructor(NamedId(0), Tag(tag), fields))
    }

    fn matched(&mut self) -> Result<Box<Term>, AllocError> {
        let arms = self.row(2)?;
        let subject = self.last()?;
        self.boxed(Term::Match {
            named: NamedId(0),
            subject,
            arms,
        })
    }
}

/// The term of these steps.
///
/// # Errors
///
/// `AllocError` where memory runs out, and where a step has no parts.
pub fn term_of(alloc: Global, steps: &[Step]) -> Result<Box<Term>, AllocError> {
    let mut waiting = Waiting {
        terms: Vec::new(alloc),
        alloc,
    };
    for step in steps {
        let term = waiting.made(*step)?;
        waiting.terms.push(term)?;
    }
    waiting.last()
}
