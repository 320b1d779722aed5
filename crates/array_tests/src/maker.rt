// Random terms of a type.
use crate::kinds::{DRAWN_TYPES, at};
use crate::numbers::Numbers;
use core_terms::{
    Arith, Compare, FunctionId, LocalId, NamedId, NamedType, Operation, Tag, Term, TyForm, TyId,
    TyTable,
};
use std::alloc::{AllocError, Global};
use term_stage::judge::extended;

/// How many levels a term needs whose type's parts are each made: what is drawn has more.
const PLAIN_LEVELS: u8 = 5;

/// Ints at the borders of arrays and of ints.
const INTS: [i64; 8] = [-1, 2, 63, 64, 255, 256, i64::MAX, i64::MIN];

const ARITHS: [Arith; 5] = [Arith::Add, Arith::Sub, Arith::Mul, Arith::Div, Arith::Rem];

/// The types of a function.
#[derive(Drop)]
pub struct Signature {
    pub parameters: Vec<TyId>,
    pub result: TyId,
}

/// What makes terms: the types and the functions that they may have, and the numbers that are drawn.
#[derive(Drop)]
pub struct Maker<'a> {
    pub types: &'a TyTable,
    pub ids: &'a [TyId],
    pub named: &'a [NamedType],
    pub signatures: &'a [Signature],
    pub numbers: Numbers,
    pub alloc: Global,
}

impl Maker<'_> {
    /// A term of a type, of at most so many levels, where the locals have these types.
    #[cycle(making)]
    pub fn term(
        &mut self,
        env: &[TyId],
        wanted: TyId,
        levels: u8,
    ) -> Result<Box<Term>, AllocError> {
        if levels == 0 {
            return self.boxed(Term::UnitLiteral);
        }
        let levels = levels - 1;
        if self.numbers.below(3) == 0 {
            if let Some(local) = self.local_of(env, wanted) {
                return self.boxed(Term::Local(local));
            }
        }
        if levels < PLAIN_LEVELS {
            return self.made(env, wanted, levels);
        }
        match self.numbers.below(14) {
            0 => self.let_in(env, wanted, levels),
            1 => self.choice(env, wanted, levels),
            2 | 3 => self.call(env, wanted, levels),
            4 | 5 => self.element(env, wanted, levels),
            6 => self.part(env, wanted, levels),
            7 => self.opened(env, wanted, levels),
            8 => self.matched(env, wanted, levels),
            _ => self.made(env, wanted, levels),
        }
    }

    /// A term in a box.
    pub fn boxed(&self, term: Term) -> Result<Box<Term>, AllocError> {
        Ok(Box::new(self.alloc, term)?)
    }

    /// A local of a type, the last one as often as not.
    fn local_of(&mut self, env: &[TyId], wanted: TyId) -> Option<LocalId> {
        let mut found = None;
        for (place, ty) in env.iter().enumerate() {
            if *ty == wanted && (found.is_none() || self.numbers.below(2) == 0) {
                found = Some(LocalId(place));
            }
        }
        found
    }

    /// One of the types that are drawn.
    fn some_type(&mut self) -> TyId {
        let place = self.numbers.below(DRAWN_TYPES);
        at(self.ids, place)
    }

    /// Terms of these types.
    #[cycle(making)]
    fn row(&mut self, env: &[TyId], wanted: &[TyId], levels: u8) -> Result<Vec<Term>, AllocError> {
        let mut terms = Vec::new(self.alloc);
        for ty in wanted {
            let term = self.term(env, *ty, levels)?;
            terms.push(Box::into_inner(term))?;
        }
        Ok(terms)
    }

    /// Two terms of these types.
    #[cycle(making)]
    fn both(
        &mut self,
        env: &[TyId],
        wanted: (TyId, TyId),
        levels: u8,
    ) -> Result<(Box<Term>, Box<Term>), AllocError> {
        let first = self.term(env, wanted.0, levels)?;
        let second = self.term(env, wanted.1, levels)?;
        Ok((first, second))
    }

    /// A term that binds one of a type that is drawn.
    #[cycle(making)]
    fn let_in(&mut self, env: &[TyId], wanted: TyId, levels: u8) -> Result<Box<Term>, AllocError> {
        let bound_type = self.some_type();
        let bound = self.term(env, bound_type, levels)?;
        let inner = extended(env, &[bound_type], self.alloc)?;
        let body = self.term(&inner, wanted, levels)?;
        self.boxed(Term::Let {
            bound_type,
            bound,
            body,
        })
    }

    /// A choice between two terms.
    #[cycle(making)]
    fn choice(&mut self, env: &[TyId], wanted: TyId, levels: u8) -> Result<Box<Term>, AllocError> {
        let test = self.term(env, at(self.ids, 1), levels)?;
        let (first, other) = self.both(env, (wanted, wanted), levels)?;
        self.boxed(Term::If { test, first, other })
    }

    /// A call of a function with this result; a term that is made where there is none.
    #[cycle(making)]
    fn call(&mut self, env: &[TyId], wanted: TyId, levels: u8) -> Result<Box<Term>, AllocError> {
        let from = self.numbers.below(self.signatures.len());
        for (place, signature) in self.signatures.iter().enumerate() {
            if place >= from && signature.result == wanted {
                let arguments = self.row(env, &signature.parameters, levels)?;
                return self.boxed(Term::Call(FunctionId(place), arguments));
            }
        }
        self.made(env, wanted, levels)
    }

    /// An array of elements of a type; none where no type that is drawn is one.
    fn array_of(&self, item: TyId) -> Option<(u8, TyId)> {
        for ty in self.ids.iter().take(DRAWN_TYPES) {
            if let TyForm::VecForm(count, part) = self.types.form(*ty) {
                if part == item {
                    return Some((count, *ty));
                }
            }
        }
        None
    }

    /// An element of an array; a term that is made where the type is that of no elements.
    #[cycle(making)]
    fn element(&mut self, env: &[TyId], wanted: TyId, levels: u8) -> Result<Box<Term>, AllocError> {
        let Some((count, array)) = self.array_of(wanted) else {
            return self.made(env, wanted, levels);
        };
        let operands = self.row(env, &[array, at(self.ids, 2)], levels)?;
        self.boxed(Term::Operate(Operation::VecGet(count, wanted), operands))
    }

    /// A pair of which a type is a part, and which one it is.
    fn pair_of(&self, part: TyId) -> Option<(TyId, TyForm)> {
        for ty in self.ids.iter().take(DRAWN_TYPES) {
            let form = self.types.form(*ty);
            if let TyForm::PairForm(first, second) = form {
                if first == part || second == part {
                    return Some((*ty, form));
                }
            }
        }
        None
    }

    /// A part of a pair; a term that is made where the type is that of no part.
    #[cycle(making)]
    fn part(&mut self, env: &[TyId], wanted: TyId, levels: u8) -> Result<Box<Term>, AllocError> {
        match self.pair_of(wanted) {
            Some((ty, TyForm::PairForm(first, second))) => {
                let pair = self.term(env, ty, levels)?;
                if first == wanted {
                    self.boxed(Term::Fst(first, second, pair))
                } else {
                    self.boxed(Term::Snd(first, second, pair))
                }
            }
            _ => self.made(env, wanted, levels),
        }
    }

    /// What was authenticated; a term that is made where no value of the type is.
    #[cycle(making)]
    fn opened(&mut self, env: &[TyId], wanted: TyId, levels: u8) -> Result<Box<Term>, AllocError> {
        match self.types.number_of(TyForm::AuthForm(wanted)) {
            Some(ty) => {
                let held = self.term(env, ty, levels)?;
                self.boxed(Term::Unauth(wanted, held))
            }
            None => self.made(env, wanted, levels),
        }
    }

    /// A choice by the constructor of a chain.
    #[cycle(making)]
    fn matched(&mut self, env: &[TyId], wanted: TyId, levels: u8) -> Result<Box<Term>, AllocError> {
        let subject = self.term(env, at(self.ids, crate::kinds::CHAIN), levels)?;
        let mut arms = Vec::new(self.alloc);
        for named in self.named {
            for constructor in &named.constructors {
                let inner = extended(env, &constructor.fields, self.alloc)?;
                let arm = self.term(&inner, wanted, levels)?;
                arms.push(Box::into_inner(arm))?;
            }
        }
        self.boxed(Term::Match {
            named: NamedId(0),
            subject,
            arms,
        })
    }

    /// A term that makes a value of a type.
    #[cycle(making)]
    fn made(&mut self, env: &[TyId], wanted: TyId, levels: u8) -> Result<Box<Term>, AllocError> {
        match self.types.form(wanted) {
            TyForm::BoolForm => self.bool(env, levels),
            TyForm::IntForm => self.int(env, levels),
            TyForm::AuthForm(part) => {
                let inner = self.term(env, part, levels)?;
                self.boxed(Term::Auth(part, inner))
            }
            TyForm::PairForm(first, second) => {
                let (x, y) = self.both(env, (first, second), levels)?;
                self.boxed(Term::Pair(first, second, x, y))
            }
            TyForm::NamedForm(named) => self.constructed(env, named, levels),
            TyForm::VecForm(count, item) => self.array(env, wanted, (count, item), levels),
            _ => self.boxed(Term::UnitLiteral),
        }
    }

    /// A bool, or a comparison of two ints.
    #[cycle(making)]
    fn bool(&mut self, env: &[TyId], levels: u8) -> Result<Box<Term>, AllocError> {
        if levels < PLAIN_LEVELS {
            let value = self.numbers.below(2) == 0;
            return self.boxed(Term::BoolLiteral(value));
        }
        let int = at(self.ids, 2);
        let (x, y) = self.both(env, (int, int), levels)?;
        let compare = match self.numbers.below(3) {
            0 => Compare::Eq,
            1 => Compare::Lt,
            _ => Compare::Le,
        };
        self.boxed(Term::Compare(compare, x, y))
    }

    /// An int, mostly a small one, or an operation on two ints.
    #[cycle(making)]
    fn int(&mut self, env: &[TyId], levels: u8) -> Result<Box<Term>, AllocError> {
        if levels < PLAIN_LEVELS || self.numbers.below(2) == 0 {
            let value = self.literal();
            return self.boxed(Term::IntLiteral(value));
        }
        let int = at(self.ids, 2);
        let (x, y) = self.both(env, (int, int), levels)?;
        let op = self.numbers.below(ARITHS.len());
        self.boxed(Term::Arith(ARITHS[op], x, y))
    }

    fn literal(&mut self) -> i64 {
        let place = self.numbers.below(40);
        match INTS.get(place) {
            Some(value) => *value,
            None if place < 30 => 0,
            None => 1,
        }
    }

    /// A constructor's value: one without fields where only few levels are left.
    #[cycle(making)]
    fn constructed(
        &mut self,
        env: &[TyId],
        number: NamedId,
        levels: u8,
    ) -> Result<Box<Term>, AllocError> {
        let Some(named) = self.named.get(number.0) else {
            return self.boxed(Term::UnitLiteral);
        };
        let place = if levels < PLAIN_LEVELS {
            0
        } else {
            self.numbers.below(named.constructors.len())
        };
        match (named.constructors.get(place), u8::try_from(place)) {
            (Some(constructor), Ok(tag)) => {
                let fields = self.row(env, &constructor.fields, levels)?;
                self.boxed(Term::Constructor(number, Tag(tag), fields))
            }
            _ => self.boxed(Term::UnitLiteral),
        }
    }

    /// An array, filled, or one with an element replaced.
    #[cycle(making)]
    fn array(
        &mut self,
        env: &[TyId],
        wanted: TyId,
        form: (u8, TyId),
        levels: u8,
    ) -> Result<Box<Term>, AllocError> {
        let (count, item) = form;
        if levels < PLAIN_LEVELS || self.numbers.below(2) == 0 {
            let operands = self.row(env, &[item], levels)?;
            return self.boxed(Term::Operate(Operation::VecFill(count, item), operands));
        }
        let operands = self.row(env, &[wanted, at(self.ids, 2), item], levels)?;
        self.boxed(Term::Operate(Operation::VecPut(count, item), operands))
    }
}
