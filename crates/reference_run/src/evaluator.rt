// The evaluator: a recursion on terms, with the values of the locals and the fuel left.
ghost use Rattle.std.specs.Prelude.{◌≡◌, ◌≤◌, map};
ghost use Rattle.core_terms.specs.Programs.{meaning, types_of};
ghost use Rattle.core_terms.specs.ProgramTrees.{function_of};
ghost use Rattle.reference_run.specs.Evaluations.{ArmEvaluates, BothEvaluate, CallEvaluates, ChoiceEvaluates, Evaluates, LetEvaluates, RowEvaluates};
ghost use Rattle.reference_run.specs.PlainValues.{plain_of, plains_of};
ghost use Rattle.reference_run.specs.Telling.{pair_values, row_values};

use crate::arrays::operate;
use crate::copies::{literal, local, with_local, with_locals};
use crate::ints::{arith, compare};
use crate::measures::{new_constructor, new_pair};
use crate::operations::{first, negation, second};
use crate::stop::Stop;
use crate::texts::{cat, compare_texts, len};
use crate::values::{Plain, bool_in, fields_in, tag_in};
use core_terms::{Function, FunctionId, Program, Term};
use std::alloc::Global;

/// What each evaluation needs: the program, its functions, and where memory comes from.
#[derive(Clone, Copy)]
pub(crate) struct Evaluator<'a> {
    program: &'a Program,
    functions: &'a [Function],
    alloc: Global,
}

impl<'a> Evaluator<'a> {
    /// The evaluator of a program.
    pub(crate) fn new(program: &'a Program, alloc: Global) -> Evaluator<'a>
        ensures program { result.program.now ≡ program.now }
        ensures functions { map (function_of (types_of program.now)) result.functions.now ≡ (meaning program.now).functions }
    {
        Evaluator {
            program,
            functions: program.functions(),
            alloc,
        }
    }
}

impl Evaluator<'_> {
    /// Evaluates a term. Parts are evaluated from left to right, and the first that gives no value ends the evaluation.
    #[cycle(terms)]
    fn eval(&self, term: &Term, locals: &[Plain], fuel: &mut u64) -> Result<Plain, Stop>
        ensures value { Evaluates self.now term.now locals.now fuel.old fuel.new result }
        ensures fuel { fuel.new ≤ fuel.old }
    {
        match term {
            Term::UnitLiteral => Ok(Plain::UnitValue),
            Term::BoolLiteral(value) => Ok(Plain::BoolValue(*value)),
            Term::IntLiteral(value) => Ok(Plain::IntValue(*value)),
            Term::TextLiteral(text) => literal(text, self.alloc),
            Term::Local(id) => local(locals, *id, self.alloc),
            Term::Pair(a, b, x, y) => {
                let operands = self.both(x, y, locals, fuel);
                new_pair(self.program, (*a, *b), operands, self.alloc)
            }
            Term::Fst(_, _, pair) => first(self.eval(pair, locals, fuel)),
            Term::Snd(_, _, pair) => second(self.eval(pair, locals, fuel)),
            Term::Not(test) => negation(self.eval(test, locals, fuel)),
            Term::Len(text) => len(self.eval(text, locals, fuel)),
            // what is authenticated is its value
            Term::Auth(_, x) => self.eval(x, locals, fuel),
            Term::Unauth(_, x) => self.eval(x, locals, fuel),
            Term::Constructor(named, tag, fields) => {
                let fields = self.row(fields, locals, fuel);
                new_constructor(self.program, *named, *tag, fields)
            }
            Term::Arith(op, x, y) => arith(*op, self.both(x, y, locals, fuel)),
            Term::Compare(op, x, y) => compare(*op, self.both(x, y, locals, fuel)),
            Term::TextCompare(op, x, y) => compare_texts(*op, self.both(x, y, locals, fuel)),
            Term::Cat(x, y) => {
                let operands = self.both(x, y, locals, fuel);
                cat(self.program, operands, self.alloc)
            }
            Term::Let {
                bound_type: _,
                bound,
                body,
            } => self.bound_in(bound, body, locals, fuel),
            Term::If { test, first, other } => self.choice(test, first, other, locals, fuel),
            Term::Match {
                named: _,
                subject,
                arms,
            } => self.arm(subject, arms, locals, fuel),
            Term::Call(function, arguments) => {
                let arguments = self.row(arguments, locals, fuel);
                self.call(*function, arguments, fuel)
            }
            Term::Operate(operation, operands) => {
                let operands = self.row(operands, locals, fuel);
                operate(self.program, *operation, operands, self.alloc)
            }
        }
    }

    /// Evaluates two terms.
    #[cycle(terms)]
    fn both(
        &self,
        x: &Term,
        y: &Term,
        locals: &[Plain],
        fuel: &mut u64,
    ) -> Result<(Plain, Plain), Stop>
        ensures value { BothEvaluate self.now x.now y.now locals.now fuel.old fuel.new result }
        ensures fuel { fuel.new ≤ fuel.old }
    {
        let x = self.eval(x, locals, fuel)?;
        let y = self.eval(y, locals, fuel)?;
        Ok((x, y))
    }

    /// Evaluates terms in a row.
    #[cycle(terms)]
    fn row(&self, terms: &[Term], locals: &[Plain], fuel: &mut u64) -> Result<Vec<Plain>, Stop>
        ensures value { RowEvaluates self.now terms.now locals.now fuel.old fuel.new result }
        ensures fuel { fuel.new ≤ fuel.old }
    {
        let mut values = Vec::new(self.alloc);
        for term in terms {
            let value = self.eval(term, locals, fuel)?;
            values.push(value)?;
        }
        Ok(values)
    }

    /// Evaluates a term, and then a body in which its value is the next local.
    #[cycle(terms)]
    fn bound_in(
        &self,
        bound: &Term,
        body: &Term,
        locals: &[Plain],
        fuel: &mut u64,
    ) -> Result<Plain, Stop>
        ensures value { LetEvaluates self.now bound.now body.now locals.now fuel.old fuel.new result }
        ensures fuel { fuel.new ≤ fuel.old }
    {
        let value = self.eval(bound, locals, fuel)?;
        let inner = with_local(locals, value, self.alloc)?;
        self.eval(body, &inner, fuel)
    }

    /// Evaluates a test, and then one of two terms.
    #[cycle(terms)]
    fn choice(
        &self,
        test: &Term,
        first: &Term,
        other: &Term,
        locals: &[Plain],
        fuel: &mut u64,
    ) -> Result<Plain, Stop>
        ensures value { ChoiceEvaluates self.now test.now first.now other.now locals.now fuel.old fuel.new result }
        ensures fuel { fuel.new ≤ fuel.old }
    {
        let test = self.eval(test, locals, fuel)?;
        if bool_in(&test) {
            self.eval(first, locals, fuel)
        } else {
            self.eval(other, locals, fuel)
        }
    }

    /// Evaluates a subject, and then the arm of its constructor, in which the fields are the next locals. An arm that isn't
    /// there gives `()`, as in the definitions.
    #[cycle(terms)]
    fn arm(
        &self,
        subject: &Term,
        arms: &[Term],
        locals: &[Plain],
        fuel: &mut u64,
    ) -> Result<Plain, Stop>
        ensures value { ArmEvaluates self.now subject.now arms.now locals.now fuel.old fuel.new result }
        ensures fuel { fuel.new ≤ fuel.old }
    {
        let subject = self.eval(subject, locals, fuel)?;
        let tag = tag_in(&subject);
        let inner = with_locals(locals, fields_in(subject, self.alloc), self.alloc)?;
        match arms.get(tag) {
            Some(arm) => self.eval(arm, &inner, fuel),
            None => Ok(Plain::UnitValue),
        }
    }

    /// Calls a function on these arguments. It takes one unit of fuel, and is out where none is left. A function that isn't there
    /// gives `()`, as in the definitions.
    #[cycle(terms)]
    pub(crate) fn call(
        &self,
        function: FunctionId,
        arguments: Result<Vec<Plain>, Stop>,
        fuel: &mut u64,
    ) -> Result<Plain, Stop>
        ensures value { CallEvaluates self.now function.0 arguments fuel.old fuel.new result }
        ensures fuel { fuel.new ≤ fuel.old }
    {
        let arguments = arguments?;
        let Some(left) = fuel.checked_sub(1) else {
            return Err(Stop::Out);
        };
        *fuel = left;
        match self.functions.get(function.0) {
            Some(function) => self.eval(&function.body, &arguments, fuel),
            None => Ok(Plain::UnitValue),
        }
    }
}
