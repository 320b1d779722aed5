// Whether a term has a type, within the limits of a program.
ghost use Rattle.std.specs.Prelude.{◌≡◌, ◌≤◌, ◌++◌, [], map, suc, true, length, Some, slice_get, unwrap_or, IfOk, IsTrue};
ghost use Rattle.core_terms.specs.Programs.{types_in};
ghost use Rattle.core_terms.specs.ProgramTrees.{arms_in_a_row, expression_of, in_a_row, operation_of, types_at};
ghost use Rattle.core_terms.specs.Terms.{OperateE};
ghost use Rattle.core_terms.specs.TypingRules.{OnFunction};
ghost use Rattle.core_terms.specs.TypeTables.{type_at, type_of_form};
ghost use Rattle.core_terms.specs.Types.{OnFields, fields_at, is_length};
ghost use Rattle.core_terms.specs.Values.{int_fits};
ghost use Rattle.core_terms.specs.declared.term.Constructor as constructor;
ghost use Rattle.core_terms.specs.declared.types.TyForm.TheVariants as forms;
ghost use Rattle.term_stage.specs.Fitting.{ArmsFit, FitBoth, Fits, RowFits, judged};

use crate::flat::is_form;
use core_terms::{
    Constructor, Function, FunctionId, LocalId, NamedId, NamedType, Operation, Tag, Term, TyForm,
    TyId, TyTable,
};
use std::alloc::{AllocError, Global};

/// How many locals there may be at a place.
const MOST_LOCALS: usize = 255;

/// What stands behind a program's terms: the parts of the program.
#[derive(Clone, Copy)]
pub struct Judge<'a> {
    pub types: &'a TyTable,
    pub named: &'a [NamedType],
    pub state: TyId,
    pub functions: &'a [Function],
    pub alloc: Global,
}

impl Judge<'_> {
    /// Whether a term has the type of a form and at most so many levels. It takes the number of its expressions from what is left.
    #[cycle(judging)]
    pub fn fits(
        &self,
        env: &[TyId],
        term: &Term,
        wanted: TyForm,
        levels: u8,
        left: &mut u32,
    ) -> bool
        ensures { let P = judged self.now.types.now self.now.named.now self.now.state self.now.functions.now in let T = types_in self.now.types.now in IsTrue result → Fits P (types_at T env.now) (expression_of T term.now) (type_of_form T wanted) levels left.old left.new }
    {
        if levels == 0 || *left == 0 || env.len() > MOST_LOCALS {
            return false;
        }
        *left -= 1;
        self.is_term(env, term, wanted, levels - 1, left)
    }

    /// The same of a type that is in the table.
    #[cycle(judging)]
    fn fits_at(&self, env: &[TyId], term: &Term, ty: TyId, levels: u8, left: &mut u32) -> bool
        ensures { let P = judged self.now.types.now self.now.named.now self.now.state self.now.functions.now in let T = types_in self.now.types.now in IsTrue result → Fits P (types_at T env.now) (expression_of T term.now) (type_at T ty) levels left.old left.new }
    {
        self.fits(env, term, self.types.form(ty), levels, left)
    }

    /// The same, where its parts may have so many levels, and the term itself is taken from what is left already.
    #[cycle(judging)]
    fn is_term(&self, env: &[TyId], term: &Term, wanted: TyForm, levels: u8, left: &mut u32) -> bool
        requires { length env.now ≤ 255 }
        ensures { let P = judged self.now.types.now self.now.named.now self.now.state self.now.functions.now in let T = types_in self.now.types.now in IsTrue result → Fits P (types_at T env.now) (expression_of T term.now) (type_of_form T wanted) (suc levels) (suc left.old) left.new }
    {
        match term {
            Term::UnitLiteral => is_form(wanted, TyForm::UnitForm),
            Term::BoolLiteral(_) => is_form(wanted, TyForm::BoolForm),
            Term::IntLiteral(value) => is_int(*value, wanted),
            Term::Local(id) => self.is_local(env, *id, wanted),
            Term::Pair(a, b, x, y) => {
                is_form(wanted, TyForm::PairForm(*a, *b))
                    && self.both(
                        env,
                        (x, self.types.form(*a)),
                        (y, self.types.form(*b)),
                        levels,
                        left,
                    )
            }
            Term::Fst(a, b, x) => {
                is_form(wanted, self.types.form(*a))
                    && self.fits(env, x, TyForm::PairForm(*a, *b), levels, left)
            }
            Term::Snd(a, b, x) => {
                is_form(wanted, self.types.form(*b))
                    && self.fits(env, x, TyForm::PairForm(*a, *b), levels, left)
            }
            Term::Auth(ty, x) => {
                is_form(wanted, TyForm::AuthForm(*ty)) && self.fits_at(env, x, *ty, levels, left)
            }
            Term::Unauth(ty, x) => {
                is_form(wanted, self.types.form(*ty))
                    && self.fits(env, x, TyForm::AuthForm(*ty), levels, left)
            }
            Term::Constructor(named, tag, fields) => {
                is_form(wanted, TyForm::NamedForm(*named))
                    && self.constructed(env, (*named, *tag), fields, levels, left)
            }
            Term::Arith(_, x, y) => {
                is_form(wanted, TyForm::IntForm)
                    && self.both(
                        env,
                        (x, TyForm::IntForm),
                        (y, TyForm::IntForm),
                        levels,
                        left,
                    )
            }
            Term::Compare(_, x, y) => {
                is_form(wanted, TyForm::BoolForm)
                    && self.both(
                        env,
                        (x, TyForm::IntForm),
                        (y, TyForm::IntForm),
                        levels,
                        left,
                    )
            }
            Term::Let {
                bound_type,
                bound,
                body,
            } => {
                self.fits_at(env, bound, *bound_type, levels, left)
                    && self.fits_under(env, &[*bound_type], (body, wanted), levels, left)
            }
            Term::If { test, first, other } => {
                self.fits(env, test, TyForm::BoolForm, levels, left)
                    && self.both(env, (first, wanted), (other, wanted), levels, left)
            }
            Term::Match {
                named,
                subject,
                arms,
            } => {
                self.fits(env, subject, TyForm::NamedForm(*named), levels, left)
                    && self.arms_fit(env, (*named, arms), wanted, levels, left)
            }
            Term::Call(function, arguments) => {
                self.called(env, (*function, arguments), wanted, levels, left)
            }
            Term::Operate(operation, operands) => {
                self.operated(env, (*operation, operands), wanted, levels, left)
            }
            _ => false,
        }
    }

    /// Whether a local has the type of a form.
    fn is_local(&self, env: &[TyId], id: LocalId, wanted: TyForm) -> bool
        ensures { let T = types_in self.now.types.now in IsTrue result → slice_get (types_at T env.now) id.0 ≡ Some (type_of_form T wanted) }
    {
        match env.get(id.0) {
            Some(ty) => is_form(wanted, self.types.form(*ty)),
            None => false,
        }
    }

    /// Whether two terms have the types of forms.
    #[cycle(judging)]
    fn both(
        &self,
        env: &[TyId],
        x: (&Term, TyForm),
        y: (&Term, TyForm),
        levels: u8,
        left: &mut u32,
    ) -> bool
        ensures { let P = judged self.now.types.now self.now.named.now self.now.state self.now.functions.now in let T = types_in self.now.types.now in IsTrue result → FitBoth P (types_at T env.now) (expression_of T x.entry.0.now) (type_of_form T x.entry.1) (expression_of T y.entry.0.now) (type_of_form T y.entry.1) levels left.old left.new }
    {
        self.fits(env, x.0, x.1, levels, left) && self.fits(env, y.0, y.1, levels, left)
    }
    /// Whether a term has the type of a form where these are the next locals.
    #[cycle(judging)]
    fn fits_under(
        &self,
        env: &[TyId],
        more: &[TyId],
        term: (&Term, TyForm),
        levels: u8,
        left: &mut u32,
    ) -> bool
        ensures { let P = judged self.now.types.now self.now.named.now self.now.state self.now.functions.now in let T = types_in self.now.types.now in IsTrue result → Fits P (types_at T env.now ++ types_at T more.now) (expression_of T term.entry.0.now) (type_of_form T term.entry.1) levels left.old left.new }
    {
        match extended(env, more, self.alloc) {
            Ok(inner) => self.fits(&inner, term.0, term.1, levels, left),
            Err(_) => false,
        }
    }

    /// Whether terms in a row have these types.
    #[cycle(judging)]
    fn row_fits(
        &self,
        env: &[TyId],
        terms: &[Term],
        wanted: &[TyId],
        levels: u8,
        left: &mut u32,
    ) -> bool
        ensures { let P = judged self.now.types.now self.now.named.now self.now.state self.now.functions.now in let T = types_in self.now.types.now in IsTrue result → RowFits P (types_at T env.now) (in_a_row (map (expression_of T) terms.now)) (types_at T wanted.now) levels left.old left.new }
    {
        if terms.len() != wanted.len() || env.len() > MOST_LOCALS {
            return false;
        }
        for place in 0..terms.len() {
            if !self.fits_at(env, &terms[place], wanted[place], levels, left) {
                return false;
            }
        }
        true
    }

    /// Whether arms of constructors have the type of a form.
    #[cycle(judging)]
    fn each_arm_fits(
        &self,
        env: &[TyId],
        constructors: &[Constructor],
        arms: (&[Term], TyForm),
        levels: u8,
        left: &mut u32,
    ) -> bool
        ensures { let P = judged self.now.types.now self.now.named.now self.now.state self.now.functions.now in let T = types_in self.now.types.now in IsTrue result → ArmsFit P (types_at T env.now) (map (λ (c : constructor.Constructor). types_at T c.fields.items) constructors.now) (arms_in_a_row (map (expression_of T) arms.entry.0.now)) (type_of_form T arms.entry.1) levels left.old left.new }
    {
        let (arms, wanted) = arms;
        if arms.len() != constructors.len() || env.len() > MOST_LOCALS {
            return false;
        }
        for place in 0..arms.len() {
            if !self.fits_under(
                env,
                &constructors[place].fields,
                (&arms[place], wanted),
                levels,
                left,
            ) {
                return false;
            }
        }
        true
    }

    /// Whether arms of a named type have the type of a form.
    #[cycle(judging)]
    fn arms_fit(
        &self,
        env: &[TyId],
        arms: (NamedId, &[Term]),
        wanted: TyForm,
        levels: u8,
        left: &mut u32,
    ) -> bool
        ensures { let P = judged self.now.types.now self.now.named.now self.now.state self.now.functions.now in let T = types_in self.now.types.now in IsTrue result → ArmsFit P (types_at T env.now) (unwrap_or (slice_get P.types arms.entry.0.0) []) (arms_in_a_row (map (expression_of T) arms.entry.1.now)) (type_of_form T wanted) levels left.old left.new }
    {
        match self.named.get(arms.0.0) {
            Some(named) => self.each_arm_fits(
                env,
                &named.constructors,
                (arms.1, wanted),
                levels,
                left,
            ),
            None => false,
        }
    }

    /// Whether terms are the fields of a constructor.
    #[cycle(judging)]
    fn constructed(
        &self,
        env: &[TyId],
        made: (NamedId, Tag),
        fields: &[Term],
        levels: u8,
        left: &mut u32,
    ) -> bool
        ensures { let P = judged self.now.types.now self.now.named.now self.now.state self.now.functions.now in let T = types_in self.now.types.now in IsTrue result → OnFields (fields_at P.types made.0.0 made.1.0) (λ ts. RowFits P (types_at T env.now) (in_a_row (map (expression_of T) fields.now)) ts levels left.old left.new) }
    {
        let (number, tag) = made;
        match self.named.get(number.0) {
            Some(named) => match named.constructors.get(usize::from(tag.0)) {
                Some(constructor) => self.row_fits(env, fields, &constructor.fields, levels, left),
                None => false,
            },
            None => false,
        }
    }

    /// Whether terms are the arguments of a function, whose result has the type of a form.
    #[cycle(judging)]
    fn called(
        &self,
        env: &[TyId],
        call: (FunctionId, &[Term]),
        wanted: TyForm,
        levels: u8,
        left: &mut u32,
    ) -> bool
        ensures { let P = judged self.now.types.now self.now.named.now self.now.state self.now.functions.now in let T = types_in self.now.types.now in IsTrue result → OnFunction (slice_get P.functions call.entry.0.0) (λ g. (g.result ≡ type_of_form T wanted) × RowFits P (types_at T env.now) (in_a_row (map (expression_of T) call.entry.1.now)) g.parameters levels left.old left.new) }
    {
        match self.functions.get(call.0.0) {
            Some(function) => {
                is_form(wanted, self.types.form(function.result))
                    && self.row_fits(env, call.1, &function.parameters, levels, left)
            }
            None => false,
        }
    }

    /// Whether terms are the operands of an operation, whose result has the type of a form.
    #[cycle(judging)]
    fn operated(
        &self,
        env: &[TyId],
        operated: (Operation, &[Term]),
        wanted: TyForm,
        levels: u8,
        left: &mut u32,
    ) -> bool
        requires { length env.now ≤ 255 }
        ensures { let P = judged self.now.types.now self.now.named.now self.now.state self.now.functions.now in let T = types_in self.now.types.now in IsTrue result → Fits P (types_at T env.now) (OperateE (operation_of T operated.entry.0) (in_a_row (map (expression_of T) operated.entry.1.now))) (type_of_form T wanted) (suc levels) (suc left.old) left.new }
    {
        match operated {
            (Operation::VecFill(count, item), [x]) => {
                is_array(wanted, count, item) && self.fits_at(env, x, item, levels, left)
            }
            (Operation::VecGet(count, item), [array, index]) => {
                let form = TyForm::VecForm(count, item);
                is_array(form, count, item)
                    && is_form(wanted, self.types.form(item))
                    && self.both(env, (array, form), (index, TyForm::IntForm), levels, left)
            }
            (Operation::VecPut(count, item), [array, index, new]) => {
                if !is_array(wanted, count, item) {
                    return false;
                }
                if !self.both(env, (array, wanted), (index, TyForm::IntForm), levels, left) {
                    return false;
                }
                self.fits_at(env, new, item, levels, left)
            }
            _ => false,
        }
    }
}

/// Whether a form is that of an array of so many elements of a type, 1 to 64.
fn is_array(form: TyForm, count: u8, item: TyId) -> bool
    ensures form { IsTrue result → form ≡ forms.VecForm count item }
    ensures length { IsTrue result → is_length count ≡ true }
{
    count >= 1 && count <= 64 && is_form(form, TyForm::VecForm(count, item))
}

/// Whether a form is that of an int, as one that a literal tells.
fn is_int(value: i64, form: TyForm) -> bool
    ensures form { IsTrue result → form ≡ forms.IntForm }
    ensures fits { int_fits value ≡ true }
{
    is_form(form, TyForm::IntForm)
}

/// The locals, and these behind them.
pub fn extended(env: &[TyId], more: &[TyId], alloc: Global) -> Result<Vec<TyId>, AllocError>
    ensures { IfOk result (λ all. all.items ≡ env.now ++ more.now) }
{
    let mut all = Vec::from_slice(alloc, env)?;
    all.extend_from_slice(more)?;
    Ok(all)
}
