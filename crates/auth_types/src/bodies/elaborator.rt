// What elaborates bodies: the types so far, what the program declares, and the locals at the place where it stands.
ghost use Rattle.std.specs.Prelude.{◌≡◌, ◌<◌, ◌∷◌, ◌++◌, [], List, true, bytes_eq, drop, length, take, Some, nat_lt, slice_get, unwrap_or, IfOk, IfSome, OnOk};
ghost use Rattle.std.specs.List.{list_any};
ghost use Rattle.core_terms.specs.Programs.{types_in};
ghost use Rattle.core_terms.specs.Types.{Ty};
ghost use Rattle.auth_types.specs.Bodies.{last_named};
ghost use Rattle.auth_types.specs.Locals.{AreLocalsWithin, locals_meant};
ghost use Rattle.declared_types.specs.Scopes.{IsWithin};

use crate::bodies::Typed;
use auth_syntax::tree::PlacedName;
use core_terms::{LocalId, Name, Term, Text, TyForm, TyId, TyTable};
use declared_types::fault::{Limited, TypeFault, TypeKind};
use declared_types::scope::Scope;
use declared_types::written_types::may_have;
use lexemes::place::Place;
use std::alloc::{AllocError, Global};

/// How many locals there may be at one place.
const MOST_LOCALS: usize = 255;

/// A local where it may be named. Its number is its place among the locals.
#[derive(Drop)]
pub(super) struct Local<'a> {
    name: &'a [u8],
    ty: TyId,
}

/// The number of the innermost local of a name.
fn innermost(locals: &[Local<'_>], name: &Name) -> Option<usize>
    ensures found { (types : List Ty) → last_named 0 (locals_meant types locals.now) name.now ≡ result }
    ensures inside { IfSome result (λ number. number < length locals.now) }
{
    let mut found = None;
    for (number, local) in locals.iter().enumerate() {
        if local.name == name.as_bytes() {
            found = Some(number);
        }
    }
    found
}

/// Whether a local behind the first so many has this name.
fn has_name(locals: &[Local<'_>], outer: usize, name: &Name) -> bool
    ensures { result ≡ list_any (λ (l : Local). bytes_eq l.name.now name.now) (drop outer locals.now) }
{
    locals
        .iter()
        .skip(outer)
        .any(|local| local.name == name.as_bytes())
}

/// Elaborates bodies over the types so far. Each number of a type that it holds is in the table.
#[derive(Drop)]
pub(super) struct Elaborator<'s, 'a> {
    pub(super) alloc: Global,
    pub(super) scope: &'s Scope<'a>,
    types: TyTable,
    locals: Vec<Local<'a>>,
    ghost scope_within: { IsWithin (length (types_in types)) scope.now },
    ghost locals_within: { AreLocalsWithin (length (types_in types)) locals.items },
}

impl<'s, 'a> Elaborator<'s, 'a> {
    ghost use Rattle.core_terms.specs.ProgramTrees.{expression_of};
    ghost use Rattle.core_terms.specs.TypeTables.{is_form_in, stands_behind, type_of_form, type_at};
    ghost use Rattle.core_terms.specs.Texts.{bytes_of};
    ghost use Rattle.core_terms.specs.Terms.{TextE};
    ghost use Rattle.core_terms.specs.Types.{TextTy, UnitTy, same_type};
    ghost use Rattle.auth_syntax.specs.Syntax.{LocalSyntax};
    ghost use Rattle.auth_types.specs.Bodies as specified;
    ghost use Rattle.auth_types.specs.Bodies.{most_locals, typed, wanted, wanted_arm};
    ghost use Rattle.declared_types.specs.Checking.{Checking, Sound, is_among, unless_fault};
    ghost use Rattle.declared_types.specs.declared.fault.TypeKind.TheVariants.{Limit, WrongType};
    ghost use Rattle.declared_types.specs.declared.fault.Limited.TheVariants.{Locals};
    ghost use Rattle.declared_types.specs.OverTypes.{FindsOver, Shows};
    ghost use Rattle.declared_types.specs.Findings.{Finds};
    ghost use Rattle.declared_types.specs.Scopes.{scope_meant};
    ghost use Rattle.declared_types.specs.WrittenTypes.{may_have};
    ghost use Rattle.auth_types.specs.Locals.{names_of};
    ghost use Rattle.auth_types.specs.Elaborators.{Keeps, ShowsTerm, boxed_of, found_at, locals_of, scope_of, typed_of, types_of, want_of};

    /// Before a body, with no locals.
    pub(super) fn new(alloc: Global, types: TyTable, scope: &'s Scope<'a>) -> Self
        requires within { IsWithin (length (types_in types)) scope.now }
        ensures types { types_of result ≡ types_in types }
        ensures scope { scope_of result ≡ scope_meant types.format (types_in types) scope.now }
        ensures locals { locals_of result ≡ [] }
    {
        Elaborator {
            alloc,
            scope,
            types,
            locals: Vec::new(alloc),
        }
    }

    /// The number of the type of this form.
    pub(super) fn intern(&mut self, form: TyForm) -> Result<TyId, AllocError>
        requires parts { stands_behind (length (types_of self.old)) form ≡ true }
        requires format { is_form_in (scope_of self.old).format form ≡ true }
        ensures keeps { OnOk result (Keeps self.old self.new) }
        ensures number { IfOk result (λ id. slice_get (types_of self.new) id.0 ≡ Some (type_of_form (types_of self.old) form)) }
        ensures inside { IfOk result (λ id. id.0 < length (types_of self.new)) }
    {
        self.types.intern(form)
    }

    /// The type that is wanted of all arms of a match. Where there are none it is `unit`.
    pub(super) fn wanted_or_unit(&mut self, wanted: Option<TyId>) -> Result<TyId, AllocError>
        requires { IfSome wanted (λ ty. ty.0 < length (types_of self.old)) }
        ensures keeps { OnOk result (Keeps self.old self.new) }
        ensures found { IfOk result (λ id. (more : List Ty) → type_at (types_of self.new ++ more) id ≡ unwrap_or (want_of (types_of self.old) wanted) UnitTy) }
        ensures inside { IfOk result (λ id. id.0 < length (types_of self.new)) }
    {
        match wanted {
            Some(ty) => Ok(ty),
            None => self.intern(TyForm::UnitForm),
        }
    }

    /// The form of a type.
    pub(super) fn form(&self, ty: TyId) -> TyForm
        ensures form { type_of_form (types_of self.now) result ≡ type_at (types_of self.now) ty }
        ensures parts { stands_behind ty.0 result ≡ true }
        ensures format { is_form_in (scope_of self.now).format result ≡ true }
    {
        self.types.form(ty)
    }

    /// Whether the program may have arrays of so many elements.
    pub(super) fn may_have(&self, count: u8) -> bool
        ensures { result ≡ may_have (scope_of self.now).format count }
    {
        may_have(self.types.format(), count)
    }

    /// The term at this place, which has this type.
    pub(super) fn wanted(&self, at: Place, ty: TyId, part: Typed) -> Result<Box<Term>, TypeFault>
        requires wanted { ty.0 < length (types_of self.now) }
        requires part { part.ty.0 < length (types_of self.now) }
        ensures { (found : Checking specified.Typed) → Shows (types_of self.now) typed_of found part → FindsOver (types_of self.now) boxed_of (wanted at (type_at (types_of self.now) ty) found) result }
    {
        if self.types.is_same(part.ty, ty) {
            Ok(part.term)
        } else {
            Err(TypeFault::At(TypeKind::WrongType, at))
        }
    }

    /// The type at this place is the one that is wanted.
    pub(super) fn compared(&self, at: Place, wanted: TyId, ty: TyId) -> Result<(), TypeFault>
        requires wanted { wanted.0 < length (types_of self.now) }
        requires ty { ty.0 < length (types_of self.now) }
        ensures { (locals : List specified.Local) → Finds (λ _. locals) (unless_fault (same_type (type_at (types_of self.now) ty) (type_at (types_of self.now) wanted)) WrongType at (Sound locals)) result }
    {
        if self.types.is_same(ty, wanted) {
            Ok(())
        } else {
            Err(TypeFault::At(TypeKind::WrongType, at))
        }
    }

    /// The body of an arm at this place, whose type may be wanted.
    pub(super) fn wanted_arm(
        &self,
        at: Place,
        wanted: Option<TyId>,
        body: Typed,
    ) -> Result<Typed, TypeFault>
        requires wanted { IfSome wanted (λ ty. ty.0 < length (types_of self.now)) }
        requires body { body.ty.0 < length (types_of self.now) }
        ensures found { (found : Checking specified.Typed) → Shows (types_of self.now) typed_of found body → FindsOver (types_of self.now) typed_of (wanted_arm (want_of (types_of self.now) wanted) at found) result }
        ensures inside { IfOk result (λ typed. typed.ty.0 < length (types_of self.now)) }
    {
        match wanted {
            Some(ty) => {
                let term = self.wanted(at, ty, body)?;
                Ok(Typed { term, ty })
            }
            None => Ok(body),
        }
    }

    /// A term of this type.
    pub(super) fn typed(&self, term: Term, ty: TyId) -> Result<Typed, TypeFault>
        requires { ty.0 < length (types_of self.now) }
        ensures found { (found : Checking specified.Typed) → ShowsTerm (types_of self.now) found term ty → FindsOver (types_of self.now) typed_of found result }
        ensures inside { IfOk result (λ typed. typed.ty.0 < length (types_of self.now)) }
    {
        let term = Box::new(self.alloc, term)?;
        Ok(Typed { term, ty })
    }

    /// A term whose type has this form, and no parts.
    pub(super) fn plain(&mut self, term: Term, form: TyForm) -> Result<Typed, TypeFault>
        requires { stands_behind 0 form ≡ true }
        ensures keeps { OnOk result (Keeps self.old self.new) }
        ensures found { (found : Checking specified.Typed) → (Keeps self.old self.new → (more : List Ty) → found ≡ typed (expression_of (types_of self.new ++ more) term) (type_of_form [] form)) → FindsOver (types_of self.new) typed_of found result }
        ensures inside { IfOk result (λ typed. typed.ty.0 < length (types_of self.new)) }
    {
        let ty = self.intern(form)?;
        self.typed(term, ty)
    }

    /// A text, which is copied.
    pub(super) fn text(&mut self, text: &Text) -> Result<Typed, TypeFault>
        ensures keeps { OnOk result (Keeps self.old self.new) }
        ensures found { FindsOver (types_of self.new) typed_of (typed (TextE (bytes_of text.now)) TextTy) result }
        ensures inside { IfOk result (λ typed. typed.ty.0 < length (types_of self.new)) }
    {
        self.plain(
            Term::TextLiteral(text.copied(self.alloc)?),
            TyForm::TextForm,
        )
    }

    /// The innermost local of a name that stands at this place.
    pub(super) fn local(&self, at: Place, name: &Name) -> Result<Typed, TypeFault>
        ensures found { FindsOver (types_of self.now) typed_of (found_at self.now (LocalSyntax at name.now)) result }
        ensures inside { IfOk result (λ typed. typed.ty.0 < length (types_of self.now)) }
    {
        match innermost(&self.locals, name) {
            Some(number) => self.typed(Term::Local(LocalId(number)), self.locals[number].ty),
            None => Err(TypeFault::At(TypeKind::UnknownName, at)),
        }
    }

    /// The number of locals.
    pub(super) fn depth(&self) -> usize
        ensures { result ≡ length (locals_of self.now) }
    {
        self.locals.len()
    }

    /// Binds a name to a value of this type, as the next local. There may be 255 at one place.
    pub(super) fn bind(&mut self, name: &'a PlacedName, ty: TyId) -> Result<(), TypeFault>
        requires { ty.0 < length (types_of self.old) }
        ensures types { types_of self.new ≡ types_of self.old }
        ensures scope { scope_of self.new ≡ scope_of self.old }
        ensures found { Finds (λ _. locals_of self.new) (unless_fault (nat_lt (length (locals_of self.old)) most_locals) (Limit Locals) name.now.at (Sound (locals_of self.old ++ record { name = name.now.name; of_type = type_at (types_of self.old) ty } ∷ []))) result }
    {
        if self.depth() >= MOST_LOCALS {
            return Err(TypeFault::At(TypeKind::Limit(Limited::Locals), name.at));
        }
        Ok(self.push(name, ty)?)
    }

    /// The same for a parameter, of which a function may have only a few.
    pub(super) fn push(&mut self, name: &'a PlacedName, ty: TyId) -> Result<(), AllocError>
        requires { ty.0 < length (types_of self.old) }
        ensures types { types_of self.new ≡ types_of self.old }
        ensures scope { scope_of self.new ≡ scope_of self.old }
        ensures locals { OnOk result (locals_of self.new ≡ locals_of self.old ++ record { name = name.now.name; of_type = type_at (types_of self.old) ty } ∷ []) }
    {
        let name = name.name.as_bytes();
        self.locals.push(Local { name, ty })?;
        Ok(())
    }

    /// Whether one of the locals behind the first so many has this name.
    pub(super) fn is_bound_behind(&self, outer: usize, name: &Name) -> bool
        ensures { result ≡ is_among name.now (names_of (drop outer (locals_of self.now))) }
    {
        has_name(&self.locals, outer, name)
    }

    /// Leaves the place of the locals behind the first so many.
    pub(super) fn close(&mut self, outer: usize)
        ensures types { types_of self.new ≡ types_of self.old }
        ensures scope { scope_of self.new ≡ scope_of self.old }
        ensures locals { locals_of self.new ≡ take outer (locals_of self.old) }
    {
        self.locals.truncate(outer);
    }

    /// The table, where all bodies are elaborated.
    pub(super) fn into_types(self) -> TyTable
        ensures types { types_in result ≡ types_of self.entry }
        ensures format { result.format ≡ (scope_of self.entry).format }
    {
        self.types
    }
}
