// Instructions that take operands of certain types, and put one in their place.
ghost use Rattle.std.specs.Prelude.{◌≡◌, ◌<◌, ◌≤◌, true, List, [], ◌∷◌, length, option_map, IfOk, IfSome};
ghost use Rattle.core_terms.specs.Types.{Ty, AuthTy, fields_at};
ghost use Rattle.core_terms.specs.Instructions as meant;
ghost use Rattle.core_terms.specs.Kinds as kinds;
ghost use Rattle.core_terms.specs.ProgramTrees.{are_below, has_types_below, types_at};
ghost use Rattle.core_terms.specs.Programs.{types_in};
ghost use Rattle.core_terms.specs.TypeTables.{stands_behind, type_at, type_of_form};
ghost use Rattle.code_check.specs.KindSteps.{IsAt, LeadsTo, IsCalled};
ghost use Rattle.code_check.specs.ObjectParts.{body_of_parts};
ghost use Rattle.code_check.specs.TypeLists.{Grows, IsLeft, IsList};

use crate::known::Frame;
use crate::lists::{Lists, interned, plain, stacked, taken_off, with_top};
use crate::parts::Parts;
use core_terms::{Function, FunctionId, NamedId, Tag, TyForm, TyId};
use std::alloc::AllocError;

/// Behind an operand of a type without parts.
pub fn pushed(lists: &mut Lists, form: TyForm, at: Frame) -> Result<Option<Frame>, AllocError>
    requires at { IsAt (types_in lists.old.types) at }
    requires form { stands_behind 0 form ≡ true }
    ensures next { IfOk result (LeadsTo (types_in lists.old.types) at (λ s. kinds.next s.locals (type_of_form [] form ∷ s.operands)) (types_in lists.new.types)) }
    ensures grows { Grows (types_in lists.old.types) (types_in lists.new.types) }
{
    let ty = plain(lists, form)?;
    let operands = with_top(lists, ty, at.operands)?;
    Ok(Some(Frame { operands, ..at }))
}

/// The operands without those of these types, the last of which is on top; none where one of them isn't there, or has another type.
fn without(lists: &mut Lists, takes: &[TyId], operands: TyId) -> Result<Option<TyId>, AllocError>
    requires takes { are_below (length (types_in lists.old.types)) takes.now ≡ true }
    requires operands { operands.0 < length (types_in lists.old.types) }
    ensures left { IfOk result (λ left. (os : List Ty) → IsList (types_in lists.old.types) operands os → IsLeft (types_in lists.new.types) (kinds.without (types_at (types_in lists.old.types) takes.now) os) left) }
    ensures within { IfOk result (λ left. IfSome left (λ id. id.0 < length (types_in lists.new.types))) }
    ensures grows { Grows (types_in lists.old.types) (types_in lists.new.types) }
    ensures longer { length (types_in lists.old.types) ≤ length (types_in lists.new.types) }
{
    let nothing = plain(lists, TyForm::UnitForm)?;
    let takes = stacked(lists, takes, nothing)?;
    Ok(taken_off(lists, takes, operands))
}

/// The operands without the top one, which has the type of a form without parts; none where it isn't there, or has another type.
pub fn without_plain(
    lists: &mut Lists,
    form: TyForm,
    operands: TyId,
) -> Result<Option<TyId>, AllocError>
    requires form { stands_behind 0 form ≡ true }
    requires operands { operands.0 < length (types_in lists.old.types) }
    ensures left { IfOk result (λ left. (os : List Ty) → IsList (types_in lists.old.types) operands os → IsLeft (types_in lists.new.types) (kinds.without_one (type_of_form [] form) os) left) }
    ensures within { IfOk result (λ left. IfSome left (λ id. id.0 < length (types_in lists.new.types))) }
    ensures grows { Grows (types_in lists.old.types) (types_in lists.new.types) }
    ensures longer { length (types_in lists.old.types) ≤ length (types_in lists.new.types) }
{
    let ty = plain(lists, form)?;
    without(lists, &[ty], operands)
}

/// Behind operands of the first types, in the place of which stands one of the second type.
fn behind_operands(
    lists: &mut Lists,
    takes: &[TyId],
    gives: TyId,
    at: Frame,
) -> Result<Option<Frame>, AllocError>
    requires at { IsAt (types_in lists.old.types) at }
    requires takes { are_below (length (types_in lists.old.types)) takes.now ≡ true }
    requires gives { gives.0 < length (types_in lists.old.types) }
    ensures next { IfOk result (LeadsTo (types_in lists.old.types) at (λ s. kinds.behind_operands (types_at (types_in lists.old.types) takes.now) (type_at (types_in lists.old.types) gives) s.locals s.operands) (types_in lists.new.types)) }
    ensures grows { Grows (types_in lists.old.types) (types_in lists.new.types) }
{
    let Some(left) = without(lists, takes, at.operands)? else {
        return Ok(None);
    };
    let operands = with_top(lists, gives, left)?;
    Ok(Some(Frame { operands, ..at }))
}

/// Behind an operation on one operand. Its type and that of the result have no parts.
pub fn unary(
    lists: &mut Lists,
    takes: TyForm,
    gives: TyForm,
    at: Frame,
) -> Result<Option<Frame>, AllocError>
    requires at { IsAt (types_in lists.old.types) at }
    requires takes { stands_behind 0 takes ≡ true }
    requires gives { stands_behind 0 gives ≡ true }
    ensures next { IfOk result (LeadsTo (types_in lists.old.types) at (λ s. kinds.behind_operands (type_of_form [] takes ∷ []) (type_of_form [] gives) s.locals s.operands) (types_in lists.new.types)) }
    ensures grows { Grows (types_in lists.old.types) (types_in lists.new.types) }
{
    let takes = plain(lists, takes)?;
    let gives = plain(lists, gives)?;
    behind_operands(lists, &[takes], gives, at)
}

/// Behind an operation on two operands of one type. It and that of the result have no parts.
pub fn binary(
    lists: &mut Lists,
    takes: TyForm,
    gives: TyForm,
    at: Frame,
) -> Result<Option<Frame>, AllocError>
    requires at { IsAt (types_in lists.old.types) at }
    requires takes { stands_behind 0 takes ≡ true }
    requires gives { stands_behind 0 gives ≡ true }
    ensures next { IfOk result (LeadsTo (types_in lists.old.types) at (λ s. kinds.behind_operands (type_of_form [] takes ∷ type_of_form [] takes ∷ []) (type_of_form [] gives) s.locals s.operands) (types_in lists.new.types)) }
    ensures grows { Grows (types_in lists.old.types) (types_in lists.new.types) }
{
    let takes = plain(lists, takes)?;
    let gives = plain(lists, gives)?;
    behind_operands(lists, &[takes, takes], gives, at)
}

/// Behind `auth` of a value of a type.
pub fn authenticated(lists: &mut Lists, ty: TyId, at: Frame) -> Result<Option<Frame>, AllocError>
    requires at { IsAt (types_in lists.old.types) at }
    requires ty { ty.0 < length (types_in lists.old.types) }
    ensures next { IfOk result (LeadsTo (types_in lists.old.types) at (λ s. kinds.behind_operands (type_at (types_in lists.old.types) ty ∷ []) (AuthTy (type_at (types_in lists.old.types) ty)) s.locals s.operands) (types_in lists.new.types)) }
    ensures grows { Grows (types_in lists.old.types) (types_in lists.new.types) }
{
    let auth = interned(lists, TyForm::AuthForm(ty))?;
    behind_operands(lists, &[ty], auth, at)
}

/// Behind `unauth` to a value of a type.
pub fn opened(lists: &mut Lists, ty: TyId, at: Frame) -> Result<Option<Frame>, AllocError>
    requires at { IsAt (types_in lists.old.types) at }
    requires ty { ty.0 < length (types_in lists.old.types) }
    ensures next { IfOk result (LeadsTo (types_in lists.old.types) at (λ s. kinds.behind_operands (AuthTy (type_at (types_in lists.old.types) ty) ∷ []) (type_at (types_in lists.old.types) ty) s.locals s.operands) (types_in lists.new.types)) }
    ensures grows { Grows (types_in lists.old.types) (types_in lists.new.types) }
{
    let auth = interned(lists, TyForm::AuthForm(ty))?;
    behind_operands(lists, &[auth], ty, at)
}

/// Behind a constructor of a named type, of its fields; none where there is no such constructor.
pub fn made(
    lists: &mut Lists,
    parts: &Parts,
    named: NamedId,
    tag: Tag,
    at: Frame,
) -> Result<Option<Frame>, AllocError>
    requires table { Grows (types_in parts.now.types) (types_in lists.old.types) }
    requires at { IsAt (types_in lists.old.types) at }
    ensures next { (z : Ty) → IfOk result (LeadsTo (types_in lists.old.types) at (λ s. kinds.ways (body_of_parts parts.now) z (meant.Make named.0 tag.0) s.locals s.operands) (types_in lists.new.types)) }
    ensures grows { Grows (types_in lists.old.types) (types_in lists.new.types) }
{
    let Some(fields) = fields_of(parts, named, tag) else {
        return Ok(None);
    };
    let gives = plain(lists, TyForm::NamedForm(named))?;
    behind_operands(lists, fields, gives, at)
}

/// The types of the fields of a constructor; none where there is no such constructor.
fn fields_of(parts: &Parts, named: NamedId, tag: Tag) -> Option<&[TyId]>
    ensures fields { option_map (λ fields. types_at (types_in parts.now.types) fields.now) result ≡ fields_at (body_of_parts parts.now).types named.0 tag.0 }
    ensures within { IfSome result (λ fields. are_below (length (types_in parts.now.types)) fields.now ≡ true) }
{
    let declared = parts.named.get(named.0)?;
    let constructor = declared.constructors.get(usize::from(tag.0))?;
    Some(&constructor.fields)
}

/// Behind a call of a function, on its arguments. Where there is no such function, a call takes nothing and gives `unit`.
pub fn called(
    lists: &mut Lists,
    parts: &Parts,
    function: FunctionId,
    at: Frame,
) -> Result<Option<Frame>, AllocError>
    requires table { Grows (types_in parts.now.types) (types_in lists.old.types) }
    requires at { IsAt (types_in lists.old.types) at }
    ensures next { (z : Ty) → IfOk result (LeadsTo (types_in lists.old.types) at (λ s. kinds.ways (body_of_parts parts.now) z (meant.Call function.0) s.locals s.operands) (types_in lists.new.types)) }
    ensures grows { Grows (types_in lists.old.types) (types_in lists.new.types) }
{
    match function_of(parts, function) {
        Some(function) => behind_operands(lists, &function.parameters, function.result, at),
        None => pushed(lists, TyForm::UnitForm, at),
    }
}

/// The function with a number; none where there is no function or no code with this number.
fn function_of(parts: &Parts, function: FunctionId) -> Option<&Function>
    ensures function { IsCalled parts.now function (option_map (λ function. function.now) result) }
    ensures within { IfSome result (λ function. has_types_below (length (types_in parts.now.types)) function.now ≡ true) }
{
    if function.0 < parts.code.len() {
        parts.functions.get(function.0)
    } else {
        None
    }
}
