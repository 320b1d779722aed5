// Where the instructions lead that lead to the next one alone.
ghost use Rattle.std.specs.Prelude.{◌≡◌, ◌<◌, true, List, length, reverse, slice_get, IfOk, IfSome};
ghost use Rattle.core_terms.specs.Types.{Ty};
ghost use Rattle.core_terms.specs.Bodies.{Body};
ghost use Rattle.core_terms.specs.InstructionViews.{instruction_of};
ghost use Rattle.core_terms.specs.Instructions as meant;
ghost use Rattle.core_terms.specs.Kinds as kinds;
ghost use Rattle.core_terms.specs.Programs.{types_in};
ghost use Rattle.code_check.specs.CodeTypes.{is_listable};
ghost use Rattle.code_check.specs.KindSteps.{IsAt, IsPairOn, LeadsTo, is_straight};
ghost use Rattle.code_check.specs.ObjectParts.{body_of_parts};
ghost use Rattle.code_check.specs.TypeLists.{Grows, IsList, IsThere};

use crate::known::Frame;
use crate::lists::{Lists, at, count, interned, top_of, with_top, without_first};
use crate::operations::{authenticated, binary, called, made, opened, pushed, unary};
use crate::parts::Parts;
use core_terms::{Instruction, LocalId, TyForm, TyId};
use std::alloc::AllocError;

/// The frame behind an instruction that leads to the next one alone; none where an operand or a local isn't there, or has another type.
pub fn step(
    lists: &mut Lists,
    parts: &Parts,
    instruction: &Instruction,
    at: Frame,
) -> Result<Option<Frame>, AllocError>
    requires table { Grows (types_in parts.now.types) (types_in lists.old.types) }
    requires at { IsAt (types_in lists.old.types) at }
    requires instruction { is_listable (length (types_in parts.now.types)) instruction.now ≡ true }
    ensures next { (z : Ty) → is_straight instruction.now ≡ true
        → IfOk result (LeadsTo (types_in lists.old.types) at (λ s. kinds.ways (body_of_parts parts.now) z (instruction_of (types_in parts.now.types) instruction.now) s.locals s.operands) (types_in lists.new.types)) }
    ensures grows { Grows (types_in lists.old.types) (types_in lists.new.types) }
{
    match instruction {
        Instruction::PushUnit => pushed(lists, TyForm::UnitForm, at),
        Instruction::PushBool(_) => pushed(lists, TyForm::BoolForm, at),
        Instruction::PushInt(_) => pushed(lists, TyForm::IntForm, at),
        Instruction::PushText(_) => pushed(lists, TyForm::TextForm, at),
        Instruction::Load(local) => loaded(lists, *local, at),
        Instruction::Bind => bound(lists, at),
        Instruction::Unbind(count) => Ok(unbound(lists, *count, at)),
        Instruction::Pair => paired(lists, at),
        Instruction::Fst => first_taken(lists, at),
        Instruction::Snd => second_taken(lists, at),
        Instruction::Make(named, tag) => made(lists, parts, *named, *tag, at),
        Instruction::Call(function) => called(lists, parts, *function, at),
        Instruction::Auth(ty) => authenticated(lists, *ty, at),
        Instruction::Unauth(ty) => opened(lists, *ty, at),
        Instruction::Arith(_) => binary(lists, TyForm::IntForm, TyForm::IntForm, at),
        Instruction::Compare(_) => binary(lists, TyForm::IntForm, TyForm::BoolForm, at),
        Instruction::TextCompare(_) => binary(lists, TyForm::TextForm, TyForm::BoolForm, at),
        Instruction::Cat => binary(lists, TyForm::TextForm, TyForm::TextForm, at),
        Instruction::Len => unary(lists, TyForm::TextForm, TyForm::IntForm, at),
        Instruction::Not => unary(lists, TyForm::BoolForm, TyForm::BoolForm, at),
        _ => Ok(None),
    }
}

/// Behind a local, which becomes the top operand.
fn loaded(lists: &mut Lists, local: LocalId, at: Frame) -> Result<Option<Frame>, AllocError>
    requires at { IsAt (types_in lists.old.types) at }
    ensures next { (B : Body) (z : Ty) → IfOk result (LeadsTo (types_in lists.old.types) at (λ s. kinds.ways B z (meant.Load local.0) s.locals s.operands) (types_in lists.new.types)) }
    ensures grows { Grows (types_in lists.old.types) (types_in lists.new.types) }
{
    let Some(ty) = local_type(lists, local, at.locals) else {
        return Ok(None);
    };
    let operands = with_top(lists, ty, at.operands)?;
    Ok(Some(Frame { operands, ..at }))
}

/// The type of a local, of those that stand last first; none where there is no such local.
fn local_type(lists: &Lists, local: LocalId, locals: TyId) -> Option<TyId>
    ensures there { (ts : List Ty) → IsList (types_in lists.now.types) locals (reverse ts) → IsThere (types_in lists.now.types) (slice_get ts local.0) result }
    ensures within { IfSome result (λ id. id.0 < locals.0) }
{
    let count = count(lists, locals);
    if local.0 < count {
        at(lists, locals, count - 1 - local.0)
    } else {
        None
    }
}

/// Behind the top operand, which becomes the last local.
fn bound(lists: &mut Lists, at: Frame) -> Result<Option<Frame>, AllocError>
    requires at { IsAt (types_in lists.old.types) at }
    ensures next { (B : Body) (z : Ty) → IfOk result (LeadsTo (types_in lists.old.types) at (λ s. kinds.ways B z meant.Bind s.locals s.operands) (types_in lists.new.types)) }
    ensures grows { Grows (types_in lists.old.types) (types_in lists.new.types) }
{
    let Some(top) = top_of(lists, at.operands) else {
        return Ok(None);
    };
    let locals = with_top(lists, top.first, at.locals)?;
    Ok(Some(Frame {
        locals,
        operands: top.others,
    }))
}

/// Without so many of the last locals.
fn unbound(lists: &Lists, count: usize, at: Frame) -> Option<Frame>
    ensures { (B : Body) (z : Ty) → LeadsTo (types_in lists.now.types) at (λ s. kinds.ways B z (meant.Unbind count) s.locals s.operands) (types_in lists.now.types) result }
{
    let locals = without_first(lists, at.locals, count)?;
    Some(Frame { locals, ..at })
}

/// Behind the pair of the two top operands.
fn paired(lists: &mut Lists, at: Frame) -> Result<Option<Frame>, AllocError>
    requires at { IsAt (types_in lists.old.types) at }
    ensures next { (B : Body) (z : Ty) → IfOk result (LeadsTo (types_in lists.old.types) at (λ s. kinds.ways B z meant.Pair s.locals s.operands) (types_in lists.new.types)) }
    ensures grows { Grows (types_in lists.old.types) (types_in lists.new.types) }
{
    let Some(second) = top_of(lists, at.operands) else {
        return Ok(None);
    };
    let Some(first) = top_of(lists, second.others) else {
        return Ok(None);
    };
    let pair = interned(lists, TyForm::PairForm(first.first, second.first))?;
    let operands = with_top(lists, pair, first.others)?;
    Ok(Some(Frame { operands, ..at }))
}

/// The types of the pair that is the top operand, and the other operands.
#[derive(Clone, Copy)]
pub struct PairTop {
    pub first: TyId,
    pub second: TyId,
    pub others: TyId,
}

/// None where there is no operand, or the top one is no pair.
fn pair_on_top(lists: &Lists, operands: TyId) -> Option<PairTop>
    ensures top { (os : List Ty) → IsList (types_in lists.now.types) operands os → IsPairOn (types_in lists.now.types) os result }
    ensures first { IfSome result (λ top. top.first.0 < operands.0) }
    ensures second { IfSome result (λ top. top.second.0 < operands.0) }
    ensures others { IfSome result (λ top. top.others.0 < operands.0) }
{
    let top = top_of(lists, operands)?;
    match lists.types.form(top.first) {
        TyForm::PairForm(first, second) => Some(PairTop {
            first,
            second,
            others: top.others,
        }),
        _ => None,
    }
}

/// Behind the first of a pair.
fn first_taken(lists: &mut Lists, at: Frame) -> Result<Option<Frame>, AllocError>
    requires at { IsAt (types_in lists.old.types) at }
    ensures next { (B : Body) (z : Ty) → IfOk result (LeadsTo (types_in lists.old.types) at (λ s. kinds.ways B z meant.Fst s.locals s.operands) (types_in lists.new.types)) }
    ensures grows { Grows (types_in lists.old.types) (types_in lists.new.types) }
{
    let Some(pair) = pair_on_top(lists, at.operands) else {
        return Ok(None);
    };
    let operands = with_top(lists, pair.first, pair.others)?;
    Ok(Some(Frame { operands, ..at }))
}

/// Behind the second of a pair.
fn second_taken(lists: &mut Lists, at: Frame) -> Result<Option<Frame>, AllocError>
    requires at { IsAt (types_in lists.old.types) at }
    ensures next { (B : Body) (z : Ty) → IfOk result (LeadsTo (types_in lists.old.types) at (λ s. kinds.ways B z meant.Snd s.locals s.operands) (types_in lists.new.types)) }
    ensures grows { Grows (types_in lists.old.types) (types_in lists.new.types) }
{
    let Some(pair) = pair_on_top(lists, at.operands) else {
        return Ok(None);
    };
    let operands = with_top(lists, pair.second, pair.others)?;
    Ok(Some(Frame { operands, ..at }))
}
