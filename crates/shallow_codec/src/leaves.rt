// Reading values without parts into a store.
ghost use Rattle.std.specs.Prelude.{◌≡◌, ◌+◌, ◌≤◌, ◌<◌, ℕ, List, suc, true, length};
ghost use Rattle.core_terms.specs.Reading as meant;
ghost use Rattle.core_terms.specs.TypeTables.{type_of_form};
ghost use Rattle.core_terms.specs.Types.{AuthTy, BoolTy, IntTy, Table, TextTy, Ty, UnitTy};
ghost use Rattle.shallow_codec.specs.KnownNothings.{IsNothingAt};
ghost use Rattle.shallow_codec.specs.PutValues.{IsRead, is_leaf};
ghost use Rattle.value_store.specs.Standing.{Grows};

use crate::UnspellFault;
use crate::cursor::Cursor;
use crate::reader::Front;
use core_terms::TyForm;
use value_store::{Held, Nodes, Ref};

/// The value of a type of this form, which has no parts.
pub(crate) fn put_leaf<'a, N: Nodes>(
    store: &mut N,
    form: TyForm,
    at: Cursor<'a>,
) -> Result<Front<'a>, UnspellFault>
    requires short { at.offset + length at.rest.now ≤ (N.lent store.old).limit }
    requires leaf { is_leaf form ≡ true }
    ensures read { (types : Table) (tys : List Ty) (levels : ℕ) → IsRead types (N.nodes store.new) (suc levels) (type_of_form tys form) at.entry
        (meant.read_value types (suc levels) (type_of_form tys form) at.entry.rest.now at.entry.offset) result }
    ensures grows { Grows (N.nodes store.old) (N.nodes store.new) }
    ensures lent { N.lent store.new ≡ N.lent store.old }
{
    match form {
        TyForm::UnitForm => put_unit(store, at),
        TyForm::BoolForm => put_bool(store, at),
        TyForm::IntForm => put_int(store, at),
        TyForm::TextForm => put_text(store, at),
        TyForm::AuthForm(_) => put_digest(store, at),
        TyForm::PairForm(_, _) | TyForm::NamedForm(_) | TyForm::VecForm(_, _) => unreachable!(),
    }
}

/// The value of `unit`, which is spelled by nothing.
pub(crate) fn put_unit<'a, N: Nodes>(
    store: &mut N,
    at: Cursor<'a>,
) -> Result<Front<'a>, UnspellFault>
    ensures read { (types : Table) (levels : ℕ) → IsRead types (N.nodes store.new) (suc levels) UnitTy at.entry (meant.read_value types (suc levels) UnitTy at.entry.rest.now at.entry.offset) result }
    ensures grows { Grows (N.nodes store.old) (N.nodes store.new) }
    ensures lent { N.lent store.new ≡ N.lent store.old }
{
    let value = store.put_unit()?;
    Ok(Front { value, behind: at })
}

/// A bool.
pub(crate) fn put_bool<'a, N: Nodes>(
    store: &mut N,
    at: Cursor<'a>,
) -> Result<Front<'a>, UnspellFault>
    requires short { at.offset + length at.rest.now ≤ (N.lent store.old).limit }
    ensures read { (types : Table) (levels : ℕ) → IsRead types (N.nodes store.new) (suc levels) BoolTy at.entry (meant.read_value types (suc levels) BoolTy at.entry.rest.now at.entry.offset) result }
    ensures grows { Grows (N.nodes store.old) (N.nodes store.new) }
    ensures lent { N.lent store.new ≡ N.lent store.old }
{
    let Some((value, behind)) = at.read_bool() else {
        return Err(at.bad());
    };
    let value = store.put_bool(value)?;
    Ok(Front { value, behind })
}

/// An int.
pub(crate) fn put_int<'a, N: Nodes>(
    store: &mut N,
    at: Cursor<'a>,
) -> Result<Front<'a>, UnspellFault>
    requires short { at.offset + length at.rest.now ≤ (N.lent store.old).limit }
    ensures read { (types : Table) (levels : ℕ) → IsRead types (N.nodes store.new) (suc levels) IntTy at.entry (meant.read_value types (suc levels) IntTy at.entry.rest.now at.entry.offset) result }
    ensures grows { Grows (N.nodes store.old) (N.nodes store.new) }
    ensures lent { N.lent store.new ≡ N.lent store.old }
{
    let Some((value, behind)) = at.read_int() else {
        return Err(at.bad());
    };
    let value = store.put_int(value)?;
    Ok(Front { value, behind })
}

/// A text.
pub(crate) fn put_text<'a, N: Nodes>(
    store: &mut N,
    at: Cursor<'a>,
) -> Result<Front<'a>, UnspellFault>
    requires short { at.offset + length at.rest.now ≤ (N.lent store.old).limit }
    ensures read { (types : Table) (levels : ℕ) → IsRead types (N.nodes store.new) (suc levels) TextTy at.entry (meant.read_value types (suc levels) TextTy at.entry.rest.now at.entry.offset) result }
    ensures grows { Grows (N.nodes store.old) (N.nodes store.new) }
    ensures lent { N.lent store.new ≡ N.lent store.old }
{
    let Some((text, behind)) = at.read_text() else {
        return Err(at.bad());
    };
    let value = store.put_text(text)?;
    Ok(Front { value, behind })
}

/// The digest of an authenticated value.
pub(crate) fn put_digest<'a, N: Nodes>(
    store: &mut N,
    at: Cursor<'a>,
) -> Result<Front<'a>, UnspellFault>
    requires short { at.offset + length at.rest.now ≤ (N.lent store.old).limit }
    ensures read { (types : Table) (levels : ℕ) (t : Ty) → IsRead types (N.nodes store.new) (suc levels) (AuthTy t) at.entry (meant.read_value types (suc levels) (AuthTy t) at.entry.rest.now at.entry.offset) result }
    ensures grows { Grows (N.nodes store.old) (N.nodes store.new) }
    ensures lent { N.lent store.new ≡ N.lent store.old }
{
    let Some((digest, behind)) = at.read_digest() else {
        return Err(at.bad());
    };
    let value = store.put_auth(Held::Only(digest))?;
    Ok(Front { value, behind })
}

/// A value that is spelled by nothing and stands in the store. It needs as many levels as it has.
pub(crate) fn known_nothing<'a, N: Nodes>(
    store: &N,
    value: Ref,
    levels: u32,
    at: Cursor<'a>,
) -> Result<Front<'a>, UnspellFault>
    requires { value.0 < length (N.nodes store.now) }
    ensures { (types : Table) (t : Ty) → IsNothingAt types (N.nodes store.now) t value.0
        → IsRead types (N.nodes store.now) levels t at.entry (meant.read_value types levels t at.entry.rest.now at.entry.offset) result }
{
    if store.shallow_depth(value) > levels {
        return Err(at.bad());
    }
    Ok(Front { value, behind: at })
}
