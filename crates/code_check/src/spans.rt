// Short ways through lists of types. From one type to the next a list of n types takes n steps; by spans any place of it is some 2 log n
// steps away, so that a local is found as soon where there are many as where there are few.
ghost use Rattle.std.specs.Prelude.{◌≡◌, ◌⊎◌, ◌<◌, ◌≤◌, true, List, [], ◌∷◌, ◌++◌, length, Some, slice_get, IfOk};
ghost use Rattle.core_terms.specs.Types.{Ty};
ghost use Rattle.core_terms.specs.Programs.{types_in};
ghost use Rattle.core_terms.specs.TypeTables.{is_form_in, stands_behind, type_at, type_of_form};
ghost use Rattle.code_check.specs.Spans.{AreSpans, IsListSpan, IsSpan};

use core_terms::{TyForm, TyId, TyTable};
use std::alloc::AllocError;

/// How many types a list has, and another list, which is what stands behind so many of them, `over`. Where that is 0, as of the empty list, the
/// other list says nothing.
#[derive(Clone, Copy)]
pub struct Span {
    pub count: usize,
    pub over: usize,
    pub behind: TyId,
}

/// The span of a type; of a number that has none, a span of nothing.
pub fn span_at(spans: &[Span], id: TyId) -> Span
    ensures { (types : List Ty) → AreSpans types spans.now → IsSpan types id.0 result }
{
    match spans.get(id.0) {
        Some(span) => *span,
        None => Span {
            count: 0,
            over: 0,
            behind: id,
        },
    }
}

/// The span of a list with one type more than this one.
fn longer(types: &TyTable, spans: &[Span], others: TyId) -> Span
    requires others { others.0 < length (types_in types.now) }
    requires spans { AreSpans (types_in types.now) spans.now }
    ensures { IsListSpan (types_in types.now) (type_at (types_in types.now) others) result }
{
    let under = span_at(spans, others);
    let far = span_at(spans, under.behind);
    let count = under.count + 1;
    // two ways of one length are made one, so that few are left
    if under.over > 0 && under.over == far.over {
        Span {
            count,
            over: under.over + far.over + 1,
            behind: far.behind,
        }
    } else {
        Span {
            count,
            over: 1,
            behind: others,
        }
    }
}

/// The span of the type of a form, where it comes behind the types that there are.
fn span_of(types: &TyTable, spans: &[Span], form: TyForm) -> Span
    requires parts { stands_behind (length (types_in types.now)) form ≡ true }
    requires spans { AreSpans (types_in types.now) spans.now }
    ensures { IsSpan (types_in types.now ++ type_of_form (types_in types.now) form ∷ []) (length (types_in types.now)) result }
{
    match form {
        TyForm::PairForm(_, others) => longer(types, spans, others),
        _ => Span {
            count: 0,
            over: 0,
            behind: TyId(0),
        },
    }
}

/// The number of the type of a form whose parts are among the types. One that isn't there yet is added, with its span. Where memory is wanting
/// nothing is changed.
pub fn add(types: &mut TyTable, spans: &mut Vec<Span>, form: TyForm) -> Result<TyId, AllocError>
    requires parts { stands_behind (length (types_in types.old)) form ≡ true }
    requires format { is_form_in types.old.format form ≡ true }
    requires spans { AreSpans (types_in types.old) spans.old.items }
    ensures ty { IfOk result (λ id. slice_get (types_in types.new) id.0 ≡ Some (type_of_form (types_in types.old) form)) }
    ensures within { IfOk result (λ id. id.0 < length (types_in types.new)) }
    ensures either { (types_in types.new ≡ types_in types.old) ⊎ (types_in types.new ≡ types_in types.old ++ type_of_form (types_in types.old) form ∷ []) }
    ensures longer { length (types_in types.old) ≤ length (types_in types.new) }
    ensures format { types.new.format ≡ types.old.format }
    ensures spans { AreSpans (types_in types.new) spans.new.items }
{
    let span = span_of(types, spans, form);
    spans.reserve(1)?;
    let id = types.intern(form)?;
    if spans.len() < types.len() {
        spans.push_reserved(span);
    }
    Ok(id)
}
