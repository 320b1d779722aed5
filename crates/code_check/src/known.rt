// What is known of an instruction before it is gone over: the types of its locals and of its operands.
ghost use Rattle.std.specs.Prelude.{List, [], ◌∷◌};
ghost use Rattle.core_terms.specs.Programs.{types_in};
ghost use Rattle.core_terms.specs.CodeShapes.{Shape};
ghost use Rattle.core_terms.specs.Kinds as kinds;
ghost use Rattle.code_check.specs.KnownTypes.{IsFrame, IsKnown, AreKnown, IsReached};

use crate::lists::{Lists, count};
use core_terms::TyId;

/// How many locals there may be at an instruction.
const MOST_LOCALS: usize = 255;

/// The types in a frame, as lists: of its locals, the last one first, and of its operands, the top one first.
#[derive(Clone, Copy, PartialEq)]
pub struct Frame {
    pub locals: TyId,
    pub operands: TyId,
}

/// What the instructions gone over say of one behind them: none leads to it; those that do agree on the frame; two of them differ.
#[derive(Clone, Copy)]
pub enum Known {
    Unreached,
    Reached(Frame),
    Clashing,
}

/// With one more way that leads there.
fn met(lists: &Lists, known: Known, at: Frame) -> Known
    ensures { (k : kinds.Known) (s : Shape) → IsKnown (types_in lists.now.types) known k → IsFrame (types_in lists.now.types) at s → IsKnown (types_in lists.now.types) result (kinds.met k s) }
{
    match known {
        Known::Unreached => Known::Reached(at),
        Known::Reached(other) => {
            // equal types have one number
            if other == at { known } else { Known::Clashing }
        }
        Known::Clashing => Known::Clashing,
    }
}

/// Goes a way on to the instruction behind which so many of those that follow are passed over; `false` where it leads past the last of them, or
/// to more than 255 locals.
pub fn reach(lists: &Lists, behind: &mut [Known], passed: usize, at: Frame) -> bool
    ensures { (ks : List kinds.Known) (s : Shape) → AreKnown (types_in lists.now.types) behind.old ks → IsFrame (types_in lists.now.types) at s
        → IsReached (types_in lists.now.types) (kinds.reach_all (kinds.way passed s.locals s.operands ∷ []) ks) behind.new result }
{
    if count(lists, at.locals) > MOST_LOCALS || passed >= behind.len() {
        return false;
    }
    behind[passed] = met(lists, behind[passed], at);
    true
}
