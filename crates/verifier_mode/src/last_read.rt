// The last new piece that was read.
ghost use Rattle.std.specs.Prelude.{◌≡◌, List, [], IfSome};
ghost use Rattle.core_terms.specs.declared.program_types.Types.{Types as Typed};
ghost use Rattle.value_store.specs.Nodes.{Node};
ghost use Rattle.verifier_mode.specs.LastReads.{IsRead, KnowsLast};

use core_terms::TyId;
use std::alloc::Global;
use std::mem;
use value_store::Ref;

/// The last new piece that was read, at a type: where it comes again at this type, its value stands among the nodes already.
#[derive(Drop)]
pub struct LastRead {
    pub(crate) ty: TyId,
    pub(crate) piece: Vec<u8>,
    pub(crate) value: Ref,
}

impl LastRead {
    /// Whether the piece ends in the same byte. Of two pieces that differ most don't: they end in a child's digest.
    #[inline(always)]
    fn ends_as(&self, piece: &[u8]) -> bool {
        self.piece.as_slice().last() == piece.last()
    }
}

/// The value of a piece at a type, where it is the last new one.
pub(crate) fn value_again(last: &Option<LastRead>, ty: TyId, piece: &[u8]) -> Option<Ref>
    ensures { (types : Typed) (nodes : List Node) → KnowsLast types nodes last.now → IfSome result (IsRead types nodes ty piece.now) }
{
    match last {
        Some(last) => {
            if !last.ends_as(piece) {
                return None;
            }
            if last.ty == ty && last.piece.as_slice() == piece {
                Some(last.value)
            } else {
                None
            }
        }
        None => None,
    }
}

/// Notes a new piece that was read as the last one, in the memory of the one before it. Where memory is wanting, none is noted.
#[inline(always)]
pub(crate) fn note_read(
    last: &mut Option<LastRead>,
    alloc: Global,
    ty: TyId,
    piece: &[u8],
    value: Ref,
)
    ensures { (types : Typed) (nodes : List Node) → KnowsLast types nodes last.old → IsRead types nodes ty piece.now value → KnowsLast types nodes last.new }
{
    let mut noted = piece_of(mem::replace(last, None), alloc);
    if noted.extend_from_slice(piece).is_ok() {
        *last = Some(LastRead {
            ty,
            piece: noted,
            value,
        });
    }
}

/// The memory of a piece that was noted, empty.
fn piece_of(noted: Option<LastRead>, alloc: Global) -> Vec<u8>
    ensures { result.items ≡ [] }
{
    match noted {
        Some(
            LastRead {
                ty: _,
                mut piece,
                value: _,
            },
        ) => {
            piece.clear();
            piece
        }
        None => Vec::new(alloc),
    }
}
