// Whole objects.
ghost use Rattle.std.specs.Prelude.{◌≡◌};
ghost use Rattle.object_meaning.specs.ReadObjects as read;
ghost use Rattle.object_reader.specs.Cursors.{Reads, reads};
ghost use Rattle.object_reader.specs.ObjectViews.{object_of};
ghost use Rattle.object_reader.specs.WholeObjects.{ReadsObject};

use crate::cursor::Cursor;
use crate::fault::ReadFault;
use crate::functions::function_list;
use crate::types::type_list;
use crate::{Object, ObjectFault};
use core_terms::OBJECT_MAGIC;
use std::alloc::Global;

/// How many types an object lists at most, and how many functions.
const MOST_TYPES: u32 = 100_000;

const MOST_FUNCTIONS: u16 = 1024;

/// The object that the bytes are, with names and texts lent from them; or their first fault.
///
/// # Errors
///
/// - `Cut`, with the number of the bytes, where they end within the first field that isn't whole and allowed.
/// - `BadField`, with the offset of the field's first byte, where this field isn't allowed. A type that is listed twice stands at its tag;
///   a name or a text that isn't allowed stands at its length, and is judged once it is whole.
/// - `Leftover`, with the number of the bytes left, where all fields stand and bytes are left behind them.
/// - `NoMemory` where there is none for what the object lists. It says nothing of the bytes.
pub fn read_object<'a>(alloc: Global, bytes: &'a [u8]) -> Result<Object<'a>, ObjectFault>
    ensures { ReadsObject bytes.now result }
{
    let mut cursor = Cursor::new(bytes);
    match object(alloc, &mut cursor) {
        Ok(object) => {
            let left = cursor.left();
            if left > 0 {
                return Err(ObjectFault::Leftover(left));
            }
            Ok(object)
        }
        Err(ReadFault::Cut) => Err(ObjectFault::Cut(bytes.len())),
        Err(ReadFault::Bad(offset)) => Err(ObjectFault::BadField(offset)),
        Err(ReadFault::NoMemory) => Err(ObjectFault::NoMemory),
    }
}

/// The object that the bytes behind a place begin with.
fn object<'a>(alloc: Global, cursor: &mut Cursor<'a>) -> Result<Object<'a>, ReadFault>
    ensures { Reads object_of (reads read.object_read cursor.old) cursor.new result }
{
    cursor.magic(&OBJECT_MAGIC)?;
    let count = cursor.u32_to(MOST_TYPES)?;
    let types = type_list(alloc, cursor, count as usize)?;
    let state = cursor.u32_below(count as usize)?;
    let number = cursor.u16_to(MOST_FUNCTIONS)?;
    let functions = function_list(alloc, cursor, &types, number)?;
    Ok(Object {
        types,
        state,
        functions,
    })
}
