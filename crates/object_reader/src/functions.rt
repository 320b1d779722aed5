// The functions of an object.
ghost use Rattle.std.specs.Prelude.{◌≡◌, ◌++◌, ◌∷◌, [], List, IfOk};
ghost use Rattle.object_meaning.specs.Objects as meant;
ghost use Rattle.object_meaning.specs.Readers.{then_take, times_behind, u8, within};
ghost use Rattle.object_meaning.specs.ReadObjects as read;
ghost use Rattle.object_reader.specs.Cursors.{Reads, reads};
ghost use Rattle.object_reader.specs.ObjectViews.{function_of, functions_of, kind_in, name_in, types_of};
ghost use Rattle.object_reader.specs.RolesBefore.{IsNamedBefore, entered_read, own_name, role_of, role_read};
ghost use Rattle.object_reader.specs.NamesRead.{names_in};
ghost use Rattle.core_terms.specs.RoleViews.{role_kind_of};

use crate::code::instructions;
use crate::cursor::Cursor;
use crate::fault::ReadFault;
use crate::names::lower_name;
use crate::numbers::numbers_below;
use crate::{ListedFunction, ListedRole, ListedType};
use core_terms::RoleKind;
use indexmap::IndexSet;
use std::alloc::Global;

/// How many parameters a function has at most.
const MOST_PARAMETERS: u8 = 8;

/// So many functions, each by those before it, in an object of these types.
pub(crate) fn function_list<'a>(
    alloc: Global,
    cursor: &mut Cursor<'a>,
    types: &[ListedType<'a>],
    count: u16,
) -> Result<Vec<ListedFunction<'a>>, ReadFault>
    ensures { Reads (λ functions. functions_of functions.items) (reads (times_behind [] count (read.function_read (types_of types.now) count)) cursor.old) cursor.new result }
{
    let mut names = IndexSet::new(alloc);
    functions_behind(alloc, cursor, &mut names, types, count)
}

/// The same, where the roles' names are lent.
fn functions_behind<'a>(
    alloc: Global,
    cursor: &mut Cursor<'a>,
    names: &mut IndexSet<&'a [u8]>,
    types: &[ListedType<'a>],
    count: u16,
) -> Result<Vec<ListedFunction<'a>>, ReadFault>
    requires { names.old.keys ≡ [] }
    ensures { Reads (λ functions. functions_of functions.items) (reads (times_behind [] count (read.function_read (types_of types.now) count)) cursor.old) cursor.new result }
{
    let mut functions = Vec::new(alloc);
    for _ in 0..count {
        let function = function(alloc, cursor, names, types, count)?;
        functions.push(function)?;
    }
    Ok(functions)
}

/// The next function, behind those whose roles have these names.
fn function<'a>(
    alloc: Global,
    cursor: &mut Cursor<'a>,
    names: &mut IndexSet<&'a [u8]>,
    types: &[ListedType<'a>],
    functions: u16,
) -> Result<ListedFunction<'a>, ReadFault>
    ensures read { (before : List meant.ListedFunction) → IsNamedBefore names.old.keys before
        → Reads function_of (reads (read.function_read (types_of types.now) functions before) cursor.old) cursor.new result }
    ensures names { (before : List meant.ListedFunction) → IsNamedBefore names.old.keys before → IfOk result (λ function. IsNamedBefore names.new.keys (before ++ function_of function ∷ [])) }
{
    let role = role(cursor, names)?;
    behind_role(alloc, cursor, types, functions, role)
}

/// The function with this role, whose other fields stand behind it.
fn behind_role<'a>(
    alloc: Global,
    cursor: &mut Cursor<'a>,
    types: &[ListedType<'a>],
    functions: u16,
    role: Option<ListedRole<'a>>,
) -> Result<ListedFunction<'a>, ReadFault>
    ensures read { Reads function_of (reads (read.behind_name (types_of types.now) functions (kind_in role.entry) (name_in role.entry)) cursor.old) cursor.new result }
    ensures role { IfOk result (λ function. function.role ≡ role.entry) }
{
    let number = cursor.u8_within(1, MOST_PARAMETERS)?;
    let parameters = numbers_below(alloc, cursor, number, types.len())?;
    let result = cursor.u32_below(types.len())?;
    let count = cursor.u32_positive()?;
    let code = instructions(alloc, cursor, types, functions, count)?;
    Ok(ListedFunction {
        role,
        parameters,
        result,
        code,
    })
}

/// How a function is entered from outside; none where it isn't.
fn role<'a>(
    cursor: &mut Cursor<'a>,
    names: &mut IndexSet<&'a [u8]>,
) -> Result<Option<ListedRole<'a>>, ReadFault>
    ensures read { (before : List meant.ListedFunction) → IsNamedBefore names.old.keys before → Reads role_of (reads (role_read before) cursor.old) cursor.new result }
    ensures names { IfOk result (λ role. names_in names.new.keys ≡ names_in names.old.keys ++ own_name role) }
{
    let place = cursor.place();
    match cursor.u8()? {
        0 => {
            cursor.zero()?;
            Ok(None)
        }
        1 => entered(cursor, names, RoleKind::Init),
        2 => entered(cursor, names, RoleKind::Query),
        3 => entered(cursor, names, RoleKind::Update),
        _ => Err(ReadFault::Bad(place)),
    }
}

/// The role of this kind, by its name.
fn entered<'a>(
    cursor: &mut Cursor<'a>,
    names: &mut IndexSet<&'a [u8]>,
    kind: RoleKind,
) -> Result<Option<ListedRole<'a>>, ReadFault>
    ensures read { (before : List meant.ListedFunction) → IsNamedBefore names.old.keys before → Reads role_of (reads (entered_read (role_kind_of kind) before) cursor.old) cursor.new result }
    ensures names { IfOk result (λ role. names_in names.new.keys ≡ names_in names.old.keys ++ own_name role) }
{
    let name = lower_name(cursor, names)?;
    Ok(Some(ListedRole { kind, name }))
}
