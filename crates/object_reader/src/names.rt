// Names of constructors and of roles: each is one that no other has.
ghost use Rattle.std.specs.Prelude.{◌≡◌, ◌++◌, ◌∷◌, [], true, not, IfOk, IfErr};
ghost use Rattle.std.specs.List.{list_all};
ghost use Rattle.lexemes.specs.Tokens.{is_name_byte};
ghost use Rattle.object_meaning.specs.ReadObjects as meant;
ghost use Rattle.object_reader.specs.Cursors.{Reads, reads};
ghost use Rattle.object_reader.specs.NamesRead.{names_in, short_text};

use crate::cursor::Cursor;
use crate::fault::ReadFault;
use core_terms::Format;
use indexmap::IndexSet;
use lexemes::lexer::words::keyword_of;

/// How many bytes a name has at most.
const LONGEST_NAME: usize = 64;

/// Whether all of these bytes may stand in a name.
fn are_name_bytes(bytes: &[u8]) -> bool
    ensures { result ≡ list_all is_name_byte bytes.now }
{
    bytes
        .iter()
        .all(|byte| byte.is_ascii_alphanumeric() || *byte == b'_')
}

/// Whether these bytes are a name that begins with a capital.
fn is_upper_name(name: &[u8]) -> bool
    ensures { result ≡ meant.is_upper_name name.now }
{
    let Some((first, rest)) = name.split_first() else {
        return false;
    };
    first.is_ascii_uppercase() && are_name_bytes(rest) && name.len() <= LONGEST_NAME
}

/// Whether these bytes are a name that begins with a small letter, and no keyword of the first format.
fn is_lower_name(name: &[u8]) -> bool
    ensures { result ≡ meant.is_lower_name name.now }
{
    let Some((first, rest)) = name.split_first() else {
        return false;
    };
    first.is_ascii_lowercase()
        && are_name_bytes(rest)
        && name.len() <= LONGEST_NAME
        && keyword_of(Format::First, name).is_none()
}

/// Bytes behind their number, which stands in one byte.
fn short_text<'a>(cursor: &mut Cursor<'a>) -> Result<&'a [u8], ReadFault>
    ensures { Reads (λ name. name.now) (reads short_text cursor.old) cursor.new result }
{
    let len = cursor.u8()?;
    cursor.take(len as usize)
}

/// Whether a name is none of these. Then it joins them.
fn joins<'a>(names: &mut IndexSet<&'a [u8]>, name: &'a [u8]) -> Result<bool, ReadFault>
    ensures tells { IfOk result (λ is_new. is_new ≡ not (meant.is_among name.now (names_in names.old.keys))) }
    ensures names { IfOk result (λ is_new. is_new ≡ true → names_in names.new.keys ≡ names_in names.old.keys ++ name.now ∷ []) }
    ensures err { IfErr result (λ fault. fault ≡ ReadFault.NoMemory) }
{
    Ok(names.insert(name)?)
}

/// A constructor's name, which is none of those before it and joins them.
pub(crate) fn upper_name<'a>(
    cursor: &mut Cursor<'a>,
    names: &mut IndexSet<&'a [u8]>,
) -> Result<&'a [u8], ReadFault>
    ensures read { Reads (λ name. name.now) (reads (meant.name_read meant.is_upper_name (names_in names.old.keys)) cursor.old) cursor.new result }
    ensures names { IfOk result (λ name. names_in names.new.keys ≡ names_in names.old.keys ++ name.now ∷ []) }
{
    let place = cursor.place();
    let name = short_text(cursor)?;
    if !is_upper_name(name) {
        return Err(ReadFault::Bad(place));
    }
    if !joins(names, name)? {
        return Err(ReadFault::Bad(place));
    }
    Ok(name)
}

/// A role's name, which is none of those before it and joins them.
pub(crate) fn lower_name<'a>(
    cursor: &mut Cursor<'a>,
    names: &mut IndexSet<&'a [u8]>,
) -> Result<&'a [u8], ReadFault>
    ensures read { Reads (λ name. name.now) (reads (meant.name_read meant.is_lower_name (names_in names.old.keys)) cursor.old) cursor.new result }
    ensures names { IfOk result (λ name. names_in names.new.keys ≡ names_in names.old.keys ++ name.now ∷ []) }
{
    let place = cursor.place();
    let name = short_text(cursor)?;
    if !is_lower_name(name) {
        return Err(ReadFault::Bad(place));
    }
    if !joins(names, name)? {
        return Err(ReadFault::Bad(place));
    }
    Ok(name)
}
