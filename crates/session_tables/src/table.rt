// What stands under numbers.
ghost use Rattle.std.specs.Prelude.{◌≡◌, [], length, option_copied, true, OnErr, OnOk, IsOk, IsSome};
ghost use Rattle.session_meaning.specs.Tables.{Ascend, find, put, remove};
ghost use Rattle.session_tables.specs.Rows.{IsPlaceOf, ascends, rows_in};

use std::alloc::{AllocError, Global};

/// What stands under a number.
#[derive(Drop)]
pub struct Entry<A> {
    pub number: u16,
    pub value: A,
}

/// What stands under each of some numbers, in ascending order.
#[derive(Drop)]
pub struct Table<A> {
    entries: Vec<Entry<A>>,
    ghost in_order: { ascends 0 (rows_in entries.items) ≡ true },
}

impl<A> Table<A> {
    ghost use Rattle.session_tables.specs.Tables.{HasRoom, rows_of};

    /// A table of nothing.
    pub fn new(alloc: Global) -> Self
        ensures { rows_of result ≡ [] }
    {
        Table {
            entries: Vec::new(alloc),
        }
    }

    /// How many numbers something stands under.
    pub fn count(&self) -> usize
        ensures { result ≡ length (rows_of self.now) }
    {
        self.entries.len()
    }

    /// The entries, in ascending order of their numbers.
    pub fn entries(&self) -> &[Entry<A>]
        ensures rows { rows_in result.now ≡ rows_of self.now }
        ensures in_order { Ascend 0 (rows_in result.now) }
    {
        &self.entries
    }

    /// The entries, given back, in ascending order of their numbers.
    pub fn into_entries(self) -> Vec<Entry<A>>
        ensures rows { rows_in result.items ≡ rows_of self }
        ensures in_order { Ascend 0 (rows_in result.items) }
    {
        self.entries
    }

    /// A table of these entries, whose numbers ascend.
    pub fn from_entries(entries: Vec<Entry<A>>) -> Self
        requires { Ascend 0 (rows_in entries.items) }
        ensures { rows_of result ≡ rows_in entries.items }
    {
        Table { entries }
    }

    /// What stands under a number; none exactly where nothing does.
    pub fn find(&self, number: u16) -> Option<&A>
        ensures { option_copied result ≡ find number (rows_of self.now) }
    {
        match place_of(&self.entries, number) {
            Ok(place) => Some(&self.entries[place].value),
            Err(_) => None,
        }
    }

    /// Takes out what stands under a number; none exactly where nothing does. What was taken out may be put back without memory.
    pub fn take(&mut self, number: u16) -> Option<A>
        ensures found { result ≡ find number (rows_of self.old) }
        ensures rows { rows_of self.new ≡ remove number (rows_of self.old) }
        ensures behind { (a : A) → put number a (rows_of self.new) ≡ put number a (rows_of self.old) }
        ensures room { IsSome result → HasRoom self.new }
    {
        match place_of(&self.entries, number) {
            Ok(place) => {
                let entry = self.entries.remove(place);
                Some(entry.value)
            }
            Err(_) => None,
        }
    }

    /// Puts a value under a number, in the place of what stood there. Where memory is wanting the table stays as it is.
    pub fn put(&mut self, number: u16, value: A) -> Result<(), AllocError>
    where
        A: Drop,
        ensures ok { OnOk result (rows_of self.new ≡ put number value (rows_of self.old)) }
        ensures err { OnErr result (rows_of self.new ≡ rows_of self.old) }
        ensures room { HasRoom self.old → IsOk result }
    {
        let entry = Entry { number, value };
        match place_of(&self.entries, number) {
            Ok(place) => {
                self.entries[place] = entry;
                Ok(())
            }
            Err(place) => {
                self.entries.insert(place, entry)?;
                Ok(())
            }
        }
    }
}

/// The place of the entry with a number; where none has it, the place where it would stand.
fn place_of<A>(entries: &[Entry<A>], number: u16) -> Result<usize, usize>
    ensures { IsPlaceOf number entries.now result }
{
    for (place, entry) in entries.iter().enumerate() {
        if entry.number == number {
            return Ok(place);
        }
        if number < entry.number {
            return Err(place);
        }
    }
    Err(entries.len())
}
