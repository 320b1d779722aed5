// The records that are saved so far.
ghost use Rattle.std.specs.Prelude.{◌≡◌, ◌<◌, ◌≤◌, ◌++◌, ℕ, [], length, map, nat_eq, Some, None, IfOk, IfErr, OnOk};
ghost use Rattle.indexmap.specs.IndexSet.{index_set_len};
ghost use Rattle.value_store.specs.Nodes.{refs_in};
ghost use Rattle.value_store.specs.Views.{form_shown};
ghost use Rattle.images.specs.FormRecords.{HasShortText, bytes_of, joined, most_records};
ghost use Rattle.images.specs.NodeNumbers.{number_in};

use super::first_nodes::FirstNodes;
use super::numbers::Numbers;
use super::record::{Record, head, part};
use crate::SaveFault;
use indexmap::IndexSet;
use std::alloc::{AllocError, Global};
use value_store::{Ref, View};

/// The greatest number of records: each has a number in 4 bytes.
const MOST_RECORDS: usize = 4_294_967_295;

/// The distinct records of some nodes, each behind those of its parts.
#[derive(Drop)]
pub(crate) struct Records {
    records: IndexSet<Record>,
    /// The number of the record of each node that has one.
    numbers: Numbers,
    /// To each record the first node that got it, where these are kept.
    first_nodes: FirstNodes,
    /// The number of bytes of all records.
    byte_count: usize,
    /// The greatest number of them.
    most: usize,
    alloc: Global,
    ghost counted: { byte_count ≡ length (joined (map bytes_of records.keys)) },
    ghost short: { byte_count ≤ most },
    ghost few: { index_set_len records ≤ most_records },
    ghost some: { index_set_len records ≤ byte_count },
    ghost within: { (r n : ℕ) → number_in numbers r ≡ Some n → n < index_set_len records },
}

impl Records {
    ghost use Rattle.images.specs.SavedRecords.{HasNumber, HaveRecords, IsAdded, IsTooMuch, bytes_in, node_numbers, number_at, record_for, records_in};

    /// No records, where all may have so many bytes, and the first node of each is kept or isn't.
    pub fn new(alloc: Global, most: usize, keeps_nodes: bool) -> Self
        ensures most { result.most ≡ most }
        ensures keeps { result.first_nodes.are_kept ≡ keeps_nodes }
        ensures records { records_in result ≡ [] }
        ensures nodes { node_numbers result ≡ [] }
        ensures numbers { (r : ℕ) → number_at result r ≡ None }
    {
        Records {
            records: IndexSet::new(alloc),
            numbers: Numbers::new(alloc),
            first_nodes: FirstNodes::new(alloc, keeps_nodes),
            byte_count: 0,
            most,
            alloc,
        }
    }

    /// The number of records.
    pub fn count(&self) -> usize
        ensures count { result ≡ length (records_in self.now) }
        ensures bound { result ≤ most_records }
    {
        self.records.len()
    }

    /// Writes the bytes of all records behind what was written.
    pub fn write(&self, image: &mut Vec<u8>) -> Result<(), AllocError>
        ensures { OnOk result (image.new.items ≡ image.old.items ++ bytes_in self.now) }
    {
        for record in self.records.as_slice() {
            image.extend_from_slice(&record.0)?;
        }
        Ok(())
    }

    /// A node of each record, in the order of the image, where they are kept.
    pub fn nodes(&self) -> &[Ref]
        ensures { result.now ≡ self.now.first_nodes.nodes.items }
    {
        self.first_nodes.nodes()
    }

    /// The number of the record of a node, where it has one.
    pub fn number_of(&self, node: Ref) -> Option<usize>
        ensures { result ≡ number_at self.now node.0 }
    {
        self.numbers.get(node.0)
    }

    /// Adds the record of a node whose parts have theirs.
    pub fn add(&mut self, node: Ref, view: View<'_>) -> Result<(), SaveFault>
        requires text { HasShortText (form_shown view) }
        requires parts { HaveRecords self.old (refs_in (form_shown view)) }
        ensures added { IfOk result (λ _. IsAdded node.0 (form_shown view.entry) self.old self.new) }
        ensures long { IfErr result (IsTooMuch (record_for self.old (form_shown view.entry)) self.old) }
        ensures most { self.new.most ≡ self.old.most }
        ensures keeps { self.new.first_nodes.are_kept ≡ self.old.first_nodes.are_kept }
    {
        let record = self.record_of(view)?;
        let number = self.number_for(node, record)?;
        self.numbers.set(node.0, number as u32)?;
        Ok(())
    }

    /// The record of what is shown.
    fn record_of(&self, view: View<'_>) -> Result<Record, AllocError>
        requires text { HasShortText (form_shown view) }
        requires parts { HaveRecords self.now (refs_in (form_shown view)) }
        ensures { IfOk result (λ found. bytes_of found ≡ record_for self.now (form_shown view.entry)) }
    {
        let mut bytes = head(self.alloc, view)?;
        let mut index = 0;
        while let Some(part) = part(view, index) {
            let Some(number) = self.number_of(part) else {
                unreachable!()
            };
            bytes.extend_from_slice(&(number as u32).to_be_bytes())?;
            index += 1;
        }
        Ok(Record(bytes))
    }

    /// The number of a node's record, which is added behind the others where it isn't there.
    fn number_for(&mut self, node: Ref, found: Record) -> Result<usize, SaveFault>
        requires some { 0 < length (bytes_of found) }
        ensures number { IfOk result (HasNumber node.0 (bytes_of found) self.old self.new) }
        ensures same { (r : ℕ) → number_at self.new r ≡ number_at self.old r }
        ensures long { IfErr result (IsTooMuch (bytes_of found) self.old) }
        ensures most { self.new.most ≡ self.old.most }
        ensures keeps { self.new.first_nodes.are_kept ≡ self.old.first_nodes.are_kept }
    {
        if let Some(number) = self.records.get_index_of(&found) {
            return Ok(number);
        }
        let added = found.0.len();
        if added > self.most - self.byte_count {
            return Err(SaveFault::TooLong);
        }
        if self.records.len() >= MOST_RECORDS {
            return Err(SaveFault::NoMemory);
        }
        // Where no memory is left behind this, all records are given up.
        let Ok(_) = self.first_nodes.push(node) else {
            return Err(SaveFault::NoMemory);
        };
        let Ok((number, _)) = self.records.insert_full(found) else {
            return Err(SaveFault::NoMemory);
        };
        self.byte_count += added;
        Ok(number)
    }
}
