// The records that are loaded, by number.
ghost use Rattle.std.specs.Prelude.{◌≡◌, ◌+◌, ◌-◌, ◌<◌, ◌++◌, ◌∷◌, [], length, slice_get, OnOk};
ghost use Rattle.images.specs.KeptRecords.{node_at};

use crate::stored::StoredRecord;
use crate::type_numbers::TypeNumbers;
use core_terms::TyId;
use std::alloc::{AllocError, Global};
use std::marker::Model;
use value_store::Ref;

/// The records that are loaded. Most often each is the node with its own number, so that its type is all that is kept of it, in a byte
/// where the program has few types.
#[derive(Drop)]
pub(crate) struct StoredRecords {
    types: TypeNumbers,
    /// How many of the first ones are the nodes with their own numbers.
    same: usize,
    /// The nodes of the others.
    others: Vec<Ref>,
}

impl Model for StoredRecords {
    ghost use Rattle.std.specs.Prelude.{◌≡◌, ◌+◌, List, length};
    ghost use Rattle.images.specs.declared.stored.StoredRecord.{StoredRecord};

    ghost Value = { List StoredRecord };

    ghost use Rattle.images.specs.KeptRecords.{records_kept};

    ghost view = { λ kept. records_kept kept.same kept.others.items kept.types };

    ghost invariant = { λ kept. kept.same + length kept.others.items ≡ length kept.types };
}

impl StoredRecords {
    /// No records, of a program with so many types.
    pub fn new(alloc: Global, types: usize) -> Self
        ensures { result ≡ [] }
    {
        StoredRecords {
            types: TypeNumbers::new(alloc, types),
            same: 0,
            others: Vec::new(alloc),
        }
    }

    /// The record with this number, where there are so many.
    pub fn get(&self, number: usize) -> Option<StoredRecord>
        ensures { result ≡ slice_get self.now number }
    {
        let Some(ty) = self.types.get(number) else {
            return None;
        };
        Some(StoredRecord {
            ty: TyId(ty as usize),
            value: node(self.same, &self.others, number),
        })
    }

    /// The last record, where there is one.
    pub fn last(&self) -> Option<StoredRecord>
        ensures { result ≡ slice_get self.now (length self.now - 1) }
    {
        self.get(self.types.len().saturating_sub(1))
    }

    /// Adds a record. One of a type behind those of the program finds no room.
    // For each record of an image, in two loaders.
    #[inline(always)]
    pub fn push(&mut self, found: StoredRecord) -> Result<(), AllocError>
        ensures { OnOk result (self.new ≡ self.old ++ found ∷ []) }
    {
        if self.others.is_empty() && found.value.0 == self.same {
            self.types.push(found.ty.0)?;
            self.same += 1;
            return Ok(());
        }
        self.others.push(found.value)?;
        match self.types.push(found.ty.0) {
            Ok(()) => Ok(()),
            Err(AllocError) => {
                self.others.pop();
                Err(AllocError)
            }
        }
    }
}

/// The node of the record with this number.
fn node(same: usize, others: &[Ref], number: usize) -> Ref
    requires { number < same + length others.now }
    ensures { result ≡ node_at same others.now number }
{
    if number < same {
        Ref(number)
    } else {
        others[number - same]
    }
}
