//! What is kept in memory of a store's log, and where the bytes of each block are.
ghost use Rattle.std.specs.Prelude.{◌≡◌, ◌<◌, ◌++◌, ◌∷◌, [], true, length, is_some, OnOk, vec_capacity, vec_len};
ghost use Rattle.std.specs.FinMap.Entries.{find};
ghost use Rattle.up_blocks.specs.Kept.{fits_by, numbered};
ghost use Rattle.up_blocks.specs.Records.{reference_cmp};

use crate::MAX_BLOCK;
use crate::record::Kept;
use std::alloc::{AllocError, Global};
use up_maps::OrderedMap;
use up_refs::Reference;

/// The records of a log without their bytes, and of each block that is held the number of its record, from 0, in the order of
/// the references.
#[derive(Drop)]
pub struct Index {
    pub records: Vec<Kept>,
    pub numbers: OrderedMap<Reference, u64>,
}

impl Index {
    /// That of an empty log. It takes no memory.
    pub fn new(alloc: Global) -> Self
        ensures { (result.records.items ≡ []) × (result.numbers.entries ≡ []) }
    {
        Index {
            records: Vec::new(alloc),
            numbers: OrderedMap::new(alloc),
        }
    }

    /// Whether a block with this reference is held.
    pub fn holds(&self, reference: &Reference) -> bool
        ensures { result ≡ is_some (find reference_cmp reference.now self.now.numbers.entries) }
    {
        self.numbers.get(reference).is_some()
    }

    /// Whether a record fits as the next one.
    pub fn fits(&self, change: &Kept) -> bool
        ensures { result ≡ fits_by self.now.numbers.entries change.now }
    {
        match change {
            Kept::Put(reference, size) => *size <= MAX_BLOCK && !self.holds(reference),
            Kept::Delete(reference) => self.holds(reference),
        }
    }

    /// Makes room for one record more.
    pub fn make_room(&mut self) -> Result<(), AllocError>
        ensures records { self.new.records.items ≡ self.old.records.items }
        ensures entries { self.new.numbers.entries ≡ self.old.numbers.entries }
        ensures room { OnOk result (vec_len self.new.records < vec_capacity self.new.records) }
        ensures ready { OnOk result (self.new.numbers.ready ≡ true) }
    {
        self.records.reserve(1)?;
        self.numbers.reserve_one()
    }

    /// Adds a record, for which there is room. It takes no memory.
    pub fn enter(&mut self, change: Kept)
        requires room { vec_len self.old.records < vec_capacity self.old.records }
        requires ready { self.old.numbers.ready ≡ true }
        ensures records { self.new.records.items ≡ self.old.records.items ++ change ∷ [] }
        ensures entries { self.new.numbers.entries
            ≡ numbered (length self.old.records.items) change self.old.numbers.entries }
    {
        match change {
            Kept::Put(reference, _) => {
                self.numbers
                    .put_reserved(reference, self.records.len() as u64);
            }
            Kept::Delete(reference) => {
                let _was = self.numbers.remove(&reference);
            }
        }
        self.records.push_reserved(change);
    }
}
