//! References that were noted.
ghost use Rattle.std.specs.Prelude.{◌≡◌, ◌∷◌, [], map, OnOk};
ghost use Rattle.up_audit.specs.Audits.{references_of};
ghost use Rattle.up_audit.specs.Marks.{Notes, has_noted, put_references};
ghost use Rattle.std.specs.Option.{option_copied};

use std::alloc::{AllocError, Global};
use up_entry::{Block, Entry, Rec};
use up_maps::OrderedMap;
use up_refs::Reference;

/// The references of blocks that are used.
#[derive(Drop)]
pub(crate) struct Used {
    pub(crate) noted: OrderedMap<Reference, bool>,
}

impl Used {
    /// None. It takes no memory.
    pub(crate) fn new(alloc: Global) -> Used
        ensures { result.noted.entries ≡ [] }
    {
        Used {
            noted: OrderedMap::new(alloc),
        }
    }

    /// Whether a reference was noted.
    pub(crate) fn has(&self, reference: &Reference) -> bool
        ensures { result ≡ has_noted self.now.noted.entries reference.now }
    {
        self.noted.get(reference).is_some()
    }

    /// Notes a reference.
    pub(crate) fn note(&mut self, reference: Reference) -> Result<(), AllocError>
        ensures { OnOk result (Notes self.old.noted.entries self.new.noted.entries
            (reference ∷ [])) }
    {
        self.noted.reserve_one()?;
        self.noted.put_reserved(reference, true);
        Ok(())
    }

    /// Notes the references of all blocks of an entry.
    pub(crate) fn note_entry(&mut self, entry: &Entry) -> Result<(), AllocError>
        ensures { OnOk result (Notes self.old.noted.entries self.new.noted.entries
            (references_of entry.now)) }
    {
        self.note_blocks(entry.blocks.as_slice())
    }

    // Notes those of blocks.
    fn note_blocks(&mut self, blocks: &[Block]) -> Result<(), AllocError>
        ensures { OnOk result (Notes self.old.noted.entries self.new.noted.entries
            (map (λ block. block.location.reference) blocks.now)) }
    {
        for block in blocks {
            self.note_block(block)?;
        }
        Ok(())
    }

    // Notes that of a block, wherever it is kept.
    fn note_block(&mut self, block: &Block) -> Result<(), AllocError>
        ensures { OnOk result (Notes self.old.noted.entries self.new.noted.entries
            (block.now.location.reference ∷ [])) }
    {
        self.note(block.location.reference)
    }

    /// Notes those of the entry that a record puts.
    pub(crate) fn note_put(&mut self, rec: Option<&Rec>) -> Result<(), AllocError>
        ensures { OnOk result (Notes self.old.noted.entries self.new.noted.entries
            (put_references (option_copied rec.entry))) }
    {
        match rec {
            Some(Rec::Put(entry, _)) => self.note_entry(entry),
            Some(Rec::Delete(_)) | Some(Rec::Snap(_)) | None => Ok(()),
        }
    }
}
