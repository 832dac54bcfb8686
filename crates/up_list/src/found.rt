//! What is found in a tree that is looked at.
ghost use Rattle.std.specs.Prelude.{◌≡◌, IfOk};
ghost use Rattle.up_entry.specs.Showing.{shown_as};
ghost use Rattle.up_list.specs.Founds.{entry_found};

use std::alloc::{AllocError, Global};
use up_entry::{Entry, shown};

/// An entry that is found: one that the tree keeps, or one that was made for who looks.
#[derive(Drop)]
pub enum Found<'a> {
    Kept(&'a Entry),
    Made(Entry),
}

impl Found<'_> {
    /// The entry.
    pub fn entry(&self) -> &Entry
        ensures { result.now ≡ entry_found self.now }
    {
        match self {
            Found::Kept(entry) => entry,
            Found::Made(entry) => entry,
        }
    }

    /// The entry as it is shown to a user: whole, or without its blocks and packdata and with the incomplete mark.
    pub fn shown(&self, alloc: Global, whole: bool) -> Result<Entry, AllocError>
        ensures { IfOk result (λ entry. entry ≡ shown_as whole (entry_found self.now)) }
    {
        shown(alloc, self.entry(), whole)
    }
}
