//! What a user is shown of an entry.

ghost use Rattle.std.specs.Prelude.{◌≡◌, IfOk};
ghost use Rattle.up_entry.specs.Showing.{incomplete, shown_as};

use crate::copying::{copied_link, copied_names};
use crate::entries::{Attr, Entry};
use std::alloc::{AllocError, Global};
use up_lists::Items;

/// An entry as it is shown to a user: whole to one who may read its name, and to any other without its blocks and
/// packdata, with the mark.
pub fn shown(alloc: Global, entry: &Entry, read: bool) -> Result<Entry, AllocError>
    ensures { IfOk result (λ shown. shown ≡ shown_as read entry.now) }
{
    if read {
        entry.clone()
    } else {
        without_content(alloc, entry)
    }
}

/// The entry without its blocks and packdata, with the mark.
fn without_content(alloc: Global, entry: &Entry) -> Result<Entry, AllocError>
    ensures { IfOk result (λ shown. shown ≡ incomplete entry.now) }
{
    let (name, signed_name, writer) = copied_names(entry)?;
    match copied_link(&entry.link) {
        Ok(link) => Ok(Entry {
            signed_name,
            packing: entry.packing,
            time: entry.time,
            blocks: Items::new(alloc),
            packdata: Items::new(alloc),
            link,
            writer,
            name,
            attr: Attr {
                kind: entry.attr.kind,
                incomplete: true,
            },
            sequence: entry.sequence,
        }),
        Err(AllocError) => {
            drop(name);
            drop(signed_name);
            drop(writer);
            Err(AllocError)
        }
    }
}
