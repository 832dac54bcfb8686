//! Writing entries, and how long what is written is.

ghost use Rattle.std.specs.Prelude.{◌≡◌, ◌++◌, IfOk, OnOk, Ok, is_ok, if◌then◌else◌, length, take};
ghost use Rattle.up_bytes.specs.Sizes.{size_of};
ghost use Rattle.up_names.specs.PathNames.{canonical, IsCanonical};
ghost use Rattle.up_names.specs.UserNames.{user_of};
ghost use Rattle.up_entry.specs.Attrs.{attr_byte};
ghost use Rattle.up_entry.specs.Spelling as spelling;
ghost use Rattle.up_entry.specs.Spelling.{link_text, IsEntry, IsTarget};

use crate::attrs::attr_byte;
use crate::entries::Entry;
use crate::front::Front;
use std::alloc::AllocError;
use up_bytes::{Fields, Writer, list_size, num_len, text_len, write_list};
use up_names::Path;

/// Appends an entry, in its one spelling. A call that finds no memory appends nothing.
pub fn write_entry(entry: &Entry, out: &mut Writer) -> Result<(), AllocError>
    ensures written { out.new ≡
        (if is_ok result then out.old ++ spelling.entry entry.now else out.old) }

    // With a link and addresses as they have to be, it is an entry that is read again, by the law `entries_have_one_spelling`.
    ensures typed { IfOk result (λ _. IsEntry entry.now) }
{
    entry.write(out)
}

/// How many bytes an entry's spelling has, or 2^64 - 1 where there are more. It takes no memory.
#[tactic(auto, unfolding(crate::specs::Spelling::entry))]
pub fn entry_size(entry: &Entry) -> u64
    ensures { result ≡ size_of (spelling.entry entry.now) }
{
    front_of(entry)
        .size()
        .saturating_add(text_len(link_text(&entry.link)))
        .saturating_add(text_len(entry.packdata.as_slice()))
        .saturating_add(list_size(entry.blocks.as_slice()))
        .saturating_add(num_len(entry.sequence))
}

/// Appends an entry. A call that finds no memory may leave a part of it.
#[tactic(auto, unfolding(crate::specs::Spelling::entry))]
pub(crate) fn append_entry(entry: &Entry, out: &mut Writer) -> Result<(), AllocError>
    ensures appended { OnOk result (out.new ≡ out.old ++ spelling.entry entry.now) }
    ensures kept { take (length out.old) out.new ≡ out.old }
    ensures typed { IfOk result (λ _. IsEntry entry.now) }
{
    front_of(entry).write(out)?;
    out.text(link_text(&entry.link))?;
    out.text(entry.packdata.as_slice())?;
    write_list(entry.blocks.as_slice(), out)?;
    out.num(entry.sequence)
}

/// What stands in front of an entry's link.
fn front_of(entry: &Entry) -> Front<'_>
    ensures names { (result.name.now ≡ canonical entry.now.name) ×
        (result.signed_name.now ≡ canonical entry.now.signed_name) ×
        (result.writer.now ≡ entry.now.writer) }
    ensures others { (result.packing ≡ entry.now.packing) × (result.time ≡ entry.now.time) ×
        (result.attr ≡ attr_byte entry.now.attr) }
    ensures typed { IsCanonical entry.now.name × IsCanonical entry.now.signed_name ×
        (user_of entry.now.writer ≡ Ok entry.now.writer) }
{
    Front {
        name: entry.name.as_str().as_bytes(),
        signed_name: entry.signed_name.as_str().as_bytes(),
        packing: entry.packing,
        time: entry.time,
        writer: entry.writer.text().as_bytes(),
        attr: attr_byte(entry.attr),
    }
}

/// The text of a link's target, empty where there is none.
fn link_text(link: &Option<Path>) -> &[u8]
    ensures text { result.now ≡ link_text link.now }
    ensures typed { IsTarget link.now }
{
    match link {
        Some(target) => target.as_str().as_bytes(),
        None => &[],
    }
}
