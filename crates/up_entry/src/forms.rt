//! The form of an entry of a tree.

ghost use Rattle.std.specs.Prelude.{◌≡◌};
ghost use Rattle.up_entry.specs.FixedForm.{has_fixed_form, link_fits};

use crate::block_rules::{blocks_fit, control_size_fits};
use crate::entries::{Entry, Kind};
use crate::kind_rules::{control_fits, packdata_fits, packing_fits, root_fits};
use up_names::Path;

/// Whether an entry has the form of each entry of a tree: whether it keeps all rules of Put but those of its writer and its
/// sequence. It takes no memory.
#[tactic(auto, unfolding(crate::specs::FixedForm::has_fixed_form))]
pub fn has_fixed_form(entry: &Entry) -> bool
    ensures { result ≡ has_fixed_form entry.now }
{
    let kind = entry.attr.kind;
    entry.signed_name == entry.name
        && packing_fits(Some(entry.attr), &entry.name, entry.packing)
        && !entry.attr.incomplete
        && link_fits(kind, &entry.link)
        && blocks_fit(kind, entry.blocks.as_slice())
        && packdata_fits(kind, &entry.packdata)
        && root_fits(kind, &entry.name)
        && control_fits(kind, entry.name.control_kind())
        && control_size_fits(kind, &entry.name, entry.blocks.as_slice())
}

/// Whether a link has a target, and an entry of another kind none.
fn link_fits(kind: Kind, link: &Option<Path>) -> bool
    ensures { result ≡ link_fits kind link.now }
{
    match link {
        Some(_) => kind == Kind::Link,
        None => kind != Kind::Link,
    }
}
