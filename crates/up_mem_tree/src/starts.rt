//! Where the way up from a record's path begins: a step knows the slot, so that no walk down is needed.
ghost use Rattle.std.specs.Prelude.{◌≡◌};
ghost use Rattle.up_mem_tree.specs.Starts.{start_at, start_of};

use crate::changes_below::path_of_change;
use crate::steps::{Own, Step};
use up_entry::Rec;

/// The slot of a path of so many elements, or of its directory, where it has none yet, with the number of elements.
fn start_at(len: u64, step: &Step) -> Option<(u64, usize)>
    ensures { result ≡ start_at len step.now }
{
    match &step.own {
        Own::There(id) => Some((len, *id)),
        Own::New(_) => match &step.parent {
            Some(parent) => Some((len.saturating_sub(1), parent.id)),
            None => None,
        },
    }
}

/// The same of the path that a record changes, by its step; a Snap has none.
pub(crate) fn start_of(rec: &Rec, step: &Option<Step>) -> Option<(u64, usize)>
    ensures { result ≡ start_of rec.now step.now }
{
    let Some(step) = step else {
        return None;
    };
    match path_of_change(rec) {
        Some(path) => start_at(path.len(), step),
        None => None,
    }
}
