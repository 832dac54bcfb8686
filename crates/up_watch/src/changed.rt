//! What a record of a log changes.
ghost use Rattle.std.specs.Prelude.{◌≡◌, ◌≢◌, ◌-◌, Some};
ghost use Rattle.std.specs.Option.{option_and_then, option_copied, option_map};
ghost use Rattle.up_answers.specs.Events.{change_at};
ghost use Rattle.up_entry.specs.declared.records.Rec.TheVariants.{Delete};
ghost use Rattle.up_list.specs.Entries.{entry_at};
ghost use Rattle.up_names.specs.PathNames.{PathName};
ghost use Rattle.up_log_tree.specs.Changes.{record_at};
ghost use Rattle.up_log_tree.specs.Trees.{tree_at};
ghost use Rattle.up_watch.specs.Watching.{change_of, entry_put};

use up_entry::{Entry, Rec};
use up_mem_tree::MemTree;

/// What a record changes: the entry that it puts, or the one that it deletes.
#[derive(Drop)]
pub(crate) struct Changed<'a> {
    pub(crate) delete: bool,
    pub(crate) entry: &'a Entry,
}

/// What record `n`, from 1, changes. A Snap changes nothing.
#[tactic(auto, unfolding(up_answers::specs::Events::change_at, up_answers::specs::Events::change_in))]
pub(crate) fn changed_by(tree: &MemTree, n: u64) -> Option<Changed<'_>>
    requires { n ≢ 0 }
    ensures { option_map change_of result ≡ change_at tree.now.log (n - 1) }
{
    let (delete, entry) = match tree.rec_at(n)? {
        Rec::Put(entry, _) => (false, entry),
        Rec::Delete(_) => (true, entry_deleted(tree, n)?),
        Rec::Snap(_) => return None,
    };
    Some(Changed { delete, entry })
}

/// The entry that record `n` puts, where it is a Put.
fn entry_put(tree: &MemTree, n: u64) -> Option<&Entry>
    ensures { option_copied result ≡ option_and_then entry_put (record_at tree.now.log n) }
{
    match tree.rec_at(n)? {
        Rec::Put(entry, _) => Some(entry),
        Rec::Delete(_) | Rec::Snap(_) => None,
    }
}

/// The entry that record `n`, a Delete, deletes: what the record before it on the same path has put.
fn entry_deleted(tree: &MemTree, n: u64) -> Option<&Entry>
    ensures { (path : PathName) → record_at tree.now.log n ≡ Some (Delete path)
        → option_copied result ≡ entry_at (tree_at tree.now.log (n - 1)) path }
{
    tree.recall();
    match tree.change_before(n) {
        Some(before) => entry_put(tree, before),
        None => None,
    }
}
