//! The event of a record, to who watches.
ghost use Rattle.std.specs.Prelude.{◌≡◌, ◌≢◌, ◌≤◌, true, IfOk, length};
ghost use Rattle.up_list.specs.Looks.{rights};
ghost use Rattle.up_rights.specs.RightSets.{has_any};
ghost use Rattle.up_watch.specs.Decided.{Remembers};
ghost use Rattle.up_watch.specs.Watching.{after, now, told};

use crate::changed::changed_by;
use crate::watcher::{Known, Reader};
use std::alloc::{AllocError, Global};
use up_entry::shown;
use up_names::Path;
use up_rights::{Right, RightSet};
use up_wire::WatchEvent;

/// The event of record `n`, from 1: where the user has any right on the path that it changes now, and had any directly after it.
/// Its entry is shown by the rights of now.
pub(crate) fn event_by(
    alloc: Global,
    reader: &Reader,
    known: &mut Known,
    n: u64,
) -> Result<Option<WatchEvent>, AllocError>
    requires first { n ≢ 0 }
    requires within { n ≤ length reader.now.log }
    requires known { Remembers reader.now known.old }
    ensures event { IfOk result (λ event. event ≡ told reader.now n) }
    ensures known { Remembers reader.now known.new }
{
    let tree = reader.tree();
    tree.recall();
    let Some(changed) = changed_by(tree, n) else {
        return Ok(None);
    };
    let both = rights_on(alloc, reader, known, &changed.entry.name, n)?;
    let (held, earlier) = both;
    if held.is_empty() {
        return Ok(None);
    }
    if earlier.is_empty() {
        return Ok(None);
    }
    Ok(Some(WatchEvent {
        position: n,
        delete: changed.delete,
        entry: shown(alloc, changed.entry, held.has(Right::Read))?,
    }))
}

/// The user's rights on a path: as the tree is now, and, where these are any, as it was directly after record `n`.
fn rights_on(
    alloc: Global,
    reader: &Reader,
    known: &mut Known,
    path: &Path,
    n: u64,
) -> Result<(RightSet, RightSet), AllocError>
    requires owned { path.now.owner ≡ reader.now.owner }
    requires within { n ≤ length reader.now.log }
    requires known { Remembers reader.now known.old }
    ensures held { IfOk result (λ both. both.0 ≡ rights (now reader.now) path.now) }
    ensures earlier { IfOk result (λ both. has_any both.0 ≡ true
        → both.1 ≡ rights (after reader.now n) path.now) }
    ensures known { Remembers reader.now known.new }
{
    let held = known.rights_now(alloc, reader, path)?;
    if held.is_empty() {
        return Ok((held, held));
    }
    let earlier = known.rights_after(alloc, reader, path, n)?;
    Ok((held, earlier))
}
