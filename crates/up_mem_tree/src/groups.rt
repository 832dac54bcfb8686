//! The last change of a Group file, at each position of the log.
ghost use Rattle.std.specs.Prelude.{◌≡◌, ◌≤◌, ◌<◌, [], ◌∷◌, ◌++◌, length, take};
ghost use Rattle.std.specs.Vec.{vec_capacity, vec_len};
ghost use Rattle.up_mem_tree.specs.Groups.{AreGroupChanges, last_group_change};
ghost use Rattle.up_log_tree.specs.Changes.{changes_some};
ghost use Rattle.up_log_tree.specs.Rights.{is_group};

use crate::changes_below::path_of_change;
use crate::kept::Kept;
use up_entry::Rec;
use up_names::{Control, Path};

/// Whether a path is for a Group file.
pub fn is_group(path: &Path) -> bool
    ensures { result ≡ is_group path.now }
{
    match path.control_kind() {
        Control::Group => true,
        Control::Access | Control::Ordinary => false,
    }
}

/// Whether a record changes a Group path.
fn changes_group(rec: &Rec) -> bool
    ensures { result ≡ changes_some is_group rec.now }
{
    match path_of_change(rec) {
        Some(path) => is_group(path),
        None => false,
    }
}

/// The position of the last of the first `n` records that changes a Group path, or 0.
pub(crate) fn group_change_at(groups: &[u64], kept: &Kept, n: u64) -> u64
    requires groups { AreGroupChanges kept.now.log.items groups.now }
    requires within { n ≤ length kept.now.log.items }
    ensures { result ≡ last_group_change (take n kept.now.log.items) }
{
    if n == 0 {
        return 0;
    }
    groups[n as usize - 1]
}

/// That position once a record is entered.
fn next_group_change(groups: &[u64], kept: &Kept, rec: &Rec) -> u64
    requires { AreGroupChanges kept.now.log.items groups.now }
    ensures { result ≡ last_group_change (kept.now.log.items ++ rec.now ∷ []) }
{
    let records = kept.log.len() as u64;
    if changes_group(rec) {
        records + 1
    } else {
        group_change_at(groups, kept, records)
    }
}

/// Keeps that position for a record that is to be entered next. It takes no memory.
pub(crate) fn note_group(groups: &mut Vec<u64>, kept: &Kept, rec: &Rec)
    requires groups { AreGroupChanges kept.now.log.items groups.old.items }
    requires room { vec_len groups.old < vec_capacity groups.old }
    ensures { AreGroupChanges (kept.now.log.items ++ rec.now ∷ []) groups.new.items }
{
    let last = next_group_change(groups.as_slice(), kept, rec);
    groups.push_reserved(last);
}
