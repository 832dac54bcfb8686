//! The positions of changes and of snapshots.
ghost use Rattle.std.specs.Prelude.{◌≡◌, ◌==◌, None, Some, if◌then◌else◌, slice_get};
ghost use Rattle.std.specs.Map.{keys_of};
ghost use Rattle.std.specs.Option.{option_copied};
ghost use Rattle.up_mem_tree.specs.Kept.{Stands};
ghost use Rattle.up_log_tree.specs.Changes.{change_before};
ghost use Rattle.up_log_tree.specs.Snapshots.{snap_at, snapshots_of};

use crate::kept::Kept;

/// The number at a place.
fn number_at(numbers: &[u64], i: usize) -> Option<&u64>
    ensures { option_copied result ≡ slice_get numbers.now i }
{
    numbers.get(i)
}

/// A position, where it is any.
pub(crate) fn if_any(position: u64) -> Option<u64>
    ensures { result ≡ (if position == 0 then None else Some position) }
{
    if position == 0 { None } else { Some(position) }
}

impl Kept {
    /// The position of the record before record `n`, from 1, on the same path.
    pub(crate) fn change_before(&self, n: u64) -> Option<u64>
        requires { Stands self.now }
        ensures { result ≡ change_before self.now.log.items n }
    {
        if n == 0 {
            return None;
        }
        match number_at(self.before.as_slice(), n as usize - 1) {
            Some(position) => if_any(*position),
            None => None,
        }
    }

    /// The position of the snapshot of that time.
    pub(crate) fn snap_at(&self, time: u64) -> Option<u64>
        requires { Stands self.now }
        ensures { result ≡ snap_at self.now.log.items time }
    {
        match self.snaps.get(&time) {
            Some(position) => Some(*position),
            None => None,
        }
    }

    /// The time of snapshot `i`, from 0, in the order of times.
    pub(crate) fn snap_time(&self, i: u64) -> Option<u64>
        requires { Stands self.now }
        ensures { result ≡ slice_get (keys_of (snapshots_of self.now.log.items)) i }
    {
        self.snaps.key_at(i).copied()
    }
}
