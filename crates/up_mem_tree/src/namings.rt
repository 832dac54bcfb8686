//! From which record on a text can be met that names a group.
ghost use Rattle.std.specs.Prelude.{◌≡◌, ◌<◌, ◌⊎◌, ℕ, true, slice_get};
ghost use Rattle.std.specs.Map.{keys_of};
ghost use Rattle.up_names.specs.PathNames.{PathName, is_under};
ghost use Rattle.up_mem_tree.specs.ChangesBelow.{AreNoted, noted_all};
ghost use Rattle.up_mem_tree.specs.Kept.{Stands, slots_of};
ghost use Rattle.up_mem_tree.specs.Namings.{ChangesPath, IsFirstMet, IsFirstNow, IsFirstOf, IsFrom};
ghost use Rattle.up_log_tree.specs.Changes.{changes_under};
ghost use Rattle.up_log_tree.specs.Rights.{access_path};

use crate::changes_below::{Under, changes_above, path_of_change};
use crate::gone::Naming;
use crate::kept::Kept;
use crate::nodes::record_at;
use crate::slots::path_in;
use up_maps::OrderedMap;
use up_names::{Control, Path};

/// The first change above `above` in one directory or below it.
fn first_below(changes_below: &[Under], kept: &Kept, dir: &Path, above: u64) -> Option<u64>
    requires stands { Stands kept.now }
    requires noted { AreNoted kept.now.log.items (slots_of kept.now) (noted_all changes_below.now) }
    ensures { result ≡ slice_get (changes_under kept.now.log.items dir.now above) 0 }
{
    changes_above(changes_below, kept, dir, above)
        .first()
        .copied()
}

/// The first change above `above` in the directory of an Access file or below it, where this is under a path; `above` where the path itself
/// is in the directory or below it, or the directory has no slot; and none where neither path is above the other.
fn first_under(
    changes_below: &[Under],
    kept: &Kept,
    file: &Path,
    path: &Path,
    above: u64,
) -> Option<u64>
    requires stands { Stands kept.now }
    requires noted { AreNoted kept.now.log.items (slots_of kept.now) (noted_all changes_below.now) }
    ensures { (dir : PathName) (n : ℕ) (changed : PathName) → file.now ≡ access_path dir
        → above < n → ChangesPath kept.now.log.items n changed
        → is_under changed path.now ≡ true → is_under changed dir ≡ true → IsFrom result n }
{
    let Some(id) = kept.ids_of(file).1 else {
        return Some(above);
    };
    let Some(dir) = path_in(kept.slots.as_slice(), id) else {
        return Some(above);
    };
    if path.is_under(dir) {
        return Some(above);
    }
    if !dir.is_under(path) {
        return None;
    }
    first_below(changes_below, kept, dir, above)
}

/// The first change above `above` of a path under this one at which the text of a record can be met, whenever it was replaced.
fn first_reached(
    changes_below: &[Under],
    kept: &Kept,
    by: u64,
    path: &Path,
    above: u64,
) -> Option<u64>
    requires stands { Stands kept.now }
    requires noted { AreNoted kept.now.log.items (slots_of kept.now) (noted_all changes_below.now) }
    ensures { (until : ℕ) → IsFirstMet kept.now.log.items path.now above result
        (record { by = by; until = until }) }
{
    let Some(rec) = record_at(kept.log.as_slice(), by) else {
        return None;
    };
    let Some(file) = path_of_change(rec) else {
        return None;
    };
    match file.control_kind() {
        Control::Access => first_under(changes_below, kept, file, path, above),
        Control::Group => Some(above),
        Control::Ordinary => None,
    }
}

/// The first change, where the text still lasts directly after it; `until` is 0 where the text was not replaced.
fn lasting(first: Option<u64>, until: u64) -> Option<u64>
    ensures { (n : ℕ) → IsFrom first n → (until ≡ 0) ⊎ (n < until) → IsFrom result n }
{
    match first {
        Some(position) if until == 0 || position < until => first,
        Some(_) | None => None,
    }
}

/// The first change above `above` of a path under this one at which a text can be met, before it was replaced.
fn first_of(
    changes_below: &[Under],
    kept: &Kept,
    naming: Naming,
    path: &Path,
    above: u64,
) -> Option<u64>
    requires stands { Stands kept.now }
    requires noted { AreNoted kept.now.log.items (slots_of kept.now) (noted_all changes_below.now) }
    ensures { IsFirstMet kept.now.log.items path.now above result naming }
{
    let first = first_reached(changes_below, kept, naming.by, path, above);
    lasting(first, naming.until)
}

/// The earlier of two positions, or the only one.
pub(crate) fn earlier(one: Option<u64>, other: Option<u64>) -> Option<u64>
    ensures one { (n : ℕ) → IsFrom one n → IsFrom result n }
    ensures other { (n : ℕ) → IsFrom other n → IsFrom result n }
{
    match (one, other) {
        (Some(one), Some(other)) => Some(one.min(other)),
        (Some(one), None) => Some(one),
        (None, other) => other,
    }
}

/// The first change above `above` of a path under this one at which the text of one of these records can be met, none of which was
/// replaced.
pub(crate) fn first_now(
    changes_below: &[Under],
    kept: &Kept,
    records: &OrderedMap<u64, ()>,
    path: &Path,
    above: u64,
) -> Option<u64>
    requires stands { Stands kept.now }
    requires noted { AreNoted kept.now.log.items (slots_of kept.now) (noted_all changes_below.now) }
    ensures { IsFirstNow kept.now.log.items (keys_of records.now.entries) path.now above result }
{
    let mut first = None;
    for i in 0..u64::MAX {
        let Some(by) = records.key_at(i) else {
            return first;
        };
        let text = Naming { by: *by, until: 0 };
        let next = first_of(changes_below, kept, text, path, above);
        first = earlier(first, next);
    }
    // No memory holds so many.
    Some(above)
}

/// The first change above `above` of a path under this one at which one of these texts can be met.
pub(crate) fn first_met(
    changes_below: &[Under],
    kept: &Kept,
    texts: &[Naming],
    path: &Path,
    above: u64,
) -> Option<u64>
    requires stands { Stands kept.now }
    requires noted { AreNoted kept.now.log.items (slots_of kept.now) (noted_all changes_below.now) }
    ensures { IsFirstOf kept.now.log.items texts.now path.now above result }
{
    let mut first = None;
    for text in texts {
        let next = first_of(changes_below, kept, *text, path, above);
        first = earlier(first, next);
    }
    first
}
