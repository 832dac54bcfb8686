//! Two logs that are compared by their heads.
ghost use Rattle.std.specs.Prelude.{◌≡◌, ◌↔◌, length, IsTrue};
ghost use Rattle.up_journal.specs.Collisions.{AreSameTold};

use crate::journal::Journal;
use up_disk::Disk;

/// Whether two journals have equally many records and the same head. Then their logs are equal, or two different byte
/// strings among their records have one SHA-256. It reads nothing.
pub fn same_heads<D: Disk, E: Disk>(one: &Journal<D>, other: &Journal<E>) -> bool
    ensures exact { IsTrue result
        ↔ ((length one.now.sizes ≡ length other.now.sizes) × (one.now.head ≡ other.now.head)) }
    ensures meaning { IsTrue result → AreSameTold one.now.log other.now.log }
{
    one.len() == other.len() && one.head() == other.head()
}
