//! What holds of callers of a shared host together.
ghost use Rattle.up_together.specs.Holding.{SharesComeTogether};

use up_disk::Disk;

/// Whatever callers of a shared host did, in any order: once the seats of all are joined again they have the whole share of each log, and
/// one look at its count shows every position since the host was shared as their own. So nothing that was added is nobody's, and nothing
/// is two callers'.
pub fn shares_come_together<D: Disk + Drop>()
    ensures { SharesComeTogether D }
{}
