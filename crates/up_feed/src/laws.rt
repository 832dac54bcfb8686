//! What holds of all answers of a connection together.
ghost use Rattle.up_feed.specs.Fronts.{FeedsNeverFall};

use up_disk::Disk;
use up_ends::{Nonces, Verifier};

/// What a user is answered on one connection is over fronts of the user's log that never get shorter, and are at least as long as what the
/// seats had seen of it.
pub fn feeds_never_fall<D: Disk + Drop, V: Verifier, N: Nonces>()
    ensures { FeedsNeverFall D V.Verifier N.Nonces }
{}
