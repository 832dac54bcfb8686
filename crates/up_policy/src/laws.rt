//! Laws of rights. Each function does nothing; its contract is the law.
ghost use Rattle.up_policy.specs.Laws.{GovernorIsOne, ReachedIsOne, ReachedIsReached, RightsAreMonotone, TestIsRight};

/// The text that governs a path, as a value, is the one that governs it, and no other does.
pub fn governor_is_one()
    ensures { GovernorIsOne }
{}

/// The groups that are reached are one list, however many looks found nothing more.
pub fn reached_is_one()
    ensures { ReachedIsOne }
{}

/// The reached groups, as a value, are reached.
pub fn reached_is_reached()
    ensures { ReachedIsReached }
{}

/// The test of a right holds exactly where the user has the right, cycles of groups included.
pub fn test_is_right()
    ensures { TestIsRight }
{}

/// Rights only grow with what is loaded: where a loading has each text of another, a yes stays a yes.
pub fn rights_are_monotone()
    ensures { RightsAreMonotone }
{}
