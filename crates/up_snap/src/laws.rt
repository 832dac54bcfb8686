//! Laws of snapshot trees. Each function does nothing; its contract is the law.
ghost use Rattle.up_snap.specs.Laws.{FirstSnapshotsShow, SnapshotTreesAreRooted};

/// At a path of a snapshot tree stands what the first snapshot shows there that bears on the path.
pub fn first_snapshots_show()
    ensures { FirstSnapshotsShow }
{}

/// The items of a snapshot tree stand at their names, each but the root in a directory.
pub fn snapshot_trees_are_rooted()
    ensures { SnapshotTreesAreRooted }
{}
