//! Which Access text governs a path.
ghost use Rattle.std.specs.Prelude.{◌≡◌};
ghost use Rattle.std.specs.Option.{option_copied};
ghost use Rattle.up_policy.specs.Trees.{owns_snapshots};
ghost use Rattle.up_policy.specs.Governors.{governor};

use crate::facts::Facts;
use up_access::AccessText;
use up_names::{Path, User};

/// Whether the tree of this owner is a snapshot tree.
pub fn owns_snapshots(owner: &User) -> bool
    ensures { result ≡ owns_snapshots owner.now }
{
    match owner.suffix() {
        Some(suffix) => suffix == "snapshot",
        None => false,
    }
}

/// The text that governs a path, where one does.
pub(crate) fn governor<'f, F: Facts>(facts: &'f F, path: &Path) -> Option<&'f AccessText>
    ensures { option_copied result ≡ governor (F.tree facts.now) path.now }
{
    governor_unless(owns_snapshots(facts.owner()), facts, path)
}

/// The same, where it is known whether the tree is a snapshot tree.
#[tactic(auto, unfolding(crate::specs::Governors::governor))]
pub(crate) fn governor_unless<'f, F: Facts>(
    snapshots: bool,
    facts: &'f F,
    path: &Path,
) -> Option<&'f AccessText>
    requires { snapshots ≡ owns_snapshots (F.tree facts.now).owner }
    ensures { option_copied result ≡ governor (F.tree facts.now) path.now }
{
    if snapshots { None } else { facts.nearest(path) }
}
