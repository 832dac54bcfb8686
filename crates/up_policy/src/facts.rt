//! What the evaluator asks of a tree.
ghost use Rattle.std.specs.Prelude.{◌≡◌, List, IsSome, Contains};
ghost use Rattle.std.specs.Option.{option_copied};
ghost use Rattle.up_names.specs.PathNames.{PathName};
ghost use Rattle.up_policy.specs.Governors.{first_text, prefixes};
ghost use Rattle.up_policy.specs.Trees.{TreeFacts};

use up_access::AccessText;
use up_group::GroupText;
use up_names::{Path, User};

/// What a tree says of rights. A map in memory implements it, a tree, and a view of a tree as it was.
pub trait Facts {
    // The owner, and the texts by their paths.
    ghost tree: { Self → TreeFacts };

    // Each path at which the tree has a Group text; others may be listed too, and some twice.
    ghost group_paths: { Self → List PathName };

    /// The tree's owner.
    fn owner(&self) -> &User
        ensures { result.now ≡ (tree self.now).owner };

    /// The text of the Access file in a directory, where there is one.
    fn access(&self, dir: &Path) -> Option<&AccessText>
        ensures { option_copied result ≡ (tree self.now).access dir.now };

    /// The text of the Access file in the nearest directory that has one, on the way from the path, itself included, to
    /// the root; none exactly where no directory on that way has one.
    fn nearest(&self, path: &Path) -> Option<&AccessText>
        ensures { option_copied result ≡ first_text (tree self.now).access (prefixes path.now) };

    /// The text of the Group file at a path, where there is one. At another owner's path there is none.
    fn group(&self, path: &Path) -> Option<&GroupText>
        ensures { option_copied result ≡ (tree self.now).group path.now };

    // The tree has finitely many Group texts, so that the search through them ends.
    ghost groups_listed: { (s : Self) (path : PathName) → IsSome ((tree s).group path)
        → Contains (group_paths s) path };
}
