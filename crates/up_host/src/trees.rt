//! The trees of a host, by their owners.
ghost use Rattle.std.specs.Prelude.{◌≡◌, position};
ghost use Rattle.std.specs.Option.{option_copied};
ghost use Rattle.up_host.specs.Alone.{is_of, tree_for};

use crate::held::Held;
use up_disk::Disk;
use up_names::User;
use up_tree::TreeState;

/// The tree of an owner.
pub(crate) fn tree_of<'a, D: Disk>(
    trees: &'a [Held<TreeState<D>>],
    owner: &User,
) -> Option<&'a Held<TreeState<D>>>
    ensures { option_copied result ≡ tree_for trees.now owner.now }
{
    trees.iter().find(|held| held.state.owner() == owner)
}

/// The place of the tree of an owner.
pub(crate) fn place_of<D: Disk>(trees: &[Held<TreeState<D>>], owner: &User) -> Option<usize>
    ensures { result ≡ position (is_of owner.now) trees.now }
{
    trees.iter().position(|held| held.state.owner() == owner)
}
