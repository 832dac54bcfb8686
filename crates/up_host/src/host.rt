//! A host that is not shared.
ghost use Rattle.std.specs.Prelude.{◌≡◌, is_some};
ghost use Rattle.up_host.specs.Alone.{tree_for};

use crate::held::Held;
use crate::room::Room;
use crate::trees::tree_of;
use std::hash::RandomState;
use std::marker::Model;
use up_blocks::Blocks;
use up_disk::Disk;
use up_keys::Keys;
use up_names::User;
use up_tree::TreeState;

/// A host: the trees of some owners, a store, and the keys of users, over disks.
#[derive(Drop)]
pub struct Host<D: Disk> {
    pub(crate) name: String,
    pub(crate) operator: User,
    pub(crate) trees: Vec<Held<TreeState<D>>>,
    pub(crate) store: Held<Blocks<D>>,
    pub(crate) keys: Held<Keys<D>>,
    // for the disk of each log
    pub(crate) room: Room<D>,
    pub(crate) random: RandomState,
}

impl<D: Disk> Model for Host<D> {
    ghost use Rattle.std.specs.String.{string_bytes};
    ghost use Rattle.up_host.specs.Alone.{HostState, IsHost};

    ghost Value = { HostState D };

    ghost view = { λ host. record {
      name = string_bytes host.name;
      operator = host.operator;
      trees = host.trees.items;
      store = host.store;
      keys = host.keys;
    } };

    ghost invariant = { λ host. IsHost host.trees.items host.store host.keys host.room.spare };
}

impl<D: Disk> Host<D> {
    /// The host's name, with which who signs on is challenged.
    pub fn name(&self) -> &str
        ensures { result.now ≡ self.now.name }
    {
        self.name.as_str()
    }

    /// The user as whom the host asks others, and who alone may delete blocks of its store.
    pub fn operator(&self) -> &User
        ensures { result.now ≡ self.now.operator }
    {
        &self.operator
    }

    /// Whether the host has the tree of an owner.
    pub fn has(&self, owner: &User) -> bool
        ensures { result ≡ is_some (tree_for self.now.trees owner.now) }
    {
        tree_of(&self.trees, owner).is_some()
    }
}
