//! The room for the disks of a host.
ghost use Rattle.std.specs.Prelude.{◌≡◌, []};

use std::marker::Model;
use up_disk::Disks;

/// An empty list with room for the disks that were taken out of it.
#[derive(Drop)]
pub(crate) struct Room<D> {
    disks: Disks<D>,
}

impl<D> Model for Room<D> {
    ghost use Rattle.std.specs.Prelude.{◌≡◌, []};
    ghost use Rattle.up_disk.specs.Spare.{Spared};

    ghost Value = { Spared D };

    ghost view = { λ room. room.disks };

    ghost invariant = { λ room. room.disks.disks ≡ [] };
}

impl<D> Room<D> {
    /// The room of an empty list.
    pub(crate) fn of(disks: Disks<D>) -> Room<D>
        requires { disks.disks ≡ [] }
        ensures { result ≡ disks }
    {
        Room { disks }
    }

    /// The empty list.
    pub(crate) fn into_disks(self) -> Disks<D>
        ensures room { result ≡ self }
        ensures none { result.disks ≡ [] }
    {
        let Room { disks } = self;
        disks
    }
}
