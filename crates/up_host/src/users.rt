//! The users of a host.
ghost use Rattle.std.specs.Prelude.{◌≡◌, true};
ghost use Rattle.std.specs.Option.{option_copied};
ghost use Rattle.up_host.specs.Alone.{Enrols};
ghost use Rattle.up_host.specs.Settled.{StaysSettled};
ghost use Rattle.up_keys.specs.Records.{has_bounds, record_in};

use crate::host::Host;
use up_disk::Disk;
use up_journal::AppendWhy;
use up_names::User;
use up_wire::KeyRecord;

impl<D: Disk> Host<D> {
    /// Adds a user's record, which is its one from then on, and answers the record's position, from 1. `Full` comes exactly at the
    /// limits of the keys; after a refusal the host is as before, but that after a `Fault` one record may be doubtful.
    pub fn enrol(&mut self, card: KeyRecord) -> Result<u64, AppendWhy>
        requires { has_bounds card ≡ true }
        ensures enrols { Enrols D.Disk card self.old self.new result }
        ensures stays { StaysSettled D.Disk self.old self.new }
    {
        self.keys.state.put(card)
    }

    /// The record of a user: its last one, or `None` exactly where it has none.
    pub fn key_record(&self, user: &User) -> Option<&KeyRecord>
        ensures { option_copied result ≡ record_in self.now.keys.state.log user.now }
    {
        self.keys.state.lookup(user)
    }
}
