//! The key record of a user.
ghost use Rattle.up_keys.specs.Records.{record_in};
ghost use Rattle.up_shared.specs.Records.{FindsKey, IsFound, IsKeyOf, LooksAtKeys};
ghost use Rattle.up_shared.specs.Sharing.{AreSeats};

use crate::shared::{Seats, Shared};
use std::alloc::{AllocError, Global};
use std::sync::Wait;
use up_cell::Job;
use up_disk::Disk;
use up_keys::{Keys, copied};
use up_names::User;
use up_wire::KeyRecord;

impl<D: Disk + Drop> Shared<D> {
    /// The record of a user: its last one, or `None` exactly where it has none, at a position of the keys' log that is not before what
    /// the seats had seen. It waits for one turn of the keys. An `Err` is want of memory, and comes only where there is
    /// a record.
    pub fn key_record<R: Wait>(
        &self,
        rt: &R,
        alloc: Global,
        seats: &mut Seats<D>,
        user: &User,
    ) -> Result<Option<KeyRecord>, AllocError>
        requires { AreSeats self.now seats.old }
        ensures found { IsKeyOf seats.old.keys seats.new.keys user.now result }
        ensures looks { LooksAtKeys seats.old seats.new }
        ensures sits { AreSeats self.now seats.new }
    {
        let mut job = FindKey {
            alloc,
            user,
            found: Ok(None),
        };
        self.keys.lend(rt, &mut seats.keys, &mut job);
        job.found
    }
}

/// The record of a user, copied.
#[derive(Drop)]
struct FindKey<'a> {
    alloc: Global,
    user: &'a User,
    found: Result<Option<KeyRecord>, AllocError>,
}

impl<'a, D: Disk> Job<Keys<D>> for FindKey<'a> {
    ghost can = { λ job state. Unit {0} };

    ghost did = { λ job old after new. FindsKey job.user.now old new after.found };

    fn run(&mut self, state: &mut Keys<D>) {
        self.found = found_in(self.alloc, state, self.user);
    }
}

// A copy of the record of a user.
fn found_in<D: Disk>(
    alloc: Global,
    keys: &Keys<D>,
    user: &User,
) -> Result<Option<KeyRecord>, AllocError>
    ensures { IsFound result (record_in keys.now.log user.now) }
{
    match keys.lookup(user) {
        Some(known) => Ok(Some(copied(alloc, known)?)),
        None => Ok(None),
    }
}
