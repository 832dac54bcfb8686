//! The feed of a tree of a host in the same process.
ghost use Rattle.std.specs.Prelude.{◌≡◌, ◌≤◌, ◌≢◌, Err, IfOk, IfSome, Some, is_some, length, position, true};
ghost use Rattle.up_feed.specs.Feeding.{fed_log, owner_at};
ghost use Rattle.up_follow.specs.Feeds.{IsBatch, OnlyLonger, batch_limit};
ghost use Rattle.up_follow.specs.ListLogs.{batch_of};
ghost use Rattle.up_follow.specs.declared.fault.FeedFault.TheVariants as feed_fault;
ghost use Rattle.up_lists.specs.Counts.{HasCause, StaysUnless};
ghost use Rattle.up_shared.specs.Sharing.{AreSeats, cell_for, is_cell_of};
ghost use Rattle.up_together.specs.Sitting.{marks_at, marks_of};

use crate::pulling::{place_of, pull_at};
use std::alloc::Global;
use std::sync::Wait;
use up_disk::Disk;
use up_follow::{Batch, Feed, FeedFault};
use up_shared::{Seats, Shared};
use up_sign::Session;

/// The feed of one tree of a host that many share, by one caller's seats. It tells the log as far as its seat has seen it.
///
/// A pull waits for the turn of the tree. It never fails but for want of memory, and adds nothing to any log.
#[derive(Drop)]
pub struct CellFeed<'a, D: Disk + Drop, R: Wait> {
    rt: &'a R,
    shared: &'a Shared<D>,
    seats: &'a mut Seats<D>,
    place: usize,
    // The place is that of a tree of the host.
    ghost first: { position (is_cell_of (owner_at shared.now place)) shared.now.trees.items ≡ Some place },
    // The seats are those of the host.
    ghost sits: { marks_of seats.now ≡ marks_at shared.now seats.now },
}

impl<'a, D: Disk + Drop, R: Wait> CellFeed<'a, D, R> {
    /// The feed of the tree of whoever has signed on: `None` exactly where the host has no such tree. It waits for nobody.
    pub fn new(
        rt: &'a R,
        shared: &'a Shared<D>,
        seats: &'a mut Seats<D>,
        session: &Session,
    ) -> Option<CellFeed<'a, D, R>>
        requires sits { AreSeats shared.now seats.old }
        ensures there { is_some result
            ≡ is_some (cell_for shared.now.trees.items session.now.user) }
        ensures tree { IfSome result (λ feed.
            owner_at feed.shared.now feed.place ≡ session.now.user) }
        ensures same { IfSome result (λ feed. (feed.shared.now ≡ shared.now)
            × (feed.seats.now ≡ seats.old) × (feed.seats.ghost_name ≡ seats.entry.ghost_name)) }
    {
        let Some(place) = place_of(shared, session.user()) else {
            return None;
        };
        Some(CellFeed {
            rt,
            shared,
            seats,
            place,
        })
    }
}

impl<'a, D: Disk + Drop, R: Wait> Feed for CellFeed<'a, D, R> {
    ghost use Rattle.up_shared.specs.Callers.{seats_same, seats_trans};
    ghost use Rattle.up_shared.specs.Sharing.{SeatsLater};
    ghost use Rattle.std.proofs.Common.{refl, ◌∙◌};

    ghost leader = { λ feed. fed_log feed.seats.now (owner_at feed.shared.now feed.place) };

    ghost faults = { λ _. 0 };

    ghost tied = { λ old new. (new.seats.ghost_name ≡ old.seats.ghost_name)
        × (new.place ≡ old.place)
        × (new.shared.now ≡ old.shared.now)
        × SeatsLater old.seats.now new.seats.now };

    #[tactic(auto, using(up_together::proofs::SittingLemmas::marks_by_sits))]
    fn pull(&mut self, alloc: Global, from: u64) -> Result<Batch, FeedFault>
        // Exactly which records come, of the log that is told, which is the one that was lent; and that it never fails.
        ensures given { IfOk result (λ batch. IfSome
            (fed_log self.new.seats.now (owner_at self.new.shared.now self.new.place))
            (λ log. batch ≡ batch_of from log)) }
        ensures told { is_some
            (fed_log self.new.seats.now (owner_at self.new.shared.now self.new.place)) ≡ true }
        ensures never { result ≢ Err feed_fault.Failed }

        ensures few { IfOk result (λ batch. length batch ≤ batch_limit) }
        ensures batch { IfOk result (λ batch. IfSome
            (fed_log self.new.seats.now (owner_at self.new.shared.now self.new.place))
            (IsBatch from batch)) }
        ensures grows { OnlyLonger
            (fed_log self.old.seats.now (owner_at self.old.shared.now self.old.place))
            (fed_log self.new.seats.now (owner_at self.new.shared.now self.new.place)) }
        ensures cause { HasCause 0 0 (result ≡ Err feed_fault.Failed) }
        ensures quiet { StaysUnless 0 0 (result ≡ Err feed_fault.Failed) }
        ensures tie { (self.new.seats.ghost_name ≡ self.old.seats.ghost_name)
            × (self.new.place ≡ self.old.place)
            × (self.new.shared.now ≡ self.old.shared.now)
            × SeatsLater self.old.seats.now self.new.seats.now }
    {
        match pull_at(self.rt, alloc, self.shared, self.seats, self.place, from) {
            Ok(batch) => Ok(batch),
            Err(_) => Err(FeedFault::OutOfMemory),
        }
    }

    ghost same = { λ a. (refl, refl, refl, seats_same a.seats.now) };

    ghost joined = { λ a b c p q. (
      q.0 ∙ p.0,
      q.1 ∙ p.1,
      q.2 ∙ p.2,
      seats_trans a.seats.now b.seats.now c.seats.now p.3 q.3,
    ) };
}
