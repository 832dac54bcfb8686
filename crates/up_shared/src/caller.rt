//! One caller of a host that many share, as who has its logs.
ghost use Rattle.std.proofs.Common.{ap, refl};
ghost use Rattle.std.specs.Prelude.{◌≡◌};
ghost use Rattle.up_shared.specs.Callers.{IsTied, failed_within, looked_since, quiet_trans, seats_later, tied_same, tied_still, tied_trans, tied_wider};
ghost use Rattle.up_shared.specs.Jobs.{there};
ghost use Rattle.up_shared.specs.Sharing.{AreSeats, HasFailed, HasLooked, IsQuiet, views_of};

use crate::jobs::{ReadBlock, ReadText, TryKeys, TryStore, TryTree};
use crate::lending::{lend_keys, lend_store, lend_tree};
use crate::shared::{Seats, Shared, place_among};
use std::alloc::{AllocError, Global};
use std::hash::RandomState;
use std::mem;
use std::sync::Wait;
use up_calls::{Logs, Turn};
use up_dir::Fetched;
use up_disk::Disk;
use up_entry::Fetch;
use up_foreign::KeptSearch;
use up_list::ReadRequest;
use up_names::{Path, User};
use up_policy::{LoadAnswer, Loaded};
use up_refs::Reference;
use up_wire::{Reply, Request};

/// One caller of a host that many share: the host, and the caller's seats. Each of its calls is at most one turn of one log.
#[derive(Drop)]
pub(crate) struct Caller<'a, D: Disk + Drop, R: Wait> {
    pub(crate) rt: &'a R,
    pub(crate) shared: &'a Shared<D>,
    pub(crate) seats: &'a mut Seats<D>,
}

impl<'a, D: Disk + Drop, R: Wait> Logs for Caller<'a, D, R> {
    ghost operator_of = { λ caller. caller.shared.now.operator };

    ghost views = { λ caller. views_of caller.seats.now };

    ghost ready = { λ caller. AreSeats caller.shared.now caller.seats.now };

    ghost tied = { λ but old new. IsTied but old.shared.now new.shared.now
        old.seats.ghost_name new.seats.ghost_name old.seats.now new.seats.now };

    ghost left = { λ log n old new. HasLooked log n old.seats.now new.seats.now };

    ghost rises = { λ log old new. HasFailed log old.seats.now new.seats.now };

    ghost quiet = { λ log old new. IsQuiet D.Disk log old.seats.now new.seats.now };

    fn operator(&self) -> &User {
        &self.shared.operator
    }

    fn random(&self) -> RandomState {
        self.shared.random
    }

    fn has(&self, owner: &User) -> bool {
        place_among(&self.shared.trees, owner).is_some()
    }

    fn text(&mut self, alloc: Global, name: &Path) -> Result<Option<LoadAnswer>, AllocError> {
        let Some(place) = place_among(&self.shared.trees, name.owner()) else {
            return Ok(None);
        };
        let mut job = ReadText {
            alloc,
            random: self.shared.random,
            operator: &self.shared.operator,
            name,
            given: Err(AllocError),
        };
        lend_tree(self.rt, self.shared, self.seats, place, &mut job);
        there(job.given)
    }

    fn block(&mut self, reference: &Reference) -> Result<Fetch, AllocError> {
        let mut job = ReadBlock {
            reference,
            given: Err(AllocError),
        };
        lend_store(self.rt, self.shared, self.seats, &mut job);
        job.given
    }

    fn ask_tree(
        &mut self,
        alloc: Global,
        owner: &User,
        user: &User,
        request: &Request,
        asked: &ReadRequest,
        loaded: &Loaded,
        kept: &mut KeptSearch,
        fetched: &Fetched,
        now: u64,
    ) -> Turn {
        let Some(place) = place_among(&self.shared.trees, owner) else {
            unreachable!()
        };
        let mut job = TryTree {
            alloc,
            user,
            request,
            asked,
            loaded,
            kept: mem::replace(kept, KeptSearch::new(alloc, self.shared.random)),
            fetched,
            now,
            came: Turn::Wanting,
        };
        lend_tree(self.rt, self.shared, self.seats, place, &mut job);
        mem::swap(kept, &mut job.kept);
        job.came
    }

    fn ask_store(&mut self, user: &User, request: &Request) -> (Reply, u64) {
        let mut job = TryStore {
            operator: &self.shared.operator,
            user,
            request,
            came: (Reply::OutOfMemory, 0),
        };
        lend_store(self.rt, self.shared, self.seats, &mut job);
        job.came
    }

    fn ask_keys(&mut self, user: &User, request: &Request) -> (Reply, u64) {
        let mut job = TryKeys {
            user,
            request,
            came: (Reply::OutOfMemory, 0),
        };
        lend_keys(self.rt, self.shared, self.seats, &mut job);
        job.came
    }

    ghost same = { λ a. tied_same a.shared.now a.seats.ghost_name a.seats.now };

    ghost joined = { λ but a b c p q. tied_trans but a.shared.now b.shared.now c.shared.now
        a.seats.ghost_name b.seats.ghost_name c.seats.ghost_name
        a.seats.now b.seats.now c.seats.now p q };

    ghost wider = { λ but a b p. tied_wider but a.shared.now b.shared.now
        a.seats.ghost_name b.seats.ghost_name a.seats.now b.seats.now p };

    ghost asks_as = { λ but a b p. ap (λ s. s.operator) p.host };

    ghost still = { λ but a b p sits. tied_still but a.shared.now b.shared.now
        a.seats.ghost_name b.seats.ghost_name a.seats.now b.seats.now p sits };

    ghost later = { λ but a b p. seats_later a.seats.now b.seats.now p.later };

    ghost stays = { λ but a b p. p.own };

    ghost left_since = { λ log n a b c p own h.
        looked_since log n a.seats.now b.seats.now c.seats.now p.later h };

    ghost rises_within = { λ log but a b c d p h q.
        failed_within log a.seats.now b.seats.now c.seats.now d.seats.now p.later h q.later };

    ghost quiet_same = { λ log a. IsQuiet.Stays refl };

    ghost quiet_joined = { λ log a b c p q.
        quiet_trans log a.seats.now b.seats.now c.seats.now p q };
}

// What was loaded is there, unless memory was wanting.
fn there(given: Result<LoadAnswer, AllocError>) -> Result<Option<LoadAnswer>, AllocError>
    ensures { result ≡ there given }
{
    match given {
        Ok(answer) => Ok(Some(answer)),
        Err(failed) => Err(failed),
    }
}
