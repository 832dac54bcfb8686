//! A host that is not shared, as one that has the logs.
use crate::host::Host;
use crate::trees::{place_of, tree_of};
use std::alloc::{AllocError, Global};
use std::hash::RandomState;
use up_calls::{Logs, Turn, read_block, read_text, try_keys, try_store, try_tree};
use up_dir::Fetched;
use up_disk::Disk;
use up_entry::Fetch;
use up_foreign::KeptSearch;
use up_list::ReadRequest;
use up_names::{Path, User};
use up_policy::{LoadAnswer, Loaded};
use up_refs::Reference;
use up_wire::{Reply, Request};

/// Its caller has all of each log, and each call that answers of a log answers at the end of it.
impl<D: Disk> Logs for Host<D> {
    ghost use Rattle.std.proofs.Common.{◌∙◌};
    ghost use Rattle.std.specs.Prelude.{◌≡◌, Some, refl};
    ghost use Rattle.up_calls.specs.Shown.{failures};
    ghost use Rattle.up_host.specs.Alone.{ends_at, views};
    ghost use Rattle.up_host.specs.Tied.{DiskRose, IsTied};
    ghost use Rattle.up_host.specs.TiedLaws.{left_since, rises_within, tied_joined, tied_same, tied_wider};

    ghost operator_of = { λ host. host.operator };

    ghost views = { λ host. views D.Disk host };

    ghost ready = { λ host. Unit {0} };

    ghost tied = { λ but host after. IsTied D.Disk but host after };

    ghost left = { λ log n host after. ends_at (Some log) (views D.Disk host) ≡ Some n };

    ghost rises = { λ log host after. DiskRose D.Disk host after };

    ghost quiet = { λ log host after.
        failures (views D.Disk after) log ≡ failures (views D.Disk host) log };

    fn operator(&self) -> &User {
        &self.operator
    }

    fn random(&self) -> RandomState {
        self.random
    }

    fn has(&self, owner: &User) -> bool {
        tree_of(&self.trees, owner).is_some()
    }

    fn text(&mut self, alloc: Global, name: &Path) -> Result<Option<LoadAnswer>, AllocError> {
        let Some(held) = tree_of(&self.trees, name.owner()) else {
            return Ok(None);
        };
        let answer = read_text(alloc, self.random, &held.state, &self.operator, name)?;
        Ok(Some(answer))
    }

    fn block(&mut self, reference: &Reference) -> Result<Fetch, AllocError> {
        read_block(&mut self.store.state, reference)
    }

    fn ask_tree(
        &mut self,
        alloc: Global,
        owner: &User,
        user: &User,
        request: &Request,
        asked: &ReadRequest,
        loaded: &Loaded,
        kept: &mut KeptSearch,
        fetched: &Fetched,
        now: u64,
    ) -> Turn {
        let Some(place) = place_of(&self.trees, owner) else {
            unreachable!();
        };
        let held = &mut self.trees[place];
        try_tree(
            alloc,
            &mut held.state,
            user,
            request,
            asked,
            loaded,
            kept,
            fetched,
            now,
        )
    }

    fn ask_store(&mut self, user: &User, request: &Request) -> (Reply, u64) {
        try_store(&mut self.store.state, &self.operator, user, request)
    }

    fn ask_keys(&mut self, user: &User, request: &Request) -> (Reply, u64) {
        try_keys(&mut self.keys.state, user, request)
    }

    ghost same = { λ a. tied_same a };

    ghost joined = { λ but a b c. tied_joined but a b c };

    ghost wider = { λ but a b. tied_wider but a b };

    ghost asks_as = { λ but a b tie. tie.operator };

    ghost still = { λ but a b tie ready. tt };

    ghost later = { λ but a b tie. tie.later };

    ghost stays = { λ but a b tie. tie.own };

    ghost left_since = { λ log n a b c. left_since log n a b };

    ghost rises_within = { λ log but a b c d. rises_within but a b c d };

    ghost quiet_same = { λ log a. refl };

    ghost quiet_joined = { λ log a b c p q. q ∙ p };
}
