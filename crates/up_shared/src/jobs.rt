//! What is done in the turns of a shared host.
ghost use Rattle.std.specs.Prelude.{◌≡◌, None, Ok};
ghost use Rattle.up_calls.specs.Kept.{where_missing};
ghost use Rattle.up_calls.specs.Routes.{service_of};
ghost use Rattle.up_calls.specs.Services.{key_fault, store_fault};
ghost use Rattle.up_calls.specs.Steps.{KeysTried, StoreTried, Tried};
ghost use Rattle.up_calls.specs.declared.service.Service.TheVariants as service;
ghost use Rattle.up_ends.specs.Moments.{IsMoment};
ghost use Rattle.up_foreign.specs.Kept.{Keeps};
ghost use Rattle.up_list.specs.Asking.{asked_of};
ghost use Rattle.up_shared.specs.Jobs.{ReadsBlock, ReadsText};

use std::alloc::{AllocError, Global};
use std::hash::RandomState;
use up_blocks::Blocks;
use up_calls::{Turn, read_block, read_text, try_keys, try_store, try_tree};
use up_cell::Job;
use up_dir::Fetched;
use up_disk::Disk;
use up_entry::Fetch;
use up_foreign::KeptSearch;
use up_keys::Keys;
use up_list::ReadRequest;
use up_names::{Path, User};
use up_policy::{LoadAnswer, Loaded};
use up_refs::Reference;
use up_tree::TreeState;
use up_wire::{Reply, Request};

/// A user's request to a tree, and what it asks, with what was loaded and fetched for it, and with what is kept of the search for what is
/// missing: what is missing for it, or else the reply.
#[derive(Drop)]
pub(crate) struct TryTree<'a> {
    pub(crate) alloc: Global,
    pub(crate) user: &'a User,
    pub(crate) request: &'a Request,
    pub(crate) asked: &'a ReadRequest,
    pub(crate) loaded: &'a Loaded,
    pub(crate) kept: KeptSearch,
    pub(crate) fetched: &'a Fetched,
    pub(crate) now: u64,
    pub(crate) came: Turn,
}

impl<'a, D: Disk> Job<TreeState<D>> for TryTree<'a> {
    ghost can = { λ job state. (asked_of job.user.now job.request.now ≡ Ok job.asked.now)
        × (IsMoment job.now) × Keeps state.owner state.log job.loaded.now job.kept };

    ghost did = { λ job old after new. Tried D.Disk
        (record { user = job.user.now; request = job.request.now })
        job.loaded.now job.fetched.now job.now old new after.came
        × where_missing after.came (Keeps new.owner new.log job.loaded.now after.kept) };

    fn run(&mut self, state: &mut TreeState<D>) {
        self.came = try_tree(
            self.alloc,
            state,
            self.user,
            self.request,
            self.asked,
            self.loaded,
            &mut self.kept,
            self.fetched,
            self.now,
        );
    }
}

/// The text of a group, as the host's operator is given it.
#[derive(Drop)]
pub(crate) struct ReadText<'a> {
    pub(crate) alloc: Global,
    pub(crate) random: RandomState,
    pub(crate) operator: &'a User,
    pub(crate) name: &'a Path,
    pub(crate) given: Result<LoadAnswer, AllocError>,
}

impl<'a, D: Disk> Job<TreeState<D>> for ReadText<'a> {
    ghost can = { λ job state. job.name.now.owner ≡ state.owner };

    ghost did = { λ job old after new. ReadsText
        job.operator.now job.name.now old new after.given };

    fn run(&mut self, state: &mut TreeState<D>) {
        self.given = read_text(self.alloc, self.random, state, self.operator, self.name);
    }
}

/// A block of the host's own store.
#[derive(Drop)]
pub(crate) struct ReadBlock<'a> {
    pub(crate) reference: &'a Reference,
    pub(crate) given: Result<Fetch, AllocError>,
}

impl<'a, D: Disk> Job<Blocks<D>> for ReadBlock<'a> {
    ghost can = { λ job state. Unit {0} };

    ghost did = { λ job old after new. ReadsBlock
        D.Disk job.reference.now old new after.given };

    fn run(&mut self, state: &mut Blocks<D>) {
        self.given = read_block(state, self.reference);
    }
}

/// A request to the store of which nothing is malformed.
#[derive(Drop)]
pub(crate) struct TryStore<'a> {
    pub(crate) operator: &'a User,
    pub(crate) user: &'a User,
    pub(crate) request: &'a Request,
    pub(crate) came: (Reply, u64),
}

impl<'a, D: Disk> Job<Blocks<D>> for TryStore<'a> {
    ghost can = { λ job state. (service_of job.request.now ≡ service.Store)
        × (store_fault job.request.now ≡ None) };

    ghost did = { λ job old after new. StoreTried D.Disk job.operator.now
        (record { user = job.user.now; request = job.request.now })
        old new after.came.0 after.came.1 };

    fn run(&mut self, state: &mut Blocks<D>) {
        self.came = try_store(state, self.operator, self.user, self.request);
    }
}

/// A request to the keys of which nothing is malformed.
#[derive(Drop)]
pub(crate) struct TryKeys<'a> {
    pub(crate) user: &'a User,
    pub(crate) request: &'a Request,
    pub(crate) came: (Reply, u64),
}

impl<'a, D: Disk> Job<Keys<D>> for TryKeys<'a> {
    ghost can = { λ job state. (service_of job.request.now ≡ service.Keys)
        × (key_fault job.request.now ≡ None) };

    ghost did = { λ job old after new. KeysTried D.Disk
        (record { user = job.user.now; request = job.request.now })
        old new after.came.0 after.came.1 };

    fn run(&mut self, state: &mut Keys<D>) {
        self.came = try_keys(state, self.user, self.request);
    }
}
