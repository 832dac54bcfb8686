//! What is kept in memory of a log: its records, and what stands at each path after them.
ghost use Rattle.std.specs.Prelude.{◌≡◌, [], false};
ghost use Rattle.up_mem_tree.specs.Kept.{Stands};
ghost use Rattle.up_policy.specs.Trees.{owns_snapshots};

use crate::slots::Slot;
use std::alloc::Global;
use std::cell::Cell;
use up_entry::Rec;
use up_maps::OrderedMap;
use up_names::User;

/// The owner, the log, and what it gives.
#[derive(Drop)]
pub(crate) struct Kept {
    pub(crate) owner: User,
    pub(crate) log: Vec<Rec>,
    /// For each record the position of the one before it on the same path, or 0.
    pub(crate) before: Vec<u64>,
    /// What is kept of each path that a record has named; the root comes first.
    pub(crate) slots: Vec<Slot>,
    /// The positions of the snapshots, by their times.
    pub(crate) snaps: OrderedMap<u64, u64>,
    /// Guesses of the slots of far paths, by marks of their texts. Nothing rests on them.
    pub(crate) guesses: OrderedMap<u64, usize>,
    /// The slot at which the last walk ended: the next one often goes there again, or beside it. Nothing rests on it.
    pub(crate) recent: Cell<usize>,
}

impl Kept {
    /// What is kept of an empty log. It takes no memory.
    pub(crate) fn new(alloc: Global, owner: User) -> Kept
        requires { owns_snapshots owner ≡ false }
        ensures owner { result.owner ≡ owner }
        ensures log { result.log.items ≡ [] }
        ensures stands { Stands result }
    {
        Kept {
            owner,
            log: Vec::new(alloc),
            before: Vec::new(alloc),
            slots: Vec::new(alloc),
            snaps: OrderedMap::new(alloc),
            guesses: OrderedMap::new(alloc),
            recent: Cell::new(0),
        }
    }
}
