//! A follower.
ghost use Rattle.std.specs.Prelude.{◌≡◌, ◌≢◌, ◌↔◌, [], ℕ, Err, IfErr, IfOk, IfSome, false, true, is_some};
ghost use Rattle.up_commit.specs.Steps.{IsTold};
ghost use Rattle.up_answers.specs.Answers.{answer};
ghost use Rattle.up_dir.specs.Crashes.{image_log};
ghost use Rattle.up_disk.specs.Leaving.{LeavesNow};
ghost use Rattle.up_ends.specs.Growing.{OnlyGrows};
ghost use Rattle.up_follow.specs.Feeds.{Follows, IsAllOf, IsTreeLog, OnlyLonger};
ghost use Rattle.up_follow.specs.Pulls.{Pulls};
ghost use Rattle.up_follow.specs.Reads.{is_read};
ghost use Rattle.up_follow.specs.declared.fault.FollowWhy.TheVariants as why;
ghost use Rattle.up_journal.specs.Crashes.{IsOpened};
ghost use Rattle.up_journal.specs.Journal.{AreLimits};
ghost use Rattle.up_journal.specs.Logs.{RefusesLog, StandsForLog};
ghost use Rattle.up_journal.specs.Opened.{IsRefusedFor};
ghost use Rattle.up_lists.specs.Counts.{HasCause, StaysUnless};
ghost use Rattle.up_policy.specs.Trees.{owns_snapshots};
ghost use Rattle.up_tree.specs.States.{Opens, disk_after, entries_of, fixed_of, log_of, records_in};

use crate::fault::FollowWhy;
use crate::feed::Feed;
use crate::reading::is_read;
use crate::taking::pull_into;
use std::alloc::Global;
use std::hash::RandomState;
use std::marker::Model;
use up_dir::{Fetched, step};
use up_disk::Disk;
use up_journal::{Limits, OpenFault, OpenWhy};
use up_names::User;
use up_policy::Loaded;
use up_tree::TreeState;
use up_wire::{Reply, Request};

/// The log of a tree, kept a second time. It is seen as the tree of that log.
#[derive(Drop)]
pub struct Follower<D: Disk> {
    tree: TreeState<D>,
    /// The hash keys of what is made for an answer.
    random: RandomState,
}

impl<D: Disk> Model for Follower<D> {
    ghost use Rattle.up_tree.specs.States.{State};

    ghost Value = { State D };

    ghost view = { λ follower. follower.tree };
}

impl<D: Disk> Follower<D> {
    /// Opens a device, which is new or has the log of a tree of this owner, as [`TreeState::open`] does. A refused device is handed back.
    pub fn open(
        alloc: Global,
        random: RandomState,
        disk: D,
        owner: User,
        limits: Limits,
    ) -> Result<Follower<D>, OpenFault<D>>
        requires limits { AreLimits limits }
        requires plain { owns_snapshots owner ≡ false }
        ensures opens { IfOk result (Opens D.Disk owner limits disk) }
        ensures refuses { IfErr result (RefusesLog D.Disk (records_in owner) limits disk) }
        ensures opened { IsOpened D.Disk limits.largest disk (disk_after result)
            (IsRefusedFor result OpenWhy.Fault) }
        ensures counts { HasCause (D.faults disk) (D.faults (disk_after result))
            (IsRefusedFor result OpenWhy.Fault) }
        ensures quiet { StaysUnless (D.faults disk) (D.faults (disk_after result))
            (IsRefusedFor result OpenWhy.Fault) }
    {
        match TreeState::open(alloc, disk, owner, limits) {
            Ok(tree) => Ok(Follower { tree, random }),
            Err(fault) => Err(fault),
        }
    }

    /// The tree of the follower's log.
    pub fn tree(&self) -> &TreeState<D>
        ensures { result.now ≡ self.now }
    {
        &self.tree
    }

    /// Takes a batch from the feed, from behind the follower's last record on, and adds its records in their order. `Ok` is how many they
    /// were; it is 0 where the leader has no more. What a refusal says, [`FollowWhy`] tells; the records before the refused one stand.
    pub fn pull<F: Feed>(&mut self, alloc: Global, feed: &mut F) -> Result<u64, FollowWhy>
        ensures pulls { Pulls D.Disk (F.leader feed.new) self.old self.new result }

        // Of a feed that tells the leader's log: the follower's log stays a front of it, nothing is added exactly where it was the whole
        // of it, and no record is strange where each of the leader's decodes and fits.
        ensures follows { IfSome (F.leader feed.old) (λ before. Follows self.old.log before
            → IfSome (F.leader feed.new) (Follows self.new.log)) }
        ensures whole { IfSome (F.leader feed.old) (λ before. Follows self.old.log before
            → IfSome (F.leader feed.new) (λ leader.
            IfOk result (λ count. (count ≡ 0) ↔ IsAllOf self.old.log leader))) }
        ensures sound { IfSome (F.leader feed.old) (λ before. Follows self.old.log before
            → IfSome (F.leader feed.new) (λ leader. IsTreeLog self.old.owner leader
            → (position : ℕ) → result ≢ Err (why.Strange position))) }

        // Of every feed.
        ensures grows { OnlyGrows entries_of
            (λ state. D.faults state.disk) fixed_of self.old self.new }
        ensures untouched { result ≡ Err why.Failed → self.new ≡ self.old }
        ensures safe { LeavesNow D.Disk self.new.disk
            (StandsForLog (image_log self.new) self.new.log self.new.further) }
        ensures disk_cause { HasCause (D.faults self.old.disk) (D.faults self.new.disk)
            (result ≡ Err why.Io) }
        ensures disk_quiet { StaysUnless (D.faults self.old.disk) (D.faults self.new.disk)
            (result ≡ Err why.Io) }
        ensures feed_cause { HasCause (F.faults feed.old) (F.faults feed.new)
            (result ≡ Err why.Failed) }
        ensures feed_quiet { StaysUnless (F.faults feed.old) (F.faults feed.new)
            (result ≡ Err why.Failed) }
        ensures feed_grows { OnlyLonger (F.leader feed.old) (F.leader feed.new) }
        ensures tie { F.tied feed.old feed.new }
    {
        pull_into(alloc, &mut self.tree, feed)
    }

    /// The reply to a user's request that only looks, over the follower's log with nothing loaded; want of memory may come in its place.
    /// `None` exactly where the request is another one. Nothing is changed.
    pub fn answer(&mut self, alloc: Global, user: &User, request: &Request) -> Option<Reply>
        ensures answers { is_some result ≡ is_read request.now }
        ensures answer { IfSome result
            (IsTold (answer (log_of self.old) [] [] user.now request.now 0)) }
        ensures unchanged { self.new ≡ self.old }
    {
        if !is_read(request) {
            return None;
        }
        Some(look(alloc, &mut self.tree, self.random, user, request))
    }

    /// The disk.
    pub fn into_disk(self) -> D
        ensures disk { result ≡ self.disk }
        ensures safe { LeavesNow D.Disk result
            (StandsForLog (records_in self.owner self.limits.largest) self.log self.further) }
    {
        let Follower { tree, random: _ } = self;
        tree.into_disk()
    }
}

/// The reply to a request that only looks.
fn look<D: Disk>(
    alloc: Global,
    tree: &mut TreeState<D>,
    random: RandomState,
    user: &User,
    request: &Request,
) -> Reply
    requires { is_read request.now ≡ true }
    ensures answer { IsTold (answer (log_of tree.old) [] [] user.now request.now 0) result }
    ensures unchanged { tree.new ≡ tree.old }
{
    let nothing = Loaded::new(alloc, random);
    let none: Fetched = Fetched::new(alloc);
    let reply = step(alloc, tree, user, request, &nothing, &none, 0);
    drop(none);
    drop(nothing);
    reply
}
