//! Whoever has the logs of a host.
ghost use Rattle.std.specs.Prelude.{◌≡◌, ℕ, Option, None, Some, Ok, is_some, true, IfOk};
ghost use Rattle.up_calls.specs.Blocks.{IsFromStore};
ghost use Rattle.up_calls.specs.Calls.{KeysTurn, StoreTurn};
ghost use Rattle.up_calls.specs.Gathered.{OwnText};
ghost use Rattle.up_calls.specs.Kept.{KeepsSeen, where_missing};
ghost use Rattle.up_calls.specs.Routes.{LogName, OwnStays, service_of};
ghost use Rattle.up_calls.specs.Services.{key_fault, store_fault};
ghost use Rattle.up_calls.specs.Shown.{AllQuiet, QuietBut};
ghost use Rattle.up_calls.specs.Told.{LogTold, TreeTold, answered_at, tells_io};
ghost use Rattle.up_calls.specs.Views.{Later, Views};
ghost use Rattle.up_calls.specs.declared.service.Service.TheVariants as service;
ghost use Rattle.up_ends.specs.Moments.{IsMoment};
ghost use Rattle.up_entry.specs.declared.fetch.Fetch.TheVariants as fetches;
ghost use Rattle.up_list.specs.Asking.{asked_of};
ghost use Rattle.up_names.specs.Texts.{UserName};

use std::alloc::{AllocError, Global};
use std::hash::RandomState;
use up_dir::Fetched;
use up_entry::Fetch;
use up_foreign::KeptSearch;
use up_list::ReadRequest;
use up_names::{Path, User};
use up_policy::{LoadAnswer, Loaded, Names};
use up_refs::Reference;
use up_wire::{Reply, Request};

/// What one turn of a tree came to.
#[derive(Drop)]
pub enum Turn {
    /// These groups have to be loaded first, and fewer names are loaded than one call may load.
    Missing(Names),
    /// The reply, which never tells of want of memory, and the number of records over which it is the answer.
    Said(Reply, u64),
    Wanting,
}

/// Whoever has the logs of a host: who has it alone, or one caller of a host that many share.
///
/// Each call is at most one turn of one log. What the caller has of the logs only grows, and what it has besides is tied.
pub trait Logs {
    /// As whom others are asked.
    ghost operator_of: { Self → UserName };

    /// What the caller has of the logs.
    ghost views: { Self → Views };

    /// What holds between calls.
    ghost ready: { Self → Type 0 };

    /// What every call leaves of all that it has, where at most this one log is changed.
    ghost tied: { Option LogName → Self → Self → Type 0 };

    /// What a call that answers of a log leaves besides, by the number of records over which it is the answer.
    ghost left: { LogName → ℕ → Self → Self → Type 0 };

    /// How it counts that the disk of a log failed.
    ghost rises: { LogName → Self → Self → Type 0 };

    /// How it counts that the disk of a log did not fail.
    ghost quiet: { LogName → Self → Self → Type 0 };

    fn operator(&self) -> &User
        ensures { result.now ≡ operator_of self.now };

    /// The hash keys of what is made for a call.
    fn random(&self) -> RandomState;

    /// Whether the host has the tree of an owner.
    fn has(&self, owner: &User) -> bool
        requires { ready self.now }
        ensures { result ≡ is_some ((views self.now).tree owner.now) };

    /// What is loaded by the text of a group that the host's own tree of its owner gives the host's operator, in a turn of that tree;
    /// `None` where the host lacks it. An `Err` is want of memory.
    fn text(&mut self, alloc: Global, name: &Path) -> Result<Option<LoadAnswer>, AllocError>
        requires { ready self.old }
        ensures given { IfOk result (OwnText (operator_of self.old)
            (views self.old) (views self.new) name.now) }
        ensures quiet { AllQuiet (λ log. quiet log self.old self.new) }
        ensures tie { tied None self.old self.new };

    /// What the host's own store gives for a reference. An `Err` is want of memory.
    fn block(&mut self, reference: &Reference) -> Result<Fetch, AllocError>
        requires { ready self.old }
        ensures given { IfOk result (IsFromStore
            (views self.old).store (views self.new).store reference.now) }
        ensures failed { result ≡ Ok fetches.Failed → rises LogName.OfStore self.old self.new }
        ensures quiet { QuietBut (λ log. quiet log self.old self.new) LogName.OfStore
            (result ≡ Ok fetches.Failed) }
        ensures tie { tied None self.old self.new };

    /// One turn of the tree of an owner: which groups are missing for a request, or else the reply to it. The request's texts were read
    /// before, to `asked`. The search for what is missing goes on from what was kept of the turn before with less loaded.
    fn ask_tree(
        &mut self,
        alloc: Global,
        owner: &User,
        user: &User,
        request: &Request,
        asked: &ReadRequest,
        loaded: &Loaded,
        kept: &mut KeptSearch,
        fetched: &Fetched,
        now: u64,
    ) -> Turn
        requires ready { ready self.old }
        requires there { is_some ((views self.old).tree owner.now) ≡ true }
        requires read { asked_of user.now request.now ≡ Ok asked.now }
        requires kept { KeepsSeen ((views self.old).tree owner.now) loaded.now kept.old }
        requires moment { IsMoment now }
        ensures told { TreeTold (rises (LogName.OfTree owner.now) self.old self.new)
            (views self.old) (views self.new) owner.now
            (record { user = user.now; request = request.now }) loaded.now fetched.now now result }
        ensures left { answered_at result
            (λ n. left (LogName.OfTree owner.now) n self.old self.new) }
        ensures kept { where_missing result
            (KeepsSeen ((views self.new).tree owner.now) loaded.now kept.new) }
        ensures quiet { QuietBut (λ log. quiet log self.old self.new) (LogName.OfTree owner.now)
            (tells_io result ≡ true) }
        ensures tie { tied (Some (LogName.OfTree owner.now)) self.old self.new };

    /// One turn of the store: the reply to a request of which nothing is malformed, and the number of records over which it is the
    /// answer.
    fn ask_store(&mut self, user: &User, request: &Request) -> (Reply, u64)
        requires ready { ready self.old }
        requires store { service_of request.now ≡ service.Store }
        requires sound { store_fault request.now ≡ None }
        ensures told { LogTold (StoreTurn (operator_of self.old)
            (views self.old).store (views self.new).store
            (record { user = user.now; request = request.now }))
            (rises LogName.OfStore self.old self.new)
            (views self.old).store (views self.new).store result.0 result.1 }
        ensures left { left LogName.OfStore result.1 self.old self.new }
        ensures quiet { QuietBut (λ log. quiet log self.old self.new) LogName.OfStore
            (result.0 ≡ Reply.Io) }
        ensures tie { tied (Some LogName.OfStore) self.old self.new };

    /// One turn of the keys, likewise.
    fn ask_keys(&mut self, user: &User, request: &Request) -> (Reply, u64)
        requires ready { ready self.old }
        requires keys { service_of request.now ≡ service.Keys }
        requires sound { key_fault request.now ≡ None }
        ensures told { LogTold (KeysTurn (views self.old).keys (views self.new).keys
            (record { user = user.now; request = request.now }))
            (rises LogName.OfKeys self.old self.new)
            (views self.old).keys (views self.new).keys result.0 result.1 }
        ensures left { left LogName.OfKeys result.1 self.old self.new }
        ensures quiet { QuietBut (λ log. quiet log self.old self.new) LogName.OfKeys
            (result.0 ≡ Reply.Io) }
        ensures tie { tied (Some LogName.OfKeys) self.old self.new };

    // No call at all leaves all as it is; so do two calls, one after the other; and who may change one log may also change none.
    ghost same: { (a : Self) → tied None a a };

    ghost joined: { (but : Option LogName) (a b c : Self) → tied but a b → tied but b c
        → tied but a c };

    ghost wider: { (but : Option LogName) (a b : Self) → tied None a b → tied but a b };

    // What is tied has the same operator, holds what held, had what the caller has of the logs in its front, and has the same own
    // records of the other logs.
    ghost asks_as: { (but : Option LogName) (a b : Self) → tied but a b
        → operator_of b ≡ operator_of a };

    ghost still: { (but : Option LogName) (a b : Self) → tied but a b → ready a → ready b };

    ghost later: { (but : Option LogName) (a b : Self) → tied but a b → Later (views a) (views b) };

    ghost stays: { (but : Option LogName) (a b : Self) → tied but a b
        → OwnStays but (views a) (views b) };

    // What a call leaves, calls before it leave too that added no own record; and a failure in between is one in all.
    ghost left_since: { (log : LogName) (n : ℕ) (a b c : Self) → tied (Some log) a b
        → OwnStays None (views a) (views b) → left log n b c → left log n a c };

    ghost rises_within: { (log : LogName) (but : Option LogName) (a b c d : Self) → tied but a b
        → rises log b c → tied but c d → rises log a d };

    // No call at all fails, and where a disk failed in neither of two calls, it failed in none.
    ghost quiet_same: { (log : LogName) (a : Self) → quiet log a a };

    ghost quiet_joined: { (log : LogName) (a b c : Self) → quiet log a b → quiet log b c
        → quiet log a c };
}
