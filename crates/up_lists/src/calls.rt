//! The numbered calls of an object in memory.
ghost use Rattle.std.specs.Prelude.{◌≡◌};
ghost use Rattle.up_lists.specs.Calls.{after_call, fails_next, no_call_made};

use crate::Items;
use std::marker::Model;

/// The numbers of the calls that fail, how many calls were made, and how many of them failed.
///
/// Calls are numbered from 0, those that fail too. Both counts stay at 2^64 - 1 once they stand there.
#[derive(Debug, Drop)]
pub struct Calls {
    fails: Items<u64>,
    made: u64,
    faults: u64,
}

impl Model for Calls {
    ghost use Rattle.up_lists.specs.Calls.{CallPlan};

    ghost Value = { CallPlan };

    ghost view = { λ calls. record {
      fails = calls.fails;
      made = calls.made;
      faults = calls.faults;
    } };
}

impl Calls {
    /// No call was made yet.
    pub fn new(fails: Items<u64>) -> Self
        ensures { result ≡ no_call_made fails }
    {
        Calls {
            fails,
            made: 0,
            faults: 0,
        }
    }

    /// Whether the next call is one that fails.
    pub fn fails_next(&self) -> bool
        ensures { result ≡ fails_next self.now }
    {
        self.fails.as_slice().contains(&self.made)
    }

    /// Counts a call that was made, and its failure where it failed.
    pub fn count(&mut self, failed: bool)
        ensures { self.new ≡ after_call self.old failed }
    {
        self.made = self.made.saturating_add(1);
        if failed {
            self.faults = self.faults.saturating_add(1);
        }
    }

    /// Counts a call that fails where it is listed, and nowhere else, and answers whether it does.
    pub fn next_fails(&mut self) -> bool
        ensures answer { result ≡ fails_next self.old }
        ensures counted { self.new ≡ after_call self.old result }
    {
        let fails = self.fails_next();
        self.count(fails);
        fails
    }
}
