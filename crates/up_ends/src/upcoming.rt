//! The answers of an object in memory.
ghost use Rattle.std.specs.Prelude.{◌≡◌};
ghost use Rattle.up_ends.specs.Telling.{after_next, next_of};

use std::marker::Model;
use up_lists::Items;

// The answers of a list, one after the other, and one for good after them.
#[derive(Debug, Drop)]
pub(crate) struct Upcoming<A> {
    first: Items<A>,
    // How many of them are used up.
    place: u64,
    after: A,
}

impl<A> Model for Upcoming<A> {
    ghost use Rattle.std.specs.Prelude.{drop, ◌≤◌, length};
    ghost use Rattle.up_ends.specs.Telling.{Coming};

    ghost Value = { Coming A };

    ghost view = { λ s. record { first = drop s.place s.first; after = s.after } };

    ghost invariant = { λ s. s.place ≤ length s.first };
}

impl<A: Copy> Upcoming<A> {
    pub(crate) fn new(first: Items<A>, after: A) -> Self
        ensures { result ≡ record { first = first; after = after } }
    {
        Upcoming {
            first,
            place: 0,
            after,
        }
    }

    // The next answer, which stays the next.
    pub(crate) fn next(&self) -> A
        ensures { result ≡ next_of self.now }
    {
        match self.first.get(self.place) {
            Some(answer) => *answer,
            None => self.after,
        }
    }

    // Goes on to the answer after it.
    pub(crate) fn pass(&mut self)
        ensures { self.new ≡ after_next self.old }
    {
        if self.place < self.first.len() {
            self.place += 1;
        }
    }
}
