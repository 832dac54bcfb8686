//! One list for every "list of X" of this repository: a `Vec` whose contracts see the list of its items. Beside it stand
//! two words on lists that every crate with a history shares, and counts of faults.
//!
//! [`Items`] holds exactly its items, in order, and hands an item back that it could not take (`Items::push`: `items`,
//! `returned`). What is made of a `Vec` and given back as one takes no memory.
//!
//! `specs/Begins.antt` says when a list begins with another, `specs/Runs.antt` what calls one after the other do; their
//! lemmas are in `proofs/BeginsLemmas.antt` and `proofs/RunLemmas.antt`.
//!
//! Every object of this repository that can fail has a count of faults, and each of its calls promises `HasCause`
//! (`specs/Counts.antt`): the count never falls, one of at most 2^64 - 1 stays so, and it rose where there was a fault.
//! A count that stands at 2^64 - 1 stays there; "rose" then says nothing. `proofs/Causes.antt` has the lemmas.
//!
//! [`Calls`] keeps the counts of an object in memory, whose calls are numbered from 0. It answers whether the next call
//! is listed (`fails_next`), counts each call once and each failure once (`count`), or both (`next_fails`: `answer`,
//! `counted`). What such an object promises is `IsCalled` (`specs/Calls.antt`): a listed call fails, the count of calls
//! is one more, and the count of faults is as before, or one more where the call failed.
#![tactic(auto)]

ghost use Rattle.std.specs.Prelude.{◌≡◌, ◌==◌, [], ◌∷◌, ◌++◌, length, is_ok, if◌then◌else◌, IfErr, slice_get};
ghost use Rattle.std.specs.Option.{option_copied};
ghost use Rattle.std.specs.List.{AllZip};
ghost use Rattle.std.specs.Cmp.Lexicographic.{lists_per, lists_equiv};
ghost use lib.Pointwise.{pointwise};

mod calls;

pub use calls::Calls;
use std::alloc::{AllocError, AllocFailed, Global};
use std::marker::Model;

/// A list of items. It keeps the allocator that it was made with.
#[derive(Debug, Drop)]
pub struct Items<T> {
    items: Vec<T>,
}

impl<T> Model for Items<T> {
    ghost use Rattle.std.specs.Prelude.{List};

    ghost Value = { List T };

    ghost view = { λ list. list.items.items };
}

impl<T> Items<T> {
    /// The empty list. It takes no memory.
    pub fn new(alloc: Global) -> Self
        ensures { result ≡ [] }
    {
        Items {
            items: Vec::new(alloc),
        }
    }

    /// The items of a `Vec`, in order. It takes no memory.
    pub fn from_vec(items: Vec<T>) -> Self
        ensures { result ≡ items.items }
    {
        Items { items }
    }

    /// The items as a `Vec`, in order. It takes no memory.
    pub fn into_vec(self) -> Vec<T>
        ensures { result.items ≡ self }
    {
        self.items
    }

    /// Adds an item at the end. An `Err` hands it back and leaves the list as it was.
    pub fn push(&mut self, value: T) -> Result<(), AllocFailed<T>>
        ensures items { self.new ≡ (if is_ok result then self.old ++ value ∷ [] else self.old) }
        ensures returned { IfErr result (λ failed. failed.value ≡ value) }
    {
        self.items.push(value)
    }

    /// Gives back what memory the list has beyond its items, where that can be had.
    pub fn shrink(&mut self)
        ensures { self.new ≡ self.old }
    {
        self.items.shrink_to_fit();
    }

    /// The number of items.
    pub fn len(&self) -> u64
        ensures { result ≡ length self.now }
    {
        self.items.len() as u64
    }

    /// Whether there is no item.
    pub fn is_empty(&self) -> bool
        ensures { result ≡ (length self.now == 0) }
    {
        self.items.is_empty()
    }

    /// The item at place `i`, from 0, or `None` exactly where `i` is at least the length.
    pub fn get(&self, i: u64) -> Option<&T>
        ensures { option_copied result ≡ slice_get self.now i }
    {
        self.items.get(i as usize)
    }

    /// All items, in order.
    pub fn as_slice(&self) -> &[T]
        ensures { result.now ≡ self.now }
    {
        self.items.as_slice()
    }

    /// The allocator that the list was made with.
    pub fn allocator(&self) -> Global {
        *self.items.allocator()
    }
}

impl<T: PartialEq> PartialEq for Items<T> {
    ghost eq = { pointwise T.eq };

    ghost laws = { lists_per T.laws };

    fn eq(&self, other: &Self) -> bool {
        self.items == other.items
    }
}

impl<T: Eq> Eq for Items<T> {
    ghost laws = { lists_equiv T.Eq.laws };
}

impl<T: Clone> Clone for Items<T> {
    ghost is_clone = { AllZip T.is_clone };

    fn clone(&self) -> Result<Self, AllocError> {
        Ok(Items {
            items: self.items.clone()?,
        })
    }
}
