//! The list as its users see it.
ghost use Rattle.std.specs.Prelude.{◌≡◌, ◌==◌, Bool, true, false, ◌++◌, ◌+◌, ◌-◌, ◌<◌, ◌≤◌, [], drop, length, slice_get, is_ok, OnOk};
ghost use Rattle.std.specs.Option.{option_copied};
ghost use Rattle.std.specs.List.{insert, remove};
ghost use Rattle.std.specs.List.Sorted.{IsPartitionedBy, IsPartitionPoint};
ghost use Rattle.up_maps.specs.Joined.{IsAt};
ghost use Rattle.up_maps.specs.Kept.{items_of, IsKept};

use crate::below::Below;
use crate::long::Long;
use crate::piece::ROOM;
use std::alloc::{AllocError, Global};
use std::marker::Model;
use std::mem::replace;

/// How the items are kept.
#[derive(Debug, Drop)]
pub enum Shape<T> {
    /// At most 512, in a `Vec`.
    Short(Vec<T>),
    /// In pieces.
    Long(Box<Long<T>>),
}

/// A long ordered list. An insert or a remove moves at most one piece of 512 items; up to so many it is a `Vec`.
#[derive(Debug, Drop)]
pub struct LongList<T> {
    shape: Shape<T>,
    ready: bool,
}

impl<T> Model for LongList<T> {
    ghost use Rattle.up_maps.specs.Joined.{ReadyList};
    ghost use Rattle.up_maps.specs.Kept.{items_of, IsKept};

    ghost Value = { ReadyList T };

    ghost view = { λ list. record { items = items_of list.shape; ready = list.ready } };

    ghost invariant = { λ list. IsKept list.shape list.ready };
}

impl<T: Drop> LongList<T> {
    /// The empty list. It takes no memory.
    pub fn new(alloc: Global) -> Self
        ensures { result.items ≡ [] }
    {
        LongList {
            shape: Shape::Short(Vec::new(alloc)),
            ready: false,
        }
    }

    /// The number of items.
    pub fn len(&self) -> u64
        ensures { result ≡ length self.now.items }
    {
        match &self.shape {
            Shape::Short(items) => items.len() as u64,
            Shape::Long(long) => long.len() as u64,
        }
    }

    /// Whether there is no item.
    pub fn is_empty(&self) -> bool
        ensures { result ≡ (length self.now.items == 0) }
    {
        self.len() == 0
    }

    /// The item at place `i`, from 0, or `None` exactly where `i` is at least the length.
    pub fn get(&self, i: u64) -> Option<&T>
        ensures { option_copied result ≡ slice_get self.now.items i }
    {
        match &self.shape {
            Shape::Short(items) => items.get(i as usize),
            Shape::Long(long) => long.get(i as usize),
        }
    }

    /// Makes the next insert take no memory, wherever it falls. The items stay, whatever the answer.
    pub fn reserve_one(&mut self) -> Result<(), AllocError>
        ensures items { self.new.items ≡ self.old.items }
        ensures ready { OnOk result (self.new.ready ≡ true) }
        ensures kept { self.old.ready ≡ true → self.new.ready ≡ true }
    {
        if self.ready {
            return Ok(());
        }
        make_room(&mut self.shape)?;
        self.ready = true;
        Ok(())
    }

    /// Puts an item at place `i`. It takes no memory.
    pub fn insert_reserved(&mut self, i: u64, item: T)
        requires ready { self.old.ready ≡ true }
        requires within { i ≤ length self.old.items }
        ensures items { self.new.items ≡ insert self.old.items i item }
    {
        self.ready = false;
        match &mut self.shape {
            Shape::Short(items) => match items.insert(i as usize, item) {
                Ok(()) => (),
                Err(_refused) => unreachable!(),
            },
            Shape::Long(long) => long.insert_reserved(i as usize, item),
        }
    }

    /// Takes out the item at place `i`. It takes no memory.
    pub fn remove(&mut self, i: u64) -> T
        requires { i < length self.old.items }
        ensures item { slice_get self.old.items i ≡ Some result }
        ensures items { self.new.items ≡ remove self.old.items i }
        ensures ready { self.new.ready ≡ self.old.ready }
    {
        take_from(&mut self.shape, i as usize)
    }

    /// The items from place `i` on that lie together: at least one, if there is one. To walk all, go on after them.
    pub fn run_at(&self, i: u64) -> &[T]
        ensures items { drop i self.now.items ≡
            result.now ++ drop (i + length result.now) self.now.items }
        ensures some { i < length self.now.items → 0 < length result.now }
    {
        match &self.shape {
            Shape::Short(items) => {
                let from = (i as usize).min(items.len());
                &items[from..]
            }
            Shape::Long(long) => long.run_at(i as usize),
        }
    }

    /// The length where the last item is below `key`, else 0: before this place all items of a sorted list are below.
    fn below_all<K: Below<T>>(&self, key: &K) -> u64
        ensures bound { result ≤ length self.now.items }
        ensures before { 0 < result → IsAt (K.below key.now) true self.now.items (result - 1) }
    {
        let len = self.len();
        if len == 0 {
            return 0;
        }
        match self.get(len - 1) {
            Some(last) if key.is_below(last) => len,
            Some(_) | None => 0,
        }
    }

    /// The place of the first item that is not below `key`, by bisection: the length if all are. The last item is looked at first, so
    /// that what comes behind all others is placed at once.
    pub fn find<K: Below<T>>(&self, key: &K) -> u64
        ensures bound { result ≤ length self.now.items }
        ensures before { 0 < result → IsAt (K.below key.now) true self.now.items (result - 1) }
        ensures here { IsAt (K.below key.now) false self.now.items result }
        // Where the items below come first, it is the place where they end.
        ensures place { IsPartitionedBy (K.below key.now) self.now.items → IsPartitionPoint
            (λ x. K.below key.now x ≡ true) (λ x. K.below key.now x ≡ false) self.now.items result }
    {
        let mut low = self.below_all(key);
        let mut high = self.len();
        while low < high {
            let middle = low + (high - low) / 2;
            let Some(item) = self.get(middle) else {
                unreachable!()
            };
            if key.is_below(item) {
                low = middle + 1;
            } else {
                high = middle;
            }
        }
        low
    }
}

// Makes the next insert take no memory.
fn make_room<T: Drop>(shape: &mut Shape<T>) -> Result<(), AllocError>
    requires { IsKept shape.old false }
    ensures items { items_of shape.new ≡ items_of shape.old }
    ensures kept { IsKept shape.new (is_ok result) }
{
    if let Shape::Short(items) = shape {
        if items.len() < ROOM {
            return items.reserve(1);
        }
        let alloc = *items.allocator();
        let mut long = Box::new(alloc, Long::new(alloc)?)?;
        long.start(replace(items, Vec::new(alloc)));
        *shape = Shape::Long(long);
    }
    match shape {
        Shape::Long(long) => long.reserve_one(),
        Shape::Short(_) => unreachable!(),
    }
}

// Takes out the item at a place.
fn take_from<T: Drop>(shape: &mut Shape<T>, i: usize) -> T
    requires within { i < length (items_of shape.old) }
    ensures item { slice_get (items_of shape.old) i ≡ Some result }
    ensures items { items_of shape.new ≡ remove (items_of shape.old) i }
    ensures kept { (ready : Bool) → IsKept shape.old ready → IsKept shape.new ready }
{
    match shape {
        Shape::Short(items) => items.remove(i),
        Shape::Long(long) => {
            let item = long.remove(i);
            if let Some(items) = long.take_short() {
                *shape = Shape::Short(items);
            }
            item
        }
    }
}
