//! The map.
ghost use Rattle.std.specs.Prelude.{◌≡◌, ◌≤◌, [], true, not, length, map, is_some, OnOk, slice_get};
ghost use Rattle.std.specs.FinMap.Entries.{find, is_sorted, put, where_key};
ghost use Rattle.std.specs.Option.{option_copied};
ghost use Rattle.std.specs.Ordering.{eq_by_cmp, is_lt};
ghost use Rattle.std.specs.Map.{keys_of};
ghost use Rattle.up_maps.specs.Maps.{IsPlaceOf, value_at};

use crate::below::Below;
use crate::long_list::LongList;
use std::alloc::{AllocError, Global};
use std::cmp::Ordering;
use std::marker::Model;

/// A finite map, seen as its entries in the order of their keys and whether the next one takes no memory.
#[derive(Debug, Drop)]
pub struct OrderedMap<K: Ord, V> {
    entries: LongList<(K, V)>,
}

impl<K: Ord, V> Model for OrderedMap<K, V> {
    ghost use Rattle.std.specs.Prelude.{IsTrue};
    ghost use Rattle.std.specs.FinMap.Entries.{is_sorted};
    ghost use Rattle.up_maps.specs.Maps.{MapState};

    ghost Value = { MapState K V };

    ghost view = { λ map. record { entries = map.entries.items; ready = map.entries.ready } };

    ghost invariant = { λ map. IsTrue (is_sorted K.cmp map.entries.items) };
}

// A key that entries are compared with.
#[derive(Drop)]
struct Key<'a, K>(&'a K);

impl<'a, K: Ord, V> Below<(K, V)> for Key<'a, K> {
    ghost below = { λ key item. is_lt (K.cmp item.0 key.0.now) };

    fn is_below(&self, item: &(K, V)) -> bool {
        item.0.cmp(self.0) == Ordering::Less
    }
}

impl<K: Ord + Drop, V: Drop> OrderedMap<K, V> {
    /// The empty map. It takes no memory.
    pub fn new(alloc: Global) -> Self
        ensures { result.entries ≡ [] }
    {
        OrderedMap {
            entries: LongList::new(alloc),
        }
    }

    /// The number of entries.
    pub fn len(&self) -> u64
        ensures { result ≡ length self.now.entries }
    {
        self.entries.len()
    }

    /// The key at place `i`, from 0, in order, or `None` exactly where `i` is at least the number of entries.
    pub fn key_at(&self, i: u64) -> Option<&K>
        ensures { option_copied result ≡ slice_get (keys_of self.now.entries) i }
    {
        let (key, _) = self.entries.get(i)?;
        Some(key)
    }

    /// The value at a key, or `None` exactly where there is none.
    pub fn get(&self, key: &K) -> Option<&V>
        ensures { option_copied result ≡ find K.cmp key.now self.now.entries }
    {
        let (found, value) = self.entries.get(self.place_of(key))?;
        if key.cmp(found) == Ordering::Equal {
            Some(value)
        } else {
            None
        }
    }

    /// Makes the next `put_reserved` take no memory. The entries stay, whatever the answer.
    pub fn reserve_one(&mut self) -> Result<(), AllocError>
        ensures entries { self.new.entries ≡ self.old.entries }
        ensures ready { OnOk result (self.new.ready ≡ true) }
    {
        self.entries.reserve_one()
    }

    /// Puts a value at a key, in place of the one that is there. It takes no memory.
    pub fn put_reserved(&mut self, key: K, value: V)
        requires { self.old.ready ≡ true }
        ensures { self.new.entries ≡ put K.cmp key value self.old.entries }
    {
        let place = self.place_of(&key);
        if self.is_at(place, &key) {
            let (kept, _) = self.entries.remove(place);
            self.entries.insert_reserved(place, (kept, value));
        } else {
            self.entries.insert_reserved(place, (key, value));
        }
    }

    /// Takes out the entry at a key, where there is one, and answers whether there was. It takes no memory.
    pub fn remove(&mut self, key: &K) -> bool
        ensures entries { self.new.entries
            ≡ where_key K.cmp (λ other. not (eq_by_cmp K.cmp key.now other)) self.old.entries }
        ensures was { result ≡ is_some (find K.cmp key.now self.old.entries) }
        ensures ready { self.new.ready ≡ self.old.ready }
    {
        let place = self.place_of(key);
        let there = self.is_at(place, key);
        if there {
            let _entry = self.entries.remove(place);
        }
        there
    }

    // Where a key is, or belongs.
    fn place_of(&self, key: &K) -> u64
        ensures within { result ≤ length self.now.entries }
        ensures place { IsPlaceOf K.cmp key.now self.now.entries result }
        ensures sorted { is_sorted K.cmp self.now.entries ≡ true }
        ensures found { find K.cmp key.now self.now.entries
            ≡ value_at K.cmp key.now (slice_get self.now.entries result) }
    {
        self.entries.find(&Key(key))
    }

    // Whether the entry at a place, if there is one, is at this key.
    fn is_at(&self, place: u64, key: &K) -> bool
        ensures { result ≡ is_some (value_at K.cmp key.now (slice_get self.now.entries place)) }
    {
        match self.entries.get(place) {
            Some((found, _)) => key.cmp(found) == Ordering::Equal,
            None => false,
        }
    }
}
