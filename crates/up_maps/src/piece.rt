//! One piece of a long list.
ghost use Rattle.std.specs.Prelude.{◌≡◌, ◌+◌, ◌<◌, ◌≤◌, [], ◌++◌, length, vec_len, vec_capacity, IfOk, slice_get, take, drop};
ghost use Rattle.std.specs.Option.{option_copied};
ghost use Rattle.std.specs.List.{insert, remove};

use std::alloc::{AllocError, Global};
use std::marker::Model;

/// As many items as a piece has room for.
pub const ROOM: usize = 512;

/// Where a full piece is cut in two. Two neighbours that have no more together become one.
pub const HALF: usize = 256;

/// At most 512 items, with room for 512: its inserts take no memory.
#[derive(Debug, Drop)]
pub struct Piece<T> {
    items: Vec<T>,
}

impl<T> Model for Piece<T> {
    ghost use Rattle.std.specs.Prelude.{List, ◌≤◌, length, vec_capacity};

    ghost Value = { List T };

    ghost view = { λ piece. piece.items.items };

    ghost invariant = { λ piece. (length piece.items.items ≤ 512)
        × (512 ≤ vec_capacity piece.items) };
}

impl<T> Piece<T> {
    /// The empty piece.
    pub fn new(alloc: Global) -> Result<Self, AllocError>
        ensures { IfOk result (λ piece. piece ≡ []) }
    {
        let items = Vec::with_capacity(alloc, ROOM)?;
        Ok(Piece { items })
    }

    /// The items of a `Vec` that has the room of a piece.
    pub fn from_vec(items: Vec<T>) -> Self
        requires few { vec_len items ≤ 512 }
        requires room { 512 ≤ vec_capacity items }
        ensures { result ≡ items.items }
    {
        Piece { items }
    }

    /// The items as a `Vec`.
    pub fn into_vec(self) -> Vec<T>
        ensures items { result.items ≡ self }
        ensures room { 512 ≤ vec_capacity result }
    {
        self.items
    }

    /// The number of items.
    pub fn len(&self) -> usize
        ensures items { result ≡ length self.now }
        ensures bound { result ≤ 512 }
    {
        self.items.len()
    }

    /// The item at place `i`.
    pub fn get(&self, i: usize) -> Option<&T>
        ensures { option_copied result ≡ slice_get self.now i }
    {
        self.items.get(i)
    }

    /// All items, in order.
    pub fn as_slice(&self) -> &[T]
        ensures { result.now ≡ self.now }
    {
        self.items.as_slice()
    }

    /// Puts an item at place `i`.
    pub fn insert(&mut self, i: usize, item: T)
        requires within { i ≤ length self.old }
        requires room { length self.old < 512 }
        ensures { self.new ≡ insert self.old i item }
    {
        match self.items.insert(i, item) {
            Ok(()) => (),
            Err(_refused) => unreachable!(),
        }
    }

    /// Takes out the item at place `i`.
    pub fn remove(&mut self, i: usize) -> T
        requires { i < length self.old }
        ensures item { slice_get self.old i ≡ Some result }
        ensures items { self.new ≡ remove self.old i }
    {
        self.items.remove(i)
    }

    /// Moves the items from place 256 on into an empty piece.
    #[tactic(auto, using(crate::proofs::Lists::moved_more, crate::proofs::Lists::moved_front, crate::proofs::Lists::moved_back, crate::proofs::Lists::moved_length))]
    pub fn split_into(&mut self, tail: &mut Piece<T>)
        requires long { 256 ≤ length self.old }
        requires empty { tail.old ≡ [] }
        ensures front { self.new ≡ take 256 self.old }
        ensures back { tail.new ≡ drop 256 self.old }
        ensures bound { length self.old ≤ 512 }
    {
        while self.items.len() > HALF {
            tail.items.push_reserved(self.items.take_last());
        }
        tail.items.reverse();
    }

    /// Moves all items of the next piece behind its own, and lets that piece go.
    pub fn join(&mut self, mut next: Piece<T>)
        requires { length self.old + length next ≤ 512 }
        ensures { self.new ≡ self.old ++ next }
    {
        match self.items.append(&mut next.items) {
            Ok(()) => next.items.destroy_empty(),
            Err(_refused) => unreachable!(),
        }
    }

    /// Lets an empty piece go.
    pub fn free(self)
        requires { self ≡ [] }
    {
        self.items.destroy_empty();
    }
}
