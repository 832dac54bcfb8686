//! A list that is kept in pieces.
ghost use Rattle.std.specs.Prelude.{◌≡◌, true, ◌++◌, ◌+◌, ◌<◌, ◌≤◌, [], drop, length, vec_len, vec_capacity, slice_get, IfOk, IfSome, IfNone, OnOk};
ghost use Rattle.std.specs.Option.{option_copied};
ghost use Rattle.std.specs.List.{insert, remove};
ghost use Rattle.up_maps.specs.Joined.{joined, Placed};

use crate::piece::{HALF, Piece, ROOM};
use crate::table::{locate, put, split, take_out, take_piece, tidy};
use std::alloc::{AllocError, Global};
use std::marker::Model;

/// As many items as a list may have.
const MOST: usize = 1 << 48;

/// A list in pieces of at most 512 items.
#[derive(Debug, Drop)]
pub struct Long<T> {
    pieces: Vec<Piece<T>>,
    // the place of each piece's first item
    starts: Vec<usize>,
    count: usize,
    spare: Option<Piece<T>>,
    ready: bool,
}

impl<T> Model for Long<T> {
    ghost use Rattle.std.specs.Prelude.{◌≡◌, [], length, true, vec_len, vec_capacity, IfSome};
    ghost use Rattle.up_maps.specs.Joined.{joined, Placed, ReadyList, HasSpare};

    ghost Value = { ReadyList T };

    ghost view = { λ list. record { items = joined list.pieces.items; ready = list.ready } };

    ghost invariant = { λ list. Placed list.pieces.items list.starts.items
        × (list.count ≡ length (joined list.pieces.items))
        × IfSome list.spare (λ piece. piece ≡ [])
        × (list.ready ≡ true → HasSpare list.spare (vec_len list.pieces) (vec_capacity list.pieces)
        (vec_len list.starts) (vec_capacity list.starts) list.count) };
}

impl<T: Drop> Long<T> {
    /// The empty list, of which the next insert takes no memory.
    pub fn new(alloc: Global) -> Result<Self, AllocError>
        ensures items { IfOk result (λ list. list.items ≡ []) }
        ensures ready { IfOk result (λ list. list.ready ≡ true) }
    {
        let pieces = Vec::with_capacity(alloc, 4)?;
        let starts = Vec::with_capacity(alloc, 4)?;
        let spare = Some(Piece::new(alloc)?);
        Ok(Long {
            pieces,
            starts,
            count: 0,
            spare,
            ready: true,
        })
    }

    /// Takes these items into the list, which is empty.
    pub fn start(&mut self, items: Vec<T>)
        requires empty { self.old.items ≡ [] }
        requires ready { self.old.ready ≡ true }
        requires some { 0 < vec_len items }
        requires few { vec_len items ≤ 512 }
        requires room { 512 ≤ vec_capacity items }
        ensures { self.new.items ≡ items.items }
    {
        self.ready = false;
        self.count = items.len();
        self.pieces.push_reserved(Piece::from_vec(items));
        self.starts.push_reserved(0);
    }

    /// The number of items.
    pub fn len(&self) -> usize
        ensures { result ≡ length self.now.items }
    {
        self.count
    }

    /// The item at place `i`, from 0, or `None` exactly where `i` is at least the length.
    pub fn get(&self, i: usize) -> Option<&T>
        ensures { option_copied result ≡ slice_get self.now.items i }
    {
        if i >= self.count {
            return None;
        }
        let (p, j) = locate(&self.pieces, &self.starts, i);
        self.pieces[p].get(j)
    }

    /// Makes the next insert take no memory. The items stay, whatever the answer.
    pub fn reserve_one(&mut self) -> Result<(), AllocError>
        ensures items { self.new.items ≡ self.old.items }
        ensures ready { OnOk result (self.new.ready ≡ true) }
        ensures kept { self.old.ready ≡ true → self.new.ready ≡ true }
    {
        if self.ready {
            return Ok(());
        }
        if self.count >= MOST {
            return Err(AllocError);
        }
        self.pieces.reserve(1)?;
        self.starts.reserve(1)?;
        if self.spare.is_none() {
            let alloc = *self.starts.allocator();
            let piece = Piece::new(alloc)?;
            self.spare = Some(piece);
        }
        self.ready = true;
        Ok(())
    }

    /// Puts an item at place `i`. It takes no memory.
    pub fn insert_reserved(&mut self, i: usize, item: T)
        requires ready { self.old.ready ≡ true }
        requires within { i ≤ length self.old.items }
        ensures items { self.new.items ≡ insert self.old.items i item }
    {
        self.ready = false;
        self.count += 1;
        let Some(mut spare) = self.spare.take() else {
            unreachable!()
        };
        if self.pieces.is_empty() {
            spare.insert(0, item);
            self.pieces.push_reserved(spare);
            self.starts.push_reserved(0);
            return;
        }
        let (p, j) = locate(&self.pieces, &self.starts, i);
        if self.pieces[p].len() < ROOM {
            put(&mut self.pieces, &mut self.starts, p, j, item);
            self.spare = Some(spare);
            return;
        }
        split(&mut self.pieces, &mut self.starts, p, spare);
        if j <= HALF {
            put(&mut self.pieces, &mut self.starts, p, j, item);
        } else {
            put(&mut self.pieces, &mut self.starts, p + 1, j - HALF, item);
        }
    }

    /// Takes out the item at place `i`. It takes no memory.
    pub fn remove(&mut self, i: usize) -> T
        requires { i < length self.old.items }
        ensures item { slice_get self.old.items i ≡ Some result }
        ensures items { self.new.items ≡ remove self.old.items i }
        ensures ready { self.new.ready ≡ self.old.ready }
    {
        self.count -= 1;
        let (p, j) = locate(&self.pieces, &self.starts, i);
        if self.pieces[p].len() > 1 {
            let item = take_out(&mut self.pieces, &mut self.starts, p, j);
            tidy(&mut self.pieces, &mut self.starts, p);
            return item;
        }
        let mut piece = take_piece(&mut self.pieces, &mut self.starts, p);
        let item = piece.remove(0);
        piece.free();
        item
    }

    /// The items from place `i` on that lie in one piece: at least one, if there is one.
    pub fn run_at(&self, i: usize) -> &[T]
        ensures items { drop i self.now.items ≡
            result.now ++ drop (i + length result.now) self.now.items }
        ensures some { i < length self.now.items → 0 < length result.now }
    {
        if i >= self.count {
            return &[];
        }
        let (p, j) = locate(&self.pieces, &self.starts, i);
        &self.pieces[p].as_slice()[j..]
    }

    /// Takes all items out where they lie in one piece and are at most 256.
    pub fn take_short(&mut self) -> Option<Vec<T>>
        ensures items { IfSome result (λ items. items.items ≡ self.old.items) }
        ensures few { IfSome result (λ items. vec_len items ≤ 256) }
        ensures room { IfSome result (λ items. 512 ≤ vec_capacity items) }
        ensures none { IfNone result (self.new ≡ self.old) }
    {
        if self.pieces.len() != 1 || self.count > HALF {
            return None;
        }
        self.count = 0;
        self.ready = false;
        self.starts.clear();
        self.pieces.pop().map(|piece| piece.into_vec())
    }
}
