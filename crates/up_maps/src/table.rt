//! The pieces and their places, edited together.
ghost use Rattle.std.specs.Prelude.{◌≡◌, ◌+◌, ◌^◌, ◌<◌, ◌≤◌, [], length, get_or, take, drop, vec_capacity, vec_len, slice_get};
ghost use Rattle.std.specs.List.{insert, remove};
ghost use Rattle.up_maps.specs.Joined.{joined, before, Placed};

use crate::piece::{HALF, Piece};
use crate::places::{lower, piece_of, raise};

/// The piece that the place `i` falls in, and the place in it.
pub fn locate<T>(pieces: &Vec<Piece<T>>, starts: &Vec<usize>, i: usize) -> (usize, usize)
    requires placed { Placed pieces.now.items starts.now.items }
    requires some { 0 < length pieces.now.items }
    requires within { i ≤ length (joined pieces.now.items) }
    ensures piece { result.0 < length pieces.now.items }
    ensures place { before pieces.now.items result.0 + result.1 ≡ i }
    ensures at { i < length (joined pieces.now.items) →
        result.1 < length (get_or pieces.now.items result.0 []) }
    ensures end { result.1 ≤ length (get_or pieces.now.items result.0 []) }
{
    let p = piece_of(starts, i);
    (p, i - starts[p])
}

/// Puts an item into the piece `p`, which has room, at the place `j`.
pub fn put<T>(pieces: &mut Vec<Piece<T>>, starts: &mut Vec<usize>, p: usize, j: usize, item: T)
    requires placed { Placed pieces.old.items starts.old.items }
    requires piece { p < length pieces.old.items }
    requires place { j ≤ length (get_or pieces.old.items p []) }
    requires room { length (get_or pieces.old.items p []) < 512 }
    requires small { length (joined pieces.old.items) < 2 ^ 63 }
    ensures items { joined pieces.new.items ≡
        insert (joined pieces.old.items) (before pieces.old.items p + j) item }
    ensures placed { Placed pieces.new.items starts.new.items }
{
    pieces[p].insert(j, item);
    raise(starts, p + 1);
}

/// Takes the item at the place `j` out of the piece `p`, which has another.
pub fn take_out<T>(pieces: &mut Vec<Piece<T>>, starts: &mut Vec<usize>, p: usize, j: usize) -> T
    requires placed { Placed pieces.old.items starts.old.items }
    requires piece { p < length pieces.old.items }
    requires place { j < length (get_or pieces.old.items p []) }
    requires another { 1 < length (get_or pieces.old.items p []) }
    ensures item { slice_get (joined pieces.old.items) (before pieces.old.items p + j)
        ≡ Some result }
    ensures items { joined pieces.new.items ≡
        remove (joined pieces.old.items) (before pieces.old.items p + j) }
    ensures placed { Placed pieces.new.items starts.new.items }
    ensures room { vec_capacity pieces.new ≡ vec_capacity pieces.old }
    ensures places { vec_capacity starts.new ≡ vec_capacity starts.old }
    ensures pieces { vec_len pieces.new ≡ vec_len pieces.old }
    ensures starts { vec_len starts.new ≡ vec_len starts.old }
{
    let item = pieces[p].remove(j);
    lower(starts, p + 1);
    item
}

/// Cuts the piece `p` in two, the second half in the spare piece.
pub fn split<T>(pieces: &mut Vec<Piece<T>>, starts: &mut Vec<usize>, p: usize, mut spare: Piece<T>)
    requires placed { Placed pieces.old.items starts.old.items }
    requires piece { p < length pieces.old.items }
    requires long { 256 < length (get_or pieces.old.items p []) }
    requires empty { spare ≡ [] }
    requires room { vec_len pieces.old < vec_capacity pieces.old }
    requires place { vec_len starts.old < vec_capacity starts.old }
    requires small { length (joined pieces.old.items) < 2 ^ 63 }
    ensures items { joined pieces.new.items ≡ joined pieces.old.items }
    ensures placed { Placed pieces.new.items starts.new.items }
    ensures more { length pieces.new.items ≡ length pieces.old.items + 1 }
    ensures front { get_or pieces.new.items p [] ≡ take 256 (get_or pieces.old.items p []) }
    ensures back { get_or pieces.new.items (p + 1) [] ≡ drop 256 (get_or pieces.old.items p []) }
    ensures before { before pieces.new.items p ≡ before pieces.old.items p }
    ensures after { before pieces.new.items (p + 1) ≡ before pieces.old.items p + 256 }
    ensures bound { length (get_or pieces.old.items p []) ≤ 512 }
{
    pieces[p].split_into(&mut spare);
    let start = starts[p] + HALF;
    match pieces.insert(p + 1, spare) {
        Ok(()) => (),
        Err(_refused) => unreachable!(),
    }
    match starts.insert(p + 1, start) {
        Ok(()) => (),
        Err(_refused) => unreachable!(),
    }
}

/// Takes the piece `p` of one item out.
pub fn take_piece<T>(pieces: &mut Vec<Piece<T>>, starts: &mut Vec<usize>, p: usize) -> Piece<T>
    requires placed { Placed pieces.old.items starts.old.items }
    requires piece { p < length pieces.old.items }
    requires one { length (get_or pieces.old.items p []) ≡ 1 }
    ensures piece { result ≡ get_or pieces.old.items p [] }
    ensures items { joined pieces.new.items ≡
        remove (joined pieces.old.items) (before pieces.old.items p) }
    ensures placed { Placed pieces.new.items starts.new.items }
    ensures room { vec_capacity pieces.new ≡ vec_capacity pieces.old }
    ensures places { vec_capacity starts.new ≡ vec_capacity starts.old }
    ensures pieces { vec_len pieces.new + 1 ≡ vec_len pieces.old }
    ensures starts { vec_len starts.new + 1 ≡ vec_len starts.old }
{
    let piece = pieces.remove(p);
    starts.remove(p);
    lower(starts, p);
    piece
}

/// Makes one piece of the piece `p` and the next, which fit into one.
pub fn join<T>(pieces: &mut Vec<Piece<T>>, starts: &mut Vec<usize>, p: usize)
    requires placed { Placed pieces.old.items starts.old.items }
    requires next { p + 1 < length pieces.old.items }
    requires fit { length (get_or pieces.old.items p [])
        + length (get_or pieces.old.items (p + 1) []) ≤ 512 }
    ensures items { joined pieces.new.items ≡ joined pieces.old.items }
    ensures placed { Placed pieces.new.items starts.new.items }
    ensures room { vec_capacity pieces.new ≡ vec_capacity pieces.old }
    ensures places { vec_capacity starts.new ≡ vec_capacity starts.old }
    ensures pieces { vec_len pieces.new + 1 ≡ vec_len pieces.old }
    ensures starts { vec_len starts.new + 1 ≡ vec_len starts.old }
{
    let next = pieces.remove(p + 1);
    starts.remove(p + 1);
    pieces[p].join(next);
}

/// Makes one piece of the piece `p` and a neighbour, where they have few items together.
pub fn tidy<T>(pieces: &mut Vec<Piece<T>>, starts: &mut Vec<usize>, p: usize)
    requires placed { Placed pieces.old.items starts.old.items }
    requires piece { p < length pieces.old.items }
    ensures items { joined pieces.new.items ≡ joined pieces.old.items }
    ensures placed { Placed pieces.new.items starts.new.items }
    ensures room { vec_capacity pieces.new ≡ vec_capacity pieces.old }
    ensures places { vec_capacity starts.new ≡ vec_capacity starts.old }
    ensures pieces { vec_len pieces.new ≤ vec_len pieces.old }
    ensures starts { vec_len starts.new ≤ vec_len starts.old }
{
    if p + 1 < pieces.len() && pieces[p].len() + pieces[p + 1].len() <= HALF {
        join(pieces, starts, p);
    } else if p > 0 && pieces[p - 1].len() + pieces[p].len() <= HALF {
        join(pieces, starts, p - 1);
    }
}
