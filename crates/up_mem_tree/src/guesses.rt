//! Where walks ended, and guesses where far paths stand, so that a walk down to a path need not begin at the root.
ghost use Rattle.std.specs.Prelude.{◌≡◌, ◌≤◌, ◌<◌, true, length, IfSome, Some};
ghost use Rattle.up_names.specs.PathNames.{cut};
ghost use Rattle.up_mem_tree.specs.Kept.{slots_of};
ghost use Rattle.up_mem_tree.specs.Slots.{path_in};

use crate::kept::Kept;
use crate::slots::{path_in, slot_at};
use crate::steps::Own;
use std::alloc::AllocError;
use std::hash::{FoldHasher, Hasher};
use up_maps::OrderedMap;
use up_names::Path;

/// A path with more elements is far: it is guessed where it stands.
const NEAR: u64 = 16;

/// The number under which the slot of a path is guessed, by the path's text. Other paths may have the same one.
fn mark_of(text: &str) -> u64 {
    let mut hasher = FoldHasher::default();
    hasher.write(text.as_bytes());
    hasher.finish()
}

/// The number of elements of the prefix that is tried after one of `n` elements: one less than the whole path has, and then half as
/// many each time.
fn shorter(n: u64, whole: u64) -> u64
    requires { 0 < n }
    ensures { result < n }
{
    if n == whole { n - 1 } else { n / 2 }
}

/// Whether a path is made of the first `n` elements of another.
#[tactic(auto, using(crate::proofs::Noted::front_is))]
fn is_front(front: &Path, path: &Path, n: u64) -> bool
    ensures { result ≡ true → front.now ≡ cut n path.now }
{
    front.len() == n && path.is_under(front)
}

impl Kept {
    /// Where a walk down to a path begins: the number of its first elements, and their slot. It is where the last walk ended, or the
    /// directory of that place, if the path is there or below; else the root. A far path's is that of the longest prefix that is tried
    /// and was guessed right, where this has more elements.
    pub(crate) fn begin(&self, path: &Path) -> (u64, usize)
        requires { path_in (slots_of self.now) 0 ≡ Some (cut 0 path.now) }
        ensures within { result.0 ≤ length path.now.elements }
        ensures at { path_in (slots_of self.now) result.1 ≡ Some (cut result.0 path.now) }
    {
        let (least, first) = self.recalled(path);
        let mut n = path.len();
        while n > NEAR && n > least {
            if let Some(id) = self.guessed(path, n) {
                self.recent.set(id);
                return (n, id);
            }
            n = shorter(n, path.len());
        }
        (least, first)
    }

    /// Where the last walk ended, or the directory of that place, if a path is there or below; else the root: the number of the path's
    /// first elements, and their slot.
    fn recalled(&self, path: &Path) -> (u64, usize)
        requires { path_in (slots_of self.now) 0 ≡ Some (cut 0 path.now) }
        ensures within { result.0 ≤ length path.now.elements }
        ensures at { path_in (slots_of self.now) result.1 ≡ Some (cut result.0 path.now) }
    {
        let recent = self.recent.get();
        if let Some(n) = self.front_at(recent, path) {
            return (n, recent);
        }
        let above = self.directory_at(recent);
        match self.front_at(above, path) {
            Some(n) => (n, above),
            None => (0, 0),
        }
    }

    /// Remembers where a walk ended, where it went on from the slot at which it began. One that ended at once leaves what is remembered:
    /// it was there or at its directory, and a walk to a directory is often followed by one to what was remembered in it.
    pub(crate) fn note_end(&self, first: usize, last: usize) {
        if last != first {
            self.recent.set(last);
        }
    }

    /// The slot of the directory of a slot's path, by what the slot says; that of the root for any other number.
    fn directory_at(&self, id: usize) -> usize {
        match slot_at(self.slots.as_slice(), id) {
            Some(slot) => slot.parent.unwrap_or(0),
            None => 0,
        }
    }

    /// How many elements the path of a slot has, where another path is there or below.
    fn front_at(&self, id: usize, path: &Path) -> Option<u64>
        ensures within { IfSome result (λ n. n ≤ length path.now.elements) }
        ensures at { IfSome result (λ n. path_in (slots_of self.now) id ≡ Some (cut n path.now)) }
    {
        let Some(there) = path_in(self.slots.as_slice(), id) else {
            return None;
        };
        let n = there.len();
        if n <= path.len() && is_front(there, path, n) {
            Some(n)
        } else {
            None
        }
    }

    /// The slot of the first `n` elements of a path, where it was guessed right.
    fn guessed(&self, path: &Path, n: u64) -> Option<usize>
        requires { n ≤ length path.now.elements }
        ensures { IfSome result (λ id. path_in (slots_of self.now) id ≡ Some (cut n path.now)) }
    {
        let Some(guess) = self.guesses.get(&mark_of(path.front(n))) else {
            return None;
        };
        let id = *guess;
        if self.stands_at(id, path, n) {
            Some(id)
        } else {
            None
        }
    }

    /// Whether a slot is that of the first `n` elements of a path.
    fn stands_at(&self, id: usize, path: &Path, n: u64) -> bool
        ensures { result ≡ true → path_in (slots_of self.now) id ≡ Some (cut n path.now) }
    {
        match path_in(self.slots.as_slice(), id) {
            Some(there) => is_front(there, path, n),
            None => false,
        }
    }
}

/// Guesses that a path which has no slot yet gets the next one, where it is far. A guess is tested before it is believed: so this one
/// does no harm if the slot is never made.
pub(crate) fn guess(
    guesses: &mut OrderedMap<u64, usize>,
    own: &Own,
    next: usize,
) -> Result<(), AllocError> {
    let Own::New(slot) = own else {
        return Ok(());
    };
    if slot.path.len() > NEAR {
        guesses.reserve_one()?;
        guesses.put_reserved(mark_of(slot.path.as_str()), next);
    }
    Ok(())
}
