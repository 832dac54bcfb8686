//! Which directories may have an Access text, told by the hashes of their elements.
ghost use Rattle.std.specs.Prelude.{◌≡◌, ◌<◌, ◌≤◌, ℕ, true, false, length, IfSome, OnOk, slice_get};
ghost use Rattle.up_names.specs.PathNames.{cut};
ghost use Rattle.up_policy.specs.Marks.{PassStill, after_element, hash_of, may_have};

use indexmap::IndexSet;
use std::alloc::{AllocError, Global};
use std::hash::{BuildHasher, DefaultHasher, Hash, Hasher, RandomState};
use up_names::Path;

/// A sieve for directories: each that was noted passes, and hardly any other. The hash of a path is that of its elements,
/// one after the other, so that one pass over a path tells which of its prefixes pass. It is made with keys that nobody
/// knows: no choice of names makes two hashes equal.
#[derive(Drop)]
pub(crate) struct Marks {
    keys: RandomState,
    /// The hashes of the noted directories.
    hashes: IndexSet<u64>,
    /// The most elements that a noted directory has.
    depth: u64,
}

impl Marks {
    /// Nothing noted. It takes no memory.
    pub(crate) fn new(alloc: Global, keys: RandomState) -> Marks {
        Marks {
            keys,
            hashes: IndexSet::new(alloc),
            depth: 0,
        }
    }

    /// Notes a directory. An `Err` forgets none.
    pub(crate) fn note(&mut self, dir: &Path) -> Result<(), AllocError>
        ensures noted { OnOk result (may_have self.new dir.now ≡ true) }
        ensures kept { PassStill self.old self.new }
    {
        let hash = hash_of(self.keys, dir);
        self.hashes.insert(hash)?;
        self.depth = self.depth.max(dir.len());
        Ok(())
    }

    /// The number of elements of the longest prefix of a path, itself included, that passes; 0 where none does.
    pub(crate) fn longest(&self, path: &Path) -> u64
        ensures within { result ≤ length path.now.elements }
        ensures beyond { (n : ℕ) → result < n → n ≤ length path.now.elements
            → may_have self.now (cut n path.now) ≡ false }
    {
        let mut hasher = self.keys.build_hasher();
        let mut longest = 0;
        let mut len = 0;
        while len < path.len() && len < self.depth {
            add_element(&mut hasher, path, len);
            len += 1;
            if self.hashes.contains(&hasher.finish()) {
                longest = len;
            }
        }
        longest
    }
}

/// The hash of a path.
fn hash_of(keys: RandomState, path: &Path) -> u64
    ensures { result ≡ hash_of keys path.now.elements }
{
    let mut hasher = keys.build_hasher();
    for i in 0..path.len() {
        add_element(&mut hasher, path, i);
    }
    hasher.finish()
}

/// Adds the element at place `i` of a path to what is hashed.
fn add_element(hasher: &mut DefaultHasher, path: &Path, i: u64)
    ensures { IfSome (slice_get path.now.elements i)
        (λ element. hasher.new ≡ after_element hasher.old element) }
{
    if let Some(element) = path.element(i) {
        element.hash(hasher);
    }
}
