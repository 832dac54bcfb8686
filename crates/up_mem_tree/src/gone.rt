//! Texts that were replaced, in the order in which they were.
ghost use Rattle.std.specs.Prelude.{◌≡◌, ◌<◌, ◌++◌, ◌∷◌, [], true, false, Contains};
ghost use Rattle.std.specs.Vec.{vec_capacity, vec_len};
ghost use Rattle.up_mem_tree.specs.Gone.{IsBehind};
ghost use Rattle.up_mem_tree.specs.declared.gone.Naming.{Naming as Text};

use std::alloc::{AllocError, Global};
use std::marker::Model;

/// A text that names a group, or has named it: the position of the record that made it, and that of the record that replaced it, or 0 while
/// none has.
#[derive(Clone, Copy)]
pub(crate) struct Naming {
    pub(crate) by: u64,
    pub(crate) until: u64,
}

/// Texts that were replaced, in the order in which they were.
#[derive(Drop)]
pub(crate) struct Gone {
    texts: Vec<Naming>,
}

impl Model for Gone {
    ghost use Rattle.std.specs.Prelude.{List};
    ghost use Rattle.up_mem_tree.specs.Gone.{AreInOrder};
    ghost use Rattle.up_mem_tree.specs.declared.gone.Naming.{Naming};

    ghost Value = { List Naming };

    ghost view = { λ gone. gone.texts.items };

    ghost invariant = { λ gone. AreInOrder gone.texts.items };
}

/// Whether there is room for one text more, and the last one was not replaced behind that position.
fn takes(texts: &Vec<Naming>, until: u64) -> bool
    ensures room { result ≡ true → vec_len texts.now < vec_capacity texts.now }
    ensures behind { result ≡ true → IsBehind texts.now.items until }
{
    if texts.len() >= texts.capacity() {
        return false;
    }
    match texts.last() {
        Some(last) => last.until <= until,
        None => true,
    }
}

impl Gone {
    /// None. It takes no memory.
    pub(crate) fn new(alloc: Global) -> Gone
        ensures { result ≡ [] }
    {
        Gone {
            texts: Vec::new(alloc),
        }
    }

    /// Makes room for so many texts more.
    pub(crate) fn reserve(&mut self, more: usize) -> Result<(), AllocError>
        ensures { self.new ≡ self.old }
    {
        self.texts.reserve(more)
    }

    /// Adds a text that is replaced by the record at `until`, where there is room and none is kept that was replaced later. It takes no
    /// memory.
    pub(crate) fn push(&mut self, by: u64, until: u64) -> bool
        ensures pushed { result ≡ true → self.new ≡ self.old ++ record { by = by; until = until } ∷ [] }
        ensures same { result ≡ false → self.new ≡ self.old }
    {
        if !takes(&self.texts, until) {
            return false;
        }
        self.texts.push_reserved(Naming { by, until });
        true
    }

    /// Those that were replaced above a position: the last ones, found by bisection.
    pub(crate) fn after(&self, above: u64) -> &[Naming]
        ensures { (text : Text) → Contains self.now text → above < text.until → Contains result.now text }
    {
        let mut low = 0;
        let mut high = self.texts.len();
        while low < high {
            let middle = low + (high - low) / 2;
            if self.texts[middle].until <= above {
                low = middle + 1;
            } else {
                high = middle;
            }
        }
        &self.texts[low..]
    }
}
