//! Lists of names without repeats.
ghost use Rattle.std.specs.Prelude.{◌≡◌, [], is_ok, if◌then◌else◌, length, slice_get};
ghost use Rattle.std.specs.List.{IsDistinct};
ghost use Rattle.std.specs.Option.{option_copied};
ghost use Rattle.up_names.specs.PathOrder.{path_eq};
ghost use Rattle.up_policy.specs.Reached.{with_path};

use indexmap::IndexSet;
use std::alloc::{AllocError, Global};
use std::hash::RandomState;
use std::marker::Model;
use up_names::Path;

/// Names of groups in order of first mention, without repeats. It keeps the allocator and the hash keys that it was made
/// with.
#[derive(Drop)]
pub struct Names {
    names: IndexSet<Path, RandomState>,
}

impl Model for Names {
    ghost use Rattle.std.specs.Prelude.{List};
    ghost use Rattle.up_names.specs.PathNames.{PathName};

    ghost Value = { List PathName };

    ghost view = { λ names. names.names.keys };
}

impl Names {
    /// No names. It takes no memory.
    pub fn new(alloc: Global, random: RandomState) -> Names
        ensures { result ≡ [] }
    {
        Names {
            names: IndexSet::with_hasher(alloc, random),
        }
    }

    /// The number of names.
    pub fn len(&self) -> u64
        ensures len { result ≡ length self.now }
        // No name stands twice.
        ensures names { IsDistinct path_eq self.now }
    {
        self.names.len() as u64
    }

    /// The name at place `i`, from 0, or `None` exactly where `i` is at least the length.
    pub fn get(&self, i: u64) -> Option<&Path>
        ensures { option_copied result ≡ slice_get self.now i }
    {
        self.names.get_index(i as usize)
    }

    /// Adds a name at the end, where the list does not have it yet. An `Err` changes nothing.
    pub fn add(&mut self, name: Path) -> Result<(), AllocError>
        ensures { self.new ≡ (if is_ok result then with_path self.old name else self.old) }
    {
        self.names.insert(name)?;
        Ok(())
    }
}
