//! The Access texts of a tree, by their directories.
ghost use Rattle.std.specs.Prelude.{◌≡◌, ◌≤◌, [], is_ok, if◌then◌else◌, length};
ghost use Rattle.std.specs.Option.{option_copied};
ghost use Rattle.indexmap.specs.IndexMap.{insert_entry};
ghost use Rattle.up_names.specs.PathNames.{cut};
ghost use Rattle.up_names.specs.PathOrder.{path_eq};
ghost use Rattle.up_policy.specs.Directories.{text_at};
ghost use Rattle.up_policy.specs.Governors.{first_text, prefixes, prefixes_to};

use crate::marks::Marks;
use indexmap::IndexMap;
use std::alloc::{AllocError, Global};
use std::hash::RandomState;
use std::marker::Model;
use up_access::AccessText;
use up_names::Path;

/// Access texts by their directories, in order of first mention. A text is found without a walk over all.
#[derive(Drop)]
pub(crate) struct Directories {
    /// By the canonical text of the directory.
    texts: IndexMap<String, AccessText, RandomState>,
    /// Each directory that has a text passes.
    marks: Marks,
}

impl Model for Directories {
    ghost use Rattle.up_policy.specs.Directories.{AccessList, AreKept, by_path};

    ghost Value = { AccessList };

    ghost view = { λ directories. by_path directories.texts.entries };

    ghost invariant = { λ directories. AreKept directories.marks directories.texts.entries };
}

impl Directories {
    /// No text. It takes no memory.
    pub(crate) fn new(alloc: Global, random: RandomState) -> Directories
        ensures { result ≡ [] }
    {
        Directories {
            texts: IndexMap::with_hasher(alloc, random),
            marks: Marks::new(alloc, random),
        }
    }

    /// Sets the text of a directory. It takes the place of the one that is there. An `Err` changes nothing.
    pub(crate) fn set(&mut self, dir: Path, text: AccessText) -> Result<(), AllocError>
        ensures { self.new ≡ (if is_ok result then insert_entry path_eq self.old dir text
            else self.old) }
    {
        self.marks.note(&dir)?;
        self.texts.insert(dir.into_text(), text)?;
        Ok(())
    }

    /// The text of a directory, where it has one.
    pub(crate) fn get(&self, dir: &Path) -> Option<&AccessText>
        ensures { option_copied result ≡ text_at self.now dir.now }
    {
        self.texts.get(dir.as_str())
    }

    /// The text of the nearest directory that has one, from the path itself on the way to the root. It looks at the path's
    /// text once to tell which of its prefixes may have one, and then hardly at another than that which has it.
    pub(crate) fn nearest(&self, path: &Path) -> Option<&AccessText>
        ensures { option_copied result ≡ first_text (text_at self.now) (prefixes path.now) }
    {
        let mut len = self.longest(path);
        loop {
            if let Some(text) = self.at(path, len) {
                return Some(text);
            }
            if len == 0 {
                return None;
            }
            len -= 1;
        }
    }

    /// How many elements of a path are to be looked at: no longer prefix has a text.
    fn longest(&self, path: &Path) -> u64
        ensures within { result ≤ length path.now.elements }
        ensures same { first_text (text_at self.now) (prefixes_to result path.now)
            ≡ first_text (text_at self.now) (prefixes path.now) }
    {
        self.marks.longest(path)
    }

    /// The text of the directory of a path's first `len` elements, where it has one.
    #[tactic(auto, using(crate::proofs::DirectoryLemmas::seen_at))]
    fn at(&self, path: &Path, len: u64) -> Option<&AccessText>
        requires { len ≤ length path.now.elements }
        ensures { option_copied result ≡ text_at self.now (cut len path.now) }
    {
        self.texts.get(path.front(len))
    }
}
