//! Texts of Access files whose needed groups were noted, and need no other search.
ghost use Rattle.std.specs.Prelude.{◌≡◌, ◌≤◌, [], ◌∷◌, true, List, IfOk, OnOk, length};
ghost use Rattle.std.specs.FinMap.Entries.{find, put};
ghost use Rattle.std.specs.List.{flat_map};
ghost use Rattle.up_names.specs.PathNames.{PathName};
ghost use Rattle.up_names.specs.PathOrder.{path_cmp};
ghost use Rattle.up_foreign.specs.Foreign.{needed_in};
ghost use Rattle.up_foreign.specs.Kept.{Keeps};
ghost use Rattle.up_foreign.specs.Noted.{AreNoted, HasNeeded};
ghost use Rattle.up_foreign.specs.Times.{AreBothNoted};
ghost use Rattle.up_policy.specs.Loadings.{Loading};
ghost use Rattle.up_policy.specs.Reached.{with_paths};
ghost use Rattle.up_log_tree.specs.Rights.{governing_prefix};
ghost use Rattle.up_log_tree.specs.Trees.{tree_at, tree_of};

use crate::kept::KeptSearch;
use crate::needed::note_then;
use std::alloc::{AllocError, Global};
use up_maps::OrderedMap;
use up_mem_tree::MemTree;
use up_names::{Path, User};
use up_policy::{Loaded, Names};

/// The directories whose Access files were looked at, each with the number of first records after which it was: each group that the
/// text needed then was noted.
#[derive(Drop)]
pub(crate) struct Noted {
    pub(crate) dirs: OrderedMap<Path, u64>,
}

impl Noted {
    /// None was looked at. It takes no memory.
    pub(crate) fn new(alloc: Global) -> Noted
        ensures { result.dirs.entries ≡ [] }
    {
        Noted {
            dirs: OrderedMap::new(alloc),
        }
    }

    /// After how many records the text in a directory was looked at.
    fn at(&self, dir: &Path) -> Option<u64>
        ensures { result ≡ find path_cmp dir.now self.now.dirs.entries }
    {
        self.dirs.get(dir).copied()
    }

    /// Whether the text in a directory was looked at when it and all Group texts were those of the first `n` records.
    fn has(&self, tree: &MemTree, dir: &Path, n: u64) -> bool
        requires { n ≤ length tree.now.log }
        ensures { (loaded : Loading) (names : List PathName)
            → AreNoted tree.now loaded self.now names → result ≡ true
            → HasNeeded tree.now.owner loaded (tree_at tree.now.log n) dir.now names }
    {
        match self.at(dir) {
            Some(at) => tree.texts_stay(dir, at, n),
            None => false,
        }
    }

    /// Remembers that the text in a directory was looked at, as it was after the first `n` records.
    fn add(&mut self, dir: Path, n: u64) -> Result<(), AllocError>
        ensures { OnOk result
            (self.new.dirs.entries ≡ put path_cmp dir n self.old.dirs.entries) }
    {
        self.dirs.reserve_one()?;
        self.dirs.put_reserved(dir, n);
        Ok(())
    }

    /// Adds what was needed at a path, as the tree was after its first `n` records: nothing, where the text that governed the path was
    /// looked at, and neither it nor a Group file has changed since.
    #[tactic(auto, using(crate::proofs::NotedLemmas::noted_none, crate::proofs::NotedLemmas::noted_already, crate::proofs::NotedLemmas::noted_one))]
    pub(crate) fn note_then(
        &mut self,
        alloc: Global,
        tree: &MemTree,
        n: u64,
        user: &User,
        path: &Path,
        loaded: &Loaded,
        names: &mut Names,
    ) -> Result<(), AllocError>
        requires owned { path.now.owner ≡ tree.now.owner }
        requires within { n ≤ length tree.now.log }
        requires noted { AreNoted tree.now loaded.now self.old names.old }
        ensures added { OnOk result (names.new
            ≡ with_paths names.old (needed_in tree.now.owner loaded.now
            (tree_at tree.now.log n, path.now))) }
        ensures noted { OnOk result (AreNoted tree.now loaded.now self.new names.new) }
    {
        tree.recall();
        let Some(dir) = governing_dir(tree, n, path)? else {
            return Ok(());
        };
        if self.has(tree, &dir, n) {
            return Ok(());
        }
        note_then(alloc, tree, n, user, path, loaded, names)?;
        self.add(dir, n)
    }

    /// Adds what is needed at a path, as the tree is now, by the search that is kept, and remembers that the text that governs the path was
    /// looked at.
    pub(crate) fn note_kept(
        &mut self,
        tree: &MemTree,
        path: &Path,
        loaded: &Loaded,
        kept: &mut KeptSearch,
        names: &mut Names,
    ) -> Result<(), AllocError>
        requires kept { Keeps tree.now.owner tree.now.log loaded.now kept.old }
        requires noted { AreNoted tree.now loaded.now self.old names.old }
        ensures added { OnOk result (names.new
            ≡ with_paths names.old (needed_in tree.now.owner loaded.now
            (tree_of tree.now.log, path.now))) }
        ensures noted { OnOk result (AreNoted tree.now loaded.now self.new names.new) }
        ensures kept { OnOk result (Keeps tree.now.owner tree.now.log loaded.now kept.new) }
    {
        kept.note(tree, path, loaded, names)?;
        let records = tree.position();
        let Some(dir) = governing_dir(tree, records, path)? else {
            return Ok(());
        };
        self.add(dir, records)?;
        Ok(())
    }

    /// Adds what is needed at a path, as the tree is now: nothing, where the text that governs the path was looked at.
    pub(crate) fn note_now(
        &mut self,
        alloc: Global,
        tree: &MemTree,
        user: &User,
        path: &Path,
        loaded: &Loaded,
        names: &mut Names,
    ) -> Result<(), AllocError>
        requires owned { path.now.owner ≡ tree.now.owner }
        requires noted { AreNoted tree.now loaded.now self.old names.old }
        ensures added { OnOk result (names.new
            ≡ with_paths names.old (needed_in tree.now.owner loaded.now
            (tree_of tree.now.log, path.now))) }
        ensures noted { OnOk result (AreNoted tree.now loaded.now self.new names.new) }
    {
        let records = tree.position();
        self.note_then(alloc, tree, records, user, path, loaded, names)
    }
}

/// The directory of the Access file that governed a path after the first `n` records.
#[tactic(auto, using(up_list::proofs::ViewLemmas::cut_past))]
fn governing_dir(tree: &MemTree, n: u64, path: &Path) -> Result<Option<Path>, AllocError>
    requires { n ≤ length tree.now.log }
    ensures { IfOk result (λ dir. dir
        ≡ governing_prefix (tree_at tree.now.log n) path.now) }
{
    let Some((len, _)) = tree.nearest_at(path, n) else {
        return Ok(None);
    };
    let mut dir = path.clone()?;
    if len < dir.len() {
        dir.shorten(len);
    }
    Ok(Some(dir))
}

/// What was looked at in the tree as it is, and in the tree as it was after some first records.
#[derive(Drop)]
pub(crate) struct Times {
    pub(crate) current: Noted,
    pub(crate) past: Noted,
}

impl Times {
    /// This was looked at in the tree as it is, and nothing in the tree as it was. It takes no memory.
    pub(crate) fn new(alloc: Global, current: Noted) -> Times
        ensures current { result.current ≡ current }
        ensures past { result.past.dirs.entries ≡ [] }
    {
        Times {
            current,
            past: Noted::new(alloc),
        }
    }

    /// Adds what is needed at a path: as the tree is now, and as it was after its first `n` records.
    #[tactic(auto, using(crate::proofs::NotedLemmas::noted_grows))]
    pub(crate) fn note_both(
        &mut self,
        alloc: Global,
        tree: &MemTree,
        n: u64,
        user: &User,
        path: &Path,
        loaded: &Loaded,
        names: &mut Names,
    ) -> Result<(), AllocError>
        requires owned { path.now.owner ≡ tree.now.owner }
        requires within { n ≤ length tree.now.log }
        requires noted { AreBothNoted tree.now loaded.now self.old names.old }
        ensures added { OnOk result (names.new
            ≡ with_paths names.old (flat_map (needed_in tree.now.owner loaded.now)
            ((tree_of tree.now.log, path.now) ∷ (tree_at tree.now.log n, path.now) ∷ []))) }
        ensures noted { OnOk result (AreBothNoted tree.now loaded.now self.new names.new) }
    {
        self.current
            .note_now(alloc, tree, user, path, loaded, names)?;
        self.past
            .note_then(alloc, tree, n, user, path, loaded, names)
    }
}
