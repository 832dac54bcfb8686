//! Rights that were decided, and are not decided again.
ghost use Rattle.std.specs.Prelude.{◌≡◌, ◌≤◌, [], IfOk, IfSome, if◌then◌else◌, is_ok, length};
ghost use Rattle.std.specs.FinMap.Entries.{put};
ghost use Rattle.up_list.specs.Looks.{rights};
ghost use Rattle.up_names.specs.PathOrder.{path_cmp};
ghost use Rattle.up_log_tree.specs.Rights.{facts_of, governing_prefix};
ghost use Rattle.up_log_tree.specs.Trees.{tree_at};
ghost use Rattle.up_watch.specs.Decided.{AreDecided, IsGiven, given_in, rights_by};
ghost use Rattle.up_watch.specs.Watching.{Watching, after};

use crate::watcher::Reader;
use std::alloc::{AllocError, Global};
use up_maps::OrderedMap;
use up_mem_tree::MemTree;
use up_names::Path;
use up_policy::is_control;
use up_rights::RightSet;

/// The rights that a text gave in the tree as it was after the first `at` records.
#[derive(Clone, Copy)]
pub(crate) struct Given {
    pub(crate) at: u64,
    pub(crate) held: RightSet,
}

/// What the texts of Access files gave one user, by the directories of those files: on the ordinary paths that they govern, and on the
/// Access and Group paths.
#[derive(Drop)]
pub(crate) struct Decided {
    pub(crate) ordinary: OrderedMap<Path, Given>,
    pub(crate) control: OrderedMap<Path, Given>,
}

impl Decided {
    /// Nothing was decided. It takes no memory.
    pub(crate) fn new(alloc: Global) -> Decided
        ensures ordinary { result.ordinary.entries ≡ [] }
        ensures control { result.control.entries ≡ [] }
    {
        Decided {
            ordinary: OrderedMap::new(alloc),
            control: OrderedMap::new(alloc),
        }
    }

    /// What the text in a directory gave on the paths of one kind, where that was decided.
    fn of(&self, dir: &Path, control: bool) -> Option<Given>
        ensures { result ≡ given_in self.now dir.now control }
    {
        if control {
            self.control.get(dir).copied()
        } else {
            self.ordinary.get(dir).copied()
        }
    }

    /// What the text in a directory gave on the paths of one kind, where that was decided when this text and all Group texts were
    /// those of the first `n` records.
    #[tactic(auto, using(crate::proofs::DecidedLemmas::decided_still))]
    fn still(&self, reader: &Reader, dir: &Path, control: bool, n: u64) -> Option<RightSet>
        requires within { n ≤ length reader.now.log }
        requires decided { AreDecided reader.now self.now }
        ensures { IfSome result (λ held. rights_by (after reader.now n) control
            ((facts_of reader.now.owner (tree_at reader.now.log n)).access dir.now) ≡ held) }
    {
        let Some(given) = self.of(dir, control) else {
            return None;
        };
        if reader.tree().texts_stay(dir, given.at, n) {
            Some(given.held)
        } else {
            None
        }
    }

    /// Keeps what the text in a directory gives on the paths of one kind. An `Err` changes nothing.
    fn add(&mut self, dir: Path, control: bool, given: Given) -> Result<(), AllocError>
        ensures { (watching : Watching) → IsGiven watching control dir given
            → AreDecided watching self.old → AreDecided watching self.new }
    {
        if control {
            put(&mut self.control, dir, given)
        } else {
            put(&mut self.ordinary, dir, given)
        }
    }

    /// The user's rights on a path in the tree as it was directly after record `n`. For the paths of one kind that one text governs
    /// they are decided once, and again only where that text or a Group file has changed since.
    pub(crate) fn rights_after(
        &mut self,
        alloc: Global,
        reader: &Reader,
        path: &Path,
        n: u64,
    ) -> Result<RightSet, AllocError>
        requires owned { path.now.owner ≡ reader.now.owner }
        requires within { n ≤ length reader.now.log }
        requires decided { AreDecided reader.now self.old }
        ensures held { IfOk result (λ held. held ≡ rights (after reader.now n) path.now) }
        ensures decided { AreDecided reader.now self.new }
    {
        let tree = reader.tree();
        tree.recall();
        let Some(dir) = governing_dir(tree, n, path)? else {
            return reader.rights_after(alloc, path, n);
        };
        let control = is_control(path);
        if let Some(held) = self.still(reader, &dir, control, n) {
            return Ok(held);
        }
        let held = reader.rights_after(alloc, path, n)?;
        self.add(dir, control, Given { at: n, held })?;
        Ok(held)
    }
}

/// Puts a value at a key, in place of the one that is there. An `Err` changes nothing.
fn put(dirs: &mut OrderedMap<Path, Given>, dir: Path, given: Given) -> Result<(), AllocError>
    ensures { dirs.new.entries
        ≡ (if is_ok result then put path_cmp dir given dirs.old.entries else dirs.old.entries) }
{
    dirs.reserve_one()?;
    dirs.put_reserved(dir, given);
    Ok(())
}

/// The directory of the Access file that governed a path after the first `n` records.
#[tactic(auto, using(up_list::proofs::ViewLemmas::cut_past))]
fn governing_dir(tree: &MemTree, n: u64, path: &Path) -> Result<Option<Path>, AllocError>
    requires { n ≤ length tree.now.log }
    ensures { IfOk result (λ dir. dir ≡ governing_prefix (tree_at tree.now.log n) path.now) }
{
    let Some((len, _)) = tree.nearest_at(path, n) else {
        return Ok(None);
    };
    let mut dir = path.clone()?;
    if len < dir.len() {
        dir.shorten(len);
    }
    Ok(Some(dir))
}
