//! A search for the groups that have to be loaded, which is kept from one round of loads to the next.
ghost use Rattle.std.specs.Prelude.{◌≡◌, [], List, OnOk, Some, if◌then◌else◌, true};
ghost use Rattle.std.specs.Option.{option_copied};
ghost use Rattle.up_entry.specs.declared.records.Rec.{Rec as OneRecord};
ghost use Rattle.up_foreign.specs.Foreign.{needed_in};
ghost use Rattle.up_foreign.specs.Kept.{GoesOn, HasReached, IsOver, Keeps, named_by};
ghost use Rattle.up_lists.specs.Begins.{Begins};
ghost use Rattle.up_log_tree.specs.Trees.{tree_of};
ghost use Rattle.up_names.specs.PathNames.{PathName};
ghost use Rattle.up_names.specs.Texts.{UserName};
ghost use Rattle.up_policy.specs.Loadings.{Loading};
ghost use Rattle.up_policy.specs.Members.{items_in, text_of};
ghost use Rattle.up_policy.specs.Reached.{is_wanted, needed, with_path, with_paths};

use crate::groups::Groups;
use std::alloc::{AllocError, Global};
use std::hash::RandomState;
use up_access::AccessText;
use up_group::GroupText;
use up_list::MemView;
use up_mem_tree::MemTree;
use up_names::{Item, Path};
use up_policy::{Facts, Loaded, Names};

/// What is kept of a search from one round of loads to the next, in one call: how many records the tree had, the path, the groups that
/// were met from the text that governs it, in order of first mention, and how many of them were looked at. None of those that were looked
/// at has to be loaded, so whatever more is loaded, the search goes on from there.
///
/// At another path, or in a tree with another number of records, it begins anew. It takes the memory of the names of the groups that were
/// met.
#[derive(Drop)]
pub struct KeptSearch {
    pub(crate) records: u64,
    pub(crate) path: Option<Path>,
    pub(crate) met: Groups,
    pub(crate) next: usize,
}

impl KeptSearch {
    /// A search that has met nothing. It takes no memory.
    pub fn new(alloc: Global, random: RandomState) -> KeptSearch
        ensures { (owner : UserName) (records : List OneRecord) (loaded : Loading)
            → Keeps owner records loaded result }
    {
        KeptSearch {
            records: 0,
            path: None,
            met: Groups::new(alloc, random),
            next: 0,
        }
    }

    /// Adds what is needed at a path, as the tree is now: the search goes on from where it had come at that path, or begins anew where the
    /// tree had another number of records then.
    pub(crate) fn note(
        &mut self,
        tree: &MemTree,
        path: &Path,
        loaded: &Loaded,
        names: &mut Names,
    ) -> Result<(), AllocError>
        requires { Keeps tree.now.owner tree.now.log loaded.now self.old }
        ensures added { OnOk result (names.new
            ≡ with_paths names.old (needed_in tree.now.owner loaded.now
            (tree_of tree.now.log, path.now))) }
        ensures kept { OnOk result (Keeps tree.now.owner tree.now.log loaded.now self.new) }
    {
        self.make_ready(tree, path)?;
        let view = MemView::new(tree);
        self.settle(&view, loaded)?;
        self.look_on(&view, loaded, names)?;
        Ok(())
    }

    /// Begins anew, where it is another path, or the tree had another number of records.
    fn make_ready(&mut self, tree: &MemTree, path: &Path) -> Result<(), AllocError>
        ensures { (loaded : Loading) → Keeps tree.now.owner tree.now.log loaded self.old
            → OnOk result (IsOver tree.now.owner tree.now.log loaded path.now self.new) }
    {
        let records = tree.position();
        if self.is_over(path, records) {
            return Ok(());
        }
        let view = MemView::new(tree);
        self.begin(view.nearest(path), path, records)?;
        Ok(())
    }

    /// Whether it is from this path, over so many records.
    fn is_over(&self, path: &Path, records: u64) -> bool
        ensures { result ≡ true
            → (self.now.records ≡ records) × (self.now.path ≡ Some path.now) }
    {
        match &self.path {
            Some(from) => self.records == records && from == path,
            None => false,
        }
    }

    /// Begins with the groups that a text names, at a path, in a tree of so many records.
    fn begin(
        &mut self,
        text: Option<&AccessText>,
        path: &Path,
        records: u64,
    ) -> Result<(), AllocError>
        ensures records { OnOk result (self.new.records ≡ records) }
        ensures path { OnOk result (self.new.path ≡ Some path.now) }
        ensures met { OnOk result
            (self.new.met ≡ with_paths [] (named_by (option_copied text.entry))) }
        ensures next { OnOk result (self.new.next ≡ 0) }
    {
        self.path = Some(path.clone()?);
        self.records = records;
        self.next = 0;
        self.met.truncate(0);
        match text {
            Some(found) => self.met.add_named(found.rules()),
            None => Ok(()),
        }
    }

    /// Goes on as long as the next group has not to be loaded.
    fn settle<F: Facts>(&mut self, facts: &F, loaded: &Loaded) -> Result<(), AllocError>
        ensures records { OnOk result (self.new.records ≡ self.old.records) }
        ensures path { OnOk result (self.new.path ≡ self.old.path) }
        ensures reached { OnOk result (GoesOn (F.tree facts.now) loaded.now
            self.old.next self.old.met self.new.next self.new.met) }
    {
        for _ in 0..u64::MAX {
            let Some(group) = self.met.get(self.next) else {
                return Ok(());
            };
            if is_wanted(facts, loaded, group) {
                return Ok(());
            }
            let items = items_in(facts, loaded, group);
            self.met.add_groups(items)?;
            self.next += 1;
        }
        // No memory holds so many.
        Err(AllocError)
    }

    /// Looks at all other groups too, with those that they lead to, and adds those that have to be loaded. What is met only then is not
    /// kept.
    fn look_on<F: Facts>(
        &mut self,
        facts: &F,
        loaded: &Loaded,
        names: &mut Names,
    ) -> Result<(), AllocError>
        ensures same { OnOk result (self.new ≡ self.old) }
        ensures added { (path : PathName)
            → HasReached (F.tree facts.now) loaded.now path self.old.next self.old.met
            → OnOk result (names.new ≡ with_paths names.old
            (needed (F.tree facts.now) (F.group_paths facts.now) loaded.now path)) }
    {
        let len = self.met.len();
        look_through(facts, loaded, self.next, &mut self.met, names)?;
        self.met.truncate(len);
        Ok(())
    }
}

/// Looks at the groups that were met from a place on, and adds those that have to be loaded.
fn look_through<F: Facts>(
    facts: &F,
    loaded: &Loaded,
    from: usize,
    met: &mut Groups,
    names: &mut Names,
) -> Result<(), AllocError>
    ensures front { OnOk result (Begins met.old met.new) }
    ensures added { (path : PathName)
        → HasReached (F.tree facts.now) loaded.now path from met.old
        → OnOk result (names.new ≡ with_paths names.old
        (needed (F.tree facts.now) (F.group_paths facts.now) loaded.now path)) }
{
    let mut next = from;
    for _ in 0..u64::MAX {
        let Some(group) = met.get(next) else {
            return Ok(());
        };
        add_wanted(facts, loaded, group, names)?;
        let items = items_in(facts, loaded, group);
        met.add_groups(items)?;
        next += 1;
    }
    // No memory holds so many.
    Err(AllocError)
}

/// Adds a group, where it has to be loaded.
fn add_wanted<F: Facts>(
    facts: &F,
    loaded: &Loaded,
    group: &Path,
    names: &mut Names,
) -> Result<(), AllocError>
    ensures { OnOk result
        (names.new ≡ (if is_wanted (F.tree facts.now) loaded.now group.now
        then with_path names.old group.now
        else names.old)) }
{
    if is_wanted(facts, loaded, group) {
        names.add(group.clone()?)?;
    }
    Ok(())
}

/// Whether a group has to be loaded: it is another owner's, and has no answer yet.
fn is_wanted<F: Facts>(facts: &F, loaded: &Loaded, group: &Path) -> bool
    ensures { result ≡ is_wanted (F.tree facts.now) loaded.now group.now }
{
    group.owner() != facts.owner() && loaded.answer(group).is_none()
}

/// The items of the text of a group; none where it has no text.
fn items_in<'a, F: Facts>(facts: &'a F, loaded: &'a Loaded, group: &Path) -> &'a [Item]
    ensures { result.now ≡ items_in (text_of (F.tree facts.now) loaded.now) group.now }
{
    match text_of(facts, loaded, group) {
        Some(text) => text.items(),
        None => &[],
    }
}

/// The text of a group: the tree's own for a group of the tree's owner, and for any other the text that was loaded.
fn text_of<'a, F: Facts>(facts: &'a F, loaded: &'a Loaded, group: &Path) -> Option<&'a GroupText>
    ensures { option_copied result ≡ text_of (F.tree facts.now) loaded.now group.now }
{
    if group.owner() == facts.owner() {
        facts.group(group)
    } else {
        loaded.text(group)
    }
}
