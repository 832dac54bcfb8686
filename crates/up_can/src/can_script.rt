//! A `can` script while it runs: what it has named so far, and what each of its lines does.
ghost use Rattle.std.specs.Prelude.{◌≡◌, None, Some, IfOk, OnOk};
ghost use Rattle.std.specs.Option.{option_copied};
ghost use Rattle.up_text.specs.Lines.{words_left};
ghost use Rattle.up_can.specs.CanFiles.{bare_tree};
ghost use Rattle.up_can.specs.CanLines.{answer_to, can_line, effect_of, files_effect, first_effect, kind_effect, reply_of, tree_after, tree_line};

use crate::can_files::CanFiles;
use crate::can_lines::{
    CanKind, NOTHING, Reply, access_line, group_line, kind_of, read_path, read_user, verdict_line,
};
use std::alloc::{AllocError, Global};
use std::hash::RandomState;
use std::marker::Model;
use up_command::user_named;
use up_names::{Path, User};
use up_policy::{Facts, can};
use up_rights::Right;
use up_text::{cut_word, is_silent, one_word, three_words};

/// A script between two lines: no tree before its `tree` line, then the files that it has named. It keeps the allocator
/// and the hash keys that it was made with.
#[derive(Drop)]
pub struct CanScript {
    alloc: Global,
    random: RandomState,
    tree: Option<CanTree>,
}

impl Model for CanScript {
    ghost use Rattle.up_can.specs.CanLines.{Tree};

    ghost Value = { Tree };

    ghost view = { λ script. script.tree };
}

impl CanScript {
    /// A script before its first line. It takes no memory.
    pub fn new(alloc: Global, random: RandomState) -> CanScript
        ensures { result ≡ None }
    {
        CanScript {
            alloc,
            random,
            tree: None,
        }
    }

    /// Runs a line, and answers what it prints, or `None` where it is malformed and changes nothing.
    #[tactic(auto, unfolding(crate::specs::CanLines::effect_of, crate::specs::CanLines::words_effect))]
    pub fn run_line(&mut self, line: &[u8]) -> Result<Reply, AllocError>
        ensures reply { IfOk result
            (λ reply. option_copied reply ≡ reply_of (effect_of self.old line.now)) }
        ensures after { OnOk result (self.new ≡ tree_after self.old (effect_of self.old line.now)) }
    {
        if is_silent(line) {
            return Ok(NOTHING);
        }
        let (keyword, arguments) = cut_word(line);
        match kind_of(keyword) {
            Some(kind) => self.run_kind(kind, arguments),
            None => Ok(None),
        }
    }

    fn run_kind(&mut self, kind: CanKind, arguments: Option<&[u8]>) -> Result<Reply, AllocError>
        ensures reply { IfOk result (λ reply. option_copied reply
            ≡ reply_of (kind_effect kind self.old (words_left (option_copied arguments.entry)))) }
        ensures after { OnOk result (self.new
            ≡ tree_after self.old
            (kind_effect kind self.old (words_left (option_copied arguments.entry)))) }
    {
        match &mut self.tree {
            Some(tree) => tree.run_kind(self.alloc, kind, arguments),
            None => self.run_first(kind, arguments),
        }
    }

    /// A line before the tree is named: only one that names it fits.
    #[tactic(auto, unfolding(crate::specs::CanLines::first_effect))]
    fn run_first(&mut self, kind: CanKind, arguments: Option<&[u8]>) -> Result<Reply, AllocError>
        requires { self.old ≡ None }
        ensures reply { IfOk result (λ reply. option_copied reply
            ≡ reply_of (first_effect kind (words_left (option_copied arguments.entry)))) }
        ensures after { OnOk result (self.new
            ≡ tree_after None (first_effect kind (words_left (option_copied arguments.entry)))) }
    {
        if kind != CanKind::Tree {
            return Ok(None);
        }
        let Some(tree) = tree_line(self.alloc, self.random, arguments)? else {
            return Ok(None);
        };
        drop(self.tree.replace(tree));
        Ok(NOTHING)
    }
}

/// The files of a script, and the memory of its questions.
#[derive(Drop)]
struct CanTree {
    files: CanFiles,
    asked: Asked,
}

impl Model for CanTree {
    ghost use Rattle.up_can.specs.declared.can_files.CanFiles.{CanFiles};

    ghost Value = { CanFiles };

    ghost view = { λ tree. tree.files };
}

impl CanTree {
    /// A tree of this owner, without any of these files.
    fn new(random: RandomState, owner: User) -> Result<CanTree, AllocError>
        ensures { IfOk result (λ tree. tree ≡ bare_tree owner) }
    {
        let asked = Asked::of(&owner)?;
        Ok(CanTree {
            files: CanFiles::new(random, owner),
            asked,
        })
    }

    /// A line once the tree is named.
    #[tactic(auto, using(crate::proofs::CanFolds::asked_says, crate::proofs::CanFolds::asked_keeps), unfolding(crate::specs::CanLines::files_effect))]
    fn run_kind(
        &mut self,
        alloc: Global,
        kind: CanKind,
        arguments: Option<&[u8]>,
    ) -> Result<Reply, AllocError>
        ensures reply { IfOk result (λ reply. option_copied reply
            ≡ reply_of (files_effect kind self.old (words_left (option_copied arguments.entry)))) }
        ensures after { OnOk result (Some self.new
            ≡ tree_after (Some self.old)
            (files_effect kind self.old (words_left (option_copied arguments.entry)))) }
    {
        match kind {
            CanKind::Tree => Ok(None),
            CanKind::Access => access_line(alloc, &mut self.files, arguments),
            CanKind::Group => group_line(alloc, &mut self.files, arguments),
            CanKind::Can => self.can_line(alloc, arguments),
        }
    }

    // `can USER RIGHT PATH`
    #[tactic(auto, unfolding(crate::specs::CanLines::can_line))]
    fn can_line(&mut self, alloc: Global, arguments: Option<&[u8]>) -> Result<Reply, AllocError>
        ensures reply { IfOk result (λ reply. option_copied reply
            ≡ can_line self.old (words_left (option_copied arguments.entry))) }
        ensures unchanged { self.new ≡ self.old }
    {
        let Some((user, right, path)) = three_words(arguments) else {
            return Ok(None);
        };
        if !read_user(alloc, user, &mut self.asked.user)? {
            return Ok(None);
        }
        let Some(right) = Right::from_word(right) else {
            return Ok(None);
        };
        if !read_path(alloc, path, &mut self.asked.path)? {
            return Ok(None);
        }
        answer(
            alloc,
            &self.files,
            &self.asked.user,
            right,
            &self.asked.path,
        )
    }
}

/// The user and the path of the last question, in whose memory the next are read.
#[derive(Drop)]
struct Asked {
    user: User,
    path: Path,
}

impl Asked {
    /// Before the first question: a user, and the root of its tree.
    fn of(user: &User) -> Result<Asked, AllocError> {
        Asked::at(root_of(user)?)
    }

    /// A path, and its owner.
    fn at(path: Path) -> Result<Asked, AllocError> {
        let user = path.owner().clone()?;
        Ok(Asked { user, path })
    }
}

fn root_of(user: &User) -> Result<Path, AllocError> {
    Path::root(user.clone()?)
}

// `tree USER`
#[tactic(auto, unfolding(crate::specs::CanLines::tree_line))]
fn tree_line(
    alloc: Global,
    random: RandomState,
    arguments: Option<&[u8]>,
) -> Result<Option<CanTree>, AllocError>
    ensures { IfOk result (λ tree. tree ≡ tree_line (words_left (option_copied arguments.entry))) }
{
    let Some(word) = one_word(arguments) else {
        return Ok(None);
    };
    let Some(owner) = user_named(alloc, word)? else {
        return Ok(None);
    };
    Ok(Some(CanTree::new(random, owner)?))
}

/// The line that answers a question, `None` where the path is another owner's.
fn answer(
    alloc: Global,
    files: &CanFiles,
    user: &User,
    right: Right,
    path: &Path,
) -> Result<Reply, AllocError>
    ensures { IfOk result (λ reply. option_copied reply
        ≡ answer_to files.now user.now right path.now) }
{
    if path.owner() != files.tree.owner() {
        return Ok(None);
    }
    let answer = can(alloc, &files.tree, &files.loaded, user, right, path)?;
    Ok(Some(verdict_line(answer)))
}
