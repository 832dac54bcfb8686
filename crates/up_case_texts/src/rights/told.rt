//! The lines that say what a tree has and what was loaded. They answer nothing.
use super::many::{set_chain, set_pair};
use super::tree::Tree;
use std::alloc::Global;
use std::hash::RandomState;
use up_access::{AccessText, parse_access};
use up_case_lines::{Fault, Words, number_of, path_of, text_of, user_of};
use up_group::{GroupText, parse_group};
use up_names::{Control, Path, User};
use up_policy::{Facts, LoadAnswer};

/// `tree USER`: a tree of this owner, without a file.
pub fn tree_line(alloc: Global, random: RandomState, mut words: Words<'_>) -> Result<Tree, Fault> {
    let owner = words.one()?;
    Ok(Tree::new(alloc, random, user_of(alloc, owner)?))
}

/// `access PATH TEXT`: the text of the Access file at a path of the tree.
pub fn access_line(alloc: Global, tree: &mut Tree, mut words: Words<'_>) -> Result<(), Fault> {
    let (path, text) = words.two()?;
    let dir = dir_of_access(tree.path(alloc, path)?)?;
    let text = access_of(alloc, tree.facts.owner(), text)?;
    tree.facts.set_access(dir, text)?;
    Ok(())
}

// The directory that the Access file at this path is in.
fn dir_of_access(path: Path) -> Result<Path, Fault> {
    let mut dir = path;
    if dir.control_kind() != Control::Access {
        return Err(Fault::BadLine);
    }
    dir.drop_last();
    Ok(dir)
}

// The rules that a word stands for, in the tree of this owner.
fn access_of(alloc: Global, owner: &User, word: &str) -> Result<AccessText, Fault> {
    let text = text_of(alloc, word)?;
    Ok(parse_access(owner, text.as_slice())?)
}

/// `group PATH TEXT`: the text of the Group file at a path of the tree.
pub fn group_line(alloc: Global, tree: &mut Tree, mut words: Words<'_>) -> Result<(), Fault> {
    let (path, text) = words.two()?;
    let path = group_path(tree.path(alloc, path)?)?;
    let text = group_of(alloc, tree.facts.owner(), text)?;
    tree.facts.set_group(path, text)?;
    Ok(())
}

// A path at which a Group file may stand.
fn group_path(path: Path) -> Result<Path, Fault> {
    if path.control_kind() != Control::Group {
        return Err(Fault::BadLine);
    }
    Ok(path)
}

// The members that a word stands for, in the tree of this owner.
fn group_of(alloc: Global, owner: &User, word: &str) -> Result<GroupText, Fault> {
    let text = text_of(alloc, word)?;
    Ok(parse_group(owner, text.as_slice())?)
}

/// `chain N USER`: the groups `g1` to `gN`, each of which names the next one, and the last a user.
pub fn chain_line(alloc: Global, tree: &mut Tree, mut words: Words<'_>) -> Result<(), Fault> {
    let (count, user) = words.two()?;
    let count = number_of(count)?;
    let user = user_of(alloc, user)?;
    set_chain(alloc, &mut tree.facts, count, user.text())
}

/// `pair N`: the groups `first` and `second`, of N members each, that name each other.
pub fn pair_line(alloc: Global, tree: &mut Tree, mut words: Words<'_>) -> Result<(), Fault> {
    let count = number_of(words.one()?)?;
    set_pair(alloc, &mut tree.facts, count)
}

/// `loaded PATH ANSWER`: what the load of a group gave, which is `text TEXT`, `badtext N`, `missing` or `failed`.
pub fn loaded_line(alloc: Global, tree: &mut Tree, mut words: Words<'_>) -> Result<(), Fault> {
    let name = path_of(alloc, words.word()?)?;
    let answer = load_answer(alloc, name.owner(), words)?;
    tree.load(name, answer)?;
    Ok(())
}

// What the load of a group of this owner gave, by the last words of a line.
fn load_answer(alloc: Global, owner: &User, mut words: Words<'_>) -> Result<LoadAnswer, Fault> {
    match words.word()? {
        "text" => text_answer(alloc, owner, words.one()?),
        "badtext" => Ok(LoadAnswer::BadText(number_of(words.one()?)?)),
        word => {
            words.end()?;
            bare_answer(word)
        }
    }
}

fn text_answer(alloc: Global, owner: &User, word: &str) -> Result<LoadAnswer, Fault> {
    Ok(LoadAnswer::Text(group_of(alloc, owner, word)?))
}

// An answer of one word.
fn bare_answer(kind: &str) -> Result<LoadAnswer, Fault> {
    match kind {
        "missing" => Ok(LoadAnswer::Missing),
        "failed" => Ok(LoadAnswer::Failed),
        _ => Err(Fault::BadLine),
    }
}

/// `forget`: a new list of names, without one.
pub fn forget_line(alloc: Global, tree: &mut Tree, words: Words<'_>) -> Result<(), Fault> {
    words.end()?;
    tree.forget(alloc);
    Ok(())
}

/// `name PATH`: one name more in the list, where it does not have it.
pub fn name_line(alloc: Global, tree: &mut Tree, mut words: Words<'_>) -> Result<(), Fault> {
    let name = path_of(alloc, words.one()?)?;
    tree.needed.add(name)?;
    Ok(())
}

/// `needs PATH`: the groups that have to be loaded for a path of the tree, behind what the list has.
pub fn needs_line(alloc: Global, tree: &mut Tree, mut words: Words<'_>) -> Result<(), Fault> {
    let path = tree.path(alloc, words.one()?)?;
    tree.add_needed(alloc, &path)?;
    Ok(())
}
